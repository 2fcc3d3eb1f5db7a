//! Whether a record can be next in an environment, and how long its bytes are.
ghost use Rattle.std.specs.Prelude.{◌≡◌, ℕ, ◌+◌, ◌<◌, ◌≤◌, IfOk, IfErr, OnOk, IfSome, Some, None, IsSomeAnd, length};
ghost use Rattle.fit_record.specs.Records.{DefinitionFits, DataHeaderFits, HaveShape, layout, dev_layout, DataFits, body_length};
ghost use Rattle.fit_record.specs.Environment.{defined_at};
ghost use Rattle.fit_record.specs.Faults.{wrong_from, wrong_place, header_fault, body_fault, data_fault, definition_fault};
ghost use Rattle.fit_record.specs.DefinitionLengths.{definition_length};
ghost use Rattle.fit_record.specs.Sound.{IsSound};

use crate::environment::Defined;
use crate::{Env, Layout, MessageDef, Values};
use fit_base::{Code, Items, has_shape};
use std::alloc::Allocator;
use thiserror::Error;

/// Why a record can't be where it is.
#[derive(Clone, Copy, PartialEq, Eq, Debug, Drop, Error)]
pub enum ShapeFault {
    /// The local message type is 16 or more, or with a time offset 4 or more.
    #[error("the local message type is 16 or more, or 4 or more with a time offset")]
    BadLocal,
    /// The time offset is 32 or more.
    #[error("the time offset is 32 or more")]
    BadOffset,
    /// A data message of a local message type without a definition.
    #[error("the local message type isn't defined")]
    UndefinedLocal,
    /// The first field that is missing or too many, or whose items have another width or number than
    /// defined or a number too large for their width. Places count from 0. Those of developer fields
    /// go on from the number of fields, of a data message that of its definition. In a definition
    /// message place 255 of either list is too many.
    #[error("the field at place {field} isn't as defined")]
    WrongShape { field: u64 },
}

/// The length of a definition's bytes.
pub(crate) fn definition_fits<A: Allocator>(d: &MessageDef<A>) -> Result<u32, ShapeFault>
    ensures ok { IfOk result (λ n. DefinitionFits d.now × (n ≡ definition_length d.now)) }
    ensures err { IfErr result (λ fault. definition_fault d.now ≡ Some fault) }
{
    let _global = d.global;
    if d.local >= 16 {
        return Err(ShapeFault::BadLocal);
    }
    if d.fields.len() >= 256 {
        return Err(ShapeFault::WrongShape { field: 255 });
    }
    let fields = d.fields.len() as u32;
    match &d.dev {
        None => Ok(6 + 3 * fields),
        Some(dev) => {
            if dev.len() >= 256 {
                return Err(ShapeFault::WrongShape {
                    field: fields as u64 + 255,
                });
            }
            Ok(7 + 3 * fields + 3 * dev.len() as u32)
        }
    }
}

/// Whether a data message may have this local message type and time offset.
fn header_fits(local: u8, offset: Option<u8>) -> Result<(), ShapeFault>
    ensures ok { OnOk result (DataHeaderFits local offset) }
    ensures err { IfErr result (λ fault. header_fault local offset ≡ Some fault) }
{
    match offset {
        None => {
            if local >= 16 {
                return Err(ShapeFault::BadLocal);
            }
            Ok(())
        }
        Some(offset) => {
            if local >= 4 {
                return Err(ShapeFault::BadLocal);
            }
            if offset >= 32 {
                return Err(ShapeFault::BadOffset);
            }
            Ok(())
        }
    }
}

/// The first field that isn't as defined, counted from `first`. Each call is a walk of its own, which knows where its layout
/// stands.
#[inline(always)]
fn wrong_field<A: Allocator>(first: u64, layout: &Layout<'_>, items: &[Items<A>]) -> Option<u64>
    requires { first + length layout.now < 512 }
    ensures { result ≡ wrong_from first layout.now items.now }
{
    let count = layout.len();
    for n in 0..count {
        let place = first + n as u64;
        let (code, size) = layout.shape(n);
        let Some(i) = items.get(n) else {
            return Some(place);
        };
        if !has_shape(Code(code), size, i) {
            return Some(place);
        }
    }
    if count < items.len() {
        return Some(first + count as u64);
    }
    None
}

/// Whether the items of a data message are as defined.
#[inline(always)]
fn body_fits<A: Allocator>(p: &Defined<A>, v: &Values<A>) -> Result<(), ShapeFault>
    requires { IsSound p.now }
    ensures ok { OnOk result (HaveShape (layout p.now) v.now.fields
        × HaveShape (dev_layout p.now) v.now.dev) }
    ensures err { IfErr result (λ fault. body_fault (Some p.now) v.now ≡ Some fault) }
{
    if let Some(field) = wrong_field(0, &p.layout(), v.fields.as_slice()) {
        return Err(ShapeFault::WrongShape { field });
    }
    let fields = p.definition.fields.len() as u64;
    if let Some(field) = wrong_field(fields, &p.dev_layout(), v.dev.as_slice()) {
        return Err(ShapeFault::WrongShape { field });
    }
    Ok(())
}

/// The length of a data message's bytes.
pub(crate) fn data_fits<A: Allocator>(env: &Env<A>, v: &Values<A>) -> Result<u32, ShapeFault>
    ensures ok { IfOk result (λ n. IsSomeAnd (defined_at env.now v.now.local) (λ p.
        DataFits v.now p × (n ≡ 1 + body_length p.definition) × IsSound p)) }
    ensures err { IfErr result (λ fault. data_fault env.now v.now ≡ Some fault) }
{
    header_fits(v.local, v.offset)?;
    let Some(p) = env.defined(v.local) else {
        return Err(ShapeFault::UndefinedLocal);
    };
    let Some(length) = env.length(v.local) else {
        return Err(ShapeFault::UndefinedLocal);
    };
    body_fits(p, v)?;
    Ok(1 + length)
}
