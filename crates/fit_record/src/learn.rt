//! What a field description message says (FIT protocol, "Developer Fields").
ghost use Rattle.std.specs.Prelude.{◌≡◌, option_copied, length, map};
ghost use Rattle.fit_record.specs.Environment.{description, first_items, only_byte};
ghost use Rattle.fit_record.specs.MessageBytes.{message_in};
ghost use Rattle.fit_record.specs.Records.{HaveShape, message_size};

use crate::describing::description_by_bytes;
use crate::{FieldDef, MessageBytes, MessageDef, Values};
use fit_base::Items;
use std::alloc::Allocator;

/// The global message number of field descriptions ("Developer Fields").
pub const FIELD_DESCRIPTION: u16 = 206;

/// A developer field by its developer data index and its number.
#[derive(Clone, Copy, Debug, PartialEq, Eq, PartialOrd, Ord)]
pub struct DevKey {
    /// The developer data index.
    pub index: u8,
    /// The number of the field among those of this index.
    pub number: u8,
}

/// The base type code that a message describes for a developer field.
#[derive(Clone, Copy, Debug, PartialEq, Eq)]
pub struct Description {
    /// The developer field.
    pub key: DevKey,
    /// Its base type code.
    pub code: u8,
}

/// What a message describes, if it does. Most are told by their global message number that they don't.
#[inline(always)]
pub(crate) fn description_of<A: Allocator>(d: &MessageDef<A>, v: &Values<A>) -> Option<Description>
    requires { HaveShape (map (λ f. (f.code, f.size)) d.now.fields) v.now.fields }
    ensures { result ≡ description d.now v.now }
{
    if d.global != FIELD_DESCRIPTION {
        return None;
    }
    description_in(d, v)
}

/// What a field description describes.
#[inline(never)]
fn description_in<A: Allocator>(d: &MessageDef<A>, v: &Values<A>) -> Option<Description>
    requires global { d.now.global ≡ 206 }
    requires fields { HaveShape (map (λ f. (f.code, f.size)) d.now.fields) v.now.fields }
    ensures { result ≡ description d.now v.now }
{
    let fields = d.fields.as_slice();
    let items = v.fields.as_slice();
    let index = only_byte(fields, items, 0)?;
    let number = only_byte(fields, items, 1)?;
    let code = only_byte(fields, items, 2)?;
    Some(Description {
        key: DevKey { index, number },
        code,
    })
}

/// The only item of the first field of this number, where it has width 1.
fn only_byte<A: Allocator>(fields: &[FieldDef], items: &[Items<A>], number: u8) -> Option<u8>
    requires { HaveShape (map (λ f. (f.code, f.size)) fields.now) items.now }
    ensures { result ≡ only_byte fields.now items.now number }
{
    let i = first_items(fields, items, number)?;
    if i.width != 1 {
        return None;
    }
    match i.bits.as_slice() {
        [n] => Some(*n as u8),
        _ => None,
    }
}

/// The items of the first field of this number.
fn first_items<'a, A: Allocator>(
    fields: &[FieldDef],
    items: &'a [Items<A>],
    number: u8,
) -> Option<&'a Items<A>>
    ensures { option_copied result ≡ first_items fields.now items.now number }
{
    for (place, f) in fields.iter().enumerate() {
        if f.number == number {
            return items.get(place);
        }
    }
    None
}

impl<'a, A: Allocator> MessageBytes<'a, A> {
    /// What the message describes, if it does, as `Env::described_by` says of the values that it has. None are made of its bytes.
    #[inline(always)]
    pub fn description(&self) -> Option<Description>
        requires { length self.now.body.now ≡ message_size self.now.defined.now }
        ensures { result ≡ description self.now.defined.now.definition (message_in self.now) }
    {
        let definition = &self.defined.definition;
        if definition.global != FIELD_DESCRIPTION {
            return None;
        }
        description_by_bytes(definition, self.body)
    }
}
