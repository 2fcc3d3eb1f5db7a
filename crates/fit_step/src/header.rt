//! What a record header begins (FIT protocol, "Record Header").
ghost use Rattle.std.specs.Prelude.{◌≡◌, ◌++◌, [], ◌∷◌, IfOk, IsOk, OnOk, length, map};
ghost use Rattle.fit_record.specs.Sound.{IsSound};
ghost use Rattle.fit_record.specs.Records.{layout, dev_layout};
ghost use Rattle.fit_record.specs.Sizes.{HasNoFields};
ghost use Rattle.fit_step.specs.Machine.{no_items, new_definition, new_message};

use fit_base::{Bits, Code, Entries, Items, Order, width_of};
use fit_record::header::time_offset;
pub(crate) use fit_record::header::{
    has_developer_fields, has_reserved_bit, is_definition, local_type,
};
use fit_record::{Defined, Layout, MessageDef, Values};
use std::alloc::{AllocError, Allocator};

/// The definition message that it begins.
pub(crate) fn new_definition<A: Allocator + Copy>(alloc: A, byte: u8) -> MessageDef<A>
    ensures { result ≡ new_definition byte }
{
    let dev = if has_developer_fields(byte) {
        Some(Entries::new(alloc))
    } else {
        None
    };
    MessageDef {
        local: local_type(byte),
        reserved: 0,
        order: Order::Little,
        global: 0,
        fields: Entries::new(alloc),
        dev,
    }
}

/// The data message that it begins: its fields without items, and memory for them.
pub(crate) fn new_message<A: Allocator + Copy>(
    alloc: A,
    defined: &Defined<A>,
    byte: u8,
) -> Result<Values<A>, AllocError>
    requires { IsSound defined.now }
    ensures made { IfOk result (λ v. v ≡ new_message byte (layout defined.now)
        (dev_layout defined.now)) }
    ensures free { HasNoFields defined.now.definition → IsOk result }
{
    Ok(Values {
        local: local_type(byte),
        offset: time_offset(byte),
        fields: empty_fields(alloc, &defined.layout())?,
        dev: empty_fields(alloc, &defined.dev_layout())?,
    })
}

/// The data message that it begins, of which no field is made. It takes no memory.
pub(crate) fn unmade_message<A: Allocator + Copy>(alloc: A, byte: u8) -> Values<A>
    ensures { result ≡ new_message byte [] [] }
{
    Values {
        local: local_type(byte),
        offset: time_offset(byte),
        fields: Entries::new(alloc),
        dev: Entries::new(alloc),
    }
}

/// A field without items, and memory for those that its size gives. For a lone one none is taken, nor is its size divided.
#[inline(always)]
fn empty_items<A: Allocator>(alloc: A, code: u8, size: u8) -> Result<Items<A>, AllocError>
    ensures { IfOk result (λ items. items ≡ no_items (code, size)) }
{
    let width = width_of(Code(code), size);
    if size <= width {
        return Ok(Items {
            width,
            bits: Bits::new(alloc),
        });
    }
    Ok(Items {
        width,
        bits: Bits::with_capacity(alloc, (size / width) as usize)?,
    })
}

/// Puts a field without items after those before, and memory for the items that its size gives. One without bytes has its width from its code
/// alone.
#[inline(always)]
fn push_empty<A: Allocator + Copy>(
    items: &mut Entries<Items<A>, A>,
    alloc: A,
    code: u8,
    size: u8,
) -> Result<(), AllocError>
    ensures { OnOk result (items.new ≡ items.old ++ no_items (code, size) ∷ []) }
{
    if size == 0 {
        items.push(Items {
            width: width_of(Code(code), 0),
            bits: Bits::new(alloc),
        })?;
        return Ok(());
    }
    items.push(empty_items(alloc, code, size)?)?;
    Ok(())
}

/// Fields without items. Each call is a walk of its own, which knows where its layout stands.
#[inline(always)]
fn empty_fields<A: Allocator + Copy>(
    alloc: A,
    layout: &Layout<'_>,
) -> Result<Entries<Items<A>, A>, AllocError>
    ensures made { IfOk result (λ items. items ≡ map no_items layout.now) }
    ensures free { length layout.now ≡ 0 → IsOk result }
{
    if layout.len() == 0 {
        return Ok(Entries::new(alloc));
    }
    let mut items = Entries::with_capacity(alloc, layout.len())?;
    for place in 0..layout.len() {
        let (code, size) = layout.shape(place);
        push_empty(&mut items, alloc, code, size)?;
    }
    Ok(items)
}
