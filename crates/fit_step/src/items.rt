//! The bytes of a data message after its record header, one by one (FIT protocol, "Data Message").
ghost use Rattle.std.specs.Prelude.{◌≡◌, ℕ, ◌+◌, ◌-◌, ◌<◌, ◌≤◌, ◌⊎◌, IsOk, OnOk, OnErr, Some, [], ◌∷◌, ◌++◌, length, drop};
ghost use Rattle.fit_record.specs.declared.message.Values.{Values};
ghost use Rattle.fit_record.specs.declared.message.Record.TheVariants.{Values as Data};
ghost use Rattle.fit_record.specs.Sound.{IsSound};
ghost use Rattle.fit_record.specs.Environment.{Environment, dev_defs, defined_at};
ghost use Rattle.fit_record.specs.Records.{layout, dev_layout};
ghost use Rattle.fit_step.specs.Machine.{with_number, beyond_number, add_number, begin_dev, begin_fields, field_move, dev_move};
ghost use Rattle.fit_step.specs.Places.{WantsNone};
ghost use Rattle.fit_step.specs.inner.Steps.{next_with_bytes, message_begun, IsInField, Made};

use crate::partial::Partial;
use crate::{Phase, Stop};
use fit_base::{Code, Entries, Items, Order, bits_at, width_of};
use fit_record::{Defined, Layout, Values};
use std::alloc::{AllocError, Allocator};
use std::mem;

/// The field of a data message that is read: its place, the width of its items, and how many of its bytes are to come.
#[derive(Clone, Copy)]
pub(crate) struct FieldInProgress {
    pub(crate) place: u8,
    pub(crate) width: u8,
    pub(crate) left: u8,
}

/// Puts a number at the end of a field.
pub(crate) fn add_number<A: Allocator + Copy>(
    alloc: A,
    fields: &mut Entries<Items<A>, A>,
    place: u8,
    number: u64,
) -> Result<(), AllocError>
    requires { place < length fields.old }
    ensures ok { OnOk result (fields.new ≡ add_number place fields.old number) }
    ensures err { OnErr result (fields.new ≡ fields.old) }
{
    let mut items = mem::replace(fields, Entries::new(alloc)).into_vec();
    let added = items[place as usize].bits.push(number);
    *fields = Entries::from_vec(items);
    added
}

/// One byte more of a field, and where it ends a number, that number.
fn take_byte<A: Allocator + Copy>(
    alloc: A,
    order: Order,
    field: FieldInProgress,
    fields: &mut Entries<Items<A>, A>,
    partial: &mut Partial,
    byte: u8,
) -> Result<(), AllocError>
    requires width { (field.width ≡ 1) ⊎ (field.width ≡ 2) ⊎ (field.width ≡ 4) ⊎ (field.width ≡ 8) }
    requires place { field.place < length fields.old }
    requires short { length partial.old < field.width }
    ensures ok { OnOk result ((fields.new ≡ with_number order field.width field.place fields.old
        (partial.old ++ byte ∷ [])) × (partial.new
        ≡ beyond_number field.width (partial.old ++ byte ∷ []))) }
    ensures err { OnErr result ((fields.new ≡ fields.old) × (partial.new ≡ partial.old)) }
    ensures free { length partial.old + 1 < field.width → IsOk result }
{
    let bytes = partial.with(byte);
    if bytes.len() < field.width as usize {
        *partial = bytes;
        return Ok(());
    }
    let number = bits_at(order, field.width, bytes.as_slice());
    add_number(alloc, fields, field.place, number)?;
    *partial = Partial::new();
    Ok(())
}

/// The first field from a place on that has bytes: its place, the width of its items, and its size. Each call is a walk of its own, which
/// knows where its layout stands.
#[inline(always)]
fn field_from(layout: &Layout<'_>, from: usize) -> Option<(u8, u8, u8)>
    requires few { length layout.now < 256 }
    requires from { from ≤ length layout.now }
    ensures { result ≡ next_with_bytes from (drop from layout.now) }
{
    for place in from..layout.len() {
        let (code, size) = layout.shape(place);
        if size > 0 {
            return Some((place as u8, width_of(Code(code), size), size));
        }
    }
    None
}

/// Begins the first developer field from a place on that has bytes. Where there is none, the message is whole.
pub(crate) fn begin_dev<A: Allocator>(defined: &Defined<A>, from: usize, phase: &mut Phase) -> bool
    requires sound { IsSound defined.now }
    requires from { from ≤ length (dev_defs defined.now.definition.dev) }
    ensures { (room : ℕ) (v : Values A) → begin_dev room v from (drop from (dev_layout defined.now))
        ≡ message_begun result phase.new room v }
{
    match field_from(&defined.dev_layout(), from) {
        Some((place, width, left)) => {
            *phase = Phase::DevItems { place, width, left };
            false
        }
        None => {
            *phase = Phase::RecordHeader;
            true
        }
    }
}

/// Begins the first field from a place on that has bytes, or else the first developer field that has. Where there is
/// none, the message is whole.
pub(crate) fn begin_fields<A: Allocator>(
    defined: &Defined<A>,
    from: usize,
    phase: &mut Phase,
) -> bool
    requires sound { IsSound defined.now }
    requires from { from ≤ length defined.now.definition.fields }
    ensures { (room : ℕ) (v : Values A) → begin_fields room v from (drop from (layout defined.now))
        (dev_layout defined.now) ≡ message_begun result phase.new room v }
{
    match field_from(&defined.layout(), from) {
        Some((place, width, left)) => {
            *phase = Phase::FieldItems { place, width, left };
            false
        }
        None => begin_dev(defined, 0, phase),
    }
}

/// A byte of a field. Whether the message is whole. The caller counts the room.
#[tactic(auto, unfolding(crate::specs::Machine::field_move))]
pub(crate) fn at_field_items<A: Allocator + Copy>(
    alloc: A,
    defined: &Defined<A>,
    phase: &mut Phase,
    partial: &mut Partial,
    values: &mut Values<A>,
    field: FieldInProgress,
    byte: u8,
) -> Result<bool, Stop>
    requires sound { IsSound defined.now }
    requires reading { IsInField (length defined.now.definition.fields) field.place field.width
        field.left partial.old }
    requires fields { length values.old.fields ≡ length defined.now.definition.fields }
    ensures made { (e : Environment A) (room : ℕ) → defined_at e values.old.local ≡ Some defined.now
        → Made phase.new (room - 1) (Some (Data values.new)) partial.new result
        (field_move e field.place field.width field.left room values.old partial.old byte) }
    ensures err { OnErr result ((phase.new ≡ phase.old) × (partial.new ≡ partial.old)
        × (values.new ≡ values.old)) }
    ensures free { length partial.old + 1 < field.width → WantsNone result }
{
    let order = defined.definition.order;
    if take_byte(alloc, order, field, &mut values.fields, partial, byte).is_err() {
        return Err(Stop::NoMemory);
    }
    if field.left > 1 {
        *phase = Phase::FieldItems {
            place: field.place,
            width: field.width,
            left: field.left - 1,
        };
        return Ok(false);
    }
    *partial = Partial::new();
    Ok(begin_fields(defined, field.place as usize + 1, phase))
}

/// A byte of a developer field. Whether the message is whole. The caller counts the room.
#[tactic(auto, unfolding(crate::specs::Machine::dev_move))]
pub(crate) fn at_dev_items<A: Allocator + Copy>(
    alloc: A,
    defined: &Defined<A>,
    phase: &mut Phase,
    partial: &mut Partial,
    values: &mut Values<A>,
    field: FieldInProgress,
    byte: u8,
) -> Result<bool, Stop>
    requires sound { IsSound defined.now }
    requires reading { IsInField (length (dev_defs defined.now.definition.dev)) field.place
        field.width field.left partial.old }
    requires dev { length values.old.dev ≡ length (dev_defs defined.now.definition.dev) }
    ensures made { (e : Environment A) (room : ℕ) → defined_at e values.old.local ≡ Some defined.now
        → Made phase.new (room - 1) (Some (Data values.new)) partial.new result
        (dev_move e field.place field.width field.left room values.old partial.old byte) }
    ensures err { OnErr result ((phase.new ≡ phase.old) × (partial.new ≡ partial.old)
        × (values.new ≡ values.old)) }
    ensures free { length partial.old + 1 < field.width → WantsNone result }
{
    let order = defined.definition.order;
    if take_byte(alloc, order, field, &mut values.dev, partial, byte).is_err() {
        return Err(Stop::NoMemory);
    }
    if field.left > 1 {
        *phase = Phase::DevItems {
            place: field.place,
            width: field.width,
            left: field.left - 1,
        };
        return Ok(false);
    }
    *partial = Partial::new();
    Ok(begin_dev(defined, field.place as usize + 1, phase))
}
