//! The blocks of data messages.
ghost use Rattle.std.specs.Prelude.{◌≡◌, ◌≤◌, ◌+◌, ◌++◌, IfOk, OnOk, Some, drop, flat_map, length, slice_index_or, take, true};
ghost use Rattle.std.specs.Global.{Global};
ghost use Rattle.fit_profile.specs.Looks.{known};
ghost use Rattle.fit_record.specs.Environment.{defined_at};
ghost use Rattle.fit_record.specs.ReadMessages.{fields_from};
ghost use Rattle.fit_record.specs.Records.{layout, message_size, sizes};
ghost use Rattle.fit_record.specs.Sound.{IsSound};
ghost use Rattle.fit_record.specs.declared.environment.Defined.{Defined};
ghost use Rattle.fit_messages.specs.Blocks as blocks;
ghost use Rattle.fit_messages.specs.Blocks.{slot};
ghost use Rattle.fit_messages.specs.inner.Heads.{TellsTimesAlone, head_bytes, opening_bytes};
ghost use Rattle.fit_messages.specs.inner.Sheets.{IsQuick, slots_from, with_sheet};

use crate::bytes::{BlockFront, EventPlace};
use crate::items::{add_all_read, write_lone};
use crate::sheet::{SHEET, Sheet, put_block, write_front, write_low};
use fit_profile::{Stream, Told};
use fit_record::{Defined, Layout};
use std::alloc::AllocError;

/// What stands before the items of a message after the length of its block.
#[derive(Clone, Copy)]
pub(crate) struct Head {
    pub place: EventPlace,
    /// Which definition of all it is of.
    pub number: u64,
    /// The local message type.
    pub local: u8,
    /// The time offset of a compressed header.
    pub offset: Option<u8>,
    /// Whether speed, distance, cycles and power stand there.
    pub counts: bool,
    pub told: Told,
}

/// A bit that says whether there is something.
#[inline(always)]
fn bit<T: Copy>(weight: u8, option: Option<T>) -> u8
    ensures { result ≡ blocks.flag weight option }
{
    match option {
        Some(_) => weight,
        None => 0,
    }
}

/// The bits that say what is told of a message.
#[inline(always)]
fn told_bits(told: Told) -> u8
    ensures { result ≡ blocks.told_bits told }
{
    bit(1, told.time)
        + bit(2, told.header_time)
        + bit(4, told.speed)
        + bit(8, told.distance)
        + bit(16, told.total_cycles)
        + bit(32, told.accumulated_power)
}

/// Those that say which times are told of it.
#[inline(always)]
fn time_bits(told: Told) -> u8
    ensures { result ≡ blocks.flag 1 told.time + blocks.flag 2 told.header_time }
{
    bit(1, told.time) + bit(2, told.header_time)
}

/// Writes speed, distance, cycles and power.
#[inline(always)]
fn write_amounts(sheet: &mut Sheet, at: usize, told: Told) -> usize
    requires room { at ≤ 40 }
    ensures end { result ≡ at + 32 }
    ensures text { take result sheet.new ≡ take at sheet.old ++ blocks.amounts told }
{
    let at = write_low(sheet, at, 8, told.speed.unwrap_or(u64::MAX));
    let at = write_low(sheet, at, 8, told.distance.unwrap_or(u64::MAX));
    let at = write_low(sheet, at, 8, told.total_cycles.unwrap_or(u64::MAX));
    write_low(sheet, at, 8, told.accumulated_power.unwrap_or(u64::MAX))
}

/// Writes what stands before the amounts of a message, or else its items. These bits say what is told of it. Returns the place after it.
#[inline(always)]
fn write_opening(sheet: &mut Sheet, head: Head, bits: u8) -> usize
    requires { bits ≡ blocks.told_bits head.told }
    ensures end { result ≡ 40 }
    ensures text { take result sheet.new ≡ take 4 sheet.old ++ opening_bytes head }
{
    let at = write_front(
        sheet,
        BlockFront {
            kind: 3,
            a: bits,
            b: head.local,
            c: head.offset.unwrap_or(0xFF),
            file: head.place.file,
            n: u64::from(head.told.time.unwrap_or(u32::MAX)),
            place: head.place.place,
        },
    );
    let at = write_low(sheet, at, 8, head.number);
    write_low(
        sheet,
        at,
        8,
        u64::from(head.told.header_time.unwrap_or(u32::MAX)),
    )
}

/// Writes what stands before the items of a message after the room for its length. Most have no amounts. Returns the place after it.
#[inline(always)]
fn write_head(sheet: &mut Sheet, head: Head) -> usize
    requires { TellsTimesAlone head }
    ensures place { result ≤ 72 }
    ensures text { take result sheet.new ≡ take 4 sheet.old ++ head_bytes head }
{
    if head.counts {
        let at = write_opening(sheet, head, told_bits(head.told));
        return write_amounts(sheet, at, head.told);
    }
    write_opening(sheet, head, time_bits(head.told))
}

/// How many fields of one number have room in a sheet after what stands before them.
const FEW: usize = (SHEET - 72) / 8;

/// Whether the items of fields are written without a test of each, where that can be but for how many they are.
#[inline(always)]
fn are_quick(quick: bool, layout: &Layout<'_>) -> bool
    ensures quick { result ≡ true → quick ≡ true }
    ensures few { result ≡ true → length layout.now ≤ 55 }
{
    quick && layout.len() <= FEW
}

/// Adds the items of the fields, but for developer fields, that these bytes begin with. Where it is quick, each is one number, and eight
/// bytes more than those of the message are there. Returns the place after the items, and the bytes after theirs.
#[inline(always)]
fn add_fields<'a>(
    rest: &mut Vec<u8>,
    sheet: &mut Sheet,
    start: usize,
    defined: &Defined,
    quick: bool,
    bytes: &'a [u8],
) -> Result<(usize, &'a [u8]), AllocError>
    requires place { start ≤ 72 }
    requires size { sizes (layout defined.now) ≤ length bytes.now }
    requires quick { quick ≡ true → IsQuick defined.now bytes.now }
    ensures place { IfOk result (λ r. r.0 ≤ 512) }
    ensures text { IfOk result (λ r. with_sheet rest.new.items sheet.new r.0
        ≡ with_sheet rest.old.items sheet.old start ++ flat_map slot (fields_from {A = Global}
        defined.now.definition.order (layout defined.now) bytes.now)) }
    ensures rest { IfOk result (λ r. r.1.now ≡ drop (sizes (layout defined.now)) bytes.now) }
{
    let order = defined.definition.order;
    let layout = defined.layout();
    if are_quick(quick, &layout) {
        return Ok(write_lone(sheet, start, order, &layout, bytes));
    }
    add_all_read(rest, sheet, start, order, &layout, bytes)
}

/// Adds the items of a message that these bytes begin with, quickly or not. Returns the place after them.
#[inline(always)]
fn add_items(
    rest: &mut Vec<u8>,
    sheet: &mut Sheet,
    start: usize,
    defined: &Defined,
    quick: bool,
    bytes: &[u8],
) -> Result<usize, AllocError>
    requires place { start ≤ 72 }
    requires sound { IsSound defined.now }
    requires within { message_size defined.now ≤ length bytes.now }
    requires quick { quick ≡ true → IsQuick defined.now bytes.now }
    ensures place { IfOk result (λ end. end ≤ 512) }
    ensures text { IfOk result (λ end. with_sheet rest.new.items sheet.new end
        ≡ with_sheet rest.old.items sheet.old start ++ slots_from defined.now bytes.now) }
{
    let (at, back) = add_fields(rest, sheet, start, defined, quick, bytes)?;
    let dev_layout = defined.dev_layout();
    let order = defined.definition.order;
    let (at, _) = add_all_read(rest, sheet, at, order, &dev_layout, back)?;
    Ok(at)
}

/// Whether the messages of a local message type have no bytes after their record header.
#[inline(always)]
fn are_empty(stream: &Stream, local: u8) -> bool
    ensures { result ≡ true → (p : Defined Global)
        → defined_at (known stream.now) local ≡ Some p → message_size p ≡ 0 }
{
    match stream.env().length(local) {
        Some(length) => length == 0,
        None => false,
    }
}

/// Adds the items of a message that these bytes begin with. Where it has no bytes, its fields aren't gone through. Returns the place after
/// them.
#[inline(always)]
fn add_any_items(
    rest: &mut Vec<u8>,
    sheet: &mut Sheet,
    start: usize,
    defined: &Defined,
    is_empty: bool,
    quick: bool,
    bytes: &[u8],
) -> Result<usize, AllocError>
    requires place { start ≤ 72 }
    requires sound { IsSound defined.now }
    requires empty { is_empty ≡ true → message_size defined.now ≡ 0 }
    requires within { message_size defined.now ≤ length bytes.now }
    requires quick { quick ≡ true → IsQuick defined.now bytes.now }
    ensures place { IfOk result (λ end. end ≤ 512) }
    ensures text { IfOk result (λ end. with_sheet rest.new.items sheet.new end
        ≡ with_sheet rest.old.items sheet.old start ++ slots_from defined.now bytes.now) }
{
    if is_empty {
        return Ok(start);
    }
    add_items(rest, sheet, start, defined, quick, bytes)
}

/// Puts the block of a message of which this stands before its items, which these bytes begin with, by the definition that a stream has for
/// its local message type. Where it is quick, each field but for developer fields is one number, and eight bytes more than those of the
/// message are there. `rest` lends its memory.
#[inline(always)]
pub(crate) fn put_message(
    text: &mut Vec<u8>,
    rest: &mut Vec<u8>,
    sheet: &mut Sheet,
    stream: &Stream,
    head: Head,
    quick: bool,
    bytes: &[u8],
) -> Result<(), AllocError>
    requires head { TellsTimesAlone head }
    requires defined { (p : Defined Global)
        × (defined_at (known stream.now) head.local ≡ Some p)
        × (message_size p ≤ length bytes.now) }
    requires quick { quick ≡ true → (p : Defined Global)
        → defined_at (known stream.now) head.local ≡ Some p → IsQuick p bytes.now }
    ensures { OnOk result ((p : Defined Global)
        → defined_at (known stream.now) head.local ≡ Some p
        → text.new.items ≡ text.old.items
        ++ blocks.sized (head_bytes head ++ slots_from p bytes.now)) }
{
    let Some(defined) = stream.env().defined(head.local) else {
        unreachable!()
    };
    rest.clear();
    let is_empty = are_empty(stream, head.local);
    let at = write_head(sheet, head);
    let at = add_any_items(rest, sheet, at, defined, is_empty, quick, bytes)?;
    put_block(text, rest, sheet, at)
}

/// The number of a local message type.
#[inline(always)]
pub(crate) fn number_at(numbers: &[u64; 16], local: u8) -> u64
    ensures { result ≡ slice_index_or numbers.now local 0 }
{
    match numbers.get(local as usize) {
        Some(number) => *number,
        None => 0,
    }
}
