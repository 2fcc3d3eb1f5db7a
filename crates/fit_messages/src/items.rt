//! The items of the fields of a message, by its bytes.
ghost use Rattle.std.specs.Prelude.{◌≡◌, ◌⊎◌, ◌≤◌, ◌+◌, ◌*◌, ◌/◌, ◌++◌, IfOk, OnOk, drop, flat_map, length, take};
ghost use Rattle.std.specs.Global.{Global};
ghost use Rattle.fit_base.specs.BaseTypes.{base_type};
ghost use Rattle.fit_base.specs.Numbers.{number};
ghost use Rattle.fit_record.specs.ReadMessages.{field_from, fields_from, numbers_of};
ghost use Rattle.fit_record.specs.Records.{sizes};
ghost use Rattle.fit_messages.specs.Blocks.{low, slot};
ghost use Rattle.fit_messages.specs.inner.Sheets.{AreLone, with_sheet};

use crate::bytes::{put_gap, put_number, put_rounded};
use crate::sheet::{Sheet, make_room, put_sheet, write_low};
use fit_base::{Code, Order, bits_at, greatest, width_of};
use fit_record::Layout;
use std::alloc::AllocError;

/// Puts the numbers of this width that bytes are.
#[inline(never)]
fn put_turned(bytes: &mut Vec<u8>, order: Order, width: u8, field: &[u8]) -> Result<(), AllocError>
    requires width { (width ≡ 1) ⊎ (width ≡ 2) ⊎ (width ≡ 4) ⊎ (width ≡ 8) }
    requires whole { length field.now / width * width ≡ length field.now }
    ensures { OnOk result (bytes.new.items ≡ bytes.old.items ++ flat_map (low width)
        (numbers_of order width (length field.now / width) field.now)) }
{
    let count = field.len() / width as usize;
    let mut rest = field;
    for _ in 0..count {
        let (number, after) = rest.split_at(width as usize);
        put_number(bytes, width, bits_at(order, width, number))?;
        rest = after;
    }
    Ok(())
}

/// Puts the items of a field that isn't one number, by its bytes. It stands apart, since most fields are one.
#[inline(never)]
fn put_several(
    bytes: &mut Vec<u8>,
    order: Order,
    code: u8,
    size: u8,
    field: &[u8],
) -> Result<(), AllocError>
    requires { length field.now ≡ size }
    ensures { OnOk result (bytes.new.items
        ≡ bytes.old.items ++ slot (field_from {A = Global} order (code, size) field.now)) }
{
    match order {
        Order::Little => put_rounded(bytes, field),
        Order::Big => {
            put_turned(bytes, order, width_of(Code(code), size), field)?;
            put_gap(bytes, field.len())
        }
    }
}

/// Adds the items of a field by its bytes to what is written in a sheet. A field without bytes has none. One number is written with its
/// zeros. Returns the place after them.
#[inline(always)]
fn add_read(
    bytes: &mut Vec<u8>,
    sheet: &mut Sheet,
    at: usize,
    order: Order,
    code: u8,
    size: u8,
    field: &[u8],
) -> Result<usize, AllocError>
    requires place { at ≤ 512 }
    requires length { length field.now ≡ size }
    ensures place { IfOk result (λ end. end ≤ 512) }
    ensures text { IfOk result (λ end. with_sheet bytes.new.items sheet.new end
        ≡ with_sheet bytes.old.items sheet.old at
        ++ slot (field_from {A = Global} order (code, size) field.now)) }
{
    if size == 0 {
        return Ok(at);
    }
    if Code(code).width() == size {
        let at = make_room(bytes, sheet, at)?;
        return Ok(write_low(sheet, at, 8, bits_at(order, size, field)));
    }
    put_sheet(bytes, sheet, at)?;
    put_several(bytes, order, code, size, field)?;
    Ok(0)
}

/// The number that as many of eight bytes are as this width says, from the first on.
#[inline(always)]
fn first_number(order: Order, width: u8, eight: &[u8]) -> u64
    requires width { (width ≡ 1) ⊎ (width ≡ 2) ⊎ (width ≡ 4) ⊎ (width ≡ 8) }
    requires length { length eight.now ≡ 8 }
    ensures { result ≡ number order (take width eight.now) }
{
    let all = bits_at(order, 8, eight);
    match order {
        Order::Little => all & greatest(width),
        Order::Big => all >> (64 - 8 * width),
    }
}

/// Writes the item of a field that is one number, by the eight bytes that begin with it, and its zeros. Returns the place after them.
#[inline(always)]
fn write_one(sheet: &mut Sheet, at: usize, order: Order, code: u8, width: u8, bytes: &[u8]) -> usize
    requires room { at + 8 ≤ 512 }
    requires width { (base_type code).width ≡ width }
    requires length { 8 ≤ length bytes.now }
    ensures end { result ≡ at + 8 }
    ensures text { take result sheet.new ≡ take at sheet.old
        ++ slot (field_from {A = Global} order (code, width) (take width bytes.now)) }
{
    let (eight, _) = bytes.split_at(8);
    write_low(sheet, at, 8, first_number(order, width, eight))
}

/// Writes the items of fields by their bytes, each of which is one number. Eight bytes are read for each, so eight more than theirs are
/// there. Returns the place after the items, and the bytes after theirs.
#[inline(always)]
fn write_lone_in<'a>(
    sheet: &mut Sheet,
    start: usize,
    order: Order,
    layout: &Layout<'_>,
    body: &'a [u8],
) -> (usize, &'a [u8])
    requires room { start + 8 * length layout.now ≤ 512 }
    requires lone { AreLone layout.now }
    requires more { sizes layout.now + 8 ≤ length body.now }
    ensures place { result.0 ≤ 512 }
    ensures text { take result.0 sheet.new ≡ take start sheet.old
        ++ flat_map slot (fields_from {A = Global} order layout.now body.now) }
    ensures rest { result.1.now ≡ drop (sizes layout.now) body.now }
{
    let mut rest = body;
    let mut at = start;
    for place in 0..layout.len() {
        let (code, width) = layout.shape(place);
        at = write_one(sheet, at, order, code, width, rest);
        let (_, after) = rest.split_at(width as usize);
        rest = after;
    }
    (at, rest)
}

/// Writes the items of fields that are lone numbers, as `write_lone_in` does. Either byte order has a loop of its own, which doesn't test
/// it for each field.
#[inline(always)]
pub(crate) fn write_lone<'a>(
    sheet: &mut Sheet,
    start: usize,
    order: Order,
    layout: &Layout<'_>,
    body: &'a [u8],
) -> (usize, &'a [u8])
    requires room { start + 8 * length layout.now ≤ 512 }
    requires lone { AreLone layout.now }
    requires more { sizes layout.now + 8 ≤ length body.now }
    ensures place { result.0 ≤ 512 }
    ensures text { take result.0 sheet.new ≡ take start sheet.old
        ++ flat_map slot (fields_from {A = Global} order layout.now body.now) }
    ensures rest { result.1.now ≡ drop (sizes layout.now) body.now }
{
    match order {
        Order::Little => write_lone_in(sheet, start, Order::Little, layout, body),
        Order::Big => write_lone_in(sheet, start, Order::Big, layout, body),
    }
}

/// Adds the items of fields by their bytes to what is written in a sheet. Returns the place after them, and the bytes after theirs.
#[inline(always)]
pub(crate) fn add_all_read<'a>(
    bytes: &mut Vec<u8>,
    sheet: &mut Sheet,
    start: usize,
    order: Order,
    layout: &Layout<'_>,
    body: &'a [u8],
) -> Result<(usize, &'a [u8]), AllocError>
    requires place { start ≤ 512 }
    requires size { sizes layout.now ≤ length body.now }
    ensures place { IfOk result (λ r. r.0 ≤ 512) }
    ensures text { IfOk result (λ r. with_sheet bytes.new.items sheet.new r.0
        ≡ with_sheet bytes.old.items sheet.old start
        ++ flat_map slot (fields_from {A = Global} order layout.now body.now)) }
    ensures rest { IfOk result (λ r. r.1.now ≡ drop (sizes layout.now) body.now) }
{
    let mut rest = body;
    let mut at = start;
    for place in 0..layout.len() {
        let (code, size) = layout.shape(place);
        let (here, after) = rest.split_at(size as usize);
        at = add_read(bytes, sheet, at, order, code, size, here)?;
        rest = after;
    }
    Ok((at, rest))
}
