//! What cells show: numbers, local message types, time offsets and items.
ghost use Rattle.std.specs.Prelude.{◌≡◌, ◌↔◌, ◌<◌, ◌^◌, ℕ, Option, Some, decimal, IfOk, IfSome, IsSome, IsTrue, is_some, option_map};
ghost use Rattle.std.specs.Global.{Global};
ghost use Rattle.fit_base.specs.declared.items.Items.{Items};
ghost use Rattle.fit_base.specs.Fields.{HasShape};
ghost use Rattle.fit_record.specs.Environment.{defined_at};
ghost use Rattle.fit_record.specs.Records.{DataHeaderFits};
ghost use Rattle.fit_profile.specs.Looks.{known};
ghost use Rattle.fit_profile.specs.Names.{meaning};
ghost use Rattle.fit_numbers.specs.Scaled.{IsScale};
ghost use Rattle.fit_cells.specs.Cells.{cell};
ghost use Rattle.fit_texts.specs.Words.{optional_number};

use fit_base::{Code, Items};
use fit_cells::cell_items_by;
use fit_profile::{Info, Stream};
use itoa::Buffer;
use std::alloc::{AllocError, Global};
use std::str;

/// The number of two bytes that a cell shows, and some number where it shows none.
pub fn number_in(cell: &[u8]) -> u16
    ensures { (n : ℕ) → n < 2 ^ 16 → decimal n ≡ cell.now → result ≡ n }
{
    match str::from_utf8(cell) {
        Ok(text) => text.parse::<u16>().unwrap_or(0),
        Err(_) => 0,
    }
}

/// The number of one byte that a cell shows, and some number where it shows none.
pub fn byte_in(cell: &[u8]) -> u8
    ensures { (n : ℕ) → n < 2 ^ 8 → decimal n ≡ cell.now → result ≡ n }
{
    let number = number_in(cell);
    if number < 256 { number as u8 } else { 0 }
}

/// Whether a local message type is defined.
fn is_defined(before: &Stream, local: u8) -> bool
    ensures { result ≡ is_some (defined_at (known before.now) local) }
{
    before.env().definition(local).is_some()
}

/// Whether a cell shows this number.
fn shows(cell: &[u8], number: u8) -> bool
    ensures { IsTrue result ↔ (decimal number ≡ cell.now) }
{
    let mut text = Buffer::new();
    text.format(number).as_bytes() == cell
}

/// The local message type that a cell shows, where it is defined.
pub fn defined_local(cell: &[u8], before: &Stream) -> Option<u8>
    ensures small { IfSome result (λ local. local < 16) }
    ensures shown { IfSome result (λ local. decimal local ≡ cell.now) }
    ensures defined { IfSome result (λ local. IsSome (defined_at (known before.now) local)) }
    ensures every { (n : ℕ) → n < 16 → decimal n ≡ cell.now
        → IsSome (defined_at (known before.now) n) → result ≡ Some n }
{
    let local = byte_in(cell);
    if local < 16 && is_defined(before, local) && shows(cell, local) {
        Some(local)
    } else {
        None
    }
}

/// The time offset that a cell shows, and some one, or none, where it shows none.
pub fn offset_in(cell: &[u8], local: u8) -> Option<u8>
    requires { local < 16 }
    ensures fits { DataHeaderFits local result }
    ensures every { (offset : Option ℕ) → DataHeaderFits local offset
        → optional_number offset ≡ cell.now → result ≡ offset }
{
    if cell.is_empty() {
        return None;
    }
    if local >= 4 {
        return None;
    }
    let offset = byte_in(cell);
    if offset < 32 { Some(offset) } else { None }
}

/// The items of a field of this base type code and size that a cell shows, where it is the cell of some. `written` lends its memory; its
/// text is lost.
pub fn items_in(
    alloc: Global,
    written: &mut Vec<u8>,
    shown: &[u8],
    code: Code,
    size: u8,
    info: Option<Info>,
) -> Result<Option<Items>, AllocError>
    requires { IfSome info (λ i. IsScale i.scale) }
    ensures some { IfOk result (λ found. IfSome found (λ items.
        HasShape code.0 size items × (cell code.0 (option_map meaning info) items ≡ shown.now))) }
    ensures every { IfOk result (λ found. (items : Items Global) → HasShape code.0 size items
        → cell code.0 (option_map meaning info) items ≡ shown.now → found ≡ Some items) }
{
    match str::from_utf8(shown) {
        Ok(text) => cell_items_by(alloc, written, code, size, info, text),
        Err(_) => Ok(None),
    }
}
