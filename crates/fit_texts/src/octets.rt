//! Fields of bytes.
ghost use Rattle.std.specs.Prelude.{◌≡◌, ◌↔◌, ◌≤◌, ◌+◌, ◌++◌, IfOk, IsTrue, length};
ghost use Rattle.fit_cells.specs.Cells.{bytes_text};
ghost use Rattle.fit_texts.specs.Octets.{IsOfBytes};
ghost use Rattle.fit_texts.specs.Sheets.{and_sheet};

use crate::sheet::{SHEET_SIZE, Sheet, put_sheet};
use fit_base::{Class, Code, width_of};
use fit_cells::write_bytes;
use std::alloc::AllocError;

/// Whether a field of this base type and size is shown byte by byte: its base type is byte, or has a width that doesn't divide the
/// size. An empty field isn't.
pub fn is_of_bytes(code: Code, size: u8) -> bool
    ensures { IsTrue result ↔ IsOfBytes code.0 size }
{
    size > 0 && (code.class() == Class::Bytes || width_of(code, size) != code.width())
}

/// Puts what is written before a place after a text, where there is no room after it for this many bytes. Returns the place to go on
/// from.
#[inline(always)]
fn make_room_for(
    text: &mut Vec<u8>,
    sheet: &Sheet,
    at: usize,
    count: usize,
) -> Result<usize, AllocError>
    requires place { at ≤ 1024 }
    requires count { count ≤ 1024 }
    ensures room { IfOk result (λ next. next + count ≤ 1024) }
    ensures text { IfOk result (λ next. and_sheet text.new.items sheet.now next
        ≡ and_sheet text.old.items sheet.now at) }
{
    if count <= SHEET_SIZE - at {
        return Ok(at);
    }
    put_sheet(text, sheet, at)?;
    Ok(0)
}

/// Adds the bytes of a field of this size to what is written in a sheet, `0x` and two hexadecimal digits each. Returns the place after
/// them.
#[inline(never)]
pub fn add_bytes(
    text: &mut Vec<u8>,
    sheet: &mut Sheet,
    at: usize,
    size: u8,
    bytes: &[u8],
) -> Result<usize, AllocError>
    requires place { at ≤ 1024 }
    requires length { length bytes.now ≡ size }
    ensures place { IfOk result (λ end. end ≤ 1024) }
    ensures text { IfOk result (λ end. and_sheet text.new.items sheet.new end
        ≡ and_sheet text.old.items sheet.old at ++ bytes_text bytes.now) }
{
    let at = make_room_for(text, sheet, at, 2 + 2 * size as usize)?;
    Ok(write_bytes(sheet, at, bytes))
}
