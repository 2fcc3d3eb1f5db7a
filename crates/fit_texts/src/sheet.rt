//! Bytes in which short texts are written one after another, until all of them are put after a text at once.
ghost use Rattle.std.specs.Prelude.{◌≡◌, ◌≤◌, ◌+◌, ◌++◌, IfOk, OnOk, take};
ghost use Rattle.fit_texts.specs.Sheets.{and_sheet};

use std::alloc::AllocError;

/// How many bytes a sheet has.
pub const SHEET_SIZE: usize = 1024;

/// How many bytes a short text and a number after it have at most.
const ROOM: usize = 96;

/// Those before a place are written.
pub type Sheet = [u8; SHEET_SIZE];

/// Puts what is written before a place after a text.
#[inline(never)]
pub fn put_sheet(text: &mut Vec<u8>, sheet: &Sheet, at: usize) -> Result<(), AllocError>
    requires { at ≤ 1024 }
    ensures { OnOk result (text.new.items ≡ and_sheet text.old.items sheet.now at) }
{
    let (written, _) = sheet.as_slice().split_at(at);
    text.extend_from_slice(written)
}

/// Puts what is written before a place after a text, where there is little room after it. Returns the place to go on from.
#[inline(always)]
pub(crate) fn make_room(text: &mut Vec<u8>, sheet: &Sheet, at: usize) -> Result<usize, AllocError>
    requires { at ≤ 1024 }
    ensures room { IfOk result (λ next. next + 96 ≤ 1024) }
    ensures text { IfOk result (λ next. and_sheet text.new.items sheet.now next
        ≡ and_sheet text.old.items sheet.now at) }
{
    if at <= SHEET_SIZE - ROOM {
        return Ok(at);
    }
    put_sheet(text, sheet, at)?;
    Ok(0)
}
