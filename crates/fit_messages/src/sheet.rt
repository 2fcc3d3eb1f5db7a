//! Bytes of a fixed size in which the parts of a message are written, so that they are put after others at once. The first four are room
//! for the length of its block.
ghost use Rattle.std.specs.Prelude.{◌≡◌, ◌≤◌, ◌+◌, ◌++◌, ◌∷◌, [], IfOk, OnOk, drop, length, take};
ghost use Rattle.fit_messages.specs.Blocks as blocks;
ghost use Rattle.fit_messages.specs.inner.Sheets.{with_sheet};

use crate::bytes::{BlockFront, eight_bytes, put_block_of_bytes};
use std::alloc::AllocError;
use std::simd::Simd;

/// How many bytes a sheet has.
pub(crate) const SHEET: usize = 512;

/// Those before a place are written.
pub(crate) type Sheet = [u8; SHEET];

/// Writes eight bytes, which are one load and one store.
#[inline(always)]
fn write_eight(sheet: &mut Sheet, at: usize, eight: &[u8; 8]) -> usize
    requires room { at + 8 ≤ 512 }
    ensures end { result ≡ at + 8 }
    ensures text { take result sheet.new ≡ take at sheet.old ++ eight.now }
{
    Simd::<u8, 8>::from_slice(eight.as_slice()).copy_to_slice(&mut sheet[at..]);
    at + 8
}

/// Writes the length of a block at the start.
#[inline(always)]
fn write_length(sheet: &mut Sheet, length: usize)
    ensures { sheet.new ≡ blocks.low 4 length ++ drop 4 sheet.old }
{
    let eight = eight_bytes(length as u64);
    let (four, _) = eight.as_slice().split_at(4);
    sheet[0..4].copy_from_slice(four);
}

/// Writes the four bytes that a block has after its length.
#[inline(always)]
fn write_kind(sheet: &mut Sheet, kind: u8, a: u8, b: u8, c: u8) -> usize
    ensures end { result ≡ 8 }
    ensures text { take result sheet.new ≡ take 4 sheet.old ++ kind ∷ a ∷ b ∷ c ∷ [] }
{
    write_eight(sheet, 4, &[kind, a, b, c, 0, 0, 0, 0]);
    8
}

/// Writes that many of the lowest bytes of a number, the lowest first. Others come after them, which the next ones replace.
#[inline(always)]
pub(crate) fn write_low(sheet: &mut Sheet, at: usize, width: u8, number: u64) -> usize
    requires width { width ≤ 8 }
    requires room { at + 8 ≤ 512 }
    ensures end { result ≡ at + width }
    ensures text { take result sheet.new ≡ take at sheet.old ++ blocks.low width number }
{
    let eight = eight_bytes(number);
    write_eight(sheet, at, &eight);
    at + width as usize
}

/// Writes what a block has after its length.
#[inline(always)]
pub(crate) fn write_front(sheet: &mut Sheet, front: BlockFront) -> usize
    ensures end { result ≡ 24 }
    ensures text { take result sheet.new ≡ take 4 sheet.old ++ blocks.front
        front.kind front.a front.b front.c front.file front.n front.place }
{
    let at = write_kind(sheet, front.kind, front.a, front.b, front.c);
    let at = write_low(sheet, at, 4, front.file);
    let at = write_low(sheet, at, 4, front.n);
    write_low(sheet, at, 8, front.place)
}

/// Puts what is written before a place after other bytes.
#[inline(always)]
pub(crate) fn put_sheet(bytes: &mut Vec<u8>, sheet: &Sheet, at: usize) -> Result<(), AllocError>
    requires { at ≤ 512 }
    ensures { OnOk result (bytes.new.items ≡ with_sheet bytes.old.items sheet.now at) }
{
    let (written, _) = sheet.as_slice().split_at(at);
    bytes.extend_from_slice(written)
}

/// Puts the block of what is written before a place. The first four bytes are room for its length.
#[inline(always)]
fn put_block_of_sheet(text: &mut Vec<u8>, sheet: &mut Sheet, at: usize) -> Result<(), AllocError>
    requires room { 4 ≤ at }
    requires place { at ≤ 512 }
    ensures { OnOk result (text.new.items
        ≡ text.old.items ++ blocks.sized (drop 4 (take at sheet.old))) }
{
    write_length(sheet, at);
    put_sheet(text, sheet, at)
}

/// Puts the block of bytes and of what is written before a place after them. The first four are room for its length. Mostly there are no
/// others.
#[inline(always)]
pub(crate) fn put_block(
    text: &mut Vec<u8>,
    rest: &mut Vec<u8>,
    sheet: &mut Sheet,
    at: usize,
) -> Result<(), AllocError>
    requires room { 4 ≤ length (with_sheet rest.old.items sheet.old at) }
    requires place { at ≤ 512 }
    ensures { OnOk result (text.new.items
        ≡ text.old.items ++ blocks.sized (drop 4 (with_sheet rest.old.items sheet.old at))) }
{
    if rest.is_empty() {
        return put_block_of_sheet(text, sheet, at);
    }
    put_sheet(rest, sheet, at)?;
    put_block_of_bytes(text, rest.as_slice())
}

/// The same as `put_sheet` where there is no room for eight bytes after it. Returns the place to go on from.
#[inline(always)]
pub(crate) fn make_room(bytes: &mut Vec<u8>, sheet: &Sheet, at: usize) -> Result<usize, AllocError>
    requires { at ≤ 512 }
    ensures room { IfOk result (λ next. next + 8 ≤ 512) }
    ensures text { IfOk result (λ next. with_sheet bytes.new.items sheet.now next
        ≡ with_sheet bytes.old.items sheet.now at) }
{
    if at <= SHEET - 8 {
        return Ok(at);
    }
    put_sheet(bytes, sheet, at)?;
    Ok(0)
}
