//! Bytes in which a text is spelled anew, until many of them are written after it at once.
ghost use Rattle.std.specs.Prelude.{◌≡◌, ◌+◌, ◌++◌, ◌≤◌, ℕ, length, take};

use std::simd::prelude::*;

/// How many bytes a sheet has.
pub(crate) const SHEET_SIZE: usize = 2_048;

/// Those before a place are written.
pub(crate) type Sheet = [u8; SHEET_SIZE];

/// Writes sixteen bytes from a place on. Any of the last of them may be written over.
#[inline(always)]
pub(crate) fn put_lanes(sheet: &mut Sheet, at: usize, text: &[u8])
    requires room { at + 16 ≤ 2048 }
    requires long { 16 ≤ length text.now }
    ensures { (few : ℕ) → few ≤ 16
        → take (at + few) sheet.new ≡ take at sheet.old ++ take few text.now }
{
    u8x16::from_slice(text).copy_to_slice(&mut sheet[at..]);
}
