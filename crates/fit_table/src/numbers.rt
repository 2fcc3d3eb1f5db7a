//! Numbers and positions, put in cells of the table.
ghost use Rattle.std.specs.Prelude.{◌≡◌, ◌≤◌, ◌+◌, ◌++◌, IfSome, length, option_map, take, false};
ghost use Rattle.fit_numbers.specs.FixedText.{fixed_text};
ghost use Rattle.fit_profile.specs.Values as values;
ghost use Rattle.fit_table.specs.Degrees.{degrees_of};
ghost use Rattle.fit_table.specs.inner.TableCells.{PutsCell, shown_text};

pub(crate) mod in_bytes;

use fit_numbers::laws::degrees_are_one;
use fit_profile::{Fixed, degrees, write_fixed};
use fit_texts::write_text;

/// Writes a number. Returns the place after it. All but the largest are written without a copy.
fn write_amount(row: &mut [u8], at: usize, value: Fixed) -> usize
    requires few { value.decimals ≤ 8 }
    requires room { at + 48 ≤ length row.old }
    ensures size { length row.new ≡ length row.old }
    ensures within { result ≤ at + 48 }
    ensures text { take result row.new ≡ take at row.old ++ fixed_text value.value value.decimals }
{
    match i64::try_from(value.value) {
        Ok(number) => write_fixed(row, at, number, value.decimals),
        Err(_) => write_text(row, at, value.print().as_str().as_bytes()),
    }
}

/// Writes a number, where there is one. Returns whether there is, and the place after it.
#[inline(never)]
pub(crate) fn write_number(row: &mut [u8], at: usize, value: Option<Fixed>) -> (bool, usize)
    requires few { IfSome value (λ v. v.decimals ≤ 8) }
    requires room { at + 48 ≤ length row.old }
    ensures size { length row.new ≡ length row.old }
    ensures within { result.1 ≤ at + 48 }
    ensures none { result.0 ≡ false → result.1 ≡ at }
    ensures cell { PutsCell (shown_text value) result.0 (take at row.old) (take result.1 row.new) }
{
    match value {
        Some(value) => (true, write_amount(row, at, value)),
        None => (false, at),
    }
}

/// An item of four bytes as a position, where it is valid.
#[inline(always)]
fn semicircles(bits: u64) -> Option<i32>
    ensures { result ≡ values.valid_number 0x85 4 bits }
{
    if bits < 0x1_0000_0000 && bits != 0x7FFF_FFFF {
        Some((bits as u32).cast_signed())
    } else {
        None
    }
}

/// A position in degrees, in units of the seventh decimal.
#[inline(always)]
fn in_degrees(semicircles: i32) -> i64
    ensures { result ≡ degrees_of semicircles }
{
    degrees_are_one();
    degrees(semicircles).value as i64
}

/// Writes a position in degrees, where there is one. Returns whether there is, and the place after it.
#[inline(always)]
fn write_degrees(row: &mut [u8], at: usize, position: Option<i32>) -> (bool, usize)
    requires room { at + 48 ≤ length row.old }
    ensures size { length row.new ≡ length row.old }
    ensures within { result.1 ≤ at + 48 }
    ensures none { result.0 ≡ false → result.1 ≡ at }
    ensures cell { PutsCell (option_map (λ s. fixed_text (degrees_of s) 7) position) result.0
        (take at row.old) (take result.1 row.new) }
{
    match position {
        Some(semicircles) => (true, write_fixed(row, at, in_degrees(semicircles), 7)),
        None => (false, at),
    }
}
