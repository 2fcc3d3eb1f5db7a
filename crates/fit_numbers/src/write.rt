//! Numbers with a fixed number of decimals, written into bytes. Numbers without decimals are most of a recording, and of those the
//! ones below 1000: `write_fixed` writes these inlined. Each other kind has a function that isn't inlined.
ghost use Rattle.std.specs.Prelude.{◌≡◌, ◌≤◌, ◌<◌, ◌++◌, ◌+◌, ◌/◌, ◌%◌, ◌^◌, ◌∷◌, [], decimal, length, take};
ghost use Rattle.fit_numbers.specs.FixedText.{fixed_text, fraction, last_digits, sign};

use crate::digits::power;
use crate::last::{write_byte, write_fraction, write_one, write_seven, write_triple, write_two};
use crate::whole::{write_millions, write_small, write_whole};

/// Writes a size in tenths.
#[inline(always)]
#[tactic(auto, using(crate::proofs::WriteFacts::past_the_point))]
fn write_tenths(bytes: &mut [u8], at: usize, size: u64) -> usize
    requires small { size < 0x1_0000_0000 }
    requires room { at + 11 ≤ length bytes.old }
    ensures size { length bytes.new ≡ length bytes.old }
    ensures within { result ≤ at + 11 }
    ensures text { take result bytes.new ≡ take at bytes.old
        ++ decimal (size / 10) ++ fraction 1 (size % 10) }
{
    let at = write_millions(bytes, at, size / 10);
    let at = write_byte(bytes, at, b'.');
    write_one(bytes, at, size % 10)
}

/// Writes a size in hundredths.
#[inline(always)]
#[tactic(auto, using(crate::proofs::WriteFacts::past_the_point))]
fn write_hundredths(bytes: &mut [u8], at: usize, size: u64) -> usize
    requires small { size < 0x1_0000_0000 }
    requires room { at + 12 ≤ length bytes.old }
    ensures size { length bytes.new ≡ length bytes.old }
    ensures within { result ≤ at + 12 }
    ensures text { take result bytes.new ≡ take at bytes.old
        ++ decimal (size / 100) ++ fraction 2 (size % 100) }
{
    let at = write_millions(bytes, at, size / 100);
    let at = write_byte(bytes, at, b'.');
    write_two(bytes, at, size % 100)
}

/// Writes a size in thousandths, and a byte after it.
#[inline(always)]
#[tactic(auto, using(crate::proofs::WriteFacts::past_the_point))]
fn write_thousandths(bytes: &mut [u8], at: usize, size: u64) -> usize
    requires small { size < 0x1_0000_0000 }
    requires room { at + 14 ≤ length bytes.old }
    ensures size { length bytes.new ≡ length bytes.old }
    ensures within { result ≤ at + 13 }
    ensures text { take result bytes.new ≡ take at bytes.old
        ++ decimal (size / 1000) ++ fraction 3 (size % 1000) }
{
    let at = write_millions(bytes, at, size / 1000);
    let at = write_byte(bytes, at, b'.');
    write_triple(bytes, at, size % 1000)
}

/// Writes a size in units of the seventh decimal, and a byte after it.
#[inline(always)]
#[tactic(auto, using(crate::proofs::WriteFacts::past_the_point))]
fn write_ten_millionths(bytes: &mut [u8], at: usize, size: u64) -> usize
    requires small { size < 0x1_0000_0000 }
    requires room { at + 12 ≤ length bytes.old }
    ensures size { length bytes.new ≡ length bytes.old }
    ensures within { result ≤ at + 11 }
    ensures text { take result bytes.new ≡ take at bytes.old
        ++ decimal (size / 10_000_000) ++ fraction 7 (size % 10_000_000) }
{
    let at = write_small(bytes, at, size / 10_000_000);
    let at = write_byte(bytes, at, b'.');
    write_seven(bytes, at, size % 10_000_000)
}

/// Writes a size in units of its last decimal.
#[inline(never)]
#[tactic(auto, using(crate::proofs::WriteFacts::both_parts))]
fn write_size(bytes: &mut [u8], at: usize, size: u64, decimals: u8) -> usize
    requires few { decimals ≤ 8 }
    requires room { at + 29 ≤ length bytes.old }
    ensures size { length bytes.new ≡ length bytes.old }
    ensures within { result ≤ at + 29 }
    ensures text { take result bytes.new ≡ take at bytes.old
        ++ decimal (size / 10 ^ decimals) ++ fraction decimals (size % 10 ^ decimals) }
{
    let unit = power(decimals);
    let at = write_whole(bytes, at, size / unit);
    write_fraction(bytes, at, size % unit, decimals)
}

/// Writes the sign of a number.
#[inline(always)]
fn write_sign(bytes: &mut [u8], at: usize, value: i64) -> usize
    requires room { at + 1 ≤ length bytes.old }
    ensures size { length bytes.new ≡ length bytes.old }
    ensures within { result ≤ at + 1 }
    ensures text { take result bytes.new ≡ take at bytes.old ++ sign value }
{
    if value < 0 {
        write_byte(bytes, at, b'-')
    } else {
        at
    }
}

/// Writes a number without decimals.
#[inline(never)]
#[tactic(auto, using(crate::proofs::WriteFacts::both_parts, crate::proofs::WriteFacts::whole_alone))]
fn write_signed(bytes: &mut [u8], at: usize, value: i64) -> usize
    requires room { at + 30 ≤ length bytes.old }
    ensures size { length bytes.new ≡ length bytes.old }
    ensures within { result ≤ at + 30 }
    ensures text { take result bytes.new ≡ take at bytes.old ++ fixed_text value 0 }
{
    let at = write_sign(bytes, at, value);
    write_whole(bytes, at, value.unsigned_abs())
}

/// Writes a number without decimals, where most are small.
#[inline(always)]
#[tactic(auto, using(crate::proofs::WriteFacts::whole_alone))]
fn write_units(bytes: &mut [u8], at: usize, value: i64) -> usize
    requires room { at + 30 ≤ length bytes.old }
    ensures size { length bytes.new ≡ length bytes.old }
    ensures within { result ≤ at + 30 }
    ensures text { take result bytes.new ≡ take at bytes.old ++ fixed_text value 0 }
{
    if value >= 0 && value < 1000 {
        write_small(bytes, at, value as u64)
    } else {
        write_signed(bytes, at, value)
    }
}

/// Writes a number with seven decimals.
#[inline(never)]
#[tactic(auto, using(crate::proofs::WriteFacts::both_parts))]
fn write_seventh(bytes: &mut [u8], at: usize, value: i64) -> usize
    requires room { at + 30 ≤ length bytes.old }
    ensures size { length bytes.new ≡ length bytes.old }
    ensures within { result ≤ at + 30 }
    ensures text { take result bytes.new ≡ take at bytes.old ++ fixed_text value 7 }
{
    let at = write_sign(bytes, at, value);
    let size = value.unsigned_abs();
    if size < 0x1_0000_0000 {
        write_ten_millionths(bytes, at, size)
    } else {
        write_size(bytes, at, size, 7)
    }
}

/// Writes a number with other decimals.
#[inline(never)]
#[tactic(auto, using(crate::proofs::WriteFacts::both_parts))]
fn write_scaled(bytes: &mut [u8], at: usize, value: i64, decimals: u8) -> usize
    requires few { decimals ≤ 8 }
    requires room { at + 30 ≤ length bytes.old }
    ensures size { length bytes.new ≡ length bytes.old }
    ensures within { result ≤ at + 30 }
    ensures text { take result bytes.new ≡ take at bytes.old ++ fixed_text value decimals }
{
    let at = write_sign(bytes, at, value);
    let size = value.unsigned_abs();
    if size >= 0x1_0000_0000 {
        return write_size(bytes, at, size, decimals);
    }
    match decimals {
        1 => write_tenths(bytes, at, size),
        2 => write_hundredths(bytes, at, size),
        3 => write_thousandths(bytes, at, size),
        _ => write_size(bytes, at, size, decimals),
    }
}

/// Writes the number `value / 10^decimals` into bytes from a place on, as `Fixed::print` shows it. Returns the place after it.
#[inline(always)]
pub fn write_fixed(bytes: &mut [u8], at: usize, value: i64, decimals: u8) -> usize
    requires few { decimals ≤ 8 }
    requires room { at + 30 ≤ length bytes.old }
    ensures size { length bytes.new ≡ length bytes.old }
    ensures within { result ≤ at + 30 }
    ensures text { take result bytes.new ≡ take at bytes.old ++ fixed_text value decimals }
{
    match decimals {
        0 => write_units(bytes, at, value),
        7 => write_seventh(bytes, at, value),
        _ => write_scaled(bytes, at, value, decimals),
    }
}
