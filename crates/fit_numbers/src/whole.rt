//! Whole numbers, written into bytes.
ghost use Rattle.std.specs.Prelude.{◌≡◌, ◌≤◌, ◌<◌, ◌++◌, ◌+◌, ◌/◌, ◌∷◌, [], decimal, length, take};
ghost use Rattle.fit_numbers.specs.FixedText.{last_digits};

use crate::last::{write_byte, write_nine, write_six, write_triple, write_two, write_used};
use crate::triples::all_digits;

/// Writes a number below 1000, and bytes after it.
#[inline(always)]
pub(crate) fn write_small(bytes: &mut [u8], at: usize, n: u64) -> usize
    requires small { n < 1000 }
    requires room { at + 4 ≤ length bytes.old }
    ensures size { length bytes.new ≡ length bytes.old }
    ensures within { result ≤ at + 3 }
    ensures text { take result bytes.new ≡ take at bytes.old ++ decimal n }
{
    let (digits, used) = all_digits(n);
    write_used(bytes, at, digits, used)
}

/// Writes a number below 1,000,000, and bytes after it.
#[inline(always)]
#[tactic(auto, using(crate::proofs::PutFacts::before_three))]
fn write_thousands(bytes: &mut [u8], at: usize, n: u64) -> usize
    requires small { n < 1_000_000 }
    requires room { at + 7 ≤ length bytes.old }
    ensures size { length bytes.new ≡ length bytes.old }
    ensures within { result ≤ at + 6 }
    ensures text { take result bytes.new ≡ take at bytes.old ++ decimal n }
{
    if n < 1000 {
        return write_small(bytes, at, n);
    }
    let at = write_small(bytes, at, n / 1000);
    write_triple(bytes, at, n)
}

/// Writes a number below 1,000,000,000, and bytes after it.
#[inline(always)]
#[tactic(auto, using(crate::proofs::PutFacts::before_six))]
pub(crate) fn write_millions(bytes: &mut [u8], at: usize, n: u64) -> usize
    requires small { n < 1_000_000_000 }
    requires room { at + 10 ≤ length bytes.old }
    ensures size { length bytes.new ≡ length bytes.old }
    ensures within { result ≤ at + 9 }
    ensures text { take result bytes.new ≡ take at bytes.old ++ decimal n }
{
    if n < 1_000_000 {
        return write_thousands(bytes, at, n);
    }
    let at = write_small(bytes, at, n / 1_000_000);
    write_six(bytes, at, n)
}

/// Writes a number below 1,000,000,000,000,000,000, and bytes after it.
#[inline(always)]
#[tactic(auto, using(crate::proofs::PutFacts::before_nine))]
fn write_billions(bytes: &mut [u8], at: usize, n: u64) -> usize
    requires small { n < 1_000_000_000_000_000_000 }
    requires room { at + 19 ≤ length bytes.old }
    ensures size { length bytes.new ≡ length bytes.old }
    ensures within { result ≤ at + 18 }
    ensures text { take result bytes.new ≡ take at bytes.old ++ decimal n }
{
    if n < 1_000_000_000 {
        return write_millions(bytes, at, n);
    }
    let at = write_millions(bytes, at, n / 1_000_000_000);
    write_nine(bytes, at, n)
}

/// Writes a number below 100.
#[inline(always)]
#[tactic(auto, using(crate::proofs::PutFacts::one_digit, crate::proofs::WriteFacts::two_are_all))]
fn write_pair(bytes: &mut [u8], at: usize, n: u64) -> usize
    requires small { n < 100 }
    requires room { at + 2 ≤ length bytes.old }
    ensures size { length bytes.new ≡ length bytes.old }
    ensures within { result ≤ at + 2 }
    ensures text { take result bytes.new ≡ take at bytes.old ++ decimal n }
{
    if n < 10 {
        write_byte(bytes, at, b'0' + n as u8)
    } else {
        write_two(bytes, at, n)
    }
}

/// Writes a number, and bytes after it.
#[inline(always)]
#[tactic(auto, using(crate::proofs::PutFacts::before_eighteen, crate::proofs::WriteFacts::nine_and_nine))]
pub(crate) fn write_whole(bytes: &mut [u8], at: usize, n: u64) -> usize
    requires room { at + 21 ≤ length bytes.old }
    ensures size { length bytes.new ≡ length bytes.old }
    ensures within { result ≤ at + 20 }
    ensures text { take result bytes.new ≡ take at bytes.old ++ decimal n }
{
    if n < 1_000_000_000_000_000_000 {
        return write_billions(bytes, at, n);
    }
    let at = write_pair(bytes, at, n / 1_000_000_000_000_000_000);
    let at = write_nine(bytes, at, n / 1_000_000_000);
    write_nine(bytes, at, n)
}
