//! The last digits of a number, written into bytes.
ghost use Rattle.std.specs.Prelude.{◌≡◌, ◌≤◌, ◌++◌, ◌+◌, ◌/◌, ◌%◌, ◌∷◌, [], length, take};
ghost use Rattle.fit_numbers.specs.FixedText.{fraction, last_digits};

use crate::triples::{ones, tens, three_last};

/// Writes a byte into bytes. Returns the place after it, as all functions that write do.
#[inline(always)]
pub fn write_byte(bytes: &mut [u8], at: usize, byte: u8) -> usize
    requires room { at + 1 ≤ length bytes.old }
    ensures size { length bytes.new ≡ length bytes.old }
    ensures end { result ≡ at + 1 }
    ensures text { take result bytes.new ≡ take at bytes.old ++ byte ∷ [] }
{
    bytes[at] = byte;
    at + 1
}

/// Writes the last digit of a number.
#[inline(always)]
#[tactic(auto, using(crate::proofs::WriteFacts::last_one))]
pub(crate) fn write_one(bytes: &mut [u8], at: usize, n: u64) -> usize
    requires room { at + 1 ≤ length bytes.old }
    ensures size { length bytes.new ≡ length bytes.old }
    ensures end { result ≡ at + 1 }
    ensures text { take result bytes.new ≡ take at bytes.old ++ last_digits 1 n }
{
    write_byte(bytes, at, b'0' + (n % 10) as u8)
}

/// Writes the last two digits of a number.
#[inline(always)]
#[tactic(auto, using(crate::proofs::WriteFacts::last_two))]
pub(crate) fn write_two(bytes: &mut [u8], at: usize, n: u64) -> usize
    requires room { at + 2 ≤ length bytes.old }
    ensures size { length bytes.new ≡ length bytes.old }
    ensures end { result ≡ at + 2 }
    ensures text { take result bytes.new ≡ take at bytes.old ++ last_digits 2 n }
{
    let low = n % 100;
    let at = write_byte(bytes, at, tens(low));
    write_byte(bytes, at, ones(low))
}

/// Writes four bytes.
#[inline(always)]
#[tactic(auto, using(crate::proofs::WriteFacts::one_by_one))]
fn write_bytes(bytes: &mut [u8], at: usize, four: [u8; 4]) -> usize
    requires room { at + 4 ≤ length bytes.old }
    ensures size { length bytes.new ≡ length bytes.old }
    ensures end { result ≡ at + 4 }
    ensures text { take (at + 4) bytes.new ≡ take at bytes.old ++ four }
{
    let [a, b, c, d] = four;
    let at = write_byte(bytes, at, a);
    let at = write_byte(bytes, at, b);
    let at = write_byte(bytes, at, c);
    write_byte(bytes, at, d)
}

/// Writes four bytes. Returns the place after as many of them as are used.
#[inline(always)]
#[tactic(auto, using(crate::proofs::WriteFacts::begun))]
pub(crate) fn write_used(bytes: &mut [u8], at: usize, four: [u8; 4], used: usize) -> usize
    requires few { used ≤ 4 }
    requires room { at + 4 ≤ length bytes.old }
    ensures size { length bytes.new ≡ length bytes.old }
    ensures end { result ≡ at + used }
    ensures text { take result bytes.new ≡ take at bytes.old ++ take used four }
{
    write_bytes(bytes, at, four) - 4 + used
}

/// Writes the last three digits of a number, and a byte after them.
#[inline(always)]
pub(crate) fn write_triple(bytes: &mut [u8], at: usize, n: u64) -> usize
    requires room { at + 4 ≤ length bytes.old }
    ensures size { length bytes.new ≡ length bytes.old }
    ensures end { result ≡ at + 3 }
    ensures text { take result bytes.new ≡ take at bytes.old ++ last_digits 3 n }
{
    write_used(bytes, at, three_last(n), 3)
}

/// Writes the last six digits of a number, and a byte after them.
#[inline(always)]
#[tactic(auto, using(crate::proofs::WriteFacts::six_in_two))]
pub(crate) fn write_six(bytes: &mut [u8], at: usize, n: u64) -> usize
    requires room { at + 7 ≤ length bytes.old }
    ensures size { length bytes.new ≡ length bytes.old }
    ensures end { result ≡ at + 6 }
    ensures text { take result bytes.new ≡ take at bytes.old ++ last_digits 6 n }
{
    let low = n % 1_000_000;
    let at = write_triple(bytes, at, low / 1000);
    write_triple(bytes, at, low)
}

/// Writes the last nine digits of a number, and a byte after them.
#[inline(always)]
#[tactic(auto, using(crate::proofs::WriteFacts::nine_in_two))]
pub(crate) fn write_nine(bytes: &mut [u8], at: usize, n: u64) -> usize
    requires room { at + 10 ≤ length bytes.old }
    ensures size { length bytes.new ≡ length bytes.old }
    ensures end { result ≡ at + 9 }
    ensures text { take result bytes.new ≡ take at bytes.old ++ last_digits 9 n }
{
    let low = n % 1_000_000_000;
    let at = write_triple(bytes, at, low / 1_000_000);
    write_six(bytes, at, low)
}

/// Writes the last three digits of a number.
#[inline(always)]
#[tactic(auto, using(crate::proofs::WriteFacts::one_and_two))]
fn write_three(bytes: &mut [u8], at: usize, n: u64) -> usize
    requires room { at + 3 ≤ length bytes.old }
    ensures size { length bytes.new ≡ length bytes.old }
    ensures end { result ≡ at + 3 }
    ensures text { take result bytes.new ≡ take at bytes.old ++ last_digits 3 n }
{
    let at = write_one(bytes, at, n / 100);
    write_two(bytes, at, n)
}

/// Writes the last four digits of a number.
#[inline(always)]
#[tactic(auto, using(crate::proofs::WriteFacts::two_and_two))]
fn write_four(bytes: &mut [u8], at: usize, n: u64) -> usize
    requires room { at + 4 ≤ length bytes.old }
    ensures size { length bytes.new ≡ length bytes.old }
    ensures end { result ≡ at + 4 }
    ensures text { take result bytes.new ≡ take at bytes.old ++ last_digits 4 n }
{
    let at = write_two(bytes, at, n / 100);
    write_two(bytes, at, n)
}

/// Writes the last seven digits of a number, and a byte after them.
#[inline(always)]
#[tactic(auto, using(crate::proofs::WriteFacts::one_and_six))]
pub(crate) fn write_seven(bytes: &mut [u8], at: usize, n: u64) -> usize
    requires room { at + 8 ≤ length bytes.old }
    ensures size { length bytes.new ≡ length bytes.old }
    ensures end { result ≡ at + 7 }
    ensures text { take result bytes.new ≡ take at bytes.old ++ last_digits 7 n }
{
    let at = write_one(bytes, at, n / 1_000_000);
    write_six(bytes, at, n)
}

/// Writes the last eight digits of a number.
#[inline(always)]
#[tactic(auto, using(crate::proofs::WriteFacts::four_and_four))]
fn write_eight(bytes: &mut [u8], at: usize, n: u64) -> usize
    requires room { at + 8 ≤ length bytes.old }
    ensures size { length bytes.new ≡ length bytes.old }
    ensures end { result ≡ at + 8 }
    ensures text { take result bytes.new ≡ take at bytes.old ++ last_digits 8 n }
{
    let at = write_four(bytes, at, n / 10_000);
    write_four(bytes, at, n)
}

/// Writes the last five or six digits of a number.
#[inline(always)]
#[tactic(auto, using(crate::proofs::WriteFacts::one_and_four, crate::proofs::WriteFacts::two_and_four))]
fn write_middle(bytes: &mut [u8], at: usize, n: u64, digits: u8) -> usize
    requires least { 5 ≤ digits }
    requires most { digits ≤ 6 }
    requires room { at + 6 ≤ length bytes.old }
    ensures size { length bytes.new ≡ length bytes.old }
    ensures within { result ≤ at + 6 }
    ensures text { take result bytes.new ≡ take at bytes.old ++ last_digits digits n }
{
    let high = n / 10_000;
    let at = if digits == 5 {
        write_one(bytes, at, high)
    } else {
        write_two(bytes, at, high)
    };
    write_four(bytes, at, n)
}

/// Writes the last one to eight digits of a number.
#[inline(always)]
fn write_last(bytes: &mut [u8], at: usize, n: u64, digits: u8) -> usize
    requires least { 1 ≤ digits }
    requires most { digits ≤ 8 }
    requires room { at + 8 ≤ length bytes.old }
    ensures size { length bytes.new ≡ length bytes.old }
    ensures within { result ≤ at + 8 }
    ensures text { take result bytes.new ≡ take at bytes.old ++ last_digits digits n }
{
    match digits {
        1 => write_one(bytes, at, n),
        2 => write_two(bytes, at, n),
        3 => write_three(bytes, at, n),
        4 => write_four(bytes, at, n),
        7 => write_seven(bytes, at, n),
        8 => write_eight(bytes, at, n),
        _ => write_middle(bytes, at, n, digits),
    }
}

/// Writes the point and the decimals of a part below one, where there are decimals.
#[inline(always)]
#[tactic(auto, using(crate::proofs::WriteFacts::after_the_point))]
pub(crate) fn write_fraction(bytes: &mut [u8], at: usize, part: u64, decimals: u8) -> usize
    requires few { decimals ≤ 8 }
    requires room { at + 9 ≤ length bytes.old }
    ensures size { length bytes.new ≡ length bytes.old }
    ensures within { result ≤ at + 9 }
    ensures text { take result bytes.new ≡ take at bytes.old ++ fraction decimals part }
{
    if decimals == 0 {
        return at;
    }
    let at = write_byte(bytes, at, b'.');
    write_last(bytes, at, part, decimals)
}
