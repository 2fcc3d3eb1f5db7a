//! Digits of numbers with decimals: written after a point, and read back.
ghost use Rattle.std.specs.Prelude.{◌≡◌, ◌≤◌, ◌<◌, ◌++◌, ◌+◌, ◌^◌, IfSome, IsNone};
ghost use Rattle.std.specs.Str.Parse.{starts_with_minus};
ghost use Rattle.arrayvec.specs.ArrayString.{array_string_len};
ghost use Rattle.fit_numbers.specs.FixedText.{fraction, IsIn128};
ghost use Rattle.fit_numbers.specs.inner.Digits.{digits_in, next_value, signed_value};

use arrayvec::ArrayString;
use itoa::Buffer;

const POWERS: [u64; 9] = [
    1,
    10,
    100,
    1_000,
    10_000,
    100_000,
    1_000_000,
    10_000_000,
    100_000_000,
];

/// Ten to the power of a number of decimals.
pub(crate) fn power(decimals: u8) -> u64
    requires { decimals ≤ 8 }
    ensures value { result ≡ 10 ^ decimals }
    ensures above { 0 < result }
    ensures ten { 0 < decimals → 10 ≤ result }
    ensures small { result ≤ 100_000_000 }
{
    POWERS[decimals as usize]
}

/// The point and the digits after it of a part below one, where there are decimals.
pub(crate) fn push_fraction(text: &mut ArrayString<48>, part: u64, decimals: u8)
    requires few { decimals ≤ 8 }
    requires below { part < 10 ^ decimals }
    requires room { array_string_len text.old + decimals < 48 }
    ensures bytes { text.new.bytes ≡ text.old.bytes ++ fraction decimals part }
{
    if decimals > 0 {
        let mut buffer = Buffer::new();
        // A one in front keeps the zeros.
        let digits = buffer.format(power(decimals) + part);
        text.push('.');
        text.push_str(&digits[1..]);
    }
}

/// Whether a text begins with `-`.
pub(crate) fn is_below(text: &[u8]) -> bool
    ensures { result ≡ starts_with_minus text.now }
{
    !text.is_empty() && text[0] == b'-'
}

/// The number with one more byte of a text, where it fits.
fn with_byte(size: u128, byte: u8) -> Option<u128>
    ensures some { IfSome result (λ n. n ≡ next_value size byte) }
    ensures none { IsNone result → 2 ^ 128 ≤ next_value size byte }
{
    if byte.is_ascii_digit() {
        size.checked_mul(10)?.checked_add((byte - b'0') as u128)
    } else {
        Some(size)
    }
}

/// The number that a text's digits write after those of another number, other bytes passed over, where it fits.
fn size_after(before: u128, text: &[u8]) -> Option<u128>
    ensures some { IfSome result (λ n. n ≡ digits_in before text.now) }
    ensures none { IsNone result → 2 ^ 128 ≤ digits_in before text.now }
{
    let mut size = before;
    for byte in text {
        size = with_byte(size, *byte)?;
    }
    Some(size)
}

/// A number with one more byte of a text.
fn next_small(size: u64, byte: u8) -> u64
    requires { size ≤ 1_000_000_000_000_000_000 }
    ensures { result ≡ next_value size byte }
{
    if byte.is_ascii_digit() {
        size * 10 + (byte - b'0') as u64
    } else {
        size
    }
}

/// The number that a text's digits write, other bytes passed over, where it fits.
pub(crate) fn size_of(text: &[u8]) -> Option<u128>
    ensures some { IfSome result (λ n. n ≡ digits_in 0 text.now) }
    ensures none { IsNone result → 2 ^ 128 ≤ digits_in 0 text.now }
{
    let mut size = 0u64;
    for (place, byte) in text.iter().enumerate() {
        if size > 1_000_000_000_000_000_000 {
            return size_after(size as u128, &text[place..]);
        }
        size = next_small(size, *byte);
    }
    Some(size as u128)
}

/// The number of this size, below zero or not, where it fits.
pub(crate) fn with_sign(below: bool, size: u128) -> Option<i128>
    ensures some { IfSome result (λ v. v ≡ signed_value below size) }
    ensures none { IsNone result → ¬ (IsIn128 (signed_value below size)) }
{
    if below {
        0i128.checked_sub_unsigned(size)
    } else {
        i128::try_from(size).ok()
    }
}
