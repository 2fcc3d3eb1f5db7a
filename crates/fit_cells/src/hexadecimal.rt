//! Hexadecimal digits.
ghost use Rattle.std.specs.Prelude.{◌≡◌, ◌<◌, ◌≤◌, ◌+◌, ◌++◌, ◌/◌, ◌%◌, ◌^◌, ◌⊎◌, ◌*◌, ℕ, codes, All, IfOk, OnErr, OnOk, length, take, drop};
ghost use Rattle.fit_numbers.specs.FixedText.{StillBegins};
ghost use Rattle.fit_cells.specs.Cells.{bytes_text, hex_digit, hex_digits};
ghost use Rattle.fit_cells.specs.Steps.{hex_value, read_hex, read_pairs};

use fit_base::Bits;
use std::alloc::{AllocError, Global};

/// The two hexadecimal digits of each byte.
static PAIRS: [u8; 512] = *b"000102030405060708090A0B0C0D0E0F101112131415161718191A1B1C1D1E1F\
    202122232425262728292A2B2C2D2E2F303132333435363738393A3B3C3D3E3F\
    404142434445464748494A4B4C4D4E4F505152535455565758595A5B5C5D5E5F\
    606162636465666768696A6B6C6D6E6F707172737475767778797A7B7C7D7E7F\
    808182838485868788898A8B8C8D8E8F909192939495969798999A9B9C9D9E9F\
    A0A1A2A3A4A5A6A7A8A9AAABACADAEAFB0B1B2B3B4B5B6B7B8B9BABBBCBDBEBF\
    C0C1C2C3C4C5C6C7C8C9CACBCCCDCECFD0D1D2D3D4D5D6D7D8D9DADBDCDDDEDF\
    E0E1E2E3E4E5E6E7E8E9EAEBECEDEEEFF0F1F2F3F4F5F6F7F8F9FAFBFCFDFEFF";

/// The two hexadecimal digits of a byte.
#[inline(always)]
fn pair(byte: u8) -> [u8; 2]
    ensures { result ≡ hex_digits 2 byte }
{
    [PAIRS[2 * byte as usize], PAIRS[2 * byte as usize + 1]]
}

/// Writes two bytes into a row from a place on. Returns the place after them.
#[inline(always)]
fn write_two(row: &mut [u8], at: usize, two: [u8; 2]) -> usize
    requires room { at + 2 ≤ length row.old }
    ensures size { length row.new ≡ length row.old }
    ensures end { result ≡ at + 2 }
    ensures text { take result row.new ≡ take at row.old ++ two }
    ensures after { drop result row.new ≡ drop result row.old }
{
    let [first, second] = two;
    row[at] = first;
    row[at + 1] = second;
    at + 2
}

/// Writes what stands before hexadecimal digits.
#[inline(always)]
fn write_mark(row: &mut [u8], at: usize) -> usize
    requires room { at + 2 ≤ length row.old }
    ensures size { length row.new ≡ length row.old }
    ensures end { result ≡ at + 2 }
    ensures text { take result row.new ≡ take at row.old ++ codes "0x" }
    ensures after { drop result row.new ≡ drop result row.old }
{
    write_two(row, at, *b"0x")
}

/// Writes bytes into a row from a place on, `0x` and two digits each. Returns the place after them, from which on the row stays.
pub fn write_bytes(row: &mut [u8], at: usize, bytes: &[u8]) -> usize
    requires room { at + (2 + 2 * length bytes.now) ≤ length row.old }
    ensures size { length row.new ≡ length row.old }
    ensures end { result ≡ at + (2 + 2 * length bytes.now) }
    ensures text { take result row.new ≡ take at row.old ++ bytes_text bytes.now }
    ensures after { drop result row.new ≡ drop result row.old }
{
    let mut end = write_mark(row, at);
    for byte in bytes {
        end = write_two(row, end, pair(*byte));
    }
    end
}

/// The byte of a number at a place, counted from the last.
#[inline(always)]
fn byte_at(number: u64, place: u8) -> u8
    requires { place < 8 }
    ensures { result ≡ number / 2 ^ (8 * place) % 256 }
{
    ((number >> (8 * place as u32)) % 256) as u8
}

/// Writes the bits of a floating point number of this many bytes into a row from a place on, `0x` and two hexadecimal digits a byte.
/// Returns the place after them, from which on the row stays.
pub fn write_float(row: &mut [u8], at: usize, width: u8, bits: u64) -> usize
    requires width { width ≤ 8 }
    requires room { at + (2 + 2 * width) ≤ length row.old }
    ensures size { length row.new ≡ length row.old }
    ensures end { result ≡ at + (2 + 2 * width) }
    ensures text { take result row.new ≡ take at row.old
        ++ (codes "0x" ++ hex_digits (2 * width) bits) }
    ensures after { drop result row.new ≡ drop result row.old }
{
    let mut end = write_mark(row, at);
    for written in 0..width {
        end = write_two(row, end, pair(byte_at(bits, width - 1 - written)));
    }
    end
}

/// The hexadecimal digit of a number at a place, counted from the last.
fn digit_at(number: u64, place: u8) -> u8
    requires { place < 16 }
    ensures { result ≡ hex_digit (number / 16 ^ place % 16) }
{
    let digit = ((number >> (4 * place as u32)) % 16) as u8;
    if digit < 10 { 48 + digit } else { 55 + digit }
}

/// Puts the last eight digits of a number after a text.
#[tactic(auto, using(crate::proofs::HexFacts::eight_digits))]
fn put_eight_digits(text: &mut Vec<u8>, number: u64) -> Result<(), AllocError>
    ensures ok { OnOk result (text.new.items ≡ text.old.items ++ hex_digits 8 number) }
    ensures err { OnErr result (text.new.items ≡ text.old.items) }
{
    text.extend_from_slice(&[
        digit_at(number, 7),
        digit_at(number, 6),
        digit_at(number, 5),
        digit_at(number, 4),
        digit_at(number, 3),
        digit_at(number, 2),
        digit_at(number, 1),
        digit_at(number, 0),
    ])
}

/// Puts the last digits of a number after a text. Out of memory, the old text is still its beginning.
pub fn put_digits(text: &mut Vec<u8>, digits: u8, number: u64) -> Result<(), AllocError>
    requires { digits ≤ 16 }
    ensures ok { OnOk result (text.new.items ≡ text.old.items ++ hex_digits digits number) }
    ensures kept { OnErr result (StillBegins text.old.items text.new.items) }
{
    if digits == 8 {
        return put_eight_digits(text, number);
    }
    for written in 0..digits {
        text.push(digit_at(number, digits - 1 - written))?;
    }
    Ok(())
}

/// Puts bytes after a text, `0x` and two digits each.
#[tactic(auto, using(fit_numbers::proofs::KeptTexts::none_put, fit_numbers::proofs::KeptTexts::more_put))]
pub(crate) fn put_bytes(text: &mut Vec<u8>, bytes: &[u64]) -> Result<(), AllocError>
    ensures ok { OnOk result (text.new.items ≡ text.old.items ++ bytes_text bytes.now) }
    ensures kept { OnErr result (StillBegins text.old.items text.new.items) }
{
    text.extend_from_slice(b"0x")?;
    for byte in bytes {
        put_digits(text, 2, *byte)?;
    }
    Ok(())
}

/// What a hexadecimal digit stands for, and any other byte for some number.
fn digit_value(digit: u8) -> u64
    ensures value { result ≡ hex_value digit }
    ensures below { result < 16 }
{
    let value = if digit < 58 {
        digit.saturating_sub(48)
    } else {
        digit - 55
    };
    (value % 16) as u64
}

/// The number that hexadecimal digits write.
pub(crate) fn read_digits(digits: &[u8]) -> u64
    requires { length digits.now ≤ 16 }
    ensures value { result ≡ read_hex 0 digits.now }
    ensures below { result < 16 ^ length digits.now }
{
    let mut number = 0u64;
    for digit in digits {
        number = number * 16 + digit_value(*digit);
    }
    number
}

/// The number that the first two of some hexadecimal digits write.
fn first_pair(digits: &[u8]) -> u64
    ensures value { result ≡ read_hex 0 (take 2 digits.now) }
    ensures below { result < 256 }
{
    if digits.len() < 2 {
        return read_digits(digits);
    }
    read_digits(&digits[..2])
}

/// The bytes that hexadecimal digits after `0x` write.
pub fn read_bytes(alloc: Global, count: u8, text: &[u8]) -> Result<Bits, AllocError>
    ensures value { IfOk result (λ bits. bits ≡ read_pairs count (drop 2 text.now)) }
    ensures below { IfOk result (λ bits. All (λ b. b < 256) bits) }
{
    let mut bits = Bits::with_capacity(alloc, count as usize)?;
    let mut rest = after(text, 2);
    for place in 0..count {
        bits.push(first_pair(rest))?;
        rest = after(rest, 2);
    }
    Ok(bits)
}

/// What stands after the first bytes of a text.
fn after(text: &[u8], bytes: usize) -> &[u8]
    ensures { result.now ≡ drop bytes text.now }
{
    if text.len() < bytes {
        return &[];
    }
    &text[bytes..]
}

/// The bits of a float that is shown as a text, and some bits where none is.
pub(crate) fn read_float(width: u8, text: &[u8]) -> u64
    requires { (width ≡ 1) ⊎ (width ≡ 2) ⊎ (width ≡ 4) ⊎ (width ≡ 8) }
    ensures below { result < 256 ^ width }
    ensures every { (bits : ℕ) → bits < 256 ^ width
        → text.now ≡ codes "0x" ++ hex_digits (2 * width) bits → result ≡ bits }
{
    if text.len() != 2 + 2 * width as usize {
        return 0;
    }
    read_digits(&text[2..])
}
