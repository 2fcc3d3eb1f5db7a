//! Several bytes at once: the part that each of them has in the register, from a table of its own.
ghost use Rattle.std.specs.Prelude.{◌≡◌, ◌%◌, ◌/◌, bit_xor};
ghost use Rattle.fit_sum.specs.inner.Register.{shifts, run};

use crate::tables::left_after;

fn add_one(register: u16, byte: u8) -> u16
    ensures { result ≡ shifts 8 (bit_xor register byte) }
{
    let low = (register % 256) as u8;
    (register >> 8) ^ left_after(1, low ^ byte)
}

fn add_each(register: u16, bytes: &[u8]) -> u16
    ensures { result ≡ run register bytes.now }
{
    let mut sum = register;
    for byte in bytes {
        sum = add_one(sum, *byte);
    }
    sum
}

/// The low and the high byte of the register, with two more bytes in them.
#[inline(always)]
fn with_two(register: u16, a: u8, b: u8) -> (u8, u8)
    ensures low { result.0 ≡ bit_xor (register % 256) a }
    ensures high { result.1 ≡ bit_xor (register / 256) b }
{
    let word = register ^ u16::from_le_bytes([a, b]);
    ((word % 256) as u8, (word / 256) as u8)
}

/// The register after two more bytes.
fn add_two(register: u16, bytes: &[u8; 2]) -> u16
    ensures { result ≡ run register bytes.now }
{
    let [a, b] = *bytes;
    let (low, high) = with_two(register, a, b);
    left_after(2, low) ^ left_after(1, high)
}

/// The register after eight more bytes.
pub(crate) fn add_eight(register: u16, bytes: &[u8; 8]) -> u16
    ensures { result ≡ run register bytes.now }
{
    let [a, b, c, d, e, f, g, h] = *bytes;
    let (low, high) = with_two(register, a, b);
    left_after(8, low)
        ^ (left_after(7, high)
            ^ (left_after(6, c)
                ^ (left_after(5, d)
                    ^ (left_after(4, e)
                        ^ (left_after(3, f) ^ (left_after(2, g) ^ left_after(1, h)))))))
}

/// The register after more bytes, two at a time and the last one alone.
fn add_by_twos(register: u16, bytes: &[u8]) -> u16
    ensures { result ≡ run register bytes.now }
{
    let (whole, rest) = bytes.as_chunks::<2>();
    let mut sum = register;
    for two in whole {
        sum = add_two(sum, two);
    }
    add_each(sum, rest)
}

/// The register after more bytes, eight at a time and the rest two by two.
#[inline(always)]
pub(crate) fn add_by_eights(register: u16, bytes: &[u8]) -> u16
    ensures { result ≡ run register bytes.now }
{
    let (whole, rest) = bytes.as_chunks::<8>();
    let mut sum = register;
    for eight in whole {
        sum = add_eight(sum, eight);
    }
    add_by_twos(sum, rest)
}
