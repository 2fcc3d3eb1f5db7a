//! Numbers as bytes, and signed numbers.
ghost use Rattle.std.specs.Prelude.{◌≡◌, ◌⊎◌, ◌+◌, ◌<◌, ◌^◌, length, nat_lt};
ghost use Rattle.fit_base.specs.Numbers.{number, number_bytes, twos_complement};

use byteorder::{BigEndian, ByteOrder, LittleEndian};

/// The byte order of a message, which its definition message calls the architecture.
#[derive(Clone, Copy, Debug, PartialEq, Eq)]
pub enum Order {
    /// The lowest byte comes first.
    Little,
    /// The highest byte comes first.
    Big,
}

/// The greatest number of `width` bytes.
#[inline(always)]
pub fn greatest(width: u8) -> u64
    requires { (width ≡ 1) ⊎ (width ≡ 2) ⊎ (width ≡ 4) ⊎ (width ≡ 8) }
    ensures { result + 1 ≡ 256 ^ width }
{
    GREATEST[width as usize]
}

/// Whether a number has no more bytes than this.
#[inline(always)]
pub fn has_width(bits: u64, width: u8) -> bool
    requires { (width ≡ 1) ⊎ (width ≡ 2) ⊎ (width ≡ 4) ⊎ (width ≡ 8) }
    ensures { result ≡ nat_lt bits (256 ^ width) }
{
    bits <= greatest(width)
}

/// The number that `width` bytes spell.
pub fn bits_at(order: Order, width: u8, bytes: &[u8]) -> u64
    requires width { (width ≡ 1) ⊎ (width ≡ 2) ⊎ (width ≡ 4) ⊎ (width ≡ 8) }
    requires length { length bytes.now ≡ width }
    ensures { result ≡ number order bytes.now }
{
    if width == 1 {
        return u64::from(bytes[0]);
    }
    match order {
        Order::Little => read::<LittleEndian>(width, bytes),
        Order::Big => read::<BigEndian>(width, bytes),
    }
}

/// The number of several bytes in one byte order. A read of a known width is a single load.
fn read<O: ByteOrder>(width: u8, bytes: &[u8]) -> u64
    requires width { (width ≡ 2) ⊎ (width ≡ 4) ⊎ (width ≡ 8) }
    requires length { length bytes.now ≡ width }
    ensures { result ≡ O.number_of width bytes.now }
{
    match width {
        2 => u64::from(O::read_u16(bytes)),
        4 => u64::from(O::read_u32(bytes)),
        _ => O::read_u64(bytes),
    }
}

/// Writes a number as `width` bytes.
pub fn put_bits(order: Order, width: u8, bits: u64, bytes: &mut [u8])
    requires width { (width ≡ 1) ⊎ (width ≡ 2) ⊎ (width ≡ 4) ⊎ (width ≡ 8) }
    requires length { length bytes.old ≡ width }
    requires bits { bits < 256 ^ width }
    ensures { bytes.new ≡ number_bytes order width bits }
{
    match order {
        Order::Little => LittleEndian::write_uint(bytes, bits, width as usize),
        Order::Big => BigEndian::write_uint(bytes, bits, width as usize),
    }
}

/// The signed number that the lowest `width` bytes of `bits` are in two's complement.
pub fn signed(width: u8, bits: u64) -> i64
    requires width { (width ≡ 1) ⊎ (width ≡ 2) ⊎ (width ≡ 4) ⊎ (width ≡ 8) }
    requires bits { bits < 256 ^ width }
    ensures { result ≡ twos_complement width bits }
{
    match width {
        1 => i64::from((bits as u8).cast_signed()),
        2 => i64::from((bits as u16).cast_signed()),
        4 => i64::from((bits as u32).cast_signed()),
        _ => bits.cast_signed(),
    }
}

/// The greatest number of each width. No number has a width of 0, 3, 5, 6 or 7 bytes.
static GREATEST: [u64; 9] = [0, 0xFF, 0xFFFF, 0, 0xFFFF_FFFF, 0, 0, 0, u64::MAX];
