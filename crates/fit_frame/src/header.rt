//! The header of a file.
ghost use Rattle.std.specs.Prelude.{◌≡◌, []};

use arrayvec::ArrayVec;

/// Protocol version 2.0, the first with developer fields and with numbers of eight bytes.
pub const PROTOCOL_2_0: u8 = 0x20;

/// What the two bytes after the fixed part of a header hold: the header checksum, or zeros (FIT protocol, "File Header", where it
/// is called CRC).
#[derive(Clone, Copy, Debug, PartialEq, Eq)]
pub enum HeaderSum {
    /// There are no such bytes: the header has 12 bytes.
    Absent,
    /// Zeros, where the checksum of the fixed part isn't 0.
    Zero,
    /// The checksum of the fixed part. Where that is 0, the header counts as this one.
    True,
}

/// The header of a file, all but its data size (section "File Header").
///
/// In a header of 12 bytes `sum` is `Absent` and `rest` is empty. In one of `size` 14 to 255 `sum` is
/// `Zero` or `True`, and `rest` has `size - 14` bytes.
#[derive(Debug, Drop, PartialEq)]
pub struct Header {
    /// The number of its bytes.
    pub size: u8,
    /// The protocol version: the major version 0, 1 or 2 in the high four bits, the minor one in the
    /// low four.
    pub protocol: u8,
    /// The profile version.
    pub profile: u16,
    /// The header checksum: the two bytes after the first twelve, where there are any.
    pub sum: HeaderSum,
    /// The bytes from place 14 on. They may be any, and no header checksum covers them.
    pub rest: ArrayVec<u8, 241>,
}

impl Header {
    /// A header of 14 bytes, the last two of which are its checksum.
    pub fn new(protocol: u8, profile: u16) -> Header
        ensures size { result.size ≡ 14 }
        ensures protocol { result.protocol ≡ protocol }
        ensures profile { result.profile ≡ profile }
        ensures sum { result.sum ≡ HeaderSum.True }
        ensures rest { result.rest.items ≡ [] }
    {
        Header {
            size: 14,
            protocol,
            profile,
            sum: HeaderSum::True,
            rest: ArrayVec::new(),
        }
    }
}
