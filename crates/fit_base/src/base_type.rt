//! The base type codes of the FIT protocol by their names ("Base Types").
ghost use Rattle.std.specs.Prelude.{◌≡◌, map};
ghost use Rattle.fit_base.specs.BaseTypes.{base_types};

/// One of a list of values, a byte.
pub const ENUM: u8 = 0x00;
/// A signed number of one byte.
pub const SINT8: u8 = 0x01;
/// A number of one byte.
pub const UINT8: u8 = 0x02;
/// A text in UTF-8, which ends with a zero.
pub const STRING: u8 = 0x07;
/// A number of one byte, of which 0 is no value.
pub const UINT8Z: u8 = 0x0A;
/// Bytes without a meaning of their own.
pub const BYTE: u8 = 0x0D;
/// A signed number of two bytes.
pub const SINT16: u8 = 0x83;
/// A number of two bytes.
pub const UINT16: u8 = 0x84;
/// A signed number of four bytes.
pub const SINT32: u8 = 0x85;
/// A number of four bytes.
pub const UINT32: u8 = 0x86;
/// A floating point number of four bytes.
pub const FLOAT32: u8 = 0x88;
/// A floating point number of eight bytes.
pub const FLOAT64: u8 = 0x89;
/// A number of two bytes, of which 0 is no value.
pub const UINT16Z: u8 = 0x8B;
/// A number of four bytes, of which 0 is no value.
pub const UINT32Z: u8 = 0x8C;
/// A signed number of eight bytes.
pub const SINT64: u8 = 0x8E;
/// A number of eight bytes.
pub const UINT64: u8 = 0x8F;
/// A number of eight bytes, of which 0 is no value.
pub const UINT64Z: u8 = 0x90;

/// The codes of all base types, in the order of the protocol's table.
pub fn codes() -> [u8; 17]
    ensures { result ≡ map (λ t. t.code) base_types }
{
    [
        ENUM, SINT8, UINT8, STRING, UINT8Z, BYTE, SINT16, UINT16, SINT32, UINT32, FLOAT32, FLOAT64,
        UINT16Z, UINT32Z, SINT64, UINT64, UINT64Z,
    ]
}
