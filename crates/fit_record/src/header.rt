//! The record header byte (FIT protocol, "Record Header").
ghost use Rattle.std.specs.Prelude.{◌≡◌, ◌||◌, ◌<◌, false, IfSome, IsNone, IsTrue};
ghost use Rattle.fit_record.specs.HeaderByte.{bit, is_compressed, is_definition, has_developer_fields, has_reserved_bit, local_type, time_offset};

/// The bit of a data message with a time offset; a header without it is a normal one. Bits are counted from the lowest, 0.
const COMPRESSED: u8 = 7;
/// In a normal header, the bit of a definition message.
const DEFINITION: u8 = 6;
/// In the header of a definition message, the bit of developer fields. In a normal header of a data message it is reserved.
const DEVELOPER_FIELDS: u8 = 5;
/// In a normal header, the bit that is always reserved.
const RESERVED: u8 = 4;
/// The bits of the local message type in a normal header.
const LOCAL_TYPE: u8 = 0x0F;
/// In a compressed header, the lowest bit of the local message type, and its bits from there on.
const COMPRESSED_LOCAL_PLACE: u8 = 5;

const COMPRESSED_LOCAL_TYPE: u8 = 0x03;
/// In a compressed header, the bits of the time offset.
const TIME_OFFSET: u8 = 0x1F;

/// Whether a bit is set.
#[inline(always)]
fn has_bit(byte: u8, place: u8) -> bool
    requires { place < 8 }
    ensures { result ≡ bit place byte }
{
    (byte >> place) & 1 == 1
}

/// Whether this record header byte is that of a data message with a time offset.
fn is_compressed(byte: u8) -> bool
    ensures { result ≡ is_compressed byte }
{
    has_bit(byte, COMPRESSED)
}

/// Whether this record header byte is that of a definition message.
pub fn is_definition(byte: u8) -> bool
    ensures { result ≡ is_definition byte }
{
    !is_compressed(byte) && has_bit(byte, DEFINITION)
}

/// Whether the definition message of this record header has developer fields.
pub fn has_developer_fields(byte: u8) -> bool
    ensures { result ≡ has_developer_fields byte }
{
    has_bit(byte, DEVELOPER_FIELDS)
}

/// Whether a reserved bit of this record header is set.
pub fn has_reserved_bit(byte: u8) -> bool
    ensures { result ≡ has_reserved_bit byte }
{
    if is_compressed(byte) {
        return false;
    }
    if has_bit(byte, RESERVED) {
        return true;
    }
    has_bit(byte, DEVELOPER_FIELDS) && !has_bit(byte, DEFINITION)
}

/// The local message type in this record header.
pub fn local_type(byte: u8) -> u8
    ensures { result ≡ local_type byte }
{
    if is_compressed(byte) {
        (byte >> COMPRESSED_LOCAL_PLACE) & COMPRESSED_LOCAL_TYPE
    } else {
        byte & LOCAL_TYPE
    }
}

/// The time offset in this record header, in seconds; None where it isn't a compressed timestamp header.
pub fn time_offset(byte: u8) -> Option<u8>
    ensures { result ≡ time_offset byte }
{
    if is_compressed(byte) {
        Some(byte & TIME_OFFSET)
    } else {
        None
    }
}

/// The local message type and the time offset in this record header, where it is that of a data message without a reserved bit. Most are
/// normal ones, which have the local message type alone.
#[inline(always)]
pub(crate) fn message_header(byte: u8) -> Option<(u8, Option<u8>)>
    ensures clean { IfSome result (λ _. has_reserved_bit byte ≡ false) }
    ensures data { IfSome result (λ _. is_definition byte ≡ false) }
    ensures local { IfSome result (λ h. h.0 ≡ local_type byte) }
    ensures offset { IfSome result (λ h. h.1 ≡ time_offset byte) }
    ensures none { IsNone result → IsTrue (has_reserved_bit byte || is_definition byte) }
{
    if byte <= LOCAL_TYPE {
        return Some((byte, None));
    }
    if has_reserved_bit(byte) || is_definition(byte) {
        return None;
    }
    Some((local_type(byte), time_offset(byte)))
}
