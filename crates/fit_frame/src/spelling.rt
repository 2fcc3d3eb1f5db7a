//! The bytes of a header.
ghost use Rattle.std.specs.Prelude.{◌≡◌, ◌∷◌, ◌+◌, ◌≤◌, ◌++◌, ◌↔◌, ◌<◌, ◌^◌, length, IsOk, IsTrue, IfOk};
ghost use Rattle.fit_base.specs.Numbers.{little_bytes};
ghost use Rattle.fit_sum.specs.Checksum.{checksum};
ghost use Rattle.fit_frame.specs.Header.{signature, sum_part, header_bytes, SizeFits, FormFits, HeaderFits, ZeroIsSum};

use crate::{HeadFault, Header, HeaderSum};
use arrayvec::ArrayVec;
use byteorder::{ByteOrder, LittleEndian};
use fit_sum::checksum_of;

/// The bytes of a header before `data_len` bytes of data (section "File Header").
///
/// Whether records can fill that length isn't asked.
pub fn head_bytes(header: &Header, data_len: u32) -> Result<ArrayVec<u8, 255>, HeadFault>
    ensures ok { IsOk result ↔ HeaderFits header.now data_len }
    ensures bytes { IfOk result (λ bytes. bytes.items ≡ header_bytes header.now data_len) }
    ensures bad_header { (result ≡ Err HeadFault.BadHeader) ↔ (FormFits header.now → ⊥) }
    ensures zero_is_sum { (result ≡ Err HeadFault.ZeroIsSum)
        ↔ (FormFits header.now × ZeroIsSum header.now data_len) }
{
    if !has_form(header) {
        return Err(HeadFault::BadHeader);
    }
    let fixed = fixed_part(header.size, header.protocol, header.profile, data_len);
    let sum = checksum(&fixed);
    if is_zero(header.sum, sum) {
        return Err(HeadFault::ZeroIsSum);
    }
    Ok(joined(&fixed, header.sum, sum, header.rest.as_slice()))
}

/// Whether the size, the major protocol version, the header checksum and the further bytes of a header go together, whatever the data is.
pub fn has_form(header: &Header) -> bool
    ensures { IsTrue result ↔ FormFits header.now }
{
    header.protocol / 16 <= 2 && has_size(header.sum, header.size, header.rest.as_slice())
}

/// Whether a header with this header checksum and these further bytes has this size.
fn has_size(sum: HeaderSum, size: u8, rest: &[u8]) -> bool
    ensures { IsTrue result ↔ SizeFits sum size rest.now }
{
    match sum {
        HeaderSum::Absent => size == 12 && rest.is_empty(),
        HeaderSum::Zero => usize::from(size) == 14 + rest.len(),
        HeaderSum::True => usize::from(size) == 14 + rest.len(),
    }
}

/// Whether a header has zeros in place of a checksum that is 0 itself.
fn is_zero(word: HeaderSum, sum: u16) -> bool
    ensures { IsTrue result ↔ ((word ≡ HeaderSum.Zero) × (sum ≡ 0)) }
{
    match word {
        HeaderSum::Zero => sum == 0,
        _ => false,
    }
}

/// The first twelve bytes.
fn fixed_part(size: u8, protocol: u8, profile: u16, data_len: u32) -> [u8; 12]
    ensures bytes { result
        ≡ size ∷ protocol ∷ little_bytes 2 profile ++ little_bytes 4 data_len ++ signature }
    ensures in_range { (size < 2 ^ 8) × (profile < 2 ^ 16) }
{
    let mut bytes = [size, protocol, 0, 0, 0, 0, 0, 0, b'.', b'F', b'I', b'T'];
    LittleEndian::write_u16(&mut bytes[2..], profile);
    LittleEndian::write_u32(&mut bytes[4..], data_len);
    bytes
}

/// The checksum of the bytes.
pub(crate) fn checksum(bytes: &[u8]) -> u16
    ensures { result ≡ checksum bytes.now }
{
    checksum_of(bytes, &[])
}

/// The bytes of a checksum, the lowest first.
pub fn sum_bytes(sum: u16) -> [u8; 2]
    ensures { result ≡ little_bytes 2 sum }
{
    sum.to_le_bytes()
}

/// The parts of a header one after another.
fn joined(fixed: &[u8; 12], word: HeaderSum, sum: u16, rest: &[u8]) -> ArrayVec<u8, 255>
    requires sum { sum ≡ checksum fixed.now }
    requires rest { length rest.now ≤ 241 }
    ensures { result.items ≡ fixed.now ++ sum_part word fixed.now ++ rest.now }
{
    let mut bytes = ArrayVec::new();
    append(&mut bytes, fixed);
    match word {
        HeaderSum::Absent => {}
        HeaderSum::Zero => append(&mut bytes, &[0, 0]),
        HeaderSum::True => append(&mut bytes, &sum_bytes(sum)),
    }
    append(&mut bytes, rest);
    bytes
}

/// Puts more bytes at the end.
fn append(bytes: &mut ArrayVec<u8, 255>, more: &[u8])
    requires { length bytes.old.items + length more.now ≤ 255 }
    ensures { bytes.new.items ≡ bytes.old.items ++ more.now }
{
    if bytes.try_extend_from_slice(more).is_err() {
        unreachable!()
    }
}
