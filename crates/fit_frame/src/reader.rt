//! A reader of headers, byte by byte.
ghost use Rattle.std.specs.Prelude.{◌≡◌, ◌<◌, ◌≤◌, ◌↔◌, ◌⊎◌, ℕ, [], ◌∷◌, ◌++◌, length, drop, Some, None, Ok, Err, IsOk, IsTrue, OnOk};
ghost use Rattle.fit_frame.specs.declared.header.Header.{Header};
ghost use Rattle.fit_frame.specs.declared.reason.Reason.{Reason};
ghost use Rattle.fit_frame.specs.Beginning.{IsDataSize, IsFileHeader, IsUnfinishedHeader, IsWholeHeader, RefusesByte, has_refused, has_seen, header_reason};
ghost use Rattle.fit_frame.specs.inner.Judgement.{MayFollow, HasItsSize, ReadsAs, ReadsWord};

use crate::spelling::checksum;
use crate::{Header, HeaderSum, Reason};
use arrayvec::ArrayVec;
use byteorder::{ByteOrder, LittleEndian};
use std::marker::Model;

/// Reads the header of a file (section "File Header") byte by byte, and refuses the first byte with
/// which no header of a file begins.
///
/// Clauses see the bytes put that weren't refused, and the refusal if there was one.
#[derive(Drop)]
pub struct HeadReader {
    bytes: ArrayVec<u8, 255>,
    refusal: Option<Reason>,
}

impl Model for HeadReader {
    ghost use Rattle.fit_frame.specs.Beginning.{Seen};

    ghost Value = { Seen };

    ghost use Rattle.fit_frame.specs.inner.Judgement.{IsReading};

    ghost view = { λ r. record { bytes = r.bytes.items; refusal = r.refusal } };

    ghost invariant = { λ r. IsReading r.bytes.items };
}

impl HeadReader {
    /// A reader that has seen no byte.
    pub fn new() -> HeadReader
        ensures seen { result ≡ has_seen [] }
        ensures begins { IsUnfinishedHeader result.bytes }
    {
        HeadReader {
            bytes: ArrayVec::new(),
            refusal: None,
        }
    }

    /// Takes the next byte. The last byte of a header gives the header and the data size.
    ///
    /// A byte is refused where the bytes before it begin a header of a file, and with it they don't:
    /// `HeaderSize`, `Protocol`, `NoFit` (no records fill 1 to 5 bytes of data), `Signature` or
    /// `HeaderSum`. After a refusal each call returns it again and changes nothing.
    pub fn put(&mut self, byte: u8) -> Result<Option<(Header, u32)>, Reason>
        requires { IsWholeHeader self.old.bytes → ⊥ }
        ensures taken { OnOk result (self.new ≡ has_seen (self.old.bytes ++ byte ∷ [])) }
        ensures some { (h : Header) (n : ℕ) → result ≡ Ok (Some (h, n))
            → IsFileHeader h n self.new.bytes }
        ensures none { result ≡ Ok None → IsUnfinishedHeader self.new.bytes }
        ensures refused { (reason : Reason) → self.old.refusal ≡ None → result ≡ Err reason
            → (self.new ≡ has_refused self.old.bytes reason)
            × RefusesByte self.old.bytes byte reason }
        ensures latched { (reason : Reason) → self.old.refusal ≡ Some reason
            → (result ≡ Err reason) × (self.new ≡ self.old) }
    {
        if let Some(reason) = self.refusal {
            return Err(reason);
        }
        if !may_follow(self.bytes.as_slice(), byte) {
            let reason = reason_at(self.bytes.len());
            self.refusal = Some(reason);
            return Err(reason);
        }
        self.bytes.push(byte);
        if !has_its_size(self.bytes.as_slice()) {
            return Ok(None);
        }
        Ok(Some(header_of(self.bytes.as_slice())))
    }

    /// Whether the bytes put are a complete header.
    pub fn done(&self) -> bool
        ensures { IsTrue result ↔ IsWholeHeader self.now.bytes }
    {
        has_its_size(self.bytes.as_slice())
    }

    /// The bytes put that weren't refused.
    pub fn bytes(&self) -> &[u8]
        ensures { result.now ≡ self.now.bytes }
    {
        &self.bytes
    }
}

/// The reason of a byte that is refused after this many others.
fn reason_at(place: usize) -> Reason
    ensures { result ≡ header_reason place }
{
    match place {
        0 => Reason::HeaderSize,
        1 => Reason::Protocol,
        7 => Reason::NoFit,
        8..=11 => Reason::Signature,
        _ => Reason::HeaderSum,
    }
}

/// Whether the byte may follow these.
fn may_follow(bytes: &[u8], byte: u8) -> bool
    ensures { IsTrue result ↔ MayFollow bytes.now byte }
{
    match bytes.len() {
        0 => byte == 12 || byte >= 14,
        1 => byte / 16 <= 2,
        7 => is_data_size(LittleEndian::read_u32(&[bytes[4], bytes[5], bytes[6], byte])),
        8 => byte == b'.',
        9 => byte == b'F',
        10 => byte == b'I',
        11 => byte == b'T',
        12 => byte == 0 || u16::from(byte) == checksum(bytes) % 256,
        13 => {
            bytes[12] == 0 && byte == 0
                || LittleEndian::read_u16(&[bytes[12], byte]) == checksum(&bytes[..12])
        }
        _ => true,
    }
}

/// Whether records can fill a data section of this size.
fn is_data_size(size: u32) -> bool
    ensures { IsTrue result ↔ IsDataSize size }
{
    size == 0 || size >= 6
}

/// Whether there are as many bytes as the first one says.
fn has_its_size(bytes: &[u8]) -> bool
    ensures { IsTrue result ↔ HasItsSize bytes.now }
{
    match bytes.first() {
        Some(size) => usize::from(*size) == bytes.len(),
        None => false,
    }
}

/// The header in these bytes, and the data size.
fn header_of(bytes: &[u8]) -> (Header, u32)
    requires { (length bytes.now ≡ 12) ⊎ ((14 ≤ length bytes.now) × (length bytes.now ≤ 255)) }
    ensures { ReadsAs result.0 result.1 bytes.now }
{
    let (sum, rest) = if bytes.len() < 14 {
        (HeaderSum::Absent, ArrayVec::new())
    } else {
        (sum_word(bytes), further(&bytes[14..]))
    };
    let header = Header {
        size: bytes[0],
        protocol: bytes[1],
        profile: LittleEndian::read_u16(&bytes[2..]),
        sum,
        rest,
    };
    (header, LittleEndian::read_u32(&bytes[4..]))
}

/// What the two bytes after the fixed part hold.
fn sum_word(bytes: &[u8]) -> HeaderSum
    requires { 14 ≤ length bytes.now }
    ensures { ReadsWord result bytes.now (drop 14 bytes.now) }
{
    if LittleEndian::read_u16(&bytes[12..]) == checksum(&bytes[..12]) {
        HeaderSum::True
    } else {
        HeaderSum::Zero
    }
}

/// The bytes from place 14 on.
fn further(bytes: &[u8]) -> ArrayVec<u8, 241>
    requires { length bytes.now ≤ 241 }
    ensures { result.items ≡ bytes.now }
{
    let mut rest = ArrayVec::new();
    if rest.try_extend_from_slice(bytes).is_err() {
        unreachable!()
    }
    rest
}
