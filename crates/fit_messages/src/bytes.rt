//! Numbers, texts and fronts, put after other bytes.
ghost use Rattle.std.specs.Prelude.{◌≡◌, ◌≤◌, ◌++◌, OnOk, drop, length, replicate};
ghost use Rattle.fit_base.specs.Numbers.{little_bytes};
ghost use Rattle.fit_messages.specs.Blocks as blocks;

use std::alloc::AllocError;

/// Where an event stands.
#[derive(Clone, Copy)]
pub(crate) struct EventPlace {
    /// Which file it is of.
    pub file: u64,
    /// How many bytes come before it.
    pub place: u64,
}

/// What stands in a block after its length.
#[derive(Clone, Copy)]
pub(crate) struct BlockFront {
    pub kind: u8,
    /// Three bytes by the kind.
    pub a: u8,
    pub b: u8,
    pub c: u8,
    pub file: u64,
    /// A number by the kind.
    pub n: u64,
    /// A place among all bytes.
    pub place: u64,
}

/// The eight bytes of a number, the lowest first.
pub(crate) fn eight_bytes(number: u64) -> [u8; 8]
    ensures { result ≡ little_bytes 8 number }
{
    number.to_le_bytes()
}

/// Puts that many of the lowest bytes of a number, the lowest first.
#[inline(always)]
pub(crate) fn put_number(bytes: &mut Vec<u8>, width: u8, number: u64) -> Result<(), AllocError>
    requires { width ≤ 8 }
    ensures { OnOk result (bytes.new.items ≡ bytes.old.items ++ blocks.low width number) }
{
    let all = eight_bytes(number);
    let (low, _) = all.as_slice().split_at(width as usize);
    bytes.extend_from_slice(low)
}

/// Puts as many zeros as that many bytes lack to a multiple of 8.
#[inline(always)]
pub(crate) fn put_gap(bytes: &mut Vec<u8>, count: usize) -> Result<(), AllocError>
    ensures { OnOk result (bytes.new.items
        ≡ bytes.old.items ++ replicate (blocks.gap count) 0) }
{
    let zeros = [0; 8];
    let (some, _) = zeros.as_slice().split_at((8 - count % 8) % 8);
    bytes.extend_from_slice(some)
}

/// Puts bytes, and zeros up to a multiple of 8.
#[inline(always)]
pub(crate) fn put_rounded(bytes: &mut Vec<u8>, source: &[u8]) -> Result<(), AllocError>
    ensures { OnOk result (bytes.new.items ≡ bytes.old.items ++ blocks.rounded source.now) }
{
    bytes.extend_from_slice(source)?;
    put_gap(bytes, source.len())
}

/// Puts a text, a zero, and zeros up to a multiple of 8.
pub(crate) fn put_text(bytes: &mut Vec<u8>, text: &str) -> Result<(), AllocError>
    ensures { OnOk result (bytes.new.items ≡ bytes.old.items ++ blocks.text text.now) }
{
    bytes.extend_from_slice(text.as_bytes())?;
    bytes.push(0)?;
    put_gap(bytes, text.len() + 1)
}

/// Puts what comes after the length of a block.
#[inline(always)]
pub(crate) fn put_front(bytes: &mut Vec<u8>, front: BlockFront) -> Result<(), AllocError>
    ensures { OnOk result (bytes.new.items ≡ bytes.old.items ++ blocks.front
        front.kind front.a front.b front.c front.file front.n front.place) }
{
    let first = [front.kind, front.a, front.b, front.c];
    bytes.extend_from_slice(first.as_slice())?;
    put_number(bytes, 4, front.file)?;
    put_number(bytes, 4, front.n)?;
    put_number(bytes, 8, front.place)
}

/// Puts a block.
#[inline(always)]
pub(crate) fn put_sized(text: &mut Vec<u8>, rest: &[u8]) -> Result<(), AllocError>
    ensures { OnOk result (text.new.items ≡ text.old.items ++ blocks.sized rest.now) }
{
    put_number(text, 4, 4 + rest.len() as u64)?;
    text.extend_from_slice(rest)
}

/// Puts the block of bytes. The first four are room for its length.
pub(crate) fn put_block_of_bytes(text: &mut Vec<u8>, bytes: &[u8]) -> Result<(), AllocError>
    requires { 4 ≤ length bytes.now }
    ensures { OnOk result (text.new.items ≡ text.old.items ++ blocks.sized (drop 4 bytes.now)) }
{
    let (_, rest) = bytes.split_at(4);
    put_sized(text, rest)
}
