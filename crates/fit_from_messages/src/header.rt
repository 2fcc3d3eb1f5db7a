//! Blocks of headers.
ghost use Rattle.std.specs.Prelude.{◌≡◌, ◌+◌, ◌≤◌, IfErr, IfOk, drop, length, take, true};
ghost use Rattle.fit_frame.specs.declared.header.HeaderSum.{HeaderSum};
ghost use Rattle.fit_frame.specs.Header.{FormFits};
ghost use Rattle.fit_from_messages.specs.Parts as parts;
ghost use Rattle.fit_from_messages.specs.Parts.{header_in, sum_of_kind};

use crate::parts::number_at;
use arrayvec::ArrayVec;
use fit_frame::{Header, HeaderSum};

/// Whether a header may have the size and the checksum that a block says, and its further bytes are there.
fn size_stands(block: &[u8]) -> bool
    requires { 32 ≤ length block.now }
    ensures { result ≡ parts.size_stands block.now }
{
    if block[7] == 0 {
        block[5] == 12
    } else {
        block[7] < 3 && block[5] >= 14 && 18 + block[5] as usize <= block.len()
    }
}

/// Whether a file may have the header that a block says.
pub(crate) fn header_stands(block: &[u8]) -> bool
    ensures { result ≡ parts.header_stands block.now }
{
    block.len() >= 32 && size_stands(block) && block[6] < 0x30 && number_at(8, 24, block) < 0x1_0000
}

/// What a checksum of a header is that a block calls so.
fn sum_of_kind(kind: u8) -> HeaderSum
    ensures { result ≡ sum_of_kind kind }
{
    match kind {
        0 => HeaderSum::Absent,
        1 => HeaderSum::Zero,
        _ => HeaderSum::True,
    }
}

/// That many bytes of a block from place 32 on.
fn rest_in(block: &[u8], count: usize) -> ArrayVec<u8, 241>
    requires room { 32 + count ≤ length block.now }
    requires few { count ≤ 241 }
    ensures { result.items ≡ take count (drop 32 block.now) }
{
    let (_, after) = block.split_at(32);
    let (rest, _) = after.split_at(count);
    match ArrayVec::try_from(rest) {
        Ok(rest) => rest,
        Err(_) => unreachable!(),
    }
}

/// The header that a block says.
#[tactic(auto, using(crate::proofs::HeaderForms::form_fits))]
pub(crate) fn header_in(block: &[u8]) -> Header
    requires { parts.header_stands block.now ≡ true }
    ensures header { result ≡ header_in block.now }
    ensures form { FormFits result }
{
    let size = block[5];
    Header {
        size,
        protocol: block[6],
        profile: number_at(8, 24, block) as u16,
        sum: sum_of_kind(block[7]),
        rest: rest_in(block, size.saturating_sub(14) as usize),
    }
}
