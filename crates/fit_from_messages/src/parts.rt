//! Parts of blocks.
ghost use Rattle.std.specs.Prelude.{◌≡◌, ◌⊎◌, ◌≤◌, ◌+◌, ◌<◌, ◌^◌, ◌++◌, List, ℕ, IfSome, IsNone, length};
ghost use Rattle.fit_from_messages.specs.Parts.{number_read};
ghost use Rattle.fit_from_messages.specs.SaysChain.{IsBlock};

use fit_base::{Order, bits_at};

/// The fewest bytes of a block.
const FRONT: usize = 24;

/// The number of that many bytes at a place, the lowest first.
#[inline(always)]
pub(crate) fn number_at(width: u8, place: usize, bytes: &[u8]) -> u64
    requires width { (width ≡ 1) ⊎ (width ≡ 2) ⊎ (width ≡ 4) ⊎ (width ≡ 8) }
    requires room { place + width ≤ length bytes.now }
    ensures number { result ≡ number_read width place bytes.now }
    ensures small { result < 256 ^ width }
{
    let (_, rest) = bytes.split_at(place);
    let (piece, _) = rest.split_at(width as usize);
    bits_at(Order::Little, width, piece)
}

/// The number of two bytes at a place.
#[inline(always)]
pub fn short_at(place: usize, bytes: &[u8]) -> u16
    requires { place + 2 ≤ length bytes.now }
    ensures { result ≡ number_read 2 place bytes.now }
{
    number_at(2, place, bytes) as u16
}

/// The number of four bytes at a place.
#[inline(always)]
pub fn word_at(place: usize, bytes: &[u8]) -> u32
    requires { place + 4 ≤ length bytes.now }
    ensures { result ≡ number_read 4 place bytes.now }
{
    number_at(4, place, bytes) as u32
}

/// The first block of some bytes, and the bytes after it. None where they don't begin with one.
#[inline(always)]
pub fn first_block(bytes: &[u8]) -> Option<(&[u8], &[u8])>
    ensures block { IfSome result (λ p. IsBlock p.0.now) }
    ensures rest { IfSome result (λ p. bytes.now ≡ p.0.now ++ p.1.now) }
    ensures none { IsNone result → (block more : List ℕ) → bytes.now ≡ block ++ more
        → IsBlock block → ⊥ }
{
    if bytes.len() < FRONT {
        return None;
    }
    let size = word_at(0, bytes) as usize;
    if size < FRONT || size % 8 != 0 || size > bytes.len() {
        return None;
    }
    Some(bytes.split_at(size))
}
