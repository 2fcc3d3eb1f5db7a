//! Strings, as they are in a cell.
ghost use Rattle.std.specs.Prelude.{◌≡◌, List, ◌<◌, ◌++◌, ℕ, All, IfOk, OnErr, OnOk, slice_index, length};
ghost use Rattle.fit_numbers.specs.FixedText.{StillBegins};
ghost use Rattle.fit_cells.specs.Cells.{begins_as_bytes, string_text};

use crate::hexadecimal::{put_bytes, read_bytes};
use crate::shown::is_plain;
use fit_base::Bits;
use fit_profile::text_len;
use std::alloc::{AllocError, Global};

/// Whether a text begins as bytes do in a cell.
pub(crate) fn begins_as_bytes(text: &[u8]) -> bool
    ensures { result ≡ begins_as_bytes text.now }
{
    if text.len() < 2 {
        return false;
    }
    text[0] == b'0' && text[1] == b'x'
}

/// Puts bytes after a text, as they are.
#[tactic(auto, using(fit_numbers::proofs::KeptTexts::part_put))]
fn put_text(text: &mut Vec<u8>, bytes: &[u64]) -> Result<(), AllocError>
    requires { All (λ b. b < 256) bytes.now }
    ensures ok { OnOk result (text.new.items ≡ text.old.items ++ bytes.now) }
    ensures kept { OnErr result (StillBegins text.old.items text.new.items) }
{
    for byte in bytes {
        text.push(*byte as u8)?;
    }
    Ok(())
}

/// Puts the text of a string after a text, or its bytes where that can't stand as it is.
#[tactic(auto, using(fit_numbers::proofs::KeptTexts::none_put, fit_numbers::proofs::KeptTexts::more_put))]
pub(crate) fn put_string(text: &mut Vec<u8>, bytes: &[u64]) -> Result<(), AllocError>
    requires { All (λ b. b < 256) bytes.now }
    ensures ok { OnOk result (text.new.items ≡ text.old.items ++ string_text bytes.now) }
    ensures kept { OnErr result (StillBegins text.old.items text.new.items) }
{
    let start = text.len();
    put_text(text, &bytes[..text_len(bytes)])?;
    if is_plain(&text.as_slice()[start..]) {
        return Ok(());
    }
    text.truncate(start);
    put_bytes(text, bytes)
}

/// The bytes of a string that a cell shows, and some bytes where it shows none.
pub(crate) fn read_string(alloc: Global, count: u8, text: &[u8]) -> Result<Bits, AllocError>
    ensures count { IfOk result (λ bits. length bits ≡ count) }
    ensures below { IfOk result (λ bits. All (λ b. b < 256) bits) }
    ensures every { IfOk result (λ bits. (bytes : List ℕ) → length bytes ≡ count
        → All (λ b. b < 256) bytes → text.now ≡ string_text bytes → bits ≡ bytes) }
{
    if begins_as_bytes(text) {
        read_bytes(alloc, count, text)
    } else {
        read_text(alloc, count, text)
    }
}

/// The bytes of a text, and zeros after them.
fn read_text(alloc: Global, count: u8, text: &[u8]) -> Result<Bits, AllocError>
    ensures count { IfOk result (λ bits. length bits ≡ count) }
    ensures value { IfOk result (λ bits. (k : ℕ) → k < count
        → slice_index bits k ≡ slice_index text.now k) }
    ensures below { IfOk result (λ bits. All (λ b. b < 256) bits) }
{
    let mut bits = Bits::with_capacity(alloc, count as usize)?;
    for place in 0..count as usize {
        bits.push(byte_at(text, place))?;
    }
    Ok(bits)
}

/// The byte of a text at a place, and zero after its end.
fn byte_at(text: &[u8], place: usize) -> u64
    ensures value { result ≡ slice_index text.now place }
    ensures below { result < 256 }
{
    if place < text.len() {
        text[place] as u64
    } else {
        0
    }
}
