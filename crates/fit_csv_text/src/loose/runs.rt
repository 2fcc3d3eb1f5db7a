//! How many bytes of a text come before one at which its spelling may be another one than ours. Sixteen are looked at together.
ghost use Rattle.std.specs.Prelude.{◌≡◌, ◌==◌, ◌<◌, ◌≤◌, ℕ, IfSome, false, if◌then◌else◌, length, slice_index};
ghost use Rattle.std.specs.Int.{trailing_zeros, w64};
ghost use Rattle.fit_csv_text.specs.inner.Loose.{is_mark, is_special};

use crate::loose::STEP_SIZE;
use std::simd::prelude::*;

/// How many bytes are looked at together.
pub(crate) const LANES: usize = 16;

/// For the low half of a byte's bits, the byte with that half that a cell without quotes can't have, or else a byte with another half.
const SPECIALS: [u8; LANES] = [1, 0, b'"', 0, 0, 0, 0, 0, 0, 0, b'\n', 0, b',', b'\r', 0, 0];

/// Whether a cell without quotes can't have a byte.
#[inline(always)]
fn special(b: u8) -> bool
    ensures { result ≡ is_special b }
{
    if b > b',' {
        return false;
    }
    b == b',' || b == b'"' || b == b'\r' || b == b'\n'
}

/// Whether a byte is a quote or a carriage return.
#[inline(always)]
pub(crate) fn mark(b: u8) -> bool
    ensures { result ≡ is_mark b }
{
    if b > b'"' {
        return false;
    }
    b == b'"' || b == b'\r'
}

/// How many bits come before the lowest that is set of sixteen.
#[inline(always)]
fn bits_before(mask: u64) -> usize
    ensures { result ≡ (if mask == 0 then 16 else trailing_zeros w64 mask) }
{
    if mask == 0 {
        LANES
    } else {
        mask.trailing_zeros() as usize
    }
}

/// How many of the first sixteen bytes come before one that a cell without quotes can't have.
#[inline(always)]
pub(crate) fn before_special(text: &[u8]) -> usize
    requires { 16 ≤ length text.now }
    ensures within { result ≤ 16 }
    ensures bare { (k : ℕ) → k < result → is_special (slice_index text.now k) ≡ false }
{
    let v = u8x16::from_slice(text);
    let found = u8x16::from_array(SPECIALS).swizzle_dyn_within::<16>(v & u8x16::splat(15));
    bits_before(found.simd_eq(v).to_bitmask())
}

/// How many of the first sixteen bytes come before a quote or a carriage return.
#[inline(always)]
pub(crate) fn before_mark(text: &[u8]) -> usize
    requires { 16 ≤ length text.now }
    ensures within { result ≤ 16 }
    ensures none { (k : ℕ) → k < result → is_mark (slice_index text.now k) ≡ false }
{
    let v = u8x16::from_slice(text);
    let found = v.simd_eq(u8x16::splat(b'"')) | v.simd_eq(u8x16::splat(b'\r'));
    bits_before(found.to_bitmask())
}

/// How many bytes of one step come before the first quote or carriage return.
pub(crate) fn run_length(text: &[u8]) -> usize
    ensures within { result ≤ length text.now }
    ensures few { result ≤ 4096 }
    ensures none { (k : ℕ) → k < result → is_mark (slice_index text.now k) ≡ false }
{
    let end = text.len().min(STEP_SIZE);
    let mut at = 0;
    for _ in 0..end / LANES {
        let found = before_mark(&text[at..]);
        if found < LANES {
            return at + found;
        }
        at += LANES;
    }
    for i in at..end {
        if mark(text[i]) {
            return i;
        }
    }
    end
}

/// How many bytes of one step come before the first that a cell without quotes can't have, where there is one.
pub(crate) fn bare_length(text: &[u8]) -> Option<usize>
    ensures within { IfSome result (λ shown. shown ≤ length text.now) }
    ensures bare { IfSome result (λ shown.
        (k : ℕ) → k < shown → is_special (slice_index text.now k) ≡ false) }
{
    let end = text.len().min(STEP_SIZE);
    let mut at = 0;
    for _ in 0..end / LANES {
        let found = before_special(&text[at..]);
        if found < LANES {
            return Some(at + found);
        }
        at += LANES;
    }
    for i in at..end {
        if special(text[i]) {
            return Some(i);
        }
    }
    None
}
