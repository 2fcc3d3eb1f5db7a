//! Short lines without quotes, and what of a line comes before a quote.
ghost use Rattle.std.specs.Prelude.{◌≡◌, ◌+◌, ◌++◌, ◌∷◌, ◌<◌, ◌≤◌, ℕ, List, MatchOption, false, length, slice_index, take};
ghost use Rattle.fit_csv_text.specs.Spellings.{HasPlainLines};
ghost use Rattle.fit_csv_text.specs.inner.Loose.{WritesOn, is_mark};

use crate::loose::after_byte;
use crate::loose::runs::{LANES, before_mark};
use crate::loose::sheet::{Sheet, put_lanes};

/// A short line has fewer bytes before its end.
pub(crate) const LINE_SIZE: usize = 128;

/// Writes the bytes before the first quote or carriage return, and returns how many they are, where they are those of a short line.
#[inline(always)]
fn put_line(sheet: &mut Sheet, at: usize, text: &[u8]) -> usize
    requires room { at + 128 ≤ 2048 }
    requires long { 128 ≤ length text.now }
    ensures within { result ≤ 128 }
    ensures none { (k : ℕ) → k < result → is_mark (slice_index text.now k) ≡ false }
    ensures put { take (at + result) sheet.new ≡ take at sheet.old ++ take result text.now }
{
    let mut shown = 0;
    for _ in 0..LINE_SIZE / LANES {
        let found = before_mark(&text[shown..]);
        put_lanes(sheet, at + shown, &text[shown..]);
        if found < LANES {
            return shown + found;
        }
        shown += LANES;
    }
    shown
}

/// What comes after a carriage return and a line feed.
#[inline(always)]
pub(crate) fn after_return(text: &[u8]) -> Option<&[u8]>
    ensures { MatchOption result ((left : List ℕ) → text.now ≡ 13 ∷ 10 ∷ left → ⊥)
        (λ left. text.now ≡ 13 ∷ 10 ∷ left.now) }
{
    let rest = after_byte(text, b'\r')?;
    after_byte(rest, b'\n')
}

/// Spells anew a short line, or what of it comes before a quote or before the place where writing stops. Returns the place after what is
/// written then, and what is left.
#[inline(always)]
pub(crate) fn put_short_line<'a>(
    sheet: &mut Sheet,
    at: usize,
    text: &'a [u8],
    stop: usize,
) -> (usize, &'a [u8])
    requires { at + 128 ≤ 2048 }
    ensures place { (at ≤ result.0) × (result.0 ≤ 2048) }
    ensures goes { (old : List ℕ) → WritesOn text.now result.1.now
        (old ++ take at sheet.old) (old ++ take result.0 sheet.new) }
    ensures lines { HasPlainLines text.now → HasPlainLines result.1.now }
{
    if text.len() < LINE_SIZE {
        return (at, text);
    }
    let shown = put_line(sheet, at, text);
    if shown == LINE_SIZE {
        return (at, text);
    }
    let place = at + shown;
    let left = &text[shown..];
    let Some(rest) = after_return(left) else {
        return (place, left);
    };
    if place >= stop {
        return (place, left);
    }
    sheet[place] = b'\n';
    (place + 1, rest)
}
