//! Short cells in quotes that need none, one after another.
ghost use Rattle.std.specs.Prelude.{◌≡◌, ◌⊎◌, ◌+◌, ◌++◌, ◌∷◌, ◌<◌, ◌≤◌, [], ℕ, IfSome, drop, false, length, slice_index, take};
ghost use Rattle.fit_csv_text.specs.Spellings.{HasPlainLines};
ghost use Rattle.fit_csv_text.specs.inner.Loose.{IsShortCell, WritesOn, is_special, spot_after, spot_from};

use crate::loose::runs::{LANES, before_special};
use crate::loose::sheet::{Sheet, put_lanes};
use crate::loose::{Spot, opens_bare, spot_at, spot_of};

/// How many bytes a short cell has at most, with its quotes and with what ends it.
const SHORT_SIZE: usize = LANES + 4;

/// A short cell in quotes at the front of a text.
#[derive(Clone, Copy)]
struct ShortCell {
    /// How many bytes it shows.
    shown: usize,
    /// The byte that is written after it.
    end: u8,
    /// How many bytes the text has for it, its quotes and its end.
    size: usize,
}

/// How many bytes a short cell shows after its opening quote. Many show none, which is seen before any are counted.
#[inline(always)]
fn cell_length(text: &[u8]) -> usize
    requires { 16 ≤ length text.now }
    ensures within { result ≤ 16 }
    ensures bare { (k : ℕ) → k < result → is_special (slice_index text.now k) ≡ false }
{
    if text[0] == b'"' {
        0
    } else {
        before_special(text)
    }
}

/// The short cell in quotes that needs none at the front of a text, unless little is left of the text.
#[inline(always)]
fn short_cell(text: &[u8]) -> Option<ShortCell>
    ensures { IfSome result (λ cell. IsShortCell text.now cell.shown cell.end cell.size) }
{
    if text.len() < SHORT_SIZE || text[0] != b'"' {
        return None;
    }
    let shown = cell_length(&text[1..]);
    if text[shown + 1] != b'"' {
        return None;
    }
    let end = text[shown + 2];
    if end == b',' || end == b'\n' {
        let size = shown + 3;
        return Some(ShortCell { shown, end, size });
    }
    if end == b'\r' && text[shown + 3] == b'\n' {
        let size = shown + 4;
        return Some(ShortCell {
            shown,
            end: b'\n',
            size,
        });
    }
    None
}

/// Writes a short cell without its quotes and the byte that ends it. Returns the place after them.
#[inline(always)]
fn put_cell(sheet: &mut Sheet, at: usize, text: &[u8], cell: ShortCell) -> usize
    requires room { at + 17 ≤ 2048 }
    requires short { IsShortCell text.now cell.shown cell.end cell.size }
    ensures place { result ≡ at + cell.shown + 1 }
    ensures put { take result sheet.new ≡ take at sheet.old
        ++ (take cell.shown (drop 1 text.now) ++ cell.end ∷ []) }
{
    put_lanes(sheet, at, &text[1..]);
    let last = at + cell.shown;
    sheet[last] = cell.end;
    last + 1
}

/// Where the byte leads that is written after a cell.
#[inline(always)]
fn end_spot(end: u8) -> Spot
    requires { (end ≡ 44) ⊎ (end ≡ 10) }
    ensures { result ≡ spot_after end }
{
    if end == b',' {
        Spot::CellStart
    } else {
        Spot::RowStart
    }
}

/// Where a text leads and what stands on a sheet after it.
#[inline(always)]
fn spot_on(written: &[u8], sheet: &Sheet, at: usize) -> Spot
    requires { at ≤ 2048 }
    ensures { result ≡ spot_from Spot.RowStart (written.now ++ take at sheet.now) }
{
    match sheet[..at].last() {
        Some(b) => spot_at(*b),
        None => spot_of(written),
    }
}

/// Spells anew short cells in quotes until the sheet is written up to a limit or another cell comes. Returns the place after what is
/// written then, and what is left.
#[inline(never)]
pub(crate) fn put_cells<'a>(
    written: &[u8],
    sheet: &mut Sheet,
    at: usize,
    text: &'a [u8],
    limit: usize,
) -> (usize, &'a [u8])
    requires place { at ≤ 2048 }
    requires room { limit + 16 ≤ 2048 }
    ensures place { (at ≤ result.0) × (result.0 ≤ 2048) }
    ensures goes { WritesOn text.now result.1.now
        (written.now ++ take at sheet.old) (written.now ++ take result.0 sheet.new) }
    ensures lines { HasPlainLines text.now → HasPlainLines result.1.now }
{
    let mut spot = spot_on(written, sheet, at);
    let mut left = text;
    let mut place = at;
    if matches!(spot, Spot::InCell) {
        return (place, left);
    }
    while place < limit {
        let Some(cell) = short_cell(left) else {
            break;
        };
        if !opens_bare(spot, cell.shown) {
            break;
        }
        place = put_cell(sheet, place, left, cell);
        spot = end_spot(cell.end);
        left = &left[cell.size..];
    }
    (place, left)
}
