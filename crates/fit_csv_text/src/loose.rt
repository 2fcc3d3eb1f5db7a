//! Texts as spreadsheets write them, spelled anew as `to_csv` spells: CR LF at the ends of lines, cells in quotes that need none,
//! a byte order mark at the start.
ghost use Rattle.std.specs.Prelude.{◌≡◌, ◌+◌, ◌++◌, ◌∷◌, ◌<◌, ◌≤◌, [], ℕ, List, IfOk, IfSome, IsOkUnless, IsTrue, MatchOption, OnOk};
ghost use Rattle.std.specs.Prelude.{false, length, slice_index, take, true};
ghost use Rattle.csv.specs.Reading.{strip_bom};
ghost use Rattle.fit_csv_text.specs.Spellings.{HasPlainLines};
ghost use Rattle.fit_csv_text.specs.inner.Loose.{Closes, EndsCell, EndsLine, Grows, Opens, WritesOn, is_mark, may_open, spot_after, spot_from};

mod cells;
mod lines;
mod runs;
mod sheet;

use crate::loose::cells::put_cells;
use crate::loose::lines::{LINE_SIZE, after_return, put_short_line};
use crate::loose::runs::{bare_length, mark, run_length};
use crate::loose::sheet::{SHEET_SIZE, Sheet};

/// How far one step of the spelling looks ahead. A cell of a FIT file is shorter, and a longer one in quotes is not spelled anew.
pub(crate) const STEP_SIZE: usize = 4_096;

/// How many bytes are written at most. A step writes a sheet or what it looks at, and two bytes more.
const MOST: usize = 65_536;

/// Why a text isn't spelled anew.
#[derive(Clone, Copy)]
pub(crate) enum Unspelled {
    /// It has another spelling than spreadsheets write, or there is no room for it.
    Other,
    /// Memory was refused.
    NoMemory,
}

/// Where a text stands outside of quotes.
#[derive(Clone, Copy)]
pub(crate) enum Spot {
    RowStart,
    CellStart,
    InCell,
}

/// Where a byte leads that is no quote.
fn spot_at(b: u8) -> Spot
    ensures { result ≡ spot_after b }
{
    match b {
        b',' => Spot::CellStart,
        b'\n' => Spot::RowStart,
        _ => Spot::InCell,
    }
}

/// Where a text leads.
fn spot_of(written: &[u8]) -> Spot
    ensures { result ≡ spot_from Spot.RowStart written.now }
{
    match written.last() {
        Some(b) => spot_at(*b),
        None => Spot::RowStart,
    }
}

/// How many bytes a cell has after its opening quote, the closing quote too, where one step is enough for it.
fn quoted_length(text: &[u8]) -> Option<usize>
    ensures { IfSome result (λ n. (n ≤ length text.now) × Closes true (take n text.now)) }
{
    let mut is_open = true;
    for (i, b) in text.iter().enumerate() {
        if i == STEP_SIZE {
            return None;
        }
        if *b == b'"' {
            is_open = !is_open;
        } else if !is_open {
            return Some(i);
        }
    }
    if is_open { None } else { Some(text.len()) }
}

/// Writes bytes after what was written, where there is room for them.
fn put(written: &mut Vec<u8>, bytes: &[u8]) -> Result<(), Unspelled>
    ensures text { OnOk result (written.new.items ≡ written.old.items ++ bytes.now) }
    ensures long { OnOk result
        (length written.new.items ≡ length written.old.items + length bytes.now) }
    ensures few { OnOk result (length written.new.items ≤ 65536) }
    ensures room { length written.old.items + length bytes.now ≤ 65536
        → IsOkUnless result Unspelled.NoMemory }
{
    if written.len() + bytes.len() > MOST {
        return Err(Unspelled::Other);
    }
    match written.extend_from_slice(bytes) {
        Ok(()) => Ok(()),
        Err(_) => Err(Unspelled::NoMemory),
    }
}

/// Writes a byte after what was written, where there is room for it.
#[inline(always)]
fn put_byte(written: &mut Vec<u8>, byte: u8) -> Result<(), Unspelled>
    ensures text { OnOk result (written.new.items ≡ written.old.items ++ byte ∷ []) }
    ensures grows { OnOk result (Grows written.old.items written.new.items) }
    ensures room { length written.old.items < 65536 → IsOkUnless result Unspelled.NoMemory }
{
    if written.len() >= MOST {
        return Err(Unspelled::Other);
    }
    match written.push(byte) {
        Ok(()) => Ok(()),
        Err(_) => Err(Unspelled::NoMemory),
    }
}

/// What comes after the end of a row.
fn after_row(text: &[u8]) -> Option<&[u8]>
    ensures { IfSome result (λ left. EndsLine text.now left.now) }
{
    match text {
        [b'\n', left @ ..] => Some(left),
        [b'\r', b'\n', left @ ..] => Some(left),
        [] => Some(text),
        _ => None,
    }
}

/// Writes what comes after a cell in quotes, and returns what is left.
fn end_cell<'a>(written: &mut Vec<u8>, text: &'a [u8]) -> Result<&'a [u8], Unspelled>
    ensures ends { IfOk result (λ left. (spelled : List ℕ) × EndsCell text.now left.now spelled
        × (written.new.items ≡ written.old.items ++ spelled)) }
    ensures grows { IfOk result (λ left. Grows written.old.items written.new.items) }
{
    if let [b',', left @ ..] = text {
        put_byte(written, b',')?;
        return Ok(left);
    }
    let Some(left) = after_row(text) else {
        return Err(Unspelled::Other);
    };
    put_byte(written, b'\n')?;
    Ok(left)
}

/// Whether a cell that shows some bytes, or none, may begin at a spot without quotes.
fn opens_bare(spot: Spot, shown: usize) -> bool
    ensures { (cell : List ℕ) → IsTrue result → shown ≡ length cell → Opens spot cell }
{
    match spot {
        Spot::CellStart => true,
        Spot::RowStart => shown > 0,
        Spot::InCell => false,
    }
}

/// Whether a cell may begin there.
fn opens(written: &[u8]) -> bool
    ensures { result ≡ may_open (spot_from Spot.RowStart written.now) }
{
    !matches!(spot_of(written), Spot::InCell)
}

/// What comes after a byte with which a text begins.
pub(crate) fn after_byte(text: &[u8], byte: u8) -> Option<&[u8]>
    ensures { MatchOption result ((left : List ℕ) → text.now ≡ byte ∷ left → ⊥)
        (λ left. text.now ≡ byte ∷ left.now) }
{
    let (first, left) = text.split_first()?;
    if *first == byte { Some(left) } else { None }
}

/// What comes after a cell of that many bytes and its closing quote, where it may stand at a spot without quotes.
fn after_bare(spot: Spot, text: &[u8], shown: usize) -> Option<&[u8]>
    requires { shown ≤ length text.now }
    ensures { IfSome result (λ after. (text.now ≡ take shown text.now ++ 34 ∷ after.now)
        × Opens spot (take shown text.now)) }
{
    if !opens_bare(spot, shown) {
        return None;
    }
    let (_, rest) = text.split_at(shown);
    let after = after_byte(rest, b'"')?;
    if after_byte(after, b'"').is_some() {
        return None;
    }
    Some(after)
}

/// Writes a cell with its quotes, and what comes after it.
fn take_kept<'a>(written: &mut Vec<u8>, text: &'a [u8]) -> Result<&'a [u8], Unspelled>
    ensures goes { IfOk result (λ left.
        WritesOn (34 ∷ text.now) left.now written.old.items written.new.items) }
    ensures grows { IfOk result (λ left. Grows written.old.items written.new.items) }
{
    if !opens(written.as_slice()) {
        return Err(Unspelled::Other);
    }
    let Some(size) = quoted_length(text) else {
        return Err(Unspelled::Other);
    };
    let (kept, after) = text.split_at(size);
    put_byte(written, b'"')?;
    put(written, kept)?;
    end_cell(written, after)
}

/// Spells anew a cell whose opening quote came before the text, and returns what is left.
fn take_quoted<'a>(written: &mut Vec<u8>, text: &'a [u8]) -> Result<&'a [u8], Unspelled>
    ensures goes { IfOk result (λ left.
        WritesOn (34 ∷ text.now) left.now written.old.items written.new.items) }
    ensures grows { IfOk result (λ left. Grows written.old.items written.new.items) }
{
    let spot = spot_of(written.as_slice());
    let Some(shown) = bare_length(text) else {
        return Err(Unspelled::Other);
    };
    if let Some(after) = after_bare(spot, text, shown) {
        put(written, &text[..shown])?;
        return end_cell(written, after);
    }
    take_kept(written, text)
}

/// Writes what one step finds before the next quote or carriage return, where a text begins with neither.
fn take_run<'a>(written: &mut Vec<u8>, text: &'a [u8]) -> Result<&'a [u8], Unspelled>
    ensures goes { IfOk result (λ left.
        WritesOn text.now left.now written.old.items written.new.items) }
    ensures grows { IfOk result (λ left. Grows written.old.items written.new.items) }
    ensures lines { HasPlainLines text.now → IfOk result (λ left. HasPlainLines left.now) }
    ensures room { 0 < length text.now → is_mark (slice_index text.now 0) ≡ false
        → length written.old.items + 4097 ≤ 65536 → IsOkUnless result Unspelled.NoMemory }
{
    let Some((first, rest)) = text.split_first() else {
        return Err(Unspelled::Other);
    };
    if mark(*first) {
        return Err(Unspelled::Other);
    }
    let (run, left) = text.split_at(run_length(rest) + 1);
    put(written, run)?;
    Ok(left)
}

/// Writes a line feed for a carriage return and a line feed.
fn take_line<'a>(written: &mut Vec<u8>, left: &'a [u8]) -> Result<&'a [u8], Unspelled>
    ensures goes { IfOk result (λ l.
        WritesOn (13 ∷ 10 ∷ left.now) l.now written.old.items written.new.items) }
    ensures grows { IfOk result (λ l. Grows written.old.items written.new.items) }
    ensures same { IfOk result (λ l. l.now ≡ left.now) }
    ensures room { length written.old.items < 65536 → IsOkUnless result Unspelled.NoMemory }
{
    put_byte(written, b'\n')?;
    Ok(left)
}

/// Spells anew a beginning of a text that begins with no quote, and returns what is left.
fn take_unquoted<'a>(written: &mut Vec<u8>, text: &'a [u8]) -> Result<&'a [u8], Unspelled>
    ensures goes { IfOk result (λ left.
        WritesOn text.now left.now written.old.items written.new.items) }
    ensures grows { IfOk result (λ left. Grows written.old.items written.new.items) }
    ensures lines { HasPlainLines text.now → IfOk result (λ left. HasPlainLines left.now) }
    ensures room { HasPlainLines text.now → 0 < length text.now
        → length written.old.items + 4097 ≤ 65536 → IsOkUnless result Unspelled.NoMemory }
{
    match after_return(text) {
        Some(left) => take_line(written, left),
        None => take_run(written, text),
    }
}

/// Spells anew a cell in quotes, a carriage return and a line feed, or bytes before the next of these. Returns what is left.
fn take_one<'a>(written: &mut Vec<u8>, text: &'a [u8]) -> Result<&'a [u8], Unspelled>
    ensures goes { IfOk result (λ left.
        WritesOn text.now left.now written.old.items written.new.items) }
    ensures grows { IfOk result (λ left. Grows written.old.items written.new.items) }
    ensures lines { HasPlainLines text.now → IfOk result (λ left. HasPlainLines left.now) }
    ensures room { HasPlainLines text.now → 0 < length text.now
        → length written.old.items + 4097 ≤ 65536 → IsOkUnless result Unspelled.NoMemory }
{
    match after_byte(text, b'"') {
        Some(rest) => take_quoted(written, rest),
        None => take_unquoted(written, text),
    }
}

/// Spells anew short lines and short cells in quotes on a sheet, as many as come before another cell or line, and writes them together.
#[inline(never)]
fn take_short<'a>(
    written: &mut Vec<u8>,
    sheet: &mut Sheet,
    text: &'a [u8],
    many: usize,
) -> Result<&'a [u8], Unspelled>
    ensures goes { IfOk result (λ left.
        WritesOn text.now left.now written.old.items written.new.items) }
    ensures long { IfOk result (λ left. length written.old.items ≤ length written.new.items) }
    ensures few { length written.old.items ≤ 65536
        → IfOk result (λ left. length written.new.items ≤ 65536) }
    ensures lines { HasPlainLines text.now → IfOk result (λ left. HasPlainLines left.now) }
    ensures room { length written.old.items + 2048 ≤ 65536
        → IsOkUnless result Unspelled.NoMemory }
{
    let stop = many.saturating_sub(written.len());
    let limit = stop.min(SHEET_SIZE - LINE_SIZE);
    let mut left = text;
    let mut at = 0;
    while at < limit {
        let before = at;
        if let [b'"', ..] = left {
            (at, left) = put_cells(written.as_slice(), sheet, at, left, limit);
        } else {
            (at, left) = put_short_line(sheet, at, left, stop);
        }
        if at == before {
            break;
        }
    }
    if at > 0 {
        put(written, &sheet[..at])?;
    }
    Ok(left)
}

/// Spells anew short lines and cells at the front of a text, and what comes then, unless that many bytes are written. Returns what is left.
fn take_short_then_one<'a>(
    written: &mut Vec<u8>,
    sheet: &mut Sheet,
    text: &'a [u8],
    many: usize,
) -> Result<&'a [u8], Unspelled>
    ensures goes { IfOk result (λ left.
        WritesOn text.now left.now written.old.items written.new.items) }
    ensures more { length written.old.items < many → IfOk result (λ left.
        0 < length left.now → length written.old.items < length written.new.items) }
    ensures few { length written.old.items ≤ 65536
        → IfOk result (λ left. length written.new.items ≤ 65536) }
    ensures lines { HasPlainLines text.now → IfOk result (λ left. HasPlainLines left.now) }
    ensures room { HasPlainLines text.now → length written.old.items ≤ many → many ≤ 60000
        → IsOkUnless result Unspelled.NoMemory }
{
    let left = take_short(written, sheet, text, many)?;
    if left.is_empty() || written.len() >= many {
        return Ok(left);
    }
    take_one(written, left)
}

/// Spells a text anew until that many bytes are written or nothing is left of it, and returns what is left.
pub(crate) fn spell_on<'a>(
    written: &mut Vec<u8>,
    text: &'a [u8],
    many: usize,
) -> Result<&'a [u8], Unspelled>
    ensures goes { IfOk result (λ left.
        WritesOn text.now left.now written.old.items written.new.items) }
    ensures many { IfOk result (λ left. 0 < length left.now → many ≤ length written.new.items) }
    ensures few { length written.old.items ≤ 65536
        → IfOk result (λ left. length written.new.items ≤ 65536) }
    ensures room { HasPlainLines text.now → many ≤ 60000
        → IsOkUnless result Unspelled.NoMemory }
{
    let mut sheet = [0; SHEET_SIZE];
    let mut left = text;
    for _ in 0..many {
        if left.is_empty() || written.len() >= many {
            return Ok(left);
        }
        left = take_short_then_one(written, &mut sheet, left, many)?;
    }
    Ok(left)
}

/// What comes after a byte order mark at the start of a text.
fn after_mark(text: &[u8]) -> Option<&[u8]>
    ensures { MatchOption result (strip_bom text.now ≡ text.now)
        (λ rest. strip_bom text.now ≡ rest.now) }
{
    text.strip_prefix(b"\xEF\xBB\xBF")
}

/// A text without a byte order mark at its start.
pub fn without_mark(text: &[u8]) -> &[u8]
    ensures { result.now ≡ strip_bom text.now }
{
    match after_mark(text) {
        Some(rest) => rest,
        None => text,
    }
}
