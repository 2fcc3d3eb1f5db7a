//! Judges the rows of a text.
ghost use Rattle.std.specs.Prelude.{◌≡◌, ◌↔◌, ◌<◌, ◌≤◌, ◌+◌, ◌++◌, ◌^◌, [], List, ℕ, None, IfErr, IfOk, IfSome, IsNone, IsTrue, MatchOption, OnOk, length};
ghost use Rattle.csv.specs.Reading.{strip_bom};
ghost use Rattle.csv.specs.Records.{fields_of};
ghost use Rattle.fit_csv.specs.declared.from.chain.Chain.{Chain};
ghost use Rattle.fit_csv.specs.Judged.{AreFilesOf};
ghost use Rattle.fit_csv.specs.inner.Judging.{FailsIn, HasJudged, Judges};
ghost use Rattle.fit_csv.specs.inner.TextFaults.{IsTextFault, IsUnjudged};
ghost use Rattle.fit_csv.specs.inner.Progress.{ChainStep, nothing_yet};
ghost use Rattle.fit_cells.specs.Rows.{first_line};
ghost use Rattle.fit_csv.specs.inner.Seven.{row_of};
ghost use Rattle.fit_csv.specs.inner.SoundChain.{IsSoundChain};

use crate::CsvFault;
use crate::from::cells::{Cells, ValueReader, cells_of, same};
use crate::from::chain::Chain;
use crate::from::guess::take_record;
use crate::from::misfit::Misfit;
use csv::ByteRecord;
use fit_csv_text::{RowReader, Window, without_mark};
use fit_encode::SpelledFiles;
use fit_numbers::laws::text_has_one_number;
use fit_rows::MessageReader;
use std::alloc::Global;
use std::mem;

/// Whether cells are those of the first line.
fn are_first_line(cells: &Cells) -> bool
    ensures { IsTrue result ↔ (row_of cells.now ≡ first_line) }
{
    same(cells.kind, b"row")
        && same(cells.a, b"a")
        && same(cells.b, b"b")
        && same(cells.c, b"c")
        && same(cells.d, b"d")
        && same(cells.e, b"e")
        && same(cells.f, b"f")
}

/// Whether a row is the first line.
fn is_first_line(row: &ByteRecord) -> bool
    ensures { IsTrue result ↔ (fields_of row.now ≡ first_line) }
{
    match cells_of(row) {
        Some(cells) => are_first_line(&cells),
        None => false,
    }
}

/// Judges the row of this number.
fn judge_row(
    values: &mut ValueReader,
    chain: &mut Chain,
    row: &ByteRecord,
    number: u64,
) -> Result<(), CsvFault>
    requires { IsSoundChain chain.old }
    ensures ok { OnOk result (ChainStep chain.old (fields_of row.now) chain.new) }
    ensures err { IfErr result (IsUnjudged (λ r. (t : Chain) × ChainStep chain.old r t)
        (fields_of row.now) number) }
{
    let Some(cells) = cells_of(row) else {
        return Err(CsvFault::BadRow { row: number });
    };
    match chain.take_row(values, &cells) {
        Ok(()) => Ok(()),
        Err(Misfit::Kind) => Err(CsvFault::BadRow { row: number }),
        Err(Misfit::Cell(column)) => Err(CsvFault::BadCell {
            row: number,
            column,
        }),
        Err(Misfit::NoMemory) => Err(CsvFault::NoMemory),
    }
}

/// Whether the text may end after the rows of a chain, that many with the first line.
fn check_end(chain: &Chain, rows: u64) -> Result<(), CsvFault>
    requires { rows < 2 ^ 63 }
    ensures ok { OnOk result ((chain.now.current ≡ None) × (0 < length chain.now.files)) }
    ensures err { IfErr result (λ fault. (fault ≡ CsvFault.BadRow (rows + 1))
        × (chain.now.current ≡ None → 0 < length chain.now.files → ⊥)) }
{
    if !chain.current.is_none() {
        return Err(CsvFault::BadRow { row: rows + 1 });
    }
    if chain.files.is_empty() {
        return Err(CsvFault::BadRow { row: rows + 1 });
    }
    Ok(())
}

/// The rows of a text that were judged, and what judges the next ones.
#[derive(Drop)]
pub(crate) struct RowJudge {
    pub chain: Chain,
    /// How many rows have come, the first line too.
    pub rows: u64,
    /// How many rows of records are read alone before some are spelled anew again.
    alone: u8,
    guesser: MessageReader,
    reader: RowReader,
    values: ValueReader,
}

/// How many rows of records are read alone after one in a spelling that isn't known: most are near it, and would be spelled anew in vain.
const ALONE: u8 = 16;

/// Whether a text may begin with a row of a record.
fn begins_with_record(text: &[u8]) -> bool {
    match text {
        [b'd', ..] | [b'"', b'd', ..] => true,
        _ => false,
    }
}

impl RowJudge {
    /// The first line has come.
    fn new(alloc: Global) -> RowJudge
        ensures chain { result.chain ≡ nothing_yet }
        ensures rows { result.rows ≡ 1 }
    {
        RowJudge {
            chain: Chain::new(alloc),
            rows: 1,
            alone: 0,
            guesser: MessageReader::new(alloc),
            reader: RowReader::new(alloc),
            values: ValueReader::new(alloc),
        }
    }

    /// Takes the record with whose rows a text begins, as `to_csv` writes them, and returns what is left. There may be one where it takes
    /// none, and then nothing changes.
    fn take_record<'a>(&mut self, text: &'a [u8]) -> Result<Option<&'a [u8]>, CsvFault>
        requires sound { IsSoundChain self.old.chain }
        requires few { self.old.rows ≤ 2 ^ 63 }
        ensures judged { IfOk result (λ found. IfSome found (λ left. (after : List ℕ)
            → Judges (text.now ++ after) (left.now ++ after) self.old self.new)) }
        ensures more { IfOk result (λ found. IfSome found (λ left. self.old.rows < self.new.rows)) }
        ensures chain { IfOk result (λ found. IsNone found → self.new.chain ≡ self.old.chain) }
        ensures rows { IfOk result (λ found. IsNone found → self.new.rows ≡ self.old.rows) }
        ensures memory { IfErr result (λ fault. fault ≡ CsvFault.NoMemory) }
    {
        let Ok(found) = take_record(&mut self.chain, &mut self.guesser, text) else {
            return Err(CsvFault::NoMemory);
        };
        let Some((count, left)) = found else {
            return Ok(None);
        };
        self.rows += count;
        Ok(Some(left))
    }

    /// Judges the row that was read.
    fn judge_row(&mut self) -> Result<(), CsvFault>
        requires sound { IsSoundChain self.old.chain }
        requires few { self.old.rows ≤ 2 ^ 63 }
        ensures ok { OnOk result
            (ChainStep self.old.chain (fields_of self.old.reader.row) self.new.chain) }
        ensures counted { OnOk result (self.new.rows ≡ self.old.rows + 1) }
        ensures err { IfErr result (IsUnjudged (λ r. (t : Chain) × ChainStep self.old.chain r t)
            (fields_of self.old.reader.row) (self.old.rows + 1)) }
    {
        let number = self.rows + 1;
        judge_row(&mut self.values, &mut self.chain, &self.reader.row, number)?;
        self.rows = number;
        Ok(())
    }

    /// Judges the first row of two texts that stand one after the other, and returns what is left of both, unless no row is left.
    fn take_row<'a, 'b>(
        &mut self,
        front: &'a [u8],
        back: &'b [u8],
    ) -> Result<Option<(&'a [u8], &'b [u8])>, CsvFault>
        requires sound { IsSoundChain self.old.chain }
        requires few { self.old.rows ≤ 2 ^ 63 }
        ensures judged { IfOk result (λ found. MatchOption found
            (Judges (front.now ++ back.now) [] self.old self.new)
            (λ p. Judges (front.now ++ back.now) (p.0.now ++ p.1.now) self.old self.new)) }
        ensures more { IfOk result (λ found. IfSome found (λ p. self.old.rows < self.new.rows)) }
        ensures err { IfErr result (FailsIn (front.now ++ back.now) self.old) }
    {
        text_has_one_number();
        let Ok(found) = self.reader.read(front, back) else {
            return Err(CsvFault::NoMemory);
        };
        let Some(left) = found else {
            return Ok(None);
        };
        self.judge_row()?;
        Ok(Some(left))
    }

    /// Judges the record with whose rows the first of two texts begins, where they stand as `to_csv` writes them, or else the first row of
    /// both. Returns what is left of both, unless no row is left.
    fn take_next<'a, 'b>(
        &mut self,
        front: &'a [u8],
        back: &'b [u8],
    ) -> Result<Option<(&'a [u8], &'b [u8])>, CsvFault>
        requires sound { IsSoundChain self.old.chain }
        requires few { self.old.rows ≤ 2 ^ 63 }
        ensures judged { IfOk result (λ found. MatchOption found
            (Judges (front.now ++ back.now) [] self.old self.new)
            (λ p. Judges (front.now ++ back.now) (p.0.now ++ p.1.now) self.old self.new)) }
        ensures more { IfOk result (λ found. IfSome found (λ p. self.old.rows < self.new.rows)) }
        ensures err { IfErr result (FailsIn (front.now ++ back.now) self.old) }
    {
        match self.take_record(front)? {
            Some(left) => Ok(Some((left, back))),
            None => self.take_row(front, back),
        }
    }

    /// Judges the rows of a window, the last of which may end in the text after it, and returns what is left of that, unless no row is
    /// left. They are rows of a whole text.
    fn take_window<'a>(
        &mut self,
        whole: &[u8],
        window: &[u8],
        after: &'a [u8],
    ) -> Result<Option<&'a [u8]>, CsvFault>
        requires { HasJudged whole.now (window.now ++ after.now) self.old.chain self.old.rows }
        ensures judged { IfOk result (λ found. MatchOption found
            (HasJudged whole.now [] self.new.chain self.new.rows)
            (λ left. HasJudged whole.now left.now self.new.chain self.new.rows)) }
        ensures more { IfOk result (λ found. IfSome found (λ p. self.old.rows < self.new.rows)) }
        ensures err { IfErr result (IsTextFault whole.now) }
    {
        let mut front = window;
        let mut back = after;
        for _ in 0..whole.len() + 1 {
            let Some((rest, left)) = self.take_next(front, back)? else {
                return Ok(None);
            };
            if rest.is_empty() {
                return Ok(Some(left));
            }
            front = rest;
            back = left;
        }
        unreachable!()
    }

    /// Judges the first row of what is left of a whole text.
    fn take_first<'a>(&mut self, whole: &[u8], left: &'a [u8]) -> Result<Option<&'a [u8]>, CsvFault>
        requires { HasJudged whole.now left.now self.old.chain self.old.rows }
        ensures judged { IfOk result (λ found. MatchOption found
            (HasJudged whole.now [] self.new.chain self.new.rows)
            (λ rest. HasJudged whole.now rest.now self.new.chain self.new.rows)) }
        ensures more { IfOk result (λ found. IfSome found (λ rest. self.old.rows < self.new.rows)) }
        ensures err { IfErr result (IsTextFault whole.now) }
    {
        text_has_one_number();
        let Ok(found) = self.reader.read_one(left) else {
            return Err(CsvFault::NoMemory);
        };
        let Some(rest) = found else {
            return Ok(None);
        };
        self.judge_row()?;
        Ok(Some(rest))
    }

    /// Judges the first row of what is left of a whole text, or many rows that are spelled anew. Returns what is left then, unless no row is
    /// left.
    fn take_other<'a>(
        &mut self,
        window: &mut Window,
        whole: &[u8],
        left: &'a [u8],
    ) -> Result<Option<&'a [u8]>, CsvFault>
        requires { HasJudged whole.now left.now self.old.chain self.old.rows }
        ensures judged { IfOk result (λ found. MatchOption found
            (HasJudged whole.now [] self.new.chain self.new.rows)
            (λ rest. HasJudged whole.now rest.now self.new.chain self.new.rows)) }
        ensures more { IfOk result (λ found. IfSome found (λ rest. self.old.rows < self.new.rows)) }
        ensures err { IfErr result (IsTextFault whole.now) }
    {
        if self.alone > 0 {
            self.alone -= 1;
            return self.take_first(whole, left);
        }
        let Ok(found) = window.fill(left) else {
            return Err(CsvFault::NoMemory);
        };
        if let Some(after) = found {
            return self.take_window(whole, window.bytes.as_slice(), after);
        }
        if begins_with_record(left) {
            self.alone = ALONE;
        }
        self.take_first(whole, left)
    }

    /// Judges the record with whose rows begins what is left of a whole text, or else its first row, or many that are spelled anew. Returns
    /// what is left then, unless no row is left.
    fn take_record_or_rows<'a>(
        &mut self,
        window: &mut Window,
        whole: &[u8],
        left: &'a [u8],
    ) -> Result<Option<&'a [u8]>, CsvFault>
        requires { HasJudged whole.now left.now self.old.chain self.old.rows }
        ensures judged { IfOk result (λ found. MatchOption found
            (HasJudged whole.now [] self.new.chain self.new.rows)
            (λ rest. HasJudged whole.now rest.now self.new.chain self.new.rows)) }
        ensures more { IfOk result (λ found. IfSome found (λ rest. self.old.rows < self.new.rows)) }
        ensures err { IfErr result (IsTextFault whole.now) }
    {
        match self.take_record(left)? {
            Some(rest) => Ok(Some(rest)),
            None => self.take_other(window, whole, left),
        }
    }

    /// What is left of a text after the first line, where it begins with that.
    fn take_first_line<'a>(&mut self, text: &'a [u8]) -> Result<&'a [u8], CsvFault>
        ensures ok { IfOk result (λ left. (whole : List ℕ) → strip_bom whole ≡ text.now
            → HasJudged whole left.now nothing_yet 1) }
        ensures chain { self.new.chain ≡ self.old.chain }
        ensures rows { self.new.rows ≡ self.old.rows }
        ensures err { IfErr result (λ fault. (whole : List ℕ) → strip_bom whole ≡ text.now
            → IsTextFault whole fault) }
    {
        let Ok(found) = self.reader.read_one(text) else {
            return Err(CsvFault::NoMemory);
        };
        let Some(left) = found else {
            return Err(CsvFault::Header);
        };
        if !is_first_line(&self.reader.row) {
            return Err(CsvFault::Header);
        }
        Ok(left)
    }

    /// Judges the rows that are left of a text, which may end after them.
    fn take_rest(&mut self, window: &mut Window, whole: &[u8], left: &[u8]) -> Result<(), CsvFault>
        requires { HasJudged whole.now left.now self.old.chain self.old.rows }
        ensures ok { OnOk result (AreFilesOf whole.now self.new.chain.files) }
        ensures err { IfErr result (IsTextFault whole.now) }
    {
        text_has_one_number();
        let mut left = left;
        for _ in 0..whole.len() + 1 {
            let Some(rest) = self.take_record_or_rows(window, whole, left)? else {
                return check_end(&self.chain, self.rows);
            };
            left = rest;
        }
        unreachable!()
    }

    /// Judges all rows of a text, which may end after them.
    fn take_all(&mut self, text: &[u8]) -> Result<(), CsvFault>
        requires chain { self.old.chain ≡ nothing_yet }
        requires rows { self.old.rows ≡ 1 }
        ensures ok { OnOk result (AreFilesOf text.now self.new.chain.files) }
        ensures err { IfErr result (IsTextFault text.now) }
    {
        let left = self.take_first_line(without_mark(text))?;
        let mut window = Window::new(self.values.alloc);
        self.take_rest(&mut window, text, left)
    }
}

/// Judges all rows of a text, which may end after them, and hands out their files.
fn judge_rows(alloc: Global, text: &[u8], files: &mut SpelledFiles) -> Result<(), CsvFault>
    ensures ok { OnOk result (AreFilesOf text.now files.new) }
    ensures err { IfErr result (IsTextFault text.now) }
{
    let mut judge = RowJudge::new(alloc);
    let end = judge.take_all(text);
    mem::swap(files, &mut judge.chain.files);
    end
}

/// The files whose rows are those of a text, or the first fault of its rows.
pub(crate) fn judge(alloc: Global, text: &[u8]) -> Result<SpelledFiles, CsvFault>
    ensures ok { IfOk result (AreFilesOf text.now) }
    ensures err { IfErr result (IsTextFault text.now) }
{
    let mut files = SpelledFiles::new(alloc);
    judge_rows(alloc, text, &mut files)?;
    Ok(files)
}
