//! Reads rows as the crate csv reads them, one at a time, from anywhere between two rows of a text. A row may stand in two pieces.
ghost use Rattle.std.specs.Prelude.{◌≡◌, ◌∷◌, ◌++◌, [], ℕ, List, IfOk, MatchOption, OnOk, Some, if◌then◌else◌};
ghost use Rattle.csv.specs.Machine.{ends_at_end, in_field, start_field, start_record, step};
ghost use Rattle.csv.specs.Reading.{AreRecords, default_config};
ghost use Rattle.csv.specs.Records.{fields_of, partial_of};
ghost use Rattle.csv.specs.declared.parser.State.TheVariants as st;
ghost use Rattle.fit_cells.specs.Rows.{Row};
ghost use Rattle.fit_csv_text.specs.Reads.{HasRowBefore};
ghost use Rattle.fit_csv_text.specs.inner.RowReads.{HasRowsAfter, IsBegun, deed_action, place_state, read_on};

use crate::loose::after_byte;
use csv::ByteRecord;
use std::alloc::{AllocError, Global};

/// Where a text stands.
#[derive(Clone, Copy)]
pub(crate) enum Place {
    RowStart,
    CellStart,
    InCell,
    InQuotes,
    AfterQuote,
    AfterReturn,
}

/// What a byte does to the row.
#[derive(Clone, Copy)]
pub(crate) enum Deed {
    Skip,
    Copy,
    EndCell,
    EndRow,
}

/// What a byte does in a cell without quotes.
fn bare_step(b: u8) -> (Place, Deed)
    ensures place { place_state result.0 ≡ (in_field default_config b).0 }
    ensures deed { deed_action result.1 ≡ (in_field default_config b).1 }
{
    match b {
        b',' => (Place::CellStart, Deed::EndCell),
        b'\r' => (Place::AfterReturn, Deed::EndRow),
        b'\n' => (Place::RowStart, Deed::EndRow),
        _ => (Place::InCell, Deed::Copy),
    }
}

/// What the first byte of a cell does.
fn cell_step(b: u8) -> (Place, Deed)
    ensures place { place_state result.0 ≡ (start_field default_config b).0 }
    ensures deed { deed_action result.1 ≡ (start_field default_config b).1 }
{
    if b == b'"' {
        return (Place::InQuotes, Deed::Skip);
    }
    bare_step(b)
}

/// What a byte does between two rows.
fn row_step(b: u8) -> (Place, Deed)
    ensures place { place_state result.0 ≡ (start_record default_config b).0 }
    ensures deed { deed_action result.1 ≡ (start_record default_config b).1 }
{
    match b {
        b'\r' | b'\n' => (Place::RowStart, Deed::Skip),
        _ => cell_step(b),
    }
}

/// What a byte does within quotes.
fn quoted_step(b: u8) -> (Place, Deed)
    ensures place { place_state result.0 ≡ (step default_config st.InQuoted b).0 }
    ensures deed { deed_action result.1 ≡ (step default_config st.InQuoted b).1 }
{
    if b == b'"' {
        return (Place::AfterQuote, Deed::Skip);
    }
    (Place::InQuotes, Deed::Copy)
}

/// What a byte does after a quote within quotes.
fn unquoted_step(b: u8) -> (Place, Deed)
    ensures place { place_state result.0 ≡ (step default_config st.AfterQuote b).0 }
    ensures deed { deed_action result.1 ≡ (step default_config st.AfterQuote b).1 }
{
    if b == b'"' {
        return (Place::InQuotes, Deed::Copy);
    }
    bare_step(b)
}

/// What a byte does.
#[inline(always)]
fn take_step(place: Place, b: u8) -> (Place, Deed)
    ensures place { place_state result.0 ≡ (step default_config (place_state place) b).0 }
    ensures deed { deed_action result.1 ≡ (step default_config (place_state place) b).1 }
{
    match place {
        Place::RowStart => row_step(b),
        Place::CellStart => cell_step(b),
        Place::InCell => bare_step(b),
        Place::InQuotes => quoted_step(b),
        Place::AfterQuote => unquoted_step(b),
        Place::AfterReturn => row_step(b),
    }
}

/// Reads rows, one at a time.
#[derive(Drop)]
pub struct RowReader {
    pub(crate) place: Place,
    /// The row that was read, or while one is read its cells that are whole.
    pub row: ByteRecord,
    /// What has come of the next cell.
    pub(crate) cell: Vec<u8>,
}

impl RowReader {
    /// It has read no row.
    pub fn new(alloc: Global) -> RowReader
        ensures { fields_of result.row ≡ [] }
    {
        RowReader {
            place: Place::RowStart,
            row: ByteRecord::new(alloc),
            cell: Vec::new(alloc),
        }
    }

    /// Forgets the row that it has read.
    fn begin(&mut self)
        ensures { IsBegun self.new }
    {
        self.place = Place::RowStart;
        self.row.clear();
        self.cell.clear();
    }

    /// The cell is whole.
    fn end_cell(&mut self) -> Result<(), AllocError>
        requires { partial_of self.old.row ≡ [] }
        ensures row { OnOk result (fields_of self.new.row
            ≡ fields_of self.old.row ++ self.old.cell.items ∷ []) }
        ensures cell { self.new.cell.items ≡ [] }
        ensures partial { OnOk result (partial_of self.new.row ≡ []) }
        ensures place { self.new.place ≡ self.old.place }
    {
        let put = self.row.push_field(self.cell.as_slice());
        self.cell.clear();
        put
    }

    /// Takes a byte, and says whether it ends the row.
    #[inline(always)]
    fn take_byte(&mut self, b: u8) -> Result<bool, AllocError>
        requires { partial_of self.old.row ≡ [] }
        ensures reads { IfOk result (λ ended. (more : List ℕ) → read_on self.old (b ∷ more)
            ≡ (if ended then Some (fields_of self.new.row, place_state self.new.place, more)
            else read_on self.new more)) }
        ensures partial { OnOk result (partial_of self.new.row ≡ []) }
    {
        let (place, deed) = take_step(self.place, b);
        self.place = place;
        match deed {
            Deed::Skip => {}
            Deed::Copy => self.cell.push(b)?,
            Deed::EndCell => self.end_cell()?,
            Deed::EndRow => {
                self.end_cell()?;
                return Ok(true);
            }
        }
        Ok(false)
    }

    /// Takes the bytes of a text up to the end of the row, and returns what is left, where the row ends there.
    fn take<'a>(&mut self, text: &'a [u8]) -> Result<Option<&'a [u8]>, AllocError>
        requires { partial_of self.old.row ≡ [] }
        ensures reads { IfOk result (λ found. MatchOption found
            ((more : List ℕ) → read_on self.old (text.now ++ more) ≡ read_on self.new more)
            (λ left. (more : List ℕ) → read_on self.old (text.now ++ more)
            ≡ Some (fields_of self.new.row, place_state self.new.place, left.now ++ more))) }
        ensures partial { OnOk result (partial_of self.new.row ≡ []) }
    {
        for (i, b) in text.iter().enumerate() {
            if self.take_byte(*b)? {
                return Ok(Some(&text[i + 1..]));
            }
        }
        Ok(None)
    }

    /// Whether a row ends where the text ends.
    fn ends_here(&self) -> bool
        ensures { result ≡ ends_at_end (place_state self.now.place) }
    {
        match self.place {
            Place::RowStart | Place::AfterReturn => false,
            _ => true,
        }
    }

    /// Takes the last bytes of the row, after which there are no others but those that are returned, unless there is no row.
    fn take_last<'a>(&mut self, text: &'a [u8]) -> Result<Option<&'a [u8]>, AllocError>
        requires { partial_of self.old.row ≡ [] }
        ensures { IfOk result (λ found. MatchOption found
            (HasRowsAfter self.old text.now [])
            (λ left. (more : List Row) → AreRecords default_config st.StartRecord left.now more
            → HasRowsAfter self.old text.now (fields_of self.new.row ∷ more))) }
    {
        if let Some(left) = self.take(text)? {
            return Ok(Some(after_line(left)));
        }
        if !self.ends_here() {
            return Ok(None);
        }
        self.end_cell()?;
        Ok(Some(&[]))
    }

    /// Reads the first row of a text, and returns what is left, unless there is no row. It fails out of memory.
    pub fn read_one<'a>(&mut self, text: &'a [u8]) -> Result<Option<&'a [u8]>, AllocError>
        ensures { IfOk result (λ found. MatchOption found
            (AreRecords default_config st.StartRecord text.now [])
            (λ left. HasRowBefore text.now (fields_of self.new.row) left.now)) }
    {
        self.begin();
        self.take_last(text)
    }

    /// Takes the last bytes of a row as `take_last` does. Nothing is left of the text before.
    fn read_last<'a, 'b>(
        &mut self,
        back: &'b [u8],
    ) -> Result<Option<(&'a [u8], &'b [u8])>, AllocError>
        requires { partial_of self.old.row ≡ [] }
        ensures { IfOk result (λ found. MatchOption found
            (HasRowsAfter self.old back.now [])
            (λ p. (more : List Row)
            → AreRecords default_config st.StartRecord (p.0.now ++ p.1.now) more
            → HasRowsAfter self.old back.now (fields_of self.new.row ∷ more))) }
    {
        match self.take_last(back)? {
            Some(left) => Ok(Some((&[], left))),
            None => Ok(None),
        }
    }

    /// Reads the first row of two texts that stand one after the other, and returns what is left of both, unless there is no row. It
    /// fails out of memory.
    pub fn read<'a, 'b>(
        &mut self,
        front: &'a [u8],
        back: &'b [u8],
    ) -> Result<Option<(&'a [u8], &'b [u8])>, AllocError>
        ensures { IfOk result (λ found. MatchOption found
            (AreRecords default_config st.StartRecord (front.now ++ back.now) [])
            (λ p. HasRowBefore (front.now ++ back.now) (fields_of self.new.row)
            (p.0.now ++ p.1.now))) }
    {
        self.begin();
        match self.take(front)? {
            Some(left) => Ok(Some((left, back))),
            None => self.read_last(back),
        }
    }
}

/// A text without the line feed at its start, which ends no row.
fn after_line(text: &[u8]) -> &[u8]
    ensures { (rows : List Row) → AreRecords default_config st.StartRecord result.now rows
        → AreRecords default_config st.StartRecord text.now rows }
{
    match after_byte(text, b'\n') {
        Some(left) => left,
        None => text,
    }
}
