//! Rows put after texts, through the crate `csv`.
ghost use Rattle.std.specs.Prelude.{◌≡◌, ◌≤◌, ◌⊎◌, ◌++◌, ◌∷◌, [], IfOk, OnErr, OnOk, drop, false, length, map};
ghost use Rattle.csv.specs.Writing.{default_writer, field_text};
ghost use Rattle.fit_cells.specs.Rows.{HasRows, IsBetweenRows, written};

use crate::lone::{CellWriter, LONG};
use crate::rows::{begin_anew, put_row, row_writer};
use crate::shown::needs_quotes;
use csv::Writer;
use std::alloc::{AllocError, Global};
use std::marker::Model;

/// Brings all that was written to the text underneath, and returns how long that is.
fn flushed_len(writer: &mut Writer<Vec<u8>>) -> Result<usize, AllocError>
    requires { IsBetweenRows writer.old }
    ensures between { OnOk result (IsBetweenRows writer.new) }
    ensures same { OnOk result (written writer.new ≡ written writer.old) }
    ensures len { IfOk result (λ len. len ≡ length (written writer.new)) }
{
    match writer.flush() {
        Ok(()) => Ok(writer.get_ref().len()),
        Err(_) => Err(AllocError),
    }
}

/// Puts after a text what was written from that many bytes on.
fn copy_after(
    writer: &mut Writer<Vec<u8>>,
    start: usize,
    text: &mut Vec<u8>,
) -> Result<(), AllocError>
    requires between { IsBetweenRows writer.old }
    requires start { start ≤ length (written writer.old) }
    ensures between { OnOk result (IsBetweenRows writer.new) }
    ensures same { OnOk result (written writer.new ≡ written writer.old) }
    ensures text { OnOk result (text.new.items
        ≡ text.old.items ++ drop start (written writer.old)) }
    ensures err { OnErr result (text.new.items ≡ text.old.items) }
{
    if writer.flush().is_err() {
        return Err(AllocError);
    }
    let rows = writer.get_ref().as_slice();
    text.extend_from_slice(&rows[start..])
}

/// Makes a writer fit for the next rows, after it wrote some with this result. It is used again, as a new one would move its
/// buffer of 8 KiB several times; it is made anew where it failed, and where its text has become long.
fn renew(alloc: Global, writer: &mut Writer<Vec<u8>>, failed: bool)
    requires { (failed ≡ false) → IsBetweenRows writer.old }
    ensures between { IsBetweenRows writer.new }
    ensures left { (writer.new ≡ writer.old) ⊎ (written writer.new ≡ []) }
{
    if failed || writer.get_ref().len() > LONG {
        begin_anew(writer, alloc);
    }
}

/// Writes a row, and puts its text after another one.
#[tactic(auto, using(crate::proofs::AddedRows::rows_copied))]
fn put_after(
    writer: &mut Writer<Vec<u8>>,
    text: &mut Vec<u8>,
    cells: &[&[u8]],
) -> Result<(), AllocError>
    requires { IsBetweenRows writer.old }
    ensures between { OnOk result (IsBetweenRows writer.new) }
    ensures rows { OnOk result (HasRows (map (λ f. f.now) cells.now ∷ []) text.old text.new) }
    ensures err { OnErr result (text.new.items ≡ text.old.items) }
{
    let start = flushed_len(writer)?;
    put_row(writer, cells)?;
    copy_after(writer, start, text)
}

/// Writes a row, and puts its text after another one. The writer is fit for the next rows then.
fn put_row_after(
    alloc: Global,
    writer: &mut Writer<Vec<u8>>,
    text: &mut Vec<u8>,
    cells: &[&[u8]],
) -> Result<(), AllocError>
    requires { IsBetweenRows writer.old }
    ensures between { IsBetweenRows writer.new }
    ensures ok { OnOk result (HasRows (map (λ f. f.now) cells.now ∷ []) text.old text.new) }
    ensures err { OnErr result (text.new.items ≡ text.old.items) }
{
    let first = put_after(writer, text, cells);
    renew(alloc, writer, first.is_err());
    if first.is_ok() {
        return first;
    }
    // where the row before had another number of cells, a new writer takes this one
    let second = put_after(writer, text, cells);
    renew(alloc, writer, second.is_err());
    second
}

/// A writer of rows. It is made in a function of its own, since a function clears its variables at each call, however seldom it uses
/// them.
#[cold]
#[inline(never)]
fn new_rows(alloc: Global) -> Result<Box<Writer<Vec<u8>>>, AllocError>
    ensures { IfOk result (λ b. IsBetweenRows b.value) }
{
    let writer = Box::new(alloc, row_writer(Vec::new(alloc)))?;
    Ok(writer)
}

/// A writer of lone cells, in the same way.
#[cold]
#[inline(never)]
fn new_cells(alloc: Global) -> Result<Box<CellWriter>, AllocError> {
    let writer = Box::new(alloc, CellWriter::new(alloc))?;
    Ok(writer)
}

/// Puts rows and lone cells after texts. The rows may have different numbers of cells. What needs quotes goes through the crate `csv`,
/// for which writers are made when they are first needed.
#[derive(Drop)]
pub struct RowWriter {
    rows: Option<Box<Writer<Vec<u8>>>>,
    cells: Option<Box<CellWriter>>,
    alloc: Global,
}

impl Model for RowWriter {
    ghost use Rattle.std.specs.Prelude.{IfSome};
    ghost use Rattle.fit_cells.specs.Rows.{IsBetweenRows};

    ghost Value = { Unit {0} };

    ghost view = { λ w. tt };

    ghost invariant = { λ w. IfSome w.rows (λ b. IsBetweenRows b.value) };
}

impl RowWriter {
    /// It has written nothing.
    pub fn new(alloc: Global) -> Self {
        RowWriter {
            rows: None,
            cells: None,
            alloc,
        }
    }

    /// Puts a row after a text: each cell in quotes where it needs them. Out of memory, the text stays as it is.
    pub fn put(&mut self, text: &mut Vec<u8>, cells: &[&[u8]]) -> Result<(), AllocError>
        ensures ok { OnOk result (HasRows (map (λ f. f.now) cells.now ∷ []) text.old text.new) }
        ensures err { OnErr result (text.new.items ≡ text.old.items) }
    {
        let mut writer = match self.rows.take() {
            Some(writer) => writer,
            None => new_rows(self.alloc)?,
        };
        let put = put_row_after(self.alloc, &mut writer, text, cells);
        self.rows = Some(writer);
        put
    }

    /// Puts a cell after a text through the crate `csv`. Out of memory, the text stays as it is.
    #[cold]
    #[inline(never)]
    fn put_any(&mut self, text: &mut Vec<u8>, cell: &[u8]) -> Result<(), AllocError>
        ensures ok { OnOk result (text.new.items
            ≡ text.old.items ++ field_text default_writer cell.now) }
        ensures err { OnErr result (text.new.items ≡ text.old.items) }
    {
        let mut writer = match self.cells.take() {
            Some(writer) => writer,
            None => new_cells(self.alloc)?,
        };
        let put = writer.put(text, cell);
        self.cells = Some(writer);
        put
    }

    /// Puts a cell after a text, in quotes where it needs them. Out of memory, the text stays as it is.
    #[tactic(auto, using(crate::proofs::PlainFacts::plain_lone))]
    pub fn put_lone(&mut self, text: &mut Vec<u8>, cell: &[u8]) -> Result<(), AllocError>
        ensures ok { OnOk result (text.new.items
            ≡ text.old.items ++ field_text default_writer cell.now) }
        ensures err { OnErr result (text.new.items ≡ text.old.items) }
    {
        if needs_quotes(cell) {
            return self.put_any(text, cell);
        }
        text.extend_from_slice(cell)
    }
}
