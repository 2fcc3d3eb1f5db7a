//! Rows of cells as text, through the crate `csv`.
ghost use Rattle.std.specs.Prelude.{◌≡◌, ◌∷◌, [], ℕ, List, IfOk, OnErr, OnOk, map, true};
ghost use Rattle.csv.specs.Reading.{has_failed};
ghost use Rattle.csv.specs.Records.{fields_of};
ghost use Rattle.csv.specs.Writing.{writer_pending};
ghost use Rattle.fit_cells.specs.Rows.{Follows, HasAdded, HasRead, IsBetweenRows, Row, csv_text, written};
ghost use Rattle.fit_cells.specs.Steps.{IsInRow};

use csv::{ByteRecord, Reader, ReaderBuilder, Writer, WriterBuilder};
use std::alloc::{AllocError, Global};

/// A writer of rows after a text. It keeps the text's memory.
pub fn row_writer(text: Vec<u8>) -> Writer<Vec<u8>>
    ensures between { IsBetweenRows result }
    ensures text { written result ≡ text.items }
    ensures sent { writer_pending result ≡ [] }
{
    WriterBuilder::new().from_writer(text)
}

/// Puts a new writer in the place of one.
#[cold]
#[inline(never)]
pub(crate) fn begin_anew(writer: &mut Writer<Vec<u8>>, alloc: Global)
    ensures between { IsBetweenRows writer.new }
    ensures text { written writer.new ≡ [] }
    ensures row { IsInRow writer.new 0 }
{
    *writer = row_writer(Vec::new(alloc));
}

/// Writes a row. The rows of one writer have the same number of cells: any other row is an error, as out of memory is. `RowWriter::put`
/// takes rows of any length.
#[tactic(auto, using(crate::proofs::AddedRows::text_one))]
pub fn put_row(writer: &mut Writer<Vec<u8>>, cells: &[&[u8]]) -> Result<(), AllocError>
    requires { IsBetweenRows writer.old }
    ensures { OnOk result (HasAdded (map (λ f. f.now) cells.now ∷ []) writer.old writer.new) }
{
    match writer.write_fields(cells) {
        Ok(()) => Ok(()),
        Err(_) => Err(AllocError),
    }
}

/// The text after which rows were written, with those rows.
pub fn rows_text(writer: Writer<Vec<u8>>) -> Result<Vec<u8>, AllocError>
    requires { IsBetweenRows writer }
    ensures { IfOk result (λ text. text.items ≡ written writer) }
{
    match writer.into_inner() {
        Ok(text) => Ok(text),
        Err(_) => Err(AllocError),
    }
}

/// The text of a row.
pub fn row_text(alloc: Global, cells: &[&[u8]]) -> Result<Vec<u8>, AllocError>
    ensures { IfOk result (λ text. text.items ≡ csv_text (map (λ f. f.now) cells.now ∷ [])) }
{
    let mut writer = row_writer(Vec::new(alloc));
    put_row(&mut writer, cells)?;
    rows_text(writer)
}

/// A reader of the rows of a text, of any length each.
pub fn row_reader(alloc: Global, text: &[u8]) -> Reader<&[u8]>
    ensures { HasRead text.now [] result }
{
    ReaderBuilder::new()
        .has_headers(false)
        .flexible(true)
        .from_reader(alloc, text)
}

/// Reads the next row, and says whether there is one.
pub fn next_row(reader: &mut Reader<&[u8]>, row: &mut ByteRecord) -> Result<bool, AllocError>
    ensures read { IfOk result (λ found. (text : List ℕ) (rows : List Row)
        → HasRead text rows reader.old → Follows found (fields_of row.new) text rows reader.new) }
    // No row is refused: an error has stopped the reader for good.
    ensures stopped { OnErr result ((text : List ℕ) (rows : List Row)
        → HasRead text rows reader.old → has_failed reader.new ≡ true) }
{
    let Ok(found) = reader.read_byte_record(row) else {
        return Err(AllocError);
    };
    Ok(found)
}
