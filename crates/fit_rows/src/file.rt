//! The rows in which a file begins and ends.
ghost use Rattle.std.specs.Prelude.{◌≡◌, ◌++◌, ◌∷◌, [], OnOk};
ghost use Rattle.csv.specs.Writing.{default_writer, fields_text};
ghost use Rattle.fit_cells.specs.Rows.{HasRows};
ghost use Rattle.fit_rows.specs.ChainRows as rows;

use crate::definition::{add_number, add_word};
use fit_cells::RowWriter;
use fit_frame::Header;
use fit_texts::words::{put_rest, sum_word};
use std::alloc::AllocError;

/// Puts the next cell of a row.
fn add_cell(text: &mut Vec<u8>, writer: &mut RowWriter, cell: &[u8]) -> Result<(), AllocError>
    ensures { OnOk result (text.new.items
        ≡ text.old.items ++ fields_text default_writer (cell.now ∷ [])) }
{
    text.push(b',')?;
    writer.put_lone(text, cell)
}

/// Puts the row of a header, by the memory of a cell.
pub(crate) fn put_file_row(
    text: &mut Vec<u8>,
    writer: &mut RowWriter,
    value: &mut Vec<u8>,
    header: &Header,
) -> Result<(), AllocError>
    ensures { OnOk result (HasRows (rows.file_row header.now ∷ []) text.old text.new) }
{
    put_rest(value, header.rest.as_slice())?;
    text.extend_from_slice(b"file")?;
    add_number(text, u64::from(header.size))?;
    add_number(text, u64::from(header.protocol))?;
    add_number(text, u64::from(header.profile))?;
    add_word(text, sum_word(header.sum))?;
    add_cell(text, writer, value.as_slice())?;
    text.extend_from_slice(b",\n")?;
    Ok(())
}

/// Puts the row that ends a file.
#[tactic(auto, using(crate::proofs::KnownRows::end_put))]
pub(crate) fn put_end_row(text: &mut Vec<u8>) -> Result<(), AllocError>
    ensures { OnOk result (HasRows (rows.end_row ∷ []) text.old text.new) }
{
    text.extend_from_slice(b"end,,,,,,\n")?;
    Ok(())
}
