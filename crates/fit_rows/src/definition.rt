//! The rows of definition messages.
ghost use Rattle.std.specs.Prelude.{◌≡◌, ◌≤◌, ◌+◌, ◌++◌, ◌∷◌, [], OnOk, decimal, length, map, take};
ghost use Rattle.csv.specs.Writing.{default_writer, field_text, fields_text};
ghost use Rattle.fit_cells.specs.Rows.{HasRows, csv_text};
ghost use Rattle.fit_rows.specs.ChainRows as rows;

pub(crate) mod again;

use fit_base::Entries;
use fit_profile::{put_whole, write_fixed};
use fit_record::{DevDef, FieldDef, MessageDef};
use fit_texts::words::{dev_slice, order_word};
use fit_texts::write_text;
use std::alloc::AllocError;

/// Puts the next cell of a row, a word that needs no quotes.
pub(crate) fn add_word(text: &mut Vec<u8>, word: &str) -> Result<(), AllocError>
    requires { field_text default_writer word.now ≡ word.now }
    ensures { OnOk result (text.new.items
        ≡ text.old.items ++ fields_text default_writer (word.now ∷ [])) }
{
    text.push(b',')?;
    text.extend_from_slice(word.as_bytes())?;
    Ok(())
}

/// Puts the next cell of a row, a number.
#[inline(always)]
pub(crate) fn add_number(text: &mut Vec<u8>, number: u64) -> Result<(), AllocError>
    ensures { OnOk result (text.new.items
        ≡ text.old.items ++ fields_text default_writer (decimal number ∷ [])) }
{
    text.push(b',')?;
    put_whole(text, number)
}

/// Puts the next cell of a row, a number of one byte.
#[inline(always)]
fn add_byte(text: &mut Vec<u8>, number: u8) -> Result<(), AllocError>
    ensures { OnOk result (text.new.items
        ≡ text.old.items ++ fields_text default_writer (decimal number ∷ [])) }
{
    add_number(text, u64::from(number))
}

/// Puts the next cell of a row, the number of developer fields that a definition has.
fn add_dev_count(text: &mut Vec<u8>, dev: &Option<Entries<DevDef>>) -> Result<(), AllocError>
    ensures { OnOk result (text.new.items
        ≡ text.old.items ++ fields_text default_writer (rows.dev_count dev.now ∷ [])) }
{
    match dev {
        Some(fields) => add_number(text, fields.len() as u64),
        None => {
            text.push(b',')?;
            Ok(())
        }
    }
}

/// Puts the row of a definition.
fn put_def_row(text: &mut Vec<u8>, definition: &MessageDef) -> Result<(), AllocError>
    ensures { OnOk result (HasRows (rows.def_row definition.now ∷ []) text.old text.new) }
{
    text.extend_from_slice(b"def")?;
    add_byte(text, definition.local)?;
    add_byte(text, definition.reserved)?;
    add_word(text, order_word(definition.order))?;
    add_number(text, u64::from(definition.global))?;
    add_number(text, definition.fields.len() as u64)?;
    add_dev_count(text, &definition.dev)?;
    text.push(b'\n')?;
    Ok(())
}

/// How many bytes are set aside for the row of a field: more than it has, since a number is written with bytes that are written over.
const ROW_ROOM: usize = 128;

/// How many bytes of a row are copied at once. The row of a field has fewer.
const SHORT_ROW: usize = 32;

/// Writes a number of one byte.
#[inline(always)]
#[tactic(auto, using(fit_texts::proofs::Sheets::whole_number))]
fn write_byte(row: &mut [u8], at: usize, number: u8) -> usize
    requires { at + 30 ≤ length row.old }
    ensures size { length row.new ≡ length row.old }
    ensures within { result ≤ at + 30 }
    ensures text { take result row.new ≡ take at row.old ++ decimal number }
{
    write_fixed(row, at, i64::from(number), 0)
}

/// Writes the next cell of a row, a number of one byte.
#[inline(always)]
fn write_cell(row: &mut [u8], at: usize, number: u8) -> usize
    requires { at + 31 ≤ length row.old }
    ensures size { length row.new ≡ length row.old }
    ensures within { result ≤ at + 31 }
    ensures text { take result row.new
        ≡ take at row.old ++ fields_text default_writer (decimal number ∷ []) }
{
    let at = write_text(row, at, b",");
    write_byte(row, at, number)
}

/// Writes the row of three numbers after a word that needs no quotes. Returns the place after it.
#[inline(always)]
fn write_row(row: &mut [u8; ROW_ROOM], kind: &[u8], number: u8, size: u8, last: u8) -> usize
    requires plain { field_text default_writer kind.now ≡ kind.now }
    requires short { length kind.now ≤ 4 }
    ensures within { result ≤ 128 }
    ensures text { take result row.new ≡ csv_text (rows.row kind.now (decimal number) (decimal size)
        (decimal last) [] [] [] ∷ []) }
{
    let begun = write_text(row, 0, kind);
    let numbered = write_cell(row, begun, number);
    let sized = write_cell(row, numbered, size);
    let at = write_cell(row, sized, last);
    write_text(row, at, b",,,\n")
}

/// Puts what is written in a row before a place: by a copy of a fixed number of bytes, of which those after it are cut off.
#[inline(always)]
#[tactic(auto, using(fit_texts::proofs::Stamps::cut))]
fn put_written(text: &mut Vec<u8>, row: &[u8; ROW_ROOM], end: usize) -> Result<(), AllocError>
    requires { end ≤ 128 }
    ensures { OnOk result (text.new.items ≡ text.old.items ++ take end row.now) }
{
    if end > SHORT_ROW {
        let (written, _) = row.as_slice().split_at(end);
        return text.extend_from_slice(written);
    }
    let (short, _) = row.as_slice().split_at(SHORT_ROW);
    let length = text.len() + end;
    text.extend_from_slice(short)?;
    text.truncate(length);
    Ok(())
}

/// Puts the row of three numbers after a word that needs no quotes.
fn put_numbers(
    text: &mut Vec<u8>,
    kind: &[u8],
    number: u8,
    size: u8,
    last: u8,
) -> Result<(), AllocError>
    requires plain { field_text default_writer kind.now ≡ kind.now }
    requires short { length kind.now ≤ 4 }
    ensures { OnOk result (HasRows (rows.row kind.now (decimal number) (decimal size) (decimal last)
        [] [] [] ∷ []) text.old text.new) }
{
    let mut row = [0; ROW_ROOM];
    let end = write_row(&mut row, kind, number, size, last);
    put_written(text, &row, end)
}

/// Puts the rows of the fields of a definition.
fn put_field_defs(text: &mut Vec<u8>, fields: &[FieldDef]) -> Result<(), AllocError>
    ensures { OnOk result (HasRows (map rows.field_def_row fields.now) text.old text.new) }
{
    for field in fields {
        put_numbers(text, b"fdef", field.number, field.size, field.code)?;
    }
    Ok(())
}

/// Puts the rows of the developer fields of a definition.
fn put_dev_defs(text: &mut Vec<u8>, fields: &[DevDef]) -> Result<(), AllocError>
    ensures { OnOk result (HasRows (map rows.dev_def_row fields.now) text.old text.new) }
{
    for field in fields {
        put_numbers(text, b"ddef", field.number, field.size, field.index)?;
    }
    Ok(())
}

/// Puts the rows of a definition message.
pub(crate) fn put_definition(text: &mut Vec<u8>, definition: &MessageDef) -> Result<(), AllocError>
    ensures { OnOk result (HasRows (rows.definition_rows definition.now) text.old text.new) }
{
    put_def_row(text, definition)?;
    put_field_defs(text, definition.fields.as_slice())?;
    put_dev_defs(text, dev_slice(&definition.dev))?;
    Ok(())
}
