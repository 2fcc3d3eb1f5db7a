//! The first row of a message, and its parts.
ghost use Rattle.std.specs.Prelude.{◌≡◌, ◌++◌, ◌∷◌, [], IfOk, OnOk, codes, decimal};
ghost use Rattle.fit_cells.specs.Rows.{HasRows, csv_text};
ghost use Rattle.fit_shown.specs.Frames.{two_cells};
ghost use Rattle.fit_profile.specs.Names.{message_label};
ghost use Rattle.fit_rows.specs.ChainRows as rows;

use fit_cells::RowWriter;
use fit_profile::message_label;
use fit_shown::{Pen, put_two};
use fit_texts::{Stamp, WIDE};
use itoa::Buffer;
use std::alloc::AllocError;

/// Puts what stands before the time offset in the first row of a message.
fn put_front(text: &mut Vec<u8>, writer: &mut RowWriter, local: u8) -> Result<(), AllocError>
    ensures { OnOk result (text.new.items
        ≡ text.old.items ++ two_cells (codes "data") (decimal local)) }
{
    let mut locals = Buffer::new();
    put_two(text, writer, b"data", locals.format(local).as_bytes())
}

/// Puts what stands between the time offset and the time.
fn put_label(text: &mut Vec<u8>, writer: &mut RowWriter, global: u16) -> Result<(), AllocError>
    ensures { OnOk result (text.new.items
        ≡ text.old.items ++ two_cells [] (message_label global)) }
{
    let label = message_label(global);
    put_two(text, writer, b"", label.as_str().as_bytes())
}

/// Puts the first row of a message without a time offset.
fn put_line(
    text: &mut Vec<u8>,
    writer: &mut RowWriter,
    local: u8,
    global: u16,
) -> Result<(), AllocError>
    ensures { OnOk result (HasRows (rows.row (codes "data") (decimal local) []
        (message_label global) [] [] [] ∷ []) text.old text.new) }
{
    put_front(text, writer, local)?;
    put_label(text, writer, global)?;
    text.extend_from_slice(b",,\n")?;
    Ok(())
}

/// The first row of a message without a time offset.
fn line_of(pen: &mut Pen, local: u8, global: u16) -> Result<Stamp, AllocError>
    ensures { IfOk result (λ s. s ≡ csv_text (rows.row (codes "data") (decimal local) []
        (message_label global) [] [] [] ∷ [])) }
{
    let mut line = Vec::with_capacity(pen.alloc, WIDE)?;
    put_line(&mut line, &mut pen.writer, local, global)?;
    Stamp::new(line)
}

/// What stands before the time offset.
fn front_of(pen: &mut Pen, local: u8) -> Result<Stamp, AllocError>
    ensures { IfOk result (λ s. s ≡ two_cells (codes "data") (decimal local)) }
{
    let mut front = Vec::with_capacity(pen.alloc, WIDE)?;
    put_front(&mut front, &mut pen.writer, local)?;
    Stamp::new(front)
}

/// What stands between the time offset and the time.
fn label_of(pen: &mut Pen, global: u16) -> Result<Stamp, AllocError>
    ensures { IfOk result (λ s. s ≡ two_cells [] (message_label global)) }
{
    let mut label = Vec::with_capacity(pen.alloc, WIDE)?;
    put_label(&mut label, &mut pen.writer, global)?;
    Stamp::new(label)
}

/// The first row of a message without a time offset; what stands before the time offset, and between it and the time.
pub(super) fn first_row(
    pen: &mut Pen,
    local: u8,
    global: u16,
) -> Result<(Stamp, Stamp, Stamp), AllocError>
    ensures line { IfOk result (λ t. t.0 ≡ csv_text (rows.row (codes "data") (decimal local) []
        (message_label global) [] [] [] ∷ [])) }
    ensures front { IfOk result (λ t. t.1 ≡ two_cells (codes "data") (decimal local)) }
    ensures label { IfOk result (λ t. t.2 ≡ two_cells [] (message_label global)) }
{
    let line = line_of(pen, local, global)?;
    let front = front_of(pen, local)?;
    let label = label_of(pen, global)?;
    Ok((line, front, label))
}
