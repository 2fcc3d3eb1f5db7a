//! What stands around values in their rows, found out once for many messages.
ghost use Rattle.std.specs.Prelude.{◌≡◌, ◌≤◌, ◌++◌, [], IfOk, IfSome, OnOk, codes, length, option_map};
ghost use Rattle.csv.specs.Writing.{default_writer, field_text, needs_quotes};
ghost use Rattle.fit_base.specs.Fields.{HasShape};
ghost use Rattle.fit_profile.specs.Names.{meaning};
ghost use Rattle.fit_numbers.specs.Scaled.{IsScale};
ghost use Rattle.fit_cells.specs.Cells.{cell};
ghost use Rattle.fit_shown.specs.Frames.{field_in_row, two_cells};
ghost use Rattle.fit_texts.specs.Sheets.{and_sheet};

pub(crate) mod likely;

use crate::form::{FieldForm, FieldKind};
use crate::pen::Pen;
use fit_base::{Items, Order, bits_at};
use fit_cells::{RowWriter, ShownText, is_never_quoted, put_cell, shown_text, write_formed};
use fit_profile::Info;
use fit_record::read_items;
use fit_texts::{Sheet, Stamp, WIDE, add_text, put_sheet};
use std::alloc::AllocError;
use std::marker::Model;
use std::mem;

/// Puts two cells after a text, each with a comma after it.
#[tactic(auto, using(crate::proofs::TwoCells::two_put))]
pub fn put_two<'a>(
    text: &mut Vec<u8>,
    writer: &mut RowWriter,
    first: &'a [u8],
    second: &'a [u8],
) -> Result<(), AllocError>
    ensures { OnOk result (text.new.items ≡ text.old.items ++ two_cells first.now second.now) }
{
    writer.put_lone(text, first)?;
    text.push(b',')?;
    writer.put_lone(text, second)?;
    text.push(b',')?;
    Ok(())
}

/// Puts what stands after a value with this unit in its row.
pub fn put_tail(text: &mut Vec<u8>, writer: &mut RowWriter, unit: &[u8]) -> Result<(), AllocError>
    ensures { OnOk result (text.new.items ≡ text.old.items ++ two_cells [] unit.now
        ++ codes ",,\n") }
{
    put_two(text, writer, b"", unit)?;
    text.extend_from_slice(b",,\n")
}

/// Puts the text of a string, in quotes where it needs them.
#[inline(always)]
#[tactic(auto, using(crate::proofs::TextCells::unquoted))]
fn add_shown(
    text: &mut Vec<u8>,
    sheet: &mut Sheet,
    at: usize,
    writer: &mut RowWriter,
    shown: ShownText<'_>,
) -> Result<usize, AllocError>
    requires place { at ≤ 1024 }
    requires quotes { shown.needs_quotes ≡ needs_quotes default_writer shown.text.now }
    ensures place { IfOk result (λ end. end ≤ 1024) }
    ensures text { IfOk result (λ end. and_sheet text.new.items sheet.new end
        ≡ and_sheet text.old.items sheet.old at
        ++ field_text default_writer shown.entry.text.now) }
{
    if shown.needs_quotes {
        put_sheet(text, sheet, at)?;
        writer.put_lone(text, shown.text)?;
        return Ok(0);
    }
    add_text(text, sheet, at, shown.text)
}

/// What stands between the value before and one's own, and how one's own is shown.
#[derive(Drop)]
pub struct Frame {
    between: Stamp,
    form: FieldForm,
}

impl Model for Frame {
    ghost use Rattle.fit_shown.specs.Frames.{FrameText};
    ghost use Rattle.fit_shown.specs.inner.FieldForms.{IsFieldForm, field_meaning};

    ghost Value = { FrameText };

    ghost view = { λ f. record {
      between = f.between;
      code = f.form.code.0;
      size = f.form.size;
      info = field_meaning f.form;
    } };

    ghost invariant = { λ f. IsFieldForm f.form };
}

impl Frame {
    /// What stands around a value of this code, size and meaning after a row with this end.
    pub fn new<'a>(
        pen: &mut Pen,
        before: &[u8],
        kind: &'a [u8],
        name: &'a [u8],
        code: u8,
        size: u8,
        info: Option<Info>,
    ) -> Result<Frame, AllocError>
        requires { IfSome info (λ i. IsScale i.scale) }
        ensures { IfOk result (λ f. f ≡ record {
          between = before.now
              ++ two_cells kind.now name.now;
          code = code;
          size = size;
          info = option_map meaning info;
        }) }
    {
        let mut between = Vec::with_capacity(pen.alloc, WIDE)?;
        between.extend_from_slice(before)?;
        put_two(&mut between, &mut pen.writer, kind, name)?;
        Ok(Frame {
            between: Stamp::new(between)?,
            form: FieldForm::new(code, size, info),
        })
    }

    /// About how many bytes of memory it takes.
    pub fn memory(&self) -> usize {
        self.between
            .memory()
            .saturating_add(mem::size_of::<Frame>())
    }

    /// How many bytes the field has.
    #[inline(always)]
    pub(crate) fn size(&self) -> u8
        ensures { result ≡ self.now.size }
    {
        self.form.size
    }

    /// Puts a value that is no lone number after a text.
    #[inline(never)]
    fn put_other(&self, text: &mut Vec<u8>, pen: &mut Pen, items: &Items) -> Result<(), AllocError>
        requires { HasShape self.now.code self.now.size items.now }
        ensures { OnOk result (text.new.items ≡ text.old.items
            ++ field_text default_writer (cell self.now.code self.now.info items.now)) }
    {
        let FieldForm { code, info, .. } = self.form;
        if is_never_quoted(code) {
            return put_cell(text, code, info, items);
        }
        pen.value.clear();
        put_cell(&mut pen.value, code, info, items)?;
        pen.writer.put_lone(text, pen.value.as_slice())
    }

    /// Puts a value that isn't written in a sheet after a text, by the bytes of its field.
    #[inline(never)]
    fn put_rest(
        &self,
        text: &mut Vec<u8>,
        pen: &mut Pen,
        order: Order,
        bytes: &[u8],
    ) -> Result<(), AllocError>
        requires { length bytes.now ≡ self.now.size }
        ensures { OnOk result (text.new.items ≡ text.old.items
            ++ field_in_row self.now order bytes.now) }
    {
        let items = read_items(pen.alloc, order, self.form.code.0, self.form.size, bytes)?;
        self.put_other(text, pen, &items)
    }

    /// Adds a value that is no lone number of at most four bytes, by the bytes of its field.
    #[inline(never)]
    fn add_read(
        &self,
        text: &mut Vec<u8>,
        sheet: &mut Sheet,
        at: usize,
        pen: &mut Pen,
        order: Order,
        bytes: &[u8],
    ) -> Result<usize, AllocError>
        requires place { at ≤ 1024 }
        requires length { length bytes.now ≡ self.now.size }
        ensures place { IfOk result (λ end. end ≤ 1024) }
        ensures text { IfOk result (λ end. and_sheet text.new.items sheet.new end
            ≡ and_sheet text.old.items sheet.old at ++ field_in_row self.now order bytes.now) }
    {
        if let Some(end) = self.form.add_from_bytes(text, sheet, at, order, bytes) {
            return end;
        }
        if let FieldKind::Text = self.form.kind {
            if let Some(shown) = shown_text(bytes) {
                return add_shown(text, sheet, at, &mut pen.writer, shown);
            }
        }
        put_sheet(text, sheet, at)?;
        self.put_rest(text, pen, order, bytes)?;
        Ok(0)
    }

    /// Puts what stands before the value, and the value, by the bytes of its field.
    #[inline(always)]
    pub(crate) fn put_bytes(
        &self,
        text: &mut Vec<u8>,
        sheet: &mut Sheet,
        at: usize,
        pen: &mut Pen,
        order: Order,
        bytes: &[u8],
    ) -> Result<usize, AllocError>
        requires place { at ≤ 1024 }
        requires length { length bytes.now ≡ self.now.size }
        ensures place { IfOk result (λ end. end ≤ 1024) }
        ensures text { IfOk result (λ end. and_sheet text.new.items sheet.new end
            ≡ (and_sheet text.old.items sheet.old at ++ self.now.between)
            ++ field_in_row self.now order bytes.now) }
    {
        let at = self.between.add(text, sheet, at)?;
        if let Some(form) = self.form.lone() {
            let bits = bits_at(order, form.width, bytes);
            return Ok(write_formed(sheet, at, form, bits));
        }
        self.add_read(text, sheet, at, pen, order, bytes)
    }
}
