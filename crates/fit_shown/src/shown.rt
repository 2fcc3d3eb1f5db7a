//! The cells of fields as a line shows them.
ghost use Rattle.std.specs.Prelude.{◌≡◌, ◌≤◌, ◌+◌, ◌++◌, IfOk, IfSome, OnOk, length, option_map};
ghost use Rattle.std.specs.List.{list_all};
ghost use Rattle.fit_base.specs.Fields.{HasShape};
ghost use Rattle.fit_profile.specs.Described.{is_printable};
ghost use Rattle.fit_profile.specs.Names.{meaning};
ghost use Rattle.fit_numbers.specs.Scaled.{IsScale};
ghost use Rattle.fit_shown.specs.Shown.{shown_cell};
ghost use Rattle.fit_texts.specs.Sheets.{and_sheet};
ghost use Rattle.fit_shown.specs.CellKeys.{field_in_line};

use crate::form::{FieldForm, FieldKind};
use fit_base::base_type::BYTE;
use fit_base::{Code, Items, Order, bits_at};
use fit_cells::{put_cell, shown_text, write_formed};
use fit_profile::Info;
use fit_record::read_items;
use fit_texts::{Sheet, add_text, put_sheet};
use std::alloc::{AllocError, Global};
use std::marker::Model;

/// Whether a cell has no control character.
fn is_shown(cell: &[u8]) -> bool
    ensures { result ≡ list_all is_printable cell.now }
{
    cell.iter().all(|byte| *byte >= 0x20 && *byte != 0x7F)
}

/// How the cell of a field is made of its items.
#[derive(Drop)]
pub struct ShownCell {
    form: FieldForm,
}

impl Model for ShownCell {
    ghost use Rattle.fit_shown.specs.CellKeys.{CellKey};
    ghost use Rattle.fit_shown.specs.inner.FieldForms.{IsFieldForm, field_meaning};

    ghost Value = { CellKey };

    ghost view = { λ c. record {
      code = c.form.code.0;
      size = c.form.size;
      info = field_meaning c.form;
    } };

    ghost invariant = { λ c. IsFieldForm c.form };
}

impl ShownCell {
    /// That of a field of this base type code, size and meaning.
    pub fn new(code: u8, size: u8, info: Option<Info>) -> ShownCell
        requires { IfSome info (λ i. IsScale i.scale) }
        ensures { result ≡ record {
          code = code;
          size = size;
          info = option_map meaning info;
        } }
    {
        ShownCell {
            form: FieldForm::new(code, size, info),
        }
    }

    /// How many bytes the field has.
    #[inline(always)]
    pub(crate) fn size(&self) -> u8
        ensures { result ≡ self.now.size }
    {
        self.form.size
    }

    /// Puts the cell, or the bytes of a text with a control character.
    #[inline(never)]
    fn put_other(&self, text: &mut Vec<u8>, items: &Items) -> Result<(), AllocError>
        requires { HasShape self.now.code self.now.size items.now }
        ensures { OnOk result (text.new.items ≡ text.old.items
            ++ shown_cell self.now.code self.now.info items.now) }
    {
        let start = text.len();
        put_cell(text, self.form.code, self.form.info, items)?;
        let (_, cell) = text.as_slice().split_at(start);
        if items.width != 1 || is_shown(cell) {
            return Ok(());
        }
        text.truncate(start);
        put_cell(text, Code(BYTE), None, items)
    }

    /// The text of a string by the bytes of the field, where it is shown as it is.
    fn plain_text<'a>(&self, bytes: &'a [u8]) -> Option<&'a [u8]>
        requires { length bytes.now ≡ self.now.size }
        ensures { IfSome result (λ shown. (order : Order)
            → shown.now ≡ field_in_line self.now order bytes.now) }
    {
        let FieldKind::Text = self.form.kind else {
            return None;
        };
        let text = shown_text(bytes)?.text;
        if is_shown(text) { Some(text) } else { None }
    }

    /// Puts the cell of what isn't written in a sheet, by the bytes of the field.
    #[inline(never)]
    fn put_read(
        &self,
        text: &mut Vec<u8>,
        alloc: Global,
        order: Order,
        bytes: &[u8],
    ) -> Result<(), AllocError>
        requires { length bytes.now ≡ self.now.size }
        ensures { OnOk result (text.new.items ≡ text.old.items
            ++ field_in_line self.now order bytes.now) }
    {
        let items = read_items(alloc, order, self.form.code.0, self.form.size, bytes)?;
        self.put_other(text, &items)
    }

    /// Puts the cell of what is no lone number of at most four bytes, by the bytes of the field.
    #[inline(never)]
    fn add_read(
        &self,
        text: &mut Vec<u8>,
        sheet: &mut Sheet,
        at: usize,
        alloc: Global,
        order: Order,
        bytes: &[u8],
    ) -> Result<usize, AllocError>
        requires place { at ≤ 1024 }
        requires length { length bytes.now ≡ self.now.size }
        ensures place { IfOk result (λ end. end ≤ 1024) }
        ensures text { IfOk result (λ end. and_sheet text.new.items sheet.new end
            ≡ and_sheet text.old.items sheet.old at ++ field_in_line self.now order bytes.now) }
    {
        if let Some(end) = self.form.add_from_bytes(text, sheet, at, order, bytes) {
            return end;
        }
        if let Some(shown) = self.plain_text(bytes) {
            return add_text(text, sheet, at, shown);
        }
        put_sheet(text, sheet, at)?;
        self.put_read(text, alloc, order, bytes)?;
        Ok(0)
    }

    /// Puts the cell by the bytes of the field: a lone number by its form, which has no control character.
    #[inline(always)]
    pub(crate) fn put_bytes(
        &self,
        text: &mut Vec<u8>,
        sheet: &mut Sheet,
        at: usize,
        alloc: Global,
        order: Order,
        bytes: &[u8],
    ) -> Result<usize, AllocError>
        requires room { at + 32 ≤ 1024 }
        requires length { length bytes.now ≡ self.now.size }
        ensures place { IfOk result (λ end. end ≤ 1024) }
        ensures text { IfOk result (λ end. and_sheet text.new.items sheet.new end
            ≡ and_sheet text.old.items sheet.old at ++ field_in_line self.now order bytes.now) }
    {
        if let Some(form) = self.form.lone() {
            let bits = bits_at(order, form.width, bytes);
            return Ok(write_formed(sheet, at, form, bits));
        }
        self.add_read(text, sheet, at, alloc, order, bytes)
    }
}
