//! What comes after the cells of fields in a line, found out once for many messages.
ghost use Rattle.std.specs.Prelude.{◌≡◌, ◌≤◌, ◌<◌, ◌+◌, ◌++◌, ◌∷◌, [], if◌then◌else◌, IfOk, IfSome, OnOk, codes, length, map, option_map};
ghost use Rattle.fit_profile.specs.Names.{meaning};
ghost use Rattle.fit_numbers.specs.Scaled.{IsScale};
ghost use Rattle.fit_shown.specs.Frames.{HasFields, HasItems, TakesField};
ghost use Rattle.fit_texts.specs.Sheets.{and_sheet};
ghost use Rattle.fit_show.specs.inner.Showing.{dev_field_part, field_part, first_head, key_text, shown_keys, spaced};

use crate::fields::{put_name, put_words, separator};
use fit_profile::{Info, field_info, field_label};
use fit_record::FieldDef;
use fit_shown::{ItemBytes, ShownCell};
use fit_texts::words::unit_text;
use fit_texts::{KeptDev, Sheet, Stamp, WIDE};
use std::alloc::{AllocError, Global};
use std::marker::Model;
use std::mem;

/// Puts a unit after a space, where there is one.
fn put_spaced(text: &mut Vec<u8>, unit: &[u8]) -> Result<(), AllocError>
    ensures { OnOk result (text.new.items ≡ text.old.items ++ spaced unit.now) }
{
    if unit.is_empty() {
        return Ok(());
    }
    let words = [b" ".as_slice(), unit];
    put_words(text, words.as_slice())
}

/// Puts what stands before the cell of the first of these fields, which comes after that many others, or this end where there is
/// none.
pub(crate) fn put_head(
    text: &mut Vec<u8>,
    before: usize,
    global: u16,
    fields: &[FieldDef],
    end: &[u8],
) -> Result<(), AllocError>
    ensures { OnOk result (text.new.items ≡ text.old.items
        ++ first_head before (map (field_part global) fields.now) end.now) }
{
    match fields.split_first() {
        Some((field, _)) => {
            let label = field_label(global, field.number);
            let name = label.as_str().as_bytes();
            put_name(text, separator(before).as_bytes(), name)
        }
        None => text.extend_from_slice(end),
    }
}

/// Puts what stands before the cell of the first of these developer fields, which comes after that many fields, or the end of the
/// line where there is none.
pub(crate) fn put_dev_head(
    text: &mut Vec<u8>,
    before: usize,
    devs: &[KeptDev],
) -> Result<(), AllocError>
    ensures { OnOk result (text.new.items ≡ text.old.items
        ++ first_head before (map dev_field_part devs.now) (codes "\n")) }
{
    match devs.split_first() {
        Some((dev, _)) => put_name(text, separator(before).as_bytes(), dev.name.as_slice()),
        None => text.extend_from_slice(b"\n"),
    }
}

/// What stands between the cell of a field and that of the next, or the end of the line, and how its items are shown.
#[derive(Drop)]
pub(crate) struct ShownField {
    /// What stands before the next cell.
    head: Stamp,
    /// The unit, where the field has one, and what stands before the next cell.
    unit: Stamp,
    cell: ShownCell,
}

impl Model for ShownField {
    ghost use Rattle.fit_show.specs.inner.Showing.{ShownKey};

    ghost Value = { ShownKey };

    ghost view = { λ f. record {
      bare = f.head;
      full = f.unit;
      code = f.cell.code;
      size = f.cell.size;
      info = f.cell.info;
    } };
}

impl ShownField {
    /// That of a field of this unit, base type code, size and meaning, before this head of the next one.
    fn new(
        alloc: Global,
        unit: &[u8],
        code: u8,
        size: u8,
        info: Option<Info>,
        head: Vec<u8>,
    ) -> Result<ShownField, AllocError>
        requires { IfSome info (λ i. IsScale i.scale) }
        ensures { IfOk result (λ f. f ≡ record {
          bare = head.items;
          full = spaced unit.now ++ head.items;
          code = code;
          size = size;
          info = option_map meaning info;
        }) }
    {
        let mut full = Vec::with_capacity(alloc, WIDE)?;
        put_spaced(&mut full, unit)?;
        full.extend_from_slice(head.as_slice())?;
        Ok(ShownField {
            head: Stamp::new(head)?,
            unit: Stamp::new(full)?,
            cell: ShownCell::new(code, size, info),
        })
    }

    /// About how many bytes of memory it takes.
    pub(crate) fn memory(&self) -> usize {
        let texts = self.head.memory().saturating_add(self.unit.memory());
        texts.saturating_add(mem::size_of::<ShownField>())
    }

    /// What stands between its cell and the next one.
    #[inline(always)]
    fn after(&self, is_empty: bool) -> &Stamp
        ensures { result.now ≡ (if is_empty then self.now.bare else self.now.full) }
    {
        if is_empty { &self.head } else { &self.unit }
    }

    /// Puts the next cell, and what stands between it and the one after it.
    #[inline(always)]
    pub(crate) fn put(
        &self,
        text: &mut Vec<u8>,
        sheet: &mut Sheet,
        at: usize,
        items: &mut ItemBytes<'_>,
    ) -> Result<usize, AllocError>
        requires room { at + 32 ≤ 1024 }
        requires fields { HasFields HasItems items.old ((self.now.code, self.now.size) ∷ []) }
        ensures room { IfOk result (λ end. end + 32 ≤ 1024) }
        ensures fields { IfOk result (λ end. TakesField HasItems items.old items.new
            (self.now.code, self.now.size) (λ i. and_sheet text.new.items sheet.new end
            ≡ and_sheet text.old.items sheet.old at ++ key_text self.now i)) }
    {
        let start = text.len() + at;
        let place = items.show_next(text, sheet, at, &self.cell)?;
        let after = self.after(text.len() + place == start);
        after.add(text, sheet, place)
    }
}

/// What comes after the cells of the fields of messages of this global number, before this end.
pub(crate) fn shown_fields(
    alloc: Global,
    global: u16,
    fields: &[FieldDef],
    end: &[u8],
) -> Result<Vec<ShownField>, AllocError>
    ensures { IfOk result (λ shown. shown.items
        ≡ shown_keys 0 (map (field_part global) fields.now) end.now) }
{
    let mut shown = Vec::new(alloc);
    for (place, field) in fields.iter().enumerate() {
        let (_, others) = fields.split_at(place + 1);
        let mut head = Vec::with_capacity(alloc, WIDE)?;
        put_head(&mut head, place + 1, global, others, end)?;
        let info = field_info(global, field.number);
        let unit = unit_text(info).as_bytes();
        shown.push(ShownField::new(alloc, unit, field.code, field.size, info, head)?)?;
    }
    Ok(shown)
}

/// Adds what comes after the cells of developer fields, after that many fields.
pub(crate) fn push_devs(
    alloc: Global,
    shown: &mut Vec<ShownField>,
    before: usize,
    devs: &[KeptDev],
) -> Result<(), AllocError>
    requires before { before < 256 }
    requires few { length devs.now < 256 }
    ensures { OnOk result (shown.new.items ≡ shown.old.items
        ++ shown_keys before (map dev_field_part devs.now) (codes "\n")) }
{
    for (place, dev) in devs.iter().enumerate() {
        let (_, others) = devs.split_at(place + 1);
        let mut head = Vec::with_capacity(alloc, WIDE)?;
        put_dev_head(&mut head, before + (place + 1), others)?;
        let unit = dev.unit.as_slice();
        shown.push(ShownField::new(alloc, unit, dev.code, dev.size, None, head)?)?;
    }
    Ok(())
}
