//! The lines of the messages of a definition without their values, found out once for many messages.
ghost use Rattle.std.specs.Prelude.{◌≡◌, ◌<◌, ◌≤◌, ◌+◌, ◌++◌, IfOk, OnOk, Some, codes, length, map};
ghost use Rattle.fit_record.specs.Environment.{defined_at};
ghost use Rattle.fit_record.specs.Sound.{IsSound};
ghost use Rattle.fit_profile.specs.Looks.{known};
ghost use Rattle.fit_show.specs.ShowLines as lines;
ghost use Rattle.fit_shown.specs.Frames.{HasFields, HasItems, TakesFields};
ghost use Rattle.fit_show.specs.inner.Showing.{dev_field_part, field_part, first_head, keys_text, line_front, line_shapes, line_text, shown_keys};
ghost use Rattle.fit_texts.specs.MessageKeys.{message_key};
ghost use Rattle.fit_texts.specs.Sheets.{and_sheet};

use crate::fields::put_words;
use crate::frames::{ShownField, push_devs, put_dev_head, put_head, shown_fields};
use fit_profile::{Stream, message_label};
use fit_record::{Defined, FieldDef};
use fit_shown::ItemBytes;
use fit_text_report::Finding;
use fit_texts::{KeptDev, KeptMessage, Sheet, Stamp, Times, WIDE, put_sheet};
use itoa::Buffer;
use std::alloc::{AllocError, Global};
use std::marker::Model;

/// Puts what stands before the time of a message.
fn put_front(text: &mut Vec<u8>, local: u8, global: u16) -> Result<(), AllocError>
    ensures { OnOk result (text.new.items ≡ text.old.items ++ line_front local global) }
{
    let mut locals = Buffer::new();
    let label = message_label(global);
    let words = [
        b"  ".as_slice(),
        locals.format(local).as_bytes(),
        b" ".as_slice(),
        label.as_str().as_bytes(),
    ];
    put_words(text, words.as_slice())
}

/// Puts the next fields, one after another. Nothing is left in the sheet.
fn put_fields(
    text: &mut Vec<u8>,
    sheet: &mut Sheet,
    at: usize,
    fields: &[ShownField],
    items: &mut ItemBytes<'_>,
) -> Result<(), AllocError>
    requires room { at + 32 ≤ 1024 }
    requires fields { HasFields HasItems items.old (map (λ f. (f.code, f.size)) fields.now) }
    ensures { OnOk result (TakesFields HasItems items.old items.new
        (map (λ f. (f.code, f.size)) fields.now) (λ all. text.new.items
        ≡ and_sheet text.old.items sheet.old at ++ keys_text fields.now all)) }
{
    let mut at = at;
    for field in fields {
        at = field.put(text, sheet, at, items)?;
    }
    put_sheet(text, sheet, at)
}

/// What a message without a time begins with, and what stands before the time of the others: that and a space.
fn fronts(alloc: Global, local: u8, global: u16) -> Result<(Stamp, Stamp), AllocError>
    ensures front { IfOk result (λ s. s.0 ≡ line_front local global) }
    ensures timed { IfOk result (λ s. s.1 ≡ line_front local global ++ codes " ") }
{
    let mut front = Vec::with_capacity(alloc, WIDE)?;
    put_front(&mut front, local, global)?;
    let mut timed = Vec::with_capacity(alloc, WIDE)?;
    timed.extend_from_slice(front.as_slice())?;
    timed.push(b' ')?;
    Ok((Stamp::new(front)?, Stamp::new(timed)?))
}

/// What stands before the first cell: that of the first field, or this end where there is none.
fn head_of(alloc: Global, global: u16, fields: &[FieldDef], end: &[u8]) -> Result<Stamp, AllocError>
    ensures { IfOk result (λ s. s ≡ first_head 0 (map (field_part global) fields.now) end.now) }
{
    let mut head = Vec::with_capacity(alloc, WIDE)?;
    put_head(&mut head, 0, global, fields, end)?;
    Stamp::new(head)
}

/// What stands before the first cell, and the fields and the developer fields with what comes after their cells.
fn head_and_fields(
    alloc: Global,
    global: u16,
    fields: &[FieldDef],
    devs: &[KeptDev],
) -> Result<(Stamp, Vec<ShownField>), AllocError>
    requires fields { length fields.now < 256 }
    requires devs { length devs.now < 256 }
    ensures head { IfOk result (λ p. p.0 ≡ first_head 0 (map (field_part global) fields.now)
        (first_head (length fields.now) (map dev_field_part devs.now) (codes "\n"))) }
    ensures shown { IfOk result (λ p. p.1.items
        ≡ shown_keys 0 (map (field_part global) fields.now)
        (first_head (length fields.now) (map dev_field_part devs.now) (codes "\n"))
        ++ shown_keys (length fields.now) (map dev_field_part devs.now) (codes "\n")) }
{
    let mut end = Vec::new(alloc);
    put_dev_head(&mut end, fields.len(), devs)?;
    let head = head_of(alloc, global, fields, end.as_slice())?;
    let mut shown = shown_fields(alloc, global, fields, end.as_slice())?;
    push_devs(alloc, &mut shown, fields.len(), devs)?;
    Ok((head, shown))
}

/// About how many bytes of memory fields take.
fn memory_of(fields: &[ShownField]) -> usize {
    let mut memory: usize = 0;
    for field in fields {
        memory = memory.saturating_add(field.memory());
    }
    memory
}

/// The lines of the messages of a definition without their values.
#[derive(Drop)]
pub struct LineTemplate {
    kept: KeptMessage,
    /// What a message without a time begins with.
    front: Stamp,
    /// What stands before the time of the others: that and a space.
    timed: Stamp,
    /// What stands before the first cell.
    head: Stamp,
    /// The fields and the developer fields.
    fields: Vec<ShownField>,
}

impl Model for LineTemplate {
    ghost use Rattle.std.specs.Prelude.{◌≡◌, ◌++◌, codes};
    ghost use Rattle.fit_show.specs.inner.Showing.{line_front, line_head, line_keys};
    ghost use Rattle.fit_texts.specs.MessageKeys.{MessageKey};

    ghost Value = { MessageKey };

    ghost view = { λ t. t.kept };

    ghost invariant = { λ t. (t.front ≡ line_front t.kept.own.local t.kept.own.global)
        × (t.head ≡ line_head t.kept) × (t.fields.items ≡ line_keys t.kept)
        × (t.timed ≡ line_front t.kept.own.local t.kept.own.global ++ codes " ") };
}

impl LineTemplate {
    /// That of the definition of this local message type after the records of a stream.
    pub(crate) fn new(
        alloc: Global,
        stream: &Stream,
        local: u8,
        defined: &Defined,
    ) -> Result<LineTemplate, AllocError>
        requires place { defined_at (known stream.now) local ≡ Some defined.now }
        requires sound { IsSound defined.now }
        ensures { IfOk result (λ t. t ≡ message_key stream.now local defined.now) }
    {
        let definition = &defined.definition;
        let kept = KeptMessage::new(alloc, stream, local, defined)?;
        let devs = kept.devs.as_slice();
        let fields = definition.fields.as_slice();
        let (head, fields) = head_and_fields(alloc, definition.global, fields, devs)?;
        let (front, timed) = fronts(alloc, local, definition.global)?;
        Ok(LineTemplate {
            kept,
            front,
            timed,
            head,
            fields,
        })
    }

    /// Puts what a message with this time begins with. The sheet begins anew.
    #[inline(always)]
    fn put_label(
        &self,
        text: &mut Vec<u8>,
        sheet: &mut Sheet,
        times: &mut Times,
        time: Option<u32>,
    ) -> Result<usize, AllocError>
        ensures place { IfOk result (λ end. end ≤ 1024) }
        ensures text { IfOk result (λ end. and_sheet text.new.items sheet.new end
            ≡ text.old.items
            ++ (line_front self.now.own.local self.now.own.global ++ lines.time_part time)) }
    {
        match time {
            Some(time) => {
                let at = self.timed.add(text, sheet, 0)?;
                times.add(text, sheet, at, time)
            }
            None => self.front.add(text, sheet, 0),
        }
    }

    /// Puts the line of a message with this time.
    pub(crate) fn put(
        &self,
        text: &mut Vec<u8>,
        sheet: &mut Sheet,
        times: &mut Times,
        time: Option<u32>,
        items: &mut ItemBytes<'_>,
    ) -> Result<(), AllocError>
        requires { HasFields HasItems items.old (line_shapes self.now) }
        ensures { OnOk result (TakesFields HasItems items.old items.new (line_shapes self.now)
            (λ all. text.new.items ≡ text.old.items ++ line_text self.now time all)) }
    {
        let at = self.put_label(text, sheet, times, time)?;
        let first = self.head.add(text, sheet, at)?;
        put_fields(text, sheet, first, self.fields.as_slice(), items)
    }
}

impl Finding for LineTemplate {
    ghost use Rattle.fit_texts.specs.MessageKeys.{key_of};

    type Tools = Global;

    ghost found_of = { key_of };

    fn find(
        found: &mut Option<LineTemplate>,
        tools: &mut Global,
        stream: &Stream,
        local: u8,
        defined: &Defined,
    ) -> Result<(), AllocError> {
        if let Some(template) = found {
            if template.kept.is(stream, local, defined) {
                return Ok(());
            }
        }
        *found = Some(LineTemplate::new(*tools, stream, local, defined)?);
        Ok(())
    }

    fn memory(&self) -> usize {
        let fields = memory_of(self.fields.as_slice());
        let lines = fields.saturating_add(self.head.memory());
        lines.saturating_add(self.kept.memory())
    }
}

/// What lines are put with, one after another.
#[derive(Drop)]
pub struct LineMaker {
    pub(crate) alloc: Global,
    /// What lines are written in first.
    pub(crate) sheet: Sheet,
    pub(crate) times: Times,
}
