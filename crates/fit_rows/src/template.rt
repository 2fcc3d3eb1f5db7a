//! The rows of the messages of a definition without their values, found out once for many messages.
ghost use Rattle.std.specs.Prelude.{◌≡◌, ◌≤◌, ◌+◌, ◌++◌, ◌∷◌, [], IfOk, IsTrue, OnOk, Some, codes, decimal, length, map, option_map, take, unwrap_or};
ghost use Rattle.fit_record.specs.Environment.{defined_at};
ghost use Rattle.fit_record.specs.Sound.{IsSound};
ghost use Rattle.fit_profile.specs.Looks.{known};
ghost use Rattle.fit_profile.specs.Names.{message_label};
ghost use Rattle.fit_cells.specs.Rows.{HasRows, csv_text};
ghost use Rattle.fit_texts.specs.Words as words;
ghost use Rattle.fit_rows.specs.ChainRows as rows;
ghost use Rattle.fit_texts.specs.InstantText.{instant_text};
ghost use Rattle.fit_shown.specs.Frames.{HasFields, HasItems, TakesFields};
ghost use Rattle.fit_rows.specs.inner.FrameKeys.{dev_frame_key, end_of, field_key, frame_keys, frame_shapes, frame_text, frames_of, key_rows, tail_text, values_text};
ghost use Rattle.fit_texts.specs.MessageKeys.{message_key};
ghost use Rattle.fit_texts.specs.Sheets.{and_sheet};

mod finding;
mod first_row;
pub(crate) mod likely;

use crate::maker::RowTools;
use crate::template::first_row::first_row;
use fit_profile::{Stream, field_info, field_label, write_fixed};
use fit_record::{Defined, FieldDef};
use fit_shown::{Frame, ItemBytes, Pen, put_tail};
use fit_texts::words::unit_text;
use fit_texts::{KeptDev, KeptMessage, Sheet, Stamp, Times, WIDE, put_sheet, write_text};
use std::alloc::AllocError;
use std::marker::Model;

/// Adds what stands around the value of a field, and sets `end` to the end of its row.
fn push_field(
    pen: &mut Pen,
    frames: &mut Vec<Frame>,
    end: &mut Vec<u8>,
    global: u16,
    field: &FieldDef,
) -> Result<(), AllocError>
    ensures frames { OnOk result (frames.new.items ≡ frames.old.items
        ++ frame_text end.old.items (field_key global field.now) ∷ []) }
    ensures end { OnOk result (end.new.items ≡ tail_text (field_key global field.now)) }
{
    let info = field_info(global, field.number);
    let label = field_label(global, field.number);
    let name = label.as_str().as_bytes();
    let before = end.as_slice();
    let frame = Frame::new(pen, before, b"field", name, field.code, field.size, info)?;
    frames.push(frame)?;
    end.clear();
    put_tail(end, &mut pen.writer, unit_text(info).as_bytes())
}

/// What stands around the values of fields. It sets `end` to the end of the last row.
fn field_frames(
    pen: &mut Pen,
    end: &mut Vec<u8>,
    global: u16,
    fields: &[FieldDef],
) -> Result<Vec<Frame>, AllocError>
    requires { end.old.items ≡ [] }
    ensures frames { IfOk result (λ frames.
        frames.items ≡ frames_of [] (map (field_key global) fields.now)) }
    ensures end { OnOk result (end.new.items ≡ end_of [] (map (field_key global) fields.now)) }
{
    let mut frames = Vec::new(pen.alloc);
    for field in fields {
        push_field(pen, &mut frames, end, global, field)?;
    }
    Ok(frames)
}

/// Adds what stands around the value of a developer field, and sets `end` to the end of its row.
fn push_dev(
    pen: &mut Pen,
    frames: &mut Vec<Frame>,
    end: &mut Vec<u8>,
    dev: &KeptDev,
) -> Result<(), AllocError>
    ensures frames { OnOk result (frames.new.items ≡ frames.old.items
        ++ frame_text end.old.items (dev_frame_key dev.now) ∷ []) }
    ensures end { OnOk result (end.new.items ≡ tail_text (dev_frame_key dev.now)) }
{
    let name = dev.name.as_slice();
    let before = end.as_slice();
    let frame = Frame::new(pen, before, b"dev", name, dev.code, dev.size, None)?;
    frames.push(frame)?;
    end.clear();
    put_tail(end, &mut pen.writer, dev.unit.as_slice())
}

/// Adds what stands around the values of developer fields, and sets `end` to the end of the last row.
fn push_devs(
    pen: &mut Pen,
    frames: &mut Vec<Frame>,
    end: &mut Vec<u8>,
    devs: &[KeptDev],
) -> Result<(), AllocError>
    ensures frames { OnOk result (frames.new.items ≡ frames.old.items
        ++ frames_of end.old.items (map dev_frame_key devs.now)) }
    ensures end { OnOk result (end.new.items ≡ end_of end.old.items (map dev_frame_key devs.now)) }
{
    for dev in devs {
        push_dev(pen, frames, end, dev)?;
    }
    Ok(())
}

/// What stands around the values of fields and of developer fields. It sets `end` to the end of the last row.
fn all_frames(
    pen: &mut Pen,
    end: &mut Vec<u8>,
    global: u16,
    fields: &[FieldDef],
    devs: &[KeptDev],
) -> Result<Vec<Frame>, AllocError>
    requires { end.old.items ≡ [] }
    ensures frames { IfOk result (λ frames. frames.items
        ≡ frames_of [] (map (field_key global) fields.now ++ map dev_frame_key devs.now)) }
    ensures end { OnOk result (end.new.items
        ≡ end_of [] (map (field_key global) fields.now ++ map dev_frame_key devs.now)) }
{
    let mut frames = field_frames(pen, end, global, fields)?;
    push_devs(pen, &mut frames, end, devs)?;
    Ok(frames)
}

/// Puts the values of fields one after another, each after what stands before it, and this end. Nothing is left in the sheet.
fn put_frames(
    text: &mut Vec<u8>,
    sheet: &mut Sheet,
    at: usize,
    pen: &mut Pen,
    frames: &[Frame],
    end: &Stamp,
    items: &mut ItemBytes<'_>,
) -> Result<(), AllocError>
    requires place { at ≤ 1024 }
    requires fields { HasFields HasItems items.old (map (λ f. (f.code, f.size)) frames.now) }
    ensures { OnOk result (TakesFields HasItems items.old items.new
        (map (λ f. (f.code, f.size)) frames.now) (λ all. text.new.items
        ≡ and_sheet text.old.items sheet.old at ++ values_text frames.now end.now all)) }
{
    let mut at = at;
    for frame in frames {
        at = items.put_next(text, sheet, at, pen, frame)?;
    }
    let last = end.add(text, sheet, at)?;
    put_sheet(text, sheet, last)
}

/// Writes a number in a sheet, where there is one. Returns the place after it.
#[inline(always)]
#[tactic(auto, using(fit_texts::proofs::Sheets::whole_number))]
fn write_optional(sheet: &mut Sheet, at: usize, number: Option<u8>) -> usize
    requires { at + 32 ≤ 1024 }
    ensures place { result ≤ 1024 }
    ensures text { take result sheet.new ≡ take at sheet.old ++ words.optional_number number }
{
    match number {
        Some(number) => write_fixed(sheet, at, i64::from(number), 0),
        None => at,
    }
}

/// What stands around the values of fields and of developer fields, and the end of the last row.
fn frames_and_end(
    pen: &mut Pen,
    global: u16,
    fields: &[FieldDef],
    devs: &[KeptDev],
) -> Result<(Vec<Frame>, Stamp), AllocError>
    ensures frames { IfOk result (λ p. p.0.items
        ≡ frames_of [] (map (field_key global) fields.now ++ map dev_frame_key devs.now)) }
    ensures end { IfOk result (λ p. p.1
        ≡ end_of [] (map (field_key global) fields.now ++ map dev_frame_key devs.now)) }
{
    let mut end = Vec::with_capacity(pen.alloc, WIDE)?;
    let frames = all_frames(pen, &mut end, global, fields, devs)?;
    let end = Stamp::new(end)?;
    Ok((frames, end))
}

/// About how many bytes of memory frames take.
fn memory_of(frames: &[Frame]) -> usize {
    let mut memory: usize = 0;
    for frame in frames {
        memory = memory.saturating_add(frame.memory());
    }
    memory
}

/// The rows of the messages of a definition without their values.
#[derive(Drop)]
pub struct Template {
    kept: KeptMessage,
    /// The first row of a message without a time offset.
    line: Stamp,
    /// What stands before the time offset.
    front: Stamp,
    /// What stands between the time offset and the time.
    label: Stamp,
    frames: Vec<Frame>,
    /// The end of the last row.
    end: Stamp,
}

impl Model for Template {
    ghost use Rattle.std.specs.Prelude.{◌≡◌, ◌∷◌, [], codes, decimal, map};
    ghost use Rattle.fit_cells.specs.Rows.{HasRows, csv_text};
    ghost use Rattle.fit_rows.specs.ChainRows.{row};
    ghost use Rattle.fit_profile.specs.Names.{message_label};
    ghost use Rattle.fit_rows.specs.inner.FrameKeys.{end_of, frame_keys, frames_of};
    ghost use Rattle.fit_shown.specs.Frames.{two_cells};
    ghost use Rattle.fit_texts.specs.MessageKeys.{MessageKey};

    ghost Value = { MessageKey };

    ghost view = { λ t. t.kept };

    ghost invariant = { λ t. (t.line ≡ csv_text (row (codes "data") (decimal t.kept.own.local) []
        (message_label t.kept.own.global) [] [] [] ∷ []))
        × (t.front ≡ two_cells (codes "data") (decimal t.kept.own.local))
        × (t.label ≡ two_cells [] (message_label t.kept.own.global))
        × (t.frames.items ≡ frames_of [] (frame_keys t.kept))
        × (t.end ≡ end_of [] (frame_keys t.kept)) };
}

impl Template {
    /// That of the definition of this local message type after the records of a stream.
    pub(crate) fn new(
        pen: &mut Pen,
        stream: &Stream,
        local: u8,
        defined: &Defined,
    ) -> Result<Template, AllocError>
        requires place { defined_at (known stream.now) local ≡ Some defined.now }
        requires sound { IsSound defined.now }
        ensures { IfOk result (λ t. t ≡ message_key stream.now local defined.now) }
    {
        let alloc = pen.alloc;
        let definition = &defined.definition;
        let global = definition.global;
        let kept = KeptMessage::new(alloc, stream, local, defined)?;
        let (line, front, label) = first_row(pen, local, global)?;
        let fields = definition.fields.as_slice();
        let devs = kept.devs.as_slice();
        let (frames, end) = frames_and_end(pen, global, fields, devs)?;
        Ok(Template {
            kept,
            line,
            front,
            label,
            frames,
            end,
        })
    }

    /// Whether it is that of the definition of this local message type after the records of a stream.
    pub(crate) fn is_of(&self, stream: &Stream, local: u8, defined: &Defined) -> bool
        requires place { defined_at (known stream.now) local ≡ Some defined.now }
        requires sound { IsSound defined.now }
        ensures { IsTrue result → self.now ≡ message_key stream.now local defined.now }
    {
        self.kept.is(stream, local, defined)
    }

    /// About how many bytes of memory it takes.
    pub(crate) fn memory(&self) -> usize {
        let frames = memory_of(self.frames.as_slice());
        let rows = frames.saturating_add(self.end.memory());
        rows.saturating_add(self.kept.memory())
    }

    /// How many rows each message has.
    #[inline(always)]
    pub(crate) fn row_count(&self) -> u64
        ensures { result ≡ 1 + length (frame_keys self.now) }
    {
        1 + self.frames.as_slice().len() as u64
    }

    /// Puts the row with which a message begins with a time offset or the time of its header. The sheet begins anew.
    #[inline(never)]
    fn put_timed(
        &self,
        text: &mut Vec<u8>,
        sheet: &mut Sheet,
        times: &mut Times,
        offset: Option<u8>,
        time: Option<u32>,
    ) -> Result<usize, AllocError>
        ensures place { IfOk result (λ end. end ≤ 1024) }
        ensures rows { IfOk result (λ end. and_sheet text.new.items sheet.new end
            ≡ text.old.items ++ csv_text (rows.row (codes "data") (decimal self.now.own.local)
            (words.optional_number offset) (message_label self.now.own.global)
            (unwrap_or (option_map instant_text time) []) [] [] ∷ [])) }
    {
        let before = self.front.add(text, sheet, 0)?;
        let numbered = write_optional(sheet, before, offset);
        let labelled = self.label.add(text, sheet, numbered)?;
        let timed = times.add_cell(text, sheet, labelled, time)?;
        Ok(write_text(sheet, timed, b",,\n"))
    }

    /// Puts the row with which a message begins, by the time of its header. The sheet begins anew.
    #[inline(always)]
    fn put_first(
        &self,
        text: &mut Vec<u8>,
        sheet: &mut Sheet,
        times: &mut Times,
        offset: Option<u8>,
        time: Option<u32>,
    ) -> Result<usize, AllocError>
        ensures place { IfOk result (λ end. end ≤ 1024) }
        ensures rows { IfOk result (λ end. and_sheet text.new.items sheet.new end
            ≡ text.old.items ++ csv_text (rows.row (codes "data") (decimal self.now.own.local)
            (words.optional_number offset) (message_label self.now.own.global)
            (unwrap_or (option_map instant_text time) []) [] [] ∷ [])) }
    {
        if offset.is_some() || time.is_some() {
            return self.put_timed(text, sheet, times, offset, time);
        }
        self.line.add(text, sheet, 0)
    }

    /// Puts the rows of a message, by the time of its header.
    #[inline(always)]
    pub(crate) fn put(
        &self,
        text: &mut Vec<u8>,
        tools: &mut RowTools,
        offset: Option<u8>,
        time: Option<u32>,
        items: &mut ItemBytes<'_>,
    ) -> Result<(), AllocError>
        requires { HasFields HasItems items.old (frame_shapes self.now) }
        ensures { OnOk result (TakesFields HasItems items.old items.new (frame_shapes self.now)
            (λ all. HasRows (key_rows self.now offset time all) text.old text.new)) }
    {
        let at = self.put_first(text, &mut tools.sheet, &mut tools.times, offset, time)?;
        let frames = self.frames.as_slice();
        let sheet = &mut tools.sheet;
        put_frames(text, sheet, at, &mut tools.pen, frames, &self.end, items)
    }
}
