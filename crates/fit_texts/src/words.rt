//! What rows, lines and texts share: the words for values, and what is there where a value is absent.
ghost use Rattle.std.specs.Prelude.{◌≡◌, ◌++◌, [], OnOk, codes, decimal, false, option_map, unwrap_or};
ghost use Rattle.csv.specs.Writing.{default_writer, needs_quotes};
ghost use Rattle.fit_record.specs.Environment.{dev_defs};
ghost use Rattle.fit_profile.specs.Names as names;
ghost use Rattle.fit_profile.specs.Times as times;
ghost use Rattle.fit_texts.specs.Words as words;
ghost use Rattle.fit_texts.specs.InstantText.{instant_text};

use fit_base::{Entries, Order};
use fit_cells::put_digits;
use fit_frame::HeaderSum;
use fit_numbers::laws::instant_has_one_text;
use fit_profile::{Info, Label, Stream, utc_text};
use fit_record::DevDef;
use itoa::Buffer;
use std::alloc::AllocError;

/// A number as a cell, which is empty where there is none.
pub fn optional_number<'a>(digits: &'a mut Buffer, number: Option<u8>) -> &'a [u8]
    ensures { result.now ≡ words.optional_number number }
{
    match number {
        Some(number) => digits.format(number).as_bytes(),
        None => &[],
    }
}

/// The word for what the two bytes after the fixed part of a header hold.
pub fn sum_word(sum: HeaderSum) -> &'static str
    ensures { result.now ≡ words.sum_word sum }
{
    match sum {
        HeaderSum::Absent => "none",
        HeaderSum::Zero => "zero",
        HeaderSum::True => "sum",
    }
}

/// Makes a cell of the bytes of a header from place 14 on, in place of what `value` held. `AllocError` where memory was refused.
pub fn put_rest(value: &mut Vec<u8>, rest: &[u8]) -> Result<(), AllocError>
    ensures { OnOk result (value.new.items ≡ words.rest_text rest.now) }
{
    value.clear();
    if rest.is_empty() {
        return Ok(());
    }
    value.extend_from_slice(b"0x")?;
    for byte in rest {
        put_digits(value, 2, *byte as u64)?;
    }
    Ok(())
}

/// The word for a byte order.
pub fn order_word(order: Order) -> &'static str
    ensures { result.now ≡ words.order_word order }
{
    match order {
        Order::Little => "little",
        Order::Big => "big",
    }
}

/// The developer fields of a definition, none where it has no such part.
pub fn dev_slice(dev: &Option<Entries<DevDef>>) -> &[DevDef]
    ensures { result.now ≡ dev_defs dev.now }
{
    match dev {
        Some(fields) => fields.as_slice(),
        None => &[],
    }
}

/// The text of an instant.
fn instant_text(time: u32) -> Label
    ensures text { result.bytes ≡ instant_text time }
    ensures plain { needs_quotes default_writer result.bytes ≡ false }
{
    instant_has_one_text();
    utc_text(time)
}

/// The text of an instant, where there is one.
pub fn time_text(time: Option<u32>) -> Label
    ensures text { result.bytes ≡ unwrap_or (option_map instant_text time) [] }
    ensures plain { needs_quotes default_writer result.bytes ≡ false }
{
    match time {
        Some(time) => instant_text(time),
        None => Label::new(),
    }
}

/// The time of the header of the next message with this offset, or without one.
pub fn header_time(stream: &Stream, offset: Option<u8>) -> Option<u32>
    ensures { result ≡ times.header_time (times.previous_time stream.now) offset }
{
    match offset {
        Some(offset) => stream.header_time(offset),
        None => None,
    }
}

/// The text of the time in the header of the next message with this offset, or without one. It is empty where the header has no time.
pub fn header_time_text(stream: &Stream, offset: Option<u8>) -> Label
    ensures { result.bytes ≡ unwrap_or (option_map instant_text
        (times.header_time (times.previous_time stream.now) offset)) [] }
{
    time_text(header_time(stream, offset))
}

/// The unit of a field, where the profile says it.
pub fn unit_text(info: Option<Info>) -> &'static str
    ensures { result.now ≡ words.unit_text (option_map names.meaning info) }
{
    match info {
        Some(info) => info.unit,
        None => "",
    }
}

/// The label of a developer field without a name: its developer data index and its number.
pub fn numbered_label(field: &DevDef) -> Label
    ensures { result.bytes ≡ codes "dev_" ++ decimal field.now.index ++ codes "_"
        ++ decimal field.now.number }
{
    let mut label = Label::new();
    label.push_str("dev_");
    label.push_str(Buffer::new().format(field.index));
    label.push_str("_");
    label.push_str(Buffer::new().format(field.number));
    label
}
