//! Texts of field description messages.
ghost use Rattle.std.specs.Prelude.{◌≡◌, ◌≤◌, IfOk, option_map, take, length, Some, None, if◌then◌else◌};
ghost use Rattle.std.specs.String.{string_bytes};
ghost use Rattle.std.specs.List.{list_all};
ghost use Rattle.fit_record.specs.MessageBytes.{message_in};
ghost use Rattle.fit_record.specs.Records.{message_size};
ghost use Rattle.fit_profile.specs.Described.{before_closing_zeros, is_printable, printable_text, text_field};

use crate::look::{first_in, first_of};
use fit_base::base_type::STRING;
use fit_record::{MessageBytes, MessageDef, Values, read_items};
use std::alloc::{AllocError, Allocator, Global};
use std::str;

/// How many bytes of a string's field there are before its closing zeros.
pub fn text_len(bytes: &[u64]) -> usize
    ensures before { take result bytes.now ≡ before_closing_zeros bytes.now }
    ensures within { result ≤ length bytes.now }
{
    let mut len = 0;
    for (place, byte) in bytes.iter().enumerate() {
        if *byte != 0 {
            len = place + 1;
        }
    }
    len
}

/// Whether this is a byte that is neither a control character nor delete.
fn is_printable(byte: u64) -> bool
    ensures { result ≡ is_printable byte }
{
    byte < 0x100 && byte >= 0x20 && byte != 0x7F
}

/// Numbers as bytes, where all of them are printable.
fn printable_bytes<A: Allocator>(
    alloc: A,
    numbers: &[u64],
) -> Result<Option<Vec<u8, A>>, AllocError>
    ensures { IfOk result (λ bytes. option_map (λ b. b.items) bytes
        ≡ (if list_all is_printable numbers.now then Some numbers.now else None)) }
{
    let mut bytes = Vec::with_capacity(alloc, numbers.len())?;
    for number in numbers {
        if !is_printable(*number) {
            return Ok(None);
        }
        bytes.push(*number as u8)?;
    }
    Ok(Some(bytes))
}

/// Numbers as the bytes of a text, where they aren't empty and are UTF-8 without control characters.
fn text_of<A: Allocator + Copy>(alloc: A, numbers: &[u64]) -> Result<Option<String<A>>, AllocError>
    ensures { IfOk result (λ text. option_map string_bytes text ≡ printable_text numbers.now) }
{
    if numbers.is_empty() {
        return Ok(None);
    }
    let Some(bytes) = printable_bytes(alloc, numbers)? else {
        return Ok(None);
    };
    match str::from_utf8(bytes.as_slice()) {
        Ok(text) => {
            let text = String::from_str(alloc, text)?;
            Ok(Some(text))
        }
        Err(_) => Ok(None),
    }
}

/// The text of the first field of this number, where it is a string.
pub(crate) fn text_field<A: Allocator + Copy>(
    alloc: A,
    definition: &MessageDef<A>,
    values: &Values<A>,
    number: u8,
) -> Result<Option<String<A>>, AllocError>
    ensures { IfOk result (λ text. option_map string_bytes text
        ≡ text_field definition.now values.now number) }
{
    let Some((field, items)) = first_of(
        definition.fields.as_slice(),
        values.fields.as_slice(),
        number,
    ) else {
        return Ok(None);
    };
    if field.code != STRING {
        return Ok(None);
    }
    let bytes = items.bits.as_slice();
    text_of(alloc, &bytes[..text_len(bytes)])
}

/// The same of a message in its bytes.
pub(crate) fn text_in(
    alloc: Global,
    message: &MessageBytes<'_>,
    number: u8,
) -> Result<Option<String>, AllocError>
    requires { length message.now.body.now ≡ message_size message.now.defined.now }
    ensures { IfOk result (λ text. option_map string_bytes text
        ≡ text_field message.now.defined.now.definition (message_in message.now) number) }
{
    let definition = &message.defined.definition;
    let Some((field, bytes)) = first_in(definition.fields.as_slice(), message.body, number) else {
        return Ok(None);
    };
    if field.code != STRING {
        return Ok(None);
    }
    let items = read_items(alloc, definition.order, field.code, field.size, bytes)?;
    let bytes = items.bits.as_slice();
    text_of(alloc, &bytes[..text_len(bytes)])
}
