//! Labels of messages and fields: their names, or numbers where they have none.
ghost use Rattle.std.specs.Prelude.{◌≡◌, ◌≤◌, ◌+◌, ◌++◌, length, codes, decimal};
ghost use Rattle.fit_names.specs.Names as names;

use crate::profile::{field_info, message_name};
use fit_numbers::Label;
use itoa::Buffer;

/// A name as a label.
fn label_of(name: &str) -> Label
    requires { length name.now ≤ 32 }
    ensures { result.bytes ≡ name.now }
{
    let mut label = Label::new();
    label.push_str(name);
    label
}

/// A word with a number after it.
fn numbered(word: &str, number: u16) -> Label
    requires { length word.now ≤ 8 }
    ensures { result.bytes ≡ word.now ++ decimal number }
{
    let mut label = Label::new();
    label.push_str(word);
    label.push_str(Buffer::new().format(number));
    label
}

/// The name of a message, or `message_` and its global message number.
pub fn message_label(global: u16) -> Label
    ensures { result.bytes ≡ names.message_label global }
{
    match message_name(global) {
        Some(name) => label_of(name),
        None => numbered("message_", global),
    }
}

/// The name of a field, or `field_` and its number.
pub fn field_label(global: u16, number: u8) -> Label
    ensures { result.bytes ≡ names.field_label global number }
{
    match field_info(global, number) {
        Some(info) => label_of(info.name),
        None => numbered("field_", u16::from(number)),
    }
}
