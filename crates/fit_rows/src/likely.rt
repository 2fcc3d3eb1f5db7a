//! Guesses the record whose rows a text shows. Nothing is claimed of a guess: who takes it compares the text with the rows of the guess.
ghost use Rattle.std.specs.Prelude.{◌≤◌, ◌+◌, IfSome, length};

use fit_base::{Entries, Order};
use fit_record::{DevDef, FieldDef, MessageDef};
use std::alloc::Global;

/// How many bytes of a text are looked at for what ends a word or the first row of a message. No such is as long.
const FRONT: usize = 64;

/// What comes after the first byte of this kind in a text, where it is one of the first 64 bytes.
pub(crate) fn after(text: &[u8], byte: u8) -> Option<&[u8]>
    ensures { IfSome result (λ left. length text.now ≤ length left.now + FRONT) }
{
    let front = match text.get(..FRONT) {
        Some(front) => front,
        None => text,
    };
    let place = front.iter().position(|b| *b == byte)?;
    text.get(place + 1..)
}

/// How many digits a number of the rows of a definition has at most.
const MOST_DIGITS: usize = 5;

/// The number with which a text may begin, and what comes after it and the byte after it.
#[inline(always)]
fn take_number(text: &[u8]) -> Option<(u16, &[u8])> {
    let mut number = 0u16;
    for (place, byte) in text.iter().enumerate() {
        let digit = byte.wrapping_sub(b'0');
        if digit >= 10 {
            return Some((number, text.get(place + 1..)?));
        }
        if place >= MOST_DIGITS {
            return None;
        }
        number = number.wrapping_mul(10).wrapping_add(u16::from(digit));
    }
    None
}

/// A number of one byte with which a text may begin, and what comes after the byte that ends it.
#[inline(always)]
fn take_byte(text: &[u8]) -> Option<(u8, &[u8])> {
    let (number, rest) = take_number(text)?;
    Some(((number & 0xFF) as u8, rest))
}

/// The three numbers of the row of a field with which a text may begin, and what comes after the row.
fn take_row(text: &[u8]) -> Option<(u8, u8, u8, &[u8])> {
    let (number, rest) = take_byte(text.get(b"fdef,".len()..)?)?;
    let (size, rest) = take_byte(rest)?;
    let (last, rest) = take_byte(rest)?;
    Some((number, size, last, rest.get(b",,\n".len()..)?))
}

/// That many fields whose rows a text may show, and what comes after these.
fn likely_fields(alloc: Global, count: u8, text: &[u8]) -> Option<(Entries<FieldDef>, &[u8])> {
    let mut fields = Entries::with_capacity(alloc, count as usize).ok()?;
    let mut rest = text;
    for _ in 0..count {
        let (number, size, code, left) = take_row(rest)?;
        fields.push(FieldDef { number, size, code }).ok()?;
        rest = left;
    }
    Some((fields, rest))
}

/// That many developer fields whose rows a text may show.
fn likely_dev(alloc: Global, count: u8, text: &[u8]) -> Option<Entries<DevDef>> {
    let mut fields = Entries::with_capacity(alloc, count as usize).ok()?;
    let mut rest = text;
    for _ in 0..count {
        let (number, size, index, left) = take_row(rest)?;
        fields
            .push(DevDef {
                number,
                size,
                index,
            })
            .ok()?;
        rest = left;
    }
    Some(fields)
}

/// The byte order whose word a text may begin with.
fn likely_order(text: &[u8]) -> Order {
    match text {
        [b'b', ..] => Order::Big,
        _ => Order::Little,
    }
}

/// The definition message whose rows a text may show.
pub(crate) fn likely_definition(alloc: Global, text: &[u8]) -> Option<MessageDef> {
    let (local, rest) = take_byte(text.strip_prefix(b"def,")?)?;
    let (reserved, rest) = take_byte(rest)?;
    let order = likely_order(rest);
    let (global, rest) = take_number(after(rest, b',')?)?;
    let (count, dev) = take_byte(rest)?;
    let (dev_count, rest) = take_byte(dev)?;
    let (fields, rest) = likely_fields(alloc, count, rest)?;
    let dev = match dev {
        [b'\n', ..] => None,
        _ => Some(likely_dev(alloc, dev_count, rest)?),
    };
    Some(MessageDef {
        local,
        reserved,
        order,
        global,
        fields,
        dev,
    })
}
