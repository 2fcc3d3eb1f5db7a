//! Guesses the bytes of the value that a text shows. Nothing is claimed of a guess: who takes it compares the text with the rows of the
//! guess.
ghost use Rattle.std.specs.Prelude.{◌≤◌, ◌+◌, IfSome, OnOk, length};

mod numbers;
mod several;

use crate::form::FieldKind;
use crate::frames::Frame;
use crate::frames::likely::numbers::likely_number;
use crate::frames::likely::several::{likely_bytes, likely_numbers};
use fit_base::Order;
use fit_texts::cells::items_in;
use std::alloc::{AllocError, Global};

/// What a hexadecimal digit stands for, and any other byte for some number.
fn digit_value(digit: u8) -> u64 {
    let letters = u64::from(digit >> 6);
    u64::from(digit & 15).wrapping_add(letters.wrapping_mul(9))
}

/// The number that the digits after `0x` may write with which a text begins.
fn likely_hexadecimal(digits: &[u8]) -> u64 {
    let mut number = 0u64;
    for digit in digits {
        number = number.wrapping_mul(16).wrapping_add(digit_value(*digit));
    }
    number
}

/// Puts the lowest bytes of a number after others, that many, of at most eight: by a copy of eight bytes, of which those after them are
/// cut off.
#[inline(always)]
fn put_number(bytes: &mut Vec<u8>, order: Order, width: u8, bits: u64) -> Result<(), AllocError>
    ensures { OnOk result (length bytes.new.items ≤ length bytes.old.items + width) }
{
    let end = bytes.len().wrapping_add(width as usize);
    let word = match order {
        Order::Little => bits,
        Order::Big => {
            let others = 64u32.wrapping_sub(8 * u32::from(width));
            bits.wrapping_shl(others).swap_bytes()
        }
    };
    bytes.extend_from_slice(&word.to_le_bytes())?;
    bytes.truncate(end);
    Ok(())
}

/// How many bytes of a text are looked at for one cell. The values of a field have at most 255 bytes, and their cell is shorter than this.
const LONGEST: usize = 8192;

/// The beginning of a text that is looked at for one cell.
fn front_of(text: &[u8]) -> &[u8]
    ensures { length result.now ≤ LONGEST }
{
    match text.get(..LONGEST) {
        Some(front) => front,
        None => text,
    }
}

/// Puts what stands in quotes into `cell`, by a text after the first quote, and returns what comes after the last one.
fn take_quoted<'a>(cell: &mut Vec<u8>, text: &'a [u8]) -> Option<&'a [u8]> {
    let mut rest = text;
    for _ in 0..text.len() {
        let place = rest.iter().position(|b| *b == b'"')?;
        cell.extend_from_slice(rest.get(..place)?).ok()?;
        rest = rest.get(place + 1..)?;
        let [b'"', doubled @ ..] = rest else {
            return Some(rest);
        };
        cell.push(b'"').ok()?;
        rest = doubled;
    }
    None
}

/// Puts the cell with which a text may begin into `cell`, without its quotes, and returns what comes after it.
fn take_cell<'a>(cell: &mut Vec<u8>, text: &'a [u8]) -> Option<&'a [u8]>
    requires { length text.now ≤ LONGEST }
{
    cell.clear();
    if let [b'"', quoted @ ..] = text {
        return take_quoted(cell, quoted);
    }
    let length = text.iter().position(|b| *b == b',')?;
    cell.extend_from_slice(text.get(..length)?).ok()?;
    text.get(length..)
}

/// Puts the bytes of a string of this size that may have this text after others.
fn put_string(bytes: &mut Vec<u8>, size: u8, text: &[u8]) -> Option<()> {
    let size = size as usize;
    if text.len() > size {
        return None;
    }
    let end = bytes.len().wrapping_add(size);
    bytes.extend_from_slice(text).ok()?;
    bytes.resize(end, 0).ok()
}

/// Puts the bytes of the floating point number of this size that a text may show after others, and returns what comes after it.
fn likely_float<'a>(
    bytes: &mut Vec<u8>,
    order: Order,
    size: u8,
    text: &'a [u8],
) -> Option<&'a [u8]> {
    let length = 2 + 2 * size as usize;
    let bits = likely_hexadecimal(text.get(2..length)?);
    put_number(bytes, order, size, bits).ok()?;
    text.get(length..)
}

impl Frame {
    /// Puts the bytes of the value whose cell this may be after others.
    fn likely_in(
        &self,
        alloc: Global,
        written: &mut Vec<u8>,
        cell: &[u8],
        order: Order,
        bytes: &mut Vec<u8>,
    ) -> Option<()> {
        let form = &self.form;
        match (form.kind, cell) {
            (_, [b'0', b'x', ..]) => {}
            (FieldKind::Text, _) => return put_string(bytes, form.size, cell),
            _ => {}
        }
        let found = items_in(alloc, written, cell, form.code, form.size, form.info).ok()?;
        let items = found?;
        for bits in items.bits.as_slice() {
            put_number(bytes, order, items.width, *bits).ok()?;
        }
        Some(())
    }

    /// Puts the bytes of the value whose cell a text may begin with after others, and returns what comes after it.
    fn likely_cell<'a>(
        &self,
        alloc: Global,
        written: &mut Vec<u8>,
        cell: &mut Vec<u8>,
        order: Order,
        bytes: &mut Vec<u8>,
        text: &'a [u8],
    ) -> Option<&'a [u8]> {
        let front = front_of(text);
        let rest = take_cell(cell, front)?;
        let length = front.len().wrapping_sub(rest.len());
        self.likely_in(alloc, written, cell.as_slice(), order, bytes)?;
        text.get(length..)
    }

    /// Puts the bytes of the value that a text may show after others, as many as its field has at most, and returns what comes after its
    /// cell, where the value isn't a lone number of at most four bytes.
    #[inline(never)]
    fn likely_rest<'a>(
        &self,
        alloc: Global,
        written: &mut Vec<u8>,
        cell: &mut Vec<u8>,
        order: Order,
        bytes: &mut Vec<u8>,
        text: &'a [u8],
    ) -> Option<&'a [u8]>
        ensures { IfSome result
            (λ left. length bytes.new.items ≤ length bytes.old.items + self.now.size) }
    {
        let start = bytes.len();
        let size = self.form.size;
        let end = start.wrapping_add(size as usize);
        let found = match (self.form.several(), self.form.kind) {
            (Some(form), _) => likely_numbers(bytes, order, &form, size, text),
            (_, FieldKind::Float) => likely_float(bytes, order, size, text),
            (_, FieldKind::Bytes) => likely_bytes(bytes, size, text),
            _ => None,
        };
        if found.is_some() {
            bytes.truncate(end);
            return found;
        }
        bytes.truncate(start);
        let left = self.likely_cell(alloc, written, cell, order, bytes, text)?;
        bytes.truncate(end);
        Some(left)
    }

    /// Puts the bytes of the value that a text may show after what stands before it after others, as many as its field has at most, and
    /// returns what comes after its cell. It looks at 8,192 bytes for a cell, since no cell is as long.
    /// `written` and `cell` lend their memory; their texts are lost.
    pub fn likely<'a>(
        &self,
        alloc: Global,
        written: &mut Vec<u8>,
        cell: &mut Vec<u8>,
        order: Order,
        bytes: &mut Vec<u8>,
        text: &'a [u8],
    ) -> Option<&'a [u8]>
        ensures few { IfSome result
            (λ left. length bytes.new.items ≤ length bytes.old.items + self.now.size) }
    {
        let text = text.get(self.between.len()..)?;
        if let Some(form) = self.form.lone_number() {
            let (bits, length) = likely_number(form, text)?;
            put_number(bytes, order, self.form.size, bits).ok()?;
            return text.get(length..);
        }
        self.likely_rest(alloc, written, cell, order, bytes, text)
    }
}
