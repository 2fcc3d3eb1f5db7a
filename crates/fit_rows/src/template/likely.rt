//! Guesses the bytes of the data message whose rows a text shows.
use crate::likely::after;
use crate::template::Template;
use fit_base::Order;
use std::alloc::Global;

/// The number of at most three digits with which a text may begin, where it does with a digit.
pub(crate) fn likely_short_number(text: &[u8]) -> Option<u8> {
    let mut number = None;
    for (place, byte) in text.iter().enumerate() {
        let digit = byte.wrapping_sub(b'0');
        if digit >= 10 || place >= 3 {
            return number;
        }
        number = Some(number.unwrap_or(0u8).wrapping_mul(10).wrapping_add(digit));
    }
    number
}

/// The record header that a data message of this local message type and time offset may have.
fn likely_header(local: u8, offset: Option<u8>) -> u8 {
    match offset {
        Some(offset) => local.wrapping_mul(32).wrapping_add(offset) | 0x80,
        None => local,
    }
}

impl Template {
    /// Puts the bytes of the message whose rows a text may show after others, and returns what comes after its last value. `written` and
    /// `cell` lend their memory; their texts are lost.
    pub(crate) fn likely<'a>(
        &self,
        alloc: Global,
        written: &mut Vec<u8>,
        cell: &mut Vec<u8>,
        order: Order,
        bytes: &mut Vec<u8>,
        text: &'a [u8],
    ) -> Option<&'a [u8]> {
        let after_front = text.get(self.front.len()..)?;
        let offset = likely_short_number(after_front);
        let mut rest = match offset {
            Some(_) => after(after_front, b'\n')?,
            None => text.get(self.line.len()..)?,
        };
        bytes.push(likely_header(self.kept.local(), offset)).ok()?;
        for frame in self.frames.as_slice() {
            rest = frame.likely(alloc, written, cell, order, bytes, rest)?;
        }
        Some(rest)
    }
}
