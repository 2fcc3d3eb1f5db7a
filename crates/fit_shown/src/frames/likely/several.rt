//! Guesses the bytes of several numbers, and bytes, that a text shows. Nothing is claimed of a guess.
use crate::frames::likely::numbers::likely_number;
use crate::frames::likely::{digit_value, put_number};
use fit_base::Order;
use fit_cells::NumberForm;

/// Puts the bytes of the numbers of this form in a field of this size that a text may show after others, and returns what comes after
/// the last of them. A byte stands between one and the next.
#[inline(never)]
pub(crate) fn likely_numbers<'a>(
    bytes: &mut Vec<u8>,
    order: Order,
    form: &NumberForm,
    size: u8,
    text: &'a [u8],
) -> Option<&'a [u8]> {
    let count = size.checked_div(form.width)? as usize;
    let mut rest = text;
    for place in 0..count {
        if place > 0 {
            rest = rest.get(1..)?;
        }
        let (bits, length) = likely_number(form, rest)?;
        put_number(bytes, order, form.width, bits).ok()?;
        rest = rest.get(length..)?;
    }
    Some(rest)
}

/// The byte that two hexadecimal digits may write.
#[inline(always)]
fn likely_byte(digits: &[u8; 2]) -> u8 {
    let [first, second] = digits;
    let number = digit_value(*first)
        .wrapping_mul(16)
        .wrapping_add(digit_value(*second));
    (number & 0xFF) as u8
}

/// Puts the bytes of a field of this size that a text may show after others, and returns what comes after them.
#[inline(never)]
pub(crate) fn likely_bytes<'a>(bytes: &mut Vec<u8>, size: u8, text: &'a [u8]) -> Option<&'a [u8]> {
    let digits = text.get(b"0x".len()..)?;
    let (digits, rest) = digits.split_at_checked(2 * size as usize)?;
    let (pairs, _) = digits.as_chunks::<2>();
    for pair in pairs {
        bytes.push(likely_byte(pair)).ok()?;
    }
    Some(rest)
}
