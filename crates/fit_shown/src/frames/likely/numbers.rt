//! Guesses the numbers that a text shows, up to eight digits at a time. Nothing is claimed of a guess.
use fit_cells::NumberForm;

/// What the first eight bytes of a text stand for as digits, the first in the lowest byte. A shorter text has none.
#[inline(always)]
fn first_word(text: &[u8]) -> Option<u64> {
    let (front, _) = text.split_first_chunk::<8>()?;
    Some(u64::from_le_bytes(*front) ^ 0x3030_3030_3030_3030)
}

/// How many bits of a word are before the first byte that is no digit.
#[inline(always)]
fn digit_bits(word: u64) -> u32 {
    // the highest bit of each byte that is no digit, unless one before it is none
    let others = (word.wrapping_add(0x7676_7676_7676_7676) | word) & 0x8080_8080_8080_8080;
    others.trailing_zeros() & 0x78
}

/// The number that the digits in the lowest bits of a word write, that many bits: neighbours are added up, then pairs, then fours.
#[inline(always)]
fn number_in(word: u64, bits: u32) -> u64 {
    let digits = word.wrapping_shl(64u32.wrapping_sub(bits));
    let pairs = digits.wrapping_mul(10).wrapping_add(digits >> 8) & 0xFF_00FF_00FF_00FF;
    let fours = (pairs.wrapping_mul(0x64_0001) >> 16) & 0xFFFF_0000_FFFF;
    fours.wrapping_mul(0x2710_0000_0001) >> 32
}

/// What a byte stands for as a digit, and 10 or more where it is none.
#[inline(always)]
fn digit_of(byte: u8) -> u64 {
    u64::from(byte.wrapping_sub(b'0'))
}

/// The whole number of at most ten digits with which a text begins, by what its first eight digits write, and how many digits it has.
#[inline(always)]
fn after_eight(number: u64, text: &[u8]) -> Option<(u64, usize)> {
    let [_, _, _, _, _, _, _, _, ninth, tenth, ..] = text else {
        return None;
    };
    let (ninth, tenth) = (digit_of(*ninth), digit_of(*tenth));
    if ninth >= 10 {
        return Some((number, 8));
    }
    let number = number.wrapping_mul(10).wrapping_add(ninth);
    if tenth >= 10 {
        return Some((number, 9));
    }
    Some((number.wrapping_mul(10).wrapping_add(tenth), 10))
}

/// How many bytes a number with a point has at most.
const LONGEST: usize = 24;

/// The number that a text begins with, without its point, and how many bytes that takes: digit by digit.
#[inline(never)]
fn likely_long(text: &[u8]) -> Option<(u64, usize)> {
    let mut number = 0u64;
    for (place, byte) in text.get(..LONGEST)?.iter().enumerate() {
        let digit = digit_of(*byte);
        if digit < 10 {
            number = number.wrapping_mul(10).wrapping_add(digit);
        } else if *byte != b'.' {
            return Some((number, place));
        }
    }
    None
}

/// The number of this form that a text writes without its point, and how many bytes that takes, by the first eight bytes and how many
/// bits of them are digits before the point. Every decimal of the form is written.
#[inline(always)]
fn likely_decimal(form: &NumberForm, word: u64, bits: u32, text: &[u8]) -> Option<(u64, usize)> {
    if form.decimals == 0 {
        let number = number_in(word, bits);
        if bits == 64 {
            return after_eight(number, text);
        }
        return Some((number, (bits / 8) as usize));
    }
    let end = bits.wrapping_add(8 * u32::from(form.decimals));
    if end > 56 {
        return likely_long(text);
    }
    let decimals = u64::MAX.wrapping_shl(bits);
    let digits = (word & !decimals) | (word >> 8 & decimals);
    Some((number_in(digits, end), (end / 8) as usize + 1))
}

/// A number in units of the last decimal, over the factor of its form.
#[inline(always)]
fn over_factor(number: u64, factor: u32) -> u64 {
    if factor < 2 {
        return number;
    }
    match factor {
        2 => number / 2,
        625 => number / 625,
        390_625 => number / 390_625,
        _ => number,
    }
}

/// The bits that the number below zero may have with which a text begins, after its sign, and how many bytes that takes.
#[inline(never)]
fn likely_negative(form: &NumberForm, text: &[u8]) -> Option<(u64, usize)> {
    let word = first_word(text)?;
    let (number, length) = likely_decimal(form, word, digit_bits(word), text)?;
    let raw = form.shift.wrapping_sub(over_factor(number, form.factor));
    Some((raw, length.wrapping_add(1)))
}

/// The bits that the number of this form with which a text may begin has in its lowest bytes, and how many bytes that takes.
#[inline(always)]
pub(crate) fn likely_number(form: &NumberForm, text: &[u8]) -> Option<(u64, usize)> {
    let word = first_word(text)?;
    let bits = digit_bits(word);
    if bits == 0 {
        return match text {
            [b'-', rest @ ..] => likely_negative(form, rest),
            _ => Some((form.invalid, 0)),
        };
    }
    let (number, length) = likely_decimal(form, word, bits, text)?;
    let raw = form.shift.wrapping_add(over_factor(number, form.factor));
    Some((raw, length))
}
