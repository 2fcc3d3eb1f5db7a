//! The texts of strings by the bytes of their fields, and which of them need quotes in a row.
ghost use Rattle.std.specs.Prelude.{◌≡◌, ◌==◌, IfSome, None, false, nat_lt, not};
ghost use Rattle.std.specs.List.{list_all};
ghost use Rattle.csv.specs.Writing.{default_writer, needs_quotes};
ghost use Rattle.fit_profile.specs.Described.{before_closing_zeros};
ghost use Rattle.fit_cells.specs.Cells.{is_plain, string_text};

use crate::strings::begins_as_bytes;
use std::str;

/// For such a byte a cell needs quotes in a row: a comma, a quote, or one that ends a line.
const QUOTED: u8 = 1;

/// Such a byte is no ASCII character.
const HIGH: u8 = 2;

/// Zero.
const ZERO: u8 = 4;

/// The kind of each byte.
const KINDS: [u8; 256] = [
    4, 0, 0, 0, 0, 0, 0, 0, 0, 0, 1, 0, 0, 1, 0, 0, 0, 0, 0, 0, 0, 0, 0, 0, 0, 0, 0, 0, 0, 0, 0, 0,
    0, 0, 1, 0, 0, 0, 0, 0, 0, 0, 0, 0, 1, 0, 0, 0, 0, 0, 0, 0, 0, 0, 0, 0, 0, 0, 0, 0, 0, 0, 0, 0,
    0, 0, 0, 0, 0, 0, 0, 0, 0, 0, 0, 0, 0, 0, 0, 0, 0, 0, 0, 0, 0, 0, 0, 0, 0, 0, 0, 0, 0, 0, 0, 0,
    0, 0, 0, 0, 0, 0, 0, 0, 0, 0, 0, 0, 0, 0, 0, 0, 0, 0, 0, 0, 0, 0, 0, 0, 0, 0, 0, 0, 0, 0, 0, 0,
    2, 2, 2, 2, 2, 2, 2, 2, 2, 2, 2, 2, 2, 2, 2, 2, 2, 2, 2, 2, 2, 2, 2, 2, 2, 2, 2, 2, 2, 2, 2, 2,
    2, 2, 2, 2, 2, 2, 2, 2, 2, 2, 2, 2, 2, 2, 2, 2, 2, 2, 2, 2, 2, 2, 2, 2, 2, 2, 2, 2, 2, 2, 2, 2,
    2, 2, 2, 2, 2, 2, 2, 2, 2, 2, 2, 2, 2, 2, 2, 2, 2, 2, 2, 2, 2, 2, 2, 2, 2, 2, 2, 2, 2, 2, 2, 2,
    2, 2, 2, 2, 2, 2, 2, 2, 2, 2, 2, 2, 2, 2, 2, 2, 2, 2, 2, 2, 2, 2, 2, 2, 2, 2, 2, 2, 2, 2, 2, 2,
];

/// What is seen of a text by the kinds of its bytes.
#[derive(Clone, Copy)]
struct Kinds {
    needs_quotes: bool,
    is_ascii: bool,
    has_no_zero: bool,
}

/// The kinds of the bytes of a text.
fn kinds_of(text: &[u8]) -> Kinds
    ensures quotes { result.needs_quotes ≡ needs_quotes default_writer text.now }
    ensures ascii { result.is_ascii ≡ list_all (λ b. nat_lt b 128) text.now }
    ensures zero { result.has_no_zero ≡ list_all (λ b. not (b == 0)) text.now }
{
    let mut kinds = 0;
    for byte in text {
        kinds |= KINDS[*byte as usize];
    }
    Kinds {
        needs_quotes: kinds & QUOTED != 0,
        is_ascii: kinds & HIGH == 0,
        has_no_zero: kinds & ZERO == 0,
    }
}

/// Whether a cell needs quotes in a row.
pub(crate) fn needs_quotes(cell: &[u8]) -> bool
    ensures { result ≡ needs_quotes default_writer cell.now }
{
    kinds_of(cell).needs_quotes
}

/// Whether a text can stand as it is, by the kinds of its bytes.
fn is_plain_by(kinds: Kinds, text: &[u8]) -> bool
    requires ascii { kinds.is_ascii ≡ list_all (λ b. nat_lt b 128) text.now }
    requires zero { kinds.has_no_zero ≡ list_all (λ b. not (b == 0)) text.now }
    ensures { result ≡ is_plain text.now }
{
    if !kinds.has_no_zero || begins_as_bytes(text) {
        return false;
    }
    kinds.is_ascii || str::from_utf8(text).is_ok()
}

/// Whether a text can stand as it is.
pub(crate) fn is_plain(text: &[u8]) -> bool
    ensures { result ≡ is_plain text.now }
{
    is_plain_by(kinds_of(text), text)
}

/// The bytes before the closing zeros.
fn before_zeros(bytes: &[u8]) -> &[u8]
    ensures { result.now ≡ before_closing_zeros bytes.now }
{
    let mut rest = bytes;
    'zeros: while let [front @ .., 0] = rest {
        rest = front;
    }
    rest
}

/// The text of a string, and how it stands in a row.
#[derive(Clone, Copy)]
pub struct ShownText<'a> {
    pub text: &'a [u8],
    /// Whether it has a comma, a quote or a byte that ends a line.
    pub needs_quotes: bool,
}

/// The text of a string by the bytes of its field, where its cell shows it as text: UTF-8 without a zero before the closing zeros,
/// which doesn't begin as bytes do in a cell.
pub fn shown_text(bytes: &[u8]) -> Option<ShownText<'_>>
    ensures text { IfSome result (λ s. s.text.now ≡ string_text bytes.now) }
    ensures quotes { IfSome result (λ s.
        s.needs_quotes ≡ needs_quotes default_writer s.text.now) }
    ensures none { result ≡ None → is_plain (before_closing_zeros bytes.now) ≡ false }
{
    let text = before_zeros(bytes);
    let kinds = kinds_of(text);
    if !is_plain_by(kinds, text) {
        return None;
    }
    Some(ShownText {
        text,
        needs_quotes: kinds.needs_quotes,
    })
}
