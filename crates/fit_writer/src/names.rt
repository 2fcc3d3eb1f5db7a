//! Names and units of developer fields, as the block of a definition says them and as they are in a file.
ghost use Rattle.std.specs.Prelude.{◌≡◌, ◌≤◌, true, false, drop, length, map, option_map, slice_get, take};
ghost use Rattle.std.specs.List.{list_all};
ghost use Rattle.fit_profile.specs.Described.{namings_at};
ghost use Rattle.fit_from_messages.specs.Parts as parts;
ghost use Rattle.fit_from_messages.specs.Parts.{entries_of, entry_stands, number_read};
ghost use Rattle.fit_writer.specs.Reading.{entry_naming, text_in};
ghost use Rattle.fit_writer.specs.inner.Forms.{AreTexts, HasNaming, some_text};

use fit_from_messages::{short_at, split_entry, text_length};
use fit_profile::Stream;

/// The bytes of an entry from a place on.
fn from_place(place: usize, entry: &[u8]) -> &[u8]
    ensures { result.now ≡ drop place entry.now }
{
    if place > entry.len() {
        return &[];
    }
    let (_, rest) = entry.split_at(place);
    rest
}

/// The text that begins at a place of an entry, of no bytes where there is none.
fn text_at(place: usize, entry: &[u8]) -> &[u8]
    ensures { some_text result.now ≡ text_in place entry.now }
{
    let rest = from_place(place, entry);
    let (text, _) = rest.split_at(text_length(rest));
    text
}

/// The name and the unit that an entry says, of no bytes where there is none.
pub(crate) fn entry_texts(entry: &[u8]) -> (&[u8], &[u8])
    requires { 32 ≤ length entry.now }
    ensures name { some_text result.0.now ≡ (entry_naming entry.now).name }
    ensures unit { some_text result.1.now ≡ (entry_naming entry.now).unit }
{
    (
        text_at(32, entry),
        text_at(short_at(2, entry) as usize, entry),
    )
}

/// Whether a known text is the one that begins at a place of an entry, where one of no bytes is none.
fn is_text(known: Option<&str>, place: usize, entry: &[u8]) -> bool
    ensures yes { result ≡ true → option_map (λ s. s.now) known.entry ≡ text_in place entry.now }
    ensures no { result ≡ false → option_map (λ s. s.now) known.entry ≡ text_in place entry.now
        → ⊥ }
{
    let rest = from_place(place, entry);
    let (text, _) = rest.split_at(text_length(rest));
    match known {
        None => text.is_empty(),
        Some(known) => !text.is_empty() && known.as_bytes() == text,
    }
}

/// Whether a name and a unit are those that an entry says.
pub(crate) fn are_texts(name: Option<&str>, unit: Option<&str>, entry: &[u8]) -> bool
    requires { 32 ≤ length entry.now }
    ensures yes { result ≡ true → AreTexts (option_map (λ s. s.now) name.entry)
        (option_map (λ s. s.now) unit.entry) (entry_naming entry.now) }
    ensures no { result ≡ false → AreTexts (option_map (λ s. s.now) name.entry)
        (option_map (λ s. s.now) unit.entry) (entry_naming entry.now) → ⊥ }
{
    is_text(name, 32, entry) && is_text(unit, short_at(2, entry) as usize, entry)
}

/// Whether a developer field of a local message type has the name and the unit that an entry says.
fn is_named(stream: &Stream, local: u8, place: u8, entry: &[u8]) -> bool
    requires { 32 ≤ length entry.now }
    ensures yes { result ≡ true → HasNaming (namings_at stream.now local) place
        (entry_naming entry.now) }
    ensures no { result ≡ false → HasNaming (namings_at stream.now local) place
        (entry_naming entry.now) → ⊥ }
{
    let (name, unit) = stream.dev_texts(local, place);
    are_texts(name, unit, entry)
}

/// Whether the developer fields of a local message type have the names and units that entries say, that many.
pub(crate) fn are_named(stream: &Stream, local: u8, count: u8, entries: &[u8]) -> bool
    requires stand { list_all (entry_stands 1) (entries_of count entries.now) ≡ true }
    requires many { length (namings_at stream.now local) ≡ count }
    ensures yes { result ≡ true
        → namings_at stream.now local ≡ map entry_naming (entries_of count entries.now) }
    ensures no { result ≡ false
        → namings_at stream.now local ≡ map entry_naming (entries_of count entries.now) → ⊥ }
{
    let mut rest = entries;
    for place in 0..count {
        let (entry, after) = split_entry(rest);
        if !is_named(stream, local, place, entry) {
            return false;
        }
        rest = after;
    }
    true
}
