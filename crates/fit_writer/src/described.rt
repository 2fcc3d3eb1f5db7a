//! What a definition message that came now would say of its developer fields.
ghost use Rattle.std.specs.Prelude.{◌≡◌, ◌≤◌, true, false, length, map};
ghost use Rattle.std.specs.List.{list_all};
ghost use Rattle.fit_record.specs.Environment.{dev_defs};
ghost use Rattle.fit_from_messages.specs.Parts.{entries_of, entry_stands};
ghost use Rattle.fit_writer.specs.Reading.{entry_naming};
ghost use Rattle.fit_writer.specs.Written.{AreDescribed, IsDescribed, WouldSaySame};
ghost use Rattle.fit_writer.specs.inner.Places.{IsLone, form_of};

use crate::names::are_texts;
use crate::places::devs;
use fit_from_messages::{LoneDefinition, split_entry};
use fit_profile::Stream;
use fit_record::DevDef;

/// Whether a developer field that is defined now gets the base type, the name and the unit that its code and its entry say.
pub(crate) fn is_described(stream: &Stream, field: DevDef, code: u8, entry: &[u8]) -> bool
    requires { 32 ≤ length entry.now }
    ensures yes { result ≡ true
        → IsDescribed stream.now field code (entry_naming entry.now) }
    ensures no { result ≡ false
        → IsDescribed stream.now field code (entry_naming entry.now) → ⊥ }
{
    if stream.env().code_of(field) != code {
        return false;
    }
    let (name, unit) = stream.described(field);
    are_texts(name, unit, entry)
}

/// Whether developer fields that are defined now get the base types, names and units that their codes and entries say.
fn are_described(stream: &Stream, fields: &[DevDef], codes: &[u8], entries: &[u8]) -> bool
    requires stand { list_all (entry_stands 1) (entries_of (length fields.now) entries.now)
        ≡ true }
    requires many { length codes.now ≡ length fields.now }
    ensures yes { result ≡ true → AreDescribed stream.now fields.now codes.now
        (map entry_naming (entries_of (length fields.now) entries.now)) }
    ensures no { result ≡ false → AreDescribed stream.now fields.now codes.now
        (map entry_naming (entries_of (length fields.now) entries.now)) → ⊥ }
{
    let mut rest = entries;
    for place in 0..fields.len() {
        let (entry, after) = split_entry(rest);
        if !is_described(stream, fields[place], codes[place], entry) {
            return false;
        }
        rest = after;
    }
    true
}

/// Whether a definition message that came now would be read as this one.
pub(crate) fn would_say_same(stream: &Stream, lone: &LoneDefinition<'_>) -> bool
    requires { IsLone lone.now }
    ensures yes { result ≡ true → WouldSaySame stream.now (form_of lone.now) }
    ensures no { result ≡ false → WouldSaySame stream.now (form_of lone.now) → ⊥ }
{
    are_described(
        stream,
        devs(&lone.definition),
        lone.codes.as_slice(),
        lone.dev,
    )
}
