//! The entries of a definition's block.
ghost use Rattle.std.specs.Prelude.{◌≡◌, ◌<◌, ◌≤◌, IfSome, IsNone, drop, false, length, take, true};
ghost use Rattle.std.specs.List.{list_all};
ghost use Rattle.fit_from_messages.specs.Parts as parts;
ghost use Rattle.fit_from_messages.specs.Parts.{counts_stand, entry_stands, entries_of, number_read};
ghost use Rattle.fit_from_messages.specs.inner.Cutting.{left_of};

use crate::parts::short_at;

/// How many bytes a text of a block has before its first zero.
pub fn text_length(bytes: &[u8]) -> usize
    ensures length { result ≡ parts.text_length bytes.now }
    ensures within { result ≤ length bytes.now }
{
    for (place, byte) in bytes.iter().enumerate() {
        if *byte == 0 {
            return place;
        }
    }
    bytes.len()
}

/// Where the entries of a definition's block begin, if they begin in the block.
pub(crate) fn entries_begin(block: &[u8]) -> Option<usize>
    ensures some { IfSome result (λ place. (place ≡ parts.entries_begin block.now)
        × (48 ≤ place) × (place ≤ length block.now)) }
    ensures none { IsNone result → length block.now < parts.entries_begin block.now }
{
    if block.len() < 40 {
        return None;
    }
    let (_, name) = block.split_at(40);
    let place = 40 + text_length(name) / 8 * 8 + 8;
    if place > block.len() {
        return None;
    }
    Some(place)
}

/// Whether an entry is as long as it says, and one of a field, or where `developer` is 1 of a developer field.
fn entry_stands(entry: &[u8], developer: u8) -> bool
    ensures { result ≡ entry_stands developer entry.now }
{
    entry.len() >= 32 && short_at(0, entry) as usize == entry.len() && entry[5] == developer
}

/// The first entry of some bytes, as far as they go, and the bytes after it.
pub fn split_entry(bytes: &[u8]) -> (&[u8], &[u8])
    requires { 2 ≤ length bytes.now }
    ensures entry { result.0.now ≡ take (number_read 2 0 bytes.now) bytes.now }
    ensures rest { result.1.now ≡ drop (number_read 2 0 bytes.now) bytes.now }
{
    let size = short_at(0, bytes) as usize;
    if size > bytes.len() {
        return bytes.split_at(bytes.len());
    }
    bytes.split_at(size)
}

/// What is left of some bytes after that many entries of fields, or of developer fields, where all stand.
fn skip_entries(bytes: &[u8], count: usize, developer: u8) -> Option<&[u8]>
    ensures stand { IfSome result (λ rest.
        list_all (entry_stands developer) (entries_of count bytes.now) ≡ true) }
    ensures rest { IfSome result (λ rest. rest.now ≡ left_of count bytes.now) }
    ensures none { IsNone result
        → list_all (entry_stands developer) (entries_of count bytes.now) ≡ false }
{
    let mut rest = bytes;
    for _ in 0..count {
        if rest.len() < 2 {
            return None;
        }
        let (entry, after) = split_entry(rest);
        if !entry_stands(entry, developer) {
            return None;
        }
        rest = after;
    }
    Some(rest)
}

/// The entries of a definition's block.
#[derive(Drop)]
pub(crate) struct EntryBytes<'a> {
    pub field_count: usize,
    /// Those of the fields, and others after them.
    pub fields: &'a [u8],
    pub dev_count: usize,
    /// Those of the developer fields.
    pub dev: &'a [u8],
    pub has_dev: bool,
}

/// How many fields and developer fields a definition's block says, where a definition may have that many.
fn counts_in(block: &[u8]) -> Option<(usize, usize)>
    requires { 40 ≤ length block.now }
    ensures some { IfSome result (λ p. (p.0 ≡ parts.field_count block.now)
        × (p.1 ≡ parts.dev_field_count block.now)) }
    ensures stand { IfSome result (λ p. counts_stand block.now ≡ true) }
    ensures none { IsNone result → counts_stand block.now ≡ false }
{
    let fields = short_at(34, block) as usize;
    let dev = short_at(36, block) as usize;
    if fields < 256 && dev < 256 && (has_dev(block) || dev == 0) {
        Some((fields, dev))
    } else {
        None
    }
}

/// Whether the record header of a definition says that there are developer fields.
fn has_dev(block: &[u8]) -> bool
    requires { 40 ≤ length block.now }
    ensures { result ≡ parts.says_dev block.now }
{
    block[38] & 1 == 1
}

/// The entries of a definition's block, if they stand.
pub(crate) fn entries_in(block: &[u8]) -> Option<EntryBytes<'_>>
    ensures stand { IfSome result (λ e. parts.entries_stand block.now ≡ true) }
    ensures front { IfSome result (λ e. 40 ≤ length block.now) }
    ensures counts { IfSome result (λ e. (e.field_count ≡ parts.field_count block.now)
        × (e.dev_count ≡ parts.dev_field_count block.now)) }
    ensures fields { IfSome result (λ e. entries_of e.field_count e.fields.now
        ≡ parts.field_entries block.now) }
    ensures dev { IfSome result (λ e. entries_of e.dev_count e.dev.now
        ≡ parts.dev_entries block.now) }
    ensures fields_stand { IfSome result (λ e.
        list_all (entry_stands 0) (entries_of e.field_count e.fields.now) ≡ true) }
    ensures dev_stand { IfSome result (λ e.
        list_all (entry_stands 1) (entries_of e.dev_count e.dev.now) ≡ true) }
    ensures has_dev { IfSome result (λ e. e.has_dev ≡ parts.says_dev block.now) }
    ensures none { IsNone result → parts.entries_stand block.now ≡ false }
{
    let begin = entries_begin(block)?;
    let (field_count, dev_count) = counts_in(block)?;
    let (_, fields) = block.split_at(begin);
    let dev = skip_entries(fields, field_count, 0)?;
    let rest = skip_entries(dev, dev_count, 1)?;
    if !rest.is_empty() {
        return None;
    }
    Some(EntryBytes {
        field_count,
        fields,
        dev_count,
        dev,
        has_dev: has_dev(block),
    })
}
