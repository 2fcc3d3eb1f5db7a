//! What the entries of a definition's block say of its fields.
ghost use Rattle.std.specs.Prelude.{◌≡◌, ◌≤◌, ◌++◌, IfErr, IfOk, IfSome, IsNone, OnOk, drop, false, length, map, take, nat_lt, true};
ghost use Rattle.std.specs.List.{list_all};
ghost use Rattle.fit_from_messages.specs.Parts.{byte_at, dev_in, entries_of, entry_size, entry_stands, field_in, number_read, size_fits, slot_in};
ghost use Rattle.fit_from_messages.specs.Misfits.{FailsBy};
ghost use Rattle.fit_from_messages.specs.inner.Cutting.{is_small};

use crate::BlockReason;
use crate::entries::split_entry;
use crate::misfit::Misfit;
use crate::parts::word_at;
use crate::slot::Slot;
use fit_base::{Code, Entries, width_of};
use fit_record::{DevDef, FieldDef};
use std::alloc::Global;

/// The size of a field in bytes by its entry, where it has a byte.
fn size_in(entry: &[u8]) -> Option<u8>
    requires { 32 ≤ length entry.now }
    ensures some { IfSome result (λ size. (size ≡ entry_size entry.now)
        × (nat_lt (entry_size entry.now) 256 ≡ true)) }
    ensures none { IsNone result → nat_lt (entry_size entry.now) 256 ≡ false }
{
    let size = entry[9] as usize * entry[10] as usize;
    if size < 256 { Some(size as u8) } else { None }
}

/// The field that an entry says, where its items have the width that its base type and its size give.
pub(crate) fn field_in(entry: &[u8]) -> Option<FieldDef>
    requires { 32 ≤ length entry.now }
    ensures some { IfSome result (λ field. field ≡ field_in entry.now) }
    ensures fits { IfSome result (λ field. size_fits (byte_at 7 entry.now) entry.now ≡ true) }
    ensures none { IsNone result → size_fits (byte_at 7 entry.now) entry.now ≡ false }
{
    let size = size_in(entry)?;
    let code = entry[7];
    if width_of(Code(code), size) != entry[9] {
        return None;
    }
    Some(FieldDef {
        number: entry[4],
        size,
        code,
    })
}

/// The developer field that an entry says, where its size has a byte.
fn dev_in(entry: &[u8]) -> Option<DevDef>
    requires { 32 ≤ length entry.now }
    ensures some { IfSome result (λ field. field ≡ dev_in entry.now) }
    ensures fits { IfSome result (λ field. is_small entry.now ≡ true) }
    ensures none { IsNone result → is_small entry.now ≡ false }
{
    let size = size_in(entry)?;
    Some(DevDef {
        number: entry[4],
        size,
        index: entry[6],
    })
}

/// Where an entry says that the items of its field are.
fn slot_in(entry: &[u8]) -> Slot
    requires { 32 ≤ length entry.now }
    ensures { result ≡ slot_in entry.now }
{
    Slot {
        place: word_at(12, entry),
        width: entry[9],
        count: entry[10],
    }
}

/// The fields that entries say, that many, and after others where the items of each are.
pub(crate) fn read_fields(
    alloc: Global,
    slots: &mut Entries<Slot>,
    bytes: &[u8],
    count: usize,
) -> Result<Entries<FieldDef>, Misfit>
    requires { list_all (entry_stands 0) (entries_of count bytes.now) ≡ true }
    ensures fields { IfOk result (λ fields. fields ≡ map field_in (entries_of count bytes.now)) }
    ensures slots { OnOk result (slots.new
        ≡ slots.old ++ map slot_in (entries_of count bytes.now)) }
    ensures fit { OnOk result (list_all (λ entry. size_fits (byte_at 7 entry) entry)
        (entries_of count bytes.now) ≡ true) }
    ensures err { IfErr result (FailsBy BlockReason.Size
        (list_all (λ entry. size_fits (byte_at 7 entry) entry) (entries_of count bytes.now))) }
{
    let mut fields = Entries::with_capacity(alloc, count)?;
    let mut rest = bytes;
    for _ in 0..count {
        let (entry, after) = split_entry(rest);
        let Some(field) = field_in(entry) else {
            return Err(Misfit::Block(BlockReason::Size));
        };
        if fields.push(field).is_err() || slots.push(slot_in(entry)).is_err() {
            return Err(Misfit::NoMemory);
        }
        rest = after;
    }
    Ok(fields)
}

/// The developer fields that entries say, as `read_fields` does, but for the width of their items.
pub(crate) fn read_devs(
    alloc: Global,
    slots: &mut Entries<Slot>,
    bytes: &[u8],
    count: usize,
) -> Result<Entries<DevDef>, Misfit>
    requires { list_all (entry_stands 1) (entries_of count bytes.now) ≡ true }
    ensures fields { IfOk result (λ fields. fields ≡ map dev_in (entries_of count bytes.now)) }
    ensures slots { OnOk result (slots.new
        ≡ slots.old ++ map slot_in (entries_of count bytes.now)) }
    ensures fit { OnOk result (list_all is_small (entries_of count bytes.now) ≡ true) }
    ensures err { IfErr result (FailsBy BlockReason.Size
        (list_all is_small (entries_of count bytes.now))) }
{
    let mut fields = Entries::with_capacity(alloc, count)?;
    let mut rest = bytes;
    for _ in 0..count {
        let (entry, after) = split_entry(rest);
        let Some(field) = dev_in(entry) else {
            return Err(Misfit::Block(BlockReason::Size));
        };
        if fields.push(field).is_err() || slots.push(slot_in(entry)).is_err() {
            return Err(Misfit::NoMemory);
        }
        rest = after;
    }
    Ok(fields)
}
