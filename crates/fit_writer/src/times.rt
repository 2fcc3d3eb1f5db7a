//! The times that a message's block says.
ghost use Rattle.std.specs.Prelude.{◌≡◌, ◌*◌, ◌<◌, ℕ, List, None, length, true};
ghost use Rattle.std.specs.List.{list_all};
ghost use Rattle.fit_base.specs.BaseTypes.{item_width};
ghost use Rattle.fit_profile.specs.Times.{field_time};
ghost use Rattle.fit_from_messages.specs.Alone.{lone_layout, message_with};
ghost use Rattle.fit_from_messages.specs.Parts.{slot_stands};
ghost use Rattle.fit_from_messages.specs.Slots.{SlotsFit};
ghost use Rattle.fit_writer.specs.Reading as saying;
ghost use Rattle.fit_writer.specs.inner.Forms.{FieldsFit, first_time, slot_time};

use fit_from_messages::{Slot, word_at};
use fit_record::{FieldDef, MessageDef};

/// The time of the compressed header that a message's block says, where one is told.
pub(crate) fn header_time_in(block: &[u8]) -> Option<u32>
    ensures { result ≡ saying.header_time_in block.now }
{
    if block.len() >= 40 && block[7] != 0xFF && block[5] / 2 % 2 == 1 {
        Some(word_at(32, block))
    } else {
        None
    }
}

/// The time that a field holds, where it is one valid uint32.
fn time_at(field: FieldDef, slot: Slot, block: &[u8]) -> Option<u32>
    requires stands { slot_stands block.now slot ≡ true }
    requires width { slot.width ≡ item_width field.code field.size }
    requires size { slot.width * slot.count ≡ field.size }
    ensures { result ≡ slot_time block.now field slot }
{
    if field.code != 0x86 || field.size != 4 {
        return None;
    }
    let time = word_at(slot.place as usize, block);
    if time == 0xFFFF_FFFF {
        None
    } else {
        Some(time)
    }
}

/// The time of the first of some fields that is a timestamp, by where their items are.
fn first_time(fields: &[FieldDef], slots: &[Slot], block: &[u8]) -> Option<u32>
    requires few { length fields.now < 256 }
    requires stand { list_all (slot_stands block.now) slots.now ≡ true }
    requires fit { FieldsFit fields.now slots.now }
    ensures { result ≡ first_time block.now fields.now slots.now }
{
    for place in 0..fields.len() {
        if fields[place].number == 253 {
            return time_at(fields[place], slots[place], block);
        }
    }
    None
}

/// The time of a message's own field, by its definition and where the items are.
pub(crate) fn own_time(definition: &MessageDef, slots: &[Slot], block: &[u8]) -> Option<u32>
    requires few { length definition.now.fields < 256 }
    requires stand { list_all (slot_stands block.now) slots.now ≡ true }
    requires fit { (codes : List ℕ) × SlotsFit (lone_layout definition.now codes) slots.now }
    ensures { result ≡ field_time definition.now
        (message_with block.now slots.now (length definition.now.fields) 0 None) }
{
    first_time(definition.fields.as_slice(), slots, block)
}
