//! The developer data indices that the messages of a file say.
ghost use Rattle.std.specs.Prelude.{◌≡◌, ◌≤◌, length, true};
ghost use Rattle.std.specs.List.{list_all};
ghost use Rattle.fit_from_messages.specs.Parts.{slot_stands};
ghost use Rattle.fit_writer.specs.Describing.{index_said};
ghost use Rattle.fit_writer.specs.Reading.{said_reading};
ghost use Rattle.fit_writer.specs.inner.Indices.{slot_byte, third_byte, with_index};
ghost use Rattle.fit_writer.specs.inner.Places.{IsLone, form_of};

use fit_from_messages::{LoneDefinition, Slot};
use fit_record::FieldDef;

/// The message that says that there is a developer data index.
const DEVELOPER_DATA_ID: u16 = 207;

/// The one byte that is in the place of a field.
fn byte_at(slot: Slot, block: &[u8]) -> Option<u8>
    requires { slot_stands block.now slot ≡ true }
    ensures { result ≡ slot_byte block.now slot }
{
    if slot.width != 1 {
        return None;
    }
    if slot.count != 1 {
        return None;
    }
    Some(block[slot.place as usize])
}

/// That of the first field 3.
fn third_byte(fields: &[FieldDef], slots: &[Slot], block: &[u8]) -> Option<u8>
    requires stand { list_all (slot_stands block.now) slots.now ≡ true }
    requires many { length fields.now ≤ length slots.now }
    ensures { result ≡ third_byte block.now fields.now slots.now }
{
    for place in 0..fields.len() {
        if fields[place].number == 3 {
            return byte_at(slots[place], block);
        }
    }
    None
}

/// The developer data index that a message says that there is.
fn index_in(lone: &LoneDefinition<'_>, block: &[u8]) -> Option<u8>
    requires lone { IsLone lone.now }
    requires stand { list_all (slot_stands block.now) lone.now.slots ≡ true }
    ensures { result ≡ index_said (said_reading (form_of lone.now) block.now) }
{
    if lone.definition.global != DEVELOPER_DATA_ID {
        return None;
    }
    third_byte(
        lone.definition.fields.as_slice(),
        lone.slots.as_slice(),
        block,
    )
}

/// Notes the developer data index that a message says that there is.
pub(crate) fn note_index(indices: &mut [bool; 256], lone: &LoneDefinition<'_>, block: &[u8])
    requires lone { IsLone lone.now }
    requires stand { list_all (slot_stands block.now) lone.now.slots ≡ true }
    ensures { indices.new ≡ with_index indices.old
        (index_said (said_reading (form_of lone.now) block.now)) }
{
    if let Some(index) = index_in(lone, block) {
        indices[index as usize] = true;
    }
}
