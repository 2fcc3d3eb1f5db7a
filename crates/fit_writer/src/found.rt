//! What is found once for the messages of a run, rather than for each.
ghost use Rattle.std.specs.Prelude.{◌≡◌, ◌<◌, ◌≤◌, ℕ, IfSome, IsNone, List, None, length, true};
ghost use Rattle.std.specs.Global.{Global};
ghost use Rattle.std.specs.List.{list_all};
ghost use Rattle.fit_record.specs.declared.environment.Defined.{Defined};
ghost use Rattle.fit_from_messages.specs.Alone.{why_no_message_at};
ghost use Rattle.fit_from_messages.specs.Parts as parts;
ghost use Rattle.fit_from_messages.specs.Parts.{slot_stands};
ghost use Rattle.fit_from_messages.specs.declared.slot.Slot.{Slot};
ghost use Rattle.fit_writer.specs.Written.{SaysSame};
ghost use Rattle.fit_writer.specs.inner.Found.{IsOwnPlace, least_length};
ghost use Rattle.fit_writer.specs.inner.Places.{IsLone, form_of};

use crate::places::find_same;
use fit_from_messages::{BlockReason, LoneDefinition, Slot, is_lone_message};
use fit_profile::Stream;

/// What was found for the messages of a run.
#[derive(Clone, Copy, Drop)]
pub(crate) struct Found {
    /// How long a block is at least in which all items are.
    pub length: usize,
    /// Whether blocks say speed, distance, cycles and power.
    pub has: bool,
    /// The local message type whose messages are read as these, once it was looked for and there is one.
    pub place: Option<u8>,
}

/// How long a block is at least in which all items are.
pub(crate) fn least_length(slots: &[Slot]) -> usize
    ensures { result ≡ least_length slots.now }
{
    let mut least = 0;
    for slot in slots {
        let end = slot.place as usize + slot.width as usize * slot.count as usize;
        least = end.max(least);
    }
    least
}

/// Why a message's block can't stand, by how long it is at least.
pub(crate) fn reason_by(least: usize, block: &[u8]) -> Option<BlockReason>
    ensures reason { (slots : List Slot) → least ≡ least_length slots
        → result ≡ why_no_message_at block.now slots }
    ensures front { result ≡ None → 24 ≤ length block.now }
    ensures offset { result ≡ None → parts.offset_stands block.now ≡ true }
    ensures stand { (slots : List Slot) → least ≡ least_length slots → result ≡ None
        → list_all (slot_stands block.now) slots ≡ true }
{
    if let Some(reason) = is_lone_message(block) {
        return Some(reason);
    }
    if least <= block.len() {
        None
    } else {
        Some(BlockReason::Items)
    }
}

/// The local message type whose messages are read as those of a definition, where it is known; else it is looked for.
pub(crate) fn own_place(stream: &Stream, lone: &LoneDefinition<'_>, known: Option<u8>) -> Option<u8>
    requires lone { IsLone lone.now }
    requires known { IfSome known (IsOwnPlace stream.now (form_of lone.now)) }
    ensures some { IfSome result (IsOwnPlace stream.now (form_of lone.now)) }
    ensures none { IsNone result → (local : ℕ) (p : Defined Global) → local < 16
        → SaysSame stream.now local (form_of lone.now) p → ⊥ }
{
    if known.is_some() {
        return known;
    }
    find_same(stream, lone, 16)
}
