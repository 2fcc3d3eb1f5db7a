//! Messages that are put by a definition that is there, or by their own.
ghost use Rattle.std.specs.Prelude.{◌≡◌, ◌<◌, IfErr, IfSome, OnOk, true};
ghost use Rattle.std.specs.List.{list_all};
ghost use Rattle.fit_from_messages.specs.Parts.{slot_stands};
ghost use Rattle.fit_writer.specs.inner.OpenFiles.{IsGoodOpenFile, IsHalfPut};
ghost use Rattle.fit_writer.specs.inner.Places.{IsLone, form_of};
ghost use Rattle.fit_writer.specs.inner.Puts.{IsToldIn, IsUnplaced, limit_of};

use crate::Refusal;
use crate::described::would_say_same;
use crate::file::OpenFile;
use crate::places::{find_same, free_place};
use fit_from_messages::{LoneDefinition, MessageFront};
use std::alloc::Global;

/// How many local message types a record header can name: 4 with a time offset, else 16.
pub(crate) fn limit_of(offset: Option<u8>) -> u8
    ensures { result ≡ limit_of offset }
{
    if offset.is_some() { 4 } else { 16 }
}

/// Puts a message in this form and with this time offset, by a definition that is there or its own.
pub(crate) fn put_placed(
    alloc: Global,
    file: &mut OpenFile,
    lone: &LoneDefinition<'_>,
    offset: Option<u8>,
    block: &[u8],
) -> Result<(), Refusal>
    requires good { IsGoodOpenFile file.old }
    requires lone { IsLone lone.now }
    requires stand { list_all (slot_stands block.now) lone.now.slots ≡ true }
    requires offset { IfSome offset (λ o. o < 32) }
    ensures ok { OnOk result (IsToldIn file.old file.new (form_of lone.now) block.now offset) }
    ensures good { IsGoodOpenFile file.new }
    ensures err { IfErr result (IsHalfPut file.old file.new lone.now.definition) }
    ensures refused { IfErr result
        (IsUnplaced file.old.stream (form_of lone.now) block.now offset) }
{
    let limit = limit_of(offset);
    match find_same(&file.stream, lone, limit) {
        Some(local) => file.put_known(MessageFront { local, offset }, lone, block),
        None => {
            if !would_say_same(&file.stream, lone) {
                return Err(Refusal::Described);
            }
            let own = lone.definition.local;
            let local = free_place(&file.stream, &file.turns, own, limit);
            file.put_both(alloc, MessageFront { local, offset }, lone, block)
        }
    }
}
