//! In which form a message is put.
ghost use Rattle.std.specs.Prelude.{◌≡◌, ◌↔◌, ◌<◌, ◌≤◌, ◌∷◌, ℕ, IfErr, IfOk, IfSome, IsNone, IsTrue, None, OnErr, OnOk, Some, length, true};
ghost use Rattle.std.specs.List.{list_all};
ghost use Rattle.fit_from_messages.specs.Alone.{why_no_message_at};
ghost use Rattle.fit_from_messages.specs.Parts as parts;
ghost use Rattle.fit_from_messages.specs.Parts.{slot_stands};
ghost use Rattle.fit_writer.specs.Amounts.{amounts_by, latest_amounts};
ghost use Rattle.fit_writer.specs.Reading as saying;
ghost use Rattle.fit_writer.specs.Written.{NeedsDescriptions};
ghost use Rattle.fit_writer.specs.inner.Found.{IsOwnPlace};
ghost use Rattle.fit_writer.specs.inner.OpenFiles.{IsGoodOpenFile, current_of};
ghost use Rattle.fit_writer.specs.inner.Places.{IsLone, form_of};
ghost use Rattle.fit_writer.specs.inner.Puts.{IsChosen, IsHalfNeeded, IsHalfPutInto, IsKeptOffset, IsPutInto, IsToldAfterIn, IsUnchosen, IsRefusedPut, IsUnneeded, limit_of};

use crate::amounts::is_told;
use crate::describing::describe;
use crate::file::OpenFile;
use crate::forms::dated;
use crate::found::own_place;
use crate::placing::{limit_of, put_placed};
use crate::times::{header_time_in, own_time};
use crate::{Put, Refusal};
use fit_from_messages::{BlockReason, LoneDefinition, MessageFront, is_lone_message, slots_stand};
use fit_profile::Stream;
use std::alloc::{AllocError, Global};

/// The time offset that a block says, where it says the same time after these records.
fn kept_offset(stream: &Stream, block: &[u8], time: Option<u32>) -> Option<u8>
    requires front { 24 ≤ length block.now }
    requires stands { parts.offset_stands block.now ≡ true }
    requires time { time ≡ saying.header_time_in block.now }
    ensures kept { IsKeptOffset stream.now block.now result }
    ensures few { IfSome result (λ offset. offset < 32) }
{
    let offset = block[7];
    if offset != 0xFF && stream.header_time(offset) == time {
        Some(offset)
    } else {
        None
    }
}

/// The form with a timestamp, where a message needs it. None where its own will do.
fn needed<'a>(
    alloc: Global,
    lone: &LoneDefinition<'a>,
    is_kept: bool,
    time: Option<u32>,
    block: &[u8],
) -> Result<Option<LoneDefinition<'a>>, Refusal>
    requires lone { IsLone lone.now }
    requires stand { list_all (slot_stands block.now) lone.now.slots ≡ true }
    requires time { time ≡ saying.header_time_in block.now }
    ensures own { IfOk result (λ o. o ≡ None
        → IsChosen (form_of lone.now) block.now is_kept (form_of lone.now)) }
    ensures dated { IfOk result (λ o. IfSome o (λ d.
        IsChosen (form_of lone.now) block.now is_kept (form_of d))) }
    ensures lone { IfOk result (λ o. IfSome o IsLone) }
    ensures stand { IfOk result (λ o. IfSome o (λ d.
        list_all (slot_stands block.now) d.slots ≡ true)) }
    ensures err { IfErr result (IsUnchosen (form_of lone.now) block.now is_kept) }
{
    let Some(time) = time else {
        return Ok(None);
    };
    if is_kept || own_time(&lone.definition, lone.slots.as_slice(), block).is_some() {
        return Ok(None);
    }
    if lone.definition.fields.len() == 255 {
        return Err(Refusal::Full);
    }
    if time == 0xFFFF_FFFF {
        return Err(Refusal::Time);
    }
    let with_time = dated(alloc, lone)?;
    Ok(Some(with_time))
}

/// Puts a message in this form and with this time offset, its developer fields described before it.
fn put_described(
    alloc: Global,
    file: &mut OpenFile,
    lone: &LoneDefinition<'_>,
    offset: Option<u8>,
    block: &[u8],
) -> Result<(), Refusal>
    requires good { IsGoodOpenFile file.old }
    requires lone { IsLone lone.now }
    requires stand { list_all (slot_stands block.now) lone.now.slots ≡ true }
    requires offset { IfSome offset (λ o. o < 32) }
    requires needs { NeedsDescriptions file.old.stream (form_of lone.now)
        (λ k. k < limit_of offset) }
    ensures ok { OnOk result
        (IsToldAfterIn file.old file.new (form_of lone.now) block.now offset) }
    ensures good { IsGoodOpenFile file.new }
    ensures err { IfErr result
        (IsHalfNeeded file.old file.new (form_of lone.now) (limit_of offset)) }
    ensures refused { IfErr result
        (IsUnneeded file.old.stream (form_of lone.now) block.now offset) }
{
    describe(alloc, file, lone)?;
    put_placed(alloc, file, lone, offset, block)
}

/// Puts a message in this form and with this time offset. Its developer fields are described before it where that is needed.
fn put_needed(
    alloc: Global,
    file: &mut OpenFile,
    lone: &LoneDefinition<'_>,
    offset: Option<u8>,
    block: &[u8],
) -> Result<(), Refusal>
    requires good { IsGoodOpenFile file.old }
    requires lone { IsLone lone.now }
    requires stand { list_all (slot_stands block.now) lone.now.slots ≡ true }
    requires offset { IfSome offset (λ o. o < 32) }
    ensures ok { OnOk result
        (IsToldAfterIn file.old file.new (form_of lone.now) block.now offset) }
    ensures good { IsGoodOpenFile file.new }
    ensures err { IfErr result
        (IsHalfNeeded file.old file.new (form_of lone.now) (limit_of offset)) }
    ensures refused { IfErr result
        (IsUnneeded file.old.stream (form_of lone.now) block.now offset) }
{
    let Err(refusal) = put_placed(alloc, file, lone, offset, block) else {
        return Ok(());
    };
    match refusal {
        Refusal::Described => put_described(alloc, file, lone, offset, block),
        _ => Err(refusal),
    }
}

/// Puts a message in its own form and with this time offset: at a local message type that is known to be read so, where its header can name
/// it. What is known from now on is known after the message as well.
fn put_own(
    alloc: Global,
    file: &mut OpenFile,
    lone: &LoneDefinition<'_>,
    place: &mut Option<u8>,
    offset: Option<u8>,
    block: &[u8],
) -> Result<(), Refusal>
    requires good { IsGoodOpenFile file.old }
    requires lone { IsLone lone.now }
    requires stand { list_all (slot_stands block.now) lone.now.slots ≡ true }
    requires offset { IfSome offset (λ o. o < 32) }
    requires place { IfSome place.old (IsOwnPlace file.old.stream (form_of lone.now)) }
    ensures ok { OnOk result
        (IsToldAfterIn file.old file.new (form_of lone.now) block.now offset) }
    ensures good { IsGoodOpenFile file.new }
    ensures err { IfErr result
        (IsHalfNeeded file.old file.new (form_of lone.now) (limit_of offset)) }
    ensures refused { IfErr result
        (IsUnneeded file.old.stream (form_of lone.now) block.now offset) }
    ensures place { IfSome place.new (IsOwnPlace file.new.stream (form_of lone.now)) }
{
    let known = own_place(&file.stream, lone, *place);
    match known {
        Some(local) if local < limit_of(offset) => {
            *place = known;
            file.put_known(MessageFront { local, offset }, lone, block)
        }
        _ => {
            *place = None;
            put_needed(alloc, file, lone, offset, block)
        }
    }
}

/// Puts a message whose block stands, by its form and the local message type that is known to be read so.
pub(crate) fn put_standing(
    alloc: Global,
    file: &mut OpenFile,
    lone: &LoneDefinition<'_>,
    place: &mut Option<u8>,
    block: &[u8],
) -> Result<(), Refusal>
    requires good { IsGoodOpenFile file.old }
    requires lone { IsLone lone.now }
    requires front { 24 ≤ length block.now }
    requires offset { parts.offset_stands block.now ≡ true }
    requires stand { list_all (slot_stands block.now) lone.now.slots ≡ true }
    requires place { IfSome place.old (IsOwnPlace file.old.stream (form_of lone.now)) }
    ensures ok { OnOk result (IsPutInto file.old file.new (form_of lone.now) block.now) }
    ensures good { IsGoodOpenFile file.new }
    ensures err { IfErr result
        (IsHalfPutInto file.old file.new (form_of lone.now) block.now) }
    ensures refused { IfErr result
        (IsRefusedPut file.old.stream (form_of lone.now) block.now None) }
    ensures place { IfSome place.new (IsOwnPlace file.new.stream (form_of lone.now)) }
{
    let time = header_time_in(block);
    let offset = kept_offset(&file.stream, block, time);
    match needed(alloc, lone, offset.is_some(), time, block)? {
        None => put_own(alloc, file, lone, place, offset, block),
        Some(dated) => {
            *place = None;
            put_needed(alloc, file, &dated, offset, block)
        }
    }
}

/// Why a message's block can't stand, by where its items are.
fn reason_of(lone: &LoneDefinition<'_>, block: &[u8]) -> Option<BlockReason>
    ensures reason { result ≡ why_no_message_at block.now lone.now.slots }
    ensures front { result ≡ None → 24 ≤ length block.now }
    ensures offset { result ≡ None → parts.offset_stands block.now ≡ true }
    ensures stand { result ≡ None → list_all (slot_stands block.now) lone.now.slots ≡ true }
{
    if let Some(reason) = is_lone_message(block) {
        return Some(reason);
    }
    if slots_stand(lone.slots.as_slice(), block) {
        None
    } else {
        Some(BlockReason::Items)
    }
}

/// Puts a message by its form.
fn put_message(
    alloc: Global,
    file: &mut OpenFile,
    lone: &LoneDefinition<'_>,
    block: &[u8],
) -> Result<(), Refusal>
    requires good { IsGoodOpenFile file.old }
    requires lone { IsLone lone.now }
    ensures ok { OnOk result (IsPutInto file.old file.new (form_of lone.now) block.now) }
    ensures good { IsGoodOpenFile file.new }
    ensures err { IfErr result
        (IsHalfPutInto file.old file.new (form_of lone.now) block.now) }
    ensures refused { IfErr result (IsRefusedPut file.old.stream (form_of lone.now) block.now
        (why_no_message_at block.now lone.now.slots)) }
{
    if let Some(reason) = reason_of(lone, block) {
        return Err(Refusal::Message(reason));
    }
    let mut place = None;
    put_standing(alloc, file, lone, &mut place, block)
}

/// Puts a message by its form, and says whether a reader is told the amounts that its block says, where messages of its definition have them.
pub(crate) fn put_told(
    alloc: Global,
    file: &mut OpenFile,
    lone: &LoneDefinition<'_>,
    has: bool,
    block: &[u8],
) -> Result<Put, Refusal>
    requires good { IsGoodOpenFile file.old }
    requires lone { IsLone lone.now }
    ensures ok { OnOk result (IsPutInto file.old file.new (form_of lone.now) block.now) }
    ensures told { IfOk result (λ put. IsTrue put.accumulated
        ↔ (latest_amounts file.new.stream ≡ amounts_by has block.now)) }
    ensures good { IsGoodOpenFile file.new }
    ensures err { IfErr result
        (IsHalfPutInto file.old file.new (form_of lone.now) block.now) }
    ensures refused { IfErr result (IsRefusedPut file.old.stream (form_of lone.now) block.now
        (why_no_message_at block.now lone.now.slots)) }
{
    match put_message(alloc, file, lone, block) {
        Ok(()) => Ok(Put {
            accumulated: is_told(file.told, has, block),
        }),
        Err(refusal) => Err(refusal),
    }
}
