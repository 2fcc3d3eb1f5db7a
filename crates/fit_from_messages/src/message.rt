//! Blocks of messages.
ghost use Rattle.std.specs.Prelude.{◌≡◌, ◌≤◌, ◌+◌, ◌++◌, ◌∷◌, All, None, IfErr, IfOk, IfSome, IsNone, OnErr, OnOk, false, flat_map, length, max, sum_by, take, true};
ghost use Rattle.std.specs.Global.{Global};
ghost use Rattle.std.specs.List.{list_all};
ghost use Rattle.fit_base.specs.Fields.{items_bytes};
ghost use Rattle.fit_record.specs.declared.message.Record.TheVariants.{Values as Data};
ghost use Rattle.fit_record.specs.declared.message.Values.{Values};
ghost use Rattle.fit_record.specs.Environment.{defined_at, described_by, learn};
ghost use Rattle.fit_record.specs.Records.{DataHeaderFits, IsRecord, data_header, dev_layout, layout};
ghost use Rattle.fit_from_messages.specs.Parts as parts;
ghost use Rattle.fit_from_messages.specs.Parts.{byte_at, items_read, slot_stands};
ghost use Rattle.fit_from_messages.specs.SaysChain.{Begun, message_said, why_no_message};
ghost use Rattle.fit_from_messages.specs.Misfits.{IsMisfitBlock};
ghost use Rattle.fit_from_messages.specs.inner.Slots.{Knows};
ghost use Rattle.fit_from_messages.specs.Slots.{IsSlot, SlotsFit, slot_size};

use crate::BlockReason;
use crate::misfit::Misfit;
use crate::place::place_all;
use crate::slot::Slots;
use fit_base::Order;
use fit_encode::place_bytes;
use fit_record::{Description, Env};
use std::alloc::AllocError;

/// What the record header of a message says.
#[derive(Clone, Copy)]
pub struct MessageFront {
    pub local: u8,
    pub offset: Option<u8>,
}

/// The time offset that the block of a message says.
fn offset_in(block: &[u8]) -> Option<u8>
    requires { 24 ≤ length block.now }
    ensures { result ≡ parts.offset_in block.now }
{
    if block[7] == 0xFF {
        None
    } else {
        Some(block[7])
    }
}

/// Reads the record header of a message's block.
#[inline(always)]
fn read_front(block: &[u8]) -> Result<MessageFront, Misfit>
    requires { 24 ≤ length block.now }
    ensures local { IfOk result (λ front. front.local ≡ byte_at 6 block.now) }
    ensures offset { IfOk result (λ front. front.offset ≡ parts.offset_in block.now) }
    ensures fits { IfOk result (λ front. DataHeaderFits front.local front.offset) }
    ensures stands { IfOk result (λ front. (parts.local_stands block.now ≡ true)
        × (parts.offset_stands block.now ≡ true)) }
    ensures err { IfErr result (λ misfit. (f : Begun)
        → IsMisfitBlock (why_no_message f block.now) misfit) }
{
    let local = block[6];
    let most = if block[7] == 0xFF { 16 } else { 4 };
    if local >= most {
        return Err(Misfit::Block(BlockReason::Local));
    }
    if block[7] >= 32 && block[7] != 0xFF {
        return Err(Misfit::Block(BlockReason::Offset));
    }
    Ok(MessageFront {
        local,
        offset: offset_in(block),
    })
}

/// The record header of a message.
#[inline(always)]
pub(crate) fn record_header(front: MessageFront) -> u8
    requires { DataHeaderFits front.local front.offset }
    ensures { result ≡ data_header front.local front.offset }
{
    match front.offset {
        None => front.local,
        Some(offset) => 0x80 + 32 * front.local + offset,
    }
}

/// Makes bytes at least this many, with zeros at the end.
#[inline(always)]
pub(crate) fn make_room(bytes: &mut Vec<u8>, size: usize) -> Result<(), AllocError>
    ensures enough { OnOk result (size ≤ length bytes.new.items) }
    ensures few { length bytes.new.items ≤ max size (length bytes.old.items) }
{
    if bytes.len() < size {
        bytes.resize(size, 0)?;
    }
    Ok(())
}

/// Writes a message by its record header, its block, and where the items of its fields are. Returns how many bytes it has, unless some items
/// aren't in the block.
#[inline(always)]
fn write_message(
    bytes: &mut [u8],
    front: MessageFront,
    order: Order,
    block: &[u8],
    slots: &Slots,
) -> Option<usize>
    requires fits { DataHeaderFits front.local front.offset }
    requires slots { All IsSlot slots.now }
    requires room { sum_by slot_size slots.now + 9 ≤ length bytes.old }
    ensures size { length bytes.new ≡ length bytes.old }
    ensures within { IfSome result (λ end. end ≤ length bytes.new) }
    ensures stand { IfSome result (λ end. list_all (slot_stands block.now) slots.now ≡ true) }
    ensures text { IfSome result (λ end. take end bytes.new
        ≡ data_header front.local front.offset
        ∷ flat_map (λ s. items_bytes order (items_read block.now s)) slots.now) }
    ensures none { IsNone result → list_all (slot_stands block.now) slots.now ≡ false }
{
    let at = place_bytes(bytes, 0, &[record_header(front)]);
    place_all(bytes, at, order, block, slots)
}

/// Puts the bytes of a message at the start of others, by its block and where the items of its fields are. Returns how many they are.
pub(crate) fn spell_message(
    bytes: &mut Vec<u8>,
    env: &Env,
    slots: &Slots,
    block: &[u8],
) -> Result<usize, Misfit>
    requires front { 24 ≤ length block.now }
    requires fit { IfSome (defined_at env.now (byte_at 6 block.now))
        (λ p. SlotsFit (layout p ++ dev_layout p) slots.now) }
    ensures within { IfOk result (λ end. end ≤ length bytes.new.items) }
    ensures stands { OnOk result ((f : Begun) → Knows f env.now (byte_at 6 block.now) slots.now
        → why_no_message f block.now ≡ None) }
    ensures message { IfOk result (λ end. (f : Begun)
        → Knows f env.now (byte_at 6 block.now) slots.now
        → IsRecord env.now (Data (message_said f block.now)) (take end bytes.new.items)) }
    ensures err { IfErr result (λ misfit. (f : Begun)
        → Knows f env.now (byte_at 6 block.now) slots.now
        → IsMisfitBlock (why_no_message f block.now) misfit) }
{
    let front = read_front(block)?;
    let Some(defined) = env.defined(front.local) else {
        return Err(Misfit::Block(BlockReason::Undefined));
    };
    let Some(size) = env.length(front.local) else {
        return Err(Misfit::Block(BlockReason::Undefined));
    };
    make_room(bytes, size as usize + 9)?;
    let order = defined.definition.order;
    match write_message(bytes.as_mut_slice(), front, order, block, slots) {
        Some(end) => Ok(end),
        None => Err(Misfit::Block(BlockReason::Items)),
    }
}

/// What the message that these bytes are describes, if it does.
fn description_of(env: &Env, bytes: &[u8]) -> Option<Description>
    requires { (v : Values Global) × IsRecord env.now (Data v) bytes.now }
    ensures { (v : Values Global) → IsRecord env.now (Data v) bytes.now
        → result ≡ described_by env.now v }
{
    let message = env.open(bytes);
    message.description()
}

/// Takes in the message that these bytes are. Out of memory, nothing changes.
#[inline(always)]
pub(crate) fn learn_message(env: &mut Env, bytes: &[u8]) -> Result<(), AllocError>
    requires { (v : Values Global) × IsRecord env.old (Data v) bytes.now }
    ensures ok { OnOk result ((v : Values Global) → IsRecord env.old (Data v) bytes.now
        → env.new ≡ learn env.old (Data v)) }
    ensures err { OnErr result (env.new ≡ env.old) }
{
    match description_of(env, bytes) {
        None => Ok(()),
        Some(description) => env.describe(description),
    }
}
