//! Blocks by themselves, whatever came before them: what they say, and the first reason why one can't stand.
ghost use Rattle.std.specs.Prelude.{◌≡◌, ◌≤◌, ◌+◌, ◌++◌, ◌∷◌, All, IfErr, IfOk, IfSome, IsNone, None, OnOk, false, Some, flat_map, length, map, sum_by, take, true};
ghost use Rattle.std.specs.Global.{Global};
ghost use Rattle.std.specs.List.{list_all};
ghost use Rattle.fit_base.specs.Fields.{items_bytes};
ghost use Rattle.fit_frame.specs.Header.{FormFits};
ghost use Rattle.fit_record.specs.declared.environment.Defined.{Defined};
ghost use Rattle.fit_record.specs.declared.message.Record.TheVariants.{Values as Data};
ghost use Rattle.fit_record.specs.Environment.{Environment, defined_at, dev_defs};
ghost use Rattle.fit_record.specs.Records.{DataHeaderFits, DefinitionFits, IsRecord, data_header, dev_layout, layout, message_size};
ghost use Rattle.fit_record.specs.Sizes.{body_limit};
ghost use Rattle.fit_from_messages.specs.Alone as alone;
ghost use Rattle.fit_from_messages.specs.Alone.{codes_in, lone_layout, message_with, why_no_lone_definition, why_no_lone_header};
ghost use Rattle.fit_from_messages.specs.Parts as parts;
ghost use Rattle.fit_from_messages.specs.Parts.{byte_at, definition_in, dev_entries, entries_of, items_read, size_fits, slots_in};
ghost use Rattle.fit_from_messages.specs.Slots.{IsSlot, SlotsFit, slot_size};
ghost use Rattle.fit_from_messages.specs.Misfits.{FailsBy, IsMisfitBlock};

use crate::definition::read_definition;
use crate::entries::{entries_in, split_entry};
use crate::fields::field_in;
use crate::header::{header_in, header_stands};
use crate::message::{MessageFront, make_room, record_header};
use crate::parts::word_at;
use crate::place::place_slots;
use crate::slot::Slot;
use crate::{BlockReason, Misfit};
use fit_base::{Entries, Order};
use fit_encode::place_bytes;
use fit_frame::Header;
use fit_record::MessageDef;
use std::alloc::Global;

/// Whether bytes are one block by their length.
fn is_block(block: &[u8]) -> bool
    ensures { result ≡ alone.is_block block.now }
{
    block.len() >= 24 && word_at(0, block) as usize == block.len() && block.len() % 8 == 0
}

/// Whether bytes are one block of this kind, or why not.
fn kind_stands(block: &[u8], kind: u8) -> Option<BlockReason>
    ensures { result ≡ alone.why_no_kind kind block.now }
{
    if !is_block(block) {
        return Some(BlockReason::Cut);
    }
    if block[4] != kind {
        return Some(BlockReason::Kind);
    }
    None
}

/// The header that a block says, or the first reason why a file can't begin with it.
pub fn lone_header(block: &[u8]) -> Result<Header, BlockReason>
    ensures stands { OnOk result (why_no_lone_header block.now ≡ None) }
    ensures header { IfOk result (λ header. header ≡ parts.header_in block.now) }
    ensures form { IfOk result FormFits }
    ensures err { IfErr result (λ why. why_no_lone_header block.now ≡ Some why) }
{
    if let Some(reason) = kind_stands(block, 1) {
        return Err(reason);
    }
    if !header_stands(block) {
        return Err(BlockReason::Header);
    }
    Ok(header_in(block))
}

/// A definition as its block says it by itself.
#[derive(Drop)]
pub struct LoneDefinition<'a> {
    pub definition: MessageDef,
    /// The base type code of each developer field.
    pub codes: Entries<u8>,
    /// Where the items of its messages are: of the fields, and then of the developer fields.
    pub slots: Entries<Slot>,
    /// The entries of the developer fields.
    pub dev: &'a [u8],
}

/// The base type code that an entry says, where its items have the width that its base type and its size give.
fn code_in(entry: &[u8]) -> Option<u8>
    requires { 32 ≤ length entry.now }
    ensures some { IfSome result (λ code. code ≡ byte_at 7 entry.now) }
    ensures fits { IfSome result (λ code. size_fits (byte_at 7 entry.now) entry.now ≡ true) }
    ensures none { IsNone result → size_fits (byte_at 7 entry.now) entry.now ≡ false }
{
    let field = field_in(entry)?;
    Some(field.code)
}

/// The base type codes that the entries of developer fields say, that many, where the items of each have the width that its base type and
/// size give.
fn read_codes(alloc: Global, bytes: &[u8], count: usize) -> Result<Entries<u8>, Misfit>
    requires { list_all (parts.entry_stands 1) (entries_of count bytes.now) ≡ true }
    ensures codes { IfOk result (λ codes. codes ≡ map (byte_at 7) (entries_of count bytes.now)) }
    ensures fit { OnOk result (list_all (λ entry. size_fits (byte_at 7 entry) entry)
        (entries_of count bytes.now) ≡ true) }
    ensures err { IfErr result (FailsBy BlockReason.Size
        (list_all (λ entry. size_fits (byte_at 7 entry) entry) (entries_of count bytes.now))) }
{
    let mut codes = Entries::with_capacity(alloc, count)?;
    let mut rest = bytes;
    for _ in 0..count {
        let (entry, after) = split_entry(rest);
        let Some(code) = code_in(entry) else {
            return Err(Misfit::Block(BlockReason::Size));
        };
        if codes.push(code).is_err() {
            return Err(Misfit::NoMemory);
        }
        rest = after;
    }
    Ok(codes)
}

/// The definition that a block says, or the first reason why it can't stand.
pub fn lone_definition(alloc: Global, block: &[u8]) -> Result<LoneDefinition<'_>, Misfit>
    ensures stands { OnOk result (why_no_lone_definition block.now ≡ None) }
    ensures definition { IfOk result (λ d. d.definition ≡ definition_in block.now) }
    ensures codes { IfOk result (λ d. d.codes ≡ codes_in block.now) }
    ensures slots { IfOk result (λ d. d.slots ≡ slots_in block.now) }
    ensures dev { IfOk result (λ d. entries_of (length d.codes) d.dev.now
        ≡ dev_entries block.now) }
    ensures stand { IfOk result (λ d.
        list_all (parts.entry_stands 1) (entries_of (length d.codes) d.dev.now) ≡ true) }
    ensures fits { IfOk result (λ d. DefinitionFits d.definition) }
    ensures many { IfOk result (λ d. length d.codes ≡ length (dev_defs d.definition.dev)) }
    ensures slots_fit { IfOk result (λ d. SlotsFit (lone_layout d.definition d.codes) d.slots) }
    ensures err { IfErr result (IsMisfitBlock (why_no_lone_definition block.now)) }
{
    if let Some(reason) = kind_stands(block, 2) {
        return Err(Misfit::Block(reason));
    }
    let mut slots = Entries::new(alloc);
    let definition = read_definition(alloc, &mut slots, block)?;
    let Some(entries) = entries_in(block) else {
        unreachable!()
    };
    let codes = read_codes(alloc, entries.dev, entries.dev_count)?;
    Ok(LoneDefinition {
        definition,
        codes,
        slots,
        dev: entries.dev,
    })
}

/// Whether a block may be that of a message, whatever its definition says.
pub fn is_lone_message(block: &[u8]) -> Option<BlockReason>
    ensures { result ≡ alone.why_no_lone_front block.now }
{
    if let Some(reason) = kind_stands(block, 3) {
        return Some(reason);
    }
    if block[7] >= 32 && block[7] != 0xFF {
        return Some(BlockReason::Offset);
    }
    None
}

/// Whether the items of a field are in the block of a message.
#[inline(always)]
fn slot_stands(block: &[u8], slot: Slot) -> bool
    ensures { result ≡ parts.slot_stands block.now slot }
{
    slot.place as usize + slot.size() <= block.len()
}

/// Whether the items of all fields are in the block of a message.
pub fn slots_stand(slots: &[Slot], block: &[u8]) -> bool
    ensures { result ≡ list_all (parts.slot_stands block.now) slots.now }
{
    for slot in slots {
        if !slot_stands(block, *slot) {
            return false;
        }
    }
    true
}

/// Writes a message by its record header, its block, and where the items of its fields are. Returns how many bytes it has, unless some items
/// aren't in the block.
fn write_lone(
    bytes: &mut [u8],
    front: MessageFront,
    order: Order,
    block: &[u8],
    slots: &[Slot],
) -> Option<usize>
    requires fits { DataHeaderFits front.local front.offset }
    requires slots { All IsSlot slots.now }
    requires room { sum_by slot_size slots.now + 9 ≤ length bytes.old }
    ensures size { length bytes.new ≡ length bytes.old }
    ensures within { IfSome result (λ end. end ≤ length bytes.new) }
    ensures stand { IfSome result (λ end.
        list_all (parts.slot_stands block.now) slots.now ≡ true) }
    ensures text { IfSome result (λ end. take end bytes.new
        ≡ data_header front.local front.offset
        ∷ flat_map (λ s. items_bytes order (items_read block.now s)) slots.now) }
    ensures none { IsNone result → list_all (parts.slot_stands block.now) slots.now ≡ false }
{
    let at = place_bytes(bytes, 0, &[record_header(front)]);
    place_slots(bytes, at, order, block, slots)
}

/// Puts the bytes of a message at the start of others, with this record header and byte order, by its block and where the items of its
/// fields are, that many bytes. Returns how many bytes it has.
pub fn spell_lone(
    bytes: &mut Vec<u8>,
    front: MessageFront,
    order: Order,
    size: usize,
    slots: &[Slot],
    block: &[u8],
) -> Result<usize, Misfit>
    requires fits { DataHeaderFits front.local front.offset }
    requires slots { (p : Defined Global) × SlotsFit (layout p ++ dev_layout p) slots.now
        × (size ≡ message_size p) }
    requires small { size ≤ body_limit }
    ensures within { IfOk result (λ end. end ≤ length bytes.new.items) }
    ensures stands { OnOk result (list_all (parts.slot_stands block.now) slots.now ≡ true) }
    ensures message { IfOk result (λ end. (e : Environment Global) (p : Defined Global)
        → defined_at e front.local ≡ Some p → p.definition.order ≡ order
        → SlotsFit (layout p ++ dev_layout p) slots.now
        → IsRecord e (Data (message_with block.now slots.now (length p.definition.fields)
        front.local front.offset)) (take end bytes.new.items)) }
    ensures err { IfErr result (FailsBy BlockReason.Items
        (list_all (parts.slot_stands block.now) slots.now)) }
{
    make_room(bytes, size + 9)?;
    match write_lone(bytes.as_mut_slice(), front, order, block, slots) {
        Some(end) => Ok(end),
        None => Err(Misfit::Block(BlockReason::Items)),
    }
}
