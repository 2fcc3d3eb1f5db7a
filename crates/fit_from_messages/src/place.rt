//! The items of a message's block, written into a slice from a place on as a file has them. Each function returns the place after what it
//! wrote. A field of at most eight bytes is written with the bytes after it, so that it takes one load and one store: there is always room
//! for eight bytes more.
ghost use Rattle.std.specs.Prelude.{◌≡◌, ◌⊎◌, ◌≤◌, ◌+◌, ◌*◌, ◌++◌, All, IfSome, IsNone, drop, false, flat_map, length, sum_by, take, true};
ghost use Rattle.std.specs.List.{list_all};
ghost use Rattle.fit_base.specs.Fields.{items_bytes};
ghost use Rattle.fit_base.specs.Numbers.{number_bytes};
ghost use Rattle.fit_record.specs.ReadMessages.{numbers_of};
ghost use Rattle.fit_from_messages.specs.Parts.{items_read, slot_stands};
ghost use Rattle.fit_from_messages.specs.Slots.{IsSlot, slot_size};

use crate::slot::{Slot, Slots};
use fit_base::{Order, bits_at};
use fit_encode::{place_big, place_bytes};

/// Writes that many first bytes of some others.
#[inline(always)]
#[tactic(auto, using(crate::proofs::PlacedItems::first_of_eight))]
fn place_first(bytes: &mut [u8], at: usize, source: &[u8], size: usize) -> usize
    requires within { size ≤ length source.now }
    requires room { at + size + 8 ≤ length bytes.old }
    ensures size { length bytes.new ≡ length bytes.old }
    ensures end { result ≡ at + size }
    ensures text { take result bytes.new ≡ take at bytes.old ++ take size source.now }
{
    if size <= 8 && source.len() >= 8 {
        let (eight, _) = source.split_at(8);
        place_bytes(bytes, at, eight);
        return at + size;
    }
    let (piece, _) = source.split_at(size);
    place_bytes(bytes, at, piece)
}

/// Writes that many numbers of this width, which begin some bytes with their lowest byte first, with their highest byte first.
#[inline(never)]
fn place_turned(bytes: &mut [u8], at: usize, source: &[u8], width: u8, count: u8) -> usize
    requires width { (width ≡ 1) ⊎ (width ≡ 2) ⊎ (width ≡ 4) ⊎ (width ≡ 8) }
    requires within { count * width ≤ length source.now }
    requires room { at + count * width + 8 ≤ length bytes.old }
    ensures size { length bytes.new ≡ length bytes.old }
    ensures end { result ≡ at + count * width }
    ensures text { take result bytes.new ≡ take at bytes.old
        ++ flat_map (number_bytes Order.Big width)
        (numbers_of Order.Little width count source.now) }
{
    let mut end = at;
    let mut rest = source;
    for _ in 0..count {
        let (piece, after) = rest.split_at(width as usize);
        let bits = bits_at(Order::Little, width, piece);
        end = place_big(bytes, end, width, bits);
        rest = after;
    }
    end
}

/// Writes the items of a field, which are in the block.
#[inline(always)]
fn place_slot(bytes: &mut [u8], at: usize, order: Order, block: &[u8], slot: Slot) -> usize
    requires slot { IsSlot slot }
    requires within { slot_stands block.now slot ≡ true }
    requires room { at + slot_size slot + 8 ≤ length bytes.old }
    ensures size { length bytes.new ≡ length bytes.old }
    ensures end { result ≡ at + slot_size slot }
    ensures text { take result bytes.new
        ≡ take at bytes.old ++ items_bytes order (items_read block.now slot) }
{
    let (_, source) = block.split_at(slot.place as usize);
    match order {
        Order::Little => place_first(bytes, at, source, slot.size()),
        Order::Big => place_turned(bytes, at, source, slot.width, slot.count),
    }
}

/// Writes the items of these fields, unless some aren't in the block.
#[inline(always)]
pub(crate) fn place_slots(
    bytes: &mut [u8],
    at: usize,
    order: Order,
    block: &[u8],
    slots: &[Slot],
) -> Option<usize>
    requires slots { All IsSlot slots.now }
    requires room { at + sum_by slot_size slots.now + 8 ≤ length bytes.old }
    ensures size { length bytes.new ≡ length bytes.old }
    ensures stand { IfSome result (λ end. list_all (slot_stands block.now) slots.now ≡ true) }
    ensures end { IfSome result (λ end. end ≡ at + sum_by slot_size slots.now) }
    ensures text { IfSome result (λ end. take end bytes.new ≡ take at bytes.old
        ++ flat_map (λ s. items_bytes order (items_read block.now s)) slots.now) }
    ensures none { IsNone result → list_all (slot_stands block.now) slots.now ≡ false }
{
    let mut end = at;
    for slot in slots {
        if slot.place as usize + slot.size() > block.len() {
            return None;
        }
        end = place_slot(bytes, end, order, block, *slot);
    }
    Some(end)
}

/// Writes the items of all fields, unless some aren't in the block. Fields without items are passed over.
#[inline(always)]
pub(crate) fn place_all(
    bytes: &mut [u8],
    at: usize,
    order: Order,
    block: &[u8],
    slots: &Slots,
) -> Option<usize>
    requires slots { All IsSlot slots.now }
    requires room { at + sum_by slot_size slots.now + 8 ≤ length bytes.old }
    ensures size { length bytes.new ≡ length bytes.old }
    ensures stand { IfSome result (λ end. list_all (slot_stands block.now) slots.now ≡ true) }
    ensures end { IfSome result (λ end. end ≡ at + sum_by slot_size slots.now) }
    ensures text { IfSome result (λ end. take end bytes.new ≡ take at bytes.old
        ++ flat_map (λ s. items_bytes order (items_read block.now s)) slots.now) }
    ensures none { IsNone result → list_all (slot_stands block.now) slots.now ≡ false }
{
    if slots.reach() > block.len() {
        return None;
    }
    place_slots(bytes, at, order, block, slots.full())
}
