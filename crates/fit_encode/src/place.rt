//! The bytes of a record, written into a slice from a place on (FIT protocol, "Record Header", "Definition Message", "Data Message").
//! Each function returns the place after what it wrote. A number is written with the bytes after it, so that
//! it takes one store of a fixed size: there is always room for eight bytes more.
ghost use Rattle.std.specs.Prelude.{◌≡◌, ◌⊎◌, ◌<◌, ◌≤◌, ◌+◌, ◌^◌, ◌++◌, ◌∷◌, [], ℕ, List, flat_map, length, take};
ghost use Rattle.std.specs.List.{AllByRecursion};
ghost use Rattle.fit_base.specs.Fields.{items_bytes};
ghost use Rattle.fit_base.specs.Numbers.{little_bytes, number_bytes};
ghost use Rattle.fit_record.specs.Environment.{dev_defs};
ghost use Rattle.fit_record.specs.Records.{field_bytes, dev_field_bytes, dev_part, definition_header, definition_bytes, DefinitionFits, data_header, data_bytes, DataHeaderFits};
ghost use Rattle.fit_encode.specs.inner.Spelling.{bytes_in_order, HasBytes, IsSpellable};

use crate::message::{data_header, definition_head};
use fit_base::{Entries, Items, Order, put_bits};
use fit_record::{DevDef, FieldDef, MessageDef, Record, Values};
use std::alloc::Allocator;

/// Writes bytes into a slice from a place on, where there is room for them. Returns the place after them.
#[inline(always)]
pub fn place_bytes(bytes: &mut [u8], at: usize, source: &[u8]) -> usize
    requires { at + length source.now ≤ length bytes.old }
    ensures size { length bytes.new ≡ length bytes.old }
    ensures end { result ≡ at + length source.now }
    ensures text { take result bytes.new ≡ take at bytes.old ++ source.now }
{
    let end = at + source.len();
    bytes[at..end].copy_from_slice(source);
    end
}

/// The eight bytes of a number, the lowest first.
fn eight_bytes(bits: u64) -> [u8; 8]
    ensures { result ≡ little_bytes 8 bits }
{
    bits.to_le_bytes()
}

/// Writes a number of this many bytes.
#[inline(always)]
pub(crate) fn place_number(bytes: &mut [u8], at: usize, order: Order, width: u8, bits: u64) -> usize
    requires width { (width ≡ 1) ⊎ (width ≡ 2) ⊎ (width ≡ 4) ⊎ (width ≡ 8) }
    requires bits { bits < 256 ^ width }
    requires room { at + 8 ≤ length bytes.old }
    ensures size { length bytes.new ≡ length bytes.old }
    ensures end { result ≡ at + width }
    ensures text { take result bytes.new ≡ take at bytes.old ++ number_bytes order width bits }
{
    match order {
        Order::Little => place_little(bytes, at, width, bits),
        Order::Big => place_big(bytes, at, width, bits),
    }
}

/// Writes a number, the lowest byte first.
#[inline(always)]
fn place_little(bytes: &mut [u8], at: usize, width: u8, bits: u64) -> usize
    requires width { width ≤ 8 }
    requires room { at + 8 ≤ length bytes.old }
    ensures size { length bytes.new ≡ length bytes.old }
    ensures end { result ≡ at + width }
    ensures text { take result bytes.new ≡ take at bytes.old ++ little_bytes width bits }
{
    let source = eight_bytes(bits);
    place_bytes(bytes, at, &source);
    at + width as usize
}

/// Writes a number of 1, 2, 4 or 8 bytes into a slice from a place on, the highest byte first. Returns the place after it.
#[inline(always)]
pub fn place_big(bytes: &mut [u8], at: usize, width: u8, bits: u64) -> usize
    requires width { (width ≡ 1) ⊎ (width ≡ 2) ⊎ (width ≡ 4) ⊎ (width ≡ 8) }
    requires bits { bits < 256 ^ width }
    requires room { at + 8 ≤ length bytes.old }
    ensures size { length bytes.new ≡ length bytes.old }
    ensures end { result ≡ at + width }
    ensures text { take result bytes.new ≡ take at bytes.old ++ number_bytes Order.Big width bits }
{
    match width {
        1 => place_bytes(bytes, at, &big_bytes::<1>(bits)),
        2 => place_bytes(bytes, at, &big_bytes::<2>(bits)),
        4 => place_bytes(bytes, at, &big_bytes::<4>(bits)),
        _ => place_bytes(bytes, at, &big_bytes::<8>(bits)),
    }
}

/// The bytes of a number, the highest first.
#[inline(always)]
fn big_bytes<const WIDTH: usize>(bits: u64) -> [u8; WIDTH]
    requires width { (WIDTH ≡ 1) ⊎ (WIDTH ≡ 2) ⊎ (WIDTH ≡ 4) ⊎ (WIDTH ≡ 8) }
    requires bits { bits < 256 ^ WIDTH }
    ensures { result ≡ number_bytes Order.Big WIDTH bits }
{
    let mut bytes = [0; WIDTH];
    put_bits(Order::Big, WIDTH as u8, bits, &mut bytes);
    bytes
}

/// Writes the items of one field.
#[inline(always)]
fn place_items<A: Allocator>(bytes: &mut [u8], at: usize, order: Order, items: &Items<A>) -> usize
    requires items { HasBytes items.now }
    requires room { at + length (items_bytes order items.now) + 8 ≤ length bytes.old }
    ensures size { length bytes.new ≡ length bytes.old }
    ensures end { result ≡ at + length (items_bytes order items.now) }
    ensures text { take result bytes.new ≡ take at bytes.old ++ items_bytes order items.now }
{
    match items.bits.as_slice() {
        [bits] => place_number(bytes, at, order, items.width, *bits),
        numbers => place_numbers(bytes, at, order, items.width, numbers),
    }
}

/// Writes any number of numbers.
#[inline(never)]
fn place_numbers(bytes: &mut [u8], at: usize, order: Order, width: u8, numbers: &[u64]) -> usize
    requires width { (width ≡ 1) ⊎ (width ≡ 2) ⊎ (width ≡ 4) ⊎ (width ≡ 8) }
    requires fit { AllByRecursion (λ n. n < 256 ^ width) numbers.now }
    requires room { at + length (flat_map (number_bytes order width) numbers.now) + 8
        ≤ length bytes.old }
    ensures size { length bytes.new ≡ length bytes.old }
    ensures end { result ≡ at + length (flat_map (number_bytes order width) numbers.now) }
    ensures text { take result bytes.new
        ≡ take at bytes.old ++ flat_map (number_bytes order width) numbers.now }
{
    let mut at = at;
    for bits in numbers {
        at = place_number(bytes, at, order, width, *bits);
    }
    at
}

/// Writes the items of fields.
fn place_lists<A: Allocator>(bytes: &mut [u8], at: usize, order: Order, lists: &[Items<A>]) -> usize
    requires lists { AllByRecursion HasBytes lists.now }
    requires room { at + length (flat_map (items_bytes order) lists.now) + 8 ≤ length bytes.old }
    ensures size { length bytes.new ≡ length bytes.old }
    ensures end { result ≡ at + length (flat_map (items_bytes order) lists.now) }
    ensures text { take result bytes.new
        ≡ take at bytes.old ++ flat_map (items_bytes order) lists.now }
{
    let mut at = at;
    for items in lists {
        at = place_items(bytes, at, order, items);
    }
    at
}

/// Writes a data message.
fn place_values<A: Allocator>(bytes: &mut [u8], at: usize, order: Order, v: &Values<A>) -> usize
    requires header { DataHeaderFits v.now.local v.now.offset }
    requires fields { AllByRecursion HasBytes v.now.fields }
    requires dev_fields { AllByRecursion HasBytes v.now.dev }
    requires room { at + length (data_bytes order v.now) + 9 ≤ length bytes.old }
    ensures size { length bytes.new ≡ length bytes.old }
    ensures end { result ≡ at + 1 + length (data_bytes order v.now) }
    ensures text { take result bytes.new ≡ take at bytes.old
        ++ data_header v.now.local v.now.offset ∷ data_bytes order v.now }
{
    let at = place_bytes(bytes, at, &[data_header(v.local, v.offset)]);
    let at = place_lists(bytes, at, order, v.fields.as_slice());
    place_lists(bytes, at, order, v.dev.as_slice())
}

/// The entry of a field, or of a developer field, in a definition message.
trait Entry {
    // Its bytes.
    ghost spelled: { Self → List ℕ };

    fn three_bytes(&self) -> [u8; 3]
        ensures { result ≡ spelled self.now };
}

impl Entry for FieldDef {
    ghost spelled = { field_bytes };

    fn three_bytes(&self) -> [u8; 3] {
        [self.number, self.size, self.code]
    }
}

impl Entry for DevDef {
    ghost spelled = { dev_field_bytes };

    fn three_bytes(&self) -> [u8; 3] {
        [self.number, self.size, self.index]
    }
}

/// Writes the entries of fields or of developer fields.
fn place_entries<E: Entry>(bytes: &mut [u8], at: usize, fields: &[E]) -> usize
    requires { at + length (flat_map E.spelled fields.now) ≤ length bytes.old }
    ensures size { length bytes.new ≡ length bytes.old }
    ensures end { result ≡ at + length (flat_map E.spelled fields.now) }
    ensures text { take result bytes.new ≡ take at bytes.old ++ flat_map E.spelled fields.now }
{
    let mut at = at;
    for f in fields {
        at = place_bytes(bytes, at, &f.three_bytes());
    }
    at
}

/// Writes the number of developer fields and their entries, where there are any.
fn place_dev_part<A: Allocator>(
    bytes: &mut [u8],
    at: usize,
    dev: &Option<Entries<DevDef, A>>,
) -> usize
    requires few { length (dev_defs dev.now) < 256 }
    requires room { at + length (dev_part dev.now) ≤ length bytes.old }
    ensures size { length bytes.new ≡ length bytes.old }
    ensures end { result ≡ at + length (dev_part dev.now) }
    ensures text { take result bytes.new ≡ take at bytes.old ++ dev_part dev.now }
{
    match dev {
        None => at,
        Some(fields) => {
            let at = place_bytes(bytes, at, &[fields.len() as u8]);
            place_entries(bytes, at, fields.as_slice())
        }
    }
}

/// Writes a definition message.
fn place_definition<A: Allocator>(bytes: &mut [u8], at: usize, d: &MessageDef<A>) -> usize
    requires fits { DefinitionFits d.now }
    requires room { at + length (definition_bytes d.now) + 1 ≤ length bytes.old }
    ensures size { length bytes.new ≡ length bytes.old }
    ensures end { result ≡ at + 1 + length (definition_bytes d.now) }
    ensures text { take result bytes.new
        ≡ take at bytes.old ++ definition_header d.now ∷ definition_bytes d.now }
{
    let at = place_bytes(bytes, at, &definition_head(d));
    let at = place_entries(bytes, at, d.fields.as_slice());
    place_dev_part(bytes, at, &d.dev)
}

/// Writes a record. The order is that of its local message type where it is a data message.
pub(crate) fn place_record<A: Allocator>(
    bytes: &mut [u8],
    at: usize,
    order: Order,
    r: &Record<A>,
) -> usize
    requires spellable { IsSpellable r.now }
    requires room { at + length (bytes_in_order order r.now) + 8 ≤ length bytes.old }
    ensures size { length bytes.new ≡ length bytes.old }
    ensures end { result ≡ at + length (bytes_in_order order r.now) }
    ensures text { take result bytes.new ≡ take at bytes.old ++ bytes_in_order order r.now }
{
    match r {
        Record::Define(d) => place_definition(bytes, at, d),
        Record::Values(v) => place_values(bytes, at, order, v),
    }
}
