//! What a field description says, found in its bytes by one walk over the fields of its definition.
ghost use Rattle.std.specs.Prelude.{◌≡◌, ℕ, ◌<◌, ◌≤◌, ◌==◌, ◌+◌, Option, IsSome, [], None, true, false, if◌then◌else◌, drop, length, map, slice_index_or, take};
ghost use Rattle.std.specs.List.{AllByRecursion};
ghost use Rattle.fit_record.specs.Environment.{description, only};
ghost use Rattle.fit_record.specs.ReadMessages.{fields_from};
ghost use Rattle.fit_record.specs.Records.{sizes};
ghost use Rattle.fit_record.specs.inner.Describing.{described_by_three, so_far, IsPassedBy};

use crate::learn::{Description, DevKey};
use crate::{FieldDef, MessageDef};
use std::alloc::Allocator;

/// What a field description describes, by its bytes. Most fields of a hostile one have no bytes, and are passed by.
#[inline(never)]
pub(crate) fn description_by_bytes<A: Allocator>(
    d: &MessageDef<A>,
    bytes: &[u8],
) -> Option<Description>
    requires global { d.now.global ≡ 206 }
    requires size { sizes (map (λ f. (f.code, f.size)) d.now.fields) ≤ length bytes.now }
    ensures { result ≡ description d.now (record {
      local = 0;
      offset = None;
      fields = fields_from {A = A} d.now.order (map (λ f. (f.code, f.size)) d.now.fields) bytes.now;
      dev = [];
    }) }
{
    if bytes.is_empty() {
        return None;
    }
    let mut found = [None, None, None];
    let mut rest = bytes;
    let fields = d.fields.as_slice();
    let mut place = 0;
    while place < fields.len() {
        let silent = silent_from(fields, place);
        if silent > 0 {
            place += silent;
        } else {
            let field = fields[place];
            let (here, after) = rest.split_at(field.size as usize);
            if !take_field(&mut found, field.number, here) {
                return None;
            }
            if after.is_empty() || are_found(&found) {
                return described_by(&found);
            }
            rest = after;
            place += 1;
        }
    }
    described_by(&found)
}

/// How many fields from a place on are passed by together, since they have no bytes and are none of fields 0, 1 and 2: sixteen, where
/// a multiple of sixteen stand before them, or else four, one or none.
#[inline(always)]
fn silent_from(fields: &[FieldDef], place: usize) -> usize
    requires { place < length fields.now }
    ensures within { place + result ≤ length fields.now }
    ensures silent { AllByRecursion IsPassedBy (take result (drop place fields.now)) }
{
    let (_, left) = fields.split_at(place);
    if place % 16 == 0 && left.len() >= 16 {
        let (sixteen, _) = left.split_at(16);
        if are_sixteen_silent(sixteen) {
            return 16;
        }
    }
    if place % 4 == 0 && left.len() >= 4 {
        let (four, _) = left.split_at(4);
        if are_four_silent(four) {
            return 4;
        }
    }
    if is_silent(&left[0]) { 1 } else { 0 }
}

/// Whether a field has no bytes, and is none of fields 0, 1 and 2.
#[inline(always)]
fn is_silent(field: &FieldDef) -> bool
    ensures { result ≡ true → IsPassedBy field.now }
{
    (field.number > 2) & (field.size == 0)
}

/// Whether four fields are none of fields 0, 1 and 2.
#[inline(always)]
fn are_others(four: &[FieldDef]) -> bool
    requires { length four.now ≡ 4 }
    ensures { result ≡ true → AllByRecursion (λ f. 3 ≤ f.number) four.now }
{
    (four[0].number > 2) & (four[1].number > 2) & (four[2].number > 2) & (four[3].number > 2)
}

/// Whether four fields have no bytes.
#[inline(always)]
fn are_empty(four: &[FieldDef]) -> bool
    requires { length four.now ≡ 4 }
    ensures { result ≡ true → AllByRecursion (λ f. f.size ≡ 0) four.now }
{
    (four[0].size == 0) & (four[1].size == 0) & (four[2].size == 0) & (four[3].size == 0)
}

/// Whether four fields have no bytes, and are none of fields 0, 1 and 2.
#[inline(always)]
fn are_four_silent(four: &[FieldDef]) -> bool
    requires { length four.now ≡ 4 }
    ensures { result ≡ true → AllByRecursion IsPassedBy four.now }
{
    are_others(four) & are_empty(four)
}

/// Whether eight fields have no bytes, and are none of fields 0, 1 and 2. Their numbers are compared first, and then their sizes, so that
/// the compiler compares eight numbers at once.
#[inline(always)]
fn are_eight_silent(eight: &[FieldDef]) -> bool
    requires { length eight.now ≡ 8 }
    ensures { result ≡ true → AllByRecursion IsPassedBy eight.now }
{
    let (four, others) = eight.split_at(4);
    (are_others(four) & are_others(others)) & (are_empty(four) & are_empty(others))
}

/// The same of sixteen fields.
#[inline(always)]
fn are_sixteen_silent(sixteen: &[FieldDef]) -> bool
    requires { length sixteen.now ≡ 16 }
    ensures { result ≡ true → AllByRecursion IsPassedBy sixteen.now }
{
    let (eight, others) = sixteen.split_at(8);
    are_eight_silent(eight) & are_eight_silent(others)
}

/// Whether the bytes of all three fields are found.
#[inline(always)]
fn are_found(found: &[Option<u8>; 3]) -> bool
    ensures { result ≡ true → (n : ℕ) → n < 3 → IsSome (slice_index_or found.now n None) }
{
    found[0].is_some() && found[1].is_some() && found[2].is_some()
}

/// Takes the bytes of a field in, where it is the first of field 0, 1 or 2. Whether there are none of these, or just one.
#[inline(always)]
fn take_field(found: &mut [Option<u8>; 3], number: u8, here: &[u8]) -> bool
    ensures goes { result ≡ true → (n : ℕ) → n < 3 → (later : Option ℕ)
        → so_far (slice_index_or found.new n None) later ≡ so_far (slice_index_or found.old n None)
        (if number == n then only here.now else later) }
    ensures ends { result ≡ false → (number < 3) × (slice_index_or found.old number None ≡ None)
        × (only here.now ≡ None) }
    ensures three { length found.old ≡ 3 }
{
    if number > 2 || found[number as usize].is_some() {
        return true;
    }
    let byte = lone_byte(here);
    found[number as usize] = byte;
    byte.is_some()
}

/// The description that has these bytes for fields 0, 1 and 2. There is none where one is missing.
#[inline(always)]
fn described_by(found: &[Option<u8>; 3]) -> Option<Description>
    ensures { result ≡ described_by_three (slice_index_or found.now 0 None)
        (slice_index_or found.now 1 None) (slice_index_or found.now 2 None) }
{
    let index = found[0]?;
    let number = found[1]?;
    let code = found[2]?;
    Some(Description {
        key: DevKey { index, number },
        code,
    })
}

/// The one byte where there is just one.
fn lone_byte(bytes: &[u8]) -> Option<u8>
    ensures { result ≡ only bytes.now }
{
    match bytes {
        [byte] => Some(*byte),
        _ => None,
    }
}
