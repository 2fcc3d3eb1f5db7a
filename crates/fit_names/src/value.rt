//! The numbers that items of fields hold.
ghost use Rattle.std.specs.Prelude.{◌≡◌, ◌⊎◌, ◌+◌, ◌≤◌, ◌<◌, ◌^◌, ◌≤ℤ◌, ◌<ℤ◌, ◌==◌, ◌&&◌, not, nat_lt, if◌then◌else◌, IfSome, option_and_then, option_map, pos, neg_ℤ, slice_get};
ghost use Rattle.fit_base.specs.Numbers.{twos_complement};
ghost use Rattle.fit_numbers.specs.Scaled.{IsScale};
ghost use Rattle.fit_names.specs.Values as values;
ghost use Rattle.fit_names.specs.Names as names;
ghost use Rattle.fit_names.specs.Values.{IsAmount, IsValueOf};

use crate::profile::info_of;
use crate::{Info, fixed};
use fit_base::base_type::{
    ENUM, SINT8, SINT16, SINT32, SINT64, UINT8, UINT8Z, UINT16, UINT16Z, UINT32, UINT32Z, UINT64,
    UINT64Z,
};
use fit_base::{Items, has_width, signed};
use fit_numbers::Fixed;
use fit_record::FieldDef;
use std::alloc::Allocator;

/// A number of units of which `scale` are one.
pub fn in_scale(number: Option<u64>, scale: u32) -> Option<Fixed>
    requires { IsScale scale }
    ensures amount { IsAmount scale number result }
    ensures few { IfSome result (λ v. v.decimals ≤ 8) }
{
    let info = Info {
        name: "",
        unit: "",
        scale,
        offset: 0,
    };
    match number {
        Some(number) => Some(fixed(i128::from(number), info)),
        None => None,
    }
}

/// A number of `own` bytes, of which the greatest is no value.
#[inline(always)]
fn below(own: u8, greatest: u64, width: u8, bits: u64) -> Option<i128>
    requires { greatest + 1 ≡ 256 ^ own }
    ensures number { result ≡ (if (width == own && nat_lt bits (256 ^ own))
        && not (bits == greatest) then Some (pos bits) else None) }
    ensures least { IfSome result (λ n. neg_ℤ (pos (2 ^ 63)) ≤ℤ n) }
    ensures most { IfSome result (λ n. n <ℤ pos (2 ^ 64)) }
{
    if width == own && bits < greatest {
        Some(i128::from(bits))
    } else {
        None
    }
}

/// A number of `own` bytes, of which 0 is no value.
#[inline(always)]
fn above_zero(own: u8, greatest: u64, width: u8, bits: u64) -> Option<i128>
    requires { greatest + 1 ≡ 256 ^ own }
    ensures number { result ≡ (if (width == own && nat_lt bits (256 ^ own))
        && not (bits == 0) then Some (pos bits) else None) }
    ensures least { IfSome result (λ n. neg_ℤ (pos (2 ^ 63)) ≤ℤ n) }
    ensures most { IfSome result (λ n. n <ℤ pos (2 ^ 64)) }
{
    if width == own && bits != 0 && bits <= greatest {
        Some(i128::from(bits))
    } else {
        None
    }
}

/// A number of `own` bytes in two's complement, of which the greatest is no value.
#[inline(always)]
fn with_sign(own: u8, invalid: u64, width: u8, bits: u64) -> Option<i128>
    requires { (own ≡ 1) ⊎ (own ≡ 2) ⊎ (own ≡ 4) ⊎ (own ≡ 8) }
    ensures number { result ≡ (if (width == own && nat_lt bits (256 ^ own))
        && not (bits == invalid) then Some (twos_complement own bits) else None) }
    ensures least { IfSome result (λ n. neg_ℤ (pos (2 ^ 63)) ≤ℤ n) }
    ensures most { IfSome result (λ n. n <ℤ pos (2 ^ 64)) }
{
    if width == own && has_width(bits, own) && bits != invalid {
        Some(i128::from(signed(own, bits)))
    } else {
        None
    }
}

/// The number that an item of its code's width holds, where it is valid. One jump leads to all that is to be known of a code.
#[inline(always)]
fn valid_number(code: u8, width: u8, bits: u64) -> Option<i128>
    ensures number { result ≡ values.valid_number code width bits }
    ensures least { IfSome result (λ n. neg_ℤ (pos (2 ^ 63)) ≤ℤ n) }
    ensures most { IfSome result (λ n. n <ℤ pos (2 ^ 64)) }
{
    match code {
        ENUM | UINT8 => below(1, 0xFF, width, bits),
        UINT16 => below(2, 0xFFFF, width, bits),
        UINT32 => below(4, 0xFFFF_FFFF, width, bits),
        UINT64 => below(8, u64::MAX, width, bits),
        SINT8 => with_sign(1, 0x7F, width, bits),
        SINT16 => with_sign(2, 0x7FFF, width, bits),
        SINT32 => with_sign(4, 0x7FFF_FFFF, width, bits),
        SINT64 => with_sign(8, 0x7FFF_FFFF_FFFF_FFFF, width, bits),
        UINT8Z => above_zero(1, 0xFF, width, bits),
        UINT16Z => above_zero(2, 0xFFFF, width, bits),
        UINT32Z => above_zero(4, 0xFFFF_FFFF, width, bits),
        UINT64Z => above_zero(8, u64::MAX, width, bits),
        _ => None,
    }
}

/// A raw number of field `number` of a message, scaled as the profile says, where it lists the field.
#[inline(always)]
fn scaled(global: u16, number: u8, raw: i128) -> Option<Fixed>
    requires least { neg_ℤ (pos (2 ^ 63)) ≤ℤ raw }
    requires most { raw <ℤ pos (2 ^ 64) }
    ensures value { IsValueOf (option_map (λ m. (raw, m)) (names.field global number)) result }
    ensures few { IfSome result (λ v. v.decimals ≤ 8) }
{
    let info = info_of(global, number)?;
    Some(fixed(raw, info))
}

/// The number of an item of field `number` of a message, by the base type code and the width of the items, scaled as the profile
/// says, where it lists the field, and the item is a valid number.
pub fn value_of(global: u16, number: u8, code: u8, width: u8, bits: u64) -> Option<Fixed>
    ensures value { IsValueOf (option_and_then
        (λ raw. option_map (λ m. (raw, m)) (names.field global number))
        (values.valid_number code width bits)) result }
    ensures few { IfSome result (λ v. v.decimals ≤ 8) }
{
    scaled(global, number, valid_number(code, width, bits)?)
}

/// The first of the items.
#[inline(always)]
fn first_item<A: Allocator>(items: &Items<A>) -> Option<u64>
    ensures { result ≡ slice_get items.now.bits 0 }
{
    match items.bits.as_slice() {
        [bits, ..] => Some(*bits),
        [] => None,
    }
}

/// The number of the first item of field `number` of a message, scaled as the profile says, where it lists the field, and the item
/// is a valid number.
#[inline(always)]
pub fn value_in<A: Allocator>(
    global: u16,
    number: u8,
    field: &FieldDef,
    items: &Items<A>,
) -> Option<Fixed>
    ensures value { IsValueOf (option_and_then
        (λ raw. option_map (λ m. (raw, m)) (names.field global number))
        (values.first_number field.now items.now)) result }
    ensures few { IfSome result (λ v. v.decimals ≤ 8) }
{
    let bits = first_item(items)?;
    scaled(global, number, valid_number(field.code, items.width, bits)?)
}
