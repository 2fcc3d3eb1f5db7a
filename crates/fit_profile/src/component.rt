//! Accumulated values of record messages.
ghost use Rattle.std.specs.Prelude.{◌≡◌, ◌≤◌, ◌<◌, ◌^◌, length, IfSome};
ghost use Rattle.fit_base.specs.Numbers as numbers;
ghost use Rattle.fit_profile.specs.Accumulated.{number_in, number_of};
ghost use Rattle.fit_profile.specs.inner.Places.{AreFieldPlaces};

use crate::places::first_at;
use fit_base::Items;
use fit_record::{MessageDef, Values};
use std::alloc::Allocator;

/// A field whose items hold a counter.
#[derive(Clone, Copy)]
pub struct Component {
    pub field: u8,
    /// How many items there are.
    pub items: usize,
    pub width: u8,
    /// The number that counts nothing, the greatest one.
    pub skipped: u64,
    /// The counter is the number over this.
    pub divisor: u64,
    /// The counter starts again here.
    pub modulus: u64,
}

/// The number that the items make up, the lowest first.
fn little(bits: &[u64]) -> u128
    requires { length bits.now ≤ 3 }
    ensures { result ≡ numbers.little bits.now }
{
    match bits.len() {
        0 => 0,
        1 => bits[0] as u128,
        2 => bits[0] as u128 + 256 * bits[1] as u128,
        _ => bits[0] as u128 + 256 * (bits[1] as u128 + 256 * bits[2] as u128),
    }
}

/// The number of a component in its items.
fn number_at<A: Allocator>(c: Component, items: &Items<A>) -> Option<u64>
    requires items { c.items ≤ 3 }
    requires skipped { c.skipped ≤ 2 ^ 24 }
    ensures small { IfSome result (λ n. n < 2 ^ 24) }
    ensures number { result ≡ number_in c items.now }
{
    if items.width != c.width {
        return None;
    }
    if items.bits.len() != c.items {
        return None;
    }
    let number = little(items.bits.as_slice());
    if number < c.skipped as u128 {
        Some(number as u64)
    } else {
        None
    }
}

/// The number of a component in a message, by the places of the fields.
#[inline(always)]
pub(crate) fn number_by<A: Allocator>(
    c: Component,
    definition: &MessageDef<A>,
    values: &Values<A>,
    places: &[u8; 256],
) -> Option<u64>
    requires items { c.items ≤ 3 }
    requires skipped { c.skipped ≤ 2 ^ 24 }
    requires places { AreFieldPlaces places.now definition.now.fields }
    ensures small { IfSome result (λ n. n < 2 ^ 24) }
    ensures number { result ≡ number_of c definition.now values.now }
{
    if definition.global != 20 {
        return None;
    }
    let (_, items) = first_at(
        definition.fields.as_slice(),
        values.fields.as_slice(),
        places,
        c.field,
    )?;
    number_at(c, items)
}
