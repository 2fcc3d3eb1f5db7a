//! The items of a field, and whether they are of the shape that its definition gives.
ghost use Rattle.std.specs.Prelude.{◌≡◌, ◌↔◌, ◌≤◌, [], ◌∷◌, IfOk, IsOk, IsTrue, All, length};
ghost use Rattle.fit_base.specs.Fields.{HasShape};

use crate::code::items_in;
use crate::{Bits, Code, greatest, has_width, width_of};
use std::alloc::{AllocError, Allocator, Global};

/// The numbers of one field, each of `width` bytes.
#[derive(Drop)]
#[derive_where(Debug, PartialEq)]
pub struct Items<A: Allocator = Global> {
    /// How many bytes each item has: 1, 2, 4 or 8.
    pub width: u8,
    /// The items, each below `256 ^ width`.
    pub bits: Bits<A>,
}

impl<A: Allocator> Items<A> {
    /// One number of this many bytes, which takes no memory.
    pub fn one(alloc: A, width: u8, number: u64) -> Self
        ensures { result ≡ record { width = width; bits = number ∷ [] } }
    {
        Items {
            width,
            bits: Bits::one(alloc, number),
        }
    }

    /// These numbers, each of this many bytes. None and a lone one take no memory.
    pub fn from_slice(alloc: A, width: u8, numbers: &[u64]) -> Result<Self, AllocError>
        ensures same { IfOk result (λ items.
            items ≡ record { width = width; bits = numbers.now }) }
        ensures one { length numbers.now ≤ 1 → IsOk result }
    {
        Ok(Items {
            width,
            bits: Bits::from_slice(alloc, numbers)?,
        })
    }
}

/// Whether the items are as many, as wide and as large as a field of this code and size has.
#[inline(always)]
pub fn has_shape<A: Allocator>(code: Code, size: u8, items: &Items<A>) -> bool
    ensures { IsTrue result ↔ HasShape code.0 size items.now }
{
    if items.width == size && code.width() == size {
        if let Some(number) = items.bits.lone() {
            return has_width(number, size);
        }
    }
    has_shape_of_any(code, size, items)
}

/// Whether items have the shape of a field that needn't be a lone number. It stands apart, since most fields are one.
#[inline(never)]
fn has_shape_of_any<A: Allocator>(code: Code, size: u8, items: &Items<A>) -> bool
    ensures { IsTrue result ↔ HasShape code.0 size items.now }
{
    let width = width_of(code, size);
    if items.width != width {
        return false;
    }
    if items.bits.len() != items_in(size, width) as usize {
        return false;
    }
    all_at_most(greatest(width), items.bits.as_slice())
}

/// Whether all numbers are at most this one.
fn all_at_most(most: u64, bits: &[u64]) -> bool
    ensures { IsTrue result ↔ All (λ n. n ≤ most) bits.now }
{
    bits.iter().all(|n| *n <= most)
}
