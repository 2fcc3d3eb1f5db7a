//! What holds of numbers, their bytes and the items of a field.
ghost use Rattle.fit_base.specs.Laws.{ItemsAndBytes, NumbersAndBytes, SignedNumbers};

use std::alloc::Allocator;

/// As many bytes as a width has, and the numbers of that width, determine each other.
#[tactic(auto, using(crate::proofs::NumberLaws::numbers_and_bytes))]
pub fn numbers_and_bytes()
    ensures { NumbersAndBytes }
{}

/// Item `k` of a field is the number of the `k`-th piece of its bytes, and such items and their
/// bytes determine each other.
pub fn items_and_bytes<A: Allocator>()
    ensures { ItemsAndBytes A }
{}

/// Bits stand for one number of two's complement.
#[tactic(auto, using(crate::proofs::Signs::signed_numbers))]
pub fn signed_numbers()
    ensures { SignedNumbers }
{}
