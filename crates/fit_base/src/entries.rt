//! A vector that contracts see as the list of its elements.
ghost use Rattle.std.specs.Prelude.{◌≡◌, [], ◌∷◌, ◌++◌, ◌==◌, OnOk, OnErr, IfOk, IfErr, IsSome, ◌↔◌, ◌<◌, length, option_to_list};

use std::alloc::{AllocError, AllocFailed, Allocator, Global};
use std::marker::Model;

/// The elements of a vector, in their order.
#[derive(Drop)]
#[derive_where(Debug; T)]
pub struct Entries<T, A: Allocator = Global> {
    items: Vec<T, A>,
}

impl<T, A: Allocator> Model for Entries<T, A> {
    ghost use Rattle.std.specs.Prelude.{List};

    ghost Value = { List T };

    ghost view = { λ a. a.items.items };
}

impl<T: PartialEq, A: Allocator> PartialEq for Entries<T, A> {
    ghost use Rattle.std.specs.Cmp.Lexicographic.{pointwise, lists_per};

    ghost eq = { λ x y. pointwise T.eq x y };

    ghost laws = { lists_per T.laws };

    fn eq(&self, other: &Self) -> bool {
        self.items == other.items
    }
}

impl<T: Copy, A: Allocator> Entries<T, A> {
    /// The elements of a slice.
    pub fn from_slice(alloc: A, elements: &[T]) -> Result<Self, AllocError>
        ensures { IfOk result (λ entries. entries ≡ elements.now) }
    {
        Ok(Entries::from_vec(Vec::from_slice(alloc, elements)?))
    }
}

impl<T, A: Allocator> Entries<T, A> {
    /// No elements.
    pub fn new(alloc: A) -> Self
        ensures { result ≡ [] }
    {
        Entries {
            items: Vec::new(alloc),
        }
    }

    /// No elements, and memory for this many.
    pub fn with_capacity(alloc: A, capacity: usize) -> Result<Self, AllocError>
        ensures { IfOk result (λ entries. entries ≡ []) }
    {
        Ok(Entries {
            items: Vec::with_capacity(alloc, capacity)?,
        })
    }

    /// The elements of a vector, which keeps its memory.
    pub fn from_vec(items: Vec<T, A>) -> Self
        ensures { result ≡ items.items }
    {
        Entries { items }
    }

    /// The vector of the elements, which keeps its memory.
    pub fn into_vec(self) -> Vec<T, A>
        ensures { result.items ≡ self }
    {
        self.items
    }

    /// The elements.
    pub fn as_slice(&self) -> &[T]
        ensures { result.now ≡ self.now }
    {
        self.items.as_slice()
    }

    /// How many elements there are.
    pub fn len(&self) -> usize
        ensures { result ≡ length self.now }
    {
        self.items.len()
    }

    /// Whether there are none.
    pub fn is_empty(&self) -> bool
        ensures { result ≡ (length self.now == 0) }
    {
        self.items.is_empty()
    }

    /// Puts an element at the end. Where memory is refused, the element comes back.
    pub fn push(&mut self, item: T) -> Result<(), AllocFailed<T>>
        ensures ok { OnOk result (self.new ≡ self.old ++ item ∷ []) }
        ensures err { OnErr result (self.new ≡ self.old) }
        ensures returned { IfErr result (λ failed. failed.value ≡ item) }
    {
        self.items.push(item)
    }

    /// Takes the last element away. The memory stays.
    pub fn pop(&mut self) -> Option<T>
        ensures last { self.old ≡ self.new ++ option_to_list result }
        ensures some { IsSome result ↔ (0 < length self.old) }
    {
        self.items.pop()
    }
}
