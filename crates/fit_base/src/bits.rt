//! The numbers of a field, of which a lone one takes no memory.
ghost use Rattle.std.specs.Prelude.{◌≡◌, ◌≤◌, [], ◌∷◌, ◌++◌, ◌==◌, ◌<◌, ◌↔◌, OnOk, OnErr, IfOk, IsOk, IfSome, IsSome, length, option_to_list};

use std::alloc::{AllocError, Allocator, Global};
use std::fmt::{self, Debug, Formatter, Write};
use std::marker::Model;
use std::slice;

/// Where the numbers are kept.
#[derive(Drop)]
enum Held<A: Allocator> {
    None(A),
    One(u64, A),
    Many(Vec<u64, A>),
}

/// A list of numbers. Most fields have one, and it takes no memory.
#[derive(Drop)]
pub struct Bits<A: Allocator = Global> {
    held: Held<A>,
}

impl<A: Allocator> Model for Bits<A> {
    ghost use Rattle.std.specs.Prelude.{List, ℕ};
    ghost use Rattle.fit_base.specs.inner.Held.{numbers};

    ghost Value = { List ℕ };

    ghost view = { λ b. numbers b.held };
}

impl<A: Allocator> PartialEq for Bits<A> {
    ghost use Rattle.std.specs.Prelude.{nat_eq};
    ghost use Rattle.std.specs.Cmp.Lexicographic.{pointwise, nat_list_eq_equiv};
    ghost use Rattle.std.specs.Cmp.{partial_equiv_from_equiv};

    ghost eq = { λ x y. pointwise nat_eq x y };

    ghost laws = { partial_equiv_from_equiv nat_list_eq_equiv };

    fn eq(&self, other: &Self) -> bool {
        self.as_slice() == other.as_slice()
    }
}

impl<A: Allocator> Debug for Bits<A> {
    fn fmt<W: Write>(&self, f: &mut Formatter<W>) -> fmt::Result {
        Debug::fmt(&self.as_slice(), f)
    }
}

impl<A: Allocator> Bits<A> {
    /// No numbers.
    pub fn new(alloc: A) -> Self
        ensures { result ≡ [] }
    {
        Bits {
            held: Held::None(alloc),
        }
    }

    /// One number, which takes no memory.
    pub fn one(alloc: A, number: u64) -> Self
        ensures { result ≡ number ∷ [] }
    {
        Bits {
            held: Held::One(number, alloc),
        }
    }

    /// The numbers of a vector, which keeps its memory.
    pub fn from_vec(numbers: Vec<u64, A>) -> Self
        ensures { result ≡ numbers.items }
    {
        Bits {
            held: Held::Many(numbers),
        }
    }

    /// The numbers of a slice. None and a lone one take no memory.
    pub fn from_slice(alloc: A, numbers: &[u64]) -> Result<Self, AllocError>
        ensures same { IfOk result (λ bits. bits ≡ numbers.now) }
        ensures one { length numbers.now ≤ 1 → IsOk result }
    {
        match numbers {
            [] => Ok(Bits::new(alloc)),
            [number] => Ok(Bits::one(alloc, *number)),
            _ => Ok(Bits::from_vec(Vec::from_slice(alloc, numbers)?)),
        }
    }

    /// The bytes, each as a number. None and a lone one take no memory.
    pub fn from_bytes(alloc: A, bytes: &[u8]) -> Result<Self, AllocError>
        ensures same { IfOk result (λ bits. bits ≡ bytes.now) }
        ensures one { length bytes.now ≤ 1 → IsOk result }
    {
        match bytes {
            [] => Ok(Bits::new(alloc)),
            [byte] => Ok(Bits::one(alloc, u64::from(*byte))),
            _ => {
                let numbers: Vec<u64, A> = bytes
                    .iter()
                    .map(|byte| u64::from(*byte))
                    .collect(alloc)?;
                Ok(Bits::from_vec(numbers))
            }
        }
    }

    /// No numbers, and memory for this many. For one none is taken.
    pub fn with_capacity(alloc: A, capacity: usize) -> Result<Self, AllocError>
        ensures none { IfOk result (λ bits. bits ≡ []) }
        ensures one { capacity ≤ 1 → IsOk result }
    {
        if capacity <= 1 {
            return Ok(Bits::new(alloc));
        }
        Ok(Bits::from_vec(Vec::with_capacity(alloc, capacity)?))
    }

    /// The numbers.
    pub fn as_slice(&self) -> &[u64]
        ensures { result.now ≡ self.now }
    {
        match &self.held {
            Held::None(_) => &[],
            Held::One(number, _) => slice::from_ref(number),
            Held::Many(numbers) => numbers.as_slice(),
        }
    }

    /// The only number, where there is one and it takes no memory.
    #[inline(always)]
    pub(crate) fn lone(&self) -> Option<u64>
        ensures { IfSome result (λ number. self.now ≡ number ∷ []) }
    {
        match &self.held {
            Held::One(number, _) => Some(*number),
            _ => None,
        }
    }

    /// How many numbers there are.
    pub fn len(&self) -> usize
        ensures { result ≡ length self.now }
    {
        self.as_slice().len()
    }

    /// Whether there are none.
    pub fn is_empty(&self) -> bool
        ensures { result ≡ (length self.now == 0) }
    {
        self.as_slice().is_empty()
    }
}

impl<A: Allocator + Copy> Bits<A> {
    /// Puts a number at the end. The first takes no memory.
    #[inline]
    pub fn push(&mut self, number: u64) -> Result<(), AllocError>
        ensures ok { OnOk result (self.new ≡ self.old ++ number ∷ []) }
        ensures err { OnErr result (self.new ≡ self.old) }
        ensures first { self.old ≡ [] → IsOk result }
    {
        match &mut self.held {
            Held::None(alloc) => {
                let alloc = *alloc;
                self.held = Held::One(number, alloc);
                Ok(())
            }
            Held::One(first, alloc) => {
                let numbers = pair(*alloc, *first, number)?;
                self.held = Held::Many(numbers);
                Ok(())
            }
            Held::Many(numbers) => {
                if numbers.is_empty() && numbers.capacity() == 0 {
                    let alloc = *numbers.allocator();
                    self.held = Held::One(number, alloc);
                    return Ok(());
                }
                numbers.push(number)?;
                Ok(())
            }
        }
    }

    /// Takes the last number away. Memory stays, if there was any.
    pub fn pop(&mut self) -> Option<u64>
        ensures last { self.old ≡ self.new ++ option_to_list result }
        ensures some { IsSome result ↔ (0 < length self.old) }
    {
        match &mut self.held {
            Held::None(_) => None,
            Held::One(number, alloc) => {
                let (last, alloc) = (*number, *alloc);
                self.held = Held::None(alloc);
                Some(last)
            }
            Held::Many(numbers) => numbers.pop(),
        }
    }

    /// The vector of the numbers. Memory is taken for a lone one alone.
    pub fn into_vec(self) -> Result<Vec<u64, A>, AllocError>
        ensures same { IfOk result (λ numbers. numbers.items ≡ self) }
        ensures many { (length self ≡ 1 → ⊥) → IsOk result }
    {
        match self.held {
            Held::None(alloc) => Ok(Vec::new(alloc)),
            Held::One(number, alloc) => Vec::from_slice(alloc, slice::from_ref(&number)),
            Held::Many(numbers) => Ok(numbers),
        }
    }
}

/// A vector of two numbers. It stands apart, since most numbers go where memory is already.
#[inline(never)]
fn pair<A: Allocator>(alloc: A, first: u64, second: u64) -> Result<Vec<u64, A>, AllocError>
    ensures { IfOk result (λ numbers. numbers.items ≡ first ∷ second ∷ []) }
{
    let mut numbers = Vec::new(alloc);
    numbers.push(first)?;
    numbers.push(second)?;
    Ok(numbers)
}
