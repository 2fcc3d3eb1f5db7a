//! A history of values that only contracts read. It has no bytes, and its calls do nothing at run time.
#![tactic(auto)]

ghost use Rattle.std.specs.Prelude.{◌≡◌, List, [], ◌∷◌, ◌++◌};
ghost use Rattle.std.specs.Borrow.{ftrue};

use std::marker::{Model, PhantomData};

/// The values that were handed to something so far, such as the bytes fed to a decoder.
///
/// A type keeps one as a field, so that its contracts can speak of all the values since it was
/// made. They read them as `items`, the earliest first.
#[derive(Drop)]
pub struct History<T> {
    of: PhantomData<T>,
    pub ghost items: { List T },
}

impl<T> Model for History<T> {
    ghost also_owns = { λ _. ftrue };
}

// It has no bytes, whatever `T` is, so any thread may have it.
unsafe impl<T> Send for History<T> {}

impl<T> History<T> {
    /// A history without values.
    pub fn new() -> Self
        ensures { result.items ≡ [] }
    {
        History { of: PhantomData }
    }

    /// Puts one value at the end that no code holds: what is made of `_source`, say, but is never made at run time. A proof
    /// about the caller names it.
    pub fn add_from<S>(&mut self, _source: &S)
        ghost value: { T }
        ensures { self.new.items ≡ self.old.items ++ value ∷ [] }
    {
        // Only the ghost field takes the value.
    }

    /// Puts one value at the end.
    pub fn add(&mut self, _value: &T)
        ensures { self.new.items ≡ self.old.items ++ _value.now ∷ [] }
    {
        self.add_from(_value);
    }

    /// Puts several values at the end, in their order.
    pub fn note(&mut self, _values: &[T])
        ensures { self.new.items ≡ self.old.items ++ _values.now }
    {
        // Only the ghost field takes the values.
    }
}
