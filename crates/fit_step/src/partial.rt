//! The bytes of a number that isn't whole, or the first bytes of a short data message.
ghost use Rattle.std.specs.Prelude.{◌≡◌, ◌+◌, ◌<◌, ◌≤◌, [], ◌∷◌, ◌++◌, length};

use std::marker::Model;

/// The bytes of a number that have come so far, or of a short data message, at most eight.
#[derive(Drop)]
pub struct Partial {
    bytes: [u8; 8],
    count: usize,
}

impl Model for Partial {
    ghost use Rattle.std.specs.Prelude.{List, ℕ, ◌≤◌, take};

    ghost Value = { List ℕ };

    ghost view = { λ p. take p.count p.bytes };

    ghost invariant = { λ p. p.count ≤ 8 };
}

impl Partial {
    /// No bytes.
    pub(crate) fn new() -> Partial
        ensures { result ≡ [] }
    {
        Partial {
            bytes: [0; 8],
            count: 0,
        }
    }

    /// The same bytes.
    pub(crate) fn copied(&self) -> Partial
        ensures { result ≡ self.now }
    {
        Partial {
            bytes: self.bytes,
            count: self.count,
        }
    }

    /// How many bytes there are.
    pub(crate) fn len(&self) -> usize
        ensures length { result ≡ length self.now }
        ensures few { result ≤ 8 }
    {
        let _count = &self.count;
        self.as_slice().len()
    }

    /// The bytes.
    pub(crate) fn as_slice(&self) -> &[u8]
        ensures { result.now ≡ self.now }
    {
        &self.bytes[..self.count]
    }

    /// These bytes, and one more.
    pub(crate) fn with(&self, byte: u8) -> Partial
        requires { length self.now < 8 }
        ensures { result ≡ self.now ++ byte ∷ [] }
    {
        let mut bytes = self.bytes;
        bytes[self.count] = byte;
        Partial {
            bytes,
            count: self.count + 1,
        }
    }

    /// These bytes, and more after them.
    pub(crate) fn followed_by(&self, more: &[u8]) -> Partial
        requires { length self.now + length more.now ≤ 8 }
        ensures { result ≡ self.now ++ more.now }
    {
        let mut all = self.copied();
        for byte in more {
            all.push(*byte);
        }
        all
    }

    /// Puts a byte at the end.
    pub(crate) fn push(&mut self, byte: u8)
        requires { length self.old < 8 }
        ensures { self.new ≡ self.old ++ byte ∷ [] }
    {
        self.bytes[self.count] = byte;
        self.count += 1;
    }
}
