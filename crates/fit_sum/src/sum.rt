//! A running checksum, which contracts see as the bytes that were added to it.
ghost use Rattle.std.specs.Prelude.{◌≡◌, ℕ, List, [], ◌∷◌, ◌++◌};
ghost use Rattle.fit_sum.specs.Checksum.{checksum};
ghost use Rattle.fit_sum.specs.inner.Register.{IsSumOf};

use crate::words::add_bytes;
use fit_history::History;
use std::marker::Model;

/// The checksum of the bytes added so far (FIT protocol, section "CRC").
///
/// A contract sees it as the list of these bytes. It keeps sixteen bits and none of these bytes, takes no memory, and no call fails.
#[derive(Drop)]
pub struct Sum {
    register: u16,
    added: History<u8>,
}

impl Model for Sum {
    ghost Value = { List ℕ };

    ghost view = { λ sum. sum.added.items };

    ghost invariant = { λ sum. IsSumOf sum.register sum.added.items };
}

impl Sum {
    /// The checksum of no bytes, which is 0.
    pub fn new() -> Self
        ensures { result ≡ [] }
    {
        Sum {
            register: 0,
            added: History::new(),
        }
    }

    /// Begins anew with no bytes, as `new` does.
    pub fn clear(&mut self)
        ensures { self.new ≡ [] }
    {
        self.register = 0;
        self.added = History::new();
    }

    /// Adds one byte.
    pub fn add(&mut self, byte: u8)
        ensures { self.new ≡ self.old ++ byte ∷ [] }
    {
        self.add_all(&[byte]);
    }

    /// Adds several bytes. For long pieces this is many times as fast as `add` for each of them.
    #[inline(always)]
    pub fn add_all(&mut self, bytes: &[u8])
        ensures { self.new ≡ self.old ++ bytes.now }
    {
        self.register = add_bytes(self.register, bytes);
        self.added.note(bytes);
    }

    /// The checksum of the bytes added so far. A FIT file stores it with its low byte first.
    pub fn value(&self) -> u16
        ensures { result ≡ checksum self.now }
    {
        self.register
    }
}

/// The checksum of bytes that lie in two parts.
pub fn checksum_of(front: &[u8], rest: &[u8]) -> u16
    ensures { result ≡ checksum (front.now ++ rest.now) }
{
    add_bytes(add_bytes(0, front), rest)
}
