//! How much a reader of records keeps.
ghost use Rattle.std.specs.Prelude.{◌≡◌, ◌+◌, ◌<◌, ◌≤◌, ◌^◌, length};
ghost use Rattle.std.specs.Option.{option_map_or};
ghost use Rattle.fit_record.specs.Environment.{defined_at, dev_defs};
ghost use Rattle.fit_record.specs.Sizes.{entry_count, environment_size};

use crate::environment::Defined;
use crate::{Env, MessageDef};
use std::alloc::Allocator;

/// How many fields and developer fields a definition message has.
pub fn entry_count<A: Allocator>(d: &MessageDef<A>) -> u64
    requires fields { length d.now.fields < 256 }
    requires dev_fields { length (dev_defs d.now.dev) < 256 }
    ensures count { result ≡ entry_count d.now }
    ensures small { result ≤ 510 }
{
    let fields = d.fields.len() as u64;
    match &d.dev {
        None => fields,
        Some(dev) => fields + dev.len() as u64,
    }
}

impl<A: Allocator> Env<A> {
    /// How many entries are kept: the fields and developer fields of all definitions, and the
    /// described developer fields.
    pub fn held(&self) -> u64
        ensures size { result ≡ environment_size self.now }
        ensures small { result < 2 ^ 63 + 8160 }
    {
        let mut entries = 0;
        for local in 0..16 {
            entries += self.entries_at(local);
        }
        entries + self.described.len() as u64
    }

    /// How many fields and developer fields the definition of a local message type has.
    fn entries_at(&self, local: u8) -> u64
        ensures count { result
            ≡ option_map_or (λ p. entry_count p.definition) (defined_at self.now local) 0 }
        ensures small { result ≤ 510 }
        ensures places { length self.now.places ≡ 16 }
    {
        // The check knows that there are sixteen places where they are named.
        let _: &[Option<Defined<A>>] = &self.places;
        match self.defined(local) {
            Some(place) => entry_count(&place.definition),
            None => 0,
        }
    }
}
