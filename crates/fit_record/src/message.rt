//! Data messages, and records (FIT protocol, "Data Message" and "Record Header").
ghost use Rattle.std.specs.Prelude.{◌≡◌, [], None, Some};

use crate::MessageDef;
use fit_base::{Entries, Items};
use std::alloc::{Allocator, Global};

/// A data message: the items of each field and of each developer field, in the order of the
/// definition of its local message type.
#[derive(Drop)]
#[derive_where(Debug, PartialEq)]
pub struct Values<A: Allocator = Global> {
    /// The local message type, below 16, or below 4 with a compressed timestamp header.
    pub local: u8,
    /// The time offset of a compressed timestamp header, in seconds, below 32.
    pub offset: Option<u8>,
    pub fields: Entries<Items<A>, A>,
    pub dev: Entries<Items<A>, A>,
}

impl<A: Allocator> Values<A> {
    /// A data message with a normal record header, and without developer fields.
    pub fn new(alloc: A, local: u8, fields: Entries<Items<A>, A>) -> Self
        ensures { result ≡ record { local = local; offset = None; fields = fields; dev = [] } }
    {
        Values {
            local,
            offset: None,
            fields,
            dev: Entries::new(alloc),
        }
    }

    /// The same data message with a compressed timestamp header of this time offset, in seconds.
    pub fn with_offset(self, offset: u8) -> Self
        ensures { result ≡ record self { offset = Some offset } }
    {
        Values {
            offset: Some(offset),
            ..self
        }
    }

    /// The same data message with these items of developer fields.
    pub fn with_dev(self, dev: Entries<Items<A>, A>) -> Self
        ensures { result ≡ record self { dev = dev } }
    {
        Values { dev, ..self }
    }
}

/// A record: one message with its record header.
#[derive(Drop)]
#[derive_where(Debug, PartialEq)]
pub enum Record<A: Allocator = Global> {
    /// A definition message.
    Define(MessageDef<A>),
    /// A data message.
    Values(Values<A>),
}
