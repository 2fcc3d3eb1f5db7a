//! What a decoder returns.
ghost use Rattle.std.specs.Prelude.{◌≡◌};
ghost use Rattle.fit_chain.specs.Checks.{fault_after};

use fit_frame::{Header, Reason};
use fit_record::Record;
use std::alloc::{Allocator, Global};
use thiserror::Error;

/// What the last byte that was used completed.
#[derive(Drop)]
pub enum Event<A: Allocator = Global> {
    /// Nothing: the whole piece was used.
    More,
    /// The header of a file, and the size of its data section in bytes.
    Header(Header, u32),
    /// A definition message or a data message.
    Item(Record<A>),
    /// A file, with its closing checksum.
    FileEnd,
}

/// How much of a piece was used, and what that completed.
#[derive(Drop)]
pub struct Fed<A: Allocator = Global> {
    /// How many bytes of the piece were used.
    pub used: usize,
    /// What the bytes used completed.
    pub event: Event<A>,
}

/// Why a decoder, or a reader that uses one, can't continue. Places count bytes from the start of the chain, from 0.
#[derive(Clone, Copy, Debug, PartialEq, Eq, Error)]
pub enum Fault {
    /// The bytes before this place begin a chain of files, and with the byte there they don't.
    #[error("refused at byte {place}: {reason:?}")]
    Refused { place: u64, reason: Reason },
    /// The bytes end at this place, and they begin a chain of files but aren't one.
    #[error("truncated at byte {place}")]
    Truncated { place: u64 },
    /// Memory was refused. That many bytes of the piece count as fed; a reader, and `check_bytes`, say how many they have taken.
    #[error("out of memory after {used} bytes")]
    NoMemory { used: u64 },
    /// The source failed after that many bytes.
    #[error("read fault at byte {place}")]
    Read { place: u64 },
}

impl Fault {
    /// The fault of a piece that comes after that many bytes: `NoMemory` counts those too, up to 2^64 - 1. Any other fault counts
    /// from the start of the chain, and stays as it is.
    pub fn after(self, before: u64) -> Fault
        ensures { result ≡ fault_after before self }
    {
        match self {
            Fault::NoMemory { used } => Fault::NoMemory {
                used: used.saturating_add(before),
            },
            fault => fault,
        }
    }
}
