//! Why a call of a writer is refused.
ghost use Rattle.std.specs.Prelude.{◌≡◌};
ghost use Rattle.fit_writer.specs.declared.refusal.Refusal.TheVariants as refusal;

use fit_from_messages::BlockReason;
use std::alloc::AllocError;
use thiserror::Error;

/// Why a call was refused. Where there are several reasons it is the first of them, in this order.
#[derive(Clone, Copy, Debug, PartialEq, Eq, Error)]
pub enum Refusal {
    /// No file has begun.
    #[error("no file has begun")]
    NoFile,
    /// The block of the header or of the definition can't stand.
    #[error("the block can't stand: {0}")]
    Block(BlockReason),
    /// The message's block can't stand.
    #[error("the message's block can't stand: {0}")]
    Message(BlockReason),
    /// A chain has no more files.
    #[error("a chain has no more files")]
    TooManyFiles,
    /// The message needs a timestamp, and has 255 fields.
    #[error("the message needs a timestamp, and has 255 fields")]
    Full,
    /// The message needs a timestamp, and its time is the number that stands for none.
    #[error("no timestamp has the time of the message")]
    Time,
    /// A developer field isn't described so, and can't be.
    #[error("a developer field can't be described so")]
    Described,
    /// The data of the file would be too long.
    #[error("the data would be too long")]
    TooLong,
    /// Memory was refused.
    #[error("out of memory")]
    NoMemory,
}

impl From<AllocError> for Refusal {
    ghost from_gives = { λ e r. r ≡ refusal.NoMemory };

    fn from(_error: AllocError) -> Refusal {
        Refusal::NoMemory
    }
}

/// Why a run of messages' blocks stopped before its end.
#[derive(Clone, Copy, Debug, PartialEq, Eq, Error)]
#[error("message {count}, at {place}: {refusal}")]
pub struct RunRefusal {
    /// How many messages were put.
    pub count: u64,
    /// How many of them come before the first of which a reader is told other amounts than its block says.
    pub accumulated: u64,
    /// Where the block begins that wasn't.
    pub place: u64,
    pub refusal: Refusal,
}

/// Why a chain isn't written.
#[derive(Clone, Copy, Debug, PartialEq, Eq, Error)]
pub enum FinishFault {
    /// No file has begun.
    #[error("no file has begun")]
    NoFile,
    /// Memory was refused.
    #[error("out of memory")]
    NoMemory,
    /// The sink failed after that many bytes.
    #[error("write fault after {written} bytes")]
    Write { written: u64 },
}
