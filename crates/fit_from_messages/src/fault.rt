//! Why blocks aren't written as a chain of files.
use fit_encode::EncodeFault;
use thiserror::Error;

/// Why a block can't stand where it is. Where there are several reasons it is the first of them, in this order.
#[derive(Clone, Copy, Debug, PartialEq, Eq, Error)]
pub enum BlockReason {
    /// Its length is below 24, no multiple of 8 or more than there are bytes; or it is missing where the blocks end.
    #[error("its length isn't allowed, or the blocks end too early")]
    Cut,
    /// No block of its kind stands there, or there are as many files as a chain may have.
    #[error("no block of its kind can stand here")]
    Kind,
    /// No file has such a header, or the block is too short for it.
    #[error("no file has such a header")]
    Header,
    /// The local message type is 16 or more, or 4 or more with a time offset.
    #[error("the local message type is 16 or more, or 4 or more with a time offset")]
    Local,
    /// The architecture is neither 0 nor 1.
    #[error("the architecture is neither 0 nor 1")]
    Architecture,
    /// The entries of a definition aren't as many or as long as it says, or a field comes after a developer field.
    #[error("the entries don't fill the definition")]
    Entries,
    /// An entry's items have more than 255 bytes, or another width than such a field has.
    #[error("the items of an entry have too many bytes or another width")]
    Size,
    /// The time offset is 32 or more.
    #[error("the time offset is 32 or more")]
    Offset,
    /// The local message type has no definition before.
    #[error("the local message type isn't defined")]
    Undefined,
    /// The items of a field aren't all in the block.
    #[error("the items of a field aren't in the block")]
    Items,
}

/// Why blocks aren't written as a chain of files.
#[derive(Clone, Copy, Debug, PartialEq, Eq, Error)]
pub enum BlocksFault {
    /// The first block that can't stand where it is: its number, from 0, and where it begins among the bytes of all.
    #[error("block {number}, at {place}: {reason}")]
    Block {
        number: u64,
        place: u64,
        reason: BlockReason,
    },
    /// The blocks say files that can't be written.
    #[error("{0}")]
    Encode(EncodeFault),
    /// Memory was refused.
    #[error("out of memory")]
    NoMemory,
    /// The sink failed after that many bytes.
    #[error("write fault after {written} bytes")]
    Write {
        written: u64,
    },
}
