//! Why files can't be written.
use thiserror::Error;

/// Why files can't be written, or why a call of an encoder failed.
///
/// Files count from 1, records (`index`) from 0. In a record the places of the fields count from 0,
/// and the places of the developer fields continue from the number of fields that are defined.
#[derive(Clone, Copy, Debug, PartialEq, Eq, Error)]
pub enum EncodeFault {
    /// The size, the protocol version, the header checksum or the further bytes of a header aren't allowed.
    #[error("file {file}: bad header")]
    BadHeader { file: u64 },
    /// A header has zeros in place of a checksum that is 0 itself.
    #[error("file {file}: the header checksum is zero")]
    ZeroIsSum { file: u64 },
    /// The local message type is 16 or more, or with a time offset 4 or more.
    #[error("file {file}, record {index}: no such local message type")]
    BadLocal { file: u64, index: u64 },
    /// The time offset is 32 or more.
    #[error("file {file}, record {index}: no such time offset")]
    BadOffset { file: u64, index: u64 },
    /// No definition message before has the local message type of a data message.
    #[error("file {file}, record {index}: the local message type isn't defined")]
    UndefinedLocal { file: u64, index: u64 },
    /// A field is missing, is too many or isn't as defined: `field` is the first such place.
    #[error("file {file}, record {index}: the field at place {field} isn't of the defined shape")]
    WrongShape { file: u64, index: u64, field: u64 },
    /// With this record the data has more than 4,294,967,295 bytes.
    #[error("file {file}, record {index}: the data is too long")]
    TooLong { file: u64, index: u64 },
    /// The data would pass the declared length, or is shorter at the end, or the file is finished.
    #[error("the data isn't of the declared length")]
    DeclaredLength,
    /// There is no file, or there are more than 16,777,215.
    #[error("no chain has this many files")]
    ChainLength,
    /// Memory was refused.
    #[error("out of memory")]
    NoMemory,
    /// The sink failed. It has taken the first `written` bytes of the file or the chain.
    #[error("write fault after {written} bytes")]
    Write { written: u64 },
}
