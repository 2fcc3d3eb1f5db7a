//! Why a byte is refused, and why a header can't be written.
ghost use Rattle.std.specs.Prelude.{◌≡◌};
ghost use Rattle.fit_frame.specs.ReasonNames.{reason_name};

use thiserror::Error;

/// Why a byte of a file is refused.
#[derive(Clone, Copy, Debug, PartialEq, Eq, Error)]
pub enum Reason {
    /// The first byte of a header is neither 12 nor from 14 to 255.
    #[error("the header size is neither 12 nor 14 or more")]
    HeaderSize,
    /// The major protocol version is above 2.
    #[error("the major protocol version is above 2")]
    Protocol,
    /// No records fill the bytes that would be left of the data section.
    #[error("no records fill the bytes of data that would be left")]
    NoFit,
    /// A byte differs from the letters `.FIT`.
    #[error("not the letters .FIT")]
    Signature,
    /// The checksum of the header's fixed part doesn't begin like this, and neither do two zeros.
    #[error("the header checksum differs")]
    HeaderSum,
    /// A reserved bit of a record header is set.
    #[error("a reserved bit of the record header is set")]
    ReservedBit,
    /// A data message of a local message type that isn't defined.
    #[error("the local message type isn't defined")]
    UndefinedLocal,
    /// A message is longer than what is left of the data section.
    #[error("the message is longer than what is left of the data")]
    Overrun,
    /// The architecture is neither 0 nor 1.
    #[error("the architecture is neither 0 nor 1")]
    Architecture,
    /// The checksum at the end of a file differs.
    #[error("the file checksum differs")]
    FileSum,
    /// A byte after the last file that a chain may have.
    #[error("the chain has more files than it may")]
    TooManyFiles,
}

impl Reason {
    /// The name of the variant, as "HeaderSize", which the programs print. `Display` writes a sentence instead.
    pub fn name(self) -> &'static str
        ensures { result.now ≡ reason_name self }
    {
        match self {
            Reason::HeaderSize => "HeaderSize",
            Reason::Protocol => "Protocol",
            Reason::NoFit => "NoFit",
            Reason::Signature => "Signature",
            Reason::HeaderSum => "HeaderSum",
            Reason::ReservedBit => "ReservedBit",
            Reason::UndefinedLocal => "UndefinedLocal",
            Reason::Overrun => "Overrun",
            Reason::Architecture => "Architecture",
            Reason::FileSum => "FileSum",
            Reason::TooManyFiles => "TooManyFiles",
        }
    }
}

/// Why a header can't be written before a given number of data bytes.
#[derive(Clone, Copy, Debug, PartialEq, Eq, Error)]
pub enum HeadFault {
    /// The size, the major protocol version or the header checksum isn't allowed, or `rest` has another
    /// length than the size says.
    #[error("the size, the protocol version or the checksum word of the header isn't allowed")]
    BadHeader,
    /// `sum` is `Zero`, and the checksum of the fixed part is 0.
    #[error("the header checksum is 0 itself, so zeros don't stand for it")]
    ZeroIsSum,
}
