//! Why a byte wasn't taken.
use fit_frame::Reason;

/// Why a byte wasn't taken. Nothing has changed then.
#[derive(Clone, Copy, Debug, PartialEq, Eq)]
pub enum Stop {
    /// The byte is refused.
    Refused(Reason),
    /// Memory that the byte takes was refused.
    NoMemory,
}
