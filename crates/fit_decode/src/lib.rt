//! Reads FIT files: the events in the bytes of a chain of files, piece by piece.
#![tactic(auto)]

mod check;
mod decoder;
mod need;
mod readers;
mod scan;
mod section;
mod source;

pub use check::check_bytes;
pub use decoder::{Ahead, Decoder};
pub use fit_chain::{Event, Fault, Fed, laws};
pub use readers::{PIECE_SIZE, Reading, read_chain, read_one};
pub use source::{CutSource, ReadSource, Source, SourceFailed};
