//! Writes FIT files: the one spelling of a file, of a chain of files, and record by record.
#![tactic(auto)]

mod chain_bytes;
mod check;
mod encoder;
mod fault;
pub mod laws;
mod length;
mod message;
mod place;
mod sink;
mod spelled;
mod spelled_files;
mod spelling;
mod write;

pub use encoder::Encoder;
pub use fault::EncodeFault;
pub use place::{place_big, place_bytes};
pub use sink::{CutSink, Sink, SinkFailed, WriteSink, put_all};
pub use spelled::{SpelledRecords, spell};
pub use spelled_files::{SpelledFiles, write_spelled};
pub use write::{write_chain, write_one};
