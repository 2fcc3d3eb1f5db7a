//! The events of a chain of files as blocks of bytes, which other languages read as they lie in memory.
#![tactic(auto)]

mod bytes;
mod definition;
mod items;
pub mod laws;
mod message;
mod report;
mod sheet;

pub use report::MessagesReport;
