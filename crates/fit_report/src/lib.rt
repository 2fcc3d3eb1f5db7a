//! Writes the events of a source's bytes, one by one, to a sink as text.
#![tactic(auto)]

mod document;
mod fault;
mod heard;
pub mod laws;
mod reporting;
mod taker;
mod telling;

pub use document::{Document, report_document};
pub use fault::ReportFault;
pub use heard::{Heard, Report};
pub use reporting::report;
pub use taker::{MessageTaker, take_messages};
pub use telling::Telling;
