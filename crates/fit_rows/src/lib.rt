//! The rows of a chain of files, event by event, as text.
#![tactic(auto)]

mod definition;
mod file;
pub mod laws;
mod likely;
mod maker;
mod message;
mod report;
mod stream;
mod template;
mod whole;

pub use report::{CsvReport, ROWS_LINE};
pub use stream::RowStream;
pub use whole::{MessageReader, WholeMessage};
