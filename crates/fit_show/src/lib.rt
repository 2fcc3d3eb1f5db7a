//! The lines of the events of a chain of files, as text.
#![tactic(auto)]

mod fields;
mod frames;
pub mod laws;
mod lines;
mod report;
mod template;

pub use report::ShowReport;
