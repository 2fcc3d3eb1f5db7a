//! The table of a ride, event by event, as text.
#![tactic(auto)]

mod amounts;
mod columns;
mod front;
mod kinds;
pub mod laws;
mod maker;
mod numbers;
mod report;
mod rows;

pub use report::TableReport;
pub use rows::TABLE_LINE;
