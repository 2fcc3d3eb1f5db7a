//! The reporter of texts that depend on few of the events before them, over what makes the text of an event; and what is found out of
//! definitions once for the texts of their messages.
#![tactic(auto)]

mod found;
mod report;
mod teller;

pub use found::{Finding, Findings};
pub use report::{Moment, TextMaker, TextReport};
