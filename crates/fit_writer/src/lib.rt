//! Messages as blocks of bytes, written one after another into a chain of FIT files: what a reader of the chain is told is what was put.
#![tactic(auto)]

mod amounts;
mod chain;
mod data;
mod described;
mod describing;
mod done;
mod file;
mod forms;
mod found;
mod indices;
mod kept;
pub mod laws;
mod names;
mod places;
mod placing;
mod plain;
mod put;
mod refusal;
mod run;
mod times;
mod writer;

pub use done::{Put, Run};
pub use refusal::{FinishFault, Refusal, RunRefusal};
pub use writer::MessageWriter;
