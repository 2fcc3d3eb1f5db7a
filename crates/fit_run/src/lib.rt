//! What the program `fit` does, over any source and sinks: its command line, its commands, the lines that it writes and its exit
//! status.
#![tactic(auto)]

mod check;
mod command_line;
pub mod laws;
mod lines;
mod running;

pub use command_line::{Command, Line, LineFault, parse_line};
pub use lines::{OUT_OF_MEMORY, WRITE_FAULT};
pub use running::{BAD_USAGE, FAILED, GOOD, NO_MEMORY, REFUSED, run};
