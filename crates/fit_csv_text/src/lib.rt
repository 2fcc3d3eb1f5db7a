//! Rows of a text, in whatever spelling: read one at a time, or many spelled anew as `to_csv` spells.
#![tactic(auto)]

mod loose;
mod reader;
mod window;

pub use loose::without_mark;
pub use reader::RowReader;
pub use window::Window;
