//! Short texts of which rows, tables and lines are made, and what is kept of definitions for them.
#![tactic(auto)]

pub mod cells;
mod cut;
mod floats;
mod kept;
pub mod laws;
mod lone;
mod minutes;
mod octets;
mod several;
mod sheet;
mod stamp;
pub mod words;

pub use cut::after_beginning;
pub use floats::{add_float, is_lone_float};
pub use kept::Kept;
pub use kept::developer::KeptDev;
pub use kept::message::KeptMessage;
pub use minutes::{LAST_SYSTEM_MINUTE, Times, put_minute, write_seconds};
pub use octets::{add_bytes, is_of_bytes};
pub use several::{add_numbers, field_form};
pub use sheet::{SHEET_SIZE, Sheet, put_sheet};
pub use stamp::{SHORT, Stamp, WIDE, add_text, write_text};
