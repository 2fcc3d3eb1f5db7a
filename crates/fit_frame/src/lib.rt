//! The file header of the FIT protocol, and why bytes of a FIT file are refused.
#![tactic(auto)]

mod header;
pub mod laws;
mod reader;
mod reason;
mod spelling;

pub use header::{Header, HeaderSum, PROTOCOL_2_0};
pub use reader::HeadReader;
pub use reason::{HeadFault, Reason};
pub use spelling::{has_form, head_bytes, sum_bytes};
