//! What the profile says by itself, without a recording: the names of messages and of their fields, units, message and
//! field numbers, labels, and the exact number that an item of a field stands for.
#![tactic(auto)]

pub mod field_number;
mod label;
pub mod message_number;
mod profile;
mod scaled;
mod value;

pub use label::{field_label, message_label};
pub use profile::{Info, field_info, message_name};
pub use scaled::fixed;
pub use value::{in_scale, value_in, value_of};
