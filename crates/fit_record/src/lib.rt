//! Records of the FIT protocol: definition messages, data messages, and what a reader learns from
//! them. Files and chains of files are lists of records.
#![tactic(auto)]

mod definition;
mod describing;
mod environment;
mod file;
mod fits;
pub mod header;
mod held;
pub mod laws;
mod layout;
mod learn;
mod message;
mod message_bytes;
mod rooms;
mod unfinished;

pub use definition::{DevDef, FieldDef, MessageDef, body_length, same_fields};
pub use environment::{Defined, Env};
pub use file::{CHAIN_LIMIT, FitFile};
pub use fits::ShapeFault;
pub use held::entry_count;
pub use layout::Layout;
pub use learn::{Description, DevKey, FIELD_DESCRIPTION};
pub use message::{Record, Values};
pub use message_bytes::{MessageBytes, read_items};
pub use unfinished::can_complete_front;
