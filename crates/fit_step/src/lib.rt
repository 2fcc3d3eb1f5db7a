//! One record of the FIT protocol, byte by byte.
#![tactic(auto)]

mod by_bytes;
mod definition;
mod definition_byte;
mod developer_definition;
mod header;
mod held;
mod inside;
mod items;
mod known_sizes;
pub mod laws;
mod one_byte;
mod partial;
mod phase;
mod position;
mod read_definition;
mod record_header;
mod record_reader;
mod repeated;
mod short;
mod sizes;
mod skipping;
mod stop;
mod undone;
mod whole;

pub use held::in_progress_size;
pub(crate) use partial::Partial;
pub(crate) use phase::{DefinitionPhase, Phase};
pub use position::Position;
pub use record_reader::{read_in_place, read_message, read_whole_definition};
pub use skipping::{size_ahead, skip_in_section, skip_message_in_section};
pub use stop::Stop;
