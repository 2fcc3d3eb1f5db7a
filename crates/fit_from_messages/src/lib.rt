//! Blocks of bytes, as `fit_messages` makes them of a chain of files, back to the bytes of the chain.
#![tactic(auto)]

mod alone;
mod chain;
mod definition;
mod entries;
mod fault;
mod fields;
mod file;
mod from;
mod header;
pub mod laws;
mod message;
mod misfit;
mod parts;
mod place;
mod slot;

pub use alone::{
    LoneDefinition, is_lone_message, lone_definition, lone_header, slots_stand, spell_lone,
};
pub use entries::{split_entry, text_length};
pub use fault::{BlockReason, BlocksFault};
pub use from::from_messages;
pub use message::MessageFront;
pub use misfit::Misfit;
pub use parts::{first_block, short_at, word_at};
pub use slot::Slot;
