//! Chains of FIT files, byte after byte: how far the bytes of a chain have come, which events they make, and which byte is refused and why.
#![tactic(auto)]

mod event;
pub mod laws;

pub use event::{Event, Fault, Fed};
