//! Chains of files that come in pieces: what is found of the bytes so far, and the text or the blocks that each piece completes.
#![tactic(auto)]

mod kind;
mod lane;
pub mod laws;
mod silent;
mod stream;

pub use kind::Kind;
pub use stream::ChainStream;
