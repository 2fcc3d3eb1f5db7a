//! Reads whole files from a source.
mod chain;
mod file;
mod one;
mod piece;
mod reading;

pub use chain::read_chain;
pub use one::read_one;
pub use piece::PIECE_SIZE;
pub use reading::Reading;
