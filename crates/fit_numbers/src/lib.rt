//! Numbers as text: with a fixed number of decimals, in degrees, and as civil times.
#![tactic(auto)]

mod decimal;
mod digits;
mod instant;
mod last;
pub mod laws;
mod put;
mod scaled;
mod triples;
mod whole;
mod write;

pub use decimal::Fixed;
pub use instant::{Label, utc_text};
pub use last::write_byte;
pub use put::{put_fixed, put_whole};
pub use scaled::{decimals_of, degrees, factor_of, shift};
pub use write::write_fixed;
