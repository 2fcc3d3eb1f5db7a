//! Base types of the FIT protocol, numbers in either byte order, and the items of a field.
#![tactic(auto)]

pub mod base_type;
mod bits;
mod code;
mod entries;
mod items;
pub mod laws;
mod number;

pub use bits::Bits;
pub use code::{Class, Code, width_of};
pub use entries::Entries;
pub use items::{Items, has_shape};
pub use number::{Order, bits_at, greatest, has_width, put_bits, signed};
