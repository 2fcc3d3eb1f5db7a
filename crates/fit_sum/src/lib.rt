//! The checksum of FIT files.
#![tactic(auto)]

mod slices;
mod sum;
mod tables;
mod wide;
mod words;

pub use crate::sum::{Sum, checksum_of};
