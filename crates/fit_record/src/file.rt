//! Files (FIT protocol, "FIT File Structure").
use crate::Record;
use fit_base::Entries;
use fit_frame::Header;
use std::alloc::{Allocator, Global};

/// How many files a chain has at most, 2^24 - 1.
///
/// The protocol names no limit. With this one a chain has fewer than 2^57 bytes, so that numbers of
/// 64 bits count its bytes and events. A definition cites it as `chain_limit`.
pub const CHAIN_LIMIT: u32 = 16_777_215;

/// A file: its header and the records of its data section. The data size and the checksum follow
/// from these.
#[derive(Drop)]
#[derive_where(Debug, PartialEq)]
pub struct FitFile<A: Allocator = Global> {
    pub header: Header,
    pub records: Entries<Record<A>, A>,
}
