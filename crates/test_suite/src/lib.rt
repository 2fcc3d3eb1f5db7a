//! Tests over the crates below. They stand apart so that the proofs of those crates stay short.
#![tactic(auto)]

#[cfg(test)]
mod asserts;
#[cfg(test)]
mod big;
#[cfg(test)]
mod built;
#[cfg(test)]
mod bytes_to_come;
#[cfg(test)]
mod cut;
#[cfg(test)]
mod descriptions;
#[cfg(test)]
mod edges;
#[cfg(test)]
mod fed;
#[cfg(test)]
mod fields;
#[cfg(test)]
mod headers;
#[cfg(test)]
mod history;
#[cfg(test)]
mod kept;
#[cfg(test)]
mod message_bytes;
#[cfg(test)]
mod numbers;
#[cfg(test)]
mod reading;
#[cfg(test)]
mod refused;
#[cfg(test)]
mod reports;
#[cfg(test)]
mod rooms;
#[cfg(test)]
mod short_messages;
#[cfg(test)]
mod sizes;
#[cfg(test)]
mod skipped;
#[cfg(test)]
mod sources;
#[cfg(test)]
mod starved;
#[cfg(test)]
mod sums;
#[cfg(test)]
mod whole_records;
#[cfg(test)]
mod written;
