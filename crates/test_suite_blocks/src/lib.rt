//! Tests over `fit_messages` and `fit_from_messages`. They stand apart so that the proofs of those crates stay short.
#![tactic(auto)]

#[cfg(test)]
mod asserts;
#[cfg(test)]
mod back;
#[cfg(test)]
mod put;
#[cfg(test)]
mod put_alone;
#[cfg(test)]
mod put_amounts;
#[cfg(test)]
mod put_described;
#[cfg(test)]
mod refused;
