//! Tests over `fit_profile`, `fit_cells`, `fit_rows`, `fit_csv`, `fit_stream` and `fit_examples`. They stand apart so that the proofs of
//! those crates stay short.
#![tactic(auto)]

#[cfg(test)]
mod asserts;
#[cfg(test)]
mod big;
#[cfg(test)]
mod cells;
#[cfg(test)]
mod columns;
#[cfg(test)]
mod conversions;
#[cfg(test)]
mod cut;
#[cfg(test)]
mod examples;
#[cfg(test)]
mod fields;
#[cfg(test)]
mod flows;
#[cfg(test)]
mod from_text;
#[cfg(test)]
mod profile;
#[cfg(test)]
mod spreadsheets;
#[cfg(test)]
mod streams;
#[cfg(test)]
mod taken;
#[cfg(test)]
mod values;
#[cfg(test)]
mod whole;
#[cfg(test)]
mod written;
