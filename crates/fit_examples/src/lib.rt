//! First programs over the library: what `docs/USE.md` shows.
#![tactic(auto)]

mod document;
mod moments;
mod recording;
mod round_trip;
mod tables;
mod upload;

pub use document::rates_document;
pub use moments::{Moment, heart_rates};
pub use recording::ride_file;
pub use round_trip::written_and_read;
pub use tables::ride_table;
pub use upload::check_upload;
