//! The calls for C, which `c/gazhdor.h` declares. They take memory from the C library alone, and keep nothing but what a stream holds.
#![tactic(auto)]

mod answer;
mod check;
mod handle;
pub mod laws;
mod loose;
mod stream;
mod texts;
mod writer;
mod writer_handle;

pub use answer::FitAnswer;
pub use check::gazhdor_check;
pub use handle::FitStream;
pub use stream::{gazhdor_close, gazhdor_feed, gazhdor_finish, gazhdor_open};
pub use texts::{
    gazhdor_from_csv, gazhdor_from_messages, gazhdor_messages, gazhdor_show, gazhdor_table,
    gazhdor_to_csv,
};
pub use writer::{
    gazhdor_writer_close, gazhdor_writer_definition, gazhdor_writer_file, gazhdor_writer_finish,
    gazhdor_writer_messages, gazhdor_writer_open,
};
pub use writer_handle::FitWriter;
