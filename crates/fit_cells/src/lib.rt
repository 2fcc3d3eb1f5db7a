//! Cells of fields as CSV has them, and rows of cells as text, both ways.
#![tactic(auto)]

mod cell;
mod form;
mod hexadecimal;
pub mod laws;
mod lone;
mod numbers;
mod raw;
mod rows;
mod scan;
mod shown;
mod strings;
mod writer;

pub use cell::{cell_text, is_never_quoted, put_cell};
pub use form::{
    NumberForm, formed, formed_number, lone_number, number_form, put_formed, write_formed,
};
pub use hexadecimal::{put_digits, read_bytes, write_bytes, write_float};
pub use rows::{next_row, put_row, row_reader, row_text, row_writer, rows_text};
pub use scan::{cell_items, cell_items_by};
pub use shown::{ShownText, shown_text};
pub use writer::RowWriter;
