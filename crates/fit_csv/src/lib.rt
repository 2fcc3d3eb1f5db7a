//! A chain of files as CSV text, both ways, and the table of a ride.
#![tactic(auto)]

mod conversion;
mod fault;
mod from;
pub mod laws;

pub use conversion::{table, to_csv};
pub use fault::CsvFault;
pub use fit_cells::{
    cell_items, cell_text, next_row, put_cell, put_row, row_reader, row_writer, rows_text,
};
pub use fit_show::ShowReport;
pub use from::{from_csv, from_csv_text};
