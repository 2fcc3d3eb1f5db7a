//! Why a conversion fails.
use fit_decode::Fault;
use fit_encode::EncodeFault;
use thiserror::Error;

/// Why a chain of files isn't written as text, or a text isn't written as a chain of files. Rows are
/// counted from 1, the first line included, and columns from 1.
#[derive(Clone, Copy, Debug, PartialEq, Eq, Error)]
pub enum CsvFault {
    /// The bytes are refused or end too soon, or their source failed. That memory ran out is `NoMemory`,
    /// and never this.
    #[error("{0}")]
    Decode(Fault),
    /// The rows are those of files that can't be written.
    #[error("{0}")]
    Encode(EncodeFault),
    /// The first row isn't the first line, or there is none.
    #[error("row 1: it isn't row,a,b,c,d,e,f")]
    Header,
    /// A row that is not allowed there: it hasn't seven cells or isn't of a kind that may come, or it is
    /// missing at the end of the text.
    #[error("row {row}: no such row can come here, or one is missing")]
    BadRow { row: u64 },
    /// A cell that is not allowed there after the rows before it and the cells to its left.
    #[error("row {row}, column {column}: the cell is not allowed here")]
    BadCell { row: u64, column: u64 },
    /// Memory was refused.
    #[error("out of memory")]
    NoMemory,
    /// The source of a text failed, or the text is too long.
    #[error("read fault, or a text of more than 2^62 bytes")]
    Read,
    /// The sink failed after that many bytes. The count stops at 2^64 - 1.
    #[error("write fault after {written} bytes")]
    Write { written: u64 },
}
