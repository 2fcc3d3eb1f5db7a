//! What the cells of rows are put with.
use fit_cells::RowWriter;
use std::alloc::Global;

/// What cells are put with, one after another.
#[derive(Drop)]
pub struct Pen {
    /// Where the memory of items comes from.
    pub alloc: Global,
    pub writer: RowWriter,
    /// The memory of a cell.
    pub value: Vec<u8>,
}

impl Pen {
    /// It has put no cell.
    pub fn new(alloc: Global) -> Pen {
        Pen {
            alloc,
            writer: RowWriter::new(alloc),
            value: Vec::new(alloc),
        }
    }
}
