//! What is kept from one row to the next.
use crate::definition::again::DefinitionRows;
use fit_shown::Pen;
use fit_texts::{SHEET_SIZE, Sheet, Times};
use std::alloc::Global;

/// What rows are put with, one after another.
#[derive(Drop)]
pub(crate) struct RowTools {
    /// What rows are written in first.
    pub sheet: Sheet,
    pub pen: Pen,
    pub times: Times,
}

impl RowTools {
    /// They have put no row.
    fn new(alloc: Global) -> RowTools {
        RowTools {
            sheet: [0; SHEET_SIZE],
            pen: Pen::new(alloc),
            times: Times::new(alloc),
        }
    }
}

/// What makes rows, and what is kept from one to the next.
#[derive(Drop)]
pub struct RowMaker {
    pub(crate) tools: RowTools,
    pub(crate) definitions: DefinitionRows,
}

impl RowMaker {
    /// It has made no row.
    pub(crate) fn new(alloc: Global) -> RowMaker {
        RowMaker {
            tools: RowTools::new(alloc),
            definitions: DefinitionRows::new(alloc),
        }
    }
}
