//! Lone cells put after texts, through the crate `csv`.
ghost use Rattle.std.specs.Prelude.{◌≡◌, ◌++◌, OnErr, OnOk};
ghost use Rattle.csv.specs.Writing.{default_writer, field_text};
ghost use Rattle.fit_cells.specs.Steps.{IsInRow};

use crate::rows::{begin_anew, row_writer};
use csv::Writer;
use std::alloc::{AllocError, Global};
use std::marker::Model;

/// A writer whose text is longer than this is let go.
pub(crate) const LONG: usize = 64 * 1024;

/// Writes a cell, and puts its text after another one, without as many bytes as stand before the cell.
fn put_after(
    writer: &mut Writer<Vec<u8>>,
    before: usize,
    text: &mut Vec<u8>,
    cell: &[u8],
) -> Result<(), AllocError>
    requires { IsInRow writer.old before }
    ensures row { OnOk result (IsInRow writer.new 1) }
    ensures text { OnOk result (text.new.items
        ≡ text.old.items ++ field_text default_writer cell.now) }
    ensures err { OnErr result (text.new.items ≡ text.old.items) }
{
    let start = writer.get_ref().as_slice().len();
    if writer.write_field(cell).is_err() || writer.flush().is_err() {
        return Err(AllocError);
    }
    let cells = writer.get_ref().as_slice();
    text.extend_from_slice(&cells[start + before..])
}

/// Puts lone cells after texts, through the crate `csv`. For it they are the cells of one row that has no end.
#[derive(Drop)]
pub(crate) struct CellWriter {
    writer: Writer<Vec<u8>>,
    /// How many bytes stand before the next cell: a comma, but before the first one.
    before: usize,
    alloc: Global,
}

impl Model for CellWriter {
    ghost use Rattle.fit_cells.specs.Steps.{IsInRow};

    ghost Value = { Unit {0} };

    ghost view = { λ w. tt };

    ghost invariant = { λ w. IsInRow w.writer w.before };
}

impl CellWriter {
    /// It has written nothing.
    pub(crate) fn new(alloc: Global) -> Self {
        CellWriter {
            writer: row_writer(Vec::new(alloc)),
            before: 0,
            alloc,
        }
    }

    /// Puts a cell after a text, in quotes where it needs them. Out of memory, the text stays as it is.
    pub(crate) fn put(&mut self, text: &mut Vec<u8>, cell: &[u8]) -> Result<(), AllocError>
        ensures ok { OnOk result (text.new.items
            ≡ text.old.items ++ field_text default_writer cell.now) }
        ensures err { OnErr result (text.new.items ≡ text.old.items) }
    {
        let put = put_after(&mut self.writer, self.before, text, cell);
        self.before = 1;
        if put.is_err() || self.writer.get_ref().len() > LONG {
            begin_anew(&mut self.writer, self.alloc);
            self.before = 0;
        }
        put
    }
}
