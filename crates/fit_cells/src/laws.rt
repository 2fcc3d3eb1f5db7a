//! What holds of cells, of rows and of their text.
ghost use Rattle.fit_cells.specs.Laws.{CellsAreOne, ReadsBack, ReadsOneWay, ScaledIsExact};

use fit_numbers::laws::text_has_one_number;
use std::alloc::Allocator;

/// The text of rows reads as those rows, if each has a cell and the first cell doesn't begin with a
/// byte order mark.
#[tactic(auto, using(crate::proofs::RowFacts::reads_back))]
pub fn text_reads_back()
    ensures { ReadsBack }
{}

/// A text reads as one list of rows.
pub fn text_reads_one_way()
    ensures { ReadsOneWay }
{}

/// A scaled number is exactly what its raw value stands for.
#[tactic(auto, using(crate::proofs::NumberFacts::scaled_exact))]
pub fn scaled_is_exact()
    ensures { ScaledIsExact }
{}

/// Items with the shape that a code and a size give have a cell of their own.
#[tactic(auto, using(crate::proofs::OneCell::one_cell))]
pub fn cells_are_one<A: Allocator>()
    ensures { CellsAreOne A }
{
    text_has_one_number();
}
