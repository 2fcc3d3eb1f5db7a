//! What `check` writes of a chain, and what a run finds of its input. These functions do nothing: what they ensure is what they
//! are for.
ghost use Rattle.fit_run.specs.Laws.{ChainsHaveLines, FindingsAreOne, RunsAreOne};

use fit_csv::laws::texts_have_one_finding;
use fit_decode::laws::{events_are_one, reasons_are_one};
use std::alloc::{Allocator, Global};

/// The lines of the events of a chain are a line for each file, with its number, how many bytes of data it has and how many
/// records.
pub fn chains_have_lines<A: Allocator>()
    ensures { ChainsHaveLines A }
{}

/// An input has one finding: runs whose sources have not failed, whatever they took at once, find the same, and the same bytes
/// good.
pub fn findings_are_one<A: Allocator>()
    ensures { FindingsAreOne A }
{
    reasons_are_one::<A>();
}

/// What a command writes of an input, and its exit status, are determined by the input, unless memory runs out or the source or the
/// output fails.
pub fn runs_are_one()
    ensures { RunsAreOne }
{
    reasons_are_one::<Global>();
    events_are_one::<Global>();
    texts_have_one_finding();
}
