//! What holds of the rows of chains.
ghost use Rattle.fit_rows.specs.Laws.{EventsHaveTheRows};

use std::alloc::Allocator;

/// The rows of the events of a chain are the rows of the chain.
pub fn events_have_the_rows<A: Allocator>()
    ensures { EventsHaveTheRows A }
{}
