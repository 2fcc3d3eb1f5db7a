//! What holds of the tables of chains, and of the computed degrees of positions.
ghost use Rattle.fit_table.specs.Laws.{ChainsHaveTables, DegreesAreNearest, TablesReadBack};

use std::alloc::Allocator;

/// The table of the events of a chain is the table of the chain.
pub fn chains_have_tables<A: Allocator>()
    ensures { ChainsHaveTables A }
{}

/// The text of the table of a chain reads as its rows.
pub fn tables_read_back<A: Allocator>()
    ensures { TablesReadBack A }
{}

/// The computed number of degrees of a position is the nearest one.
pub fn degrees_are_nearest()
    ensures { DegreesAreNearest }
{}
