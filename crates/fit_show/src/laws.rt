//! What holds of the lines of chains.
ghost use Rattle.fit_show.specs.Laws.{ChainsHaveShowLines};

use std::alloc::Allocator;

/// What `show` writes of the events of a chain are the lines of the chain.
pub fn chains_have_show_lines<A: Allocator>()
    ensures { ChainsHaveShowLines A }
{}
