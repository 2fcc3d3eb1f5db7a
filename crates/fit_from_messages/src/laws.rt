//! What holds of blocks that are read back. These functions do nothing: what they ensure is what they are for.
ghost use Rattle.fit_from_messages.specs.Laws.{BlocksComeBack, BlocksHaveOneFinding, BlocksSayOne, ItemsComeBack};

use fit_encode::laws::{faults_are_one, good_chains_have_no_fault};
use std::alloc::Global;

/// Blocks say at most one chain.
pub fn blocks_say_one()
    ensures { BlocksSayOne }
{}

/// Blocks have one finding at most: the bytes of one chain, or one fault, which is of one block for one reason or of one file.
pub fn blocks_have_one_finding()
    ensures { BlocksHaveOneFinding }
{
    good_chains_have_no_fault::<Global>();
    faults_are_one::<Global>();
}

/// The blocks of a chain, as `MessagesReport` makes them, are read as that chain: so they give its bytes again.
pub fn blocks_come_back()
    ensures { BlocksComeBack }
{}

/// Blocks of a chain say what those say that `MessagesReport` makes of its bytes: the same headers,
/// definitions and items, in the same order.
pub fn items_come_back()
    ensures { ItemsComeBack }
{}
