//! What holds of blocks. These functions do nothing: what they ensure is what they are for.
ghost use Rattle.fit_messages.specs.Laws.{BlocksAreWhole, BlocksHaveTheirPlaces, MessagesHaveOneLength};

use std::alloc::Allocator;

/// The length of each block is a multiple of 8.
pub fn blocks_are_whole<A: Allocator>()
    ensures { BlocksAreWhole A }
{}

/// The blocks of all messages of a definition have the length that its own block says.
pub fn messages_have_one_length<A: Allocator>()
    ensures { MessagesHaveOneLength A }
{}

/// An event stands at the place that its block has at 16, which counts the bytes that were read before it.
pub fn blocks_have_their_places<A: Allocator>()
    ensures { BlocksHaveTheirPlaces A }
{}
