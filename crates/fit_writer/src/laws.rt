//! What holds of messages that are put. These functions do nothing: what they ensure is what they are for.
ghost use Rattle.fit_writer.specs.Laws.{ChainsCanBeCopied, CopiesAreExact, CopiesAreTaken, PartsReadAsRead, PutsAreRead, WhatIsSaidWasTold};

/// A reader is told what was put, message by message.
pub fn puts_are_read()
    ensures { PutsAreRead }
{}

/// The blocks of a chain's messages, each by that of its definition, say just what a reader of the chain is told.
pub fn what_is_said_was_told()
    ensures { WhatIsSaidWasTold }
{}

/// Messages of a chain that are put in their order are read as a reader of the chain is told them, whichever are left out, with those among
/// them that describe developer fields.
pub fn parts_read_as_read()
    ensures { PartsReadAsRead }
{}

/// Where the blocks of a chain are put one after another, its bytes are written.
pub fn copies_are_exact()
    ensures { CopiesAreExact }
{}

/// The blocks of a chain can be put one after another.
pub fn chains_can_be_copied()
    ensures { ChainsCanBeCopied }
{}

/// Where the blocks of a chain were put up to one, the next one is refused for want of memory alone.
pub fn copies_are_taken()
    ensures { CopiesAreTaken }
{}
