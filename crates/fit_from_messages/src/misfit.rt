//! Why the blocks can't be read on.
ghost use Rattle.std.specs.Prelude.{◌≡◌};
ghost use Rattle.fit_from_messages.specs.declared.misfit.Misfit.TheVariants as misfit;

use crate::BlockReason;
use std::alloc::AllocError;

/// Why a block isn't taken after the blocks before it.
#[derive(Clone, Copy, Drop)]
pub enum Misfit {
    /// It can't stand there.
    Block(BlockReason),
    /// Memory was refused.
    NoMemory,
}

impl From<AllocError> for Misfit {
    ghost from_gives = { λ e r. r ≡ misfit.NoMemory };

    fn from(_error: AllocError) -> Misfit {
        Misfit::NoMemory
    }
}
