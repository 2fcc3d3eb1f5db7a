//! Why rows can't stand where they are.
ghost use Rattle.std.specs.Prelude.{◌≡◌};
ghost use Rattle.fit_csv.specs.declared.from.misfit.Misfit.TheVariants as misfit;

use std::alloc::AllocError;

/// Why a row can't stand after the rows before it.
#[derive(Clone, Copy, Drop)]
pub(crate) enum Misfit {
    /// No row of its kind stands there.
    Kind,
    /// The cell in this column, counted from 1, can't stand there.
    Cell(u64),
    /// Memory was refused.
    NoMemory,
}

impl From<AllocError> for Misfit {
    ghost from_gives = { λ e r. r ≡ misfit.NoMemory };

    fn from(_error: AllocError) -> Misfit {
        Misfit::NoMemory
    }
}
