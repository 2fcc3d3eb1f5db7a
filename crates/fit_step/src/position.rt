//! Where a reader of records is between two bytes.
ghost use Rattle.std.specs.Prelude.{◌≡◌};
ghost use Rattle.fit_step.specs.Places.{Begins};

use crate::{Partial, Phase};

/// Where a reader of records is between two bytes. It takes the same memory in every record.
#[derive(Drop)]
pub struct Position {
    /// What the next byte is.
    pub phase: Phase,
    /// How many bytes of the data section are to come.
    pub room: u32,
    /// The bytes of the number in progress.
    pub partial: Partial,
}

impl Position {
    /// Where a record begins. `room` is how many bytes of the data section are to come.
    pub fn new(room: u32) -> Position
        ensures begins { Begins result }
        ensures room { result.room ≡ room }
    {
        Position {
            phase: Phase::RecordHeader,
            room,
            partial: Partial::new(),
        }
    }
}
