//! What calls of a writer have put.

/// Of a message that was put.
#[derive(Clone, Copy, Debug, PartialEq, Eq)]
pub struct Put {
    /// Whether a reader is told the speed, distance, cycles and power that its block says, and no others.
    pub accumulated: bool,
}

/// Of a run of messages.
#[derive(Clone, Copy, Debug, PartialEq, Eq)]
pub struct Run {
    /// How many were put.
    pub count: u64,
    /// How many of them come before the first of which a reader is told another speed or distance, other cycles or another power than its
    /// block says: all where there is none.
    pub accumulated: u64,
}
