//! What a stream makes of the bytes.

/// What a stream makes of the bytes that are fed to it.
#[derive(Clone, Copy, Debug, PartialEq, Eq)]
pub enum Kind {
    /// No text: the bytes are only checked.
    Check,
    /// The lines of `fit show`, without the last.
    Show,
    /// The table of the record messages as CSV text.
    Table,
    /// All rows as CSV text.
    Rows,
    /// A block of bytes for each event (`docs/BLOCKS.md`).
    Messages,
}
