//! How far a record in progress has come.

/// What the next byte of a definition message is. `left` counts the entries that aren't whole.
#[derive(Clone, Copy)]
pub enum DefinitionPhase {
    Reserved,
    Architecture,
    GlobalFirst,
    GlobalSecond { first: u8 },
    FieldCount,
    FieldNumber { left: u8 },
    FieldSize { left: u8, number: u8 },
    FieldCode { left: u8, number: u8, size: u8 },
    DevCount,
    DevNumber { left: u8 },
    DevSize { left: u8, number: u8 },
    DevIndex { left: u8, number: u8, size: u8 },
}

/// What the next byte of a record is. It is called a record header also inside a short data message of which the bytes are kept as they
/// came: then the record in progress tells that it isn't one.
///
/// In a data message `place` is that of the field or developer field that is read, `width` the width of its items, and
/// `left` counts its bytes that are to come.
#[derive(Clone, Copy)]
pub enum Phase {
    RecordHeader,
    Definition(DefinitionPhase),
    FieldItems { place: u8, width: u8, left: u8 },
    DevItems { place: u8, width: u8, left: u8 },
}
