//! The longest message.

use std::alloc::{AllocError, Global};

/// How many bytes of data the longest message and its definition have: 7 and 3 for each field, and 1 and 255 for each field.
pub const LONGEST: u32 = 1537 + 130_051;

/// A file of a definition of 255 fields and 255 developer fields of 255 bytes each, and of one message. The closing checksum is that of
/// another program.
pub fn longest(alloc: Global) -> Result<Vec<u8>, AllocError> {
    let mut bytes = Vec::from_slice(alloc, b"\x0E\x20\0\0")?;
    bytes.extend_from_slice(&LONGEST.to_le_bytes())?;
    bytes.extend_from_slice(b".FIT\0\0\x60\0\0\x14\0\xFF")?;
    for number in 0..255u8 {
        bytes.extend_from_slice(&[number, 255, 0x0D])?;
    }
    bytes.push(255)?;
    for number in 0..255u8 {
        bytes.extend_from_slice(&[number, 255, 0])?;
    }
    bytes.push(0)?;
    for place in 0..130_050u32 {
        bytes.push((place % 251) as u8)?;
    }
    bytes.extend_from_slice(&[0x51, 0x2D])?;
    Ok(bytes)
}
