//! Base types and their codes (FIT protocol, "Base Types").
ghost use Rattle.std.specs.Prelude.{◌≡◌, ◌⊎◌, ◌/◌, ◌%◌, ◌==◌};
ghost use Rattle.fit_base.specs.BaseTypes.{base_type, item_width};

use crate::base_type::{
    ENUM, FLOAT32, FLOAT64, SINT8, SINT16, SINT32, SINT64, STRING, UINT8, UINT8Z, UINT16, UINT16Z,
    UINT32, UINT32Z, UINT64, UINT64Z,
};

/// What the items of a base type stand for.
#[derive(Clone, Copy, Debug, PartialEq, Eq)]
pub enum Class {
    /// Numbers in two's complement.
    Signed,
    /// Numbers from 0 on.
    Unsigned,
    /// A text in UTF-8.
    Text,
    /// Floating point numbers, kept as they are.
    Float,
    /// Bytes without a meaning of their own.
    Bytes,
}

/// A base type code (FIT protocol, "Base Types"). Any byte is one: a code that isn't in the protocol's table counts as byte.
#[derive(Clone, Copy, Debug, PartialEq, Eq)]
pub struct Code(pub u8);

impl Code {
    /// How many bytes an item has.
    pub fn width(self) -> u8
        ensures { result ≡ (base_type self.0).width }
    {
        WIDTHS[self.0 as usize]
    }

    /// The bits of an item that holds no value.
    pub fn invalid(self) -> u64
        ensures { result ≡ (base_type self.0).invalid }
    {
        match self.0 {
            SINT8 => 0x7F,
            STRING | UINT8Z | UINT16Z | UINT32Z | UINT64Z => 0,
            SINT16 => 0x7FFF,
            UINT16 => 0xFFFF,
            SINT32 => 0x7FFF_FFFF,
            UINT32 | FLOAT32 => 0xFFFF_FFFF,
            SINT64 => 0x7FFF_FFFF_FFFF_FFFF,
            FLOAT64 | UINT64 => u64::MAX,
            _ => 0xFF,
        }
    }

    /// What the items stand for.
    pub fn class(self) -> Class
        ensures { result ≡ (base_type self.0).class }
    {
        match self.0 {
            SINT8 | SINT16 | SINT32 | SINT64 => Class::Signed,
            ENUM | UINT8 | UINT16 | UINT32 | UINT64 => Class::Unsigned,
            UINT8Z | UINT16Z | UINT32Z | UINT64Z => Class::Unsigned,
            STRING => Class::Text,
            FLOAT32 | FLOAT64 => Class::Float,
            _ => Class::Bytes,
        }
    }
}

/// The width of the items of a field of `size` bytes: the code's where that divides the size, and
/// else 1.
pub fn width_of(code: Code, size: u8) -> u8
    ensures { result ≡ item_width code.0 size }
{
    let width = code.width();
    if divides(width, size) { width } else { 1 }
}

/// Whether the width divides the size: whether the bits below the width's own are zero.
fn divides(width: u8, size: u8) -> bool
    requires { (width ≡ 1) ⊎ (width ≡ 2) ⊎ (width ≡ 4) ⊎ (width ≡ 8) }
    ensures { result ≡ (size % width == 0) }
{
    size & (width - 1) == 0
}

/// How many items of this width as many bytes have.
pub(crate) fn items_in(size: u8, width: u8) -> u8
    requires { (width ≡ 1) ⊎ (width ≡ 2) ⊎ (width ≡ 4) ⊎ (width ≡ 8) }
    ensures { result ≡ size / width }
{
    match width {
        1 => size,
        2 => size / 2,
        4 => size / 4,
        _ => size / 8,
    }
}

/// How many bytes an item of each code has. A row has 32 codes, and the fifth those from 0x80 on.
static WIDTHS: [u8; 256] = [
    1, 1, 1, 1, 1, 1, 1, 1, 1, 1, 1, 1, 1, 1, 1, 1, 1, 1, 1, 1, 1, 1, 1, 1, 1, 1, 1, 1, 1, 1, 1, 1,
    1, 1, 1, 1, 1, 1, 1, 1, 1, 1, 1, 1, 1, 1, 1, 1, 1, 1, 1, 1, 1, 1, 1, 1, 1, 1, 1, 1, 1, 1, 1, 1,
    1, 1, 1, 1, 1, 1, 1, 1, 1, 1, 1, 1, 1, 1, 1, 1, 1, 1, 1, 1, 1, 1, 1, 1, 1, 1, 1, 1, 1, 1, 1, 1,
    1, 1, 1, 1, 1, 1, 1, 1, 1, 1, 1, 1, 1, 1, 1, 1, 1, 1, 1, 1, 1, 1, 1, 1, 1, 1, 1, 1, 1, 1, 1, 1,
    1, 1, 1, 2, 2, 4, 4, 1, 4, 8, 1, 2, 4, 1, 8, 8, 8, 1, 1, 1, 1, 1, 1, 1, 1, 1, 1, 1, 1, 1, 1, 1,
    1, 1, 1, 1, 1, 1, 1, 1, 1, 1, 1, 1, 1, 1, 1, 1, 1, 1, 1, 1, 1, 1, 1, 1, 1, 1, 1, 1, 1, 1, 1, 1,
    1, 1, 1, 1, 1, 1, 1, 1, 1, 1, 1, 1, 1, 1, 1, 1, 1, 1, 1, 1, 1, 1, 1, 1, 1, 1, 1, 1, 1, 1, 1, 1,
    1, 1, 1, 1, 1, 1, 1, 1, 1, 1, 1, 1, 1, 1, 1, 1, 1, 1, 1, 1, 1, 1, 1, 1, 1, 1, 1, 1, 1, 1, 1, 1,
];
