//! Fields of one floating point number.
ghost use Rattle.std.specs.Prelude.{◌≡◌, ◌≤◌, ◌⊎◌, ◌+◌, ◌*◌, ◌++◌, IfOk, IsTrue, codes, length};
ghost use Rattle.fit_base.specs.BaseTypes.{base_type};
ghost use Rattle.fit_base.specs.Numbers.{number};
ghost use Rattle.fit_base.specs.declared.code.Class.TheVariants.{Float};
ghost use Rattle.fit_cells.specs.Cells.{hex_digits};
ghost use Rattle.fit_texts.specs.Sheets.{and_sheet};

use crate::sheet::{Sheet, make_room};
use fit_base::{Class, Code, Order, bits_at};
use fit_cells::write_float;
use std::alloc::AllocError;

/// Whether a field of this base type and size is one floating point number.
pub fn is_lone_float(code: Code, size: u8) -> bool
    ensures class { IsTrue result → (base_type code.0).class ≡ Float }
    ensures width { IsTrue result → (base_type code.0).width ≡ size }
    ensures all { (base_type code.0).class ≡ Float → (base_type code.0).width ≡ size
        → IsTrue result }
{
    code.class() == Class::Float && code.width() == size
}

/// Adds a floating point number of this width to what is written in a sheet, by its bytes. Returns the place after it. A call with a width
/// that is always the same there writes its digits without a loop.
#[inline(always)]
fn add_digits(
    text: &mut Vec<u8>,
    sheet: &mut Sheet,
    at: usize,
    width: u8,
    order: Order,
    bytes: &[u8],
) -> Result<usize, AllocError>
    requires place { at ≤ 1024 }
    requires width { (width ≡ 1) ⊎ (width ≡ 2) ⊎ (width ≡ 4) ⊎ (width ≡ 8) }
    requires length { length bytes.now ≡ width }
    ensures place { IfOk result (λ end. end ≤ 1024) }
    ensures text { IfOk result (λ end. and_sheet text.new.items sheet.new end
        ≡ and_sheet text.old.items sheet.old at
        ++ (codes "0x" ++ hex_digits (2 * width) (number order bytes.now))) }
{
    let bits = bits_at(order, width, bytes);
    let at = make_room(text, sheet, at)?;
    Ok(write_float(sheet, at, width, bits))
}

/// Adds a floating point number of this width to what is written in a sheet, by its bytes. Returns the place after it.
#[inline(never)]
pub fn add_float(
    text: &mut Vec<u8>,
    sheet: &mut Sheet,
    at: usize,
    width: u8,
    order: Order,
    bytes: &[u8],
) -> Result<usize, AllocError>
    requires place { at ≤ 1024 }
    requires width { (width ≡ 1) ⊎ (width ≡ 2) ⊎ (width ≡ 4) ⊎ (width ≡ 8) }
    requires length { length bytes.now ≡ width }
    ensures place { IfOk result (λ end. end ≤ 1024) }
    ensures text { IfOk result (λ end. and_sheet text.new.items sheet.new end
        ≡ and_sheet text.old.items sheet.old at
        ++ (codes "0x" ++ hex_digits (2 * width) (number order bytes.now))) }
{
    if width == 4 {
        return add_digits(text, sheet, at, 4, order, bytes);
    }
    add_digits(text, sheet, at, width, order, bytes)
}
