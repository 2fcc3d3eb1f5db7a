//! Fields of several numbers of at most four bytes.
ghost use Rattle.std.specs.Prelude.{◌≡◌, ◌≤◌, ◌+◌, ◌*◌, ◌/◌, ◌%◌, ◌++◌, ℕ, IfOk, IfSome, IsSomeAnd, IsTrue, Option, length, option_map, take};
ghost use Rattle.fit_base.specs.BaseTypes.{base_type};
ghost use Rattle.fit_base.specs.Numbers.{number};
ghost use Rattle.fit_profile.specs.Names.{meaning};
ghost use Rattle.fit_profile.specs.Profile.{Meaning};
ghost use Rattle.fit_numbers.specs.Scaled.{IsScale};
ghost use Rattle.fit_record.specs.ReadMessages.{numbers_of};
ghost use Rattle.fit_cells.specs.Cells.{item_text};
ghost use Rattle.fit_cells.specs.Forms.{IsFormOf, IsSmallForm};
ghost use Rattle.fit_cells.specs.Steps.{bar};
ghost use Rattle.fit_texts.specs.Several.{numbers_text};
ghost use Rattle.fit_texts.specs.Sheets.{and_sheet};

use crate::lone::lone_form;
use crate::sheet::{Sheet, make_room};
use fit_base::{Code, Order, bits_at};
use fit_cells::{NumberForm, number_form, write_formed};
use fit_profile::Info;
use std::alloc::AllocError;

/// The form of the numbers of a field, where the field has several, or none.
fn several_form(code: u8, size: u8, info: Option<Info>) -> Option<NumberForm>
    requires { IfSome info (λ i. IsScale i.scale) }
    ensures small { IfSome result IsSmallForm }
    ensures whole { IfSome result (λ f. size % f.width ≡ 0) }
    ensures form { IfSome result (IsFormOf code (option_map meaning info)) }
{
    if Code(code).width() == size {
        return None;
    }
    let form = number_form(Code(code), info)?;
    if size % form.width != 0 {
        return None;
    }
    Some(form)
}

/// The form of the numbers of a field, where they are of at most four bytes and fill it, and whether the field has just one.
pub fn field_form(code: u8, size: u8, info: Option<Info>) -> (Option<NumberForm>, bool)
    requires { IfSome info (λ i. IsScale i.scale) }
    ensures small { IfSome result.0 IsSmallForm }
    ensures whole { IfSome result.0 (λ f. size % f.width ≡ 0) }
    ensures form { IfSome result.0 (IsFormOf code (option_map meaning info)) }
    ensures lone { IsTrue result.1 → IsSomeAnd result.0 (λ f. f.width ≡ size) }
{
    match lone_form(code, size, info) {
        Some(form) => (Some(form), true),
        None => (several_form(code, size, info), false),
    }
}

/// That of the intervals of a heart rate strap, of which there are more than of any other numbers: thousandths of a second in two bytes.
const INTERVALS: NumberForm = NumberForm {
    signed: false,
    width: 2,
    invalid: 0xFFFF,
    factor: 1,
    shift: 0,
    decimals: 3,
};

/// Whether two forms are the same.
#[inline(always)]
fn is_same(a: NumberForm, b: NumberForm) -> bool
    ensures { IsTrue result → a ≡ b }
{
    a.signed == b.signed
        && a.width == b.width
        && a.invalid == b.invalid
        && a.factor == b.factor
        && a.shift == b.shift
        && a.decimals == b.decimals
}

/// Writes what stands before the number at a place of a field: a bar, but before the first one.
#[inline(always)]
pub(crate) fn write_bar(bytes: &mut [u8], at: usize, place: usize) -> usize
    requires room { at + 1 ≤ length bytes.old }
    ensures size { length bytes.new ≡ length bytes.old }
    ensures within { result ≤ at + 1 }
    ensures text { take result bytes.new ≡ take at bytes.old ++ bar place }
{
    if place == 0 {
        return at;
    }
    bytes[at] = b'|';
    at + 1
}

/// Adds the number at a place of a field, by its bytes, and what stands before it to what is written in a sheet.
#[inline(always)]
fn add_number(
    text: &mut Vec<u8>,
    sheet: &mut Sheet,
    at: usize,
    place: usize,
    form: NumberForm,
    order: Order,
    bytes: &[u8],
) -> Result<usize, AllocError>
    requires at { at ≤ 1024 }
    requires small { IsSmallForm form }
    requires length { length bytes.now ≡ form.width }
    ensures place { IfOk result (λ end. end ≤ 1024) }
    ensures text { (code : ℕ) (info : Option Meaning) → IsFormOf code info form
        → IfOk result (λ end. and_sheet text.new.items sheet.new end
        ≡ and_sheet text.old.items sheet.old at
        ++ (bar place ++ item_text (base_type code).class code info form.width
        (number order bytes.now))) }
{
    let bits = bits_at(order, form.width, bytes);
    let at = make_room(text, sheet, at)?;
    let at = write_bar(sheet, at, place);
    Ok(write_formed(sheet, at, form, bits))
}

/// Adds numbers of this form to what is written in a sheet, by their bytes, with a bar between one and the next. Returns the place
/// after them. Each call is a loop of its own, which knows what of the form and the order is always the same there.
#[inline(always)]
fn add_each(
    text: &mut Vec<u8>,
    sheet: &mut Sheet,
    at: usize,
    form: NumberForm,
    order: Order,
    bytes: &[u8],
) -> Result<usize, AllocError>
    requires place { at ≤ 1024 }
    requires small { IsSmallForm form }
    requires whole { length bytes.now % form.width ≡ 0 }
    ensures place { IfOk result (λ end. end ≤ 1024) }
    ensures text { (code : ℕ) (info : Option Meaning) → IsFormOf code info form
        → IfOk result (λ end. and_sheet text.new.items sheet.new end
        ≡ and_sheet text.old.items sheet.old at ++ numbers_text code info form.width
        (numbers_of order form.width (length bytes.now / form.width) bytes.now)) }
{
    let count = bytes.len() / form.width as usize;
    let mut rest = bytes;
    let mut end = at;
    for place in 0..count {
        let (number, after) = rest.split_at(form.width as usize);
        end = add_number(text, sheet, end, place, form, order, number)?;
        rest = after;
    }
    Ok(end)
}

/// Adds numbers of this form to what is written in a sheet, by their bytes, with a bar between one and the next. Returns the place
/// after them.
#[inline(never)]
pub fn add_numbers(
    text: &mut Vec<u8>,
    sheet: &mut Sheet,
    at: usize,
    form: NumberForm,
    order: Order,
    bytes: &[u8],
) -> Result<usize, AllocError>
    requires place { at ≤ 1024 }
    requires small { IsSmallForm form }
    requires whole { length bytes.now % form.width ≡ 0 }
    ensures place { IfOk result (λ end. end ≤ 1024) }
    ensures text { (code : ℕ) (info : Option Meaning) → IsFormOf code info form
        → IfOk result (λ end. and_sheet text.new.items sheet.new end
        ≡ and_sheet text.old.items sheet.old at ++ numbers_text code info form.width
        (numbers_of order form.width (length bytes.now / form.width) bytes.now)) }
{
    if is_same(form, INTERVALS) {
        if let Order::Little = order {
            return add_each(text, sheet, at, INTERVALS, Order::Little, bytes);
        }
    }
    add_each(text, sheet, at, form, order, bytes)
}
