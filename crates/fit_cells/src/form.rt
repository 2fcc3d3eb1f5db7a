//! How the numbers of a field are shown, found out once for many of them.
ghost use Rattle.std.specs.Prelude.{◌≡◌, ◌≢◌, ◌≤◌, ◌<◌, ◌⊎◌, ◌++◌, ◌+◌, take, ◌^◌, pos, neg_ℤ, ◌*ℤ◌, ◌-ℤ◌, ◌≤ℤ◌, ◌∷◌, [], ℕ, ℤ, Option, IfSome, IsNone, OnErr, OnOk, length, option_map, if◌then◌else◌};
ghost use Rattle.fit_base.specs.BaseTypes.{base_type};
ghost use Rattle.fit_base.specs.Numbers.{twos_complement};
ghost use Rattle.fit_numbers.specs.FixedText.{StillBegins};
ghost use Rattle.fit_numbers.specs.FixedText.{fixed_text};
ghost use Rattle.fit_profile.specs.Names.{meaning};
ghost use Rattle.fit_profile.specs.Profile.{Meaning};
ghost use Rattle.fit_numbers.specs.Scaled.{IsScale};
ghost use Rattle.fit_cells.specs.Cells.{item_text, number_text};
ghost use Rattle.fit_cells.specs.Forms.{IsFormOf, IsSmallForm};

use fit_base::{Class, Code, Items, signed};
use fit_profile::{Fixed, Info, decimals_of, factor_of, put_fixed, shift, write_fixed};
use std::alloc::AllocError;

/// How the items of a field are shown, where they are numbers of at most four bytes.
#[derive(Clone, Copy)]
pub struct NumberForm {
    /// Whether the items are signed.
    pub signed: bool,
    /// How many bytes an item has.
    pub width: u8,
    /// The bits of an item without a value.
    pub invalid: u64,
    /// How many units of the last decimal one over the scale of the profile is: 1 where there is none.
    pub factor: u32,
    /// The offset in units of the raw value.
    pub shift: u64,
    /// How many decimals are shown.
    pub decimals: u8,
}

/// The form of numbers of this width that mean what the profile says.
fn form_by(signed: bool, width: u8, invalid: u64, info: Option<Info>) -> NumberForm
    requires width { (width ≡ 1) ⊎ (width ≡ 2) ⊎ (width ≡ 4) }
    requires scale { IfSome info (λ i. IsScale i.scale) }
    ensures signed { result.signed ≡ signed }
    ensures width { result.width ≡ width }
    ensures invalid { result.invalid ≡ invalid }
    ensures small { IsSmallForm result }
    ensures text { (raw : ℤ) → number_text (option_map meaning info) raw ≡ fixed_text
        ((raw -ℤ pos result.shift) *ℤ pos result.factor)
        result.decimals }
{
    match info {
        Some(info) => NumberForm {
            signed,
            width,
            invalid,
            factor: factor_of(info.scale),
            shift: shift(info.offset, info.scale),
            decimals: decimals_of(info.scale),
        },
        None => NumberForm {
            signed,
            width,
            invalid,
            factor: 1,
            shift: 0,
            decimals: 0,
        },
    }
}

/// The form of a field of this base type, where its items are numbers of at most four bytes.
pub fn number_form(code: Code, info: Option<Info>) -> Option<NumberForm>
    requires { IfSome info (λ i. IsScale i.scale) }
    ensures small { IfSome result IsSmallForm }
    ensures form { IfSome result (IsFormOf code.0 (option_map meaning info)) }
{
    let width = code.width();
    if width > 4 {
        return None;
    }
    match code.class() {
        Class::Signed => Some(form_by(true, width, code.invalid(), info)),
        Class::Unsigned => Some(form_by(false, width, code.invalid(), info)),
        Class::Text | Class::Float | Class::Bytes => None,
    }
}

/// The item, where it is the only one and has the width of a form.
#[tactic(auto, using(crate::proofs::PlainFacts::only_one))]
pub fn lone_number(form: NumberForm, items: &Items) -> Option<u64>
    ensures some { IfSome result (λ bits. (items.now.width ≡ form.width)
        × (items.now.bits ≡ bits ∷ [])) }
    ensures none { IsNone result → items.now.width ≡ form.width → length items.now.bits ≡ 1 → ⊥ }
{
    match items.bits.as_slice() {
        [bits] if items.width == form.width => Some(*bits),
        _ => None,
    }
}

/// The form and the item, where the form is known and the item is the only one and has its width.
#[inline(always)]
pub fn formed(form: Option<NumberForm>, items: &Items) -> Option<(NumberForm, u64)>
    requires { IfSome form IsSmallForm }
    ensures small { IfSome result (λ p. IsSmallForm p.0) }
    ensures form { (code : ℕ) (info : Option Meaning) → IfSome form (IsFormOf code info)
        → IfSome result (λ p. IsFormOf code info p.0) }
    ensures lone { IfSome result (λ p. (items.now.width ≡ p.0.width)
        × (items.now.bits ≡ p.1 ∷ [])) }
    ensures none { IsNone result → IfSome form (λ f. items.now.width ≡ f.width
        → length items.now.bits ≡ 1 → ⊥) }
{
    let form = form?;
    let bits = lone_number(form, items)?;
    Some((form, bits))
}

/// The number that the bits of an item are.
fn raw(form: NumberForm, bits: u64) -> i64
    requires small { IsSmallForm form }
    requires bits { bits < 256 ^ form.width }
    ensures value { result ≡ (if form.signed then twos_complement form.width bits else pos bits) }
    ensures least { neg_ℤ (pos (2 ^ 32)) ≤ℤ result }
    ensures most { result ≤ℤ pos (2 ^ 32) }
{
    if form.signed {
        signed(form.width, bits)
    } else {
        bits as i64
    }
}

/// The number of an item in units of the last decimal.
#[inline(always)]
fn in_decimals(form: NumberForm, bits: u64) -> i64
    requires small { IsSmallForm form }
    requires bits { bits < 256 ^ form.width }
    ensures { (code : ℕ) (info : Option Meaning) → IsFormOf code info form → bits ≢ form.invalid
        → fixed_text result form.decimals
        ≡ item_text (base_type code).class code info form.width bits }
{
    (raw(form, bits) - form.shift as i64) * i64::from(form.factor)
}

/// The number of an item that isn't the invalid one.
#[inline(always)]
pub fn formed_number(form: NumberForm, bits: u64) -> Fixed
    requires small { IsSmallForm form }
    requires bits { bits < 256 ^ form.width }
    requires valid { bits ≢ form.invalid }
    ensures text { (code : ℕ) (info : Option Meaning) → IsFormOf code info form
        → fixed_text result.value result.decimals
        ≡ item_text (base_type code).class code info form.width bits }
    ensures few { result.decimals ≤ 8 }
{
    Fixed {
        value: i128::from(in_decimals(form, bits)),
        decimals: form.decimals,
    }
}

/// Puts an item after a text. Out of memory, the old text is still its beginning.
#[inline(always)]
pub fn put_formed(text: &mut Vec<u8>, form: NumberForm, bits: u64) -> Result<(), AllocError>
    requires small { IsSmallForm form }
    requires bits { bits < 256 ^ form.width }
    ensures ok { (code : ℕ) (info : Option Meaning) → IsFormOf code info form
        → OnOk result (text.new.items ≡ text.old.items
        ++ item_text (base_type code).class code info form.width bits) }
    ensures kept { OnErr result (StillBegins text.old.items text.new.items) }
{
    if bits == form.invalid {
        return Ok(());
    }
    put_fixed(text, in_decimals(form, bits), form.decimals)
}

/// Writes an item into bytes from a place on. Returns the place after it, which is the same place where the item is invalid.
#[inline(always)]
pub fn write_formed(bytes: &mut [u8], at: usize, form: NumberForm, bits: u64) -> usize
    requires small { IsSmallForm form }
    requires bits { bits < 256 ^ form.width }
    requires room { at + 30 ≤ length bytes.old }
    ensures size { length bytes.new ≡ length bytes.old }
    ensures within { result ≤ at + 30 }
    ensures text { (code : ℕ) (info : Option Meaning) → IsFormOf code info form
        → take result bytes.new ≡ take at bytes.old
        ++ item_text (base_type code).class code info form.width bits }
{
    if bits == form.invalid {
        return at;
    }
    write_fixed(bytes, at, in_decimals(form, bits), form.decimals)
}
