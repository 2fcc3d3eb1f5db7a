//! Raw values, read back from the texts of numbers.
ghost use Rattle.std.specs.Prelude.{◌≡◌, ◌<◌, ◌≤◌, ◌⊎◌, ◌^◌, ◌/◌, ℕ, ℤ, pos, neg_ℤ, ◌*ℤ◌, ◌-ℤ◌, ◌≤ℤ◌, ◌<ℤ◌, IfSome, Some, None, ◌==◌, [], if◌then◌else◌, option_map};
ghost use Rattle.fit_base.specs.BaseTypes.{base_type};
ghost use Rattle.fit_profile.specs.Names.{meaning};
ghost use Rattle.fit_numbers.specs.Scaled.{decimals, IsScale};
ghost use Rattle.fit_cells.specs.Cells.{number_text};

use fit_base::{Code, greatest};
use fit_profile::{Fixed, Info, fixed, shift};

/// A size in units of the last decimal, over what a whole one has of them.
fn over_factor(size: u128, scale: u32) -> u128
    requires { IsScale scale }
    ensures { result ≡ size / (10 ^ decimals scale / scale) }
{
    match scale {
        5 => size / 2,
        16 => size / 625,
        256 => size / 390_625,
        _ => size,
    }
}

/// A value in units of the last decimal as a whole number, where it is of a usual size.
fn whole(value: i128, scale: u32) -> Option<i128>
    requires { IsScale scale }
    ensures least { IfSome result (λ number. neg_ℤ (pos (2 ^ 70)) ≤ℤ number) }
    ensures most { IfSome result (λ number. number ≤ℤ pos (2 ^ 70)) }
    ensures every { (number : ℤ) → neg_ℤ (pos (2 ^ 70)) ≤ℤ number → number ≤ℤ pos (2 ^ 70)
        → value ≡ number *ℤ pos (10 ^ decimals scale / scale) → result ≡ Some number }
{
    let size = over_factor(value.unsigned_abs(), scale);
    if size > 0x40_0000_0000_0000_0000 {
        return None;
    }
    let size = size as i128;
    Some(if value < 0 { -size } else { size })
}

/// The raw value that a field with this offset, in units of the raw value, shows as a value in units of the last
/// decimal.
fn unscaled(value: i128, scale: u32, shift: u64) -> Option<i128>
    requires scale { IsScale scale }
    requires shift { shift ≤ 2 ^ 42 }
    ensures { (raw : ℤ) → neg_ℤ (pos (2 ^ 64)) ≤ℤ raw → raw <ℤ pos (2 ^ 64)
        → value ≡ (raw -ℤ pos shift) *ℤ pos (10 ^ decimals scale / scale) → result ≡ Some raw }
{
    let number = whole(value, scale)?;
    Some(number + shift as i128)
}

/// The raw value that a field shows as a text.
fn read_scaled(text: &str, info: Info) -> Option<i128>
    requires { IsScale info.scale }
    ensures { (raw : ℤ) → neg_ℤ (pos (2 ^ 64)) ≤ℤ raw → raw <ℤ pos (2 ^ 64)
        → text.now ≡ number_text (Some (meaning info)) raw → result ≡ Some raw }
{
    let shift = shift(info.offset, info.scale);
    let number = Fixed::read(text, fixed(0, info).decimals)?;
    unscaled(number.value, info.scale, shift)
}

/// The raw value that a field without a scale shows as a text.
fn read_whole(text: &str) -> Option<i128>
    ensures { (raw : ℤ) → neg_ℤ (pos (2 ^ 64)) ≤ℤ raw → raw <ℤ pos (2 ^ 64)
        → text.now ≡ number_text None raw → result ≡ Some raw }
{
    let number = Fixed::read(text, 0)?;
    Some(number.value)
}

/// The raw value that is shown as a text.
fn read_raw(info: Option<Info>, text: &str) -> Option<i128>
    requires { IfSome info (λ i. IsScale i.scale) }
    ensures { (raw : ℤ) → neg_ℤ (pos (2 ^ 64)) ≤ℤ raw → raw <ℤ pos (2 ^ 64)
        → text.now ≡ number_text (option_map meaning info) raw → result ≡ Some raw }
{
    match info {
        Some(info) => read_scaled(text, info),
        None => read_whole(text),
    }
}

/// The bits of this width that stand for a number.
fn bits_of(width: u8, number: i128) -> u64
    requires { (width ≡ 1) ⊎ (width ≡ 2) ⊎ (width ≡ 4) ⊎ (width ≡ 8) }
    ensures below { result < 256 ^ width }
    ensures every { (bits : ℕ) → bits < 256 ^ width
        → (number ≡ pos bits) ⊎ (number ≡ pos bits -ℤ pos (256 ^ width)) → result ≡ bits }
{
    let limit = i128::from(greatest(width)) + 1;
    let bits = if number < 0 { number + limit } else { number };
    if bits < 0 || bits >= limit {
        return 0;
    }
    bits as u64
}

/// The bits of an integer that is shown as a text, and some bits where none is.
pub(crate) fn read_number(code: Code, info: Option<Info>, text: &str) -> u64
    requires { IfSome info (λ i. IsScale i.scale) }
    ensures below { result < 256 ^ (base_type code.0).width }
    ensures every { (bits : ℕ) (raw : ℤ) → bits < 256 ^ (base_type code.0).width
        → (raw ≡ pos bits) ⊎ (raw ≡ pos bits -ℤ pos (256 ^ (base_type code.0).width))
        → text.now ≡ (if bits == (base_type code.0).invalid then []
        else number_text (option_map meaning info) raw)
        → result ≡ bits }
{
    if text.is_empty() {
        return code.invalid();
    }
    match read_raw(info, text) {
        Some(raw) => bits_of(code.width(), raw),
        None => 0,
    }
}
