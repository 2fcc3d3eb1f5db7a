//! Numbers, as they are in a cell.
ghost use Rattle.std.specs.Prelude.{◌≡◌, ◌<◌, ◌≤◌, ◌++◌, ◌⊎◌, ◌^◌, ◌==◌, ◌+◌, pos, neg_ℤ, ◌≤ℤ◌, ◌<ℤ◌, All, IfSome, OnErr, OnOk, [], if◌then◌else◌, map, option_map};
ghost use Rattle.fit_base.specs.BaseTypes.{base_type};
ghost use Rattle.fit_numbers.specs.FixedText.{StillBegins};
ghost use Rattle.fit_profile.specs.Names.{meaning};
ghost use Rattle.fit_numbers.specs.Scaled.{decimals, IsScale};
ghost use Rattle.fit_cells.specs.Cells.{barred, item_text, number_text, scaled_value};
ghost use Rattle.fit_cells.specs.Steps.{bar};

use crate::hexadecimal::put_digits;
use fit_base::{Class, Code, signed};
use fit_profile::{Fixed, Info, fixed};
use std::alloc::AllocError;

/// A raw value in units of the last decimal.
fn scaled(raw: i128, info: Info) -> Fixed
    requires least { neg_ℤ (pos (2 ^ 63)) ≤ℤ raw }
    requires most { raw <ℤ pos (2 ^ 64) }
    requires scale { IsScale info.scale }
    ensures value { result.value ≡ scaled_value raw info.scale info.offset }
    ensures decimals { result.decimals ≡ decimals info.scale }
    ensures few { result.decimals ≤ 8 }
{
    fixed(raw, info)
}

/// Puts the text of a number after another one.
fn put_text(text: &mut Vec<u8>, info: Option<Info>, raw: i128) -> Result<(), AllocError>
    requires least { neg_ℤ (pos (2 ^ 63)) ≤ℤ raw }
    requires most { raw <ℤ pos (2 ^ 64) }
    requires scale { IfSome info (λ i. IsScale i.scale) }
    ensures ok { OnOk result (text.new.items ≡ text.old.items
        ++ number_text (option_map meaning info) raw) }
    ensures kept { OnErr result (StillBegins text.old.items text.new.items) }
{
    match info {
        Some(info) => scaled(raw, info).put(text),
        None => Fixed {
            value: raw,
            decimals: 0,
        }
        .put(text),
    }
}

/// Puts a number after a text, but nothing where its bits are the invalid ones.
fn put_number(
    text: &mut Vec<u8>,
    code: Code,
    info: Option<Info>,
    bits: u64,
    raw: i128,
) -> Result<(), AllocError>
    requires least { neg_ℤ (pos (2 ^ 63)) ≤ℤ raw }
    requires most { raw <ℤ pos (2 ^ 64) }
    requires scale { IfSome info (λ i. IsScale i.scale) }
    ensures ok { OnOk result (text.new.items ≡ text.old.items
        ++ (if bits == (base_type code.0).invalid then []
        else number_text (option_map meaning info) raw)) }
    ensures kept { OnErr result (StillBegins text.old.items text.new.items) }
{
    if bits == code.invalid() {
        return Ok(());
    }
    put_text(text, info, raw)
}

/// Puts an item after a text.
#[tactic(auto, using(fit_numbers::proofs::KeptTexts::none_put, fit_numbers::proofs::KeptTexts::more_put))]
fn put_item(
    text: &mut Vec<u8>,
    class: Class,
    code: Code,
    info: Option<Info>,
    width: u8,
    bits: u64,
) -> Result<(), AllocError>
    requires scale { IfSome info (λ i. IsScale i.scale) }
    requires width { (width ≡ 1) ⊎ (width ≡ 2) ⊎ (width ≡ 4) ⊎ (width ≡ 8) }
    requires bits { bits < 256 ^ width }
    ensures ok { OnOk result (text.new.items ≡ text.old.items
        ++ item_text class code.0 (option_map meaning info) width bits) }
    ensures kept { OnErr result (StillBegins text.old.items text.new.items) }
{
    match class {
        Class::Signed => put_number(text, code, info, bits, i128::from(signed(width, bits))),
        Class::Unsigned => put_number(text, code, info, bits, i128::from(bits)),
        Class::Text | Class::Float | Class::Bytes => {
            text.extend_from_slice(b"0x")?;
            put_digits(text, 2 * width, bits)
        }
    }
}

/// Puts what stands before the item at a place.
fn put_bar(text: &mut Vec<u8>, place: usize) -> Result<(), AllocError>
    ensures ok { OnOk result (text.new.items ≡ text.old.items ++ bar place) }
    ensures err { OnErr result (text.new.items ≡ text.old.items) }
{
    if place == 0 {
        return Ok(());
    }
    text.extend_from_slice(b"|")
}

/// Puts items after a text, with a bar between one and the next.
pub(crate) fn put_items(
    text: &mut Vec<u8>,
    class: Class,
    code: Code,
    info: Option<Info>,
    width: u8,
    bits: &[u64],
) -> Result<(), AllocError>
    requires scale { IfSome info (λ i. IsScale i.scale) }
    requires width { (width ≡ 1) ⊎ (width ≡ 2) ⊎ (width ≡ 4) ⊎ (width ≡ 8) }
    requires bits { All (λ n. n < 256 ^ width) bits.now }
    ensures ok { OnOk result (text.new.items ≡ text.old.items
        ++ barred (map (item_text class code.0 (option_map meaning info) width) bits.now)) }
    ensures kept { OnErr result (StillBegins text.old.items text.new.items) }
{
    for (place, item) in bits.iter().enumerate() {
        put_bar(text, place)?;
        put_item(text, class, code, info, width, *item)?;
    }
    Ok(())
}
