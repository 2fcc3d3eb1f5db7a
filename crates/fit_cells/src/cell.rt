//! The cells of fields.
ghost use Rattle.std.specs.Prelude.{◌≡◌, ◌<◌, ◌++◌, ◌⊎◌, ◌^◌, All, IfOk, IfSome, IsTrue, OnErr, OnOk, Option, false, option_map};
ghost use Rattle.std.specs.Global.{Global};
ghost use Rattle.std.specs.String.{string_bytes};
ghost use Rattle.csv.specs.Writing.{default_writer, field_text};
ghost use Rattle.fit_base.specs.BaseTypes.{base_type};
ghost use Rattle.fit_base.specs.declared.code.Class.TheVariants.{Text};
ghost use Rattle.fit_base.specs.declared.items.Items.{Items};
ghost use Rattle.fit_numbers.specs.FixedText.{StillBegins};
ghost use Rattle.fit_profile.specs.Names.{meaning};
ghost use Rattle.fit_profile.specs.Profile.{Meaning};
ghost use Rattle.fit_numbers.specs.Scaled.{IsScale};
ghost use Rattle.fit_cells.specs.Cells.{cell, class_of};

use crate::form::{formed, number_form, put_formed};
use crate::hexadecimal::put_bytes;
use crate::numbers::put_items;
use crate::strings::put_string;
use fit_base::{Class, Code, Items};
use fit_profile::Info;
use std::alloc::{AllocError, Global};

/// What items of this width stand for.
pub(crate) fn class_of(code: Code, width: u8) -> Class
    ensures { result ≡ class_of code.0 width }
{
    if width == code.width() {
        code.class()
    } else {
        Class::Bytes
    }
}

/// Puts the cell of a field after a text. If memory runs out, the old text is still the beginning, and part of the cell may have
/// been written.
pub fn put_cell(
    text: &mut Vec<u8>,
    code: Code,
    info: Option<Info>,
    items: &Items,
) -> Result<(), AllocError>
    requires scale { IfSome info (λ i. IsScale i.scale) }
    requires width { (items.now.width ≡ (base_type code.0).width) ⊎ (items.now.width ≡ 1) }
    requires bits { All (λ n. n < 256 ^ items.now.width) items.now.bits }
    ensures ok { OnOk result (text.new.items ≡ text.old.items
        ++ cell code.0 (option_map meaning info) items.now) }
    ensures kept { OnErr result (StillBegins text.old.items text.new.items) }
{
    if let Some((form, bits)) = formed(number_form(code, info), items) {
        return put_formed(text, form, bits);
    }
    let bits = items.bits.as_slice();
    if bits.is_empty() {
        return Ok(());
    }
    match class_of(code, items.width) {
        Class::Text => put_string(text, bits),
        Class::Bytes => put_bytes(text, bits),
        class => put_items(text, class, code, info, items.width, bits),
    }
}

/// Whether cells of this base type stand in a row as they are. All do but those of strings, which may need quotes.
pub fn is_never_quoted(code: Code) -> bool
    ensures yes { IsTrue result → (info : Option Meaning) (items : Items Global)
        → field_text default_writer (cell code.0 info items) ≡ cell code.0 info items }
    ensures no { result ≡ false → (base_type code.0).class ≡ Text }
{
    code.class() != Class::Text
}

/// The cell of a field: numbers with a bar between one and the next, an invalid one empty, scaled where
/// the profile says how; the bits of floats in hexadecimal digits; a string as text, where it is one; and
/// bytes in hexadecimal digits. It is empty where there are no items.
pub fn cell_text(
    alloc: Global,
    code: Code,
    info: Option<Info>,
    items: &Items,
) -> Result<String, AllocError>
    requires scale { IfSome info (λ i. IsScale i.scale) }
    requires width { (items.now.width ≡ (base_type code.0).width) ⊎ (items.now.width ≡ 1) }
    requires bits { All (λ n. n < 256 ^ items.now.width) items.now.bits }
    ensures { IfOk result (λ text. string_bytes text
        ≡ cell code.0 (option_map meaning info) items.now) }
{
    let mut text = Vec::new(alloc);
    put_cell(&mut text, code, info, items)?;
    match String::from_utf8(text) {
        Ok(text) => Ok(text),
        Err(_) => unreachable!(),
    }
}
