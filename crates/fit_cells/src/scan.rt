//! The items that a cell shows.
ghost use Rattle.std.specs.Prelude.{◌≡◌, ◌<◌, ◌∷◌, [], ◌⊎◌, ◌^◌, ℕ, List, All, IfOk, IfSome, Some, length, map, option_map};
ghost use Rattle.std.specs.Global.{Global};
ghost use Rattle.std.specs.List.{after_first, before_first};
ghost use Rattle.fit_base.specs.BaseTypes.{base_type};
ghost use Rattle.fit_base.specs.Fields.{HasShape};
ghost use Rattle.fit_base.specs.declared.items.Items.{Items};
ghost use Rattle.fit_profile.specs.Names.{meaning};
ghost use Rattle.fit_numbers.specs.Scaled.{IsScale};
ghost use Rattle.fit_cells.specs.Cells.{barred, cell, class_of, item_text, items_text};
ghost use Rattle.fit_cells.specs.Steps.{is_bar};

use crate::cell::{class_of, put_cell};
use crate::hexadecimal::{read_bytes, read_float};
use crate::raw::read_number;
use crate::strings::read_string;
use fit_base::{Bits, Class, Code, Items, width_of};
use fit_profile::Info;
use std::alloc::{AllocError, Global};

/// What stands before the first bar of a text, or all of it, and what stands after that bar.
fn split_at_bar(text: &str) -> (&str, &str)
    ensures before { result.0.now ≡ before_first is_bar text.now }
    ensures after { result.1.now ≡ after_first is_bar text.now }
{
    match text.split_once('|') {
        Some(parts) => parts,
        None => (text, ""),
    }
}

/// The bits of an item that is shown as a text, and some bits where none is.
fn read_item(class: Class, code: Code, info: Option<Info>, text: &str) -> u64
    requires { IfSome info (λ i. IsScale i.scale) }
    ensures below { result < 256 ^ (base_type code.0).width }
    ensures every { (bits : ℕ) → bits < 256 ^ (base_type code.0).width
        → text.now ≡ item_text class code.0 (option_map meaning info) (base_type code.0).width bits
        → result ≡ bits }
{
    match class {
        Class::Signed => read_number(code, info, text),
        Class::Unsigned => read_number(code, info, text),
        Class::Text | Class::Float | Class::Bytes => read_float(code.width(), text.as_bytes()),
    }
}

/// The bits of items that are shown side by side, one after another, and some bits where none are.
fn read_several(
    alloc: Global,
    class: Class,
    code: Code,
    info: Option<Info>,
    count: u8,
    text: &str,
) -> Result<Bits, AllocError>
    requires { IfSome info (λ i. IsScale i.scale) }
    ensures count { IfOk result (λ bits. length bits ≡ count) }
    ensures below { IfOk result (λ bits. All (λ n. n < 256 ^ (base_type code.0).width) bits) }
    ensures every { IfOk result (λ bits. (numbers : List ℕ) → length numbers ≡ count
        → All (λ n. n < 256 ^ (base_type code.0).width) numbers
        → text.now ≡ barred
        (map (item_text class code.0 (option_map meaning info) (base_type code.0).width) numbers)
        → bits ≡ numbers) }
{
    let mut bits = Bits::with_capacity(alloc, count as usize)?;
    let mut rest = text;
    for place in 0..count {
        let (item, after) = split_at_bar(rest);
        bits.push(read_item(class, code, info, item))?;
        rest = after;
    }
    Ok(bits)
}

/// The bits of an item that stands alone, and some bits where none does.
fn read_lone(
    alloc: Global,
    class: Class,
    code: Code,
    info: Option<Info>,
    text: &str,
) -> Result<Bits, AllocError>
    requires { IfSome info (λ i. IsScale i.scale) }
    ensures count { IfOk result (λ bits. length bits ≡ 1) }
    ensures below { IfOk result (λ bits. All (λ n. n < 256 ^ (base_type code.0).width) bits) }
    ensures every { IfOk result (λ bits. (n : ℕ) → n < 256 ^ (base_type code.0).width
        → text.now ≡ item_text class code.0 (option_map meaning info) (base_type code.0).width n
        → bits ≡ n ∷ []) }
{
    let mut bits = Bits::new(alloc);
    bits.push(read_item(class, code, info, text))?;
    Ok(bits)
}

/// The bits of items that are shown side by side, and some bits where none are.
fn read_items(
    alloc: Global,
    class: Class,
    code: Code,
    info: Option<Info>,
    count: u8,
    text: &str,
) -> Result<Bits, AllocError>
    requires { IfSome info (λ i. IsScale i.scale) }
    ensures count { IfOk result (λ bits. length bits ≡ count) }
    ensures below { IfOk result (λ bits. All (λ n. n < 256 ^ (base_type code.0).width) bits) }
    ensures every { IfOk result (λ bits. (numbers : List ℕ) → length numbers ≡ count
        → All (λ n. n < 256 ^ (base_type code.0).width) numbers
        → text.now ≡ barred
        (map (item_text class code.0 (option_map meaning info) (base_type code.0).width) numbers)
        → bits ≡ numbers) }
{
    if count == 1 {
        Ok(read_lone(alloc, class, code, info, text)?)
    } else {
        read_several(alloc, class, code, info, count, text)
    }
}

/// The bits of the items whose cell is this text. For the cell of no such items they may be any bits.
fn read_bits(
    alloc: Global,
    code: Code,
    width: u8,
    count: u8,
    info: Option<Info>,
    text: &str,
) -> Result<Bits, AllocError>
    requires scale { IfSome info (λ i. IsScale i.scale) }
    requires width { (width ≡ (base_type code.0).width) ⊎ (width ≡ 1) }
    ensures count { IfOk result (λ bits. length bits ≡ count) }
    ensures below { IfOk result (λ bits. All (λ n. n < 256 ^ width) bits) }
    ensures every { IfOk result (λ bits. (numbers : List ℕ) → length numbers ≡ count
        → All (λ n. n < 256 ^ width) numbers
        → text.now ≡ items_text (class_of code.0 width) code.0 (option_map meaning info) width
        numbers
        → bits ≡ numbers) }
{
    match class_of(code, width) {
        Class::Text => read_string(alloc, count, text.as_bytes()),
        Class::Bytes => read_bytes(alloc, count, text.as_bytes()),
        class => read_items(alloc, class, code, info, count, text),
    }
}

/// The items of a field of this base type code and size whose cell is this text; None where no such items have it. `written` lends
/// its memory; its text is lost.
pub fn cell_items_by(
    alloc: Global,
    written: &mut Vec<u8>,
    code: Code,
    size: u8,
    info: Option<Info>,
    text: &str,
) -> Result<Option<Items>, AllocError>
    requires { IfSome info (λ i. IsScale i.scale) }
    ensures some { IfOk result (λ found. IfSome found (λ items.
        HasShape code.0 size items × (cell code.0 (option_map meaning info) items ≡ text.now))) }
    ensures every { IfOk result (λ found. (items : Items Global) → HasShape code.0 size items
        → cell code.0 (option_map meaning info) items ≡ text.now → found ≡ Some items) }
{
    let width = width_of(code, size);
    let bits = read_bits(alloc, code, width, size / width, info, text)?;
    let items = Items { width, bits };
    written.clear();
    put_cell(written, code, info, &items)?;
    if written.as_slice() == text.as_bytes() {
        Ok(Some(items))
    } else {
        Ok(None)
    }
}

/// The items of a field of this base type code and size whose cell is this text; None where no such items have it.
pub fn cell_items(
    alloc: Global,
    code: Code,
    size: u8,
    info: Option<Info>,
    text: &str,
) -> Result<Option<Items>, AllocError>
    requires { IfSome info (λ i. IsScale i.scale) }
    ensures some { IfOk result (λ found. IfSome found (λ items.
        HasShape code.0 size items × (cell code.0 (option_map meaning info) items ≡ text.now))) }
    ensures every { IfOk result (λ found. (items : Items Global) → HasShape code.0 size items
        → cell code.0 (option_map meaning info) items ≡ text.now → found ≡ Some items) }
{
    let mut written = Vec::new(alloc);
    cell_items_by(alloc, &mut written, code, size, info, text)
}
