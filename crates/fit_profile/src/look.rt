//! The fields of a message by their numbers.
ghost use Rattle.std.specs.Prelude.{◌≡◌, ◌≤◌, IfSome, length, option_map};
ghost use Rattle.std.specs.Global.{Global};
ghost use Rattle.fit_base.specs.declared.number.Order.{Order};
ghost use Rattle.fit_record.specs.Environment.{only};
ghost use Rattle.fit_record.specs.ReadMessages.{field_from, fields_from};
ghost use Rattle.fit_record.specs.Records.{sizes};
ghost use Rattle.fit_profile.specs.Looks.{first_field};
ghost use Rattle.fit_profile.specs.inner.InBytes.{shapes};

use fit_base::Items;
use fit_record::FieldDef;
use std::alloc::Allocator;

/// The first field of this number, with its items.
pub(crate) fn first_of<'a, A: Allocator>(
    fields: &'a [FieldDef],
    items: &'a [Items<A>],
    number: u8,
) -> Option<(&'a FieldDef, &'a Items<A>)>
    ensures { option_map (λ f. (f.0.now, f.1.now)) result
        ≡ first_field fields.now items.now number }
{
    for (i, field) in fields.iter().enumerate() {
        if field.number == number {
            if i >= items.len() {
                return None;
            }
            return Some((field, &items[i]));
        }
    }
    None
}

/// The first field of this number, with its bytes, which are some of these.
pub(crate) fn first_in<'a>(
    fields: &'a [FieldDef],
    bytes: &'a [u8],
    number: u8,
) -> Option<(&'a FieldDef, &'a [u8])>
    requires { sizes (shapes fields.now) ≤ length bytes.now }
    ensures size { IfSome result (λ f. length f.1.now ≡ f.0.now.size) }
    ensures found { (order : Order) → option_map (λ f. (
      f.0.now,
      field_from {A = Global} order (f.0.now.code, f.0.now.size) f.1.now,
    )) result
        ≡ first_field fields.now (fields_from order (shapes fields.now) bytes.now) number }
{
    let mut rest = bytes;
    for field in fields {
        let (here, after) = rest.split_at(field.size as usize);
        if field.number == number {
            return Some((field, here));
        }
        rest = after;
    }
    None
}

/// The one item of a field that has just one.
pub(crate) fn only_item(bits: &[u64]) -> Option<u64>
    ensures { result ≡ only bits.now }
{
    if bits.len() == 1 { Some(bits[0]) } else { None }
}
