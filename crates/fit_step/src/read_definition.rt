//! Definition messages of which all bytes are in one piece.
ghost use Rattle.std.specs.Prelude.{◌≡◌, ℕ, List, ◌*◌, IfOk, IfSome, IsSomeAnd, [], ◌∷◌, flat_map, length};
ghost use Rattle.fit_base.specs.Numbers.{number};
ghost use Rattle.fit_base.specs.declared.number.Order.{Order as ByteOrder};
ghost use Rattle.fit_record.specs.Records.{architecture, field_bytes};
ghost use Rattle.fit_step.specs.declared.read_definition.Front.{Front as Fronts};
ghost use Rattle.fit_step.specs.inner.Definitions.{Begins, BeginsWith, definition_of};

use crate::header::{has_developer_fields, has_reserved_bit, is_definition, local_type};
use fit_base::{Entries, Order};
use fit_record::{FieldDef, MessageDef};
use std::alloc::{AllocError, Allocator};

/// What a definition message says before its fields.
#[derive(Clone, Copy)]
pub(crate) struct Front {
    pub(crate) local: u8,
    pub(crate) reserved: u8,
    pub(crate) order: Order,
    pub(crate) global: u16,
    pub(crate) count: u8,
}

/// The byte order that an architecture names.
fn order_of(byte: u8) -> Option<Order>
    ensures some { IfSome result (λ order. architecture order ≡ byte) }
    ensures none { result ≡ None → (order : ByteOrder) → architecture order ≡ byte → ⊥ }
{
    match byte {
        0 => Some(Order::Little),
        1 => Some(Order::Big),
        _ => None,
    }
}

/// The number of two bytes.
#[inline(always)]
pub(crate) fn global_of(order: Order, first: u8, second: u8) -> u16
    ensures { result ≡ number order (first ∷ second ∷ []) }
{
    match order {
        Order::Little => u16::from(first) + 256 * u16::from(second),
        Order::Big => u16::from(second) + 256 * u16::from(first),
    }
}

/// What the definition message says before its fields that begins the piece, and their bytes, where these stand there. `developer` says
/// whether it is one with developer fields, whose bytes come after.
#[inline(always)]
pub(crate) fn front_bytes(developer: bool, piece: &[u8]) -> Option<(Front, &[u8])>
    ensures begins { IfSome result (λ found. BeginsWith developer found.0 found.1.now piece.now) }
    ensures found { (f : Fronts) (entries : List ℕ) → BeginsWith developer f entries piece.now
        → IsSomeAnd result (λ found. length found.1.now ≡ length entries) }
{
    let (header, rest) = piece.split_first()?;
    let byte = *header;
    if has_reserved_bit(byte) || !is_definition(byte) || has_developer_fields(byte) != developer {
        return None;
    }
    if rest.len() < 5 {
        return None;
    }
    let (five, after) = rest.split_at(5);
    let order = order_of(five[1])?;
    let count = five[4];
    let size = count as usize * 3;
    if after.len() < size {
        return None;
    }
    let (entries, _) = after.split_at(size);
    let front = Front {
        local: local_type(byte),
        reserved: five[0],
        order,
        global: global_of(order, five[2], five[3]),
        count,
    };
    Some((front, entries))
}

/// The definition message without developer fields that begins the piece, where all its bytes stand there: what it says before its
/// fields, and their bytes.
#[inline(always)]
pub(crate) fn definition_bytes(piece: &[u8]) -> Option<(Front, &[u8])>
    ensures begins { IfSome result (λ found. Begins found.0 found.1.now piece.now) }
    ensures found { (f : Fronts) (entries : List ℕ) → Begins f entries piece.now
        → IsSomeAnd result (λ found. length found.1.now ≡ length entries) }
{
    front_bytes(false, piece)
}

/// The fields, three bytes for each.
#[inline(always)]
pub(crate) fn read_fields<A: Allocator>(
    alloc: A,
    count: u8,
    bytes: &[u8],
) -> Result<Entries<FieldDef, A>, AllocError>
    requires { length bytes.now ≡ 3 * count }
    ensures { IfOk result (λ fields. (length fields ≡ count)
        × (flat_map field_bytes fields ≡ bytes.now)) }
{
    let mut fields = Entries::with_capacity(alloc, count as usize)?;
    let mut rest = bytes;
    for _ in 0..count {
        let (entry, after) = rest.split_at(3);
        fields.push(FieldDef {
            number: entry[0],
            size: entry[1],
            code: entry[2],
        })?;
        rest = after;
    }
    Ok(fields)
}

/// The definition with these fields.
#[inline(always)]
pub(crate) fn with_fields<A: Allocator>(front: Front, fields: Entries<FieldDef, A>) -> MessageDef<A>
    ensures { result ≡ definition_of front fields }
{
    MessageDef {
        local: front.local,
        reserved: front.reserved,
        order: front.order,
        global: front.global,
        fields,
        dev: None,
    }
}
