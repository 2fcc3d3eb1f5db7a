//! Definition messages that say again what is defined already.
ghost use Rattle.std.specs.Prelude.{◌≡◌, ◌*◌, true, flat_map, length};
ghost use Rattle.fit_record.specs.Records.{field_bytes};
ghost use Rattle.fit_step.specs.inner.Definitions.{SaysNothingNew};
ghost use Rattle.fit_step.specs.inner.Repeated.{BeginsAs};

use crate::read_definition::Front;
use fit_record::{Env, FieldDef, MessageDef};
use std::alloc::Allocator;

/// Whether a definition says this before its fields.
#[inline(always)]
fn begins_as<A: Allocator>(d: &MessageDef<A>, front: Front) -> bool
    ensures { result ≡ true → BeginsAs d.now front }
{
    if d.fields.len() != front.count as usize {
        return false;
    }
    if d.global != front.global {
        return false;
    }
    if d.reserved != front.reserved {
        return false;
    }
    if d.order != front.order {
        return false;
    }
    if d.local != front.local {
        return false;
    }
    d.dev.is_none()
}

/// Whether these are the bytes of a field.
#[inline(always)]
fn is_field(field: &FieldDef, bytes: &[u8]) -> bool
    requires { length bytes.now ≡ 3 }
    ensures { result ≡ true → field_bytes field.now ≡ bytes.now }
{
    (bytes[0] == field.number) & (bytes[1] == field.size) & (bytes[2] == field.code)
}

/// Whether these are the bytes of four fields.
#[inline(always)]
fn are_four(fields: &[FieldDef], bytes: &[u8]) -> bool
    requires four { length fields.now ≡ 4 }
    requires long { length bytes.now ≡ 12 }
    ensures { result ≡ true → flat_map field_bytes fields.now ≡ bytes.now }
{
    is_field(&fields[0], &bytes[..3])
        & is_field(&fields[1], &bytes[3..6])
        & is_field(&fields[2], &bytes[6..9])
        & is_field(&fields[3], &bytes[9..])
}

/// Whether these are the bytes of eight fields: so many are compared at once.
#[inline(always)]
fn are_eight(fields: &[FieldDef], bytes: &[u8]) -> bool
    requires eight { length fields.now ≡ 8 }
    requires long { length bytes.now ≡ 24 }
    ensures { result ≡ true → flat_map field_bytes fields.now ≡ bytes.now }
{
    let (four, others) = fields.split_at(4);
    let (front, back) = bytes.split_at(12);
    are_four(four, front) & are_four(others, back)
}

/// Whether these are the bytes of the fields, three for each.
#[inline(always)]
fn are_fields(fields: &[FieldDef], bytes: &[u8]) -> bool
    requires { length bytes.now ≡ 3 * length fields.now }
    ensures { result ≡ true → flat_map field_bytes fields.now ≡ bytes.now }
{
    let mut left = fields;
    let mut rest = bytes;
    for _ in 0..fields.len() / 8 {
        let (eight, others) = left.split_at(8);
        let (front, back) = rest.split_at(24);
        if !are_eight(eight, front) {
            return false;
        }
        left = others;
        rest = back;
    }
    are_few(left, rest)
}

/// Whether these fields are those of the bytes, looked at one by one.
#[inline(always)]
fn are_few(fields: &[FieldDef], bytes: &[u8]) -> bool
    requires { length bytes.now ≡ 3 * length fields.now }
    ensures { result ≡ true → flat_map field_bytes fields.now ≡ bytes.now }
{
    let mut rest = bytes;
    for field in fields {
        let (front, back) = rest.split_at(3);
        if !is_field(field, front) {
            return false;
        }
        rest = back;
    }
    true
}

/// Whether a definition message says just what its local message type is defined as already, without developer fields. With it
/// nothing changes.
#[inline(always)]
pub(crate) fn is_known<A: Allocator>(env: &Env<A>, front: Front, entries: &[u8]) -> bool
    requires { length entries.now ≡ 3 * front.count }
    ensures { result ≡ true → SaysNothingNew env.now front entries.now }
{
    let Some(defined) = env.defined(front.local) else {
        return false;
    };
    if !begins_as(&defined.definition, front) {
        return false;
    }
    are_fields(defined.definition.fields.as_slice(), entries)
}
