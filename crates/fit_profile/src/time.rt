//! The times of messages.
ghost use Rattle.std.specs.Prelude.{◌≡◌, ◌<◌, ◌^◌, option_map};
ghost use Rattle.fit_profile.specs.Least.{least_from};
ghost use Rattle.fit_profile.specs.Times as times;
ghost use Rattle.fit_profile.specs.inner.Places.{AreFieldPlaces};

use crate::least::steps_to;
use crate::look::only_item;
use crate::places::first_at;
use fit_base::Items;
use fit_base::base_type::UINT32;
use fit_names::field_number::TIMESTAMP;
use fit_record::{FieldDef, MessageDef, Values};
use std::alloc::Allocator;

/// A time of a field, where it is valid.
pub(crate) fn valid_time(n: u64) -> Option<u32>
    ensures { result ≡ times.valid_time n }
{
    if n < 0xFFFF_FFFF {
        Some(n as u32)
    } else {
        None
    }
}

/// The time that a field holds.
fn time_in_field<A: Allocator>(field: &FieldDef, items: &Items<A>) -> Option<u32>
    ensures { result ≡ times.time_in_field field.now items.now }
{
    if field.code != UINT32 {
        return None;
    }
    if field.size != 4 {
        return None;
    }
    valid_time(only_item(items.bits.as_slice())?)
}

/// The time in the timestamp of a data message, by the places of the fields.
#[inline(always)]
pub(crate) fn field_time_by<A: Allocator>(
    definition: &MessageDef<A>,
    values: &Values<A>,
    places: &[u8; 256],
) -> Option<u32>
    requires { AreFieldPlaces places.now definition.now.fields }
    ensures { result ≡ times.field_time definition.now values.now }
{
    let (field, items) = first_at(
        definition.fields.as_slice(),
        values.fields.as_slice(),
        places,
        TIMESTAMP,
    )?;
    time_in_field(field, items)
}

/// A time that passed the greatest one begins again.
fn in_32_bits(time: u64) -> u32
    requires { time < 2 ^ 33 }
    ensures { result ≡ times.in_32_bits time }
{
    if time < 0x1_0000_0000 {
        time as u32
    } else {
        (time - 0x1_0000_0000) as u32
    }
}

/// The least time from this one on whose low five bits are the offset.
fn rolled(previous: u32, offset: u8) -> Option<u32>
    ensures { result ≡ option_map times.in_32_bits (least_from previous offset 32) }
{
    let steps = steps_to(u64::from(previous), u64::from(offset), 32)?;
    Some(in_32_bits(u64::from(previous) + steps))
}

/// The time of a compressed header.
pub(crate) fn header_time(previous: Option<u32>, offset: Option<u8>) -> Option<u32>
    ensures { result ≡ times.header_time previous offset }
{
    let offset = offset?;
    let previous = previous?;
    rolled(previous, offset)
}
