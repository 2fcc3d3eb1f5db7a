//! The counters of record messages in the bytes of their fields: where they stand, and the numbers there.
ghost use Rattle.std.specs.Prelude.{◌≡◌, ◌==◌, ◌&&◌, ◌||◌, ◌≤◌, ◌<◌, ◌+◌, ◌*◌, ◌/◌, ℕ, List, IfSome, length, not, slice_index_or};
ghost use Rattle.std.specs.List.{list_any};
ghost use Rattle.fit_base.specs.BaseTypes.{item_width};
ghost use Rattle.fit_base.specs.declared.number.Order.{Order};
ghost use Rattle.fit_record.specs.Records.{sizes};
ghost use Rattle.fit_profile.specs.Accumulated as sums;
ghost use Rattle.fit_profile.specs.Accumulated.{is_counter};
ghost use Rattle.fit_profile.specs.inner.Counters.{ArePlacesOf, IsPlaceOf, counting, number_at, number_of_fields};
ghost use Rattle.fit_profile.specs.inner.InBytes.{shapes};
ghost use Rattle.fit_profile.specs.inner.Places.{AreFieldPlaces};

use crate::component::Component;
use crate::told::{ACCUMULATED_POWER, DISTANCE, TOTAL_CYCLES};
use fit_base::{Code, Order, bits_at, width_of};
use fit_names::message_number::RECORD;
use fit_record::{FieldDef, MessageDef};

/// Where the number of each counter begins in the bytes of the fields. None where no message of the definition has that number.
#[derive(Clone, Copy)]
pub(crate) struct CounterPlaces {
    pub distance: Option<u16>,
    pub cycles: Option<u16>,
    pub power: Option<u16>,
}

/// Whether the items of a field are as many and as wide as those of a component.
fn has_items(c: Component, field: &FieldDef) -> bool
    requires { 0 < c.width }
    ensures { result ≡ (item_width field.now.code field.now.size == c.width
        && field.now.size / c.width == c.items) }
{
    width_of(Code(field.code), field.size) == c.width && (field.size / c.width) as usize == c.items
}

/// Where the number of a component begins in the bytes of fields that have these places.
fn place_in(c: Component, fields: &[FieldDef], places: &[u8; 256]) -> Option<u16>
    requires field { c.field < 256 }
    requires width { 0 < c.width }
    requires few { length fields.now < 256 }
    requires places { AreFieldPlaces places.now fields.now }
    ensures within { IfSome result (λ p. p + c.items * c.width ≤ sizes (shapes fields.now)) }
    ensures number { (order : Order) (bytes : List ℕ)
        → number_of_fields c order fields.now bytes ≡ number_at c order result bytes }
{
    if places[c.field as usize] == 0 {
        return None;
    }
    let mut place = 0;
    for field in fields {
        if field.number == c.field {
            if !has_items(c, field) {
                return None;
            }
            return Some(place);
        }
        place += u16::from(field.size);
    }
    None
}

/// Where the number of a component begins in the messages of a definition whose fields have these places: only record messages have
/// counters.
fn place_of(c: Component, definition: &MessageDef, places: &[u8; 256]) -> Option<u16>
    requires field { c.field < 256 }
    requires width { 0 < c.width }
    requires few { length definition.now.fields < 256 }
    requires places { AreFieldPlaces places.now definition.now.fields }
    ensures { IsPlaceOf c result definition.now }
{
    if definition.global != RECORD {
        return None;
    }
    place_in(c, definition.fields.as_slice(), places)
}

/// A number that counts.
#[inline(always)]
fn counting(c: Component, number: u64) -> Option<u64>
    ensures { result ≡ counting c number }
{
    if number < c.skipped {
        Some(number)
    } else {
        None
    }
}

/// Whether one of the fields that have these places has the number of a counter's field.
#[inline(always)]
fn have_counter_by(places: &[u8; 256]) -> bool
    ensures { result ≡ (not (slice_index_or places.now 8 0 == 0)
        || not (slice_index_or places.now 18 0 == 0) || not (slice_index_or places.now 28 0 == 0)) }
{
    places[8] != 0 || places[18] != 0 || places[28] != 0
}

/// Whether messages of this definition may have counters, by the places of its fields. Most have none.
#[inline(always)]
pub(crate) fn may_count_by(definition: &MessageDef, places: &[u8; 256]) -> bool
    requires { AreFieldPlaces places.now definition.now.fields }
    ensures { result ≡ (definition.now.global == 20
        && list_any (λ f. is_counter f.number) definition.now.fields) }
{
    definition.global == RECORD && have_counter_by(places)
}

impl CounterPlaces {
    /// Those of a definition whose fields have these places, and whose messages may have counters, or have none.
    pub fn of(definition: &MessageDef, places: &[u8; 256], may_count: bool) -> CounterPlaces
        requires few { length definition.now.fields < 256 }
        requires places { AreFieldPlaces places.now definition.now.fields }
        requires counts { may_count ≡ (definition.now.global == 20
            && list_any (λ f. is_counter f.number) definition.now.fields) }
        ensures { ArePlacesOf result definition.now }
    {
        if !may_count {
            return CounterPlaces {
                distance: None,
                cycles: None,
                power: None,
            };
        }
        CounterPlaces {
            distance: place_of(DISTANCE, definition, places),
            cycles: place_of(TOTAL_CYCLES, definition, places),
            power: place_of(ACCUMULATED_POWER, definition, places),
        }
    }

    /// The number of speed and distance in the bytes of the fields: three bytes, the lowest first.
    #[inline(always)]
    pub fn distance_in(&self, bytes: &[u8]) -> Option<u64>
        requires { IfSome self.now.distance (λ p. p + 3 ≤ length bytes.now) }
        ensures { (order : Order)
            → result ≡ number_at sums.distance order self.now.distance bytes.now }
    {
        let place = self.distance? as usize;
        let low = u64::from(bytes[place]);
        let middle = u64::from(bytes[place + 1]);
        let high = u64::from(bytes[place + 2]);
        counting(DISTANCE, low + 256 * (middle + 256 * high))
    }

    /// The number of cycles in the bytes of the fields: one byte.
    #[inline(always)]
    pub fn cycles_in(&self, bytes: &[u8]) -> Option<u64>
        requires { IfSome self.now.cycles (λ p. p + 1 ≤ length bytes.now) }
        ensures { (order : Order)
            → result ≡ number_at sums.total_cycles order self.now.cycles bytes.now }
    {
        let place = self.cycles? as usize;
        counting(TOTAL_CYCLES, u64::from(bytes[place]))
    }

    /// The number of power in the bytes of the fields: two bytes in their order.
    #[inline(always)]
    pub fn power_in(&self, order: Order, bytes: &[u8]) -> Option<u64>
        requires { IfSome self.now.power (λ p. p + 2 ≤ length bytes.now) }
        ensures { result ≡ number_at sums.accumulated_power order self.now.power bytes.now }
    {
        let place = self.power? as usize;
        let (_, after) = bytes.split_at(place);
        let (number, _) = after.split_at(2);
        counting(ACCUMULATED_POWER, bits_at(order, 2, number))
    }
}
