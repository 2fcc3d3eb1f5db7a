//! A data message, and what it means by the records before it.
ghost use Rattle.fit_profile.specs.inner.Places.{AreFieldPlaces};

use crate::names::{Names, Texts};
use crate::places::first_at;
use crate::plan::Plans;
use crate::told::Told;
use fit_base::Items;
use fit_names::{in_scale, message_name, value_in};
use fit_numbers::Fixed;
use fit_record::{Defined, Env, FieldDef, MessageDef, Values};
use std::alloc::{Allocator, Global};

/// A field of a message: its number, its base type code and its items.
#[derive(Drop)]
pub struct FieldView<'a, A: Allocator = Global> {
    pub number: u8,
    pub code: u8,
    pub items: &'a Items<A>,
}

/// A data message, and what it means by the records before it. It lends the parts of the record, of
/// its definition and of the stream.
#[derive(Drop)]
pub struct Message<'a, A: Allocator = Global> {
    defined: &'a Defined<A>,
    values: &'a Values<A>,
    texts: &'a [Texts<A>],
    told: Told,
    /// Where the fields of the definition stand by their numbers.
    places: &'a [u8; 256],
    ghost placed: { AreFieldPlaces places.now defined.now.definition.fields },
}

impl<'a, A: Allocator> Message<'a, A> {
    ghost use Rattle.std.specs.Prelude.{◌≡◌, ◌≤◌, IfSome, option_map, option_and_then, option_copied, slice_get};
    ghost use Rattle.fit_record.specs.Environment.{first_items};
    ghost use Rattle.fit_names.specs.Names as names;
    ghost use Rattle.fit_profile.specs.Looks.{first_field};
    ghost use Rattle.fit_profile.specs.Meant.{shown, part_of, first_part, field_at, dev_field_at};
    ghost use Rattle.fit_names.specs.Values.{IsAmount, IsValueOf};
    ghost use Rattle.fit_profile.specs.KnownNumber.{known_number};

    /// The global message number.
    pub fn global(&self) -> u16
        ensures { result ≡ (shown self.now).definition.global }
    {
        self.defined.definition.global
    }

    /// The definition of the message.
    pub fn definition(&self) -> &MessageDef<A>
        ensures { result.now ≡ (shown self.now).definition }
    {
        &self.defined.definition
    }

    /// The values of the message, as the record has them.
    pub fn values(&self) -> &Values<A>
        ensures { result.now ≡ (shown self.now).values }
    {
        self.values
    }

    /// The name of the message, where the profile lists it.
    pub fn name(&self) -> Option<&str>
        ensures { option_map (λ n. n.now) result
            ≡ names.message_name (shown self.now).definition.global }
    {
        match message_name(self.defined.definition.global) {
            Some(name) => Some(name),
            None => None,
        }
    }

    /// The field at a place, which counts from 0.
    pub fn field(&self, place: u8) -> Option<FieldView<A>>
        ensures { option_map part_of result ≡ field_at (shown self.now) place }
    {
        let field = self
            .defined
            .definition
            .fields
            .as_slice()
            .get(place as usize)?;
        let items = self.values.fields.as_slice().get(place as usize)?;
        Some(FieldView {
            number: field.number,
            code: field.code,
            items,
        })
    }

    /// The developer field at a place, which counts from 0 among the developer fields.
    pub fn dev(&self, place: u8) -> Option<FieldView<A>>
        ensures { option_map part_of result ≡ dev_field_at (shown self.now) place }
    {
        let fields = self.defined.definition.dev.as_ref()?;
        let field = fields.as_slice().get(place as usize)?;
        let code = *self.defined.dev_codes.as_slice().get(place as usize)?;
        let items = self.values.dev.as_slice().get(place as usize)?;
        Some(FieldView {
            number: field.number,
            code,
            items,
        })
    }

    /// The first field of this number as it is defined, with its items.
    fn first_of(&self, number: u8) -> Option<(&FieldDef, &Items<A>)>
        ensures { option_map (λ f. (f.0.now, f.1.now)) result
            ≡ first_field (shown self.now).definition.fields (shown self.now).values.fields number }
    {
        first_at(
            self.defined.definition.fields.as_slice(),
            self.values.fields.as_slice(),
            self.places,
            number,
        )
    }

    /// The first field of this number.
    pub fn first(&self, number: u8) -> Option<FieldView<A>>
        ensures { option_map part_of result ≡ option_map first_part
            (first_field (shown self.now).definition.fields (shown self.now).values.fields number) }
    {
        let (field, items) = self.first_of(number)?;
        let code = field.code;
        Some(FieldView {
            number: field.number,
            code,
            items,
        })
    }

    /// The items of the first field of this number.
    #[tactic(auto, using(crate::proofs::FirstField::items_first))]
    pub fn items(&self, number: u8) -> Option<&Items<A>>
        ensures { option_copied result ≡ first_items (shown self.now).definition.fields
            (shown self.now).values.fields number }
    {
        let (_, items) = self.first_of(number)?;
        Some(items)
    }

    /// The name of the developer field at a place: the one in its last field description before the definition message, where that
    /// isn't empty and is UTF-8 without control characters.
    pub fn dev_name(&self, place: u8) -> Option<&str>
        ensures { option_map (λ s. s.now) result
            ≡ option_and_then (λ t. t.name) (slice_get (shown self.now).namings place) }
    {
        self.texts.get(place as usize)?.name()
    }

    /// The unit of the developer field at a place, from the same field description and on the same conditions as its name.
    pub fn dev_unit(&self, place: u8) -> Option<&str>
        ensures { option_map (λ s. s.now) result
            ≡ option_and_then (λ t. t.unit) (slice_get (shown self.now).namings place) }
    {
        self.texts.get(place as usize)?.unit()
    }

    /// The number of the first field of this number: its first item, scaled by the profile. None where
    /// the profile doesn't know the field, its class isn't one of numbers, or the item is invalid.
    pub fn value(&self, number: u8) -> Option<Fixed>
        ensures value { IsValueOf
            (known_number (shown self.now).definition (shown self.now).values number) result }
        ensures few { IfSome result (λ v. v.decimals ≤ 8) }
    {
        let (field, items) = self.first_of(number)?;
        value_in(self.defined.definition.global, number, field, items)
    }

    /// The time of the message, in seconds since 1989-12-31T00:00:00 UTC: its valid field 253, and else that of its compressed
    /// timestamp header. `None` where it has neither.
    pub fn time(&self) -> Option<u32>
        ensures { result ≡ (shown self.now).told.time }
    {
        self.told.time
    }

    /// The time of its compressed timestamp header, in the same seconds. `None` where the header is a normal one, or no message
    /// before had a time.
    pub fn header_time(&self) -> Option<u32>
        ensures { result ≡ (shown self.now).told.header_time }
    {
        self.told.header_time
    }

    /// The speed in compressed_speed_distance (field 8 of a record message), in m/s. `None` where that is absent or invalid.
    pub fn speed(&self) -> Option<Fixed>
        ensures amount { IsAmount 100 (shown self.now).told.speed result }
        ensures few { IfSome result (λ v. v.decimals ≤ 8) }
    {
        in_scale(self.told.speed, 100)
    }

    /// The distance accumulated from compressed_speed_distance over the file, in m (FIT SDK, Profile, column "Accumulate"). `None`
    /// where this message has no valid one.
    pub fn distance(&self) -> Option<Fixed>
        ensures amount { IsAmount 16 (shown self.now).told.distance result }
        ensures few { IfSome result (λ v. v.decimals ≤ 8) }
    {
        in_scale(self.told.distance, 16)
    }

    /// The cycles accumulated from cycles (field 18) over the file, a count. `None` where this message has no valid one.
    pub fn total_cycles(&self) -> Option<Fixed>
        ensures amount { IsAmount 1 (shown self.now).told.total_cycles result }
        ensures few { IfSome result (λ v. v.decimals ≤ 8) }
    {
        in_scale(self.told.total_cycles, 1)
    }

    /// The power accumulated from compressed_accumulated_power (field 28) over the file, in watts. `None` where this message has no
    /// valid one.
    pub fn accumulated_power(&self) -> Option<Fixed>
        ensures amount { IsAmount 1 (shown self.now).told.accumulated_power result }
        ensures few { IfSome result (λ v. v.decimals ≤ 8) }
    {
        in_scale(self.told.accumulated_power, 1)
    }
}

impl<'a> Message<'a> {
    ghost use Rattle.std.specs.Prelude.{IsSome};
    ghost use Rattle.fit_record.specs.Environment.{defined_at};
    ghost use Rattle.fit_profile.specs.Meant.{shown};
    ghost use Rattle.fit_profile.specs.inner.Plans.{ArePlanned};
    ghost use Rattle.fit_profile.specs.inner.Shows.{Shows};

    /// The message of values that were just learned.
    pub(crate) fn of(
        env: &'a Env,
        names: &'a Names,
        plans: &'a Plans,
        told: Told,
        values: &'a Values,
    ) -> Message<'a>
        requires defined { IsSome (defined_at env.now values.now.local) }
        requires plans { ArePlanned plans.now.places.items env.now.places }
        ensures { Shows env.now names.now told values.now (shown result) }
    {
        match (env.defined(values.local), plans.at(values.local)) {
            (Some(defined), Some(plan)) => Message {
                defined,
                values,
                texts: names.at(values.local),
                told,
                places: &plan.places,
            },
            _ => unreachable!(),
        }
    }
}
