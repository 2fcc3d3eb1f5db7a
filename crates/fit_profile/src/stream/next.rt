//! What a stream tells of the next record, before it is taken in.
ghost use Rattle.std.specs.Prelude.{◌≡◌, ◌==◌, ◌&&◌, IfSome, Some, option_map, option_and_then, slice_get};
ghost use Rattle.std.specs.List.{list_any};
ghost use Rattle.fit_record.specs.Environment.{defined_at};
ghost use Rattle.fit_record.specs.Records.{Fits};
ghost use Rattle.fit_profile.specs.Accumulated.{is_counter};
ghost use Rattle.fit_profile.specs.Described.{naming_of, namings_at};
ghost use Rattle.fit_profile.specs.Looks.{known};
ghost use Rattle.fit_profile.specs.Times as times;
ghost use Rattle.fit_profile.specs.Told.{told_of};

use super::Stream;
use crate::by_plan::{tell, time_of};
use crate::names::Texts;
use crate::time::header_time;
use crate::told::Told;
use fit_record::{DevDef, Record};

impl Stream {
    /// The time that the next message with this offset has by its compressed header: the least one at
    /// or after the previous timestamp whose low five bits are the offset (FIT protocol, "Compressed
    /// Timestamp Header"). None where no message has had a time yet.
    pub fn header_time(&self, offset: u8) -> Option<u32>
        ensures { result ≡ times.header_time (times.previous_time self.now) (Some offset) }
    {
        header_time(self.last.time, Some(offset))
    }

    /// The time of the next record, in seconds since 1989-12-31T00:00:00 UTC: that of its timestamp, and else that of its header.
    /// `None` for a definition message, and where a data message has neither.
    pub fn time(&self, record_: &Record) -> Option<u32>
        ensures { result ≡ times.time self.now record_.now }
    {
        time_of(&self.env, &self.plans, self.last.time, record_)
    }

    /// Whether messages of the definition of this local message type may tell speed, distance, cycles and power: they are records with
    /// one of the fields from which these come.
    #[inline(always)]
    pub fn may_count(&self, local: u8) -> bool
        ensures { IfSome (defined_at (known self.now) local) (λ p. result
            ≡ (p.definition.global == 20
            && list_any (λ f. is_counter f.number) p.definition.fields)) }
    {
        match self.plans.at(local) {
            Some(plan) => plan.may_count(),
            None => false,
        }
    }

    /// What is told of the next record. A definition message has neither times nor values.
    pub fn told(&self, record_: &Record) -> Option<Told>
        requires { Fits (known self.now) record_.now }
        ensures { result ≡ told_of self.now record_.now }
    {
        tell(&self.env, &self.plans, self.last, record_)
    }

    /// The name and the unit of a developer field of a local message type.
    fn texts_at(&self, local: u8, place: u8) -> Option<&Texts>
        ensures { option_map (λ t. t.now) result ≡ slice_get (namings_at self.now local) place }
    {
        self.names.at_place(local, place)
    }

    /// The name of a developer field of the next message of this local message type: that of the last
    /// field description before the definition. `place` counts from 0 among the developer fields.
    pub fn dev_name(&self, local: u8, place: u8) -> Option<&str>
        ensures { option_map (λ s. s.now) result
            ≡ option_and_then (λ t. t.name) (slice_get (namings_at self.now local) place) }
    {
        self.texts_at(local, place)?.name()
    }

    /// The unit of a developer field of the next message of this local message type.
    pub fn dev_unit(&self, local: u8, place: u8) -> Option<&str>
        ensures { option_map (λ s. s.now) result
            ≡ option_and_then (λ t. t.unit) (slice_get (namings_at self.now local) place) }
    {
        self.texts_at(local, place)?.unit()
    }

    /// The name and the unit of a developer field of a definition that comes now: those of its last field description.
    pub fn described(&self, field: DevDef) -> (Option<&str>, Option<&str>)
        ensures name { option_map (λ s. s.now) result.0
            ≡ (naming_of self.now field.index field.number).name }
        ensures unit { option_map (λ s. s.now) result.1
            ≡ (naming_of self.now field.index field.number).unit }
    {
        self.names.described(field)
    }

    /// The name and the unit of a developer field, as `dev_name` and `dev_unit` give them, by one look.
    pub fn dev_texts(&self, local: u8, place: u8) -> (Option<&str>, Option<&str>)
        ensures name { option_map (λ s. s.now) result.0
            ≡ option_and_then (λ t. t.name) (slice_get (namings_at self.now local) place) }
        ensures unit { option_map (λ s. s.now) result.1
            ≡ option_and_then (λ t. t.unit) (slice_get (namings_at self.now local) place) }
    {
        match self.texts_at(local, place) {
            Some(texts) => (texts.name(), texts.unit()),
            None => (None, None),
        }
    }
}
