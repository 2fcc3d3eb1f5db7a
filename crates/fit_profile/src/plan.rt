//! What is found out once of a definition, so that a stream takes in its data messages quickly, as records or by their bytes.
ghost use Rattle.std.specs.Prelude.{◌≡◌, ◌==◌, ◌&&◌, ◌≤◌, ◌<◌, ◌+◌, ℕ, List, Option, IfSome, IsOk, OnOk, length, max, None, false, option_copied, slice_index_or, slice_set, Some, not, true, vec_capacity};
ghost use Rattle.std.specs.List.{list_any};
ghost use Rattle.fit_base.specs.BaseTypes.{base_type};
ghost use Rattle.fit_base.specs.declared.number.Order.{Order};
ghost use Rattle.fit_record.specs.Environment.{DescribesNothing, Environment, learn};
ghost use Rattle.fit_record.specs.Records.{Fits, sizes};
ghost use Rattle.fit_record.specs.declared.environment.Defined.{Defined};
ghost use Rattle.fit_profile.specs.Accumulated.{is_counter, tells_more};
ghost use Rattle.fit_profile.specs.Taken.{has_lone_fields};
ghost use Rattle.fit_profile.specs.inner.InBytes.{shapes};
ghost use Rattle.fit_profile.specs.inner.Places.{AreFieldPlaces};
ghost use Rattle.fit_profile.specs.inner.Plans as plans;
ghost use Rattle.fit_profile.specs.inner.Plans.{ArePlanned, HasRoomFor, IsPlan, IsSilent};
ghost use Rattle.std.specs.Global.{Global};

use crate::counter_places::{CounterPlaces, may_count_by};
use crate::places::places_of;
use crate::time::valid_time;
use fit_base::base_type::UINT32;
use fit_base::{Code, Order, bits_at};
use fit_names::field_number::TIMESTAMP;
use fit_names::message_number::RECORD;
use fit_record::{Defined, FIELD_DESCRIPTION, FieldDef, MessageDef, Record};
use std::alloc::{AllocError, Global};

/// How the data messages of a definition are taken in.
#[derive(Clone, Copy)]
pub(crate) struct Plan {
    /// They are field descriptions, or may have counters: most do not.
    pub tells_more: bool,
    /// They are field descriptions.
    pub describes: bool,
    /// They tell nothing where their header has no time offset.
    pub is_silent: bool,
    /// Each of their fields is one number. None where nothing has asked for it.
    pub has_lone_fields: Option<bool>,
    /// Where the four bytes of their timestamp begin in those of their fields.
    pub time_place: Option<u16>,
    /// Where their counters do.
    pub counters: CounterPlaces,
    /// One more than the place of the first field of each number, and 0 where there is none.
    pub places: [u8; 256],
}

/// Where the bytes of the timestamp begin in those of fields that have these places.
fn time_place(fields: &[FieldDef], places: &[u8; 256]) -> Option<u16>
    requires few { length fields.now < 256 }
    requires places { AreFieldPlaces places.now fields.now }
    ensures within { IfSome result (λ p. p + 4 ≤ sizes (shapes fields.now)) }
    ensures time { (order : Order) (bytes : List ℕ)
        → plans.time_of_fields order fields.now bytes ≡ plans.time_at order result bytes }
{
    if places[TIMESTAMP as usize] == 0 {
        return None;
    }
    let mut place = 0;
    for field in fields {
        if field.number == TIMESTAMP {
            if field.code != UINT32 || field.size != 4 {
                return None;
            }
            return Some(place);
        }
        place += u16::from(field.size);
    }
    None
}

/// Whether messages of this definition, which may have counters or not, tell more than times.
fn tells_more(definition: &MessageDef, may_count: bool) -> bool
    requires { may_count ≡ (definition.now.global == 20
        && list_any (λ f. is_counter f.number) definition.now.fields) }
    ensures { result ≡ tells_more definition.now }
{
    definition.global == FIELD_DESCRIPTION || may_count
}

/// Whether messages of this definition tell nothing where their header has no time offset. Record messages never count as such.
fn is_silent(definition: &MessageDef, places: &[u8; 256]) -> bool
    requires { AreFieldPlaces places.now definition.now.fields }
    ensures { result ≡ true → IsSilent definition.now }
{
    if definition.global == RECORD {
        return false;
    }
    if definition.global == FIELD_DESCRIPTION {
        return false;
    }
    places[TIMESTAMP as usize] == 0
}

/// Whether a field is one number, which is as long as its base type is wide.
fn is_lone(field: &FieldDef) -> bool
    ensures { result ≡ ((base_type field.now.code).width == field.now.size) }
{
    Code(field.code).width() == field.size
}

/// Whether each field of a definition is.
pub(crate) fn has_lone_fields(definition: &MessageDef) -> bool
    ensures { result ≡ has_lone_fields definition.now }
{
    let fields = definition.fields.as_slice();
    fields.iter().all(|field| is_lone(field))
}

impl Plan {
    /// That of a definition.
    fn of(definition: &MessageDef) -> Plan
        requires { length definition.now.fields < 256 }
        ensures { IsPlan result definition.now }
    {
        let fields = definition.fields.as_slice();
        let places = places_of(fields);
        let may_count = may_count_by(definition, &places);
        Plan {
            tells_more: tells_more(definition, may_count),
            describes: definition.global == FIELD_DESCRIPTION,
            is_silent: is_silent(definition, &places),
            has_lone_fields: None,
            time_place: time_place(fields, &places),
            counters: CounterPlaces::of(definition, &places, may_count),
            places,
        }
    }

    /// Whether messages may have counters.
    #[inline(always)]
    pub fn may_count(&self) -> bool
        ensures { result ≡ (self.now.tells_more && not self.now.describes) }
    {
        self.tells_more && !self.describes
    }

    /// The time in the bytes of the fields.
    pub fn time(&self, order: Order, bytes: &[u8]) -> Option<u32>
        requires { IfSome self.now.time_place (λ p. p + 4 ≤ length bytes.now) }
        ensures { result ≡ plans.time_at order self.now.time_place bytes.now }
    {
        let place = self.time_place? as usize;
        let (_, after) = bytes.split_at(place);
        let (number, _) = after.split_at(4);
        valid_time(bits_at(order, 4, number))
    }
}

/// Makes places for sixteen plans, where there are none.
fn fill(places: &mut Vec<Option<Plan>>) -> Result<(), AllocError>
    ensures same { (local : ℕ) → slice_index_or places.new.items local None
        ≡ slice_index_or places.old.items local None }
    ensures room { OnOk result (16 ≤ length places.new.items) }
    ensures memory { vec_capacity places.new ≤ max 16 (vec_capacity places.old) }
{
    let count = places.len();
    if count >= 16 {
        return Ok(());
    }
    places.reserve_exact(16 - count)?;
    while places.len() < 16 {
        places.push_reserved(None);
    }
    Ok(())
}

/// Those of the definitions of the sixteen local message types.
#[derive(Drop)]
pub(crate) struct Plans {
    /// Sixteen from the first definition on, and before it none.
    pub places: Vec<Option<Plan>>,
}

impl Plans {
    /// Nothing is defined, and no memory is taken.
    pub fn new(alloc: Global) -> Plans
        ensures none { (local : ℕ) → slice_index_or result.places.items local None ≡ None }
        ensures memory { vec_capacity result.places ≡ 0 }
    {
        Plans {
            places: Vec::new(alloc),
        }
    }

    /// Nothing is defined any more. A plan is large, so only those that are there are let go.
    pub fn clear(&mut self)
        ensures { (local : ℕ) → slice_index_or self.new.places.items local None ≡ None }
    {
        for local in 0..self.places.len() {
            if self.places[local].is_some() {
                self.places[local] = None;
            }
        }
    }

    /// That of a local message type.
    #[inline(always)]
    pub fn at(&self, local: u8) -> Option<&Plan>
        ensures { option_copied result ≡ slice_index_or self.now.places.items local None }
    {
        let place = self.places.as_slice().get(local as usize)?;
        place.as_ref()
    }

    /// Puts a plan in its place.
    fn put(&mut self, local: u8, plan: Plan)
        requires { local < length self.old.places.items }
        ensures { self.new.places.items ≡ slice_set self.old.places.items local (Some plan) }
    {
        self.places[local as usize] = Some(plan);
    }

    /// Finds out whether each field of the definition of a local message type is one number, and keeps it in the plan.
    #[cold]
    #[inline(never)]
    pub fn find_lone(&mut self, local: u8, defined: &Defined) -> bool
        ensures lone { result ≡ has_lone_fields defined.now.definition }
        ensures plans { (places : List (Option (Defined Global)))
            → slice_index_or places local None ≡ Some defined.now
            → ArePlanned self.old.places.items places → ArePlanned self.new.places.items places }
    {
        let lone = has_lone_fields(&defined.definition);
        let Some(plan) = self.at(local) else {
            return lone;
        };
        let mut plan = *plan;
        plan.has_lone_fields = Some(lone);
        self.put(local, plan);
        lone
    }

    /// Takes memory for a record that will be taken in. No plan changes, and a data message takes none.
    pub fn make_room(&mut self, record_: &Record) -> Result<(), AllocError>
        ensures same { (local : ℕ) → slice_index_or self.new.places.items local None
            ≡ slice_index_or self.old.places.items local None }
        ensures room { OnOk result (HasRoomFor self.new.places.items record_.now) }
        ensures memory { vec_capacity self.new.places ≤ max 16 (vec_capacity self.old.places) }
        ensures free { (e : Environment Global) → DescribesNothing e record_.now → IsOk result }
    {
        match record_ {
            Record::Define(_) => fill(&mut self.places),
            Record::Values(_) => Ok(()),
        }
    }

    /// Takes a record in, where it may change what is defined.
    pub fn take(&mut self, record_: &Record, changes: bool)
        requires fits { (e : Environment Global) × Fits e record_.now }
        requires room { HasRoomFor self.old.places.items record_.now }
        ensures { (e : Environment Global) → length e.places ≡ 16
            → ArePlanned self.old.places.items e.places
            → (changes ≡ false → learn e record_.now ≡ e)
            → ArePlanned self.new.places.items (learn e record_.now).places }
    {
        if !changes {
            return;
        }
        match record_ {
            Record::Define(definition) => self.put(definition.local, Plan::of(definition)),
            Record::Values(_) => {}
        }
    }
}
