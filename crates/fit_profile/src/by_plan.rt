//! What is told of records, by the plans of their definitions.
ghost use Rattle.std.specs.Prelude.{◌≡◌, IfSome, None, Some, false, true, option_map};
ghost use Rattle.std.specs.Global.{Global};
ghost use Rattle.fit_record.specs.Environment.{DescribesNothing, Environment, defined_at, definition_at, described_by};
ghost use Rattle.fit_record.specs.declared.message.Record.TheVariants.{Values as Data};
ghost use Rattle.fit_record.specs.Faults.{or_else};
ghost use Rattle.fit_profile.specs.Times as times;
ghost use Rattle.fit_profile.specs.Told as telling;
ghost use Rattle.fit_profile.specs.inner.Alone.{times_alone};
ghost use Rattle.fit_profile.specs.inner.Places.{AreFieldPlaces};
ghost use Rattle.fit_profile.specs.inner.Plans.{ArePlanned, IsPlan};

use crate::component::number_by;
use crate::plan::{Plan, Plans};
use crate::time::{field_time_by, header_time};
use crate::told::{ACCUMULATED_POWER, DISTANCE, Last, TOTAL_CYCLES, Told, counted, uncounted};
use fit_record::{Env, MessageDef, Record, Values};

/// The time of a message by the last time before it and the places of its fields.
#[inline(always)]
fn time_by(
    previous: Option<u32>,
    places: &[u8; 256],
    definition: &MessageDef,
    values: &Values,
) -> Option<u32>
    requires { AreFieldPlaces places.now definition.now.fields }
    ensures { result ≡ or_else (times.field_time definition.now values.now)
        (times.header_time previous values.now.offset) }
{
    match field_time_by(definition, values, places) {
        Some(time) => Some(time),
        None => header_time(previous, values.offset),
    }
}

/// What is told of a message with counters.
fn counted_by(last: Last, places: &[u8; 256], definition: &MessageDef, values: &Values) -> Told
    requires { AreFieldPlaces places.now definition.now.fields }
    ensures { result ≡ telling.told_at last definition.now values.now }
{
    let time = time_by(last.time, places, definition, values);
    let header_time = header_time(last.time, values.offset);
    let distance = number_by(DISTANCE, definition, values, places);
    let cycles = number_by(TOTAL_CYCLES, definition, values, places);
    let power = number_by(ACCUMULATED_POWER, definition, values, places);
    counted(last, time, header_time, distance, cycles, power)
}

/// The times of a message of which no more is told, by the last ones before it: its own, and that of its header.
#[inline(always)]
fn times_by(
    last: Last,
    plan: &Plan,
    definition: &MessageDef,
    values: &Values,
) -> (Option<u32>, Option<u32>)
    requires plan { IsPlan plan.now definition.now }
    requires alone { plan.now.tells_more ≡ false }
    ensures { times_alone result.0 result.1 ≡ telling.told_at last definition.now values.now }
{
    let time = time_by(last.time, &plan.places, definition, values);
    (time, header_time(last.time, values.offset))
}

/// The times of a data message of which no more is told, by the last ones before it: its own, and that of its header. None where
/// there may be more to tell.
#[inline(always)]
fn times_of_values(
    env: &Env,
    plans: &Plans,
    last: Last,
    values: &Values,
) -> Option<(Option<u32>, Option<u32>)>
    requires { ArePlanned plans.now.places.items env.now.places }
    ensures told { IfSome result (λ t.
        Some (times_alone t.0 t.1) ≡ telling.tell env.now last (Data values.now)) }
    ensures nothing { IfSome result (λ _. described_by env.now values.now ≡ None) }
{
    let (definition, plan) = planned(env, plans, values.local)?;
    if plan.tells_more {
        return None;
    }
    Some(times_by(last, plan, definition, values))
}

/// The times of a record of which no more is told, by the last ones before it: its own, and that of its header. None of a definition,
/// and where there may be more to tell.
#[inline(always)]
pub(crate) fn tell_times(
    env: &Env,
    plans: &Plans,
    last: Last,
    record_: &Record,
) -> Option<(Option<u32>, Option<u32>)>
    requires { ArePlanned plans.now.places.items env.now.places }
    ensures told { IfSome result (λ t.
        Some (times_alone t.0 t.1) ≡ telling.tell env.now last record_.now) }
    ensures nothing { IfSome result (λ _. DescribesNothing env.now record_.now) }
{
    match record_ {
        Record::Define(_) => None,
        Record::Values(values) => times_of_values(env, plans, last, values),
    }
}

/// What is told of a message by the last ones before it and the plan of its definition.
#[inline(always)]
fn told_by(last: Last, plan: &Plan, definition: &MessageDef, values: &Values) -> Told
    requires { IsPlan plan.now definition.now }
    ensures { result ≡ telling.told_at last definition.now values.now }
{
    if plan.tells_more {
        return counted_by(last, &plan.places, definition, values);
    }
    let (time, header_time) = times_by(last, plan, definition, values);
    uncounted(time, header_time)
}

/// The definition of a local message type, and its plan.
#[inline(always)]
fn planned<'a>(env: &'a Env, plans: &'a Plans, local: u8) -> Option<(&'a MessageDef, &'a Plan)>
    requires { ArePlanned plans.now.places.items env.now.places }
    ensures definition { option_map (λ p. p.0.now) result ≡ definition_at env.now local }
    ensures plan { IfSome result (λ p. IsPlan p.1.now p.0.now) }
{
    let plan = plans.at(local)?;
    let definition = env.definition(local)?;
    Some((definition, plan))
}

/// What is told of a data message by the last ones before it.
#[inline(always)]
fn tell_values(env: &Env, plans: &Plans, last: Last, values: &Values) -> Option<Told>
    requires { ArePlanned plans.now.places.items env.now.places }
    ensures { result ≡ option_map (λ p. telling.told_at last p.definition values.now)
        (defined_at env.now values.now.local) }
{
    match planned(env, plans, values.local) {
        Some((definition, plan)) => Some(told_by(last, plan, definition, values)),
        None => None,
    }
}

/// What is told of a record by the last ones before it.
#[inline(always)]
pub(crate) fn tell(env: &Env, plans: &Plans, last: Last, record_: &Record) -> Option<Told>
    requires { ArePlanned plans.now.places.items env.now.places }
    ensures { result ≡ telling.tell env.now last record_.now }
{
    match record_ {
        Record::Define(_) => None,
        Record::Values(values) => tell_values(env, plans, last, values),
    }
}

/// Whether a record is a data message that describes no developer field: it changes neither what is known nor the names.
#[inline(always)]
pub(crate) fn is_plain(plans: &Plans, record_: &Record) -> bool
    ensures { (e : Environment Global) → ArePlanned plans.now.places.items e.places
        → result ≡ true → DescribesNothing e record_.now }
{
    match record_ {
        Record::Define(_) => false,
        Record::Values(values) => match plans.at(values.local) {
            Some(plan) => !plan.describes,
            None => false,
        },
    }
}

/// The time of a data message by the last time before it.
fn time_of_values(env: &Env, plans: &Plans, previous: Option<u32>, values: &Values) -> Option<u32>
    requires { ArePlanned plans.now.places.items env.now.places }
    ensures { result ≡ or_else (times.own_time env.now values.now)
        (times.header_time previous values.now.offset) }
{
    match planned(env, plans, values.local) {
        Some((definition, plan)) => time_by(previous, &plan.places, definition, values),
        None => header_time(previous, values.offset),
    }
}

/// The time of a record by the last time before it.
pub(crate) fn time_of(
    env: &Env,
    plans: &Plans,
    previous: Option<u32>,
    record_: &Record,
) -> Option<u32>
    requires { ArePlanned plans.now.places.items env.now.places }
    ensures { result ≡ times.time_of env.now previous record_.now }
{
    match record_ {
        Record::Define(_) => None,
        Record::Values(values) => time_of_values(env, plans, previous, values),
    }
}
