//! Data messages that a stream takes in by their bytes.
ghost use Rattle.std.specs.Prelude.{◌≡◌, ◌++◌, ◌∷◌, [], Bool, List, Option, length, true, false, IfOk, IfSome, IsSome, None, Some, slice_index_or};
ghost use Rattle.std.specs.declared.alloc.Global.{Global};
ghost use Rattle.fit_record.specs.Environment.{defined_at, described_by, description};
ghost use Rattle.fit_record.specs.Faults.{or_else};
ghost use Rattle.fit_record.specs.MessageBytes.{message_in};
ghost use Rattle.fit_record.specs.Records.{message_size, IsRecord};
ghost use Rattle.fit_record.specs.Sound.{IsSound};
ghost use Rattle.fit_record.specs.declared.environment.Defined.{Defined};
ghost use Rattle.fit_record.specs.declared.message.Record.TheVariants.{Values as Data};
ghost use Rattle.fit_record.specs.declared.message.Values.{Values};
ghost use Rattle.fit_profile.specs.Taken.{IsTaken, has_lone_fields};
ghost use Rattle.fit_profile.specs.Times as times;
ghost use Rattle.fit_profile.specs.Told as telling;
ghost use Rattle.fit_profile.specs.inner.Plans.{ArePlanned, IsPlan, IsPlanned};

use crate::plan::{Plan, Plans, has_lone_fields};
use crate::time::header_time;
use crate::told::{
    DISTANCE, Last, Told, accumulated, counted, last_after, note_time, speed, uncounted,
};
use fit_history::History;
use fit_record::{Env, MessageBytes, Record};

/// What a stream says of a data message that it takes in by its bytes.
#[derive(Clone, Copy)]
pub struct Taken {
    /// The local message type.
    pub local: u8,
    /// The time offset of a compressed timestamp header, in seconds, below 32.
    pub offset: Option<u8>,
    /// Whether messages of its definition may tell speed, distance, cycles and power, as those of `Stream::may_count`.
    pub may_count: bool,
    /// Whether each of its fields, but for developer fields, is one number, which is as long as its base type is wide.
    pub has_lone_fields: bool,
    /// Its times, and the values accumulated over the file.
    pub told: Told,
}

/// What an opened data message tells of those after it.
#[derive(Clone, Copy)]
pub struct Tells {
    /// Its time, in seconds since 1989-12-31T00:00:00 UTC.
    pub time: Option<u32>,
    /// Whether it may tell more: messages of its definition are field descriptions, or have counters.
    pub more: bool,
}

/// The time of a message by the last ones before it.
#[inline(always)]
pub(crate) fn time_of_message(last: &Last, plan: &Plan, message: &MessageBytes<'_>) -> Option<u32>
    requires plan { IsPlan plan.now message.now.defined.now.definition }
    requires size { length message.now.body.now ≡ message_size message.now.defined.now }
    ensures { result ≡ or_else (times.field_time message.now.defined.now.definition
        (message_in message.now)) (times.header_time last.now.time message.now.offset) }
{
    match plan.time(message.defined.definition.order, message.body) {
        Some(time) => Some(time),
        None => header_time(last.time, message.offset),
    }
}

/// What is told of a message with counters by the last ones before it.
#[inline(always)]
fn counted_of_message(last: Last, plan: &Plan, message: &MessageBytes<'_>) -> Told
    requires plan { IsPlan plan.now message.now.defined.now.definition }
    requires size { length message.now.body.now ≡ message_size message.now.defined.now }
    ensures { result ≡ telling.told_at last message.now.defined.now.definition
        (message_in message.now) }
{
    let time = time_of_message(&last, plan, message);
    let header_time = header_time(last.time, message.offset);
    let distance = plan.counters.distance_in(message.body);
    let cycles = plan.counters.cycles_in(message.body);
    let power = plan
        .counters
        .power_in(message.defined.definition.order, message.body);
    counted(last, time, header_time, distance, cycles, power)
}

/// The plan of the definition of a message.
#[inline(always)]
pub(crate) fn plan_of<'a>(plans: &'a Plans, message: &MessageBytes<'_>) -> &'a Plan
    requires { IsPlanned (slice_index_or plans.now.places.items message.now.local None)
        (Some message.now.defined.now) }
    ensures { IsPlan result.now message.now.defined.now.definition }
{
    match plans.at(message.local) {
        Some(plan) => plan,
        None => unreachable!(),
    }
}

/// What a stream says of the data message that the bytes are, by the last ones before it.
pub(crate) fn said_in(env: &Env, plans: &Plans, last: Last, bytes: &[u8]) -> Taken
    requires plans { ArePlanned plans.now.places.items env.now.places }
    requires message { (v : Values Global) × IsRecord env.now (Data v) bytes.now }
    ensures { (v : Values Global) (p : Defined Global) → IsRecord env.now (Data v) bytes.now
        → defined_at env.now v.local ≡ Some p
        → IsTaken (telling.told_at last p.definition v) v p.definition result }
{
    let message = env.open(bytes);
    let plan = plan_of(plans, &message);
    let mut last = last;
    let mut taken = say_next(&mut last, plan, &message);
    let lone = has_lone_fields(&message.defined.definition);
    taken.has_lone_fields = lone;
    taken
}

/// The speed and the accumulated distance of a message by the last ones before it.
pub(crate) fn speed_and_distance(
    plans: &Plans,
    last: Last,
    message: &MessageBytes<'_>,
) -> (Option<u64>, Option<u64>)
    requires plan { IsPlanned (slice_index_or plans.now.places.items message.now.local None)
        (Some message.now.defined.now) }
    requires size { length message.now.body.now ≡ message_size message.now.defined.now }
    ensures speed { result.0 ≡ (telling.told_at last message.now.defined.now.definition
        (message_in message.now)).speed }
    ensures distance { result.1 ≡ (telling.told_at last message.now.defined.now.definition
        (message_in message.now)).distance }
{
    let number = plan_of(plans, message).counters.distance_in(message.body);
    (speed(number), accumulated(DISTANCE, last.distance, number))
}

/// Puts the data message that the bytes are in a history of records.
pub(crate) fn add_bytes(env: &Env, records: &mut History<Record>, bytes: &[u8])
    requires { (v : Values Global) × IsRecord env.now (Data v) bytes.now }
    ensures { (v : Values Global) → IsRecord env.now (Data v) bytes.now
        → records.new.items ≡ records.old.items ++ Data v ∷ [] }
{
    records.add_from(&(env, bytes));
}

/// Changes the last ones to those after a message, and says what is told of it. Most have no counters.
#[inline(always)]
fn tell_next(last: &mut Last, plan: &Plan, message: &MessageBytes<'_>) -> Told
    requires plan { IsPlan plan.now message.now.defined.now.definition }
    requires size { length message.now.body.now ≡ message_size message.now.defined.now }
    ensures told { result ≡ telling.told_at last.old message.now.defined.now.definition
        (message_in message.now) }
    ensures last { last.new ≡ telling.last_after last.old (Some
        (telling.told_at last.old message.now.defined.now.definition (message_in message.now))) }
{
    if plan.tells_more {
        let told = counted_of_message(*last, plan, message);
        *last = last_after(*last, Some(told));
        return told;
    }
    let time = time_of_message(last, plan, message);
    let header_time = header_time(last.time, message.offset);
    note_time(last, time);
    uncounted(time, header_time)
}

/// Changes the last ones to those after a message, and returns what a stream says of it but for `has_lone_fields`, which is false.
#[inline(always)]
fn say_next(last: &mut Last, plan: &Plan, message: &MessageBytes<'_>) -> Taken
    requires plan { IsPlan plan.now message.now.defined.now.definition }
    requires size { length message.now.body.now ≡ message_size message.now.defined.now }
    ensures said { (lone : Bool) → lone ≡ has_lone_fields message.now.defined.now.definition
        → IsTaken
        (telling.told_at last.old message.now.defined.now.definition (message_in message.now))
        (message_in message.now) message.now.defined.now.definition
        (record result { has_lone_fields = lone }) }
    ensures last { last.new ≡ telling.last_after last.old (Some
        (telling.told_at last.old message.now.defined.now.definition (message_in message.now))) }
{
    let told = tell_next(last, plan, message);
    Taken {
        local: message.local,
        offset: message.offset,
        may_count: plan.may_count(),
        has_lone_fields: false,
        told,
    }
}

/// Whether each field of a message is one number, which is known or found out now. False where nothing asks for it.
#[inline(always)]
fn lone_fields(
    asks: bool,
    known: Option<bool>,
    plans: &mut Plans,
    message: &MessageBytes<'_>,
) -> bool
    requires { IfSome known (λ lone. lone
        ≡ has_lone_fields message.now.defined.now.definition) }
    ensures lone { asks ≡ true
        → result ≡ has_lone_fields message.now.defined.now.definition }
    ensures plans { (places : List (Option (Defined Global)))
        → slice_index_or places message.now.local None ≡ Some message.now.defined.now
        → ArePlanned plans.old.places.items places → ArePlanned plans.new.places.items places }
{
    if !asks {
        return false;
    }
    match known {
        Some(lone) => lone,
        None => plans.find_lone(message.local, message.defined),
    }
}

/// Whether a message describes a developer field. Most are told by their plan that they don't.
#[inline(always)]
fn describes(plan: &Plan, message: &MessageBytes<'_>) -> bool
    requires plan { IsPlan plan.now message.now.defined.now.definition }
    requires size { length message.now.body.now ≡ message_size message.now.defined.now }
    ensures some { result ≡ true
        → description message.now.defined.now.definition (message_in message.now) ≡ None → ⊥ }
    ensures none { result ≡ false
        → description message.now.defined.now.definition (message_in message.now) ≡ None }
{
    plan.describes && message.description().is_some()
}

/// Takes in the data message that the bytes are, and says what is told of it, where it describes no developer field. None where it does:
/// then it is left. Whether each field is one number is said where the caller asks for it.
#[inline(always)]
pub(crate) fn take_telling(
    env: &Env,
    plans: &mut Plans,
    last: &mut Last,
    records: &mut History<Record>,
    asks: bool,
    bytes: &[u8],
) -> Option<Taken>
    requires plans { ArePlanned plans.old.places.items env.now.places }
    requires message { (v : Values Global) × IsRecord env.now (Data v) bytes.now }
    ensures said { asks ≡ true → IfSome result (λ t. (v : Values Global) (p : Defined Global)
        → IsRecord env.now (Data v) bytes.now → defined_at env.now v.local ≡ Some p
        → IsTaken (telling.told_at last.old p.definition v) v p.definition t) }
    ensures plans { ArePlanned plans.new.places.items env.now.places }
    ensures last { IsSome result → (v : Values Global) → IsRecord env.now (Data v) bytes.now
        → last.new ≡ telling.last_after last.old (telling.tell env.now last.old (Data v)) }
    ensures records { IsSome result → (v : Values Global) → IsRecord env.now (Data v) bytes.now
        → records.new.items ≡ records.old.items ++ Data v ∷ [] }
    ensures nothing { IsSome result → (v : Values Global) → IsRecord env.now (Data v) bytes.now
        → described_by env.now v ≡ None }
    ensures last_kept { result ≡ None → last.new ≡ last.old }
    ensures records_kept { result ≡ None → records.new.items ≡ records.old.items }
    ensures describes { result ≡ None → (v : Values Global) → IsRecord env.now (Data v) bytes.now
        → described_by env.now v ≡ None → ⊥ }
{
    let message = env.open(bytes);
    let plan = plan_of(plans, &message);
    if describes(plan, &message) {
        return None;
    }
    let known = plan.has_lone_fields;
    let mut taken = say_next(last, plan, &message);
    message.add_to(records);
    let lone = lone_fields(asks, known, plans, &message);
    taken.has_lone_fields = lone;
    Some(taken)
}
