//! One byte of a record.
ghost use Rattle.std.specs.Prelude.{◌≡◌, ◌+◌, ◌<◌, OnErr, IfOk, Some, []};
ghost use Rattle.fit_record.specs.declared.message.Record.TheVariants.{Define, Values as Data};
ghost use Rattle.fit_step.specs.Machine.{step, step_at};
ghost use Rattle.fit_step.specs.Places.{state_at, KeepsPart, PartFitsRoom, Steps, TakesNone, WantsNone};
ghost use Rattle.fit_step.specs.inner.Steps.{state, Defines, DefinesAt, Made, ReadsAt};
ghost use Rattle.fit_step.specs.Tests.{tests_of};

use crate::definition_byte::definition_byte;
use crate::items::{FieldInProgress, at_dev_items, at_field_items};
use crate::record_header::at_record_header;
use crate::{Partial, Phase, Position, Stop};
use fit_record::{Env, MessageDef, Record, Values};
use std::alloc::Allocator;

/// One byte of a record, at a position and after the bytes of the record so far: the next position, and whether the record
/// in progress is complete.
///
/// A complete record stays in place, so that the caller can learn it; then `in_progress` is to be emptied, and the next
/// record begins. Where the byte isn't taken nothing has changed. Of several reasons it is refused for the first in
/// `Reason`, and memory is needed only for a byte that isn't refused.
pub fn step<A: Allocator + Copy>(
    alloc: A,
    env: &Env<A>,
    position: &Position,
    in_progress: &mut Option<Record<A>>,
    byte: u8,
) -> Result<(Position, bool), Stop>
    requires room { 0 < position.now.room }
    requires stands { PartFitsRoom env.now (state_at position.now in_progress.old) }
    ensures made { Steps in_progress.new result
        (step env.now (tests_of env.now) (state_at position.now in_progress.old) byte) }
    ensures kept { IfOk result (λ next. KeepsPart env.now in_progress.new next) }
    ensures room { IfOk result (λ next. next.0.room + 1 ≡ position.now.room) }
    ensures err { OnErr result (in_progress.new ≡ in_progress.old) }
    ensures free { TakesNone env.now position.now.phase position.now.partial byte
        → WantsNone result }
{
    let mut phase = position.phase;
    let mut room = position.room;
    let mut partial = position.partial.copied();
    let whole = take(
        alloc,
        env,
        &mut phase,
        &mut room,
        &mut partial,
        in_progress,
        byte,
    )?;
    let next = Position {
        phase,
        room,
        partial,
    };
    Ok((next, whole))
}

/// Takes the byte in. Whether the record in progress is whole.
#[tactic(auto, unfolding(crate::specs::Machine::step))]
fn take<A: Allocator + Copy>(
    alloc: A,
    env: &Env<A>,
    phase: &mut Phase,
    room: &mut u32,
    partial: &mut Partial,
    in_progress: &mut Option<Record<A>>,
    byte: u8,
) -> Result<bool, Stop>
    requires room { 0 < room.old }
    requires stands { PartFitsRoom env.now (state phase.old room.old in_progress.old partial.old) }
    ensures made { Made phase.new room.new in_progress.new partial.new result
        (step env.now (tests_of env.now) (state phase.old room.old in_progress.old partial.old)
        byte) }
    ensures err { OnErr result (in_progress.new ≡ in_progress.old) }
    ensures free { TakesNone env.now phase.old partial.old byte → WantsNone result }
{
    match in_progress {
        None => {
            let (record, whole) = at_record_header(alloc, env, phase, room, byte)?;
            *in_progress = Some(record);
            Ok(whole)
        }
        Some(Record::Define(definition)) => in_definition(env, phase, room, definition, byte),
        Some(Record::Values(values)) => {
            in_message(alloc, env, phase, room, partial, values, byte)
        }
    }
}

/// A byte of a definition message. Whether that is whole.
fn in_definition<A: Allocator>(
    env: &Env<A>,
    phase: &mut Phase,
    room: &mut u32,
    definition: &mut MessageDef<A>,
    byte: u8,
) -> Result<bool, Stop>
    requires room { 0 < room.old }
    requires defines { DefinesAt phase.old definition.old }
    ensures made { Defines phase.new room.new definition.new result
        (step_at env.now (tests_of env.now) phase.old
        (state phase.old room.old (Some (Define definition.old)) []) byte) }
    ensures err { OnErr result (definition.new ≡ definition.old) }
    ensures free { TakesNone env.now phase.old [] byte → WantsNone result }
{
    match *phase {
        Phase::Definition(part) => definition_byte(env, part, phase, room, definition, byte),
        _ => unreachable!(),
    }
}

/// A byte of a data message. Whether that is whole.
fn in_message<A: Allocator + Copy>(
    alloc: A,
    env: &Env<A>,
    phase: &mut Phase,
    room: &mut u32,
    partial: &mut Partial,
    values: &mut Values<A>,
    byte: u8,
) -> Result<bool, Stop>
    requires room { 0 < room.old }
    requires reads { ReadsAt env.now phase.old values.old partial.old }
    ensures made { Made phase.new room.new (Some (Data values.new)) partial.new result
        (step_at env.now (tests_of env.now) phase.old
        (state phase.old room.old (Some (Data values.old)) partial.old) byte) }
    ensures err { OnErr result (values.new ≡ values.old) }
    ensures free { TakesNone env.now phase.old partial.old byte → WantsNone result }
{
    let Some(defined) = env.defined(values.local) else {
        unreachable!()
    };
    *room -= 1;
    match *phase {
        Phase::FieldItems { place, width, left } => {
            let field = FieldInProgress { place, width, left };
            at_field_items(alloc, defined, phase, partial, values, field, byte)
        }
        Phase::DevItems { place, width, left } => {
            let field = FieldInProgress { place, width, left };
            at_dev_items(alloc, defined, phase, partial, values, field, byte)
        }
        _ => unreachable!(),
    }
}
