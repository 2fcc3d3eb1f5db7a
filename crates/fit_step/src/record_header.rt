//! The byte with which a record begins (FIT protocol, "Record Header").
ghost use Rattle.std.specs.Prelude.{◌≡◌, ◌-◌, ◌<◌, ◌⊎◌, IfOk, IfErr, IsTrue, IsSomeAnd, Ok, Err, Some};
ghost use Rattle.fit_record.specs.Environment.{defined_at};
ghost use Rattle.fit_record.specs.HeaderByte.{is_definition, local_type};
ghost use Rattle.fit_record.specs.Sound.{IsSound};
ghost use Rattle.fit_record.specs.Records.{layout, dev_layout};
ghost use Rattle.fit_record.specs.Sizes.{HasNoFields, HeadsEmptyMessage};
ghost use Rattle.fit_step.specs.Reasons.{least_definition};
ghost use Rattle.fit_step.specs.Machine.{begin_fields, header_move, message_move, new_message};
ghost use Rattle.fit_step.specs.Places.{WantsNone};
ghost use Rattle.fit_step.specs.inner.Steps.{Enters};
ghost use Rattle.fit_step.specs.Tests.{tests_of};

use crate::header::{
    has_developer_fields, has_reserved_bit, is_definition, local_type, new_definition, new_message,
};
use crate::items::begin_fields;
use crate::{DefinitionPhase, Phase, Stop};
use fit_frame::Reason;
use fit_record::{Defined, Env, Record};
use std::alloc::Allocator;

/// The definition of a data message that begins, or why its record header is refused.
fn defined_for<A: Allocator>(env: &Env<A>, room: u32, byte: u8) -> Result<&Defined<A>, Reason>
    requires { 0 < room }
    ensures ok { IfOk result (λ p. (defined_at env.now (local_type byte) ≡ Some p.now)
        × IsSound p.now) }
    ensures goes { IfOk result (λ p. message_move (tests_of env.now) room byte
        (defined_at env.now (local_type byte))
        ≡ Ok (begin_fields (room - 1) (new_message byte (layout p.now) (dev_layout p.now)) 0
        (layout p.now) (dev_layout p.now))) }
    ensures err { IfErr result (λ reason. message_move (tests_of env.now) room byte
        (defined_at env.now (local_type byte)) ≡ Err reason) }
{
    let local = local_type(byte);
    let Some(defined) = env.defined(local) else {
        return Err(Reason::UndefinedLocal);
    };
    let Some(size) = env.length(local) else {
        return Err(Reason::UndefinedLocal);
    };
    if room < 1 + size {
        return Err(Reason::Overrun);
    }
    if !env.can_carry(local, room - 1) {
        return Err(Reason::NoFit);
    }
    Ok(defined)
}

/// The record header of a data message: the message, and whether it is whole.
fn at_message<A: Allocator + Copy>(
    alloc: A,
    env: &Env<A>,
    phase: &mut Phase,
    room: &mut u32,
    byte: u8,
) -> Result<(Record<A>, bool), Stop>
    requires room { 0 < room.old }
    ensures made { Enters phase.new room.new result
        (message_move (tests_of env.now) room.old byte (defined_at env.now (local_type byte))) }
    ensures free { IsSomeAnd (defined_at env.now (local_type byte)) (λ p. HasNoFields p.definition)
        → WantsNone result }
{
    let defined = match defined_for(env, *room, byte) {
        Ok(defined) => defined,
        Err(reason) => return Err(Stop::Refused(reason)),
    };
    let Ok(values) = new_message(alloc, defined, byte) else {
        return Err(Stop::NoMemory);
    };
    *room -= 1;
    let whole = begin_fields(defined, 0, phase);
    Ok((Record::Values(values), whole))
}

/// A record header: the record that it begins, and whether that is whole.
#[tactic(auto, unfolding(crate::specs::Machine::header_move))]
pub(crate) fn at_record_header<A: Allocator + Copy>(
    alloc: A,
    env: &Env<A>,
    phase: &mut Phase,
    room: &mut u32,
    byte: u8,
) -> Result<(Record<A>, bool), Stop>
    requires room { 0 < room.old }
    ensures made { Enters phase.new room.new result
        (header_move env.now (tests_of env.now) room.old byte) }
    ensures free { IsTrue (is_definition byte) ⊎ HeadsEmptyMessage env.now byte → WantsNone result }
{
    if has_reserved_bit(byte) {
        return Err(Stop::Refused(Reason::ReservedBit));
    }
    if !is_definition(byte) {
        return at_message(alloc, env, phase, room, byte);
    }
    if *room < least_definition(byte) {
        return Err(Stop::Refused(Reason::Overrun));
    }
    *room -= 1;
    *phase = Phase::Definition(DefinitionPhase::Reserved);
    Ok((Record::Define(new_definition(alloc, byte)), false))
}

/// The bytes of a definition message without fields and developer fields.
fn least_definition(byte: u8) -> u32
    ensures { result ≡ least_definition byte }
{
    if has_developer_fields(byte) { 7 } else { 6 }
}
