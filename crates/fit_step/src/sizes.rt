//! The bytes of a definition message on which it depends whether records can still fill what is left of the data section.
ghost use Rattle.std.specs.Prelude.{◌≡◌, ◌+◌, ◌<◌, ◌≤◌, OnErr, true};
ghost use Rattle.fit_record.specs.Records.{DefinitionFits, body_length};
ghost use Rattle.fit_record.specs.Unfinished.{can_complete, can_complete_dev};
ghost use Rattle.fit_step.specs.declared.phase.DefinitionPhase.TheVariants.{FieldSize, DevCount, DevSize};
ghost use Rattle.fit_step.specs.Machine.{definition_move};
ghost use Rattle.fit_step.specs.Places.{WantsNone};
ghost use Rattle.fit_step.specs.inner.Steps.{Defines};
ghost use Rattle.fit_step.specs.Tests.{tests_of, entries_complete};

use crate::{DefinitionPhase, Phase, Stop};
use fit_frame::Reason;
use fit_record::{Env, MessageDef, body_length};
use std::alloc::Allocator;

/// Whether six bytes or more of the room are left, whatever a definition message of which that many bytes of entries are to come says. Then
/// records can fill it, and the sizes that have come needn't be added up.
fn is_far(to_come: u32, room: u32) -> bool
    ensures { result ≡ true → to_come + 7 ≤ room }
{
    room > to_come && room - to_come > 6
}

/// Whether a definition message can be completed where that many bytes of its entries and nothing else are to come. `size` is to be added to
/// the sizes of whole entries.
fn can_complete<A: Allocator>(
    env: &Env<A>,
    definition: &MessageDef<A>,
    to_come: u32,
    size: u8,
    room: u32,
) -> bool
    requires { DefinitionFits definition.now }
    ensures { result ≡ can_complete env.now definition.now.local to_come
        (body_length definition.now + size) room }
{
    if is_far(to_come, room) {
        return true;
    }
    let all = body_length(definition) + u32::from(size);
    env.can_complete(definition.local, to_come, all, room)
}

/// The same, where the number of developer fields is to come after these bytes.
fn can_complete_dev<A: Allocator>(
    env: &Env<A>,
    definition: &MessageDef<A>,
    to_come: u32,
    size: u8,
    room: u32,
) -> bool
    requires { DefinitionFits definition.now }
    ensures { result ≡ can_complete_dev env.now definition.now.local to_come
        (body_length definition.now + size) room }
{
    if is_far(to_come, room) {
        return true;
    }
    let all = body_length(definition) + u32::from(size);
    env.can_complete_dev(definition.local, to_come, all, room)
}

/// Whether a definition message can be completed where that many bytes of entries of fields are to come, and after them the
/// number of developer fields, if there are any.
fn entries_complete<A: Allocator>(
    env: &Env<A>,
    definition: &MessageDef<A>,
    to_come: u32,
    size: u8,
    room: u32,
) -> bool
    requires { DefinitionFits definition.now }
    ensures { result ≡ entries_complete env.now definition.now.dev definition.now.local to_come
        (body_length definition.now + size) room }
{
    match &definition.dev {
        None => can_complete(env, definition, to_come, size, room),
        Some(_) => can_complete_dev(env, definition, to_come, size, room),
    }
}

/// The size of a field. No definition message is whole with it.
#[tactic(auto, unfolding(crate::specs::Machine::definition_move))]
pub(crate) fn at_field_size<A: Allocator>(
    env: &Env<A>,
    phase: &mut Phase,
    room: &mut u32,
    definition: &MessageDef<A>,
    left: u8,
    number: u8,
    byte: u8,
) -> Result<bool, Stop>
    requires room { 0 < room.old }
    requires left { 0 < left }
    requires fits { DefinitionFits definition.now }
    ensures made { Defines phase.new room.new definition.now result
        (definition_move (tests_of env.now) (FieldSize left number) room.old definition.now byte) }
    ensures err { OnErr result ((phase.new ≡ phase.old) × (room.new ≡ room.old)) }
    ensures free { WantsNone result }
{
    let to_come = 1 + 3 * u32::from(left - 1);
    if !entries_complete(env, definition, to_come, byte, *room - 1) {
        return Err(Stop::Refused(Reason::NoFit));
    }
    *room -= 1;
    *phase = Phase::Definition(DefinitionPhase::FieldCode {
        left,
        number,
        size: byte,
    });
    Ok(false)
}

/// The number of developer fields. Whether the definition message is whole.
#[tactic(auto, unfolding(crate::specs::Machine::definition_move))]
pub(crate) fn at_dev_count<A: Allocator>(
    env: &Env<A>,
    phase: &mut Phase,
    room: &mut u32,
    definition: &MessageDef<A>,
    byte: u8,
) -> Result<bool, Stop>
    requires room { 0 < room.old }
    requires fits { DefinitionFits definition.now }
    ensures made { Defines phase.new room.new definition.now result
        (definition_move (tests_of env.now) DevCount room.old definition.now byte) }
    ensures err { OnErr result ((phase.new ≡ phase.old) × (room.new ≡ room.old)) }
    ensures free { WantsNone result }
{
    let to_come = 3 * u32::from(byte);
    if *room < 1 + to_come {
        return Err(Stop::Refused(Reason::Overrun));
    }
    if !env.can_complete(
        definition.local,
        to_come,
        body_length(definition),
        *room - 1,
    ) {
        return Err(Stop::Refused(Reason::NoFit));
    }
    *room -= 1;
    if byte > 0 {
        *phase = Phase::Definition(DefinitionPhase::DevNumber { left: byte });
        return Ok(false);
    }
    *phase = Phase::RecordHeader;
    Ok(true)
}

/// The size of a developer field. No definition message is whole with it.
#[tactic(auto, unfolding(crate::specs::Machine::definition_move))]
pub(crate) fn at_dev_size<A: Allocator>(
    env: &Env<A>,
    phase: &mut Phase,
    room: &mut u32,
    definition: &MessageDef<A>,
    left: u8,
    number: u8,
    byte: u8,
) -> Result<bool, Stop>
    requires room { 0 < room.old }
    requires left { 0 < left }
    requires fits { DefinitionFits definition.now }
    ensures made { Defines phase.new room.new definition.now result
        (definition_move (tests_of env.now) (DevSize left number) room.old definition.now byte) }
    ensures err { OnErr result ((phase.new ≡ phase.old) × (room.new ≡ room.old)) }
    ensures free { WantsNone result }
{
    let to_come = 1 + 3 * u32::from(left - 1);
    if !can_complete(env, definition, to_come, byte, *room - 1) {
        return Err(Stop::Refused(Reason::NoFit));
    }
    *room -= 1;
    *phase = Phase::Definition(DefinitionPhase::DevIndex {
        left,
        number,
        size: byte,
    });
    Ok(false)
}
