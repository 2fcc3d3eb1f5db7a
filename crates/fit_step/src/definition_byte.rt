//! One byte of a definition message after its record header.
ghost use Rattle.std.specs.Prelude.{◌≡◌, ◌<◌, OnErr, []};
ghost use Rattle.fit_step.specs.declared.phase.Phase.TheVariants.{Definition};
ghost use Rattle.fit_step.specs.Machine.{definition_move};
ghost use Rattle.fit_step.specs.Places.{TakesNone, WantsNone};
ghost use Rattle.fit_step.specs.inner.Steps.{Defines, IsDefining};
ghost use Rattle.fit_step.specs.Tests.{tests_of};

use crate::definition::{
    at_architecture, at_dev_index, at_dev_number, at_field_code, at_field_count, at_field_number,
    at_global_first, at_global_second, at_reserved,
};
use crate::sizes::{at_dev_count, at_dev_size, at_field_size};
use crate::{DefinitionPhase, Phase, Stop};
use fit_record::{Env, MessageDef};
use std::alloc::Allocator;

/// One byte of a definition message after its record header. Whether the definition message is whole.
pub(crate) fn definition_byte<A: Allocator>(
    env: &Env<A>,
    part: DefinitionPhase,
    phase: &mut Phase,
    room: &mut u32,
    definition: &mut MessageDef<A>,
    byte: u8,
) -> Result<bool, Stop>
    requires room { 0 < room.old }
    requires defining { IsDefining part definition.old }
    ensures made { Defines phase.new room.new definition.new result
        (definition_move (tests_of env.now) part room.old definition.old byte) }
    ensures err { OnErr result ((phase.new ≡ phase.old) × (room.new ≡ room.old)
        × (definition.new ≡ definition.old)) }
    ensures free { TakesNone env.now (Definition part) [] byte → WantsNone result }
{
    match part {
        DefinitionPhase::Reserved => {
            at_reserved(phase, room, definition, byte);
            Ok(false)
        }
        DefinitionPhase::Architecture => at_architecture(phase, room, definition, byte),
        DefinitionPhase::GlobalFirst => {
            at_global_first(phase, room, definition, byte);
            Ok(false)
        }
        DefinitionPhase::GlobalSecond { first } => {
            at_global_second(phase, room, definition, first, byte);
            Ok(false)
        }
        DefinitionPhase::FieldCount => at_field_count(phase, room, definition, byte),
        DefinitionPhase::FieldNumber { left } => {
            at_field_number(phase, room, definition, left, byte);
            Ok(false)
        }
        DefinitionPhase::FieldSize { left, number } => {
            at_field_size(env, phase, room, definition, left, number, byte)
        }
        DefinitionPhase::FieldCode { left, number, size } => {
            at_field_code(phase, room, definition, left, number, size, byte)
        }
        DefinitionPhase::DevCount => at_dev_count(env, phase, room, definition, byte),
        DefinitionPhase::DevNumber { left } => {
            at_dev_number(phase, room, definition, left, byte);
            Ok(false)
        }
        DefinitionPhase::DevSize { left, number } => {
            at_dev_size(env, phase, room, definition, left, number, byte)
        }
        DefinitionPhase::DevIndex { left, number, size } => {
            at_dev_index(phase, room, definition, left, number, size, byte)
        }
    }
}
