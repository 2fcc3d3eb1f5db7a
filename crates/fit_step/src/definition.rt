//! The bytes of a definition message after its record header, one by one (FIT protocol, "Definition Message").
ghost use Rattle.std.specs.Prelude.{◌≡◌, ◌<◌, OnErr, IsSome, Some, None, Ok, []};
ghost use Rattle.fit_record.specs.declared.message.Record.TheVariants.{Define};
ghost use Rattle.fit_step.specs.declared.phase.DefinitionPhase.TheVariants.{Reserved, Architecture, GlobalFirst, GlobalSecond, FieldCount, FieldNumber, FieldCode, DevNumber, DevIndex};
ghost use Rattle.fit_step.specs.Machine.{Tests, definition_move};
ghost use Rattle.fit_step.specs.Places.{WantsNone};
ghost use Rattle.fit_step.specs.inner.Steps.{state, Defines};

use crate::read_definition::global_of;
use crate::{DefinitionPhase, Phase, Stop};
use fit_base::Order;
use fit_frame::Reason;
use fit_record::{DevDef, FieldDef, MessageDef};
use std::alloc::Allocator;

/// The reserved byte.
#[tactic(auto, unfolding(crate::specs::Machine::definition_move))]
pub(crate) fn at_reserved<A: Allocator>(
    phase: &mut Phase,
    room: &mut u32,
    definition: &mut MessageDef<A>,
    byte: u8,
)
    requires { 0 < room.old }
    ensures { (tests : Tests A) → definition_move tests Reserved room.old definition.old byte
        ≡ Ok (state phase.new room.new (Some (Define definition.new)) [], None) }
{
    definition.reserved = byte;
    *room -= 1;
    *phase = Phase::Definition(DefinitionPhase::Architecture);
}

/// The architecture. No definition message is whole with it.
#[tactic(auto, unfolding(crate::specs::Machine::definition_move))]
pub(crate) fn at_architecture<A: Allocator>(
    phase: &mut Phase,
    room: &mut u32,
    definition: &mut MessageDef<A>,
    byte: u8,
) -> Result<bool, Stop>
    requires { 0 < room.old }
    ensures made { (tests : Tests A) → Defines phase.new room.new definition.new result
        (definition_move tests Architecture room.old definition.old byte) }
    ensures err { OnErr result ((phase.new ≡ phase.old) × (room.new ≡ room.old)
        × (definition.new ≡ definition.old)) }
    ensures free { WantsNone result }
{
    definition.order = match byte {
        0 => Order::Little,
        1 => Order::Big,
        _ => return Err(Stop::Refused(Reason::Architecture)),
    };
    *room -= 1;
    *phase = Phase::Definition(DefinitionPhase::GlobalFirst);
    Ok(false)
}

/// The first byte of the global message number.
#[tactic(auto, unfolding(crate::specs::Machine::definition_move))]
pub(crate) fn at_global_first<A: Allocator>(
    phase: &mut Phase,
    room: &mut u32,
    definition: &MessageDef<A>,
    byte: u8,
)
    requires { 0 < room.old }
    ensures { (tests : Tests A) → definition_move tests GlobalFirst room.old definition.now byte
        ≡ Ok (state phase.new room.new (Some (Define definition.now)) [], None) }
{
    *room -= 1;
    *phase = Phase::Definition(DefinitionPhase::GlobalSecond { first: byte });
}

/// Its second byte.
#[tactic(auto, unfolding(crate::specs::Machine::definition_move))]
pub(crate) fn at_global_second<A: Allocator>(
    phase: &mut Phase,
    room: &mut u32,
    definition: &mut MessageDef<A>,
    first: u8,
    byte: u8,
)
    requires { 0 < room.old }
    ensures { (tests : Tests A) → definition_move tests (GlobalSecond first) room.old definition.old
        byte ≡ Ok (state phase.new room.new (Some (Define definition.new)) [], None) }
{
    definition.global = global_of(definition.order, first, byte);
    *room -= 1;
    *phase = Phase::Definition(DefinitionPhase::FieldCount);
}

/// The number of fields. Whether the definition message is whole.
#[tactic(auto, unfolding(crate::specs::Machine::definition_move))]
pub(crate) fn at_field_count<A: Allocator>(
    phase: &mut Phase,
    room: &mut u32,
    definition: &MessageDef<A>,
    byte: u8,
) -> Result<bool, Stop>
    requires { 0 < room.old }
    ensures made { (tests : Tests A) → Defines phase.new room.new definition.now result
        (definition_move tests FieldCount room.old definition.now byte) }
    ensures err { OnErr result ((phase.new ≡ phase.old) × (room.new ≡ room.old)) }
    ensures free { WantsNone result }
{
    let dev_count = match &definition.dev {
        Some(_) => 1,
        None => 0,
    };
    if *room < 1 + 3 * u32::from(byte) + dev_count {
        return Err(Stop::Refused(Reason::Overrun));
    }
    *room -= 1;
    if byte > 0 {
        *phase = Phase::Definition(DefinitionPhase::FieldNumber { left: byte });
        return Ok(false);
    }
    if definition.dev.is_some() {
        *phase = Phase::Definition(DefinitionPhase::DevCount);
        return Ok(false);
    }
    *phase = Phase::RecordHeader;
    Ok(true)
}

/// The number of a field.
#[tactic(auto, unfolding(crate::specs::Machine::definition_move))]
pub(crate) fn at_field_number<A: Allocator>(
    phase: &mut Phase,
    room: &mut u32,
    definition: &MessageDef<A>,
    left: u8,
    byte: u8,
)
    requires { 0 < room.old }
    ensures { (tests : Tests A) → definition_move tests (FieldNumber left) room.old definition.now
        byte ≡ Ok (state phase.new room.new (Some (Define definition.now)) [], None) }
{
    *room -= 1;
    *phase = Phase::Definition(DefinitionPhase::FieldSize { left, number: byte });
}

/// The base type code of a field. Whether the definition message is whole.
#[tactic(auto, unfolding(crate::specs::Machine::definition_move))]
pub(crate) fn at_field_code<A: Allocator>(
    phase: &mut Phase,
    room: &mut u32,
    definition: &mut MessageDef<A>,
    left: u8,
    number: u8,
    size: u8,
    byte: u8,
) -> Result<bool, Stop>
    requires room { 0 < room.old }
    requires left { 0 < left }
    ensures made { (tests : Tests A) → Defines phase.new room.new definition.new result
        (definition_move tests (FieldCode left number size) room.old definition.old byte) }
    ensures err { OnErr result ((phase.new ≡ phase.old) × (room.new ≡ room.old)
        × (definition.new ≡ definition.old)) }
{
    let field = FieldDef {
        number,
        size,
        code: byte,
    };
    if definition.fields.push(field).is_err() {
        return Err(Stop::NoMemory);
    }
    *room -= 1;
    if left > 1 {
        *phase = Phase::Definition(DefinitionPhase::FieldNumber { left: left - 1 });
        return Ok(false);
    }
    if definition.dev.is_some() {
        *phase = Phase::Definition(DefinitionPhase::DevCount);
        return Ok(false);
    }
    *phase = Phase::RecordHeader;
    Ok(true)
}

/// The number of a developer field.
#[tactic(auto, unfolding(crate::specs::Machine::definition_move))]
pub(crate) fn at_dev_number<A: Allocator>(
    phase: &mut Phase,
    room: &mut u32,
    definition: &MessageDef<A>,
    left: u8,
    byte: u8,
)
    requires { 0 < room.old }
    ensures { (tests : Tests A) → definition_move tests (DevNumber left) room.old definition.now
        byte ≡ Ok (state phase.new room.new (Some (Define definition.now)) [], None) }
{
    *room -= 1;
    *phase = Phase::Definition(DefinitionPhase::DevSize { left, number: byte });
}

/// The developer data index of a developer field. Whether the definition message is whole.
#[tactic(auto, unfolding(crate::specs::Machine::definition_move))]
pub(crate) fn at_dev_index<A: Allocator>(
    phase: &mut Phase,
    room: &mut u32,
    definition: &mut MessageDef<A>,
    left: u8,
    number: u8,
    size: u8,
    byte: u8,
) -> Result<bool, Stop>
    requires room { 0 < room.old }
    requires left { 0 < left }
    requires dev { IsSome definition.old.dev }
    ensures made { (tests : Tests A) → Defines phase.new room.new definition.new result
        (definition_move tests (DevIndex left number size) room.old definition.old byte) }
    ensures err { OnErr result ((phase.new ≡ phase.old) × (room.new ≡ room.old)
        × (definition.new ≡ definition.old)) }
{
    let field = DevDef {
        number,
        size,
        index: byte,
    };
    let Some(mut dev) = definition.dev.take() else {
        unreachable!()
    };
    let pushed = dev.push(field).is_ok();
    definition.dev = Some(dev);
    if !pushed {
        return Err(Stop::NoMemory);
    }
    *room -= 1;
    if left > 1 {
        *phase = Phase::Definition(DefinitionPhase::DevNumber { left: left - 1 });
        return Ok(false);
    }
    *phase = Phase::RecordHeader;
    Ok(true)
}
