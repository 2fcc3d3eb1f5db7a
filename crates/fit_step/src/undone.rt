//! Taking back the last byte of a record.
ghost use Rattle.std.specs.Prelude.{◌≡◌, ℕ, ◌<◌, List, [], ◌∷◌, ◌++◌, length, Option, Ok, Some, IsSome};
ghost use Rattle.fit_base.specs.declared.items.Items.{Items};
ghost use Rattle.fit_record.specs.declared.definition.FieldDef.{FieldDef};
ghost use Rattle.fit_record.specs.declared.definition.DevDef.{DevDef};
ghost use Rattle.fit_record.specs.declared.definition.MessageDef.{MessageDef};
ghost use Rattle.fit_record.specs.declared.message.Record.{Record};
ghost use Rattle.fit_record.specs.declared.message.Values.{Values};
ghost use Rattle.fit_record.specs.Environment.{Environment, dev_defs};
ghost use Rattle.fit_step.specs.Machine.{State, add_number, step};
ghost use Rattle.fit_step.specs.Places.{state_at, PartFitsRoom};
ghost use Rattle.fit_step.specs.Tests.{tests_of};
ghost use Rattle.fit_step.specs.inner.Undone.{Adds, AddsEntry};

use crate::{DefinitionPhase, Phase, Position};
use fit_base::{Entries, Items};
use fit_record::{MessageDef, Record, Values};
use std::alloc::Allocator;
use std::mem;

/// Takes back the byte that completed a record, where the caller has no memory to learn the record.
///
/// `position` is that before the byte. The record in progress is then again what it was before the byte, and keeps its
/// memory, so that the byte can come again.
pub(crate) fn undo<A: Allocator + Copy>(
    alloc: A,
    position: &Position,
    in_progress: &mut Option<Record<A>>,
)
    ensures { (e : Environment A) (before : Option (Record A)) (r : Record A) (byte : ℕ)
        (left : State A) → byte < 256 → PartFitsRoom e (state_at position.now before)
        → step e (tests_of e) (state_at position.now before) byte ≡ Ok (left, Some r)
        → in_progress.old ≡ Some r → in_progress.new ≡ before }
{
    let Some(whole) = in_progress.take() else {
        return;
    };
    *in_progress = before(alloc, position.phase, whole);
}

/// What was in progress before the byte.
fn before<A: Allocator + Copy>(alloc: A, phase: Phase, whole: Record<A>) -> Option<Record<A>>
    ensures { (before : Option (Record A)) → Adds phase before whole → result ≡ before }
{
    match whole {
        Record::Define(mut definition) => match phase {
            Phase::Definition(part) => {
                take_entry(part, &mut definition);
                Some(Record::Define(definition))
            }
            _ => None,
        },
        Record::Values(mut values) => match phase {
            Phase::FieldItems { place, .. } => {
                take_number(alloc, &mut values.fields, place);
                Some(Record::Values(values))
            }
            Phase::DevItems { place, .. } => {
                take_number(alloc, &mut values.dev, place);
                Some(Record::Values(values))
            }
            _ => None,
        },
    }
}

/// Takes the last field or developer field away, where one has just come.
fn take_entry<A: Allocator>(part: DefinitionPhase, definition: &mut MessageDef<A>)
    ensures { (before : MessageDef A) → AddsEntry part before definition.old
        → definition.new ≡ before }
{
    match part {
        DefinitionPhase::FieldCode { .. } => take_field(definition),
        DefinitionPhase::DevIndex { .. } => take_dev_field(definition),
        _ => {}
    }
}

/// Takes the last field away.
fn take_field<A: Allocator>(definition: &mut MessageDef<A>)
    ensures { (before : MessageDef A) (f : FieldDef)
        → definition.old ≡ record before { fields = before.fields ++ f ∷ [] }
        → definition.new ≡ before }
{
    definition.fields.pop();
}

/// Takes the last developer field away.
fn take_dev_field<A: Allocator>(definition: &mut MessageDef<A>)
    ensures { (before : MessageDef A) (f : DevDef) → IsSome before.dev
        → definition.old ≡ record before { dev = Some (dev_defs before.dev ++ f ∷ []) }
        → definition.new ≡ before }
{
    let Some(mut dev) = definition.dev.take() else {
        return;
    };
    dev.pop();
    definition.dev = Some(dev);
}

/// Takes the last number of a field away.
fn take_number<A: Allocator + Copy>(alloc: A, fields: &mut Entries<Items<A>, A>, place: u8)
    ensures { (before : List (Items A)) (n : ℕ) → place < length before
        → fields.old ≡ add_number place before n → fields.new ≡ before }
{
    if place as usize >= fields.len() {
        return;
    }
    let mut items = mem::replace(fields, Entries::new(alloc)).into_vec();
    items[place as usize].bits.pop();
    *fields = Entries::from_vec(items);
}
