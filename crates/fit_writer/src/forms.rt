//! Definitions made anew: with a timestamp, or for another local message type.
ghost use Rattle.std.specs.Prelude.{◌≡◌, ◌<◌, ◌∷◌, IfOk, length};
ghost use Rattle.fit_writer.specs.Reading as saying;
ghost use Rattle.fit_writer.specs.inner.Places.{IsLone, form_of};

use fit_base::Entries;
use fit_from_messages::{LoneDefinition, Slot};
use fit_record::{DevDef, FieldDef, MessageDef};
use std::alloc::{AllocError, Global};

/// A timestamp.
const TIMESTAMP: FieldDef = FieldDef {
    number: 253,
    size: 4,
    code: 0x86,
};

/// Where a block has the time of its header.
const HEADER_TIME: Slot = Slot {
    place: 32,
    width: 4,
    count: 1,
};

/// Elements with one before them.
fn with_first<T: Copy>(alloc: Global, first: T, others: &[T]) -> Result<Entries<T>, AllocError>
    ensures { IfOk result (λ all. all ≡ first ∷ others.now) }
{
    let mut all = Entries::new(alloc);
    all.push(first)?;
    for other in others {
        all.push(*other)?;
    }
    Ok(all)
}

/// The same developer fields.
fn copied_devs(
    alloc: Global,
    dev: &Option<Entries<DevDef>>,
) -> Result<Option<Entries<DevDef>>, AllocError>
    ensures { IfOk result (λ copy. copy ≡ dev.now) }
{
    match dev {
        None => Ok(None),
        Some(dev) => {
            let copy = Entries::from_slice(alloc, dev.as_slice())?;
            Ok(Some(copy))
        }
    }
}

/// The same definition with these fields, for this local message type.
fn with_fields(
    alloc: Global,
    definition: &MessageDef,
    local: u8,
    fields: Entries<FieldDef>,
) -> Result<MessageDef, AllocError>
    ensures { IfOk result (λ d. d ≡ record definition.now { local = local; fields = fields }) }
{
    let dev = copied_devs(alloc, &definition.dev)?;
    Ok(MessageDef {
        local,
        reserved: definition.reserved,
        order: definition.order,
        global: definition.global,
        fields,
        dev,
    })
}

/// The same definition for this local message type.
pub(crate) fn with_local(
    alloc: Global,
    definition: &MessageDef,
    local: u8,
) -> Result<MessageDef, AllocError>
    ensures { IfOk result (λ d. d ≡ record definition.now { local = local }) }
{
    let fields = Entries::from_slice(alloc, definition.fields.as_slice())?;
    with_fields(alloc, definition, local, fields)
}

/// The form with a timestamp.
pub(crate) fn dated<'a>(
    alloc: Global,
    lone: &LoneDefinition<'a>,
) -> Result<LoneDefinition<'a>, AllocError>
    requires lone { IsLone lone.now }
    requires room { length lone.now.definition.fields < 255 }
    ensures form { IfOk result (λ d. form_of d ≡ saying.dated (form_of lone.now)) }
    ensures lone { IfOk result IsLone }
{
    let fields = with_first(alloc, TIMESTAMP, lone.definition.fields.as_slice())?;
    let definition = with_fields(alloc, &lone.definition, lone.definition.local, fields)?;
    let codes = Entries::from_slice(alloc, lone.codes.as_slice())?;
    let slots = with_first(alloc, HEADER_TIME, lone.slots.as_slice())?;
    Ok(LoneDefinition {
        definition,
        codes,
        slots,
        dev: lone.dev,
    })
}
