//! The rows of a definition message after the first one.
ghost use Rattle.std.specs.Prelude.{◌≡◌, ◌<◌, ◌≤◌, IfErr, OnOk, length};
ghost use Rattle.fit_csv.specs.declared.from.definition.OpenDefinition.{OpenDefinition};
ghost use Rattle.fit_csv.specs.inner.Misfits.{IsMisfit};
ghost use Rattle.fit_csv.specs.inner.Progress.{DefinitionStep, DevDefStep, FieldDefStep, built_definition, is_whole};
ghost use Rattle.fit_csv.specs.inner.Seven.{row_of};

use crate::from::cells::{Cells, same};
use crate::from::definition::{OpenDefinition, dev_def, field_def};
use crate::from::misfit::Misfit;
use fit_record::MessageDef;

/// Takes the row of a field.
fn take_field(definition: &mut OpenDefinition, cells: &Cells) -> Result<(), Misfit>
    requires { length definition.old.fields < definition.old.head.fields }
    ensures ok { OnOk result (FieldDefStep definition.old (row_of cells.now) definition.new) }
    ensures err { IfErr result (IsMisfit (λ r.
        (o : OpenDefinition) × FieldDefStep definition.old r o) (row_of cells.now)) }
{
    if !same(cells.kind, b"fdef") {
        return Err(Misfit::Kind);
    }
    let field = field_def(cells)?;
    match definition.fields.push(field) {
        Ok(()) => Ok(()),
        Err(_) => Err(Misfit::NoMemory),
    }
}

/// Takes the row of a developer field.
fn take_dev_field(definition: &mut OpenDefinition, cells: &Cells) -> Result<(), Misfit>
    requires { length definition.old.fields ≡ definition.old.head.fields }
    ensures ok { OnOk result (DevDefStep definition.old (row_of cells.now) definition.new) }
    ensures err { IfErr result (IsMisfit (λ r. (o : OpenDefinition) × DevDefStep definition.old r o)
        (row_of cells.now)) }
{
    if !same(cells.kind, b"ddef") {
        return Err(Misfit::Kind);
    }
    let field = dev_def(cells)?;
    match definition.dev.push(field) {
        Ok(()) => Ok(()),
        Err(_) => Err(Misfit::NoMemory),
    }
}

/// Takes the next row of a definition.
pub(crate) fn take_definition_row(
    definition: &mut OpenDefinition,
    cells: &Cells,
) -> Result<(), Misfit>
    requires { length definition.old.fields ≤ definition.old.head.fields }
    ensures ok { OnOk result (DefinitionStep definition.old (row_of cells.now) definition.new) }
    ensures err { IfErr result (IsMisfit (λ r.
        (o : OpenDefinition) × DefinitionStep definition.old r o) (row_of cells.now)) }
{
    if definition.fields.len() < definition.head.fields as usize {
        take_field(definition, cells)
    } else {
        take_dev_field(definition, cells)
    }
}

/// Whether all rows of a definition have come.
pub(crate) fn is_whole(definition: &OpenDefinition) -> bool
    ensures { result ≡ is_whole definition.now }
{
    let dev = definition.head.dev.unwrap_or(0);
    definition.fields.len() == definition.head.fields as usize
        && definition.dev.len() == dev as usize
}

/// The definition with the fields that have come.
pub(crate) fn definition_of(definition: OpenDefinition) -> MessageDef
    ensures { result ≡ built_definition definition }
{
    MessageDef {
        local: definition.head.local,
        reserved: definition.head.reserved,
        order: definition.head.order,
        global: definition.head.global,
        fields: definition.fields,
        dev: match definition.head.dev {
            Some(_) => Some(definition.dev),
            None => None,
        },
    }
}
