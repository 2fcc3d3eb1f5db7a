//! The rows of a data message after the first one.
ghost use Rattle.std.specs.Prelude.{◌≡◌, ◌≤◌, ◌⊎◌, ◌++◌, ◌∷◌, [], IfErr, OnOk, Some, length, slice_get};
ghost use Rattle.std.specs.Global.{Global};
ghost use Rattle.fit_record.specs.declared.message.Values.{Values};
ghost use Rattle.fit_record.specs.Sound.{IsSound};
ghost use Rattle.fit_csv.specs.inner.Misfits.{IsMisfit};
ghost use Rattle.fit_csv.specs.inner.Progress.{DevStep, FieldStep, HasRoom, MessageStep, is_whole_message};
ghost use Rattle.fit_csv.specs.inner.Seven.{row_of};

use crate::from::cells::{Cells, ValueReader};
use crate::from::fields::{dev_items, field_items};
use crate::from::misfit::Misfit;
use fit_base::{Entries, Items};
use fit_profile::Stream;
use fit_record::{Defined, FieldDef, Values};
use fit_texts::words::dev_slice;

/// Takes the items of one more field.
fn add(list: &mut Entries<Items>, items: Items) -> Result<(), Misfit>
    ensures ok { OnOk result (list.new ≡ list.old ++ items ∷ []) }
    ensures err { IfErr result (λ misfit. misfit ≡ Misfit.NoMemory) }
{
    match list.push(items) {
        Ok(()) => Ok(()),
        Err(_) => Err(Misfit::NoMemory),
    }
}

/// Takes the row of a field.
fn take_field(
    reader: &mut ValueReader,
    cells: &Cells,
    defined: &Defined,
    values: &mut Values,
    field: FieldDef,
) -> Result<(), Misfit>
    requires { slice_get defined.now.definition.fields (length values.old.fields) ≡ Some field }
    ensures ok { OnOk result (FieldStep defined.now values.old (row_of cells.now) values.new) }
    ensures err { IfErr result (IsMisfit (λ r.
        (w : Values Global) × FieldStep defined.now values.old r w) (row_of cells.now)) }
{
    let items = field_items(reader, cells, defined.definition.global, field)?;
    add(&mut values.fields, items)
}

/// Takes the row of a developer field.
fn take_dev_field(
    reader: &mut ValueReader,
    cells: &Cells,
    before: &Stream,
    defined: &Defined,
    values: &mut Values,
) -> Result<(), Misfit>
    requires all { length values.old.fields ≡ length defined.now.definition.fields }
    requires sound { IsSound defined.now }
    ensures ok { OnOk result (DevStep before.now defined.now values.old (row_of cells.now)
        values.new) }
    ensures err { IfErr result (IsMisfit (λ r.
        (w : Values Global) × DevStep before.now defined.now values.old r w) (row_of cells.now)) }
{
    let place = values.dev.len();
    let Some(field) = dev_slice(&defined.definition.dev).get(place) else {
        return Err(Misfit::Kind);
    };
    let Some(code) = defined.dev_codes.as_slice().get(place) else {
        return Err(Misfit::Kind);
    };
    let items = dev_items(
        reader,
        cells,
        before,
        values.local,
        place as u8,
        *field,
        *code,
    )?;
    add(&mut values.dev, items)
}

/// Takes the next row of a data message of this definition.
fn take_by(
    reader: &mut ValueReader,
    cells: &Cells,
    before: &Stream,
    defined: &Defined,
    values: &mut Values,
) -> Result<(), Misfit>
    requires room { length values.old.fields ≤ length defined.now.definition.fields }
    requires sound { IsSound defined.now }
    ensures ok { OnOk result (FieldStep defined.now values.old (row_of cells.now) values.new
        ⊎ DevStep before.now defined.now values.old (row_of cells.now) values.new) }
    ensures err { IfErr result (IsMisfit (λ r. (w : Values Global) ×
        (FieldStep defined.now values.old r w ⊎ DevStep before.now defined.now values.old r w))
        (row_of cells.now)) }
{
    match defined
        .definition
        .fields
        .as_slice()
        .get(values.fields.len())
    {
        Some(field) => take_field(reader, cells, defined, values, *field),
        None => take_dev_field(reader, cells, before, defined, values),
    }
}

/// Takes the next row of a data message after the records of a stream.
pub(crate) fn take_message_row(
    reader: &mut ValueReader,
    cells: &Cells,
    before: &Stream,
    values: &mut Values,
) -> Result<(), Misfit>
    requires { HasRoom before.now values.old }
    ensures ok { OnOk result (MessageStep before.now values.old (row_of cells.now) values.new) }
    ensures err { IfErr result (IsMisfit (λ r.
        (w : Values Global) × MessageStep before.now values.old r w) (row_of cells.now)) }
{
    match before.env().defined(values.local) {
        Some(defined) => take_by(reader, cells, before, defined, values),
        None => Err(Misfit::Kind),
    }
}

/// Whether all rows of a data message have come.
pub(crate) fn is_whole_message(before: &Stream, values: &Values) -> bool
    ensures { result ≡ is_whole_message before.now values.now }
{
    match before.env().defined(values.local) {
        Some(defined) => {
            values.fields.len() == defined.definition.fields.len()
                && values.dev.len() == dev_slice(&defined.definition.dev).len()
        }
        None => true,
    }
}
