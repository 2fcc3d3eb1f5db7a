//! The rows of the fields of a data message.
ghost use Rattle.std.specs.Prelude.{◌≡◌, [], IfErr, IfOk, IfSome, option_and_then, option_map, slice_get, unwrap_or};
ghost use Rattle.fit_base.specs.Fields.{HasShape};
ghost use Rattle.fit_profile.specs.Described.{namings_at};
ghost use Rattle.fit_profile.specs.Names.{meaning};
ghost use Rattle.fit_numbers.specs.Scaled.{IsScale};
ghost use Rattle.fit_cells.specs.Cells.{cell};
ghost use Rattle.fit_rows.specs.ChainRows.{dev_row, field_row, row};
ghost use Rattle.fit_csv.specs.RowKinds.{IsDevRow, IsFieldRow, naming_at};
ghost use Rattle.fit_csv.specs.inner.Misfits.{IsCellFault, IsMisfit, IsValueRow};
ghost use Rattle.fit_csv.specs.inner.Seven.{row_of};

use crate::from::cells::{Cells, ValueReader, first_difference, same};
use crate::from::misfit::Misfit;
use fit_base::{Code, Items};
use fit_profile::{Info, Label, Stream, field_info, field_label};
use fit_record::{DevDef, FieldDef};
use fit_texts::cells::items_in;
use fit_texts::words::{numbered_label, unit_text};

/// The row of a field with this label, code and size, and with this unit.
fn value_row(
    reader: &mut ValueReader,
    cells: &Cells,
    label: &[u8],
    code: Code,
    size: u8,
    info: Option<Info>,
    unit: &[u8],
) -> Result<Items, Misfit>
    requires { IfSome info (λ i. IsScale i.scale) }
    ensures shape { IfOk result (HasShape code.0 size) }
    ensures ok { IfOk result (λ items. row_of cells.now ≡ row cells.now.kind.now label.now
        (cell code.0 (option_map meaning info) items) unit.now [] [] []) }
    ensures err { IfErr result (IsCellFault (IsValueRow cells.now.kind.now label.now code.0 size
        (option_map meaning info) unit.now) (row_of cells.now)) }
{
    if !same(cells.a, label) {
        return Err(Misfit::Cell(2));
    }
    let Some(items) = items_in(reader.alloc, &mut reader.written, cells.b, code, size, info)? else {
        return Err(Misfit::Cell(3));
    };
    let shown = Cells {
        kind: cells.kind,
        a: cells.a,
        b: cells.b,
        c: unit,
        d: b"",
        e: b"",
        f: b"",
    };
    match first_difference(cells, &shown) {
        None => Ok(items),
        Some(column) => Err(Misfit::Cell(column)),
    }
}

/// The row of a field of a message.
pub(crate) fn field_items(
    reader: &mut ValueReader,
    cells: &Cells,
    global: u16,
    field: FieldDef,
) -> Result<Items, Misfit>
    ensures shape { IfOk result (HasShape field.code field.size) }
    ensures ok { IfOk result (λ items. row_of cells.now ≡ field_row global field items) }
    ensures err { IfErr result (IsMisfit (IsFieldRow global field) (row_of cells.now)) }
{
    if !same(cells.kind, b"field") {
        return Err(Misfit::Kind);
    }
    let info = field_info(global, field.number);
    let unit = unit_text(info).as_bytes();
    match info {
        Some(known) => {
            let label = known.name.as_bytes();
            value_row(
                reader,
                cells,
                label,
                Code(field.code),
                field.size,
                info,
                unit,
            )
        }
        None => {
            let label = field_label(global, field.number);
            let label = label.as_str().as_bytes();
            value_row(
                reader,
                cells,
                label,
                Code(field.code),
                field.size,
                info,
                unit,
            )
        }
    }
}

/// The name of a developer field of the next message of a local message type, or else this label.
fn dev_name<'a>(stream: &'a Stream, local: u8, place: u8, label: &'a Label) -> &'a str
    ensures { result.now ≡ unwrap_or (option_and_then (λ t. t.name)
        (slice_get (namings_at stream.now local) place)) label.now.bytes }
{
    match stream.dev_name(local, place) {
        Some(name) => name,
        None => label.as_str(),
    }
}

/// The unit of a developer field of the next message of a local message type, or an empty text.
fn dev_unit(stream: &Stream, local: u8, place: u8) -> &str
    ensures { result.now ≡ unwrap_or (option_and_then (λ t. t.unit)
        (slice_get (namings_at stream.now local) place)) [] }
{
    match stream.dev_unit(local, place) {
        Some(unit) => unit,
        None => "",
    }
}

/// The row of a developer field of this code in a message of a local message type.
pub(crate) fn dev_items(
    reader: &mut ValueReader,
    cells: &Cells,
    before: &Stream,
    local: u8,
    place: u8,
    field: DevDef,
    code: u8,
) -> Result<Items, Misfit>
    ensures shape { IfOk result (HasShape code field.size) }
    ensures ok { IfOk result (λ items. row_of cells.now
        ≡ dev_row field code (naming_at before.now local place) items) }
    ensures err { IfErr result (IsMisfit (IsDevRow field code (naming_at before.now local place))
        (row_of cells.now)) }
{
    if !same(cells.kind, b"dev") {
        return Err(Misfit::Kind);
    }
    let numbered = numbered_label(&field);
    let label = dev_name(before, local, place, &numbered).as_bytes();
    let unit = dev_unit(before, local, place).as_bytes();
    value_row(reader, cells, label, Code(code), field.size, None, unit)
}
