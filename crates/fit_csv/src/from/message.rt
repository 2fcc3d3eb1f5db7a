//! Rows of data messages.
ghost use Rattle.std.specs.Prelude.{◌≡◌, ◌<◌, ◌≤◌, codes, decimal, IfErr, IfOk, IsSome};
ghost use Rattle.fit_profile.specs.Looks.{known};
ghost use Rattle.fit_record.specs.Environment.{defined_at};
ghost use Rattle.fit_csv.specs.inner.Misfits.{IsMessageOrEnd, IsMessageRow, IsMessageStart, IsCellFault, global_at, message_row};
ghost use Rattle.fit_csv.specs.inner.Seven.{row_of};

use crate::from::cells::{Cells, first_difference};
use crate::from::misfit::Misfit;
use fit_base::Entries;
use fit_profile::{Stream, message_label};
use fit_record::Values;
use fit_texts::cells::{defined_local, offset_in};
use fit_texts::words::{header_time_text, optional_number};
use itoa::Buffer;
use std::alloc::Global;

/// The global message number of a local message type, and some number where it isn't defined.
fn global_at(before: &Stream, local: u8) -> u16
    ensures { result ≡ global_at before.now local }
{
    match before.env().definition(local) {
        Some(definition) => definition.global,
        None => 0,
    }
}

/// How many fields the messages of a local message type have.
fn field_count(before: &Stream, local: u8) -> usize
    ensures few { result ≤ 255 }
{
    match before.env().defined(local) {
        Some(defined) => defined.definition.fields.len(),
        None => 0,
    }
}

/// The first row of a data message whose local message type is known.
fn rest_of_message(
    alloc: Global,
    cells: &Cells,
    before: &Stream,
    local: u8,
) -> Result<Values, Misfit>
    requires kind { cells.now.kind.now ≡ codes "data" }
    requires small { local < 16 }
    requires shown { decimal local ≡ cells.now.a.now }
    requires defined { IsSome (defined_at (known before.now) local) }
    ensures start { IfOk result (IsMessageStart before.now) }
    ensures ok { IfOk result (λ v. row_of cells.now ≡ message_row before.now v) }
    ensures err { IfErr result (IsCellFault (IsMessageRow before.now) (row_of cells.now)) }
{
    let offset = offset_in(cells.b, local);
    let label = message_label(global_at(before, local));
    let time = header_time_text(before, offset);
    let mut offset_text = Buffer::new();
    let shown = Cells {
        kind: cells.kind,
        a: cells.a,
        b: optional_number(&mut offset_text, offset),
        c: label.as_str().as_bytes(),
        d: time.as_str().as_bytes(),
        e: b"",
        f: b"",
    };
    match first_difference(cells, &shown) {
        None => Ok(Values {
            local,
            offset,
            fields: Entries::with_capacity(alloc, field_count(before, local))?,
            dev: Entries::new(alloc),
        }),
        Some(column) => Err(Misfit::Cell(column)),
    }
}

/// The first row of a data message after these records.
pub(crate) fn message_head(alloc: Global, cells: &Cells, before: &Stream) -> Result<Values, Misfit>
    requires { cells.now.kind.now ≡ codes "data" }
    ensures start { IfOk result (IsMessageStart before.now) }
    ensures ok { IfOk result (λ v. row_of cells.now ≡ message_row before.now v) }
    ensures err { IfErr result (IsCellFault (IsMessageOrEnd before.now) (row_of cells.now)) }
{
    match defined_local(cells.a, before) {
        Some(local) => rest_of_message(alloc, cells, before, local),
        None => Err(Misfit::Cell(2)),
    }
}
