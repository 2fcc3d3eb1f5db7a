//! Rows of definition messages.
ghost use Rattle.std.specs.Prelude.{◌≡◌, ◌<◌, ◌^◌, [], ℕ, Option, codes, decimal, IfErr, IfOk, IfSome};
ghost use Rattle.fit_rows.specs.ChainRows.{dev_def_row, field_def_row, row};
ghost use Rattle.fit_texts.specs.Words.{optional_number, order_word};
ghost use Rattle.fit_base.specs.declared.number.Order.{Order};
ghost use Rattle.fit_csv.specs.inner.Misfits.{HeadInRange, IsHeadRow, IsCellFault, IsRowOfThree, head_row};
ghost use Rattle.fit_csv.specs.Judged.{DevDefInRange, FieldDefInRange};
ghost use Rattle.fit_csv.specs.RowKinds.{IsDevDefRow, IsFieldDefRow};
ghost use Rattle.fit_cells.specs.Rows.{Row};
ghost use Rattle.fit_csv.specs.inner.Seven.{AsFar, row_of};

use crate::from::cells::{Cells, first_difference, same};
use crate::from::misfit::Misfit;
use fit_base::{Entries, Order};
use fit_record::{DevDef, FieldDef};
use fit_texts::cells::{byte_in, number_in};
use fit_texts::words::{optional_number, order_word};
use itoa::Buffer;

/// The first row of a definition message.
#[derive(Clone, Copy)]
pub(crate) struct DefinitionHead {
    pub local: u8,
    pub reserved: u8,
    pub order: Order,
    pub global: u16,
    /// How many fields there are.
    pub fields: u8,
    /// How many developer fields there are, where the definition has such a part.
    pub dev: Option<u8>,
}

/// A definition message of which some rows have come.
#[derive(Drop)]
pub(crate) struct OpenDefinition {
    pub head: DefinitionHead,
    pub fields: Entries<FieldDef>,
    pub dev: Entries<DevDef>,
}

/// The local message type that a cell shows, and some one where it shows none.
fn local_in(cell: &[u8]) -> u8
    ensures number { (n : ℕ) → n < 16 → decimal n ≡ cell.now → result ≡ n }
    ensures small { result < 16 }
{
    let local = byte_in(cell);
    if local < 16 { local } else { 0 }
}

/// The number of developer fields that a cell shows, where it isn't empty.
fn dev_count_in(cell: &[u8]) -> Option<u8>
    ensures { (count : Option ℕ) → IfSome count (λ n. n < 2 ^ 8) → optional_number count ≡ cell.now
        → result ≡ count }
{
    if cell.is_empty() {
        None
    } else {
        Some(byte_in(cell))
    }
}

/// The byte order that a cell names, and little endian where it names none.
fn order_in(cell: &[u8]) -> Order
    ensures { (order : Order) → order_word order ≡ cell.now → result ≡ order }
{
    if same(cell, b"big") {
        Order::Big
    } else {
        Order::Little
    }
}

/// The first row of a definition message that is as close to a row as any.
fn closest_head(cells: &Cells) -> DefinitionHead
    requires { cells.now.kind.now ≡ codes "def" }
    ensures range { HeadInRange result }
    ensures far { (other : Row) → IsHeadRow other
        → AsFar other (head_row result) (row_of cells.now) }
{
    DefinitionHead {
        local: local_in(cells.a),
        reserved: byte_in(cells.b),
        order: order_in(cells.c),
        global: number_in(cells.d),
        fields: byte_in(cells.e),
        dev: dev_count_in(cells.f),
    }
}

/// The first row of a definition message.
pub(crate) fn definition_head(cells: &Cells) -> Result<DefinitionHead, Misfit>
    requires { cells.now.kind.now ≡ codes "def" }
    ensures range { IfOk result HeadInRange }
    ensures ok { IfOk result (λ head. row_of cells.now ≡ head_row head) }
    ensures err { IfErr result (IsCellFault IsHeadRow (row_of cells.now)) }
{
    let head = closest_head(cells);
    let (mut local, mut reserved) = (Buffer::new(), Buffer::new());
    let (mut global, mut fields, mut dev) = (Buffer::new(), Buffer::new(), Buffer::new());
    let shown = Cells {
        kind: cells.kind,
        a: local.format(head.local).as_bytes(),
        b: reserved.format(head.reserved).as_bytes(),
        c: order_word(head.order).as_bytes(),
        d: global.format(head.global).as_bytes(),
        e: fields.format(head.fields).as_bytes(),
        f: optional_number(&mut dev, head.dev),
    };
    match first_difference(cells, &shown) {
        None => Ok(head),
        Some(column) => Err(Misfit::Cell(column)),
    }
}

/// Three numbers of a byte each in the cells of a row, of which the other ones are empty.
fn three_bytes(cells: &Cells) -> Result<(u8, u8, u8), Misfit>
    ensures ok { IfOk result (λ n. row_of cells.now
        ≡ row cells.now.kind.now (decimal n.0) (decimal n.1) (decimal n.2) [] [] []) }
    ensures err { IfErr result (IsCellFault (IsRowOfThree cells.now.kind.now) (row_of cells.now)) }
{
    let (a, b, c) = (byte_in(cells.a), byte_in(cells.b), byte_in(cells.c));
    let (mut a_text, mut b_text, mut c_text) = (Buffer::new(), Buffer::new(), Buffer::new());
    let shown = Cells {
        kind: cells.kind,
        a: a_text.format(a).as_bytes(),
        b: b_text.format(b).as_bytes(),
        c: c_text.format(c).as_bytes(),
        d: b"",
        e: b"",
        f: b"",
    };
    match first_difference(cells, &shown) {
        None => Ok((a, b, c)),
        Some(column) => Err(Misfit::Cell(column)),
    }
}

/// The row of a field of a definition.
pub(crate) fn field_def(cells: &Cells) -> Result<FieldDef, Misfit>
    requires { cells.now.kind.now ≡ codes "fdef" }
    ensures range { IfOk result FieldDefInRange }
    ensures ok { IfOk result (λ f. row_of cells.now ≡ field_def_row f) }
    ensures err { IfErr result (IsCellFault IsFieldDefRow (row_of cells.now)) }
{
    let (number, size, code) = three_bytes(cells)?;
    Ok(FieldDef { number, size, code })
}

/// The row of a developer field of a definition.
pub(crate) fn dev_def(cells: &Cells) -> Result<DevDef, Misfit>
    requires { cells.now.kind.now ≡ codes "ddef" }
    ensures range { IfOk result DevDefInRange }
    ensures ok { IfOk result (λ f. row_of cells.now ≡ dev_def_row f) }
    ensures err { IfErr result (IsCellFault IsDevDefRow (row_of cells.now)) }
{
    let (number, size, index) = three_bytes(cells)?;
    Ok(DevDef {
        number,
        size,
        index,
    })
}
