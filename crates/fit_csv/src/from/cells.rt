//! The cells of a row.
ghost use Rattle.std.specs.Prelude.{◌≡◌, ◌↔◌, ◌<◌, IsTrue, IfSome, IsNone, Some, length};
ghost use Rattle.csv.specs.Records.{field_at, fields_of};
ghost use Rattle.fit_csv.specs.inner.Seven.{row_of, DifferAt};

use csv::ByteRecord;
use std::alloc::Global;

/// The seven cells of a row, named as in the first line of a text.
#[derive(Clone, Copy)]
pub(crate) struct Cells<'a> {
    pub kind: &'a [u8],
    pub a: &'a [u8],
    pub b: &'a [u8],
    pub c: &'a [u8],
    pub d: &'a [u8],
    pub e: &'a [u8],
    pub f: &'a [u8],
}

/// What the values of fields are read back from their cells with.
#[derive(Drop)]
pub(crate) struct ValueReader {
    pub alloc: Global,
    /// The memory of a cell that a row may have.
    pub written: Vec<u8>,
}

impl ValueReader {
    /// No cell has been read.
    pub(crate) fn new(alloc: Global) -> ValueReader {
        ValueReader {
            alloc,
            written: Vec::new(alloc),
        }
    }
}

/// The cell at a place of a row.
fn cell_at(row: &ByteRecord, place: usize) -> &[u8]
    ensures { place < length (fields_of row.now)
        → field_at (fields_of row.now) place ≡ Some result.now }
{
    match row.get(place) {
        Some(cell) => cell,
        None => &[],
    }
}

/// The cells of a row that has seven.
pub(crate) fn cells_of(row: &ByteRecord) -> Option<Cells<'_>>
    ensures some { IfSome result (λ cells. row_of cells ≡ fields_of row.now) }
    ensures none { IsNone result → length (fields_of row.now) ≡ 7 → ⊥ }
{
    if row.len() != 7 {
        return None;
    }
    Some(Cells {
        kind: cell_at(row, 0),
        a: cell_at(row, 1),
        b: cell_at(row, 2),
        c: cell_at(row, 3),
        d: cell_at(row, 4),
        e: cell_at(row, 5),
        f: cell_at(row, 6),
    })
}

/// Whether two cells are the same.
pub(crate) fn same(a: &[u8], b: &[u8]) -> bool
    ensures { IsTrue result ↔ (a.now ≡ b.now) }
{
    a == b
}

/// The first column, counted from 1, in which two rows of one kind differ.
pub(crate) fn first_difference(row: &Cells, other: &Cells) -> Option<u64>
    requires { other.now.kind.now ≡ row.now.kind.now }
    ensures some { IfSome result (λ column. DifferAt column (row_of other.now) (row_of row.now)) }
    ensures none { IsNone result → row_of other.now ≡ row_of row.now }
{
    if !same(other.a, row.a) {
        return Some(2);
    }
    if !same(other.b, row.b) {
        return Some(3);
    }
    if !same(other.c, row.c) {
        return Some(4);
    }
    if !same(other.d, row.d) {
        return Some(5);
    }
    if !same(other.e, row.e) {
        return Some(6);
    }
    if !same(other.f, row.f) {
        return Some(7);
    }
    None
}
