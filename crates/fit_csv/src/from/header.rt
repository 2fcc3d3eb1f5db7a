//! The rows in which files begin and end.
ghost use Rattle.std.specs.Prelude.{◌≡◌, ◌≤◌, ◌<◌, ◌-◌, ◌^◌, ℕ, List, All, codes, decimal, IfErr, IfOk, IfSome, IsNone, OnOk, length};
ghost use Rattle.fit_frame.specs.declared.header.HeaderSum.{HeaderSum};
ghost use Rattle.fit_rows.specs.ChainRows.{end_row, file_row};
ghost use Rattle.fit_texts.specs.Words as words;
ghost use Rattle.fit_csv.specs.Judged.{HeaderInRange};
ghost use Rattle.fit_csv.specs.inner.Misfits.{HasSum, IsHeaderSize, IsCellFault};
ghost use Rattle.fit_csv.specs.RowKinds.{IsEndRow, IsFileRow};
ghost use Rattle.fit_cells.specs.Rows.{Row};
ghost use Rattle.fit_csv.specs.inner.Seven.{AsFar, DifferAt, row_of};

use crate::from::cells::{Cells, first_difference, same};
use crate::from::misfit::Misfit;
use arrayvec::ArrayVec;
use fit_cells::read_bytes;
use fit_frame::{Header, HeaderSum};
use fit_texts::cells::{byte_in, number_in};
use fit_texts::words::{put_rest, sum_word};
use itoa::Buffer;
use std::alloc::{AllocError, Global};

/// The size of a header that a cell shows, and some one where it shows none.
fn size_in(cell: &[u8]) -> u8
    ensures size { IsHeaderSize result }
    ensures every { (n : ℕ) → IsHeaderSize n → decimal n ≡ cell.now → result ≡ n }
{
    let size = byte_in(cell);
    if size < 14 { 12 } else { size }
}

/// The protocol version that a cell shows, and some one where it shows none.
fn protocol_in(cell: &[u8]) -> u8
    ensures small { result < 48 }
    ensures every { (n : ℕ) → n < 48 → decimal n ≡ cell.now → result ≡ n }
{
    let protocol = byte_in(cell);
    if protocol < 48 { protocol } else { 0 }
}

/// The word of a sum that a cell shows, where the header has this size, and some one where it shows
/// none.
fn sum_in(cell: &[u8], size: u8) -> HeaderSum
    requires { IsHeaderSize size }
    ensures size { HasSum size result }
    ensures every { (sum : HeaderSum) → HasSum size sum → words.sum_word sum ≡ cell.now
        → result ≡ sum }
{
    if size == 12 {
        HeaderSum::Absent
    } else if same(cell, b"zero") {
        HeaderSum::Zero
    } else {
        HeaderSum::True
    }
}

/// Numbers of a byte each as bytes.
fn bytes_of(numbers: &[u64]) -> ArrayVec<u8, 241>
    requires room { length numbers.now ≤ 241 }
    requires small { All (λ b. b < 2 ^ 8) numbers.now }
    ensures { result.items ≡ numbers.now }
{
    let mut bytes = ArrayVec::new();
    for number in numbers {
        bytes.push(*number as u8);
    }
    bytes
}

/// The bytes from place 14 on that a cell shows, where the header has this size, and some ones where
/// it shows none.
fn rest_in(alloc: Global, cell: &[u8], size: u8) -> Result<ArrayVec<u8, 241>, AllocError>
    ensures size { IfOk result (λ rest. length rest.items ≡ size - 14) }
    ensures small { IfOk result (λ rest. All (λ b. b < 2 ^ 8) rest.items) }
    ensures every { IfOk result (λ rest. (bytes : List ℕ) → length bytes ≡ size - 14
        → All (λ b. b < 2 ^ 8) bytes → words.rest_text bytes ≡ cell.now → rest.items ≡ bytes) }
{
    let bytes = read_bytes(alloc, size.saturating_sub(14), cell)?;
    Ok(bytes_of(bytes.as_slice()))
}

/// The header whose row is as close to a row as any.
fn closest_header(alloc: Global, cells: &Cells) -> Result<Header, AllocError>
    requires { cells.now.kind.now ≡ codes "file" }
    ensures range { IfOk result HeaderInRange }
    ensures far { IfOk result (λ h. (other : Row) → IsFileRow other
        → AsFar other (file_row h) (row_of cells.now)) }
{
    let size = size_in(cells.a);
    let rest = rest_in(alloc, cells.e, size)?;
    Ok(Header {
        size,
        protocol: protocol_in(cells.b),
        profile: number_in(cells.c),
        sum: sum_in(cells.d, size),
        rest,
    })
}

/// The first column in which the row of a header, with this cell of its further bytes, differs from
/// a row.
fn difference_by(cells: &Cells, header: &Header, rest: &[u8]) -> Option<u64>
    requires kind { cells.now.kind.now ≡ codes "file" }
    requires rest { rest.now ≡ words.rest_text header.now.rest.items }
    ensures some { IfSome result (λ column. DifferAt column (file_row header.now)
        (row_of cells.now)) }
    ensures none { IsNone result → file_row header.now ≡ row_of cells.now }
{
    let (mut size, mut protocol, mut profile) = (Buffer::new(), Buffer::new(), Buffer::new());
    let shown = Cells {
        kind: cells.kind,
        a: size.format(header.size).as_bytes(),
        b: protocol.format(header.protocol).as_bytes(),
        c: profile.format(header.profile).as_bytes(),
        d: sum_word(header.sum).as_bytes(),
        e: rest,
        f: b"",
    };
    first_difference(cells, &shown)
}

/// The first column in which the row of a header differs from a row.
fn difference(alloc: Global, cells: &Cells, header: &Header) -> Result<Option<u64>, AllocError>
    requires { cells.now.kind.now ≡ codes "file" }
    ensures some { IfOk result (λ found. IfSome found
        (λ column. DifferAt column (file_row header.now) (row_of cells.now))) }
    ensures none { IfOk result (λ found. IsNone found → file_row header.now ≡ row_of cells.now) }
{
    let mut rest = Vec::new(alloc);
    put_rest(&mut rest, header.rest.as_slice())?;
    Ok(difference_by(cells, header, rest.as_slice()))
}

/// The row in which a file begins.
pub(crate) fn file_header(alloc: Global, cells: &Cells) -> Result<Header, Misfit>
    requires { cells.now.kind.now ≡ codes "file" }
    ensures range { IfOk result HeaderInRange }
    ensures ok { IfOk result (λ h. row_of cells.now ≡ file_row h) }
    ensures err { IfErr result (IsCellFault IsFileRow (row_of cells.now)) }
{
    let header = closest_header(alloc, cells)?;
    match difference(alloc, cells, &header)? {
        None => Ok(header),
        Some(column) => Err(Misfit::Cell(column)),
    }
}

/// The row in which a file ends.
pub(crate) fn file_end(cells: &Cells) -> Result<(), Misfit>
    requires { cells.now.kind.now ≡ codes "end" }
    ensures ok { OnOk result (row_of cells.now ≡ end_row) }
    ensures err { IfErr result (IsCellFault IsEndRow (row_of cells.now)) }
{
    let shown = Cells {
        kind: cells.kind,
        a: b"",
        b: b"",
        c: b"",
        d: b"",
        e: b"",
        f: b"",
    };
    match first_difference(cells, &shown) {
        None => Ok(()),
        Some(column) => Err(Misfit::Cell(column)),
    }
}
