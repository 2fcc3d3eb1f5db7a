//! The rows of the table.
ghost use Rattle.std.specs.Prelude.{◌≡◌, ◌≤◌, ◌<◌, ◌+◌, ◌*◌, ◌/◌, ◌++◌, ◌∷◌, [], OnOk, decimal, length, option_map, pos, take, true};
ghost use Rattle.std.specs.Global.{Global};
ghost use Rattle.fit_record.specs.Faults.{or_else};
ghost use Rattle.fit_record.specs.declared.definition.MessageDef.{MessageDef};
ghost use Rattle.fit_record.specs.declared.message.Values.{Values};
ghost use Rattle.fit_profile.specs.declared.told.Told.{Told};
ghost use Rattle.fit_cells.specs.Rows.{HasRows};
ghost use Rattle.fit_texts.specs.InstantText.{instant_text};
ghost use Rattle.fit_table.specs.Table as table;
ghost use Rattle.fit_table.specs.inner.TableCells.{AddsCell, AddsCells, AreSome, EndsRow, effort_cells, place_cells};
ghost use Rattle.fit_table.specs.inner.TableColumns.{AreNumbers, is_position, shown_number};

use crate::front::{FRONT_SIZE, Firsts, RowFront, put_first};
use crate::kinds::Kind;
use crate::numbers::in_bytes::NumbersInBytes;
use fit_numbers::write_byte;
use std::alloc::{AllocError, Global};

/// The first line of the table: the names of its columns, in their order.
pub const TABLE_LINE: &[u8] =
    b"file,timestamp,position_lat,position_long,altitude,distance,speed,heart_rate,cadence,power,temperature\n";

/// How many of its cells `add_place` and `add_effort` write: all but those of the file and the time.
const PLACE_CELLS: usize = 4;

const EFFORT_CELLS: usize = 5;

/// The numbers of the fields of record messages that it shows, but for the position.
pub(crate) const TABLED: [u8; 9] = [78, 2, 5, 73, 6, 3, 4, 7, 13];

/// How many these are.
pub(crate) const SHOWN: usize = TABLED.len();

/// Each of these fields, by its place among them.
const ENHANCED_ALTITUDE: usize = 0;

const ALTITUDE: usize = 1;

const DISTANCE: usize = 2;

const ENHANCED_SPEED: usize = 3;

const SPEED: usize = 4;

const HEART_RATE: usize = 5;

const CADENCE: usize = 6;

const POWER: usize = 7;

const TEMPERATURE: usize = 8;

/// The kind of the numbers of each in most recordings.
pub(crate) const USUAL: [Kind; SHOWN] = [
    Kind::LongHeight,
    Kind::ShortHeight,
    Kind::LongHundredths,
    Kind::LongThousandths,
    Kind::ShortThousandths,
    Kind::Byte,
    Kind::Byte,
    Kind::Short,
    Kind::SignedByte,
];

/// How many bytes a cell has at most, with the comma before it.
const CELL_SIZE: usize = 49;

/// How many bytes the numbers of a row have at most, with the end of the line.
const NUMBERS_SIZE: usize = CELL_SIZE * (PLACE_CELLS + EFFORT_CELLS) + 1;

/// How many bytes a row has at most, where what it begins with is short.
const ROW_SIZE: usize = FRONT_SIZE + NUMBERS_SIZE;

/// Writes the cell of a field that the table shows, by its place among these.
#[inline(always)]
fn add_value(row: &mut [u8], at: usize, numbers: &NumbersInBytes, field: usize) -> usize
    requires numbers { AreSome (AreNumbers numbers.now) }
    requires shown { field < SHOWN }
    requires room { at + CELL_SIZE ≤ length row.old }
    ensures size { length row.new ≡ length row.old }
    ensures within { result ≤ at + CELL_SIZE }
    ensures cell { (d : MessageDef Global) (v : Values Global) (t : Told)
        → AreNumbers numbers.now d v t
        → AddsCell (table.value_text d v (shown_number field))
        (take at row.old) (take result row.new) }
{
    let at = write_byte(row, at, b',');
    numbers.write_value(row, at, field).1
}

/// Writes the cell of the position in the first field of this number.
#[inline(always)]
fn add_position(row: &mut [u8], at: usize, numbers: &NumbersInBytes, number: u8) -> usize
    requires numbers { AreSome (AreNumbers numbers.now) }
    requires position { is_position number ≡ true }
    requires room { at + CELL_SIZE ≤ length row.old }
    ensures size { length row.new ≡ length row.old }
    ensures within { result ≤ at + CELL_SIZE }
    ensures cell { (d : MessageDef Global) (v : Values Global) (t : Told)
        → AreNumbers numbers.now d v t
        → AddsCell (table.degrees_text d v number) (take at row.old) (take result row.new) }
{
    let at = write_byte(row, at, b',');
    numbers.write_position(row, at, number).1
}

/// Writes the cell of the altitude.
#[inline(always)]
fn add_altitude(row: &mut [u8], at: usize, numbers: &NumbersInBytes) -> usize
    requires numbers { AreSome (AreNumbers numbers.now) }
    requires room { at + CELL_SIZE ≤ length row.old }
    ensures size { length row.new ≡ length row.old }
    ensures within { result ≤ at + CELL_SIZE }
    ensures cell { (d : MessageDef Global) (v : Values Global) (t : Told)
        → AreNumbers numbers.now d v t
        → AddsCell (or_else (table.value_text d v 78) (table.value_text d v 2))
        (take at row.old) (take result row.new) }
{
    let at = write_byte(row, at, b',');
    let (is_enhanced, at) = numbers.write_value(row, at, ENHANCED_ALTITUDE);
    if is_enhanced {
        return at;
    }
    numbers.write_value(row, at, ALTITUDE).1
}

/// Writes the cell of the distance.
#[inline(always)]
fn add_distance(row: &mut [u8], at: usize, numbers: &NumbersInBytes) -> usize
    requires numbers { AreSome (AreNumbers numbers.now) }
    requires room { at + CELL_SIZE ≤ length row.old }
    ensures size { length row.new ≡ length row.old }
    ensures within { result ≤ at + CELL_SIZE }
    ensures cell { (d : MessageDef Global) (v : Values Global) (t : Told)
        → AreNumbers numbers.now d v t
        → AddsCell (or_else (table.value_text d v 5)
        (option_map (λ n. table.amount_text (pos n) 16 0) t.distance))
        (take at row.old) (take result row.new) }
{
    let at = write_byte(row, at, b',');
    let (is_own, at) = numbers.write_value(row, at, DISTANCE);
    if is_own {
        return at;
    }
    numbers.write_distance(row, at).1
}

/// Writes the cell of the speed.
#[inline(always)]
fn add_speed(row: &mut [u8], at: usize, numbers: &NumbersInBytes) -> usize
    requires numbers { AreSome (AreNumbers numbers.now) }
    requires room { at + CELL_SIZE ≤ length row.old }
    ensures size { length row.new ≡ length row.old }
    ensures within { result ≤ at + CELL_SIZE }
    ensures cell { (d : MessageDef Global) (v : Values Global) (t : Told)
        → AreNumbers numbers.now d v t
        → AddsCell (or_else (table.value_text d v 73) (or_else (table.value_text d v 6)
        (option_map (λ n. table.amount_text (pos n) 100 0) t.speed)))
        (take at row.old) (take result row.new) }
{
    let at = write_byte(row, at, b',');
    let (is_enhanced, at) = numbers.write_value(row, at, ENHANCED_SPEED);
    if is_enhanced {
        return at;
    }
    let (is_own, at) = numbers.write_value(row, at, SPEED);
    if is_own {
        return at;
    }
    numbers.write_speed(row, at).1
}

/// Writes the cells of the position, the altitude and the distance.
#[inline(never)]
fn add_place(row: &mut [u8], at: usize, numbers: &NumbersInBytes) -> usize
    requires numbers { AreSome (AreNumbers numbers.now) }
    requires room { at + CELL_SIZE * PLACE_CELLS ≤ length row.old }
    ensures size { length row.new ≡ length row.old }
    ensures within { result ≤ at + CELL_SIZE * PLACE_CELLS }
    ensures cells { (d : MessageDef Global) (v : Values Global) (t : Told)
        → AreNumbers numbers.now d v t
        → AddsCells (place_cells d v t) (take at row.old) (take result row.new) }
{
    let at = add_position(row, at, numbers, 0);
    let at = add_position(row, at, numbers, 1);
    let at = add_altitude(row, at, numbers);
    add_distance(row, at, numbers)
}

/// Writes the cells of the speed, the heart rate, the cadence, the power and the temperature.
#[inline(never)]
fn add_effort(row: &mut [u8], at: usize, numbers: &NumbersInBytes) -> usize
    requires numbers { AreSome (AreNumbers numbers.now) }
    requires room { at + CELL_SIZE * EFFORT_CELLS ≤ length row.old }
    ensures size { length row.new ≡ length row.old }
    ensures within { result ≤ at + CELL_SIZE * EFFORT_CELLS }
    ensures cells { (d : MessageDef Global) (v : Values Global) (t : Told)
        → AreNumbers numbers.now d v t
        → AddsCells (effort_cells d v t) (take at row.old) (take result row.new) }
{
    let at = add_speed(row, at, numbers);
    let at = add_value(row, at, numbers, HEART_RATE);
    let at = add_value(row, at, numbers, CADENCE);
    let at = add_value(row, at, numbers, POWER);
    add_value(row, at, numbers, TEMPERATURE)
}

/// Writes the numbers of a row and the end of its line into bytes from a place on. Returns the place after them.
#[inline(always)]
fn add_numbers(row: &mut [u8], at: usize, numbers: &NumbersInBytes) -> usize
    requires numbers { AreSome (AreNumbers numbers.now) }
    requires room { at + NUMBERS_SIZE ≤ length row.old }
    ensures cells { (d : MessageDef Global) (v : Values Global) (t : Told)
        → AreNumbers numbers.now d v t
        → EndsRow (place_cells d v t ++ effort_cells d v t)
        (take at row.old) (take result row.new) }
    ensures size { length row.new ≡ length row.old }
    ensures within { result ≤ at + NUMBERS_SIZE }
{
    let at = add_place(row, at, numbers);
    let at = add_effort(row, at, numbers);
    write_byte(row, at, b'\n')
}

/// Puts the first bytes of a row after a text.
#[inline(always)]
fn put_written(text: &mut Vec<u8>, row: &[u8], end: usize) -> Result<(), AllocError>
    requires { end ≤ length row.now }
    ensures { OnOk result (text.new.items ≡ text.old.items ++ take end row.now) }
{
    let (written, _) = row.split_at(end);
    text.extend_from_slice(written)
}

/// Puts the numbers of a row and the end of its line after a text, by bytes that they are written into first.
fn put_numbers(
    text: &mut Vec<u8>,
    row: &mut [u8],
    numbers: &NumbersInBytes,
) -> Result<(), AllocError>
    requires numbers { AreSome (AreNumbers numbers.now) }
    requires room { ROW_SIZE ≤ length row.old }
    ensures { OnOk result ((d : MessageDef Global) (v : Values Global) (t : Told)
        → AreNumbers numbers.now d v t
        → EndsRow (place_cells d v t ++ effort_cells d v t) text.old.items text.new.items) }
{
    let end = add_numbers(row, 0, numbers);
    put_written(text, row, end)
}

/// Puts a row of which it is known what it begins with after a text, by bytes that it is written into first.
#[inline(always)]
fn put_begun(
    text: &mut Vec<u8>,
    row: &mut [u8],
    front: &RowFront,
    time: u32,
    numbers: &NumbersInBytes,
) -> Result<(), AllocError>
    requires numbers { AreSome (AreNumbers numbers.now) }
    requires minute { time / 60 ≡ front.now.1 }
    requires room { ROW_SIZE ≤ length row.old }
    ensures { OnOk result ((d : MessageDef Global) (v : Values Global) (t : Told)
        → AreNumbers numbers.now d v t
        → EndsRow (place_cells d v t ++ effort_cells d v t)
        (text.old.items ++ (decimal front.now.0 ++ (44 ∷ instant_text time))) text.new.items) }
{
    let at = front.write(row, 0, time);
    let end = add_numbers(row, at, numbers);
    put_written(text, row, end)
}

/// What rows are put with, one after another.
#[derive(Drop)]
pub(crate) struct TableRowMaker {
    firsts: Firsts,
    /// The bytes that a row is written into. They stay as they are until the next one.
    row: [u8; ROW_SIZE],
}

impl TableRowMaker {
    /// It has put no row.
    pub(crate) fn new(alloc: Global) -> TableRowMaker {
        TableRowMaker {
            firsts: Firsts::new(alloc),
            row: [0; ROW_SIZE],
        }
    }
}

/// Puts the row of a record message of a file after a text, and finds out what the rows of its minute begin with.
#[cold]
#[inline(never)]
fn put_first_row(
    text: &mut Vec<u8>,
    maker: &mut TableRowMaker,
    file: u64,
    time: Option<u32>,
    numbers: &NumbersInBytes,
) -> Result<(), AllocError>
    requires { AreSome (AreNumbers numbers.now) }
    ensures { OnOk result ((d : MessageDef Global) (v : Values Global) (t : Told)
        → AreNumbers numbers.now d v t → time ≡ t.time
        → HasRows (table.table_row file d v t ∷ []) text.old text.new) }
{
    if time.is_some() {
        maker.firsts.renew(file, time)?;
        if let Some((front, time)) = maker.firsts.front_of(file, time) {
            return put_begun(text, &mut maker.row, front, time, numbers);
        }
    }
    put_first(text, file, time)?;
    put_numbers(text, &mut maker.row, numbers)
}

/// Puts the row of a record message of a file after a text, by its time and its numbers.
#[inline(always)]
pub(crate) fn put_row(
    text: &mut Vec<u8>,
    maker: &mut TableRowMaker,
    file: u64,
    time: Option<u32>,
    numbers: &NumbersInBytes,
) -> Result<(), AllocError>
    requires { AreSome (AreNumbers numbers.now) }
    ensures { OnOk result ((d : MessageDef Global) (v : Values Global) (t : Told)
        → AreNumbers numbers.now d v t → time ≡ t.time
        → HasRows (table.table_row file d v t ∷ []) text.old text.new) }
{
    if let Some((front, time)) = maker.firsts.front_of(file, time) {
        return put_begun(text, &mut maker.row, front, time, numbers);
    }
    put_first_row(text, maker, file, time, numbers)
}
