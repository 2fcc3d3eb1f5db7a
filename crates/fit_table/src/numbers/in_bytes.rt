//! The numbers of record messages in their bytes, put in cells of the table.
ghost use Rattle.std.specs.Prelude.{◌≡◌, ◌≤◌, ◌<◌, ◌+◌, false, length, option_map, pos, take, true};
ghost use Rattle.std.specs.Global.{Global};
ghost use Rattle.fit_record.specs.declared.definition.MessageDef.{MessageDef};
ghost use Rattle.fit_record.specs.declared.message.Values.{Values};
ghost use Rattle.fit_profile.specs.declared.told.Told.{Told};
ghost use Rattle.fit_table.specs.Table as table;
ghost use Rattle.fit_table.specs.inner.TableCells.{AreSome, PutsCell};
ghost use Rattle.fit_table.specs.inner.TableColumns.{AreNumbers, IsIn, IsKnown, PutsValue, is_position, shown_number};

use crate::amounts::Amounts;
use crate::columns::{Column, FieldPlace, Places};
use crate::kinds::Kind;
use crate::numbers::{semicircles, write_degrees, write_number};
use crate::rows::{SHOWN, TABLED, USUAL};
use fit_base::Order;
use fit_cells::write_formed;

/// Writes the number of the field at a place in the bytes of a message, where it is valid. Returns whether it is, and
/// the place after it.
#[inline(always)]
fn write_value_at(
    row: &mut [u8],
    at: usize,
    place: &FieldPlace,
    order: Order,
    bytes: &[u8],
) -> (bool, usize)
    requires known { IsKnown place.now }
    requires spot { IsIn place.now.spot bytes.now }
    requires room { at + 48 ≤ length row.old }
    ensures size { length row.new ≡ length row.old }
    ensures within { result.1 ≤ at + 48 }
    ensures none { result.0 ≡ false → result.1 ≡ at }
    ensures cell { PutsValue place.now order bytes.now result.0
        (take at row.old) (take result.1 row.new) }
{
    let bits = place.spot.bits(place.form.width, order, bytes);
    if bits == place.form.invalid {
        return (false, at);
    }
    (true, write_formed(row, at, place.form, bits))
}

/// Writes the number at a place as `write_value_at` does, and isn't inlined.
#[inline(never)]
fn write_other_at(
    row: &mut [u8],
    at: usize,
    place: &FieldPlace,
    order: Order,
    bytes: &[u8],
) -> (bool, usize)
    requires known { IsKnown place.now }
    requires spot { IsIn place.now.spot bytes.now }
    requires room { at + 48 ≤ length row.old }
    ensures size { length row.new ≡ length row.old }
    ensures within { result.1 ≤ at + 48 }
    ensures none { result.0 ≡ false → result.1 ≡ at }
    ensures cell { PutsValue place.now order bytes.now result.0
        (take at row.old) (take result.1 row.new) }
{
    write_value_at(row, at, place, order, bytes)
}

/// Writes the number at a place. Where it is of the kind that most recordings have there, what was compiled for this kind does it.
#[inline(always)]
fn write_placed(
    row: &mut [u8],
    at: usize,
    usual: Kind,
    place: &FieldPlace,
    order: Order,
    bytes: &[u8],
) -> (bool, usize)
    requires known { IsKnown place.now }
    requires spot { IsIn place.now.spot bytes.now }
    requires room { at + 48 ≤ length row.old }
    ensures size { length row.new ≡ length row.old }
    ensures within { result.1 ≤ at + 48 }
    ensures none { result.0 ≡ false → result.1 ≡ at }
    ensures cell { PutsValue place.now order bytes.now result.0
        (take at row.old) (take result.1 row.new) }
{
    if usual != Kind::Other && place.kind == usual {
        return write_value_at(row, at, &place.of_kind(usual), order, bytes);
    }
    write_other_at(row, at, place, order, bytes)
}

/// The numbers of a record message in its bytes, and what it tells of a distance to accumulate, where it may have one.
#[derive(Drop)]
pub(crate) struct NumbersInBytes<'a> {
    pub places: &'a Places,
    pub order: Order,
    pub bytes: &'a [u8],
    pub amounts: Option<&'a Amounts>,
}

impl<'a> NumbersInBytes<'a> {
    /// Writes the number of a field that the table shows, by its place among these, into the bytes of a row from a place on.
    /// Returns whether there is one, and the place after it.
    #[inline(always)]
    pub(crate) fn write_value(&self, row: &mut [u8], at: usize, field: usize) -> (bool, usize)
        requires numbers { AreSome (AreNumbers self.now) }
        requires shown { field < SHOWN }
        requires room { at + 48 ≤ length row.old }
        ensures size { length row.new ≡ length row.old }
        ensures within { result.1 ≤ at + 48 }
        ensures none { result.0 ≡ false → result.1 ≡ at }
        ensures cell { (d : MessageDef Global) (v : Values Global) (t : Told)
            → AreNumbers self.now d v t
            → PutsCell (table.value_text d v (shown_number field))
            result.0 (take at row.old) (take result.1 row.new) }
    {
        match self.places.column(field) {
            Column::At(place) => write_placed(row, at, USUAL[field], place, self.order, self.bytes),
            Column::Absent => (false, at),
            Column::Wide(spot) => {
                write_number(row, at, spot.value(TABLED[field], self.order, self.bytes))
            }
        }
    }

    /// Writes the position in the first field of this number in the same way.
    #[inline(always)]
    pub(crate) fn write_position(&self, row: &mut [u8], at: usize, number: u8) -> (bool, usize)
        requires numbers { AreSome (AreNumbers self.now) }
        requires position { is_position number ≡ true }
        requires room { at + 48 ≤ length row.old }
        ensures size { length row.new ≡ length row.old }
        ensures within { result.1 ≤ at + 48 }
        ensures none { result.0 ≡ false → result.1 ≡ at }
        ensures cell { (d : MessageDef Global) (v : Values Global) (t : Told)
            → AreNumbers self.now d v t
            → PutsCell (table.degrees_text d v number)
            result.0 (take at row.old) (take result.1 row.new) }
    {
        match self.places.position(number) {
            Some(spot) => {
                let bits = spot.bits(4, self.order, self.bytes);
                write_degrees(row, at, semicircles(bits))
            }
            None => (false, at),
        }
    }

    /// Writes the accumulated distance in the same way.
    #[inline(always)]
    pub(crate) fn write_distance(&self, row: &mut [u8], at: usize) -> (bool, usize)
        requires numbers { AreSome (AreNumbers self.now) }
        requires room { at + 48 ≤ length row.old }
        ensures size { length row.new ≡ length row.old }
        ensures within { result.1 ≤ at + 48 }
        ensures none { result.0 ≡ false → result.1 ≡ at }
        ensures cell { (d : MessageDef Global) (v : Values Global) (t : Told)
            → AreNumbers self.now d v t
            → PutsCell (option_map (λ n. table.amount_text (pos n) 16 0) t.distance)
            result.0 (take at row.old) (take result.1 row.new) }
    {
        match self.amounts {
            Some(amounts) => write_number(row, at, amounts.distance),
            None => (false, at),
        }
    }

    /// Writes the speed in compressed_speed_distance in the same way.
    #[inline(always)]
    pub(crate) fn write_speed(&self, row: &mut [u8], at: usize) -> (bool, usize)
        requires numbers { AreSome (AreNumbers self.now) }
        requires room { at + 48 ≤ length row.old }
        ensures size { length row.new ≡ length row.old }
        ensures within { result.1 ≤ at + 48 }
        ensures none { result.0 ≡ false → result.1 ≡ at }
        ensures cell { (d : MessageDef Global) (v : Values Global) (t : Told)
            → AreNumbers self.now d v t
            → PutsCell (option_map (λ n. table.amount_text (pos n) 100 0) t.speed)
            result.0 (take at row.old) (take result.1 row.new) }
    {
        match self.amounts {
            Some(amounts) => write_number(row, at, amounts.speed),
            None => (false, at),
        }
    }
}
