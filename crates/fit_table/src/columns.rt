//! Where the numbers of the table stand in the bytes of messages of a definition, found out once for many messages.
ghost use Rattle.std.specs.Prelude.{◌≡◌, ◌↔◌, ◌==◌, ◌+◌, ◌≤◌, ◌<◌, ◌^◌, ℕ, drop, length, take, false, true, IfOk, IfSome, IsTrue, List, None, OnOk};
ghost use Rattle.std.specs.List.{list_any};
ghost use Rattle.fit_base.specs.BaseTypes.{base_type, item_width};
ghost use Rattle.fit_base.specs.Numbers.{number};
ghost use Rattle.fit_record.specs.declared.definition.FieldDef.{FieldDef};
ghost use Rattle.fit_profile.specs.Values.{IsValueOf, valid_number};
ghost use Rattle.fit_table.specs.declared.kinds.Kind.TheVariants.{Other};
ghost use Rattle.fit_table.specs.inner.TableColumns.{AreColumns, ArePlaces, IsColumn, IsFirst, IsIn, IsKnown, IsPosition, IsSpot, IsSpotAt, ShowsNothing, is_position, items_at, meant_number, shown_number};
ghost use Rattle.fit_table.specs.inner.TableKinds.{IsOfKind};

use crate::kinds::Kind;
use crate::rows::{SHOWN, TABLED, USUAL};
use fit_base::base_type::SINT32;
use fit_base::{Class, Code, Order, bits_at, width_of};
use fit_cells::{NumberForm, number_form};
use fit_profile::field_number::COMPRESSED_SPEED_DISTANCE;
use fit_profile::message_number::RECORD;
use fit_profile::{Fixed, Stream, field_info, value_of};
use fit_record::{Defined, FieldDef, same_fields};
use fit_text_report::Finding;
use std::alloc::{AllocError, Global};
use std::marker::Model;

/// Where the first item of a field stands among the bytes of a message.
#[derive(Clone, Copy)]
pub(crate) struct Spot {
    /// How many bytes come before it.
    pub offset: usize,
    pub field: FieldDef,
}

impl Spot {
    /// The bits of the item in the bytes of a message. It is as wide as its base type.
    #[inline(always)]
    pub(crate) fn bits(&self, width: u8, order: Order, bytes: &[u8]) -> u64
        requires spot { IsIn self.now bytes.now }
        requires width { width ≡ (base_type self.now.field.code).width }
        ensures bits { result ≡ number order (take width (drop self.now.offset bytes.now)) }
        ensures small { result < 256 ^ width }
    {
        let (_, from) = bytes.split_at(self.offset);
        let (item, _) = from.split_at(width as usize);
        bits_at(order, width, item)
    }

    /// The number of the item in the bytes of a record message, as that of the first field of this number.
    #[cold]
    #[inline(never)]
    pub(crate) fn value(&self, number: u8, order: Order, bytes: &[u8]) -> Option<Fixed>
        requires { IsIn self.now bytes.now }
        ensures value { IsValueOf (meant_number number self.now.field
            (items_at self.now order bytes.now)) result }
        ensures few { IfSome result (λ v. v.decimals ≤ 8) }
    {
        let width = Code(self.field.code).width();
        let bits = self.bits(width, order, bytes);
        value_of(RECORD, number, self.field.code, width, bits)
    }
}

/// Where the first item of a field stands, and how it is shown.
#[derive(Clone, Copy)]
pub(crate) struct FieldPlace {
    pub spot: Spot,
    pub form: NumberForm,
    pub kind: Kind,
}

impl FieldPlace {
    /// This place with the form of a kind, which is its own.
    #[inline(always)]
    pub(crate) fn of_kind(&self, kind: Kind) -> FieldPlace
        requires known { IsOfKind self.now.kind self.now.spot.field.code self.now.form }
        requires same { self.now.kind ≡ kind }
        requires some { kind ≡ Other → ⊥ }
        ensures { result ≡ self.now }
    {
        FieldPlace {
            spot: self.spot,
            form: kind.form(),
            kind,
        }
    }
}

/// Where the number of the first field of a number stands.
#[derive(Clone, Copy)]
pub(crate) enum Column {
    At(FieldPlace),
    /// No field has the number, or the first one that has it holds none.
    Absent,
    /// The form of the items isn't known, as of numbers of eight bytes.
    Wide(Spot),
}

/// Whether the items of this base type may be numbers.
fn may_be_numbers(code: Code) -> bool
    ensures { result ≡ false → (width bits : ℕ) → valid_number code.0 width bits ≡ None }
{
    match code.class() {
        Class::Signed | Class::Unsigned => true,
        Class::Text | Class::Float | Class::Bytes => false,
    }
}

/// Whether a field has an item of its base type that may be a number.
fn may_show(field: &FieldDef) -> bool
    ensures nothing { result ≡ false → ShowsNothing field.now }
    ensures width { result ≡ true → item_width field.now.code field.now.size
        ≡ (base_type field.now.code).width }
    ensures room { result ≡ true → (base_type field.now.code).width ≤ field.now.size }
{
    let code = Code(field.code);
    if field.size == 0 || width_of(code, field.size) != code.width() {
        return false;
    }
    may_be_numbers(code)
}

/// The spot of a field after that many bytes, where it may show a number.
fn spot_at(offset: usize, field: &FieldDef) -> Option<Spot>
    ensures { IsSpotAt offset field.now result }
{
    if !may_show(field) {
        return None;
    }
    Some(Spot {
        offset,
        field: *field,
    })
}

/// The spot of the first field of this number, where it may show a number.
fn spot_of(fields: &[FieldDef], number: u8) -> Option<Spot>
    requires { length fields.now < 256 }
    ensures { IsSpot fields.now number result }
{
    let mut offset = 0;
    for field in fields {
        if field.number == number {
            return spot_at(offset, field);
        }
        offset += field.size as usize;
    }
    None
}

/// The place of a field of record messages, where the form of its items is known, as of numbers of at most four bytes.
fn place_of(spot: Spot, usual: Kind) -> Option<FieldPlace>
    ensures { IfSome result (λ p. (p.spot ≡ spot) × IsKnown p) }
{
    let code = Code(spot.field.code);
    let info = field_info(RECORD, spot.field.number)?;
    let form = number_form(code, Some(info))?;
    Some(FieldPlace {
        spot,
        form,
        kind: Kind::of(usual, spot.field.code, form),
    })
}

/// The column of a first field of record messages.
fn placed(spot: Spot, usual: Kind) -> Column
    ensures { (fields : List FieldDef) (number : ℕ) → IsFirst fields number spot
        → IsColumn fields number result }
{
    match place_of(spot, usual) {
        Some(place) => Column::At(place),
        None => Column::Wide(spot),
    }
}

/// The column of the first field of this number, whose numbers are of this kind in most recordings.
fn column_of(fields: &[FieldDef], number: u8, usual: Kind) -> Column
    requires { length fields.now < 256 }
    ensures { IsColumn fields.now number result }
{
    match spot_of(fields, number) {
        Some(spot) => placed(spot, usual),
        None => Column::Absent,
    }
}

/// The spot of the first field of this number, where it may be a position: where it is of the base type sint32.
fn position_of(fields: &[FieldDef], number: u8) -> Option<Spot>
    requires { length fields.now < 256 }
    ensures { IsPosition fields.now number result }
{
    let Some(spot) = spot_of(fields, number) else {
        return None;
    };
    if spot.field.code != SINT32 {
        return None;
    }
    Some(spot)
}

/// The columns of the fields that the table shows, but for the position.
fn columns_of(fields: &[FieldDef]) -> [Column; SHOWN]
    requires { length fields.now < 256 }
    ensures { AreColumns fields.now result }
{
    let mut columns = [Column::Absent; SHOWN];
    for place in 0..SHOWN {
        columns[place] = column_of(fields, TABLED[place], USUAL[place]);
    }
    columns
}

/// Whether one of the fields has this number.
fn have(fields: &[FieldDef], number: u8) -> bool
    ensures { result ≡ list_any (λ f. f.number == number) fields.now }
{
    fields.iter().any(|field| field.number == number)
}

/// Where the numbers of the table stand in record messages.
#[derive(Clone, Copy)]
pub(crate) struct Places {
    /// Whether a field may have a distance to accumulate.
    pub counts: bool,
    pub position_lat: Option<Spot>,
    pub position_long: Option<Spot>,
    /// Those of the fields that the table shows otherwise.
    pub columns: [Column; SHOWN],
}

impl Places {
    /// Those of record messages with these fields.
    #[tactic(auto, using(crate::proofs::TableColumnFacts::have_none))]
    fn new(fields: &[FieldDef]) -> Places
        requires { length fields.now < 256 }
        ensures { ArePlaces fields.now result }
    {
        Places {
            counts: have(fields, COMPRESSED_SPEED_DISTANCE),
            position_lat: position_of(fields, 0),
            position_long: position_of(fields, 1),
            columns: columns_of(fields),
        }
    }

    /// The spot of the position in the first field of its number.
    #[inline(always)]
    pub(crate) fn position(&self, number: u8) -> Option<Spot>
        requires { is_position number ≡ true }
        ensures { (fields : List FieldDef) → ArePlaces fields self.now
            → IsPosition fields number result }
    {
        match number {
            0 => self.position_lat,
            1 => self.position_long,
            _ => unreachable!(),
        }
    }

    /// The column of a field that the table shows, by its place among these.
    #[inline(always)]
    pub(crate) fn column(&self, field: usize) -> &Column
        requires { field < SHOWN }
        ensures { (fields : List FieldDef) → ArePlaces fields self.now
            → IsColumn fields (shown_number field) result.now }
    {
        &self.columns[field]
    }
}

/// The fields of record messages, and where the numbers of the table stand in their bytes.
#[derive(Drop)]
pub struct Columns {
    fields: Vec<FieldDef>,
    places: Places,
}

impl Model for Columns {
    ghost use Rattle.std.specs.Prelude.{List};
    ghost use Rattle.fit_record.specs.declared.definition.FieldDef.{FieldDef};
    ghost use Rattle.fit_table.specs.inner.TableColumns.{ArePlaces};

    ghost Value = { List FieldDef };

    ghost view = { λ c. c.fields.items };

    ghost invariant = { λ c. ArePlaces c.fields.items c.places };
}

impl Columns {
    /// Those of record messages with these fields.
    pub(crate) fn new(alloc: Global, fields: &[FieldDef]) -> Result<Columns, AllocError>
        requires { length fields.now < 256 }
        ensures { IfOk result (λ c. c ≡ fields.now) }
    {
        let mut own = Vec::new(alloc);
        own.extend_from_slice(fields)?;
        Ok(Columns {
            fields: own,
            places: Places::new(fields),
        })
    }

    /// Makes them those of record messages with these fields, in the memory that they have.
    pub(crate) fn renew(&mut self, fields: &[FieldDef]) -> Result<(), AllocError>
        requires { length fields.now < 256 }
        ensures { OnOk result (self.new ≡ fields.now) }
    {
        self.fields.clear();
        let extended = self.fields.extend_from_slice(fields);
        self.places = Places::new(self.fields.as_slice());
        extended
    }

    /// Whether they are those of these fields.
    pub(crate) fn are_of(&self, fields: &[FieldDef]) -> bool
        ensures { IsTrue result ↔ (self.now ≡ fields.now) }
    {
        same_fields(self.fields.as_slice(), fields)
    }

    /// The places.
    #[inline(always)]
    pub(crate) fn places(&self) -> &Places
        ensures { ArePlaces self.now result.now }
    {
        &self.places
    }
}

impl Finding for Columns {
    ghost use Rattle.fit_table.specs.inner.TableColumns.{column_fields};

    type Tools = Global;

    ghost found_of = { column_fields };

    fn find(
        found: &mut Option<Self>,
        alloc: &mut Global,
        _stream: &Stream,
        _local: u8,
        defined: &Defined,
    ) -> Result<(), AllocError> {
        let fields = defined.definition.fields.as_slice();
        let Some(columns) = found else {
            *found = Some(Columns::new(*alloc, fields)?);
            return Ok(());
        };
        if columns.are_of(fields) {
            return Ok(());
        }
        columns.renew(fields)
    }

    fn memory(&self) -> usize {
        self.fields.capacity().saturating_mul(3)
    }
}
