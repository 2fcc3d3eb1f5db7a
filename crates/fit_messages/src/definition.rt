//! The blocks of definitions.
ghost use Rattle.std.specs.Prelude.{◌≡◌, ◌≤◌, ◌<◌, ◌+◌, ◌*◌, ◌++◌, [], if◌then◌else◌, IfOk, OnOk, Some, length, map, option_map, sum_by, unwrap_or, zip};
ghost use Rattle.fit_numbers.specs.Scaled.{IsScale};
ghost use Rattle.fit_profile.specs.Described.{namings_at};
ghost use Rattle.fit_profile.specs.Looks.{known};
ghost use Rattle.fit_record.specs.Environment.{defined_at, dev_defs};
ghost use Rattle.fit_record.specs.Records.{architecture};
ghost use Rattle.fit_record.specs.Sound.{IsSound};
ghost use Rattle.fit_messages.specs.Blocks as blocks;
ghost use Rattle.fit_messages.specs.inner.Columns.{dev_columns, said};

use crate::bytes::{BlockFront, EventPlace, put_front, put_number, put_sized, put_text};
use fit_base::{Class, Code, Entries, Order, width_of};
use fit_profile::{Stream, decimals_of, field_info, message_name};
use fit_record::{Defined, DevDef, FieldDef, MessageDef};
use std::alloc::{AllocError, Global};

/// A field as the block of a definition has it.
#[derive(Clone, Copy)]
pub(crate) struct Column<'a> {
    pub number: u8,
    /// 1 for a developer field, else 0.
    pub developer: u8,
    /// The developer data index.
    pub index: u8,
    pub code: u8,
    pub size: u8,
    pub name: &'a str,
    pub unit: &'a str,
    pub scale: u32,
    pub offset: u32,
}

/// What a class is called in a block.
fn number_of(class: Class) -> u8
    ensures { result ≡ blocks.kind_of_class class }
{
    match class {
        Class::Unsigned => 0,
        Class::Signed => 1,
        Class::Float => 2,
        Class::Text => 3,
        Class::Bytes => 4,
    }
}

/// What the items of a field stand for.
fn value_kind(code: u8, size: u8) -> u8
    ensures { result ≡ blocks.value_kind code size }
{
    if width_of(Code(code), size) == Code(code).width() {
        return number_of(Code(code).class());
    }
    4
}

/// The same field, with scale and offset only where its items are whole numbers: others stand for themselves.
fn scaled(column: Column<'_>) -> Column<'_>
    requires { IsScale column.scale }
    ensures same { said result ≡ record (said column.entry) {
      meaning = blocks.meaning_by_kind
          (blocks.value_kind column.entry.code column.entry.size) (said column.entry).meaning;
    } }
    ensures scale { IsScale result.scale }
{
    if value_kind(column.code, column.size) < 2 {
        return column;
    }
    Column {
        scale: 1,
        offset: 0,
        ..column
    }
}

/// A field of messages of this global number.
fn field_column(global: u16, field: &FieldDef) -> Column<'static>
    ensures same { said result ≡ blocks.column global field.now }
    ensures scale { IsScale result.scale }
{
    let (name, unit, scale, offset) = match field_info(global, field.number) {
        Some(info) => (info.name, info.unit, info.scale, info.offset),
        None => ("", "", 1, 0),
    };
    scaled(Column {
        number: field.number,
        developer: 0,
        index: 0,
        code: field.code,
        size: field.size,
        name,
        unit,
        scale,
        offset,
    })
}

/// A text, or an empty one where there is none.
fn or_empty(text: Option<&str>) -> &str
    ensures { result.now ≡ unwrap_or (option_map (λ s. s.now) text.entry) [] }
{
    match text {
        Some(text) => text,
        None => "",
    }
}

/// A developer field of this base type code, name and unit.
fn dev_column<'a>(
    field: &DevDef,
    code: u8,
    name: Option<&'a str>,
    unit: Option<&'a str>,
) -> Column<'a>
    ensures same { said result ≡ blocks.dev_column field.now code (record {
      name = option_map (λ s. s.now) name.entry;
      unit = option_map (λ s. s.now) unit.entry;
    }) }
    ensures scale { result.scale ≡ 1 }
{
    Column {
        number: field.number,
        developer: 1,
        index: field.index,
        code,
        size: field.size,
        name: or_empty(name),
        unit: or_empty(unit),
        scale: 1,
        offset: 0,
    }
}

/// A size, and what it lacks to a multiple of 8.
fn whole(size: u8) -> u64
    ensures sum { result ≡ blocks.whole size }
    ensures small { result ≤ 256 }
{
    let size = u64::from(size);
    size + (8 - size % 8) % 8
}

/// Puts the name and the unit of a field. Returns how long the name is.
fn put_texts(texts: &mut Vec<u8>, column: Column<'_>) -> Result<usize, AllocError>
    requires { texts.old.items ≡ [] }
    ensures texts { IfOk result (λ _. texts.new.items
        ≡ blocks.text column.entry.name.now ++ blocks.text column.entry.unit.now) }
    ensures unit { IfOk result (λ n. n ≡ length (blocks.text column.entry.name.now)) }
{
    put_text(texts, column.name)?;
    let unit = texts.len();
    put_text(texts, column.unit)?;
    Ok(unit)
}

/// Puts where the items of a field begin, its scale and its offset, and the item that stands for no value.
fn put_scale(bytes: &mut Vec<u8>, at: u64, column: Column<'_>) -> Result<(), AllocError>
    ensures { OnOk result (bytes.new.items
        ≡ bytes.old.items ++ blocks.scale_bytes at (said column.entry)) }
{
    put_number(bytes, 4, at)?;
    put_number(bytes, 4, u64::from(column.scale))?;
    put_number(bytes, 4, u64::from(column.offset))?;
    put_number(bytes, 8, Code(column.code).invalid())
}

/// Puts the entry of a field whose items begin at this place of a message's block. `texts` lends its memory.
fn put_entry(
    bytes: &mut Vec<u8>,
    texts: &mut Vec<u8>,
    at: u64,
    column: Column<'_>,
) -> Result<(), AllocError>
    requires { IsScale column.scale }
    ensures { OnOk result (bytes.new.items
        ≡ bytes.old.items ++ blocks.entry at (said column.entry)) }
{
    texts.clear();
    let unit = put_texts(texts, column)?;
    put_number(bytes, 2, 32 + texts.len() as u64)?;
    put_number(bytes, 2, 32 + unit as u64)?;
    put_kind(bytes, column)?;
    put_scale(bytes, at, column)?;
    bytes.extend_from_slice(texts.as_slice())
}

/// Puts the eight bytes of an entry that say what its items are.
fn put_kind(bytes: &mut Vec<u8>, column: Column<'_>) -> Result<(), AllocError>
    requires { IsScale column.scale }
    ensures { OnOk result (bytes.new.items
        ≡ bytes.old.items ++ blocks.kind_bytes (said column.entry)) }
{
    let width = width_of(Code(column.code), column.size);
    let kind = [
        column.number,
        column.developer,
        column.index,
        column.code,
        value_kind(column.code, column.size),
        width,
        column.size / width,
        decimals_of(column.scale),
    ];
    bytes.extend_from_slice(kind.as_slice())
}

/// Puts the entries of fields, of which the items of the first begin at this place. Returns where those of the last end.
fn put_fields(
    bytes: &mut Vec<u8>,
    texts: &mut Vec<u8>,
    at: u64,
    global: u16,
    fields: &[FieldDef],
) -> Result<u64, AllocError>
    requires at { at ≤ 72 }
    requires few { length fields.now < 256 }
    ensures small { IfOk result (λ end. end ≤ 72 + 256 * 256) }
    ensures end { IfOk result (λ end. end
        ≡ at + sum_by (λ f. blocks.whole f.size) fields.now) }
    ensures entries { IfOk result (λ _. bytes.new.items
        ≡ bytes.old.items ++ blocks.entries at (map (blocks.column global) fields.now)) }
{
    let mut end = at;
    for field in fields {
        put_entry(bytes, texts, end, field_column(global, field))?;
        end += whole(field.size);
    }
    Ok(end)
}

/// Puts the entries of the developer fields of this local message type, by their base type codes.
fn put_devs(
    bytes: &mut Vec<u8>,
    texts: &mut Vec<u8>,
    at: u64,
    stream: &Stream,
    local: u8,
    fields: &[DevDef],
    dev_codes: &[u8],
) -> Result<u64, AllocError>
    requires at { at ≤ 72 + 256 * 256 }
    requires few { length fields.now < 256 }
    requires codes { length dev_codes.now ≡ length fields.now }
    requires namings { length (namings_at stream.now local) ≡ length fields.now }
    ensures end { IfOk result (λ end. end
        ≡ at + sum_by (λ f. blocks.whole f.size) fields.now) }
    ensures entries { IfOk result (λ _. bytes.new.items ≡ bytes.old.items ++ blocks.entries at
        (dev_columns fields.now dev_codes.now (namings_at stream.now local))) }
{
    let mut end = at;
    for (place, field) in fields.iter().enumerate() {
        let (name, unit) = stream.dev_texts(local, place as u8);
        let column = dev_column(field, dev_codes[place], name, unit);
        put_entry(bytes, texts, end, column)?;
        end += whole(field.size);
    }
    Ok(end)
}

/// The developer fields of a definition, none where it has no such part.
fn dev_slice(dev: &Option<Entries<DevDef>>) -> &[DevDef]
    ensures { result.now ≡ dev_defs dev.now }
{
    match dev {
        Some(fields) => fields.as_slice(),
        None => &[],
    }
}

/// Where the items of messages begin in their blocks, by whether they may tell speed, distance, cycles and power.
fn items_begin(counts: bool) -> u64
    ensures place { result ≡ 40 + (if counts then 32 else 0) }
    ensures small { result ≤ 72 }
{
    if counts { 72 } else { 40 }
}

/// What a byte order is called in a block.
fn architecture(order: Order) -> u8
    ensures { result ≡ architecture order }
{
    match order {
        Order::Little => 0,
        Order::Big => 1,
    }
}

/// Puts what stands before the entries of a definition, whose messages have blocks of this length.
fn put_head(
    bytes: &mut Vec<u8>,
    definition: &MessageDef,
    counts: bool,
    place: EventPlace,
    number: u64,
    length: u64,
) -> Result<(), AllocError>
    requires counts { counts ≡ blocks.counts definition.now }
    requires length { length ≡ blocks.message_length definition.now }
    ensures { OnOk result (bytes.new.items
        ≡ bytes.old.items
        ++ blocks.definition_opening place.file place.place number definition.now) }
{
    put_front(
        bytes,
        BlockFront {
            kind: 2,
            a: definition.local,
            b: architecture(definition.order),
            c: definition.reserved,
            file: place.file,
            n: length,
            place: place.place,
        },
    )?;
    put_counts(bytes, definition, counts, number)?;
    put_text(bytes, message_name(definition.global).unwrap_or(""))
}

/// Puts which definition of all it is, of which message, and how many fields it has.
fn put_counts(
    bytes: &mut Vec<u8>,
    definition: &MessageDef,
    counts: bool,
    number: u64,
) -> Result<(), AllocError>
    requires { counts ≡ blocks.counts definition.now }
    ensures { OnOk result (bytes.new.items
        ≡ bytes.old.items ++ blocks.counts_bytes number definition.now) }
{
    put_number(bytes, 8, number)?;
    put_number(bytes, 2, u64::from(definition.global))?;
    put_number(bytes, 2, definition.fields.len() as u64)?;
    put_number(bytes, 2, dev_slice(&definition.dev).len() as u64)?;
    put_number(bytes, 2, parts(definition, counts))
}

/// Which parts the messages of a definition have besides their fields.
fn parts(definition: &MessageDef, counts: bool) -> u64
    requires { counts ≡ blocks.counts definition.now }
    ensures { result ≡ blocks.flag 1 definition.now.dev
        + (if blocks.counts definition.now then 2 else 0) }
{
    let dev = if definition.dev.is_some() { 1 } else { 0 };
    let told = if counts { 2 } else { 0 };
    dev + told
}

/// Puts the block of a definition of a stream, which is this one of all.
pub(crate) fn put_definition(
    text: &mut Vec<u8>,
    alloc: Global,
    stream: &Stream,
    defined: &Defined,
    place: EventPlace,
    number: u64,
) -> Result<(), AllocError>
    requires place { defined_at (known stream.now) defined.now.definition.local
        ≡ Some defined.now }
    requires sound { IsSound defined.now }
    ensures { OnOk result (text.new.items ≡ text.old.items
        ++ blocks.definition_block place.file place.place number defined.now
        (namings_at stream.now defined.now.definition.local)) }
{
    let definition = &defined.definition;
    let local = definition.local;
    let counts = stream.may_count(local);
    let start = items_begin(counts);
    let mut texts = Vec::new(alloc);
    let mut entries = Vec::new(alloc);
    let fields = definition.fields.as_slice();
    let middle = put_fields(&mut entries, &mut texts, start, definition.global, fields)?;
    let dev = dev_slice(&definition.dev);
    let codes = defined.dev_codes.as_slice();
    let end = put_devs(&mut entries, &mut texts, middle, stream, local, dev, codes)?;
    let mut rest = Vec::new(alloc);
    put_head(&mut rest, definition, counts, place, number, end)?;
    rest.extend_from_slice(entries.as_slice())?;
    put_sized(text, rest.as_slice())
}
