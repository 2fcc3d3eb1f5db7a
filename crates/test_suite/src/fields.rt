//! Files with described developer fields and with fields of many kinds, whose records are known value by value.

use crate::asserts::{equal, equal_at, holds_at};
use crate::descriptions::take;
use crate::reading::{Told, tell_cut};
use crate::written::fields_of;
use fit_base::base_type::{
    BYTE, FLOAT32, FLOAT64, SINT16, SINT64, STRING, UINT8, UINT16, UINT32, UINT64,
};
use fit_base::{Entries, Order};
use fit_record::{DevDef, Env, FieldDef, MessageDef, Record, Values};
use std::alloc::Global;
use std::process::Abort;
use test_known::Known;
use test_known::fields::{kinds, two_fields};
use test_known::protocol::{
    COMPRESSED_SPEED_DISTANCE, DEVELOPER_DATA_INDEX, FIELD_DEFINITION_NUMBER, FIELD_DESCRIPTION,
    FIELD_NAME, FIT_BASE_TYPE_ID, RECORD, TIMESTAMP, UNITS,
};

/// Fields, each of a width and its items.
type Fields<'a> = &'a [(u8, &'a [u64])];

/// A data message of these fields and developer fields.
fn message(rt: &impl Abort, alloc: Global, local: u8, fields: Fields, dev: Fields) -> Record {
    let values = Values::new(alloc, local, fields_of(rt, alloc, fields));
    Record::Values(values.with_dev(fields_of(rt, alloc, dev)))
}

/// A definition of record messages with these fields and developer fields.
fn define(
    rt: &impl Abort,
    alloc: Global,
    local: u8,
    order: Order,
    fields: &[FieldDef],
    dev: &[DevDef],
) -> Record {
    let fields = Entries::from_slice(alloc, fields).expect(rt, "memory");
    let definition = MessageDef::new(local, order, RECORD, fields);
    let dev = Entries::from_slice(alloc, dev).expect(rt, "memory");
    Record::Define(definition.with_dev(dev))
}

/// The descriptions of developer fields 0 and 1 of index 0, and their definition.
fn descriptions(rt: &impl Abort, alloc: Global) -> Vec<Record> {
    let fields = [
        FieldDef::one(DEVELOPER_DATA_INDEX, UINT8),
        FieldDef::one(FIELD_DEFINITION_NUMBER, UINT8),
        FieldDef::one(FIT_BASE_TYPE_ID, UINT8),
        FieldDef::new(FIELD_NAME, 5, STRING),
        FieldDef::new(UNITS, 2, STRING),
    ];
    let fields = Entries::from_slice(alloc, &fields).expect(rt, "memory");
    let definition = MessageDef::new(0, Order::Little, FIELD_DESCRIPTION, fields);
    let mut records = Vec::new(alloc);
    records
        .push(Record::Define(definition))
        .expect(rt, "memory");
    for (number, code, name, unit) in [
        (0, UINT16, [0x6C, 0x65, 0x66, 0x74, 0], [0x57, 0]),
        (1, FLOAT32, [0x6C, 0x65, 0x61, 0x6E, 0], [0x67, 0]),
    ] {
        let code = [u64::from(code)];
        let number = [number];
        let fields: [(u8, &[u64]); 5] = [
            (1, &[0]),
            (1, &number),
            (1, &code),
            (1, &name),
            (1, &unit),
        ];
        let description = message(rt, alloc, 0, &fields, &[]);
        records.push(description).expect(rt, "memory");
    }
    records
}

/// The records of `two_fields`.
fn records_of_two_fields(rt: &impl Abort, alloc: Global) -> Vec<Record> {
    let fields = [
        FieldDef::one(TIMESTAMP, UINT32),
        FieldDef::new(COMPRESSED_SPEED_DISTANCE, 3, BYTE),
    ];
    let left = DevDef::new(0, 2, 0);
    let lean = DevDef::new(1, 4, 0);
    let mut records = descriptions(rt, alloc);
    let big = define(rt, alloc, 1, Order::Big, &fields, &[left, lean]);
    records.push(big).expect(rt, "memory");
    for (time, distance, left, lean) in [
        (1_000_000_031, 0x10, 300, 0x3FC0_0000),
        (1_000_000_032, 0, 65_535, 0xC000_0000),
    ] {
        let fields: [(u8, &[u64]); 2] = [(4, &[time]), (1, &[0x64, 0, distance])];
        let dev: [(u8, &[u64]); 2] = [(2, &[left]), (4, &[lean])];
        let both = message(rt, alloc, 1, &fields, &dev);
        records.push(both).expect(rt, "memory");
    }
    let little = define(rt, alloc, 2, Order::Little, &[], &[lean, left]);
    records.push(little).expect(rt, "memory");
    let dev: [(u8, &[u64]); 2] = [(4, &[0x3F00_0000]), (2, &[301])];
    let last = message(rt, alloc, 2, &[], &dev);
    records.push(last).expect(rt, "memory");
    records
}

/// A definition of the fields of `kinds`, which are numbered from 1.
fn define_kinds(rt: &impl Abort, alloc: Global, local: u8, order: Order) -> Record {
    let mut fields = Entries::new(alloc);
    let mut number = 1u8;
    for (size, code) in [
        (4, FLOAT32),
        (8, FLOAT64),
        (8, FLOAT32),
        (8, UINT64),
        (8, SINT64),
        (8, UINT32),
        (16, UINT64),
        (4, SINT16),
        (4, STRING),
        (4, STRING),
        (4, STRING),
        (8, STRING),
        (2, STRING),
        (3, BYTE),
    ] {
        let field = FieldDef::new(number, size, code);
        fields.push(field).expect(rt, "memory");
        number = number.saturating_add(1);
    }
    Record::Define(MessageDef::new(local, order, 999, fields))
}

/// A message of these fields.
fn message_of_kinds(rt: &impl Abort, alloc: Global, local: u8) -> Record {
    let fields: [(u8, &[u64]); 14] = [
        (4, &[0x3FC0_0000]),
        (8, &[0xC004_0000_0000_0000]),
        (4, &[0x3F80_0000, 0xBF00_0000]),
        (8, &[9_223_372_036_854_775_809]),
        (8, &[0xFFFF_FFFF_FFFF_FFFE]),
        (4, &[4_294_967_294, 7]),
        (8, &[18_446_744_073_709_551_614, 1]),
        (2, &[0x8000, 300]),
        (1, &[0xC3, 0xA4, 0x62, 0]),
        (1, &[0x61, 0x21, 0x62, 0]),
        (1, &[0x61, 0x2C, 0x62, 0]),
        (1, &[0x73, 0x61, 0x79, 0x20, 0x22, 0x78, 0x22, 0]),
        (1, &[0, 0]),
        (1, &[0x00, 0xFF, 0x1A]),
    ];
    message(rt, alloc, local, &fields, &[])
}

/// The records of `kinds`.
fn records_of_kinds(rt: &impl Abort, alloc: Global) -> Vec<Record> {
    let records = [
        define_kinds(rt, alloc, 0, Order::Little),
        message_of_kinds(rt, alloc, 0),
        define_kinds(rt, alloc, 1, Order::Big),
        message_of_kinds(rt, alloc, 1),
    ];
    Vec::from_array(alloc, records).expect(rt, "memory")
}

#[test]
fn fed_in_pieces(rt: HostRuntime) {
    let alloc = rt.alloc();
    for (known, size, records) in [
        (two_fields(), 110, records_of_two_fields(&rt, alloc)),
        (kinds(), 276, records_of_kinds(&rt, alloc)),
    ] {
        let file = Told {
            ends: known.ends,
            size,
            records: records.as_slice(),
        };
        tell_cut(&rt, alloc, &file, known.bytes);
    }
}

/// Whether a data message with these bytes has these values.
fn has_values(rt: &impl Abort, alloc: Global, env: &Env, bytes: &[u8], values: &Values) -> bool {
    match env.message_bytes(bytes) {
        Some(found) => found.values(alloc).expect(rt, "memory") == *values,
        None => false,
    }
}

/// Takes in the records of a file. Each data message has its values by its bytes.
fn learn_each(rt: &impl Abort, alloc: Global, env: &mut Env, known: &Known, records: &[Record]) {
    let mut start = 14;
    for (end, record_) in known.ends.iter().skip(1).zip(records) {
        let bytes = known.bytes.get(start..end.0).unwrap_or_default();
        if let Record::Values(values) = record_ {
            holds_at(rt, has_values(rt, alloc, env, bytes, values), &start);
        }
        take(rt, env, record_);
        start = end.0;
    }
}

#[test]
fn learned_one_by_one(rt: HostRuntime) {
    let alloc = rt.alloc();
    let records = records_of_two_fields(&rt, alloc);
    let mut env = Env::new(alloc);
    learn_each(&rt, alloc, &mut env, &two_fields(), records.as_slice());
    for (local, place, code) in [
        (0, 0, None),
        (1, 0, Some(UINT16)),
        (1, 1, Some(FLOAT32)),
        (1, 2, None),
        (2, 0, Some(FLOAT32)),
        (2, 1, Some(UINT16)),
    ] {
        equal_at(&rt, &env.dev_code(local, place), &code, &(local, place));
    }
    let records = records_of_kinds(&rt, alloc);
    let mut env = Env::new(alloc);
    learn_each(&rt, alloc, &mut env, &kinds(), records.as_slice());
    equal(&rt, &env.length(1), &Some(89));
}
