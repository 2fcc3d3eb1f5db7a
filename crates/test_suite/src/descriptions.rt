//! What is known of a developer field after its description.

use crate::asserts::{equal, equal_at};
use fit_base::base_type::{BYTE, UINT8, UINT16};
use fit_base::{Entries, Items, Order};
use fit_decode::read_one;
use fit_record::{DevDef, Env, FieldDef, MessageDef, Record, Values};
use std::alloc::Global;
use std::process::Abort;
use test_known::DEVELOPER_FIELD;
use test_known::protocol::{
    DEVELOPER_DATA_INDEX, FIELD_DEFINITION_NUMBER, FIELD_DESCRIPTION, FIT_BASE_TYPE_ID, RECORD,
};

/// A message of local type 1 with one developer field, number 5 of index 0, of two bytes.
fn definition(rt: &impl Abort, alloc: Global) -> Record {
    let dev = Entries::from_slice(alloc, &[DevDef::new(5, 2, 0)]).expect(rt, "memory");
    let definition = MessageDef::new(1, Order::Little, RECORD, Entries::new(alloc));
    Record::Define(definition.with_dev(dev))
}

/// Field descriptions of local type 0: fields 0, 1 and 2 of a byte each.
fn definition_of_descriptions(rt: &impl Abort, alloc: Global) -> Record {
    let fields = [
        FieldDef::one(DEVELOPER_DATA_INDEX, UINT8),
        FieldDef::one(FIELD_DEFINITION_NUMBER, UINT8),
        FieldDef::one(FIT_BASE_TYPE_ID, UINT8),
    ];
    let fields = Entries::from_slice(alloc, &fields).expect(rt, "memory");
    Record::Define(MessageDef::new(0, Order::Little, FIELD_DESCRIPTION, fields))
}

/// A message of lone items.
fn items(rt: &impl Abort, alloc: Global, width: u8, numbers: &[u64]) -> Entries<Items> {
    let mut all = Entries::new(alloc);
    for n in numbers {
        all.push(Items::one(alloc, width, *n)).expect(rt, "memory");
    }
    all
}

/// Developer field 5 of index 0 is a uint16.
fn description(rt: &impl Abort, alloc: Global) -> Record {
    let fields = items(rt, alloc, 1, &[0, 5, u64::from(UINT16)]);
    Record::Values(Values::new(alloc, 0, fields))
}

/// A message with the developer field as a uint16.
fn message(rt: &impl Abort, alloc: Global) -> Record {
    let message = Values::new(alloc, 1, Entries::new(alloc));
    Record::Values(message.with_dev(items(rt, alloc, 2, &[4660])))
}

/// Takes a record in where it fits.
pub fn take(rt: &impl Abort, env: &mut Env, r: &Record) {
    if env.fits(r).is_ok() {
        env.learn(r).expect(rt, "memory");
    }
}

/// What is known after the description and a definition.
fn learned(rt: &impl Abort, alloc: Global) -> Env {
    let mut env = Env::new(alloc);
    take(rt, &mut env, &definition_of_descriptions(rt, alloc));
    take(rt, &mut env, &description(rt, alloc));
    take(rt, &mut env, &definition(rt, alloc));
    env
}

#[test]
fn a_described_developer_field(rt: HostRuntime) {
    let env = learned(&rt, rt.alloc());
    equal(&rt, &env.length(1), &Some(2));
    equal(&rt, &env.dev_code(1, 0), &Some(UINT16));
    assert!(rt; env.definition(1).is_some_and(|d| d.global == RECORD));
    equal(&rt, &env.fits(&message(&rt, rt.alloc())), &Ok(3));
}

/// The code of the developer field in a known file, after each of its records: it is found where the field is defined after its
/// description.
#[test]
fn codes_in_a_file(rt: HostRuntime) {
    let file = read_one(rt.alloc(), &mut DEVELOPER_FIELD.as_slice()).expect(&rt, "a file");
    let mut env = Env::new(rt.alloc());
    for (place, record_) in file.records.as_slice().iter().enumerate() {
        take(&rt, &mut env, record_);
        let code = match place {
            0 => None,
            1..=4 => Some(BYTE),
            _ => Some(UINT16),
        };
        equal_at(&rt, &env.dev_code(1, 0), &code, &place);
        equal(
            &rt,
            &(env.dev_code(1, 1), env.dev_code(16, 0)),
            &(None, None),
        );
    }
    equal(&rt, &file.records.len(), &7);
}
