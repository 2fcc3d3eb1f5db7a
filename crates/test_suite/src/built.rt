//! Records that the tests are run on.

use fit_base::base_type::{UINT8, UINT16};
use fit_base::{Entries, Items, Order};
use fit_record::{DevDef, FieldDef, MessageDef, Record, Values};
use std::alloc::Allocator;
use std::process::Abort;
use test_known::protocol::{
    DEVELOPER_DATA_INDEX, EVENT, FIELD_DEFINITION_NUMBER, FIELD_DESCRIPTION, FIT_BASE_TYPE_ID,
    HEART_RATE, RECORD,
};

/// A definition message, little endian.
fn definition<A: Allocator + Copy>(
    rt: &impl Abort,
    alloc: A,
    local: u8,
    global: u16,
    fields: &[FieldDef],
    dev: &[DevDef],
) -> Record<A> {
    let fields = Entries::from_slice(alloc, fields).expect(rt, "memory");
    let dev = Entries::from_slice(alloc, dev).expect(rt, "memory");
    let definition = MessageDef::new(local, Order::Little, global, fields);
    Record::Define(definition.with_dev(dev))
}

/// A field of one byte.
fn byte(number: u8) -> FieldDef {
    FieldDef::one(number, UINT8)
}

/// Field descriptions of local type 0.
pub fn descriptions<A: Allocator + Copy>(rt: &impl Abort, alloc: A) -> Record<A> {
    let fields = [
        byte(DEVELOPER_DATA_INDEX),
        byte(FIELD_DEFINITION_NUMBER),
        byte(FIT_BASE_TYPE_ID),
    ];
    definition(rt, alloc, 0, FIELD_DESCRIPTION, &fields, &[])
}

/// Developer field 5 of index 0, of two bytes.
fn dev_field() -> DevDef {
    DevDef::new(5, 2, 0)
}

/// A message of local type 1 with one field, and a developer field. It has three bytes.
pub fn small<A: Allocator + Copy>(rt: &impl Abort, alloc: A) -> Record<A> {
    definition(rt, alloc, 1, RECORD, &[byte(HEART_RATE)], &[dev_field()])
}

/// A message of local type 1 with two fields, and two developer fields. It has six bytes.
pub fn large<A: Allocator + Copy>(rt: &impl Abort, alloc: A) -> Record<A> {
    definition(
        rt,
        alloc,
        1,
        EVENT,
        &[byte(3), byte(4)],
        &[dev_field(), dev_field()],
    )
}

/// The items of fields of one byte.
fn items<A: Allocator + Copy>(rt: &impl Abort, alloc: A, bytes: &[u8]) -> Entries<Items<A>, A> {
    let mut all = Entries::new(alloc);
    for byte in bytes {
        let item = Items::one(alloc, 1, u64::from(*byte));
        all.push(item).expect(rt, "memory");
    }
    all
}

/// Developer field 5 of index 0 is a uint16.
pub fn description<A: Allocator + Copy>(rt: &impl Abort, alloc: A) -> Record<A> {
    let fields = items(rt, alloc, &[0, 5, UINT16]);
    Record::Values(Values::new(alloc, 0, fields))
}
