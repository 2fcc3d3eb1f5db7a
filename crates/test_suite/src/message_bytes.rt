//! Data messages in their bytes.
use crate::asserts::equal;
use crate::descriptions::take;
use fit_base::base_type::{UINT8, UINT16, UINT32};
use fit_base::{Entries, Items, Order};
use fit_record::{Env, FieldDef, MessageDef, Record, Values, read_items};
use std::alloc::Global;
use std::process::Abort;
use test_known::protocol::{HEART_RATE, RECORD, TIMESTAMP};

/// Messages of local type 0 with a time and a heart rate are known.
fn define(rt: &impl Abort, alloc: Global, env: &mut Env) {
    let fields = [
        FieldDef::one(TIMESTAMP, UINT32),
        FieldDef::one(HEART_RATE, UINT8),
    ];
    let fields = Entries::from_slice(alloc, &fields).expect(rt, "memory");
    let definition = MessageDef::new(0, Order::Little, RECORD, fields);
    take(rt, env, &Record::Define(definition));
}

/// The message with this time and heart rate.
fn message(rt: &impl Abort, alloc: Global, time: u64, rate: u64) -> Values {
    let fields = [Items::one(alloc, 4, time), Items::one(alloc, 1, rate)];
    let fields = Vec::from_array(alloc, fields).expect(rt, "memory");
    Values::new(alloc, 0, Entries::from_vec(fields))
}

#[test]
fn values_of_a_message(rt: HostRuntime) {
    let mut env = Env::new(rt.alloc());
    define(&rt, rt.alloc(), &mut env);
    // The last byte is that of the record after it.
    let bytes = [0x00, 0x1F, 0xCA, 0x9A, 0x3B, 0x78, 0x40];
    let found = env.message_bytes(&bytes).expect(&rt, "a message");
    equal(
        &rt,
        &(found.local, found.offset, found.body.len()),
        &(0, None, 5),
    );
    let values = found.values(rt.alloc()).expect(&rt, "memory");
    equal(&rt, &values, &message(&rt, rt.alloc(), 1_000_000_031, 120));
    assert!(rt; env.message_bytes(&bytes[..5]).is_none());
}

/// Asserts the items of a field of two numbers in this order.
fn has_items(rt: &impl Abort, alloc: Global, order: Order, numbers: &[u64]) {
    let bytes = [0x01, 0x02, 0x03, 0x04];
    let found = read_items(alloc, order, UINT16, 4, &bytes).expect(rt, "memory");
    let wanted = Items::from_slice(alloc, 2, numbers).expect(rt, "memory");
    equal(rt, &found, &wanted);
}

#[test]
fn items_of_a_field(rt: HostRuntime) {
    has_items(&rt, rt.alloc(), Order::Big, &[0x0102, 0x0304]);
    has_items(&rt, rt.alloc(), Order::Little, &[0x0201, 0x0403]);
}
