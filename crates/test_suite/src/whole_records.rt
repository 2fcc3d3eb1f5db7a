//! Records at the front of a piece, each read by one call.
use crate::asserts::equal;
use crate::descriptions::take;
use fit_base::base_type::{UINT8, UINT16};
use fit_base::{Entries, Items, Order};
use fit_frame::Reason;
use fit_record::{Env, FieldDef, MessageDef, Record, Values};
use fit_step::{Position, Stop, read_in_place, read_message, read_whole_definition};
use std::alloc::Global;
use std::process::Abort;
use test_known::protocol::{FIELD_DESCRIPTION, HEART_RATE, POWER, RECORD};

/// A definition of twelve bytes, a message by it of four, and the first byte of another definition.
const BYTES: [u8; 17] = *b"\x40\x09\x01\0\x14\x02\x03\x01\x02\x07\x02\x84\0\x48\x01\x02\x40";

/// A heart rate of a byte, and a power of two bytes.
fn definition(rt: &impl Abort, alloc: Global, global: u16) -> Record {
    let fields = [
        FieldDef::one(HEART_RATE, UINT8),
        FieldDef::one(POWER, UINT16),
    ];
    let fields = Entries::from_slice(alloc, &fields).expect(rt, "memory");
    let mut definition = MessageDef::new(0, Order::Big, global, fields);
    definition.reserved = 9;
    Record::Define(definition)
}

/// A heart rate of 72, and a power of 258 watts.
fn message(rt: &impl Abort, alloc: Global) -> Values {
    let fields = [Items::one(alloc, 1, 72), Items::one(alloc, 2, 258)];
    let fields = Vec::from_array(alloc, fields).expect(rt, "memory");
    Values::new(alloc, 0, Entries::from_vec(fields))
}

/// What is known after such a definition.
fn known(rt: &impl Abort, alloc: Global, global: u16) -> Env {
    let mut env = Env::new(alloc);
    take(rt, &mut env, &definition(rt, alloc, global));
    env
}

/// What `read_in_place` answers where a record begins and six bytes or more are to come, and the record.
#[tactic(auto, using(fit_step::proofs::Beginnings::record_awaited))]
fn in_place(
    alloc: Global,
    env: &mut Env,
    room: u32,
    piece: &[u8],
) -> ((usize, Result<bool, Stop>), Option<Record>) {
    // The proof knows that there are sixteen places where one is asked for its length.
    let _ = env.length(0);
    let mut position = Position::new(room.max(6));
    let mut record = None;
    let answer = read_in_place(alloc, env, &mut position, &mut record, piece);
    (answer, record)
}

/// What `read_message` finds where a record begins, and the room after it.
#[tactic(auto, using(fit_step::proofs::Beginnings::record_awaited))]
fn found_message(
    rt: &impl Abort,
    alloc: Global,
    env: &Env,
    room: u32,
    piece: &[u8],
) -> (Option<(Values, usize)>, u32) {
    let _ = env.length(0);
    let mut position = Position::new(room.max(6));
    let found = read_message(alloc, env, &mut position, &None, piece).expect(rt, "memory");
    (found, position.room)
}

/// What `read_whole_definition` finds where a record begins, and the room after it.
#[tactic(auto, using(fit_step::proofs::Beginnings::record_awaited))]
fn found_definition(
    rt: &impl Abort,
    alloc: Global,
    env: &mut Env,
    room: u32,
    piece: &[u8],
) -> (Option<(Record, usize)>, u32) {
    let _ = env.length(0);
    let mut position = Position::new(room.max(6));
    let found = read_whole_definition(alloc, env, &mut position, &None, piece);
    (found.expect(rt, "memory"), position.room)
}

#[test]
fn records_in_place(rt: HostRuntime) {
    let alloc = rt.alloc();
    let mut env = Env::new(alloc);
    let (answer, record) = in_place(alloc, &mut env, 12, &BYTES);
    equal(
        &rt,
        &(answer, record),
        &((12, Ok(true)), Some(definition(&rt, alloc, RECORD))),
    );
    let (answer, record) = in_place(alloc, &mut env, 16, &BYTES[12..]);
    equal(
        &rt,
        &(answer, record),
        &((4, Ok(true)), Some(Record::Values(message(&rt, alloc)))),
    );
    let (answer, _) = in_place(alloc, &mut env, 16, &BYTES[..11]);
    equal(&rt, &answer, &(11, Ok(false)));
}

#[test]
fn refusals(rt: HostRuntime) {
    let rows = [
        (6, b"\x50".as_slice(), 0, Reason::ReservedBit),
        (6, b"\0", 0, Reason::UndefinedLocal),
        (6, b"\x60", 0, Reason::Overrun),
        (6, b"\x40\0\x02", 2, Reason::Architecture),
        (8, b"\x40\0\0\0\0\x01", 5, Reason::Overrun),
        (10, b"\x40\0\0\0\0\x01\x03\x01", 7, Reason::NoFit),
    ];
    for (room, bytes, place, reason) in rows {
        let (answer, _) = in_place(rt.alloc(), &mut Env::new(rt.alloc()), room, bytes);
        equal(&rt, &answer, &(place, Err(Stop::Refused(reason))));
    }
}

#[test]
fn whole_messages(rt: HostRuntime) {
    let alloc = rt.alloc();
    let env = known(&rt, alloc, RECORD);
    let described = known(&rt, alloc, FIELD_DESCRIPTION);
    let bytes = &BYTES[12..];
    let found = found_message(&rt, alloc, &env, 10, bytes);
    equal(&rt, &found, &(Some((message(&rt, alloc), 4)), 6));
    // In the last six bytes of the data section, cut, where another record begins, and a description of a field.
    for (env, room, bytes) in [
        (&env, 9, bytes),
        (&env, 10, &bytes[..3]),
        (&env, 99, BYTES.as_slice()),
        (&described, 10, bytes),
    ] {
        let found = found_message(&rt, alloc, env, room, bytes);
        equal(&rt, &found, &(None, room));
    }
}

#[test]
fn whole_definitions(rt: HostRuntime) {
    let alloc = rt.alloc();
    let mut env = Env::new(alloc);
    // In the last six bytes of the data section, cut, with developer fields, and where a data message begins.
    let rows = [
        (17, BYTES.as_slice()),
        (18, &BYTES[..11]),
        (18, b"\x60\0\0\0\x14\0\0"),
        (18, &BYTES[12..]),
    ];
    for (room, bytes) in rows {
        let found = found_definition(&rt, alloc, &mut env, room, bytes);
        equal(&rt, &found, &(None, room));
    }
    assert!(rt; env.definition(0).is_none());
    let found = found_definition(&rt, alloc, &mut env, 18, &BYTES);
    let wanted = definition(&rt, alloc, RECORD);
    equal(&rt, &found, &(Some((wanted, 12)), 6));
    equal(&rt, &env.length(0), &Some(3));
    // Then another one for the same local message type.
    let found = found_definition(&rt, alloc, &mut env, 18, b"\x40\0\0\0\x15\0");
    equal(&rt, &(found.1, env.length(0)), &(12, Some(0)));
}
