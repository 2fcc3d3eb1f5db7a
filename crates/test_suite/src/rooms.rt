//! Rooms, and records that aren't whole, whose results are known from outside.
use crate::asserts::equal_at;
use crate::written;
use fit_base::base_type::BYTE;
use fit_record::{Env, FieldDef, Record, can_complete_front};
use std::alloc::Global;
use std::process::Abort;
use test_known::protocol::RECORD;

/// Takes a record in where it fits, and says whether it does.
fn learn(rt: &impl Abort, env: &mut Env, record_: &Record) -> bool {
    if env.fits(record_).is_err() {
        return false;
    }
    env.learn(record_).expect(rt, "memory");
    true
}

/// Defines data messages with that many bytes after the record header. Whether the definition fits.
fn define(rt: &impl Abort, env: &mut Env, alloc: Global, local: u8, size: u8) -> bool {
    let field = FieldDef::new(5, size, BYTE);
    let definition = Record::Define(written::define(rt, alloc, local, RECORD, &[field]));
    learn(rt, env, &definition)
}

/// Asserts which rooms can be filled.
fn fill(rt: &impl Abort, env: &Env, rooms: &[(u32, bool)]) {
    for (room, filled) in rooms {
        equal_at(rt, &env.can_fill(*room), filled, &room);
    }
}

#[test]
fn rooms(rt: HostRuntime) {
    let mut env = Env::new(rt.alloc());
    assert!(rt; define(&rt, &mut env, rt.alloc(), 0, 3));
    let one = [(0, true), (1, false), (4, true), (5, false), (6, true)];
    fill(&rt, &env, &one);
    assert!(rt; define(&rt, &mut env, rt.alloc(), 15, 2));
    fill(&rt, &env, &[(1, false), (2, false), (3, true), (5, false)]);
    // A message of four bytes leaves three of seven, which one of three bytes fills.
    assert!(rt; env.can_carry(0, 6));
    assert!(rt; !env.can_carry(0, 5));
    assert!(rt; !env.can_carry(1, 9));
}

#[test]
fn unfinished_definitions(rt: HostRuntime) {
    let env = Env::new(rt.alloc());
    // One byte would be left, and messages would have three.
    assert!(rt; !env.can_complete(0, 1, 2, 2));
    assert!(rt; env.can_complete(0, 1, 0, 2));
    // The entry of a field would overrun.
    assert!(rt; !env.can_complete(0, 3, 0, 2));
    // Three bytes would be left for messages of four, unless a developer field takes them.
    assert!(rt; !env.can_complete(0, 0, 3, 3));
    assert!(rt; env.can_complete(0, 3, 3, 3));
    assert!(rt; env.can_complete_dev(0, 0, 3, 4));
    assert!(rt; can_complete_front(false, 0, 5));
    assert!(rt; !can_complete_front(true, 0, 5));
}
