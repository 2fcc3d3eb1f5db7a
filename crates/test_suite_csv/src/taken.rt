//! Data messages that a stream takes in by their bytes.
ghost use Rattle.std.specs.Prelude.{IsTrue};
ghost use Rattle.std.specs.Global.{Global};
ghost use Rattle.fit_record.specs.Records.{IsRecord};
ghost use Rattle.fit_record.specs.declared.message.Record.TheVariants.{Values as Data};
ghost use Rattle.fit_record.specs.declared.message.Values.{Values};

use crate::asserts::equal;
use crate::streams::{push_definition, push_descriptions, push_dev_definition, push_distance};
use fit_base::Order;
use fit_base::base_type::{BYTE, UINT32};
use fit_profile::{Fixed, Stream, Taken};
use fit_record::{Env, FieldDef};
use std::process::Abort;
use test_known::protocol::{COMPRESSED_SPEED_DISTANCE, RECORD, TIMESTAMP};

/// Whether the bytes are a data message.
fn is_message(env: &Env, bytes: &[u8]) -> bool
    ensures { IsTrue result → (v : Values Global) × IsRecord env.now (Data v) bytes.now }
{
    match env.message_bytes(bytes) {
        Some(message) => 1 + message.body.len() == bytes.len(),
        None => false,
    }
}

/// Takes in the data message that the bytes are, and asserts what it tells: its time, and whether it may tell more.
pub(crate) fn take_telling(
    rt: &impl Abort,
    stream: &mut Stream,
    bytes: &[u8],
    time: Option<u32>,
    more: bool,
) {
    if is_message(stream.env(), bytes) {
        let message = stream.open(bytes);
        let tells = stream.tells(&message);
        equal(rt, &tells.time, &time);
        equal(rt, &tells.more, &more);
        stream.take_opened(bytes, tells).expect(rt, "memory");
        return;
    }
    assert!(rt; false);
}

#[test]
fn messages_with_a_time(rt: HostRuntime) {
    let alloc = rt.alloc();
    let fields = [FieldDef::one(TIMESTAMP, UINT32)];
    let mut stream = Stream::new(alloc);
    push_definition(&rt, alloc, &mut stream, 1, Order::Big, RECORD, &fields);
    push_definition(&rt, alloc, &mut stream, 2, Order::Big, RECORD, &[]);
    take_telling(&rt, &mut stream, &[0xC2], None, false);
    take_telling(
        &rt,
        &mut stream,
        &[0x01, 0x3B, 0x9A, 0xCA, 0x1F],
        Some(1_000_000_031),
        false,
    );
    equal(&rt, &stream.header_time(2), &Some(1_000_000_034));
    take_telling(&rt, &mut stream, &[0xC2], Some(1_000_000_034), false);
    equal(&rt, &stream.header_time(1), &Some(1_000_000_065));
}

#[test]
fn messages_that_count(rt: HostRuntime) {
    let alloc = rt.alloc();
    let fields = [FieldDef::new(COMPRESSED_SPEED_DISTANCE, 3, BYTE)];
    let mut stream = Stream::new(alloc);
    push_definition(&rt, alloc, &mut stream, 0, Order::Little, RECORD, &fields);
    take_telling(&rt, &mut stream, &[0x00, 0x64, 0, 0x10], None, true);
    // The counter has wrapped.
    push_distance(&rt, alloc, &mut stream, &[0x64, 0, 0], Some(2_560_000));
}

/// Takes in the data message that the bytes are, and returns what the stream says of it.
fn take_told(rt: &impl Abort, stream: &mut Stream, bytes: &[u8]) -> Option<Taken> {
    if is_message(stream.env(), bytes) {
        return Some(stream.take_and_tell(bytes).expect(rt, "memory"));
    }
    assert!(rt; false);
    None
}

/// Asserts the speed, in hundredths, and the accumulated distance, in units of four decimals, of the data message that the bytes are, and
/// takes it in. Those of local message type 0 may count, the others have lone fields.
fn take_amounts(
    rt: &impl Abort,
    stream: &mut Stream,
    bytes: &[u8],
    speed: Option<i128>,
    distance: Option<i128>,
) {
    if is_message(stream.env(), bytes) {
        let message = stream.open(bytes);
        let found = stream.message_amounts(&message);
        equal(
            rt,
            &found.0,
            &speed.map(|value| Fixed { value, decimals: 2 }),
        );
        equal(
            rt,
            &found.1,
            &distance.map(|value| Fixed { value, decimals: 4 }),
        );
    }
    if let Some(taken) = take_told(rt, stream, bytes) {
        let told = taken.told;
        equal(rt, &told.speed.map(|value| i128::from(value)), &speed);
        equal(
            rt,
            &told.distance.map(|value| 625 * i128::from(value)),
            &distance,
        );
        equal(rt, &taken.may_count, &(taken.local == 0));
        equal(rt, &taken.has_lone_fields, &(taken.local == 1));
    }
}

/// The lowest twelve bits are hundredths of a metre in a second, the others sixteenths of a metre.
#[test]
fn amounts_of_messages(rt: HostRuntime) {
    let alloc = rt.alloc();
    let fields = [FieldDef::new(COMPRESSED_SPEED_DISTANCE, 3, BYTE)];
    let stamped = [FieldDef::one(TIMESTAMP, UINT32)];
    let mut stream = Stream::new(alloc);
    push_definition(&rt, alloc, &mut stream, 0, Order::Big, RECORD, &fields);
    push_definition(&rt, alloc, &mut stream, 1, Order::Big, RECORD, &stamped);
    for (bytes, speed, distance) in [
        ([0x00, 0x64, 0, 0x10], Some(100), Some(160_000)),
        ([0x00, 0xFF, 0x0F, 0x10], Some(4095), Some(160_000)),
        // No value.
        ([0x00, 0xFF, 0xFF, 0xFF], None, None),
        // The counter has wrapped.
        ([0x00, 0x01, 0, 0], Some(1), Some(2_560_000)),
    ] {
        take_amounts(&rt, &mut stream, &bytes, speed, distance);
    }
    take_amounts(
        &rt,
        &mut stream,
        &[0x01, 0x3B, 0x9A, 0xCA, 0x1F],
        None,
        None,
    );
    take_amounts(
        &rt,
        &mut stream,
        &[0x00, 0, 0, 0x01],
        Some(0),
        Some(2_570_000),
    );
}

#[test]
fn a_description(rt: HostRuntime) {
    let alloc = rt.alloc();
    let mut stream = Stream::new(alloc);
    push_descriptions(&rt, alloc, &mut stream);
    take_telling(
        &rt,
        &mut stream,
        &[0x00, 0, 5, 132, 0x6D, 0x6F, 0],
        None,
        true,
    );
    push_dev_definition(&rt, alloc, &mut stream);
    equal(&rt, &stream.dev_name(1, 0), &Some("mo"));
}

#[test]
fn a_told_description(rt: HostRuntime) {
    let alloc = rt.alloc();
    let mut stream = Stream::new(alloc);
    push_descriptions(&rt, alloc, &mut stream);
    take_told(&rt, &mut stream, &[0x00, 0, 5, 132, 0x6D, 0x6F, 0]);
    push_dev_definition(&rt, alloc, &mut stream);
    equal(&rt, &stream.dev_name(1, 0), &Some("mo"));
}
