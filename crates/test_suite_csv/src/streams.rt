//! Messages by the records before them.
use crate::asserts::{equal, equal_at};
use fit_base::base_type::{BYTE, STRING, UINT8, UINT16, UINT32};
use fit_base::{Entries, Items, Order};
use fit_profile::{Fixed, Message, Stream};
use fit_record::{DevDef, FieldDef, MessageDef, Record, Values};
use std::alloc::Global;
use std::process::Abort;
use test_known::protocol::{
    ALTITUDE, BATTERY_VOLTAGE, COMPRESSED_ACCUMULATED_POWER, COMPRESSED_SPEED_DISTANCE, CYCLES,
    DEVELOPER_DATA_INDEX, DEVICE_INFO, FIELD_DEFINITION_NUMBER, FIELD_DESCRIPTION, FIELD_NAME,
    FIT_BASE_TYPE_ID, HEART_RATE, HRV, HRV_TIME, RECORD, TIMESTAMP,
};

/// A data message of these fields, each of a width and its items.
pub(crate) fn data(
    rt: &impl Abort,
    alloc: Global,
    local: u8,
    offset: Option<u8>,
    fields: &[(u8, &[u64])],
) -> Record {
    let mut list = Entries::new(alloc);
    for (width, numbers) in fields {
        let items = Items::from_slice(alloc, *width, numbers).expect(rt, "memory");
        list.push(items).expect(rt, "memory");
    }
    let mut message = Values::new(alloc, local, list);
    message.offset = offset;
    Record::Values(message)
}

/// The message of a record that fits.
pub(crate) fn pushed<'a>(
    rt: &impl Abort,
    stream: &'a mut Stream,
    record_: &'a Record,
) -> Option<Message<'a>> {
    match stream.env().fits(record_) {
        Ok(_) => stream.push(record_).expect(rt, "memory"),
        Err(_) => None,
    }
}

/// Pushes a definition of these fields, which is no message.
pub(crate) fn push_definition(
    rt: &impl Abort,
    alloc: Global,
    stream: &mut Stream,
    local: u8,
    order: Order,
    global: u16,
    fields: &[FieldDef],
) {
    let fields = Entries::from_slice(alloc, fields).expect(rt, "memory");
    let definition = Record::Define(MessageDef::new(local, order, global, fields));
    assert!(rt; pushed(rt, stream, &definition).is_none());
}

/// Asserts the times of a record: its own, and that of its header.
fn has_times(
    rt: &impl Abort,
    stream: &mut Stream,
    record_: &Record,
    own: Option<u32>,
    of_header: Option<u32>,
) {
    let found = match pushed(rt, stream, record_) {
        Some(message) => (message.time(), message.header_time()),
        None => (None, None),
    };
    equal(rt, &found, &(own, of_header));
}

/// Asserts the time of a message with this timestamp.
fn push_time(
    rt: &impl Abort,
    alloc: Global,
    stream: &mut Stream,
    timestamp: u64,
    time: Option<u32>,
) {
    let record_ = data(rt, alloc, 0, None, &[(4, &[timestamp]), (1, &[120])]);
    has_times(rt, stream, &record_, time, None);
}

/// Asserts the time of a message whose header has the offset 2.
fn push_offset(rt: &impl Abort, alloc: Global, stream: &mut Stream, time: Option<u32>) {
    let fields: [(u8, &[u64]); 2] = [(2, &[2500]), (1, &[0x64, 0, 0x10])];
    let record_ = data(rt, alloc, 1, Some(2), &fields);
    has_times(rt, stream, &record_, time, time);
}

#[test]
fn times_of_messages(rt: HostRuntime) {
    let alloc = rt.alloc();
    let mut stream = Stream::new(alloc);
    let stamped = [
        FieldDef::one(TIMESTAMP, UINT32),
        FieldDef::one(HEART_RATE, UINT8),
    ];
    push_definition(&rt, alloc, &mut stream, 0, Order::Little, RECORD, &stamped);
    let bare = [
        FieldDef::one(ALTITUDE, UINT16),
        FieldDef::new(COMPRESSED_SPEED_DISTANCE, 3, BYTE),
    ];
    push_definition(&rt, alloc, &mut stream, 1, Order::Big, RECORD, &bare);
    push_offset(&rt, alloc, &mut stream, None);
    push_time(&rt, alloc, &mut stream, 1_000_000_031, Some(1_000_000_031));
    equal(&rt, &stream.header_time(2), &Some(1_000_000_034));
    equal(&rt, &stream.header_time(31), &Some(1_000_000_031));
    push_offset(&rt, alloc, &mut stream, Some(1_000_000_034));
    push_time(&rt, alloc, &mut stream, 4_294_967_295, None);
    push_time(&rt, alloc, &mut stream, 4_294_967_294, Some(4_294_967_294));
    equal(&rt, &stream.header_time(0), &Some(0));
}

/// A number with that many decimals.
fn decimal(value: i128, decimals: u8) -> Option<Fixed> {
    Some(Fixed { value, decimals })
}

/// Asserts the accumulated distance, in units of four decimals, and the speed of a message with this compressed speed and distance.
pub(crate) fn push_distance(
    rt: &impl Abort,
    alloc: Global,
    stream: &mut Stream,
    compressed: &[u64],
    distance: Option<i128>,
) {
    let record_ = data(rt, alloc, 0, None, &[(1, compressed)]);
    let message = pushed(rt, stream, &record_);
    let found = match message {
        Some(message) => (message.distance(), message.speed()),
        None => (None, None),
    };
    let wanted = match distance {
        Some(value) => (decimal(value, 4), decimal(100, 2)),
        None => (None, None),
    };
    equal(rt, &found, &wanted);
}

#[test]
fn accumulated_distance(rt: HostRuntime) {
    let alloc = rt.alloc();
    let fields = [FieldDef::new(COMPRESSED_SPEED_DISTANCE, 3, BYTE)];
    let mut stream = Stream::new(alloc);
    push_definition(&rt, alloc, &mut stream, 0, Order::Little, RECORD, &fields);
    for (compressed, distance) in [
        ([0x64, 0, 0x10], Some(160_000)),
        ([0x64, 0, 0x10], Some(160_000)),
        // The counter has wrapped.
        ([0x64, 0, 0], Some(2_560_000)),
        // None is counted.
        ([0xFF, 0xFF, 0xFF], None),
        ([0x64, 0, 0], Some(2_560_000)),
    ] {
        push_distance(&rt, alloc, &mut stream, &compressed, distance);
    }
    stream.begin_file();
    push_distance(&rt, alloc, &mut stream, &[0x64, 0, 0], None);
    push_definition(&rt, alloc, &mut stream, 0, Order::Little, RECORD, &fields);
    push_distance(&rt, alloc, &mut stream, &[0x64, 0, 0], Some(0));
}

/// Asserts the accumulated cycles, power and distance of a message of these fields.
fn push_totals(
    rt: &impl Abort,
    alloc: Global,
    stream: &mut Stream,
    local: u8,
    fields: &[(u8, &[u64])],
    totals: [Option<Fixed>; 3],
) {
    let record_ = data(rt, alloc, local, None, fields);
    match pushed(rt, stream, &record_) {
        Some(message) => {
            let cycles = message.total_cycles();
            let found = [cycles, message.accumulated_power(), message.distance()];
            equal(rt, &found, &totals);
        }
        None => assert!(rt; false),
    }
}

#[test]
fn accumulated_cycles_and_power(rt: HostRuntime) {
    let alloc = rt.alloc();
    let cycles = [FieldDef::one(CYCLES, UINT8)];
    let power = [FieldDef::one(COMPRESSED_ACCUMULATED_POWER, UINT16)];
    let both = [
        FieldDef::new(COMPRESSED_SPEED_DISTANCE, 3, BYTE),
        FieldDef::one(CYCLES, UINT8),
    ];
    let mut stream = Stream::new(alloc);
    push_definition(&rt, alloc, &mut stream, 0, Order::Little, RECORD, &cycles);
    push_definition(&rt, alloc, &mut stream, 1, Order::Big, RECORD, &power);
    push_definition(&rt, alloc, &mut stream, 2, Order::Big, RECORD, &both);
    for (local, width, item, totals) in [
        (0, 1, 250, [decimal(250, 0), None, None]),
        (0, 1, 5, [decimal(261, 0), None, None]),
        (0, 1, 255, [None, None, None]),
        (0, 1, 5, [decimal(261, 0), None, None]),
        (1, 2, 65000, [None, decimal(65000, 0), None]),
        (1, 2, 100, [None, decimal(65636, 0), None]),
        (1, 2, 65535, [None, None, None]),
    ] {
        push_totals(&rt, alloc, &mut stream, local, &[(width, &[item])], totals);
    }
    stream.begin_file();
    push_definition(&rt, alloc, &mut stream, 2, Order::Big, RECORD, &both);
    let fields: [(u8, &[u64]); 2] = [(1, &[0x64, 0, 0x10]), (1, &[7])];
    let totals = [decimal(7, 0), None, decimal(160_000, 4)];
    push_totals(&rt, alloc, &mut stream, 2, &fields, totals);
    stream.begin_file();
    push_definition(&rt, alloc, &mut stream, 0, Order::Little, RECORD, &cycles);
    let five = [decimal(5, 0), None, None];
    push_totals(&rt, alloc, &mut stream, 0, &[(1, &[5])], five);
}

/// Pushes a definition of field descriptions with a name of three bytes.
pub(crate) fn push_descriptions(rt: &impl Abort, alloc: Global, stream: &mut Stream) {
    let fields = [
        FieldDef::one(DEVELOPER_DATA_INDEX, UINT8),
        FieldDef::one(FIELD_DEFINITION_NUMBER, UINT8),
        FieldDef::one(FIT_BASE_TYPE_ID, UINT8),
        FieldDef::new(FIELD_NAME, 3, STRING),
    ];
    push_definition(
        rt,
        alloc,
        stream,
        0,
        Order::Little,
        FIELD_DESCRIPTION,
        &fields,
    );
}

/// Pushes a definition of record messages of local type 1 without fields and with one developer field of two bytes.
pub(crate) fn push_dev_definition(rt: &impl Abort, alloc: Global, stream: &mut Stream) {
    let dev = Entries::from_slice(alloc, &[DevDef::new(5, 2, 0)]).expect(rt, "memory");
    let definition = MessageDef::new(1, Order::Little, RECORD, Entries::new(alloc));
    let definition = Record::Define(definition.with_dev(dev));
    assert!(rt; pushed(rt, stream, &definition).is_none());
}

/// Pushes a description of the developer field as numbers of two bytes, with this name. The message has no developer field.
fn push_description(rt: &impl Abort, alloc: Global, stream: &mut Stream, name: &[u64]) {
    let code = [u64::from(UINT16)];
    let fields: [(u8, &[u64]); 4] = [(1, &[0]), (1, &[5]), (1, &code), (1, name)];
    let record_ = data(rt, alloc, 0, None, &fields);
    match pushed(rt, stream, &record_) {
        Some(message) => {
            assert!(rt; message.dev(0).is_none());
            equal(rt, &message.dev_name(0), &None);
        }
        None => assert!(rt; false),
    }
}

/// A message of local type 1 with the developer field.
fn dev_data(rt: &impl Abort, alloc: Global, width: u8, bits: &[u64]) -> Record {
    let items = Items::from_slice(alloc, width, bits).expect(rt, "memory");
    let mut dev = Entries::new(alloc);
    dev.push(items).expect(rt, "memory");
    let message = Values::new(alloc, 1, Entries::new(alloc));
    Record::Values(message.with_dev(dev))
}

/// Asserts the code and the name of the developer field of such a message.
fn push_dev(
    rt: &impl Abort,
    alloc: Global,
    stream: &mut Stream,
    width: u8,
    bits: &[u64],
    code: u8,
    name: Option<&str>,
) {
    let record_ = dev_data(rt, alloc, width, bits);
    match pushed(rt, stream, &record_) {
        Some(message) => {
            let found = message.dev(0).map(|field| field.code);
            equal(rt, &(found, message.dev_name(0)), &(Some(code), name));
        }
        None => assert!(rt; false),
    }
}

#[test]
fn described_developer_field(rt: HostRuntime) {
    let alloc = rt.alloc();
    let mut stream = Stream::new(alloc);
    push_descriptions(&rt, alloc, &mut stream);
    push_dev_definition(&rt, alloc, &mut stream);
    push_dev(&rt, alloc, &mut stream, 1, &[0x34, 0x12], BYTE, None);
    push_description(&rt, alloc, &mut stream, &[0x6D, 0x6F, 0]);
    push_dev(&rt, alloc, &mut stream, 1, &[0x34, 0x12], BYTE, None);
    equal(&rt, &stream.dev_name(1, 0), &None);
    push_dev_definition(&rt, alloc, &mut stream);
    equal(&rt, &stream.dev_name(1, 0), &Some("mo"));
    equal(&rt, &stream.dev_unit(1, 0), &None);
    push_dev(&rt, alloc, &mut stream, 2, &[4660], UINT16, Some("mo"));
}

#[test]
fn names_that_are_not_shown(rt: HostRuntime) {
    let alloc = rt.alloc();
    let mut stream = Stream::new(alloc);
    push_descriptions(&rt, alloc, &mut stream);
    // One has a line feed, the other isn't UTF-8.
    for name in [[0x6D, 0x0A, 0], [0x6D, 0xFF, 0]] {
        push_description(&rt, alloc, &mut stream, &name);
        push_dev_definition(&rt, alloc, &mut stream);
        push_dev(&rt, alloc, &mut stream, 2, &[4660], UINT16, None);
    }
}

/// Asserts the parts of a record message with an altitude and an invalid heart rate.
fn has_parts(rt: &impl Abort, message: &Message) {
    equal(rt, &message.global(), &RECORD);
    equal(rt, &message.name(), &Some("record"));
    equal(rt, &message.value(ALTITUDE), &decimal(-2, 1));
    equal(rt, &message.value(HEART_RATE), &None);
    assert!(rt; message.items(HEART_RATE).is_some());
    assert!(rt; message.items(4).is_none());
    assert!(rt; message.dev(0).is_none());
    match message.field(1) {
        Some(field) => equal(rt, &(field.number, field.code), &(HEART_RATE, UINT8)),
        None => assert!(rt; false),
    }
}

#[test]
fn parts_of_a_message(rt: HostRuntime) {
    let alloc = rt.alloc();
    let fields = [
        FieldDef::one(ALTITUDE, UINT16),
        FieldDef::one(HEART_RATE, UINT8),
    ];
    let mut stream = Stream::new(alloc);
    push_definition(&rt, alloc, &mut stream, 0, Order::Big, RECORD, &fields);
    let record_ = data(&rt, alloc, 0, None, &[(2, &[2499]), (1, &[255])]);
    match pushed(&rt, &mut stream, &record_) {
        Some(message) => has_parts(&rt, &message),
        None => assert!(rt; false),
    }
}

/// Asserts the value of a field of two bytes of a message, whose only one it is.
fn has_value(
    rt: &impl Abort,
    alloc: Global,
    global: u16,
    number: u8,
    item: u64,
    value: Option<Fixed>,
) {
    let fields = [FieldDef::one(number, UINT16)];
    let mut stream = Stream::new(alloc);
    push_definition(rt, alloc, &mut stream, 0, Order::Little, global, &fields);
    let record_ = data(rt, alloc, 0, None, &[(2, &[item])]);
    match pushed(rt, &mut stream, &record_) {
        Some(message) => equal_at(rt, &message.value(number), &value, &(global, item)),
        None => assert!(rt; false),
    }
}

/// The values of numbers of known fields, of which some are invalid.
#[test]
fn values_of_messages(rt: HostRuntime) {
    for (global, number, item, value) in [
        (RECORD, ALTITUDE, 2500, Some((0, 1))),
        (RECORD, ALTITUDE, 2499, Some((-2, 1))),
        (RECORD, ALTITUDE, 65535, None),
        (HRV, HRV_TIME, 812, Some((812, 3))),
        (HRV, HRV_TIME, 65535, None),
        (HRV, HRV_TIME, 0, Some((0, 3))),
        (DEVICE_INFO, BATTERY_VOLTAGE, 956, Some((373_437_500, 8))),
    ] {
        let value = value.map(|(value, decimals)| Fixed { value, decimals });
        has_value(&rt, rt.alloc(), global, number, item, value);
    }
}
