//! Files of which the bytes are known, and the faults that no clause puts at a place.
use crate::asserts::equal;
use fit_base::base_type::{BYTE, STRING, UINT8, UINT16, UINT32};
use fit_base::{Entries, Items, Order};
use fit_encode::{CutSink, EncodeFault, Encoder, write_chain, write_one};
use fit_frame::{HeadFault, Header, HeaderSum, PROTOCOL_2_0, head_bytes};
use fit_record::{DevDef, FieldDef, FitFile, MessageDef, Record, Values};
use std::alloc::Global;
use std::process::Abort;
use test_known::protocol::{
    ALTITUDE, COMPRESSED_SPEED_DISTANCE, DEVELOPER_DATA_INDEX, FIELD_DEFINITION_NUMBER,
    FIELD_DESCRIPTION, FIELD_NAME, FIT_BASE_TYPE_ID, HEART_RATE, RECORD, TIMESTAMP,
};
use test_known::{
    BOTH_ORDERS, DEVELOPER_FIELD, EMPTY, EMPTY_WITH_ZEROS, LONG, ONE_BYTE_MESSAGE, SHORT, TRUE_ZERO,
};

/// A header of protocol version 2.0.
pub fn header(size: u8, profile: u16, sum: HeaderSum) -> Header {
    let mut header = Header::new(PROTOCOL_2_0, profile);
    header.size = size;
    header.sum = sum;
    header
}

/// A definition message, little endian, of these fields. It has no developer fields.
pub fn define(
    rt: &impl Abort,
    alloc: Global,
    local: u8,
    global: u16,
    fields: &[FieldDef],
) -> MessageDef {
    let fields = Entries::from_slice(alloc, fields).expect(rt, "memory");
    MessageDef::new(local, Order::Little, global, fields)
}

/// A definition message without fields, and its data message of one byte.
fn with_message(rt: &impl Abort, alloc: Global, definition: MessageDef) -> Vec<Record> {
    let message = values(rt, alloc, 0, None, &[]);
    let records = [Record::Define(definition), message];
    Vec::from_array(alloc, records).expect(rt, "memory")
}

/// The items of fields, by their width.
pub fn fields_of(rt: &impl Abort, alloc: Global, fields: &[(u8, &[u64])]) -> Entries<Items> {
    let mut list = Entries::new(alloc);
    for (width, numbers) in fields {
        let items = Items::from_slice(alloc, *width, numbers).expect(rt, "memory");
        list.push(items).expect(rt, "memory");
    }
    list
}

/// A data message without developer fields.
fn values(
    rt: &impl Abort,
    alloc: Global,
    local: u8,
    offset: Option<u8>,
    fields: &[(u8, &[u64])],
) -> Record {
    let mut message = Values::new(alloc, local, fields_of(rt, alloc, fields));
    message.offset = offset;
    Record::Values(message)
}

/// Messages in both architectures: little endian first, and then big endian with a compressed timestamp header.
pub fn both_orders(rt: &impl Abort, alloc: Global, heart_rate: u64) -> Vec<Record> {
    let fields = [
        FieldDef::one(TIMESTAMP, UINT32),
        FieldDef::one(HEART_RATE, UINT8),
    ];
    let first = define(rt, alloc, 0, RECORD, &fields);
    let fields = [
        FieldDef::one(ALTITUDE, UINT16),
        FieldDef::new(COMPRESSED_SPEED_DISTANCE, 3, BYTE),
    ];
    let mut second = define(rt, alloc, 1, RECORD, &fields);
    second.order = Order::Big;
    let numbers: [(u8, &[u64]); 2] = [(4, &[1_000_000_031]), (1, &[heart_rate])];
    let rate = values(rt, alloc, 0, None, &numbers);
    let numbers: [(u8, &[u64]); 2] = [(2, &[2500]), (1, &[0x64, 0, 0x10])];
    let altitude = values(rt, alloc, 1, Some(2), &numbers);
    let records = [
        Record::Define(first),
        rate,
        Record::Define(second),
        altitude,
    ];
    Vec::from_array(alloc, records).expect(rt, "memory")
}

/// A definition message with developer field 5 of index 0, of two bytes.
fn define_dev(rt: &impl Abort, alloc: Global) -> Record {
    let definition = define(rt, alloc, 1, RECORD, &[]);
    let dev = Entries::from_slice(alloc, &[DevDef::new(5, 2, 0)]).expect(rt, "memory");
    Record::Define(definition.with_dev(dev))
}

/// A message that has the developer field alone.
fn dev_values(rt: &impl Abort, alloc: Global, width: u8, numbers: &[u64]) -> Record {
    let dev = fields_of(rt, alloc, &[(width, numbers)]);
    let message = Values::new(alloc, 1, Entries::new(alloc));
    Record::Values(message.with_dev(dev))
}

/// The definition message of the description: its index, its number, its base type and its name.
fn define_description(rt: &impl Abort, alloc: Global) -> Record {
    let fields = [
        FieldDef::one(DEVELOPER_DATA_INDEX, UINT8),
        FieldDef::one(FIELD_DEFINITION_NUMBER, UINT8),
        FieldDef::one(FIT_BASE_TYPE_ID, UINT8),
        FieldDef::new(FIELD_NAME, 3, STRING),
    ];
    Record::Define(define(rt, alloc, 0, FIELD_DESCRIPTION, &fields))
}

/// Developer field 5 of index 0 is a uint16 with a name of two letters.
fn describe(rt: &impl Abort, alloc: Global) -> Record {
    let code = [u64::from(UINT16)];
    let name = [0x6D, 0x6F, 0];
    let numbers: [(u8, &[u64]); 4] = [(1, &[0]), (1, &[5]), (1, &code), (1, &name)];
    values(rt, alloc, 0, None, &numbers)
}

/// The records of `developer`: a developer field before and after its description, and defined again.
pub fn described(rt: &impl Abort, alloc: Global) -> Vec<Record> {
    let records = [
        define_description(rt, alloc),
        define_dev(rt, alloc),
        dev_values(rt, alloc, 1, &[0x34, 0x12]),
        describe(rt, alloc),
        dev_values(rt, alloc, 1, &[0x34, 0x12]),
        define_dev(rt, alloc),
        dev_values(rt, alloc, 2, &[4660]),
    ];
    Vec::from_array(alloc, records).expect(rt, "memory")
}

/// A file of these.
fn file_of(header: Header, records: Vec<Record>) -> FitFile {
    FitFile {
        header,
        records: Entries::from_vec(records),
    }
}

/// Asserts what a writer returns for a file of these, and what it has put then, where the sink takes that many bytes.
fn write_file(
    rt: &impl Abort,
    alloc: Global,
    limit: usize,
    file: &FitFile,
    wanted: (Result<(), EncodeFault>, &[u8]),
) {
    let mut sink = CutSink::<70>::new(limit);
    let answer = write_one(alloc, &mut sink, file);
    equal(rt, &(answer, sink.bytes()), &wanted);
}

#[test]
fn headers_alone(rt: HostRuntime) {
    let mut longer = header(16, 0, HeaderSum::True);
    assert!(rt; longer.rest.try_extend_from_slice(b"AB").is_ok());
    let rows = [
        (header(14, 0, HeaderSum::True), EMPTY.as_slice()),
        (header(14, 0, HeaderSum::Zero), EMPTY_WITH_ZEROS.as_slice()),
        (header(12, 0, HeaderSum::Absent), SHORT.as_slice()),
        (header(14, 46477, HeaderSum::True), TRUE_ZERO.as_slice()),
        (longer, LONG.as_slice()),
    ];
    for (header, bytes) in rows {
        let file = file_of(header, Vec::new(rt.alloc()));
        write_file(&rt, rt.alloc(), 70, &file, (Ok(()), bytes));
    }
}

/// Asserts what a file of these records is written as.
fn write_records(rt: &impl Abort, alloc: Global, records: Vec<Record>, bytes: &[u8]) {
    let file = file_of(header(14, 0, HeaderSum::True), records);
    write_file(rt, alloc, 70, &file, (Ok(()), bytes));
}

#[test]
fn files_with_records(rt: HostRuntime) {
    let alloc = rt.alloc();
    write_records(&rt, alloc, both_orders(&rt, alloc, 120), &BOTH_ORDERS);
    write_records(&rt, alloc, described(&rt, alloc), &DEVELOPER_FIELD);
}

#[test]
fn a_message_of_one_byte(rt: HostRuntime) {
    let alloc = rt.alloc();
    let records = with_message(&rt, alloc, define(&rt, alloc, 0, RECORD, &[]));
    write_records(&rt, alloc, records, &ONE_BYTE_MESSAGE);
}

#[test]
fn a_reserved_byte(rt: HostRuntime) {
    let alloc = rt.alloc();
    let mut definition = define(&rt, alloc, 0, RECORD, &[]);
    definition.reserved = 7;
    let bytes = b"\x0E\x20\0\0\x07\0\0\0.FIT\xDD\x63\x40\x07\0\x14\0\0\0\x45\x83";
    write_records(&rt, alloc, with_message(&rt, alloc, definition), bytes);
}

#[test]
fn an_empty_list_of_developer_fields(rt: HostRuntime) {
    let alloc = rt.alloc();
    let definition = define(&rt, alloc, 0, RECORD, &[]).with_dev(Entries::new(alloc));
    let bytes = b"\x0E\x20\0\0\x08\0\0\0.FIT\x9D\x23\x60\0\0\x14\0\0\0\0\x36\x2B";
    write_records(&rt, alloc, with_message(&rt, alloc, definition), bytes);
}

/// A file without records, and one of two.
#[test]
fn a_chain(rt: HostRuntime) {
    let alloc = rt.alloc();
    let message = with_message(&rt, alloc, define(&rt, alloc, 0, RECORD, &[]));
    let files = [
        file_of(header(14, 0, HeaderSum::True), Vec::new(alloc)),
        file_of(header(14, 0, HeaderSum::True), message),
    ];
    let mut sink = CutSink::<39>::new(39);
    let answer = write_chain(alloc, &mut sink, &files);
    equal(&rt, &answer, &Ok(()));
    let bytes = b"\x0E\x20\0\0\0\0\0\0.FIT\x9C\x85\0\0\
                  \x0E\x20\0\0\x07\0\0\0.FIT\xDD\x63\x40\0\0\x14\0\0\0\x44\x34";
    equal(&rt, &sink.bytes(), &bytes.as_slice());
}

#[test]
fn refused_headers(rt: HostRuntime) {
    for (header, fault) in [
        (
            header(16, 0, HeaderSum::True),
            EncodeFault::BadHeader { file: 1 },
        ),
        (
            header(14, 46477, HeaderSum::Zero),
            EncodeFault::ZeroIsSum { file: 1 },
        ),
    ] {
        let file = file_of(header, Vec::new(rt.alloc()));
        write_file(&rt, rt.alloc(), 70, &file, (Err(fault), &[]));
    }
}

/// Asserts that a file of these records is refused, and that no byte of it is put.
fn refuse_records(rt: &impl Abort, alloc: Global, records: Vec<Record>, fault: EncodeFault) {
    let file = file_of(header(14, 0, HeaderSum::True), records);
    write_file(rt, alloc, 70, &file, (Err(fault), &[]));
}

#[test]
fn refused_records(rt: HostRuntime) {
    let alloc = rt.alloc();
    let message = values(&rt, alloc, 0, None, &[]);
    let undefined = Vec::from_array(alloc, [message]).expect(&rt, "memory");
    let fault = EncodeFault::UndefinedLocal { file: 1, index: 0 };
    refuse_records(&rt, alloc, undefined, fault);
    let fault = EncodeFault::WrongShape {
        file: 1,
        index: 1,
        field: 1,
    };
    refuse_records(&rt, alloc, both_orders(&rt, alloc, 256), fault);
}

#[test]
fn a_chain_of_no_files(rt: HostRuntime) {
    let mut sink = CutSink::<4>::new(4);
    let none = write_chain(rt.alloc(), &mut sink, &[]);
    equal(&rt, &none, &Err(EncodeFault::ChainLength));
    assert!(rt; sink.bytes().is_empty());
}

/// Of all profile versions one alone has a header whose checksum is 0.
#[test]
fn the_one_sum_of_zero(rt: HostRuntime) {
    let mut count = 0u32;
    for profile in 0..=u16::MAX {
        let zeros = header(14, profile, HeaderSum::Zero);
        match head_bytes(&zeros, 0) {
            Ok(bytes) => equal(&rt, &bytes.as_slice().get(12..), &Some([0, 0].as_slice())),
            Err(fault) => {
                equal(&rt, &(profile, fault), &(46477, HeadFault::ZeroIsSum));
                count = count.saturating_add(1);
            }
        }
    }
    equal(&rt, &count, &1);
}

#[test]
fn a_sink_that_fails(rt: HostRuntime) {
    let file = file_of(header(14, 0, HeaderSum::True), Vec::new(rt.alloc()));
    let failed = Err(EncodeFault::Write { written: 5 });
    let bytes = b"\x0E\x20\0\0\0".as_slice();
    write_file(&rt, rt.alloc(), 5, &file, (failed, bytes));
}

/// What an encoder returns for calls, of which one with a record puts it and one without finishes the
/// file. The sink takes that many bytes.
fn answers(
    rt: &impl Abort,
    alloc: Global,
    limit: usize,
    header: &Header,
    data_len: u32,
    calls: &[Option<&Record>],
) -> (Vec<Result<(), EncodeFault>>, CutSink<32>) {
    let mut sink = CutSink::new(limit);
    let mut encoder = Encoder::begin(alloc, &mut sink, header, data_len).expect(rt, "an encoder");
    let mut answers = Vec::new(alloc);
    for call in calls {
        let answer = match call {
            Some(r) => encoder.put(&mut sink, r),
            None => encoder.finish(&mut sink),
        };
        answers.push(answer).expect(rt, "memory");
    }
    (answers, sink)
}

#[test]
fn record_by_record(rt: HostRuntime) {
    let alloc = rt.alloc();
    let definition = Record::Define(define(&rt, alloc, 0, RECORD, &[]));
    let message = values(&rt, alloc, 0, None, &[]);
    let (put, next) = (Some(&definition), Some(&message));
    let head = header(14, 0, HeaderSum::True);
    let refused = Err(EncodeFault::DeclaredLength);
    let calls = [put, None, next, next, None, next];
    let (found, sink) = answers(&rt, alloc, 32, &head, 7, &calls);
    let wanted = [Ok(()), refused, Ok(()), refused, Ok(()), refused];
    equal(&rt, &found.as_slice(), &wanted.as_slice());
    equal(&rt, &sink.bytes(), &ONE_BYTE_MESSAGE.as_slice());
}

#[test]
fn files_without_records(rt: HostRuntime) {
    let alloc = rt.alloc();
    let message = values(&rt, alloc, 0, None, &[]);
    let refused = Err(EncodeFault::DeclaredLength);
    let undefined = Err(EncodeFault::UndefinedLocal { file: 1, index: 0 });
    for (data_len, wanted, bytes) in [
        (
            0,
            [Ok(()), refused],
            b"\x0C\x20\0\0\0\0\0\0.FIT\x65\x42".as_slice(),
        ),
        (3, [refused, undefined], b"\x0C\x20\0\0\x03\0\0\0.FIT"),
    ] {
        let head = header(12, 0, HeaderSum::Absent);
        let calls = [None, Some(&message)];
        let (found, sink) = answers(&rt, alloc, 32, &head, data_len, &calls);
        equal(&rt, &found.as_slice(), &wanted.as_slice());
        equal(&rt, &sink.bytes(), &bytes);
    }
}

#[test]
fn an_encoder_whose_sink_fails(rt: HostRuntime) {
    let alloc = rt.alloc();
    let definition = Record::Define(define(&rt, alloc, 0, RECORD, &[]));
    let put = Some(&definition);
    let head = header(14, 0, HeaderSum::True);
    let (found, sink) = answers(&rt, alloc, 16, &head, 7, &[put, put, None]);
    let failed = Err(EncodeFault::Write { written: 16 });
    equal(&rt, &found.as_slice(), &[failed, failed, failed].as_slice());
    equal(&rt, &sink.bytes(), &&ONE_BYTE_MESSAGE[..16]);
}
