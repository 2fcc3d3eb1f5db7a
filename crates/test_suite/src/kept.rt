//! Records as their bytes, and known files that are written again from records that are kept so.
ghost use Rattle.std.specs.Prelude.{IsTrue};
ghost use Rattle.std.specs.Global.{Global};
ghost use Rattle.fit_record.specs.Records.{IsRecord};
ghost use Rattle.fit_record.specs.declared.message.Record.TheVariants.{Values as Data};
ghost use Rattle.fit_record.specs.declared.message.Values.{Values};

use crate::asserts::{equal, equal_at};
use crate::descriptions::take;
use crate::written::{both_orders, described, header};
use fit_decode::read_chain;
use fit_encode::{CutSink, EncodeFault, SpelledFiles, SpelledRecords, spell, write_spelled};
use fit_frame::HeaderSum;
use fit_record::{Env, FitFile, Record};
use std::alloc::Global;
use std::process::Abort;
use std::test::Fail;
use test_known::files;

/// The records of `orders`.
const ORDERS: [&[u8]; 4] = [
    b"\x40\0\0\x14\0\x02\xFD\x04\x86\x03\x01\x02",
    b"\0\x1F\xCA\x9A\x3B\x78",
    b"\x41\0\x01\0\x14\x02\x02\x02\x84\x08\x03\x0D",
    b"\xA2\x09\xC4\x64\0\x10",
];

/// The records of `developer`.
const DEVELOPER: [&[u8]; 7] = [
    b"\x40\0\0\xCE\0\x04\0\x01\x02\x01\x01\x02\x02\x01\x02\x03\x03\x07",
    b"\x61\0\0\x14\0\0\x01\x05\x02\0",
    b"\x01\x34\x12",
    b"\0\0\x05\x84mo\0",
    b"\x01\x34\x12",
    b"\x61\0\0\x14\0\0\x01\x05\x02\0",
    b"\x01\x34\x12",
];

/// A file of the first two records of `orders`. The checksum is that of another program.
const FIRST: [u8; 32] = *b"\x0C\x20\0\0\x12\0\0\0.FIT\
    \x40\0\0\x14\0\x02\xFD\x04\x86\x03\x01\x02\0\x1F\xCA\x9A\x3B\x78\xCC\x70";

/// One of the last two.
const SECOND: [u8; 32] = *b"\x0C\x20\0\0\x12\0\0\0.FIT\
    \x41\0\x01\0\x14\x02\x02\x02\x84\x08\x03\x0D\xA2\x09\xC4\x64\0\x10\x98\xFE";

/// Asserts the bytes of records that follow one another.
fn are_spelled(rt: &impl Abort, alloc: Global, records: &[Record], wanted: &[&[u8]]) {
    let mut env = Env::new(alloc);
    let mut bytes = Vec::new(alloc);
    for (r, spelled) in records.iter().zip(wanted) {
        if env.fits(r).is_ok() {
            spell(&mut bytes, &env, r).expect(rt, "memory");
        }
        equal(rt, &bytes.as_slice(), spelled);
        take(rt, &mut env, r);
    }
    equal(rt, &records.len(), &wanted.len());
}

#[test]
fn records_one_by_one(rt: HostRuntime) {
    let alloc = rt.alloc();
    let orders = both_orders(&rt, alloc, 120);
    are_spelled(&rt, alloc, orders.as_slice(), &ORDERS);
    let developer = described(&rt, alloc);
    are_spelled(&rt, alloc, developer.as_slice(), &DEVELOPER);
}

/// Whether the bytes are a data message.
fn is_message(env: &Env, bytes: &[u8]) -> bool
    ensures { IsTrue result → (v : Values Global) × IsRecord env.now (Data v) bytes.now }
{
    match env.message_bytes(bytes) {
        Some(message) => 1 + message.body.len() == bytes.len(),
        None => false,
    }
}

/// Keeps a definition message, and after it the data message that the bytes are.
fn keep_message(
    rt: &impl Abort,
    alloc: Global,
    definition: &Record,
    bytes: &[u8],
) -> SpelledRecords {
    let mut env = Env::new(alloc);
    let mut kept = SpelledRecords::new(alloc);
    if env.fits(definition).is_ok() {
        kept.push(&env, definition).expect(rt, "memory");
        env.learn(definition).expect(rt, "memory");
        if is_message(&env, bytes) {
            kept.push_message(&env, bytes).expect(rt, "memory");
        }
    }
    kept
}

/// Asserts the bytes of a file of a definition message and of a data message that is kept by its bytes alone.
fn write_kept(rt: &impl Abort, alloc: Global, definition: &Record, file: &[u8; 32]) {
    let mut kept = keep_message(rt, alloc, definition, &file[24..30]);
    let mut files = SpelledFiles::new(alloc);
    let header = header(12, 0, HeaderSum::Absent);
    files.push(&header, &mut kept).expect(rt, "memory");
    let mut sink = CutSink::<32>::new(32);
    equal(rt, &write_spelled(&mut sink, &files), &Ok(()));
    equal(rt, &sink.bytes(), &file.as_slice());
}

#[test]
fn messages_kept_by_their_bytes(rt: HostRuntime) {
    let alloc = rt.alloc();
    let records = both_orders(&rt, alloc, 120);
    for (place, file) in [(0, &FIRST), (2, &SECOND)] {
        let definition = records.as_slice().get(place).expect(&rt, "a definition");
        write_kept(&rt, alloc, definition, file);
    }
}

/// Keeps the records of a file.
fn keep(alloc: Global, records: &[Record]) -> Result<SpelledRecords, Fail> {
    let mut env = Env::new(alloc);
    let mut kept = SpelledRecords::new(alloc);
    for r in records {
        env.fits(r)?;
        kept.push(&env, r)?;
        env.learn(r)?;
    }
    Ok(kept)
}

#[test]
fn known_files(rt: HostRuntime) -> Result<(), Fail> {
    let alloc = rt.alloc();
    for known in files() {
        let mut source = known.bytes;
        let mut files = SpelledFiles::new(alloc);
        for file in read_chain(alloc, &mut source)? {
            let FitFile { header, records } = file;
            let mut kept = keep(alloc, records.as_slice())?;
            files.push(&header, &mut kept)?;
        }
        let mut sink = CutSink::<256>::new(256);
        let answer = write_spelled(&mut sink, &files);
        equal_at(&rt, &answer, &Ok(()), &known.name);
        equal_at(&rt, &sink.bytes(), &known.bytes, &known.name);
    }
    Ok(())
}

#[test]
fn first_fault_of_several(rt: HostRuntime) {
    let alloc = rt.alloc();
    let mut files = SpelledFiles::new(alloc);
    let mut none = SpelledRecords::new(alloc);
    let mut sink = CutSink::<64>::new(64);
    equal(&rt, &files.is_empty(), &true);
    let answer = write_spelled(&mut sink, &files);
    equal(&rt, &answer, &Err(EncodeFault::ChainLength));
    for header in [
        header(12, 0, HeaderSum::Absent),
        header(14, 46477, HeaderSum::Zero),
        header(13, 0, HeaderSum::True),
    ] {
        files.push(&header, &mut none).expect(&rt, "memory");
    }
    equal(&rt, &(files.is_empty(), files.has_room()), &(false, true));
    let answer = write_spelled(&mut sink, &files);
    equal(&rt, &answer, &Err(EncodeFault::ZeroIsSum { file: 2 }));
    equal(&rt, &sink.bytes(), &b"".as_slice());
}
