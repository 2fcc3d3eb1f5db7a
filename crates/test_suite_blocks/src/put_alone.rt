//! Messages of `BOTH_ORDERS` that are put by themselves, and calls that are refused. Its blocks begin at 0, 32, 192, 248, 424 and 512: a
//! header, a definition and a message of 1000000031, a definition and a message of 1000000034 by its time offset, and the end.
use crate::asserts::{equal, equal_at};
use crate::back::blocks_of;
use crate::put::{between, first_block};
use fit_encode::CutSink;
use fit_from_messages::BlockReason;
use fit_writer::{FinishFault, MessageWriter, Put, Refusal};
use std::alloc::Global;
use std::process::Abort;
use test_known::{BOTH_ORDERS, DEVELOPER_FIELD};

/// The second message by itself: a timestamp comes before its other fields, with the highest byte first as they have it.
const SECOND_ALONE: [u8; 41] =
    *b"\x0E\x20\0\0\x19\0\0\0.FIT\x5D\xE3\x41\0\x01\0\x14\x03\xFD\x04\x86\x02\x02\x84\x08\x03\x0D\
    \x01\x3B\x9A\xCA\x22\x09\xC4\x64\0\x10\xD7\x19";

/// A message was put, and a reader is told the amounts that its block says.
const AS_SAID: Result<Put, Refusal> = Ok(Put { accumulated: true });

/// Puts the first message of some blocks like those of `BOTH_ORDERS`.
fn put_first(writer: &mut MessageWriter, blocks: &[u8]) -> Result<Put, Refusal> {
    writer.put_message(between(blocks, 32, 192), between(blocks, 192, 248))
}

/// Puts the second message of some blocks like those of `BOTH_ORDERS`.
fn put_second(writer: &mut MessageWriter, blocks: &[u8]) -> Result<Put, Refusal> {
    writer.put_message(between(blocks, 248, 424), between(blocks, 424, 512))
}

/// A writer in which a file has begun, with the header of these blocks.
fn begun(rt: &impl Abort, alloc: Global, blocks: &[u8]) -> MessageWriter {
    let mut writer = MessageWriter::new(alloc);
    equal(rt, &writer.begin_file(between(blocks, 0, 32)), &Ok(()));
    writer
}

/// Asserts that a writer writes these bytes.
fn writes(rt: &impl Abort, writer: &mut MessageWriter, wanted: &[u8]) {
    let mut sink = CutSink::<128>::new(128);
    equal(rt, &writer.finish(&mut sink), &Ok(()));
    equal(rt, &sink.bytes(), &wanted);
}

#[test]
fn alone_it_gets_a_timestamp(rt: HostRuntime) {
    let blocks = blocks_of(&rt, rt.alloc(), &BOTH_ORDERS);
    let mut writer = begun(&rt, rt.alloc(), blocks.as_slice());
    equal(&rt, &put_second(&mut writer, blocks.as_slice()), &AS_SAID);
    writes(&rt, &mut writer, &SECOND_ALONE);
}

#[test]
fn after_the_other_it_keeps_its_offset(rt: HostRuntime) {
    let blocks = blocks_of(&rt, rt.alloc(), &BOTH_ORDERS);
    let mut writer = begun(&rt, rt.alloc(), blocks.as_slice());
    equal(&rt, &put_first(&mut writer, blocks.as_slice()), &AS_SAID);
    equal(&rt, &put_second(&mut writer, blocks.as_slice()), &AS_SAID);
    writes(&rt, &mut writer, &BOTH_ORDERS);
}

#[test]
fn a_definition_that_was_put_is_taken(rt: HostRuntime) {
    let blocks = blocks_of(&rt, rt.alloc(), &BOTH_ORDERS);
    let mut writer = begun(&rt, rt.alloc(), blocks.as_slice());
    let defined = writer.put_definition(between(blocks.as_slice(), 32, 192));
    equal(&rt, &defined, &Ok(()));
    equal(&rt, &put_first(&mut writer, blocks.as_slice()), &AS_SAID);
    equal(&rt, &put_second(&mut writer, blocks.as_slice()), &AS_SAID);
    writes(&rt, &mut writer, &BOTH_ORDERS);
}

/// One of some blocks, by its number from 0.
fn part(blocks: &[u8], number: usize) -> &[u8] {
    let mut rest = blocks;
    for _ in 0..number {
        match first_block(rest) {
            Some((_, after)) => rest = after,
            None => break,
        }
    }
    match first_block(rest) {
        Some((block, _)) => block,
        None => rest,
    }
}

/// What describes a developer field, and a definition and a message with it.
const DESCRIBED_FIRST: [u8; 65] = *b"\x0E \0\01\0\0\0.FIT^]\
    N\0\0\xCF\0\x01\x03\x01\x02\
    \x0E\0\
    O\0\0\xCE\0\x04\0\x01\x02\x01\x01\x02\x02\x01\x02\x03\x03\x07\
    \x0F\0\x05\x84mo\0\
    a\0\0\x14\0\0\x01\x05\x02\0\
    \x014\x12\
    \x92>";

/// The same after a definition of a developer field without a description.
const DESCRIBED_ANEW: [u8; 75] = *b"\x0E \0\0;\0\0\0.FIT\xDE\x22\
    a\0\0\x14\0\0\x01\x05\x02\0\
    N\0\0\xCF\0\x01\x03\x01\x02\
    \x0E\0\
    O\0\0\xCE\0\x04\0\x01\x02\x01\x01\x02\x02\x01\x02\x03\x03\x07\
    \x0F\0\x05\x84mo\0\
    `\0\0\x14\0\0\x01\x05\x02\0\
    \04\x12\
    ]A";

/// A definition of a developer field, its description, and with both a definition and a message.
const DESCRIBED_LATER: [u8; 64] = *b"\x0E \0\x000\0\0\0.FIT\x9F\x91a\0\0\x14\0\0\x01\x05\x02\0\
    @\0\0\xCE\0\x04\0\x01\x02\x01\x01\x02\x02\x01\x02\x03\x03\x07\0\0\x05\x84mo\0\
    b\0\0\x14\0\0\x01\x05\x02\0\x024\x12\x60\xEF";

#[test]
fn developer_fields_want_their_description(rt: HostRuntime) {
    let owned = blocks_of(&rt, rt.alloc(), &DEVELOPER_FIELD);
    let blocks = owned.as_slice();
    let mut writer = begun(&rt, rt.alloc(), blocks);
    let put = writer.put_message(part(blocks, 6), part(blocks, 7));
    equal(&rt, &put, &AS_SAID);
    writes(&rt, &mut writer, &DESCRIBED_FIRST);
    // Without a description its definition says no name.
    let mut writer = begun(&rt, rt.alloc(), blocks);
    equal(&rt, &writer.put_definition(part(blocks, 6)), &Ok(()));
    let put = writer.put_message(part(blocks, 6), part(blocks, 7));
    equal(&rt, &put, &AS_SAID);
    writes(&rt, &mut writer, &DESCRIBED_ANEW);
    let mut writer = begun(&rt, rt.alloc(), blocks);
    equal(&rt, &writer.put_definition(part(blocks, 6)), &Ok(()));
    let put = writer.put_message(part(blocks, 1), part(blocks, 4));
    equal(&rt, &put, &AS_SAID);
    // Now a definition that comes with the message says it.
    let put = writer.put_message(part(blocks, 6), part(blocks, 7));
    equal(&rt, &put, &AS_SAID);
    writes(&rt, &mut writer, &DESCRIBED_LATER);
}

#[test]
fn a_sink_that_fails_loses_nothing(rt: HostRuntime) {
    let blocks = blocks_of(&rt, rt.alloc(), &BOTH_ORDERS);
    let mut writer = begun(&rt, rt.alloc(), blocks.as_slice());
    equal(&rt, &put_second(&mut writer, blocks.as_slice()), &AS_SAID);
    for room in 0..41 {
        let mut sink = CutSink::<128>::new(room);
        let fault = FinishFault::Write {
            written: room as u64,
        };
        equal_at(&rt, &writer.finish(&mut sink), &Err(fault), &room);
        equal_at(&rt, &sink.bytes(), &&SECOND_ALONE[0..room], &room);
    }
    writes(&rt, &mut writer, &SECOND_ALONE);
}

#[test]
fn nothing_before_a_file(rt: HostRuntime) {
    let blocks = blocks_of(&rt, rt.alloc(), &BOTH_ORDERS);
    let mut writer = MessageWriter::new(rt.alloc());
    let put = writer.put_definition(between(blocks.as_slice(), 32, 192));
    equal(&rt, &put, &Err(Refusal::NoFile));
    let put = put_second(&mut writer, blocks.as_slice());
    equal(&rt, &put, &Err(Refusal::NoFile));
    let mut sink = CutSink::<128>::new(128);
    equal(&rt, &writer.finish(&mut sink), &Err(FinishFault::NoFile));
    equal(&rt, &sink.bytes().len(), &0);
}

/// Asserts why the second message is refused where bytes of the blocks have these values.
fn refused_changed(rt: &impl Abort, alloc: Global, changes: &[(usize, u8)], why: Refusal) {
    let mut blocks = blocks_of(rt, alloc, &BOTH_ORDERS);
    for (place, value) in changes {
        if *place < blocks.len() {
            blocks[*place] = *value;
        }
    }
    let mut writer = begun(rt, alloc, blocks.as_slice());
    let put = put_second(&mut writer, blocks.as_slice());
    equal_at(rt, &put, &Err(why), &changes.len());
}

#[test]
fn each_reason(rt: HostRuntime) {
    let alloc = rt.alloc();
    for (place, value, why) in [
        // A definition of a length that isn't its own, or of local message type 16.
        (248, 0, Refusal::Block(BlockReason::Cut)),
        (248 + 5, 16, Refusal::Block(BlockReason::Local)),
        // A message that is an end, of offset 32, or of items past its block.
        (424 + 4, 4, Refusal::Message(BlockReason::Kind)),
        (424 + 7, 32, Refusal::Message(BlockReason::Offset)),
        (248 + 48 + 12, 87, Refusal::Message(BlockReason::Items)),
    ] {
        refused_changed(&rt, alloc, &[(place, value)], why);
    }
    // The time of its header is the number that stands for none.
    let none = [
        (424 + 32, 0xFF),
        (424 + 33, 0xFF),
        (424 + 34, 0xFF),
        (424 + 35, 0xFF),
    ];
    refused_changed(&rt, alloc, &none, Refusal::Time);
}

#[test]
fn header_refused(rt: HostRuntime) {
    let blocks = blocks_of(&rt, rt.alloc(), &BOTH_ORDERS);
    let mut writer = MessageWriter::new(rt.alloc());
    let begun = writer.begin_file(between(blocks.as_slice(), 32, 192));
    let why = Refusal::Block(BlockReason::Kind);
    equal(&rt, &begun, &Err(why));
}
