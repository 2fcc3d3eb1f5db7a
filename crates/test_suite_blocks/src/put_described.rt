//! Developer fields that are put, by what describes them in the new file. The blocks of `two_fields` begin at 0, 32, 392, 472, 552, 824, 928,
//! 1032, 1176 and 1232: a header, a definition of field descriptions, those of `left` and `lean`, a definition with both and two messages, a
//! definition with both in the other order and a message, and the end.
use crate::asserts::{equal, equal_at};
use crate::back::blocks_of;
use crate::put::between;
use fit_encode::CutSink;
use fit_writer::{MessageWriter, Refusal};
use std::alloc::Global;
use std::process::Abort;
use test_known::fields::two_fields;

/// Of each message, where its definition begins and ends, and where it does.
const MESSAGES: [(usize, usize, usize, usize); 5] = [
    (32, 392, 392, 472),
    (32, 392, 472, 552),
    (552, 824, 824, 928),
    (552, 824, 928, 1032),
    (1032, 1176, 1176, 1232),
];

/// After the descriptions with `lift` for `left`: that of `left`, after that of the index, with the second definition and its first message;
/// and that of `lift`, with a definition and the message.
const LIFTED: [u8; 158] = *b"\x0E \0\0\x8E\0\0\0.FIT\x15i\
    @\0\0\xCE\0\x05\0\x01\x02\x01\x01\x02\x02\x01\x02\x03\x05\x07\x08\x02\x07\
    \0\0\0\x84lift\0W\0\
    \0\0\x01\x88lean\0g\0\
    N\0\0\xCF\0\x01\x03\x01\x02\
    \x0E\0\
    \0\0\0\x84left\0W\0\
    a\0\x01\0\x14\x02\xFD\x04\x86\x08\x03\x0D\x02\0\x02\0\x01\x04\0\
    \x01;\x9A\xCA\x1Fd\0\x10\x01,?\xC0\0\0\
    \0\0\0\x84lift\0W\0\
    b\0\x01\0\x14\x02\xFD\x04\x86\x08\x03\x0D\x02\0\x02\0\x01\x04\0\
    \x02;\x9A\xCA\x1Fd\0\x10\x01,?\xC0\0\0\
    *V";

/// The same of `lean` as a float and as a uint32, where it was described as the latter.
const FLOATS: [u8; 158] = *b"\x0E \0\0\x8E\0\0\0.FIT\x15i\
    @\0\0\xCE\0\x05\0\x01\x02\x01\x01\x02\x02\x01\x02\x03\x05\x07\x08\x02\x07\
    \0\0\0\x84left\0W\0\
    \0\0\x01\x86lean\0g\0\
    N\0\0\xCF\0\x01\x03\x01\x02\
    \x0E\0\
    \0\0\x01\x88lean\0g\0\
    a\0\x01\0\x14\x02\xFD\x04\x86\x08\x03\x0D\x02\0\x02\0\x01\x04\0\
    \x01;\x9A\xCA\x1Fd\0\x10\x01,?\xC0\0\0\
    \0\0\x01\x86lean\0g\0\
    b\0\x01\0\x14\x02\xFD\x04\x86\x08\x03\x0D\x02\0\x02\0\x01\x04\0\
    \x02;\x9A\xCA\x1Fd\0\x10\x01,?\xC0\0\0\
    \x02+";

/// What describes the developer fields of the third definition, and then it and its message.
const THIRD: [u8; 90] = *b"\x0E \0\0J\0\0\0.FIT\x18\xCA\
    N\0\0\xCF\0\x01\x03\x01\x02\
    \x0E\0\
    O\0\0\xCE\0\x05\0\x01\x02\x01\x01\x02\x02\x01\x02\x03\x05\x07\x08\x02\x07\
    \x0F\0\x01\x88lean\0g\0\
    \x0F\0\0\x84left\0W\0\
    b\0\0\x14\0\0\x02\x01\x04\0\0\x02\0\
    \x02\0\0\0?-\x01\
    ~Y";

/// The third definition and its message alone.
const NOT_DESCRIBED: [u8; 36] = *b"\x0E \0\0\x14\0\0\0.FIT\x9Cz\
    b\0\0\x14\0\0\x02\x01\x04\0\0\x02\0\
    \x02\0\0\0?-\x01\
    \x99\xFE";

/// No record.
const NOTHING: [u8; 16] = *b"\x0E \0\0\0\0\0\0.FIT\x9C\x85\0\0";

/// The two developer fields described, in the order of the third definition: of `lean` and of `left`, after that of their index.
const DESCRIBED: [u8; 70] = *b"\x0E \0\06\0\0\0.FIT\x1F\xBB\
    N\0\0\xCF\0\x01\x03\x01\x02\
    \x0E\0\
    O\0\0\xCE\0\x05\0\x01\x02\x01\x01\x02\x02\x01\x02\x03\x05\x07\x08\x02\x07\
    \x0F\0\x01\x88lean\0g\0\
    \x0F\0\0\x84left\0W\0\
    9\x8F";

/// The blocks of `two_fields` with these bytes at these places.
fn changed(rt: &impl Abort, alloc: Global, changes: &[(usize, u8)]) -> Vec<u8> {
    let mut blocks = blocks_of(rt, alloc, two_fields().bytes);
    equal(rt, &blocks.len(), &1256);
    for (place, value) in changes {
        if *place < blocks.len() {
            blocks[*place] = *value;
        }
    }
    blocks
}

/// Begins a file.
fn begin(rt: &impl Abort, writer: &mut MessageWriter, blocks: &[u8]) {
    equal(rt, &writer.begin_file(between(blocks, 0, 32)), &Ok(()));
}

/// Puts a message, the first of which is 0.
fn put(writer: &mut MessageWriter, blocks: &[u8], number: usize) -> Result<(), Refusal> {
    match MESSAGES.get(number) {
        Some((from, to, begin, end)) => {
            writer.put_message(between(blocks, *from, *to), between(blocks, *begin, *end))?;
            Ok(())
        }
        None => Ok(()),
    }
}

/// Asserts that the first messages are put, that many.
fn puts(rt: &impl Abort, writer: &mut MessageWriter, blocks: &[u8], count: usize) {
    for number in 0..count {
        equal_at(rt, &put(writer, blocks, number), &Ok(()), &number);
    }
}

/// Asserts that a writer writes these bytes.
fn writes(rt: &impl Abort, writer: &mut MessageWriter, wanted: &[u8]) {
    let mut sink = CutSink::<256>::new(256);
    equal(rt, &writer.finish(&mut sink), &Ok(()));
    equal(rt, &sink.bytes(), &wanted);
}

#[test]
fn copied_with_no_definition_put(rt: HostRuntime) {
    let blocks = changed(&rt, rt.alloc(), &[]);
    let mut writer = MessageWriter::new(rt.alloc());
    begin(&rt, &mut writer, blocks.as_slice());
    puts(&rt, &mut writer, blocks.as_slice(), 5);
    writes(&rt, &mut writer, two_fields().bytes);
}

#[test]
fn described_by_themselves(rt: HostRuntime) {
    let blocks = changed(&rt, rt.alloc(), &[]);
    let third = between(blocks.as_slice(), 1032, 1176);
    let mut writer = MessageWriter::new(rt.alloc());
    equal(&rt, &writer.describe(third), &Err(Refusal::NoFile));
    begin(&rt, &mut writer, blocks.as_slice());
    equal(&rt, &writer.describe(third), &Ok(()));
    // Nothing more is put for what is described so, in the second definition too.
    equal(&rt, &writer.describe(third), &Ok(()));
    let second = between(blocks.as_slice(), 552, 824);
    equal(&rt, &writer.describe(second), &Ok(()));
    writes(&rt, &mut writer, &DESCRIBED);
}

#[test]
fn not_to_be_described(rt: HostRuntime) {
    // A name with a control character; a unit that isn't UTF-8; and both fields of one number, with two names.
    let changes = [
        (1032 + 48 + 33, 7),
        (1032 + 48 + 40, 0xFF),
        (1032 + 96 + 4, 1),
    ];
    for change in changes {
        let blocks = changed(&rt, rt.alloc(), &[change]);
        let mut writer = MessageWriter::new(rt.alloc());
        begin(&rt, &mut writer, blocks.as_slice());
        let refused = writer.describe(between(blocks.as_slice(), 1032, 1176));
        equal(&rt, &refused, &Err(Refusal::Described));
        writes(&rt, &mut writer, &NOTHING);
    }
}

#[test]
fn another_name_in_the_second_file(rt: HostRuntime) {
    let blocks = changed(&rt, rt.alloc(), &[]);
    // In its description, and then also in the definition.
    let described = changed(&rt, rt.alloc(), &[(392 + 65, b'i')]);
    let lifted = changed(&rt, rt.alloc(), &[(552 + 209, b'i')]);
    let mut writer = MessageWriter::new(rt.alloc());
    begin(&rt, &mut writer, blocks.as_slice());
    puts(&rt, &mut writer, blocks.as_slice(), 5);
    begin(&rt, &mut writer, blocks.as_slice());
    puts(&rt, &mut writer, described.as_slice(), 2);
    equal(&rt, &put(&mut writer, blocks.as_slice(), 2), &Ok(()));
    equal(&rt, &put(&mut writer, lifted.as_slice(), 2), &Ok(()));
    let mut sink = CutSink::<512>::new(512);
    equal(&rt, &writer.finish(&mut sink), &Ok(()));
    equal(&rt, &between(sink.bytes(), 0, 126), &two_fields().bytes);
    equal(&rt, &between(sink.bytes(), 126, 284), &LIFTED.as_slice());
    equal(&rt, &sink.bytes().len(), &284);
}

#[test]
fn a_float_described_as_uint32(rt: HostRuntime) {
    let described = changed(&rt, rt.alloc(), &[(472 + 56, 0x86)]);
    let mut writer = MessageWriter::new(rt.alloc());
    begin(&rt, &mut writer, described.as_slice());
    puts(&rt, &mut writer, described.as_slice(), 2);
    let blocks = changed(&rt, rt.alloc(), &[]);
    equal(&rt, &put(&mut writer, blocks.as_slice(), 2), &Ok(()));
    // With uint32 in the definition too.
    let uint32 = changed(&rt, rt.alloc(), &[(552 + 224 + 7, 0x86)]);
    equal(&rt, &put(&mut writer, uint32.as_slice(), 2), &Ok(()));
    writes(&rt, &mut writer, &FLOATS);
}

#[test]
fn what_nothing_describes(rt: HostRuntime) {
    let blocks = changed(&rt, rt.alloc(), &[]);
    let mut writer = MessageWriter::new(rt.alloc());
    begin(&rt, &mut writer, blocks.as_slice());
    equal(&rt, &put(&mut writer, blocks.as_slice(), 4), &Ok(()));
    writes(&rt, &mut writer, &THIRD);
    // As bytes without name and unit: four at 48, and two at 96.
    let bytes = changed(
        &rt,
        rt.alloc(),
        &[
            (1032 + 48 + 7, 0x0D),
            (1032 + 48 + 9, 1),
            (1032 + 48 + 10, 4),
            (1032 + 48 + 32, 0),
            (1032 + 48 + 40, 0),
            (1032 + 96 + 7, 0x0D),
            (1032 + 96 + 9, 1),
            (1032 + 96 + 10, 2),
            (1032 + 96 + 32, 0),
            (1032 + 96 + 40, 0),
        ],
    );
    let mut writer = MessageWriter::new(rt.alloc());
    begin(&rt, &mut writer, blocks.as_slice());
    equal(&rt, &put(&mut writer, bytes.as_slice(), 4), &Ok(()));
    writes(&rt, &mut writer, &NOT_DESCRIBED);
    // After descriptions neither is without one.
    begin(&rt, &mut writer, blocks.as_slice());
    puts(&rt, &mut writer, blocks.as_slice(), 2);
    let refused = put(&mut writer, bytes.as_slice(), 4);
    equal(&rt, &refused, &Err(Refusal::Described));
}
