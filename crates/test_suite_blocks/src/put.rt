//! Messages that are put into a writer, by the blocks of files.
use crate::asserts::{equal, equal_at};
use crate::back::blocks_of;
use fit_encode::WriteSink;
use fit_writer::{MessageWriter, Refusal};
use std::alloc::Global;
use std::process::Abort;
use test_known::files;

/// The byte at a place of a block, and 0 where the block ends before it.
fn byte(block: &[u8], place: usize) -> u8 {
    match block.get(place) {
        Some(value) => *value,
        None => 0,
    }
}

/// A part of some blocks, and all of them where they end before it.
pub(crate) fn between(blocks: &[u8], from: usize, to: usize) -> &[u8] {
    match blocks.get(from..to) {
        Some(part) => part,
        None => blocks,
    }
}

/// The first of some blocks, and those after it.
pub(crate) fn first_block(blocks: &[u8]) -> Option<(&[u8], &[u8])> {
    let [low, middle, high, ..] = blocks else {
        return None;
    };
    let length = *low as usize + 256 * *middle as usize + 65536 * *high as usize;
    if length == 0 || length > blocks.len() {
        return None;
    }
    Some(blocks.split_at(length))
}

/// Which messages are put, and whether definitions are put where they come. Those with developer fields always are.
#[derive(Clone, Copy, Drop)]
struct Choice {
    /// Each message of which this divides the number.
    step: usize,
    defines: bool,
}

/// The blocks of the definitions that count, and how many messages have come.
#[derive(Drop)]
struct Given<'a> {
    definitions: [&'a [u8]; 16],
    messages: usize,
}

impl<'a> Given<'a> {
    fn new() -> Given<'a> {
        Given {
            definitions: [&[]; 16],
            messages: 0,
        }
    }

    /// Takes a block, and says whether it is of a message that is chosen.
    fn is_chosen(&mut self, block: &'a [u8], step: usize) -> bool {
        if byte(block, 4) == 2 {
            self.definitions[byte(block, 5) as usize % 16] = block;
        }
        if byte(block, 4) != 3 {
            return false;
        }
        self.messages = self.messages.saturating_add(1);
        step != 0 && self.messages % step == 0 || self.describes(block)
    }

    /// Whether a message says what developer fields are, which are read by it: of these global message numbers are 206 and 207.
    fn describes(&self, block: &[u8]) -> bool {
        let definition = self.definition(block);
        let low = byte(definition, 32);
        byte(definition, 33) == 0 && (low == 206 || low == 207)
    }

    /// The block of the definition of a message.
    fn definition(&self, block: &[u8]) -> &'a [u8] {
        self.definitions[byte(block, 6) as usize % 16]
    }
}

/// Puts a message. With developer fields of which no definition is there, it is put after its own.
fn put_message(writer: &mut MessageWriter, definition: &[u8], block: &[u8]) -> Result<(), Refusal> {
    match writer.put_message(definition, block) {
        Ok(_) => return Ok(()),
        Err(Refusal::Described) => {}
        Err(refusal) => return Err(refusal),
    }
    writer.put_definition(definition)?;
    writer.put_message(definition, block)?;
    Ok(())
}

/// Puts one block, if it is chosen.
fn put<'a>(
    writer: &mut MessageWriter,
    given: &mut Given<'a>,
    block: &'a [u8],
    choice: Choice,
) -> Result<(), Refusal> {
    let is_chosen = given.is_chosen(block, choice.step);
    match byte(block, 4) {
        1 => writer.begin_file(block),
        2 if choice.defines || byte(block, 36) != 0 => writer.put_definition(block),
        3 if is_chosen => put_message(writer, given.definition(block), block),
        _ => Ok(()),
    }
}

/// Puts the chosen blocks.
fn put_all(rt: &impl Abort, writer: &mut MessageWriter, blocks: &[u8], choice: Choice) {
    let mut given = Given::new();
    let mut rest = blocks;
    for _ in 0..blocks.len() {
        let Some((block, after)) = first_block(rest) else {
            break;
        };
        equal(rt, &put(writer, &mut given, block, choice), &Ok(()));
        rest = after;
    }
    equal(rt, &rest.len(), &0);
}

/// The chain of which these blocks were put.
fn chain_of(rt: &impl Abort, alloc: Global, blocks: &[u8], choice: Choice) -> Vec<u8> {
    let mut writer = MessageWriter::new(alloc);
    put_all(rt, &mut writer, blocks, choice);
    let mut sink = WriteSink::new(Vec::new(alloc));
    equal(rt, &writer.finish(&mut sink), &Ok(()));
    sink.into_inner()
}

/// A message with the block of its definition before it, and the blocks after it.
type Next<'a> = Option<(&'a [u8], &'a [u8], &'a [u8])>;

/// The first message of blocks that is chosen.
fn next_message<'a>(given: &mut Given<'a>, blocks: &'a [u8], step: usize) -> Next<'a> {
    let mut rest = blocks;
    for _ in 0..blocks.len() {
        let (block, after) = first_block(rest)?;
        if given.is_chosen(block, step) {
            return Some((given.definition(block), block, after));
        }
        rest = after;
    }
    None
}

/// Asserts that there are two messages of one time and one global message number, or none. What comes after them.
fn is_same<'a>(rt: &impl Abort, found: Next<'a>, wanted: Next<'a>) -> Option<(&'a [u8], &'a [u8])> {
    equal(rt, &found.is_some(), &wanted.is_some());
    let (own, message, left) = found?;
    let (definition, block, rest) = wanted?;
    equal(rt, &between(message, 12, 16), &between(block, 12, 16));
    equal(rt, &between(own, 32, 34), &between(definition, 32, 34));
    Some((left, rest))
}

/// Asserts that what was written tells the times and numbers of the messages that were chosen.
fn are_told(rt: &impl Abort, alloc: Global, blocks: &[u8], step: usize) {
    let choice = Choice {
        step,
        defines: false,
    };
    let chain = chain_of(rt, alloc, blocks, choice);
    let written = blocks_of(rt, alloc, chain.as_slice());
    same_messages(rt, written.as_slice(), blocks, step);
}

/// Asserts that all messages of some blocks have the times and numbers of the chosen ones of others.
fn same_messages<'a>(rt: &impl Abort, written: &'a [u8], blocks: &'a [u8], step: usize) {
    let (mut found, mut wanted) = (Given::new(), Given::new());
    let (mut left, mut rest) = (written, blocks);
    for _ in 0..blocks.len() {
        let own = next_message(&mut found, left, 1);
        let Some((more, after)) = is_same(rt, own, next_message(&mut wanted, rest, step)) else {
            break;
        };
        left = more;
        rest = after;
    }
    assert!(rt; next_message(&mut found, left, 1).is_none());
}

#[test]
fn known_files_are_copied(rt: HostRuntime) {
    let choice = Choice {
        step: 1,
        defines: true,
    };
    for known in files() {
        let blocks = blocks_of(&rt, rt.alloc(), known.bytes);
        let chain = chain_of(&rt, rt.alloc(), blocks.as_slice(), choice);
        equal_at(&rt, &chain.as_slice(), &known.bytes, &known.name);
    }
}

#[test]
fn parts_of_known_files_are_told(rt: HostRuntime) {
    for known in files() {
        let blocks = blocks_of(&rt, rt.alloc(), known.bytes);
        are_told(&rt, rt.alloc(), blocks.as_slice(), 1);
        are_told(&rt, rt.alloc(), blocks.as_slice(), 2);
        are_told(&rt, rt.alloc(), blocks.as_slice(), 3);
    }
}
