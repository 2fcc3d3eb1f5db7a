//! Speed, distance, cycles and power of messages that are put: whether a reader is told those that their blocks say. The second message of
//! `BOTH_ORDERS` says speed 100 and distance 256 by its field 8. Of its block, 88 bytes from 424 on, byte 5 has the bits, and 49 and 82 have
//! the second byte of the distance and the last one of the field.
use crate::asserts::{equal, equal_at};
use crate::back::blocks_of;
use crate::put::between;
use fit_from_messages::BlockReason;
use fit_writer::{MessageWriter, Put, Refusal, Run, RunRefusal};
use std::alloc::{AllocError, Global};
use std::process::Abort;
use test_known::BOTH_ORDERS;

/// The blocks of `BOTH_ORDERS` with some bytes changed.
fn changed(rt: &impl Abort, alloc: Global, changes: &[(usize, u8)]) -> Vec<u8> {
    let mut blocks = blocks_of(rt, alloc, &BOTH_ORDERS);
    for (place, value) in changes {
        if *place < blocks.len() {
            blocks[*place] = *value;
        }
    }
    blocks
}

/// The same with distance 512, in the block and in its field.
fn farther(rt: &impl Abort, alloc: Global) -> Vec<u8> {
    changed(rt, alloc, &[(424 + 49, 2), (424 + 82, 0x20)])
}

/// Puts the second message of some blocks.
fn put(writer: &mut MessageWriter, blocks: &[u8]) -> Result<Put, Refusal> {
    writer.put_message(between(blocks, 248, 424), between(blocks, 424, 512))
}

/// A writer in which a file has begun.
fn begun(rt: &impl Abort, alloc: Global) -> MessageWriter {
    let blocks = blocks_of(rt, alloc, &BOTH_ORDERS);
    let mut writer = MessageWriter::new(alloc);
    equal(
        rt,
        &writer.begin_file(between(blocks.as_slice(), 0, 32)),
        &Ok(()),
    );
    writer
}

/// Asserts that the second message, alone with these bytes changed, is put, and whether its amounts are read as its block says.
fn alone(rt: &impl Abort, alloc: Global, changes: &[(usize, u8)], accumulated: bool) {
    let first = match changes.first() {
        Some(change) => *change,
        None => (0, 0),
    };
    let blocks = changed(rt, alloc, changes);
    let put = put(&mut begun(rt, alloc), blocks.as_slice());
    equal_at(rt, &put, &Ok(Put { accumulated }), &first);
}

#[test]
fn after_a_greater_distance_it_is_another(rt: HostRuntime) {
    let alloc = rt.alloc();
    let mut writer = begun(&rt, alloc);
    let far = farther(&rt, alloc);
    equal(
        &rt,
        &put(&mut writer, far.as_slice()),
        &Ok(Put { accumulated: true }),
    );
    // The distance is 4096 + 256 now, and the speed the same.
    let near = blocks_of(&rt, alloc, &BOTH_ORDERS);
    equal(
        &rt,
        &put(&mut writer, near.as_slice()),
        &Ok(Put { accumulated: false }),
    );
}

#[test]
fn in_the_next_file_it_is_as_said(rt: HostRuntime) {
    let alloc = rt.alloc();
    let mut writer = begun(&rt, alloc);
    let far = farther(&rt, alloc);
    equal(
        &rt,
        &put(&mut writer, far.as_slice()),
        &Ok(Put { accumulated: true }),
    );
    let near = blocks_of(&rt, alloc, &BOTH_ORDERS);
    equal(
        &rt,
        &writer.begin_file(between(near.as_slice(), 0, 32)),
        &Ok(()),
    );
    equal(
        &rt,
        &put(&mut writer, near.as_slice()),
        &Ok(Put { accumulated: true }),
    );
}

#[test]
fn what_blocks_say(rt: HostRuntime) {
    let alloc = rt.alloc();
    alone(&rt, alloc, &[], true);
    // Another speed or distance, none where there is one, or cycles or power where there are none.
    alone(&rt, alloc, &[(424 + 40, 101)], false);
    alone(&rt, alloc, &[(424 + 47, 1)], false);
    alone(&rt, alloc, &[(424 + 49, 2)], false);
    alone(&rt, alloc, &[(424 + 5, 0x0B)], false);
    alone(&rt, alloc, &[(424 + 5, 0x07)], false);
    alone(&rt, alloc, &[(424 + 5, 0x1F)], false);
    alone(&rt, alloc, &[(424 + 5, 0x2F)], false);
    // The definition says that its messages have none.
    alone(&rt, alloc, &[(248 + 38, 0)], false);
    // Field 8 becomes field 9, which tells nothing.
    alone(&rt, alloc, &[(248 + 108, 9)], false);
    alone(&rt, alloc, &[(248 + 108, 9), (424 + 5, 0x03)], true);
    alone(&rt, alloc, &[(248 + 108, 9), (248 + 38, 0)], true);
}

/// The block of the second message with distance 512, and then twice as it is.
fn three(rt: &impl Abort, alloc: Global) -> Result<Vec<u8>, AllocError> {
    let far = farther(rt, alloc);
    let near = blocks_of(rt, alloc, &BOTH_ORDERS);
    let mut blocks = Vec::new(alloc);
    blocks.extend_from_slice(between(far.as_slice(), 424, 512))?;
    blocks.extend_from_slice(between(near.as_slice(), 424, 512))?;
    blocks.extend_from_slice(between(near.as_slice(), 424, 512))?;
    Ok(blocks)
}

/// Puts these blocks as messages of the second definition.
fn run(rt: &impl Abort, alloc: Global, blocks: &[u8]) -> Result<Run, RunRefusal> {
    let known = blocks_of(rt, alloc, &BOTH_ORDERS);
    begun(rt, alloc).put_messages(between(known.as_slice(), 248, 424), blocks)
}

/// Compares how many messages a run has put, and how many of them are told their amounts.
fn has_put(rt: &impl Abort, done: &Result<Run, RunRefusal>, count: u64, accumulated: u64) {
    equal(rt, done, &Ok(Run { count, accumulated }));
}

#[test]
fn a_run_counts_the_first_ones(rt: HostRuntime) -> Result<(), AllocError> {
    let alloc = rt.alloc();
    let blocks = three(&rt, alloc)?;
    let done = run(&rt, alloc, blocks.as_slice());
    has_put(&rt, &done, 3, 1);
    let done = run(&rt, alloc, between(blocks.as_slice(), 88, 264));
    has_put(&rt, &done, 2, 2);
    let done = run(&rt, alloc, &[]);
    has_put(&rt, &done, 0, 0);
    // The last block is cut.
    let stop = RunRefusal {
        count: 2,
        accumulated: 1,
        place: 176,
        refusal: Refusal::Message(BlockReason::Cut),
    };
    equal(
        &rt,
        &run(&rt, alloc, between(blocks.as_slice(), 0, 260)),
        &Err(stop),
    );
    Ok(())
}
