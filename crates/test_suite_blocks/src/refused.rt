//! Blocks with one byte changed, which are refused. The places are those of `docs/BLOCKS.md`: the blocks of `BOTH_ORDERS` begin at 0, 32,
//! 192, 248, 424 and 512.
use crate::asserts::{equal, equal_at};
use crate::back::blocks_of;
use fit_encode::{CutSink, EncodeFault};
use fit_from_messages::{BlockReason, BlocksFault, from_messages};
use std::alloc::Global;
use std::process::Abort;
use test_known::{BOTH_ORDERS, TRUE_ZERO};

/// Asserts the fault of blocks, and that they give no bytes.
fn refuse(rt: &impl Abort, alloc: Global, blocks: &[u8], fault: BlocksFault) {
    let mut sink = CutSink::<128>::new(128);
    let found = from_messages(alloc, blocks, &mut sink);
    equal_at(rt, &found, &Err(fault), &blocks.len());
    assert!(rt; sink.bytes().is_empty());
}

/// Changes the byte at a place.
fn change(rt: &impl Abort, bytes: &mut [u8], place: usize, value: u8) {
    assert!(rt; place < bytes.len());
    bytes[place] = value;
}

/// Asserts the fault of the blocks of both architectures with one byte changed: the block of this number, which begins at this place.
fn refuse_changed(
    rt: &impl Abort,
    alloc: Global,
    (at, value): (usize, u8),
    number: u64,
    place: u64,
    reason: BlockReason,
) {
    let mut blocks = blocks_of(rt, alloc, &BOTH_ORDERS);
    equal(rt, &blocks.len(), &536);
    change(rt, blocks.as_mut_slice(), at, value);
    let fault = BlocksFault::Block {
        number,
        place,
        reason,
    };
    refuse(rt, alloc, blocks.as_slice(), fault);
}

#[test]
fn headers_refused(rt: HostRuntime) {
    for (changed, reason) in [
        // The length of the first block is 31, and then 16.
        ((0, 31), BlockReason::Cut),
        ((0, 16), BlockReason::Cut),
        // The first block says a definition.
        ((4, 2), BlockReason::Kind),
        // Its protocol version is 3.0, or it has a checksum and 13 bytes.
        ((6, 0x30), BlockReason::Header),
        ((5, 13), BlockReason::Header),
    ] {
        refuse_changed(&rt, rt.alloc(), changed, 0, 0, reason);
    }
}

#[test]
fn definitions_refused(rt: HostRuntime) {
    for (changed, reason) in [
        ((32 + 5, 16), BlockReason::Local),
        ((32 + 6, 2), BlockReason::Architecture),
        // There is one field more than there are entries, and one developer field.
        ((32 + 34, 3), BlockReason::Entries),
        ((32 + 36, 1), BlockReason::Entries),
        // The first field is a developer field.
        ((32 + 48 + 5, 1), BlockReason::Entries),
        // A number of four bytes has width 2, and then 2 items.
        ((32 + 48 + 9, 2), BlockReason::Size),
        ((32 + 48 + 9, 8), BlockReason::Size),
        // A header in a file.
        ((32 + 4, 1), BlockReason::Kind),
    ] {
        refuse_changed(&rt, rt.alloc(), changed, 1, 32, reason);
    }
}

#[test]
fn messages_refused(rt: HostRuntime) {
    for (changed, number, place, reason) in [
        ((192 + 6, 16), 2, 192, BlockReason::Local),
        ((192 + 6, 3), 2, 192, BlockReason::Undefined),
        ((424 + 6, 4), 4, 424, BlockReason::Local),
        ((424 + 7, 32), 4, 424, BlockReason::Offset),
        // The four bytes of the timestamp begin at 53 in a block of 56.
        ((32 + 48 + 12, 53), 2, 192, BlockReason::Items),
        // The end is no end.
        ((512 + 4, 5), 5, 512, BlockReason::Kind),
    ] {
        refuse_changed(&rt, rt.alloc(), changed, number, place, reason);
    }
}

#[test]
fn no_items_past_the_block(rt: HostRuntime) {
    let mut blocks = blocks_of(&rt, rt.alloc(), &BOTH_ORDERS);
    // The timestamp has no items. They may begin where the block of 56 bytes ends, and no further.
    change(&rt, blocks.as_mut_slice(), 32 + 48 + 10, 0);
    change(&rt, blocks.as_mut_slice(), 32 + 48 + 12, 56);
    let mut sink = CutSink::<128>::new(128);
    equal(
        &rt,
        &from_messages(rt.alloc(), blocks.as_slice(), &mut sink),
        &Ok(()),
    );
    change(&rt, blocks.as_mut_slice(), 32 + 48 + 12, 57);
    let fault = BlocksFault::Block {
        number: 2,
        place: 192,
        reason: BlockReason::Items,
    };
    refuse(&rt, rt.alloc(), blocks.as_slice(), fault);
}

#[test]
fn blocks_missing(rt: HostRuntime) {
    let blocks = blocks_of(&rt, rt.alloc(), &BOTH_ORDERS);
    let all = blocks.as_slice();
    assert!(rt; all.len() == 536);
    let (unfinished, _) = all.split_at(512);
    for (some, number, place) in [(unfinished, 5, 512), ([].as_slice(), 0, 0)] {
        let reason = BlockReason::Cut;
        let fault = BlocksFault::Block {
            number,
            place,
            reason,
        };
        refuse(&rt, rt.alloc(), some, fault);
    }
}

#[test]
fn zeros_for_a_sum_of_zero(rt: HostRuntime) {
    let mut blocks = blocks_of(&rt, rt.alloc(), &TRUE_ZERO);
    change(&rt, blocks.as_mut_slice(), 7, 1);
    let fault = BlocksFault::Encode(EncodeFault::ZeroIsSum { file: 1 });
    refuse(&rt, rt.alloc(), blocks.as_slice(), fault);
}
