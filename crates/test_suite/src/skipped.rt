//! Records that are skipped, beside the same bytes fed.
ghost use Rattle.std.specs.Prelude.{List};
ghost use Rattle.std.specs.Global.{Global};
ghost use Rattle.fit_record.specs.declared.message.Record.{Record};
ghost use Rattle.fit_decode.specs.Answers.{MessagesFollow};

use crate::asserts::{equal, equal_at, holds_at};
use crate::fed::{feed, header, same};
use crate::starved::{fill, is_full};
use fit_decode::{Decoder, Fault, Fed};
use linked_list_allocator::LocalHeap;
use std::alloc::{Allocator, Global};
use std::process::Abort;
use test_known::files;

/// How many records a decoder reports of bytes that another has skipped. It reports nothing else: the last bytes may be the first of a
/// data message.
fn records_of(rt: &impl Abort, decoder: &mut Decoder, bytes: &[u8]) -> Result<u64, Fault> {
    let mut count = 0u64;
    let mut rest = bytes;
    for _ in 0..bytes.len() {
        if rest.is_empty() {
            break;
        }
        let (used, (letter, _)) = feed(decoder, rest)?;
        rest = rest.get(used..).unwrap_or_default();
        match letter {
            b'd' | b'v' => count = count.saturating_add(1),
            _ => assert!(rt; letter == b'.' && rest.is_empty()),
        }
    }
    Ok(count)
}

/// Asserts that two decoders stand at the same place.
fn are_alike(rt: &impl Abort, one: &Decoder, other: &Decoder) {
    equal(rt, &(one.need(), one.held()), &(other.need(), other.held()));
    equal(
        rt,
        &(one.files(), one.finish()),
        &(other.files(), other.finish()),
    );
}

/// What a decoder skips at once.
#[derive(Clone, Copy)]
enum Skip {
    Records,
    Message,
    Ahead,
}

/// All of them.
const SKIPS: [Skip; 3] = [Skip::Records, Skip::Message, Skip::Ahead];

/// Skips data messages one after another: how many bytes they have, and how many they are.
fn skip_messages(decoder: &mut Decoder, bytes: &[u8]) -> (usize, u64) {
    let mut count = 0u64;
    let mut rest = bytes;
    for _ in 0..bytes.len() {
        let used = decoder.skip_message(rest);
        if used == 0 {
            break;
        }
        count = count.saturating_add(1);
        let (_, left) = rest.split_at(used);
        rest = left;
    }
    (bytes.len().saturating_sub(rest.len()), count)
}

/// Finds data messages one after another: how many bytes they have, and how many they are.
fn find_messages(decoder: &Decoder, bytes: &[u8]) -> (usize, u64)
    ensures { (records : List (Record Global))
        × MessagesFollow Global decoder.now bytes.now result.0 records }
{
    let mut ahead = decoder.look_ahead(bytes);
    let mut count = 0u64;
    'messages: for _ in 0..bytes.len() {
        if ahead.next() == 0 {
            return (ahead.used(), count);
        }
        count = count.saturating_add(1);
    }
    (ahead.used(), count)
}

/// Skips at once the data messages that are found: how many bytes they have, and how many they are.
fn skip_ahead(decoder: &mut Decoder, bytes: &[u8]) -> (usize, u64) {
    let (used, count) = find_messages(decoder, bytes);
    decoder.skip_messages(bytes, used);
    (used, count)
}

/// Skips what one decoder can, and feeds these bytes to another, which stands at the same place then. Returns how many bytes they are, and
/// how many records were skipped.
fn skip_both(
    rt: &impl Abort,
    skip: Skip,
    skipping: &mut Decoder,
    feeding: &mut Decoder,
    bytes: &[u8],
) -> (usize, u64) {
    let (used, count) = match skip {
        Skip::Records => skipping.skip_records(bytes),
        Skip::Message => skip_messages(skipping, bytes),
        Skip::Ahead => skip_ahead(skipping, bytes),
    };
    let (front, _) = bytes.split_at(used.min(bytes.len()));
    equal(rt, &records_of(rt, feeding, front), &Ok(count));
    are_alike(rt, skipping, feeding);
    (used, count)
}

/// Whether two decoders say the same of a piece.
fn is_same(one: &Result<Fed, Fault>, other: &Result<Fed, Fault>) -> bool {
    match (one, other) {
        (Ok(fed), Ok(told)) => fed.used == told.used && same(&fed.event, &told.event),
        (Err(fault), Err(found)) => fault == found,
        _ => false,
    }
}

/// How many bytes a decoder used.
fn used_of(answer: &Result<Fed, Fault>) -> Result<usize, Fault> {
    match answer {
        Ok(fed) => Ok(fed.used),
        Err(fault) => Err(*fault),
    }
}

/// Feeds a piece to two decoders, which say the same of it. Returns how many of its bytes are used.
fn feed_both(
    rt: &impl Abort,
    one: &mut Decoder,
    other: &mut Decoder,
    piece: &[u8],
) -> Result<usize, Fault> {
    let answer = one.feed(piece);
    assert!(rt; is_same(&answer, &other.feed(piece)));
    are_alike(rt, one, other);
    used_of(&answer)
}

/// Gives a piece to two decoders, of which the first skips what it can. Both say the same. Returns how many records were skipped.
fn give(
    rt: &impl Abort,
    skip: Skip,
    skipping: &mut Decoder,
    feeding: &mut Decoder,
    piece: &[u8],
) -> Result<u64, Fault> {
    let mut skipped = 0u64;
    let mut rest = piece;
    for _ in 0..piece.len() {
        let (used, count) = skip_both(rt, skip, skipping, feeding, rest);
        skipped = skipped.saturating_add(count);
        rest = rest.get(used..).unwrap_or_default();
        let used = feed_both(rt, skipping, feeding, rest)?;
        rest = rest.get(used..).unwrap_or_default();
    }
    Ok(skipped)
}

/// Gives two decoders some bytes in two pieces. Returns how many records were skipped.
fn give_cut(
    rt: &impl Abort,
    alloc: Global,
    skip: Skip,
    bytes: &[u8],
    k: usize,
) -> Result<u64, Fault> {
    let mut skipping = Decoder::new(alloc);
    let mut feeding = Decoder::new(alloc);
    let (first, second) = bytes.split_at(k.min(bytes.len()));
    match give(rt, skip, &mut skipping, &mut feeding, first) {
        Err(fault) => Err(fault),
        Ok(skipped) => match give(rt, skip, &mut skipping, &mut feeding, second) {
            Err(fault) => Err(fault),
            Ok(more) => Ok(skipped.saturating_add(more)),
        },
    }
}

/// Gives two decoders bytes of good files in two pieces. Returns how many records were skipped.
fn skipped_of(rt: &impl Abort, alloc: Global, skip: Skip, bytes: &[u8], k: usize) -> u64 {
    give_cut(rt, alloc, skip, bytes, k).expect(rt, "good files")
}

/// In one piece, the definition messages of `orders` and `developer` and the data messages that describe nothing are skipped where six
/// bytes of data follow them.
#[test]
fn known_files_cut_anywhere(rt: HostRuntime) {
    for known in files() {
        let whole = skipped_of(&rt, rt.alloc(), Skip::Records, known.bytes, 0);
        match known.name {
            "orders" | "developer" | "both" => assert!(rt; whole > 0),
            _ => equal(&rt, &whole, &0),
        }
        for k in 0..known.bytes.len() {
            let skipped = skipped_of(&rt, rt.alloc(), Skip::Records, known.bytes, k);
            holds_at(&rt, skipped <= whole, &(known.name, k));
        }
    }
}

/// Of data messages alone no more are skipped than of all records, wherever the files are cut. Those that are found ahead are the same, but
/// for field descriptions, which two files have.
#[test]
fn messages_cut_anywhere(rt: HostRuntime) {
    for known in files() {
        let records = skipped_of(&rt, rt.alloc(), Skip::Records, known.bytes, 0);
        for k in 0..known.bytes.len() {
            let skipped = skipped_of(&rt, rt.alloc(), Skip::Message, known.bytes, k);
            holds_at(&rt, skipped <= records, &(known.name, k));
            let found = skipped_of(&rt, rt.alloc(), Skip::Ahead, known.bytes, k);
            match known.name {
                "developer" | "both" => holds_at(&rt, found <= skipped, &(known.name, k)),
                _ => equal_at(&rt, &found, &skipped, &(known.name, k)),
            }
        }
    }
}

/// Changes each bit of some bytes.
fn change_each(rt: &impl Abort, alloc: Global, bytes: &mut [u8]) {
    for place in 0..bytes.len() {
        let old = bytes[place];
        for bit in [1, 2, 4, 8, 16, 32, 64, 128] {
            bytes[place] = old ^ bit;
            for skip in SKIPS {
                match give_cut(rt, alloc, skip, bytes, 0) {
                    Ok(_) | Err(Fault::Refused { .. }) => {}
                    Err(fault) => holds_at(rt, false, &(fault, bit, place)),
                }
            }
        }
        bytes[place] = old;
    }
}

/// What is refused is refused at the same byte, whether the records before it are skipped or fed.
#[test]
fn changed_files(rt: HostRuntime) {
    for known in files() {
        let mut bytes = Vec::from_slice(rt.alloc(), known.bytes).expect(&rt, "memory");
        change_each(&rt, rt.alloc(), bytes.as_mut_slice());
    }
}

/// A definition message without fields, and 9000 data messages of one byte. The closing checksum is that of another program.
fn file_of_many(rt: &impl Abort, alloc: Global) -> Vec<u8> {
    let mut bytes = Vec::from_slice(alloc, &header(9006)).expect(rt, "memory");
    for part in [b"\x40\0\0\x14\0\0".as_slice(), &[0; 9000], &[0x0C, 0xDC]] {
        bytes.extend_from_slice(part).expect(rt, "memory");
    }
    bytes
}

#[test]
fn many_messages(rt: HostRuntime) {
    let bytes = file_of_many(&rt, rt.alloc());
    for skip in SKIPS {
        for k in [0, 4096] {
            assert!(rt; skipped_of(&rt, rt.alloc(), skip, bytes.as_slice(), k) >= 8990);
        }
    }
}

/// A hundred data messages of local type 0.
fn hundred_messages(rt: &impl Abort, alloc: Global) -> Vec<u8> {
    let mut messages = Vec::new(alloc);
    for _ in 0..100 {
        let message = b"\0\x1F\xCA\x9A\x3B\x78";
        messages.extend_from_slice(message).expect(rt, "memory");
    }
    messages
}

/// Two definition messages of six bytes of data: of local type 0 and of local type 1.
const DEFINITION: [u8; 12] = *b"\x40\0\0\x14\0\x02\xFD\x04\x86\x03\x01\x02";

const ANOTHER: [u8; 12] = *b"\x41\0\0\x14\0\x02\xFD\x04\x86\x03\x01\x02";

/// Skips a hundred data messages a hundred times while no memory is free. The definition message after them is not skipped.
fn skip_without<A: Allocator + Copy>(
    rt: &impl Abort,
    alloc: Global,
    heap: A,
    decoder: &mut Decoder<A>,
    messages: &[u8],
) {
    let _blocks = fill(rt, alloc, heap);
    assert!(rt; is_full(heap));
    for hundred in 0..100 {
        equal_at(rt, &decoder.skip_records(messages), &(600, 100), &hundred);
    }
    equal(rt, &decoder.skip_message(messages), &6);
    equal(rt, &decoder.skip_records(&ANOTHER), &(0, 0));
    equal(rt, &decoder.held(), &2);
}

/// Data messages are skipped while no memory is free. The definition message after them is not, and it is when there is memory.
fn skip_starved<A: Allocator + Copy>(
    rt: &impl Abort,
    alloc: Global,
    heap: A,
    decoder: &mut Decoder<A>,
) {
    let messages = hundred_messages(rt, alloc);
    assert!(rt; feed(decoder, &header(100_006)).is_ok());
    equal(rt, &decoder.skip_records(&DEFINITION), &(12, 1));
    skip_without(rt, alloc, heap, decoder, messages.as_slice());
    equal(rt, &decoder.skip_records(&ANOTHER), &(12, 1));
    equal(rt, &decoder.held(), &4);
}

#[test]
fn skipping_takes_no_memory(rt: HostRuntime) {
    let heap = LocalHeap::new(rt.alloc(), 8192).expect(&rt, "memory");
    let mut decoder = Decoder::new(&heap);
    skip_starved(&rt, rt.alloc(), &heap, &mut decoder);
}
