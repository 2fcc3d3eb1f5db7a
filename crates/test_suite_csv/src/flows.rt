//! What flows through streams of each kind, with ample memory.

use crate::asserts::equal_at;
use fit_decode::Fault;
use fit_frame::Reason;
use fit_report::ReportFault;
use fit_stream::{ChainStream, Kind};
use std::alloc::Global;
use std::process::Abort;
use test_known::{BOTH_ORDERS, Known, TABLE_HEAD, files};

/// What is to be handed out: the first line, and what comes after it.
#[derive(Clone, Copy)]
struct Wanted<'a> {
    head: &'a [u8],
    rest: &'a [u8],
}

/// What `show` writes of a chain, without its last line.
fn shown(known: &Known) -> &'static [u8] {
    let text = known.shown.as_bytes();
    &text[..text.len().saturating_sub(3)]
}

/// What a stream of the kind is to hand out of a known input. Nothing is known of blocks.
fn text_of(kind: Kind, known: &Known) -> Wanted<'static> {
    let (head, rest): (&[u8], &[u8]) = match kind {
        Kind::Check | Kind::Messages => (b"", b""),
        Kind::Show => (b"", shown(known)),
        Kind::Table => (TABLE_HEAD.as_bytes(), known.table.as_bytes()),
        Kind::Rows => (b"", known.text.as_bytes()),
    };
    Wanted { head, rest }
}

/// Takes a text off the front of what is to be handed out.
fn take_off<'a>(
    rt: &impl Abort,
    text: &[u8],
    wanted: Wanted<'a>,
    place: &(&str, usize),
) -> Wanted<'a> {
    let (head, rows) = text.split_at(wanted.head.len().min(text.len()));
    equal_at(rt, &head, &wanted.head, place);
    let (front, rest) = wanted.rest.split_at(rows.len().min(wanted.rest.len()));
    equal_at(rt, &rows, &front, place);
    Wanted { head: b"", rest }
}

/// Feeds a piece with which a chain begins, of which so many files have ended.
fn feed<'a>(
    rt: &impl Abort,
    stream: &mut ChainStream,
    piece: &[u8],
    files: u64,
    wanted: Wanted<'a>,
    place: &(&str, usize),
) -> Wanted<'a> {
    let (text, answer) = stream.feed(piece);
    equal_at(rt, &answer, &Ok(files), place);
    take_off(rt, text.as_slice(), wanted, place)
}

/// Asks for the end.
fn finish<'a>(
    rt: &impl Abort,
    stream: &mut ChainStream,
    found: Result<u64, ReportFault>,
    wanted: Wanted<'a>,
    place: &(&str, usize),
) -> Wanted<'a> {
    let (text, answer) = stream.finish();
    equal_at(rt, &answer, &found, place);
    take_off(rt, text.as_slice(), wanted, place)
}

/// How many files of a known input have ended after that many bytes.
fn files_of(known: &Known, count: usize) -> u64 {
    let mut files = 0;
    for end in known.ends {
        if end.0 <= count {
            files = end.1;
        }
    }
    files as u64
}

/// What is found of that many bytes of a known input.
fn found(known: &Known, count: usize) -> Result<u64, ReportFault> {
    if count == known.first || count == known.bytes.len() {
        Ok(files_of(known, count))
    } else {
        let place = count as u64;
        Err(ReportFault::Decode(Fault::Truncated { place }))
    }
}

/// Feeds a known input in two pieces, and asks for the end after each.
fn in_two(
    rt: &impl Abort,
    alloc: Global,
    kind: Kind,
    known: &Known,
    wanted: Wanted,
    first: &[u8],
    second: &[u8],
) {
    let (k, all) = (first.len(), known.bytes.len());
    let place = &(known.name, k);
    let mut stream = ChainStream::new(alloc, kind).expect(rt, "a stream");
    let left = feed(rt, &mut stream, first, files_of(known, k), wanted, place);
    let left = finish(rt, &mut stream, found(known, k), left, place);
    let left = feed(rt, &mut stream, second, files_of(known, all), left, place);
    let left = finish(rt, &mut stream, found(known, all), left, place);
    equal_at(rt, &left.rest.len(), &0, place);
}

/// Feeds an input in two pieces, for each place between them. In the last turn it comes whole.
fn cut_anywhere(rt: &impl Abort, alloc: Global, kind: Kind, known: &Known, wanted: Wanted) {
    let bytes = known.bytes;
    for k in 0..bytes.len() {
        in_two(rt, alloc, kind, known, wanted, &bytes[..k], &bytes[k..]);
    }
    in_two(rt, alloc, kind, known, wanted, bytes, b"");
}

#[test]
fn known_texts(rt: HostRuntime) {
    for known in files() {
        for kind in [Kind::Check, Kind::Show, Kind::Table, Kind::Rows] {
            cut_anywhere(&rt, rt.alloc(), kind, &known, text_of(kind, &known));
        }
    }
}

/// The first block and those after it. A block has two bytes that aren't 0 of its length at most, and that many bytes.
fn first_block(blocks: &[u8]) -> Option<(&[u8], &[u8])> {
    let (low, high) = (*blocks.first()?, *blocks.get(1)?);
    let length = usize::from(u16::from_le_bytes([low, high]));
    if length < 24 || length > blocks.len() {
        return None;
    }
    Some(blocks.split_at(length))
}

/// Asserts that there is a block for each header, record and end of a file of a known input, and that each tells at 16 where that
/// begins.
fn at_their_places(rt: &impl Abort, blocks: &[u8], known: &Known) {
    let (mut left, mut place) = (blocks, 0);
    for end in known.ends {
        let (block, rest) = first_block(left).expect(rt, "a block");
        let wanted = (place as u64).to_le_bytes();
        equal_at(
            rt,
            &block.get(16..24),
            &Some(wanted.as_slice()),
            &known.name,
        );
        left = rest;
        place = end.0;
    }
    equal_at(rt, &left.len(), &0, &known.name);
}

/// The blocks of a known input, which comes whole.
fn blocks_of(rt: &impl Abort, alloc: Global, known: &Known) -> Vec<u8> {
    let mut stream = ChainStream::new(alloc, Kind::Messages).expect(rt, "a stream");
    let (blocks, answer) = stream.feed(known.bytes);
    equal_at(rt, &answer, &found(known, known.bytes.len()), &known.name);
    blocks
}

#[test]
fn known_blocks(rt: HostRuntime) {
    for known in files() {
        let blocks = blocks_of(&rt, rt.alloc(), &known);
        at_their_places(&rt, blocks.as_slice(), &known);
        let wanted = Wanted {
            head: b"",
            rest: blocks.as_slice(),
        };
        cut_anywhere(&rt, rt.alloc(), Kind::Messages, &known, wanted);
    }
}

/// Asserts that a stream of the kind refuses the byte after the first file, with the text of that file, and again without any.
fn refuses(rt: &impl Abort, alloc: Global, kind: Kind, known: &Known, bytes: &[u8]) {
    let place = &(known.name, bytes.len());
    let reason = Reason::HeaderSize;
    let refused = ReportFault::Decode(Fault::Refused {
        place: known.first as u64,
        reason,
    });
    let mut stream = ChainStream::new(alloc, kind).expect(rt, "a stream");
    let (text, answer) = stream.feed(bytes);
    equal_at(rt, &answer, &Err(refused), place);
    let left = take_off(rt, text.as_slice(), text_of(kind, known), place);
    equal_at(rt, &left.rest.len(), &0, place);
    let (text, answer) = stream.feed(known.bytes);
    equal_at(rt, &(text.len(), answer), &(0, Err(refused)), place);
    let (text, answer) = stream.finish();
    equal_at(rt, &(text.len(), answer), &(0, Err(refused)), place);
}

#[test]
fn a_refused_byte(rt: HostRuntime) {
    // A known file and a byte with which no file begins.
    let mut bytes = Vec::from_slice(rt.alloc(), &BOTH_ORDERS).expect(&rt, "memory");
    bytes.push(1).expect(&rt, "memory");
    for known in files() {
        if known.name == "orders" {
            for kind in [Kind::Check, Kind::Show, Kind::Table, Kind::Rows] {
                refuses(&rt, rt.alloc(), kind, &known, bytes.as_slice());
            }
        }
    }
}
