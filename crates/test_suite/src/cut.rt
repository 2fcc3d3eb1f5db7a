//! Inputs cut at each place, and sources and sinks that fail there.

use crate::asserts::{equal, holds_at};
use crate::reading::has_bytes;
use fit_decode::{CutSource, Fault, Reading, Source, read_chain, read_one};
use fit_encode::{CutSink, EncodeFault, Encoder, write_chain, write_one};
use fit_record::{FitFile, Record};
use std::alloc::Global;
use std::process::Abort;
use test_known::{Known, files};

/// How many files of an input are whole in that many of its bytes.
fn whole_files(known: &Known, count: usize) -> usize {
    if count < known.first {
        0
    } else if known.first == known.bytes.len() || count < known.bytes.len() {
        1
    } else {
        2
    }
}

/// Whether these are the first files of an input, that many and no more.
fn are_first(alloc: Global, known: &Known, files: &[FitFile], count: usize) -> bool {
    let mut rest = known.bytes;
    for (place, file) in files.iter().enumerate() {
        let end = if place == 0 { known.first } else { rest.len() };
        let (bytes, more) = rest.split_at(end.min(rest.len()));
        if !has_bytes(alloc, file, bytes) {
            return false;
        }
        rest = more;
    }
    files.len() == count
}

/// Whether the next file of a reading has these bytes.
pub fn has_next<S: Source + Drop>(alloc: Global, reading: &mut Reading<S>, bytes: &[u8]) -> bool {
    match reading.next() {
        Ok(Some(file)) => has_bytes(alloc, &file, bytes),
        _ => false,
    }
}

/// Whether a reading ends so.
pub fn ends<S: Source + Drop>(reading: &mut Reading<S>, end: Option<Fault>) -> bool {
    match reading.next() {
        Ok(file) => file.is_none() && end.is_none(),
        Err(fault) => end == Some(fault),
    }
}

/// Reads file by file what a source gives of an input: that many files, and then this result, each time that it is asked.
fn read_each<S: Source + Drop>(
    rt: &impl Abort,
    alloc: Global,
    known: &Known,
    reading: &mut Reading<S>,
    count: usize,
    end: Option<Fault>,
) {
    let mut rest = known.bytes;
    for place in 0..count {
        let size = if place == 0 { known.first } else { rest.len() };
        let (bytes, more) = rest.split_at(size.min(rest.len()));
        holds_at(rt, has_next(alloc, reading, bytes), &known.name);
        rest = more;
    }
    for _ in 0..2 {
        holds_at(rt, ends(reading, end), &known.name);
    }
}

/// Whether `read_one` returns the first file of an input, where first bytes of the input have it, or else this fault.
fn is_first(
    alloc: Global,
    known: &Known,
    cut: &[u8],
    read: Result<FitFile, Fault>,
    fault: Fault,
) -> bool {
    let whole = whole_files(known, cut.len()) > 0;
    match read {
        Ok(file) => whole && has_bytes(alloc, &file, &cut[..known.first.min(cut.len())]),
        Err(found) => !whole && found == fault,
    }
}

/// Whether `read_chain` returns the files of first bytes of an input, or this fault.
fn is_chain(
    alloc: Global,
    known: &Known,
    cut: &[u8],
    read: Result<Vec<FitFile>, Fault>,
    fault: Option<Fault>,
) -> bool {
    match read {
        Ok(files) => {
            let count = whole_files(known, cut.len());
            fault.is_none() && are_first(alloc, known, files.as_slice(), count)
        }
        Err(found) => fault == Some(found),
    }
}

/// Reads first bytes of an input, which are whole files or end in one.
fn read_cut(rt: &impl Abort, alloc: Global, known: &Known, cut: &[u8]) {
    let k = cut.len();
    let fault = Fault::Truncated { place: k as u64 };
    let one = read_one(alloc, &mut &cut[..]);
    holds_at(
        rt,
        is_first(alloc, known, cut, one, fault),
        &(known.name, k),
    );
    let end = if k == known.first || k == known.bytes.len() {
        None
    } else {
        Some(fault)
    };
    let chain = read_chain(alloc, &mut &cut[..]);
    holds_at(
        rt,
        is_chain(alloc, known, cut, chain, end),
        &(known.name, k),
    );
    let mut reading = Reading::new(alloc, cut);
    read_each(rt, alloc, known, &mut reading, whole_files(known, k), end);
}

#[test]
fn inputs_cut_anywhere(rt: HostRuntime) {
    let alloc = rt.alloc();
    for known in files() {
        for k in 0..known.bytes.len() {
            read_cut(&rt, alloc, &known, &known.bytes[..k]);
        }
        read_cut(&rt, alloc, &known, known.bytes);
    }
}

/// Reads an input from a source that fails after first bytes. Where the bytes of a file were there, no more were asked for.
fn read_failing(rt: &impl Abort, alloc: Global, known: &Known, cut: &[u8]) {
    let k = cut.len();
    let fault = Fault::Read { place: k as u64 };
    let mut source = CutSource::new(known.bytes, k);
    let one = read_one(alloc, &mut source);
    holds_at(rt, source.failed() == one.is_err(), &(known.name, k));
    holds_at(
        rt,
        is_first(alloc, known, cut, one, fault),
        &(known.name, k),
    );
    let mut source = CutSource::new(known.bytes, k);
    let chain = read_chain(alloc, &mut source);
    holds_at(
        rt,
        is_chain(alloc, known, cut, chain, Some(fault)),
        &(known.name, k),
    );
    let mut reading = Reading::new(alloc, CutSource::new(known.bytes, k));
    read_each(
        rt,
        alloc,
        known,
        &mut reading,
        whole_files(known, k),
        Some(fault),
    );
}

#[test]
fn sources_that_fail_anywhere(rt: HostRuntime) {
    let alloc = rt.alloc();
    for known in files() {
        for k in 0..known.bytes.len() {
            read_failing(&rt, alloc, &known, &known.bytes[..k]);
        }
    }
}

/// Puts a record. After a fault each later call returns it again.
fn put(
    rt: &impl Abort,
    encoder: &mut Encoder,
    sink: &mut CutSink<128>,
    record_: &Record,
) -> Result<(), EncodeFault> {
    let answer = encoder.put(sink, record_);
    if answer.is_err() {
        equal(rt, &encoder.put(sink, record_), &answer);
        equal(rt, &encoder.finish(sink), &answer);
    }
    answer
}

/// Ends a file. After a fault a later call returns it again.
fn finish(
    rt: &impl Abort,
    encoder: &mut Encoder,
    sink: &mut CutSink<128>,
) -> Result<(), EncodeFault> {
    let answer = encoder.finish(sink);
    if answer.is_err() {
        equal(rt, &encoder.finish(sink), &answer);
    }
    answer
}

/// Writes a file of that many bytes record by record.
fn encode(
    rt: &impl Abort,
    alloc: Global,
    sink: &mut CutSink<128>,
    file: &FitFile,
    count: usize,
) -> Result<(), EncodeFault> {
    let size = count
        .saturating_sub(usize::from(file.header.size))
        .saturating_sub(2);
    let size = u32::try_from(size).unwrap_or(0);
    let mut encoder = Encoder::begin(alloc, sink, &file.header, size)?;
    for record_ in file.records.as_slice() {
        put(rt, &mut encoder, sink, record_)?;
    }
    finish(rt, &mut encoder, sink)
}

/// Whether this is what a writer of that many first bytes of an input returns and has put, where the sink takes these bytes alone.
fn is_cut(answer: Result<(), EncodeFault>, sink: &CutSink<128>, size: usize, cut: &[u8]) -> bool {
    let k = cut.len();
    let wanted = if k < size {
        Err(EncodeFault::Write { written: k as u64 })
    } else {
        Ok(())
    };
    answer == wanted && sink.bytes() == &cut[..size.min(k)]
}

/// Writes the first file of an input to a sink that takes these bytes alone.
fn write_first(rt: &impl Abort, alloc: Global, known: &Known, file: &FitFile, cut: &[u8]) {
    let k = cut.len();
    let mut sink = CutSink::<128>::new(k);
    let answer = write_one(alloc, &mut sink, file);
    holds_at(
        rt,
        is_cut(answer, &sink, known.first, cut),
        &(known.name, k),
    );
    let mut sink = CutSink::<128>::new(k);
    let answer = encode(rt, alloc, &mut sink, file, known.first);
    holds_at(
        rt,
        is_cut(answer, &sink, known.first, cut),
        &(known.name, k),
    );
}

/// Writes the files of an input to a sink that takes these bytes alone, and the first of them.
fn write_cut(rt: &impl Abort, alloc: Global, known: &Known, files: &[FitFile], cut: &[u8]) {
    let k = cut.len();
    let mut sink = CutSink::<128>::new(k);
    let answer = write_chain(alloc, &mut sink, files);
    let size = known.bytes.len();
    holds_at(rt, is_cut(answer, &sink, size, cut), &(known.name, k));
    if let Some(file) = files.first() {
        write_first(rt, alloc, known, file, cut);
    }
}

#[test]
fn sinks_that_fail_anywhere(rt: HostRuntime) {
    let alloc = rt.alloc();
    for known in files() {
        let files = read_chain(alloc, &mut &known.bytes[..]).expect(&rt, "files");
        for k in 0..known.bytes.len() {
            write_cut(&rt, alloc, &known, files.as_slice(), &known.bytes[..k]);
        }
    }
}
