//! The writers, into sinks that take no memory.
use fit_decode::read_chain;
use fit_encode::{CutSink, EncodeFault, Encoder, write_chain, write_one};
use fit_record::{Env, FitFile, Record};
use std::alloc::Global;
use std::io;

/// Prints a result, and the bytes that went out.
fn tell(rt: &HostRuntime, answer: Result<(), EncodeFault>, bytes: &[u8]) -> io::Result<()> {
    match answer {
        Ok(()) => println!(rt; "{bytes:?}"),
        Err(EncodeFault::NoMemory) => println!(rt; "out of memory: {bytes:?}"),
        Err(fault) => println!(rt; "{fault:?}: {bytes:?}"),
    }
}

/// The first file, written again.
pub fn one(rt: &HostRuntime, input: &[u8]) -> io::Result<()> {
    let mut source = input;
    match read_chain(rt.alloc(), &mut source) {
        Ok(files) => each_of(rt, files.as_slice()),
        Err(_) => println!(rt; "no input"),
    }
}

/// One file after another, until one is not written.
fn each_of(rt: &HostRuntime, files: &[FitFile]) -> io::Result<()> {
    let mut sink = CutSink::<256>::new(256);
    for file in files {
        let answer = write_one(rt.alloc(), &mut sink, file);
        tell(rt, answer, sink.bytes())?;
        if answer.is_err() {
            return Ok(());
        }
    }
    Ok(())
}

/// All files, written again.
pub fn chain(rt: &HostRuntime, input: &[u8]) -> io::Result<()> {
    let mut source = input;
    match read_chain(rt.alloc(), &mut source) {
        Ok(files) => chain_of(rt, files.as_slice()),
        Err(_) => println!(rt; "no input"),
    }
}

fn chain_of(rt: &HostRuntime, files: &[FitFile]) -> io::Result<()> {
    let mut sink = CutSink::<256>::new(256);
    let answer = write_chain(rt.alloc(), &mut sink, files);
    tell(rt, answer, sink.bytes())
}

/// How many bytes the records of a file have.
fn data_len(alloc: Global, records: &[Record]) -> Option<u32> {
    let mut env = Env::new(alloc);
    let mut sum: u32 = 0;
    for record_ in records {
        let Ok(size) = env.fits(record_) else {
            return None;
        };
        if env.learn(record_).is_err() {
            return None;
        }
        sum = sum.checked_add(size)?;
    }
    Some(sum)
}

/// All files, record by record. A record that was refused memory is put once more.
pub fn record_by_record(rt: &HostRuntime, input: &[u8]) -> io::Result<()> {
    let mut source = input;
    match read_chain(rt.alloc(), &mut source) {
        Ok(files) => records_of(rt, files.as_slice()),
        Err(_) => println!(rt; "no input"),
    }
}

fn records_of(rt: &HostRuntime, files: &[FitFile]) -> io::Result<()> {
    let mut sink = CutSink::<256>::new(256);
    for file in files {
        let Some(size) = data_len(rt.alloc(), file.records.as_slice()) else {
            return println!(rt; "no input");
        };
        if let Err(fault) = put_all_of(rt, &mut sink, file, size)? {
            return println!(rt; "{fault:?}");
        }
    }
    println!(rt; "{:?}", sink.bytes())
}

/// Writes a file of that many bytes of data. After each record it prints how many bytes have gone out.
fn put_all_of(
    rt: &HostRuntime,
    sink: &mut CutSink<256>,
    file: &FitFile,
    size: u32,
) -> io::Result<Result<(), EncodeFault>> {
    let mut encoder = match Encoder::begin(rt.alloc(), sink, &file.header, size) {
        Ok(encoder) => encoder,
        Err(fault) => return Ok(Err(fault)),
    };
    println!(rt; "{} bytes", sink.bytes().len())?;
    for record_ in file.records.as_slice() {
        let answer = put(rt, sink, &mut encoder, record_)?;
        if answer.is_err() {
            return Ok(answer);
        }
    }
    Ok(encoder.finish(sink))
}

/// Puts a record, or puts it once more, and prints how many bytes have gone out.
fn put(
    rt: &HostRuntime,
    sink: &mut CutSink<256>,
    encoder: &mut Encoder,
    record_: &Record,
) -> io::Result<Result<(), EncodeFault>> {
    let mut answer = encoder.put(sink, record_);
    if answer == Err(EncodeFault::NoMemory) {
        println!(rt; "once more\n{} bytes", sink.bytes().len())?;
        answer = encoder.put(sink, record_);
    }
    if answer.is_ok() {
        println!(rt; "{} bytes", sink.bytes().len())?;
    }
    Ok(answer)
}
