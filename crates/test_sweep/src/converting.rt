//! The conversions, into sinks that take no memory.
use fit_csv::{CsvFault, from_csv, table, to_csv};
use fit_encode::CutSink;
use std::io;

/// Prints a result, and the text that went out.
fn tell(rt: &HostRuntime, answer: Result<(), CsvFault>, text: &[u8]) -> io::Result<()> {
    let Ok(text) = std::str::from_utf8(text) else {
        return println!(rt; "no text");
    };
    match answer {
        Ok(()) => println!(rt; "{text}"),
        Err(CsvFault::NoMemory) => println!(rt; "out of memory: {text}"),
        Err(fault) => println!(rt; "{fault:?}: {text}"),
    }
}

/// The CSV text.
pub fn rows(rt: &HostRuntime, input: &[u8]) -> io::Result<()> {
    let mut source = input;
    let mut sink = CutSink::<2048>::new(2048);
    let answer = to_csv(rt.alloc(), &mut source, &mut sink);
    tell(rt, answer, sink.bytes())
}

/// The table.
pub fn records(rt: &HostRuntime, input: &[u8]) -> io::Result<()> {
    let mut source = input;
    let mut sink = CutSink::<2048>::new(2048);
    let answer = table(rt.alloc(), &mut source, &mut sink);
    tell(rt, answer, sink.bytes())
}

/// The bytes of a CSV text.
pub fn bytes(rt: &HostRuntime, input: &[u8]) -> io::Result<()> {
    let mut source = input;
    let mut sink = CutSink::<256>::new(256);
    let answer = from_csv(rt.alloc(), &mut source, &mut sink);
    tell_bytes(rt, answer, sink.bytes())
}

/// Prints a result, and the bytes that went out.
fn tell_bytes(rt: &HostRuntime, answer: Result<(), CsvFault>, bytes: &[u8]) -> io::Result<()> {
    match answer {
        Ok(()) => println!(rt; "{bytes:?}"),
        Err(CsvFault::NoMemory) => println!(rt; "out of memory: {bytes:?}"),
        Err(fault) => println!(rt; "{fault:?}: {bytes:?}"),
    }
}
