//! The program `fit`, which checks files of the FIT protocol.
#![tactic(auto)]

mod output;
#[cfg(test)]
mod tests;

use crate::output::Output;
use fit_decode::ReadSource;
use fit_encode::{CutSink, WriteSink};
use fit_run::{
    BAD_USAGE, Command, FAILED, GOOD, Line, LineFault, NO_MEMORY, OUT_OF_MEMORY, WRITE_FAULT,
    parse_line, run,
};
use std::alloc::Global;
use std::fs::File;
use std::io;
use std::io::{BufReader, BufWriter, ErrorKind, Read, Write};
use std::process::ExitCode;

const USAGE: &str = "usage: fit check|show|to-csv|from-csv|table [FILE]";

/// How many bytes of a text are read at once.
const TEXT: usize = 64 * 1024;

/// Texts of fewer bytes are kept until there are as many to be written at once. A longer one is written without a copy.
const OUTPUT: usize = 8 * 1024;

/// Room for the fault lines of a run: two at most, of 64 bytes each.
const FAULTS: usize = 128;

fn main(rt: HostRuntime) -> ExitCode {
    let status = match words(&rt) {
        Ok(words) => run_line(&rt, words.as_slice()),
        Err(ErrorKind::OutOfMemory) => out_of_memory(&rt),
        Err(_) => {
            let _ = eprintln!(rt; "a word of the command line isn't UTF-8");
            let _ = eprintln!(rt; "use < for a FILE with such a name");
            bad_usage(&rt)
        }
    };
    ExitCode::from(status)
}

/// The words of the command line, the first of which is the program's name.
fn words(rt: &HostRuntime) -> Result<Vec<String>, ErrorKind> {
    let mut words = Vec::new(rt.alloc());
    for word in std::env::args(rt).map_err(|error| error.kind())? {
        if words.push(word).is_err() {
            return Err(ErrorKind::OutOfMemory);
        }
    }
    Ok(words)
}

/// Does what the words ask for, and returns the exit status.
fn run_line(rt: &HostRuntime, words: &[String]) -> u8 {
    match parse_line(rt.alloc(), words) {
        Ok(Line { command, path }) => match path {
            Some(path) if path.as_str() != "-" => run_file(rt, command, path.as_str()),
            _ => run_reader(rt, command, rt.stdin()),
        },
        Err(LineFault::Usage) => {
            let status = bad_usage(rt);
            if is_dashed(words) {
                let _ = eprintln!(rt; "use -- before a FILE that begins with -");
            }
            status
        }
        Err(LineFault::Help) => help(rt),
        Err(LineFault::NoMemory) => out_of_memory(rt),
    }
}

/// Whether the word in the place of FILE begins with a dash, and may still be meant as a name.
fn is_dashed(words: &[String]) -> bool {
    match words {
        [_, _, file, ..] => file.starts_with('-') && !matches!(file.as_str(), "-" | "--"),
        _ => false,
    }
}

/// Runs a command on a file. Where it can't be opened, a second line says why; a folder can be opened, but not read.
fn run_file(rt: &HostRuntime, command: Command, path: &str) -> u8 {
    match File::open(rt, path) {
        Ok(file) => {
            let is_folder = file.metadata().is_ok_and(|about| about.is_dir());
            let status = run_reader(rt, command, file);
            if is_folder {
                let _ = eprintln!(rt; "{path} is a folder");
            }
            status
        }
        Err(error) => {
            let _ = eprintln!(rt; "cannot open {path}");
            let _ = eprintln!(rt; "{error}");
            FAILED
        }
    }
}

/// How many bytes stand between a reader and a command. A recording is read right into its pieces, which are as long themselves.
fn buffer_size(command: Command) -> usize {
    match command {
        Command::FromCsv => TEXT,
        _ => 0,
    }
}

/// Runs a command on what a reader gives. The output goes through a buffer, which is flushed before
/// the status is made. Where the output is a pipe that nobody reads any more, nothing is said of that.
fn run_reader<R: Read + Drop>(rt: &HostRuntime, command: Command, reader: R) -> u8 {
    let alloc: Global = rt.alloc();
    let Ok(reader) = BufReader::with_capacity(alloc, buffer_size(command), reader) else {
        return out_of_memory(rt);
    };
    let output = Output::new(rt.stdout());
    let Ok(mut writer) = BufWriter::with_capacity(alloc, OUTPUT, output) else {
        return out_of_memory(rt);
    };
    let mut source = ReadSource::new(reader);
    let mut sink = WriteSink::new(&mut writer);
    let mut faults = CutSink::<FAULTS>::new(FAULTS);
    let status = run(alloc, command, &mut source, &mut sink, &mut faults);
    let flushed = writer.flush();
    let closed = writer.get_ref().is_closed();
    if !closed || faults.bytes() != WRITE_FAULT.as_bytes() {
        let _ = rt.stderr().write_all(faults.bytes());
    }
    if flushed.is_ok() || status == FAILED {
        return status;
    }
    if !closed {
        let _ = eprint!(rt; "{WRITE_FAULT}");
    }
    FAILED
}

/// Where the output is a pipe that nobody reads any more, nothing is said of that.
fn help(rt: &HostRuntime) -> u8 {
    match println!(rt; "{USAGE}") {
        Ok(()) => GOOD,
        Err(error) => {
            if error.kind() != ErrorKind::BrokenPipe {
                let _ = eprint!(rt; "{WRITE_FAULT}");
            }
            FAILED
        }
    }
}

fn bad_usage(rt: &HostRuntime) -> u8 {
    let _ = eprintln!(rt; "{USAGE}");
    BAD_USAGE
}

fn out_of_memory(rt: &HostRuntime) -> u8 {
    let _ = eprint!(rt; "{OUT_OF_MEMORY}");
    NO_MEMORY
}
