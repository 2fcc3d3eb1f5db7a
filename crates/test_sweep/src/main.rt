//! Makes the call that the last word of the command line names, on standard input, and prints what it returns, value by value.
//!
//! `tests/growths` runs it with each growth of memory refused in turn: the readers, the writers and the conversions take memory from
//! `Global`, which a test in the language can't make refuse.
#![tactic(auto)]

mod converting;
mod document;
mod meaning;
mod reading;
mod recording;
mod writing;

use std::io;
use std::io::Read;

/// Where memory is refused before the call, there is no input.
fn main(rt: HostRuntime) -> io::Result<()> {
    let mut input = Vec::new(rt.alloc());
    if rt.stdin().read_to_end(&mut input).is_err() {
        return println!(rt; "no input");
    }
    let Ok(call) = last_word(&rt) else {
        return println!(rt; "no input");
    };
    make(&rt, call.as_str(), input.as_slice())
}

/// Makes a call on an input.
fn make(rt: &HostRuntime, call: &str, input: &[u8]) -> io::Result<()> {
    match call {
        "read_one" => reading::one(rt, input),
        "read_chain" => reading::chain(rt, input),
        "next" => reading::file_by_file(rt, input),
        "feed" => reading::byte_by_byte(rt, input),
        "cut" => reading::cut_anywhere(rt, input),
        "write_one" => writing::one(rt, input),
        "write_chain" => writing::chain(rt, input),
        "put" => writing::record_by_record(rt, input),
        "learn" => meaning::learned(rt, input),
        "push" => meaning::pushed(rt, input),
        "cell_text" => meaning::as_cells(rt, input),
        "cell_items" => meaning::from_cells(rt, input),
        "to_csv" => converting::rows(rt, input),
        "table" => converting::records(rt, input),
        "from_csv" => converting::bytes(rt, input),
        "document" => document::with_a_long_end(rt, input),
        "recording" => recording::write(rt),
        _ => println!(rt; "no such call"),
    }
}

/// The last word of the command line.
fn last_word(rt: &HostRuntime) -> io::Result<String> {
    let mut last = String::new(rt.alloc());
    for word in std::env::args(rt)? {
        last = word;
    }
    Ok(last)
}
