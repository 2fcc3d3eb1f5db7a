//! Command lines.

use crate::tests::asserts::equal_at;
use fit_run::{Command, LineFault, parse_line};
use std::alloc::Global;
use std::process::Abort;

fn words(rt: &impl Abort, alloc: Global, line: &str) -> Vec<String> {
    let mut words = Vec::new(alloc);
    for word in line.split(' ') {
        let word = String::from_str(alloc, word).expect(rt, "memory");
        words.push(word).expect(rt, "memory");
    }
    words
}

#[test]
fn lines(rt: HostRuntime) {
    for (line, want) in [
        ("fit check", Ok((Command::Check, None))),
        ("fit check a.fit", Ok((Command::Check, Some("a.fit")))),
        ("fit show a.fit", Ok((Command::Show, Some("a.fit")))),
        ("fit to-csv a.fit", Ok((Command::ToCsv, Some("a.fit")))),
        ("fit from-csv a.csv", Ok((Command::FromCsv, Some("a.csv")))),
        ("fit table", Ok((Command::Table, None))),
        ("fit table a.fit", Ok((Command::Table, Some("a.fit")))),
        ("fit show", Ok((Command::Show, None))),
        ("fit to-csv", Ok((Command::ToCsv, None))),
        ("fit from-csv", Ok((Command::FromCsv, None))),
        ("fit", Err(LineFault::Usage)),
        ("fit frob", Err(LineFault::Usage)),
        ("fit Check", Err(LineFault::Usage)),
        ("fit ", Err(LineFault::Usage)),
        ("fit check a b", Err(LineFault::Usage)),
        ("fit --help", Err(LineFault::Help)),
        ("fit check --help", Err(LineFault::Help)),
        ("fit check -x", Err(LineFault::Usage)),
        ("fit check -- -a", Ok((Command::Check, Some("-a")))),
        ("fit check -", Ok((Command::Check, Some("-")))),
    ] {
        let words = words(&rt, rt.alloc(), line);
        let parsed = parse_line(rt.alloc(), words.as_slice());
        let found = match &parsed {
            Ok(found) => Ok((found.command, found.path.as_ref().map(|path| path.as_str()))),
            Err(fault) => Err(*fault),
        };
        equal_at(&rt, &found, &want, &line);
    }
}
