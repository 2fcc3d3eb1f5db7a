//! The decoder and the readers.
use fit_decode::{Decoder, Event, Fault, Reading, read_chain, read_one};
use fit_record::FitFile;
use std::alloc::Global;
use std::io;

/// Prints the fault of a reader that has taken that many bytes.
fn tell_fault(rt: &HostRuntime, fault: Fault, taken: usize) -> io::Result<()> {
    match fault {
        Fault::NoMemory { used } => println!(rt; "out of memory: {used} used of {taken} taken"),
        _ => println!(rt; "{fault:?}"),
    }
}

/// The first file, and how many bytes are left.
pub fn one(rt: &HostRuntime, input: &[u8]) -> io::Result<()> {
    let mut source = input;
    match read_one(rt.alloc(), &mut source) {
        Ok(file) => println!(rt; "{file:?}\n{} bytes are left", source.len()),
        Err(fault) => tell_fault(rt, fault, input.len().saturating_sub(source.len())),
    }
}

/// All files.
pub fn chain(rt: &HostRuntime, input: &[u8]) -> io::Result<()> {
    let mut source = input;
    match read_chain(rt.alloc(), &mut source) {
        Ok(files) => tell_files(rt, files.as_slice(), source.len()),
        Err(fault) => tell_fault(rt, fault, input.len().saturating_sub(source.len())),
    }
}

/// Prints files, and how many bytes are left after them.
fn tell_files(rt: &HostRuntime, files: &[FitFile], left: usize) -> io::Result<()> {
    for file in files {
        println!(rt; "{file:?}")?;
    }
    println!(rt; "{left} bytes are left")
}

/// One file after another, what is returned after the last, and how many bytes are left. A fault is returned again.
pub fn file_by_file(rt: &HostRuntime, input: &[u8]) -> io::Result<()> {
    let mut reading = Reading::new(rt.alloc(), input);
    for _ in 0..=input.len() {
        if !next_file(rt, &mut reading)? {
            break;
        }
    }
    println!(rt; "{} bytes are left", reading.into_source().len())
}

/// Prints the next file, or what is returned in its place, and says whether there was one.
fn next_file(rt: &HostRuntime, reading: &mut Reading<&[u8]>) -> io::Result<bool> {
    match reading.next() {
        Ok(Some(file)) => {
            println!(rt; "{file:?}")?;
            return Ok(true);
        }
        Ok(None) => println!(rt; "end")?,
        Err(Fault::NoMemory { used }) => {
            let again = reading.next().err() == Some(Fault::NoMemory { used });
            println!(rt; "out of memory: {used} used, answered again: {again}")?;
        }
        Err(fault) => println!(rt; "{fault:?}")?,
    }
    Ok(false)
}

/// What each byte completes, and what is needed and held after it. A byte that was refused memory is fed once more.
pub fn byte_by_byte(rt: &HostRuntime, input: &[u8]) -> io::Result<()> {
    let mut decoder = Decoder::new(rt.alloc());
    for (place, byte) in input.iter().enumerate() {
        if !feed(rt, &mut decoder, place, *byte)? {
            return Ok(());
        }
    }
    println!(rt; "{:?}", decoder.finish())
}

/// Feeds the byte at a place, or feeds it once more, and says whether it was taken.
fn feed(rt: &HostRuntime, decoder: &mut Decoder, place: usize, byte: u8) -> io::Result<bool> {
    let mut answer = decoder.feed(&[byte]);
    if let Err(Fault::NoMemory { used: 0 }) = answer {
        println!(rt; "once more")?;
        answer = decoder.feed(&[byte]);
    }
    match answer {
        Ok(fed) => tell(rt, place, fed.used, &fed.event)?,
        Err(fault) => {
            println!(rt; "{fault:?}")?;
            return Ok(false);
        }
    }
    println!(rt; "need {}, held {}", decoder.need(), decoder.held())?;
    Ok(true)
}

/// Prints an event.
fn tell(rt: &HostRuntime, place: usize, used: usize, event: &Event) -> io::Result<()> {
    match event {
        Event::More => println!(rt; "{place}: {used}"),
        Event::Header(header, size) => println!(rt; "{place}: {used}, {header:?}, {size}"),
        Event::Item(record_) => println!(rt; "{place}: {used}, {record_:?}"),
        Event::FileEnd => println!(rt; "{place}: {used}, end of a file"),
    }
}

/// The number of cuts, and of byte by byte as one more, at which the events end as they do in one piece.
pub fn cut_anywhere(rt: &HostRuntime, input: &[u8]) -> io::Result<()> {
    match cut(rt.alloc(), input) {
        Ok(number) => println!(rt; "{number}"),
        Err(fault) => println!(rt; "{fault:?}"),
    }
}

fn cut(alloc: Global, bytes: &[u8]) -> Result<usize, Fault> {
    let whole = event_ends(alloc, &[bytes])?;
    let mut same = 0usize;
    for k in 0..bytes.len() {
        let (first, second) = bytes.split_at(k);
        if ends_are(alloc, &[first, second], whole.as_slice())? {
            same = same.saturating_add(1);
        }
    }
    if byte_ends_are(alloc, bytes, whole.as_slice())? {
        same = same.saturating_add(1);
    }
    Ok(same)
}

/// Whether the events of these pieces end after that many bytes each.
fn ends_are(alloc: Global, pieces: &[&[u8]], ends: &[usize]) -> Result<bool, Fault> {
    Ok(event_ends(alloc, pieces)?.as_slice() == ends)
}

/// Whether the events of pieces of one byte end after that many bytes each.
fn byte_ends_are(alloc: Global, bytes: &[u8], ends: &[usize]) -> Result<bool, Fault> {
    let mut single = Vec::new(alloc);
    for byte in bytes.chunks(1) {
        keep(&mut single, byte)?;
    }
    ends_are(alloc, single.as_slice(), ends)
}

/// After how many bytes each event ends.
fn event_ends(alloc: Global, pieces: &[&[u8]]) -> Result<Vec<usize>, Fault> {
    let mut decoder = Decoder::new(alloc);
    let mut ends = Vec::new(alloc);
    let mut place = 0usize;
    for piece in pieces {
        keep_ends(&mut decoder, piece, place, &mut ends)?;
        place = place.saturating_add(piece.len());
    }
    decoder.finish()?;
    Ok(ends)
}

/// Feeds a piece that has that many bytes before it.
fn keep_ends(
    decoder: &mut Decoder,
    piece: &[u8],
    before: usize,
    ends: &mut Vec<usize>,
) -> Result<(), Fault> {
    let mut rest = piece;
    for _ in 0..=piece.len() {
        let fed = decoder.feed(rest)?;
        let (_, more) = rest.split_at(fed.used);
        rest = more;
        if let Event::More = fed.event {
            break;
        }
        let used = piece.len().saturating_sub(rest.len());
        keep(ends, before.saturating_add(used))?;
    }
    Ok(())
}

/// Puts a value after the others.
fn keep<T: Drop>(values: &mut Vec<T>, value: T) -> Result<(), Fault> {
    values.push(value).map_err(|_| Fault::NoMemory { used: 0 })
}
