//! Feeds standard input to a `Decoder` and prints how many events it reported. `bench/run` measures with it how long
//! it takes to make each record whole.
#![tactic(auto)]

use fit_decode::{Decoder, Event, Fault};
use std::alloc::Global;
use std::io;
use std::io::Read;

/// How many bytes are read and fed at once.
const PIECE: usize = 64 * 1024;

fn main(rt: HostRuntime) -> io::Result<()> {
    match count_all(rt.alloc(), rt.stdin()) {
        Ok(events) => println!(rt; "{events} events"),
        Err(fault) => println!(rt; "{fault}"),
    }
}

/// The number of events of a reader's bytes.
fn count_all<R: Read + Drop>(alloc: Global, mut reader: R) -> Result<u64, Fault> {
    let mut decoder = Decoder::new(alloc);
    let mut buffer = [0u8; PIECE];
    let mut place = 0u64;
    let mut events = 0u64;
    for _ in 0..u64::MAX {
        let Ok(got) = reader.read(&mut buffer) else {
            return Err(Fault::Read { place });
        };
        if got == 0 {
            break;
        }
        let (piece, _) = buffer.split_at(got);
        events = events.saturating_add(count(&mut decoder, piece)?);
        place = place.saturating_add(got as u64);
    }
    decoder.finish()?;
    Ok(events)
}

/// The number of events that a piece tells.
fn count(decoder: &mut Decoder, piece: &[u8]) -> Result<u64, Fault> {
    let mut events = 0u64;
    let mut rest = piece;
    for _ in 0..=piece.len() {
        let fed = decoder.feed(rest)?;
        if let Event::More = fed.event {
            break;
        }
        events = events.saturating_add(1);
        let (_, left) = rest.split_at(fed.used);
        rest = left;
    }
    Ok(events)
}
