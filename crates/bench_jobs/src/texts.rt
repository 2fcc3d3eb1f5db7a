//! A person edits recordings as text: to CSV, through an editor or a spreadsheet, and back.
use crate::digest::Digest;
use crate::failure::Failure;
use crate::random::Random;
use crate::recording::{Kind, Maker};
use fit_csv::{from_csv, to_csv};
use fit_encode::WriteSink;
use std::alloc::{AllocError, Global};

/// What the recordings are like.
static KINDS: [Kind; 8] = [
    Kind::Developer,
    Kind::Plain,
    Kind::Strings,
    Kind::Compressed,
    Kind::Developer,
    Kind::Turns,
    Kind::Plain,
    Kind::Redefined,
];

/// How many bytes they have, by turns.
static SIZES: [u32; 7] = [
    500_000, 100_000, 900_000, 250_000, 700_000, 150_000, 400_000,
];

/// What stands before a heart rate.
const HEART_RATE: &[u8; 17] = b"field,heart_rate,";

/// How many numbers a person changes.
const EDITS: u32 = 40;

/// The digest of the texts, and of the files that they become.
pub(crate) fn run(alloc: Global, amount: u32, seed: u64) -> Result<u64, Failure> {
    let mut maker = Maker::new(alloc, seed);
    let mut digest = Digest::new();
    let mut bytes = Vec::new(alloc);
    let mut edited = Vec::new(alloc);
    for turn in 0..amount {
        bytes.clear();
        let size = maker.random.near(SIZES[(turn % 7) as usize]);
        maker.add_file(&mut bytes, KINDS[(turn & 7) as usize], u64::from(size))?;
        let way = (turn / 8).wrapping_add(turn) & 3;
        edit_recording(
            alloc,
            &mut maker.random,
            way,
            bytes.as_slice(),
            &mut edited,
            &mut digest,
        )?;
    }
    Ok(digest.value())
}

/// Adds to a digest the text of a recording as it was saved in one of four ways, and the file that it becomes.
pub(crate) fn edit_recording(
    alloc: Global,
    random: &mut Random,
    way: u32,
    bytes: &[u8],
    edited: &mut Vec<u8>,
    digest: &mut Digest,
) -> Result<(), Failure> {
    let text = text_of(alloc, bytes)?;
    edited.clear();
    edit(random, way, text.as_slice(), edited)?;
    digest.add_bytes(edited.as_slice());
    let written = bytes_of(alloc, edited.as_slice())?;
    digest.add_bytes(written.as_slice());
    Ok(())
}

fn text_of(alloc: Global, bytes: &[u8]) -> Result<Vec<u8>, Failure> {
    let mut source = bytes;
    let mut sink = WriteSink::new(Vec::new(alloc));
    to_csv(alloc, &mut source, &mut sink)?;
    Ok(sink.into_inner())
}

fn bytes_of(alloc: Global, text: &[u8]) -> Result<Vec<u8>, Failure> {
    let mut source = text;
    let mut sink = WriteSink::new(Vec::new(alloc));
    from_csv(alloc, &mut source, &mut sink)?;
    Ok(sink.into_inner())
}

/// The text as it was saved: with some other numbers, with other line ends, with quotes around each cell, or as it is.
fn edit(
    random: &mut Random,
    way: u32,
    text: &[u8],
    edited: &mut Vec<u8>,
) -> Result<(), AllocError> {
    match way {
        0 => {
            edited.extend_from_slice(text)?;
            for _ in 0..EDITS {
                change_number(random, edited.as_mut_slice());
            }
            Ok(())
        }
        1 => end_lines(text, edited),
        2 => quote_cells(text, edited),
        _ => edited.extend_from_slice(text),
    }
}

/// Gives the next heart rate after some place another second digit.
fn change_number(random: &mut Random, text: &mut [u8]) {
    let length = u32::try_from(text.len()).unwrap_or(0);
    let (_, rest) = text.split_at_mut(random.among(0, length).min(length) as usize);
    let digit = b'0'.wrapping_add((random.draw() & 7) as u8);
    let found = rest
        .windows(HEART_RATE.len())
        .take(4096)
        .position(|w| w == HEART_RATE.as_slice());
    let Some(place) = found else {
        return;
    };
    if let Some(second) = rest.get_mut(place.saturating_add(HEART_RATE.len() + 1)) {
        if second.is_ascii_digit() {
            *second = digit;
        }
    }
}

/// Ends each line with a carriage return too.
fn end_lines(text: &[u8], edited: &mut Vec<u8>) -> Result<(), AllocError> {
    for line in text.split_inclusive(|byte| *byte == b'\n') {
        if let [cells @ .., b'\n'] = line {
            edited.extend_from_slice(cells)?;
            edited.extend_from_slice(b"\r\n")?;
        }
    }
    Ok(())
}

/// Puts quotes around each cell of the lines that have none.
fn quote_cells(text: &[u8], edited: &mut Vec<u8>) -> Result<(), AllocError> {
    for line in text.split_inclusive(|byte| *byte == b'\n') {
        if let [cells @ .., b'\n'] = line {
            if cells.contains(&b'"') {
                edited.extend_from_slice(cells)?;
            } else {
                quote_line(cells, edited)?;
            }
            edited.push(b'\n')?;
        }
    }
    Ok(())
}

fn quote_line(line: &[u8], edited: &mut Vec<u8>) -> Result<(), AllocError> {
    edited.push(b'"')?;
    for byte in line {
        if *byte == b',' {
            edited.extend_from_slice(b"\",\"")?;
        } else {
            edited.push(*byte)?;
        }
    }
    edited.push(b'"')?;
    Ok(())
}
