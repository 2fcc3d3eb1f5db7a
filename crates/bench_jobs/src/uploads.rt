//! A training site takes uploads, one after another: each is decoded as it comes in from the network, and its messages are looked at;
//! of each fourth the whole is checked, and its table is made.
use crate::digest::Digest;
use crate::failure::Failure;
use crate::recording::{Kind, Maker};
use fit_base::Items;
use fit_csv::table;
use fit_decode::{Decoder, Event, check_bytes};
use fit_encode::WriteSink;
use fit_profile::field_number::{
    ALTITUDE, CADENCE, ENHANCED_SPEED, HEART_RATE, POSITION_LAT, POSITION_LONG, POWER, TEMPERATURE,
};
use fit_profile::message_number::RECORD;
use fit_profile::{Fixed, Message, Stream};
use fit_record::Record;
use std::alloc::Global;

/// What the uploads are like, by turns.
static KINDS: [Kind; 8] = [
    Kind::Developer,
    Kind::Plain,
    Kind::Big,
    Kind::Developer,
    Kind::Compressed,
    Kind::Strings,
    Kind::Developer,
    Kind::Turns,
];

/// How many bytes they have, by turns.
static SIZES: [u32; 7] = [
    900_000, 100_000, 1_800_000, 350_000, 1_300_000, 180_000, 600_000,
];

/// In pieces of how many bytes they come, by turns.
static PIECES: [usize; 4] = [1400, 4096, 16384, 65536];

/// The numbers that are asked of each message.
static FIELDS: [u8; 8] = [
    POSITION_LAT,
    POSITION_LONG,
    ALTITUDE,
    HEART_RATE,
    CADENCE,
    POWER,
    TEMPERATURE,
    ENHANCED_SPEED,
];

/// The digest of what that many uploads say.
pub(crate) fn run(alloc: Global, amount: u32, seed: u64) -> Result<u64, Failure> {
    let mut maker = Maker::new(alloc, seed);
    let mut digest = Digest::new();
    let mut upload = Vec::new(alloc);
    for turn in 0..amount {
        let kind = KINDS[(turn & 7) as usize];
        let size = maker.random.near(SIZES[(turn % 7) as usize]);
        upload.clear();
        maker.add_file(&mut upload, kind, u64::from(size))?;
        if (turn / 8).wrapping_add(turn) & 3 == 3 {
            tabulate(alloc, upload.as_slice(), &mut digest)?;
        } else {
            let piece_size = PIECES[(turn / 3 & 3) as usize];
            take(alloc, upload.as_slice(), piece_size, &mut digest)?;
        }
    }
    Ok(digest.value())
}

/// An upload by one call for the whole.
fn tabulate(alloc: Global, upload: &[u8], digest: &mut Digest) -> Result<(), Failure> {
    digest.add(check_bytes(alloc, upload)?);
    let mut source = upload;
    let mut sink = WriteSink::new(Vec::new(alloc));
    table(alloc, &mut source, &mut sink)?;
    digest.add_bytes(sink.into_inner().as_slice());
    Ok(())
}

/// An upload in pieces.
pub(crate) fn take(
    alloc: Global,
    upload: &[u8],
    piece_size: usize,
    digest: &mut Digest,
) -> Result<(), Failure> {
    let mut decoder = Decoder::new(alloc);
    let mut stream = Stream::new(alloc);
    for piece in upload.chunks(piece_size.max(1)) {
        take_piece(&mut decoder, &mut stream, piece, digest)?;
    }
    decoder.finish()?;
    Ok(())
}

/// The events of a piece.
fn take_piece(
    decoder: &mut Decoder,
    stream: &mut Stream,
    piece: &[u8],
    digest: &mut Digest,
) -> Result<(), Failure> {
    let mut rest = piece;
    for _ in 0..=piece.len() {
        let fed = decoder.feed(rest)?;
        let (_, left) = rest.split_at(fed.used);
        rest = left;
        match fed.event {
            Event::More => break,
            Event::Header(_, size) => {
                stream.begin_file();
                digest.add(u64::from(size));
            }
            Event::Item(record_) => look(stream, &record_, digest)?,
            Event::FileEnd => digest.add(decoder.files()),
        }
    }
    Ok(())
}

/// Takes a record in, and looks at it where it is the message of a second.
fn look(stream: &mut Stream, record_: &Record, digest: &mut Digest) -> Result<(), Failure> {
    if stream.env().fits(record_).is_err() {
        return Err(Failure::Shape);
    }
    match stream.push(record_)? {
        Some(message) if message.global() == RECORD => look_at(&message, digest),
        Some(message) => digest.add(u64::from(message.global())),
        None => digest.add(1),
    }
    Ok(())
}

/// What a message says, and its first developer field.
fn look_at(message: &Message, digest: &mut Digest) {
    digest.add(message.time().map_or(0, u64::from));
    add_number(digest, message.speed());
    add_number(digest, message.distance());
    for number in &FIELDS {
        add_number(digest, message.value(*number));
    }
    if let Some(field) = message.dev(0) {
        add_items(digest, field.items);
    }
}

fn add_items(digest: &mut Digest, items: &Items) {
    for number in items.bits.as_slice() {
        digest.add(*number);
    }
}

fn add_number(digest: &mut Digest, number: Option<Fixed>) {
    match number {
        Some(number) => digest.add(low_bits(number.value) ^ u64::from(number.decimals) << 60),
        None => digest.add(7),
    }
}

/// The lowest 63 bits of a number's magnitude, and whether it is below zero.
fn low_bits(number: i128) -> u64 {
    let magnitude = (number.unsigned_abs() & 0x7FFF_FFFF_FFFF_FFFF) as u64;
    magnitude << 1 | u64::from(number < 0)
}
