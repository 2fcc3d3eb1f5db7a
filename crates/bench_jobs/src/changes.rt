//! A tool changes recordings: it reads them into owned records, takes positions out, moves times and writes them again.
use crate::digest::Digest;
use crate::failure::Failure;
use crate::recording::{Kind, Maker};
use fit_base::base_type::{SINT32, UINT32};
use fit_base::{Entries, Items};
use fit_decode::{Reading, read_chain, read_one};
use fit_encode::{Encoder, WriteSink, write_chain, write_one};
use fit_profile::field_number::{POSITION_LAT, POSITION_LONG, TIMESTAMP};
use fit_profile::message_number::RECORD;
use fit_record::{FieldDef, FitFile, MessageDef, Record, Values};
use std::alloc::{AllocError, Global};

/// What the recordings are like.
static KINDS: [Kind; 8] = [
    Kind::Developer,
    Kind::Plain,
    Kind::Compressed,
    Kind::Developer,
    Kind::Strings,
    Kind::Plain,
    Kind::Big,
    Kind::Turns,
];

/// How many bytes a recording has, by turns; the files of a chain have a third.
static SIZES: [u32; 7] = [
    800_000, 100_000, 1_500_000, 300_000, 1_200_000, 200_000, 500_000,
];

/// Of how many records at the start of a ride the positions are taken out.
const HOME: usize = 300;

/// How many seconds the times are moved by.
const LATER: u64 = 3600;

/// The number that says that there is no position.
const NOWHERE: u64 = 0x7FFF_FFFF;

/// The digest of the recordings that were written: by turns one file, a chain of three, and one file record by record.
pub(crate) fn run(alloc: Global, amount: u32, seed: u64) -> Result<u64, Failure> {
    let mut maker = Maker::new(alloc, seed);
    let mut digest = Digest::new();
    let mut bytes = Vec::new(alloc);
    for turn in 0..amount {
        add_all(&mut maker, turn, &mut bytes)?;
        let written = match turn % 3 {
            0 => change_one(alloc, bytes.as_slice())?,
            1 => change_chain(alloc, bytes.as_slice(), turn % 2 == 0)?,
            _ => change_record_by_record(alloc, bytes.as_slice())?,
        };
        digest.add_bytes(written.as_slice());
    }
    Ok(digest.value())
}

/// The recording of a turn, or the chain.
fn add_all(maker: &mut Maker, turn: u32, chain: &mut Vec<u8>) -> Result<(), AllocError> {
    chain.clear();
    let size = SIZES[(turn % 7) as usize];
    if turn % 3 != 1 {
        let size = maker.random.near(size);
        return maker.add_file(chain, KINDS[(turn & 7) as usize], u64::from(size));
    }
    for file in 0..3u32 {
        let kind = KINDS[(turn.wrapping_add(file) & 7) as usize];
        let size = maker.random.near(size / 3);
        maker.add_file(chain, kind, u64::from(size))?;
    }
    Ok(())
}

fn change_one(alloc: Global, bytes: &[u8]) -> Result<Vec<u8>, Failure> {
    let mut source = bytes;
    let file = changed(alloc, read_one(alloc, &mut source)?)?;
    let mut sink = WriteSink::new(Vec::new(alloc));
    write_one(alloc, &mut sink, &file)?;
    Ok(sink.into_inner())
}

fn change_chain(alloc: Global, bytes: &[u8], at_once: bool) -> Result<Vec<u8>, Failure> {
    let files = if at_once {
        let mut source = bytes;
        read_chain(alloc, &mut source)?
    } else {
        read_by_file(alloc, bytes)?
    };
    let mut ready = Vec::new(alloc);
    for file in files {
        if ready.push(changed(alloc, file)?).is_err() {
            return Err(Failure::Memory);
        }
    }
    let mut sink = WriteSink::new(Vec::new(alloc));
    write_chain(alloc, &mut sink, ready.as_slice())?;
    Ok(sink.into_inner())
}

/// The files of a chain, which come one after another.
fn read_by_file(alloc: Global, bytes: &[u8]) -> Result<Vec<FitFile>, Failure> {
    let mut reading = Reading::new(alloc, bytes);
    let mut files = Vec::new(alloc);
    for _ in 0..bytes.len() {
        match reading.next()? {
            Some(file) => {
                if files.push(file).is_err() {
                    return Err(Failure::Memory);
                }
            }
            None => break,
        }
    }
    Ok(files)
}

/// The data of a changed file is as long as before.
fn change_record_by_record(alloc: Global, bytes: &[u8]) -> Result<Vec<u8>, Failure> {
    let mut source = bytes;
    let file = changed(alloc, read_one(alloc, &mut source)?)?;
    let size = u32::try_from(bytes.len()).unwrap_or(0).saturating_sub(16);
    let mut sink = WriteSink::new(Vec::new(alloc));
    let mut encoder = Encoder::begin(alloc, &mut sink, &file.header, size)?;
    for record_ in file.records.as_slice() {
        encoder.put(&mut sink, record_)?;
    }
    encoder.finish(&mut sink)?;
    Ok(sink.into_inner())
}

/// Where the messages of a local message type have their time and their position.
#[derive(Clone, Copy)]
struct Places {
    time: Option<usize>,
    latitude: Option<usize>,
    longitude: Option<usize>,
}

/// No field.
const NO_PLACES: Places = Places {
    time: None,
    latitude: None,
    longitude: None,
};

/// A file with its changes.
fn changed(alloc: Global, file: FitFile) -> Result<FitFile, AllocError> {
    let FitFile { header, records } = file;
    let mut records = records.into_vec();
    let mut places = [NO_PLACES; 16];
    for (count, record_) in records.iter_mut().enumerate() {
        match record_ {
            Record::Define(definition) => note(&mut places, definition),
            Record::Values(values) => {
                if let Some(place) = places.get(usize::from(values.local)) {
                    change(alloc, values, place, count < HOME);
                }
            }
        }
    }
    Ok(FitFile {
        header,
        records: Entries::from_vec(records),
    })
}

/// Notes where a definition has its fields.
fn note(places: &mut [Places; 16], definition: &MessageDef) {
    if let Some(place) = places.get_mut(usize::from(definition.local)) {
        *place = places_of(definition);
    }
}

fn places_of(definition: &MessageDef) -> Places {
    let fields = definition.fields.as_slice();
    let is_record = definition.global == RECORD;
    Places {
        time: place_of(fields, TIMESTAMP, UINT32),
        latitude: place_of(fields, POSITION_LAT, SINT32).filter(|_| is_record),
        longitude: place_of(fields, POSITION_LONG, SINT32).filter(|_| is_record),
    }
}

/// The place of the field of this number, if it has one item of this base type.
fn place_of(fields: &[FieldDef], number: u8, code: u8) -> Option<usize> {
    let wanted = FieldDef::one(number, code);
    fields.iter().position(|field| *field == wanted)
}

/// Moves the time of a message, and takes its position out if it is near home.
fn change(alloc: Global, values: &mut Values, places: &Places, is_home: bool) {
    let mut fields = std::mem::replace(&mut values.fields, Entries::new(alloc)).into_vec();
    let seconds = number_at(fields.as_slice(), places.time);
    let later = seconds.wrapping_add(LATER) & 0xFFFF_FFFF;
    set_number(alloc, fields.as_mut_slice(), places.time, later);
    if is_home {
        set_number(alloc, fields.as_mut_slice(), places.latitude, NOWHERE);
        set_number(alloc, fields.as_mut_slice(), places.longitude, NOWHERE);
    }
    values.fields = Entries::from_vec(fields);
}

/// The number of the field at a place, or 0.
fn number_at(fields: &[Items], place: Option<usize>) -> u64 {
    let Some(place) = place else {
        return 0;
    };
    match fields.get(place) {
        Some(field) => field.bits.as_slice().first().copied().unwrap_or(0),
        None => 0,
    }
}

/// Gives the field at a place, which has four bytes, another number.
fn set_number(alloc: Global, fields: &mut [Items], place: Option<usize>, number: u64) {
    let Some(place) = place else {
        return;
    };
    if let Some(field) = fields.get_mut(place) {
        *field = Items::one(alloc, 4, number);
    }
}
