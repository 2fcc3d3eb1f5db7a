//! Recordings that are rare and slow: definitions again and again, fields of many items, long texts, descriptions that change, tiny files,
//! bytes that come one by one, and a file that is refused at its last byte.
use crate::digest::Digest;
use crate::failure::Failure;
use crate::recording::{Kind, Maker};
use crate::uploads::take;
use fit_csv::{CsvFault, ShowReport, from_csv, table, to_csv};
use fit_decode::{Fault, read_one};
use fit_encode::WriteSink;
use fit_report::report;
use std::alloc::{AllocError, Global};

/// How many bytes are fed at once, where it isn't one.
const PIECE: usize = 65536;

/// What the tiny files are like.
static TINY: [Kind; 8] = [
    Kind::Plain,
    Kind::Developer,
    Kind::Strings,
    Kind::Definitions,
    Kind::Items,
    Kind::Texts,
    Kind::Described,
    Kind::Compressed,
];

/// A call on a recording.
#[derive(Clone, Copy)]
enum Call {
    /// The records, in pieces of this many bytes.
    Feed(usize),
    /// The table.
    Table,
    /// The text.
    ToCsv,
    /// The text, and the file that it becomes.
    Back,
    /// The lines of `show`.
    Show,
}

/// The digest of that many rounds.
pub(crate) fn run(alloc: Global, amount: u32, seed: u64) -> Result<u64, Failure> {
    let mut maker = Maker::new(alloc, seed);
    let mut digest = Digest::new();
    let mut bytes = Vec::new(alloc);
    for _ in 0..amount {
        round(alloc, &mut maker, &mut bytes, &mut digest)?;
    }
    Ok(digest.value())
}

/// Each awkward recording once, each another one than in the rounds before.
fn round(
    alloc: Global,
    maker: &mut Maker,
    bytes: &mut Vec<u8>,
    digest: &mut Digest,
) -> Result<(), Failure> {
    let plans = [
        (Kind::Redefined, 300_000, [Call::Feed(PIECE), Call::Table]),
        (Kind::Definitions, 200_000, [Call::Feed(PIECE), Call::ToCsv]),
        (Kind::Definitions, 60_000, [Call::Show, Call::Back]),
        (Kind::Items, 300_000, [Call::Feed(PIECE), Call::ToCsv]),
        (Kind::Items, 100_000, [Call::Show, Call::Back]),
        (Kind::Texts, 200_000, [Call::Table, Call::Back]),
        (Kind::Described, 300_000, [Call::Feed(1400), Call::Table]),
        (Kind::Described, 60_000, [Call::Show, Call::Back]),
        (Kind::Developer, 40_000, [Call::Feed(1), Call::Table]),
    ];
    for (kind, size, calls) in plans {
        bytes.clear();
        let more = maker.random.near(size);
        maker.add_file(bytes, kind, u64::from(more))?;
        make(alloc, bytes.as_slice(), calls, digest)?;
    }
    add_tiny_files(maker, bytes)?;
    make(
        alloc,
        bytes.as_slice(),
        [Call::Feed(PIECE), Call::Table],
        digest,
    )?;
    add_broken_file(maker, bytes)?;
    refuse(alloc, bytes.as_slice(), digest)
}

/// Makes the calls.
fn make(alloc: Global, bytes: &[u8], calls: [Call; 2], digest: &mut Digest) -> Result<(), Failure> {
    for call in calls {
        let mut source = bytes;
        let mut sink = WriteSink::new(Vec::new(alloc));
        match call {
            Call::Feed(size) => take(alloc, bytes, size, digest)?,
            Call::Table => table(alloc, &mut source, &mut sink)?,
            Call::ToCsv => to_csv(alloc, &mut source, &mut sink)?,
            Call::Back => go_back(alloc, bytes, &mut sink)?,
            Call::Show => report(alloc, &mut source, &mut sink, &mut ShowReport::new(alloc))?,
        }
        digest.add_bytes(sink.into_inner().as_slice());
    }
    Ok(())
}

/// Writes the file that a recording becomes by its text.
fn go_back(alloc: Global, bytes: &[u8], sink: &mut WriteSink<Vec<u8>>) -> Result<(), CsvFault> {
    let mut source = bytes;
    let mut text = WriteSink::new(Vec::new(alloc));
    to_csv(alloc, &mut source, &mut text)?;
    let text = text.into_inner();
    from_csv(alloc, &mut text.as_slice(), sink)
}

/// A chain of files of a few messages each.
fn add_tiny_files(maker: &mut Maker, chain: &mut Vec<u8>) -> Result<(), AllocError> {
    chain.clear();
    for _ in 0..600 {
        let kind = maker.random.one_of(&TINY);
        let size = maker.random.among(300, 500);
        maker.add_file(chain, kind, u64::from(size))?;
    }
    Ok(())
}

/// A file with a wrong last byte.
fn add_broken_file(maker: &mut Maker, bytes: &mut Vec<u8>) -> Result<(), AllocError> {
    bytes.clear();
    maker.add_file(bytes, Kind::Plain, 300_000)?;
    if let Some(last) = bytes.as_mut_slice().last_mut() {
        *last ^= 0x55;
    }
    Ok(())
}

/// Reads and tabulates what is refused in the end.
fn refuse(alloc: Global, bytes: &[u8], digest: &mut Digest) -> Result<(), Failure> {
    let mut source = bytes;
    match read_one(alloc, &mut source) {
        Err(Fault::Refused { place, .. }) => digest.add(place),
        _ => return Err(Failure::Shape),
    }
    let mut source = bytes;
    let mut sink = WriteSink::new(Vec::new(alloc));
    match table(alloc, &mut source, &mut sink) {
        Err(CsvFault::Decode(Fault::Refused { place, .. })) => digest.add(place),
        _ => return Err(Failure::Shape),
    }
    digest.add_bytes(sink.into_inner().as_slice());
    Ok(())
}
