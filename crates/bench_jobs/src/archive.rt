//! An archive is looked through: long recordings and long chains, each checked, shown, tabulated and turned into text.
use crate::digest::{Digest, DigestWriter};
use crate::failure::Failure;
use crate::recording::{Kind, Maker};
use fit_decode::ReadSource;
use fit_encode::{CutSink, WriteSink};
use fit_run::{Command, GOOD, run as run_command};
use std::alloc::{AllocError, Global};

/// What the recordings are like.
static KINDS: [Kind; 8] = [
    Kind::Developer,
    Kind::Plain,
    Kind::Compressed,
    Kind::Strings,
    Kind::Turns,
    Kind::Big,
    Kind::Redefined,
    Kind::Items,
];

/// How many bytes a recording has, by turns.
static SIZES: [u32; 3] = [2_000_000, 5_000_000, 3_000_000];

/// How many files a chain has.
const FILES: u32 = 30;

/// Room for the fault lines of a run.
const FAULTS: usize = 128;

/// The digest of what the commands write of that many recordings and chains.
pub(crate) fn run(alloc: Global, amount: u32, seed: u64) -> Result<u64, Failure> {
    let mut maker = Maker::new(alloc, seed);
    let mut digest = Digest::new();
    let mut block = Vec::new(alloc);
    let mut bytes = Vec::new(alloc);
    for turn in 0..amount {
        bytes.clear();
        add_entry(&mut maker, turn, &mut bytes)?;
        for command in [Command::Check, Command::Show, Command::Table] {
            (digest, block) = tell(alloc, command, bytes.as_slice(), digest, block)?;
        }
        if turn & 1 == 0 {
            (digest, block) = tell(alloc, Command::ToCsv, bytes.as_slice(), digest, block)?;
        }
    }
    Ok(digest.value())
}

/// By turns a recording of some MB, and a chain of thirty files.
fn add_entry(maker: &mut Maker, turn: u32, bytes: &mut Vec<u8>) -> Result<(), AllocError> {
    if turn & 1 == 0 {
        let kind = KINDS[(turn / 2 & 7) as usize];
        let size = maker.random.near(SIZES[(turn / 2 % 3) as usize]);
        return maker.add_file(bytes, kind, u64::from(size));
    }
    for _ in 0..FILES {
        let size = maker.random.among(3_000, 200_000);
        let kind = maker.random.one_of(&KINDS);
        maker.add_file(bytes, kind, u64::from(size))?;
    }
    Ok(())
}

/// Adds what a command writes of a chain to a digest.
pub(crate) fn tell(
    alloc: Global,
    command: Command,
    bytes: &[u8],
    digest: Digest,
    block: Vec<u8>,
) -> Result<(Digest, Vec<u8>), Failure> {
    let mut source = ReadSource::new(bytes);
    let mut sink = WriteSink::new(DigestWriter::new(digest, block));
    let mut faults = CutSink::<FAULTS>::new(FAULTS);
    let status = run_command(alloc, command, &mut source, &mut sink, &mut faults);
    if status != GOOD {
        return Err(Failure::Status(status));
    }
    Ok(sink.into_inner().into_parts())
}
