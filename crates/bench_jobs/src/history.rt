//! An athlete's history is taken over: file after file in one process, each to a table.
use crate::digest::Digest;
use crate::failure::Failure;
use crate::random::Random;
use crate::recording::{Kind, Maker};
use fit_csv::table;
use fit_encode::WriteSink;
use std::alloc::Global;

/// What the files are like.
static KINDS: [Kind; 8] = [
    Kind::Developer,
    Kind::Plain,
    Kind::Plain,
    Kind::Compressed,
    Kind::Strings,
    Kind::Developer,
    Kind::Turns,
    Kind::Big,
];

/// The digest of the tables of that many files.
pub(crate) fn run(alloc: Global, amount: u32, seed: u64) -> Result<u64, Failure> {
    let mut maker = Maker::new(alloc, seed);
    let mut digest = Digest::new();
    let mut file = Vec::new(alloc);
    for _ in 0..amount {
        let kind = maker.random.one_of(&KINDS);
        let size = file_size(&mut maker.random);
        file.clear();
        maker.add_file(&mut file, kind, u64::from(size))?;
        let mut source = file.as_slice();
        let mut sink = WriteSink::new(Vec::new(alloc));
        table(alloc, &mut source, &mut sink)?;
        digest.add_bytes(sink.into_inner().as_slice());
    }
    Ok(digest.value())
}

/// Most files have 20 to 100 KB, an eighth fewer, and an eighth more.
fn file_size(random: &mut Random) -> u32 {
    match random.draw() & 7 {
        0 => random.among(3_000, 17_000),
        1 => random.among(100_000, 200_000),
        _ => random.among(20_000, 80_000),
    }
}
