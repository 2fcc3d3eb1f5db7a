//! Recordings as most devices write them are looked at: each is checked, shown and tabulated, and turned into text; of each third the text
//! is edited, and turned back.
use crate::archive::tell;
use crate::digest::Digest;
use crate::failure::Failure;
use crate::recording::{Kind, Maker};
use crate::texts::edit_recording;
use fit_run::Command;
use std::alloc::Global;

/// What the recordings are like, by turns.
static KINDS: [Kind; 5] = [
    Kind::Interleaved,
    Kind::Interleaved,
    Kind::Small,
    Kind::Interleaved,
    Kind::Small,
];

/// How many bytes they have, by turns.
static SIZES: [u32; 7] = [
    400_000, 900_000, 100_000, 2_500_000, 600_000, 200_000, 1_400_000,
];

/// The digest of what is written of that many recordings.
pub(crate) fn run(alloc: Global, amount: u32, seed: u64) -> Result<u64, Failure> {
    let mut maker = Maker::new(alloc, seed);
    let mut digest = Digest::new();
    let mut block = Vec::new(alloc);
    let mut bytes = Vec::new(alloc);
    let mut edited = Vec::new(alloc);
    for turn in 0..amount {
        bytes.clear();
        let kind = KINDS[(turn % 5) as usize];
        let size = maker.random.near(SIZES[(turn % 7) as usize]);
        maker.add_file(&mut bytes, kind, u64::from(size))?;
        for command in [Command::Check, Command::Show, Command::Table] {
            (digest, block) = tell(alloc, command, bytes.as_slice(), digest, block)?;
        }
        if turn % 3 == 0 {
            edit_recording(
                alloc,
                &mut maker.random,
                turn / 3 & 3,
                bytes.as_slice(),
                &mut edited,
                &mut digest,
            )?;
        } else {
            (digest, block) = tell(alloc, Command::ToCsv, bytes.as_slice(), digest, block)?;
        }
    }
    Ok(digest.value())
}
