//! A number that stands for all results of a job.
use std::io;
use std::io::Write;

/// The multipliers of the four lanes.
const ODD: [u64; 4] = [
    0x9E37_79B9_7F4A_7C15,
    0xC2B2_AE3D_27D4_EB4F,
    0x1656_67B1_9E37_79F9,
    0x27D4_EB2F_1656_67C5,
];

/// How many bytes a `DigestWriter` takes in at once.
const BLOCK: usize = 32 * 1024;

/// The digest of the numbers and bytes added so far.
#[derive(Drop)]
pub(crate) struct Digest {
    lanes: [u64; 4],
}

fn mixed(lane: u64, number: u64, odd: u64) -> u64 {
    (lane ^ number).wrapping_mul(odd).rotate_left(29)
}

impl Digest {
    /// The digest of nothing.
    pub(crate) fn new() -> Digest {
        Digest { lanes: ODD }
    }

    /// Adds a number.
    pub(crate) fn add(&mut self, number: u64) {
        let [first, second, third, fourth] = self.lanes;
        self.lanes = [second, third, fourth, mixed(first, number, ODD[0])];
    }

    /// Adds bytes, of which it takes 32 at a time, and their number.
    pub(crate) fn add_bytes(&mut self, bytes: &[u8]) {
        let (blocks, rest) = bytes.as_chunks::<32>();
        let [mut a, mut b, mut c, mut d] = self.lanes;
        for block in blocks {
            let [w, x, y, z] = words(block);
            a = mixed(a, w, ODD[0]);
            b = mixed(b, x, ODD[1]);
            c = mixed(c, y, ODD[2]);
            d = mixed(d, z, ODD[3]);
        }
        self.lanes = [a, b, c, d];
        for byte in rest {
            self.add(u64::from(*byte));
        }
        self.add(bytes.len() as u64);
    }

    /// The number.
    pub(crate) fn value(&self) -> u64 {
        let mut sum = 0u64;
        for (lane, odd) in self.lanes.iter().zip(&ODD) {
            sum = mixed(sum, *lane, *odd);
        }
        sum ^ (sum >> 32)
    }
}

/// The four numbers that 32 bytes spell.
fn words(b: &[u8; 32]) -> [u64; 4] {
    [
        u64::from_le_bytes([b[0], b[1], b[2], b[3], b[4], b[5], b[6], b[7]]),
        u64::from_le_bytes([b[8], b[9], b[10], b[11], b[12], b[13], b[14], b[15]]),
        u64::from_le_bytes([b[16], b[17], b[18], b[19], b[20], b[21], b[22], b[23]]),
        u64::from_le_bytes([b[24], b[25], b[26], b[27], b[28], b[29], b[30], b[31]]),
    ]
}

/// A writer that adds what it is given to a digest, and keeps a block of it at most. In which pieces the bytes come changes nothing.
#[derive(Drop)]
pub(crate) struct DigestWriter {
    digest: Digest,
    block: Vec<u8>,
}

impl DigestWriter {
    /// A writer that goes on with a digest.
    pub(crate) fn new(digest: Digest, block: Vec<u8>) -> DigestWriter {
        DigestWriter { digest, block }
    }

    /// The digest of all bytes, and the memory of the block.
    pub(crate) fn into_parts(self) -> (Digest, Vec<u8>) {
        let DigestWriter {
            mut digest,
            mut block,
        } = self;
        digest.add_bytes(block.as_slice());
        block.clear();
        (digest, block)
    }
}

impl Write for DigestWriter {
    fn write(&mut self, bytes: &[u8]) -> io::Result<usize> {
        let room = BLOCK.saturating_sub(self.block.len());
        let taken = room.min(bytes.len());
        let (front, _) = bytes.split_at(taken);
        self.block.extend_from_slice(front)?;
        if self.block.len() >= BLOCK {
            self.digest.add_bytes(self.block.as_slice());
            self.block.clear();
        }
        Ok(taken)
    }

    fn flush(&mut self) -> io::Result<()> {
        Ok(())
    }
}
