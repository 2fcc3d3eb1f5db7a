//! Numbers that a seed determines.

/// Makes numbers that look like chance: splitmix64.
#[derive(Drop)]
pub(crate) struct Random {
    state: u64,
}

impl Random {
    /// The numbers of a seed.
    pub(crate) fn new(seed: u64) -> Random {
        Random { state: seed }
    }

    /// The next number.
    pub(crate) fn draw(&mut self) -> u64 {
        self.state = self.state.wrapping_add(0x9E37_79B9_7F4A_7C15);
        let first = (self.state ^ (self.state >> 30)).wrapping_mul(0xBF58_476D_1CE4_E5B9);
        let second = (first ^ (first >> 27)).wrapping_mul(0x94D0_49BB_1331_11EB);
        second ^ (second >> 31)
    }

    /// A number from `least` on, below `least + count`.
    pub(crate) fn among(&mut self, least: u32, count: u32) -> u32 {
        let part = (self.draw() >> 32).wrapping_mul(u64::from(count));
        least.wrapping_add((part >> 32) as u32)
    }

    /// A number from `size` on, at most an eighth above it.
    pub(crate) fn near(&mut self, size: u32) -> u32 {
        self.among(size, size / 8)
    }

    /// One of the elements of a list.
    pub(crate) fn one_of<T: Copy>(&mut self, list: &[T; 8]) -> T {
        list[(self.draw() & 7) as usize]
    }
}
