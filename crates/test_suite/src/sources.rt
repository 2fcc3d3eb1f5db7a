//! Sources and pieces of bytes.
ghost use Rattle.std.specs.Prelude.{Some, false};

use fit_decode::{Source, SourceFailed};

/// Gives the bytes of a slice one by one.
#[derive(Drop)]
pub struct OneByOne<'a> {
    rest: &'a [u8],
}

impl<'a> OneByOne<'a> {
    pub fn new(rest: &'a [u8]) -> OneByOne<'a> {
        OneByOne { rest }
    }
}

impl<'a> Source for OneByOne<'a> {
    ghost remaining = { λ s. Some s.rest.now };

    ghost has_failed = { λ s. false };

    fn take(&mut self, buffer: &mut [u8]) -> Result<usize, SourceFailed> {
        let n = buffer.len().min(1);
        Source::take(&mut self.rest, &mut buffer[..n])
    }

    fn failed(&self) -> bool {
        false
    }
}
