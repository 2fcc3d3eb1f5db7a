//! Where readers take their bytes.
ghost use Rattle.std.specs.Prelude.{◌≡◌, ℕ, ◌<◌, ◌≤◌, length, List, [], ◌++◌, Option, Bool, Some, true, false, IsOk, IsErr, OnOk, OnErr, take};
ghost use Rattle.std.specs.Io.{ReadsAtMost};
ghost use Rattle.std.specs.Io.KnownBytes.{ReadConsumes};
ghost use Rattle.fit_decode.specs.Sources.{Cut, Told};

use std::io::Read;
use std::marker::Model;

/// A call of a source failed.
#[derive(Clone, Copy, Debug, PartialEq, Eq, Drop)]
pub struct SourceFailed;

/// Gives the bytes of an input, piece by piece. Once a call has failed, every later call fails.
pub trait Source {
    // The bytes that are left, where the source tells them.
    ghost remaining: { Self → Option (List ℕ) };

    // A call has failed.
    ghost has_failed: { Self → Bool };

    /// Takes some bytes into the front of the buffer, and returns how many. 0 bytes into a buffer
    /// that isn't empty is the end of the input. An empty buffer gets 0 bytes, where no call has
    /// failed.
    fn take(&mut self, buffer: &mut [u8]) -> Result<usize, SourceFailed>
        ensures bound { ReadsAtMost result buffer.new }
        ensures bytes { ReadConsumes (remaining self.old) (remaining self.new) result buffer.new }
        ensures good { OnOk result (has_failed self.new ≡ false) }
        ensures bad { OnErr result (has_failed self.new ≡ true) }
        ensures latched { has_failed self.old ≡ true → IsErr result }
        // An empty buffer fails no source.
        ensures empty { has_failed self.old ≡ false → length buffer.old ≡ 0 → IsOk result };

    /// Whether a call has failed.
    fn failed(&self) -> bool
        ensures { result ≡ has_failed self.now };
}

/// Copies what fits from the front of the bytes, and returns how many and the rest.
fn copy_front<'a>(bytes: &'a [u8], buffer: &mut [u8]) -> (usize, &'a [u8])
    ensures bound { result.0 ≤ length buffer.new }
    ensures bytes { bytes.now ≡ take result.0 buffer.new ++ result.1.now }
    ensures end { result.0 ≡ 0 → 0 < length buffer.new → bytes.now ≡ [] }
{
    let n = bytes.len().min(buffer.len());
    let (front, rest) = bytes.split_at(n);
    buffer[..n].copy_from_slice(front);
    (n, rest)
}

/// The bytes of a slice. This source never fails.
impl<'a> Source for &'a [u8] {
    ghost remaining = { λ s. Some s.now };

    ghost has_failed = { λ s. false };

    fn take(&mut self, buffer: &mut [u8]) -> Result<usize, SourceFailed> {
        let (n, rest) = copy_front(*self, buffer);
        *self = rest;
        Ok(n)
    }

    fn failed(&self) -> bool {
        false
    }
}

/// A source over any reader. Every error of the reader counts as a failure, and no read is tried
/// again. An empty buffer isn't passed on. Clauses see the bytes that are left only where the reader tells them; a file or a pipe
/// doesn't.
#[derive(Drop)]
pub struct ReadSource<R: Read> {
    reader: R,
    broken: bool,
}

impl<R: Read> Model for ReadSource<R> {
    ghost Value = { Told };

    ghost view = { λ s. record { left = R.remaining s.reader; failed = s.broken } };
}

impl<R: Read> ReadSource<R> {
    /// No call has failed yet.
    pub fn new(reader: R) -> ReadSource<R>
        ensures { result ≡ record { left = R.remaining reader; failed = false } }
    {
        ReadSource {
            reader,
            broken: false,
        }
    }
}

impl<R: Read> Source for ReadSource<R> {
    ghost remaining = { λ s. s.left };

    ghost has_failed = { λ s. s.failed };

    fn take(&mut self, buffer: &mut [u8]) -> Result<usize, SourceFailed> {
        if self.broken {
            return Err(SourceFailed);
        }
        if buffer.is_empty() {
            return Ok(0);
        }
        match self.reader.read(buffer) {
            Ok(n) => Ok(n),
            Err(_) => {
                self.broken = true;
                Err(SourceFailed)
            }
        }
    }

    fn failed(&self) -> bool {
        self.broken
    }
}

/// Gives the first bytes of a slice, and then fails. It takes no memory.
#[derive(Drop)]
pub struct CutSource<'a> {
    rest: &'a [u8],
    failed: bool,
}

impl<'a> Model for CutSource<'a> {
    ghost Value = { Cut };

    ghost view = { λ s. record { left = s.rest.now; failed = s.failed } };
}

impl<'a> CutSource<'a> {
    /// It gives the first `limit` bytes, at most all.
    pub fn new(bytes: &'a [u8], limit: usize) -> CutSource<'a>
        ensures { result ≡ record { left = take limit bytes.now; failed = false } }
    {
        let n = limit.min(bytes.len());
        CutSource {
            rest: &bytes[..n],
            failed: false,
        }
    }
}

impl<'a> Source for CutSource<'a> {
    ghost remaining = { λ s. Some s.left };

    ghost has_failed = { λ s. s.failed };

    fn take(&mut self, buffer: &mut [u8]) -> Result<usize, SourceFailed>
        ensures bound { ReadsAtMost result buffer.new }
        ensures bytes { ReadConsumes (Some self.old.left) (Some self.new.left) result buffer.new }
        ensures good { OnOk result (self.new.failed ≡ false) }
        ensures bad { OnErr result (self.new.failed ≡ true) }
        ensures latched { self.old.failed ≡ true → IsErr result }
        ensures empty { self.old.failed ≡ false → length buffer.old ≡ 0 → IsOk result }

        // It fails only where no byte is left, and always does so there.
        ensures gives { self.old.failed ≡ false → 0 < length self.old.left → IsOk result }
        ensures fails { self.old.left ≡ [] → 0 < length buffer.new → IsErr result }
    {
        if self.failed || self.rest.is_empty() && !buffer.is_empty() {
            self.failed = true;
            return Err(SourceFailed);
        }
        let (n, rest) = copy_front(self.rest, buffer);
        self.rest = rest;
        Ok(n)
    }

    fn failed(&self) -> bool {
        self.failed
    }
}
