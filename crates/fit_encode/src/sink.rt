//! Where writers put their bytes.
ghost use Rattle.std.specs.Prelude.{◌≡◌, ℕ, ◌+◌, ◌<◌, ◌≤◌, min, Bool, true, false, Option, Some, List, [], ◌++◌, IfOk, IfErr, IsOk, IsErr, IsOkAnd, OnOk, OnErr, length, take};
ghost use Rattle.std.specs.Io.KnownBytes.{Appends, WriteAppends};
ghost use Rattle.fit_encode.specs.Sinks.{Kept, Written};

use arrayvec::ArrayVec;
use std::io::Write;
use std::marker::Model;

/// A call of a sink failed.
#[derive(Clone, Copy, Debug, PartialEq, Eq, Drop)]
pub struct SinkFailed;

/// Takes the bytes of an output, piece by piece. Once a call has failed, every later call fails. An
/// answer of 0 for a slice that isn't empty is a failure too. An empty slice changes nothing.
pub trait Sink {
    // The bytes that the sink holds, where it tells them.
    ghost contents: { Self → Option (List ℕ) };

    // A call has failed, or has taken no byte of some.
    ghost has_failed: { Self → Bool };

    /// Takes some bytes from the front of the slice, and returns how many.
    fn put(&mut self, bytes: &[u8]) -> Result<usize, SinkFailed>
        ensures bound { IfOk result (λ n. n ≤ length bytes.now) }
        ensures bytes { WriteAppends (contents self.old) (contents self.new) result bytes.now }
        ensures zero { IfOk result (λ n. n ≡ 0 → 0 < length bytes.now
            → has_failed self.new ≡ true) }
        ensures some { IfOk result (λ n. 0 < n → has_failed self.new ≡ false) }
        ensures bad { OnErr result (has_failed self.new ≡ true) }
        ensures latched { has_failed self.old ≡ true → IsErr result }
        ensures empty { bytes.now ≡ [] → has_failed self.old ≡ false
            → IsOk result × (self.new ≡ self.old) };

    /// Whether a call has failed.
    fn failed(&self) -> bool
        ensures { result ≡ has_failed self.now };
}

/// Puts all bytes. An error has the number of bytes that went out, the first ones.
pub fn put_all<K: Sink>(sink: &mut K, bytes: &[u8]) -> Result<(), u64>
    ensures ok { OnOk result (Appends (K.contents sink.old) (K.contents sink.new) bytes.now) }
    ensures err { IfErr result (λ written. written < length bytes.now) }
    ensures part { IfErr result (λ written. Appends (K.contents sink.old) (K.contents sink.new)
        (take written bytes.now)) }
    ensures failed { OnErr result (K.has_failed sink.new ≡ true) }
    ensures works { OnOk result (0 < length bytes.now → K.has_failed sink.new ≡ false) }
    ensures empty { bytes.now ≡ [] → IsOk result × (sink.new ≡ sink.old) }
{
    let mut written = 0;
    while written < bytes.len() {
        let (_, rest) = bytes.split_at(written);
        match sink.put(rest) {
            Ok(0) => return Err(written as u64),
            Ok(n) => written += n,
            Err(_) => return Err(written as u64),
        }
    }
    Ok(())
}

/// A sink over any writer. Every error of the writer counts as a failure, and no write is tried
/// again. An empty slice isn't passed on. Clauses see what was written only where the writer tells it; a file or a pipe doesn't.
#[derive(Drop)]
pub struct WriteSink<W: Write> {
    writer: W,
    broken: bool,
}

impl<W: Write> Model for WriteSink<W> {
    ghost Value = { Written };

    ghost view = { λ s. record { held = W.contents s.writer; failed = s.broken } };
}

impl<W: Write> WriteSink<W> {
    /// No call has failed yet.
    pub fn new(writer: W) -> WriteSink<W>
        ensures { result ≡ record { held = W.contents writer; failed = false } }
    {
        WriteSink {
            writer,
            broken: false,
        }
    }

    /// The writer, which holds what was put.
    pub fn into_inner(self) -> W
        ensures { W.contents result ≡ self.held }
    {
        self.writer
    }
}

impl<W: Write> Sink for WriteSink<W> {
    ghost contents = { λ s. s.held };

    ghost has_failed = { λ s. s.failed };

    fn put(&mut self, bytes: &[u8]) -> Result<usize, SinkFailed> {
        if self.broken {
            return Err(SinkFailed);
        }
        if bytes.is_empty() {
            return Ok(0);
        }
        match self.writer.write(bytes) {
            Ok(n) => {
                self.broken = n == 0;
                Ok(n)
            }
            Err(_) => {
                self.broken = true;
                Err(SinkFailed)
            }
        }
    }

    fn failed(&self) -> bool {
        self.broken
    }
}

/// Keeps the first bytes, and then fails. It takes no memory.
#[derive(Drop)]
pub struct CutSink<const N: usize> {
    kept: ArrayVec<u8, N>,
    room: usize,
    refused: bool,
}

impl<const N: usize> Model for CutSink<N> {
    ghost Value = { Kept };

    ghost view = { λ s. record { held = s.kept.items; room = s.room; failed = s.refused } };

    ghost invariant = { λ s. length s.kept.items + s.room ≤ N };
}

impl<const N: usize> CutSink<N> {
    /// It keeps the first `limit` bytes, at most N.
    pub fn new(limit: usize) -> CutSink<N>
        ensures { result ≡ record { held = []; room = min limit N; failed = false } }
    {
        CutSink {
            kept: ArrayVec::new(),
            room: limit.min(N),
            refused: false,
        }
    }

    /// The bytes that were kept.
    pub fn bytes(&self) -> &[u8]
        ensures { result.now ≡ self.now.held }
    {
        self.kept.as_slice()
    }
}

impl<const N: usize> Sink for CutSink<N> {
    ghost contents = { λ s. Some s.held };

    ghost has_failed = { λ s. s.failed };

    fn put(&mut self, bytes: &[u8]) -> Result<usize, SinkFailed>
        ensures bound { IfOk result (λ n. n ≤ length bytes.now) }
        ensures bytes { WriteAppends (Some self.old.held) (Some self.new.held) result bytes.now }
        ensures zero { IfOk result (λ n. n ≡ 0 → 0 < length bytes.now → self.new.failed ≡ true) }
        ensures some { IfOk result (λ n. 0 < n → self.new.failed ≡ false) }
        ensures bad { OnErr result (self.new.failed ≡ true) }
        ensures latched { self.old.failed ≡ true → IsErr result }
        ensures empty { bytes.now ≡ [] → self.old.failed ≡ false
            → IsOk result × (self.new ≡ self.old) }

        // It takes what there is room for, and fails only where there is none.
        ensures takes { self.old.failed ≡ false → 0 < self.old.room
            → IsOkAnd result (λ n. n ≡ min (length bytes.now) self.old.room) }
        ensures fails { self.old.room ≡ 0 → 0 < length bytes.now → IsErr result }
        ensures room { length self.new.held + self.new.room ≡ length self.old.held + self.old.room }
    {
        let n = bytes.len().min(self.room);
        if self.refused || n == 0 && !bytes.is_empty() {
            self.refused = true;
            return Err(SinkFailed);
        }
        let (front, _) = bytes.split_at(n);
        if self.kept.try_extend_from_slice(front).is_err() {
            unreachable!();
        }
        self.room -= n;
        Ok(n)
    }

    fn failed(&self) -> bool {
        self.refused
    }
}
