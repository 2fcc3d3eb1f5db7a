//! Bytes of files, one after another.
ghost use Rattle.std.specs.Prelude.{◌≡◌, ◌<◌, ◌^◌, ◌++◌, [], ℕ, List, OnErr, OnOk, IfErr, false, length};
ghost use Rattle.std.specs.Io.KnownBytes.{Appends};
ghost use Rattle.fit_encode.specs.Faults.{StopsAt};
ghost use Rattle.fit_base.specs.Numbers.{little_bytes};
ghost use Rattle.fit_sum.specs.Checksum.{checksum};
ghost use Rattle.fit_encode.specs.inner.Kept.{with_sum};

use crate::{Sink, put_all};
use fit_frame::sum_bytes;
use fit_sum::checksum_of;
use std::alloc::{AllocError, Global};
use std::marker::Model;
use std::mem;

/// The checksum of a header and data, its low byte first.
fn sum_of(head: &[u8], section: &[u8]) -> [u8; 2]
    ensures { result ≡ little_bytes 2 (checksum (head.now ++ section.now)) }
{
    sum_bytes(checksum_of(head, section))
}

/// Puts a header, data, and the checksum of both after other bytes. Out of memory, there may be more bytes.
fn put_parts(bytes: &mut Vec<u8>, head: &[u8], section: &[u8]) -> Result<(), AllocError>
    ensures ok { OnOk result
        (bytes.new.items ≡ bytes.old.items ++ with_sum (head.now ++ section.now)) }
    ensures err { OnErr result
        ((more : List ℕ) × (bytes.new.items ≡ bytes.old.items ++ more)) }
{
    bytes.extend_from_slice(head)?;
    bytes.extend_from_slice(section)?;
    bytes.extend_from_slice(&sum_of(head, section))
}

/// Puts a header, data, and the checksum of both after other bytes. Out of memory, nothing changes.
fn put_whole(bytes: &mut Vec<u8>, head: &[u8], section: &[u8]) -> Result<(), AllocError>
    ensures ok { OnOk result
        (bytes.new.items ≡ bytes.old.items ++ with_sum (head.now ++ section.now)) }
    ensures err { OnErr result (bytes.new.items ≡ bytes.old.items) }
{
    let start = bytes.len();
    let put = put_parts(bytes, head, section);
    if put.is_err() {
        bytes.truncate(start);
    }
    put
}

/// Puts the checksum of a header and data after the data, and the header in a place of its own. Out of memory, nothing changes.
fn part(front: &mut Vec<u8>, head: &[u8], section: &mut Vec<u8>) -> Result<(), AllocError>
    requires { front.old.items ≡ [] }
    ensures front { OnOk result (front.new.items ≡ head.now) }
    ensures ok { OnOk result
        (head.now ++ section.new.items ≡ with_sum (head.now ++ section.old.items)) }
    ensures err { OnErr result (front.new.items ≡ []) }
    ensures kept { OnErr result (section.new.items ≡ section.old.items) }
{
    let size = section.len();
    let sum = sum_of(head, section.as_slice());
    section.extend_from_slice(&sum)?;
    let put = front.extend_from_slice(head);
    if put.is_err() {
        section.truncate(size);
    }
    put
}

/// Bytes of files, one after another. Contracts see them as one list.
#[derive(Drop)]
pub(crate) struct ChainBytes {
    /// The header of the first file, so that its data needn't move to make room for it.
    front: Vec<u8>,
    /// All bytes after it.
    rest: Vec<u8>,
}

impl Model for ChainBytes {
    ghost use Rattle.std.specs.Prelude.{◌≡◌, ◌++◌, ℕ, List, []};

    ghost Value = { List ℕ };

    ghost view = { λ b. b.front.items ++ b.rest.items };

    ghost invariant = { λ b. b.front.items ≡ [] → b.rest.items ≡ [] };
}

impl ChainBytes {
    /// No bytes.
    pub(crate) fn new(alloc: Global) -> ChainBytes
        ensures { result ≡ [] }
    {
        ChainBytes {
            front: Vec::new(alloc),
            rest: Vec::new(alloc),
        }
    }

    /// Puts a header, data, and the checksum of both at the end, and leaves no data: that of the first file stays in its memory. Out of
    /// memory, nothing changes.
    pub(crate) fn push(&mut self, head: &[u8], section: &mut Vec<u8>) -> Result<(), AllocError>
        requires { 0 < length head.now }
        ensures ok { OnOk result
            (self.new ≡ self.old ++ with_sum (head.now ++ section.old.items)) }
        ensures short { OnOk result (length self.new < 2 ^ 64) }
        ensures left { OnOk result (section.new.items ≡ []) }
        ensures err { OnErr result (self.new ≡ self.old) }
        ensures kept { OnErr result (section.new.items ≡ section.old.items) }
    {
        if self.front.is_empty() {
            part(&mut self.front, head, section)?;
            mem::swap(&mut self.rest, section);
            return Ok(());
        }
        put_whole(&mut self.rest, head, section.as_slice())?;
        section.clear();
        Ok(())
    }

    /// Puts all bytes in a sink. An error has the number of bytes that went out, the first ones.
    pub(crate) fn put<K: Sink>(&self, sink: &mut K) -> Result<(), u64>
        requires { length self.now < 2 ^ 64 }
        ensures ok { OnOk result (Appends (K.contents sink.old) (K.contents sink.new) self.now) }
        ensures works { OnOk result (0 < length self.now → K.has_failed sink.new ≡ false) }
        ensures err { IfErr result (StopsAt (K.contents sink.old) (K.contents sink.new)
            (K.has_failed sink.new) self.now) }
    {
        put_all(sink, self.front.as_slice())?;
        match put_all(sink, self.rest.as_slice()) {
            Ok(()) => Ok(()),
            Err(written) => Err(self.front.len() as u64 + written),
        }
    }
}
