//! Files that are whole, kept as the bytes of their chain.
ghost use Rattle.std.specs.Prelude.{◌≡◌, ◌↔◌, ◌<◌, ◌≤◌, ◌+◌, ◌++◌, ◌∷◌, ◌^◌, [], ℕ, IsTrue, List, IfErr, OnErr, OnOk, false, length, reverse};
ghost use Rattle.std.specs.Global.{Global};
ghost use Rattle.std.specs.Io.KnownBytes.{Appends};
ghost use Rattle.std.specs.List.{AllByRecursion};
ghost use Rattle.fit_base.specs.Numbers.{little_bytes};
ghost use Rattle.fit_sum.specs.Checksum.{checksum};
ghost use Rattle.fit_frame.specs.Header.{FormFits, HeaderFits, header_bytes};
ghost use Rattle.fit_record.specs.Files.{IsWellFormed, chain_bytes, chain_limit};
ghost use Rattle.fit_encode.specs.Encoding.{file_of};
ghost use Rattle.fit_encode.specs.Faults.{StopsAt};
ghost use Rattle.fit_writer.specs.inner.Files.{IsNextFile};
ghost use Rattle.fit_writer.specs.inner.OpenFiles.{AreData};

use arrayvec::ArrayVec;
use fit_encode::{Sink, put_all};
use fit_frame::{HeadFault, Header, HeaderSum, head_bytes, sum_bytes};
use fit_history::History;
use fit_profile::Stream;
use fit_record::{CHAIN_LIMIT, FitFile};
use fit_sum::checksum_of;
use std::alloc::{AllocError, Global};
use std::marker::Model;

/// Files, one after another, as the bytes of their chain.
#[derive(Drop)]
pub(crate) struct Chain {
    bytes: Vec<u8>,
    count: u32,
    files: History<FitFile>,
}

impl Model for Chain {
    ghost use Rattle.std.specs.Prelude.{List};
    ghost use Rattle.std.specs.declared.alloc.Global.{Global};
    ghost use Rattle.fit_record.specs.declared.file.FitFile.{FitFile};
    ghost use Rattle.fit_writer.specs.inner.Files.{AreWholeFiles};

    ghost Value = { List (FitFile Global) };

    ghost view = { λ c. c.files.items };

    ghost invariant = { λ c. AreWholeFiles c.bytes.items c.count c.files.items };
}

/// A header, and what a reader of the records after it has.
#[derive(Drop)]
struct Parts<'a> {
    header: &'a Header,
    stream: &'a Stream,
}

/// Puts a header, data, and the checksum of both after other bytes. Out of memory, there may be more bytes.
fn put_parts(bytes: &mut Vec<u8>, head: &[u8], section: &[u8]) -> Result<(), AllocError>
    ensures ok { OnOk result (bytes.new.items ≡ bytes.old.items
        ++ ((head.now ++ section.now) ++ little_bytes 2 (checksum (head.now ++ section.now)))) }
    ensures err { OnErr result
        ((more : List ℕ) × (bytes.new.items ≡ bytes.old.items ++ more)) }
{
    bytes.extend_from_slice(head)?;
    bytes.extend_from_slice(section)?;
    bytes.extend_from_slice(&sum_bytes(checksum_of(head, section)))
}

/// Puts a header, data, and the checksum of both after other bytes. Out of memory, nothing changes.
fn put_whole(bytes: &mut Vec<u8>, head: &[u8], section: &[u8]) -> Result<(), AllocError>
    ensures ok { OnOk result (bytes.new.items ≡ bytes.old.items
        ++ ((head.now ++ section.now) ++ little_bytes 2 (checksum (head.now ++ section.now)))) }
    ensures err { OnErr result (bytes.new.items ≡ bytes.old.items) }
{
    let start = bytes.len();
    match put_parts(bytes, head, section) {
        Ok(()) => Ok(()),
        Err(fault) => {
            bytes.truncate(start);
            Err(fault)
        }
    }
}

/// The same header with its checksum.
fn with_sum(header: &Header) -> Header
    ensures { result ≡ record header.now { sum = HeaderSum.True } }
{
    let rest = match ArrayVec::try_from(header.rest.as_slice()) {
        Ok(rest) => rest,
        Err(_) => unreachable!(),
    };
    Header {
        size: header.size,
        protocol: header.protocol,
        profile: header.profile,
        sum: HeaderSum::True,
        rest,
    }
}

/// How many bytes a data section has.
fn data_len(section: &[u8]) -> u32
    requires { length section.now < 2 ^ 32 }
    ensures { result ≡ length section.now }
{
    section.len() as u32
}

impl Chain {
    /// No files.
    pub(crate) fn new(alloc: Global) -> Chain
        ensures { result ≡ [] }
    {
        Chain {
            bytes: Vec::new(alloc),
            count: 0,
            files: History::new(),
        }
    }

    /// Whether there are none.
    pub(crate) fn is_empty(&self) -> bool
        ensures { IsTrue result ↔ (self.now ≡ []) }
    {
        self.count == 0
    }

    /// Whether there are as many as a chain may have.
    pub(crate) fn is_full(&self) -> bool
        ensures { IsTrue result ↔ (chain_limit ≤ length self.now) }
    {
        self.count >= CHAIN_LIMIT
    }

    /// Whether one more would be too many after one more.
    pub(crate) fn is_nearly_full(&self) -> bool
        ensures { IsTrue result ↔ (chain_limit ≤ length self.now + 1) }
    {
        self.count >= CHAIN_LIMIT - 1
    }

    /// Puts a file whose header has these bytes.
    fn put(
        &mut self,
        header: &Header,
        head: &[u8],
        section: &[u8],
        stream: &Stream,
    ) -> Result<(), AllocError>
        requires room { length self.old < chain_limit }
        requires fits { HeaderFits header.now (length section.now) }
        requires head { head.now ≡ header_bytes header.now (length section.now) }
        requires data { AreData section.now stream.now }
        ensures ok { OnOk result
            (self.new ≡ self.old ++ file_of header.now (reverse stream.now) ∷ []) }
        ensures err { OnErr result (self.new ≡ self.old) }
    {
        put_whole(&mut self.bytes, head, section)?;
        self.count += 1;
        self.files.add_from(&Parts { header, stream });
        Ok(())
    }

    /// Puts a file whose zeros would stand for a sum that is 0, with that sum.
    fn put_summed(
        &mut self,
        header: &Header,
        section: &[u8],
        stream: &Stream,
    ) -> Result<(), AllocError>
        requires room { length self.old < chain_limit }
        requires form { FormFits header.now }
        requires zero { header.now.sum ≡ HeaderSum.Zero }
        requires data { AreData section.now stream.now }
        ensures ok { OnOk result (self.new ≡ self.old
            ++ file_of (record header.now { sum = HeaderSum.True }) (reverse stream.now) ∷ []) }
        ensures err { OnErr result (self.new ≡ self.old) }
    {
        let summed = with_sum(header);
        match head_bytes(&summed, data_len(section)) {
            Ok(head) => self.put(&summed, head.as_slice(), section, stream),
            Err(_) => unreachable!(),
        }
    }

    /// Puts the file of a header and of records that have these bytes. Zeros don't stand for a sum that is 0. Out of memory, nothing changes.
    pub(crate) fn push(
        &mut self,
        header: &Header,
        section: &[u8],
        stream: &Stream,
    ) -> Result<(), AllocError>
        requires room { length self.old < chain_limit }
        requires form { FormFits header.now }
        requires data { AreData section.now stream.now }
        ensures ok { OnOk result (IsNextFile self.old self.new header.now stream.now) }
        ensures err { OnErr result (self.new ≡ self.old) }
    {
        match head_bytes(header, data_len(section)) {
            Ok(head) => self.put(header, head.as_slice(), section, stream),
            Err(HeadFault::BadHeader) => unreachable!(),
            Err(HeadFault::ZeroIsSum) => self.put_summed(header, section, stream),
        }
    }

    /// Puts the bytes of all files in a sink. An error has the number of bytes that went out, the first ones.
    pub(crate) fn write<K: Sink>(&self, sink: &mut K) -> Result<(), u64>
        requires { 0 < length self.now }
        ensures ok { OnOk result (Appends (K.contents sink.old) (K.contents sink.new)
            (chain_bytes self.now)) }
        ensures works { OnOk result (K.has_failed sink.new ≡ false) }
        ensures whole { AllByRecursion IsWellFormed self.now }
        ensures err { IfErr result (StopsAt (K.contents sink.old) (K.contents sink.new)
            (K.has_failed sink.new) (chain_bytes self.now)) }
    {
        put_all(sink, self.bytes.as_slice())
    }
}
