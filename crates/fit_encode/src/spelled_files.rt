//! Files that are kept as the bytes of their chain.
ghost use Rattle.std.specs.Prelude.{◌≡◌, ◌↔◌, ◌==◌, ◌+◌, ◌-◌, ◌^◌, ◌<◌, ◌++◌, ◌∷◌, [], List, OnErr, OnOk, IfErr, IfOk, IsNone, IsTrue, length, min, false};
ghost use Rattle.std.specs.Io.KnownBytes.{Appends};
ghost use Rattle.fit_frame.specs.Header.{header_bytes};
ghost use Rattle.fit_record.specs.Environment.{empty_environment};
ghost use Rattle.fit_record.specs.Records.{records_bytes};
ghost use Rattle.fit_record.specs.Files.{IsWellFormed, IsWellFormedChain, chain_bytes, chain_limit};
ghost use Rattle.fit_encode.specs.Faults.{IsFileFault, IsFirstFault, IfWrite, UnlessWrite, StopsAt};
ghost use Rattle.std.specs.Global.{Global};
ghost use Rattle.fit_record.specs.declared.file.FitFile.{FitFile as WholeFile};
ghost use Rattle.fit_encode.specs.Encoding.{file_of};
ghost use Rattle.fit_encode.specs.inner.Kept.{AreWrittenUnless};

use crate::chain_bytes::ChainBytes;
use crate::{EncodeFault, Sink, SpelledRecords};
use arrayvec::ArrayVec;
use fit_frame::{HeadFault, Header, has_form, head_bytes};
use fit_history::History;
use fit_record::{CHAIN_LIMIT, FitFile, Record};
use std::alloc::{AllocError, Global};
use std::marker::Model;

/// Files, one after another, which are kept as the bytes of their chain: so they take the memory of these.
#[derive(Drop)]
pub struct SpelledFiles {
    /// The bytes of all files. Where one of them can't be written, those of the files before it are here, if any.
    bytes: ChainBytes,
    /// How many files there are. The count stops at 2^64 - 1.
    count: u64,
    /// Why the first file that can't be written can't be.
    fault: Option<EncodeFault>,
    files: History<FitFile>,
}

impl Model for SpelledFiles {
    ghost use Rattle.std.specs.Prelude.{List};
    ghost use Rattle.std.specs.declared.alloc.Global.{Global};
    ghost use Rattle.fit_record.specs.declared.file.FitFile.{FitFile};
    ghost use Rattle.fit_encode.specs.inner.Kept.{AreFilesKept};

    ghost Value = { List (FitFile Global) };

    ghost view = { λ s. s.files.items };

    ghost invariant = { λ s. AreFilesKept s.bytes s.count s.fault s.files.items };
}

/// A header, and the records after it.
#[derive(Drop)]
struct Parts<'a> {
    header: &'a Header,
    records: History<Record>,
}

impl SpelledFiles {
    /// No files.
    pub fn new(alloc: Global) -> SpelledFiles
        ensures { result ≡ [] }
    {
        SpelledFiles {
            bytes: ChainBytes::new(alloc),
            count: 0,
            fault: None,
            files: History::new(),
        }
    }

    /// Whether one more may follow them in a chain.
    pub fn has_room(&self) -> bool
        ensures { IsTrue result ↔ (length self.now < chain_limit) }
    {
        self.count < u64::from(CHAIN_LIMIT)
    }

    /// Whether there are none.
    pub fn is_empty(&self) -> bool
        ensures { result ≡ (length self.now == 0) }
    {
        self.count == 0
    }

    /// Puts the file of a header and some records at the end, and lets the records go. Out of memory, nothing changes.
    pub fn push(&mut self, header: &Header, records: &mut SpelledRecords) -> Result<(), AllocError>
        ensures ok { OnOk result (self.new ≡ self.old ++ file_of header.now records.old ∷ []) }
        ensures left { OnOk result (records.new ≡ []) }
        ensures err { OnErr result (self.new ≡ self.old) }
        ensures kept { OnErr result (records.new ≡ records.old) }
    {
        let (fault, past) = put_next(&mut self.bytes, self.fault, self.count, header, records)?;
        self.fault = fault;
        self.count = self.count.saturating_add(1);
        self.files.add_from(&Parts {
            header,
            records: past,
        });
        Ok(())
    }
}

/// How many bytes a data section has.
fn data_len(bytes: &[u8]) -> u32
    requires { length bytes.now < 2 ^ 32 }
    ensures { result ≡ length bytes.now }
{
    bytes.len() as u32
}

/// The bytes of the header of a file, where the file can be written. That many files stand before it.
fn head_of(
    before: u64,
    header: &Header,
    records: &SpelledRecords,
) -> Result<ArrayVec<u8, 255>, EncodeFault>
    requires { before < 2 ^ 63 }
    ensures good { OnOk result (IsWellFormed (file_of header.now records.now)) }
    ensures head { IfOk result (λ head. head.items
        ≡ header_bytes header.now (length (records_bytes empty_environment records.now))) }
    ensures err { IfErr result (IsFileFault (before + 1) (file_of header.now records.now)) }
{
    let file = before + 1;
    if !has_form(header) {
        return Err(EncodeFault::BadHeader { file });
    }
    if let Some(index) = records.too_long() {
        return Err(EncodeFault::TooLong { file, index });
    }
    match head_bytes(header, data_len(records.bytes())) {
        Ok(head) => Ok(head),
        Err(HeadFault::BadHeader) => Err(EncodeFault::BadHeader { file }),
        Err(HeadFault::ZeroIsSum) => Err(EncodeFault::ZeroIsSum { file }),
    }
}

/// Puts the bytes of a file after those of that many others, if all of these can be written, and lets its records go. Returns why the
/// first file that can't be written can't be, and what the records were. Out of memory, nothing changes.
fn put_next(
    bytes: &mut ChainBytes,
    fault: Option<EncodeFault>,
    before: u64,
    header: &Header,
    records: &mut SpelledRecords,
) -> Result<(Option<EncodeFault>, History<Record>), AllocError>
    requires { IsNone fault → before < 2 ^ 63 }
    ensures ok { IfOk result (λ p. (files : List (WholeFile Global))
        → before ≡ min (length files) (2 ^ 64 - 1)
        → AreWrittenUnless fault bytes.old files
        → AreWrittenUnless p.0 bytes.new (files ++ file_of header.now records.old ∷ [])) }
    ensures past { IfOk result (λ p. p.1.items ≡ records.old) }
    ensures left { OnOk result (records.new ≡ []) }
    ensures err { OnErr result (bytes.new ≡ bytes.old) }
    ensures kept { OnErr result (records.new ≡ records.old) }
{
    if let Some(fault) = fault {
        return Ok((Some(fault), records.take_all()));
    }
    match head_of(before, header, records) {
        Ok(head) => {
            let past = records.put_after(bytes, head.as_slice())?;
            Ok((None, past))
        }
        Err(fault) => Ok((Some(fault), records.take_all())),
    }
}

/// Writes a chain of files that are kept as their bytes, as `write_chain` writes files. It takes no memory. `Write` comes where the
/// sink failed: it has taken the first `written` bytes of the chain.
pub fn write_spelled<K: Sink>(sink: &mut K, files: &SpelledFiles) -> Result<(), EncodeFault>
    ensures ok { OnOk result (IsWellFormedChain chain_limit files.now) }
    ensures spelled { OnOk result (Appends (K.contents sink.old) (K.contents sink.new)
        (chain_bytes files.now)) }
    ensures works { OnOk result (K.has_failed sink.new ≡ false) }

    // Before a byte went out.
    ensures refused { IfErr result (λ fault. UnlessWrite fault (IsFirstFault files.now fault)) }
    ensures unchanged { IfErr result (λ fault. UnlessWrite fault (sink.new ≡ sink.old)) }

    // A good chain, of which the sink took a part.
    ensures written_of_good { IfErr result (λ fault.
        IfWrite fault (λ written. IsWellFormedChain chain_limit files.now)) }
    ensures written { IfErr result (λ fault. IfWrite fault
        (StopsAt (K.contents sink.old) (K.contents sink.new) (K.has_failed sink.new)
        (chain_bytes files.now))) }
{
    if files.count == 0 || files.count > u64::from(CHAIN_LIMIT) {
        return Err(EncodeFault::ChainLength);
    }
    if let Some(fault) = files.fault {
        return Err(fault);
    }
    match files.bytes.put(sink) {
        Ok(()) => Ok(()),
        Err(written) => Err(EncodeFault::Write { written }),
    }
}
