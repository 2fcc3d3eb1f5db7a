//! Tells the events of a chain's bytes to a reporter, piece by piece, and puts its text in a sink.
ghost use Rattle.std.specs.Prelude.{◌≡◌, ◌↔◌, ◌++◌, ℕ, ◌<◌, ◌≤◌, [], List, false, IfErr, IfOk, IsErr, IsOk, OnErr, OnOk, Option, None, Some, Err, length, reverse, vec_capacity};
ghost use Rattle.std.specs.Global.{Global};
ghost use Rattle.fit_frame.specs.declared.reason.Reason.{Reason};
ghost use Rattle.fit_record.specs.declared.file.FitFile.{FitFile};
ghost use Rattle.fit_record.specs.Files.{chain_limit, IsViable};
ghost use Rattle.fit_chain.specs.Checks.{AreChain};
ghost use Rattle.fit_chain.specs.Events.{Event as Told, AreEvents};
ghost use Rattle.fit_chain.specs.Memory.{IsAny, MayLackMemoryIn};
ghost use Rattle.fit_chain.specs.Progress.{HasCome, Progress};
ghost use Rattle.fit_decode.specs.Answers.{fed};
ghost use Rattle.fit_report.specs.Heard.{AreHeard, Skips, hear, line_of};
ghost use Rattle.fit_report.specs.Reports.{channel};
ghost use Rattle.fit_report.specs.Telling.{KeepsRefusal, Passes, Stands};
ghost use Rattle.fit_report.specs.inner.Passing.{Puts};

use crate::{Report, ReportFault};
use fit_decode::{Decoder, Event, Fault, Fed};
use fit_encode::{Sink, put_all};
use std::alloc::{AllocError, Global};
use std::marker::Model;

/// The memory of text that is kept from piece to piece, in bytes. A message of one byte may have a text of 275,163 bytes, so a piece
/// may make any number of megabytes.
const KEPT_TEXT: usize = 4_096;

/// What is skipped is put as soon as its text has that many bytes.
pub(crate) const FULL_TEXT: usize = 32_768;

/// What tells the events of a chain's bytes to a reporter as they come, in pieces of any length, and puts its text in a sink. It
/// is the same reporter in each call, and has heard nothing at first; the sink may be another one in each call.
///
/// Clauses see the bytes fed that weren't refused, the refusal if there was one, and how many bytes of text were put.
pub struct Telling {
    decoder: Decoder,
    /// The text of one event, or of what is skipped at once.
    text: Vec<u8>,
    written: u64,
}

// A call wherever it is dropped, as of its decoder.
impl Drop for Telling {
    fn drop(self) {
        let Telling {
            written: _,
            text: _text,
            decoder: _decoder,
        } = self;
    }
}

impl Model for Telling {
    ghost use Rattle.std.specs.Prelude.{vec_capacity};
    ghost use Rattle.fit_report.specs.inner.Passing.{IsSoundTelling};
    ghost use Rattle.fit_report.specs.Telling.{ToldSoFar};

    ghost Value = { ToldSoFar };

    ghost view = { λ t. record { seen = t.decoder; written = t.written } };

    ghost invariant = { λ t. IsSoundTelling t.decoder.bytes (vec_capacity t.text) };
}

impl Telling {
    /// Nothing was fed.
    #[tactic(auto, using(fit_decode::proofs::FileRead::nothing_viable))]
    pub fn new(alloc: Global) -> Self
        ensures { result ≡ record
            { seen = record { bytes = []; refusal = None }; written = 0 } }
    {
        Telling {
            decoder: Decoder::new(alloc),
            text: Vec::new(alloc),
            written: 0,
        }
    }

    /// Feeds a piece, tells its events, and puts their text.
    ///
    /// `Decode` where a byte is refused, and then the text of all events before it was put, and the reporter has heard just those;
    /// `NoMemory` where an allocation failed, and `Write` where the sink failed, and then the text of some first bytes was put, with
    /// `Write` only a part of it. After a fault nothing more can be fed.
    pub fn feed<K: Sink, R: Report>(
        &mut self,
        reporter: &mut R,
        sink: &mut K,
        piece: &[u8],
    ) -> Result<(), ReportFault>
        requires fresh { self.old.seen.refusal ≡ None }
        // The reporter has heard the events of the bytes fed, and their text was put, the last of it in this sink.
        requires told { (text : List ℕ) × (start : Option (List ℕ)) × Stands R.has_heard R.line
            reporter.old self.old.seen.bytes text start (K.contents sink.old) self.old.written }
        ensures all { OnOk result (self.new.seen ≡ record
            { bytes = self.old.seen.bytes ++ piece.now; refusal = None }) }
        ensures passes { Passes R.has_heard R.line reporter.old reporter.new
            self.old.seen.bytes piece.now self.new.seen.bytes
            (channel K.contents K.has_failed sink.old sink.new)
            self.old.written self.new.written result }
        ensures refused { IfErr result (KeepsRefusal self.old.seen.bytes piece.now self.new.seen) }
        // A sink that had not failed has not failed after a piece that is told.
        ensures works { OnOk result
            (K.has_failed sink.old ≡ false → K.has_failed sink.new ≡ false) }
        ensures viable { IsViable Global chain_limit self.new.seen.bytes }
    {
        let told = tell_piece(
            &mut self.decoder,
            reporter,
            sink,
            &mut self.text,
            &mut self.written,
            piece,
        );
        let_go(&mut self.text);
        told
    }

    /// Whether the bytes fed are a chain of files. Where they only begin one, `Truncated` has the number of the bytes;
    /// after a refusal it is returned again.
    pub fn finish(&self) -> Result<(), Fault>
        ensures good { IsOk result ↔
            ((self.now.seen.refusal ≡ None) × AreChain Global self.now.seen.bytes) }
        ensures truncated { self.now.seen.refusal ≡ None → IsErr result
            → result ≡ Err (Fault.Truncated (length self.now.seen.bytes)) }
        ensures refused { (reason : Reason) → self.now.seen.refusal ≡ Some reason
            → result ≡ Err (Fault.Refused (length self.now.seen.bytes) reason) }
    {
        self.decoder.finish()
    }

    /// How many files have ended; after a refusal 0.
    pub fn files(&self) -> u64
        // They are those that are whole in the bytes fed.
        ensures files { self.now.seen.refusal ≡ None → (fs : List (FitFile Global))
            (g : Progress Global) → HasCome fs g self.now.seen.bytes → result ≡ length fs }
        ensures refused { (reason : Reason) → self.now.seen.refusal ≡ Some reason → result ≡ 0 }
    {
        self.decoder.files()
    }

    /// How many bytes of text were put. The count stops at 2^64 - 1.
    pub(crate) fn written(&self) -> u64
        ensures { result ≡ self.now.written }
    {
        self.written
    }
}

/// Puts a text in the sink, where `written` bytes of text were put before.
pub(crate) fn put_text<K: Sink>(
    sink: &mut K,
    text: &[u8],
    written: &mut u64,
) -> Result<(), ReportFault>
    ensures puts { Puts text.now (channel K.contents K.has_failed sink.old sink.new)
        written.old written.new result }
    ensures works { OnOk result (K.has_failed sink.old ≡ false → K.has_failed sink.new ≡ false) }
{
    match put_all(sink, text) {
        Ok(()) => {
            *written = written.saturating_add(text.len() as u64);
            Ok(())
        }
        Err(count) => Err(ReportFault::Write {
            written: written.saturating_add(count),
        }),
    }
}

/// Lets the memory of a text go, where it is more than what is kept.
fn let_go(text: &mut Vec<u8>)
    ensures { vec_capacity text.new ≤ 4096 }
{
    if text.capacity() > KEPT_TEXT {
        text.clear();
        text.shrink_to_fit();
    }
}

/// Skips at the front of a piece, again and again until a skip uses nothing or the text is full, and puts the text after the old
/// text. Returns how many bytes were used.
fn skip_all<R: Report>(
    decoder: &mut Decoder,
    reporter: &mut R,
    text: &mut Vec<u8>,
    piece: &[u8],
) -> Result<usize, AllocError>
    requires told { (heard : List (Told Global)) × R.has_heard reporter.old heard
        × AreEvents decoder.old.bytes (reverse heard) }
    requires viable { IsViable Global chain_limit decoder.old.bytes }
    ensures skips { IfOk result (λ used. Skips R.has_heard R.line decoder.old decoder.new piece.now
        reporter.old reporter.new text.old.items text.new.items used) }
    ensures wants { OnErr result (MayLackMemoryIn Global IsAny decoder.old.bytes piece.now) }
    ensures viable { IsViable Global chain_limit decoder.new.bytes }
{
    let mut at = 0;
    'skips: loop {
        let (_, rest) = piece.split_at(at);
        let used = reporter.skip(decoder, rest, text)?;
        at += used;
        if used == 0 || text.len() >= FULL_TEXT {
            return Ok(at);
        }
    }
}

/// Skips what the reporter skips at the front of a piece, up to a full text, and puts its text. Returns how many bytes were used.
fn tell_skipped<K: Sink, R: Report>(
    decoder: &mut Decoder,
    reporter: &mut R,
    sink: &mut K,
    text: &mut Vec<u8>,
    written: &mut u64,
    piece: &[u8],
) -> Result<usize, ReportFault>
    requires fresh { decoder.old.refusal ≡ None }
    requires told { (text : List ℕ) × (start : Option (List ℕ)) × Stands R.has_heard
        R.line reporter.old decoder.old.bytes text start (K.contents sink.old) written.old }
    requires viable { IsViable Global chain_limit decoder.old.bytes }
    ensures used { IfOk result (λ used. (used ≤ length piece.now)
        × (decoder.new ≡ fed decoder.old piece.now used)) }
    ensures passes { Passes R.has_heard R.line reporter.old reporter.new
        decoder.old.bytes piece.now decoder.new.bytes
        (channel K.contents K.has_failed sink.old sink.new) written.old written.new result }
    ensures refused { IfErr result (KeepsRefusal decoder.old.bytes piece.now decoder.new) }
    ensures works { OnOk result (K.has_failed sink.old ≡ false → K.has_failed sink.new ≡ false) }
    ensures viable { IsViable Global chain_limit decoder.new.bytes }
{
    text.clear();
    let Ok(used) = skip_all(decoder, reporter, text, piece) else {
        return Err(ReportFault::NoMemory);
    };
    put_text(sink, text.as_slice(), written)?;
    Ok(used)
}

/// Tells an event, and frees it.
#[inline(always)]
fn tell_event<R: Report>(
    reporter: &mut R,
    event: Event,
    text: &mut Vec<u8>,
) -> Result<(), AllocError>
    requires { (heard : List (Told Global)) × R.has_heard reporter.old heard
        × AreHeard (hear event heard) }
    ensures heard { OnOk result ((heard : List (Told Global)) → R.has_heard reporter.old heard
        → AreHeard (hear event heard) → R.has_heard reporter.new (hear event heard)) }
    ensures text { OnOk result ((heard : List (Told Global)) → R.has_heard reporter.old heard
        → AreHeard (hear event heard)
        → text.new.items ≡ text.old.items ++ line_of R.line heard event) }
{
    reporter.tell(&event, text)
}

/// Feeds a piece up to its first event, and tells that. Returns how many bytes were used.
fn tell_next<K: Sink, R: Report>(
    decoder: &mut Decoder,
    reporter: &mut R,
    sink: &mut K,
    text: &mut Vec<u8>,
    written: &mut u64,
    piece: &[u8],
) -> Result<usize, ReportFault>
    requires fresh { decoder.old.refusal ≡ None }
    requires told { (text : List ℕ) × (start : Option (List ℕ)) × Stands R.has_heard
        R.line reporter.old decoder.old.bytes text start (K.contents sink.old) written.old }
    ensures used { IfOk result (λ used. (used ≤ length piece.now)
        × (decoder.new ≡ fed decoder.old piece.now used)) }
    ensures some { IfOk result (λ used. 0 < length piece.now → 0 < used) }
    ensures passes { Passes R.has_heard R.line reporter.old reporter.new
        decoder.old.bytes piece.now decoder.new.bytes
        (channel K.contents K.has_failed sink.old sink.new) written.old written.new result }
    ensures refused { IfErr result (KeepsRefusal decoder.old.bytes piece.now decoder.new) }
    ensures works { OnOk result (K.has_failed sink.old ≡ false → K.has_failed sink.new ≡ false) }
    ensures viable { IsViable Global chain_limit decoder.new.bytes }
{
    let Fed { used, event } = decoder.feed(piece)?;
    if let Event::More = event {
        return Ok(used);
    }
    text.clear();
    let Ok(()) = tell_event(reporter, event, text) else {
        return Err(ReportFault::NoMemory);
    };
    put_text(sink, text.as_slice(), written)?;
    Ok(used)
}

/// Feeds a piece, and tells what it tells.
fn tell_piece<K: Sink, R: Report>(
    decoder: &mut Decoder,
    reporter: &mut R,
    sink: &mut K,
    text: &mut Vec<u8>,
    written: &mut u64,
    piece: &[u8],
) -> Result<(), ReportFault>
    requires fresh { decoder.old.refusal ≡ None }
    requires told { (text : List ℕ) × (start : Option (List ℕ)) × Stands R.has_heard
        R.line reporter.old decoder.old.bytes text start (K.contents sink.old) written.old }
    requires viable { IsViable Global chain_limit decoder.old.bytes }
    ensures all { OnOk result (decoder.new ≡ record
        { bytes = decoder.old.bytes ++ piece.now; refusal = None }) }
    ensures passes { Passes R.has_heard R.line reporter.old reporter.new
        decoder.old.bytes piece.now decoder.new.bytes
        (channel K.contents K.has_failed sink.old sink.new) written.old written.new result }
    ensures refused { IfErr result (KeepsRefusal decoder.old.bytes piece.now decoder.new) }
    ensures works { OnOk result (K.has_failed sink.old ≡ false → K.has_failed sink.new ≡ false) }
    ensures viable { IsViable Global chain_limit decoder.new.bytes }
{
    let mut at = 0;
    while at < piece.len() {
        let (_, rest) = piece.split_at(at);
        let skipped = tell_skipped(decoder, reporter, sink, text, written, rest)?;
        at += skipped;
        if skipped > 0 && text.len() >= FULL_TEXT {
            continue;
        }
        let (_, rest) = piece.split_at(at);
        at += tell_next(decoder, reporter, sink, text, written, rest)?;
    }
    Ok(())
}
