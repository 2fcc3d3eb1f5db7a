//! Texts that have an end.
ghost use Rattle.std.specs.Prelude.{◌≡◌, ◌++◌, ℕ, [], List, OnOk, Some, false, flat_map, reverse};
ghost use Rattle.std.specs.Global.{Global};
ghost use Rattle.fit_base.specs.Numbers.{IsBytes};
ghost use Rattle.fit_record.specs.declared.file.FitFile.{FitFile};
ghost use Rattle.fit_record.specs.Files.{chain_limit, IsChain};
ghost use Rattle.fit_chain.specs.Events.{Event as Told, file_events};
ghost use Rattle.fit_report.specs.Documents.{AreAllHeard, ReportsChainDocument, ReportsDocument};
ghost use Rattle.fit_report.specs.Reports.{channel};
ghost use Rattle.fit_report.specs.inner.Passing.{PutsEnding};

use crate::reporting::tell_all;
use crate::telling::put_text;
use crate::{Report, ReportFault, Telling};
use fit_decode::Source;
use fit_encode::Sink;
use std::alloc::{AllocError, Global};

/// Makes a text with an end of the events of a chain of files, as one JSON document.
pub trait Document: Report {
    // The text after all events, the latest first.
    ghost ending: { List (Told Global) → List ℕ };

    /// Puts the text that comes after that of all events after the old text. `report_document` calls it once, after the last event
    /// of a chain. Out of memory, the text and the reporter are of no use.
    fn end(&mut self, text: &mut Vec<u8>) -> Result<(), AllocError>
        // All events of a chain were heard.
        requires { (heard : List (Told Global)) × Self.has_heard self.old heard
            × AreAllHeard heard }
        ensures heard { OnOk result ((heard : List (Told Global)) → Self.has_heard self.old heard
            → AreAllHeard heard → Self.has_heard self.new heard) }
        ensures text { OnOk result ((heard : List (Told Global)) → Self.has_heard self.old heard
            → AreAllHeard heard → text.new.items ≡ text.old.items ++ ending heard) };
}

/// Puts the ending of a document, where `written` bytes of text were put before.
fn put_ending<K: Sink, R: Document>(
    alloc: Global,
    sink: &mut K,
    reporter: &mut R,
    mut written: u64,
) -> Result<(), ReportFault>
    requires { (heard : List (Told Global)) × R.has_heard reporter.old heard × AreAllHeard heard }
    ensures heard { OnOk result ((heard : List (Told Global)) → R.has_heard reporter.old heard
        → AreAllHeard heard → R.has_heard reporter.new heard) }
    ensures puts { (heard : List (Told Global)) → R.has_heard reporter.old heard
        → AreAllHeard heard → PutsEnding (R.ending heard)
        (channel K.contents K.has_failed sink.old sink.new) written result }
    ensures works { OnOk result (K.has_failed sink.old ≡ false → K.has_failed sink.new ≡ false) }
{
    let mut text = Vec::new(alloc);
    let Ok(()) = reporter.end(&mut text) else {
        return Err(ReportFault::NoMemory);
    };
    put_text(sink, text.as_slice(), &mut written)
}

/// Does what `report` does, and where the input is a chain of files, ends the text as the reporter says.
///
/// `Decode` where the input is no chain of files or the source failed, and then the text of all events before the fault was put,
/// and the reporter has heard just those; no ending. `NoMemory` where an allocation failed, and `Write` where the sink failed: either
/// before all events were told, and then as `report` says, or at the ending. Then the text of all events was put, without any of the
/// ending with `NoMemory`, and with a part of it with `Write`. `written` counts all bytes of the text that were put.
pub fn report_document<S: Source, K: Sink, R: Document>(
    alloc: Global,
    source: &mut S,
    sink: &mut K,
    reporter: &mut R,
) -> Result<(), ReportFault>
    requires { R.has_heard reporter.old [] }
    ensures reports { ReportsDocument R.has_heard reporter.new R.line R.ending
        (channel S.remaining S.has_failed source.old source.new)
        (channel K.contents K.has_failed sink.old sink.new) result }
    // Where the input is a chain's bytes, its text and the ending are put, unless memory is refused or the source or the sink fails.
    ensures chain { (fs : List (FitFile Global)) (b : List ℕ) → S.remaining source.old ≡ Some b
        → IsBytes b → IsChain chain_limit fs b
        → ReportsChainDocument R.line R.ending fs
        (channel S.remaining S.has_failed source.old source.new)
        (channel K.contents K.has_failed sink.old sink.new) result }
    // The reporter has then heard the events of the chain.
    ensures heard { (fs : List (FitFile Global)) (b : List ℕ) → S.remaining source.old ≡ Some b
        → IsBytes b → IsChain chain_limit fs b
        → OnOk result (R.has_heard reporter.new (reverse (flat_map file_events fs))) }
    // A sink that had not failed has not failed after a report that succeeds.
    ensures works { OnOk result (K.has_failed sink.old ≡ false → K.has_failed sink.new ≡ false) }
{
    let mut telling = Telling::new(alloc);
    tell_all(alloc, &mut telling, source, sink, reporter)?;
    put_ending(alloc, sink, reporter, telling.written())
}
