//! Passes the events of a source's bytes to a reporter, and its text to a sink.
ghost use Rattle.std.specs.Prelude.{◌≡◌, ℕ, ◌<◌, ◌≤◌, [], List, Option, None, false, IfOk, OnOk, Some, flat_map, length, reverse};
ghost use Rattle.std.specs.Global.{Global};
ghost use Rattle.fit_base.specs.Numbers.{IsBytes};
ghost use Rattle.fit_record.specs.declared.file.FitFile.{FitFile};
ghost use Rattle.fit_record.specs.Files.{chain_limit, IsChain};
ghost use Rattle.fit_chain.specs.Events.{file_events};
ghost use Rattle.fit_report.specs.Reports.{Reports, ReportsChain, channel};
ghost use Rattle.fit_report.specs.inner.Passing.{EndsFrom, HasComeTo, HasComeToEnd, ReportsFrom, TellsPiece};

use crate::{Report, ReportFault, Telling};
use fit_decode::{Fault, PIECE_SIZE, Source};
use fit_encode::Sink;
use std::alloc::Global;

/// The most bytes that are taken at once. The record that a piece cuts is read byte by byte, so long pieces are read faster.
const LONG_PIECE: usize = 65_536;

/// Takes a piece of at most the buffer's length, after that many bytes, and tells it. Returns how many bytes it has; at the end of the
/// input 0, where all of them are a chain.
fn tell_taken<S: Source, K: Sink, R: Report>(
    telling: &mut Telling,
    source: &mut S,
    sink: &mut K,
    reporter: &mut R,
    buffer: &mut [u8],
    place: u64,
) -> Result<usize, ReportFault>
    requires come { (begin : Option (List ℕ)) × (start : Option (List ℕ)) × HasComeTo
        R.has_heard R.line reporter.old telling.old place begin (S.remaining source.old)
        start (K.contents sink.old) }
    requires some { 0 < length buffer.old }
    requires short { length buffer.old ≤ 65536 }
    ensures bound { IfOk result (λ got. got ≤ 65536) }
    ensures length { length buffer.new ≡ length buffer.old }
    ensures tells { TellsPiece R.has_heard R.line reporter.old reporter.new
        telling.old telling.new place
        (channel S.remaining S.has_failed source.old source.new)
        (channel K.contents K.has_failed sink.old sink.new) result }
    ensures ended { IfOk result (λ got. got ≡ 0 → EndsFrom
        R.has_heard R.line reporter.old reporter.new telling.old telling.new place
        (channel S.remaining S.has_failed source.old source.new)
        (channel K.contents K.has_failed sink.old sink.new)) }
    ensures works { OnOk result (K.has_failed sink.old ≡ false → K.has_failed sink.new ≡ false) }
{
    let Ok(got) = source.take(buffer) else {
        return Err(ReportFault::Decode(Fault::Read { place }));
    };
    if got == 0 {
        telling.finish()?;
        return Ok(0);
    }
    let (piece, _) = buffer.split_at(got);
    telling.feed(reporter, sink, piece)?;
    Ok(got)
}

/// Takes pieces of at most the buffer's length, after that many bytes, to the end of the input or the first fault, and tells each.
fn tell_pieces<S: Source, K: Sink, R: Report>(
    telling: &mut Telling,
    source: &mut S,
    sink: &mut K,
    reporter: &mut R,
    buffer: &mut [u8],
    mut place: u64,
) -> Result<(), ReportFault>
    requires come { (begin : Option (List ℕ)) × (start : Option (List ℕ)) × HasComeTo
        R.has_heard R.line reporter.old telling.old place begin (S.remaining source.old)
        start (K.contents sink.old) }
    requires some { 0 < length buffer.old }
    requires short { length buffer.old ≤ 65536 }
    ensures reports { ReportsFrom R.has_heard R.line reporter.old reporter.new telling.old place
        (channel S.remaining S.has_failed source.old source.new)
        (channel K.contents K.has_failed sink.old sink.new) result }
    ensures ended { OnOk result (EndsFrom
        R.has_heard R.line reporter.old reporter.new telling.old telling.new place
        (channel S.remaining S.has_failed source.old source.new)
        (channel K.contents K.has_failed sink.old sink.new)) }
    ensures works { OnOk result (K.has_failed sink.old ≡ false → K.has_failed sink.new ≡ false) }
{
    'pieces: loop {
        let got = tell_taken(telling, source, sink, reporter, buffer, place)?;
        if got == 0 {
            return Ok(());
        }
        place += got as u64;
    }
}

/// Tells all that comes after that many bytes, in long pieces where there is memory for these, else in pieces of this buffer.
fn tell_rest<S: Source, K: Sink, R: Report>(
    alloc: Global,
    telling: &mut Telling,
    source: &mut S,
    sink: &mut K,
    reporter: &mut R,
    short: &mut [u8],
    place: u64,
) -> Result<(), ReportFault>
    requires come { (begin : Option (List ℕ)) × (start : Option (List ℕ)) × HasComeTo
        R.has_heard R.line reporter.old telling.old place begin (S.remaining source.old)
        start (K.contents sink.old) }
    requires some { 0 < length short.old }
    requires short { length short.old ≤ 65536 }
    ensures reports { ReportsFrom R.has_heard R.line reporter.old reporter.new telling.old place
        (channel S.remaining S.has_failed source.old source.new)
        (channel K.contents K.has_failed sink.old sink.new) result }
    ensures ended { OnOk result (EndsFrom
        R.has_heard R.line reporter.old reporter.new telling.old telling.new place
        (channel S.remaining S.has_failed source.old source.new)
        (channel K.contents K.has_failed sink.old sink.new)) }
    ensures works { OnOk result (K.has_failed sink.old ≡ false → K.has_failed sink.new ≡ false) }
{
    let mut long = Vec::new(alloc);
    if let Err(_) = long.resize(LONG_PIECE, 0) {
        return tell_pieces(telling, source, sink, reporter, short, place);
    }
    tell_pieces(telling, source, sink, reporter, long.as_mut_slice(), place)
}

/// Tells all of an input, of which nothing was told before. The first two pieces are short, so that a short input takes no memory for
/// long ones.
pub(crate) fn tell_all<S: Source, K: Sink, R: Report>(
    alloc: Global,
    telling: &mut Telling,
    source: &mut S,
    sink: &mut K,
    reporter: &mut R,
) -> Result<(), ReportFault>
    requires fresh { telling.old ≡ record
        { seen = record { bytes = []; refusal = None }; written = 0 } }
    requires heard { R.has_heard reporter.old [] }
    ensures reports { Reports R.has_heard reporter.new R.line
        (channel S.remaining S.has_failed source.old source.new)
        (channel K.contents K.has_failed sink.old sink.new) result }
    ensures ended { OnOk result (HasComeToEnd
        R.has_heard R.line reporter.new telling.new
        (channel S.remaining S.has_failed source.old source.new)
        (K.contents sink.old) (K.contents sink.new)) }
    ensures works { OnOk result (K.has_failed sink.old ≡ false → K.has_failed sink.new ≡ false) }
{
    let mut short = [0u8; PIECE_SIZE];
    let first = tell_taken(telling, source, sink, reporter, &mut short, 0)?;
    if first == 0 {
        return Ok(());
    }
    let second = tell_taken(telling, source, sink, reporter, &mut short, first as u64)?;
    if second == 0 {
        return Ok(());
    }
    let place = first as u64 + second as u64;
    tell_rest(alloc, telling, source, sink, reporter, &mut short, place)
}

/// Passes the events of a source's bytes to a reporter, which has heard nothing yet, and its text to a sink. Takes pieces of at
/// most 65,536 bytes, to the end of the input or the first fault.
///
/// `Decode` where the input is no chain of files or the source failed, and then the text of all events before the fault was put,
/// and the reporter has heard just those; `NoMemory` where an allocation failed, and `Write` where the sink failed. Then the text of
/// some first bytes was put, with `Write` only `written` bytes of it. With `NoMemory` memory was refused after these bytes, at one of
/// the last 65,536 taken, which isn't refused itself, and which may take memory or completes an event.
pub fn report<S: Source, K: Sink, R: Report>(
    alloc: Global,
    source: &mut S,
    sink: &mut K,
    reporter: &mut R,
) -> Result<(), ReportFault>
    requires { R.has_heard reporter.old [] }
    ensures reports { Reports R.has_heard reporter.new R.line
        (channel S.remaining S.has_failed source.old source.new)
        (channel K.contents K.has_failed sink.old sink.new) result }
    // Where the input is a chain's bytes, its text is put, unless memory is refused or the source or the sink fails.
    ensures chain { (fs : List (FitFile Global)) (b : List ℕ) → S.remaining source.old ≡ Some b
        → IsBytes b → IsChain chain_limit fs b
        → ReportsChain R.line fs
        (channel S.remaining S.has_failed source.old source.new)
        (channel K.contents K.has_failed sink.old sink.new) result }
    // The reporter has then heard the events of the chain.
    ensures heard { (fs : List (FitFile Global)) (b : List ℕ) → S.remaining source.old ≡ Some b
        → IsBytes b → IsChain chain_limit fs b
        → OnOk result (R.has_heard reporter.new (reverse (flat_map file_events fs))) }
    // A sink that had not failed has not failed after a report that succeeds.
    ensures works { OnOk result (K.has_failed sink.old ≡ false → K.has_failed sink.new ≡ false) }
{
    let mut telling = Telling::new(alloc);
    tell_all(alloc, &mut telling, source, sink, reporter)
}
