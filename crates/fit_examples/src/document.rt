//! The heart rates of a ride as one JSON document.
ghost use Rattle.std.specs.Prelude.{◌≡◌, ◌||◌, ◌++◌, ℕ, IfOk, List, OnOk, Some, false, flat_map};
ghost use Rattle.std.specs.declared.alloc.Global.{Global};
ghost use Rattle.fit_base.specs.Numbers.{IsBytes};
ghost use Rattle.fit_record.specs.declared.file.FitFile.{FitFile};
ghost use Rattle.fit_record.specs.Files.{IsChain, chain_limit};
ghost use Rattle.fit_report.specs.Heard.{latest_records};
ghost use Rattle.fit_report.specs.Reports.{channel};
ghost use Rattle.fit_examples.specs.HeartRates.{file_moments, moments_in};
ghost use Rattle.fit_examples.specs.Rates.{PutsRates, ReportsRates, are_some, moments_heard, rate_line, rates_end, rates_json};

use crate::Moment;
use crate::moments::moment_told;
use gazhdor::{Document, Event, Report, ReportFault, Sink, Source, Stream, report_document};
use itoa::Buffer;
use std::alloc::{AllocError, Global};

/// Puts the heart rate of each record message into a JSON array.
#[derive(Drop)]
struct RatesReport {
    stream: Stream,
    /// Whether the array has some.
    some: bool,
}

/// Puts the heart rate of a moment, if there is one, into an array that has some or none. Returns whether it has some then.
fn put_rate(text: &mut Vec<u8>, some: bool, moment: Option<Moment>) -> Result<bool, AllocError>
    ensures some { IfOk result (λ now. now ≡ (some || are_some (moments_in moment))) }
    ensures text { OnOk result
        (text.new.items ≡ text.old.items ++ rates_json some (moments_in moment)) }
{
    let Some(moment) = moment else {
        return Ok(some);
    };
    text.push(if some { b',' } else { b'[' })?;
    match moment.heart_rate {
        Some(rate) => text.extend_from_slice(Buffer::new().format(rate).as_bytes())?,
        None => text.extend_from_slice(b"null")?,
    }
    Ok(true)
}

impl Report for RatesReport {
    ghost has_heard = { λ r heard. (r.stream ≡ latest_records heard)
        × (r.some ≡ are_some (moments_heard heard)) };

    ghost line = { rate_line };

    fn tell(&mut self, event: &Event, text: &mut Vec<u8>) -> Result<(), AllocError> {
        let moment = moment_told(&mut self.stream, event)?;
        self.some = put_rate(text, self.some, moment)?;
        Ok(())
    }
}

impl Document for RatesReport {
    ghost ending = { rates_end };

    fn end(&mut self, text: &mut Vec<u8>) -> Result<(), AllocError> {
        text.extend_from_slice(if self.some { b"]\n" } else { b"[]\n" })
    }
}

/// Writes the heart rates of a FIT file, or of a chain of such files, as one JSON document: an array with a number for each record
/// message, or `null` where it has no heart rate. What each fault means, and what was written then, `report_document` says.
pub fn rates_document<S: Source, K: Sink>(
    alloc: Global,
    source: &mut S,
    sink: &mut K,
) -> Result<(), ReportFault>
    ensures reports { ReportsRates
        (channel S.remaining S.has_failed source.old source.new)
        (channel K.contents K.has_failed sink.old sink.new) result }
    // Where the input is a chain's bytes, it is the document of all its heart rates.
    ensures chain { (fs : List (FitFile Global)) (b : List ℕ) → S.remaining source.old ≡ Some b
        → IsBytes b → IsChain chain_limit fs b
        → PutsRates (flat_map file_moments fs)
        (channel S.remaining S.has_failed source.old source.new)
        (channel K.contents K.has_failed sink.old sink.new) result }
    ensures works { OnOk result (K.has_failed sink.old ≡ false → K.has_failed sink.new ≡ false) }
{
    let mut reporter = RatesReport {
        stream: Stream::new(alloc),
        some: false,
    };
    report_document(alloc, source, sink, &mut reporter)
}
