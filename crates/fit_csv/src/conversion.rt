//! Chains of files as text.
ghost use Rattle.std.specs.Prelude.{◌≡◌, ◌<◌, [], ℕ, false, List, OnOk, Some, flat_map, length};
ghost use Rattle.std.specs.Global.{Global};
ghost use Rattle.fit_base.specs.Numbers.{IsBytes};
ghost use Rattle.fit_record.specs.declared.file.FitFile.{FitFile};
ghost use Rattle.fit_record.specs.Files.{chain_limit, IsChain};
ghost use Rattle.fit_chain.specs.Events.{file_events};
ghost use Rattle.fit_report.specs.Reports.{channel};
ghost use Rattle.fit_rows.specs.ChainRows.{chain_rows, rows_of};
ghost use Rattle.fit_csv.specs.Conversions.{Converts, ConvertsTo, RowsOf};
ghost use Rattle.fit_csv.specs.inner.Reporting.{HasText, csv_fault};
ghost use Rattle.fit_table.specs.Table.{table_of};

use crate::CsvFault;
use fit_decode::Source;
use fit_encode::{Sink, put_all};
use fit_report::{Report, ReportFault, report};
use fit_rows::{CsvReport, ROWS_LINE};
use fit_table::{TABLE_LINE, TableReport};
use std::alloc::Global;

/// The fault of a conversion by that of its report, where that many bytes were written before it.
fn csv_fault(fault: ReportFault, before: u64) -> CsvFault
    ensures { result ≡ csv_fault fault before }
{
    match fault {
        ReportFault::Decode(fault) => CsvFault::Decode(fault),
        ReportFault::NoMemory => CsvFault::NoMemory,
        ReportFault::Write { written } => CsvFault::Write {
            written: written.saturating_add(before),
        },
    }
}

/// Puts the first line of a text in a sink, and what a reporter that has heard nothing yet tells of the bytes of a source.
pub(crate) fn convert<S: Source, K: Sink, R: Report>(
    alloc: Global,
    source: &mut S,
    sink: &mut K,
    first: &[u8],
    reporter: &mut R,
) -> Result<(), CsvFault>
    requires silent { R.has_heard reporter.old [] }
    requires short { length first.now < 1000 }
    ensures converts { (rows : RowsOf) → HasText first.now R.line rows → Converts rows
        (channel S.remaining S.has_failed source.old source.new)
        (channel K.contents K.has_failed sink.old sink.new) result }
    ensures chain { (rows : RowsOf) → HasText first.now R.line rows
        → (fs : List (FitFile Global)) (b : List ℕ) → S.remaining source.old ≡ Some b → IsBytes b
        → IsChain chain_limit fs b
        → ConvertsTo (rows (flat_map file_events fs))
        (channel S.remaining S.has_failed source.old source.new)
        (channel K.contents K.has_failed sink.old sink.new) result }
    ensures works { 0 < length first.now → OnOk result (K.has_failed sink.new ≡ false) }
{
    if let Err(written) = put_all(sink, first) {
        return Err(CsvFault::Write { written });
    }
    match report(alloc, source, sink, reporter) {
        Ok(()) => Ok(()),
        Err(fault) => Err(csv_fault(fault, first.len() as u64)),
    }
}

/// Writes a chain of FIT files as CSV text: the first line, and then the rows of each file. It takes pieces of at most 65,536 bytes
/// from the source, to the end of the input or the first fault. It writes the rows of the events that a piece completes before it takes
/// the next one, and within a piece whenever there are 32 KB of them.
///
/// `Decode` where the input is no chain of files or the source failed: the first line and the rows of all events before the fault
/// were written. `NoMemory` where an allocation failed, and then the rows of some first bytes were written, and memory was refused
/// where `report` of `fit_report` says. `Write` where the sink failed after that many bytes of the text.
pub fn to_csv<S: Source, K: Sink>(
    alloc: Global,
    source: &mut S,
    sink: &mut K,
) -> Result<(), CsvFault>
    ensures converts { Converts rows_of
        (channel S.remaining S.has_failed source.old source.new)
        (channel K.contents K.has_failed sink.old sink.new) result }
    // Where the input is the bytes of a chain, its rows are written, unless memory is refused or the source or the sink fails.
    ensures chain { (fs : List (FitFile Global)) (b : List ℕ) → S.remaining source.old ≡ Some b
        → IsBytes b → IsChain chain_limit fs b
        → ConvertsTo (chain_rows fs)
        (channel S.remaining S.has_failed source.old source.new)
        (channel K.contents K.has_failed sink.old sink.new) result }
    // After a conversion that succeeds the sink has not failed.
    ensures works { OnOk result (K.has_failed sink.new ≡ false) }
{
    let mut reporter = CsvReport::new(alloc);
    convert(alloc, source, sink, ROWS_LINE, &mut reporter)
}

/// Writes the table of a chain of FIT files as CSV text: the first line, and then a row for each record message. It takes pieces of
/// at most 65,536 bytes from the source, to the end of the input or the first fault, and writes rows when `to_csv` does.
/// Its faults are those of `to_csv`.
pub fn table<S: Source, K: Sink>(
    alloc: Global,
    source: &mut S,
    sink: &mut K,
) -> Result<(), CsvFault>
    ensures converts { Converts table_of
        (channel S.remaining S.has_failed source.old source.new)
        (channel K.contents K.has_failed sink.old sink.new) result }
    // Where the input is the bytes of a chain, its table is written, unless memory is refused or the source or the sink fails.
    ensures chain { (fs : List (FitFile Global)) (b : List ℕ) → S.remaining source.old ≡ Some b
        → IsBytes b → IsChain chain_limit fs b
        → ConvertsTo (table_of (flat_map file_events fs))
        (channel S.remaining S.has_failed source.old source.new)
        (channel K.contents K.has_failed sink.old sink.new) result }
    // After a conversion that succeeds the sink has not failed.
    ensures works { OnOk result (K.has_failed sink.new ≡ false) }
{
    let mut reporter = TableReport::new(alloc);
    convert(alloc, source, sink, TABLE_LINE, &mut reporter)
}
