//! What the program does, over any source and sinks.
ghost use Rattle.std.specs.Prelude.{◌≡◌, ◌++◌, ◌<◌, [], false, flat_map, length, reverse};
ghost use Rattle.fit_chain.specs.Events.{file_events};
ghost use Rattle.fit_report.specs.Heard.{text_of};
ghost use Rattle.fit_report.specs.Reports.{channel};
ghost use Rattle.fit_rows.specs.ChainRows.{chain_rows};
ghost use Rattle.fit_cells.specs.Rows.{csv_text};
ghost use Rattle.fit_show.specs.ShowLines.{show_line};
ghost use Rattle.fit_table.specs.Table.{table_of};
ghost use Rattle.fit_run.specs.inner.Finishing.{FaultSaid, Finishes};
ghost use Rattle.fit_run.specs.Lines.{file_lines, ok_line};
ghost use Rattle.fit_run.specs.Run.{Concludes, PutsOrFails, Runs, RunsCommand, WritesLines, WritesOfChain, WritesTextOfChain};

use crate::check::CheckReport;
use crate::command_line::Command;
use crate::lines;
use crate::lines::{HEADER_ROW, OK, OUT_OF_MEMORY, TEXT_FAULT, WRITE_FAULT};
use fit_csv::{CsvFault, ShowReport, from_csv, table, to_csv};
use fit_decode::{Fault, Source};
use fit_encode::{Sink, put_all};
use fit_report::{Report, ReportFault, report};
use std::alloc::Global;

/// The exit status of a good input.
pub const GOOD: u8 = 0;
/// The exit status of an input that is refused, or ends too soon.
pub const REFUSED: u8 = 1;
/// The exit status of a bad command line.
pub const BAD_USAGE: u8 = 2;
/// The exit status where memory ran out.
pub const NO_MEMORY: u8 = 3;
/// The exit status where the input can't be read or the output can't be written.
pub const FAILED: u8 = 4;

/// Runs a command on an input, and returns the exit status. Fault lines go to a sink of their own.
///
/// `Check` reads the whole input and writes `file K: D data bytes, N records` at the end of each file, N counting definition
/// messages too; then `ok`, status 0; or `refused at byte A: REASON` or `truncated at byte A`, status 1. Where the source fails,
/// the line `read fault at byte A` goes to the fault sink, where the output fails `write fault` does, and the status is 4; where
/// memory runs out it is `out of memory`, and the status is 3. A fault line that can't be written changes no status.
///
/// `Show` does the same with the lines of `show`. `ToCsv` and `Table` write rows, of all events before a fault; their lines on
/// what is wrong with the input go to the fault sink, with the same statuses. `FromCsv` reads CSV text and writes the chain of files
/// that it describes, or nothing: `header row refused`, `row R refused`, `row R column C refused` and `encode fault: FAULT` have
/// status 1, `read fault` has status 4.
pub fn run<S: Source, K: Sink, E: Sink>(
    alloc: Global,
    command: Command,
    source: &mut S,
    output: &mut K,
    faults: &mut E,
) -> u8
    ensures runs { RunsCommand command
        (channel S.remaining S.has_failed source.old source.new)
        (channel K.contents K.has_failed output.old output.new)
        (channel E.contents E.has_failed faults.old faults.new) result }

    // Where the status is 0, the output has not failed.
    ensures works { result ≡ 0 → K.has_failed output.new ≡ false }

    // What each command writes where its input is the bytes of a chain of files.
    ensures checks { command ≡ Command.Check → WritesOfChain (λ fs. file_lines 1 fs ++ ok_line)
        (channel S.remaining S.has_failed source.old source.new)
        (channel K.contents K.has_failed output.old output.new) result }
    ensures shows { command ≡ Command.Show → WritesOfChain
        (λ fs. text_of show_line (reverse (flat_map file_events fs)) ++ ok_line)
        (channel S.remaining S.has_failed source.old source.new)
        (channel K.contents K.has_failed output.old output.new) result }
    ensures converts { command ≡ Command.ToCsv → WritesOfChain (λ fs. csv_text (chain_rows fs))
        (channel S.remaining S.has_failed source.old source.new)
        (channel K.contents K.has_failed output.old output.new) result }
    ensures tables { command ≡ Command.Table → WritesOfChain
        (λ fs. csv_text (table_of (flat_map file_events fs)))
        (channel S.remaining S.has_failed source.old source.new)
        (channel K.contents K.has_failed output.old output.new) result }
    // What `from-csv` writes where its input is the text of a chain.
    ensures from_text { command ≡ Command.FromCsv → WritesTextOfChain
        (channel S.remaining S.has_failed source.old source.new)
        (channel K.contents K.has_failed output.old output.new) result }
{
    match command {
        Command::Check => run_report(alloc, source, output, faults, &mut CheckReport::new()),
        Command::Show => run_report(alloc, source, output, faults, &mut ShowReport::new(alloc)),
        Command::ToCsv => {
            let answer = to_csv(alloc, source, output);
            end_conversion(faults, answer)
        }
        Command::FromCsv => {
            let answer = from_csv(alloc, source, output);
            end_conversion(faults, answer)
        }
        Command::Table => {
            let answer = table(alloc, source, output);
            end_conversion(faults, answer)
        }
    }
}

/// Reports an input, and says what was found.
fn run_report<S: Source, K: Sink, E: Sink, R: Report>(
    alloc: Global,
    source: &mut S,
    output: &mut K,
    faults: &mut E,
    reporter: &mut R,
) -> u8
    requires { R.has_heard reporter.old [] }
    ensures runs { Runs R.line
        (channel S.remaining S.has_failed source.old source.new)
        (channel K.contents K.has_failed output.old output.new)
        (channel E.contents E.has_failed faults.old faults.new) result }
    ensures chain { WritesOfChain
        (λ fs. text_of R.line (reverse (flat_map file_events fs)) ++ ok_line)
        (channel S.remaining S.has_failed source.old source.new)
        (channel K.contents K.has_failed output.old output.new) result }
    ensures works { result ≡ 0 → K.has_failed output.new ≡ false }
{
    let told = report(alloc, source, output, reporter);
    end_report(output, faults, told)
}

/// Ends the run of a report: writes its last line, and returns the status.
fn end_report<K: Sink, E: Sink>(output: &mut K, faults: &mut E, told: Result<(), ReportFault>) -> u8
    ensures finishes { Finishes told output.old output.new
        (channel K.contents K.has_failed output.old output.new)
        (channel E.contents E.has_failed faults.old faults.new) result }
    ensures works { result ≡ 0 → K.has_failed output.new ≡ false }
{
    match told {
        Ok(()) => end_with_line(output, faults, OK, GOOD),
        Err(ReportFault::Decode(fault)) => end_decoding(output, faults, fault),
        Err(ReportFault::NoMemory) => fail(faults, OUT_OF_MEMORY, NO_MEMORY),
        Err(ReportFault::Write { .. }) => fail(faults, WRITE_FAULT, FAILED),
    }
}

/// Ends the run of a report whose input is no chain of files, or could not be read.
fn end_decoding<K: Sink, E: Sink>(output: &mut K, faults: &mut E, fault: Fault) -> u8
    ensures { FaultSaid fault output.old output.new
        (channel K.contents K.has_failed output.old output.new)
        (channel E.contents E.has_failed faults.old faults.new) result }
{
    match fault {
        Fault::Refused { place, reason } => {
            let line = lines::refused(place, reason);
            end_with_line(output, faults, line.as_str(), REFUSED)
        }
        Fault::Truncated { place } => {
            end_with_line(output, faults, lines::truncated(place).as_str(), REFUSED)
        }
        Fault::Read { place } => fail(faults, lines::read_fault(place).as_str(), FAILED),
        Fault::NoMemory { .. } => fail(faults, OUT_OF_MEMORY, NO_MEMORY),
    }
}

/// Ends the run of a conversion: writes a line where it failed, and returns the status.
fn end_conversion<E: Sink>(faults: &mut E, answer: Result<(), CsvFault>) -> u8
    ensures { Concludes answer
        (channel E.contents E.has_failed faults.old faults.new) result }
{
    match answer {
        Ok(()) => GOOD,
        Err(fault) => fail_conversion(faults, fault),
    }
}

/// Writes a fault line, and returns the status. That the line can't be written changes nothing else.
fn fail<E: Sink>(faults: &mut E, line: &str, status: u8) -> u8
    ensures line { PutsOrFails
        (channel E.contents E.has_failed faults.old faults.new)
        line.now }
    ensures status { result ≡ status }
{
    let _ = put_all(faults, line.as_bytes());
    status
}

/// Writes why a conversion failed, and returns the status.
fn fail_conversion<E: Sink>(faults: &mut E, fault: CsvFault) -> u8
    ensures { Concludes {X = Unit {0}} (Err fault)
        (channel E.contents E.has_failed faults.old faults.new) result }
{
    match fault {
        CsvFault::Decode(fault) => fail_decoding(faults, fault),
        CsvFault::Encode(fault) => fail(faults, lines::encode_fault(fault), REFUSED),
        CsvFault::Header => fail(faults, HEADER_ROW, REFUSED),
        CsvFault::BadRow { row } => fail(faults, lines::bad_row(row).as_str(), REFUSED),
        CsvFault::BadCell { row, column } => {
            fail(faults, lines::bad_cell(row, column).as_str(), REFUSED)
        }
        CsvFault::NoMemory => fail(faults, OUT_OF_MEMORY, NO_MEMORY),
        CsvFault::Read => fail(faults, TEXT_FAULT, FAILED),
        CsvFault::Write { .. } => fail(faults, WRITE_FAULT, FAILED),
    }
}

/// Writes what is wrong with the bytes that a conversion reads, and returns the status.
fn fail_decoding<E: Sink>(faults: &mut E, fault: Fault) -> u8
    ensures { Concludes {X = Unit {0}} (Err (CsvFault.Decode fault))
        (channel E.contents E.has_failed faults.old faults.new) result }
{
    match fault {
        Fault::Refused { place, reason } => {
            fail(faults, lines::refused(place, reason).as_str(), REFUSED)
        }
        Fault::Truncated { place } => fail(faults, lines::truncated(place).as_str(), REFUSED),
        Fault::Read { place } => fail(faults, lines::read_fault(place).as_str(), FAILED),
        Fault::NoMemory { .. } => fail(faults, OUT_OF_MEMORY, NO_MEMORY),
    }
}

/// Writes the last line of a run to the output, and returns the status; that of a write fault where the output fails.
fn end_with_line<K: Sink, E: Sink>(output: &mut K, faults: &mut E, line: &str, status: u8) -> u8
    ensures writes { WritesLines line.now status
        (channel K.contents K.has_failed output.old output.new)
        (channel E.contents E.has_failed faults.old faults.new) result }
    ensures works { 0 < length line.now → result < 4 → K.has_failed output.new ≡ false }
{
    match put_all(output, line.as_bytes()) {
        Ok(()) => status,
        Err(_) => fail(faults, WRITE_FAULT, FAILED),
    }
}
