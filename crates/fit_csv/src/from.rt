//! Rows back to files.
ghost use Rattle.std.specs.Prelude.{◌≡◌, ℕ, List, IfErr, Some};
ghost use Rattle.std.specs.Global.{Global};
ghost use Rattle.fit_record.specs.declared.file.FitFile.{FitFile};
ghost use Rattle.fit_report.specs.Reports.{channel};
ghost use Rattle.fit_csv.specs.FromText.{Answers, FromTextOf, IsTextOf, ReadsText, UnlessWritten, read_out, written_fault};

mod cells;
mod chain;
mod current_file;
mod definition;
mod fields;
mod guess;
mod header;
mod judge;
mod message;
mod misfit;
mod open_definition;
mod open_file;
mod open_message;
mod ranges;
mod text;

use crate::CsvFault;
use crate::from::judge::judge;
use crate::from::text::{MOST, read_text};
use crate::laws::chains_have_own_rows;
use fit_decode::Source;
use fit_encode::laws::good_chains_have_no_fault;
use fit_encode::{EncodeFault, Sink, write_spelled};
use fit_record::laws::faults_are_exact;
use std::alloc::Global;

/// The fault of files that rows gave and that weren't written.
fn from_fault(fault: EncodeFault) -> CsvFault
    ensures { result ≡ written_fault fault }
{
    match fault {
        EncodeFault::NoMemory => CsvFault::NoMemory,
        EncodeFault::Write { written } => CsvFault::Write { written },
        fault => CsvFault::Encode(fault),
    }
}

/// Writes the files whose rows are those of a text.
fn convert<K: Sink>(alloc: Global, text: &[u8], sink: &mut K) -> Result<(), CsvFault>
    ensures answers { Answers text.now (read_out text.now)
        (channel K.contents K.has_failed sink.old sink.new) result }
    ensures unchanged { IfErr result (λ fault. UnlessWritten fault (sink.new ≡ sink.old)) }
{
    faults_are_exact::<Global>();
    if text.len() as u64 > MOST {
        return Err(CsvFault::Read);
    }
    let files = judge(alloc, text)?;
    match write_spelled(sink, &files) {
        Ok(()) => Ok(()),
        Err(fault) => Err(from_fault(fault)),
    }
}

/// Writes CSV text that is in memory as a chain of FIT files, as `from_csv` does, and makes no copy of it. Its faults are those of
/// `from_csv`; `Read` comes where the text has more than 2^62 bytes.
pub fn from_csv_text<K: Sink>(alloc: Global, text: &[u8], sink: &mut K) -> Result<(), CsvFault>
    // Its rows are those of a well-formed chain, whose bytes are written; or there is a fault.
    ensures answers { Answers text.now (read_out text.now)
        (channel K.contents K.has_failed sink.old sink.new) result }
    ensures unchanged { IfErr result (λ fault. UnlessWritten fault (sink.new ≡ sink.old)) }
    // Where the rows of the text are those of a chain, its bytes are written, unless memory is refused or the sink fails.
    ensures chain { (files : List (FitFile Global)) (bytes : List ℕ) → IsTextOf text.now files bytes
        → FromTextOf bytes (read_out text.now)
        (channel K.contents K.has_failed sink.old sink.new) result }
{
    chains_have_own_rows();
    good_chains_have_no_fault::<Global>();
    convert(alloc, text, sink)
}

/// Reads a text, and writes the files whose rows are those of it.
fn read_and_convert<S: Source, K: Sink>(
    alloc: Global,
    source: &mut S,
    sink: &mut K,
) -> Result<(), CsvFault>
    ensures reads { ReadsText
        (channel S.remaining S.has_failed source.old source.new)
        (channel K.contents K.has_failed sink.old sink.new) result }
    ensures unchanged { IfErr result (λ fault. UnlessWritten fault (sink.new ≡ sink.old)) }
{
    let text = read_text(alloc, source)?;
    from_csv_text(alloc, text.as_slice(), sink)
}

/// Writes CSV text as a chain of FIT files. It reads the whole text, which may have 2^62 bytes, then
/// judges its rows in their order, and the cells of a row from left to right, and then writes the files.
///
/// `Read` where the source failed or the text is longer; `Header` where the first row isn't the first
/// line; `BadRow` and `BadCell` for the first row that is not allowed there, and its first such cell.
/// `Encode` where the rows are those of files that can't be written: the data is too long, or the word
/// `zero` takes the place of a checksum that is 0. Up to here nothing is written. `Write` where the sink failed after that
/// many bytes of the files. `NoMemory` where an allocation failed. All results but `Read` and `NoMemory` leave
/// the source at its end.
pub fn from_csv<S: Source, K: Sink>(
    alloc: Global,
    source: &mut S,
    sink: &mut K,
) -> Result<(), CsvFault>
    // It takes the whole text, but where the source fails or memory is refused. Its rows are those of a well-formed chain, whose
    // bytes are written; or there is a fault.
    ensures reads { ReadsText
        (channel S.remaining S.has_failed source.old source.new)
        (channel K.contents K.has_failed sink.old sink.new) result }
    ensures unchanged { IfErr result (λ fault. UnlessWritten fault (sink.new ≡ sink.old)) }
    // Where the rows of the text are those of a chain, its bytes are written, unless memory is refused or the source or the sink fails.
    ensures chain { (text : List ℕ) (files : List (FitFile Global)) (bytes : List ℕ)
        → S.remaining source.old ≡ Some text → IsTextOf text files bytes
        → FromTextOf bytes
        (channel S.remaining S.has_failed source.old source.new)
        (channel K.contents K.has_failed sink.old sink.new) result }
{
    chains_have_own_rows();
    good_chains_have_no_fault::<Global>();
    read_and_convert(alloc, source, sink)
}
