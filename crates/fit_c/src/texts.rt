//! Texts of files, and files of texts. A text belongs to the caller, who frees it where it isn't empty.
ghost use Rattle.std.specs.Prelude.{◌≡◌, ◌≢◌, ℕ, List, Some, [], false, true, flat_map, reverse};
ghost use Rattle.std.specs.declared.alloc.Global.{Global};
ghost use Rattle.fit_record.specs.declared.file.FitFile.{FitFile};
ghost use Rattle.fit_record.specs.Files.{IsChain, chain_limit};
ghost use Rattle.fit_chain.specs.Checks.{AreChain};
ghost use Rattle.fit_chain.specs.Events.{file_events};
ghost use Rattle.fit_report.specs.Heard.{text_of};
ghost use Rattle.fit_cells.specs.Rows.{csv_text};
ghost use Rattle.fit_rows.specs.ChainRows.{chain_rows, rows_of};
ghost use Rattle.fit_csv.specs.FromText.{IsTextOf};
ghost use Rattle.fit_messages.specs.Blocks.{event_block};
ghost use Rattle.fit_from_messages.specs.FromBlocks.{AreBlocksOf};
ghost use Rattle.fit_show.specs.ShowLines.{show_line};
ghost use Rattle.fit_table.specs.Table.{table_of};
ghost use Rattle.fit_c.specs.Answers.{AreBlocksRead, IsConverted, IsReported, IsTextRead, IsTextUnlessNoMemory};

use crate::FitAnswer;
use crate::answer::{answer_for_blocks, answer_for_conversion, answer_for_report};
use fit_csv::{ShowReport, from_csv_text, table, to_csv};
use fit_encode::WriteSink;
use fit_from_messages::from_messages;
use fit_messages::MessagesReport;
use fit_report::{Report, report};
use std::alloc::Global;

/// A sink that keeps its bytes in memory, and has none yet.
pub(crate) fn memory(alloc: Global) -> WriteSink<Vec<u8>>
    ensures held { result.held ≡ Some [] }
    ensures works { result.failed ≡ false }
{
    WriteSink::new(Vec::new(alloc))
}

/// The bytes of a sink, for good.
fn handed(sink: WriteSink<Vec<u8>>) -> &'static [u8]
    ensures { Some result.now ≡ sink.held }
{
    sink.into_inner().leak()
}

/// The bytes of a sink for good, where they are to be handed over; else none.
pub(crate) fn handed_where(good: bool, sink: WriteSink<Vec<u8>>) -> &'static [u8]
    ensures good { good ≡ true → Some result.now ≡ sink.held }
    ensures nothing { good ≡ false → result.now ≡ [] }
{
    if good { handed(sink) } else { &[] }
}

/// The table of a chain of files as CSV text. Where the bytes are none, the text has the rows before the fault.
#[unsafe(no_mangle)]
pub extern "C" fn gazhdor_table(alloc: Global, bytes: &[u8], text: &mut &'static [u8]) -> FitAnswer
    ensures converted { IsConverted table_of bytes.now result text.new.now }
    ensures good { result.status ≡ 0 → AreChain Global bytes.now }
    ensures chain { (fs : List (FitFile Global)) → IsChain chain_limit fs bytes.now
        → IsTextUnlessNoMemory (csv_text (table_of (flat_map file_events fs))) result text.new.now }
{
    let mut source = bytes;
    let mut sink = memory(alloc);
    let answered = table(alloc, &mut source, &mut sink);
    *text = handed(sink);
    answer_for_conversion(answered)
}

/// A chain of files as CSV text. Where the bytes are none, the text has the rows before the fault.
#[unsafe(no_mangle)]
pub extern "C" fn gazhdor_to_csv(alloc: Global, bytes: &[u8], text: &mut &'static [u8]) -> FitAnswer
    ensures converted { IsConverted rows_of bytes.now result text.new.now }
    ensures good { result.status ≡ 0 → AreChain Global bytes.now }
    ensures chain { (fs : List (FitFile Global)) → IsChain chain_limit fs bytes.now
        → IsTextUnlessNoMemory (csv_text (chain_rows fs)) result text.new.now }
{
    let mut source = bytes;
    let mut sink = memory(alloc);
    let answered = to_csv(alloc, &mut source, &mut sink);
    *text = handed(sink);
    answer_for_conversion(answered)
}

/// What a report of a chain of files puts, for good. Where the bytes are none, it is that of the events before the fault.
fn reported<R: Report>(
    alloc: Global,
    bytes: &[u8],
    reporter: &mut R,
    text: &mut &'static [u8],
) -> FitAnswer
    requires { R.has_heard reporter.old [] }
    ensures reported { IsReported R.line bytes.now result text.new.now }
    ensures good { result.status ≡ 0 → AreChain Global bytes.now }
    ensures chain { (fs : List (FitFile Global)) → IsChain chain_limit fs bytes.now
        → IsTextUnlessNoMemory (text_of R.line (reverse (flat_map file_events fs)))
        result text.new.now }
{
    let mut source = bytes;
    let mut sink = memory(alloc);
    let answered = report(alloc, &mut source, &mut sink, reporter);
    *text = handed(sink);
    answer_for_report(answered)
}

/// The lines of `fit show` of a chain of files, without the last. Where the bytes are none, the text has the lines before the fault.
#[unsafe(no_mangle)]
pub extern "C" fn gazhdor_show(alloc: Global, bytes: &[u8], text: &mut &'static [u8]) -> FitAnswer
    ensures reported { IsReported show_line bytes.now result text.new.now }
    ensures good { result.status ≡ 0 → AreChain Global bytes.now }
    ensures chain { (fs : List (FitFile Global)) → IsChain chain_limit fs bytes.now
        → IsTextUnlessNoMemory (text_of show_line (reverse (flat_map file_events fs)))
        result text.new.now }
{
    reported(alloc, bytes, &mut ShowReport::new(alloc), text)
}

/// The blocks of the events of a chain of files (`docs/BLOCKS.md`). Where the bytes are none, they are those before the fault.
#[unsafe(no_mangle)]
pub extern "C" fn gazhdor_messages(
    alloc: Global,
    bytes: &[u8],
    blocks: &mut &'static [u8],
) -> FitAnswer
    ensures reported { IsReported event_block bytes.now result blocks.new.now }
    ensures good { result.status ≡ 0 → AreChain Global bytes.now }
    ensures chain { (fs : List (FitFile Global)) → IsChain chain_limit fs bytes.now
        → IsTextUnlessNoMemory (text_of event_block (reverse (flat_map file_events fs)))
        result blocks.new.now }
{
    reported(alloc, bytes, &mut MessagesReport::new(alloc), blocks)
}

/// The bytes of the chain of files whose rows are those of a text. No bytes where the text is refused, and none where memory is.
#[unsafe(no_mangle)]
pub extern "C" fn gazhdor_from_csv(
    alloc: Global,
    text: &[u8],
    bytes: &mut &'static [u8],
) -> FitAnswer
    ensures read { IsTextRead text.now result }
    ensures good { result.status ≡ 0
        → (files : List (FitFile Global)) × IsTextOf text.now files bytes.new.now }
    ensures nothing { result.status ≢ 0 → bytes.new.now ≡ [] }
    ensures chain { (files : List (FitFile Global)) (b : List ℕ) → IsTextOf text.now files b
        → IsTextUnlessNoMemory b result bytes.new.now }
{
    let mut sink = memory(alloc);
    let answered = from_csv_text(alloc, text, &mut sink);
    *bytes = handed_where(answered.is_ok(), sink);
    answer_for_conversion(answered)
}

/// The bytes of the chain of files that blocks say (`docs/BLOCKS.md`). No bytes where a block is refused, and none where memory is.
#[unsafe(no_mangle)]
pub extern "C" fn gazhdor_from_messages(
    alloc: Global,
    blocks: &[u8],
    bytes: &mut &'static [u8],
) -> FitAnswer
    ensures read { AreBlocksRead blocks.now result }
    ensures good { result.status ≡ 0
        → (files : List (FitFile Global)) × AreBlocksOf blocks.now files bytes.new.now }
    ensures nothing { result.status ≢ 0 → bytes.new.now ≡ [] }
    ensures chain { (files : List (FitFile Global)) (b : List ℕ) → AreBlocksOf blocks.now files b
        → IsTextUnlessNoMemory b result bytes.new.now }
{
    let mut sink = memory(alloc);
    let answered = from_messages(alloc, blocks, &mut sink);
    *bytes = handed_where(answered.is_ok(), sink);
    answer_for_blocks(answered)
}
