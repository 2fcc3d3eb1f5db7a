//! What the calls return.
ghost use Rattle.std.specs.Prelude.{◌≡◌};
ghost use Rattle.fit_c.specs.Answers.{block_reason_code, blocks_answer, check_answer, conversion_answer, fault_answer};
ghost use Rattle.fit_c.specs.Answers.{status_alone, reason_code, report_answer};

use fit_csv::CsvFault;
use fit_decode::Fault;
use fit_frame::Reason;
use fit_from_messages::{BlockReason, BlocksFault};
use fit_report::ReportFault;

/// A status, and where and why. A number that has no meaning for the status is 0.
#[repr(C)]
#[derive(Clone, Copy)]
pub struct FitAnswer {
    /// 0 good, 1 refused, 2 truncated, 3 out of memory, 4 a row or a cell of a text refused, 5 no file has such rows, 6 the stream or the
    /// writer is closed, 7 there is no such kind of stream, 8 a block can't stand where it is.
    pub status: u32,
    /// With status 1 and 8 the number of the reason.
    pub reason: u32,
    /// With status 1 and 2 the place of the byte, and with status 8 where the block begins, counted from 0.
    pub place: u64,
    /// With status 4 the row, counted from 1; with status 8 the number of the block, counted from 0.
    pub row: u64,
    /// With status 4 the column of a cell, counted from 1; 0 where the row as a whole is refused.
    pub column: u64,
    /// With status 0 how many files there are, in the answers of `gazhdor_check`, `gazhdor_feed` and `gazhdor_finish`.
    pub files: u64,
}

/// An answer that says nothing but its status.
pub(crate) fn plain(status: u32) -> FitAnswer
    ensures { result ≡ status_alone status }
{
    FitAnswer {
        status,
        reason: 0,
        place: 0,
        row: 0,
        column: 0,
        files: 0,
    }
}

/// The number of a reason.
fn code(reason: Reason) -> u32
    ensures { result ≡ reason_code reason }
{
    match reason {
        Reason::HeaderSize => 1,
        Reason::Protocol => 2,
        Reason::NoFit => 3,
        Reason::Signature => 4,
        Reason::HeaderSum => 5,
        Reason::ReservedBit => 6,
        Reason::UndefinedLocal => 7,
        Reason::Overrun => 8,
        Reason::Architecture => 9,
        Reason::FileSum => 10,
        Reason::TooManyFiles => 11,
    }
}

/// The answer for a fault of the bytes. A slice is a source that doesn't fail.
fn answer_for_fault(fault: Fault) -> FitAnswer
    ensures { result ≡ fault_answer fault }
{
    match fault {
        Fault::Refused { place, reason } => FitAnswer {
            reason: code(reason),
            place,
            ..plain(1)
        },
        Fault::Truncated { place } => FitAnswer { place, ..plain(2) },
        Fault::NoMemory { .. } | Fault::Read { .. } => plain(3),
    }
}

/// The answer for bytes that were checked.
pub(crate) fn answer_for_check(checked: Result<u64, Fault>) -> FitAnswer
    ensures { result ≡ check_answer checked }
{
    match checked {
        Ok(files) => FitAnswer { files, ..plain(0) },
        Err(fault) => answer_for_fault(fault),
    }
}

/// The answer for what a conversion returned.
pub(crate) fn answer_for_conversion(answered: Result<(), CsvFault>) -> FitAnswer
    ensures { result ≡ conversion_answer answered }
{
    match answered {
        Ok(()) => plain(0),
        Err(CsvFault::Decode(fault)) => answer_for_fault(fault),
        Err(CsvFault::Header) => FitAnswer { row: 1, ..plain(4) },
        Err(CsvFault::BadRow { row }) => FitAnswer { row, ..plain(4) },
        Err(CsvFault::BadCell { row, column }) => FitAnswer {
            row,
            column,
            ..plain(4)
        },
        Err(CsvFault::Encode(_)) => plain(5),
        Err(CsvFault::NoMemory | CsvFault::Read | CsvFault::Write { .. }) => plain(3),
    }
}

/// The answer for what a report returned.
pub(crate) fn answer_for_report(answered: Result<(), ReportFault>) -> FitAnswer
    ensures { result ≡ report_answer answered }
{
    match answered {
        Ok(()) => plain(0),
        Err(ReportFault::Decode(fault)) => answer_for_fault(fault),
        Err(ReportFault::NoMemory | ReportFault::Write { .. }) => plain(3),
    }
}

/// The number of a reason of a block.
pub(crate) fn block_code(reason: BlockReason) -> u32
    ensures { result ≡ block_reason_code reason }
{
    match reason {
        BlockReason::Cut => 1,
        BlockReason::Kind => 2,
        BlockReason::Header => 3,
        BlockReason::Local => 4,
        BlockReason::Architecture => 5,
        BlockReason::Entries => 6,
        BlockReason::Size => 7,
        BlockReason::Offset => 8,
        BlockReason::Undefined => 9,
        BlockReason::Items => 10,
    }
}

/// The answer for what was returned of blocks.
pub(crate) fn answer_for_blocks(answered: Result<(), BlocksFault>) -> FitAnswer
    ensures { result ≡ blocks_answer answered }
{
    match answered {
        Ok(()) => plain(0),
        Err(
            BlocksFault::Block {
                number,
                place,
                reason,
            },
        ) => FitAnswer {
            reason: block_code(reason),
            place,
            row: number,
            ..plain(8)
        },
        Err(BlocksFault::Encode(_)) => plain(5),
        Err(BlocksFault::NoMemory | BlocksFault::Write { .. }) => plain(3),
    }
}
