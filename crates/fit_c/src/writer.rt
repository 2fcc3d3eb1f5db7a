//! Messages that are put one after another into the files of a chain. The bytes of the chain belong to the caller, who frees them.
ghost use Rattle.std.specs.Prelude.{◌≡◌, ◌≢◌, ◌⊎◌, [], IfSome, None, Some};
ghost use Rattle.fit_record.specs.Files.{IsChain, chain_limit};
ghost use Rattle.fit_writer.specs.Written.{Writing, nothing_written};
ghost use Rattle.fit_c.specs.Answers.{status_alone};
ghost use Rattle.fit_c.specs.Writers.{AnswersDefinition, AnswersFile, AnswersFinish, AnswersMessages, block_answer, definition_column, finish_answer, put_answer, refusal_answer, run_answer};

use crate::FitAnswer;
use crate::answer::{block_code, plain};
use crate::texts::{handed_where, memory};
use crate::writer_handle::FitWriter;
use fit_writer::{FinishFault, MessageWriter, Refusal, Run, RunRefusal};
use std::alloc::Global;

/// The answer for a block that can't stand, for the reason with this number.
fn blocked(reason: u32) -> FitAnswer
    ensures { result ≡ block_answer reason }
{
    FitAnswer { reason, ..plain(8) }
}

/// The answer for a call that was refused.
fn answer_for_refusal(refusal: Refusal) -> FitAnswer
    ensures { result ≡ refusal_answer refusal }
{
    match refusal {
        Refusal::Block(reason) | Refusal::Message(reason) => blocked(block_code(reason)),
        Refusal::NoFile => blocked(11),
        Refusal::TooManyFiles => blocked(12),
        Refusal::Full => blocked(13),
        Refusal::Time => blocked(14),
        Refusal::Described => blocked(15),
        Refusal::TooLong => blocked(16),
        Refusal::NoMemory => plain(3),
    }
}

/// The answer for what a put returned.
fn answer_for_put(answered: Result<(), Refusal>) -> FitAnswer
    ensures { result ≡ put_answer answered }
{
    match answered {
        Ok(()) => plain(0),
        Err(refusal) => answer_for_refusal(refusal),
    }
}

/// 1 where the block of the definition is what can't stand, else 0.
fn column_of(refusal: Refusal) -> u64
    ensures { result ≡ definition_column refusal }
{
    match refusal {
        Refusal::Block(_) => 1,
        _ => 0,
    }
}

/// The answer for what a run of messages returned.
fn answer_for_run(answered: Result<Run, RunRefusal>) -> FitAnswer
    ensures { result ≡ run_answer answered }
{
    match answered {
        Ok(run) => FitAnswer {
            row: run.count,
            files: run.accumulated,
            ..plain(0)
        },
        Err(stop) => FitAnswer {
            place: stop.place,
            row: stop.count,
            column: column_of(stop.refusal),
            files: stop.accumulated,
            ..answer_for_refusal(stop.refusal)
        },
    }
}

/// The answer for what the end of a chain returned. Its sink is memory, which may be refused.
fn answer_for_finish(answered: Result<(), FinishFault>) -> FitAnswer
    ensures { result ≡ finish_answer answered }
{
    match answered {
        Ok(()) => plain(0),
        Err(FinishFault::NoFile) => blocked(11),
        Err(FinishFault::NoMemory | FinishFault::Write { .. }) => plain(3),
    }
}

/// Makes a writer, and keeps it in a box. A writer has some kilobytes, and is copied on its way there: in a call of its own, so that the
/// other calls don't take the stack for it.
#[inline(never)]
fn boxed_writer(alloc: Global) -> Option<Box<MessageWriter>>
    ensures { IfSome result (λ b. b.value ≡ nothing_written) }
{
    Box::new(alloc, MessageWriter::new(alloc)).ok()
}

/// Opens a writer of no file. What was open before is freed. Where memory is refused, the writer is closed.
#[unsafe(no_mangle)]
pub extern "C" fn gazhdor_writer_open(alloc: Global, writer: &mut FitWriter) -> FitAnswer
    ensures opened { ((result ≡ status_alone 0) × (writer.new.value ≡ Some nothing_written))
        ⊎ ((result ≡ status_alone 3) × (writer.new.value ≡ None)) }
{
    gazhdor_writer_close(alloc, writer);
    match boxed_writer(alloc) {
        None => plain(3),
        Some(fresh) => {
            writer.put(alloc, fresh);
            plain(0)
        }
    }
}

/// Begins a file with the header that a block says; the file before it ends.
#[unsafe(no_mangle)]
pub extern "C" fn gazhdor_writer_file(
    alloc: Global,
    writer: &mut FitWriter,
    block: &[u8],
) -> FitAnswer
    ensures closed { writer.old.value ≡ None
        → (result ≡ status_alone 6) × (writer.new.value ≡ None) }
    ensures put { (old : Writing) → writer.old.value ≡ Some old
        → (new : Writing) × (writer.new.value ≡ Some new)
        × AnswersFile old new block.now result }
{
    match writer.take(alloc) {
        None => plain(6),
        Some(mut open) => {
            let answered = open.as_mut().begin_file(block);
            writer.put(alloc, open);
            answer_for_put(answered)
        }
    }
}

/// Puts just the definition message that a block says.
#[unsafe(no_mangle)]
pub extern "C" fn gazhdor_writer_definition(
    alloc: Global,
    writer: &mut FitWriter,
    block: &[u8],
) -> FitAnswer
    ensures closed { writer.old.value ≡ None
        → (result ≡ status_alone 6) × (writer.new.value ≡ None) }
    ensures put { (old : Writing) → writer.old.value ≡ Some old
        → (new : Writing) × (writer.new.value ≡ Some new)
        × AnswersDefinition old new block.now result }
{
    match writer.take(alloc) {
        None => plain(6),
        Some(mut open) => {
            let answered = open.as_mut().put_definition(block);
            writer.put(alloc, open);
            answer_for_put(answered)
        }
    }
}

/// Puts the messages whose blocks stand one after another, by the block of their definition, up to the first that is refused. Answers how
/// many were put and, where not all were, why and where the next begins.
#[unsafe(no_mangle)]
pub extern "C" fn gazhdor_writer_messages(
    alloc: Global,
    writer: &mut FitWriter,
    definition: &[u8],
    blocks: &[u8],
) -> FitAnswer
    ensures closed { writer.old.value ≡ None
        → (result ≡ status_alone 6) × (writer.new.value ≡ None) }
    ensures put { (old : Writing) → writer.old.value ≡ Some old
        → (new : Writing) × (writer.new.value ≡ Some new)
        × AnswersMessages old new definition.now blocks.now result }
{
    match writer.take(alloc) {
        None => plain(6),
        Some(mut open) => {
            let answered = open.as_mut().put_messages(definition, blocks);
            writer.put(alloc, open);
            answer_for_run(answered)
        }
    }
}

/// Ends the file that has begun, and hands out the bytes of the chain. No bytes where there is no file, and none where memory is refused.
/// The writer keeps the chain, to which more files may come.
#[unsafe(no_mangle)]
pub extern "C" fn gazhdor_writer_finish(
    alloc: Global,
    writer: &mut FitWriter,
    bytes: &mut &'static [u8],
) -> FitAnswer
    ensures closed { writer.old.value ≡ None
        → (result ≡ status_alone 6) × (writer.new.value ≡ None) × (bytes.new.now ≡ []) }
    ensures finished { (old : Writing) → writer.old.value ≡ Some old
        → (new : Writing) × (writer.new.value ≡ Some new)
        × AnswersFinish old new bytes.new.now result }
    ensures good { (new : Writing) → writer.new.value ≡ Some new → result.status ≡ 0
        → IsChain chain_limit new.files bytes.new.now }
    ensures nothing { result.status ≢ 0 → bytes.new.now ≡ [] }
{
    match writer.take(alloc) {
        None => {
            *bytes = &[];
            plain(6)
        }
        Some(mut open) => {
            let mut sink = memory(alloc);
            let answered = open.as_mut().finish(&mut sink);
            *bytes = handed_where(answered.is_ok(), sink);
            writer.put(alloc, open);
            answer_for_finish(answered)
        }
    }
}

/// Frees what the writer has. It may be closed already.
#[unsafe(no_mangle)]
pub extern "C" fn gazhdor_writer_close(alloc: Global, writer: &mut FitWriter)
    ensures { writer.new.value ≡ None }
{
    writer.clear(alloc);
}
