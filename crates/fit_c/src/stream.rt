//! Files whose bytes come in pieces. What a call hands out belongs to the caller, who frees it where it isn't empty.
ghost use Rattle.std.specs.Prelude.{◌≡◌, ◌≢◌, ◌⊎◌, ◌++◌, [], IfSome, MatchOption, None, Some};
ghost use Rattle.std.specs.declared.alloc.Global.{Global};
ghost use Rattle.fit_record.specs.Files.{chain_limit, IsViable};
ghost use Rattle.fit_chain.specs.Checks.{AreChain};
ghost use Rattle.fit_stream.specs.Streams.{StreamNow};
ghost use Rattle.fit_stream.specs.declared.kind.Kind.{Kind as Kinds};
ghost use Rattle.fit_stream.specs.declared.kind.Kind.TheVariants as kinds;
ghost use Rattle.fit_c.specs.Answers.{status_alone};
ghost use Rattle.fit_c.specs.Streams.{begun, EndsStream, FeedsStream, stream_kind, stream_answer};

use crate::FitAnswer;
use crate::answer::{answer_for_report, plain};
use crate::handle::FitStream;
use fit_report::ReportFault;
use fit_stream::{ChainStream, Kind};
use std::alloc::Global;

/// The kind of a number.
fn kind_of(number: u32) -> Option<Kind>
    ensures { MatchOption result ((k : Kinds) → number ≢ stream_kind k)
        (λ k. number ≡ stream_kind k) }
{
    match number {
        0 => Some(Kind::Check),
        1 => Some(Kind::Show),
        2 => Some(Kind::Table),
        3 => Some(Kind::Rows),
        4 => Some(Kind::Messages),
        _ => None,
    }
}

/// The answer for what a stream returned.
fn answer_for_stream(answered: Result<u64, ReportFault>) -> FitAnswer
    ensures { result ≡ stream_answer answered }
{
    match answered {
        Ok(files) => FitAnswer { files, ..plain(0) },
        Err(fault) => answer_for_report(Err(fault)),
    }
}

/// Makes a stream of a kind, and keeps it in a box.
#[inline(always)]
fn boxed(alloc: Global, kind: Kind) -> Option<Box<ChainStream>>
    ensures { IfSome result (λ b. b.value ≡ begun kind) }
{
    let stream = ChainStream::new(alloc, kind)?;
    Box::new(alloc, stream).ok()
}

#[inline(never)]
fn boxed_check(alloc: Global) -> Option<Box<ChainStream>>
    ensures { IfSome result (λ b. b.value ≡ begun kinds.Check) }
{
    boxed(alloc, Kind::Check)
}

#[inline(never)]
fn boxed_show(alloc: Global) -> Option<Box<ChainStream>>
    ensures { IfSome result (λ b. b.value ≡ begun kinds.Show) }
{
    boxed(alloc, Kind::Show)
}

#[inline(never)]
fn boxed_table(alloc: Global) -> Option<Box<ChainStream>>
    ensures { IfSome result (λ b. b.value ≡ begun kinds.Table) }
{
    boxed(alloc, Kind::Table)
}

#[inline(never)]
fn boxed_rows(alloc: Global) -> Option<Box<ChainStream>>
    ensures { IfSome result (λ b. b.value ≡ begun kinds.Rows) }
{
    boxed(alloc, Kind::Rows)
}

#[inline(never)]
fn boxed_messages(alloc: Global) -> Option<Box<ChainStream>>
    ensures { IfSome result (λ b. b.value ≡ begun kinds.Messages) }
{
    boxed(alloc, Kind::Messages)
}

/// Makes a stream of a kind, and keeps it in a box. It takes the stack of that kind alone: a stream has some kilobytes, and is copied on
/// its way into the box.
fn made(alloc: Global, kind: Kind) -> Option<Box<ChainStream>>
    ensures { IfSome result (λ b. b.value ≡ begun kind) }
{
    match kind {
        Kind::Check => boxed_check(alloc),
        Kind::Show => boxed_show(alloc),
        Kind::Table => boxed_table(alloc),
        Kind::Rows => boxed_rows(alloc),
        Kind::Messages => boxed_messages(alloc),
    }
}

/// The answer for a stream that is closed, which hands out nothing.
fn closed(text: &mut &'static [u8]) -> FitAnswer
    ensures answer { result ≡ status_alone 6 }
    ensures nothing { text.new.now ≡ [] }
{
    *text = &[];
    plain(6)
}

/// Opens a stream of the kind with this number: 0 check, 1 show, 2 table, 3 all rows as CSV text, 4 the blocks of messages. What was
/// open before is freed. Where memory is refused or there is no such kind, the stream is closed.
#[unsafe(no_mangle)]
pub extern "C" fn gazhdor_open(alloc: Global, stream: &mut FitStream, kind: u32) -> FitAnswer
    ensures opened { (k : Kinds) → kind ≡ stream_kind k
        → ((result ≡ status_alone 0) × (stream.new.value ≡ Some (begun k)))
        ⊎ ((result ≡ status_alone 3) × (stream.new.value ≡ None)) }
    ensures unknown { ((k : Kinds) → kind ≢ stream_kind k)
        → (result ≡ status_alone 7) × (stream.new.value ≡ None) }
{
    gazhdor_close(alloc, stream);
    match kind_of(kind) {
        None => plain(7),
        Some(kind) => match made(alloc, kind) {
            None => plain(3),
            Some(fresh) => {
                stream.put(alloc, fresh);
                plain(0)
            }
        },
    }
}

/// Feeds a piece, and hands out the text of what it completes, with the first line where nothing was handed out before. Good where
/// the bytes so far begin a chain, with the number of files that have ended.
#[unsafe(no_mangle)]
pub extern "C" fn gazhdor_feed(
    alloc: Global,
    stream: &mut FitStream,
    bytes: &[u8],
    text: &mut &'static [u8],
) -> FitAnswer
    ensures closed { stream.old.value ≡ None
        → (result ≡ status_alone 6) × (stream.new.value ≡ None) × (text.new.now ≡ []) }
    ensures fed { (old : StreamNow) → stream.old.value ≡ Some old
        → (new : StreamNow) × (stream.new.value ≡ Some new)
        × FeedsStream old new bytes.now text.new.now result }
    ensures good { (new : StreamNow) → stream.new.value ≡ Some new
        → result.status ≡ 0 → IsViable Global chain_limit new.flow.bytes }
    // Bytes that begin a chain get no other status, unless memory is refused.
    ensures begins { (old : StreamNow) → stream.old.value ≡ Some old → old.flow.fault ≡ None
        → IsViable Global chain_limit (old.flow.bytes ++ bytes.now)
        → (result.status ≡ 0) ⊎ (result.status ≡ 3) }
    // That the bytes end too soon is only what `gazhdor_finish` says.
    ensures may_go_on { result.status ≢ 2 }
{
    match stream.take(alloc) {
        None => closed(text),
        Some(mut open) => {
            let (handed, answered) = open.as_mut().feed(bytes);
            *text = handed.leak();
            stream.put(alloc, open);
            answer_for_stream(answered)
        }
    }
}

/// Whether all bytes fed are a chain of files, and how many. Hands out the first line where nothing was handed out before. It ends
/// nothing: more may be fed.
#[unsafe(no_mangle)]
pub extern "C" fn gazhdor_finish(
    alloc: Global,
    stream: &mut FitStream,
    text: &mut &'static [u8],
) -> FitAnswer
    ensures closed { stream.old.value ≡ None
        → (result ≡ status_alone 6) × (stream.new.value ≡ None) × (text.new.now ≡ []) }
    ensures ends { (old : StreamNow) → stream.old.value ≡ Some old
        → (new : StreamNow) × (stream.new.value ≡ Some new)
        × EndsStream old new text.new.now result }
    // A chain of files gets no other status, where no fault came before.
    ensures chain { (old : StreamNow) → stream.old.value ≡ Some old → old.flow.fault ≡ None
        → AreChain Global old.flow.bytes → result.status ≡ 0 }
{
    match stream.take(alloc) {
        None => closed(text),
        Some(mut open) => {
            let (last, found) = open.as_mut().finish();
            *text = last.leak();
            stream.put(alloc, open);
            answer_for_stream(found)
        }
    }
}

/// Frees what the stream has. It may be closed already.
#[unsafe(no_mangle)]
pub extern "C" fn gazhdor_close(alloc: Global, stream: &mut FitStream)
    ensures { stream.new.value ≡ None }
{
    stream.clear(alloc);
}
