//! Blocks back to files.
ghost use Rattle.std.specs.Prelude.{◌≡◌, ◌+◌, ◌<◌, ℕ, List, [], IfErr, IfOk, OnOk, length};
ghost use Rattle.std.specs.Global.{Global};
ghost use Rattle.fit_record.specs.declared.file.FitFile.{FitFile};
ghost use Rattle.fit_report.specs.Reports.{channel};
ghost use Rattle.fit_from_messages.specs.FromBlocks.{AreBlocksOf, FromBlocks, FromBlocksFault, FromBlocksOf, UnlessStopped, unwritten_fault};
ghost use Rattle.fit_from_messages.specs.SaysChain.{SaysChain};
ghost use Rattle.fit_from_messages.specs.inner.Chains.{AreSaid, HasSaid, IsUnreadBlock, fault_at};

use crate::chain::Chain;
use crate::misfit::Misfit;
use crate::parts::first_block;
use crate::{BlockReason, BlocksFault};
use fit_encode::laws::good_chains_have_no_fault;
use fit_encode::{EncodeFault, Sink, SpelledFiles, write_spelled};
use fit_record::laws::faults_are_exact;
use std::alloc::Global;
use std::mem;

/// The fault at the block of this number and place.
fn fault_at(number: u64, place: u64, misfit: Misfit) -> BlocksFault
    ensures { result ≡ fault_at number place misfit }
{
    match misfit {
        Misfit::Block(reason) => BlocksFault::Block {
            number,
            place,
            reason,
        },
        Misfit::NoMemory => BlocksFault::NoMemory,
    }
}

/// Takes the first block of what is left of all blocks, which is the one of this number, and returns what is left after it.
#[inline(always)]
fn take_first<'a>(
    chain: &mut Chain,
    alloc: Global,
    blocks: &[u8],
    rest: &'a [u8],
    number: u64,
) -> Result<&'a [u8], BlocksFault>
    requires said { HasSaid blocks.now rest.now number chain.old }
    requires some { 0 < length rest.now }
    ensures ok { IfOk result (λ left. HasSaid blocks.now left.now (number + 1) chain.new) }
    ensures shorter { IfOk result (λ left. length left.now < length rest.now) }
    ensures err { IfErr result (IsUnreadBlock blocks.now) }
{
    let place = (blocks.len() - rest.len()) as u64;
    let Some((block, after)) = first_block(rest) else {
        return Err(BlocksFault::Block {
            number,
            place,
            reason: BlockReason::Cut,
        });
    };
    match chain.take_block(alloc, block) {
        Ok(()) => Ok(after),
        Err(misfit) => Err(fault_at(number, place, misfit)),
    }
}

/// Takes all blocks.
fn take_all(chain: &mut Chain, alloc: Global, blocks: &[u8]) -> Result<(), BlocksFault>
    requires { HasSaid blocks.now blocks.now 0 chain.old }
    ensures ok { OnOk result (AreSaid blocks.now chain.new.files) }
    ensures err { IfErr result (IsUnreadBlock blocks.now) }
{
    let mut rest = blocks;
    let mut number = 0;
    while !rest.is_empty() {
        rest = take_first(chain, alloc, blocks, rest, number)?;
        number += 1;
    }
    if !chain.is_whole() {
        return Err(BlocksFault::Block {
            number,
            place: blocks.len() as u64,
            reason: BlockReason::Cut,
        });
    }
    Ok(())
}

/// Takes all blocks, and hands out the files that they say.
fn read_files(alloc: Global, blocks: &[u8], files: &mut SpelledFiles) -> Result<(), BlocksFault>
    ensures ok { OnOk result (AreSaid blocks.now files.new) }
    ensures err { IfErr result (IsUnreadBlock blocks.now) }
{
    let mut chain = Chain::new(alloc);
    let end = take_all(&mut chain, alloc, blocks);
    mem::swap(files, &mut chain.files);
    end
}

/// The fault of files that blocks say and that weren't written.
fn from_fault(fault: EncodeFault) -> BlocksFault
    ensures { result ≡ unwritten_fault fault }
{
    match fault {
        EncodeFault::NoMemory => BlocksFault::NoMemory,
        EncodeFault::Write { written } => BlocksFault::Write { written },
        fault => BlocksFault::Encode(fault),
    }
}

/// Writes the files that blocks say.
fn convert<K: Sink>(alloc: Global, blocks: &[u8], sink: &mut K) -> Result<(), BlocksFault>
    ensures ok { OnOk result (FromBlocks blocks.now
        (channel K.contents K.has_failed sink.old sink.new)) }
    ensures err { IfErr result (FromBlocksFault blocks.now
        (channel K.contents K.has_failed sink.old sink.new)) }
    ensures unchanged { IfErr result (λ fault. UnlessStopped fault (sink.new ≡ sink.old)) }
{
    faults_are_exact::<Global>();
    let mut files = SpelledFiles::new(alloc);
    read_files(alloc, blocks, &mut files)?;
    match write_spelled(sink, &files) {
        Ok(()) => Ok(()),
        Err(fault) => Err(from_fault(fault)),
    }
}

/// Writes the chain of FIT files that blocks say: of a header, records and the end of each file, as `MessagesReport` of `fit_messages`
/// makes them (`docs/BLOCKS.md`). What follows from the rest is passed over, as places, names, times and scales: it may be anything.
///
/// `Block` for the first block that can't stand where it is, with its number from 0, where it begins among the bytes of all, and the
/// first reason in their order; at the end of the bytes it is the block that is missing there. `Encode` where the blocks say files that
/// can't be written: the data is too long, or a checksum of zeros takes the place of one that is 0. Up to here nothing is written.
/// `Write` where the sink failed after that many bytes of the files. `NoMemory` where an allocation failed: none is made before the block of
/// a header that can stand there and a block after it.
pub fn from_messages<K: Sink>(alloc: Global, blocks: &[u8], sink: &mut K) -> Result<(), BlocksFault>
    // The blocks say a well-formed chain, whose bytes are written.
    ensures ok { OnOk result (FromBlocks blocks.now
        (channel K.contents K.has_failed sink.old sink.new)) }
    // A block can't stand where it is; or the files can't be written; or, after a header and a block, memory was refused; or the sink failed.
    ensures refused { IfErr result (FromBlocksFault blocks.now
        (channel K.contents K.has_failed sink.old sink.new)) }
    ensures unchanged { IfErr result (λ fault. UnlessStopped fault (sink.new ≡ sink.old)) }
    // Where the blocks say a chain, its bytes are written, unless memory is refused or the sink fails.
    ensures chain { (files : List (FitFile Global)) (bytes : List ℕ)
        → AreBlocksOf blocks.now files bytes → FromBlocksOf bytes
        (channel K.contents K.has_failed sink.old sink.new) result }
{
    good_chains_have_no_fault::<Global>();
    convert(alloc, blocks, sink)
}
