//! Bytes that are all in memory: whether they are a chain of files, in one call.
ghost use Rattle.std.specs.Prelude.{◌≡◌, [], IfErr, IfOk, None};
ghost use Rattle.std.specs.declared.alloc.Global.{Global};
ghost use Rattle.fit_chain.specs.Checks.{AreChain, AreFiles, IsFaultOf, LacksMemory, LacksMemoryAt};

use crate::{Decoder, Event, Fault};
use std::alloc::Global;

/// Frees an event.
#[inline(always)]
fn free(_event: Event) {}

/// Feeds bytes to a decoder to which no byte was fed, and returns how many files they are.
#[inline(always)]
fn feed_all(decoder: &mut Decoder, bytes: &[u8]) -> Result<u64, Fault>
    requires { decoder.old ≡ record { bytes = []; refusal = None } }
    ensures files { IfOk result (AreFiles bytes.now) }
    ensures fault { IfErr result (IsFaultOf bytes.now) }
    ensures place { IfErr result (LacksMemoryAt bytes.now) }
{
    let mut rest = bytes;
    while !rest.is_empty() {
        let (passed, _) = decoder.skip_records(rest);
        let (_, left) = rest.split_at(passed);
        let before = bytes.len() - left.len();
        match decoder.feed(left) {
            Ok(fed) => {
                let (_, after) = left.split_at(fed.used);
                free(fed.event);
                rest = after;
            }
            Err(fault) => return Err(fault.after(before as u64)),
        }
    }
    decoder.finish()?;
    Ok(decoder.files())
}

/// Checks that some bytes are a FIT file, or a chain of such files, and returns how many files they are.
///
/// `Refused` has the first byte that cannot belong to any valid chain of files, counted from 0, and the reason; `Truncated` has
/// the length of bytes that end too soon. `NoMemory` has the number of bytes taken before memory was refused; they begin a
/// chain, and so they do with the next byte.
pub fn check_bytes(alloc: Global, bytes: &[u8]) -> Result<u64, Fault>
    ensures files { IfOk result (AreFiles bytes.now) }
    ensures fault { IfErr result (IsFaultOf bytes.now) }
    // Memory is refused at the byte after those taken, and that byte may take some.
    ensures place { IfErr result (LacksMemoryAt bytes.now) }
    // A chain of files fails only where memory is refused.
    ensures memory { AreChain Global bytes.now → IfErr result LacksMemory }
{
    let mut decoder = Decoder::new(alloc);
    feed_all(&mut decoder, bytes)
}
