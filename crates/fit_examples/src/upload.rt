//! Whether an upload is a FIT file, or a chain of such files.
ghost use Rattle.std.specs.Prelude.{IfErr, OnOk};
ghost use Rattle.std.specs.declared.alloc.Global.{Global};
ghost use Rattle.fit_chain.specs.Checks.{AreChain, IsFaultOf, LacksMemory, LacksMemoryAt};

use gazhdor::{Decoder, Fault};
use std::alloc::Global;

/// Checks that an upload is a FIT file, or a chain of such files.
///
/// `Refused` has the first byte that cannot belong to any valid chain of files, counted from 0, and the reason; `Truncated` has the
/// length of an upload that ends too soon. `NoMemory` has the number of bytes taken before memory was refused; they begin a chain, and so
/// they do with the next byte.
pub fn check_upload(alloc: Global, upload: &[u8]) -> Result<(), Fault>
    ensures good { OnOk result (AreChain Global upload.now) }
    ensures fault { IfErr result (IsFaultOf upload.now) }
    // Memory is refused at the byte after those taken, and that byte may take some.
    ensures place { IfErr result (LacksMemoryAt upload.now) }
    // A chain of files fails only by running out of memory.
    ensures memory { AreChain Global upload.now → IfErr result LacksMemory }
{
    let mut decoder = Decoder::new(alloc);
    let mut rest = upload;
    while !rest.is_empty() {
        let before = (upload.len() - rest.len()) as u64;
        match decoder.feed(rest) {
            Ok(fed) => rest = rest.split_at(fed.used).1,
            Err(fault) => return Err(fault.after(before)),
        }
    }
    decoder.finish()
}
