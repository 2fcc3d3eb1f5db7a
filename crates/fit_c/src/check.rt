//! Whether bytes are a chain of files.
ghost use Rattle.std.specs.Prelude.{◌≡◌, ◌⊎◌};
ghost use Rattle.std.specs.declared.alloc.Global.{Global};
ghost use Rattle.fit_chain.specs.Checks.{AreChain};
ghost use Rattle.fit_c.specs.Answers.{IsFinding};

use crate::FitAnswer;
use crate::answer::answer_for_check;
use fit_decode::check_bytes;
use std::alloc::Global;

/// Whether some bytes are a FIT file, or a chain of such files, and how many; else where they aren't, and why.
#[unsafe(no_mangle)]
pub extern "C" fn gazhdor_check(alloc: Global, bytes: &[u8]) -> FitAnswer
    ensures finding { IsFinding bytes.now result }
    ensures good { result.status ≡ 0 → AreChain Global bytes.now }
    // A chain of files gets no other status, unless memory is refused.
    ensures chain { AreChain Global bytes.now → (result.status ≡ 0) ⊎ (result.status ≡ 3) }
{
    answer_for_check(check_bytes(alloc, bytes))
}
