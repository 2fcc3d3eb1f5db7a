//! Reads one file from a source.
ghost use Rattle.std.specs.Prelude.{◌≡◌, ℕ, List, ◌++◌, length, Some};
ghost use Rattle.std.specs.declared.alloc.Global.{Global};
ghost use Rattle.fit_base.specs.Numbers.{IsBytes};
ghost use Rattle.fit_record.specs.declared.file.FitFile.{FitFile};
ghost use Rattle.fit_record.specs.Files.{IsFile};
ghost use Rattle.fit_decode.specs.Reads.{GivesFile, ReadsOne, channel};

use crate::readers::file::read_file;
use crate::{Decoder, Fault, Source};
use fit_history::History;
use fit_record::FitFile;
use std::alloc::Global;

/// Reads one file, and leaves the bytes after it. It takes pieces of at most 4,096 bytes, none longer than what a file still needs,
/// and its memory from `Global`; `Reading` takes any allocator.
///
/// `Refused` has the first byte with which no file begins, and the reason; after its piece nothing was taken. `Truncated` has the
/// place where a source ends before a file does, and `Read` the place where it failed. With `NoMemory`, `used` is the number of bytes
/// taken, none after a complete file. Memory was refused at a byte of the last piece that isn't refused itself, and that may take
/// memory or completes a record.
pub fn read_one<S: Source>(alloc: Global, source: &mut S) -> Result<FitFile, Fault>
    // Where a file's bytes begin the input, that file is returned, and the bytes after it are left.
    ensures file { (f : FitFile Global) (b x : List ℕ) → S.remaining source.old ≡ Some (b ++ x)
        → IsBytes b → IsFile f b
        → GivesFile f (length b) x (channel S.remaining S.has_failed source.old source.new) result }
    ensures exact { ReadsOne (channel S.remaining S.has_failed source.old source.new) result }
{
    let mut decoder = Decoder::new(alloc);
    let mut count = 0;
    let mut taken = History::new();
    read_file(alloc, &mut decoder, &mut count, &mut taken, source)
}
