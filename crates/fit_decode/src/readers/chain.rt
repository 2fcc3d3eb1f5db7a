//! Reads all files of a source.
ghost use Rattle.std.specs.Prelude.{◌≡◌, ℕ, [], Err, IfErr, List, None, Ok, OnOk, Some};
ghost use Rattle.std.specs.declared.alloc.Global.{Global};
ghost use Rattle.fit_base.specs.Numbers.{IsBytes};
ghost use Rattle.fit_record.specs.declared.file.FitFile.{FitFile};
ghost use Rattle.fit_record.specs.Files.{chain_limit, IsChain};
ghost use Rattle.fit_decode.specs.Reads.{GivesChain, ReadsChain, channel};

use crate::readers::file::{is_end, read_file};
use crate::{Decoder, Fault, Source};
use fit_history::History;
use fit_record::FitFile;
use std::alloc::Global;

/// Reads files into an empty list, to the end of the source, by a decoder to which no byte was fed.
fn read_files<S: Source>(
    alloc: Global,
    decoder: &mut Decoder,
    files: &mut Vec<FitFile>,
    source: &mut S,
) -> Result<(), Fault>
    requires fresh { decoder.old ≡ record { bytes = []; refusal = None } }
    requires empty { files.old.items ≡ [] }
    ensures ok { OnOk result
        (ReadsChain (channel S.remaining S.has_failed source.old source.new) (Ok files.new)) }
    ensures err { IfErr result (λ fault.
        ReadsChain (channel S.remaining S.has_failed source.old source.new) (Err fault)) }
{
    let mut count = 0;
    let mut taken = History::new();
    'files: loop {
        match read_file(alloc, decoder, &mut count, &mut taken, source) {
            Ok(file) => {
                if files.push(file).is_err() {
                    return Err(Fault::NoMemory { used: count });
                }
            }
            Err(fault) => {
                if is_end(decoder, fault) {
                    return Ok(());
                }
                return Err(fault);
            }
        }
    }
}

/// Reads a chain of files, to the end of the source. It takes pieces of at most 4,096 bytes, none longer than what a file still needs,
/// and its memory from `Global`; `Reading` takes any allocator.
///
/// `Refused` has the first byte with which no chain begins, and the reason; after its piece nothing was taken. `Truncated` has the
/// place where a source ends inside a file, or before the first, and `Read` the place where it failed. With `NoMemory`, `used` is
/// the number of bytes taken. Memory was refused at a byte of the last piece that isn't refused itself, and that may take memory or
/// completes a record or a file.
pub fn read_chain<S: Source>(alloc: Global, source: &mut S) -> Result<Vec<FitFile>, Fault>
    // Where the input is a chain's bytes, its files are returned.
    ensures chain { (fs : List (FitFile Global)) (b : List ℕ) → S.remaining source.old ≡ Some b
        → IsBytes b → IsChain chain_limit fs b
        → GivesChain fs (channel S.remaining S.has_failed source.old source.new) result }
    ensures exact { ReadsChain (channel S.remaining S.has_failed source.old source.new) result }
{
    let mut decoder = Decoder::new(alloc);
    let mut files = Vec::new(alloc);
    read_files(alloc, &mut decoder, &mut files, source)?;
    Ok(files)
}
