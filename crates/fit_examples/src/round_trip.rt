//! A file is written, and read back from what was written.
ghost use Rattle.std.specs.Prelude.{◌≡◌, ◌++◌, IfErr, IfOk, List, ℕ, [], ◌∷◌, length};
ghost use Rattle.std.specs.declared.alloc.Global.{Global};
ghost use Rattle.fit_record.specs.declared.file.FitFile.{FitFile};
ghost use Rattle.fit_record.specs.Files.{IsFile, IsWellFormed};
ghost use Rattle.fit_encode.specs.Faults.{IfRefused, IsFirstFault};
ghost use Rattle.fit_examples.specs.RoundTrips.{EncodeLacksMemory};
ghost use Rattle.fit_chain.specs.Checks.{LacksMemory};

use gazhdor::laws::good_chains_have_no_fault;
use gazhdor::{EncodeFault, Fault, FitFile, WriteSink, read_one, write_one};
use std::alloc::Global;

/// Reads the file that begins the bytes. Returns it, and how many bytes are left after it.
fn read_front(alloc: Global, bytes: &[u8]) -> Result<(FitFile, usize), Fault>
    ensures file { (f : FitFile Global) (b x : List ℕ) → bytes.now ≡ b ++ x → IsFile f b →
        IfOk result (λ read. (read.0 ≡ f) × (read.1 ≡ length x)) }
    ensures memory { (f : FitFile Global) (b x : List ℕ) → bytes.now ≡ b ++ x → IsFile f b →
        IfErr result LacksMemory }
{
    let mut source = bytes;
    let file = read_one(alloc, &mut source)?;
    Ok((file, source.len()))
}

/// Writes a file, and reads it back from its bytes and others after them. Whatever these are, the file is the same, and they
/// are left. Returns the file, and how many bytes are left.
///
/// The error is the first fault of a file that isn't well-formed. A well-formed one fails only by running out of memory: with `Write`
/// where there is none for its bytes, else with `NoMemory`.
pub fn written_and_read(
    alloc: Global,
    file: &FitFile,
    after: &[u8],
) -> Result<(FitFile, usize), EncodeFault>
    ensures same { IfOk result (λ read. (read.0 ≡ file.now) × (read.1 ≡ length after.now)) }
    ensures fault { IfErr result (λ fault. IfRefused fault (IsFirstFault (file.now ∷ []) fault)) }
    // A well-formed file fails only by running out of memory.
    ensures memory { IsWellFormed file.now → IfErr result EncodeLacksMemory }
{
    good_chains_have_no_fault::<Global>();
    let mut sink = WriteSink::new(Vec::new(alloc));
    write_one(alloc, &mut sink, file)?;
    let mut bytes = sink.into_inner();
    if bytes.extend_from_slice(after).is_err() {
        return Err(EncodeFault::NoMemory);
    }
    match read_front(alloc, bytes.as_slice()) {
        Ok(read) => Ok(read),
        Err(Fault::NoMemory { .. }) => Err(EncodeFault::NoMemory),
        Err(_) => unreachable!(),
    }
}
