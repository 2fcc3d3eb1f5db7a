//! Reads a whole text.
ghost use Rattle.std.specs.Prelude.{◌≡◌, ◌≤◌, ◌^◌, IfErr, IfOk, false, length};
ghost use Rattle.std.specs.Io.KnownBytes.{Consumes, IsAtEnd};
ghost use Rattle.fit_csv.specs.inner.TextFaults.{IsReadFault};

use crate::CsvFault;
use fit_decode::{PIECE_SIZE, Source};
use std::alloc::Global;

/// The most bytes of a text.
pub(crate) const MOST: u64 = 0x4000_0000_0000_0000;

/// The bytes of a source to its end, of which there may be 2^62.
pub(crate) fn read_text<S: Source>(alloc: Global, source: &mut S) -> Result<Vec<u8>, CsvFault>
    ensures all { IfOk result (λ text. Consumes (S.remaining source.old) (S.remaining source.new)
        text.items) }
    ensures end { IfOk result (λ text. IsAtEnd (S.remaining source.new)) }
    ensures works { IfOk result (λ text. S.has_failed source.new ≡ false) }
    ensures short { IfOk result (λ text. length text.items ≤ 2 ^ 62) }
    ensures err { IfErr result (IsReadFault (S.remaining source.old) (S.remaining source.new)
        (S.has_failed source.new)) }
{
    let mut text = Vec::new(alloc);
    let mut buffer = [0u8; PIECE_SIZE];
    for count in 0..MOST + 1 {
        let Ok(got) = source.take(&mut buffer) else {
            return Err(CsvFault::Read);
        };
        if got == 0 {
            return Ok(text);
        }
        if text.extend_from_slice(&buffer[..got]).is_err() {
            return Err(CsvFault::NoMemory);
        }
        if text.len() as u64 > MOST {
            return Err(CsvFault::Read);
        }
    }
    Err(CsvFault::Read)
}
