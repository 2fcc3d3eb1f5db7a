//! Takes a piece from a source, and feeds a piece to a decoder.
ghost use Rattle.std.specs.Prelude.{◌≡◌, ◌+◌, ◌<◌, ◌≤◌, IfOk, OnOk, OnErr, List, [], ◌∷◌, ◌++◌, length, take, None, true, false};
ghost use Rattle.std.specs.Io.KnownBytes.{Consumes, Keeps, IsAtEnd};
ghost use Rattle.fit_record.specs.declared.file.FitFile.{FitFile};
ghost use Rattle.fit_record.specs.Files.{chain_limit, IsViable};
ghost use Rattle.fit_decode.specs.inner.Turns.{PieceFed};
ghost use Rattle.fit_chain.specs.Comes.{ComesToRecords};

use crate::{Decoder, Event, Fault, Source, SourceFailed};
use fit_base::Entries;
use fit_frame::Header;
use fit_record::Record;
use std::alloc::Allocator;

/// The most bytes that a reader of files takes at once. A report takes more, up to 65,536.
pub const PIECE_SIZE: usize = 4096;

/// Takes at most `wanted` bytes into the front of the buffer.
pub(crate) fn take_some<S: Source>(
    source: &mut S,
    buffer: &mut [u8],
    wanted: usize,
) -> Result<usize, SourceFailed>
    requires { (0 < wanted) × (wanted ≤ length buffer.old) }
    ensures bound { IfOk result (λ n. n ≤ wanted) }
    ensures bytes { IfOk result (λ n. Consumes (S.remaining source.old) (S.remaining source.new)
        (take n buffer.new) × (n ≡ 0 → IsAtEnd (S.remaining source.new))) }
    ensures room { length buffer.new ≡ length buffer.old }
    ensures good { OnOk result (S.has_failed source.new ≡ false) }
    ensures bad { OnErr result ((S.has_failed source.new ≡ true)
        × Keeps (S.remaining source.old) (S.remaining source.new)) }
{
    source.take(&mut buffer[..wanted])
}

/// Puts a record after the others. Whether there was memory.
fn is_kept<A: Allocator + Copy>(records: &mut Entries<Record<A>, A>, next: Record<A>) -> bool
    ensures { result ≡ true → records.new ≡ records.old ++ next ∷ [] }
{
    records.push(next).is_ok()
}

/// Feeds a piece that goes no further than the file. `taken` bytes were taken up to its end. Returns whether the file has
/// ended with it.
pub(crate) fn take_piece<A: Allocator + Copy>(
    decoder: &mut Decoder<A>,
    head: &mut Option<Header>,
    records: &mut Entries<Record<A>, A>,
    taken: u64,
    piece: &[u8],
) -> Result<bool, Fault>
    requires fresh { decoder.old.refusal ≡ None }
    requires viable { IsViable A chain_limit decoder.old.bytes }
    requires counted { taken ≡ length decoder.old.bytes + length piece.now }
    ensures fed { (files : List (FitFile A)) → ComesToRecords files head.old records.old
        decoder.old.bytes → PieceFed files decoder.old.bytes piece.now decoder.new head.new
        records.new result }
    ensures viable { IsViable A chain_limit decoder.new.bytes }
{
    let mut at = 0;
    while at < piece.len() {
        let (_, rest) = piece.split_at(at);
        match decoder.feed(rest) {
            Ok(fed) => {
                at += fed.used;
                match fed.event {
                    Event::More => return Ok(false),
                    Event::Header(header, _) => *head = Some(header),
                    Event::Item(record) => {
                        if !is_kept(records, record) {
                            return Err(Fault::NoMemory { used: taken });
                        }
                    }
                    Event::FileEnd => return Ok(true),
                }
            }
            Err(Fault::Refused { place, reason }) => return Err(Fault::Refused { place, reason }),
            Err(Fault::NoMemory { .. }) => return Err(Fault::NoMemory { used: taken }),
            Err(Fault::Truncated { .. }) => unreachable!(),
            Err(Fault::Read { .. }) => unreachable!(),
        }
    }
    Ok(false)
}
