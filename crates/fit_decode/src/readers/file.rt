//! Takes the bytes of one file from a source, and no byte more.
ghost use Rattle.std.specs.Prelude.{◌≡◌, ◌+◌, List, [], length, None};
ghost use Rattle.fit_record.specs.declared.file.FitFile.{FitFile};
ghost use Rattle.fit_record.specs.Files.{chain_limit, IsViable};
ghost use Rattle.fit_decode.specs.inner.Between.{IsEnd};
ghost use Rattle.fit_chain.specs.Progress.{at_header, HasCome};
ghost use Rattle.fit_decode.specs.inner.Turns.{FileRead, Turned};
ghost use Rattle.fit_chain.specs.Comes.{ComesToRecords};

use crate::readers::piece::{PIECE_SIZE, take_piece, take_some};
use crate::{Decoder, Fault, Source};
use fit_base::Entries;
use fit_frame::Header;
use fit_history::History;
use fit_record::{FitFile, Record};
use std::alloc::Allocator;

/// Takes one piece and feeds it. Returns whether the file has ended with it.
fn turn<A: Allocator + Copy, S: Source>(
    decoder: &mut Decoder<A>,
    head: &mut Option<Header>,
    records: &mut Entries<Record<A>, A>,
    count: &mut u64,
    taken: &mut History<u8>,
    source: &mut S,
) -> Result<bool, Fault>
    requires fresh { decoder.old.refusal ≡ None }
    requires viable { IsViable A chain_limit decoder.old.bytes }
    requires counted { count.old ≡ length decoder.old.bytes }
    ensures turned { (files : List (FitFile A))
        → ComesToRecords files head.old records.old decoder.old.bytes
        → Turned files decoder.old.bytes taken.old.items taken.new.items (S.remaining source.old)
        (S.remaining source.new) (S.has_failed source.new) decoder.new head.new records.new result }
    ensures viable { IsViable A chain_limit decoder.new.bytes }
    ensures counted { count.new + length taken.old.items ≡ count.old + length taken.new.items }
{
    let mut buffer = [0u8; PIECE_SIZE];
    let wanted = decoder.need().min(PIECE_SIZE as u64) as usize;
    let Ok(got) = take_some(source, &mut buffer, wanted) else {
        return Err(Fault::Read { place: *count });
    };
    if got == 0 {
        return Err(Fault::Truncated { place: *count });
    }
    let (piece, _) = buffer.split_at(got);
    taken.note(piece);
    *count += got as u64;
    take_piece(decoder, head, records, *count, piece)
}

/// Reads one file, and takes no byte after it. The count is that of the bytes taken.
pub(crate) fn read_file<A: Allocator + Copy, S: Source>(
    alloc: A,
    decoder: &mut Decoder<A>,
    count: &mut u64,
    taken: &mut History<u8>,
    source: &mut S,
) -> Result<FitFile<A>, Fault>
    requires fresh { decoder.old.refusal ≡ None }
    requires viable { IsViable A chain_limit decoder.old.bytes }
    requires counted { count.old ≡ length decoder.old.bytes }
    requires whole { (files : List (FitFile A)) × HasCome files (at_header []) decoder.old.bytes }
    ensures read { (files : List (FitFile A)) → HasCome files (at_header []) decoder.old.bytes
        → FileRead files decoder.old.bytes taken.old.items taken.new.items (S.remaining source.old)
        (S.remaining source.new) (S.has_failed source.new) decoder.new result }
    ensures viable { IsViable A chain_limit decoder.new.bytes }
    ensures counted { count.new + length taken.old.items ≡ count.old + length taken.new.items }
{
    let mut head = None;
    let mut records = Entries::new(alloc);
    'reading: loop {
        match turn(decoder, &mut head, &mut records, count, taken, source) {
            Ok(true) => match head {
                Some(header) => return Ok(FitFile { header, records }),
                None => unreachable!(),
            },
            Ok(false) => {}
            Err(fault) => return Err(fault),
        }
    }
}

/// Whether the source has ended after a whole chain.
pub(crate) fn is_end<A: Allocator + Copy>(decoder: &Decoder<A>, fault: Fault) -> bool
    ensures { IsEnd A decoder.now fault result }
{
    match fault {
        Fault::Truncated { .. } => decoder.finish().is_ok(),
        Fault::Refused { .. } => false,
        Fault::NoMemory { .. } => false,
        Fault::Read { .. } => false,
    }
}
