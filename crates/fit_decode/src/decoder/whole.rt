//! Skips records that are whole in a piece.
ghost use Rattle.std.specs.Prelude.{◌≡◌, ℕ, ◌<◌, ◌≤◌, List, [], ◌∷◌, ◌++◌, length, take, Some, None};
ghost use Rattle.fit_frame.specs.declared.reason.Reason.{Reason};
ghost use Rattle.fit_record.specs.Files.{chain_limit, IsViable};
ghost use Rattle.fit_record.specs.Records.{IsRecord};
ghost use Rattle.fit_record.specs.declared.message.Values.{Values};
ghost use Rattle.fit_record.specs.declared.message.Record.TheVariants.{Values as Data};
ghost use Rattle.fit_chain.specs.Events.{Event as Told, AreEvents, item, known_after};
ghost use Rattle.fit_chain.specs.Memory.{IsAny, MayLackMemoryIn};
ghost use Rattle.fit_decode.specs.Answers.{MessageFollows};
ghost use Rattle.fit_chain.specs.Pieces.{TellsRecords};

use super::{Decoder, count_fed};
use crate::section::{Section, cover};
use fit_step::{skip_in_section, skip_message_in_section};
use std::alloc::Allocator;

impl<A: Allocator + Copy> Decoder<A> {
    /// Skips records at the front of the piece: they count as fed, what they define and describe is learned, and no event is made of
    /// them. Returns how many bytes were used, and how many records they are. It refuses nothing, and takes memory only for
    /// definition messages and field descriptions.
    ///
    /// It ends before the first record that is for `feed`: one that isn't complete in the piece, or isn't allowed there; a definition
    /// message that has developer fields; one that defines or describes something for which there is no memory; and one that ends
    /// in the last six bytes of a data section. But where all that comes is the beginning of a data message of at most eight bytes, it
    /// takes these bytes, and further calls take what follows of it; `feed` can go on with it too.
    pub fn skip_records(&mut self, piece: &[u8]) -> (usize, u64)
        ensures within { result.0 ≤ length piece.now }
        ensures used { self.new ≡ record self.old
            { bytes = self.old.bytes ++ take result.0 piece.now } }
        // The bytes used tell that many records, and nothing else.
        ensures records { (events : List (Told A)) → AreEvents self.old.bytes events
            → TellsRecords self.new.bytes events result.1 }
        // After a refusal nothing is used.
        ensures refused { (reason : Reason) → self.old.refusal ≡ Some reason
            → (result ≡ (0, 0)) × (self.new ≡ self.old) }
        ensures viable { IsViable A chain_limit self.new.bytes }
    {
        let Section::Data = self.stage.section else {
            return (0, 0);
        };
        let (skipped, count) = skip_in_section(
            self.alloc,
            &mut self.env,
            &mut self.position,
            &mut self.in_progress,
            piece,
        );
        cover(&mut self.sum, piece, skipped);
        count_fed(&mut self.history, &mut self.count, piece, skipped);
        (skipped, count)
    }

    /// Skips the data message at the front of the piece: it counts as fed, what it describes is learned, and no event is made of it.
    /// Returns how many bytes it has, or 0 where none is skipped: where `skip_records` would skip none, and before a definition
    /// message. It refuses nothing, and takes memory only for a field description.
    pub fn skip_message(&mut self, piece: &[u8]) -> usize
        ensures within { result ≤ length piece.now }
        ensures used { self.new ≡ record self.old
            { bytes = self.old.bytes ++ take result piece.now } }
        // The bytes used are those of a data message, tell it, and tell nothing else.
        ensures message { 0 < result → (events : List (Told A)) → AreEvents self.old.bytes events
            → (v : Values A) × IsRecord (known_after events) (Data v) (take result piece.now)
            × AreEvents self.new.bytes (events ++ item (Data v) ∷ []) }
        // So one of them completes an event, for which the caller may take memory.
        ensures completes { 0 < result → MayLackMemoryIn A IsAny self.old.bytes piece.now }
        // One that is all in the piece is skipped, unless it is a field description, or ends in the last six bytes.
        ensures whole { self.old.refusal ≡ None → (size : ℕ)
            → MessageFollows A self.old.bytes piece.now size → result ≡ size }
        // After a refusal nothing is used.
        ensures refused { (reason : Reason) → self.old.refusal ≡ Some reason
            → (result ≡ 0) × (self.new ≡ self.old) }
        ensures viable { IsViable A chain_limit self.new.bytes }
    {
        let Section::Data = self.stage.section else {
            return 0;
        };
        let size = skip_message_in_section(
            &mut self.env,
            &mut self.position,
            &self.in_progress,
            piece,
        );
        cover(&mut self.sum, piece, size);
        count_fed(&mut self.history, &mut self.count, piece, size);
        size
    }
}
