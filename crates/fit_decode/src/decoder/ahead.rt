//! Looks at messages ahead, and skips them at once.
ghost use Rattle.std.specs.Prelude.{◌≡◌, ◌↔◌, ℕ, ◌+◌, ◌<◌, ◌≤◌, List, ◌++◌, drop, length, map, take, IsTrue, None};
ghost use Rattle.std.specs.Global.{Global};
ghost use Rattle.fit_record.specs.Files.{chain_limit, IsViable};
ghost use Rattle.fit_record.specs.declared.message.Record.{Record};
ghost use Rattle.fit_chain.specs.Events.{Event as Told, AreEvents, item};
ghost use Rattle.fit_chain.specs.Memory.{IsAny, MayLackMemoryIn};
ghost use Rattle.fit_decode.specs.Answers.{MessageFollows, MessagesFollow, NextMessage, RecordIsToCome};
ghost use Rattle.fit_decode.specs.inner.Aheads.{RoomAhead};

use super::{Decoder, count_fed};
use crate::section::{Section, cover};
use fit_step::size_ahead;
use std::alloc::Allocator;
use std::marker::Model;

/// Finds data messages in a piece, one after another, while a decoder stays where it is. `Decoder::skip_messages` feeds those that were
/// found.
///
/// Clauses see what was fed to the decoder, the piece, and how many bytes of it the messages found have.
#[derive(Drop)]
pub struct Ahead<'a> {
    decoder: &'a Decoder,
    piece: &'a [u8],
    used: usize,
    /// How many bytes of the data section are to come after them; 0 where no record begins after the bytes fed.
    room: u32,
}

impl<'a> Model for Ahead<'a> {
    ghost use Rattle.std.specs.Global.{Global};
    ghost use Rattle.fit_decode.specs.Answers.{LookedAhead};
    ghost use Rattle.fit_decode.specs.inner.Aheads.{IsAhead};

    ghost Value = { LookedAhead };

    ghost view = { λ a. record { fed = a.decoder.now; piece = a.piece.now; used = a.used } };

    ghost invariant = { λ a. IsAhead Global a.decoder.now a.piece.now a.used a.room };
}

impl<'a> Ahead<'a> {
    /// Finds the next data message: how many bytes it has, or 0 where none is found. None is found where `Decoder::skip_message` would
    /// skip none after the messages before, and where a field description comes.
    #[inline(always)]
    pub fn next(&mut self) -> usize
        ensures used { self.new ≡ record self.old { used = self.old.used + result } }
        ensures within { self.new.used ≤ length self.new.piece }
        ensures message { 0 < result → NextMessage Global self.old result }
        // It completes an event, for which the caller may take memory.
        ensures completes { 0 < result
            → MayLackMemoryIn Global IsAny self.old.fed.bytes self.old.piece }
        // One that is all in the piece is found, unless it is a field description, or ends in the last six bytes.
        ensures whole { self.old.fed.refusal ≡ None → (size : ℕ)
            → MessageFollows Global (self.old.fed.bytes ++ take self.old.used self.old.piece)
            (drop self.old.used self.old.piece) size → result ≡ size }
    {
        let decoder = self.decoder;
        let (_, rest) = self.piece.split_at(self.used);
        let size = size_ahead(&decoder.env, self.room, rest);
        self.used += size;
        self.room -= size as u32;
        size
    }

    /// How many bytes the messages have that were found.
    #[inline(always)]
    pub fn used(&self) -> usize
        ensures { result ≡ self.now.used }
    {
        self.used
    }
}

/// How many bytes of a data section are to come, where a record begins; else 0.
#[inline(always)]
fn room_ahead<A: Allocator + Copy>(decoder: &Decoder<A>) -> u32
    ensures { RoomAhead A decoder.now 0 result }
{
    let Section::Data = decoder.stage.section else {
        return 0;
    };
    match decoder.in_progress {
        Some(_) => 0,
        None => decoder.position.room,
    }
}

impl Decoder {
    /// Looks at the data messages at the front of the piece, one by one: `Ahead::next` finds them. The decoder stays where it is.
    #[inline(always)]
    pub fn look_ahead<'a>(&'a self, piece: &'a [u8]) -> Ahead<'a>
        ensures { result ≡ record { fed = self.now; piece = piece.now; used = 0 } }
    {
        Ahead {
            decoder: self,
            piece,
            used: 0,
            room: room_ahead(self),
        }
    }
}

impl<A: Allocator + Copy> Decoder<A> {
    /// Whether the next byte begins a record. Where it doesn't, no message can be skipped.
    #[inline(always)]
    pub fn begins_record(&self) -> bool
        ensures { IsTrue result ↔ RecordIsToCome A self.now }
    {
        room_ahead(self) > 0
    }

    /// Skips the data messages at the front of the piece that `look_ahead` has found: they count as fed, and no event is made of them.
    /// `used` is how many bytes they have, or 0. It refuses nothing, and takes no memory.
    #[inline(always)]
    pub fn skip_messages(&mut self, piece: &[u8], used: usize)
        requires { (records : List (Record A)) × MessagesFollow A self.old piece.now used records }
        ensures used { self.new ≡ record self.old
            { bytes = self.old.bytes ++ take used piece.now } }
        // The bytes used tell these messages, and nothing else.
        ensures events { (events : List (Told A)) (records : List (Record A))
            → AreEvents self.old.bytes events → MessagesFollow A self.old piece.now used records
            → AreEvents self.new.bytes (events ++ map item records) }
        ensures viable { IsViable A chain_limit self.new.bytes }
    {
        let room = self.position.room;
        self.position.room = room - used as u32;
        cover(&mut self.sum, piece, used);
        count_fed(&mut self.history, &mut self.count, piece, used);
    }
}
