//! The resumable decoder.
ghost use Rattle.std.specs.Prelude.{◌≡◌, ◌↔◌, ℕ, ◌+◌, ◌<◌, ◌≤◌, List, [], ◌++◌, ◌^◌, length, take, Some, None, Err, IfOk, IsErr, IsOk, IsTrue};
ghost use Rattle.fit_frame.specs.declared.reason.Reason.{Reason};
ghost use Rattle.fit_record.specs.Files.{chain_limit, IsViable};
ghost use Rattle.fit_record.specs.Environment.{empty_environment};
ghost use Rattle.fit_record.specs.declared.file.FitFile.{FitFile};
ghost use Rattle.fit_chain.specs.Events.{Event as Told};
ghost use Rattle.fit_chain.specs.Held.{bound_limit, IsHeld};
ghost use Rattle.fit_chain.specs.Progress.{HasCome, Progress};
ghost use Rattle.fit_chain.specs.Needs.{Needs, NoFileEndsBefore};
ghost use Rattle.fit_decode.specs.Answers.{event_of, fed, Refuses, Wants};
ghost use Rattle.fit_chain.specs.Pieces.{Quiet, Least};
ghost use Rattle.fit_chain.specs.Checks.{AreChain};
ghost use Rattle.fit_decode.specs.inner.Feeds.{Feeds};

mod ahead;
mod whole;

use crate::need::bytes_to_come;
use crate::section::{Part, Section, Stage, cover, take_event};
use crate::{Event, Fault, Fed};
pub use ahead::Ahead;
use fit_frame::{HeadReader, Header, Reason};
use fit_history::History;
use fit_record::{Env, Record};
use fit_step::{Position, Stop, in_progress_size, read_message, read_whole_definition};
use fit_sum::Sum;
use std::alloc::{Allocator, Global};
use std::marker::Model;

/// Reads a chain of FIT files as their bytes come, in pieces of any length.
///
/// Clauses see the bytes fed that weren't refused, and the refusal if there was one.
pub struct Decoder<A: Allocator + Copy = Global> {
    alloc: A,
    reader: HeadReader,
    sum: Sum,
    env: Env<A>,
    in_progress: Option<Record<A>>,
    stage: Stage,
    position: Position,
    count: u64,
    history: History<u8>,
}

// A call wherever a decoder is dropped: derived, all that it frees would be written out and proved there.
impl<A: Allocator + Copy> Drop for Decoder<A> {
    fn drop(self) {
        let Decoder {
            history: _history,
            count: _,
            position: _,
            stage: _stage,
            in_progress: _in_progress,
            env: _env,
            sum: _sum,
            reader: _reader,
            alloc: _,
        } = self;
    }
}

impl<A: Allocator + Copy> Model for Decoder<A> {
    ghost use Rattle.fit_decode.specs.Answers.{Seen};
    ghost use Rattle.fit_decode.specs.inner.Invariant.{IsSoundDecoder, seen_in};

    ghost Value = { Seen };

    ghost view = { seen_in };

    ghost invariant = { IsSoundDecoder };
}

/// Whether files have ended, and no byte has come of a next one.
fn has_ended(stage: &Stage, reader: &HeadReader) -> bool
    ensures { IsTrue result ↔ ((stage.now.section ≡ Section.Header) × (0 < stage.now.files)
        × (reader.now.bytes ≡ [])) }
{
    match stage.section {
        Section::Header => stage.files > 0 && reader.bytes().is_empty(),
        Section::Data | Section::ClosingSum | Section::Latched(_) => false,
    }
}

impl<A: Allocator + Copy> Decoder<A> {
    /// A decoder to which no byte was fed.
    pub fn new(alloc: A) -> Self
        ensures { result ≡ record { bytes = []; refusal = None } }
    {
        Decoder {
            alloc,
            reader: HeadReader::new(),
            sum: Sum::new(),
            env: Env::new(alloc),
            in_progress: None,
            stage: Stage {
                files: 0,
                section: Section::Header,
                half: false,
            },
            position: Position::new(0),
            count: 0,
            history: History::new(),
        }
    }

    /// Takes the next piece, up to the byte that completes an event. The event is `More` where the whole piece was used
    /// and completed none.
    ///
    /// `Refused` has the first byte with which the bytes fed begin no chain of files, and the reason; after it each call
    /// returns it again, and nothing is held any more. With `NoMemory` the first `used` bytes of the piece count as fed, and
    /// the rest may be fed again.
    /// No memory is taken by a byte of a header, of a closing checksum, or of a data message without fields and developer
    /// fields.
    #[inline(always)]
    pub fn feed(&mut self, piece: &[u8]) -> Result<Fed<A>, Fault>
        // After a refusal each call returns it again.
        ensures latched { (reason : Reason) → self.old.refusal ≡ Some reason
            → (result ≡ Err (Fault.Refused (length self.old.bytes) reason))
            × (self.new ≡ self.old) }
        ensures used { IfOk result (λ f. (f.used ≤ length piece.now)
            × (self.new ≡ fed self.old piece.now f.used)) }
        // Without an event the whole piece is used, and tells none.
        ensures more { IfOk result (λ f. event_of f.event ≡ None
            → (f.used ≡ length piece.now) × Quiet A self.old.bytes piece.now f.used) }
        // An event is told by the bytes used, and by no fewer.
        ensures event { IfOk result (λ f. (x : Told A) → event_of f.event ≡ Some x
            → (0 < f.used) × Least A self.old.bytes piece.now f.used x) }
        // The first refusal is of the first byte with which the bytes begin no chain.
        ensures refused { (place : ℕ) (reason : Reason) → self.old.refusal ≡ None
            → result ≡ Err (Fault.Refused place reason)
            → Refuses A self.old piece.now self.new place reason }
        ensures memory { (used : ℕ) → result ≡ Err (Fault.NoMemory used)
            → Wants A self.old piece.now self.new used }
        ensures others { (place : ℕ) → (result ≡ Err (Fault.Truncated place) → ⊥)
            × (result ≡ Err (Fault.Read place) → ⊥) }
        // Bytes that aren't refused begin a chain.
        ensures viable { IsViable A chain_limit self.new.bytes }
    {
        if let Section::Data = self.stage.section {
            match read_message(
                self.alloc,
                &self.env,
                &mut self.position,
                &self.in_progress,
                piece,
            ) {
                Ok(Some((values, used))) => {
                    cover(&mut self.sum, piece, used);
                    count_fed(&mut self.history, &mut self.count, piece, used);
                    return Ok(Fed {
                        used,
                        event: Event::Item(Record::Values(values)),
                    });
                }
                Ok(None) => {}
                Err(_) => {}
            }
            match read_whole_definition(
                self.alloc,
                &mut self.env,
                &mut self.position,
                &self.in_progress,
                piece,
            ) {
                Ok(Some((record, used))) => {
                    cover(&mut self.sum, piece, used);
                    count_fed(&mut self.history, &mut self.count, piece, used);
                    return Ok(Fed {
                        used,
                        event: Event::Item(record),
                    });
                }
                Ok(None) => {}
                Err(_) => {}
            }
        }
        self.feed_part(piece)
    }

    /// Does what `feed` does, whatever the piece begins with. A header or a record that is complete stays in its place until it is told,
    /// so that little is carried where none is.
    #[inline(always)]
    fn feed_part(&mut self, piece: &[u8]) -> Result<Fed<A>, Fault>
        ensures feeds { Feeds A self.old piece.now self.new result }
        ensures viable { IsViable A chain_limit self.new.bytes }
    {
        let mut head: Option<Header> = None;
        let (used, answer) = match self.stage.section {
            Section::Header => self.stage.feed_header(
                &mut self.reader,
                &mut self.position,
                &mut self.sum,
                &mut head,
                piece,
            ),
            Section::Data => self.stage.feed_data(
                self.alloc,
                &mut self.env,
                &mut self.position,
                &mut self.in_progress,
                &mut self.sum,
                piece,
            ),
            Section::ClosingSum => {
                self.stage
                    .feed_sum(self.alloc, &mut self.env, &mut self.sum, piece)
            }
            Section::Latched(reason) => return Err(refused_at(self.count, reason)),
        };
        count_fed(&mut self.history, &mut self.count, piece, used);
        match answer {
            Ok(Part::More) => Ok(Fed {
                used,
                event: Event::More,
            }),
            Ok(part) => {
                let event = take_event(part, &mut self.in_progress, &mut head);
                Ok(Fed { used, event })
            }
            Err(Stop::Refused(reason)) => {
                self.stage.section = Section::Latched(reason);
                let_go(self.alloc, &mut self.env, &mut self.in_progress);
                Err(refused_at(self.count, reason))
            }
            Err(Stop::NoMemory) => Err(Fault::NoMemory { used: used as u64 }),
        }
    }

    /// Whether the bytes fed are a chain of files. Where they only begin one, `Truncated` has the number of the bytes;
    /// after a refusal it is returned again.
    pub fn finish(&self) -> Result<(), Fault>
        ensures good { IsOk result ↔ ((self.now.refusal ≡ None) × AreChain A self.now.bytes) }
        ensures truncated { self.now.refusal ≡ None → IsErr result
            → result ≡ Err (Fault.Truncated (length self.now.bytes)) }
        ensures refused { (reason : Reason) → self.now.refusal ≡ Some reason
            → result ≡ Err (Fault.Refused (length self.now.bytes) reason) }
    {
        if let Section::Latched(reason) = self.stage.section {
            return Err(refused_at(self.count, reason));
        }
        if has_ended(&self.stage, &self.reader) {
            Ok(())
        } else {
            Err(Fault::Truncated { place: self.count })
        }
    }

    /// How many files have ended; after a refusal 0.
    pub fn files(&self) -> u64
        // They are those that are whole in the bytes fed.
        ensures files { self.now.refusal ≡ None → (fs : List (FitFile A)) (g : Progress A)
            → HasCome fs g self.now.bytes → result ≡ length fs }
        ensures refused { (reason : Reason) → self.now.refusal ≡ Some reason → result ≡ 0 }
    {
        if let Section::Latched(_) = self.stage.section {
            return 0;
        }
        u64::from(self.stage.files)
    }

    /// The least number of bytes still to come until a file ends. Before a file that is 14, or 1 where the chain has as many
    /// files as it may; after a refusal it is 0. Once the data size of a header has come, the data section counts too.
    pub fn need(&self) -> u64
        ensures refused { (reason : Reason) → self.now.refusal ≡ Some reason → result ≡ 0 }
        ensures need { self.now.refusal ≡ None → Needs A self.now.bytes result }
        ensures least { self.now.refusal ≡ None → NoFileEndsBefore A self.now.bytes result }
    {
        bytes_to_come(&self.stage, self.reader.bytes(), self.position.room)
    }

    /// How much is held: the fields and developer fields of all definitions, the described developer fields, and of the
    /// record in progress the fields, developer fields and items. These count as soon as they have come, also where `skip_records` keeps
    /// the bytes of a message and has made no field of it.
    pub fn held(&self) -> u64
        ensures held { self.now.refusal ≡ None → IsHeld A self.now.bytes result }
        ensures refused { (reason : Reason) → self.now.refusal ≡ Some reason → result ≡ 0 }
        // At the end of a file nothing is held.
        ensures ended { AreChain A self.now.bytes → result ≡ 0 }
        ensures limit { result ≤ bound_limit }
    {
        // Each field is named here, with its type: these are all that is kept between bytes. Only two of them, the environment
        // and the record in progress, have memory of their own.
        let Decoder {
            alloc,
            reader,
            sum,
            env,
            in_progress,
            stage: Stage {
                files,
                section,
                half,
            },
            position,
            count,
            history,
        } = self;
        let _alloc: &A = alloc;
        let _reader: &HeadReader = reader;
        let _sum: &Sum = sum;
        let env: &Env<A> = env;
        let in_progress: &Option<Record<A>> = in_progress;
        let (_files, _section, _half): (&u32, &Section, &bool) = (files, section, half);
        let position: &Position = position;
        let _count: &u64 = count;
        let _history: &History<u8> = history;
        env.held() + in_progress_size(env, position, in_progress)
    }
}

/// The fault of a refused byte.
fn refused_at(place: u64, reason: Reason) -> Fault
    ensures { result ≡ Fault.Refused place reason }
{
    Fault::Refused { place, reason }
}

/// Nothing is known any more, and no record is in progress.
#[cold]
#[inline(never)]
fn let_go<A: Allocator + Copy>(alloc: A, env: &mut Env<A>, in_progress: &mut Option<Record<A>>)
    ensures known { env.new ≡ empty_environment }
    ensures idle { in_progress.new ≡ None }
{
    *env = Env::new(alloc);
    *in_progress = None;
}

/// Counts the first bytes of the piece as fed.
#[inline(always)]
fn count_fed(history: &mut History<u8>, count: &mut u64, piece: &[u8], used: usize)
    requires within { used ≤ length piece.now }
    requires fits { count.old + used < 2 ^ 64 }
    ensures noted { history.new.items ≡ history.old.items ++ take used piece.now }
    ensures counted { count.new ≡ count.old + used }
{
    let (taken, _) = piece.split_at(used);
    history.note(taken);
    *count += used as u64;
}
