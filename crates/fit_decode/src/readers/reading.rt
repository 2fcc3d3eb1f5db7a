//! Reads the files of a chain from a source, one after another.
ghost use Rattle.std.specs.Prelude.{◌≡◌, ℕ, [], ◌∷◌, List, ◌++◌, length, None, Some, Err};
ghost use Rattle.fit_chain.specs.declared.event.Fault.{Fault};
ghost use Rattle.fit_base.specs.Numbers.{IsBytes};
ghost use Rattle.fit_record.specs.declared.file.FitFile.{FitFile};
ghost use Rattle.fit_record.specs.Files.{chain_limit, IsChain, IsFile};
ghost use Rattle.fit_decode.specs.Reads.{GivesNext, ReadsNext, channel};

use crate::readers::file::{is_end, read_file};
use crate::{Decoder, Fault, Source};
use fit_history::History;
use fit_record::FitFile;
use std::alloc::{Allocator, Global};
use std::marker::Model;

/// Reads a chain from a source, file by file. It takes pieces of at most 4,096 bytes, none longer than what a file still needs, and none
/// after the file that it returns.
///
/// Clauses see the source, the bytes taken since `new`, and the fault if there was one.
pub struct Reading<S: Source, A: Allocator + Copy = Global> {
    alloc: A,
    source: S,
    count: u64,
    decoder: Decoder<A>,
    fault: Option<Fault>,
    taken: History<u8>,
}

// A call wherever a reading is dropped, as of its decoder.
impl<S: Source + Drop, A: Allocator + Copy> Drop for Reading<S, A> {
    fn drop(self) {
        let Reading {
            taken: _taken,
            fault: _,
            decoder: _decoder,
            count: _,
            source: _source,
            alloc: _,
        } = self;
    }
}

impl<S: Source, A: Allocator + Copy> Model for Reading<S, A> {
    ghost use Rattle.fit_decode.specs.Reads.{Past};
    ghost use Rattle.fit_decode.specs.inner.Between.{ReadsOn};

    ghost Value = { Past S };

    ghost view = { λ r. record { source = r.source; taken = r.taken.items; fault = r.fault } };

    ghost invariant = { λ r. ReadsOn A r.fault r.decoder r.count r.taken.items };
}

impl<S: Source, A: Allocator + Copy> Reading<S, A> {
    /// No byte is taken yet.
    pub fn new(alloc: A, source: S) -> Self
        ensures { result ≡ record { source = source; taken = []; fault = None } }
    {
        Reading {
            alloc,
            source,
            count: 0,
            decoder: Decoder::new(alloc),
            fault: None,
            taken: History::new(),
        }
    }

    /// Gives the source back. What is left in it is what the calls of `next` left.
    pub fn into_source(self) -> S
        ensures { result ≡ self.source }
    {
        let Reading {
            alloc: _,
            source: rest,
            count: _,
            decoder: _decoder,
            fault: _,
            taken: _taken,
        } = self;
        rest
    }

    /// The next file, or `None` where the source ends after at least one. After a fault each call returns it again.
    ///
    /// Places count from the start of the chain. `Refused` has the place of the first byte with which no chain of files begins, and
    /// the reason; `Truncated` the place where the source ends, which is inside a file or before the first one; `Read` the place where
    /// the source failed. With `NoMemory`, `used` is the number of bytes taken since `new`, none after a whole file that is there.
    /// Memory was refused at a byte of the last piece, which this call took: one that isn't refused itself, and that may take memory or
    /// completes a record.
    pub fn next(&mut self) -> Result<Option<FitFile<A>>, Fault>
        // After a fault each call returns it again.
        ensures latched { (fault : Fault) → self.old.fault ≡ Some fault
            → (result ≡ Err fault) × (self.new ≡ self.old) }
        ensures exact { self.old.fault ≡ None → ReadsNext self.old self.new
            (channel S.remaining S.has_failed self.old.source self.new.source) result }
        // Where a file's bytes begin what is left, and with the bytes taken make a chain, that file is
        // returned, and the bytes after it are left.
        ensures file { self.old.fault ≡ None → (fs : List (FitFile A)) (f : FitFile A)
            (b x : List ℕ) → S.remaining self.old.source ≡ Some (b ++ x) → IsBytes b → IsFile f b
            → IsChain chain_limit (fs ++ f ∷ []) (self.old.taken ++ b)
            → GivesNext f (length (self.old.taken ++ b)) x
            (channel S.remaining S.has_failed self.old.source self.new.source) result }
    {
        if let Some(fault) = self.fault {
            return Err(fault);
        }
        match read_file(
            self.alloc,
            &mut self.decoder,
            &mut self.count,
            &mut self.taken,
            &mut self.source,
        ) {
            Ok(file) => Ok(Some(file)),
            Err(fault) => {
                if is_end(&self.decoder, fault) {
                    return Ok(None);
                }
                self.fault = Some(fault);
                Err(fault)
            }
        }
    }
}
