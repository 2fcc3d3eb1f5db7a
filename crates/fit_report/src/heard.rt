//! What makes text of events.
ghost use Rattle.std.specs.Prelude.{◌≡◌, ◌++◌, [], ℕ, ◌≤◌, List, IfOk, OnOk, OnErr, length, reverse, take};
ghost use Rattle.std.specs.Global.{Global};
ghost use Rattle.fit_record.specs.Files.{chain_limit, IsViable};
ghost use Rattle.fit_chain.specs.Events.{Event as Told, AreEvents};
ghost use Rattle.fit_chain.specs.Memory.{IsAny, MayLackMemoryIn};
ghost use Rattle.fit_report.specs.Heard.{AreHeard, hear, line_of, Skips};

use fit_decode::{Decoder, Event};
use fit_history::History;
use std::alloc::AllocError;
use std::marker::Model;

/// Makes text of the events of a chain of files, one after another.
pub trait Report {
    // These may be the events told so far, the latest first.
    ghost has_heard: { Self → List (Told Global) → Type 0 };

    // The text of an event after these events, the latest first.
    ghost line: { List (Told Global) → Told Global → List ℕ };

    /// Takes the next event, and puts its text after the old text. Out of memory, the text is of no use, and the
    /// reporter gets no further event. `report` doesn't call it for `More`, which is no event.
    fn tell(&mut self, event: &Event, text: &mut Vec<u8>) -> Result<(), AllocError>
        // The events are those of bytes with which a chain of files begins.
        requires { (heard : List (Told Global)) × has_heard self.old heard
            × AreHeard (hear event.now heard) }
        ensures heard { OnOk result ((heard : List (Told Global)) → has_heard self.old heard
            → AreHeard (hear event.now heard) → has_heard self.new (hear event.now heard)) }
        ensures text { OnOk result ((heard : List (Told Global)) → has_heard self.old heard
            → AreHeard (hear event.now heard)
            → text.new.items ≡ text.old.items ++ line_of line heard event.now) };

    /// Skips bytes at the front of the piece whose events it doesn't need one by one, and puts the text of these events after the
    /// old text. Returns how many bytes were used, all of them fed to the decoder. After a refusal nothing is skipped.
    ///
    /// Out of memory, some first bytes of the piece were fed, the text is of no use, and the reporter gets no further event. Memory was
    /// then refused at a byte of the piece that may take memory, or that completes an event.
    ///
    /// A reporter that needs each event leaves this method out, and skips nothing.
    fn skip(
        &mut self,
        decoder: &mut Decoder,
        piece: &[u8],
        text: &mut Vec<u8>,
    ) -> Result<usize, AllocError>
        requires told { (heard : List (Told Global)) × has_heard self.old heard
            × AreEvents decoder.old.bytes (reverse heard) }
        requires viable { IsViable Global chain_limit decoder.old.bytes }
        ensures skips { IfOk result (λ used. Skips has_heard line decoder.old decoder.new piece.now
            self.old self.new text.old.items text.new.items used) }
        ensures memory { OnErr result ((k : ℕ) × (k ≤ length piece.now)
            × (decoder.new ≡ record decoder.old
            { bytes = decoder.old.bytes ++ take k piece.now })) }
        ensures wants { OnErr result (MayLackMemoryIn Global IsAny decoder.old.bytes piece.now) }
        ensures viable { IsViable Global chain_limit decoder.new.bytes }
    {
        Ok(0)
    }
}

/// The events told to a reporter so far, for contracts alone: it has no bytes, and its calls do nothing at run time. Clauses see
/// the list of them, the latest first.
#[derive(Drop)]
pub struct Heard {
    answers: History<Event>,
}

impl Model for Heard {
    ghost use Rattle.std.specs.Prelude.{List, reverse};
    ghost use Rattle.std.specs.Global.{Global};
    ghost use Rattle.fit_chain.specs.Events.{Event as Told};
    ghost use Rattle.fit_report.specs.Heard.{heard_of};

    ghost Value = { List (Told Global) };

    ghost view = { λ h. heard_of (reverse h.answers.items) };
}

impl Heard {
    /// No event was told.
    pub fn new() -> Self
        ensures { result ≡ [] }
    {
        Heard {
            answers: History::new(),
        }
    }

    /// Adds an event to those told.
    pub fn add(&mut self, event: &Event)
        ensures { self.new ≡ hear event.now self.old }
    {
        self.answers.add(event);
    }
}
