//! A reporter of texts that depend on few of the events before them.
ghost use Rattle.std.specs.Prelude.{◌≡◌, ◌≢◌, ◌<◌, ◌^◌, ◌++◌, ◌∷◌, [], ℕ, List, IsSomeAnd, IsTrue, OnOk};
ghost use Rattle.std.specs.Global.{Global};
ghost use Rattle.fit_chain.specs.Events.{Event as Told, file_end, header as begins, item};
ghost use Rattle.fit_record.specs.Environment.{defined_at};
ghost use Rattle.fit_record.specs.MessageBytes.{message_in};
ghost use Rattle.fit_record.specs.declared.message.Record.TheVariants.{Define, Values as Data};
ghost use Rattle.fit_record.specs.declared.message.Values.{Values};
ghost use Rattle.fit_record.specs.Records.{Fits};
ghost use Rattle.fit_profile.specs.Looks.{known};
ghost use Rattle.fit_profile.specs.Opened.{IsOpened};
ghost use Rattle.fit_profile.specs.Times as times;
ghost use Rattle.fit_report.specs.Heard.{latest_records};
ghost use Rattle.fit_text_report.specs.Current.{AreCurrent};
ghost use Rattle.fit_text_report.specs.KeptEvents.{files_heard, kept_events};

use crate::found::{Finding, Findings};
use crate::teller::Teller;
use fit_decode::{Decoder, Event};
use fit_encode::spell;
use fit_frame::Header;
use fit_profile::Stream;
use fit_record::{MessageBytes, MessageDef, Record};
use fit_report::{MessageTaker, Report, take_messages};
use std::alloc::{AllocError, Global};
use std::marker::Model;

/// When a data message came: in which file, counted from 1, and its time in seconds since 1989-12-31T00:00:00 UTC, where it has one.
#[derive(Clone, Copy)]
pub struct Moment {
    pub file: u64,
    pub time: Option<u32>,
}

/// Makes text of events, one after another, by the records before them in their file and by how many files have begun.
pub trait TextMaker: Drop {
    /// What is found out of definitions for the texts of their data messages.
    type Found: Finding;

    // The text of an event after these events, the latest first.
    ghost line: { List (Told Global) → Told Global → List ℕ };

    /// It has made no text.
    fn new(alloc: Global) -> Self;

    /// Whether only record messages have a text, of all data messages.
    fn tells_records_alone() -> bool
        ensures { IsTrue result → (heard : List (Told Global)) (v : Values Global)
            → IsSomeAnd (defined_at (known (latest_records heard)) v.local)
            (λ p. p.definition.global ≢ 20) → line heard (item (Data v)) ≡ [] };

    /// Puts the text of the header of a file with that many bytes of data, where that many files have begun before it.
    fn put_header(
        &mut self,
        text: &mut Vec<u8>,
        files: u64,
        header: &Header,
        size: u32,
    ) -> Result<(), AllocError>
        requires { files < 2 ^ 60 }
        ensures { OnOk result ((heard : List (Told Global)) → files ≡ files_heard heard
            → text.new.items ≡ text.old.items ++ line heard (begins header.now size)) };

    /// Puts the text of a definition message.
    fn put_definition(
        &mut self,
        text: &mut Vec<u8>,
        definition: &MessageDef,
    ) -> Result<(), AllocError>
        ensures { OnOk result ((heard : List (Told Global)) → text.new.items
            ≡ text.old.items ++ line heard (item (Define definition.now))) };

    /// Puts the text of the end of a file.
    fn put_end(&mut self, text: &mut Vec<u8>) -> Result<(), AllocError>
        ensures { OnOk result ((heard : List (Told Global))
            → text.new.items ≡ text.old.items ++ line heard file_end) };

    /// Puts the text of a data message that is opened after the records of a stream, by what is found out of its definition.
    fn put_message(
        &mut self,
        text: &mut Vec<u8>,
        found: &mut Findings<Self::Found>,
        stream: &Stream,
        message: &MessageBytes<'_>,
        moment: Moment,
    ) -> Result<(), AllocError>
        requires opened { IsOpened stream.now message.now }
        requires time { moment.time ≡ times.time stream.now (Data (message_in message.now)) }
        requires current { AreCurrent Self.Found.found_of found.old stream.now }
        ensures text { OnOk result ((heard : List (Told Global))
            → stream.now ≡ latest_records heard → moment.file ≡ files_heard heard
            → text.new.items
            ≡ text.old.items ++ line heard (item (Data (message_in message.now)))) }
        ensures current { AreCurrent Self.Found.found_of found.new stream.now };
}

/// Makes the text of the events of a chain of files by what makes it. Clauses see what it keeps of the events that it has heard: the
/// records of the file that was begun last, the latest first, and how many files have begun.
#[derive(Drop)]
pub struct TextReport<M: TextMaker> {
    teller: Teller<M>,
    /// The memory of the bytes of a data message that came in pieces.
    bytes: Vec<u8>,
}

impl<M: TextMaker> Model for TextReport<M> {
    ghost use Rattle.fit_text_report.specs.KeptEvents.{KeptEvents};

    ghost Value = { KeptEvents };

    ghost view = { λ r. r.teller };
}

impl<M: TextMaker> TextReport<M> {
    /// It has heard nothing.
    pub fn new(alloc: Global) -> Self
        ensures { result ≡ kept_events [] }
    {
        TextReport {
            teller: Teller::new(alloc),
            bytes: Vec::new(alloc),
        }
    }

    /// Takes in a record, and puts its text: that of a data message by its bytes, as where it is skipped.
    fn take_record(&mut self, text: &mut Vec<u8>, record_: &Record) -> Result<(), AllocError>
        requires { Fits (known self.old.records) record_.now }
        ensures heard { OnOk result ((heard : List (Told Global)) → self.old ≡ kept_events heard
            → self.new ≡ kept_events (item record_.now ∷ heard)) }
        ensures text { OnOk result ((heard : List (Told Global)) → self.old ≡ kept_events heard
            → text.new.items ≡ text.old.items ++ M.line heard (item record_.now)) }
    {
        match record_ {
            Record::Define(definition) => self.teller.take_definition(text, record_, definition),
            Record::Values(_values) => {
                spell(&mut self.bytes, self.teller.stream.env(), record_)?;
                self.teller.take_message(text, self.bytes.as_slice())
            }
        }
    }
}

impl<M: TextMaker> Report for TextReport<M> {
    ghost has_heard = { λ r heard. r ≡ kept_events heard };

    ghost line = { M.line };

    fn tell(&mut self, event: &Event, text: &mut Vec<u8>) -> Result<(), AllocError> {
        match event {
            Event::Header(header, size) => self.teller.take_header(text, header, *size),
            Event::Item(record_) => self.take_record(text, record_),
            Event::FileEnd => self.teller.take_end(text),
            Event::More => Ok(()),
        }
    }

    fn skip(
        &mut self,
        decoder: &mut Decoder,
        piece: &[u8],
        text: &mut Vec<u8>,
    ) -> Result<usize, AllocError> {
        take_messages(self, decoder, piece, text)
    }
}

impl<M: TextMaker> MessageTaker for TextReport<M> {
    ghost has_heard = { λ r heard. r ≡ kept_events heard };

    ghost line = { M.line };

    #[inline(always)]
    fn take(&mut self, piece: &[u8], size: usize, text: &mut Vec<u8>) -> Result<(), AllocError> {
        let (message, _) = piece.split_at(size);
        self.teller.take_message(text, message)
    }
}
