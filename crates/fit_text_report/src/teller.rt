//! What is kept of the events that a report has heard, and the texts of the next ones.
ghost use Rattle.std.specs.Prelude.{◌≡◌, ◌<◌, ◌^◌, ◌++◌, ◌∷◌, [], ℕ, List, IsTrue, OnOk, false};
ghost use Rattle.std.specs.Global.{Global};
ghost use Rattle.fit_chain.specs.Events.{Event as Told, file_end, header as begins, item};
ghost use Rattle.fit_record.specs.declared.message.Record.TheVariants.{Define, Values as Data};
ghost use Rattle.fit_record.specs.declared.message.Values.{Values};
ghost use Rattle.fit_record.specs.Records.{Fits, IsRecord};
ghost use Rattle.fit_profile.specs.Looks.{known};
ghost use Rattle.fit_text_report.specs.KeptEvents.{kept_events};

use crate::found::Findings;
use crate::report::{Moment, TextMaker};
use fit_frame::Header;
use fit_profile::Stream;
use fit_record::{MessageDef, Record};
use std::alloc::{AllocError, Global};
use std::marker::Model;

/// Tells events by what makes their text. Clauses see what it keeps of the events that were told: the records of the file that was begun
/// last, the latest first, and how many files have begun.
#[derive(Drop)]
pub(crate) struct Teller<M: TextMaker> {
    pub stream: Stream,
    pub found: Findings<M::Found>,
    pub files: u64,
    pub maker: M,
}

impl<M: TextMaker> Model for Teller<M> {
    ghost use Rattle.fit_text_report.specs.Current.{AreCurrent};
    ghost use Rattle.fit_text_report.specs.KeptEvents.{KeptEvents};

    ghost Value = { KeptEvents };

    ghost view = { λ t. record { records = t.stream; files = t.files } };

    ghost invariant = { λ t. AreCurrent M.Found.found_of t.found t.stream };
}

impl<M: TextMaker> Teller<M> {
    /// Nothing was told.
    pub(crate) fn new(alloc: Global) -> Self
        ensures { result ≡ kept_events [] }
    {
        Teller {
            stream: Stream::new(alloc),
            found: Findings::new(alloc),
            files: 0,
            maker: M::new(alloc),
        }
    }

    /// Takes in the header of a file, and puts its text.
    pub(crate) fn take_header(
        &mut self,
        text: &mut Vec<u8>,
        header: &Header,
        size: u32,
    ) -> Result<(), AllocError>
        requires { self.old.files < 2 ^ 60 }
        ensures heard { OnOk result ((heard : List (Told Global)) → self.old ≡ kept_events heard
            → self.new ≡ kept_events (begins header.now size ∷ heard)) }
        ensures text { OnOk result ((heard : List (Told Global)) → self.old ≡ kept_events heard
            → text.new.items ≡ text.old.items ++ M.line heard (begins header.now size)) }
    {
        self.maker.put_header(text, self.files, header, size)?;
        self.found.forget();
        self.stream.begin_file();
        self.files += 1;
        Ok(())
    }

    /// Takes in a definition message, and puts its text.
    pub(crate) fn take_definition(
        &mut self,
        text: &mut Vec<u8>,
        record_: &Record,
        definition: &MessageDef,
    ) -> Result<(), AllocError>
        requires same { record_.now ≡ Define definition.now }
        requires fits { Fits (known self.old.records) record_.now }
        ensures heard { OnOk result ((heard : List (Told Global)) → self.old ≡ kept_events heard
            → self.new ≡ kept_events (item record_.now ∷ heard)) }
        ensures text { OnOk result ((heard : List (Told Global)) → self.old ≡ kept_events heard
            → text.new.items ≡ text.old.items ++ M.line heard (item record_.now)) }
    {
        self.maker.put_definition(text, definition)?;
        self.found.forget_one(definition.local);
        self.stream.take(record_)
    }

    /// Takes in the data message that the bytes are, where it is seen by its first byte that it has no text. Says whether it is; else it is
    /// left.
    #[inline(always)]
    fn pass_message(&mut self, bytes: &[u8]) -> bool
        requires { (v : Values Global) × IsRecord (known self.old.records) (Data v) bytes.now }
        ensures heard { IsTrue result → (v : Values Global)
            → IsRecord (known self.old.records) (Data v) bytes.now → self.new
            ≡ record self.old { records = Data v ∷ self.old.records } }
        ensures text { IsTrue result → (heard : List (Told Global)) (v : Values Global)
            → self.old ≡ kept_events heard → IsRecord (known self.old.records) (Data v) bytes.now
            → M.line heard (item (Data v)) ≡ [] }
        ensures kept { result ≡ false → self.new ≡ self.old }
    {
        if !M::tells_records_alone() {
            return false;
        }
        self.stream.pass_message(bytes)
    }

    /// Takes in the data message that the bytes are, and puts its text, for which it is opened.
    #[inline(always)]
    fn take_opened(&mut self, text: &mut Vec<u8>, bytes: &[u8]) -> Result<(), AllocError>
        requires { (v : Values Global) × IsRecord (known self.old.records) (Data v) bytes.now }
        ensures heard { OnOk result ((v : Values Global)
            → IsRecord (known self.old.records) (Data v) bytes.now → self.new
            ≡ record self.old { records = Data v ∷ self.old.records }) }
        ensures text { OnOk result ((heard : List (Told Global)) (v : Values Global)
            → self.old ≡ kept_events heard → IsRecord (known self.old.records) (Data v) bytes.now
            → text.new.items ≡ text.old.items ++ M.line heard (item (Data v))) }
    {
        let message = self.stream.open(bytes);
        let tells = self.stream.tells(&message);
        let file = self.files;
        let time = tells.time;
        let moment = Moment { file, time };
        let found = &mut self.found;
        self.maker
            .put_message(text, found, &self.stream, &message, moment)?;
        self.stream.take_opened(bytes, tells)
    }

    /// Takes in the data message that the bytes are, and puts its text.
    #[inline(always)]
    pub(crate) fn take_message(
        &mut self,
        text: &mut Vec<u8>,
        bytes: &[u8],
    ) -> Result<(), AllocError>
        requires { (v : Values Global) × IsRecord (known self.old.records) (Data v) bytes.now }
        ensures heard { OnOk result ((v : Values Global)
            → IsRecord (known self.old.records) (Data v) bytes.now → self.new
            ≡ record self.old { records = Data v ∷ self.old.records }) }
        ensures text { OnOk result ((heard : List (Told Global)) (v : Values Global)
            → self.old ≡ kept_events heard → IsRecord (known self.old.records) (Data v) bytes.now
            → text.new.items ≡ text.old.items ++ M.line heard (item (Data v))) }
    {
        if self.pass_message(bytes) {
            return Ok(());
        }
        self.take_opened(text, bytes)
    }

    /// Takes in the end of a file, and puts its text.
    pub(crate) fn take_end(&mut self, text: &mut Vec<u8>) -> Result<(), AllocError>
        ensures heard { OnOk result ((heard : List (Told Global)) → self.old ≡ kept_events heard
            → self.new ≡ kept_events (file_end ∷ heard)) }
        ensures text { OnOk result ((heard : List (Told Global)) → self.old ≡ kept_events heard
            → text.new.items ≡ text.old.items ++ M.line heard file_end) }
    {
        self.maker.put_end(text)
    }
}
