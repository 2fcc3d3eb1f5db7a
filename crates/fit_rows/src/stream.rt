//! The records of a file that is read from its rows.
ghost use Rattle.std.specs.Prelude.{◌≡◌, ◌∷◌, [], OnErr, OnOk};
ghost use Rattle.std.specs.Global.{Global};
ghost use Rattle.fit_record.specs.Records.{Fits, IsRecord};
ghost use Rattle.fit_record.specs.declared.message.Record.TheVariants.{Values as Data};
ghost use Rattle.fit_record.specs.declared.message.Values.{Values};
ghost use Rattle.fit_profile.specs.Looks.{known};
ghost use Rattle.fit_profile.specs.Opened.{TellsNext};

use crate::template::Template;
use fit_profile::{Stream, Tells};
use fit_record::Record;
use fit_text_report::Findings;
use std::alloc::{AllocError, Global};
use std::marker::Model;

/// The records of a file that is read from its rows, taken one after another, and what is found out of their definitions to read the
/// rows of data messages. A contract sees it as the list of the records taken since the file began, latest first.
pub struct RowStream {
    pub(crate) stream: Stream,
    pub(crate) templates: Findings<Template>,
}

// A call wherever a stream is dropped: derived, all that it frees would be written out and proved there.
impl Drop for RowStream {
    fn drop(self) {
        let RowStream {
            templates: _templates,
            stream: _stream,
        } = self;
    }
}

impl Model for RowStream {
    ghost use Rattle.std.specs.Prelude.{List};
    ghost use Rattle.std.specs.Global.{Global};
    ghost use Rattle.fit_record.specs.declared.message.Record.{Record};
    ghost use Rattle.fit_text_report.specs.Current.{AreCurrent};
    ghost use Rattle.fit_texts.specs.MessageKeys.{key_of};

    ghost Value = { List (Record Global) };

    ghost view = { λ s. s.stream };

    ghost invariant = { λ s. AreCurrent key_of s.templates s.stream };
}

impl RowStream {
    /// A stream with no record yet.
    pub fn new(alloc: Global) -> Self
        ensures { result ≡ [] }
    {
        RowStream {
            stream: Stream::new(alloc),
            templates: Findings::new(alloc),
        }
    }

    /// Begins a file: the records before it count no more.
    pub fn begin_file(&mut self)
        ensures { self.new ≡ [] }
    {
        self.templates.forget();
        self.stream.begin_file();
    }

    /// What the records of the file have defined and told.
    #[inline(always)]
    pub fn stream(&self) -> &Stream
        ensures { result.now ≡ self.now }
    {
        &self.stream
    }

    /// Takes the next record. If memory runs out, the stream stays as it was.
    pub fn take(&mut self, record_: &Record) -> Result<(), AllocError>
        requires { Fits (known self.old) record_.now }
        ensures ok { OnOk result (self.new ≡ record_.now ∷ self.old) }
        ensures err { OnErr result (self.new ≡ self.old) }
    {
        if let Record::Define(definition) = record_ {
            self.templates.forget_one(definition.local);
        }
        self.stream.take(record_)
    }

    /// Takes the next record, as `take` does, where it is the data message that these bytes are and tells this: no record is made.
    pub fn take_opened(&mut self, bytes: &[u8], tells: Tells) -> Result<(), AllocError>
        requires { (v : Values Global) × IsRecord (known self.old) (Data v) bytes.now
            × TellsNext self.old v tells }
        ensures ok { OnOk result ((v : Values Global)
            → IsRecord (known self.old) (Data v) bytes.now → self.new ≡ Data v ∷ self.old) }
        ensures err { OnErr result (self.new ≡ self.old) }
    {
        self.stream.take_opened(bytes, tells)
    }
}
