//! A writer of messages.
ghost use Rattle.std.specs.Prelude.{◌≡◌, ◌↔◌, ◌<◌, IfErr, IfOk, IsTrue, OnErr, OnOk};
ghost use Rattle.fit_decode.specs.Reads.{channel};
ghost use Rattle.fit_record.specs.Files.{chain_limit};
ghost use Rattle.fit_from_messages.specs.Parts.{definition_in, header_in};
ghost use Rattle.fit_writer.specs.Amounts.{IsToldAmounts};
ghost use Rattle.fit_writer.specs.Reading.{form_in};
ghost use Rattle.fit_writer.specs.Written.{BeginsFile, PutsDefinition, EndsFile, IsDefinitionRefusal, IsHeaderRefusal, IsMessageRefusal, KeepsAll, PutsMessage, file_count, nothing_written};
ghost use Rattle.fit_writer.specs.Descriptions.{IsDescriptionRefusal, KeepsSome, PutsDescriptions};
ghost use Rattle.fit_writer.specs.Runs.{PutsMessages, StopsRun};
ghost use Rattle.fit_writer.specs.Finished.{IsFinished, IsNotFinished};

use crate::amounts::has_amounts;
use crate::chain::Chain;
use crate::describing::describe;
use crate::file::OpenFile;
use crate::kept::{Kept, barred};
use crate::put::put_told;
use crate::{FinishFault, Put, Refusal, Run, RunRefusal};
use fit_encode::Sink;
use fit_from_messages::{Misfit, lone_definition, lone_header};
use std::alloc::{AllocError, Global};
use std::marker::Model;

/// Writes messages, one after another, into the files of a chain. They are given as blocks of bytes (`docs/BLOCKS.md`): that of a message
/// with that of its definition, from any file or made of values. A reader of the chain is told of each message what its block says.
///
/// The writer keeps the stream that a reader of its bytes would have, and writes a message in the form in which that stream tells what was
/// put: with a definition that is there or a new one, with its developer fields described before it, with its time offset or, where that
/// would say another time, with a timestamp. Where there is no such form the call is refused, and nothing has changed.
#[derive(Drop)]
pub struct MessageWriter {
    files: Chain,
    is_open: bool,
    /// Where none has begun, what is left of the last one.
    file: OpenFile,
    kept: Kept,
    alloc: Global,
}

impl Model for MessageWriter {
    ghost use Rattle.fit_writer.specs.Written.{Writing};

    ghost Value = { Writing };

    ghost use Rattle.fit_writer.specs.inner.OpenFiles.{IsGoodWriter, writing_of};

    ghost view = { λ w. writing_of w.files w.is_open w.file };

    ghost invariant = { λ w. IsGoodWriter w.files w.is_open w.file };
}

impl MessageWriter {
    /// No file.
    pub fn new(alloc: Global) -> MessageWriter
        ensures { result ≡ nothing_written }
    {
        MessageWriter {
            files: Chain::new(alloc),
            is_open: false,
            file: OpenFile::new(alloc),
            kept: Kept::new(alloc),
            alloc,
        }
    }

    /// Begins a file with the header that a block says; the file before it ends.
    pub fn begin_file(&mut self, block: &[u8]) -> Result<(), Refusal>
        ensures ok { OnOk result (BeginsFile self.old self.new (header_in block.now)) }
        ensures refused { IfErr result (IsHeaderRefusal self.old block.now) }
        ensures unchanged { OnErr result (self.new ≡ self.old) }
    {
        let header = match lone_header(block) {
            Ok(header) => header,
            Err(reason) => return Err(Refusal::Block(reason)),
        };
        if !self.has_room() {
            return Err(Refusal::TooManyFiles);
        }
        self.end_file()?;
        self.file.begin(header);
        self.is_open = true;
        Ok(())
    }

    /// Puts just the definition message that a block says, with its local message type, architecture and reserved byte.
    pub fn put_definition(&mut self, block: &[u8]) -> Result<(), Refusal>
        ensures ok { OnOk result (PutsDefinition self.old self.new (definition_in block.now)) }
        ensures refused { IfErr result (IsDefinitionRefusal self.old.current block.now) }
        ensures unchanged { OnErr result (self.new ≡ self.old) }
    {
        if !self.is_open {
            return Err(Refusal::NoFile);
        }
        match lone_definition(self.alloc, block) {
            Ok(lone) => self.file.put_definition(lone.definition),
            Err(Misfit::Block(reason)) => Err(Refusal::Block(reason)),
            Err(Misfit::NoMemory) => Err(Refusal::NoMemory),
        }
    }

    /// Describes the developer fields of a definition as its block says, so that a definition message that came now would be read as it:
    /// of each that isn't described so a message `field_description` is put, and before it a message `developer_data_id` where the file
    /// has none of its index. They have no time, and get the local message types 15 and 14 where these are free.
    ///
    /// `Described` where no such messages make it so: a developer field has no description in the block, and another one in the file; a name
    /// or a unit can't be shown as text, or is longer than 254 bytes; or two of one index and number differ. Then nothing has changed.
    /// Where there is no more room or memory, the first fields may have been described.
    pub fn describe(&mut self, definition: &[u8]) -> Result<(), Refusal>
        ensures described { OnOk result
            (PutsDescriptions self.old self.new (form_in definition.now)) }
        ensures refused { IfErr result
            (IsDescriptionRefusal self.old.current definition.now) }
        ensures unchanged { IfErr result
            (KeepsSome self.old self.new (form_in definition.now)) }
    {
        if !self.is_open {
            return Err(Refusal::NoFile);
        }
        match lone_definition(self.alloc, definition) {
            Ok(lone) => describe(self.alloc, &mut self.file, &lone),
            Err(Misfit::Block(reason)) => Err(Refusal::Block(reason)),
            Err(Misfit::NoMemory) => Err(Refusal::NoMemory),
        }
    }

    /// Puts the message that a block says, by the block of its definition.
    ///
    /// Where no definition is there that gives its developer fields these base types, names and units, nor would one that came now, they are
    /// described before it, as `describe` does.
    ///
    /// It is refused where a block can't stand by itself, which is a reason of `from_messages`; `Full` and `Time` where the message needs
    /// a timestamp that it can't have; `Described` where its developer fields would have to be described and can't be, which is a reason of
    /// `describe`; `TooLong` where the file would have more data than a file may have.
    pub fn put_message(&mut self, definition: &[u8], block: &[u8]) -> Result<Put, Refusal>
        // A reader is told what the block says, after all that it is told before.
        ensures written { OnOk result (PutsMessage self.old self.new
            (form_in definition.now) block.now) }
        // It says whether that is so of speed, distance, cycles and power too.
        ensures accumulated { IfOk result (λ put. IsToldAmounts self.new
            definition.now block.now put.accumulated) }
        ensures refused { IfErr result
            (IsMessageRefusal self.old.current definition.now block.now) }
        // Where memory is refused, the definition message may have been put, which tells no message. Where developer fields are to be
        // described and there is no more room or memory, the first messages that describe them may have been.
        ensures unchanged { IfErr result
            (KeepsAll self.old self.new (form_in definition.now) block.now) }
    {
        if !self.is_open {
            return Err(Refusal::NoFile);
        }
        match lone_definition(self.alloc, definition) {
            Ok(lone) => {
                let has = has_amounts(definition);
                put_told(self.alloc, &mut self.file, &lone, has, block)
            }
            Err(Misfit::Block(reason)) => Err(Refusal::Block(reason)),
            Err(Misfit::NoMemory) => Err(Refusal::NoMemory),
        }
    }

    /// Puts the messages whose blocks stand one after another, by the block of their definition, as `put_message` does one after another. It
    /// stops at the first that is refused. Returns how many were put, and of how many first ones a reader is told the speed, distance, cycles
    /// and power that their blocks say.
    pub fn put_messages(&mut self, definition: &[u8], blocks: &[u8]) -> Result<Run, RunRefusal>
        ensures written { IfOk result
            (PutsMessages self.old self.new definition.now blocks.now) }
        // Messages were put up to the one that is refused, and its refusal is that of `put_message`.
        ensures stopped { IfErr result
            (StopsRun self.old self.new definition.now blocks.now) }
    {
        if !self.is_open {
            return Err(barred(Refusal::NoFile));
        }
        self.kept
            .put_run(self.alloc, &mut self.file, definition, blocks)
    }

    /// Ends the file that has begun, and writes the chain. After an error nothing is lost: it may be called again, also with another sink.
    pub fn finish<K: Sink>(&mut self, sink: &mut K) -> Result<(), FinishFault>
        ensures ok { OnOk result (IsFinished self.old self.new
            (channel K.contents K.has_failed sink.old sink.new)) }
        ensures err { IfErr result (IsNotFinished self.old self.new
            (channel K.contents K.has_failed sink.old sink.new)) }
    {
        if self.end_file().is_err() {
            return Err(FinishFault::NoMemory);
        }
        if self.files.is_empty() {
            return Err(FinishFault::NoFile);
        }
        match self.files.write(sink) {
            Ok(()) => Ok(()),
            Err(written) => Err(FinishFault::Write { written }),
        }
    }

    /// Whether one more file may begin.
    fn has_room(&self) -> bool
        ensures { IsTrue result ↔ (file_count self.now < chain_limit) }
    {
        if self.is_open {
            !self.files.is_nearly_full()
        } else {
            !self.files.is_full()
        }
    }

    /// Ends the file that has begun, if there is one.
    fn end_file(&mut self) -> Result<(), AllocError>
        ensures ok { OnOk result (EndsFile self.old self.new) }
        ensures err { OnErr result (self.new ≡ self.old) }
    {
        if !self.is_open {
            return Ok(());
        }
        self.file.end(&mut self.files)?;
        self.is_open = false;
        Ok(())
    }
}
