//! A file that has begun, and the records that are put into it.
ghost use Rattle.std.specs.Prelude.{◌≡◌, ◌⊎◌, ◌<◌, ◌≤◌, ◌∷◌, [], IfErr, IfOk, OnErr, OnOk, Some, length, take, true};
ghost use Rattle.std.specs.Global.{Global};
ghost use Rattle.std.specs.List.{list_all};
ghost use Rattle.fit_base.specs.declared.number.Order.{Order};
ghost use Rattle.fit_frame.specs.Header.{FormFits};
ghost use Rattle.fit_record.specs.declared.environment.Defined.{Defined};
ghost use Rattle.fit_record.specs.declared.message.Record.TheVariants.{Define, Values as Data};
ghost use Rattle.fit_record.specs.Environment.{dev_defs};
ghost use Rattle.fit_record.specs.Files.{chain_limit};
ghost use Rattle.fit_record.specs.Records.{DataHeaderFits, DefinitionFits, Fits, record_bytes};
ghost use Rattle.fit_profile.specs.Looks.{known};
ghost use Rattle.fit_from_messages.specs.Parts.{slot_stands};
ghost use Rattle.fit_writer.specs.Reading.{values_by};
ghost use Rattle.fit_writer.specs.Written.{SaysSame, WouldSaySame, with_local};
ghost use Rattle.fit_writer.specs.inner.Files.{IsNextFile};
ghost use Rattle.fit_writer.specs.inner.OpenFiles.{IsGoodOpenFile, IsHalfPut, IsUnput, current_of, current_with};
ghost use Rattle.fit_writer.specs.inner.Places.{IsLone, form_of};
ghost use Rattle.fit_writer.specs.inner.Spelled.{IsSpelled};

use crate::Refusal;
use crate::amounts::NOTHING;
use crate::chain::Chain;
use crate::data::{add_message, add_record, has_room};
use crate::forms::with_local;
use crate::indices::note_index;
use crate::places::Turns;
use fit_base::Order;
use fit_encode::spell;
use fit_frame::Header;
use fit_from_messages::{LoneDefinition, MessageFront, spell_lone};
use fit_profile::{Stream, Told};
use fit_record::{MessageDef, Record, body_length};
use std::alloc::{AllocError, Global};

/// A file that has begun and not ended.
pub(crate) struct OpenFile {
    pub header: Header,
    /// The bytes of its records.
    pub data: Vec<u8>,
    /// What a reader of them would have.
    pub stream: Stream,
    /// What it would be told of the last message.
    pub told: Told,
    pub turns: Turns,
    /// The developer data indices that messages say.
    pub indices: [bool; 256],
    /// Where the bytes of a definition message and of a message are made.
    pub defining: Vec<u8>,
    pub message: Vec<u8>,
}

// A call wherever a file is dropped: derived, all that it frees would be written out and proved there.
impl Drop for OpenFile {
    fn drop(self) {
        let OpenFile {
            message: _message,
            defining: _defining,
            indices: _,
            turns: _,
            told: _,
            stream: _stream,
            data: _data,
            header: _,
        } = self;
    }
}

/// Puts the bytes of a message that stands by itself at the start of others. Returns how many they are.
fn spell_message(
    bytes: &mut Vec<u8>,
    front: MessageFront,
    order: Order,
    lone: &LoneDefinition<'_>,
    block: &[u8],
) -> Result<usize, AllocError>
    requires lone { IsLone lone.now }
    requires front { DataHeaderFits front.local front.offset }
    requires stand { list_all (slot_stands block.now) lone.now.slots ≡ true }
    ensures within { IfOk result (λ end. end ≤ length bytes.new.items) }
    ensures message { IfOk result (λ end. IsSpelled (form_of lone.now) block.now order
        front.local front.offset (take end bytes.new.items)) }
{
    let size = body_length(&lone.definition) as usize;
    match spell_lone(bytes, front, order, size, lone.slots.as_slice(), block) {
        Ok(end) => Ok(end),
        Err(_) => Err(AllocError),
    }
}

impl OpenFile {
    /// No file: what is there before the first begins.
    pub(crate) fn new(alloc: Global) -> OpenFile {
        OpenFile {
            header: Header::new(0, 0),
            data: Vec::new(alloc),
            stream: Stream::new(alloc),
            told: NOTHING,
            turns: Turns::new(),
            indices: [false; 256],
            defining: Vec::new(alloc),
            message: Vec::new(alloc),
        }
    }

    /// A file with this header begins.
    pub(crate) fn begin(&mut self, header: Header)
        requires { FormFits header }
        ensures begun { current_of self.new ≡ record { header = header; records = [] } }
        ensures good { IsGoodOpenFile self.new }
    {
        self.header = header;
        self.data.clear();
        self.stream.begin_file();
        self.told = NOTHING;
        self.turns = Turns::new();
        self.indices = [false; 256];
    }

    /// Puts the file after others. Out of memory, nothing changes.
    pub(crate) fn end(&self, files: &mut Chain) -> Result<(), AllocError>
        requires good { IsGoodOpenFile self.now }
        requires room { length files.old < chain_limit }
        ensures ok { OnOk result (IsNextFile files.old files.new self.now.header self.now.stream) }
        ensures err { OnErr result (files.new ≡ files.old) }
    {
        files.push(&self.header, self.data.as_slice(), &self.stream)
    }

    /// Puts a definition message.
    pub(crate) fn put_definition(&mut self, definition: MessageDef) -> Result<(), Refusal>
        requires good { IsGoodOpenFile self.old }
        requires fits { DefinitionFits definition }
        ensures ok { OnOk result
            (current_of self.new ≡ current_with self.old (Define definition ∷ self.old.stream)) }
        ensures good { IsGoodOpenFile self.new }
        ensures err { OnErr result (current_of self.new ≡ current_of self.old) }
        ensures refused { IfErr result (IsUnput (Define definition ∷ self.old.stream)) }
    {
        let local = definition.local;
        let record_ = Record::Define(definition);
        spell(&mut self.defining, self.stream.env(), &record_)?;
        let bytes = self.defining.as_slice();
        if !has_room(self.data.as_slice(), bytes.len()) {
            return Err(Refusal::TooLong);
        }
        add_record(&mut self.data, &mut self.stream, bytes, &record_)?;
        self.turns.note(local);
        Ok(())
    }

    /// Puts a message of a local message type whose messages are read as it.
    pub(crate) fn put_known(
        &mut self,
        front: MessageFront,
        lone: &LoneDefinition<'_>,
        block: &[u8],
    ) -> Result<(), Refusal>
        requires good { IsGoodOpenFile self.old }
        requires lone { IsLone lone.now }
        requires front { DataHeaderFits front.local front.offset }
        requires stand { list_all (slot_stands block.now) lone.now.slots ≡ true }
        requires same { (p : Defined Global)
            × SaysSame self.old.stream front.local (form_of lone.now) p }
        ensures ok { OnOk result (current_of self.new ≡ current_with self.old
            (Data (values_by (form_of lone.now) block.now front.local front.offset)
            ∷ self.old.stream)) }
        ensures good { IsGoodOpenFile self.new }
        ensures err { OnErr result (current_of self.new ≡ current_of self.old) }
        ensures refused { IfErr result (IsUnput
            (Data (values_by (form_of lone.now) block.now front.local front.offset)
            ∷ self.old.stream)) }
    {
        let Some(place) = self.stream.env().defined(front.local) else {
            unreachable!()
        };
        let order = place.definition.order;
        let end = spell_message(&mut self.message, front, order, lone, block)?;
        let (bytes, _) = self.message.as_slice().split_at(end);
        if !has_room(self.data.as_slice(), bytes.len()) {
            return Err(Refusal::TooLong);
        }
        let told = add_message(&mut self.data, &mut self.stream, bytes)?;
        self.told = told;
        self.turns.note(front.local);
        note_index(&mut self.indices, lone, block);
        Ok(())
    }

    /// Puts a message with its definition message before it. Where memory is refused, the definition message may have been put.
    pub(crate) fn put_both(
        &mut self,
        alloc: Global,
        front: MessageFront,
        lone: &LoneDefinition<'_>,
        block: &[u8],
    ) -> Result<(), Refusal>
        requires good { IsGoodOpenFile self.old }
        requires lone { IsLone lone.now }
        requires same { WouldSaySame self.old.stream (form_of lone.now) }
        requires front { DataHeaderFits front.local front.offset }
        requires stand { list_all (slot_stands block.now) lone.now.slots ≡ true }
        ensures ok { OnOk result (current_of self.new ≡ current_with self.old
            (Data (values_by (form_of lone.now) block.now front.local front.offset)
            ∷ Define (with_local lone.now.definition front.local) ∷ self.old.stream)) }
        ensures good { IsGoodOpenFile self.new }
        ensures err { IfErr result (IsHalfPut self.old self.new lone.now.definition) }
        ensures refused { IfErr result (IsUnput
            (Data (values_by (form_of lone.now) block.now front.local front.offset)
            ∷ Define (with_local lone.now.definition front.local) ∷ self.old.stream)) }
    {
        let order = lone.definition.order;
        let end = spell_message(&mut self.message, front, order, lone, block)?;
        let (bytes, _) = self.message.as_slice().split_at(end);
        let record_ = Record::Define(with_local(alloc, &lone.definition, front.local)?);
        spell(&mut self.defining, self.stream.env(), &record_)?;
        let defining = self.defining.as_slice();
        if !has_room(self.data.as_slice(), defining.len() + bytes.len()) {
            return Err(Refusal::TooLong);
        }
        add_record(&mut self.data, &mut self.stream, defining, &record_)?;
        let told = add_message(&mut self.data, &mut self.stream, bytes)?;
        self.told = told;
        self.turns.note(front.local);
        note_index(&mut self.indices, lone, block);
        Ok(())
    }
}
