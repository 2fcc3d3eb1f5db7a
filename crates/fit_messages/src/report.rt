//! The reporter of blocks.
ghost use Rattle.std.specs.Prelude.{◌≡◌, ◌≤◌, ◌+◌, ◌^◌, ◌<◌, ◌++◌, [], OnOk, Some, length, take, true};
ghost use Rattle.std.specs.Global.{Global};
ghost use Rattle.fit_profile.specs.Described.{namings_at};
ghost use Rattle.fit_profile.specs.Looks.{known};
ghost use Rattle.fit_record.specs.Environment.{defined_at};
ghost use Rattle.fit_record.specs.Records.{Fits, IsRecord, record_bytes};
ghost use Rattle.fit_record.specs.declared.environment.Defined.{Defined};
ghost use Rattle.fit_record.specs.declared.message.Record.TheVariants.{Define, Values as Data};
ghost use Rattle.fit_record.specs.declared.message.Values.{Values};
ghost use Rattle.fit_chain.specs.Events as events;
ghost use Rattle.fit_messages.specs.Blocks as blocks;
ghost use Rattle.fit_messages.specs.Kept.{kept_heard};
ghost use Rattle.fit_messages.specs.inner.Telling.{block_next, kept_next};

use crate::bytes::{BlockFront, EventPlace, put_front, put_number, put_rounded, put_sized};
use crate::definition::put_definition;
use crate::message::{Head, number_at, put_message};
use crate::sheet::{SHEET, Sheet};
use fit_decode::{Decoder, Event};
use fit_encode::spell;
use fit_frame::{Header, HeaderSum};
use fit_profile::Stream;
use fit_profile::laws::looking_back_is_learning;
use fit_record::{MessageDef, Record, Values};
use fit_report::laws::{heard_are_few, heard_records_fit};
use fit_report::{MessageTaker, Report, take_messages};
use std::alloc::{AllocError, Global};
use std::marker::Model;
use std::mem;

/// Makes a block of bytes of each event of a chain of files: of a header, a definition message, a data message, and the end of a file
/// (`docs/BLOCKS.md`). Clauses see what it keeps of the events that it has heard.
#[derive(Drop)]
pub struct MessagesReport {
    stream: Stream,
    files: u64,
    definitions: u64,
    /// For each local message type, how many definitions had come before its own.
    numbers: [u64; 16],
    /// How many bytes the events had. It begins again after 2^64.
    place: u64,
    /// Where a block is made.
    rest: Vec<u8>,
    /// The memory of the bytes of a data message that came in pieces.
    bytes: Vec<u8>,
    /// Where the parts of a message are written first.
    sheet: Sheet,
    alloc: Global,
}

impl Model for MessagesReport {
    ghost use Rattle.fit_messages.specs.Kept.{KeptHeard};

    ghost Value = { KeptHeard };

    ghost view = { λ r. record {
      records = r.stream;
      files = r.files;
      definitions = r.definitions;
      numbers = r.numbers;
      place = r.place;
    } };
}

impl MessagesReport {
    /// It has heard nothing.
    pub fn new(alloc: Global) -> Self
        ensures { result ≡ kept_heard [] }
    {
        MessagesReport {
            stream: Stream::new(alloc),
            files: 0,
            definitions: 0,
            numbers: [0; 16],
            place: 0,
            rest: Vec::new(alloc),
            bytes: Vec::new(alloc),
            sheet: [0; SHEET],
            alloc,
        }
    }
}

/// What a checksum of a header is called in a block.
fn sum_kind(sum: HeaderSum) -> u8
    ensures { result ≡ blocks.sum_kind sum }
{
    match sum {
        HeaderSum::Absent => 0,
        HeaderSum::Zero => 1,
        HeaderSum::True => 2,
    }
}

/// Puts the block of a header before that many bytes of data.
fn put_header(
    text: &mut Vec<u8>,
    rest: &mut Vec<u8>,
    place: EventPlace,
    header: &Header,
    size: u32,
) -> Result<(), AllocError>
    ensures { OnOk result (text.new.items ≡ text.old.items
        ++ blocks.header_block place.file place.place header.now size) }
{
    rest.clear();
    put_front(
        rest,
        BlockFront {
            kind: 1,
            a: header.size,
            b: header.protocol,
            c: sum_kind(header.sum),
            file: place.file,
            n: u64::from(size),
            place: place.place,
        },
    )?;
    put_number(rest, 8, u64::from(header.profile))?;
    put_rounded(rest, header.rest.as_slice())?;
    put_sized(text, rest.as_slice())
}

/// Puts the block of the end of a file.
fn put_end(text: &mut Vec<u8>, rest: &mut Vec<u8>, place: EventPlace) -> Result<(), AllocError>
    ensures { OnOk result (text.new.items ≡ text.old.items
        ++ blocks.end_block place.file place.place) }
{
    rest.clear();
    put_front(
        rest,
        BlockFront {
            kind: 4,
            a: 0,
            b: 0,
            c: 0,
            file: place.file,
            n: 0,
            place: place.place,
        },
    )?;
    put_sized(text, rest.as_slice())
}

/// How many bytes a record has after the records of a stream.
fn length_of(stream: &Stream, record_: &Record) -> u32
    requires { Fits (known stream.now) record_.now }
    ensures { result ≡ length (record_bytes (known stream.now) record_.now) }
{
    match stream.env().fits(record_) {
        Ok(length) => length,
        Err(_) => unreachable!(),
    }
}

/// Puts the block of the definition that a stream has for this local message type, which is this one of all.
fn put_taken(
    text: &mut Vec<u8>,
    alloc: Global,
    stream: &Stream,
    local: u8,
    place: EventPlace,
    number: u64,
) -> Result<(), AllocError>
    requires { (p : Defined Global) × (defined_at (known stream.now) local ≡ Some p)
        × (p.definition.local ≡ local) }
    ensures { OnOk result ((p : Defined Global) → defined_at (known stream.now) local ≡ Some p
        → text.new.items ≡ text.old.items ++ blocks.definition_block place.file place.place number
        p (namings_at stream.now local)) }
{
    let Some(defined) = stream.env().defined(local) else {
        unreachable!()
    };
    put_definition(text, alloc, stream, defined, place, number)
}

/// Whether the items of fields are read by eight bytes each: each field is one number, and that many bytes come after the message.
#[inline(always)]
fn is_quick(lone: bool, more: usize) -> bool
    ensures lone { result ≡ true → lone ≡ true }
    ensures more { result ≡ true → 8 ≤ more }
{
    lone && more >= 8
}

impl MessagesReport {
    /// Takes in a header before that many bytes of data, and puts its block.
    fn take_header(
        &mut self,
        text: &mut Vec<u8>,
        header: &Header,
        size: u32,
    ) -> Result<(), AllocError>
        requires few { self.old.files < 2 ^ 60 }
        ensures kept { OnOk result (self.new ≡ kept_next self.old (events.header header.now size)) }
        ensures text { OnOk result (text.new.items
            ≡ text.old.items ++ block_next self.old (events.header header.now size)) }
    {
        self.stream.begin_file();
        self.files += 1;
        let place = self.here();
        put_header(text, &mut self.rest, place, header, size)?;
        self.place = self.place.wrapping_add(u64::from(header.size));
        Ok(())
    }

    /// Where the next event stands.
    fn here(&self) -> EventPlace
        ensures file { result.file ≡ self.now.files }
        ensures place { result.place ≡ self.now.place }
    {
        EventPlace {
            file: self.files,
            place: self.place,
        }
    }

    /// Takes in the end of a file, and puts its block.
    fn take_end(&mut self, text: &mut Vec<u8>) -> Result<(), AllocError>
        ensures kept { OnOk result (self.new ≡ kept_next self.old events.file_end) }
        ensures text { OnOk result (text.new.items
            ≡ text.old.items ++ block_next self.old events.file_end) }
    {
        let place = self.here();
        put_end(text, &mut self.rest, place)?;
        self.place = self.place.wrapping_add(2);
        Ok(())
    }

    /// Takes in a definition, and puts its block.
    fn take_definition(
        &mut self,
        text: &mut Vec<u8>,
        record_: &Record,
        definition: &MessageDef,
    ) -> Result<(), AllocError>
        requires same { record_.now ≡ Define definition.now }
        requires fits { Fits (known self.old.records) record_.now }
        requires few { self.old.definitions < 2 ^ 60 }
        ensures kept { OnOk result (self.new ≡ kept_next self.old (events.item record_.now)) }
        ensures text { OnOk result (text.new.items
            ≡ text.old.items ++ block_next self.old (events.item record_.now)) }
    {
        let length = length_of(&self.stream, record_);
        let place = self.here();
        self.stream.take(record_)?;
        let local = definition.local;
        put_taken(
            text,
            self.alloc,
            &self.stream,
            local,
            place,
            self.definitions,
        )?;
        self.numbers[definition.local as usize] = self.definitions;
        self.definitions += 1;
        self.place = self.place.wrapping_add(u64::from(length));
        Ok(())
    }

    /// Takes in the data message that the first bytes of a piece are, that many, and puts its block.
    #[inline(always)]
    fn take_message(
        &mut self,
        text: &mut Vec<u8>,
        piece: &[u8],
        size: usize,
    ) -> Result<(), AllocError>
        requires size { size ≤ length piece.now }
        requires message { (v : Values Global)
            × IsRecord (known self.old.records) (Data v) (take size piece.now) }
        ensures kept { OnOk result ((v : Values Global)
            → IsRecord (known self.old.records) (Data v) (take size piece.now)
            → self.new ≡ kept_next self.old (events.item (Data v))) }
        ensures text { OnOk result ((v : Values Global)
            → IsRecord (known self.old.records) (Data v) (take size piece.now)
            → text.new.items ≡ text.old.items ++ block_next self.old (events.item (Data v))) }
    {
        let place = self.here();
        let (message, _) = piece.split_at(size);
        let taken = self.stream.take_and_tell(message)?;
        let head = Head {
            place,
            number: number_at(&self.numbers, taken.local),
            local: taken.local,
            offset: taken.offset,
            counts: taken.may_count,
            told: taken.told,
        };
        let quick = is_quick(taken.has_lone_fields, piece.len() - size);
        let (_, body) = piece.split_at(1);
        put_message(
            text,
            &mut self.rest,
            &mut self.sheet,
            &self.stream,
            head,
            quick,
            body,
        )?;
        self.place = self.place.wrapping_add(size as u64);
        Ok(())
    }

    /// Takes in a data message, and puts its block: by its bytes, as where it is skipped.
    fn take_values(
        &mut self,
        text: &mut Vec<u8>,
        record_: &Record,
        values: &Values,
    ) -> Result<(), AllocError>
        requires same { record_.now ≡ Data values.now }
        requires fits { Fits (known self.old.records) record_.now }
        ensures kept { OnOk result (self.new ≡ kept_next self.old (events.item record_.now)) }
        ensures text { OnOk result (text.new.items
            ≡ text.old.items ++ block_next self.old (events.item record_.now)) }
    {
        spell(&mut self.bytes, self.stream.env(), record_)?;
        let bytes = mem::replace(&mut self.bytes, Vec::new(self.alloc));
        let taken = self.take_message(text, bytes.as_slice(), bytes.len());
        self.bytes = bytes;
        taken
    }
}

impl Report for MessagesReport {
    ghost use Rattle.fit_messages.specs.Blocks.{event_block};
    ghost use Rattle.fit_messages.specs.Kept.{kept_heard};

    ghost has_heard = { λ r heard. r ≡ kept_heard heard };

    ghost line = { event_block };

    fn tell(&mut self, event: &Event, text: &mut Vec<u8>) -> Result<(), AllocError> {
        heard_records_fit::<Global>();
        heard_are_few::<Global>();
        looking_back_is_learning::<Global>();
        match event {
            Event::Header(header, size) => self.take_header(text, header, *size),
            Event::Item(record_) => match record_ {
                Record::Define(definition) => self.take_definition(text, record_, definition),
                Record::Values(values) => self.take_values(text, record_, values),
            },
            Event::FileEnd => self.take_end(text),
            Event::More => Ok(()),
        }
    }

    fn skip(
        &mut self,
        decoder: &mut Decoder,
        piece: &[u8],
        text: &mut Vec<u8>,
    ) -> Result<usize, AllocError> {
        take_messages(self, decoder, piece, text)
    }
}

impl MessageTaker for MessagesReport {
    ghost use Rattle.fit_messages.specs.Blocks.{event_block};
    ghost use Rattle.fit_messages.specs.Kept.{kept_heard};

    ghost has_heard = { λ r heard. r ≡ kept_heard heard };

    ghost line = { event_block };

    #[inline(always)]
    fn take(&mut self, piece: &[u8], size: usize, text: &mut Vec<u8>) -> Result<(), AllocError> {
        self.take_message(text, piece, size)
    }
}
