//! A file of which not all rows have come.
ghost use Rattle.std.specs.Prelude.{◌≡◌, ◌↔◌, IfErr, IfOk, IsTrue, OnOk, codes, reverse};
ghost use Rattle.std.specs.Global.{Global};
ghost use Rattle.fit_record.specs.declared.message.Record.TheVariants.{Values as Data};
ghost use Rattle.fit_record.specs.declared.message.Values.{Values as Message};
ghost use Rattle.fit_record.specs.Records.{Fits, IsRecord};
ghost use Rattle.fit_profile.specs.Looks.{known};
ghost use Rattle.fit_profile.specs.Opened.{TellsNext};
ghost use Rattle.fit_csv.specs.declared.from.open_file.Part.{Part};
ghost use Rattle.fit_csv.specs.inner.Misfits.{IsMisfit};
ghost use Rattle.fit_csv.specs.inner.Progress.{CanStandNext, FileStep, FitsOnceWhole, PartHasRoom, PartStep, settled, with_record};
ghost use Rattle.fit_csv.specs.inner.Seven.{row_of};
ghost use Rattle.fit_csv.specs.inner.SoundChain.{IsSoundFile};

use crate::from::cells::{Cells, ValueReader, same};
use crate::from::definition::{OpenDefinition, definition_head};
use crate::from::message::message_head;
use crate::from::misfit::Misfit;
use crate::from::open_definition::{definition_of, is_whole, take_definition_row};
use crate::from::open_message::{is_whole_message, take_message_row};
use fit_base::Entries;
use fit_encode::SpelledRecords;
use fit_frame::Header;
use fit_profile::{Stream, Tells};
use fit_record::{Record, Values};
use fit_rows::RowStream;
use std::alloc::Global;
use std::mem;

/// What has come of a record.
#[derive(Drop)]
pub(crate) enum Part {
    Nothing,
    Definition(OpenDefinition),
    Message(Values),
}

/// A file of which not all rows have come.
pub(crate) struct OpenFile {
    pub header: Header,
    /// The records that are whole.
    pub records: SpelledRecords,
    /// What these records have defined and told, as the rows of data messages need it.
    pub before: RowStream,
    pub part: Part,
}

// A call wherever a file is dropped: derived, all that it frees would be written out and proved there.
impl Drop for OpenFile {
    fn drop(self) {
        let OpenFile {
            part: _part,
            before: _before,
            records: _records,
            header: _,
        } = self;
    }
}

/// Takes the first row of a definition.
fn begin_definition(alloc: Global, before: &Stream, cells: &Cells) -> Result<Part, Misfit>
    requires { cells.now.kind.now ≡ codes "def" }
    ensures ok { IfOk result (PartStep before.now Part.Nothing (row_of cells.now)) }
    ensures err { IfErr result
        (IsMisfit (CanStandNext before.now Part.Nothing) (row_of cells.now)) }
{
    let head = definition_head(cells)?;
    Ok(Part::Definition(OpenDefinition {
        head,
        fields: Entries::new(alloc),
        dev: Entries::new(alloc),
    }))
}

/// Takes the first row of a data message.
fn begin_message(alloc: Global, before: &Stream, cells: &Cells) -> Result<Part, Misfit>
    requires { cells.now.kind.now ≡ codes "data" }
    ensures ok { IfOk result (PartStep before.now Part.Nothing (row_of cells.now)) }
    ensures err { IfErr result
        (IsMisfit (CanStandNext before.now Part.Nothing) (row_of cells.now)) }
{
    let values = message_head(alloc, cells, before)?;
    Ok(Part::Message(values))
}

/// Takes the first row of a record.
fn begin_record(alloc: Global, before: &Stream, cells: &Cells) -> Result<Part, Misfit>
    requires { cells.now.kind.now ≡ codes "end" → ⊥ }
    ensures ok { IfOk result (PartStep before.now Part.Nothing (row_of cells.now)) }
    ensures err { IfErr result
        (IsMisfit (CanStandNext before.now Part.Nothing) (row_of cells.now)) }
{
    if same(cells.kind, b"def") {
        begin_definition(alloc, before, cells)
    } else if same(cells.kind, b"data") {
        begin_message(alloc, before, cells)
    } else {
        Err(Misfit::Kind)
    }
}

/// Takes the next row of a record. It isn't one in which a file ends.
fn next_part(
    reader: &mut ValueReader,
    before: &Stream,
    part: Part,
    cells: &Cells,
) -> Result<Part, Misfit>
    requires room { PartHasRoom before.now part }
    requires kind { part ≡ Part.Nothing → cells.now.kind.now ≡ codes "end" → ⊥ }
    ensures ok { IfOk result (PartStep before.now part (row_of cells.now)) }
    ensures err { IfErr result (IsMisfit (CanStandNext before.now part) (row_of cells.now)) }
{
    match part {
        Part::Nothing => begin_record(reader.alloc, before, cells),
        Part::Definition(mut definition) => {
            take_definition_row(&mut definition, cells)?;
            Ok(Part::Definition(definition))
        }
        Part::Message(mut values) => {
            take_message_row(reader, cells, before, &mut values)?;
            Ok(Part::Message(values))
        }
    }
}

impl OpenFile {
    /// A record is whole. It is freed by what calls this.
    #[inline(always)]
    fn add(&mut self, r: &Record) -> Result<(), Misfit>
        requires same_records { self.old.before ≡ reverse self.old.records }
        requires fits { Fits (known self.old.before) r.now }
        ensures ok { OnOk result (self.new ≡ with_record self.old r.now) }
        ensures err { IfErr result (λ misfit. misfit ≡ Misfit.NoMemory) }
    {
        self.part = Part::Nothing;
        self.records.push(self.before.stream().env(), r)?;
        self.before.take(r)?;
        Ok(())
    }

    /// A record is whole.
    pub(crate) fn add_record(&mut self, r: Record) -> Result<(), Misfit>
        requires same_records { self.old.before ≡ reverse self.old.records }
        requires fits { Fits (known self.old.before) r }
        ensures ok { OnOk result (self.new ≡ with_record self.old r) }
        ensures err { IfErr result (λ misfit. misfit ≡ Misfit.NoMemory) }
    {
        self.add(&r)
    }

    /// A data message is whole, which these bytes are, and tells this of those after it.
    pub(crate) fn add_message(&mut self, bytes: &[u8], tells: Tells) -> Result<(), Misfit>
        requires same_records { self.old.before ≡ reverse self.old.records }
        requires message { (v : Message Global)
            × IsRecord (known self.old.before) (Data v) bytes.now
            × TellsNext self.old.before v tells }
        ensures ok { OnOk result ((v : Message Global)
            → IsRecord (known self.old.before) (Data v) bytes.now
            → self.new ≡ with_record self.old (Data v)) }
        ensures err { IfErr result (λ misfit. misfit ≡ Misfit.NoMemory) }
    {
        self.part = Part::Nothing;
        self.records
            .push_message(self.before.stream().env(), bytes)?;
        self.before.take_opened(bytes, tells)?;
        Ok(())
    }

    /// This part of a record has come, or all of it.
    fn add_part(&mut self, part: Part) -> Result<(), Misfit>
        requires same_records { self.old.before ≡ reverse self.old.records }
        requires fits { FitsOnceWhole self.old.before part }
        ensures ok { OnOk result (self.new ≡ settled self.old part) }
        ensures err { IfErr result (λ misfit. misfit ≡ Misfit.NoMemory) }
    {
        match part {
            Part::Nothing => self.part = Part::Nothing,
            Part::Definition(definition) => {
                if is_whole(&definition) {
                    return self.add_record(Record::Define(definition_of(definition)));
                }
                self.part = Part::Definition(definition);
            }
            Part::Message(values) => {
                if is_whole_message(self.before.stream(), &values) {
                    return self.add_record(Record::Values(values));
                }
                self.part = Part::Message(values);
            }
        }
        Ok(())
    }

    /// Whether a file may end here.
    pub(crate) fn is_between_records(&self) -> bool
        ensures { IsTrue result ↔ (self.now.part ≡ Part.Nothing) }
    {
        match self.part {
            Part::Nothing => true,
            _ => false,
        }
    }

    /// Takes the next row. It isn't one in which the file ends.
    #[inline(never)]
    pub(crate) fn take_row(&mut self, reader: &mut ValueReader, cells: &Cells) -> Result<(), Misfit>
        requires sound { IsSoundFile self.old }
        requires kind { self.old.part ≡ Part.Nothing → cells.now.kind.now ≡ codes "end" → ⊥ }
        ensures ok { OnOk result (FileStep self.old (row_of cells.now) self.new) }
        ensures err { IfErr result (IsMisfit (CanStandNext self.old.before self.old.part)
            (row_of cells.now)) }
    {
        let part = mem::replace(&mut self.part, Part::Nothing);
        let part = next_part(reader, self.before.stream(), part, cells)?;
        self.add_part(part)
    }
}
