//! The files of a chain, of which some blocks have come.
ghost use Rattle.std.specs.Prelude.{◌≡◌, ◌↔◌, ◌<◌, ◌∷◌, ◌++◌, [], None, IfErr, IsSomeAnd, IsTrue, OnOk, Some, length, replicate};
ghost use Rattle.fit_encode.specs.Encoding.{file_of};
ghost use Rattle.fit_frame.specs.Header.{FormFits};
ghost use Rattle.fit_from_messages.specs.SaysChain.{IsBlock, after, nothing_said, reason};
ghost use Rattle.fit_from_messages.specs.declared.misfit.Misfit.TheVariants.{NoMemory};
ghost use Rattle.fit_from_messages.specs.inner.Chains.{IsGoodChain, said_yet};
ghost use Rattle.fit_from_messages.specs.Misfits.{IsMisfitBlock};
ghost use Rattle.fit_from_messages.specs.inner.OpenFiles.{IsGoodFile, begun_of};

use crate::BlockReason;
use crate::file::{OpenFile, SlotLists};
use crate::header::{header_in, header_stands};
use crate::misfit::Misfit;
use crate::slot::Slots;
use fit_encode::{SpelledFiles, SpelledRecords};
use fit_frame::Header;
use fit_record::Env;
use std::alloc::{AllocError, Global};
use std::marker::Model;

/// The file that has begun and not ended, if there is one. It is wide, so it isn't moved: the next one begins in its place. Contracts see
/// it as an option.
#[derive(Drop)]
pub(crate) struct CurrentFile {
    pub is_open: bool,
    /// Where none is open, what is left of the last one.
    pub file: OpenFile,
}

impl Model for CurrentFile {
    ghost use Rattle.std.specs.Prelude.{Option, Some, None, if◌then◌else◌};
    ghost use Rattle.fit_from_messages.specs.declared.file.OpenFile.{OpenFile};

    ghost Value = { Option OpenFile };

    ghost view = { λ c. if c.is_open then Some c.file else None };
}

/// The lists of a file in which nothing is defined.
fn no_slots(alloc: Global) -> SlotLists
    ensures { result ≡ replicate 16 [] }
{
    [
        Slots::none(alloc),
        Slots::none(alloc),
        Slots::none(alloc),
        Slots::none(alloc),
        Slots::none(alloc),
        Slots::none(alloc),
        Slots::none(alloc),
        Slots::none(alloc),
        Slots::none(alloc),
        Slots::none(alloc),
        Slots::none(alloc),
        Slots::none(alloc),
        Slots::none(alloc),
        Slots::none(alloc),
        Slots::none(alloc),
        Slots::none(alloc),
    ]
}

impl CurrentFile {
    /// None has begun.
    fn new(alloc: Global) -> CurrentFile
        ensures { result ≡ None }
    {
        CurrentFile {
            is_open: false,
            file: OpenFile {
                header: Header::new(0, 0),
                records: SpelledRecords::new(alloc),
                env: Env::new(alloc),
                slots: no_slots(alloc),
                message: Vec::new(alloc),
            },
        }
    }

    /// Whether there is none.
    fn is_none(&self) -> bool
        ensures { IsTrue result ↔ (self.now ≡ None) }
    {
        !self.is_open
    }

    /// A file with this header begins.
    fn begin(&mut self, alloc: Global, header: Header)
        requires { FormFits header }
        ensures begun { IsSomeAnd self.new (λ f. begun_of f
            ≡ record { header = header; records = []; slots = replicate 16 [] }) }
        ensures sound { IsSomeAnd self.new IsGoodFile }
    {
        self.file.header = header;
        self.file.records = SpelledRecords::new(alloc);
        self.file.env = Env::new(alloc);
        self.file.slots = no_slots(alloc);
        self.is_open = true;
    }
}

/// The files of a chain that are whole, and the one that isn't.
#[derive(Drop)]
pub(crate) struct Chain {
    pub files: SpelledFiles,
    pub current: CurrentFile,
}

impl Chain {
    /// Nothing has come.
    pub(crate) fn new(alloc: Global) -> Chain
        ensures nothing { said_yet result ≡ nothing_said }
        ensures sound { IsGoodChain result }
    {
        Chain {
            files: SpelledFiles::new(alloc),
            current: CurrentFile::new(alloc),
        }
    }

    /// Takes the block in which a file begins.
    #[inline(never)]
    fn begin_file(&mut self, alloc: Global, block: &[u8]) -> Result<(), Misfit>
        requires sound { IsGoodChain self.old }
        requires none { self.old.current ≡ None }
        requires block { IsBlock block.now }
        ensures stands { OnOk result (reason (said_yet self.old) block.now ≡ None) }
        ensures after { OnOk result (said_yet self.new ≡ after (said_yet self.old) block.now) }
        ensures sound { OnOk result (IsGoodChain self.new) }
        ensures err { IfErr result (IsMisfitBlock (reason (said_yet self.old) block.now)) }
        ensures memory { IfErr result (λ misfit. misfit ≡ NoMemory → ⊥) }
    {
        if block[4] != 1 || !self.files.has_room() {
            return Err(Misfit::Block(BlockReason::Kind));
        }
        if !header_stands(block) {
            return Err(Misfit::Block(BlockReason::Header));
        }
        self.current.begin(alloc, header_in(block));
        Ok(())
    }

    /// Ends the file that has begun.
    #[inline(never)]
    fn end_file(&mut self) -> Result<(), AllocError>
        requires { IsSomeAnd self.old.current IsGoodFile }
        ensures files { OnOk result (IsSomeAnd self.old.current (λ f.
            self.new.files ≡ self.old.files ++ file_of f.header f.records ∷ [])) }
        ensures current { OnOk result (self.new.current ≡ None) }
    {
        let file = &mut self.current.file;
        self.files.push(&file.header, &mut file.records)?;
        self.current.is_open = false;
        Ok(())
    }

    /// Takes a block in a file that has begun.
    fn go_on(&mut self, alloc: Global, block: &[u8]) -> Result<(), Misfit>
        requires sound { IsGoodChain self.old }
        requires some { self.old.current ≡ None → ⊥ }
        requires block { IsBlock block.now }
        ensures stands { OnOk result (reason (said_yet self.old) block.now ≡ None) }
        ensures after { OnOk result (said_yet self.new ≡ after (said_yet self.old) block.now) }
        ensures sound { OnOk result (IsGoodChain self.new) }
        ensures err { IfErr result (IsMisfitBlock (reason (said_yet self.old) block.now)) }
    {
        match block[4] {
            2 => self.current.file.take_definition(alloc, block),
            3 => self.current.file.take_message(block),
            4 => {
                self.end_file()?;
                Ok(())
            }
            _ => Err(Misfit::Block(BlockReason::Kind)),
        }
    }

    /// Takes the next block.
    pub(crate) fn take_block(&mut self, alloc: Global, block: &[u8]) -> Result<(), Misfit>
        requires sound { IsGoodChain self.old }
        requires block { IsBlock block.now }
        ensures stands { OnOk result (reason (said_yet self.old) block.now ≡ None) }
        ensures after { OnOk result (said_yet self.new ≡ after (said_yet self.old) block.now) }
        ensures sound { OnOk result (IsGoodChain self.new) }
        ensures err { IfErr result (IsMisfitBlock (reason (said_yet self.old) block.now)) }
        ensures memory { IfErr result (λ misfit. misfit ≡ NoMemory
            → self.old.current ≡ None → ⊥) }
    {
        if self.current.is_none() {
            self.begin_file(alloc, block)
        } else {
            self.go_on(alloc, block)
        }
    }

    /// Whether blocks may end here.
    pub(crate) fn is_whole(&self) -> bool
        ensures { IsTrue result ↔ ((self.now.current ≡ None) × (0 < length self.now.files)) }
    {
        self.current.is_none() && !self.files.is_empty()
    }
}
