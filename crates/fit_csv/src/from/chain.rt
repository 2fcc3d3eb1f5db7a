//! The files of a chain, of which some rows have come.
ghost use Rattle.std.specs.Prelude.{◌≡◌, ◌↔◌, IfErr, IsTrue, None, OnOk, Some, codes};
ghost use Rattle.fit_csv.specs.declared.from.chain.Chain.{Chain};
ghost use Rattle.fit_csv.specs.declared.from.open_file.OpenFile.{OpenFile};
ghost use Rattle.fit_csv.specs.declared.from.open_file.Part.{Part};
ghost use Rattle.fit_csv.specs.inner.Misfits.{IsMisfit};
ghost use Rattle.fit_csv.specs.inner.Progress.{ChainStep, nothing_yet};
ghost use Rattle.fit_csv.specs.inner.Seven.{row_of};
ghost use Rattle.fit_csv.specs.inner.SoundChain.{IsSoundChain};

use crate::from::cells::{Cells, ValueReader, same};
use crate::from::current_file::CurrentFile;
use crate::from::header::{file_end, file_header};
use crate::from::misfit::Misfit;
use fit_encode::SpelledFiles;
use std::alloc::Global;

/// The files of a chain that are whole, and the one that isn't.
#[derive(Drop)]
pub(crate) struct Chain {
    pub files: SpelledFiles,
    pub current: CurrentFile,
}

impl Chain {
    /// Nothing has come.
    pub(crate) fn new(alloc: Global) -> Chain
        ensures { result ≡ nothing_yet }
    {
        Chain {
            files: SpelledFiles::new(alloc),
            current: CurrentFile::new(alloc),
        }
    }

    /// Takes the row in which a file begins.
    #[inline(never)]
    fn begin_file(&mut self, alloc: Global, cells: &Cells) -> Result<(), Misfit>
        requires none { self.old.current ≡ None }
        ensures ok { OnOk result (ChainStep self.old (row_of cells.now) self.new) }
        ensures err { IfErr result (IsMisfit (λ r. (t : Chain) × ChainStep self.old r t)
            (row_of cells.now)) }
    {
        if !self.files.has_room() {
            return Err(Misfit::Kind);
        }
        if !same(cells.kind, b"file") {
            return Err(Misfit::Kind);
        }
        let header = file_header(alloc, cells)?;
        self.current.begin(alloc, header);
        Ok(())
    }

    /// Whether the row is one in which the current file may end.
    fn may_end(&self, cells: &Cells) -> bool
        ensures { IsTrue result ↔ ((f : OpenFile) × (self.now.current ≡ Some f)
            × (f.part ≡ Part.Nothing) × (cells.now.kind.now ≡ codes "end")) }
    {
        self.current.is_open && self.current.file.is_between_records() && same(cells.kind, b"end")
    }

    /// Takes the row in which the current file ends.
    #[inline(never)]
    fn end_file(&mut self, cells: &Cells) -> Result<(), Misfit>
        requires { (f : OpenFile) × (self.old.current ≡ Some f) × (f.part ≡ Part.Nothing)
            × (cells.now.kind.now ≡ codes "end") }
        ensures ok { OnOk result (ChainStep self.old (row_of cells.now) self.new) }
        ensures err { IfErr result (IsMisfit (λ r. (t : Chain) × ChainStep self.old r t)
            (row_of cells.now)) }
    {
        file_end(cells)?;
        let file = &mut self.current.file;
        self.files.push(&file.header, &mut file.records)?;
        self.current.is_open = false;
        Ok(())
    }

    /// Takes the next row.
    pub(crate) fn take_row(&mut self, reader: &mut ValueReader, cells: &Cells) -> Result<(), Misfit>
        requires { IsSoundChain self.old }
        ensures ok { OnOk result (ChainStep self.old (row_of cells.now) self.new) }
        ensures err { IfErr result (IsMisfit (λ r. (t : Chain) × ChainStep self.old r t)
            (row_of cells.now)) }
    {
        if self.may_end(cells) {
            return self.end_file(cells);
        }
        if self.current.is_none() {
            return self.begin_file(reader.alloc, cells);
        }
        self.current.file.take_row(reader, cells)
    }
}
