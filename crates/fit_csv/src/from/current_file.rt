//! The current file of a text.
ghost use Rattle.std.specs.Prelude.{◌≡◌, ◌↔◌, IsTrue, None, Some};
ghost use Rattle.fit_csv.specs.inner.Progress.{file_begun};

use crate::from::open_file::{OpenFile, Part};
use fit_encode::SpelledRecords;
use fit_frame::Header;
use fit_rows::RowStream;
use std::alloc::Global;
use std::marker::Model;

/// The file of a text that hasn't ended, if there is one. It is wide, so it isn't moved: the next one begins in its place. Contracts
/// see it as an option.
#[derive(Drop)]
pub(crate) struct CurrentFile {
    pub is_open: bool,
    /// Where none is open, what is left of the last one.
    pub file: OpenFile,
}

impl Model for CurrentFile {
    ghost use Rattle.std.specs.Prelude.{Option, Some, None, if◌then◌else◌};
    ghost use Rattle.fit_csv.specs.declared.from.open_file.OpenFile.{OpenFile};

    ghost Value = { Option OpenFile };

    ghost view = { λ c. if c.is_open then Some c.file else None };
}

impl CurrentFile {
    /// None has begun.
    pub(crate) fn new(alloc: Global) -> CurrentFile
        ensures { result ≡ None }
    {
        CurrentFile {
            is_open: false,
            file: OpenFile {
                header: Header::new(0, 0),
                records: SpelledRecords::new(alloc),
                before: RowStream::new(alloc),
                part: Part::Nothing,
            },
        }
    }

    /// Whether there is none.
    pub(crate) fn is_none(&self) -> bool
        ensures { IsTrue result ↔ (self.now ≡ None) }
    {
        !self.is_open
    }

    /// A file with this header begins.
    pub(crate) fn begin(&mut self, alloc: Global, header: Header)
        ensures { self.new ≡ Some (file_begun header) }
    {
        self.file.header = header;
        self.file.records = SpelledRecords::new(alloc);
        self.file.before.begin_file();
        self.file.part = Part::Nothing;
        self.is_open = true;
    }
}
