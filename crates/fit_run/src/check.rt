//! What `check` writes: a line for each file.
ghost use Rattle.std.specs.Prelude.{◌≡◌, ◌++◌, ℕ, [], List, OnOk, length};
ghost use Rattle.std.specs.Global.{Global};
ghost use Rattle.fit_chain.specs.Events.{Event as Told};
ghost use Rattle.fit_report.specs.Heard.{AreHeard, hear};
ghost use Rattle.fit_run.specs.Lines.{check_line, file_line, Counts};

use crate::lines::put_numbered;
use fit_decode::{Decoder, Event};
use fit_report::Report;
use std::alloc::AllocError;

/// Writes a line at the end of each file: its number, how many bytes of data its header states, and how many records it has.
/// It only counts the events.
#[derive(Drop)]
pub struct CheckReport {
    files: u64,
    data_size: u32,
    records: u64,
}

impl CheckReport {
    /// It has heard nothing.
    pub fn new() -> Self
        ensures { Counts {A = Global} result.files result.data_size result.records [] }
    {
        CheckReport {
            files: 0,
            data_size: 0,
            records: 0,
        }
    }

    /// Counts an event.
    fn note(&mut self, event: &Event)
        requires { (heard : List (Told Global)) ×
            Counts self.old.files self.old.data_size self.old.records heard ×
            AreHeard (hear event.now heard) }
        ensures { (heard : List (Told Global)) →
            Counts self.old.files self.old.data_size self.old.records heard →
            Counts self.new.files self.new.data_size self.new.records (hear event.now heard) }
    {
        match event {
            Event::More => {}
            Event::Header(_, size) => {
                self.data_size = *size;
                self.records = 0;
            }
            Event::Item(_) => self.records += 1,
            Event::FileEnd => self.files += 1,
        }
    }

    /// Puts the line of the file that has just ended.
    fn put_line(&self, text: &mut Vec<u8>) -> Result<(), AllocError>
        ensures { OnOk result (text.new.items ≡
            text.old.items ++ file_line self.now.files self.now.data_size self.now.records) }
    {
        put_numbered(text, "file ", self.files, ": ")?;
        put_numbered(text, "", u64::from(self.data_size), " data bytes, ")?;
        put_numbered(text, "", self.records, " records\n")?;
        Ok(())
    }
}

impl Report for CheckReport {
    ghost has_heard = { λ r heard. Counts r.files r.data_size r.records heard };

    ghost line = { check_line };

    fn tell(&mut self, event: &Event, text: &mut Vec<u8>) -> Result<(), AllocError> {
        self.note(event);
        match event {
            Event::FileEnd => self.put_line(text),
            Event::More => Ok(()),
            Event::Header(..) => Ok(()),
            Event::Item(_) => Ok(()),
        }
    }

    fn skip(
        &mut self,
        decoder: &mut Decoder,
        piece: &[u8],
        text: &mut Vec<u8>,
    ) -> Result<usize, AllocError> {
        let (used, count) = decoder.skip_records(piece);
        self.records += count;
        Ok(used)
    }
}
