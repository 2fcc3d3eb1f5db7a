//! Streams of any kind.
ghost use Rattle.std.specs.Prelude.{◌≡◌, [], None, IfSome};
ghost use Rattle.fit_stream.specs.Flows.{EndsFlow, FeedsFlow};
ghost use Rattle.fit_stream.specs.Streams.{first_for, line_for};

use crate::Kind;
use crate::lane::Lane;
use crate::silent::SilentReport;
use fit_messages::MessagesReport;
use fit_report::ReportFault;
use fit_rows::{CsvReport, ROWS_LINE};
use fit_show::ShowReport;
use fit_table::{TABLE_LINE, TableReport};
use std::alloc::Global;
use std::marker::Model;

/// A lane of each kind.
#[derive(Drop)]
pub(crate) enum Lanes {
    Check(Lane<SilentReport>),
    Show(Lane<ShowReport>),
    Table(Lane<TableReport>),
    Rows(Lane<CsvReport>),
    Messages(Lane<MessagesReport>),
}

/// Checks a chain of FIT files whose bytes come in pieces of any length, and hands out the text that each piece completes.
///
/// Clauses see the kind, and what has flowed through: the bytes fed, all text handed out, and the fault, if there was one.
pub struct ChainStream {
    lanes: Lanes,
}

// A call wherever a stream is dropped.
impl Drop for ChainStream {
    fn drop(self) {
        let ChainStream { lanes: _lanes } = self;
    }
}

impl Model for ChainStream {
    ghost use Rattle.fit_stream.specs.Streams.{StreamNow};

    ghost Value = { StreamNow };

    ghost use Rattle.fit_stream.specs.inner.Kinds.{BeginsSo, stream_now};

    ghost view = { λ s. stream_now s.lanes };

    ghost invariant = { λ s. BeginsSo s.lanes };
}

impl ChainStream {
    /// Nothing was fed, and nothing handed out. `None` where memory is refused.
    #[inline(always)]
    pub fn new(alloc: Global, kind: Kind) -> Option<Self>
        ensures { IfSome result (λ s. s ≡ record {
          kind = kind;
          flow = record { bytes = []; text = []; fault = None };
        }) }
    {
        let lanes = match kind {
            Kind::Check => Lanes::Check(Lane::new(alloc, SilentReport {}, b"")?),
            Kind::Show => Lanes::Show(Lane::new(alloc, ShowReport::new(alloc), b"")?),
            Kind::Table => Lanes::Table(Lane::new(alloc, TableReport::new(alloc), TABLE_LINE)?),
            Kind::Rows => Lanes::Rows(Lane::new(alloc, CsvReport::new(alloc), ROWS_LINE)?),
            Kind::Messages => Lanes::Messages(Lane::new(alloc, MessagesReport::new(alloc), b"")?),
        };
        Some(ChainStream { lanes })
    }

    /// Feeds a piece, and hands out the text of what it completes, with the first line where nothing was handed out before. Returns
    /// how many files have ended.
    ///
    /// `Decode` has the first byte that belongs to no chain, and then the text is that of all before it. `NoMemory` and `Write` where
    /// memory was refused, and then the text is that of some of it. After a fault nothing is fed, no text is handed out, and the fault
    /// is returned again.
    pub fn feed(&mut self, piece: &[u8]) -> (Vec<u8>, Result<u64, ReportFault>)
        ensures kind { self.new.kind ≡ self.old.kind }
        ensures feeds { FeedsFlow (line_for self.old.kind) (first_for self.old.kind)
            self.old.flow self.new.flow piece.now result.0.items result.1 }
    {
        match &mut self.lanes {
            Lanes::Check(lane) => lane.feed(piece),
            Lanes::Show(lane) => lane.feed(piece),
            Lanes::Table(lane) => lane.feed(piece),
            Lanes::Rows(lane) => lane.feed(piece),
            Lanes::Messages(lane) => lane.feed(piece),
        }
    }

    /// Whether the bytes fed are a chain of files, and how many. Hands out the first line where nothing was handed out before. It ends
    /// nothing: more may be fed.
    ///
    /// `Truncated` where the bytes only begin a chain; after a fault of `feed` it is returned again, with no text.
    pub fn finish(&mut self) -> (Vec<u8>, Result<u64, ReportFault>)
        ensures kind { self.new.kind ≡ self.old.kind }
        ensures ends { EndsFlow (line_for self.old.kind) (first_for self.old.kind)
            self.old.flow self.new.flow result.0.items result.1 }
    {
        match &mut self.lanes {
            Lanes::Check(lane) => lane.finish(),
            Lanes::Show(lane) => lane.finish(),
            Lanes::Table(lane) => lane.finish(),
            Lanes::Rows(lane) => lane.finish(),
            Lanes::Messages(lane) => lane.finish(),
        }
    }
}
