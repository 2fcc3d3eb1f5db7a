//! A stream of one kind: a telling with its reporter, and the text that is to be handed out.
ghost use Rattle.std.specs.Prelude.{◌≡◌, ◌++◌, [], None, Some, IfSome};
ghost use Rattle.fit_stream.specs.Flows.{EndsFlow, FeedsFlow};

use fit_encode::{WriteSink, put_all};
use fit_history::History;
use fit_report::{Report, ReportFault, Telling};
use std::alloc::Global;
use std::marker::Model;
use std::mem;

/// Tells the events of the bytes that are fed to a reporter, hands its text out, and remembers the first fault. The text begins with a
/// first line.
pub(crate) struct Lane<R: Report> {
    alloc: Global,
    telling: Telling,
    reporter: R,
    /// The first line, where it wasn't handed out yet.
    sink: WriteSink<Vec<u8>>,
    fault: Option<ReportFault>,
    first: History<u8>,
    fed: History<u8>,
    taken: History<u8>,
}

// A call for each kind of lane: derived, all that each frees would be written out and proved in one function.
impl<R: Report + Drop> Drop for Lane<R> {
    fn drop(self) {
        let Lane {
            taken: _taken,
            fed: _fed,
            first: _first,
            fault: _,
            sink: _sink,
            reporter: _reporter,
            telling: _telling,
            alloc: _,
        } = self;
    }
}

impl<R: Report> Model for Lane<R> {
    ghost use Rattle.fit_stream.specs.inner.Lanes.{IsSoundLane, LaneNow};

    ghost Value = { LaneNow };

    ghost view = { λ l. record {
      first = l.first.items;
      flow = record { bytes = l.fed.items; text = l.taken.items; fault = l.fault };
    } };

    ghost invariant = { λ l. IsSoundLane R.has_heard R.line l.reporter l.telling l.sink.held l.fault
        l.first.items l.fed.items l.taken.items };
}

/// Takes the text out of a sink, for which it leaves an empty one, and notes it.
fn take(alloc: Global, sink: &mut WriteSink<Vec<u8>>, taken: &mut History<u8>) -> Vec<u8>
    ensures text { Some result.items ≡ sink.old.held }
    ensures taken { taken.new.items ≡ taken.old.items ++ result.items }
    ensures none { sink.new.held ≡ Some [] }
{
    let text = mem::replace(sink, WriteSink::new(Vec::new(alloc))).into_inner();
    taken.note(text.as_slice());
    text
}

impl<R: Report + Drop> Lane<R> {
    /// Nothing was fed, and nothing handed out. `None` where there is no memory for the first line.
    pub fn new(alloc: Global, reporter: R, first: &[u8]) -> Option<Self>
        requires { R.has_heard reporter [] }
        ensures { IfSome result (λ l. l ≡ record {
          first = first.now;
          flow = record { bytes = []; text = []; fault = None };
        }) }
    {
        let mut sink = WriteSink::new(Vec::new(alloc));
        if let Err(_) = put_all(&mut sink, first) {
            return None;
        }
        let mut line = History::new();
        line.note(first);
        Some(Lane {
            alloc,
            telling: Telling::new(alloc),
            reporter,
            sink,
            fault: None,
            first: line,
            fed: History::new(),
            taken: History::new(),
        })
    }
}

impl<R: Report> Lane<R> {
    /// Feeds a piece, and hands out the text of what it completes. Returns how many files have ended.
    pub fn feed(&mut self, piece: &[u8]) -> (Vec<u8>, Result<u64, ReportFault>)
        ensures first { self.new.first ≡ self.old.first }
        ensures feeds { FeedsFlow R.line self.old.first self.old.flow self.new.flow piece.now
            result.0.items result.1 }
    {
        if let Some(fault) = self.fault {
            return (Vec::new(self.alloc), Err(fault));
        }
        let told = self.telling.feed(&mut self.reporter, &mut self.sink, piece);
        self.fed.note(piece);
        let text = take(self.alloc, &mut self.sink, &mut self.taken);
        match told {
            Ok(()) => (text, Ok(self.telling.files())),
            Err(fault) => {
                self.fault = Some(fault);
                (text, Err(fault))
            }
        }
    }

    /// Whether the bytes fed are a chain of files, and how many. Hands out the first line where nothing was fed.
    pub fn finish(&mut self) -> (Vec<u8>, Result<u64, ReportFault>)
        ensures first { self.new.first ≡ self.old.first }
        ensures ends { EndsFlow R.line self.old.first self.old.flow self.new.flow
            result.0.items result.1 }
    {
        if let Some(fault) = self.fault {
            return (Vec::new(self.alloc), Err(fault));
        }
        let text = take(self.alloc, &mut self.sink, &mut self.taken);
        match self.telling.finish() {
            Ok(()) => (text, Ok(self.telling.files())),
            Err(fault) => (text, Err(ReportFault::Decode(fault))),
        }
    }
}
