//! A document with a long end, into a sink that takes no memory.
ghost use Rattle.std.specs.Prelude.{◌≡◌, ◌++◌, ◌∷◌, []};
ghost use Rattle.test_sweep.specs.declared.document.TheConstants.{HALF};

use fit_decode::Event;
use fit_encode::CutSink;
use fit_report::{Document, Heard, Report, ReportFault, report_document};
use std::alloc::AllocError;
use std::io;

/// What comes twice after all events: together 64 KB, as much as a report takes at once.
const HALF: &[u8] = &[b'!'; 32_768];

/// Puts a dot for each event.
#[derive(Drop)]
struct Dots {
    heard: Heard,
}

impl Report for Dots {
    ghost has_heard = { λ s heard. s.heard ≡ heard };

    ghost line = { λ heard x. 46 ∷ [] };

    fn tell(&mut self, event: &Event, text: &mut Vec<u8>) -> Result<(), AllocError> {
        match event {
            Event::More => {}
            Event::Header(..) => text.push(b'.')?,
            Event::Item(_) => text.push(b'.')?,
            Event::FileEnd => text.push(b'.')?,
        }
        self.heard.add(event);
        Ok(())
    }
}

impl Document for Dots {
    ghost ending = { λ heard. HALF.now ++ HALF.now };

    fn end(&mut self, text: &mut Vec<u8>) -> Result<(), AllocError> {
        text.extend_from_slice(HALF)?;
        text.extend_from_slice(HALF)
    }
}

/// Prints a result, and the text that went out.
fn tell(rt: &HostRuntime, answer: Result<(), ReportFault>, text: &[u8]) -> io::Result<()> {
    let Ok(text) = std::str::from_utf8(text) else {
        return println!(rt; "no text");
    };
    match answer {
        Ok(()) => println!(rt; "{text}"),
        Err(ReportFault::NoMemory) => println!(rt; "out of memory: {text}"),
        Err(fault) => println!(rt; "{fault:?}: {text}"),
    }
}

/// A dot for each event, and the end.
pub fn with_a_long_end(rt: &HostRuntime, input: &[u8]) -> io::Result<()> {
    let mut source = input;
    let mut sink = CutSink::<66_000>::new(66_000);
    let mut reporter = Dots {
        heard: Heard::new(),
    };
    let answer = report_document(rt.alloc(), &mut source, &mut sink, &mut reporter);
    tell(rt, answer, sink.bytes())
}
