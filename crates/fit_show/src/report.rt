//! The lines of `show`, told event by event.
ghost use Rattle.std.specs.Prelude.{◌≡◌, ◌++◌};

use crate::lines::{put_definition, put_header, put_message};
use crate::template::{LineMaker, LineTemplate};
use fit_frame::Header;
use fit_profile::Stream;
use fit_record::{MessageBytes, MessageDef};
use fit_text_report::{Findings, Moment, TextMaker, TextReport};
use fit_texts::{SHEET_SIZE, Times};
use std::alloc::{AllocError, Global};

impl TextMaker for LineMaker {
    ghost use Rattle.fit_show.specs.ShowLines.{show_line};

    type Found = LineTemplate;

    ghost line = { show_line };

    fn new(alloc: Global) -> Self {
        LineMaker {
            alloc,
            sheet: [0; SHEET_SIZE],
            times: Times::new(alloc),
        }
    }

    fn tells_records_alone() -> bool {
        false
    }

    fn put_header(
        &mut self,
        text: &mut Vec<u8>,
        files: u64,
        header: &Header,
        size: u32,
    ) -> Result<(), AllocError> {
        put_header(text, files + 1, header, size)
    }

    fn put_definition(
        &mut self,
        text: &mut Vec<u8>,
        definition: &MessageDef,
    ) -> Result<(), AllocError> {
        put_definition(text, definition)
    }

    fn put_end(&mut self, _text: &mut Vec<u8>) -> Result<(), AllocError> {
        Ok(())
    }

    fn put_message(
        &mut self,
        text: &mut Vec<u8>,
        found: &mut Findings<LineTemplate>,
        stream: &Stream,
        message: &MessageBytes<'_>,
        moment: Moment,
    ) -> Result<(), AllocError> {
        put_message(text, self, found, stream, message, moment.time)
    }
}

/// Makes the lines of `show` of the events of a chain of files: of each file its header, and a line for each definition message
/// and each data message.
pub type ShowReport = TextReport<LineMaker>;
