//! The rows of events, told one after another.
ghost use Rattle.std.specs.Prelude.{◌≡◌, ◌++◌};

use crate::file::{put_end_row, put_file_row};
use crate::maker::RowMaker;
use crate::message::put_message;
use crate::template::Template;
use fit_frame::Header;
use fit_profile::Stream;
use fit_record::{MessageBytes, MessageDef};
use fit_text_report::{Findings, Moment, TextMaker, TextReport};
use std::alloc::{AllocError, Global};

/// The first line of all rows.
pub const ROWS_LINE: &[u8] = b"row,a,b,c,d,e,f\n";

impl TextMaker for RowMaker {
    ghost use Rattle.fit_rows.specs.EventTexts.{csv_line};

    type Found = Template;

    ghost line = { csv_line };

    fn new(alloc: Global) -> Self {
        RowMaker::new(alloc)
    }

    fn tells_records_alone() -> bool {
        false
    }

    fn put_header(
        &mut self,
        text: &mut Vec<u8>,
        _files: u64,
        header: &Header,
        _size: u32,
    ) -> Result<(), AllocError> {
        let pen = &mut self.tools.pen;
        put_file_row(text, &mut pen.writer, &mut pen.value, header)
    }

    fn put_definition(
        &mut self,
        text: &mut Vec<u8>,
        definition: &MessageDef,
    ) -> Result<(), AllocError> {
        self.definitions.put(text, definition)
    }

    fn put_end(&mut self, text: &mut Vec<u8>) -> Result<(), AllocError> {
        put_end_row(text)
    }

    fn put_message(
        &mut self,
        text: &mut Vec<u8>,
        found: &mut Findings<Template>,
        stream: &Stream,
        message: &MessageBytes<'_>,
        _moment: Moment,
    ) -> Result<(), AllocError> {
        put_message(text, &mut self.tools, found, stream, message)
    }
}

/// Makes the rows of the events of a chain of files, as `to_csv` writes them after the first line.
pub type CsvReport = TextReport<RowMaker>;
