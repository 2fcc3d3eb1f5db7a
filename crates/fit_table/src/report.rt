//! The rows of the table, told one after another.
use crate::columns::Columns;
use crate::maker::{TableMaker, put_by};
use crate::rows::TableRowMaker;
use fit_frame::Header;
use fit_profile::Stream;
use fit_profile::message_number::RECORD;
use fit_record::{MessageBytes, MessageDef};
use fit_text_report::{Findings, Moment, TextMaker, TextReport};
use std::alloc::{AllocError, Global};

impl TextMaker for TableMaker {
    ghost use Rattle.fit_table.specs.EventTexts.{table_text};

    type Found = Columns;

    ghost line = { table_text };

    fn new(alloc: Global) -> Self {
        TableMaker {
            alloc,
            rows: TableRowMaker::new(alloc),
        }
    }

    fn tells_records_alone() -> bool {
        true
    }

    #[tactic(auto, using(fit_cells::proofs::AddedRows::text_none))]
    fn put_header(
        &mut self,
        _text: &mut Vec<u8>,
        _files: u64,
        _header: &Header,
        _size: u32,
    ) -> Result<(), AllocError> {
        Ok(())
    }

    #[tactic(auto, using(fit_cells::proofs::AddedRows::text_none))]
    fn put_definition(
        &mut self,
        _text: &mut Vec<u8>,
        _definition: &MessageDef,
    ) -> Result<(), AllocError> {
        Ok(())
    }

    #[tactic(auto, using(fit_cells::proofs::AddedRows::text_none))]
    fn put_end(&mut self, _text: &mut Vec<u8>) -> Result<(), AllocError> {
        Ok(())
    }

    #[inline(always)]
    fn put_message(
        &mut self,
        text: &mut Vec<u8>,
        found: &mut Findings<Columns>,
        stream: &Stream,
        message: &MessageBytes<'_>,
        moment: Moment,
    ) -> Result<(), AllocError> {
        if message.defined.definition.global != RECORD {
            return Ok(());
        }
        found.find(&mut self.alloc, stream, message.local, message.defined)?;
        let Some(columns) = found.get(message.local) else {
            unreachable!()
        };
        put_by(text, &mut self.rows, columns, stream, message, moment)
    }
}

/// Makes a row of each record message of a chain of files.
pub type TableReport = TextReport<TableMaker>;
