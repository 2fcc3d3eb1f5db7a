//! Records whose rows stand as `to_csv` writes them, taken whole: what a text shows is guessed, and the rows of the guess are compared
//! with it.
ghost use Rattle.std.specs.Prelude.{◌≡◌, ◌++◌, [], IfOk, IfSome};
ghost use Rattle.std.specs.Global.{Global};
ghost use Rattle.fit_record.specs.MessageBytes.{message_in};
ghost use Rattle.fit_record.specs.declared.message.Record.TheVariants.{Values as Data};
ghost use Rattle.fit_record.specs.declared.message.Values.{Values as Message};
ghost use Rattle.fit_record.specs.Records.{DefinitionFits, Fits, IsRecord};
ghost use Rattle.fit_profile.specs.Looks.{known};
ghost use Rattle.fit_profile.specs.Opened.{IsOpened};
ghost use Rattle.fit_cells.specs.Rows.{csv_text};
ghost use Rattle.fit_rows.specs.ChainRows.{definition_rows, record_rows};
ghost use Rattle.fit_rows.specs.WholeMessages.{IsWholeMessage};
ghost use Rattle.fit_text_report.specs.Current.{AreCurrent};
ghost use Rattle.fit_texts.specs.MessageKeys.{key_of};

use crate::likely::likely_definition;
use crate::maker::{RowMaker, RowTools};
use crate::message::put_values;
use crate::stream::RowStream;
use crate::template::Template;
use crate::template::likely::likely_short_number;
use fit_profile::{Stream, Tells};
use fit_record::{MessageBytes, MessageDef, Record};
use fit_text_report::Findings;
use fit_texts::after_beginning;
use std::alloc::{AllocError, Global};
use std::marker::Model;

/// What is left of a text after the rows of a definition message, where it can stand and the text begins with its rows as `to_csv` writes
/// them.
fn after_definition<'a>(
    maker: &mut RowMaker,
    written: &mut Vec<u8>,
    before: &Stream,
    record_: &Record,
    text: &'a [u8],
) -> Result<Option<&'a [u8]>, AllocError>
    ensures fits { IfOk result (λ found. IfSome found (λ left.
        Fits (known before.now) record_.now)) }
    ensures text { IfOk result (λ found. IfSome found (λ left.
        text.now ≡ csv_text (record_rows before.now record_.now) ++ left.now)) }
{
    if before.env().fits(record_).is_err() {
        return Ok(None);
    }
    let Record::Define(definition) = record_ else {
        return Ok(None);
    };
    written.clear();
    maker.definitions.put(written, definition)?;
    let rows = written.as_slice();
    Ok(after_beginning(text, rows))
}

/// Puts the bytes of the data message whose rows a text may show after others, and returns what may come after its last value. Nothing is
/// claimed of them.
fn likely_message<'a>(
    tools: &mut RowTools,
    templates: &mut Findings<Template>,
    written: &mut Vec<u8>,
    bytes: &mut Vec<u8>,
    before: &Stream,
    text: &'a [u8],
) -> Option<&'a [u8]>
    requires { AreCurrent key_of templates.old before.now }
    ensures { AreCurrent key_of templates.new before.now }
{
    let local = likely_short_number(text.strip_prefix(b"data,")?)?;
    let defined = before.env().defined(local)?;
    let pen = &mut tools.pen;
    templates.find(pen, before, local, defined).ok()?;
    let template = templates.get(local)?;
    let order = defined.definition.order;
    template.likely(pen.alloc, written, &mut pen.value, order, bytes, text)
}

/// A data message whose rows a text begins with, as `to_csv` writes them.
#[derive(Drop)]
pub struct WholeMessage<'a> {
    /// How many rows it has.
    pub rows: u64,
    /// What it tells of those after it.
    pub tells: Tells,
    /// What is left of the text after its rows.
    pub left: &'a [u8],
}

/// The data message that is opened after the records of a stream, where a text begins with its rows as `to_csv` writes them.
fn opened_whole<'a>(
    tools: &mut RowTools,
    templates: &mut Findings<Template>,
    written: &mut Vec<u8>,
    before: &Stream,
    message: &MessageBytes<'_>,
    text: &'a [u8],
) -> Result<Option<WholeMessage<'a>>, AllocError>
    requires opened { IsOpened before.now message.now }
    requires current { AreCurrent key_of templates.old before.now }
    ensures current { AreCurrent key_of templates.new before.now }
    ensures whole { IfOk result (λ found. IfSome found
        (IsWholeMessage before.now (message_in message.now) text.now)) }
{
    let local = message.local;
    templates.find(&mut tools.pen, before, local, message.defined)?;
    let Some(template) = templates.get(local) else {
        unreachable!()
    };
    written.clear();
    put_values(written, tools, template, before, message)?;
    let Some(left) = after_beginning(text, written.as_slice()) else {
        return Ok(None);
    };
    Ok(Some(WholeMessage {
        rows: template.row_count(),
        tells: before.tells(message),
        left,
    }))
}

/// The data message that the bytes are after the records of a stream, where they are one and a text begins with its rows as `to_csv`
/// writes them.
fn whole_in<'a>(
    tools: &mut RowTools,
    templates: &mut Findings<Template>,
    written: &mut Vec<u8>,
    before: &Stream,
    bytes: &[u8],
    text: &'a [u8],
) -> Result<Option<WholeMessage<'a>>, AllocError>
    requires { AreCurrent key_of templates.old before.now }
    ensures current { AreCurrent key_of templates.new before.now }
    ensures read { IfOk result (λ found. IfSome found (λ m. (v : Message Global)
        × IsRecord (known before.now) (Data v) bytes.now
        × IsWholeMessage before.now v text.now m)) }
{
    let Some(message) = before.env().message_bytes(bytes) else {
        return Ok(None);
    };
    let size = 1 + message.body.len();
    if size != bytes.len() {
        return Ok(None);
    }
    opened_whole(tools, templates, written, before, &message, text)
}

/// Reads records from the rows that `to_csv` writes of them. What it keeps from one record to the next only saves time. Clauses see the
/// bytes of the data message that was read last.
#[derive(Drop)]
pub struct MessageReader {
    maker: RowMaker,
    /// The memory of the rows of a guess.
    written: Vec<u8>,
    /// The bytes of a data message.
    bytes: Vec<u8>,
}

impl Model for MessageReader {
    ghost use Rattle.std.specs.Prelude.{ℕ, List};

    ghost Value = { List ℕ };

    ghost view = { λ r. r.bytes.items };
}

impl MessageReader {
    /// It has read nothing.
    pub fn new(alloc: Global) -> Self
        ensures { result ≡ [] }
    {
        MessageReader {
            maker: RowMaker::new(alloc),
            written: Vec::new(alloc),
            bytes: Vec::new(alloc),
        }
    }

    /// The definition message after the records of a stream with whose rows a text begins, as `to_csv` writes them, and what is left of
    /// the text. There may be one where `None` is returned. Memory that is refused is an error.
    pub fn whole_definition<'a>(
        &mut self,
        before: &Stream,
        text: &'a [u8],
    ) -> Result<Option<(MessageDef, &'a [u8])>, AllocError>
        ensures fits { IfOk result (λ found. IfSome found (λ p. DefinitionFits p.0)) }
        ensures text { IfOk result (λ found. IfSome found (λ p.
            text.now ≡ csv_text (definition_rows p.0) ++ p.1.now)) }
    {
        let Some(definition) = likely_definition(self.maker.tools.pen.alloc, text) else {
            return Ok(None);
        };
        let record_ = Record::Define(definition);
        let maker = &mut self.maker;
        let Some(left) = after_definition(maker, &mut self.written, before, &record_, text)? else {
            return Ok(None);
        };
        match record_ {
            Record::Define(definition) => Ok(Some((definition, left))),
            Record::Values(_values) => Ok(None),
        }
    }

    /// The data message after the records of a stream with whose rows a text begins, as `to_csv` writes them: `bytes` has the message
    /// then. There may be one where `None` is returned. Memory that is refused is an error.
    pub fn whole_message<'a>(
        &mut self,
        before: &mut RowStream,
        text: &'a [u8],
    ) -> Result<Option<WholeMessage<'a>>, AllocError>
        ensures read { IfOk result (λ found. IfSome found (λ m. (v : Message Global)
            × IsRecord (known before.old) (Data v) self.new
            × IsWholeMessage before.old v text.now m)) }
        ensures unchanged { before.new ≡ before.old }
    {
        let bytes = &mut self.bytes;
        bytes.clear();
        let tools = &mut self.maker.tools;
        let templates = &mut before.templates;
        let stream = &before.stream;
        let written = &mut self.written;
        if likely_message(tools, templates, written, bytes, stream, text).is_none() {
            return Ok(None);
        }
        whole_in(tools, templates, written, stream, bytes.as_slice(), text)
    }

    /// The bytes of the data message that was read last.
    pub fn bytes(&self) -> &[u8]
        ensures { result.now ≡ self.now }
    {
        self.bytes.as_slice()
    }
}
