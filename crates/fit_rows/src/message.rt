//! The rows of data messages.
ghost use Rattle.std.specs.Prelude.{◌≡◌, OnOk};
ghost use Rattle.fit_record.specs.MessageBytes.{message_in};
ghost use Rattle.fit_profile.specs.Opened.{IsOpened};
ghost use Rattle.fit_cells.specs.Rows.{HasRows};
ghost use Rattle.fit_rows.specs.ChainRows as rows;
ghost use Rattle.fit_text_report.specs.Current.{AreCurrent};
ghost use Rattle.fit_texts.specs.MessageKeys.{key_of, message_key};

use crate::maker::RowTools;
use crate::template::Template;
use fit_profile::Stream;
use fit_record::MessageBytes;
use fit_shown::ItemBytes;
use fit_text_report::Findings;
use fit_texts::words::header_time;
use std::alloc::AllocError;

/// Puts the rows of a data message that is opened after the records of a stream, by the template of its definition.
pub(crate) fn put_values(
    text: &mut Vec<u8>,
    tools: &mut RowTools,
    template: &Template,
    stream: &Stream,
    message: &MessageBytes<'_>,
) -> Result<(), AllocError>
    requires opened { IsOpened stream.now message.now }
    requires template { template.now
        ≡ message_key stream.now message.now.local message.now.defined.now }
    ensures { OnOk result
        (HasRows (rows.data_rows stream.now (message_in message.now)) text.old text.new) }
{
    let mut items = ItemBytes {
        alloc: tools.pen.alloc,
        order: message.defined.definition.order,
        rest: message.body,
    };
    let offset = message.offset;
    let time = header_time(stream, offset);
    template.put(text, tools, offset, time, &mut items)
}

/// Puts the rows of a data message that is opened after the records of a stream.
pub(crate) fn put_message(
    text: &mut Vec<u8>,
    tools: &mut RowTools,
    found: &mut Findings<Template>,
    stream: &Stream,
    message: &MessageBytes<'_>,
) -> Result<(), AllocError>
    requires opened { IsOpened stream.now message.now }
    requires current { AreCurrent key_of found.old stream.now }
    ensures rows { OnOk result
        (HasRows (rows.data_rows stream.now (message_in message.now)) text.old text.new) }
    ensures current { AreCurrent key_of found.new stream.now }
{
    let local = message.local;
    found.find(&mut tools.pen, stream, local, message.defined)?;
    let Some(template) = found.get(local) else {
        unreachable!()
    };
    put_values(text, tools, template, stream, message)
}
