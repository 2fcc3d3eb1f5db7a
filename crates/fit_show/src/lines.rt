//! The lines of headers, definition messages and data messages.
ghost use Rattle.std.specs.Prelude.{◌≡◌, ◌++◌, ◌∷◌, [], OnOk, codes, decimal};
ghost use Rattle.fit_record.specs.MessageBytes.{message_in};
ghost use Rattle.fit_record.specs.declared.message.Record.TheVariants.{Values as Data};
ghost use Rattle.fit_profile.specs.Opened.{IsOpened};
ghost use Rattle.fit_profile.specs.Times as times;
ghost use Rattle.fit_show.specs.ShowLines.{definition_line, header_line, joined, record_line, versions_text};
ghost use Rattle.fit_texts.specs.Words as words;
ghost use Rattle.fit_text_report.specs.Current.{AreCurrent};
ghost use Rattle.fit_texts.specs.MessageKeys.{key_of};

use crate::fields::put_words;
use crate::template::{LineMaker, LineTemplate};
use fit_frame::Header;
use fit_profile::{Stream, message_label};
use fit_record::{MessageBytes, MessageDef};
use fit_shown::ItemBytes;
use fit_text_report::Findings;
use fit_texts::words::{dev_slice, order_word, sum_word};
use itoa::Buffer;
use std::alloc::AllocError;

/// Puts the size and the versions of a header.
fn put_versions(text: &mut Vec<u8>, header: &Header) -> Result<(), AllocError>
    ensures { OnOk result (text.new.items ≡ text.old.items ++ versions_text header.now) }
{
    let mut sizes = Buffer::new();
    let mut protocols = Buffer::new();
    let mut profiles = Buffer::new();
    let words = [
        b"header ".as_slice(),
        sizes.format(header.size).as_bytes(),
        b", protocol ".as_slice(),
        protocols.format(header.protocol).as_bytes(),
        b", profile ".as_slice(),
        profiles.format(header.profile).as_bytes(),
    ];
    put_words(text, words.as_slice())
}

/// Puts how many bytes of data a file has, and what its header says of its own sum.
fn put_data_size(text: &mut Vec<u8>, header: &Header, size: u32) -> Result<(), AllocError>
    ensures { OnOk result (text.new.items ≡ text.old.items
        ++ joined (codes ", data " ∷ decimal size ∷ codes ", " ∷ words.sum_word header.now.sum
        ∷ codes "\n" ∷ [])) }
{
    let mut sizes = Buffer::new();
    let words = [
        b", data ".as_slice(),
        sizes.format(size).as_bytes(),
        b", ".as_slice(),
        sum_word(header.sum).as_bytes(),
        b"\n".as_slice(),
    ];
    put_words(text, words.as_slice())
}

/// Puts the line of the header of a file, which is this one of the input and has that many bytes of data.
pub(crate) fn put_header(
    text: &mut Vec<u8>,
    file: u64,
    header: &Header,
    size: u32,
) -> Result<(), AllocError>
    ensures { OnOk result (text.new.items ≡ text.old.items ++ header_line file header.now size) }
{
    let mut files = Buffer::new();
    let words = [
        b"file ".as_slice(),
        files.format(file).as_bytes(),
        b": ".as_slice(),
    ];
    put_words(text, words.as_slice())?;
    put_versions(text, header)?;
    put_data_size(text, header, size)?;
    Ok(())
}

/// Puts the line of a definition message.
pub(crate) fn put_definition(text: &mut Vec<u8>, definition: &MessageDef) -> Result<(), AllocError>
    ensures { OnOk result (text.new.items ≡ text.old.items ++ definition_line definition.now) }
{
    let mut locals = Buffer::new();
    let mut fields = Buffer::new();
    let mut dev = Buffer::new();
    let label = message_label(definition.global);
    let words = [
        b"  define ".as_slice(),
        locals.format(definition.local).as_bytes(),
        b" ".as_slice(),
        label.as_str().as_bytes(),
        b" ".as_slice(),
        order_word(definition.order).as_bytes(),
        b" ".as_slice(),
        fields.format(definition.fields.len()).as_bytes(),
        b" ".as_slice(),
        dev.format(dev_slice(&definition.dev).len()).as_bytes(),
        b"\n".as_slice(),
    ];
    put_words(text, words.as_slice())
}

/// Puts the line of a data message that is opened after the records of a stream, by its time.
pub(crate) fn put_message(
    text: &mut Vec<u8>,
    maker: &mut LineMaker,
    found: &mut Findings<LineTemplate>,
    stream: &Stream,
    message: &MessageBytes<'_>,
    time: Option<u32>,
) -> Result<(), AllocError>
    requires opened { IsOpened stream.now message.now }
    requires time { time ≡ times.time stream.now (Data (message_in message.now)) }
    requires current { AreCurrent key_of found.old stream.now }
    ensures line { OnOk result (text.new.items
        ≡ text.old.items ++ record_line stream.now (Data (message_in message.now))) }
    ensures current { AreCurrent key_of found.new stream.now }
{
    found.find(&mut maker.alloc, stream, message.local, message.defined)?;
    let Some(template) = found.get(message.local) else {
        unreachable!()
    };
    let mut items = ItemBytes {
        alloc: maker.alloc,
        order: message.defined.definition.order,
        rest: message.body,
    };
    template.put(text, &mut maker.sheet, &mut maker.times, time, &mut items)
}
