//! Takes records whose rows stand as `to_csv` writes them straight from a text. What takes a record returns how many rows it has and
//! what is left of the text. It may return none where a text begins with a record, and then nothing changes.
ghost use Rattle.std.specs.Prelude.{◌≡◌, ◌+◌, IfOk, IfSome, IsNone, length, reverse};
ghost use Rattle.fit_record.specs.Environment.{dev_defs};
ghost use Rattle.fit_csv.specs.inner.Judging.{FileTakesRows, TakesRows};
ghost use Rattle.fit_csv.specs.inner.SoundChain.{IsSoundChain};

use crate::from::chain::Chain;
use crate::from::misfit::Misfit;
use crate::from::open_file::{OpenFile, Part};
use crate::from::ranges::is_in_range;
use fit_record::{MessageDef, Record};
use fit_rows::MessageReader;
use fit_texts::words::dev_slice;

/// How many rows a definition has.
fn definition_rows(d: &MessageDef) -> u64
    ensures { result ≡ 1 + length d.now.fields + length (dev_defs d.now.dev) }
{
    1 + d.fields.as_slice().len() as u64 + dev_slice(&d.dev).len() as u64
}

/// Takes the definition message with whose rows a text begins into a file.
fn take_definition<'a>(
    file: &mut OpenFile,
    reader: &mut MessageReader,
    text: &'a [u8],
) -> Result<Option<(u64, &'a [u8])>, Misfit>
    requires between { file.old.part ≡ Part.Nothing }
    requires same_records { file.old.before ≡ reverse file.old.records }
    ensures rows { IfOk result (λ found. IfSome found (λ p.
        FileTakesRows text.now p.1.now p.0 file.old file.new)) }
    ensures same { IfOk result (λ found. IsNone found → file.new ≡ file.old) }
{
    let Some((definition, rest)) = reader.whole_definition(file.before.stream(), text)? else {
        return Ok(None);
    };
    let count = definition_rows(&definition);
    let record_ = Record::Define(definition);
    is_in_range(&record_);
    file.add_record(record_)?;
    Ok(Some((count, rest)))
}

/// Takes the data message with whose rows a text begins into a file.
fn take_message<'a>(
    file: &mut OpenFile,
    reader: &mut MessageReader,
    text: &'a [u8],
) -> Result<Option<(u64, &'a [u8])>, Misfit>
    requires between { file.old.part ≡ Part.Nothing }
    requires same_records { file.old.before ≡ reverse file.old.records }
    ensures rows { IfOk result (λ found. IfSome found (λ p.
        FileTakesRows text.now p.1.now p.0 file.old file.new)) }
    ensures same { IfOk result (λ found. IsNone found → file.new ≡ file.old) }
{
    let Some(message) = reader.whole_message(&mut file.before, text)? else {
        return Ok(None);
    };
    file.add_message(reader.bytes(), message.tells)?;
    Ok(Some((message.rows, message.left)))
}

/// Takes the record with whose rows a text begins into a file. Within a record it takes none.
fn take_whole<'a>(
    file: &mut OpenFile,
    reader: &mut MessageReader,
    text: &'a [u8],
) -> Result<Option<(u64, &'a [u8])>, Misfit>
    requires { file.old.before ≡ reverse file.old.records }
    ensures rows { IfOk result (λ found. IfSome found (λ p.
        FileTakesRows text.now p.1.now p.0 file.old file.new)) }
    ensures same { IfOk result (λ found. IsNone found → file.new ≡ file.old) }
{
    if !file.is_between_records() {
        return Ok(None);
    }
    if text.starts_with(b"de") {
        return take_definition(file, reader, text);
    }
    take_message(file, reader, text)
}

/// Takes the record with whose rows a text begins into the current file of a chain.
pub(crate) fn take_record<'a>(
    chain: &mut Chain,
    reader: &mut MessageReader,
    text: &'a [u8],
) -> Result<Option<(u64, &'a [u8])>, Misfit>
    requires { IsSoundChain chain.old }
    ensures rows { IfOk result (λ found. IfSome found (λ p.
        TakesRows text.now p.1.now p.0 chain.old chain.new)) }
    ensures same { IfOk result (λ found. IsNone found → chain.new ≡ chain.old) }
{
    if chain.current.is_none() {
        return Ok(None);
    }
    take_whole(&mut chain.current.file, reader, text)
}
