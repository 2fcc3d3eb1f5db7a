//! Developer fields that are described in a file, as a definition's block says.
ghost use Rattle.std.specs.Prelude.{◌≡◌, ◌⊎◌, ◌≤◌, ◌∷◌, [], IfErr, IfOk, OnOk, false, length, true};
ghost use Rattle.std.specs.List.{AllByRecursion, list_all};
ghost use Rattle.fit_profile.specs.Described.{is_printable};
ghost use Rattle.fit_writer.specs.Describing.{AddsIndex, CanBeSaid, DescribesEach, DescribesField, DescribesForm, DescribesSome, IsAlike, IsDescribedField, IsReadBack, description_reading};
ghost use Rattle.fit_writer.specs.Reading.{entry_naming};
ghost use Rattle.fit_writer.specs.inner.Describing.{AreDescribable, Becomes, IsHalfDescribed, IsListed, IsUndescribed, listed_fields, wanted};
ghost use Rattle.fit_writer.specs.inner.Forms.{some_text};
ghost use Rattle.fit_writer.specs.inner.OpenFiles.{IsGoodOpenFile};
ghost use Rattle.fit_writer.specs.inner.Places.{IsLone, form_of};

use crate::Refusal;
use crate::described::is_described;
use crate::file::OpenFile;
use crate::names::entry_texts;
use crate::places::devs;
use crate::plain::Plain;
use fit_from_messages::{LoneDefinition, split_entry};
use fit_profile::Stream;
use fit_record::DevDef;
use std::alloc::{AllocError, Global};

/// The base type of a developer field that isn't described.
const BYTE: u8 = 0x0D;

/// The messages that describe, and the local message types that they get where these are free.
const DEVELOPER_DATA_ID: u16 = 207;

const FIELD_DESCRIPTION: u16 = 206;

const LOCAL_OF_ID: u8 = 14;

const LOCAL_OF_DESCRIPTION: u8 = 15;

/// A developer field, with its base type code and the entry that says its name and unit.
#[derive(Clone, Copy, Drop)]
pub(crate) struct Wanted<'a> {
    pub field: DevDef,
    pub code: u8,
    pub said: &'a [u8],
}

/// Developer fields, with their base type codes and their entries.
#[derive(Clone, Copy, Drop)]
pub(crate) struct Listed<'a> {
    pub fields: &'a [DevDef],
    pub codes: &'a [u8],
    pub entries: &'a [u8],
}

/// Whether a text has no control character.
fn is_shown(text: &[u8]) -> bool
    ensures { result ≡ list_all is_printable text.now }
{
    text.iter().all(|byte| *byte >= 0x20 && *byte != 0x7F)
}

/// Whether a text is read back as it is put.
fn is_read_back(text: &[u8]) -> bool
    ensures yes { result ≡ true → IsReadBack (some_text text.now) }
    ensures no { result ≡ false → IsReadBack (some_text text.now) → ⊥ }
{
    if text.len() >= 255 {
        return false;
    }
    if !is_shown(text) {
        return false;
    }
    match str::from_utf8(text) {
        Ok(_) => true,
        Err(_) => false,
    }
}

/// Whether a message can give this base type, name and unit.
fn can_be_said(code: u8, entry: &[u8]) -> bool
    requires { 32 ≤ length entry.now }
    ensures yes { result ≡ true → CanBeSaid (code, entry_naming entry.now) }
    ensures no { result ≡ false → CanBeSaid (code, entry_naming entry.now) → ⊥ }
{
    let (name, unit) = entry_texts(entry);
    if code == BYTE && name.is_empty() && unit.is_empty() {
        return false;
    }
    is_read_back(name) && is_read_back(unit)
}

/// Whether two developer fields aren't of one index and number, or are to have the same.
fn is_alike(x: &Wanted<'_>, y: &Wanted<'_>) -> bool
    requires first { 32 ≤ length x.now.said.now }
    requires second { 32 ≤ length y.now.said.now }
    ensures yes { result ≡ true → IsAlike (wanted x.now) (wanted y.now) }
    ensures no { result ≡ false → IsAlike (wanted x.now) (wanted y.now) → ⊥ }
{
    if x.field.index != y.field.index || x.field.number != y.field.number {
        return true;
    }
    let (name, unit) = entry_texts(x.said);
    let (other_name, other_unit) = entry_texts(y.said);
    x.code == y.code && name == other_name && unit == other_unit
}

/// Whether a developer field is so to each of these.
fn is_alike_to_all(x: &Wanted<'_>, all: &Listed<'_>) -> bool
    requires first { 32 ≤ length x.now.said.now }
    requires listed_fields { IsListed all.now }
    ensures yes { result ≡ true → AllByRecursion (IsAlike (wanted x.now)) (listed_fields all.now) }
    ensures no { result ≡ false
        → AllByRecursion (IsAlike (wanted x.now)) (listed_fields all.now) → ⊥ }
{
    let mut rest = all.entries;
    for place in 0..all.fields.len() {
        let (entry, after) = split_entry(rest);
        let y = Wanted {
            field: all.fields[place],
            code: all.codes[place],
            said: entry,
        };
        if !is_alike(x, &y) {
            return false;
        }
        rest = after;
    }
    true
}

/// Whether a developer field is described or can be, and is alike to all of its index and number.
fn is_describable(stream: &Stream, x: &Wanted<'_>, all: &Listed<'_>) -> bool
    requires first { 32 ≤ length x.now.said.now }
    requires listed_fields { IsListed all.now }
    ensures yes { result ≡ true → (IsDescribedField stream.now (wanted x.now)
        ⊎ CanBeSaid (wanted x.now).1)
        × AllByRecursion (IsAlike (wanted x.now)) (listed_fields all.now) }
    ensures no { result ≡ false → (IsDescribedField stream.now (wanted x.now)
        ⊎ CanBeSaid (wanted x.now).1)
        × AllByRecursion (IsAlike (wanted x.now)) (listed_fields all.now) → ⊥ }
{
    if !is_described(stream, x.field, x.code, x.said) && !can_be_said(x.code, x.said) {
        return false;
    }
    is_alike_to_all(x, all)
}

/// Whether all are.
fn are_describable(stream: &Stream, all: &Listed<'_>) -> bool
    requires listed_fields { IsListed all.now }
    ensures yes { result ≡ true → AreDescribable stream.now (listed_fields all.now) }
    ensures no { result ≡ false → AreDescribable stream.now (listed_fields all.now) → ⊥ }
{
    let mut rest = all.entries;
    for place in 0..all.fields.len() {
        let (entry, after) = split_entry(rest);
        let x = Wanted {
            field: all.fields[place],
            code: all.codes[place],
            said: entry,
        };
        if !is_describable(stream, &x, all) {
            return false;
        }
        rest = after;
    }
    true
}

/// Puts the message that there is this developer data index, where no message says so.
fn put_index(alloc: Global, file: &mut OpenFile, index: u8) -> Result<(), Refusal>
    requires good { IsGoodOpenFile file.old }
    ensures ok { OnOk result (Becomes file.old file.new
        (λ before after. AddsIndex before after index)) }
    ensures good { IsGoodOpenFile file.new }
    ensures err { IfErr result (IsHalfDescribed file.old file.new
        (λ before after. (after ≡ before) ⊎ AddsIndex before after index)) }
{
    if file.indices[index as usize] {
        return Ok(());
    }
    let message = Plain::new(alloc).with_byte(3, index)?;
    message.put(alloc, file, LOCAL_OF_ID, DEVELOPER_DATA_ID)
}

/// The message that describes a developer field.
fn description_of(alloc: Global, x: &Wanted<'_>) -> Result<Plain, AllocError>
    requires entry { 32 ≤ length x.now.said.now }
    requires said { CanBeSaid (wanted x.now).1 }
    ensures { IfOk result (λ m.
        m ≡ (description_reading x.now.field x.now.code (entry_naming x.now.said.now)).fields) }
{
    let (name, unit) = entry_texts(x.said);
    Plain::new(alloc)
        .with_byte(0, x.field.index)?
        .with_byte(1, x.field.number)?
        .with_byte(2, x.code)?
        .with_text(alloc, 3, name)?
        .with_text(alloc, 8, unit)
}

/// Puts the message that describes a developer field, after that of its index.
fn put_description(alloc: Global, file: &mut OpenFile, x: &Wanted<'_>) -> Result<(), Refusal>
    requires good { IsGoodOpenFile file.old }
    requires entry { 32 ≤ length x.now.said.now }
    requires other { IsDescribedField file.old.stream (wanted x.now) → ⊥ }
    requires said { CanBeSaid (wanted x.now).1 }
    ensures ok { OnOk result (Becomes file.old file.new
        (λ before after. DescribesField before after (wanted x.now))) }
    ensures good { IsGoodOpenFile file.new }
    ensures err { IfErr result (IsHalfDescribed file.old file.new
        (λ before after. DescribesSome before after (wanted x.now ∷ []))) }
{
    put_index(alloc, file, x.field.index)?;
    let message = description_of(alloc, x)?;
    message.put(alloc, file, LOCAL_OF_DESCRIPTION, FIELD_DESCRIPTION)
}

/// Describes a developer field, where it isn't described so.
fn describe_field(alloc: Global, file: &mut OpenFile, x: &Wanted<'_>) -> Result<(), Refusal>
    requires good { IsGoodOpenFile file.old }
    requires entry { 32 ≤ length x.now.said.now }
    requires said { IsDescribedField file.old.stream (wanted x.now) ⊎ CanBeSaid (wanted x.now).1 }
    ensures ok { OnOk result (Becomes file.old file.new
        (λ before after. DescribesField before after (wanted x.now))) }
    ensures good { IsGoodOpenFile file.new }
    ensures err { IfErr result (IsHalfDescribed file.old file.new
        (λ before after. DescribesSome before after (wanted x.now ∷ []))) }
{
    if is_described(&file.stream, x.field, x.code, x.said) {
        return Ok(());
    }
    put_description(alloc, file, x)
}

/// Describes developer fields, one after another.
fn describe_each(alloc: Global, file: &mut OpenFile, all: &Listed<'_>) -> Result<(), Refusal>
    requires good { IsGoodOpenFile file.old }
    requires listed_fields { IsListed all.now }
    requires can { AreDescribable file.old.stream (listed_fields all.now) }
    ensures ok { OnOk result (Becomes file.old file.new
        (λ before after. DescribesEach before after (listed_fields all.now))) }
    ensures good { IsGoodOpenFile file.new }
    ensures err { IfErr result (IsHalfDescribed file.old file.new
        (λ before after. DescribesSome before after (listed_fields all.now))) }
{
    let mut rest = all.entries;
    for place in 0..all.fields.len() {
        let (entry, after) = split_entry(rest);
        let x = Wanted {
            field: all.fields[place],
            code: all.codes[place],
            said: entry,
        };
        describe_field(alloc, file, &x)?;
        rest = after;
    }
    Ok(())
}

/// Describes the developer fields of a definition.
pub(crate) fn describe(
    alloc: Global,
    file: &mut OpenFile,
    lone: &LoneDefinition<'_>,
) -> Result<(), Refusal>
    requires good { IsGoodOpenFile file.old }
    requires lone { IsLone lone.now }
    ensures ok { OnOk result (Becomes file.old file.new
        (λ before after. DescribesForm before after (form_of lone.now))) }
    ensures good { IsGoodOpenFile file.new }
    ensures err { IfErr result
        (IsUndescribed file.old file.new (form_of lone.now)) }
{
    let all = Listed {
        fields: devs(&lone.definition),
        codes: lone.codes.as_slice(),
        entries: lone.dev,
    };
    if !are_describable(&file.stream, &all) {
        return Err(Refusal::Described);
    }
    describe_each(alloc, file, &all)
}
