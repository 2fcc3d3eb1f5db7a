//! What records make known, messages, and the cells of fields.
ghost use Rattle.std.specs.Prelude.{IfSome};
ghost use Rattle.fit_numbers.specs.Scaled.{IsScale};

use fit_base::{Code, Items, has_shape};
use fit_csv::{cell_items, cell_text};
use fit_decode::read_chain;
use fit_profile::{Info, Message, Stream, field_info};
use fit_record::{Env, FitFile, Record, Values};
use std::io;

/// Prints what is known of a local message type.
fn tell_definition(rt: &HostRuntime, env: &Env, local: u8) -> io::Result<()> {
    let Some(definition) = env.definition(local) else {
        return Ok(());
    };
    print!(rt; ", {definition:?} {:?}", env.length(local))?;
    let codes = (env.dev_code(local, 0), env.dev_code(local, 1));
    print!(rt; " {codes:?}")
}

/// Prints all that is known after that many records of a file.
fn tell_known(rt: &HostRuntime, count: usize, env: &Env) -> io::Result<()> {
    print!(rt; "{count} records, {} held", env.held())?;
    for local in 0..16u8 {
        tell_definition(rt, env, local)?;
    }
    for room in 0..7u32 {
        print!(rt; ", {}", env.can_fill(room))?;
    }
    println!(rt; "")
}

/// Learns a record that fits, and says whether there was memory for it.
fn learn(rt: &HostRuntime, env: &mut Env, record_: &Record) -> io::Result<bool> {
    if env.fits(record_).is_err() {
        println!(rt; "it doesn't fit")?;
        return Ok(false);
    }
    Ok(env.learn(record_).is_ok())
}

/// What a record makes known, after that many others. One that was refused memory is learned once more.
fn learn_or_again(
    rt: &HostRuntime,
    env: &mut Env,
    place: usize,
    record_: &Record,
) -> io::Result<bool> {
    if !learn(rt, env, record_)? {
        println!(rt; "once more")?;
        tell_known(rt, place, env)?;
        if !learn(rt, env, record_)? {
            println!(rt; "out of memory again")?;
            return Ok(false);
        }
    }
    tell_known(rt, place.saturating_add(1), env)?;
    Ok(true)
}

/// What the records of a file make known, and whether there was memory for it.
fn learn_file(rt: &HostRuntime, file: &FitFile) -> io::Result<bool> {
    let mut env = Env::new(rt.alloc());
    tell_known(rt, 0, &env)?;
    for (place, record_) in file.records.as_slice().iter().enumerate() {
        if !learn_or_again(rt, &mut env, place, record_)? {
            return Ok(false);
        }
    }
    Ok(true)
}

fn learn_files(rt: &HostRuntime, files: &[FitFile]) -> io::Result<()> {
    for file in files {
        if !learn_file(rt, file)? {
            break;
        }
    }
    Ok(())
}

/// What each record makes known.
pub fn learned(rt: &HostRuntime, input: &[u8]) -> io::Result<()> {
    let mut source = input;
    match read_chain(rt.alloc(), &mut source) {
        Ok(files) => learn_files(rt, files.as_slice()),
        Err(_) => println!(rt; "no input"),
    }
}

/// Prints what a stream says of the next messages, after that many records of a file.
fn tell_stream(rt: &HostRuntime, count: usize, stream: &Stream) -> io::Result<()> {
    for local in 0..16u8 {
        if let (Some(name), unit) = (stream.dev_name(local, 0), stream.dev_unit(local, 0)) {
            print!(rt; "{local}: {name:?} {unit:?}, ")?;
        }
    }
    let times = (stream.header_time(0), stream.header_time(31));
    print!(rt; "{times:?}, ")?;
    tell_known(rt, count, stream.env())
}

/// Prints the fields at a place of a message.
fn tell_fields(rt: &HostRuntime, message: &Message, place: u8) -> io::Result<()> {
    if let Some(field) = message.field(place) {
        print!(rt; ", {} {} {:?}", field.number, field.code, field.items)?;
        print!(rt; " {:?}", message.value(field.number))?;
    }
    if let Some(field) = message.dev(place) {
        print!(rt; ", {} {} {:?}", field.number, field.code, field.items)?;
        let texts = (message.dev_name(place), message.dev_unit(place));
        print!(rt; " {texts:?}")?;
    }
    Ok(())
}

/// Prints what a message is.
fn tell_message(rt: &HostRuntime, message: &Message) -> io::Result<()> {
    let times = (message.time(), message.header_time());
    print!(rt; "{} {:?} {times:?}", message.global(), message.name())?;
    print!(rt; " {:?} {:?}", message.speed(), message.distance())?;
    print!(rt; " {:?}", message.total_cycles())?;
    print!(rt; " {:?}", message.accumulated_power())?;
    for place in 0..4u8 {
        tell_fields(rt, message, place)?;
    }
    println!(rt; "")
}

/// Pushes a record that fits, prints what it is, and says whether there was memory for it.
fn push(rt: &HostRuntime, stream: &mut Stream, record_: &Record) -> io::Result<bool> {
    if stream.env().fits(record_).is_err() {
        println!(rt; "it doesn't fit")?;
        return Ok(false);
    }
    match stream.push(record_) {
        Ok(Some(message)) => tell_message(rt, &message)?,
        Ok(None) => println!(rt; "a definition")?,
        Err(_) => return Ok(false),
    }
    Ok(true)
}

/// The message of a record, after that many others. One that was refused memory is pushed once more.
fn push_or_again(
    rt: &HostRuntime,
    stream: &mut Stream,
    place: usize,
    record_: &Record,
) -> io::Result<bool> {
    if !push(rt, stream, record_)? {
        println!(rt; "once more")?;
        tell_stream(rt, place, stream)?;
        if !push(rt, stream, record_)? {
            println!(rt; "out of memory again")?;
            return Ok(false);
        }
    }
    tell_stream(rt, place.saturating_add(1), stream)?;
    Ok(true)
}

/// The messages of a file, and whether there was memory for them.
fn push_file(rt: &HostRuntime, stream: &mut Stream, file: &FitFile) -> io::Result<bool> {
    stream.begin_file();
    tell_stream(rt, 0, stream)?;
    for (place, record_) in file.records.as_slice().iter().enumerate() {
        if !push_or_again(rt, stream, place, record_)? {
            return Ok(false);
        }
    }
    Ok(true)
}

fn push_files(rt: &HostRuntime, files: &[FitFile]) -> io::Result<()> {
    let mut stream = Stream::new(rt.alloc());
    for file in files {
        if !push_file(rt, &mut stream, file)? {
            break;
        }
    }
    Ok(())
}

/// The messages of all files.
pub fn pushed(rt: &HostRuntime, input: &[u8]) -> io::Result<()> {
    let mut source = input;
    match read_chain(rt.alloc(), &mut source) {
        Ok(files) => push_files(rt, files.as_slice()),
        Err(_) => println!(rt; "no input"),
    }
}

/// A field of a data message: its code, its size, its message and number where it isn't a developer field, and its items.
type Field<'a> = (Code, u8, Option<(u16, u8)>, &'a Items);

/// The field at a place of a message, and after the fields the developer fields.
fn field_at<'a>(env: &Env, values: &'a Values, place: usize) -> Option<Field<'a>> {
    let definition = env.definition(values.local)?;
    match definition.fields.as_slice().get(place) {
        Some(field) => {
            let items = values.fields.as_slice().get(place)?;
            let named = Some((definition.global, field.number));
            Some((Code(field.code), field.size, named, items))
        }
        None => dev_at(env, values, place.checked_sub(definition.fields.len())?),
    }
}

/// The developer field at a place.
fn dev_at<'a>(env: &Env, values: &'a Values, place: usize) -> Option<Field<'a>> {
    let definition = env.definition(values.local)?;
    let field = definition.dev.as_ref()?.as_slice().get(place)?;
    let items = values.dev.as_slice().get(place)?;
    let code = env.dev_code(values.local, u8::try_from(place).ok()?)?;
    Some((Code(code), field.size, None, items))
}

/// The cells of all fields. One that was refused memory is made once more.
pub fn as_cells(rt: &HostRuntime, input: &[u8]) -> io::Result<()> {
    each_field(rt, input, false)
}

/// The items of all fields, read from their cells. A cell that was refused memory is read once more.
pub fn from_cells(rt: &HostRuntime, input: &[u8]) -> io::Result<()> {
    each_field(rt, input, true)
}

/// Prints of each field its cell, or the items that are read from it.
fn each_field(rt: &HostRuntime, input: &[u8], back: bool) -> io::Result<()> {
    let mut source = input;
    match read_chain(rt.alloc(), &mut source) {
        Ok(files) => fields_of_files(rt, files.as_slice(), back),
        Err(_) => println!(rt; "no input"),
    }
}

fn fields_of_files(rt: &HostRuntime, files: &[FitFile], back: bool) -> io::Result<()> {
    for file in files {
        if !fields_of(rt, file, back)? {
            return println!(rt; "no input");
        }
    }
    Ok(())
}

/// Prints of each field of one file its cell or its items, and says whether there was memory for what its records make known.
fn fields_of(rt: &HostRuntime, file: &FitFile, back: bool) -> io::Result<bool> {
    let mut env = Env::new(rt.alloc());
    for record_ in file.records.as_slice() {
        if let Record::Values(values) = record_ {
            tell_values(rt, &env, values, back)?;
        }
        if env.fits(record_).is_err() || env.learn(record_).is_err() {
            return Ok(false);
        }
    }
    Ok(true)
}

/// Prints of each field of one message its cell or its items.
fn tell_values(rt: &HostRuntime, env: &Env, values: &Values, back: bool) -> io::Result<()> {
    for place in 0..8 {
        if let Some(field) = field_at(env, values, place) {
            tell_field(rt, field, back)?;
        }
    }
    Ok(())
}

/// Prints of one field its cell, or the items that are read from it.
fn tell_field(rt: &HostRuntime, field: Field, back: bool) -> io::Result<()> {
    let (code, size, named, items) = field;
    if !has_shape(code, size, items) {
        return println!(rt; "another shape");
    }
    let info = info_of(named);
    let mut cell = cell_text(rt.alloc(), code, info, items);
    if cell.is_err() {
        println!(rt; "once more")?;
        cell = cell_text(rt.alloc(), code, info, items);
    }
    match cell {
        Ok(cell) if back => tell_items(rt, field, cell.as_str()),
        Ok(cell) => println!(rt; "{cell:?}"),
        Err(_) => println!(rt; "out of memory again"),
    }
}

/// Prints the items of a field that are read from its cell.
fn tell_items(rt: &HostRuntime, field: Field, cell: &str) -> io::Result<()> {
    let (code, size, named, _) = field;
    let info = info_of(named);
    let mut read = cell_items(rt.alloc(), code, size, info, cell);
    if read.is_err() {
        println!(rt; "once more")?;
        read = cell_items(rt.alloc(), code, size, info, cell);
    }
    println!(rt; "{read:?}")
}

/// What the profile says of a field of a message. It says nothing of a developer field.
fn info_of(named: Option<(u16, u8)>) -> Option<Info>
    ensures { IfSome result (λ i. IsScale i.scale) }
{
    let (global, number) = named?;
    field_info(global, number)
}
