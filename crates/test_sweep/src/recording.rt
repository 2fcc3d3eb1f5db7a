//! A long recording: a file whose bytes and text can be told by counting.
use fit_base::base_type::{BYTE, UINT8, UINT32};
use fit_base::{Entries, Items, Order};
use fit_encode::{EncodeFault, Encoder, WriteSink};
use fit_frame::{Header, PROTOCOL_2_0};
use fit_record::{FieldDef, MessageDef, Record, Values};
use std::alloc::{AllocError, Global};
use std::io;
use std::io::{BufWriter, Write};
use test_known::protocol::{HEART_RATE, RECORD, TIMESTAMP};

/// How many messages it has.
const COUNT: u32 = 1_400_000;

/// How many bytes the last field of each has.
const SIZE: u8 = 58;

/// Writes it to standard output: a definition of 15 bytes, and messages of 64 bytes each, whose timestamps are 0, 1, 2 and so on.
pub fn write(rt: &HostRuntime) -> io::Result<()> {
    let Ok(mut writer) = BufWriter::with_capacity(rt.alloc(), 65536, rt.stdout()) else {
        return println!(rt; "no input");
    };
    let answer = write_to(rt.alloc(), &mut writer);
    writer.flush()?;
    if answer.is_err() {
        return println!(rt; "no input");
    }
    Ok(())
}

fn write_to<W: Write>(alloc: Global, writer: &mut W) -> Result<(), EncodeFault> {
    let header = Header::new(PROTOCOL_2_0, 0);
    let mut sink = WriteSink::new(writer);
    let mut encoder = Encoder::begin(alloc, &mut sink, &header, 15 + 64 * COUNT)?;
    let definition = definition(alloc).map_err(|_| EncodeFault::NoMemory)?;
    encoder.put(&mut sink, &definition)?;
    for time in 0..COUNT {
        let message = message(alloc, time).map_err(|_| EncodeFault::NoMemory)?;
        encoder.put(&mut sink, &message)?;
    }
    encoder.finish(&mut sink)
}

/// A timestamp, a heart rate, and a field that isn't listed.
fn definition(alloc: Global) -> Result<Record, AllocError> {
    let fields = [
        FieldDef::one(TIMESTAMP, UINT32),
        FieldDef::one(HEART_RATE, UINT8),
        FieldDef::new(200, SIZE, BYTE),
    ];
    let fields = Entries::from_slice(alloc, &fields)?;
    let definition = MessageDef::new(0, Order::Little, RECORD, fields);
    Ok(Record::Define(definition))
}

/// The message of a second. Its heart rate is below 200, and the items of its last field are all 0x2E.
fn message(alloc: Global, time: u32) -> Result<Record, AllocError> {
    let mut fields = Entries::new(alloc);
    fields.push(Items::one(alloc, 4, u64::from(time)))?;
    fields.push(Items::one(alloc, 1, u64::from(time % 200)))?;
    fields.push(Items::from_slice(alloc, 1, &[0x2E; SIZE as usize])?)?;
    Ok(Record::Values(Values::new(alloc, 0, fields)))
}
