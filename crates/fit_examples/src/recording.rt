//! A ride, written record by record.
ghost use Rattle.std.specs.Prelude.{◌≡◌, ◌∷◌, ◌+◌, ◌*◌, ◌^◌, ◌≤◌, [], IfOk, IfErr, IfSome, None, length};
ghost use Rattle.fit_record.specs.declared.message.Record.TheVariants.{Define as Defines};
ghost use Rattle.fit_examples.specs.Recordings.{IsRecording, IsRideFault, definition, ride_message, lone, FitsRide};

use gazhdor::base_type::{UINT8, UINT32};
use gazhdor::field_number::{HEART_RATE, TIMESTAMP};
use gazhdor::message_number::RECORD;
use gazhdor::{
    EncodeFault, Encoder, Entries, FieldDef, Header, Items, MessageDef, Order, PROTOCOL_2_0,
    Record, Values, WriteSink,
};
use std::alloc::{AllocError, Global};

/// How many points fit into a data section, which has less than 2^32 bytes.
const MOST_POINTS: u64 = (0xFFFF_FFFF - 12) / 6;

/// The definition message: record messages have a timestamp and a heart rate.
fn definition(alloc: Global) -> Result<Record, AllocError>
    ensures { IfOk result (λ r. r ≡ Defines definition) }
{
    let fields = [
        FieldDef::one(TIMESTAMP, UINT32),
        FieldDef::one(HEART_RATE, UINT8),
    ];
    let fields = Entries::from_slice(alloc, &fields)?;
    let definition = MessageDef::new(0, Order::Little, RECORD, fields);
    Ok(Record::Define(definition))
}

/// A record message.
fn message(alloc: Global, time: u32, heart_rate: u8) -> Result<Record, AllocError>
    ensures value { IfOk result (λ r. r ≡ ride_message (time, heart_rate)) }
    ensures fits { IfOk result FitsRide }
{
    let mut fields = Entries::new(alloc);
    fields.push(Items::one(alloc, 4, time as u64))?;
    fields.push(Items::one(alloc, 1, heart_rate as u64))?;
    Ok(Record::Values(Values::new(alloc, 0, fields)))
}

/// How many bytes of data there are: 12 of the definition message, and 6 of each record message. None where these are 2^32 or more.
fn data_len(points: usize) -> Option<u32>
    ensures some { IfSome result (λ len. len ≡ 12 + 6 * points) }
    ensures none { result ≡ None → 2 ^ 32 ≤ 12 + 6 * points }
{
    u32::try_from(points).ok()?.checked_mul(6)?.checked_add(12)
}

/// A FIT file of a ride: a record message for each time, in seconds since 1989-12-31T00:00:00 UTC, and heart rate, in beats per minute.
///
/// `TooLong` from 715,827,881 points on, which no file has room for. Else it fails only by running out of memory: with `Write` where
/// there is none for the bytes, else with `NoMemory`.
pub fn ride_file(alloc: Global, points: &[(u32, u8)]) -> Result<Vec<u8>, EncodeFault>
    ensures ok { IfOk result (λ bytes. IsRecording points.now bytes.items) }
    ensures err { IfErr result (IsRideFault (length points.now)) }
{
    let header = Header::new(PROTOCOL_2_0, 0);
    let Some(data_len) = data_len(points.len()) else {
        return Err(EncodeFault::TooLong {
            file: 1,
            index: MOST_POINTS + 1,
        });
    };
    let mut sink = WriteSink::new(Vec::new(alloc));
    let mut encoder = Encoder::begin(alloc, &mut sink, &header, data_len)?;
    let Ok(first) = definition(alloc) else {
        return Err(EncodeFault::NoMemory);
    };
    encoder.put(&mut sink, &first)?;
    for point in points {
        let Ok(next) = message(alloc, point.0, point.1) else {
            return Err(EncodeFault::NoMemory);
        };
        encoder.put(&mut sink, &next)?;
    }
    encoder.finish(&mut sink)?;
    Ok(sink.into_inner())
}
