//! The bytes of a piece that belong to a record.
ghost use Rattle.std.specs.Prelude.{◌≡◌, ℕ, ◌+◌, ◌^◌, ◌<◌, ◌≤◌, length, List, OnErr, Ok, None, Some, true, false, IfNone, IfOk, IfSome, IsSomeAnd};
ghost use Rattle.fit_record.specs.declared.message.Record.{Record};
ghost use Rattle.fit_record.specs.declared.message.Record.TheVariants.{Define, Values as Data};
ghost use Rattle.fit_record.specs.Environment.{DescribesNothing, Environment, learn};
ghost use Rattle.fit_record.specs.Records.{Fits};
ghost use Rattle.fit_step.specs.InProgress.{AwaitsByte, IsKeptMessage, Reads, ReadsInPlace};
ghost use Rattle.fit_step.specs.Machine.{step};
ghost use Rattle.fit_step.specs.Places.{state_at};
ghost use Rattle.fit_step.specs.Skipping.{HasDefinition, HasMessage};
ghost use Rattle.fit_step.specs.Tests.{tests_of};
ghost use Rattle.fit_step.specs.inner.Scans.{StandsWithRoom, TakesByte};
ghost use Rattle.fit_step.specs.inner.Whole.{StandsWhole};

use crate::developer_definition::developer_definition;
use crate::inside::take_inside;
use crate::one_byte::step;
use crate::read_definition::{read_fields, with_fields};
use crate::undone::undo;
use crate::whole::{last_definition, learn_copy, plain_definition, plain_message, whole_message};
use crate::{Phase, Position, Stop};
use fit_record::{Env, MessageDef, Record, Values};
use std::alloc::{AllocError, Allocator};

/// Learns a whole record. Whether there was memory.
fn is_learned<A: Allocator + Copy>(env: &mut Env<A>, whole: &Option<Record<A>>) -> bool
    requires { IsSomeAnd whole.now (Fits env.old) }
    ensures learned { (r : Record A) → whole.now ≡ Some r → result ≡ true
        → env.new ≡ learn env.old r }
    ensures same { result ≡ false → env.new ≡ env.old }
    ensures free { (r : Record A) → whole.now ≡ Some r → DescribesNothing env.old r
        → result ≡ true }
{
    match whole {
        Some(record) => env.learn(record).is_ok(),
        None => unreachable!(),
    }
}

/// One byte of a record. Whether the record is whole with it: then it is learned, and still in its place.
#[inline(always)]
fn take_byte<A: Allocator + Copy>(
    alloc: A,
    env: &mut Env<A>,
    position: &mut Position,
    in_progress: &mut Option<Record<A>>,
    byte: u8,
) -> Result<bool, Stop>
    requires { StandsWithRoom env.old (state_at position.old in_progress.old) }
    ensures made { TakesByte env.old env.new position.new in_progress.new byte result
        (step env.old (tests_of env.old) (state_at position.old in_progress.old) byte) }
    ensures err { OnErr result (state_at position.new in_progress.new
        ≡ state_at position.old in_progress.old) }
{
    if take_inside(position, in_progress, byte) {
        return Ok(false);
    }
    take_step(alloc, env, position, in_progress, byte)
}

/// Takes a byte that may end a number, or stand outside of one.
#[inline(never)]
fn take_step<A: Allocator + Copy>(
    alloc: A,
    env: &mut Env<A>,
    position: &mut Position,
    in_progress: &mut Option<Record<A>>,
    byte: u8,
) -> Result<bool, Stop>
    requires { StandsWithRoom env.old (state_at position.old in_progress.old) }
    ensures made { TakesByte env.old env.new position.new in_progress.new byte result
        (step env.old (tests_of env.old) (state_at position.old in_progress.old) byte) }
    ensures err { OnErr result (state_at position.new in_progress.new
        ≡ state_at position.old in_progress.old) }
{
    match step(alloc, env, position, in_progress, byte) {
        Err(stop) => Err(stop),
        Ok((next, false)) => {
            *position = next;
            Ok(false)
        }
        Ok((next, true)) => {
            if !is_learned(env, in_progress) {
                undo(alloc, position, in_progress);
                return Err(Stop::NoMemory);
            }
            *position = next;
            Ok(true)
        }
    }
}

/// Takes all bytes up to the one with which the record is whole: how many they are, and whether it is.
#[inline(never)]
fn scan_bytes<A: Allocator + Copy>(
    alloc: A,
    env: &mut Env<A>,
    position: &mut Position,
    in_progress: &mut Option<Record<A>>,
    piece: &[u8],
) -> (usize, Result<bool, Stop>)
    requires { StandsWithRoom env.old (state_at position.old in_progress.old) }
    ensures within { result.0 ≤ length piece.now }
    ensures reads { ReadsInPlace env.old position.old in_progress.old env.new position.new
        in_progress.new piece.now result.0 result.1 }
    ensures stands { result.1 ≡ Ok false
        → StandsWithRoom env.new (state_at position.new in_progress.new) }
{
    for (i, byte) in piece.iter().enumerate() {
        match take_byte(alloc, env, position, in_progress, *byte) {
            Ok(false) => {}
            Ok(true) => return (i + 1, Ok(true)),
            Err(stop) => return (i, Err(stop)),
        }
    }
    (piece.len(), Ok(false))
}

/// A definition message with developer fields, or one with which the data section ends, of which all bytes stand at the front of the
/// piece, where one begins there, and how many they are. `read_whole_definition` reads the others.
#[inline(always)]
fn whole_definition<A: Allocator + Copy>(
    alloc: A,
    room: u32,
    piece: &[u8],
) -> Option<(MessageDef<A>, usize)>
    ensures { (e : Environment A) → IfSome result (λ found.
        StandsWhole e room piece.now (Define found.0) found.1) }
{
    match developer_definition(alloc, room, piece) {
        Some(found) => Some(found),
        None => last_definition(alloc, room, piece),
    }
}

/// A data message, or a definition message that `whole_definition` reads, of which all bytes stand at the front of the piece, where one
/// begins there, and how many they are.
#[inline(always)]
fn whole_record<A: Allocator + Copy>(
    alloc: A,
    env: &Env<A>,
    room: u32,
    piece: &[u8],
) -> Option<(Record<A>, usize)>
    requires { 0 < room }
    ensures { IfSome result (λ found. StandsWhole env.now room piece.now found.0 found.1) }
{
    match whole_message(alloc, env, room, piece) {
        Some((values, used)) => Some((Record::Values(values), used)),
        None => match whole_definition(alloc, room, piece) {
            Some((definition, used)) => Some((Record::Define(definition), used)),
            None => None,
        },
    }
}

/// A record that `whole_record` reads, where no byte of one has come. It is learned.
#[inline(always)]
fn take_whole<A: Allocator + Copy>(
    alloc: A,
    env: &mut Env<A>,
    position: &mut Position,
    in_progress: &Option<Record<A>>,
    piece: &[u8],
) -> Option<(Record<A>, usize)>
    requires { StandsWithRoom env.old (state_at position.old in_progress.now) }
    ensures within { IfSome result (λ found. found.1 ≤ length piece.now) }
    ensures told { IfSome result (λ found. Reads env.old position.old in_progress.now env.new
        position.new None piece.now found.1 (Ok (Some found.0))) }
    ensures none { IfNone result ((env.new ≡ env.old) × (position.new ≡ position.old)) }
{
    match in_progress {
        Some(_) => return None,
        None => {}
    }
    let (record, used) = whole_record(alloc, env, position.room, piece)?;
    match env.learn(&record) {
        Ok(()) => {}
        Err(_) => return None,
    }
    position.room -= used as u32;
    Some((record, used))
}

/// Reads a data message of which all bytes stand at the front of the piece, where one begins there: the message, and how many bytes it
/// has. What is known stays, and the next record begins after it.
///
/// There is none where bytes of a record have come, or another record begins; where some of its bytes are missing or are to be refused;
/// where it is a field description; and where it ends in the last six bytes of the data section. Then, and where memory is refused,
/// nothing changes. `read_in_place` reads all records.
#[inline(always)]
pub fn read_message<A: Allocator + Copy>(
    alloc: A,
    env: &Env<A>,
    position: &mut Position,
    in_progress: &Option<Record<A>>,
    piece: &[u8],
) -> Result<Option<(Values<A>, usize)>, AllocError>
    requires { AwaitsByte env.now position.old in_progress.now }
    ensures reads { IfOk result (λ o. IfSome o (λ found. Reads env.now position.old in_progress.now
        env.now position.new in_progress.now piece.now found.1 (Ok (Some (Data found.0))))) }
    // It is no field description.
    ensures message { IfOk result (λ o. IfSome o (λ found. HasMessage env.now piece.now found.1)) }
    // Six bytes or more of the data section are left.
    ensures left { IfOk result (λ o. IfSome o (λ found. 6 ≤ position.new.room)) }
    ensures none { IfOk result (λ o. IfNone o (position.new ≡ position.old)) }
    ensures err { OnErr result (position.new ≡ position.old) }
    // One that is all in the piece is found.
    ensures whole { in_progress.now ≡ None → (size : ℕ) → HasMessage env.now piece.now size
        → size + 6 ≤ position.old.room → IfOk result (λ o. IsSomeAnd o (λ found. found.1 ≡ size)) }
{
    let Some(message) = plain_message(env, position.room, in_progress, piece) else {
        return Ok(None);
    };
    let values = message.values(alloc)?;
    let used = 1 + message.body.len();
    position.room -= used as u32;
    Ok(Some((values, used)))
}

/// Reads a definition message of which all bytes stand at the front of the piece, where one begins there: the record, and how many bytes
/// it has. It is learned, and the next record begins after it.
///
/// There is none where bytes of a record have come, or another record begins; where some of its bytes are missing or are to be refused;
/// where it has developer fields; and where it ends in the last six bytes of the data section. Then, and where memory is refused,
/// nothing changes. `read_in_place` reads all records.
#[inline(always)]
pub fn read_whole_definition<A: Allocator + Copy>(
    alloc: A,
    env: &mut Env<A>,
    position: &mut Position,
    in_progress: &Option<Record<A>>,
    piece: &[u8],
) -> Result<Option<(Record<A>, usize)>, AllocError>
    requires { AwaitsByte env.old position.old in_progress.now }
    ensures reads { IfOk result (λ o. IfSome o (λ found. Reads env.old position.old in_progress.now
        env.new position.new in_progress.now piece.now found.1 (Ok (Some found.0)))) }
    ensures definition { IfOk result (λ o. IfSome o (λ found.
        HasDefinition env.old piece.now found.1)) }
    // Six bytes or more of the data section are left.
    ensures left { IfOk result (λ o. IfSome o (λ found. 6 ≤ position.new.room)) }
    ensures none { IfOk result (λ o. IfNone o ((env.new ≡ env.old)
        × (position.new ≡ position.old))) }
    ensures err { OnErr result ((env.new ≡ env.old) × (position.new ≡ position.old)) }
    // One that is all in the piece is found.
    ensures whole { in_progress.now ≡ None → (size : ℕ) → HasDefinition env.old piece.now size
        → size + 6 ≤ position.old.room → IfOk result (λ o. IsSomeAnd o (λ found. found.1 ≡ size)) }
{
    let Some((front, entries)) = plain_definition(position.room, in_progress, piece) else {
        return Ok(None);
    };
    let definition = with_fields(front, read_fields(alloc, front.count, entries)?);
    learn_copy(alloc, env, front, entries, &definition)?;
    let used = 6 + entries.len();
    position.room -= used as u32;
    Ok(Some((Record::Define(definition), used)))
}

/// Does what `scan_bytes` does for a record of which no byte has come: it may be whole in the piece.
#[inline(never)]
fn read_anew<A: Allocator + Copy>(
    alloc: A,
    env: &mut Env<A>,
    position: &mut Position,
    in_progress: &mut Option<Record<A>>,
    piece: &[u8],
) -> (usize, Result<bool, Stop>)
    requires { StandsWithRoom env.old (state_at position.old in_progress.old) }
    ensures within { result.0 ≤ length piece.now }
    ensures reads { ReadsInPlace env.old position.old in_progress.old env.new position.new
        in_progress.new piece.now result.0 result.1 }
{
    match take_whole(alloc, env, position, in_progress, piece) {
        Some((record, used)) => {
            *in_progress = Some(record);
            (used, Ok(true))
        }
        None => scan_bytes(alloc, env, position, in_progress, piece),
    }
}

/// Makes the fields of a short data message of which the bytes are kept as they came, and does what `scan_bytes` does.
#[cold]
#[inline(never)]
fn read_kept<A: Allocator + Copy>(
    alloc: A,
    env: &mut Env<A>,
    position: &mut Position,
    in_progress: &mut Option<Record<A>>,
    piece: &[u8],
) -> (usize, Result<bool, Stop>)
    requires room { position.old.room + length position.old.partial < 2 ^ 32 }
    requires kept { (room : ℕ) × (bytes : List ℕ)
        × IsKeptMessage env.old room bytes position.old in_progress.old }
    ensures within { result.0 ≤ length piece.now }
    ensures reads { ReadsInPlace env.old position.old in_progress.old env.new position.new
        in_progress.new piece.now result.0 result.1 }
{
    if piece.is_empty() {
        return (0, Ok(false));
    }
    let kept = position.partial.as_slice();
    let mut made = None;
    let mut after = Position::new(position.room + kept.len() as u32);
    let (_, answer) = scan_bytes(alloc, env, &mut after, &mut made, kept);
    match answer {
        Ok(false) => {
            *position = after;
            *in_progress = made;
            scan_bytes(alloc, env, position, in_progress, piece)
        }
        Ok(true) => unreachable!(),
        Err(Stop::NoMemory) => (0, Err(Stop::NoMemory)),
        Err(Stop::Refused(_)) => unreachable!(),
    }
}

/// Reads the bytes of a record, of which some may have come: how many of the piece were used, and whether it is complete. A complete
/// record is learned and stays in `in_progress`, which the caller empties; the next one begins after it.
///
/// It refuses the first byte with which no records can fill the data section. Where memory is refused, the byte can come again.
#[inline(always)]
pub fn read_in_place<A: Allocator + Copy>(
    alloc: A,
    env: &mut Env<A>,
    position: &mut Position,
    in_progress: &mut Option<Record<A>>,
    piece: &[u8],
) -> (usize, Result<bool, Stop>)
    requires { AwaitsByte env.old position.old in_progress.old }
    ensures within { result.0 ≤ length piece.now }
    ensures reads { ReadsInPlace env.old position.old in_progress.old env.new position.new
        in_progress.new piece.now result.0 result.1 }
{
    match in_progress {
        Some(_) => match position.phase {
            Phase::RecordHeader => return read_kept(alloc, env, position, in_progress, piece),
            _ => return scan_bytes(alloc, env, position, in_progress, piece),
        },
        None => {}
    }
    read_anew(alloc, env, position, in_progress, piece)
}
