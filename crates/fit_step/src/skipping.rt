//! Records that a reader skips: it counts them and learns what they define and describe, and makes no record of data messages.
ghost use Rattle.std.specs.Prelude.{◌≡◌, ℕ, ◌<◌, ◌≤◌, ◌+◌, None, List, [], ◌∷◌, length, take};
ghost use Rattle.fit_record.specs.declared.message.Values.{Values};
ghost use Rattle.fit_record.specs.declared.message.Record.{Record};
ghost use Rattle.fit_record.specs.declared.message.Record.TheVariants.{Values as Data};
ghost use Rattle.fit_step.specs.Skipping.{AreSizesToSkip, HasMessage, IsSkipped, AreSkipped, Learns, PassesInSection, SkipsInSection};

use crate::by_bytes::{learn_any, learn_message};
use crate::header::is_definition;
use crate::known_sizes::{message_to_skip, message_type, put_its_size, put_size, small_size};
use crate::read_definition::{definition_bytes, read_fields, with_fields};
use crate::repeated::is_known;
use crate::short::{cut_size, keep_first, take_more};
use crate::whole::{next_message, plain_message};
use crate::{Phase, Position};
use fit_record::{Env, Record};
use std::alloc::Allocator;

/// Learns the definition message that begins these bytes, where all of it stands there and it has no developer fields: how many
/// bytes it has, or else 0. One that is known already takes no memory.
#[inline(always)]
fn skip_definition<A: Allocator + Copy>(
    alloc: A,
    env: &mut Env<A>,
    sizes: &mut [u16; 256],
    bytes: &[u8],
) -> usize
    requires { AreSizesToSkip env.old sizes.old }
    ensures within { result ≤ length bytes.now }
    ensures sizes { AreSizesToSkip env.new sizes.new }
    ensures none { result ≡ 0 → env.new ≡ env.old }
    ensures skipped { 0 < result → IsSkipped env.old env.new (take result bytes.now) }
{
    let Some((front, entries)) = definition_bytes(bytes) else {
        return 0;
    };
    let size = 6 + entries.len();
    if is_known(env, front, entries) {
        return size;
    }
    let Ok(fields) = read_fields(alloc, front.count, entries) else {
        return 0;
    };
    match env.define(with_fields(front, fields)) {
        Ok(()) => {}
        Err(_) => return 0,
    }
    put_size(sizes, front.local, small_size(env, front.local));
    size
}

/// Skips the data message that begins these bytes: how many bytes it has, or 0 where none does. It stands apart, since of most messages the
/// size is known.
#[inline(never)]
fn skip_message<A: Allocator + Copy>(
    env: &mut Env<A>,
    sizes: &mut [u16; 256],
    bytes: &[u8],
) -> usize
    requires { AreSizesToSkip env.old sizes.old }
    ensures within { result ≤ length bytes.now }
    ensures sizes { AreSizesToSkip env.new sizes.new }
    ensures none { result ≡ 0 → env.new ≡ env.old }
    ensures skipped { 0 < result → IsSkipped env.old env.new (take result bytes.now) }
{
    let (size, is_plain) = learn_any(env, bytes);
    if is_plain {
        put_its_size(env, sizes, bytes);
        return size;
    }
    size
}

/// Whether a definition message begins these bytes.
#[inline(always)]
fn begins_definition(bytes: &[u8]) -> bool {
    match bytes.first() {
        Some(byte) => is_definition(*byte),
        None => false,
    }
}

/// Skips the record that begins these bytes: how many bytes it has, or 0 where it is none to be skipped.
#[inline(always)]
fn skip_record<A: Allocator + Copy>(
    alloc: A,
    env: &mut Env<A>,
    sizes: &mut [u16; 256],
    bytes: &[u8],
) -> usize
    requires { AreSizesToSkip env.old sizes.old }
    ensures within { result ≤ length bytes.now }
    ensures sizes { AreSizesToSkip env.new sizes.new }
    ensures none { result ≡ 0 → env.new ≡ env.old }
    ensures skipped { 0 < result → IsSkipped env.old env.new (take result bytes.now) }
{
    let size = message_to_skip(sizes, bytes);
    if size > 0 {
        return size;
    }
    if begins_definition(bytes) {
        return skip_definition(alloc, env, sizes, bytes);
    }
    skip_message(env, sizes, bytes)
}

/// Skips complete records at the front of these bytes: how many bytes they have, and how many they are. What they define and describe is
/// learned.
///
/// It ends before the first record that isn't complete, or isn't allowed there; before a definition message that has developer
/// fields; and before one that defines or describes something for which there is no memory.
fn skip_records<A: Allocator + Copy>(alloc: A, env: &mut Env<A>, bytes: &[u8]) -> (usize, u64)
    ensures within { result.0 ≤ length bytes.now }
    ensures records { AreSkipped env.old env.new (take result.0 bytes.now) result.1 }
{
    let mut sizes = [0; 256];
    let mut used = 0;
    let mut count = 0;
    while used < bytes.len() {
        let (_, rest) = bytes.split_at(used);
        let size = skip_record(alloc, env, &mut sizes, rest);
        if size == 0 {
            return (used, count);
        }
        used += size;
        count += 1;
    }
    (used, count)
}

/// The bytes of a piece that come before the last six of that many.
#[inline(always)]
fn before_last_six(room: u32, piece: &[u8]) -> &[u8]
    requires { 6 ≤ room }
    ensures front { result.now ≡ take (length result.now) piece.now }
    ensures within { length result.now ≤ length piece.now }
    ensures left { length result.now + 6 ≤ room }
{
    let most = piece.len().min((room - 6) as usize);
    let (front, _) = piece.split_at(most);
    front
}

/// Skips complete records at the front of the piece, where a record begins and at least six bytes of the data section are to come
/// after them: how many bytes they have, and how many they are. What they define and describe is learned.
#[inline(always)]
fn skip_whole<A: Allocator + Copy>(
    alloc: A,
    env: &mut Env<A>,
    position: &mut Position,
    piece: &[u8],
) -> (usize, u64)
    requires { 6 ≤ position.old.room }
    ensures within { result.0 ≤ length piece.now }
    ensures skips { (records : List (Record A)) × (length records ≡ result.1)
        × SkipsInSection env.old position.old None env.new position.new
        piece.now result.0 records }
{
    let front = before_last_six(position.room, piece);
    let (used, count) = skip_records(alloc, env, front);
    position.room -= used as u32;
    (used, count)
}

/// Whether a piece is too short for the definition message that it begins with, or has no bytes at all.
#[inline(always)]
fn holds_no_definition(piece: &[u8]) -> bool {
    match piece.first() {
        Some(byte) => piece.len() < 6 && is_definition(*byte),
        None => true,
    }
}

/// Skips complete records at the front of the piece, where a record begins and at least six bytes of the data section are to come
/// after them, and takes bytes of a data message of at most eight that the piece cuts: how many bytes it takes of the piece, and how many
/// records are complete with them. What they define and describe is learned.
///
/// The bytes of such a message are kept as they came, and no field is made of them. It ends where `Decoder::skip_records` of `fit_decode`
/// does.
pub fn skip_in_section<A: Allocator + Copy>(
    alloc: A,
    env: &mut Env<A>,
    position: &mut Position,
    in_progress: &mut Option<Record<A>>,
    piece: &[u8],
) -> (usize, u64)
    ensures within { result.0 ≤ length piece.now }
    ensures passes { (records : List (Record A)) × (length records ≡ result.1)
        × PassesInSection env.old position.old in_progress.old env.new position.new
        in_progress.new (take result.0 piece.now) records }
{
    match in_progress {
        Some(_) => match position.phase {
            Phase::RecordHeader => return take_more(env, position, in_progress, piece),
            _ => return (0, 0),
        },
        None => {}
    }
    if position.room < 6 {
        return (0, 0);
    }
    let size = cut_size(env, piece);
    if size > 0 {
        return (
            keep_first(alloc, env, position, in_progress, size, piece),
            0,
        );
    }
    if holds_no_definition(piece) {
        return (0, 0);
    }
    skip_whole(alloc, env, position, piece)
}

/// How many bytes the data message has that begins the piece, where a record begins, it is no field description, and at least six
/// bytes of the data section are to come after it, or else 0. Nothing is learned of it.
#[inline(always)]
pub fn size_ahead<A: Allocator>(env: &Env<A>, room: u32, piece: &[u8]) -> usize
    ensures within { result ≤ length piece.now }
    ensures message { 0 < result → (result + 6 ≤ room)
        × (v : Values A) × Learns env.now env.now (take result piece.now) (Data v ∷ []) }
    // One that is all in the piece is found, unless it is a field description.
    ensures whole { (size : ℕ) → HasMessage env.now piece.now size → size + 6 ≤ room
        → result ≡ size }
{
    match next_message(env, room, piece) {
        Some(message) => 1 + message.body.len(),
        None => 0,
    }
}

/// Skips the data message at the front of the piece, where it is no field description, a record begins, and at least six bytes of the data
/// section are to come after it: how many bytes it has, or 0 where none is skipped. What is known stays.
#[inline(always)]
fn skip_plain_message<A: Allocator>(
    env: &Env<A>,
    position: &mut Position,
    in_progress: &Option<Record<A>>,
    piece: &[u8],
) -> usize
    ensures within { result ≤ length piece.now }
    ensures none { result ≡ 0 → position.new ≡ position.old }
    ensures message { 0 < result → (v : Values A) × SkipsInSection env.now position.old
        in_progress.now env.now position.new piece.now result (Data v ∷ []) }
    // One that is all in the piece is skipped, unless it is a field description.
    ensures whole { in_progress.now ≡ None → (size : ℕ) → HasMessage env.now piece.now size
        → size + 6 ≤ position.old.room → result ≡ size }
{
    let Some(message) = plain_message(env, position.room, in_progress, piece) else {
        return 0;
    };
    let used = 1 + message.body.len();
    position.room -= used as u32;
    used
}

/// Skips any data message at the front of the piece, where a record begins and at least six bytes of the data section are to come after
/// it: how many bytes it has, or 0 where none is skipped. What it describes is learned. It stands apart, since few messages describe
/// anything.
#[cold]
#[inline(never)]
fn skip_any_message<A: Allocator + Copy>(
    env: &mut Env<A>,
    position: &mut Position,
    in_progress: &Option<Record<A>>,
    piece: &[u8],
) -> usize
    ensures within { result ≤ length piece.now }
    ensures none { result ≡ 0 → position.new ≡ position.old }
    ensures known { result ≡ 0 → env.new ≡ env.old }
    ensures message { 0 < result → (v : Values A) × SkipsInSection env.old position.old
        in_progress.now env.new position.new piece.now result (Data v ∷ []) }
{
    match in_progress {
        Some(_) => return 0,
        None => {}
    }
    if position.room < 6 {
        return 0;
    }
    let front = before_last_six(position.room, piece);
    let used = learn_message(env, front);
    position.room -= used as u32;
    used
}

/// Skips the data message at the front of the piece, where a record begins and at least six bytes of the data section are to come
/// after it: how many bytes it has, or 0 where none is skipped. What it describes is learned.
///
/// None is skipped where `Decoder::skip_records` of `fit_decode` would skip none, and before a definition message.
#[inline(always)]
pub fn skip_message_in_section<A: Allocator + Copy>(
    env: &mut Env<A>,
    position: &mut Position,
    in_progress: &Option<Record<A>>,
    piece: &[u8],
) -> usize
    ensures within { result ≤ length piece.now }
    ensures none { result ≡ 0 → position.new ≡ position.old }
    ensures known { result ≡ 0 → env.new ≡ env.old }
    ensures message { 0 < result → (v : Values A) × SkipsInSection env.old position.old
        in_progress.now env.new position.new piece.now result (Data v ∷ []) }
    // One that is all in the piece is skipped, unless it is a field description.
    ensures whole { in_progress.now ≡ None → (size : ℕ) → HasMessage env.old piece.now size
        → size + 6 ≤ position.old.room → result ≡ size }
{
    let used = skip_plain_message(env, position, in_progress, piece);
    if used > 0 {
        return used;
    }
    let Some(_) = message_type(piece) else {
        return 0;
    };
    skip_any_message(env, position, in_progress, piece)
}
