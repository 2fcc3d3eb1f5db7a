//! Short data messages that pieces cut: their bytes are kept as they came, and no field is made of them. So a message of few bytes under
//! many fields without bytes costs no more where it comes byte by byte.
ghost use Rattle.std.specs.Prelude.{◌≡◌, ℕ, ◌+◌, ◌<◌, ◌≤◌, List, [], ◌∷◌, IfSome, None, length, take};
ghost use Rattle.fit_record.specs.declared.message.Record.{Record};
ghost use Rattle.fit_step.specs.Skipping.{PassesInSection};
ghost use Rattle.fit_step.specs.inner.Short.{IsCutMessage, IsMissing};

use crate::by_bytes::learn_message;
use crate::header::unmade_message;
use crate::known_sizes::message_type;
use crate::{Partial, Phase, Position};
use fit_record::{Env, Record};
use std::alloc::Allocator;

/// The most bytes that a short data message has, with its record header.
const SHORT: usize = 8;

/// How many bytes the data message has that begins these bytes, with its record header, where some of them are missing; else 0.
#[inline(always)]
pub(crate) fn cut_size<A: Allocator>(env: &Env<A>, bytes: &[u8]) -> usize
    ensures { 0 < result → IsCutMessage env.now bytes.now result }
{
    let Some(local) = message_type(bytes) else {
        return 0;
    };
    let Some(size) = env.length(local) else {
        return 0;
    };
    let size = 1 + size as usize;
    if size <= bytes.len() {
        return 0;
    }
    size
}

/// Keeps the first bytes of a data message of this size, which the piece is, where it is short and at least six bytes of the data section
/// are to come after it: how many they are, or 0.
#[inline(never)]
pub(crate) fn keep_first<A: Allocator + Copy>(
    alloc: A,
    env: &Env<A>,
    position: &mut Position,
    in_progress: &mut Option<Record<A>>,
    size: usize,
    piece: &[u8],
) -> usize
    requires { IsCutMessage env.now piece.now size }
    ensures within { result ≤ length piece.now }
    ensures passes { in_progress.old ≡ None → PassesInSection env.now position.old in_progress.old
        env.now position.new in_progress.new (take result piece.now) [] }
{
    let room = position.room;
    if size > SHORT || size + 6 > room as usize {
        return 0;
    }
    let Some(header) = piece.first() else {
        return 0;
    };
    *in_progress = Some(Record::Values(unmade_message(alloc, *header)));
    position.partial = Partial::new().followed_by(piece);
    position.room = room - piece.len() as u32;
    piece.len()
}

/// Keeps more bytes of a short data message, or takes it in with its last one, where at least six bytes of the data section are to come
/// after it: how many bytes of the piece it took, and how many messages are whole with them. Where there is no memory for what the message
/// describes, nothing changes.
#[inline(never)]
pub(crate) fn take_more<A: Allocator + Copy>(
    env: &mut Env<A>,
    position: &mut Position,
    in_progress: &mut Option<Record<A>>,
    piece: &[u8],
) -> (usize, u64)
    ensures within { result.0 ≤ length piece.now }
    ensures passes { (records : List (Record A)) × (length records ≡ result.1)
        × PassesInSection env.old position.old in_progress.old env.new position.new
        in_progress.new (take result.0 piece.now) records }
{
    let Some(missing) = missing_bytes(env, position, in_progress) else {
        return (0, 0);
    };
    let (front, _) = piece.split_at(piece.len().min(missing));
    let bytes = position.partial.followed_by(front);
    if front.len() < missing {
        position.partial = bytes;
        position.room -= front.len() as u32;
        return (front.len(), 0);
    }
    if learn_message(env, bytes.as_slice()) == 0 {
        return (0, 0);
    }
    *position = Position::new(position.room - missing as u32);
    *in_progress = None;
    (missing, 1)
}

/// How many bytes are missing of a short data message of which the bytes are kept as they came, where at least six bytes of the data section
/// are to come after it.
fn missing_bytes<A: Allocator>(
    env: &Env<A>,
    position: &Position,
    in_progress: &Option<Record<A>>,
) -> Option<usize>
    ensures { IfSome result (IsMissing env.now position.now in_progress.now) }
{
    let Some(Record::Values(values)) = in_progress else {
        return None;
    };
    let Phase::RecordHeader = position.phase else {
        return None;
    };
    let size = 1 + env.length(values.local)? as usize;
    let kept = position.partial.len();
    if size > SHORT || kept >= size {
        return None;
    }
    let missing = size - kept;
    if missing + 6 > position.room as usize {
        return None;
    }
    Some(missing)
}
