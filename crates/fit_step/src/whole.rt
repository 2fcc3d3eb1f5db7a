//! Records of which all bytes are in one piece.
ghost use Rattle.std.specs.Prelude.{◌≡◌, ℕ, List, ◌+◌, ◌*◌, ◌<◌, ◌≤◌, IfSome, IsSomeAnd, None, OnErr, OnOk, length};
ghost use Rattle.fit_record.specs.declared.message.Record.TheVariants.{Define, Values as Data};
ghost use Rattle.fit_record.specs.Environment.{Environment, learn};
ghost use Rattle.fit_record.specs.Records.{DefinitionFits};
ghost use Rattle.fit_step.specs.Skipping.{HasMessage};
ghost use Rattle.fit_step.specs.declared.read_definition.Front.{Front as Fronts};
ghost use Rattle.fit_step.specs.inner.Definitions.{AreFields, Begins, definition_of};
ghost use Rattle.fit_step.specs.inner.Whole.{IsPlain, StandsWhole};

use crate::read_definition::{Front, definition_bytes, read_fields, with_fields};
use crate::repeated::is_known;
use fit_base::Entries;
use fit_record::{Env, FIELD_DESCRIPTION, MessageBytes, MessageDef, Record, Values};
use std::alloc::{AllocError, Allocator};

/// The data message that begins the piece, where all its bytes stand there, and how many they are. There is none where a byte is
/// to be refused, and where memory is refused: then its bytes come one by one.
#[inline(always)]
pub(crate) fn whole_message<A: Allocator + Copy>(
    alloc: A,
    env: &Env<A>,
    room: u32,
    piece: &[u8],
) -> Option<(Values<A>, usize)>
    requires { 0 < room }
    ensures { IfSome result (λ found. StandsWhole env.now room piece.now (Data found.0) found.1) }
{
    let message = env.message_bytes(piece)?;
    if !env.can_carry(message.local, room - 1) {
        return None;
    }
    let Ok(values) = message.values(alloc) else {
        return None;
    };
    Some((values, 1 + message.body.len()))
}

/// The data message that begins the piece, where a record begins, all its bytes stand there, it is no field description, and six bytes
/// or more of the data section are to come after it: nothing is learned of it, and records can fill them, whatever is defined.
#[inline(always)]
pub(crate) fn next_message<'a, A: Allocator>(
    env: &'a Env<A>,
    room: u32,
    piece: &'a [u8],
) -> Option<MessageBytes<'a, A>>
    ensures plain { IfSome result (IsPlain env.now room None piece.now) }
    ensures whole { (size : ℕ) → HasMessage env.now piece.now size → size + 6 ≤ room
        → IsSomeAnd result (λ m. 1 + length m.body.now ≡ size) }
{
    let Some(message) = env.message_bytes(piece) else {
        return None;
    };
    if message.defined.definition.global == FIELD_DESCRIPTION {
        return None;
    }
    let used = 1 + message.body.len();
    if used + 6 > room as usize {
        return None;
    }
    Some(message)
}

/// The same, where no byte of a record has come.
#[inline(always)]
pub(crate) fn plain_message<'a, A: Allocator>(
    env: &'a Env<A>,
    room: u32,
    in_progress: &Option<Record<A>>,
    piece: &'a [u8],
) -> Option<MessageBytes<'a, A>>
    ensures plain { IfSome result (IsPlain env.now room in_progress.now piece.now) }
    ensures whole { in_progress.now ≡ None → (size : ℕ) → HasMessage env.now piece.now size
        → size + 6 ≤ room → IsSomeAnd result (λ m. 1 + length m.body.now ≡ size) }
{
    match in_progress {
        Some(_) => None,
        None => next_message(env, room, piece),
    }
}

/// The definition message without developer fields that begins the piece, where no byte of a record has come, all its bytes stand there,
/// and six bytes or more of the data section are to come after it: what it says before its fields, and their bytes.
#[inline(always)]
pub(crate) fn plain_definition<'a, A: Allocator>(
    room: u32,
    in_progress: &Option<Record<A>>,
    piece: &'a [u8],
) -> Option<(Front, &'a [u8])>
    ensures idle { IfSome result (λ found. in_progress.now ≡ None) }
    ensures begins { IfSome result (λ found. Begins found.0 found.1.now piece.now) }
    ensures left { IfSome result (λ found. 6 + length found.1.now + 6 ≤ room) }
    ensures whole { in_progress.now ≡ None → (f : Fronts) (entries : List ℕ)
        → Begins f entries piece.now → 6 + length entries + 6 ≤ room
        → IsSomeAnd result (λ found. length found.1.now ≡ length entries) }
{
    match in_progress {
        Some(_) => return None,
        None => {}
    }
    let Some((front, entries)) = definition_bytes(piece) else {
        return None;
    };
    let size = 6 + entries.len();
    if size + 6 > room as usize {
        return None;
    }
    Some((front, entries))
}

/// The definition message without developer fields that begins the piece, where all its bytes stand there and the data section ends
/// with it, and how many bytes it has. There is none where memory is refused. It stands apart, since few data sections end so.
#[cold]
#[inline(never)]
pub(crate) fn last_definition<A: Allocator + Copy>(
    alloc: A,
    room: u32,
    piece: &[u8],
) -> Option<(MessageDef<A>, usize)>
    ensures { (e : Environment A) → IfSome result (λ found.
        StandsWhole e room piece.now (Define found.0) found.1) }
{
    let (front, entries) = definition_bytes(piece)?;
    let size = 6 + entries.len();
    if size != room as usize {
        return None;
    }
    let Ok(fields) = read_fields(alloc, front.count, entries) else {
        return None;
    };
    Some((with_fields(front, fields), size))
}

/// Learns a definition that these bytes spell, with memory of its own where it isn't known already.
#[inline(always)]
pub(crate) fn learn_copy<A: Allocator + Copy>(
    alloc: A,
    env: &mut Env<A>,
    front: Front,
    entries: &[u8],
    definition: &MessageDef<A>,
) -> Result<(), AllocError>
    requires long { length entries.now ≡ 3 * front.count }
    requires fields { AreFields front entries.now definition.now.fields }
    requires is { definition.now ≡ definition_of front definition.now.fields }
    requires fits { DefinitionFits definition.now }
    ensures ok { OnOk result (env.new ≡ learn env.old (Define definition.now)) }
    ensures err { OnErr result (env.new ≡ env.old) }
{
    if is_known(env, front, entries) {
        return Ok(());
    }
    let fields = Entries::from_slice(alloc, definition.fields.as_slice())?;
    env.define(with_fields(front, fields))
}
