//! Data messages that are taken in by their bytes, field descriptions among them: no numbers are made of them.
ghost use Rattle.std.specs.Prelude.{◌≡◌, ◌<◌, ◌≤◌, IfSome, length, take};
ghost use Rattle.fit_step.specs.inner.ByBytes.{IsLearned, StandsThere};

use fit_record::{Description, Env, FIELD_DESCRIPTION};
use std::alloc::Allocator;

/// How many bytes the data message has that begins these bytes, where all of it stands there, what it describes, and whether it is no
/// field description.
#[inline(always)]
fn message_there<A: Allocator>(
    env: &Env<A>,
    bytes: &[u8],
) -> Option<(usize, Option<Description>, bool)>
    ensures { IfSome result (λ found. StandsThere env.now bytes.now found.0 found.1) }
{
    let message = env.message_bytes(bytes)?;
    let is_plain = message.defined.definition.global != FIELD_DESCRIPTION;
    Some((1 + message.body.len(), message.description(), is_plain))
}

/// Takes in the data message that begins these bytes, where all of it stands there: how many bytes it has, or else 0, and whether it is
/// no field description. Where there is no memory for what it describes, nothing changes.
#[inline(always)]
pub(crate) fn learn_any<A: Allocator + Copy>(env: &mut Env<A>, bytes: &[u8]) -> (usize, bool)
    ensures within { result.0 ≤ length bytes.now }
    ensures places { env.new.places ≡ env.old.places }
    ensures none { result.0 ≡ 0 → env.new ≡ env.old }
    ensures learned { 0 < result.0 → IsLearned env.old env.new (take result.0 bytes.now) }
{
    let Some((size, description, is_plain)) = message_there(env, bytes) else {
        return (0, false);
    };
    let Some(description) = description else {
        return (size, is_plain);
    };
    match env.describe(description) {
        Ok(()) => (size, false),
        Err(_) => (0, false),
    }
}

/// The same; it doesn't tell the last.
pub(crate) fn learn_message<A: Allocator + Copy>(env: &mut Env<A>, bytes: &[u8]) -> usize
    ensures within { result ≤ length bytes.now }
    ensures places { env.new.places ≡ env.old.places }
    ensures none { result ≡ 0 → env.new ≡ env.old }
    ensures learned { 0 < result → IsLearned env.old env.new (take result bytes.now) }
{
    let (size, _) = learn_any(env, bytes);
    size
}
