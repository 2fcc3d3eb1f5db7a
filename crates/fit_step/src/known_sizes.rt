//! How many bytes data messages have, by their record header: a reader that skips records looks there first.
ghost use Rattle.std.specs.Prelude.{◌≡◌, ℕ, ◌<◌, ◌≤◌, ◌+◌, ◌*◌, false, IfSome, List, ◌∷◌, length, slice_index};
ghost use Rattle.fit_step.specs.Skipping.{size_to_skip, AreSizesToSkip, AreTogether, HasSizeOf, HeadsMessage};

use crate::header::{has_reserved_bit, is_definition, local_type};
use fit_record::{Env, FIELD_DESCRIPTION};
use std::alloc::Allocator;

/// How many bytes a data message of a local message type has, or 0 where it may describe a developer field or isn't defined.
fn size_to_skip<A: Allocator>(env: &Env<A>, local: u8) -> u32
    ensures { result ≡ size_to_skip env.now local }
{
    let Some(defined) = env.defined(local) else {
        return 0;
    };
    let Some(size) = env.length(local) else {
        return 0;
    };
    if defined.definition.global == FIELD_DESCRIPTION {
        0
    } else {
        1 + size
    }
}

/// The local message type of the data message that the first byte heads, if it heads one.
#[inline(always)]
pub(crate) fn message_type(bytes: &[u8]) -> Option<u8>
    ensures { IfSome result (HeadsMessage bytes.now) }
{
    let byte = *bytes.first()?;
    if has_reserved_bit(byte) || is_definition(byte) {
        return None;
    }
    Some(local_type(byte))
}

/// How many bytes the data message has that begins these bytes, where its size is known and all of it stands there, or else 0.
#[inline(always)]
pub(crate) fn message_to_skip(sizes: &[u16; 256], bytes: &[u8]) -> usize
    ensures within { result ≤ length bytes.now }
    ensures heads { 0 < result → (b : ℕ) × (rest : List ℕ) × (bytes.now ≡ b ∷ rest)
        × (result ≡ slice_index sizes.now b) }
{
    let Some(byte) = bytes.first() else {
        return 0;
    };
    let size = sizes[*byte as usize] as usize;
    if size > bytes.len() {
        return 0;
    }
    size
}

/// How many bytes a data message of a local message type has, where two bytes hold that, and it may be skipped, or else 0.
pub(crate) fn small_size<A: Allocator>(env: &Env<A>, local: u8) -> u16
    ensures { 0 < result → result ≡ size_to_skip env.now local }
{
    let size = size_to_skip(env, local);
    if size > 65_535 {
        return 0;
    }
    size as u16
}

/// Puts the size of the data messages of a local message type by each record header that they may have.
fn put_by_all(sizes: &mut [u16; 256], local: u8, size: u16)
    requires local { local < 16 }
    requires together { AreTogether sizes.old }
    ensures put { HasSizeOf local size sizes.old sizes.new }
    ensures together { AreTogether sizes.new }
{
    sizes[local as usize] = size;
    if local < 4 {
        let first = 128 + 32 * local as usize;
        for byte in first..first + 32 {
            sizes[byte] = size;
        }
    }
}

/// Whether a size is known by record headers of this local message type that have a time offset.
#[inline(always)]
fn has_compressed(sizes: &[u16; 256], local: u8) -> bool
    ensures { result ≡ false → local < 4 → slice_index sizes.now (128 + 32 * local) ≡ 0 }
{
    if local < 4 {
        return sizes[128 + 32 * local as usize] > 0;
    }
    false
}

/// Puts the size of the data messages of a local message type. Where none is known by the record headers that have a time offset, none is
/// put by them.
#[inline(always)]
pub(crate) fn put_size(sizes: &mut [u16; 256], local: u8, size: u16)
    requires local { local < 16 }
    requires together { AreTogether sizes.old }
    ensures put { HasSizeOf local size sizes.old sizes.new }
    ensures together { AreTogether sizes.new }
{
    if has_compressed(sizes, local) {
        put_by_all(sizes, local, size);
        return;
    }
    sizes[local as usize] = size;
}

/// Puts the size of the data messages of the same local message type as the one that begins these bytes.
pub(crate) fn put_its_size<A: Allocator>(env: &Env<A>, sizes: &mut [u16; 256], bytes: &[u8])
    requires { AreSizesToSkip env.now sizes.old }
    ensures { AreSizesToSkip env.now sizes.new }
{
    let Some(local) = message_type(bytes) else {
        return;
    };
    let size = small_size(env, local);
    if bytes[0] < 128 {
        put_size(sizes, local, size);
        return;
    }
    put_by_all(sizes, local, size);
}
