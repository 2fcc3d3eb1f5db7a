//! How much there is of the record in progress.
ghost use Rattle.std.specs.Prelude.{◌≡◌, ◌-◌, ◌≤◌};
ghost use Rattle.fit_record.specs.Records.{sizes};
ghost use Rattle.fit_step.specs.Held.{items_so_far};
ghost use Rattle.fit_step.specs.InProgress.{in_progress_size, items_in, IsCountable, kept_size, values_size};

use crate::{Phase, Position};
use fit_base::{Code, Items, width_of};
use fit_record::{Env, Layout, Record, Values, entry_count};
use std::alloc::Allocator;

/// How many items fields have.
fn items_in<A: Allocator>(fields: &[Items<A>]) -> u64
    requires { items_in fields.now ≤ 130560 }
    ensures { result ≡ items_in fields.now }
{
    let mut count = 0;
    for field in fields {
        count += field.bits.len() as u64;
    }
    count
}

/// How many fields and developer fields a data message has, and how many items these.
fn values_size<A: Allocator>(v: &Values<A>) -> u64
    requires { values_size v.now ≤ 130560 }
    ensures { result ≡ values_size v.now }
{
    let fields = v.fields.as_slice();
    let dev = v.dev.as_slice();
    fields.len() as u64 + dev.len() as u64 + items_in(fields) + items_in(dev)
}

/// How many items are whole in that many bytes of fields, and how many of the bytes are left after the fields. Each call is a walk of its own,
/// which knows where its layout stands.
#[inline(always)]
fn items_so_far(layout: &Layout<'_>, count: usize) -> (u64, usize)
    requires { count ≤ 8 }
    ensures items { result.0 ≡ items_so_far layout.now count }
    ensures left { result.1 ≡ count - sizes layout.now }
    ensures few { result.0 ≤ count }
{
    let mut items = 0;
    let mut left = count;
    for place in 0..layout.len() {
        let (code, size) = layout.shape(place);
        let here = left.min(size as usize);
        items += (here / width_of(Code(code), size) as usize) as u64;
        left -= here;
    }
    (items, left)
}

/// How much there is of a data message of which that many bytes are kept as they came: the fields and developer fields of its definition, and
/// the items that are whole in the bytes.
#[cold]
#[inline(never)]
fn kept_size<A: Allocator>(env: &Env<A>, local: u8, count: usize) -> u64
    requires few { count ≤ 8 }
    ensures { result ≡ kept_size env.now local count }
{
    let Some(defined) = env.defined(local) else {
        return 0;
    };
    let (fields, left) = items_so_far(&defined.layout(), count.saturating_sub(1));
    let (dev, _) = items_so_far(&defined.dev_layout(), left);
    entry_count(&defined.definition) + fields + dev
}

/// How many entries and items there are of the record in progress.
pub fn in_progress_size<A: Allocator>(
    env: &Env<A>,
    position: &Position,
    in_progress: &Option<Record<A>>,
) -> u64
    requires { IsCountable env.now position.now in_progress.now }
    ensures size { result ≡ in_progress_size env.now position.now in_progress.now }
    ensures small { result ≤ 130560 }
{
    match in_progress {
        None => 0,
        Some(Record::Define(definition)) => entry_count(definition),
        Some(Record::Values(values)) => match position.phase {
            Phase::RecordHeader => kept_size(env, values.local, position.partial.len()),
            _ => values_size(values),
        },
    }
}
