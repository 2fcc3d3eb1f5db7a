//! The lengths of records and of a data section.
ghost use Rattle.std.specs.Prelude.{◌≡◌, ◌<◌, ◌≤◌, ◌^◌, length};
ghost use Rattle.fit_record.specs.Environment.{empty_environment};
ghost use Rattle.fit_record.specs.Records.{AllFit, DefinitionFits, records_bytes};
ghost use Rattle.fit_record.specs.DefinitionLengths.{definition_length};
ghost use Rattle.fit_encode.specs.inner.Spelling.{size_in, sizes_after, IsSpellable};

use fit_record::{MessageDef, Record, body_length};
use std::alloc::Allocator;

/// How many bytes records have that can stand one after another, where they are fewer than 2^32.
pub(crate) fn data_length<A: Allocator>(records: &[Record<A>]) -> u32
    requires fit { AllFit empty_environment records.now }
    requires small { length (records_bytes empty_environment records.now) < 2 ^ 32 }
    ensures { result ≡ length (records_bytes empty_environment records.now) }
{
    let mut sizes = [0; 16];
    let mut length: u32 = 0;
    for r in records {
        length += size_in(&sizes, r) as u32;
        note_size(&mut sizes, r);
    }
    length
}

/// How many bytes a record has, where these follow the record header of a data message of each local message type.
pub(crate) fn size_in<A: Allocator>(sizes: &[u32; 16], r: &Record<A>) -> usize
    requires { IsSpellable r.now }
    ensures { result ≡ size_in sizes.now r.now }
{
    match r {
        Record::Define(d) => definition_length(d),
        Record::Values(v) => match sizes.get(v.local as usize) {
            Some(size) => 1 + *size as usize,
            None => 1,
        },
    }
}

/// Keeps how many bytes follow the record header of a data message of a definition.
pub(crate) fn note_size<A: Allocator>(sizes: &mut [u32; 16], r: &Record<A>)
    requires { IsSpellable r.now }
    ensures { sizes.new ≡ sizes_after sizes.old r.now }
{
    if let Record::Define(d) = r {
        if d.local < 16 {
            sizes[d.local as usize] = body_length(d);
        }
    }
}

/// How many bytes a definition message has.
pub(crate) fn definition_length<A: Allocator>(d: &MessageDef<A>) -> usize
    requires { DefinitionFits d.now }
    ensures length { result ≡ definition_length d.now }
    ensures small { result ≤ 1537 }
{
    let fields = 6 + 3 * d.fields.len();
    match &d.dev {
        None => fields,
        Some(dev) => fields + 1 + 3 * dev.len(),
    }
}
