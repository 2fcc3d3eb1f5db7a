//! Definition messages with developer fields, of which all bytes are in one piece.
ghost use Rattle.std.specs.Prelude.{◌≡◌, ◌*◌, IfOk, IfSome, flat_map, length};
ghost use Rattle.fit_record.specs.declared.message.Record.TheVariants.{Define};
ghost use Rattle.fit_record.specs.Environment.{Environment};
ghost use Rattle.fit_record.specs.Records.{dev_field_bytes};
ghost use Rattle.fit_step.specs.inner.Definitions.{BeginsWide};
ghost use Rattle.fit_step.specs.inner.Whole.{StandsWhole};

use crate::read_definition::{Front, front_bytes, read_fields, with_fields};
use fit_base::Entries;
use fit_record::{DevDef, MessageDef};
use std::alloc::{AllocError, Allocator};

/// The definition message with developer fields that begins the piece, where all its bytes stand there: what it says before its fields,
/// their bytes, the number of its developer fields, and their bytes.
#[inline(always)]
fn wide_bytes(piece: &[u8]) -> Option<(Front, &[u8], u8, &[u8])>
    ensures { IfSome result (λ found.
        BeginsWide found.0 found.1.now found.2 found.3.now piece.now) }
{
    let (front, entries) = front_bytes(true, piece)?;
    let (_, after) = piece.split_at(6 + entries.len());
    let (count, rest) = after.split_first()?;
    let size = *count as usize * 3;
    if rest.len() < size {
        return None;
    }
    let (devs, _) = rest.split_at(size);
    Some((front, entries, *count, devs))
}

/// The developer fields, three bytes for each.
#[inline(always)]
fn read_dev_fields<A: Allocator>(
    alloc: A,
    count: u8,
    bytes: &[u8],
) -> Result<Entries<DevDef, A>, AllocError>
    requires { length bytes.now ≡ 3 * count }
    ensures { IfOk result (λ fields. (length fields ≡ count)
        × (flat_map dev_field_bytes fields ≡ bytes.now)) }
{
    let mut fields = Entries::with_capacity(alloc, count as usize)?;
    let mut rest = bytes;
    for _ in 0..count {
        let (entry, after) = rest.split_at(3);
        fields.push(DevDef {
            number: entry[0],
            size: entry[1],
            index: entry[2],
        })?;
        rest = after;
    }
    Ok(fields)
}

/// The definition message with developer fields that begins the piece, where all its bytes stand there and six bytes or more of the data
/// section are to come after it, and how many bytes it has. There is none where memory is refused. It stands apart, since few definitions
/// have developer fields.
#[cold]
#[inline(never)]
pub(crate) fn developer_definition<A: Allocator + Copy>(
    alloc: A,
    room: u32,
    piece: &[u8],
) -> Option<(MessageDef<A>, usize)>
    ensures { (e : Environment A) → IfSome result (λ found.
        StandsWhole e room piece.now (Define found.0) found.1) }
{
    let (front, entries, count, devs) = wide_bytes(piece)?;
    let size = 7 + entries.len() + devs.len();
    if size + 6 > room as usize {
        return None;
    }
    let Ok(fields) = read_fields(alloc, front.count, entries) else {
        return None;
    };
    let Ok(dev) = read_dev_fields(alloc, count, devs) else {
        return None;
    };
    Some((with_fields(front, fields).with_dev(dev), size))
}
