//! The spelling of one record (FIT protocol, "Record Header", "Definition Message", "Data Message").
ghost use Rattle.std.specs.Prelude.{◌≡◌, ◌⊎◌, ◌<◌, ◌≤◌, ◌++◌, [], ◌∷◌, flat_map, length};
ghost use Rattle.std.specs.List.{AllByRecursion};
ghost use Rattle.fit_base.specs.Fields.{items_bytes};
ghost use Rattle.fit_record.specs.Records.{DefinitionFits, data_header, data_bytes, DataHeaderFits};
ghost use Rattle.fit_encode.specs.inner.Sending.{sink_state, Sends};
ghost use Rattle.fit_encode.specs.inner.Spelling.{bytes_in_order, definition_head, HasBytes, IsSpellable};

use crate::Sink;
use crate::spelling::{SHORT, Spelling};
use fit_base::{Items, Order};
use fit_record::{MessageDef, Record, Values};
use std::alloc::Allocator;

/// Spells a record of this many bytes. The order is that of its local message type where it is a data message.
#[inline]
pub(crate) fn spell_record<K: Sink, A: Allocator>(
    out: &mut Spelling,
    sink: &mut K,
    order: Order,
    size: usize,
    r: &Record<A>,
) -> Result<(), u64>
    requires spellable { IsSpellable r.now }
    requires size { size ≡ length (bytes_in_order order r.now) }
    ensures { Sends
        (sink_state K.contents K.has_failed sink.old) (sink_state K.contents K.has_failed sink.new)
        out.old out.new (bytes_in_order order r.now) result }
{
    if size <= SHORT {
        return out.record(sink, order, size, r);
    }
    match r {
        Record::Define(_) => unreachable!(),
        Record::Values(v) => spell_values(out, sink, order, v),
    }
}

/// The record header, and what follows it up to the number of fields.
pub(crate) fn definition_head<A: Allocator>(d: &MessageDef<A>) -> [u8; 6]
    requires { DefinitionFits d.now }
    ensures { result ≡ definition_head d.now }
{
    let developer_flag = if d.dev.is_some() { 0x20 } else { 0 };
    let (architecture, global) = match d.order {
        Order::Little => (0, d.global.to_le_bytes()),
        Order::Big => (1, d.global.to_be_bytes()),
    };
    [
        0x40 + d.local + developer_flag,
        d.reserved,
        architecture,
        global[0],
        global[1],
        d.fields.len() as u8,
    ]
}

/// Spells a data message of any length.
fn spell_values<K: Sink, A: Allocator>(
    out: &mut Spelling,
    sink: &mut K,
    order: Order,
    v: &Values<A>,
) -> Result<(), u64>
    requires header { DataHeaderFits v.now.local v.now.offset }
    requires fields { AllByRecursion HasBytes v.now.fields }
    requires dev_fields { AllByRecursion HasBytes v.now.dev }
    ensures { Sends
        (sink_state K.contents K.has_failed sink.old) (sink_state K.contents K.has_failed sink.new)
        out.old out.new (data_header v.now.local v.now.offset ∷ data_bytes order v.now) result }
{
    out.bytes(sink, &[data_header(v.local, v.offset)])?;
    spell_lists(out, sink, order, v.fields.as_slice())?;
    spell_lists(out, sink, order, v.dev.as_slice())
}

/// The record header of a data message.
pub(crate) fn data_header(local: u8, offset: Option<u8>) -> u8
    requires { DataHeaderFits local offset }
    ensures { result ≡ data_header local offset }
{
    match offset {
        None => local,
        Some(offset) => 0x80 + 32 * local + offset,
    }
}

/// Spells the items of fields.
fn spell_lists<K: Sink, A: Allocator>(
    out: &mut Spelling,
    sink: &mut K,
    order: Order,
    lists: &[Items<A>],
) -> Result<(), u64>
    requires { AllByRecursion HasBytes lists.now }
    ensures { Sends
        (sink_state K.contents K.has_failed sink.old) (sink_state K.contents K.has_failed sink.new)
        out.old out.new (flat_map (items_bytes order) lists.now) result }
{
    for items in lists {
        spell_items(out, sink, order, items)?;
    }
    Ok(())
}

/// Spells the items of one field.
fn spell_items<K: Sink, A: Allocator>(
    out: &mut Spelling,
    sink: &mut K,
    order: Order,
    items: &Items<A>,
) -> Result<(), u64>
    requires { HasBytes items.now }
    ensures { Sends
        (sink_state K.contents K.has_failed sink.old) (sink_state K.contents K.has_failed sink.new)
        out.old out.new (items_bytes order items.now) result }
{
    for bits in items.bits.as_slice() {
        out.number(sink, order, items.width, *bits)?;
    }
    Ok(())
}
