//! Blocks of definitions.
ghost use Rattle.std.specs.Prelude.{◌≡◌, ◌≤◌, [], IfErr, IfOk, OnOk, length};
ghost use Rattle.fit_from_messages.specs.Alone.{why_no_parts};
ghost use Rattle.fit_from_messages.specs.Parts as parts;
ghost use Rattle.fit_from_messages.specs.Parts.{definition_in, slots_in};
ghost use Rattle.fit_from_messages.specs.SaysChain.{Begun, why_no_definition};
ghost use Rattle.fit_from_messages.specs.inner.Definitions.{IsReadable};
ghost use Rattle.fit_from_messages.specs.Misfits.{IsMisfitBlock};

use crate::BlockReason;
use crate::entries::entries_in;
use crate::fields::{read_devs, read_fields};
use crate::misfit::Misfit;
use crate::parts::short_at;
use crate::slot::Slot;
use fit_base::{Entries, Order};
use fit_record::MessageDef;
use std::alloc::Global;

/// The byte order that a block says.
fn order_in(block: &[u8]) -> Order
    requires { 24 ≤ length block.now }
    ensures { result ≡ parts.order_read block.now }
{
    if block[6] == 0 {
        Order::Little
    } else {
        Order::Big
    }
}

/// Reads the block of a definition, all but whether the items of developer fields have their width, and puts where the items of its messages
/// are into an empty list.
pub(crate) fn read_definition(
    alloc: Global,
    slots: &mut Entries<Slot>,
    block: &[u8],
) -> Result<MessageDef, Misfit>
    requires front { 24 ≤ length block.now }
    requires empty { slots.old ≡ [] }
    ensures readable { OnOk result (IsReadable block.now) }
    ensures definition { IfOk result (λ definition. definition ≡ definition_in block.now) }
    ensures slots { OnOk result (slots.new ≡ slots_in block.now) }
    ensures err { IfErr result (λ misfit. (f : Begun)
        → IsMisfitBlock (why_no_definition f block.now) misfit) }
    ensures alone { IfErr result (IsMisfitBlock (why_no_parts block.now)) }
{
    if block[5] >= 16 {
        return Err(Misfit::Block(BlockReason::Local));
    }
    if block[6] >= 2 {
        return Err(Misfit::Block(BlockReason::Architecture));
    }
    let Some(entries) = entries_in(block) else {
        return Err(Misfit::Block(BlockReason::Entries));
    };
    let fields = read_fields(alloc, slots, entries.fields, entries.field_count)?;
    let dev = read_devs(alloc, slots, entries.dev, entries.dev_count)?;
    Ok(MessageDef {
        local: block[5],
        reserved: block[7],
        order: order_in(block),
        global: short_at(32, block),
        fields,
        dev: if entries.has_dev { Some(dev) } else { None },
    })
}
