//! The rows of definition messages that come again, copied from those put before.
ghost use Rattle.std.specs.Prelude.{◌≡◌, ◌↔◌, IfOk, IfSome, IsTrue, OnOk};
ghost use Rattle.fit_cells.specs.Rows.{HasRows, csv_text};
ghost use Rattle.fit_rows.specs.ChainRows as rows;

use crate::definition::put_definition;
use fit_base::{Entries, Order};
use fit_record::{DevDef, MessageDef, same_fields};
use std::alloc::{AllocError, Global};
use std::marker::Model;

/// How many definitions are kept at most, and of how many the mark is noted.
const MOST: usize = 16;

/// Three bytes as one number.
#[inline(always)]
fn joined(a: u8, b: u8, c: u8) -> u64 {
    u64::from(a) + 256 * u64::from(b) + 65_536 * u64::from(c)
}

/// A mark with a number more.
#[inline(always)]
fn mixed(mark: u64, number: u64) -> u64 {
    (mark ^ number)
        .wrapping_mul(0x9E37_79B9_7F4A_7C15)
        .rotate_left(29)
}

/// The mark of all that stands before the fields, of how many these are, and of whether developer fields come after them.
fn front_mark(definition: &MessageDef) -> u64 {
    let order = match definition.order {
        Order::Little => 0,
        Order::Big => 1,
    };
    let front = joined(definition.local, definition.reserved, order);
    let fields = (definition.fields.len() as u64).wrapping_mul(2);
    let count = fields ^ u64::from(definition.dev.is_some());
    mixed(mixed(u64::from(definition.global), front), count)
}

/// A number by which most definitions differ, however much they have in common. Those with the same mark are compared.
fn mark_of(definition: &MessageDef) -> u64 {
    let mut mark = front_mark(definition);
    for field in definition.fields.as_slice() {
        mark = mixed(mark, joined(field.number, field.size, field.code));
    }
    if let Some(fields) = &definition.dev {
        for field in fields.as_slice() {
            mark = mixed(mark, joined(field.number, field.size, field.index));
        }
    }
    mark
}

/// Whether the developer fields are the same one by one.
fn are_same_devs(a: &[DevDef], b: &[DevDef]) -> bool
    ensures { IsTrue result ↔ (a.now ≡ b.now) }
{
    a == b
}

/// Whether definitions have the same developer fields, or both no such part.
fn have_same_devs(a: &Option<Entries<DevDef>>, b: &Option<Entries<DevDef>>) -> bool
    ensures { IsTrue result ↔ (a.now ≡ b.now) }
{
    match (a, b) {
        (Some(a), Some(b)) => are_same_devs(a.as_slice(), b.as_slice()),
        (None, None) => true,
        _ => false,
    }
}

/// The same developer fields, in memory of their own.
fn devs_copy(
    alloc: Global,
    devs: &Option<Entries<DevDef>>,
) -> Result<Option<Entries<DevDef>>, AllocError>
    ensures { IfOk result (λ copy. copy ≡ devs.now) }
{
    match devs {
        None => Ok(None),
        Some(devs) => {
            let devs = Entries::from_slice(alloc, devs.as_slice())?;
            Ok(Some(devs))
        }
    }
}

/// A definition message and the text of its rows.
#[derive(Drop)]
struct KeptRows {
    mark: u64,
    definition: MessageDef,
    text: Vec<u8>,
}

impl Model for KeptRows {
    ghost use Rattle.std.specs.Prelude.{◌≡◌};
    ghost use Rattle.std.specs.Global.{Global};
    ghost use Rattle.fit_record.specs.declared.definition.MessageDef.{MessageDef};
    ghost use Rattle.fit_cells.specs.Rows.{csv_text};
    ghost use Rattle.fit_rows.specs.ChainRows.{definition_rows};

    ghost Value = { MessageDef Global };

    ghost view = { λ k. k.definition };

    ghost invariant = { λ k. k.text.items ≡ csv_text (definition_rows k.definition) };
}

impl KeptRows {
    /// Those of this definition message, which has this mark and which this text shows.
    fn new(
        alloc: Global,
        mark: u64,
        definition: &MessageDef,
        text: &[u8],
    ) -> Result<KeptRows, AllocError>
        requires { text.now ≡ csv_text (rows.definition_rows definition.now) }
        ensures { IfOk result (λ k. k ≡ definition.now) }
    {
        let fields = Entries::from_slice(alloc, definition.fields.as_slice())?;
        let dev = devs_copy(alloc, &definition.dev)?;
        Ok(KeptRows {
            mark,
            definition: MessageDef {
                local: definition.local,
                reserved: definition.reserved,
                order: definition.order,
                global: definition.global,
                fields,
                dev,
            },
            text: Vec::from_slice(alloc, text)?,
        })
    }

    /// Whether they are those of this definition message.
    #[inline(never)]
    fn are_of(&self, definition: &MessageDef) -> bool
        ensures { IsTrue result ↔ (self.now ≡ definition.now) }
    {
        let own = &self.definition;
        own.local == definition.local
            && own.global == definition.global
            && own.reserved == definition.reserved
            && own.order == definition.order
            && same_fields(own.fields.as_slice(), definition.fields.as_slice())
            && have_same_devs(&own.dev, &definition.dev)
    }

    /// Puts the rows.
    fn put(&self, text: &mut Vec<u8>) -> Result<(), AllocError>
        ensures { OnOk result (HasRows (rows.definition_rows self.now) text.old text.new) }
    {
        text.extend_from_slice(self.text.as_slice())
    }
}

/// Puts the rows of definition messages, and keeps those that come again, at most sixteen.
#[derive(Drop)]
pub(crate) struct DefinitionRows {
    alloc: Global,
    /// The last ones that were kept.
    kept: Vec<KeptRows>,
    /// Which of these gives way to the next.
    oldest: usize,
    /// The marks of the last definitions that were put and not kept.
    seen: [u64; MOST],
    /// Which of these gives way to the next.
    first_seen: usize,
}

impl Model for DefinitionRows {
    ghost use Rattle.std.specs.Prelude.{◌≤◌, length};

    ghost Value = { Unit {0} };

    ghost view = { λ d. tt };

    ghost invariant = { λ d. length d.kept.items ≤ 16 };
}

impl DefinitionRows {
    /// It has put no rows.
    pub(crate) fn new(alloc: Global) -> DefinitionRows {
        DefinitionRows {
            alloc,
            kept: Vec::new(alloc),
            oldest: 0,
            seen: [0; MOST],
            first_seen: 0,
        }
    }

    /// Notes the mark of a definition, and says whether it was noted before.
    fn has_seen(&mut self, mark: u64) -> bool {
        if self.seen.contains(&mark) {
            return true;
        }
        let place = self.first_seen % MOST;
        self.seen[place] = mark;
        self.first_seen = place + 1;
        false
    }

    /// Keeps rows, in place of the oldest where there are many. Where memory is refused they aren't kept: that costs time alone.
    fn keep(&mut self, rows: KeptRows) {
        if self.kept.len() < MOST {
            let _ = self.kept.push(rows);
            return;
        }
        let place = self.oldest % MOST;
        self.kept[place] = rows;
        self.oldest = place + 1;
    }

    /// Puts the rows of a definition message with this mark that aren't kept, and keeps them where the mark was noted before.
    #[inline(never)]
    fn put_new(
        &mut self,
        text: &mut Vec<u8>,
        mark: u64,
        definition: &MessageDef,
    ) -> Result<(), AllocError>
        ensures { OnOk result (HasRows (rows.definition_rows definition.now) text.old text.new) }
    {
        let start = text.len();
        put_definition(text, definition)?;
        if self.has_seen(mark) {
            let (_, own) = text.as_slice().split_at(start);
            if let Ok(kept) = KeptRows::new(self.alloc, mark, definition, own) {
                self.keep(kept);
            }
        }
        Ok(())
    }

    /// Those of this definition message, which has this mark, where they are kept.
    fn kept_of(&self, mark: u64, definition: &MessageDef) -> Option<&KeptRows>
        ensures { IfSome result (λ k. k.now ≡ definition.now) }
    {
        for kept in self.kept.as_slice() {
            if kept.mark == mark && kept.are_of(definition) {
                return Some(kept);
            }
        }
        None
    }

    /// Puts the rows of a definition message.
    pub(crate) fn put(
        &mut self,
        text: &mut Vec<u8>,
        definition: &MessageDef,
    ) -> Result<(), AllocError>
        ensures { OnOk result (HasRows (rows.definition_rows definition.now) text.old text.new) }
    {
        let mark = mark_of(definition);
        if let Some(kept) = self.kept_of(mark, definition) {
            return kept.put(text);
        }
        self.put_new(text, mark, definition)
    }
}
