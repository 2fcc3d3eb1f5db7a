//! A file of which some blocks have come.
ghost use Rattle.std.specs.Prelude.{◌≡◌, ◌≤◌, ◌+◌, ◌<◌, ◌++◌, ◌∷◌, [], None, IfErr, IfSome, IsNone, OnErr, OnOk, Some, drop, length, slice_index_or, slice_set};
ghost use Rattle.std.specs.Global.{Global};
ghost use Rattle.fit_record.specs.declared.environment.Defined.{Defined};
ghost use Rattle.fit_record.specs.declared.message.Record.TheVariants.{Define};
ghost use Rattle.fit_record.specs.Environment.{defined_at, empty_environment, learn, learn_all};
ghost use Rattle.fit_record.specs.Records.{DefinitionFits, dev_layout};
ghost use Rattle.fit_from_messages.specs.SaysChain.{after_definition, after_message, why_no_definition, why_no_message};
ghost use Rattle.fit_from_messages.specs.inner.Cutting.{widths_fit};
ghost use Rattle.fit_from_messages.specs.Misfits.{IsMisfitBlock};
ghost use Rattle.fit_from_messages.specs.inner.OpenFiles.{IsGoodFile, begun_of};

use crate::BlockReason;
use crate::definition::read_definition;
use crate::message::{learn_message, spell_message};
use crate::misfit::Misfit;
use crate::slot::{Slot, Slots};
use fit_base::{Code, Entries, width_of};
use fit_encode::SpelledRecords;
use fit_frame::Header;
use fit_record::{Env, Layout, MessageDef, Record};
use std::alloc::{AllocError, Global};

/// For each local message type, where the last definition says that the items of its messages are.
pub(crate) type SlotLists = [Slots; 16];

/// A file of which some blocks have come.
pub(crate) struct OpenFile {
    pub header: Header,
    /// The records that have come.
    pub records: SpelledRecords,
    /// What they have defined and described.
    pub env: Env,
    pub slots: SlotLists,
    /// Where the bytes of a message are made.
    pub message: Vec<u8>,
}

// A call wherever a file is dropped: derived, all that it frees would be written out and proved there.
impl Drop for OpenFile {
    fn drop(self) {
        let OpenFile {
            message: _message,
            slots: _slots,
            env: _env,
            records: _records,
            header: _,
        } = self;
    }
}

/// Where the items of the messages of a local message type are, as far as it is defined. None where there is no such type.
#[inline(always)]
fn slots_at(slots: &SlotLists, local: u8) -> Option<&Slots>
    ensures some { IfSome result (λ found. found.now ≡ slice_index_or slots.now local []) }
    ensures none { IsNone result → 16 ≤ local }
{
    slots.get(local as usize)
}

/// Keeps where the items of the messages of a local message type are.
fn set_slots(slots: &mut SlotLists, local: u8, new: Slots)
    requires { local < 16 }
    ensures set { slots.new ≡ slice_set slots.old local new }
    ensures length { length slots.old ≡ 16 }
{
    slots[local as usize] = new;
}

/// Whether the items of fields have the width that base type and size give.
fn widths_fit(layout: &Layout<'_>, slots: &[Slot]) -> bool
    requires { length slots.now ≡ length layout.now }
    ensures { result ≡ widths_fit layout.now slots.now }
{
    for n in 0..layout.len() {
        let (code, size) = layout.shape(n);
        let slot = slots[n];
        if width_of(Code(code), size) != slot.width {
            return false;
        }
    }
    true
}

/// Whether the items of the developer fields of a local message type have the width that their base types and sizes give.
fn dev_widths_fit(env: &Env, local: u8, slots: &[Slot]) -> bool
    requires { (p : Defined Global) × (defined_at env.now local ≡ Some p)
        × (length slots.now ≡ length p.definition.fields + length (dev_layout p)) }
    ensures { (p : Defined Global) → defined_at env.now local ≡ Some p
        → result ≡ widths_fit (dev_layout p) (drop (length p.definition.fields) slots.now) }
{
    let Some(defined) = env.defined(local) else {
        unreachable!()
    };
    let (_, dev) = slots.split_at(defined.definition.fields.len());
    widths_fit(&defined.dev_layout(), dev)
}

/// Puts a definition at the end of records, and learns it.
fn add_definition(
    records: &mut SpelledRecords,
    env: &mut Env,
    definition: MessageDef,
) -> Result<(), AllocError>
    requires known { env.old ≡ learn_all empty_environment records.old }
    requires fits { DefinitionFits definition }
    ensures records { OnOk result (records.new ≡ records.old ++ Define definition ∷ []) }
    ensures env { OnOk result (env.new ≡ learn env.old (Define definition)) }
{
    let record_ = Record::Define(definition);
    records.push(env, &record_)?;
    env.learn(&record_)
}

impl OpenFile {
    /// Takes the block of a definition.
    #[inline(never)]
    pub(crate) fn take_definition(&mut self, alloc: Global, block: &[u8]) -> Result<(), Misfit>
        requires sound { IsGoodFile self.old }
        requires front { 24 ≤ length block.now }
        ensures stands { OnOk result (why_no_definition (begun_of self.old) block.now ≡ None) }
        ensures after { OnOk result
            (begun_of self.new ≡ after_definition (begun_of self.old) block.now) }
        ensures sound { OnOk result (IsGoodFile self.new) }
        ensures err { IfErr result
            (IsMisfitBlock (why_no_definition (begun_of self.old) block.now)) }
    {
        let mut slots = Entries::new(alloc);
        let definition = read_definition(alloc, &mut slots, block)?;
        add_definition(&mut self.records, &mut self.env, definition)?;
        if !dev_widths_fit(&self.env, block[5], slots.as_slice()) {
            return Err(Misfit::Block(BlockReason::Size));
        }
        set_slots(&mut self.slots, block[5], Slots::of(alloc, slots)?);
        Ok(())
    }

    /// Takes the block of a message.
    pub(crate) fn take_message(&mut self, block: &[u8]) -> Result<(), Misfit>
        requires sound { IsGoodFile self.old }
        requires front { 24 ≤ length block.now }
        ensures stands { OnOk result (why_no_message (begun_of self.old) block.now ≡ None) }
        ensures after { OnOk result
            (begun_of self.new ≡ after_message (begun_of self.old) block.now) }
        ensures sound { OnOk result (IsGoodFile self.new) }
        ensures err { IfErr result
            (IsMisfitBlock (why_no_message (begun_of self.old) block.now)) }
    {
        let Some(slots) = slots_at(&self.slots, block[6]) else {
            return Err(Misfit::Block(BlockReason::Local));
        };
        let end = spell_message(&mut self.message, &self.env, slots, block)?;
        let (bytes, _) = self.message.as_slice().split_at(end);
        self.records.push_message(&self.env, bytes)?;
        learn_message(&mut self.env, bytes)?;
        Ok(())
    }
}
