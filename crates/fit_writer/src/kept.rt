//! The definition whose messages were put last, kept as it was read.
ghost use Rattle.std.specs.Prelude.{◌≡◌, [], IfErr, IfOk, IfSome, None, OnOk};
ghost use Rattle.fit_from_messages.specs.Alone.{why_no_lone_definition};
ghost use Rattle.fit_writer.specs.Amounts as amounts;
ghost use Rattle.fit_writer.specs.Reading.{form_in};
ghost use Rattle.fit_writer.specs.Runs.{IsUnreadDefinition};
ghost use Rattle.fit_writer.specs.inner.Kept.{ArePartsOf, IsRunOfBlock};
ghost use Rattle.fit_writer.specs.inner.OpenFiles.{IsGoodOpenFile};
ghost use Rattle.fit_writer.specs.inner.Runs.{HasRunInto};

use crate::amounts::has_amounts;
use crate::file::OpenFile;
use crate::found::{Found, least_length};
use crate::run::put_run;
use crate::{Refusal, Run, RunRefusal};
use fit_base::Entries;
use fit_from_messages::{LoneDefinition, Misfit, Slot, lone_definition};
use fit_record::MessageDef;
use std::alloc::Global;
use std::marker::Model;
use std::mem;

/// What was read of a definition's block, but for the entries of its developer fields.
#[derive(Drop)]
pub(crate) struct Parts {
    pub definition: MessageDef,
    pub codes: Entries<u8>,
    pub slots: Entries<Slot>,
    /// How long the block of a message is at least.
    pub least: usize,
}

/// The block of a definition, the entries of its developer fields, and what else was read of it; none before the first.
#[derive(Drop)]
pub(crate) struct Kept {
    block: Vec<u8>,
    dev: Vec<u8>,
    parts: Option<Parts>,
}

impl Model for Kept {
    ghost use Rattle.fit_writer.specs.inner.Kept.{IsGoodKept};

    ghost Value = { Unit {0} };

    ghost view = { λ k. tt };

    ghost invariant = { λ k. IsGoodKept k.block.items k.dev.items k.parts };
}

/// What a definition's block says, which is kept from now on.
fn read(
    alloc: Global,
    kept: &mut Vec<u8>,
    dev: &mut Vec<u8>,
    block: &[u8],
) -> Result<Parts, Refusal>
    ensures ok { IfOk result (λ p. ArePartsOf p dev.new.items block.now) }
    ensures block { OnOk result (kept.new.items ≡ block.now) }
    ensures err { IfErr result (IsUnreadDefinition block.now) }
{
    let lone = match lone_definition(alloc, block) {
        Ok(lone) => lone,
        Err(Misfit::Block(reason)) => return Err(Refusal::Block(reason)),
        Err(Misfit::NoMemory) => return Err(Refusal::NoMemory),
    };
    kept.clear();
    kept.extend_from_slice(block)?;
    dev.clear();
    dev.extend_from_slice(lone.dev)?;
    let LoneDefinition {
        definition,
        codes,
        slots,
        dev: _,
    } = lone;
    let least = least_length(slots.as_slice());
    Ok(Parts {
        definition,
        codes,
        slots,
        least,
    })
}

/// What a definition's block says: what was kept of it, or it is read.
fn known(
    alloc: Global,
    parts: Option<Parts>,
    kept: &mut Vec<u8>,
    dev: &mut Vec<u8>,
    block: &[u8],
) -> Result<Parts, Refusal>
    requires { IfSome parts (λ p. ArePartsOf p dev.old.items kept.old.items) }
    ensures ok { IfOk result (λ p. ArePartsOf p dev.new.items block.now) }
    ensures block { OnOk result (kept.new.items ≡ block.now) }
    ensures err { IfErr result (IsUnreadDefinition block.now) }
{
    match parts {
        Some(parts) => {
            if kept.as_slice() == block {
                return Ok(parts);
            }
            read(alloc, kept, dev, block)
        }
        None => read(alloc, kept, dev, block),
    }
}

/// Why a run stops before its first block.
pub(crate) fn barred(refusal: Refusal) -> RunRefusal
    ensures { result ≡ record { count = 0; accumulated = 0; place = 0; refusal = refusal } }
{
    RunRefusal {
        count: 0,
        accumulated: 0,
        place: 0,
        refusal,
    }
}

impl Kept {
    /// Nothing is kept.
    pub(crate) fn new(alloc: Global) -> Kept {
        Kept {
            block: Vec::new(alloc),
            dev: Vec::new(alloc),
            parts: None,
        }
    }

    /// Puts messages into a file, by the block of their definition. Returns how many.
    pub(crate) fn put_run(
        &mut self,
        alloc: Global,
        file: &mut OpenFile,
        definition: &[u8],
        blocks: &[u8],
    ) -> Result<Run, RunRefusal>
        requires good { IsGoodOpenFile file.old }
        ensures stands { OnOk result (why_no_lone_definition definition.now ≡ None) }
        ensures ok { IfOk result (λ run. HasRunInto file.old file.new
            (form_in definition.now) (amounts.has_amounts definition.now)
            blocks.now run.count run.accumulated []) }
        ensures good { IsGoodOpenFile file.new }
        ensures err { IfErr result
            (IsRunOfBlock file.old file.new definition.now blocks.now) }
    {
        let has = has_amounts(definition);
        let kept = mem::replace(&mut self.parts, None);
        let parts = match known(alloc, kept, &mut self.block, &mut self.dev, definition) {
            Ok(parts) => parts,
            Err(refusal) => return Err(barred(refusal)),
        };
        let Parts {
            definition,
            codes,
            slots,
            least,
        } = parts;
        let lone = LoneDefinition {
            definition,
            codes,
            slots,
            dev: self.dev.as_slice(),
        };
        let found = Found {
            length: least,
            has,
            place: None,
        };
        let answered = put_run(alloc, file, &lone, found, blocks);
        let LoneDefinition {
            definition,
            codes,
            slots,
            dev: _,
        } = lone;
        self.parts = Some(Parts {
            definition,
            codes,
            slots,
            least,
        });
        answered
    }
}
