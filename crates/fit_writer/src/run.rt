//! Messages of one definition, put one after another.
ghost use Rattle.std.specs.Prelude.{◌≡◌, ◌<◌, ◌++◌, [], ℕ, IfErr, IfOk, List, length};
ghost use Rattle.fit_from_messages.specs.SaysChain.{IsBlock};
ghost use Rattle.fit_writer.specs.inner.Found.{IsFoundOnce};
ghost use Rattle.fit_writer.specs.inner.OpenFiles.{IsGoodOpenFile};
ghost use Rattle.fit_writer.specs.inner.Places.{IsLone, form_of};
ghost use Rattle.fit_writer.specs.inner.Puts.{IsPutInto};
ghost use Rattle.fit_writer.specs.inner.Runs.{HasRunInto, IsFirstRefused, IsRunStopped};

use crate::amounts::{first_told, is_told};
use crate::file::OpenFile;
use crate::found::{Found, reason_by};
use crate::put::put_standing;
use crate::{Refusal, Run, RunRefusal};
use fit_from_messages::{BlockReason, LoneDefinition, first_block};
use std::alloc::Global;

/// Puts the message whose block comes first, and returns the block and what is left after it.
fn put_first<'a>(
    alloc: Global,
    file: &mut OpenFile,
    lone: &LoneDefinition<'_>,
    found: &mut Found,
    rest: &'a [u8],
) -> Result<(&'a [u8], &'a [u8]), Refusal>
    requires good { IsGoodOpenFile file.old }
    requires lone { IsLone lone.now }
    requires found { IsFoundOnce file.old.stream (form_of lone.now) found.old }
    requires some { 0 < length rest.now }
    ensures block { IfOk result (λ p. IsBlock p.0.now) }
    ensures begins { IfOk result (λ p. rest.now ≡ p.0.now ++ p.1.now) }
    ensures put { IfOk result (λ p. IsPutInto file.old file.new (form_of lone.now) p.0.now) }
    ensures shorter { IfOk result (λ p. length p.1.now < length rest.now) }
    ensures same { found.new.has ≡ found.old.has }
    ensures good { IsGoodOpenFile file.new }
    ensures found { IsFoundOnce file.new.stream (form_of lone.now) found.new }
    ensures err { IfErr result
        (IsFirstRefused file.old file.new (form_of lone.now) rest.now) }
{
    match first_block(rest) {
        None => Err(Refusal::Message(BlockReason::Cut)),
        Some((block, after)) => {
            if let Some(reason) = reason_by(found.length, block) {
                return Err(Refusal::Message(reason));
            }
            put_standing(alloc, file, lone, &mut found.place, block)?;
            Ok((block, after))
        }
    }
}

/// Puts messages by their form and what is found of it. Returns how many.
pub(crate) fn put_run(
    alloc: Global,
    file: &mut OpenFile,
    lone: &LoneDefinition<'_>,
    first: Found,
    blocks: &[u8],
) -> Result<Run, RunRefusal>
    requires good { IsGoodOpenFile file.old }
    requires lone { IsLone lone.now }
    requires found { IsFoundOnce file.old.stream (form_of lone.now) first }
    ensures ok { IfOk result (λ run. HasRunInto file.old file.new (form_of lone.now)
        first.has blocks.now run.count run.accumulated []) }
    ensures good { IsGoodOpenFile file.new }
    ensures err { IfErr result
        (IsRunStopped file.old file.new (form_of lone.now) first.has blocks.now) }
{
    let mut rest = blocks;
    let mut count = 0;
    let mut accumulated = 0;
    let mut found = first;
    while !rest.is_empty() {
        match put_first(alloc, file, lone, &mut found, rest) {
            Ok((block, after)) => {
                let is_read = is_told(file.told, first.has, block);
                accumulated = first_told(accumulated, count, count + 1, is_read);
                rest = after;
            }
            Err(refusal) => {
                return Err(RunRefusal {
                    count,
                    accumulated,
                    place: (blocks.len() - rest.len()) as u64,
                    refusal,
                });
            }
        }
        count += 1;
    }
    Ok(Run { count, accumulated })
}
