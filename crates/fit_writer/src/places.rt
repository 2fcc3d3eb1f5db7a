//! Which local message type a message gets.
ghost use Rattle.std.specs.Prelude.{◌≡◌, ◌↔◌, ◌<◌, ◌≤◌, ℕ, IfSome, IsNone, IsTrue, None, Some, true, false};
ghost use Rattle.std.specs.Global.{Global};
ghost use Rattle.fit_record.specs.declared.environment.Defined.{Defined};
ghost use Rattle.fit_record.specs.Environment.{defined_at, dev_defs};
ghost use Rattle.fit_profile.specs.Looks.{known};
ghost use Rattle.fit_writer.specs.Written.{SaysSame};
ghost use Rattle.fit_writer.specs.inner.Places.{IsLone, form_of};

use crate::names::are_named;
use fit_from_messages::LoneDefinition;
use fit_profile::Stream;
use fit_record::{Defined, DevDef, MessageDef, same_fields};

/// When each local message type was used last, and how many messages there were.
#[derive(Clone, Copy, Drop)]
pub(crate) struct Turns {
    used: [u64; 16],
    count: u64,
}

impl Turns {
    /// None was used.
    pub(crate) fn new() -> Turns {
        Turns {
            used: [0; 16],
            count: 0,
        }
    }

    /// Notes that a local message type is used.
    pub(crate) fn note(&mut self, local: u8)
        requires { local < 16 }
    {
        self.count = self.count.saturating_add(1);
        self.used[local as usize] = self.count;
    }

    /// The one least lately used of those below a limit.
    fn least(&self, limit: u8) -> u8
        requires some { 0 < limit }
        requires within { limit ≤ 16 }
        ensures { result < limit }
    {
        let mut least = 0;
        for local in 1..limit {
            if self.used[local as usize] < self.used[least as usize] {
                least = local;
            }
        }
        least
    }
}

/// The developer fields of a definition, none where it has no such part.
pub(crate) fn devs(definition: &MessageDef) -> &[DevDef]
    ensures { result.now ≡ dev_defs definition.now.dev }
{
    match &definition.dev {
        Some(dev) => dev.as_slice(),
        None => &[],
    }
}

/// Whether two lists of developer fields are the same.
fn same_devs(a: &[DevDef], b: &[DevDef]) -> bool
    ensures { IsTrue result ↔ (a.now ≡ b.now) }
{
    a == b
}

/// Whether two lists of base type codes are the same.
fn same_codes(a: &[u8], b: &[u8]) -> bool
    ensures { IsTrue result ↔ (a.now ≡ b.now) }
{
    a == b
}

/// Whether messages of a definition in its place are read as those of another, but for names and units.
fn is_same(p: &Defined, lone: &LoneDefinition<'_>) -> bool
    ensures { IsTrue result ↔ ((p.now.definition.global ≡ lone.now.definition.global)
        × (p.now.definition.fields ≡ lone.now.definition.fields)
        × (dev_defs p.now.definition.dev ≡ dev_defs lone.now.definition.dev)
        × (p.now.dev_codes ≡ lone.now.codes)) }
{
    if p.definition.global != lone.definition.global {
        return false;
    }
    if !same_fields(
        p.definition.fields.as_slice(),
        lone.definition.fields.as_slice(),
    ) {
        return false;
    }
    if !same_devs(devs(&p.definition), devs(&lone.definition)) {
        return false;
    }
    same_codes(p.dev_codes.as_slice(), lone.codes.as_slice())
}

/// Whether messages of a local message type are read as those of a definition.
fn says_same(stream: &Stream, local: u8, lone: &LoneDefinition<'_>) -> bool
    requires { IsLone lone.now }
    ensures yes { result ≡ true → (p : Defined Global) × SaysSame stream.now local
        (form_of lone.now) p }
    ensures no { result ≡ false → (p : Defined Global) → SaysSame stream.now local
        (form_of lone.now) p → ⊥ }
{
    match stream.env().defined(local) {
        None => false,
        Some(p) => {
            is_same(p, lone) && are_named(stream, local, lone.codes.len() as u8, lone.dev)
        }
    }
}

/// A local message type below a limit whose messages are read as those of a definition: its own, or another.
pub(crate) fn find_same(stream: &Stream, lone: &LoneDefinition<'_>, limit: u8) -> Option<u8>
    requires { IsLone lone.now }
    ensures within { IfSome result (λ local. local < limit) }
    ensures some { IfSome result (λ local. (p : Defined Global) × SaysSame stream.now local
        (form_of lone.now) p) }
    ensures own { (p : Defined Global) → lone.now.definition.local < limit
        → SaysSame stream.now lone.now.definition.local (form_of lone.now) p
        → result ≡ Some lone.now.definition.local }
    ensures none { IsNone result → (local : ℕ) (p : Defined Global) → local < limit
        → SaysSame stream.now local (form_of lone.now) p → ⊥ }
{
    let own = lone.definition.local;
    if own < limit && says_same(stream, own, lone) {
        return Some(own);
    }
    for local in 0..limit {
        if says_same(stream, local, lone) {
            return Some(local);
        }
    }
    None
}

/// Whether a local message type has no definition.
fn is_free(stream: &Stream, local: u8) -> bool
    ensures { IsTrue result ↔ (defined_at (known stream.now) local ≡ None) }
{
    stream.env().defined(local).is_none()
}

/// The local message type below a limit for a definition that has none: its own or the first where they are free, else the one least
/// lately used.
pub(crate) fn free_place(stream: &Stream, turns: &Turns, own: u8, limit: u8) -> u8
    requires some { 0 < limit }
    requires within { limit ≤ 16 }
    ensures within { result < limit }
    ensures own { own < limit → defined_at (known stream.now) own ≡ None → result ≡ own }
    ensures free { (k : ℕ) → k < limit → defined_at (known stream.now) k ≡ None
        → defined_at (known stream.now) result ≡ None }
{
    if own < limit && is_free(stream, own) {
        return own;
    }
    for local in 0..limit {
        if is_free(stream, local) {
            return local;
        }
    }
    turns.least(limit)
}
