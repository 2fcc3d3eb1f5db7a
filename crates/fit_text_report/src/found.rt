//! What is found out of the definitions of a file, once for many messages.
ghost use Rattle.std.specs.Prelude.{◌≡◌, ◌≤◌, ◌↔◌, ℕ, List, IsTrue, None, OnOk, Some, length, option_and_then, option_map, set, slice_get, false, true};
ghost use Rattle.std.specs.Global.{Global};
ghost use Rattle.fit_record.specs.Environment.{defined_at};
ghost use Rattle.fit_record.specs.Sound.{IsSound};
ghost use Rattle.fit_record.specs.declared.environment.Defined.{Defined};
ghost use Rattle.fit_profile.specs.Described.{Naming, namings_at};
ghost use Rattle.fit_profile.specs.Looks.{known};
ghost use Rattle.fit_text_report.specs.Current.{AreCurrent, IsCurrent, KeepsOthers, NoneAreCurrent};

use fit_profile::Stream;
use fit_record::Defined;
use std::alloc::{AllocError, Global};

/// What is found out of a definition: it depends on the local message type, the definition, and the names and units of its developer
/// fields. All these are fixed when a definition message comes.
pub trait Finding: Drop {
    /// What it is found out with.
    type Tools;

    // That of a definition of this local message type, with these names and units of its developer fields.
    ghost found_of: { ℕ → Defined Global → List Naming → Self };

    /// Finds it out of the definition of this local message type after the records of a stream, unless what was found before is that.
    fn find(
        found: &mut Option<Self>,
        tools: &mut Self::Tools,
        stream: &Stream,
        local: u8,
        defined: &Defined,
    ) -> Result<(), AllocError>
        requires place { defined_at (known stream.now) local ≡ Some defined.now }
        requires sound { IsSound defined.now }
        ensures { OnOk result (found.new
            ≡ Some (found_of local defined.now (namings_at stream.now local))) };

    /// About how many bytes of memory it takes.
    fn memory(&self) -> usize;
}

/// How much memory what is found out of a definition takes at most, where it is kept beside that of others.
const SHORT: usize = 65_536;

/// Fewer fields than that are short, as their names are.
const MANY_FIELDS: usize = 64;

/// Whether what is found out of a definition may take much memory. It may where there are many fields, or developer fields, whose names are
/// of any length.
#[inline(always)]
fn may_be_long(defined: &Defined) -> bool {
    let definition = &defined.definition;
    definition.dev.is_some() || definition.fields.len() >= MANY_FIELDS
}

/// What was found out of the definitions of a file, each at the place of its local message type. Of what takes much memory the last is
/// kept alone: a definition of some 1,500 bytes may make half a megabyte.
#[derive(Drop)]
pub struct Findings<T: Drop> {
    pub items: Vec<Option<T>>,
    /// Whether what was found is known to be that of the definition that counts now, for each local message type.
    pub current: [bool; 16],
    /// The local message type for which what was found takes much memory, where there is one.
    long: Option<u8>,
}

impl<T: Finding> Findings<T> {
    /// Nothing was found.
    pub fn new(alloc: Global) -> Findings<T>
        ensures { NoneAreCurrent result }
    {
        Findings {
            items: Vec::new(alloc),
            current: [false; 16],
            long: None,
        }
    }

    /// What was found for a local message type.
    #[inline(always)]
    pub fn get(&self, local: u8) -> Option<&T>
        ensures { option_map (λ t. t.now) result
            ≡ option_and_then (λ t. t) (slice_get self.now.items.items local) }
    {
        self.items.as_slice().get(local as usize)?.as_ref()
    }

    /// A file begins: no definition counts any more.
    pub fn forget(&mut self)
        ensures { NoneAreCurrent self.new }
    {
        self.current = [false; 16];
    }

    /// A definition of this local message type comes, and takes the place of the one before it.
    pub fn forget_one(&mut self, local: u8)
        ensures items { self.new.items ≡ self.old.items }
        ensures current { self.new.current ≡ set self.old.current local false }
    {
        note(&mut self.current, local, false);
    }

    /// Whether what was found for a local message type is known to be that of its definition.
    #[inline(always)]
    fn is_current(&self, local: u8) -> bool
        ensures { IsTrue result ↔ (slice_get self.now.current local ≡ Some true) }
    {
        match self.current.get(local as usize) {
            Some(is_current) => *is_current,
            None => false,
        }
    }

    /// Lets go what was found for a local message type.
    #[cold]
    #[inline(never)]
    fn let_go(&mut self, local: u8)
        ensures items { self.new.items.items ≡ set self.old.items.items local None }
        ensures current { self.new.current ≡ set self.old.current local false }
    {
        self.forget_one(local);
        let place = local as usize;
        if place < self.items.len() {
            self.items[place] = None;
        }
    }

    /// Whether what was found for a local message type takes much memory.
    #[inline(always)]
    fn is_long(&self, local: u8) -> bool {
        let Some(found) = self.get(local) else {
            return false;
        };
        found.memory() > SHORT
    }

    /// Where what was found for a local message type takes much memory, lets go that of another which does.
    #[cold]
    #[inline(never)]
    fn keep_one_long(&mut self, local: u8)
        ensures here { slice_get self.new.items.items local ≡ slice_get self.old.items.items local }
        ensures others { (other : ℕ) (found : T) → IsCurrent self.old other found
            → IsCurrent self.new other found }
    {
        if !self.is_long(local) {
            return;
        }
        if let Some(other) = self.long {
            if other != local {
                self.let_go(other);
            }
        }
        self.long = Some(local);
    }

    /// Finds out what is to be found for the definition of this local message type after the records of a stream.
    #[inline(always)]
    fn find_in_place(
        &mut self,
        tools: &mut T::Tools,
        stream: &Stream,
        local: u8,
        defined: &Defined,
    ) -> Result<(), AllocError>
        requires place { defined_at (known stream.now) local ≡ Some defined.now }
        requires sound { IsSound defined.now }
        requires current { AreCurrent T.found_of self.old stream.now }
        ensures found { OnOk result (slice_get self.new.items.items local
            ≡ Some (Some (T.found_of local defined.now (namings_at stream.now local)))) }
        ensures current { AreCurrent T.found_of self.new stream.now }
    {
        self.forget_one(local);
        make_places(&mut self.items, local as usize + 1)?;
        T::find(
            &mut self.items[local as usize],
            tools,
            stream,
            local,
            defined,
        )?;
        note(&mut self.current, local, true);
        Ok(())
    }

    /// Finds out what is to be found for the definition of this local message type after the records of a stream. Of what takes much memory
    /// it is kept alone.
    #[inline(never)]
    fn find_anew(
        &mut self,
        tools: &mut T::Tools,
        stream: &Stream,
        local: u8,
        defined: &Defined,
    ) -> Result<(), AllocError>
        requires place { defined_at (known stream.now) local ≡ Some defined.now }
        requires sound { IsSound defined.now }
        requires current { AreCurrent T.found_of self.old stream.now }
        ensures found { OnOk result (slice_get self.new.items.items local
            ≡ Some (Some (T.found_of local defined.now (namings_at stream.now local)))) }
        ensures current { AreCurrent T.found_of self.new stream.now }
    {
        self.find_in_place(tools, stream, local, defined)?;
        if may_be_long(defined) {
            self.keep_one_long(local);
        }
        Ok(())
    }

    /// Finds out what is to be found for the definition of this local message type after the records of a stream, where it isn't known
    /// to be found.
    #[inline(always)]
    pub fn find(
        &mut self,
        tools: &mut T::Tools,
        stream: &Stream,
        local: u8,
        defined: &Defined,
    ) -> Result<(), AllocError>
        requires place { defined_at (known stream.now) local ≡ Some defined.now }
        requires sound { IsSound defined.now }
        requires current { AreCurrent T.found_of self.old stream.now }
        ensures found { OnOk result (slice_get self.new.items.items local
            ≡ Some (Some (T.found_of local defined.now (namings_at stream.now local)))) }
        ensures current { AreCurrent T.found_of self.new stream.now }
    {
        if self.is_current(local) {
            return Ok(());
        }
        self.find_anew(tools, stream, local, defined)
    }
}

/// Notes whether what was found for a local message type is known to be that of its definition.
#[inline(always)]
fn note(current: &mut [bool; 16], local: u8, is_current: bool)
    ensures { current.new ≡ set current.old local is_current }
{
    let place = local as usize;
    if place < current.len() {
        current[place] = is_current;
    }
}

/// Makes a list so long that it has that many places.
fn make_places<T: Drop>(items: &mut Vec<Option<T>>, count: usize) -> Result<(), AllocError>
    ensures here { OnOk result (count ≤ length items.new.items) }
    ensures others { KeepsOthers items.old.items items.new.items }
{
    for _ in items.len()..count {
        items.push(None)?;
    }
    Ok(())
}
