//! What a reader of records knows: the definition of each local message type, and the described
//! developer fields.
ghost use Rattle.std.specs.Prelude.{◌≡◌, ◌+◌, ◌<◌, ◌≤◌, IfOk, IfErr, map, option_map, option_copied, slice_get, slice_set, false, IsOk, IsSomeAnd, OnOk, OnErr, IfSome, IsTrue, Some, None, [], length};
ghost use Rattle.fit_record.specs.declared.message.Record.TheVariants.{Define};
ghost use Rattle.fit_record.specs.Environment.{DescribesNothing, empty_environment, defined_at, defined_by, definition_at, describe, described_by, dev_code, dev_code_at, dev_defs, learn};
ghost use Rattle.fit_record.specs.Records.{Fits, DefinitionFits, DataFits, body_length, message_size, record_bytes};
ghost use Rattle.fit_record.specs.Faults.{first_fault};
ghost use Rattle.fit_record.specs.Sizes.{body_limit};
ghost use Rattle.fit_record.specs.Sound.{IsSound};

use crate::definition::{are_same, body_length, definition_copy};
use crate::fits::{data_fits, definition_fits};
use crate::learn::{Description, DevKey, description_of};
use crate::{DevDef, MessageDef, Record, ShapeFault, Values};
use fit_base::Entries;
use fit_base::base_type::BYTE;
use std::alloc::{AllocError, Allocator, Global};
use std::collections::BTreeMap;
use std::marker::Model;

/// A definition message in its place.
#[derive(Drop)]
pub struct Defined<A: Allocator = Global> {
    pub definition: MessageDef<A>,
    /// The base type code of each developer field.
    pub dev_codes: Entries<u8, A>,
}

/// What is known after some records of a file: the definition of each of the sixteen local message
/// types, and the base type codes of the developer fields that were described.
pub struct Env<A: Allocator = Global> {
    pub(crate) places: [Option<Defined<A>>; 16],
    /// How many bytes follow the record header of each local message type.
    lengths: [u32; 16],
    pub(crate) described: BTreeMap<DevKey, u8, A>,
    alloc: A,
}

// A call wherever an environment is dropped: derived, all that it frees would be written out and proved there.
impl<A: Allocator> Drop for Env<A> {
    fn drop(self) {
        let Env {
            alloc: _alloc,
            described: _described,
            lengths: _,
            places: _places,
        } = self;
    }
}

impl<A: Allocator> Model for Env<A> {
    ghost use Rattle.fit_record.specs.Environment.{Environment};
    ghost use Rattle.fit_record.specs.inner.Kept.{AreKept};

    ghost Value = { Environment A };

    ghost view = { λ e. record { places = e.places; described = e.described.entries } };

    ghost invariant = { λ e. AreKept e.places e.lengths };
}

impl<A: Allocator + Copy> Env<A> {
    /// Nothing is known.
    pub fn new(alloc: A) -> Self
        ensures { result ≡ empty_environment }
    {
        Env {
            places: [
                None, None, None, None, None, None, None, None, None, None, None, None, None, None,
                None, None,
            ],
            lengths: [0; 16],
            described: BTreeMap::new(alloc),
            alloc,
        }
    }
}

impl<A: Allocator> Env<A> {
    /// What is defined for a local message type. One of 16 or more has none.
    #[inline(always)]
    pub fn defined(&self, local: u8) -> Option<&Defined<A>>
        ensures place { option_copied result ≡ defined_at self.now local }
        ensures sound { IfSome (defined_at self.now local) IsSound }
    {
        let place = self.places.get(local as usize)?;
        place.as_ref()
    }

    /// The definition of a local message type. One of 16 or more has none.
    #[inline(always)]
    pub fn definition(&self, local: u8) -> Option<&MessageDef<A>>
        ensures { option_copied result ≡ definition_at self.now local }
    {
        let place = self.places.get(local as usize)?;
        match place {
            Some(place) => Some(&place.definition),
            None => None,
        }
    }

    /// The base type code of a developer field of a local message type: that of its last description
    /// before the definition, or else `BYTE`. `place` counts from 0 among the developer fields.
    pub fn dev_code(&self, local: u8, place: u8) -> Option<u8>
        ensures { result ≡ dev_code_at self.now local place }
    {
        let defined = self.defined(local)?;
        byte_at(defined.dev_codes.as_slice(), place)
    }

    /// How many bytes follow the record header of a data message: the sum of the definition's sizes.
    pub fn length(&self, local: u8) -> Option<u32>
        ensures length { result
            ≡ option_map (λ p. body_length p.definition) (defined_at self.now local) }
        // Each data message of the type has that many bytes.
        ensures size { result ≡ option_map message_size (defined_at self.now local) }
        ensures small { IfSome result (λ n. n ≤ body_limit) }
        ensures places { length self.now.places ≡ 16 }
    {
        let place = self.places.get(local as usize)?;
        match place {
            Some(_) => Some(self.lengths[local as usize]),
            None => None,
        }
    }

    /// The developer field that a data message describes, and the base type code that it gives it ("Developer Fields"). A message
    /// that isn't a field description describes none.
    #[inline(always)]
    pub fn described_by(&self, v: &Values<A>) -> Option<Description>
        requires { IsSomeAnd (defined_at self.now v.now.local) (DataFits v.now) }
        ensures { result ≡ described_by self.now v.now }
    {
        let p = self.defined(v.local)?;
        description_of(&p.definition, v)
    }

    /// The length of a record's bytes, or the first fault for which it can't be next, in the order of
    /// `ShapeFault`.
    pub fn fits(&self, r: &Record<A>) -> Result<u32, ShapeFault>
        ensures ok { IfOk result (λ n. Fits self.now r.now
            × (n ≡ length (record_bytes self.now r.now))) }
        ensures refused { OnErr result (Fits self.now r.now → ⊥) }
        ensures err { IfErr result (λ fault. first_fault self.now r.now ≡ Some fault) }
    {
        match r {
            Record::Define(d) => definition_fits(d),
            Record::Values(v) => data_fits(self, v),
        }
    }
}

impl<A: Allocator + Copy> Env<A> {
    /// Takes a record in: a definition takes its place, and a field description sets the code of its
    /// developer field. Where an allocation fails, nothing changes. A data message that describes
    /// nothing takes no memory.
    #[inline(always)]
    pub fn learn(&mut self, r: &Record<A>) -> Result<(), AllocError>
        requires { Fits self.old r.now }
        ensures ok { OnOk result (self.new ≡ learn self.old r.now) }
        ensures err { OnErr result (self.new ≡ self.old) }
        ensures free { DescribesNothing self.old r.now → IsOk result }
    {
        match r {
            Record::Define(d) => {
                self.learn_definition(d)?;
                Ok(())
            }
            Record::Values(v) => self.take_in(v),
        }
    }

    /// Takes a definition in, as `learn` does, with memory of its own where it isn't in its place already. Says whether anything may
    /// change. It stands apart, since most records are data messages.
    #[inline(never)]
    pub fn learn_definition(&mut self, d: &MessageDef<A>) -> Result<bool, AllocError>
        requires { DefinitionFits d.now }
        ensures ok { OnOk result (self.new ≡ learn self.old (Define d.now)) }
        ensures err { OnErr result (self.new ≡ self.old) }
        ensures same { IfOk result (λ changes. changes ≡ false
            → learn self.old (Define d.now) ≡ self.old) }
    {
        if self.holds(d) {
            return Ok(false);
        }
        let copy = definition_copy(self.alloc, d)?;
        self.define(copy)?;
        Ok(true)
    }

    /// Whether a definition without developer fields is in its place already, so that nothing changes where it is taken in.
    fn holds(&self, d: &MessageDef<A>) -> bool
        ensures { IsTrue result
            → defined_at self.now d.now.local ≡ Some (defined_by self.now d.now) }
    {
        match self.defined(d.local) {
            Some(p) => are_same(&p.definition, d),
            None => false,
        }
    }

    /// Takes a definition in, as `learn` does, and keeps its memory. More is taken only for the codes
    /// of developer fields.
    pub fn define(&mut self, d: MessageDef<A>) -> Result<(), AllocError>
        requires { DefinitionFits d }
        ensures ok { OnOk result (self.new ≡ learn self.old (Define d)) }
        ensures err { OnErr result (self.new ≡ self.old) }
        ensures free { dev_defs d.dev ≡ [] → IsOk result }
    {
        let dev_codes = self.codes_for(&d)?;
        let local = d.local;
        let length = body_length(&d);
        let defined = Defined {
            definition: d,
            dev_codes,
        };
        set_place(&mut self.places, local, defined);
        self.lengths[local as usize] = length;
        Ok(())
    }

    /// Takes a data message in.
    #[inline(always)]
    fn take_in(&mut self, v: &Values<A>) -> Result<(), AllocError>
        requires { IsSomeAnd (defined_at self.old v.now.local) (DataFits v.now) }
        ensures ok { OnOk result (self.new ≡ describe self.old (described_by self.old v.now)) }
        ensures err { OnErr result (self.new ≡ self.old) }
        ensures free { described_by self.old v.now ≡ None → IsOk result }
    {
        match self.described_by(v) {
            None => Ok(()),
            Some(s) => self.describe(s),
        }
    }

    /// Keeps the base type code of a developer field, as `learn` does of a message that describes it. Where an allocation fails, nothing
    /// changes.
    #[inline(never)]
    pub fn describe(&mut self, s: Description) -> Result<(), AllocError>
        ensures ok { OnOk result (self.new ≡ describe self.old (Some s)) }
        ensures err { OnErr result (self.new ≡ self.old) }
    {
        self.described.insert(s.key, s.code)?;
        Ok(())
    }

    /// The base type code of a developer field of a definition that comes now: that of its last description, or else `BYTE` ("Developer
    /// Fields").
    pub fn code_of(&self, f: DevDef) -> u8
        ensures { result ≡ dev_code self.now f }
    {
        let key = DevKey {
            index: f.index,
            number: f.number,
        };
        match self.described.get(&key) {
            Some(code) => *code,
            None => BYTE,
        }
    }

    /// The code of each developer field.
    fn codes_of(&self, fields: &[DevDef]) -> Result<Entries<u8, A>, AllocError>
        ensures codes { IfOk result (λ codes. codes ≡ map (dev_code self.now) fields.now) }
        ensures free { fields.now ≡ [] → IsOk result }
    {
        let mut codes = Entries::new(self.alloc);
        for f in fields {
            codes.push(self.code_of(*f))?;
        }
        Ok(codes)
    }

    /// The code of each developer field of a definition.
    fn codes_for(&self, d: &MessageDef<A>) -> Result<Entries<u8, A>, AllocError>
        ensures codes { IfOk result (λ codes. codes
            ≡ map (dev_code self.now) (dev_defs d.now.dev)) }
        ensures free { dev_defs d.now.dev ≡ [] → IsOk result }
    {
        match &d.dev {
            None => Ok(Entries::new(self.alloc)),
            Some(fields) => self.codes_of(fields.as_slice()),
        }
    }
}

/// The byte at a place.
fn byte_at(bytes: &[u8], place: u8) -> Option<u8>
    ensures { result ≡ slice_get bytes.now place }
{
    match bytes.get(place as usize) {
        Some(b) => Some(*b),
        None => None,
    }
}

/// Puts a definition in its place.
fn set_place<A: Allocator>(places: &mut [Option<Defined<A>>; 16], local: u8, defined: Defined<A>)
    requires { local < 16 }
    ensures place { places.new ≡ slice_set places.old local (Some defined) }
    ensures length { length places.old ≡ 16 }
{
    places[local as usize] = Some(defined);
}
