//! Names and units of developer fields: those of the last descriptions, and those of the defined fields.
ghost use Rattle.std.specs.Prelude.{◌≡◌, ◌==◌, ◌<◌, IfOk, OnOk, IsSome, ℕ, [], if◌then◌else◌, length, map, option_map, slice_get, slice_index_or};
ghost use Rattle.std.specs.BTreeMap.{get};
ghost use Rattle.std.specs.String.{string_bytes};
ghost use Rattle.fit_record.specs.Environment.{dev_key_cmp};
ghost use Rattle.fit_profile.specs.Described.{naming, nameless};
ghost use Rattle.fit_profile.specs.inner.Keeps.{is_key, naming_in, namings_in};

use crate::text::text_field;
use fit_base::Entries;
use fit_record::{DevDef, DevKey, MessageDef, Values};
use std::alloc::{AllocError, Allocator, Global};
use std::collections::BTreeMap;
use std::marker::Model;
use std::sync::Arc;

/// A name and a unit. A contract sees them as lists of bytes.
#[derive(Drop)]
struct OwnTexts<A: Allocator> {
    name: Option<String<A>>,
    unit: Option<String<A>>,
}

impl<A: Allocator> Model for OwnTexts<A> {
    ghost use Rattle.std.specs.Prelude.{option_map};
    ghost use Rattle.std.specs.String.{string_bytes};
    ghost use Rattle.fit_profile.specs.Described.{Naming};

    ghost Value = { Naming };

    ghost view = { λ t.
        record { name = option_map string_bytes t.name; unit = option_map string_bytes t.unit } };
}

/// The name and the unit of a developer field. Its description and all definitions with such a field have them together, so a definition
/// takes no memory for them. A contract sees them as lists of bytes.
#[derive(Drop)]
pub(crate) struct Texts<A: Allocator = Global> {
    /// None where there is neither.
    shared: Option<Arc<OwnTexts<A>, A>>,
}

impl<A: Allocator> Model for Texts<A> {
    ghost use Rattle.std.specs.Prelude.{option_map, unwrap_or};
    ghost use Rattle.std.specs.Arc.{arc_value};
    ghost use Rattle.fit_profile.specs.Described.{Naming, nameless};

    ghost Value = { Naming };

    ghost view = { λ t. unwrap_or (option_map arc_value t.shared) nameless };
}

/// The names and units of the descriptions so far, and of the developer fields of each local message
/// type.
#[derive(Drop)]
pub(crate) struct Names<A: Allocator = Global> {
    pub described: BTreeMap<DevKey, Texts<A>, A>,
    /// Only as many as have had developer fields, so that little is let go where a file begins.
    pub places: Vec<Entries<Texts<A>, A>, A>,
    pub alloc: A,
}

/// A developer field that a message describes.
#[derive(Drop)]
pub(crate) struct Described<A: Allocator> {
    pub key: DevKey,
    pub texts: Texts<A>,
}

impl<A: Allocator> Texts<A> {
    /// Neither a name nor a unit.
    fn none() -> Self
        ensures { result ≡ nameless }
    {
        Texts { shared: None }
    }

    /// This name and this unit.
    pub(crate) fn of(
        alloc: A,
        name: Option<String<A>>,
        unit: Option<String<A>>,
    ) -> Result<Self, AllocError>
        ensures { IfOk result (λ texts. texts ≡ record {
          name = option_map string_bytes name;
          unit = option_map string_bytes unit;
        }) }
    {
        if name.is_none() && unit.is_none() {
            return Ok(Texts::none());
        }
        let own = Arc::new(alloc, OwnTexts { name, unit })?;
        Ok(Texts { shared: Some(own) })
    }
}

/// A text, where there is one.
fn lent<A: Allocator>(text: &Option<String<A>>) -> Option<&str>
    ensures { option_map (λ s. s.now) result ≡ option_map string_bytes text.now }
{
    match text {
        Some(text) => Some(text.as_str()),
        None => None,
    }
}

impl<A: Allocator> Texts<A> {
    /// The name, where there is one.
    pub fn name(&self) -> Option<&str>
        ensures { option_map (λ s. s.now) result ≡ self.now.name }
    {
        match &self.shared {
            Some(own) => lent(&own.name),
            None => None,
        }
    }

    /// The unit, where there is one.
    pub fn unit(&self) -> Option<&str>
        ensures { option_map (λ s. s.now) result ≡ self.now.unit }
    {
        match &self.shared {
            Some(own) => lent(&own.unit),
            None => None,
        }
    }
}

impl<A: Allocator> Texts<A> {
    /// The same texts, had together.
    fn share(&self) -> Result<Self, AllocError>
        ensures { IfOk result (λ texts. texts ≡ self.now) }
    {
        match &self.shared {
            Some(own) => {
                let own = Arc::try_clone(own)?;
                Ok(Texts { shared: Some(own) })
            }
            None => Ok(Texts::none()),
        }
    }
}

/// The name and the unit that a field description gives.
pub(crate) fn texts_of<A: Allocator + Copy>(
    alloc: A,
    definition: &MessageDef<A>,
    values: &Values<A>,
) -> Result<Texts<A>, AllocError>
    ensures { IfOk result (λ texts. texts ≡ naming definition.now values.now) }
{
    let name = text_field(alloc, definition, values, 3)?;
    let unit = text_field(alloc, definition, values, 8)?;
    Texts::of(alloc, name, unit)
}

/// Puts local message types without developer fields after the others, up to this one.
fn grow<A: Allocator + Copy>(
    places: &mut Vec<Entries<Texts<A>, A>, A>,
    alloc: A,
    local: u8,
) -> Result<(), AllocError>
    ensures same { (l : ℕ) → slice_index_or places.new.items l []
        ≡ slice_index_or places.old.items l [] }
    ensures held { OnOk result (local < length places.new.items) }
{
    while places.len() <= local as usize {
        places.push(Entries::new(alloc))?;
    }
    Ok(())
}

impl<A: Allocator> Names<A> {
    /// The names and units of the developer fields of a local message type.
    pub fn at(&self, local: u8) -> &[Texts<A>]
        ensures { result.now ≡ namings_in self.now local }
    {
        match self.places.as_slice().get(local as usize) {
            Some(texts) => texts.as_slice(),
            None => &[],
        }
    }

    /// Those of one of them, at a place that counts from 0.
    pub fn at_place(&self, local: u8, place: u8) -> Option<&Texts<A>>
        ensures { option_map (λ t. t.now) result ≡ slice_get (namings_in self.now local) place }
    {
        self.at(local).get(place as usize)
    }
}

impl<A: Allocator> Names<A> {
    /// The name and the unit of a developer field of a definition that comes now.
    pub fn described(&self, field: DevDef) -> (Option<&str>, Option<&str>)
        ensures name { option_map (λ s. s.now) result.0
            ≡ (naming_in self.now field.index field.number).name }
        ensures unit { option_map (λ s. s.now) result.1
            ≡ (naming_in self.now field.index field.number).unit }
    {
        let key = DevKey {
            index: field.index,
            number: field.number,
        };
        match self.described.get(&key) {
            Some(texts) => (texts.name(), texts.unit()),
            None => (None, None),
        }
    }
}

impl<A: Allocator + Copy> Names<A> {
    /// Nothing is described or defined.
    pub fn new(alloc: A) -> Self
        ensures naming { (index number : ℕ) → naming_in result index number ≡ nameless }
        ensures namings { (local : ℕ) → namings_in result local ≡ [] }
    {
        Names {
            described: BTreeMap::new(alloc),
            places: Vec::new(alloc),
            alloc,
        }
    }

    /// The name and the unit of a developer field that is defined now.
    fn texts_at(&self, field: DevDef) -> Result<Texts<A>, AllocError>
        ensures { IfOk result (λ texts. texts ≡ naming_in self.now field.index field.number) }
    {
        let key = DevKey {
            index: field.index,
            number: field.number,
        };
        match self.described.get(&key) {
            Some(texts) => texts.share(),
            None => Ok(Texts::none()),
        }
    }

    /// The names and units of developer fields that are defined now.
    pub fn all_texts_at(&self, fields: &[DevDef]) -> Result<Entries<Texts<A>, A>, AllocError>
        ensures { IfOk result (λ all.
            all ≡ map (λ f. naming_in self.now f.index f.number) fields.now) }
    {
        let mut all = Entries::new(self.alloc);
        for field in fields {
            let texts = self.texts_at(*field)?;
            all.push(texts)?;
        }
        Ok(all)
    }

    /// Takes memory for the names and units of a local message type. No name or unit changes.
    pub fn make_place(&mut self, local: u8) -> Result<(), AllocError>
        ensures naming { (index number : ℕ) → naming_in self.new index number
            ≡ naming_in self.old index number }
        ensures namings { (local : ℕ) → namings_in self.new local ≡ namings_in self.old local }
        ensures held { OnOk result (local < length self.new.places.items) }
    {
        grow(&mut self.places, self.alloc, local)
    }

    /// A local message type has no developer fields any more.
    pub fn forget(&mut self, local: u8)
        ensures namings { (l : ℕ) → namings_in self.new l
            ≡ (if local == l then [] else namings_in self.old l) }
        ensures naming { (index number : ℕ) → naming_in self.new index number
            ≡ naming_in self.old index number }
    {
        if (local as usize) < self.places.len() {
            self.places[local as usize] = Entries::new(self.alloc);
        }
    }

    /// Keeps the names and units of a local message type.
    pub fn put(&mut self, local: u8, namings: Entries<Texts<A>, A>)
        requires { local < length self.old.places.items }
        ensures namings { (l : ℕ) → namings_in self.new l
            ≡ (if local == l then namings else namings_in self.old l) }
        ensures naming { (index number : ℕ) → naming_in self.new index number
            ≡ naming_in self.old index number }
    {
        self.places[local as usize] = namings;
    }

    /// Takes memory for what will be described. No name or unit changes.
    pub fn reserve(&mut self, key: DevKey) -> Result<(), AllocError>
        ensures naming { (index number : ℕ) → naming_in self.new index number
            ≡ naming_in self.old index number }
        ensures namings { (local : ℕ) → namings_in self.new local ≡ namings_in self.old local }
        ensures held { OnOk result (IsSome (get dev_key_cmp self.new.described key)) }
    {
        if !self.described.contains_key(&key) {
            self.described.insert(key, Texts::none())?;
        }
        Ok(())
    }

    /// Keeps the name and the unit of a developer field.
    pub fn set(&mut self, key: DevKey, texts: Texts<A>)
        requires { IsSome (get dev_key_cmp self.old.described key) }
        ensures naming { (index number : ℕ) → naming_in self.new index number
            ≡ (if is_key key index number then texts else naming_in self.old index number) }
        ensures namings { (local : ℕ) → namings_in self.new local ≡ namings_in self.old local }
    {
        match self.described.insert(key, texts) {
            Ok(_) => (),
            Err(_) => unreachable!(),
        }
    }
}
