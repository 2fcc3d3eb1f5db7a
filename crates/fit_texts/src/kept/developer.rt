//! What is kept of the developer fields of a definition.
ghost use Rattle.std.specs.Prelude.{◌≡◌, ◌↔◌, ◌<◌, [], IfOk, IsTrue, length, option_map, slice_get, unwrap_or};
ghost use Rattle.fit_profile.specs.Described.{nameless, namings_at};
ghost use Rattle.fit_texts.specs.MessageKeys.{dev_key, dev_keys};

use crate::words::numbered_label;
use fit_profile::Stream;
use fit_record::DevDef;
use std::alloc::{AllocError, Global};
use std::marker::Model;
use std::mem;

/// A developer field, as far as the text around its values depends on it.
#[derive(Drop)]
pub struct KeptDev {
    pub name: Vec<u8>,
    pub unit: Vec<u8>,
    pub code: u8,
    pub size: u8,
}

impl Model for KeptDev {
    ghost use Rattle.fit_texts.specs.MessageKeys.{DevKey};

    ghost Value = { DevKey };

    ghost view = { λ d. record {
      name = d.name.items;
      unit = d.unit.items;
      code = d.code;
      size = d.size;
    } };
}

impl KeptDev {
    /// It keeps this name, unit, code and size.
    fn new(alloc: Global, name: &str, unit: &str, code: u8, size: u8) -> Result<KeptDev, AllocError>
        ensures { IfOk result (λ d. d ≡ record {
          name = name.now;
          unit = unit.now;
          code = code;
          size = size;
        }) }
    {
        let mut own_name = Vec::new(alloc);
        own_name.extend_from_slice(name.as_bytes())?;
        let mut own_unit = Vec::new(alloc);
        own_unit.extend_from_slice(unit.as_bytes())?;
        Ok(KeptDev {
            name: own_name,
            unit: own_unit,
            code,
            size,
        })
    }

    /// About how many bytes of memory it takes.
    pub(crate) fn memory(&self) -> usize {
        let texts = self.name.capacity().saturating_add(self.unit.capacity());
        texts.saturating_add(mem::size_of::<KeptDev>())
    }

    /// Whether it has this name, unit, code and size.
    fn is(&self, name: &str, unit: &str, code: u8, size: u8) -> bool
        ensures { IsTrue result ↔ (self.now ≡ record {
          name = name.now;
          unit = unit.now;
          code = code;
          size = size;
        }) }
    {
        self.code == code
            && self.size == size
            && self.name.as_slice() == name.as_bytes()
            && self.unit.as_slice() == unit.as_bytes()
    }
}

/// A text, or an empty one where there is none.
fn or_empty(text: Option<&str>) -> &str
    ensures { result.now ≡ unwrap_or (option_map (λ s. s.now) text.entry) [] }
{
    match text {
        Some(text) => text,
        None => "",
    }
}

/// Keeps a developer field of this local message type by its described code, with the name and the unit that it has after the
/// records of a stream.
fn kept_dev(
    alloc: Global,
    stream: &Stream,
    local: u8,
    place: u8,
    field: &DevDef,
    code: u8,
) -> Result<KeptDev, AllocError>
    ensures { IfOk result (λ d. d ≡ dev_key field.now code
        (unwrap_or (slice_get (namings_at stream.now local) place) nameless)) }
{
    let (name, unit) = stream.dev_texts(local, place);
    let unit = or_empty(unit);
    match name {
        Some(name) => KeptDev::new(alloc, name, unit, code, field.size),
        None => {
            let label = numbered_label(field);
            KeptDev::new(alloc, label.as_str(), unit, code, field.size)
        }
    }
}

/// Whether what is kept is a developer field of this local message type by its described code, with the name and the unit that it
/// has after the records of a stream.
fn is_dev(kept: &KeptDev, stream: &Stream, local: u8, place: u8, field: &DevDef, code: u8) -> bool
    ensures { IsTrue result ↔ (kept.now ≡ dev_key field.now code
        (unwrap_or (slice_get (namings_at stream.now local) place) nameless)) }
{
    let (name, unit) = stream.dev_texts(local, place);
    let unit = or_empty(unit);
    match name {
        Some(name) => kept.is(name, unit, code, field.size),
        None => {
            let label = numbered_label(field);
            kept.is(label.as_str(), unit, code, field.size)
        }
    }
}

/// Keeps the developer fields of this local message type by their described codes, with the names and units that they have after
/// the records of a stream.
pub(crate) fn kept_devs(
    alloc: Global,
    stream: &Stream,
    local: u8,
    fields: &[DevDef],
    dev_codes: &[u8],
) -> Result<Vec<KeptDev>, AllocError>
    requires few { length fields.now < 256 }
    requires codes { length dev_codes.now ≡ length fields.now }
    requires namings { length (namings_at stream.now local) ≡ length fields.now }
    ensures { IfOk result (λ kept. kept.items
        ≡ dev_keys fields.now dev_codes.now (namings_at stream.now local)) }
{
    let mut kept = Vec::new(alloc);
    for (place, field) in fields.iter().enumerate() {
        let code = dev_codes[place];
        kept.push(kept_dev(alloc, stream, local, place as u8, field, code)?)?;
    }
    Ok(kept)
}

/// Whether what is kept are the developer fields of this local message type by their described codes, with the names and units that
/// they have after the records of a stream.
pub(crate) fn are_devs(
    kept: &[KeptDev],
    stream: &Stream,
    local: u8,
    fields: &[DevDef],
    dev_codes: &[u8],
) -> bool
    requires few { length fields.now < 256 }
    requires codes { length dev_codes.now ≡ length fields.now }
    requires namings { length (namings_at stream.now local) ≡ length fields.now }
    ensures { IsTrue result ↔ (kept.now
        ≡ dev_keys fields.now dev_codes.now (namings_at stream.now local)) }
{
    if kept.len() != fields.len() {
        return false;
    }
    for (place, field) in fields.iter().enumerate() {
        let code = dev_codes[place];
        if !is_dev(&kept[place], stream, local, place as u8, field, code) {
            return false;
        }
    }
    true
}
