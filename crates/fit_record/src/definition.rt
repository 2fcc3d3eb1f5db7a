//! Definition messages (FIT protocol, "Definition Message").
ghost use Rattle.std.specs.Prelude.{◌≡◌, ◌↔◌, ◌<◌, ◌≤◌, IfOk, IsTrue, None, Some, length, sum_by};
ghost use Rattle.fit_base.specs.BaseTypes.{base_type};
ghost use Rattle.fit_record.specs.Records.{DefinitionFits, body_length};
ghost use Rattle.fit_record.specs.Sizes.{body_limit};

use fit_base::{Code, Entries, Order};
use std::alloc::{AllocError, Allocator, Global};

/// A field of a definition message: its number in the profile, its size in bytes, and its base type
/// code.
#[derive(Clone, Copy, Debug, PartialEq, Eq)]
pub struct FieldDef {
    pub number: u8,
    pub size: u8,
    pub code: u8,
}

impl FieldDef {
    /// A field of this number, size in bytes and base type code.
    pub fn new(number: u8, size: u8, code: u8) -> FieldDef
        ensures { result ≡ record { number = number; size = size; code = code } }
    {
        FieldDef { number, size, code }
    }

    /// A field of one item of this base type.
    pub fn one(number: u8, code: u8) -> FieldDef
        ensures { result
            ≡ record { number = number; size = (base_type code).width; code = code } }
    {
        FieldDef {
            number,
            size: Code(code).width(),
            code,
        }
    }
}

/// A developer field of a definition message: its number, its size in bytes, and its developer data
/// index.
#[derive(Clone, Copy, Debug, PartialEq, Eq)]
pub struct DevDef {
    pub number: u8,
    pub size: u8,
    pub index: u8,
}

impl DevDef {
    /// A developer field of this number, size in bytes and developer data index.
    pub fn new(number: u8, size: u8, index: u8) -> DevDef
        ensures { result ≡ record { number = number; size = size; index = index } }
    {
        DevDef {
            number,
            size,
            index,
        }
    }
}

/// A definition message: what data messages of a local message type look like.
#[derive(Drop)]
#[derive_where(Debug, PartialEq)]
pub struct MessageDef<A: Allocator = Global> {
    /// The local message type, below 16.
    pub local: u8,
    /// The reserved byte. It may be any, and is kept.
    pub reserved: u8,
    /// The architecture: the byte order of the global message number and of all items.
    pub order: Order,
    /// The global message number.
    pub global: u16,
    /// The fields, at most 255.
    pub fields: Entries<FieldDef, A>,
    /// The developer fields, at most 255. `None` where the record header says that there are none
    /// ("Developer Fields").
    pub dev: Option<Entries<DevDef, A>>,
}

impl<A: Allocator> MessageDef<A> {
    /// A definition message without developer fields. Its reserved byte is 0.
    pub fn new(local: u8, order: Order, global: u16, fields: Entries<FieldDef, A>) -> Self
        ensures { result ≡ record {
          local = local;
          reserved = 0;
          order = order;
          global = global;
          fields = fields;
          dev = None;
        } }
    {
        MessageDef {
            local,
            reserved: 0,
            order,
            global,
            fields,
            dev: None,
        }
    }

    /// The same definition message with these developer fields.
    pub fn with_dev(self, dev: Entries<DevDef, A>) -> Self
        ensures { result ≡ record self { dev = Some dev } }
    {
        MessageDef {
            dev: Some(dev),
            ..self
        }
    }
}

/// Whether two definitions are the same and have no developer fields.
pub(crate) fn are_same<A: Allocator>(a: &MessageDef<A>, b: &MessageDef<A>) -> bool
    ensures { IsTrue result ↔ ((a.now ≡ b.now) × (b.now.dev ≡ None)) }
{
    if a.dev.is_some() || b.dev.is_some() {
        return false;
    }
    if a.local != b.local
        || a.reserved != b.reserved
        || a.order != b.order
        || a.global != b.global
    {
        return false;
    }
    same_fields(a.fields.as_slice(), b.fields.as_slice())
}

/// Whether two lists of fields are the same. Where they differ, the last one mostly does, so it is compared first.
pub fn same_fields(a: &[FieldDef], b: &[FieldDef]) -> bool
    ensures { IsTrue result ↔ (a.now ≡ b.now) }
{
    if a.len() != b.len() || a.last() != b.last() {
        return false;
    }
    for place in 0..a.len() {
        if a[place] != b[place] {
            return false;
        }
    }
    true
}

/// The same definition, in memory of its own.
pub(crate) fn definition_copy<A: Allocator + Copy>(
    alloc: A,
    d: &MessageDef<A>,
) -> Result<MessageDef<A>, AllocError>
    ensures { IfOk result (λ copy. copy ≡ d.now) }
{
    let fields = Entries::from_slice(alloc, d.fields.as_slice())?;
    let dev = dev_copy(alloc, &d.dev)?;
    Ok(MessageDef {
        local: d.local,
        reserved: d.reserved,
        order: d.order,
        global: d.global,
        fields,
        dev,
    })
}

/// The same developer fields, in memory of their own.
fn dev_copy<A: Allocator>(
    alloc: A,
    dev: &Option<Entries<DevDef, A>>,
) -> Result<Option<Entries<DevDef, A>>, AllocError>
    ensures { IfOk result (λ copy. copy ≡ dev.now) }
{
    match dev {
        None => Ok(None),
        Some(fields) => {
            let fields = Entries::from_slice(alloc, fields.as_slice())?;
            Ok(Some(fields))
        }
    }
}

/// How many bytes follow the record header of a data message.
pub fn body_length<A: Allocator>(d: &MessageDef<A>) -> u32
    requires { DefinitionFits d.now }
    ensures length { result ≡ body_length d.now }
    ensures small { result ≤ body_limit }
{
    let fields = sizes_of_fields(d.fields.as_slice());
    match &d.dev {
        None => fields,
        Some(dev) => fields + sizes_of_dev_fields(dev.as_slice()),
    }
}

/// The sum of the sizes of fields.
fn sizes_of_fields(fields: &[FieldDef]) -> u32
    requires { length fields.now < 256 }
    ensures sum { result ≡ sum_by (λ f. f.size) fields.now }
    ensures small { result ≤ 65025 }
{
    let mut sum = 0;
    for f in fields {
        sum += f.size as u32;
    }
    sum
}

/// The sum of the sizes of developer fields.
fn sizes_of_dev_fields(fields: &[DevDef]) -> u32
    requires { length fields.now < 256 }
    ensures sum { result ≡ sum_by (λ f. f.size) fields.now }
    ensures small { result ≤ 65025 }
{
    let mut sum = 0;
    for f in fields {
        sum += f.size as u32;
    }
    sum
}
