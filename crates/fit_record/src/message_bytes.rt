//! Data messages in their bytes.
ghost use Rattle.std.specs.Prelude.{◌≡◌, ◌⊎◌, ◌+◌, ◌*◌, ◌/◌, ◌≤◌, ◌++◌, [], ◌∷◌, ℕ, List, IfOk, IfSome, IsSomeAnd, OnOk, Some, length, take, drop};
ghost use Rattle.fit_record.specs.declared.message.Record.TheVariants.{Values as Data};
ghost use Rattle.fit_record.specs.declared.message.Values.{Values};
ghost use Rattle.fit_record.specs.Environment.{defined_at};
ghost use Rattle.fit_record.specs.MessageBytes.{message_in};
ghost use Rattle.fit_record.specs.ReadMessages.{field_from, fields_from, numbers_of};
ghost use Rattle.fit_record.specs.Records.{IsRecord, message_size, sizes};
ghost use Rattle.fit_record.specs.Sound.{IsSound};

use crate::header::message_header;
use crate::{Defined, Env, Layout, Record, Values};
use fit_base::{Bits, Code, Entries, Items, Order, bits_at, width_of};
use fit_history::History;
use std::alloc::{AllocError, Allocator, Global};

/// A data message in its bytes, by the definition of its local message type.
#[derive(Drop)]
pub struct MessageBytes<'a, A: Allocator = Global> {
    /// The local message type.
    pub local: u8,
    /// The time offset of a compressed timestamp header, in seconds, below 32.
    pub offset: Option<u8>,
    pub defined: &'a Defined<A>,
    /// The bytes after the record header: those of the fields, and then those of the developer fields.
    pub body: &'a [u8],
}

impl<A: Allocator> Env<A> {
    /// The data message that begins these bytes, where all of it stands there. There is none where the first byte is the header of a
    /// definition message or has a reserved bit, where its local message type isn't defined, and where bytes are missing.
    #[inline(always)]
    pub fn message_bytes<'a>(&'a self, bytes: &'a [u8]) -> Option<MessageBytes<'a, A>>
        ensures defined { IfSome result (λ m. defined_at self.now m.local ≡ Some m.defined.now) }
        ensures sound { IfSome result (λ m. IsSound m.defined.now) }
        ensures size { IfSome result (λ m. length m.body.now ≡ message_size m.defined.now) }
        ensures within { IfSome result (λ m. 1 + length m.body.now ≤ length bytes.now) }
        ensures spelled { IfSome result (λ m.
            IsRecord self.now (Data (message_in m)) (take (1 + length m.body.now) bytes.now)) }
        ensures found { (v : Values A) (front rest : List ℕ) → bytes.now ≡ front ++ rest
            → IsRecord self.now (Data v) front
            → IsSomeAnd result (λ m. (message_in m ≡ v) × (1 + length m.body.now ≡ length front)) }
    {
        let (first, rest) = bytes.split_first()?;
        let (local, offset) = message_header(*first)?;
        let defined = self.defined(local)?;
        let size = self.length(local)? as usize;
        if rest.len() < size {
            return None;
        }
        let (body, _) = rest.split_at(size);
        Some(MessageBytes {
            local,
            offset,
            defined,
            body,
        })
    }

    /// The data message that these bytes are: finds the definition by which it is read.
    #[inline(always)]
    pub fn open<'a>(&'a self, bytes: &'a [u8]) -> MessageBytes<'a, A>
        requires { (v : Values A) × IsRecord self.now (Data v) bytes.now }
        ensures read { (v : Values A) → IsRecord self.now (Data v) bytes.now
            → message_in result ≡ v }
        ensures spelled { IsRecord self.now (Data (message_in result)) bytes.now }
        ensures defined { defined_at self.now result.local ≡ Some result.defined.now }
        ensures sound { IsSound result.defined.now }
        ensures size { length result.body.now ≡ message_size result.defined.now }
    {
        match self.message_bytes(bytes) {
            Some(message) => message,
            None => unreachable!(),
        }
    }
}

impl MessageBytes<'_> {
    /// Puts the message in a history of records.
    pub fn add_to(&self, records: &mut History<Record>)
        ensures { records.new.items ≡ records.old.items ++ Data (message_in self.now) ∷ [] }
    {
        records.add_from(self);
    }
}

impl<'a, A: Allocator + Copy> MessageBytes<'a, A> {
    /// The data message, with the items of its fields made from their bytes. The only error is out of memory.
    #[inline(always)]
    pub fn values(&self, alloc: A) -> Result<Values<A>, AllocError>
        requires sound { IsSound self.now.defined.now }
        requires size { length self.now.body.now ≡ message_size self.now.defined.now }
        ensures { IfOk result (λ v. v ≡ message_in self.now) }
    {
        let order = self.defined.definition.order;
        let (fields, back) = read_fields(alloc, order, &self.defined.layout(), self.body)?;
        let (dev, _) = read_fields(alloc, order, &self.defined.dev_layout(), back)?;
        Ok(Values {
            local: self.local,
            offset: self.offset,
            fields,
            dev,
        })
    }
}

/// The items that the first bytes are as those of fields, one field after another, and the bytes after them. Each call is a
/// walk of its own, which knows where its layout stands.
#[inline(always)]
fn read_fields<'a, A: Allocator + Copy>(
    alloc: A,
    order: Order,
    layout: &Layout<'_>,
    bytes: &'a [u8],
) -> Result<(Entries<Items<A>, A>, &'a [u8]), AllocError>
    requires { sizes layout.now ≤ length bytes.now }
    ensures { IfOk result (λ r. (r.0 ≡ fields_from order layout.now bytes.now)
        × (r.1.now ≡ drop (sizes layout.now) bytes.now)) }
{
    let mut items = Entries::with_capacity(alloc, layout.len())?;
    let mut rest = bytes;
    for place in 0..layout.len() {
        let (code, size) = layout.shape(place);
        let (here, after) = rest.split_at(size as usize);
        push_field(&mut items, alloc, order, code, size, here)?;
        rest = after;
    }
    Ok((items, rest))
}

/// Puts the items that the bytes of a field are after those of the fields before.
#[inline(always)]
fn push_field<A: Allocator + Copy>(
    items: &mut Entries<Items<A>, A>,
    alloc: A,
    order: Order,
    code: u8,
    size: u8,
    bytes: &[u8],
) -> Result<(), AllocError>
    requires { length bytes.now ≡ size }
    ensures { OnOk result (items.new ≡ items.old ++ field_from order (code, size) bytes.now ∷ []) }
{
    if Code(code).width() == size {
        let number = bits_at(order, size, bytes);
        items.push(Items::one(alloc, size, number))?;
        return Ok(());
    }
    push_numbers(items, alloc, order, code, size, bytes)
}

/// Pushes the items of a field that needn't be a lone number. It stands apart, since most fields are one.
#[cold]
#[inline(never)]
fn push_numbers<A: Allocator + Copy>(
    items: &mut Entries<Items<A>, A>,
    alloc: A,
    order: Order,
    code: u8,
    size: u8,
    bytes: &[u8],
) -> Result<(), AllocError>
    requires { length bytes.now ≡ size }
    ensures { OnOk result (items.new ≡ items.old ++ field_from order (code, size) bytes.now ∷ []) }
{
    items.push(read_items(alloc, order, code, size, bytes)?)?;
    Ok(())
}

/// The items that the bytes of a field are, by its base type code and its size in bytes. The only error is out of memory.
pub fn read_items<A: Allocator + Copy>(
    alloc: A,
    order: Order,
    code: u8,
    size: u8,
    bytes: &[u8],
) -> Result<Items<A>, AllocError>
    requires { length bytes.now ≡ size }
    ensures { IfOk result (λ items. items ≡ field_from order (code, size) bytes.now) }
{
    let width = width_of(Code(code), size);
    let bits = read_numbers(alloc, order, width, bytes)?;
    Ok(Items { width, bits })
}

/// The numbers that bytes are, one of this width after another.
fn read_numbers<A: Allocator + Copy>(
    alloc: A,
    order: Order,
    width: u8,
    bytes: &[u8],
) -> Result<Bits<A>, AllocError>
    requires width { (width ≡ 1) ⊎ (width ≡ 2) ⊎ (width ≡ 4) ⊎ (width ≡ 8) }
    requires whole { length bytes.now / width * width ≡ length bytes.now }
    ensures { IfOk result (λ bits. bits ≡ numbers_of order width (length bytes.now / width)
        bytes.now) }
{
    if width == 1 {
        return Bits::from_bytes(alloc, bytes);
    }
    let count = bytes.len() / width as usize;
    let mut bits = Bits::with_capacity(alloc, count)?;
    let mut rest = bytes;
    for _ in 0..count {
        let (number, after) = rest.split_at(width as usize);
        bits.push(bits_at(order, width, number))?;
        rest = after;
    }
    Ok(bits)
}
