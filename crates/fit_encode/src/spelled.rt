//! Records that are kept as their bytes.
ghost use Rattle.std.specs.Prelude.{◌≡◌, ◌+◌, ◌<◌, ◌≤◌, ◌^◌, [], ◌∷◌, ◌++◌, OnOk, OnErr, IfOk, IfSome, None, length, take};
ghost use Rattle.std.specs.Global.{Global};
ghost use Rattle.fit_record.specs.Environment.{empty_environment, learn_all};
ghost use Rattle.fit_record.specs.MessageBytes.{message_in};
ghost use Rattle.fit_record.specs.Records.{AllFit, Fits, IsRecord, record_bytes, records_bytes};
ghost use Rattle.fit_record.specs.Sizes.{body_limit};
ghost use Rattle.fit_record.specs.declared.message.Record.TheVariants.{Values as Data};
ghost use Rattle.fit_record.specs.declared.message.Values.{Values};
ghost use Rattle.fit_encode.specs.inner.Kept.{AreTooLong, with_sum};
ghost use Rattle.fit_encode.specs.inner.Spelling.{bytes_in_order, IsSpellable};

use crate::chain_bytes::ChainBytes;
use crate::encoder::order_of;
use crate::length::definition_length;
use crate::place::place_record;
use fit_base::Order;
use fit_history::History;
use fit_record::{Env, MessageBytes, Record};
use std::alloc::{AllocError, Global};
use std::marker::Model;
use std::mem;

/// The most bytes of a data section.
const MOST: usize = 0xFFFF_FFFF;

/// Records of a file, which are kept as their bytes and not as records: so they take the memory of their bytes.
#[derive(Drop)]
pub struct SpelledRecords {
    bytes: Vec<u8>,
    /// How many records have bytes here: all of them, or those before the first with which they are too many.
    count: u64,
    too_long: bool,
    records: History<Record>,
}

impl Model for SpelledRecords {
    ghost use Rattle.std.specs.Prelude.{List};
    ghost use Rattle.std.specs.declared.alloc.Global.{Global};
    ghost use Rattle.fit_record.specs.declared.message.Record.{Record};
    ghost use Rattle.fit_encode.specs.inner.Kept.{AreSpelled};

    ghost Value = { List (Record Global) };

    ghost view = { λ s. s.records.items };

    ghost invariant = { λ s. AreSpelled s.bytes.items s.count s.too_long s.records.items };
}

impl SpelledRecords {
    /// No records.
    pub fn new(alloc: Global) -> SpelledRecords
        ensures { result ≡ [] }
    {
        SpelledRecords {
            bytes: Vec::new(alloc),
            count: 0,
            too_long: false,
            records: History::new(),
        }
    }

    /// Takes all records out, and keeps their memory for others. Returns what they were.
    pub(crate) fn take_all(&mut self) -> History<Record>
        ensures past { result.items ≡ self.old }
        ensures left { self.new ≡ [] }
    {
        self.bytes.clear();
        self.count = 0;
        self.too_long = false;
        mem::replace(&mut self.records, History::new())
    }

    /// Puts a header, the bytes of the records, and the checksum of both after other bytes, and lets the records go. Returns what they
    /// were. Out of memory, nothing changes.
    pub(crate) fn put_after(
        &mut self,
        bytes: &mut ChainBytes,
        head: &[u8],
    ) -> Result<History<Record>, AllocError>
        requires head { 0 < length head.now }
        requires short { length (records_bytes empty_environment self.old) < 2 ^ 32 }
        ensures ok { OnOk result (bytes.new ≡ bytes.old
            ++ with_sum (head.now ++ records_bytes empty_environment self.old)) }
        ensures few { OnOk result (length bytes.new < 2 ^ 64) }
        ensures past { IfOk result (λ past. past.items ≡ self.old) }
        ensures left { OnOk result (self.new ≡ []) }
        ensures err { OnErr result (bytes.new ≡ bytes.old) }
        ensures kept { OnErr result (self.new ≡ self.old) }
    {
        bytes.push(head, &mut self.bytes)?;
        self.count = 0;
        self.too_long = false;
        Ok(mem::replace(&mut self.records, History::new()))
    }

    /// Puts a record at the end. It has to fit after the records before it, and `env` is what they have defined. Out of memory,
    /// nothing changes.
    pub fn push(&mut self, env: &Env, r: &Record) -> Result<(), AllocError>
        requires known { env.now ≡ learn_all empty_environment self.old }
        requires fits { Fits env.now r.now }
        ensures ok { OnOk result (self.new ≡ self.old ++ r.now ∷ []) }
        ensures err { OnErr result (self.new ≡ self.old) }
    {
        if self.too_long {
            self.records.add(r);
            return Ok(());
        }
        let size = record_size(env, r);
        if size > MOST - self.bytes.len() {
            self.too_long = true;
            self.records.add(r);
            return Ok(());
        }
        put_record(&mut self.bytes, order_of(env, r), size, r)?;
        self.count += 1;
        self.records.add(r);
        Ok(())
    }

    /// Puts the data message that these bytes are at the end, as `push` does.
    pub fn push_message(&mut self, env: &Env, bytes: &[u8]) -> Result<(), AllocError>
        requires known { env.now ≡ learn_all empty_environment self.old }
        requires message { (v : Values Global) × IsRecord env.now (Data v) bytes.now }
        ensures ok { OnOk result ((v : Values Global) → IsRecord env.now (Data v) bytes.now
            → self.new ≡ self.old ++ Data v ∷ []) }
        ensures err { OnErr result (self.new ≡ self.old) }
    {
        let message = env.open(bytes);
        if self.too_long {
            message.add_to(&mut self.records);
            return Ok(());
        }
        let more = bytes.len();
        if more > MOST - self.bytes.len() {
            self.too_long = true;
            message.add_to(&mut self.records);
            return Ok(());
        }
        self.bytes.extend_from_slice(bytes)?;
        self.count += 1;
        message.add_to(&mut self.records);
        Ok(())
    }

    /// The place of the first record with which they have more bytes than a data section may have.
    pub(crate) fn too_long(&self) -> Option<u64>
        ensures fit { AllFit empty_environment self.now }
        ensures none { result ≡ None
            → length (records_bytes empty_environment self.now) < 2 ^ 32 }
        ensures some { IfSome result (λ index. AreTooLong index self.now) }
    {
        if self.too_long {
            Some(self.count)
        } else {
            None
        }
    }

    /// The bytes of the records, if they may be those of a data section.
    pub(crate) fn bytes(&self) -> &[u8]
        ensures { length (records_bytes empty_environment self.now) < 2 ^ 32
            → result.now ≡ records_bytes empty_environment self.now }
    {
        self.bytes.as_slice()
    }
}

/// Makes bytes those of a record that fits where this is known. The only error is out of memory.
pub fn spell(bytes: &mut Vec<u8>, env: &Env, r: &Record) -> Result<(), AllocError>
    requires { Fits env.now r.now }
    ensures { OnOk result (bytes.new.items ≡ record_bytes env.now r.now) }
{
    bytes.clear();
    let size = record_size(env, r);
    put_record(bytes, order_of(env, r), size, r)
}

/// How many bytes a record has that fits.
fn record_size(env: &Env, r: &Record) -> usize
    requires { Fits env.now r.now }
    ensures length { result ≡ length (record_bytes env.now r.now) }
    ensures small { result ≤ 1 + body_limit }
{
    match r {
        Record::Define(d) => definition_length(d),
        Record::Values(v) => match env.length(v.local) {
            Some(size) => 1 + size as usize,
            None => unreachable!(),
        },
    }
}

/// Puts a record at the end, in one piece: a number is written with bytes after it, which are cut off. Out of memory, nothing
/// changes.
fn put_record(bytes: &mut Vec<u8>, order: Order, size: usize, r: &Record) -> Result<(), AllocError>
    requires spellable { IsSpellable r.now }
    requires size { size ≡ length (bytes_in_order order r.now) }
    requires small { length bytes.old.items + size < 2 ^ 32 }
    ensures ok { OnOk result (bytes.new.items ≡ bytes.old.items ++ bytes_in_order order r.now) }
    ensures err { OnErr result (bytes.new.items ≡ bytes.old.items) }
{
    let start = bytes.len();
    make_room(bytes, size)?;
    let end = place_record(bytes.as_mut_slice(), start, order, r);
    bytes.truncate(end);
    Ok(())
}

/// Puts zeros at the end, at least this many and eight more. Most records are short, and theirs are a copy of a fixed number of bytes.
#[inline(always)]
#[tactic(auto, using(crate::proofs::Places::first_part))]
fn make_room(bytes: &mut Vec<u8>, size: usize) -> Result<(), AllocError>
    requires { length bytes.old.items + size < 2 ^ 32 }
    ensures room { OnOk result (length bytes.old.items + size + 8 ≤ length bytes.new.items) }
    ensures front { OnOk result
        (take (length bytes.old.items) bytes.new.items ≡ bytes.old.items) }
    ensures err { OnErr result (bytes.new.items ≡ bytes.old.items) }
{
    if size <= 56 {
        bytes.extend_from_slice(&[0; 64])
    } else {
        bytes.resize(bytes.len() + size + 8, 0)
    }
}
