//! The streaming encoder: a file record by record.
ghost use Rattle.std.specs.Prelude.{◌≡◌, ◌+◌, ◌≤◌, [], ◌∷◌, ◌++◌, OnOk, IfOk, IfErr, IfSome, length, Some, None, Err, true, false};
ghost use Rattle.std.specs.Io.KnownBytes.{Appends};
ghost use Rattle.fit_frame.specs.Header.{HeaderFits, header_bytes};
ghost use Rattle.fit_record.specs.Environment.{DescribesNothing};
ghost use Rattle.fit_record.specs.Records.{Fits, record_bytes};
ghost use Rattle.fit_encode.specs.Encoding.{learned, CanPut, IsComplete, IsPutFault, IsFinishFault, IsHeaderFault, BreaksOff, header_sent, closed_fault, closing_bytes, IsWhole, IsPlaceFault, HasPlace, fault_when};
ghost use Rattle.fit_encode.specs.Faults.{StopsAt, IfWrite, UnlessWrite};
ghost use Rattle.fit_encode.specs.inner.Sending.{sink_state, Sends};
ghost use Rattle.fit_encode.specs.inner.Spelling.{bytes_in_order, IsSpellable};

use crate::check::shape_fault;
use crate::message::spell_record;
use crate::spelling::Spelling;
use crate::{EncodeFault, Sink};
use fit_base::Order;
use fit_frame::{HeadFault, Header, head_bytes};
use fit_history::History;
use fit_record::{Env, Record};
use std::alloc::{Allocator, Global};
use std::marker::Model;

/// Writes a file record by record, where the length of its data is known before.
///
/// It keeps no sink: each call writes to the one that it is given. After a good `finish` every call
/// returns `DeclaredLength`, and after `Write` every call returns that fault again.
pub struct Encoder {
    env: Env,
    out: Spelling,
    /// How many bytes of data the header declares.
    declared: u32,
    /// How many bytes the records put so far have.
    size: u32,
    /// How many records were put.
    count: u64,
    /// How many bytes of the file had gone out when a sink failed.
    failed: Option<u64>,
    finished: bool,
    head: History<u8>,
    records: History<Record>,
}

// A call wherever an encoder is dropped: derived, all that it frees would be written out and proved there.
impl Drop for Encoder {
    fn drop(self) {
        let Encoder {
            records: _records,
            head: _head,
            finished: _,
            failed: _,
            count: _,
            size: _,
            declared: _,
            out: _out,
            env: _env,
        } = self;
    }
}

impl Model for Encoder {
    ghost use Rattle.std.specs.Prelude.{◌≡◌, None, false};
    ghost use Rattle.std.specs.declared.alloc.Global.{Global};
    ghost use Rattle.fit_encode.specs.Encoding.{Encoding};
    ghost use Rattle.fit_encode.specs.inner.Open.{IsOpenFile};

    ghost Value = { Encoding Global };

    ghost view = { λ e. record { head = e.head.items; declared = e.declared; records = e.records.items; failed = e.failed; finished = e.finished } };

    ghost invariant = { λ e. e.failed ≡ None → e.finished ≡ false
        → IsOpenFile e.env e.out e.declared e.size e.count e.head.items e.records.items };
}

impl Encoder {
    /// Writes a header that declares `data_len` bytes of data.
    ///
    /// It returns `BadHeader` and then `ZeroIsSum` before a byte goes out, both with file 1. It takes
    /// no memory, and says nothing of whether records can have that many bytes. `Write` comes where the
    /// sink failed, and says how many bytes of the header have gone out.
    pub fn begin<K: Sink>(
        alloc: Global,
        sink: &mut K,
        header: &Header,
        data_len: u32,
    ) -> Result<Self, EncodeFault>
        ensures ok { IfOk result (λ e. e ≡ header_sent header.now data_len) }
        ensures good { OnOk result (HeaderFits header.now data_len) }
        ensures spelled { OnOk result (Appends (K.contents sink.old) (K.contents sink.new)
            (header_bytes header.now data_len)) }
        ensures works { OnOk result (K.has_failed sink.new ≡ false) }

        // Before a byte went out, or where the sink failed.
        ensures refused { IfErr result (λ fault.
            UnlessWrite fault (IsHeaderFault header.now data_len fault × (sink.new ≡ sink.old))) }
        ensures written_of_good { IfErr result
            (λ fault. IfWrite fault (λ written. HeaderFits header.now data_len)) }
        ensures written { IfErr result (λ fault.
            IfWrite fault (StopsAt (K.contents sink.old) (K.contents sink.new)
            (K.has_failed sink.new) (header_bytes header.now data_len))) }
    {
        let bytes = match head_bytes(header, data_len) {
            Ok(bytes) => bytes,
            Err(HeadFault::BadHeader) => return Err(EncodeFault::BadHeader { file: 1 }),
            Err(HeadFault::ZeroIsSum) => return Err(EncodeFault::ZeroIsSum { file: 1 }),
        };
        let mut out = Spelling::new(0);
        if let Err(written) = send(&mut out, sink, bytes.as_slice()) {
            return Err(EncodeFault::Write { written });
        }
        let mut head = History::new();
        head.note(bytes.as_slice());
        Ok(Encoder {
            env: Env::new(alloc),
            out,
            declared: data_len,
            size: 0,
            count: 0,
            failed: None,
            finished: false,
            head,
            records: History::new(),
        })
    }

    /// Writes a record.
    ///
    /// It returns the faults of the record's shape, with file 1 and the number of records put so far
    /// as `index`, and then `DeclaredLength` where the data would pass the declared length. With these
    /// and with `NoMemory` nothing changes. `Write` comes where the sink failed, and says how many bytes
    /// of the file have gone out since `begin`.
    pub fn put<K: Sink>(&mut self, sink: &mut K, r: &Record) -> Result<(), EncodeFault>
        ensures ok { OnOk result (CanPut self.old r.now) }
        ensures spelled { OnOk result (Appends (K.contents sink.old) (K.contents sink.new)
            (record_bytes (learned self.old) r.now)) }
        ensures works { OnOk result (K.has_failed sink.new ≡ false) }
        ensures kept { OnOk result (self.new ≡ record self.old
            { records = self.old.records ++ r.now ∷ [] }) }

        // A data message that describes nothing takes no memory.
        ensures free { DescribesNothing (learned self.old) r.now
            → IfErr result (λ fault. fault ≡ EncodeFault.NoMemory → ⊥) }

        // The file is finished, or a sink failed before.
        ensures closed { IfSome (closed_fault self.old)
            (λ fault. (result ≡ Err fault) × (self.new ≡ self.old) × (sink.new ≡ sink.old)) }

        // Before a byte went out, or where the sink failed.
        ensures refused { closed_fault self.old ≡ None
            → IfErr result (λ fault. UnlessWrite fault
            (IsPutFault self.old r.now fault × (self.new ≡ self.old) × (sink.new ≡ sink.old))) }
        ensures written { closed_fault self.old ≡ None
            → IfErr result (λ fault. IfWrite fault
            (λ written. CanPut self.old r.now
            × BreaksOff (K.contents sink.old) (K.contents sink.new) (K.has_failed sink.new) self.old
            self.new (record_bytes (learned self.old) r.now) written)) }
    {
        if let Some(fault) = closed_fault(self.finished, self.failed) {
            return Err(fault);
        }
        let size = record_size(&self.env, self.count, self.declared, self.size, r)?;
        let order = order_of(&self.env, r);
        if self.env.learn(r).is_err() {
            return Err(EncodeFault::NoMemory);
        }
        if let Err(written) = send_record(&mut self.out, sink, order, size as usize, r) {
            self.failed = Some(written);
            return Err(EncodeFault::Write { written });
        }
        self.size += size;
        self.count += 1;
        self.records.add(r);
        Ok(())
    }

    /// Writes the checksum at the end of the file.
    ///
    /// It returns `DeclaredLength` where data is missing, and changes nothing then. It takes no
    /// memory. `Write` comes where the sink failed, and says how many bytes of the file have gone out
    /// since `begin`.
    pub fn finish<K: Sink>(&mut self, sink: &mut K) -> Result<(), EncodeFault>
        ensures ok { OnOk result (IsComplete self.old) }
        ensures spelled { OnOk result (Appends (K.contents sink.old) (K.contents sink.new)
            (closing_bytes self.old)) }
        ensures works { OnOk result (K.has_failed sink.new ≡ false) }
        ensures finished { OnOk result (self.new ≡ record self.old { finished = true }) }

        // What went out since `begin` is the file of the header and the records.
        ensures whole { OnOk result (IsWhole self.old) }

        // The file is finished, or a sink failed before.
        ensures closed { IfSome (closed_fault self.old)
            (λ fault. (result ≡ Err fault) × (self.new ≡ self.old) × (sink.new ≡ sink.old)) }

        // Before a byte went out, or where the sink failed.
        ensures refused { closed_fault self.old ≡ None
            → IfErr result (λ fault. UnlessWrite fault
            (IsFinishFault self.old fault × (self.new ≡ self.old) × (sink.new ≡ sink.old))) }
        ensures written { closed_fault self.old ≡ None
            → IfErr result (λ fault. IfWrite fault
            (λ written. IsComplete self.old × BreaksOff (K.contents sink.old) (K.contents sink.new)
            (K.has_failed sink.new) self.old self.new (closing_bytes self.old) written)) }
    {
        if let Some(fault) = closed_fault(self.finished, self.failed) {
            return Err(fault);
        }
        if self.size < self.declared {
            return Err(EncodeFault::DeclaredLength);
        }
        if let Err(written) = self.out.end(sink) {
            self.failed = Some(written);
            return Err(EncodeFault::Write { written });
        }
        self.finished = true;
        Ok(())
    }
}

/// Why every call is refused.
fn closed_fault(finished: bool, failed: Option<u64>) -> Option<EncodeFault>
    ensures { result ≡ fault_when finished failed }
{
    if finished {
        return Some(EncodeFault::DeclaredLength);
    }
    match failed {
        None => None,
        Some(written) => Some(EncodeFault::Write { written }),
    }
}

/// The length of a record that can be put after that many others with that many bytes.
fn record_size<A: Allocator>(
    env: &Env<A>,
    count: u64,
    declared: u32,
    size: u32,
    r: &Record<A>,
) -> Result<u32, EncodeFault>
    requires { size ≤ declared }
    ensures ok { IfOk result (λ n. HasPlace env.now declared size r.now
        × (n ≡ length (record_bytes env.now r.now))) }
    ensures err { IfErr result (IsPlaceFault env.now count declared size r.now) }
    ensures memory { IfErr result (λ fault. fault ≡ EncodeFault.NoMemory → ⊥) }
{
    match env.fits(r) {
        Err(fault) => Err(shape_fault(1, count, fault)),
        Ok(more) => {
            if more > declared - size {
                return Err(EncodeFault::DeclaredLength);
            }
            Ok(more)
        }
    }
}

/// The byte order of a record.
pub(crate) fn order_of<A: Allocator>(env: &Env<A>, r: &Record<A>) -> Order
    ensures { bytes_in_order result r.now ≡ record_bytes env.now r.now }
{
    match r {
        Record::Define(_) => Order::Little,
        Record::Values(v) => match env.definition(v.local) {
            Some(d) => d.order,
            None => Order::Little,
        },
    }
}

/// Sends bytes.
fn send<K: Sink>(out: &mut Spelling, sink: &mut K, bytes: &[u8]) -> Result<(), u64>
    requires { length bytes.now ≤ 4096 }
    ensures sends { Sends
        (sink_state K.contents K.has_failed sink.old) (sink_state K.contents K.has_failed sink.new)
        out.old out.new bytes.now result }
    ensures empty { OnOk result (out.new.held ≡ []) }
{
    out.bytes(sink, bytes)?;
    out.send(sink)
}

/// Sends a record of this many bytes.
fn send_record<K: Sink, A: Allocator>(
    out: &mut Spelling,
    sink: &mut K,
    order: Order,
    size: usize,
    r: &Record<A>,
) -> Result<(), u64>
    requires spellable { IsSpellable r.now }
    requires size { size ≡ length (bytes_in_order order r.now) }
    ensures sends { Sends
        (sink_state K.contents K.has_failed sink.old) (sink_state K.contents K.has_failed sink.new)
        out.old out.new (bytes_in_order order r.now) result }
    ensures empty { OnOk result (out.new.held ≡ []) }
{
    spell_record(out, sink, order, size, r)?;
    out.send(sink)
}
