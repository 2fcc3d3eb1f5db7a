//! Writes files and chains of files.
ghost use Rattle.std.specs.Prelude.{◌≡◌, ◌∷◌, [], OnOk, IfErr, length, false};
ghost use Rattle.std.specs.Io.KnownBytes.{Appends};
ghost use Rattle.fit_record.specs.Environment.{empty_environment};
ghost use Rattle.fit_record.specs.Records.{AllFit, records_bytes};
ghost use Rattle.fit_record.specs.Files.{IsWellFormed, IsWellFormedChain, body, file_bytes, chain_bytes, chain_limit};
ghost use Rattle.fit_encode.specs.Faults.{IsFirstFault, IfWrite, UnlessWrite, IfRefused, StopsAt};
ghost use Rattle.fit_encode.specs.inner.Sending.{sink_state, Sends, PutsAll};
ghost use Rattle.fit_frame.specs.Header.{HeaderFits, header_bytes};
ghost use Rattle.fit_encode.specs.inner.Spelling.{order_in, orders_after};

use crate::check::{check_files, check_one};
use crate::length::{data_length, note_size, size_in};
use crate::message::spell_record;
use crate::spelling::Spelling;
use crate::{EncodeFault, Sink};
use fit_base::Order;
use fit_frame::{Header, head_bytes};
use fit_record::{Env, FitFile, Record};
use std::alloc::{Allocator, Global};

/// Writes a file.
///
/// Before a byte goes out it returns the first fault: `BadHeader`, then the faults of the records in
/// their order, and last `ZeroIsSum`. `NoMemory` may come in place of these. The writing itself takes
/// no memory. `Write` comes where the sink failed: it has taken the first `written` bytes of the file.
pub fn write_one<K: Sink>(alloc: Global, sink: &mut K, file: &FitFile) -> Result<(), EncodeFault>
    ensures ok { OnOk result (IsWellFormed file.now) }
    ensures spelled { OnOk result (Appends (K.contents sink.old) (K.contents sink.new)
        (file_bytes file.now)) }
    ensures works { OnOk result (K.has_failed sink.new ≡ false) }

    // Before a byte went out.
    ensures refused { IfErr result (λ fault. IfRefused fault (IsFirstFault (file.now ∷ []) fault)) }
    ensures unchanged { IfErr result (λ fault. UnlessWrite fault (sink.new ≡ sink.old)) }

    // A good file, of which the sink took a part.
    ensures written_of_good { IfErr result (λ fault.
        IfWrite fault (λ written. IsWellFormed file.now)) }
    ensures written { IfErr result (λ fault. IfWrite fault
        (StopsAt (K.contents sink.old) (K.contents sink.new) (K.has_failed sink.new)
        (file_bytes file.now))) }
{
    let mut env = Env::new(alloc);
    let data_len = match check_one(alloc, &mut env, file) {
        Ok(data_len) => data_len,
        Err(fault) => return Err(fault),
    };
    let mut out = Spelling::new(0);
    if let Err(written) = write_file(&mut out, sink, 0, data_len, file) {
        return Err(EncodeFault::Write { written });
    }
    Ok(())
}

/// Writes a chain of files, one after another.
///
/// `ChainLength` comes before all other faults. Then each file is checked as by `write_one`. `Write` comes where the sink failed: it
/// has taken the first `written` bytes of the chain.
pub fn write_chain<K: Sink>(
    alloc: Global,
    sink: &mut K,
    files: &[FitFile],
) -> Result<(), EncodeFault>
    ensures ok { OnOk result (IsWellFormedChain chain_limit files.now) }
    ensures spelled { OnOk result (Appends (K.contents sink.old) (K.contents sink.new)
        (chain_bytes files.now)) }
    ensures works { OnOk result (K.has_failed sink.new ≡ false) }

    // Before a byte went out.
    ensures refused { IfErr result (λ fault. IfRefused fault (IsFirstFault files.now fault)) }
    ensures unchanged { IfErr result (λ fault. UnlessWrite fault (sink.new ≡ sink.old)) }

    // A good chain, of which the sink took a part.
    ensures written_of_good { IfErr result (λ fault.
        IfWrite fault (λ written. IsWellFormedChain chain_limit files.now)) }
    ensures written { IfErr result (λ fault. IfWrite fault
        (StopsAt (K.contents sink.old) (K.contents sink.new) (K.has_failed sink.new)
        (chain_bytes files.now))) }
{
    let mut env = Env::new(alloc);
    if let Err(fault) = check_files(alloc, &mut env, files) {
        return Err(fault);
    }
    match write_files(sink, files) {
        Ok(()) => Ok(()),
        Err(written) => Err(EncodeFault::Write { written }),
    }
}

/// Writes files that can be written.
fn write_files<K: Sink, A: Allocator>(sink: &mut K, files: &[FitFile<A>]) -> Result<(), u64>
    requires { IsWellFormedChain chain_limit files.now }
    ensures ok { OnOk result (Appends (K.contents sink.old) (K.contents sink.new)
        (chain_bytes files.now)) }
    ensures err { IfErr result (StopsAt (K.contents sink.old) (K.contents sink.new)
        (K.has_failed sink.new) (chain_bytes files.now)) }
    ensures works { OnOk result (K.has_failed sink.new ≡ false) }
{
    let mut out = Spelling::new(0);
    let mut count = 0;
    for file in files {
        count = write_file(
            &mut out,
            sink,
            count,
            data_length(file.records.as_slice()),
            file,
        )?;
    }
    Ok(())
}

/// Writes a file that can be written, with `data_len` bytes of data. `count` bytes went out before it,
/// and the result counts on. Whatever was spelled before is forgotten.
fn write_file<K: Sink, A: Allocator>(
    out: &mut Spelling,
    sink: &mut K,
    count: u64,
    data_len: u32,
    file: &FitFile<A>,
) -> Result<u64, u64>
    requires good { IsWellFormed file.now }
    requires size { data_len ≡ length (body file.now) }
    ensures { PutsAll
        (sink_state K.contents K.has_failed sink.old) (sink_state K.contents K.has_failed sink.new)
        count (file_bytes file.now) result }
{
    out.begin(count);
    spell_head(out, sink, &file.header, data_len)?;
    spell_records(out, sink, file.records.as_slice())?;
    out.end(sink)?;
    Ok(out.count())
}

/// Spells a header that can stand before that many bytes of data.
pub(crate) fn spell_head<K: Sink>(
    out: &mut Spelling,
    sink: &mut K,
    header: &Header,
    data_len: u32,
) -> Result<(), u64>
    requires { HeaderFits header.now data_len }
    ensures { Sends
        (sink_state K.contents K.has_failed sink.old) (sink_state K.contents K.has_failed sink.new)
        out.old out.new (header_bytes header.now data_len) result }
{
    match head_bytes(header, data_len) {
        Ok(bytes) => out.bytes(sink, bytes.as_slice()),
        Err(_) => unreachable!(),
    }
}

/// Spells records that can stand one after another. Of what they make known it keeps the byte order
/// of each local message type, which is all that their bytes depend on, and how many bytes its data messages have.
fn spell_records<K: Sink, A: Allocator>(
    out: &mut Spelling,
    sink: &mut K,
    records: &[Record<A>],
) -> Result<(), u64>
    requires { AllFit empty_environment records.now }
    ensures { Sends
        (sink_state K.contents K.has_failed sink.old) (sink_state K.contents K.has_failed sink.new)
        out.old out.new (records_bytes empty_environment records.now) result }
{
    let mut orders = [Order::Little; 16];
    let mut sizes = [0; 16];
    for r in records {
        let size = size_in(&sizes, r);
        spell_record(out, sink, order_in(&orders, r), size, r)?;
        note_order(&mut orders, r);
        note_size(&mut sizes, r);
    }
    Ok(())
}

/// The byte order of a record.
fn order_in<A: Allocator>(orders: &[Order; 16], r: &Record<A>) -> Order
    ensures { result ≡ order_in orders.now r.now }
{
    match r {
        Record::Define(_) => Order::Little,
        Record::Values(v) => match orders.get(v.local as usize) {
            Some(order) => *order,
            None => Order::Little,
        },
    }
}

/// Keeps the byte order of a definition.
fn note_order<A: Allocator>(orders: &mut [Order; 16], r: &Record<A>)
    ensures { orders.new ≡ orders_after orders.old r.now }
{
    if let Record::Define(d) = r {
        if d.local < 16 {
            orders[d.local as usize] = d.order;
        }
    }
}
