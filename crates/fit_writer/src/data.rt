//! The bytes of a file that has begun, with the stream that a reader of them would have.
ghost use Rattle.std.specs.Prelude.{◌≡◌, ◌<◌, ◌≤◌, ◌+◌, ◌∷◌, ◌^◌, IfOk, IsTrue, ◌↔◌, OnErr, OnOk, length};
ghost use Rattle.std.specs.Global.{Global};
ghost use Rattle.fit_record.specs.declared.message.Record.TheVariants.{Values as Data};
ghost use Rattle.fit_record.specs.declared.message.Values.{Values};
ghost use Rattle.fit_record.specs.Records.{Fits, IsRecord, record_bytes};
ghost use Rattle.fit_profile.specs.Looks.{known};
ghost use Rattle.fit_writer.specs.Amounts.{amounts_in, latest_amounts};
ghost use Rattle.fit_writer.specs.inner.OpenFiles.{AreData};

use fit_profile::{Stream, Told};
use fit_record::Record;
use std::alloc::AllocError;

/// The most bytes of a data section.
const MOST: usize = 0xFFFF_FFFF;

/// Whether data may have that many bytes more.
pub(crate) fn has_room(section: &[u8], more: usize) -> bool
    requires { length section.now < 2 ^ 32 }
    ensures { IsTrue result ↔ (length section.now + more < 2 ^ 32) }
{
    more <= MOST - section.len()
}

/// Puts a record with its bytes. Out of memory, nothing changes.
pub(crate) fn add_record(
    section: &mut Vec<u8>,
    stream: &mut Stream,
    bytes: &[u8],
    record_: &Record,
) -> Result<(), AllocError>
    requires are { AreData section.old.items stream.old }
    requires fits { Fits (known stream.old) record_.now }
    requires bytes { bytes.now ≡ record_bytes (known stream.old) record_.now }
    requires room { length section.old.items + length bytes.now < 2 ^ 32 }
    ensures ok { OnOk result (stream.new ≡ record_.now ∷ stream.old) }
    ensures length { OnOk result
        (length section.new.items ≡ length section.old.items + length bytes.now) }
    ensures are { AreData section.new.items stream.new }
    ensures err { OnErr result (stream.new ≡ stream.old) }
{
    let start = section.len();
    section.extend_from_slice(bytes)?;
    match stream.take(record_) {
        Ok(()) => Ok(()),
        Err(fault) => {
            section.truncate(start);
            Err(fault)
        }
    }
}

/// Puts the data message that these bytes are. Returns what a reader is told of it. Out of memory, nothing changes.
pub(crate) fn add_message(
    section: &mut Vec<u8>,
    stream: &mut Stream,
    bytes: &[u8],
) -> Result<Told, AllocError>
    requires are { AreData section.old.items stream.old }
    requires message { (v : Values Global) × IsRecord (known stream.old) (Data v) bytes.now }
    requires room { length section.old.items + length bytes.now < 2 ^ 32 }
    ensures ok { OnOk result ((v : Values Global)
        → IsRecord (known stream.old) (Data v) bytes.now → stream.new ≡ Data v ∷ stream.old) }
    ensures told { IfOk result (λ told. amounts_in told ≡ latest_amounts stream.new) }
    ensures are { AreData section.new.items stream.new }
    ensures err { OnErr result (stream.new ≡ stream.old) }
{
    let start = section.len();
    section.extend_from_slice(bytes)?;
    match stream.take_and_tell(bytes) {
        Ok(taken) => Ok(taken.told),
        Err(fault) => {
            section.truncate(start);
            Err(fault)
        }
    }
}
