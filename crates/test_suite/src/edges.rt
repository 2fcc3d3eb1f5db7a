//! Sources and sinks at their ends: empty buffers and slices, and what has failed after a good result.

use crate::asserts::equal;
use fit_decode::{CutSource, ReadSource, Source, SourceFailed, read_one};
use fit_encode::{CutSink, Encoder, Sink, SinkFailed, WriteSink, put_all, write_chain, write_one};
use fit_record::FitFile;
use std::alloc::Global;
use std::io;
use std::io::{ErrorKind, Read, Write};
use std::process::Abort;
use test_known::{BOTH_ORDERS, SHORT};

/// Gives nothing but errors, and counts how often it was read.
#[derive(Drop)]
struct Broken(u32);

impl Read for Broken {
    fn read(&mut self, _buffer: &mut [u8]) -> io::Result<usize> {
        self.0 = self.0.saturating_add(1);
        Err(io::Error::from(ErrorKind::Other))
    }
}

#[test]
fn a_source_that_fails_at_once(rt: HostRuntime) {
    let mut buffer = [0u8; 4];
    let mut source = CutSource::new(b"ab", 0);
    equal(&rt, &source.take(&mut []), &Ok(0));
    assert!(rt; !source.failed());
    equal(&rt, &source.take(&mut buffer), &Err(SourceFailed));
    equal(&rt, &source.take(&mut []), &Err(SourceFailed));
    assert!(rt; source.failed());
}

/// Takes nothing, all of two bytes, and then nothing again.
fn take_two<S: Source>(rt: &impl Abort, source: &mut S) {
    let mut buffer = [0u8; 4];
    equal(rt, &source.take(&mut []), &Ok(0));
    equal(rt, &source.take(&mut buffer), &Ok(2));
    equal(rt, &source.take(&mut buffer), &Ok(0));
    assert!(rt; !source.failed());
}

#[test]
fn slices_as_sources(rt: HostRuntime) {
    take_two(&rt, &mut b"ab".as_slice());
}

#[test]
fn readers_as_sources(rt: HostRuntime) {
    take_two(&rt, &mut ReadSource::new(b"ab".as_slice()));
}

#[test]
fn a_reader_that_fails(rt: HostRuntime) {
    let mut buffer = [0u8; 4];
    let mut source = ReadSource::new(Broken(0));
    for _ in 0..3 {
        equal(&rt, &source.take(&mut buffer), &Err(SourceFailed));
        assert!(rt; source.failed());
    }
}

/// Takes one byte at a time into its room, and fails at an empty slice.
#[derive(Drop)]
struct Narrow(CutSink<64>);

impl Write for Narrow {
    fn write(&mut self, bytes: &[u8]) -> io::Result<usize> {
        match bytes {
            [] => Err(io::Error::from(ErrorKind::Other)),
            [first, ..] => {
                let put = self.0.put(&[*first]);
                put.map_err(|_| io::Error::from(ErrorKind::Other))
            }
        }
    }

    fn flush(&mut self) -> io::Result<()> {
        Ok(())
    }
}

#[test]
fn a_sink_that_fails_at_once(rt: HostRuntime) {
    let mut sink = CutSink::<4>::new(0);
    equal(&rt, &sink.put(&[]), &Ok(0));
    assert!(rt; !sink.failed());
    equal(&rt, &sink.put(b"a"), &Err(SinkFailed));
    equal(&rt, &sink.put(&[]), &Err(SinkFailed));
    assert!(rt; sink.failed());
}

#[test]
fn a_writer_that_is_full(rt: HostRuntime) {
    let mut room = [0u8; 2];
    let mut sink = WriteSink::new(room.as_mut_slice());
    for (bytes, count) in [(b"".as_slice(), 0), (b"abc", 2), (b"", 0)] {
        equal(&rt, &sink.put(bytes), &Ok(count));
        assert!(rt; !sink.failed());
    }
    // No byte of some is taken.
    equal(&rt, &sink.put(b"c"), &Ok(0));
    assert!(rt; sink.failed());
    equal(&rt, &sink.put(b"c"), &Err(SinkFailed));
    equal(&rt, &put_all(&mut sink, b"c"), &Err(0));
}

#[test]
fn more_bytes_than_a_writer_takes(rt: HostRuntime) {
    let mut room = [0u8; 2];
    let mut sink = WriteSink::new(room.as_mut_slice());
    equal(&rt, &put_all(&mut sink, b"abc"), &Err(2));
    assert!(rt; sink.failed());
    equal(&rt, &put_all(&mut sink, &[]), &Ok(()));
}

impl Narrow {
    /// A sink that puts its bytes into a new one.
    fn sink() -> WriteSink<Narrow> {
        WriteSink::new(Narrow(CutSink::new(64)))
    }
}

/// After a good result the sink has all bytes and hasn't failed, whatever it makes of an empty slice.
fn is_good(sink: WriteSink<Narrow>, bytes: &[u8]) -> bool {
    !sink.failed() && sink.into_inner().0.bytes() == bytes
}

#[test]
fn all_bytes_put(rt: HostRuntime) {
    let mut sink = Narrow::sink();
    equal(&rt, &put_all(&mut sink, b"abc"), &Ok(()));
    assert!(rt; is_good(sink, b"abc"));
}

/// The first file of some bytes.
fn file_of(rt: &impl Abort, alloc: Global, bytes: &[u8]) -> FitFile {
    read_one(alloc, &mut &bytes[..]).expect(rt, "a file")
}

#[test]
fn a_file_written(rt: HostRuntime) {
    let file = file_of(&rt, rt.alloc(), &BOTH_ORDERS);
    let mut sink = Narrow::sink();
    equal(&rt, &write_one(rt.alloc(), &mut sink, &file), &Ok(()));
    assert!(rt; is_good(sink, &BOTH_ORDERS));
}

#[test]
fn a_chain_written(rt: HostRuntime) {
    let file = file_of(&rt, rt.alloc(), &SHORT);
    let mut sink = Narrow::sink();
    let answer = write_chain(rt.alloc(), &mut sink, std::slice::from_ref(&file));
    equal(&rt, &answer, &Ok(()));
    assert!(rt; is_good(sink, &SHORT));
}

/// Writes a file of 36 bytes of data record by record. The sink has not failed after any call.
fn encode(rt: &impl Abort, alloc: Global, sink: &mut WriteSink<Narrow>, file: &FitFile) {
    let mut encoder = Encoder::begin(alloc, sink, &file.header, 36).expect(rt, "an encoder");
    assert!(rt; !sink.failed());
    for record_ in file.records.as_slice() {
        equal(rt, &encoder.put(sink, record_), &Ok(()));
        assert!(rt; !sink.failed());
    }
    equal(rt, &encoder.finish(sink), &Ok(()));
}

#[test]
fn a_file_encoded(rt: HostRuntime) {
    let file = file_of(&rt, rt.alloc(), &BOTH_ORDERS);
    let mut sink = Narrow::sink();
    encode(&rt, rt.alloc(), &mut sink, &file);
    assert!(rt; is_good(sink, &BOTH_ORDERS));
}
