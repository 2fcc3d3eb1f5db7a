//! Bytes on their way to a sink.
ghost use Rattle.std.specs.Prelude.{◌≡◌, ◌⊎◌, ◌+◌, ◌≤◌, ◌<◌, ◌^◌, [], ◌++◌, OnOk, length};
ghost use Rattle.fit_base.specs.Numbers.{number_bytes, little_bytes};
ghost use Rattle.fit_sum.specs.Checksum.{checksum};
ghost use Rattle.fit_encode.specs.inner.Sending.{fresh, sink_state, Sends};
ghost use Rattle.fit_encode.specs.inner.Spelling.{bytes_in_order, IsSpellable};

use crate::place::{place_bytes, place_number, place_record};
use crate::{Sink, put_all};
use fit_base::Order;
use fit_frame::sum_bytes;
use fit_record::Record;
use fit_sum::Sum;
use std::alloc::Allocator;
use std::marker::Model;

/// How many bytes are held back at most.
pub(crate) const ROOM: usize = 4096;

/// The most bytes of a record that is spelled in one piece: it takes eight bytes of room more.
pub(crate) const SHORT: usize = 4088;

/// Bytes of a file on their way to a sink. They are held back until there are enough of them, so
/// that they go out in long runs, or until they are sent. The checksum goes over long runs in any case.
#[derive(Drop)]
pub(crate) struct Spelling {
    run: [u8; ROOM],
    /// How many bytes of the run there are.
    used: usize,
    /// How many of these went out.
    gone: usize,
    /// The checksum of the bytes before the run.
    sum: Sum,
    count: u64,
}

impl Model for Spelling {
    ghost use Rattle.std.specs.Prelude.{◌-◌, ◌≤◌, ◌++◌, take, drop};
    ghost use Rattle.fit_encode.specs.inner.Sending.{Sending};

    ghost Value = { Sending };

    ghost view = { λ s. record { sent = s.sum ++ take s.gone s.run; held = drop s.gone (take s.used s.run); count = s.count; room = 4096 - s.used } };

    ghost invariant = { λ s. (s.gone ≤ s.used) × (s.used ≤ 4096) };
}

impl Spelling {
    /// Nothing is spelled of this file. `count` bytes went out before it.
    pub(crate) fn new(count: u64) -> Spelling
        ensures { result ≡ fresh count }
    {
        Spelling {
            run: [0; ROOM],
            used: 0,
            gone: 0,
            sum: Sum::new(),
            count,
        }
    }

    /// Begins another file, whatever came before. `count` bytes went out before it.
    pub(crate) fn begin(&mut self, count: u64)
        ensures { self.new ≡ fresh count }
    {
        self.used = 0;
        self.gone = 0;
        self.sum.clear();
        self.count = count;
    }

    /// Sends what is held back.
    pub(crate) fn send<K: Sink>(&mut self, sink: &mut K) -> Result<(), u64>
        ensures sends { Sends
            (sink_state K.contents K.has_failed sink.old)
            (sink_state K.contents K.has_failed sink.new)
            self.old self.new [] result }
        ensures empty { OnOk result (self.new.held ≡ []) }
    {
        let held = &self.run[self.gone..self.used];
        if let Err(written) = put_all(sink, held) {
            return Err(self.count.saturating_add(written));
        }
        self.count = self.count.saturating_add(held.len() as u64);
        self.gone = self.used;
        Ok(())
    }

    /// Takes the run, which went out, into the checksum.
    fn sum_run(&mut self)
        requires { self.old.held ≡ [] }
        ensures { self.new ≡ record self.old { room = 4096 } }
    {
        self.sum.add_all(&self.run[..self.used]);
        self.used = 0;
        self.gone = 0;
    }

    /// Sends what is held back, and takes the run into the checksum.
    fn flush<K: Sink>(&mut self, sink: &mut K) -> Result<(), u64>
        ensures sends { Sends
            (sink_state K.contents K.has_failed sink.old)
            (sink_state K.contents K.has_failed sink.new)
            self.old self.new [] result }
        ensures empty { OnOk result (self.new.held ≡ []) }
        ensures room { OnOk result (self.new.room ≡ 4096) }
    {
        self.send(sink)?;
        self.sum_run();
        Ok(())
    }

    /// Makes room for `more` bytes.
    fn make_room<K: Sink>(&mut self, sink: &mut K, more: usize) -> Result<(), u64>
        requires { more ≤ 4096 }
        ensures sends { Sends
            (sink_state K.contents K.has_failed sink.old)
            (sink_state K.contents K.has_failed sink.new)
            self.old self.new [] result }
        ensures room { OnOk result (more ≤ self.new.room) }
    {
        if ROOM - self.used < more {
            return self.flush(sink);
        }
        Ok(())
    }

    /// Spells some bytes.
    pub(crate) fn bytes<K: Sink>(&mut self, sink: &mut K, bytes: &[u8]) -> Result<(), u64>
        requires { length bytes.now ≤ 4096 }
        ensures { Sends
            (sink_state K.contents K.has_failed sink.old)
            (sink_state K.contents K.has_failed sink.new)
            self.old self.new bytes.now result }
    {
        self.make_room(sink, bytes.len())?;
        self.used = place_bytes(&mut self.run, self.used, bytes);
        Ok(())
    }

    /// Spells a number of this many bytes.
    pub(crate) fn number<K: Sink>(
        &mut self,
        sink: &mut K,
        order: Order,
        width: u8,
        bits: u64,
    ) -> Result<(), u64>
        requires width { (width ≡ 1) ⊎ (width ≡ 2) ⊎ (width ≡ 4) ⊎ (width ≡ 8) }
        requires bits { bits < 256 ^ width }
        ensures { Sends
            (sink_state K.contents K.has_failed sink.old)
            (sink_state K.contents K.has_failed sink.new)
            self.old self.new (number_bytes order width bits) result }
    {
        self.make_room(sink, 8)?;
        self.used = place_number(&mut self.run, self.used, order, width, bits);
        Ok(())
    }

    /// Spells a record of this many bytes in one piece.
    pub(crate) fn record<K: Sink, A: Allocator>(
        &mut self,
        sink: &mut K,
        order: Order,
        size: usize,
        r: &Record<A>,
    ) -> Result<(), u64>
        requires spellable { IsSpellable r.now }
        requires size { size ≡ length (bytes_in_order order r.now) }
        requires short { size ≤ 4088 }
        ensures { Sends
            (sink_state K.contents K.has_failed sink.old)
            (sink_state K.contents K.has_failed sink.new)
            self.old self.new (bytes_in_order order r.now) result }
    {
        self.make_room(sink, size + 8)?;
        self.used = place_record(&mut self.run, self.used, order, r);
        Ok(())
    }

    /// Sends what is held back, and then the checksum of all bytes of the file (FIT protocol, "CRC").
    pub(crate) fn end<K: Sink>(&mut self, sink: &mut K) -> Result<(), u64>
        ensures sends { Sends
            (sink_state K.contents K.has_failed sink.old)
            (sink_state K.contents K.has_failed sink.new)
            self.old self.new (little_bytes 2 (checksum (self.old.sent ++ self.old.held))) result }
        ensures empty { OnOk result (self.new.held ≡ []) }
    {
        self.flush(sink)?;
        let sum = sum_bytes(self.checksum());
        self.bytes(sink, &sum)?;
        self.flush(sink)
    }

    /// How many bytes went out, with those of earlier files.
    pub(crate) fn count(&self) -> u64
        ensures { result ≡ self.now.count }
    {
        self.count
    }

    /// The checksum of the bytes that went out, of which none is in the run.
    fn checksum(&self) -> u16
        requires { self.now.room ≡ 4096 }
        ensures { result ≡ checksum self.now.sent }
    {
        self.sum.value()
    }
}
