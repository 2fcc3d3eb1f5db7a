//! The messages of recordings in which those of a second and those of heart beats come by turns.
use crate::layout::{
    BEAT_FIELDS, Entry, HEART_BEATS, RECORD, SMALL_FIELDS, STAMP, STRAIN_FIELDS, WIDE_FIELDS,
};
use crate::recording::{AT_PLAIN, AT_RECORD, Maker};
use crate::ride::Ride;
use std::alloc::AllocError;

/// How many seconds the fields keep their order: with the heart beats, 2,000 messages.
const SECONDS: u64 = 1000;

/// The fields of `WIDE_FIELDS` in their order at a second, in two parts: those from some field on, and those before it.
fn parts(ride: &Ride, count: u64) -> (&'static [Entry], &'static [Entry]) {
    let turns = u64::from(ride.begin).wrapping_add(count / SECONDS);
    let (before, after) = WIDE_FIELDS.split_at((turns % 24) as usize);
    (after, before)
}

impl Maker {
    /// The descriptions and definitions of wide messages.
    pub(crate) fn begin_wide(&mut self) -> Result<(), AllocError> {
        self.put_developer()?;
        self.put_description(1, 0x88, b"Strain", b"N/m")?;
        self.put_description(3, 0x88, b"Leg Spring", b"kN/m")?;
        self.tape.define(AT_PLAIN, HEART_BEATS, &[], &BEAT_FIELDS)
    }

    /// The definitions of small messages.
    pub(crate) fn begin_small(&mut self) -> Result<(), AllocError> {
        self.tape.define(AT_RECORD, RECORD, &STAMP, &SMALL_FIELDS)?;
        self.tape.define(AT_PLAIN, HEART_BEATS, &[], &BEAT_FIELDS)
    }

    /// A wide message, with its definition where its fields come in another order, and the heart beats.
    pub(crate) fn put_wide_message(&mut self, ride: &Ride, count: u64) -> Result<(), AllocError> {
        let (first, last) = parts(ride, count);
        if count % SECONDS == 0 {
            self.define_wide(last.len())?;
        }
        let order = self.tape.order;
        self.tape.put(&ride.stamped(AT_RECORD, order))?;
        self.put_numbers(ride, first)?;
        self.put_numbers(ride, last)?;
        self.tape.put(&ride.strains())?;
        self.put_beats()
    }

    /// The definition of a wide message whose last fields are that many of the first of `WIDE_FIELDS`.
    fn define_wide(&mut self, last: usize) -> Result<(), AllocError> {
        let mut fields = WIDE_FIELDS;
        fields.rotate_left(last.min(24));
        self.tape.define(0x20 | AT_RECORD, RECORD, &STAMP, &fields)?;
        self.tape.define_own(&STRAIN_FIELDS)
    }

    /// A small message, and the heart beats.
    pub(crate) fn put_small_message(&mut self, ride: &Ride) -> Result<(), AllocError> {
        let order = self.tape.order;
        self.tape.put(&ride.stamped(AT_RECORD, order))?;
        self.put_numbers(ride, &SMALL_FIELDS)?;
        self.put_beats()
    }

    /// What these fields hold.
    fn put_numbers(&mut self, ride: &Ride, fields: &[Entry]) -> Result<(), AllocError> {
        for [field, size, _] in fields {
            let spelled = ride.number_of(*field).to_le_bytes();
            let (bytes, _) = spelled.split_at(usize::from(*size).min(spelled.len()));
            self.tape.put(bytes)?;
        }
        Ok(())
    }

    /// Two to five times between heart beats, and none for the rest of five.
    fn put_beats(&mut self) -> Result<(), AllocError> {
        let [length, t0, t1, t2, t3, t4, ..] = self.random.draw().to_le_bytes();
        self.tape.put(&[AT_PLAIN])?;
        for (place, time) in [t0, t1, t2, t3, t4].iter().enumerate() {
            if place < 2 + usize::from(length & 3) {
                self.tape.put(&[*time, 2])?;
            } else {
                self.tape.put(&[0xFF, 0xFF])?;
            }
        }
        Ok(())
    }
}
