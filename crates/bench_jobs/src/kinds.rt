//! The messages between the first and the last of a recording, for each kind.
use crate::layout::{
    ACCELERATION, AXIS_FIELDS, BEAT_FIELDS, BODY_FIELDS, COURSE_FIELDS, COURSE_POINT, HEART_BEATS,
    LAP, LAP_FIELDS, PEDAL_FIELDS, PLACE_FIELDS, POINT_FIELDS, RECORD, SENSOR_FIELDS, SHORT_FIELDS,
    STAMP, UNLISTED, UNLISTED_FIELDS, WATCH_FIELDS, WORKOUT, WORKOUT_FIELDS,
};
use crate::recording::{AT_LAP, AT_MORE, AT_OTHER, AT_PLAIN, AT_RECORD, Kind, Maker};
use crate::ride::Ride;
use std::alloc::AllocError;

/// The least length of a message, about.
const LEAST: u64 = 8;

/// What is left for the last messages of a file.
const END: u64 = 120;

/// Names of places and of rides. Some need quotes in a row.
static NAMES: [&str; 8] = [
    "Lake loop",
    "Kaltern am See",
    "Up, and down",
    "The \"wall\"",
    "C\u{f4}te d'Azur",
    "Col du Galibier",
    "Left at the mill",
    "Feed zone",
];

/// What long texts are made of.
static PASSAGE: &str = "Warm up for ten minutes at an easy pace, then five times four minutes \
    hard with three minutes easy between them; keep the cadence above ninety, and \"no heroics\" on \
    the first two. Cool down for a quarter of an hour, drink, and note how the legs felt: fresh, \
    heavy or sore. If the heart rate stays low, stop early and rest for a day or two.";

impl Maker {
    /// The messages of a kind, up to about a size.
    pub(crate) fn put_body(
        &mut self,
        ride: &mut Ride,
        kind: Kind,
        size: u64,
    ) -> Result<(), AllocError> {
        self.begin_kind(kind)?;
        let most = size.saturating_sub(END);
        for count in 0..size / LEAST {
            if self.tape.bytes.len() as u64 >= most {
                break;
            }
            ride.go_on(&mut self.random);
            self.put_second(ride, kind, count)?;
        }
        Ok(())
    }

    /// The definitions of a kind.
    fn begin_kind(&mut self, kind: Kind) -> Result<(), AllocError> {
        match kind {
            Kind::Developer | Kind::Big => self.begin_sensor(),
            Kind::Compressed => {
                self.tape.define(AT_PLAIN, RECORD, &STAMP, &SHORT_FIELDS)?;
                self.tape.define(AT_RECORD, RECORD, &[], &SHORT_FIELDS)
            }
            Kind::Turns => {
                self.tape.define(AT_RECORD, RECORD, &STAMP, &PLACE_FIELDS)?;
                self.tape.define(AT_PLAIN, RECORD, &STAMP, &BODY_FIELDS)?;
                self.tape.define(AT_MORE, RECORD, &STAMP, &PEDAL_FIELDS)
            }
            Kind::Strings => {
                self.tape.define(AT_RECORD, RECORD, &STAMP, &POINT_FIELDS)?;
                self.tape.define(AT_MORE, COURSE_POINT, &[], &COURSE_FIELDS)
            }
            Kind::Items => {
                self.tape
                    .define(AT_RECORD, ACCELERATION, &[], &AXIS_FIELDS)?;
                self.tape.define(AT_PLAIN, HEART_BEATS, &[], &BEAT_FIELDS)?;
                self.tape.define(AT_MORE, UNLISTED, &[], &UNLISTED_FIELDS)
            }
            Kind::Texts => self.tape.define(AT_MORE, WORKOUT, &[], &WORKOUT_FIELDS),
            Kind::Described => self.put_developer(),
            Kind::Interleaved => self.begin_wide(),
            Kind::Small => self.begin_small(),
            Kind::Plain | Kind::Redefined | Kind::Definitions => {
                self.tape.define(AT_RECORD, RECORD, &STAMP, &POINT_FIELDS)
            }
        }
    }

    /// The descriptions of the fields of a power sensor, and the definition that has them.
    fn begin_sensor(&mut self) -> Result<(), AllocError> {
        self.put_developer()?;
        self.put_description(0, 0x84, b"Power", b"Watts")?;
        self.put_description(1, 0x84, b"Form Power", b"Watts")?;
        self.put_description(2, 0x88, b"Leg Spring Stiffness", b"kN/m")?;
        self.put_description(3, 0x02, b"Balance, left", b"%")?;
        self.tape
            .define(0x20 | AT_RECORD, RECORD, &STAMP, &WATCH_FIELDS)?;
        self.tape.define_own(&SENSOR_FIELDS)
    }

    /// The messages of a second.
    fn put_second(&mut self, ride: &mut Ride, kind: Kind, count: u64) -> Result<(), AllocError> {
        match kind {
            Kind::Plain => self.put_point(ride)?,
            Kind::Developer | Kind::Big => self.put_sensed(ride)?,
            Kind::Compressed => self.put_short(ride, count)?,
            Kind::Turns => self.put_turn(ride, count)?,
            Kind::Strings => self.put_named(ride, count)?,
            Kind::Redefined => {
                self.tape.define(AT_RECORD, RECORD, &STAMP, &POINT_FIELDS)?;
                self.put_point(ride)?;
            }
            Kind::Definitions => return self.put_definition(count),
            Kind::Items => self.put_items(ride, count)?,
            Kind::Texts => return self.put_long_text(),
            Kind::Described => self.put_described(ride, count)?,
            Kind::Interleaved => self.put_wide_message(ride, count)?,
            Kind::Small => self.put_small_message(ride)?,
        }
        self.put_between(ride, count)
    }

    fn put_point(&mut self, ride: &Ride) -> Result<(), AllocError> {
        let order = self.tape.order;
        self.tape.put(&ride.stamped(AT_RECORD, order))?;
        self.tape.put(&ride.point(order))
    }

    fn put_sensed(&mut self, ride: &Ride) -> Result<(), AllocError> {
        self.put_point(ride)?;
        let order = self.tape.order;
        self.tape.put(&ride.watched(order))?;
        self.tape.put(&ride.sensed(order))
    }

    /// Each sixteenth message has a timestamp, the others a header with the last five bits of the time.
    fn put_short(&mut self, ride: &Ride, count: u64) -> Result<(), AllocError> {
        if count % 16 == 0 {
            let order = self.tape.order;
            self.tape.put(&ride.stamped(AT_PLAIN, order))?;
        } else {
            let offset = (ride.now & 31) as u8;
            self.tape.put(&[0x80 | AT_RECORD << 5 | offset])?;
        }
        self.tape.put(&ride.short())
    }

    fn put_turn(&mut self, ride: &Ride, count: u64) -> Result<(), AllocError> {
        let order = self.tape.order;
        self.tape.put(&ride.stamped(AT_RECORD, order))?;
        self.tape.put(&ride.place())?;
        self.tape.put(&ride.stamped(AT_PLAIN, order))?;
        self.tape.put(&ride.body())?;
        if count % 4 != 3 {
            self.tape.put(&ride.stamped(AT_MORE, order))?;
            self.tape.put(&ride.pedals())?;
        }
        Ok(())
    }

    fn put_named(&mut self, ride: &Ride, count: u64) -> Result<(), AllocError> {
        if count % 4 != 3 {
            return self.put_point(ride);
        }
        self.tape.put(&[AT_MORE])?;
        self.tape.put(&ride.course_point())?;
        let name = self.random.one_of(&NAMES);
        self.tape.put_text(name.as_bytes(), 18)
    }

    /// Two definitions by turns, at all local message types but those of the last messages.
    fn put_definition(&mut self, count: u64) -> Result<(), AllocError> {
        let local = AT_LAP | (self.random.draw() & 10) as u8;
        if count % 2 == 0 {
            self.tape.define(local, LAP, &[], &LAP_FIELDS)
        } else {
            self.tape.define(local, RECORD, &STAMP, &POINT_FIELDS)
        }
    }

    /// Four numbers of twelve bits, by eight bytes.
    fn put_small(&mut self, count: u64) -> Result<(), AllocError> {
        for _ in 0..count {
            let noise = self.random.draw() & 0x0FFF_0FFF_0FFF_0FFF;
            self.tape.put(&noise.to_le_bytes())?;
        }
        Ok(())
    }

    fn put_items(&mut self, ride: &Ride, count: u64) -> Result<(), AllocError> {
        if count % 3 == 0 {
            let [t0, t1, ..] = self.random.draw().to_le_bytes();
            let order = self.tape.order;
            self.tape.put(&ride.stamped(AT_RECORD, order))?;
            self.tape.put(&[t0, t1 & 3])?;
            return self.put_small(12);
        }
        if count % 3 == 1 {
            let [b0, b1, b2, b3, b4, ..] = self.random.draw().to_le_bytes();
            return self
                .tape
                .put(&[AT_PLAIN, b0, 3, b1, 3, b2, 3, b3, 3, b4, 3]);
        }
        self.tape.put(&[AT_MORE])?;
        self.put_small(21)
    }

    fn put_long_text(&mut self) -> Result<(), AllocError> {
        let begin = self.random.among(0, 210) as usize;
        let length = self.random.among(40, 80) as usize;
        let text = PASSAGE.as_bytes().get(begin..begin.saturating_add(length));
        self.tape.put(&[AT_MORE, 2])?;
        self.tape.put_text(text.unwrap_or(b"easy"), 128)
    }

    /// Each 32 messages the developer field gets another description, and the message another definition.
    fn put_described(&mut self, ride: &Ride, count: u64) -> Result<(), AllocError> {
        let turn = count / 32;
        let (code, size) = if turn % 2 == 0 { (0x84, 2) } else { (0x88, 4) };
        if count % 32 == 0 {
            let name = self.random.one_of(&NAMES);
            self.put_description(0, code, name.as_bytes(), b"m")?;
            self.tape
                .define(0x20 | AT_RECORD, RECORD, &STAMP, &POINT_FIELDS)?;
            self.tape.define_own(&[[0, size, 0]])?;
        }
        self.put_point(ride)?;
        if turn % 2 == 0 {
            self.tape.put(&[7, 1])
        } else {
            self.tape.put(&[0, 0, 0x20, 0x41])
        }
    }
}
