//! Recordings as devices write them: a file of a kind and of about a size, as its bytes.
use crate::layout::{
    ACTIVITY, ACTIVITY_FIELDS, DESCRIPTION, DESCRIPTION_FIELDS, DEVELOPER, DEVELOPER_FIELDS,
    DEVICE, DEVICE_FIELDS, EVENT, EVENT_FIELDS, Entry, FILE_FIELDS, FILE_ID, LAP, LAP_FIELDS,
    SESSION, SESSION_FIELDS,
};
use crate::random::Random;
use crate::ride::{Ride, four, two};
use fit_base::Order;
use fit_sum::Sum;
use std::alloc::{AllocError, Global};

/// What a recording is like.
#[derive(Clone, Copy)]
pub(crate) enum Kind {
    /// A message of ten fields each second.
    Plain,
    /// A message of fifteen fields and four developer fields each second.
    Developer,
    /// The messages of `Developer`, with the highest byte of each number first.
    Big,
    /// Compressed timestamp headers, and speed and distance in one field.
    Compressed,
    /// Three messages by turns, of three local message types.
    Turns,
    /// Each fourth message is a text.
    Strings,
    /// A definition before each message.
    Redefined,
    /// Definitions alone.
    Definitions,
    /// Fields of many items.
    Items,
    /// Long texts.
    Texts,
    /// Developer fields whose descriptions change.
    Described,
    /// A message of 25 fields and two developer fields each second, in an order that changes, and one of heart beats after it.
    Interleaved,
    /// A message of five fields each second, and one of heart beats after it.
    Small,
}

/// Local message types.
pub(crate) const AT_FILE: u8 = 0;

pub(crate) const AT_OTHER: u8 = 1;

pub(crate) const AT_RECORD: u8 = 2;

pub(crate) const AT_PLAIN: u8 = 3;

pub(crate) const AT_EVENT: u8 = 4;

pub(crate) const AT_LAP: u8 = 5;

pub(crate) const AT_MORE: u8 = 6;

/// What fills up a text.
static ZEROS: [u8; 128] = [0; 128];

/// The data section of a file while it is made.
#[derive(Drop)]
pub(crate) struct Tape {
    pub(crate) bytes: Vec<u8>,
    pub(crate) order: Order,
}

impl Tape {
    /// Puts bytes at the end.
    pub(crate) fn put(&mut self, bytes: &[u8]) -> Result<(), AllocError> {
        self.bytes.extend_from_slice(bytes)
    }

    /// Puts the head of a definition message, and its fields in two parts.
    pub(crate) fn define(
        &mut self,
        header: u8,
        global: u16,
        first: &[Entry],
        fields: &[Entry],
    ) -> Result<(), AllocError> {
        let [g0, g1] = two(self.order, global);
        let architecture = match self.order {
            Order::Little => 0,
            Order::Big => 1,
        };
        let count = first.len().saturating_add(fields.len());
        self.put(&[0x40 | header, 0, architecture, g0, g1, count_byte(count)])?;
        self.put_entries(first)?;
        self.put_entries(fields)
    }

    /// Puts the developer fields of a definition message.
    pub(crate) fn define_own(&mut self, fields: &[Entry]) -> Result<(), AllocError> {
        self.put(&[count_byte(fields.len())])?;
        self.put_entries(fields)
    }

    fn put_entries(&mut self, entries: &[Entry]) -> Result<(), AllocError> {
        for entry in entries {
            self.put(entry)?;
        }
        Ok(())
    }

    /// Puts a text, and zeros up to a width of at most 128.
    pub(crate) fn put_text(&mut self, text: &[u8], width: usize) -> Result<(), AllocError> {
        let (front, _) = text.split_at(width.min(text.len()));
        let (zeros, _) = ZEROS.split_at(width.saturating_sub(front.len()).min(ZEROS.len()));
        self.put(front)?;
        self.put(zeros)
    }
}

/// A number of fields, which is below 256.
fn count_byte(count: usize) -> u8 {
    u8::try_from(count).unwrap_or(0)
}

/// Makes recordings, each another one.
#[derive(Drop)]
pub(crate) struct Maker {
    pub(crate) random: Random,
    pub(crate) tape: Tape,
}

impl Maker {
    /// The recordings of a seed.
    pub(crate) fn new(alloc: Global, seed: u64) -> Maker {
        Maker {
            random: Random::new(seed),
            tape: Tape {
                bytes: Vec::new(alloc),
                order: Order::Little,
            },
        }
    }

    /// Puts a file of this kind and about this size at the end of `chain`.
    pub(crate) fn add_file(
        &mut self,
        chain: &mut Vec<u8>,
        kind: Kind,
        size: u64,
    ) -> Result<(), AllocError> {
        self.tape.bytes.clear();
        self.tape.order = match kind {
            Kind::Big => Order::Big,
            _ => Order::Little,
        };
        let mut ride = Ride::new(&mut self.random);
        self.put_first(&ride)?;
        self.put_body(&mut ride, kind, size)?;
        self.put_last(&ride)?;
        close_file(chain, self.tape.bytes.as_slice())
    }

    /// What a file begins with: what it is, which device wrote it, and that the timer starts.
    fn put_first(&mut self, ride: &Ride) -> Result<(), AllocError> {
        let order = self.tape.order;
        let tape = &mut self.tape;
        let [t0, t1, t2, t3] = four(order, ride.begin);
        let [m0, m1] = two(order, 1);
        let [p0, p1] = two(order, 2697);
        let [s0, s1, s2, s3] = four(order, 3_900_000_001);
        tape.define(AT_FILE, FILE_ID, &[], &FILE_FIELDS)?;
        tape.put(&[AT_FILE, 4, m0, m1, p0, p1, s0, s1, s2, s3, t0, t1, t2, t3])?;
        tape.define(AT_OTHER, DEVICE, &[], &DEVICE_FIELDS)?;
        tape.put(&[AT_OTHER, t0, t1, t2, t3, 0, m0, m1, s0, s1, s2, s3, p0, p1])?;
        tape.put_text(b"Edge of 26", 12)?;
        tape.define(AT_EVENT, EVENT, &[], &EVENT_FIELDS)?;
        self.put_event(ride, 0)
    }

    /// What a file ends with.
    fn put_last(&mut self, ride: &Ride) -> Result<(), AllocError> {
        let order = self.tape.order;
        self.put_event(ride, 4)?;
        let tape = &mut self.tape;
        tape.define(AT_OTHER, SESSION, &[], &SESSION_FIELDS)?;
        tape.put(&ride.stamped(AT_OTHER, order))?;
        tape.put(&ride.session(order))?;
        tape.define(AT_OTHER, ACTIVITY, &[], &ACTIVITY_FIELDS)?;
        tape.put(&ride.stamped(AT_OTHER, order))?;
        let took = ride.now.wrapping_sub(ride.begin).wrapping_mul(1000);
        let [t0, t1, t2, t3] = four(order, took);
        let [n0, n1] = two(order, 1);
        tape.put(&[t0, t1, t2, t3, n0, n1, 0, 26])
    }

    /// A timer event.
    pub(crate) fn put_event(&mut self, ride: &Ride, kind: u8) -> Result<(), AllocError> {
        let order = self.tape.order;
        self.tape.put(&ride.stamped(AT_EVENT, order))?;
        self.tape.put(&[0, kind, 0, 0, 0, 0])
    }

    /// A lap each ten minutes, and an event now and then.
    pub(crate) fn put_between(&mut self, ride: &mut Ride, count: u64) -> Result<(), AllocError> {
        let order = self.tape.order;
        if count % 600 == 599 {
            self.tape.define(AT_LAP, LAP, &[], &LAP_FIELDS)?;
            self.tape.put(&ride.stamped(AT_LAP, order))?;
            self.tape.put(&ride.lap(order))?;
        }
        if count % 1000 == 999 {
            self.put_event(ride, 4)?;
        }
        Ok(())
    }

    /// Who describes developer fields.
    pub(crate) fn put_developer(&mut self) -> Result<(), AllocError> {
        let [v0, v1, v2, v3] = four(self.tape.order, 26);
        self.tape
            .define(AT_OTHER, DEVELOPER, &[], &DEVELOPER_FIELDS)?;
        self.tape.put(&[AT_OTHER])?;
        self.tape.put(b"sensor of a foot")?;
        self.tape.put(&[0, v0, v1, v2, v3])?;
        self.tape
            .define(AT_OTHER, DESCRIPTION, &[], &DESCRIPTION_FIELDS)
    }

    /// The description of a developer field.
    pub(crate) fn put_description(
        &mut self,
        number: u8,
        code: u8,
        name: &[u8],
        unit: &[u8],
    ) -> Result<(), AllocError> {
        self.tape.put(&[AT_OTHER, 0, number, code])?;
        self.tape.put_text(name, 24)?;
        self.tape.put_text(unit, 8)
    }
}

/// Puts a file with this data section at the end of a chain.
fn close_file(chain: &mut Vec<u8>, data: &[u8]) -> Result<(), AllocError> {
    let size = u32::try_from(data.len()).unwrap_or(0);
    let [n0, n1, n2, n3] = size.to_le_bytes();
    let head = [14, 0x20, 0x54, 0x08, n0, n1, n2, n3, b'.', b'F', b'I', b'T'];
    let mut head_sum = Sum::new();
    head_sum.add_all(&head);
    let closing = head_sum.value().to_le_bytes();
    let mut sum = Sum::new();
    sum.add_all(&head);
    sum.add_all(&closing);
    sum.add_all(data);
    chain.extend_from_slice(&head)?;
    chain.extend_from_slice(&closing)?;
    chain.extend_from_slice(data)?;
    chain.extend_from_slice(&sum.value().to_le_bytes())
}
