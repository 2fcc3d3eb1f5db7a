//! A text that is put after many others.
ghost use Rattle.std.specs.Prelude.{◌≡◌, ◌≤◌, ◌+◌, ◌++◌, ℕ, List, IfOk, IfSome, IsSomeAnd, OnOk, length, take};
ghost use Rattle.fit_texts.specs.Sheets.{and_sheet};

use crate::cut::after_beginning;
use crate::sheet::{SHEET_SIZE, Sheet, make_room, put_sheet};
use std::alloc::AllocError;
use std::marker::Model;

/// How many bytes a short text has at most.
pub const SHORT: usize = 32;

/// How many bytes a text has at most that is written in a sheet, and how many are set aside for such a text.
pub const WIDE: usize = 64;

/// Writes a text into bytes from a place on. Returns the place after it.
#[inline(always)]
pub fn write_text(bytes: &mut [u8], at: usize, text: &[u8]) -> usize
    requires { at + length text.now ≤ length bytes.old }
    ensures size { length bytes.new ≡ length bytes.old }
    ensures end { result ≡ at + length text.now }
    ensures text { take result bytes.new ≡ take at bytes.old ++ text.now }
{
    let end = at + text.len();
    bytes[at..end].copy_from_slice(text);
    end
}

/// Writes an array into bytes from a place on, all of which is read before any of it is written. Returns the place after it.
#[inline(always)]
fn write_array<const COUNT: usize>(bytes: &mut [u8], at: usize, array: [u8; COUNT]) -> usize
    requires { at + COUNT ≤ length bytes.old }
    ensures size { length bytes.new ≡ length bytes.old }
    ensures end { result ≡ at + COUNT }
    ensures text { take result bytes.new ≡ take at bytes.old ++ array.entry }
{
    write_text(bytes, at, array.as_slice())
}

/// Adds a text to what is written in a sheet, or puts it after a text and the sheet. Returns the place after what is written then.
#[inline(always)]
pub fn add_text(
    text: &mut Vec<u8>,
    sheet: &mut Sheet,
    at: usize,
    more: &[u8],
) -> Result<usize, AllocError>
    requires { at ≤ 1024 }
    ensures place { IfOk result (λ end. end ≤ 1024) }
    ensures text { IfOk result (λ end. and_sheet text.new.items sheet.new end
        ≡ and_sheet text.old.items sheet.old at ++ more.now) }
{
    if more.len() > SHEET_SIZE - at {
        put_sheet(text, sheet, at)?;
        text.extend_from_slice(more)?;
        return Ok(0);
    }
    Ok(write_text(sheet, at, more))
}

/// A text that is put after many others. One that isn't long takes a copy of a fixed number of bytes, of which those after it are cut
/// off or written over.
#[derive(Drop)]
pub struct Stamp {
    /// The text, and what fills it up to the longest copy.
    padded: Vec<u8>,
    /// How many bytes the text has.
    used: usize,
}

impl Model for Stamp {
    ghost use Rattle.std.specs.Prelude.{◌≤◌, ℕ, List, length, take};

    ghost Value = { List ℕ };

    ghost view = { λ s. take s.used s.padded.items };

    ghost invariant = { λ s. (s.used ≤ length s.padded.items) × (64 ≤ length s.padded.items) };
}

impl Stamp {
    /// That of this text.
    #[tactic(auto, using(crate::proofs::Stamps::padded))]
    pub fn new(text: Vec<u8>) -> Result<Stamp, AllocError>
        ensures { IfOk result (λ s. s ≡ text.items) }
    {
        let used = text.len();
        let mut padded = text;
        if used < WIDE {
            padded.extend_from_slice(&[0; WIDE][used..])?;
        }
        Ok(Stamp { padded, used })
    }

    /// How many bytes the text has.
    pub fn len(&self) -> usize
        ensures { result ≡ length self.now }
    {
        self.used
    }

    /// How many bytes of memory its text takes.
    pub fn memory(&self) -> usize {
        self.padded.capacity()
    }

    /// What comes after it in a text that begins with it.
    pub fn after<'a>(&self, text: &'a [u8]) -> Option<&'a [u8]>
        ensures some { IfSome result (λ left. text.now ≡ self.now ++ left.now) }
        ensures every { (left : List ℕ) → text.now ≡ self.now ++ left
            → IsSomeAnd result (λ found. found.now ≡ left) }
    {
        let (own, _) = self.padded.as_slice().split_at(self.used);
        after_beginning(text, own)
    }

    /// Puts a text that isn't short.
    #[inline(never)]
    fn put_long(&self, text: &mut Vec<u8>) -> Result<(), AllocError>
        ensures { OnOk result (text.new.items ≡ text.old.items ++ self.now) }
    {
        let (all, _) = self.padded.as_slice().split_at(self.used);
        text.extend_from_slice(all)
    }

    /// Puts the text after another one.
    #[inline(always)]
    #[tactic(auto, using(crate::proofs::Stamps::cut))]
    pub(crate) fn put(&self, text: &mut Vec<u8>) -> Result<(), AllocError>
        ensures { OnOk result (text.new.items ≡ text.old.items ++ self.now) }
    {
        if self.used > SHORT {
            return self.put_long(text);
        }
        let (short, _) = self.padded.as_slice().split_at(SHORT);
        let end = text.len() + self.used;
        text.extend_from_slice(short)?;
        text.truncate(end);
        Ok(())
    }

    /// Writes a text of at most this many bytes into bytes from a place on, by a copy of this many. Returns the place after the text.
    #[inline(always)]
    fn write_by<const COUNT: usize>(&self, bytes: &mut [u8], at: usize) -> usize
        requires count { COUNT ≤ 64 }
        requires short { length self.now ≤ COUNT }
        requires room { at + COUNT ≤ length bytes.old }
        ensures size { length bytes.new ≡ length bytes.old }
        ensures end { result ≡ at + length self.now }
        ensures text { take result bytes.new ≡ take at bytes.old ++ self.now }
    {
        match self.padded.as_slice().split_first_chunk::<COUNT>() {
            Some((front, _)) => write_array(bytes, at, *front) - COUNT + self.used,
            None => unreachable!(),
        }
    }

    /// Writes a short text into bytes from a place on, with what is cut off after it. Returns the place after the text.
    #[inline(always)]
    pub fn write(&self, bytes: &mut [u8], at: usize) -> usize
        requires short { length self.now ≤ 32 }
        requires room { at + 32 ≤ length bytes.old }
        ensures size { length bytes.new ≡ length bytes.old }
        ensures end { result ≡ at + length self.now }
        ensures text { take result bytes.new ≡ take at bytes.old ++ self.now }
    {
        self.write_by::<SHORT>(bytes, at)
    }

    /// Puts a text that isn't written in a sheet, after what is.
    #[cold]
    #[inline(never)]
    fn put_after(&self, text: &mut Vec<u8>, sheet: &Sheet, at: usize) -> Result<(), AllocError>
        requires { at ≤ 1024 }
        ensures { OnOk result (text.new.items ≡ and_sheet text.old.items sheet.now at ++ self.now) }
    {
        put_sheet(text, sheet, at)?;
        self.put_long(text)
    }

    /// Adds the text to what is written in a sheet, or puts it after a text and the sheet. Returns the place after what is written
    /// then. A number has room there.
    #[inline(always)]
    pub fn add(&self, text: &mut Vec<u8>, sheet: &mut Sheet, at: usize) -> Result<usize, AllocError>
        requires { at ≤ 1024 }
        ensures room { IfOk result (λ end. end + 32 ≤ 1024) }
        ensures text { IfOk result (λ end. and_sheet text.new.items sheet.new end
            ≡ and_sheet text.old.items sheet.old at ++ self.now) }
    {
        if self.used > WIDE {
            self.put_after(text, sheet, at)?;
            return Ok(0);
        }
        let at = make_room(text, sheet, at)?;
        Ok(self.write_by::<WIDE>(sheet, at))
    }
}
