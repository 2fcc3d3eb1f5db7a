//! The texts of times, by what the times of a minute have in common.
ghost use Rattle.std.specs.Prelude.{◌≡◌, ◌≤◌, ◌+◌, ◌++◌, ◌/◌, ◌<◌, [], IfOk, IsTrue, OnOk, false, length, option_map, take, unwrap_or};
ghost use Rattle.csv.specs.Writing.{default_writer, needs_quotes};
ghost use Rattle.fit_texts.specs.InstantText.{instant_text};
ghost use Rattle.fit_texts.specs.Minutes.{seconds_text};
ghost use Rattle.fit_texts.specs.Sheets.{and_sheet};

use crate::sheet::{Sheet, put_sheet};
use crate::stamp::{Stamp, write_text};
use crate::words::time_text;
use std::alloc::{AllocError, Global};
use std::marker::Model;

/// The last minute with a time below 0x10000000, which is no civil time.
pub const LAST_SYSTEM_MINUTE: u32 = 4_473_924;

/// How many bytes are set aside for what the times of a minute begin with and what is cut off after it.
const MINUTE_ROOM: usize = 64;

/// The digit of a number below ten.
#[inline(always)]
fn digit(n: u32) -> u8
    requires { n < 10 }
    ensures { result ≡ 48 + n }
{
    b'0' + n as u8
}

/// Puts the end of a time from its seconds on.
fn put_seconds(text: &mut Vec<u8>, seconds: u32) -> Result<(), AllocError>
    requires { seconds < 60 }
    ensures { OnOk result (text.new.items ≡ text.old.items ++ seconds_text seconds) }
{
    text.extend_from_slice(&[digit(seconds / 10), digit(seconds % 10), b'Z'])
}

/// Writes the end of a time from its seconds on into bytes. Returns the place after it.
#[inline(always)]
pub fn write_seconds(bytes: &mut [u8], at: usize, seconds: u32) -> usize
    requires small { seconds < 60 }
    requires room { at + 3 ≤ length bytes.old }
    ensures size { length bytes.new ≡ length bytes.old }
    ensures end { result ≡ at + 3 }
    ensures text { take result bytes.new ≡ take at bytes.old ++ seconds_text seconds }
{
    write_text(bytes, at, &[digit(seconds / 10), digit(seconds % 10), b'Z'])
}

/// Puts a time up to its seconds after a text.
pub fn put_minute(text: &mut Vec<u8>, time: u32) -> Result<(), AllocError>
    ensures { OnOk result (text.new.items ≡ text.old.items ++ take 17 (instant_text time)) }
{
    let end = text.len() + 17;
    text.extend_from_slice(time_text(Some(time)).as_str().as_bytes())?;
    text.truncate(end);
    Ok(())
}

/// A minute of civil time.
#[derive(Drop)]
pub(crate) struct Minute {
    /// How many minutes after 1989-12-31T00:00:00 UTC.
    number: u32,
    /// What its times begin with, up to their seconds.
    text: Stamp,
}

impl Model for Minute {
    ghost use Rattle.std.specs.Prelude.{ℕ};
    ghost use Rattle.fit_texts.specs.Minutes.{IsMinute};

    ghost Value = { ℕ };

    ghost view = { λ m. m.number };

    ghost invariant = { λ m. IsMinute m.number m.text };
}

impl Minute {
    /// That of a time.
    fn of(alloc: Global, time: u32) -> Result<Minute, AllocError>
        requires { 4_473_924 < time / 60 }
        ensures { IfOk result (λ m. m ≡ time / 60) }
    {
        let mut text = Vec::with_capacity(alloc, MINUTE_ROOM)?;
        put_minute(&mut text, time)?;
        Ok(Minute {
            number: time / 60,
            text: Stamp::new(text)?,
        })
    }

    /// Whether a time lies in it.
    #[inline(always)]
    fn has(&self, time: u32) -> bool
        ensures { IsTrue result → time / 60 ≡ self.now }
    {
        time / 60 == self.number
    }

    /// Puts one of its times.
    #[inline(always)]
    fn put(&self, text: &mut Vec<u8>, time: u32) -> Result<(), AllocError>
        requires { time / 60 ≡ self.now }
        ensures { OnOk result (text.new.items ≡ text.old.items ++ instant_text time) }
    {
        self.text.put(text)?;
        put_seconds(text, time % 60)
    }

    /// Adds one of its times to what is written in a sheet.
    #[inline(always)]
    fn add(
        &self,
        text: &mut Vec<u8>,
        sheet: &mut Sheet,
        at: usize,
        time: u32,
    ) -> Result<usize, AllocError>
        requires minute { time / 60 ≡ self.now }
        requires place { at ≤ 1024 }
        ensures room { IfOk result (λ end. end + 16 ≤ 1024) }
        ensures text { IfOk result (λ end. and_sheet text.new.items sheet.new end
            ≡ and_sheet text.old.items sheet.old at ++ instant_text time) }
    {
        let at = self.text.add(text, sheet, at)?;
        Ok(write_seconds(sheet, at, time % 60))
    }
}

/// Puts times one after another.
#[derive(Drop)]
pub struct Times {
    alloc: Global,
    /// The minute of the last one.
    minute: Option<Minute>,
}

impl Times {
    /// It has put no time.
    pub fn new(alloc: Global) -> Times {
        Times {
            alloc,
            minute: None,
        }
    }

    /// Puts a time, and keeps its minute, where it is civil.
    #[inline(never)]
    fn put_new(&mut self, text: &mut Vec<u8>, time: u32) -> Result<(), AllocError>
        ensures { OnOk result (text.new.items ≡ text.old.items ++ instant_text time) }
    {
        if time / 60 > LAST_SYSTEM_MINUTE {
            let minute = Minute::of(self.alloc, time)?;
            minute.put(text, time)?;
            self.minute = Some(minute);
            return Ok(());
        }
        text.extend_from_slice(time_text(Some(time)).as_str().as_bytes())
    }

    /// Adds a time to what is written in a sheet, or puts it after a text and the sheet. Returns the place after what is written then.
    #[inline(always)]
    pub fn add(
        &mut self,
        text: &mut Vec<u8>,
        sheet: &mut Sheet,
        at: usize,
        time: u32,
    ) -> Result<usize, AllocError>
        requires { at ≤ 1024 }
        ensures room { IfOk result (λ end. end + 16 ≤ 1024) }
        ensures text { IfOk result (λ end. and_sheet text.new.items sheet.new end
            ≡ and_sheet text.old.items sheet.old at ++ instant_text time) }
    {
        if let Some(minute) = &self.minute {
            if minute.has(time) {
                return minute.add(text, sheet, at, time);
            }
        }
        put_sheet(text, sheet, at)?;
        self.put_new(text, time)?;
        Ok(0)
    }

    /// Adds the text of a time as a cell, which is empty where there is no time.
    #[inline(always)]
    pub fn add_cell(
        &mut self,
        text: &mut Vec<u8>,
        sheet: &mut Sheet,
        at: usize,
        time: Option<u32>,
    ) -> Result<usize, AllocError>
        requires { at + 16 ≤ 1024 }
        ensures room { IfOk result (λ end. end + 16 ≤ 1024) }
        ensures text { IfOk result (λ end. and_sheet text.new.items sheet.new end
            ≡ and_sheet text.old.items sheet.old at
            ++ unwrap_or (option_map instant_text time) []) }
        ensures plain { needs_quotes default_writer (unwrap_or (option_map instant_text time) [])
            ≡ false }
    {
        match time {
            Some(time) => self.add(text, sheet, at, time),
            None => Ok(at),
        }
    }
}
