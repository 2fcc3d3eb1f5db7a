//! What the rows of a file begin with, by what those of a minute have in common.
ghost use Rattle.std.specs.Prelude.{◌≡◌, ◌≤◌, ◌<◌, ◌+◌, ◌/◌, ◌^◌, ◌++◌, ◌∷◌, [], ℕ, IfOk, IfSome, IsTrue, OnOk, Some, decimal, length, option_map, take, unwrap_or};
ghost use Rattle.csv.specs.Writing.{default_writer, fields_text};
ghost use Rattle.fit_texts.specs.InstantText.{instant_text};

use fit_profile::put_whole;
use fit_texts::words::time_text;
use fit_texts::{LAST_SYSTEM_MINUTE, SHORT, Stamp, put_minute, write_seconds};
use std::alloc::{AllocError, Global};
use std::marker::Model;

/// How many bytes what a row begins with has at most, where it is short.
pub(crate) const FRONT_SIZE: usize = 35;

/// How many bytes are set aside for what a row begins with and what is cut off after it.
const FRONT_ROOM: usize = 80;

/// The file and the minute of a row, and what its text begins with, where that is short.
#[derive(Drop)]
pub(crate) struct RowFront {
    /// The number of the file.
    file: u64,
    /// How many minutes after 1989-12-31T00:00:00 UTC.
    minute: u32,
    /// The number of the file, the comma, and the time up to its seconds.
    text: Stamp,
}

impl Model for RowFront {
    ghost use Rattle.std.specs.Prelude.{◌≤◌, ℕ, length};
    ghost use Rattle.fit_table.specs.inner.Fronts.{IsFront};

    ghost Value = { ℕ × ℕ };

    ghost view = { λ f. (f.file, f.minute) };

    ghost invariant = { λ f. IsFront f.file f.minute f.text × (length f.text ≤ 32) };
}

impl RowFront {
    /// That of the rows of a file with times of the minute of this time, where it is short.
    fn of(alloc: Global, file: u64, time: u32) -> Result<Option<RowFront>, AllocError>
        requires { 4_473_924 < time / 60 }
        ensures { IfOk result (λ f. IfSome f (λ f. f ≡ (file, time / 60))) }
    {
        let mut text = Vec::with_capacity(alloc, FRONT_ROOM)?;
        put_whole(&mut text, file)?;
        text.push(b',')?;
        put_minute(&mut text, time)?;
        if text.len() > SHORT {
            return Ok(None);
        }
        Ok(Some(RowFront {
            file,
            minute: time / 60,
            text: Stamp::new(text)?,
        }))
    }

    /// Whether it is that of the rows of a file with times of the minute of this time.
    #[inline(always)]
    fn is_of(&self, file: u64, time: u32) -> bool
        ensures { IsTrue result → self.now ≡ (file, time / 60) }
    {
        self.file == file && self.minute == time / 60
    }

    /// Writes the number of the file, the comma and a time into the bytes of a row. Returns the place after them.
    #[inline(always)]
    pub(crate) fn write(&self, row: &mut [u8], at: usize, time: u32) -> usize
        requires minute { time / 60 ≡ self.now.1 }
        requires room { at + FRONT_SIZE ≤ length row.old }
        ensures size { length row.new ≡ length row.old }
        ensures within { result ≤ at + FRONT_SIZE }
        ensures text { take result row.new
            ≡ take at row.old ++ (decimal self.now.0 ++ (44 ∷ instant_text time)) }
    {
        let at = self.text.write(row, at);
        write_seconds(row, at, time % 60)
    }
}

/// Puts the first two cells of a row after a text.
#[inline(always)]
pub(crate) fn put_first(text: &mut Vec<u8>, file: u64, time: Option<u32>) -> Result<(), AllocError>
    ensures { OnOk result (text.new.items ≡ text.old.items ++ (decimal file
        ++ fields_text default_writer (unwrap_or (option_map instant_text time) [] ∷ []))) }
{
    put_whole(text, file)?;
    text.push(b',')?;
    let Some(time) = time else {
        return Ok(());
    };
    text.extend_from_slice(time_text(Some(time)).as_str().as_bytes())?;
    Ok(())
}

/// What the last row began with, for those after it.
#[derive(Drop)]
pub(crate) struct Firsts {
    alloc: Global,
    /// Where the time of the row is civil, and what it began with is short.
    front: Option<RowFront>,
}

impl Firsts {
    /// There was no row.
    pub(crate) fn new(alloc: Global) -> Firsts {
        Firsts { alloc, front: None }
    }

    /// What the row of a file and a time begins with, and the time, where that is known.
    #[inline(always)]
    pub(crate) fn front_of(&self, file: u64, time: Option<u32>) -> Option<(&RowFront, u32)>
        ensures { IfSome result (λ p. (p.0.now ≡ (file, p.1 / 60)) × (time ≡ Some p.1)
            × (p.1 < 2 ^ 32)) }
    {
        let time = time?;
        let front = self.front.as_ref()?;
        if front.is_of(file, time) {
            Some((front, time))
        } else {
            None
        }
    }

    /// Finds out what the rows of a file with times of the minute of this time begin with.
    pub(crate) fn renew(&mut self, file: u64, time: Option<u32>) -> Result<(), AllocError> {
        if let Some(time) = time {
            if time / 60 > LAST_SYSTEM_MINUTE {
                self.front = RowFront::of(self.alloc, file, time)?;
            }
        }
        Ok(())
    }
}
