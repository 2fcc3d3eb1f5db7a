//! The text of an instant.
ghost use Rattle.std.specs.Prelude.{◌≡◌, ◌≤◌, ◌<◌, ◌++◌, ◌+ℤ◌, ◌≤ℤ◌, ◌+◌, pos, codes, decimal, unsigned_abs};
ghost use Rattle.arrayvec.specs.ArrayString.{array_string_len};
ghost use Rattle.jiff.specs.Words.{epoch_day};
ghost use Rattle.jiff_core.specs.Calendar.{days_from_civil};
ghost use Rattle.fit_numbers.specs.Instant.{IsInstantText, two_digits, date_digits, clock_digits};

use arrayvec::ArrayString;
use itoa::Buffer;
use jiff::ToSpan;
use jiff::civil::{Date, date};

/// A short text that takes no memory of its own.
pub type Label = ArrayString<32>;

/// Instants below this one are no civil times.
const SYSTEM_TIMES: u32 = 0x1000_0000;

const SECONDS_PER_DAY: u32 = 86_400;

/// The date that many days after 31 December 1989.
fn day_after_epoch(days: u32) -> Date
    requires { days < 49_711 }
    ensures day { epoch_day result ≡ days_from_civil (pos 1989) 12 31 +ℤ pos days }
    ensures year { pos 1989 ≤ℤ result.year }
{
    match date(1989, 12, 31).checked_add((days as i64).days()) {
        Ok(day) => day,
        Err(_) => unreachable!(),
    }
}

/// A number below 100 as two digits.
fn push_two(text: &mut Label, n: u8)
    requires two { n < 100 }
    requires room { array_string_len text.old + 2 ≤ 32 }
    ensures bytes { text.new.bytes ≡ text.old.bytes ++ two_digits n }
{
    text.push((b'0' + n / 10) as char);
    text.push((b'0' + n % 10) as char);
}

/// A date as YYYY-MM-DD.
fn push_date(text: &mut Label, date: Date)
    requires year { pos 0 ≤ℤ date.year }
    requires room { array_string_len text.old + 10 ≤ 32 }
    ensures bytes { text.new.bytes ≡ text.old.bytes
        ++ date_digits (unsigned_abs date.year) date.month date.day }
{
    let year = date.year() as u16;
    push_two(text, (year / 100) as u8);
    push_two(text, (year % 100) as u8);
    text.push('-');
    push_two(text, date.month() as u8);
    text.push('-');
    push_two(text, date.day() as u8);
}

/// A second of the day as HH:MM:SS.
fn push_clock(text: &mut Label, second: u32)
    requires second_in { second < 86_400 }
    requires room { array_string_len text.old + 8 ≤ 32 }
    ensures bytes { text.new.bytes ≡ text.old.bytes ++ clock_digits second }
{
    push_two(text, (second / 3600) as u8);
    text.push(':');
    push_two(text, (second / 60 % 60) as u8);
    text.push(':');
    push_two(text, (second % 60) as u8);
}

/// The seconds since a device was switched on.
fn system_text(moment: u32) -> Label
    ensures bytes { result.bytes ≡ codes "system+" ++ decimal moment }
{
    let mut text = Label::new();
    text.push_str("system+");
    text.push_str(Buffer::new().format(moment));
    text
}

/// The text of an instant, which counts seconds from 1989-12-31T00:00:00 UTC: `YYYY-MM-DDTHH:MM:SSZ`.
/// Below 0x10000000 it counts the seconds since the device was switched on, and the text is `system+N`.
pub fn utc_text(instant: u32) -> Label
    ensures { IsInstantText instant result.bytes }
{
    if instant < SYSTEM_TIMES {
        return system_text(instant);
    }
    let mut text = Label::new();
    push_date(&mut text, day_after_epoch(instant / SECONDS_PER_DAY));
    text.push('T');
    push_clock(&mut text, instant % SECONDS_PER_DAY);
    text.push('Z');
    text
}
