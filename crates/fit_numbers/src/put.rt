//! Numbers with a fixed number of decimals, put after a text.
//! Short numbers are most of a recording: `put_few` puts them inlined where the text has room, and else calls `grow_few`, which is
//! cold, so that the usual way has no code for a text that grows.
ghost use Rattle.std.specs.Prelude.{◌≡◌, ◌≤◌, ◌<◌, ◌++◌, ◌+◌, ◌/◌, ◌%◌, ◌^◌, OnErr, OnOk, decimal};
ghost use Rattle.fit_numbers.specs.FixedText.{fixed_text, fraction, last_digits, StillBegins};

use crate::triples::{all_digits, ones, tens};
use crate::whole::write_whole;
use crate::write::write_fixed;
use std::alloc::AllocError;

/// Whether a text has room for that many bytes more.
#[inline(always)]
fn has_room(text: &Vec<u8>, bytes: usize) -> bool {
    text.capacity() - text.len() >= bytes
}

/// Puts a number of at most three digits after a text, with bytes that are cut off after it.
#[inline(always)]
#[tactic(auto, using(crate::proofs::PutFacts::used_only))]
fn put_three(text: &mut Vec<u8>, n: u64) -> Result<(), AllocError>
    requires { n < 1000 }
    ensures ok { OnOk result (text.new.items ≡ text.old.items ++ decimal n) }
    ensures err { OnErr result (text.new.items ≡ text.old.items) }
{
    let (digits, used) = all_digits(n);
    let end = text.len() + used;
    text.extend_from_slice(&digits)?;
    text.truncate(end);
    Ok(())
}

/// Puts the digits of a number below 1,000, and writes no other bytes meanwhile.
fn put_just_three(text: &mut Vec<u8>, n: u64) -> Result<(), AllocError>
    requires { n < 1000 }
    ensures ok { OnOk result (text.new.items ≡ text.old.items ++ decimal n) }
    ensures err { OnErr result (text.new.items ≡ text.old.items) }
{
    let (digits, used) = all_digits(n);
    let (own, _) = digits.split_at(used);
    text.extend_from_slice(own)
}

/// Puts a number of four digits after a text.
#[inline(always)]
#[tactic(auto, using(crate::proofs::PutFacts::four_digits))]
fn put_four(text: &mut Vec<u8>, n: u64) -> Result<(), AllocError>
    requires least { 1000 ≤ n }
    requires most { n < 10_000 }
    ensures ok { OnOk result (text.new.items ≡ text.old.items ++ decimal n) }
    ensures err { OnErr result (text.new.items ≡ text.old.items) }
{
    let high = n / 100;
    let low = n % 100;
    text.extend_from_slice(&[tens(high), ones(high), tens(low), ones(low)])
}

/// Puts a number of at most four digits after a text that has no room.
#[cold]
#[inline(never)]
fn grow_few(text: &mut Vec<u8>, n: u64) -> Result<(), AllocError>
    requires { n < 10_000 }
    ensures ok { OnOk result (text.new.items ≡ text.old.items ++ decimal n) }
    ensures err { OnErr result (text.new.items ≡ text.old.items) }
{
    if n < 1000 {
        put_just_three(text, n)
    } else {
        put_four(text, n)
    }
}

/// Puts a number of at most four digits after a text.
#[inline(never)]
fn put_few(text: &mut Vec<u8>, n: u64) -> Result<(), AllocError>
    requires { n < 10_000 }
    ensures ok { OnOk result (text.new.items ≡ text.old.items ++ decimal n) }
    ensures err { OnErr result (text.new.items ≡ text.old.items) }
{
    if !has_room(text, 4) {
        return grow_few(text, n);
    }
    if n < 1000 {
        put_three(text, n)
    } else {
        put_four(text, n)
    }
}

/// Puts a number of more than four digits after a text, with bytes that are cut off after it.
#[inline(never)]
#[tactic(auto, using(crate::proofs::PutFacts::cut))]
fn put_many(text: &mut Vec<u8>, n: u64) -> Result<(), AllocError>
    ensures ok { OnOk result (text.new.items ≡ text.old.items ++ decimal n) }
    ensures err { OnErr result (text.new.items ≡ text.old.items) }
{
    let start = text.len();
    text.extend_from_slice(&[0; 32])?;
    let end = write_whole(text.as_mut_slice(), start, n);
    text.truncate(end);
    Ok(())
}

/// Puts a number after a text. Out of memory, the old text is still its beginning.
#[inline(always)]
#[tactic(auto, using(crate::proofs::KeptTexts::none_put))]
pub fn put_whole(text: &mut Vec<u8>, n: u64) -> Result<(), AllocError>
    ensures ok { OnOk result (text.new.items ≡ text.old.items ++ decimal n) }
    ensures kept { OnErr result (StillBegins text.old.items text.new.items) }
{
    if n < 10_000 {
        put_few(text, n)
    } else {
        put_many(text, n)
    }
}

/// Puts a number with decimals or a sign after a text, with bytes that are cut off after it.
#[inline(never)]
#[tactic(auto, using(crate::proofs::PutFacts::cut))]
fn put_scaled(text: &mut Vec<u8>, value: i64, decimals: u8) -> Result<(), AllocError>
    requires { decimals ≤ 8 }
    ensures ok { OnOk result (text.new.items ≡ text.old.items ++ fixed_text value decimals) }
    ensures err { OnErr result (text.new.items ≡ text.old.items) }
{
    let start = text.len();
    text.extend_from_slice(&[0; 32])?;
    let end = write_fixed(text.as_mut_slice(), start, value, decimals);
    text.truncate(end);
    Ok(())
}

/// Puts the number `value / 10^decimals` after a text, as `Fixed::print` shows it. Out of memory, the old text is still its
/// beginning.
#[inline(always)]
#[tactic(auto, using(crate::proofs::KeptTexts::none_put))]
pub fn put_fixed(text: &mut Vec<u8>, value: i64, decimals: u8) -> Result<(), AllocError>
    requires { decimals ≤ 8 }
    ensures ok { OnOk result (text.new.items ≡ text.old.items ++ fixed_text value decimals) }
    ensures kept { OnErr result (StillBegins text.old.items text.new.items) }
{
    if decimals == 0 && value >= 0 {
        put_whole(text, value as u64)
    } else {
        put_scaled(text, value, decimals)
    }
}
