//! Blocks of 128 bytes, by sixteen words of 64 bits.
//!
//! Over 0 and 1 the divisor x^16 + x^15 + x^2 + 1 to the power 64 is
//! x^1024 + x^960 + x^128 + 1. So the register of sixteen bits may be one of sixteen words: the
//! word that is shifted out goes into three places, and no table is needed.
ghost use Rattle.std.specs.Prelude.{◌≡◌, ◌<◌, ◌≤◌, ◌++◌, ◌*◌, length, take, drop};
ghost use Rattle.std.specs.List.{concat};
ghost use Rattle.fit_sum.specs.inner.Register.{run, AllBytes};
ghost use Rattle.fit_sum.specs.inner.Words.{bytes_number, turns, words_from, mix, spelled};

use crate::slices::{add_by_eights, add_eight};
use crate::wide::add_longest;

/// Word `at` of a block, its lowest byte first.
#[inline]
fn word(block: &[u8; 128], at: usize) -> u64
    requires { at < 16 }
    ensures { result ≡ bytes_number (take 8 (drop (8 * at) block.now)) }
{
    let i = 8 * at;
    u64::from_le_bytes([
        block[i],
        block[i + 1],
        block[i + 2],
        block[i + 3],
        block[i + 4],
        block[i + 5],
        block[i + 6],
        block[i + 7],
    ])
}

/// The words of a block, with the register's words added to them.
#[inline]
fn mixed(register: &[u64; 16], block: &[u8; 128]) -> [u64; 16]
    ensures sums { result ≡ mix register.now (words_from 0 16 block.now) }
    ensures bytes { AllBytes block.now }
{
    [
        register[0] ^ word(block, 0),
        register[1] ^ word(block, 1),
        register[2] ^ word(block, 2),
        register[3] ^ word(block, 3),
        register[4] ^ word(block, 4),
        register[5] ^ word(block, 5),
        register[6] ^ word(block, 6),
        register[7] ^ word(block, 7),
        register[8] ^ word(block, 8),
        register[9] ^ word(block, 9),
        register[10] ^ word(block, 10),
        register[11] ^ word(block, 11),
        register[12] ^ word(block, 12),
        register[13] ^ word(block, 13),
        register[14] ^ word(block, 14),
        register[15] ^ word(block, 15),
    ]
}

/// What the register holds once all its sixteen words were shifted out.
#[inline]
fn shifted(register: &[u64; 16]) -> [u64; 16]
    ensures { result ≡ turns 0 13 16 register.now }
{
    let w0 = register[0];
    let w1 = register[1] ^ w0;
    let w2 = register[2] ^ w1;
    let w3 = register[3] ^ w2;
    let w4 = register[4] ^ w3;
    let w5 = register[5] ^ w4;
    let w6 = register[6] ^ w5;
    let w7 = register[7] ^ w6;
    let w8 = register[8] ^ w7;
    let w9 = register[9] ^ w8;
    let w10 = register[10] ^ w9;
    let w11 = register[11] ^ w10;
    let w12 = register[12] ^ w11;
    let w13 = register[13] ^ w12;
    let w14 = register[14] ^ w0 ^ w13;
    let w15 = register[15] ^ w1 ^ w14;
    [
        w0 ^ w2 ^ w15,
        w1 ^ w3,
        w2 ^ w4,
        w3 ^ w5,
        w4 ^ w6,
        w5 ^ w7,
        w6 ^ w8,
        w7 ^ w9,
        w8 ^ w10,
        w9 ^ w11,
        w10 ^ w12,
        w11 ^ w13,
        w12 ^ w14,
        w13 ^ w15,
        w14,
        w15,
    ]
}

/// The bytes of the words, eight for each.
#[inline]
fn bytes_of(words: &[u64; 16]) -> [[u8; 8]; 16]
    ensures bytes { concat result ≡ spelled words.now }
    ensures count { length result ≡ 16 }
{
    [
        words[0].to_le_bytes(),
        words[1].to_le_bytes(),
        words[2].to_le_bytes(),
        words[3].to_le_bytes(),
        words[4].to_le_bytes(),
        words[5].to_le_bytes(),
        words[6].to_le_bytes(),
        words[7].to_le_bytes(),
        words[8].to_le_bytes(),
        words[9].to_le_bytes(),
        words[10].to_le_bytes(),
        words[11].to_le_bytes(),
        words[12].to_le_bytes(),
        words[13].to_le_bytes(),
        words[14].to_le_bytes(),
        words[15].to_le_bytes(),
    ]
}

/// What the words leave of a register, as the bytes that they are.
fn add_words(words: &[u64; 16]) -> u16
    ensures { result ≡ run 0 (spelled words.now) }
{
    let mut sum = 0;
    for eight in &bytes_of(words) {
        sum = add_eight(sum, eight);
    }
    sum
}

/// The register after some blocks and one more.
fn add_blocks(register: u16, front: &[[u8; 128]], last: &[u8; 128]) -> u16
    ensures { result ≡ run register (concat front.now ++ last.now) }
{
    let mut words = [0; 16];
    words[0] = u64::from(register);
    for block in front {
        words = shifted(&mixed(&words, block));
    }
    add_words(&mixed(&words, last))
}

/// The register after more bytes: whole blocks by words, and the rest by eights.
#[inline(never)]
fn add_long(register: u16, bytes: &[u8]) -> u16
    requires { 128 ≤ length bytes.now }
    ensures { result ≡ run register bytes.now }
{
    if bytes.len() >= 1792 {
        return add_longest(register, bytes);
    }
    let (whole, rest) = bytes.as_chunks::<128>();
    let (front, last) = (&whole[..whole.len() - 1], &whole[whole.len() - 1]);
    add_by_eights(add_blocks(register, front, last), rest)
}

/// The register after more bytes. Where they are few, little is done besides the look-ups.
#[inline(always)]
pub(crate) fn add_bytes(register: u16, bytes: &[u8]) -> u16
    ensures register { result ≡ run register bytes.now }
    ensures bytes { AllBytes bytes.now }
{
    if bytes.len() < 256 {
        add_by_eights(register, bytes)
    } else {
        add_long(register, bytes)
    }
}
