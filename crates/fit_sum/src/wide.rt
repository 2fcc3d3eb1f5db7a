//! Blocks of 256 bytes, by sixteen words of 128 bits.
//!
//! The divisor to the power 128 is x^2048 + x^1920 + x^256 + 1: the register of `words`, with words
//! that are twice as wide. Each is a vector of two words of 64 bits.
ghost use Rattle.std.specs.Prelude.{◌≡◌, ◌<◌, ◌≤◌, ◌++◌, ◌*◌, length};
ghost use Rattle.std.specs.List.{concat};
ghost use Rattle.fit_sum.specs.inner.Register.{run, AllBytes};
ghost use Rattle.fit_sum.specs.inner.Words.{turns, words_from, mix, spelled, AllPairs};

use crate::slices::{add_by_eights, add_eight};
use std::simd::prelude::*;

/// Word `at` of a block, its lowest byte first.
#[inline]
fn word(block: &[u8; 256], at: usize) -> u64x2
    requires { at < 16 }
    ensures { result ≡ words_from (2 * at) 2 block.now }
{
    let i = 16 * at;
    let j = i + 8;
    u64x2::from_array([
        u64::from_le_bytes([
            block[i],
            block[i + 1],
            block[i + 2],
            block[i + 3],
            block[i + 4],
            block[i + 5],
            block[i + 6],
            block[i + 7],
        ]),
        u64::from_le_bytes([
            block[j],
            block[j + 1],
            block[j + 2],
            block[j + 3],
            block[j + 4],
            block[j + 5],
            block[j + 6],
            block[j + 7],
        ]),
    ])
}

/// The words of a block, with the register's words added to them.
#[inline]
fn mixed(register: &[u64x2; 16], block: &[u8; 256]) -> [u64x2; 16]
    requires { AllPairs register.now }
    ensures sums { concat result ≡ mix (concat register.now) (words_from 0 32 block.now) }
    ensures pairs { AllPairs result }
    ensures bytes { AllBytes block.now }
{
    [
        register[0] ^ word(block, 0),
        register[1] ^ word(block, 1),
        register[2] ^ word(block, 2),
        register[3] ^ word(block, 3),
        register[4] ^ word(block, 4),
        register[5] ^ word(block, 5),
        register[6] ^ word(block, 6),
        register[7] ^ word(block, 7),
        register[8] ^ word(block, 8),
        register[9] ^ word(block, 9),
        register[10] ^ word(block, 10),
        register[11] ^ word(block, 11),
        register[12] ^ word(block, 12),
        register[13] ^ word(block, 13),
        register[14] ^ word(block, 14),
        register[15] ^ word(block, 15),
    ]
}

/// What the register holds once all its sixteen words were shifted out.
#[inline]
fn shifted(register: &[u64x2; 16]) -> [u64x2; 16]
    requires { AllPairs register.now }
    ensures sums { concat result ≡ turns 1 27 32 (concat register.now) }
    ensures pairs { AllPairs result }
{
    let w0 = register[0];
    let w1 = register[1] ^ w0;
    let w2 = register[2] ^ w1;
    let w3 = register[3] ^ w2;
    let w4 = register[4] ^ w3;
    let w5 = register[5] ^ w4;
    let w6 = register[6] ^ w5;
    let w7 = register[7] ^ w6;
    let w8 = register[8] ^ w7;
    let w9 = register[9] ^ w8;
    let w10 = register[10] ^ w9;
    let w11 = register[11] ^ w10;
    let w12 = register[12] ^ w11;
    let w13 = register[13] ^ w12;
    let w14 = register[14] ^ w0 ^ w13;
    let w15 = register[15] ^ w1 ^ w14;
    [
        w0 ^ w2 ^ w15,
        w1 ^ w3,
        w2 ^ w4,
        w3 ^ w5,
        w4 ^ w6,
        w5 ^ w7,
        w6 ^ w8,
        w7 ^ w9,
        w8 ^ w10,
        w9 ^ w11,
        w10 ^ w12,
        w11 ^ w13,
        w12 ^ w14,
        w13 ^ w15,
        w14,
        w15,
    ]
}

/// What the words leave of a register, as the bytes that they are.
fn add_words(words: &[u64x2; 16]) -> u16
    requires { AllPairs words.now }
    ensures { result ≡ run 0 (spelled (concat words.now)) }
{
    let mut sum = 0;
    for word in words {
        let [low, high] = word.to_array();
        sum = add_eight(sum, &low.to_le_bytes());
        sum = add_eight(sum, &high.to_le_bytes());
    }
    sum
}

/// The register after some blocks and one more.
fn add_wide_blocks(register: u16, front: &[[u8; 256]], last: &[u8; 256]) -> u16
    ensures { result ≡ run register (concat front.now ++ last.now) }
{
    let mut words = [u64x2::splat(0); 16];
    words[0] = u64x2::from_array([u64::from(register), 0]);
    for block in front {
        words = shifted(&mixed(&words, block));
    }
    add_words(&mixed(&words, last))
}

/// The register after more bytes: whole blocks by words, and the rest by eights.
#[inline(never)]
pub(crate) fn add_longest(register: u16, bytes: &[u8]) -> u16
    requires { 256 ≤ length bytes.now }
    ensures { result ≡ run register bytes.now }
{
    let (whole, rest) = bytes.as_chunks::<256>();
    let (front, last) = (&whole[..whole.len() - 1], &whole[whole.len() - 1]);
    add_by_eights(add_wide_blocks(register, front, last), rest)
}
