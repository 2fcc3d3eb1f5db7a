//! Want of memory while a record is taken in.

use crate::asserts::{equal, equal_at, holds_at};
use crate::built::{description, descriptions, large, small};
use fit_base::base_type::{BYTE, UINT16};
use fit_record::{Env, Record};
use linked_list_allocator::LocalHeap;
use std::alloc::{AllocError, Allocator};
use std::process::Abort;

/// Takes a record in where it fits.
fn take<A: Allocator + Copy>(env: &mut Env<A>, r: &Record<A>) -> Result<(), AllocError> {
    if env.fits(r).is_ok() {
        env.learn(r)?;
    }
    Ok(())
}

/// The size of the largest block that can be had, in steps of 16 bytes.
fn largest_block<A: Allocator + Copy>(alloc: A) -> usize {
    for blocks in 0..256usize {
        let size = 4096 - 16 * blocks;
        if Vec::<u8, A>::with_capacity(alloc, size).is_ok() {
            return size;
        }
    }
    0
}

/// Whether memory is refused to a record while that much is held.
fn is_refused_beside<A: Allocator + Copy>(
    rt: &impl Abort,
    env: &mut Env<A>,
    alloc: A,
    held: usize,
    r: &Record<A>,
) -> bool {
    let _held: Vec<u8, A> = Vec::with_capacity(alloc, held).expect(rt, "a block");
    take(env, r).is_err()
}

/// Whether this definition is in its place.
fn is_defined<A: Allocator>(env: &Env<A>, r: &Record<A>) -> bool {
    match r {
        Record::Values(_) => false,
        Record::Define(d) => match env.definition(d.local) {
            None => false,
            Some(found) => found == d,
        },
    }
}

/// How often a definition is refused, where each time 16 bytes more are left for it. Each time the
/// earlier definition stays, with the code that it found.
fn refusals<A: Allocator + Copy>(
    rt: &impl Abort,
    env: &mut Env<A>,
    alloc: A,
    old: &Record<A>,
    new: &Record<A>,
) -> usize {
    let most = largest_block(alloc);
    for blocks in 0..64usize {
        if !is_refused_beside(rt, env, alloc, most.saturating_sub(16 * blocks), new) {
            return blocks;
        }
        holds_at(rt, is_defined(env, old), &blocks);
        equal_at(rt, &env.length(1), &Some(3), &blocks);
        equal_at(rt, &env.dev_code(1, 0), &Some(BYTE), &blocks);
    }
    0
}

/// The codes, the fields and the developer fields each find no room once, and then all do.
fn define<A: Allocator + Copy>(
    rt: &impl Abort,
    env: &mut Env<A>,
    alloc: A,
    old: &Record<A>,
    new: &Record<A>,
) {
    assert!(rt; refusals(rt, env, alloc, old, new) >= 3);
    assert!(rt; is_defined(env, new));
    equal(rt, &env.length(1), &Some(6));
    equal(rt, &env.dev_code(1, 1), &Some(UINT16));
}

/// A description finds no room, and then it does. The definition before it keeps its code.
fn describe<A: Allocator + Copy>(
    rt: &impl Abort,
    env: &mut Env<A>,
    alloc: A,
    old: &Record<A>,
    description: &Record<A>,
) {
    assert!(rt; is_refused_beside(rt, env, alloc, largest_block(alloc), description));
    for record_ in [old, description] {
        take(env, record_).expect(rt, "memory");
        equal(rt, &env.dev_code(1, 0), &Some(BYTE));
    }
}

/// A description of a developer field is refused, and then a definition with it.
fn refuse<A: Allocator + Copy>(
    rt: &impl Abort,
    env: &mut Env<A>,
    alloc: A,
    description: &Record<A>,
) {
    let old = small(rt, alloc);
    let new = large(rt, alloc);
    describe(rt, env, alloc, &old, description);
    define(rt, env, alloc, &old, &new);
}

/// All records stay, so that no memory is free but the one block at the end.
fn refuse_in<A: Allocator + Copy>(rt: &impl Abort, mut env: Env<A>, alloc: A) {
    let descriptions = descriptions(rt, alloc);
    take(&mut env, &descriptions).expect(rt, "memory");
    let description = description(rt, alloc);
    refuse(rt, &mut env, alloc, &description);
}

#[test]
fn a_refused_record_changes_nothing(rt: HostRuntime) {
    let heap = LocalHeap::new(rt.alloc(), 4096).expect(&rt, "memory");
    refuse_in(&rt, Env::new(&heap), &heap);
}
