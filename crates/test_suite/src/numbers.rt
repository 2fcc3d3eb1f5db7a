//! Base types, numbers and lists: worked values, each function of `fit_base` once.
use crate::asserts::{equal, equal_at};
use fit_base::{
    Bits, Class, Code, Entries, Items, Order, base_type, bits_at, has_shape, put_bits, signed,
    width_of,
};
use std::alloc::Global;
use std::process::Abort;

/// Width, invalid value and class, of a code that the protocol names and of two that it doesn't
const BASE_TYPES: [(u8, u8, u64, Class); 6] = [
    (0x00, 1, 0xFF, Class::Unsigned),
    (0x07, 1, 0x00, Class::Text),
    (0x83, 2, 0x7FFF, Class::Signed),
    (0x89, 8, 0xFFFF_FFFF_FFFF_FFFF, Class::Float),
    (0x04, 1, 0xFF, Class::Bytes),
    (0x82, 1, 0xFF, Class::Bytes),
];

#[test]
fn base_types(rt: HostRuntime) {
    for (code, width, invalid, class) in BASE_TYPES {
        let code = Code(code);
        equal_at(
            &rt,
            &(code.width(), code.invalid(), code.class()),
            &(width, invalid, class),
            &code.0,
        );
    }
    equal(&rt, &base_type::codes()[9], &base_type::UINT32);
}

#[test]
fn widths(rt: HostRuntime) {
    for (code, size, width) in [(0x84, 6, 2), (0x84, 3, 1), (0x84, 0, 2), (0x1F, 6, 1)] {
        equal_at(&rt, &width_of(Code(code), size), &width, &(code, size));
    }
}

#[test]
fn numbers(rt: HostRuntime) {
    equal(&rt, &bits_at(Order::Big, 2, &[0x09, 0xC4]), &2500);
    equal(&rt, &bits_at(Order::Little, 2, &[0x34, 0x12]), &4660);
    equal(
        &rt,
        &bits_at(Order::Little, 4, &[0x1F, 0xCA, 0x9A, 0x3B]),
        &1_000_000_031,
    );
}

#[test]
fn numbers_put(rt: HostRuntime) {
    let mut bytes = [0; 4];
    put_bits(Order::Little, 4, 1_000_000_031, &mut bytes);
    equal(&rt, &bytes, &[0x1F, 0xCA, 0x9A, 0x3B]);
    put_bits(Order::Big, 2, 2500, &mut bytes[..2]);
    equal(&rt, &bytes, &[0x09, 0xC4, 0x9A, 0x3B]);
}

#[test]
fn signed_numbers(rt: HostRuntime) {
    equal(&rt, &signed(1, 0xFF), &-1);
    equal(&rt, &signed(1, 0x7F), &127);
    equal(&rt, &signed(2, 0x8000), &-32_768);
    equal(&rt, &signed(4, 0xFFFF_FFFE), &-2);
    equal(&rt, &signed(8, 0x8000_0000_0000_0000), &i64::MIN);
}

const NUMBERS: [u64; 3] = [812, 65_535, 0];

/// A list with room for these numbers, to which they are added.
fn list_of_numbers(rt: &impl Abort, alloc: Global) -> Bits {
    let mut bits = Bits::with_capacity(alloc, 3).expect(rt, "memory");
    for number in NUMBERS {
        bits.push(number).expect(rt, "memory");
    }
    bits
}

/// Adds the numbers to a list without any.
fn add_numbers(rt: &impl Abort, bits: &mut Bits) {
    assert!(rt; bits.is_empty());
    bits.push(812).expect(rt, "memory");
    assert!(rt; bits.as_slice() == [812].as_slice());
    bits.push(65_535).expect(rt, "memory");
    bits.push(0).expect(rt, "memory");
    equal(rt, &bits.len(), &3);
}

#[test]
fn lists_of_numbers(rt: HostRuntime) {
    let same = list_of_numbers(&rt, rt.alloc());
    let mut bits = Bits::new(rt.alloc());
    add_numbers(&rt, &mut bits);
    equal(&rt, &bits, &same);
}

/// Asserts the numbers of a list that becomes a vector, which is returned.
fn has_numbers(rt: &impl Abort, bits: Bits, numbers: &[u64]) -> Vec<u64> {
    let found = bits.into_vec().expect(rt, "memory");
    equal(rt, &found.as_slice(), &numbers);
    found
}

#[test]
fn lists_and_vectors_of_numbers(rt: HostRuntime) {
    let numbers = has_numbers(&rt, list_of_numbers(&rt, rt.alloc()), &NUMBERS);
    let same = list_of_numbers(&rt, rt.alloc());
    equal(&rt, &Bits::from_vec(numbers), &same);
    has_numbers(&rt, Bits::one(rt.alloc(), 812), &[812]);
    has_numbers(&rt, Bits::new(rt.alloc()), &[]);
}

#[test]
fn shapes(rt: HostRuntime) {
    let items = Items::from_slice(rt.alloc(), 2, &[0xFE, 0x100]).expect(&rt, "memory");
    assert!(rt; has_shape(Code(0x84), 4, &items));
    assert!(rt; !has_shape(Code(0x84), 2, &items));
    assert!(rt; !has_shape(Code(0x02), 4, &items));
    let bytes = Items {
        width: 1,
        bits: items.bits,
    };
    assert!(rt; !has_shape(Code(0x02), 2, &bytes));
}

/// Adds two base types to a list without any.
fn add_codes(rt: &impl Abort, codes: &mut Entries<u8>) {
    assert!(rt; codes.is_empty());
    codes.push(0x84).expect(rt, "memory");
    codes.push(0x0D).expect(rt, "memory");
    equal(rt, &codes.len(), &2);
    assert!(rt; codes.as_slice() == [0x84, 0x0D].as_slice());
}

#[test]
fn lists_of_elements(rt: HostRuntime) {
    let mut same = Entries::new(rt.alloc());
    add_codes(&rt, &mut same);
    let mut codes = Entries::with_capacity(rt.alloc(), 2).expect(&rt, "memory");
    add_codes(&rt, &mut codes);
    equal(&rt, &Entries::from_vec(codes.into_vec()), &same);
}

#[test]
fn one_item(rt: HostRuntime) {
    let one = Items::from_slice(rt.alloc(), 4, &[1_000_000_000]).expect(&rt, "memory");
    assert!(rt; has_shape(Code(base_type::UINT32), 4, &one));
    equal(&rt, &Items::one(rt.alloc(), 4, 1_000_000_000), &one);
}

#[test]
fn no_items(rt: HostRuntime) {
    let empty = Items::from_slice(rt.alloc(), 2, &[]).expect(&rt, "memory");
    assert!(rt; has_shape(Code(base_type::UINT16), 0, &empty));
}

#[test]
fn made_of_slices(rt: HostRuntime) {
    let three = Items::from_slice(rt.alloc(), 2, &NUMBERS).expect(&rt, "memory");
    assert!(rt; three.bits.as_slice() == NUMBERS.as_slice());
    let codes = [base_type::UINT16, base_type::BYTE];
    let codes = Entries::from_slice(rt.alloc(), &codes).expect(&rt, "memory");
    assert!(rt; codes.as_slice() == [0x84, 0x0D].as_slice());
}
