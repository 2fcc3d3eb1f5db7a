//! What no contract says: a history has no bytes.
use crate::asserts::equal;
use fit_history::History;

#[derive(Drop)]
struct Counted {
    count: u32,
    bytes: History<u8>,
}

#[test]
fn has_no_bytes(rt: HostRuntime) {
    equal(&rt, &std::mem::size_of::<History<u8>>(), &0);
    equal(&rt, &std::mem::size_of::<History<(u64, u16)>>(), &0);
    equal(&rt, &std::mem::size_of::<Counted>(), &4);
}

#[test]
fn is_kept_beside_what_it_tells_of(rt: HostRuntime) {
    let mut counted = Counted {
        count: 0,
        bytes: History::new(),
    };
    counted.bytes.add(&7);
    counted.count += 1;
    counted.bytes.note(&[8, 9]);
    counted.count += 2;
    equal(&rt, &counted.count, &3);
}
