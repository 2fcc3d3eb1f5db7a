//! Compares the fields of definitions, four at a time.
ghost use Rattle.std.specs.Prelude.{◌≡◌, ◌↔◌, IsTrue};

use fit_record::FieldDef;

/// How many fields are compared at a time.
const FOUR: usize = 4;

/// Whether two fields are the same. All of both is looked at, so that many comparisons are made as one.
#[inline(always)]
fn is_same(a: &FieldDef, b: &FieldDef) -> bool
    ensures { IsTrue result ↔ (a.now ≡ b.now) }
{
    (a.number == b.number) & (a.size == b.size) & (a.code == b.code)
}

/// Whether four fields are the same as four others.
#[inline(always)]
fn are_same_four(a: &[FieldDef; FOUR], b: &[FieldDef; FOUR]) -> bool
    ensures { IsTrue result ↔ (a.now ≡ b.now) }
{
    let [a0, a1, a2, a3] = a;
    let [b0, b1, b2, b3] = b;
    is_same(a0, b0) & is_same(a1, b1) & is_same(a2, b2) & is_same(a3, b3)
}

/// Whether two lists of fields are the same, from the first on.
fn are_all_same(a: &[FieldDef], b: &[FieldDef]) -> bool
    ensures { IsTrue result ↔ (a.now ≡ b.now) }
{
    let mut left = a;
    let mut other = b;
    for _ in 0..a.len() / FOUR {
        let Some((front, rest)) = left.split_first_chunk::<FOUR>() else {
            break;
        };
        let Some((other_front, other_rest)) = other.split_first_chunk::<FOUR>() else {
            return false;
        };
        if !are_same_four(front, other_front) {
            return false;
        }
        left = rest;
        other = other_rest;
    }
    left == other
}

/// Whether two lists of fields are the same. Where they differ, the last one mostly does, so it is compared first.
#[inline(always)]
pub(crate) fn are_same_fields(a: &[FieldDef], b: &[FieldDef]) -> bool
    ensures { IsTrue result ↔ (a.now ≡ b.now) }
{
    a.last() == b.last() && are_all_same(a, b)
}
