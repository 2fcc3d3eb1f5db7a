//! The least number from a start on that leaves a given rest.
ghost use Rattle.std.specs.Prelude.{◌≡◌, ◌≤◌, ◌<◌, ◌+◌, ◌^◌, IfSome, option_map, option_and_then};
ghost use Rattle.fit_profile.specs.Accumulated.{in_64_bits};
ghost use Rattle.fit_profile.specs.Least as least;

/// How far after the start the least number with this rest stands.
pub(crate) fn steps_to(start: u64, rest: u64, modulus: u64) -> Option<u64>
    requires above { 0 < modulus }
    requires small { modulus ≤ 2 ^ 16 }
    ensures least { option_map (λ steps. start + steps) result
        ≡ least.least_from start rest modulus }
    ensures few { IfSome result (λ steps. steps < modulus) }
{
    let at = start % modulus;
    if modulus <= rest {
        None
    } else if at <= rest {
        Some(rest - at)
    } else {
        Some(modulus - at + rest)
    }
}

/// The least number from the start on with this rest, where it fits.
pub(crate) fn least_from(start: u64, rest: u64, modulus: u64) -> Option<u64>
    requires above { 0 < modulus }
    requires small { modulus ≤ 2 ^ 16 }
    ensures { result ≡ option_and_then in_64_bits (least.least_from start rest modulus) }
{
    let steps = steps_to(start, rest, modulus)?;
    start.checked_add(steps)
}
