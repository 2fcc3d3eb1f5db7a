//! What the raw values of a field mean.
ghost use Rattle.std.specs.Prelude.{◌≡◌, ◌≤◌, ◌≤ℤ◌, ◌<ℤ◌, ◌*ℤ◌, ◌^◌, pos, neg_ℤ};
ghost use Rattle.fit_numbers.specs.Scaled.{decimals, IsScale, IsScaled};

use crate::Info;
use fit_numbers::{Fixed, decimals_of, shift};

/// A number of whole units in units of the last decimal, over the scale.
fn in_decimals(number: i128, scale: u32) -> i128
    requires least { neg_ℤ (pos (2 ^ 65)) ≤ℤ number }
    requires most { number ≤ℤ pos (2 ^ 65) }
    requires scale { IsScale scale }
    ensures { result *ℤ pos scale ≡ number *ℤ pos (10 ^ decimals scale) }
{
    match scale {
        5 => number * 2,
        16 => number * 625,
        256 => number * 390_625,
        _ => number,
    }
}

/// The number that a raw value of a field means, `raw / scale - offset`, with as many decimals as
/// show every number of that scale exactly: none for scale 1, one for 5 and 10, two for 100, three for 1000, four for
/// 16, eight for 256.
pub fn fixed(raw: i128, info: Info) -> Fixed
    requires least { neg_ℤ (pos (2 ^ 63)) ≤ℤ raw }
    requires most { raw <ℤ pos (2 ^ 64) }
    requires scale { IsScale info.scale }
    ensures decimals { result.decimals ≡ decimals info.scale }
    ensures few { result.decimals ≤ 8 }
    ensures value { IsScaled raw info.scale info.offset result.value }
{
    let number = raw - shift(info.offset, info.scale) as i128;
    Fixed {
        value: in_decimals(number, info.scale),
        decimals: decimals_of(info.scale),
    }
}
