//! Scales, and positions in degrees.
ghost use Rattle.std.specs.Prelude.{◌≡◌, ◌≤◌, ◌+◌, ◌*◌, ◌/◌, ◌^◌};
ghost use Rattle.fit_numbers.specs.Scaled.{decimals, IsFactor, IsScale, IsDegrees};

use crate::Fixed;

/// How many decimals a scale has.
pub fn decimals_of(scale: u32) -> u8
    requires { IsScale scale }
    ensures value { result ≡ decimals scale }
    ensures few { result ≤ 8 }
{
    match scale {
        5 | 10 => 1,
        100 => 2,
        1000 => 3,
        16 => 4,
        256 => 8,
        _ => 0,
    }
}

/// How many units of the last decimal one over a scale is.
pub fn factor_of(scale: u32) -> u32
    requires { IsScale scale }
    ensures value { result ≡ 10 ^ decimals scale / scale }
    ensures known { IsFactor result }
{
    match scale {
        5 => 2,
        16 => 625,
        256 => 390_625,
        _ => 1,
    }
}

/// An offset in units of the raw value.
pub fn shift(offset: u32, scale: u32) -> u64
    requires { IsScale scale }
    ensures value { result ≡ offset * scale }
    ensures bound { result ≤ 2 ^ 42 }
{
    offset as u64 * scale as u64
}

/// The whole number nearest to `size * 1800000000 / 2^31`, the greater one of two.
fn nearest_degrees(size: u32) -> u64
    requires { size ≤ 2 ^ 31 }
    ensures { result ≡ (2 * size * 1800000000 + 2 ^ 31) / 2 ^ 32 }
{
    (2 * size as u64 * 1_800_000_000 + 0x8000_0000) / 0x1_0000_0000
}

/// Semicircles, of which 2^31 are 180 degrees, as degrees with seven decimals: the nearest such number, and of two the
/// one further from zero.
pub fn degrees(semicircles: i32) -> Fixed
    ensures decimals { result.decimals ≡ 7 }
    ensures value { IsDegrees semicircles result.value }
{
    let size = nearest_degrees(semicircles.unsigned_abs()) as i128;
    Fixed {
        value: if semicircles < 0 { -size } else { size },
        decimals: 7,
    }
}
