//! Times and accumulated values of a message.
ghost use Rattle.std.specs.Prelude.{◌≡◌, ◌≤◌, ◌<◌, ◌^◌, ◌%◌, ◌/◌, None, Some, option_map, option_and_then, unwrap_or};
ghost use Rattle.fit_record.specs.Faults.{or_else};
ghost use Rattle.fit_profile.specs.Accumulated as sums;
ghost use Rattle.fit_profile.specs.Told as telling;
ghost use Rattle.fit_profile.specs.inner.Alone.{times_alone};

use crate::component::Component;
use crate::least::least_from;

/// What is told of a data message.
#[derive(Clone, Copy)]
pub struct Told {
    pub time: Option<u32>,
    pub header_time: Option<u32>,
    /// The low twelve bits of compressed_speed_distance.
    pub speed: Option<u64>,
    pub distance: Option<u64>,
    pub total_cycles: Option<u64>,
    pub accumulated_power: Option<u64>,
}

/// The last time and the last accumulated values.
#[derive(Clone, Copy)]
pub struct Last {
    pub time: Option<u32>,
    pub distance: u64,
    pub total_cycles: u64,
    pub accumulated_power: u64,
}

pub(crate) const DISTANCE: Component = Component {
    field: 8,
    items: 3,
    width: 1,
    skipped: 0xFF_FFFF,
    divisor: 4096,
    modulus: 4096,
};

pub(crate) const TOTAL_CYCLES: Component = Component {
    field: 18,
    items: 1,
    width: 1,
    skipped: 0xFF,
    divisor: 1,
    modulus: 256,
};

pub(crate) const ACCUMULATED_POWER: Component = Component {
    field: 28,
    items: 1,
    width: 2,
    skipped: 0xFFFF,
    divisor: 1,
    modulus: 65536,
};

/// The accumulated value of a component by its number in a message.
pub(crate) fn accumulated(c: Component, previous: u64, number: Option<u64>) -> Option<u64>
    requires divisor { 0 < c.divisor }
    requires above { 0 < c.modulus }
    requires below { c.modulus ≤ 2 ^ 16 }
    ensures { result ≡ option_and_then (sums.next_from previous c) number }
{
    least_from(previous, number? / c.divisor, c.modulus)
}

/// The speed in the number that speed and distance make up.
pub(crate) fn speed(number: Option<u64>) -> Option<u64>
    ensures { result ≡ option_map (λ x. x % 2 ^ 12) number }
{
    Some(number? % 4096)
}

/// What is told of a message with these times and these numbers of counters, by the last ones before it.
pub(crate) fn counted(
    last: Last,
    time: Option<u32>,
    header_time: Option<u32>,
    distance: Option<u64>,
    cycles: Option<u64>,
    power: Option<u64>,
) -> Told
    ensures { result ≡ record {
      time = time;
      header_time = header_time;
      speed = option_map (λ x. x % 2 ^ 12) distance;
      distance = option_and_then (sums.next_from last.distance sums.distance) distance;
      total_cycles = option_and_then (sums.next_from last.total_cycles sums.total_cycles) cycles;
      accumulated_power = option_and_then
          (sums.next_from last.accumulated_power sums.accumulated_power) power;
    } }
{
    Told {
        time,
        header_time,
        speed: speed(distance),
        distance: accumulated(DISTANCE, last.distance, distance),
        total_cycles: accumulated(TOTAL_CYCLES, last.total_cycles, cycles),
        accumulated_power: accumulated(ACCUMULATED_POWER, last.accumulated_power, power),
    }
}

/// What is told of a message with these times and no counters.
#[inline(always)]
pub(crate) fn uncounted(time: Option<u32>, header_time: Option<u32>) -> Told
    ensures { result ≡ times_alone time header_time }
{
    Told {
        time,
        header_time,
        speed: None,
        distance: None,
        total_cycles: None,
        accumulated_power: None,
    }
}

/// The last ones after a record.
pub(crate) fn last_after(last: Last, told: Option<Told>) -> Last
    ensures { result ≡ telling.last_after last told }
{
    let Some(told) = told else {
        return last;
    };
    Last {
        time: told.time.or(last.time),
        distance: told.distance.unwrap_or(last.distance),
        total_cycles: told.total_cycles.unwrap_or(last.total_cycles),
        accumulated_power: told.accumulated_power.unwrap_or(last.accumulated_power),
    }
}

/// Changes the last ones to those after a message that tells nothing but this time.
#[inline(always)]
pub(crate) fn note_time(last: &mut Last, time: Option<u32>)
    ensures { last.new ≡ record last.old { time = or_else time last.old.time } }
{
    if let Some(time) = time {
        last.time = Some(time);
    }
}
