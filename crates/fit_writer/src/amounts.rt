//! Speed, distance, cycles and power of messages: whether a reader is told those that a block says.
ghost use Rattle.std.specs.Prelude.{◌≡◌, ◌↔◌, ◌==◌, ◌&&◌, ◌≤◌, ◌+◌, IsTrue, None, Some, if◌then◌else◌, length};
ghost use Rattle.fit_from_messages.specs.Parts.{number_read};
ghost use Rattle.fit_writer.specs.Amounts as amounts;
ghost use Rattle.fit_writer.specs.Amounts.{amounts_by, amounts_in, no_amounts};

use fit_base::{Order, bits_at};
use fit_profile::Told;

/// How many first messages are read with the amounts of their blocks, with one more after so many.
pub(crate) fn first_told(so_far: u64, count: u64, next: u64, is_told: bool) -> u64
    ensures { result ≡ (if so_far == count && is_told then next else so_far) }
{
    if so_far == count && is_told {
        next
    } else {
        so_far
    }
}

/// Nothing is told.
pub(crate) const NOTHING: Told = Told {
    time: None,
    header_time: None,
    speed: None,
    distance: None,
    total_cycles: None,
    accumulated_power: None,
};

/// Whether messages of a definition have them, by its block.
pub(crate) fn has_amounts(definition: &[u8]) -> bool
    ensures { result ≡ amounts.has_amounts definition.now }
{
    definition.len() > 38 && definition[38] / 2 % 2 == 1
}

/// Whether an amount is told where a block has one, and is the number at this place.
fn is_same(amount: Option<u64>, is_said: bool, place: usize, block: &[u8]) -> bool
    requires { place + 8 ≤ length block.now }
    ensures { IsTrue result ↔ (amount ≡ (if is_said then Some (number_read 8 place block.now)
        else None)) }
{
    let Some(amount) = amount else {
        return !is_said;
    };
    let (_, rest) = block.split_at(place);
    let (piece, _) = rest.split_at(8);
    is_said && amount == bits_at(Order::Little, 8, piece)
}

/// Whether none is told.
fn is_none(told: Told) -> bool
    ensures { IsTrue result ↔ (amounts_in told ≡ no_amounts) }
{
    told.speed.is_none()
        && told.distance.is_none()
        && told.total_cycles.is_none()
        && told.accumulated_power.is_none()
}

/// Whether those are told that a message's block says, where messages of its definition have them.
pub(crate) fn is_told(told: Told, has: bool, block: &[u8]) -> bool
    ensures { IsTrue result ↔ (amounts_in told ≡ amounts_by has block.now) }
{
    if !has || block.len() < 72 {
        return is_none(told);
    }
    is_same(told.speed, block[5] / 4 % 2 == 1, 40, block)
        && is_same(told.distance, block[5] / 8 % 2 == 1, 48, block)
        && is_same(told.total_cycles, block[5] / 16 % 2 == 1, 56, block)
        && is_same(told.accumulated_power, block[5] / 32 % 2 == 1, 64, block)
}
