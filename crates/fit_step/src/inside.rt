//! Bytes inside a number of a data message.
ghost use Rattle.std.specs.Prelude.{◌≡◌, ◌+◌, ◌<◌, Ok, None, Some, true, false};
ghost use Rattle.fit_record.specs.declared.message.Record.TheVariants.{Values as Data};
ghost use Rattle.fit_record.specs.Environment.{Environment};
ghost use Rattle.fit_step.specs.Machine.{step, values_of};
ghost use Rattle.fit_step.specs.Places.{state_at};
ghost use Rattle.fit_step.specs.Tests.{tests_of};

use crate::{Phase, Position};
use fit_record::Record;
use std::alloc::Allocator;

/// Takes a byte of a data message that ends no number, as `step` does. Whether it was one; else nothing has changed.
///
/// Most bytes of a recording are such bytes, and they need nothing but the position.
pub(crate) fn take_inside<A: Allocator>(
    position: &mut Position,
    in_progress: &Option<Record<A>>,
    byte: u8,
) -> bool
    requires { 0 < position.old.room }
    ensures taken { (e : Environment A) → result ≡ true
        → step e (tests_of e) (state_at position.old in_progress.now) byte
        ≡ Ok (state_at position.new in_progress.now, None) }
    ensures same { result ≡ false → position.new ≡ position.old }
{
    if !is_message(in_progress) {
        return false;
    }
    let count = position.partial.len();
    let next = match position.phase {
        Phase::FieldItems { place, width, left } if ends_no_number(count, width, left) => {
            Phase::FieldItems {
                place,
                width,
                left: left - 1,
            }
        }
        Phase::DevItems { place, width, left } if ends_no_number(count, width, left) => {
            Phase::DevItems {
                place,
                width,
                left: left - 1,
            }
        }
        _ => return false,
    };
    position.phase = next;
    position.room -= 1;
    position.partial.push(byte);
    true
}

/// Whether a data message is in progress.
fn is_message<A: Allocator>(in_progress: &Option<Record<A>>) -> bool
    ensures { result ≡ true → in_progress.now ≡ Some (Data (values_of in_progress.now)) }
{
    match in_progress {
        Some(Record::Values(_)) => true,
        _ => false,
    }
}

/// Whether a byte after that many of a number of this width leaves some of the number to come.
fn ends_no_number(count: usize, width: u8, left: u8) -> bool
    ensures { result ≡ true → (count < 7) × (count + 1 < width) × (1 < left) }
{
    count < 7 && count + 1 < usize::from(width) && left > 1
}
