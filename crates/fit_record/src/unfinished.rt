//! Whether an unfinished record can be completed so that records fill the room after it.
ghost use Rattle.std.specs.Prelude.{◌≡◌, ◌<◌, length};
ghost use Rattle.std.specs.declared.alloc.Global.{Global};
ghost use Rattle.fit_record.specs.Environment.{Environment};
ghost use Rattle.fit_record.specs.RoomAnswers.{AnswersDevFields, AnswersDevNumber, AnswersFields, AnswersFront, AnswersMessage};
ghost use Rattle.fit_record.specs.Unfinished.{finishes, can_complete, can_complete_dev, can_complete_front, can_carry};

use crate::Env;
use crate::environment::Defined;
use std::alloc::Allocator;

impl<A: Allocator> Env<A> {
    /// Whether records can fill the room after a data message of this local message type, where
    /// its record header has come and `room` is what is left of the data section then (section
    /// "Data Message"). No where the local message type isn't defined, and where the message is
    /// longer than the room.
    ///
    /// Each of the message's bytes may be any, so the result holds until its last one.
    pub fn can_carry(&self, local: u8, room: u32) -> bool
        ensures test { result ≡ can_carry self.now local room }
        ensures message { AnswersMessage self.now local room result }
        ensures places { length self.now.places ≡ 16 }
    {
        match self.length(local) {
            Some(size) => size <= room && self.can_fill(room - size),
            None => false,
        }
    }

    /// Whether a definition message can be completed so that records fill the room after it, where
    /// `to_come` bytes of its entries and nothing else are to come (section "Definition Message").
    /// `local` is its local message type, `size` the sum of the sizes that have come, and `room`
    /// what is left of the data section.
    ///
    /// A size that is to come is chosen as suits the room. The definition message takes the place
    /// of the one that its local message type had.
    pub fn can_complete(&self, local: u8, to_come: u32, size: u32, room: u32) -> bool
        requires { local < 16 }
        ensures test { result ≡ can_complete self.now local to_come size room }
        ensures fields { AnswersFields self.now local to_come size room result }
        ensures dev_fields { AnswersDevFields self.now local to_come size room result }
    {
        // The check knows that there are sixteen places where they are named.
        let _: &[Option<Defined<A>>] = &self.places;
        self.completes(local, to_come, size, room)
    }

    /// What `can_complete` returns, by the test alone.
    fn completes(&self, local: u8, to_come: u32, size: u32, room: u32) -> bool
        requires { local < 16 }
        ensures { result ≡ can_complete self.now local to_come size room }
    {
        if room < to_come {
            return false;
        }
        self.finishes(local, to_come, size, room - to_come)
    }

    /// Whether a definition message can be completed so that records fill the room after it, where
    /// `to_come` bytes of its entries are to come, and then the number of its developer fields, which
    /// is chosen as suits the room (section "Developer Fields"). `local`, `size` and `room` are those
    /// of `can_complete`.
    pub fn can_complete_dev(&self, local: u8, to_come: u32, size: u32, room: u32) -> bool
        requires { local < 16 }
        ensures test { result ≡ can_complete_dev self.now local to_come size room }
        ensures dev_number { AnswersDevNumber self.now local to_come size room result }
    {
        let _: &[Option<Defined<A>>] = &self.places;
        self.completes_dev(local, to_come, size, room)
    }

    /// What `can_complete_dev` returns, by the test alone.
    fn completes_dev(&self, local: u8, to_come: u32, size: u32, room: u32) -> bool
        requires { local < 16 }
        ensures { result ≡ can_complete_dev self.now local to_come size room }
    {
        if room <= to_come {
            return false;
        }
        let left = room - (to_come + 1);
        if self.finishes(local, to_come, size, left) {
            return true;
        }
        if left < 3 {
            return false;
        }
        self.can_fill_from(local, size, left - 3)
    }

    /// Whether what is left after a definition message can be filled.
    fn finishes(&self, local: u8, to_come: u32, size: u32, left: u32) -> bool
        requires { local < 16 }
        ensures { result ≡ finishes self.now local to_come size left }
    {
        if to_come < 2 {
            self.can_fill_with(local, size, left)
        } else {
            self.can_fill_from(local, size, left)
        }
    }
}

/// Whether a definition message, with or without developer fields, can be completed so that records
/// fill the room after it, where `come` bytes after its record header have come and the number of
/// its fields has not.
pub fn can_complete_front(dev: bool, come: u32, room: u32) -> bool
    requires { come < 5 }
    ensures test { result ≡ can_complete_front dev come room }
    // Whatever was defined before; what allocator it is kept by plays no part.
    ensures front { (e : Environment Global) → length e.places ≡ 16
        → AnswersFront e dev come room result }
{
    completes_front(dev, come, room)
}

/// What `can_complete_front` returns, by the test alone.
fn completes_front(dev: bool, come: u32, room: u32) -> bool
    requires { come < 5 }
    ensures { result ≡ can_complete_front dev come room }
{
    let least = if dev { 6 } else { 5 };
    least - come <= room
}
