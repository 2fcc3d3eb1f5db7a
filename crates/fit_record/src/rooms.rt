//! Which rooms records can fill. The room is the number of bytes of the data section that are to
//! come.
ghost use Rattle.std.specs.Prelude.{◌≡◌, ◌↔◌, ◌<◌, ◌+◌, ◌==◌, ◌||◌, IsTrue, length, slice_index_or, slice_set, false, None};
ghost use Rattle.fit_record.specs.Environment.{defined_at};
ghost use Rattle.fit_record.specs.Files.{CanFill};
ghost use Rattle.fit_record.specs.Rooms.{fills, has_length_at, has_length, others_have, can_fill_with, can_fill_from};

use crate::Env;
use crate::environment::Defined;
use std::alloc::Allocator;

impl<A: Allocator> Env<A> {
    /// Whether some records take up just this many bytes.
    ///
    /// No room at all and a room of six bytes or more can be filled: a definition message without
    /// fields has six bytes, and its data messages have one. A smaller room can be filled by data
    /// messages alone, of local message types that are defined (sections "Definition Message" and
    /// "Data Message").
    pub fn can_fill(&self, room: u32) -> bool
        ensures { IsTrue result ↔ CanFill self.now room }
    {
        // The check knows that there are sixteen places where they are named.
        let _: &[Option<Defined<A>>] = &self.places;
        if room > 5 {
            return true;
        }
        let lengths = [
            false,
            self.has_length(1),
            self.has_length(2),
            self.has_length(3),
            self.has_length(4),
            self.has_length(5),
        ];
        is_filled(lengths, room)
    }

    /// Whether some defined data messages have this length, record header included.
    fn has_length(&self, n: u32) -> bool
        ensures value { result ≡ has_length self.now.places n }
        ensures places { length self.now.places ≡ 16 }
    {
        for local in 0..16 {
            if self.has_length_at(local, n) {
                return true;
            }
        }
        false
    }

    /// Whether some defined data messages of another local message type than this have this length.
    fn others_have(&self, local: u8, n: u32) -> bool
        requires { local < 16 }
        ensures { result ≡ others_have self.now local n }
    {
        for other in 0..16 {
            if self.has_length_at(other, n) && other != local {
                return true;
            }
        }
        false
    }

    /// Whether the data messages of a local message type have this length.
    fn has_length_at(&self, local: u8, n: u32) -> bool
        ensures value { result ≡ has_length_at (defined_at self.now local) n }
        ensures places { length self.now.places ≡ 16 }
    {
        match self.length(local) {
            Some(size) => 1 + size == n,
            None => false,
        }
    }

    /// Whether records can fill the room once data messages of this local message type have this
    /// many bytes after the record header.
    pub(crate) fn can_fill_with(&self, local: u8, size: u32, room: u32) -> bool
        requires { local < 16 }
        ensures { result ≡ can_fill_with self.now local size room }
    {
        if room > 5 {
            return true;
        }
        let lengths = [
            false,
            self.has_length_with(local, size, 1),
            self.has_length_with(local, size, 2),
            self.has_length_with(local, size, 3),
            self.has_length_with(local, size, 4),
            self.has_length_with(local, size, 5),
        ];
        is_filled(lengths, room)
    }

    /// Whether some data messages have this length then.
    fn has_length_with(&self, local: u8, size: u32, n: u32) -> bool
        requires local { local < 16 }
        requires length { 0 < n }
        ensures { result ≡ (others_have self.now local n || (1 + size == n)) }
    {
        self.others_have(local, n) || size == n - 1
    }

    /// Whether records can fill the room once data messages of this local message type have this
    /// many bytes or more after the record header, as suits the room.
    pub(crate) fn can_fill_from(&self, local: u8, least: u32, room: u32) -> bool
        requires { local < 16 }
        ensures { result ≡ can_fill_from self.now local least room }
    {
        if room > 5 {
            return true;
        }
        if least < room {
            return true;
        }
        let lengths = [
            false,
            self.others_have(local, 1),
            self.others_have(local, 2),
            self.others_have(local, 3),
            self.others_have(local, 4),
            self.others_have(local, 5),
        ];
        is_filled(lengths, room)
    }
}

/// Whether data messages of the lengths that are marked, and other records, fill the room.
fn is_filled(lengths: [bool; 6], room: u32) -> bool
    ensures { result ≡ fills (λ n. slice_index_or lengths n false) room }
{
    match room {
        1 => lengths[1],
        2 => lengths[1] || lengths[2],
        3 => lengths[1] || lengths[3],
        4 => lengths[1] || lengths[2] || lengths[4],
        5 => lengths[1] || lengths[5] || (lengths[2] && lengths[3]),
        _ => true,
    }
}
