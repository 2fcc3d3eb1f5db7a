//! What holds of the bytes of records, one after another. These functions do nothing: what they ensure is what they are
//! for.
ghost use Rattle.fit_step.specs.InProgress.{HeldIsLimited, HeldIsOfBytes, IdleIsBetweenRecords, RecordsBegin, RecordsInProgress, RefusedBytesHaveReasons};
ghost use Rattle.fit_step.specs.Laws.{BeginningsStand, PartsAreTested, RecordsEnd, RefusedBytesEndAll, TakenBytesEnd, TakenBytesGoOn, TakenBytesStand};

use std::alloc::Allocator;

/// A record after which records can fill the room ends with its last byte and not before.
#[tactic(auto, using(crate::proofs::TakenAndRefusedBytes::records_end))]
pub fn records_end<A: Allocator>()
    ensures { RecordsEnd A }
{}

/// The test `goes_on` is true of a part of a record exactly where some bytes complete the record so that records fill the rest of
/// the room.
#[tactic(auto, using(crate::proofs::TakenAndRefusedBytes::parts_are_tested))]
pub fn parts_are_tested<A: Allocator>()
    ensures { PartsAreTested A }
{}

/// A byte that isn't refused leaves what can still become a record, or is one, so that records fill the room.
pub fn taken_bytes_go_on<A: Allocator>()
    ensures part { TakenBytesGoOn A }
    ensures whole { TakenBytesEnd A }
{}

/// A reader that begins a record, or has taken a byte, is at a part of a record whose rest is within the room.
pub fn readers_stand<A: Allocator>()
    ensures begin { BeginningsStand A }
    ensures go_on { TakenBytesStand A }
{}

/// A byte is refused for the reason of its place, and then no record begins with it so that records fill the room.
pub fn refused_bytes_end_all<A: Allocator>()
    ensures { RefusedBytesEndAll A }
{}

/// Where a record begins nothing is in progress. After some bytes what is kept is no complete record, and records that fill the
/// room begin with these bytes; nothing is kept exactly where no byte has come.
pub fn records_are_in_progress<A: Allocator>()
    ensures begin { RecordsBegin A }
    ensures go_on { RecordsInProgress A }
    ensures idle { IdleIsBetweenRecords A }
{}

/// A byte with which no records can fill the room has a reason.
#[tactic(auto, using(crate::proofs::RecordsInProgress::refused_bytes_have_reasons))]
pub fn refused_bytes_have_reasons<A: Allocator>()
    ensures { RefusedBytesHaveReasons A }
{}

/// What is kept of a record in progress is what is complete in its bytes, and is limited.
pub fn held_is_of_bytes<A: Allocator>()
    ensures held { HeldIsOfBytes A }
    ensures limited { HeldIsLimited A }
{}
