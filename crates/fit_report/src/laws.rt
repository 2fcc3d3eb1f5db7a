//! What holds of the events that a reporter hears. These functions do nothing: what they ensure is what they are for.
ghost use Rattle.fit_report.specs.Laws.{HeardAreFew, HeardRecordsFit};

use std::alloc::Allocator;

/// A record that is heard fits what the records of its file before it have defined.
pub fn heard_records_fit<A: Allocator>()
    ensures { HeardRecordsFit A }
{}

/// Fewer than 2^57 events are heard, so that a count of them or of some of them has room in 64 bits.
#[tactic(auto, using(crate::proofs::Records::heard_are_few))]
pub fn heard_are_few<A: Allocator>()
    ensures { HeardAreFew A }
{}
