//! What holds of events and refusals. These functions do nothing: what they ensure is what they are for.
ghost use Rattle.fit_record.specs.Laws.{FilesHaveOneSpelling};
ghost use Rattle.fit_chain.specs.Laws.{BoundsAreLimited, ChainsGoOn, EventsAreOne, FilesEndNoSooner, FirstFilesAreFiles, ProgressIsOne, ReasonsAreOne, RefusedHaveReasons, ViableHaveEvents};

use std::alloc::Allocator;

/// A file and its bytes determine each other, and no file's bytes begin another's: the law of `fit_record` of the same name.
#[tactic(auto, using(crate::proofs::Common::one_file))]
pub fn files_have_one_spelling<A: Allocator>()
    ensures { FilesHaveOneSpelling A }
{}

/// Bytes have come to one place in a chain: what `held`, `need` and refused memory say of it, they say of the only one.
#[tactic(auto, using(crate::proofs::OnePlace::one_place))]
pub fn progress_is_one<A: Allocator>()
    ensures { ProgressIsOne A }
{}

/// The bytes of a chain that have come have one list of events.
pub fn events_are_one<A: Allocator>()
    ensures { EventsAreOne A }
{}

/// Bytes with which some chain begins have events.
pub fn viable_bytes_have_events<A: Allocator>()
    ensures { ViableHaveEvents A }
{}

/// A byte is refused for one reason at most.
pub fn reasons_are_one<A: Allocator>()
    ensures { ReasonsAreOne A }
{}

/// A byte with which no chain begins, after bytes with which one does, is refused for a reason. With `reasons_are_one`
/// it has exactly one.
#[tactic(auto, using(crate::proofs::HasReason::has_reason))]
pub fn refused_bytes_have_reasons<A: Allocator>()
    ensures { RefusedHaveReasons A }
{}

/// Some chain of at most that many files begins with the bytes that have come exactly where what there is of it can go on:
/// a header of a file begins with those of the header, records fill the data section after those that are whole, or the
/// closing checksum begins so.
pub fn chains_go_on<A: Allocator>()
    ensures { ChainsGoOn A }
{}

/// No file ends before as many more bytes have come as `need` says.
pub fn files_end_no_sooner<A: Allocator>()
    ensures { FilesEndNoSooner A }
{}

/// Bytes in which no file is whole begin a chain exactly where they begin a file.
pub fn first_files_are_files<A: Allocator>()
    ensures { FirstFilesAreFiles A }
{}

/// What a reader has to hold is limited: 16 definitions of 510 entries, 65,536 descriptions, and one record of 510
/// entries and 130,050 items.
#[tactic(auto, using(crate::proofs::HeldLimit::limited_bound))]
pub fn bounds_are_limited<A: Allocator>()
    ensures { BoundsAreLimited A }
{}
