//! What holds of records, files and chains of files. These functions do nothing: what they ensure is
//! what they are for.
ghost use Rattle.fit_record.specs.Laws.{ChainOfOne, FaultsAreExact, FilesHaveOneSpelling, RecordsHaveOneSpelling};
ghost use Rattle.fit_record.specs.RoomLaws.{DevFieldsAreTested, DevNumbersAreTested, FieldsAreTested, FrontsAreTested, HaveSixteenPlaces, MessagesAreTested};

use std::alloc::Allocator;

/// Where one environment is known, a record and its bytes determine each other, and no record's
/// bytes begin another's.
#[tactic(auto, using(crate::proofs::OneRecord::one_record))]
pub fn records_have_one_spelling<A: Allocator>()
    ensures { RecordsHaveOneSpelling A }
{}

/// A record fits just where it has no fault, its numbers being in the ranges of their types.
#[tactic(auto, using(crate::proofs::NoFaultWhereFits::faults_are_exact))]
pub fn faults_are_exact<A: Allocator>()
    ensures { FaultsAreExact A }
{}

/// A file and its bytes determine each other, and no file's bytes begin another's.
#[tactic(auto, using(crate::proofs::OneFile::one_file))]
pub fn files_have_one_spelling<A: Allocator>()
    ensures { FilesHaveOneSpelling A }
{}

/// A chain of at most one file is a file.
pub fn chain_of_one<A: Allocator>()
    ensures { ChainOfOne A }
{}

/// Whatever the records of a file, a reader of them knows sixteen places.
#[tactic(auto, using(crate::proofs::SixteenPlaces::sixteen_places))]
pub fn environments_have_sixteen_places<A: Allocator>()
    ensures { HaveSixteenPlaces A }
{}

/// Which unfinished definition messages can be completed so that records fill the room.
pub fn definitions_are_tested<A: Allocator>()
    ensures front { FrontsAreTested A }
    ensures fields { FieldsAreTested A }
    ensures dev_number { DevNumbersAreTested A }
    ensures dev_fields { DevFieldsAreTested A }
{}

/// Which data messages, with some of their bytes or none, can be completed so that records fill the
/// room.
#[tactic(auto, using(crate::proofs::CarriedMessages::can_carry_is))]
pub fn messages_are_tested<A: Allocator>()
    ensures { MessagesAreTested A }
{}
