//! Laws of the faults. These functions do nothing: what they ensure is what they are for.
ghost use Rattle.fit_encode.specs.Laws.{BadChainsHaveAFault, FaultsAreOne, GoodChainsHaveNoFault};

use fit_record::laws::faults_are_exact;
use std::alloc::Allocator;

/// Files that can be written as a chain have no fault.
#[tactic(auto, using(crate::proofs::NoFault::no_fault))]
pub fn good_chains_have_no_fault<A: Allocator>()
    ensures { GoodChainsHaveNoFault A }
{
    faults_are_exact::<A>();
}

/// Files have one first fault at most.
#[tactic(auto, using(crate::proofs::OneFault::one_fault))]
pub fn faults_are_one<A: Allocator>()
    ensures { FaultsAreOne A }
{
    faults_are_exact::<A>();
}

/// Files can be written as a chain, or they have a first fault.
#[tactic(auto, using(crate::proofs::SomeFault::some_fault))]
pub fn bad_chains_have_a_fault<A: Allocator>()
    ensures { BadChainsHaveAFault A }
{
    faults_are_exact::<A>();
}
