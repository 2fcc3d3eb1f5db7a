//! Laws of looking back over records. These functions do nothing: what they ensure is what they are for.
ghost use Rattle.fit_profile.specs.Laws.{FirstIsLeast, LookingBackIsLearning};

use std::alloc::Allocator;

/// Header times and accumulated values are the least numbers at or after the previous ones that leave
/// the given rest.
#[tactic(auto, using(crate::proofs::LeastFacts::least_is_least))]
pub fn first_is_least()
    ensures { FirstIsLeast }
{}

/// Looking back over records, latest first, is learning them in their order.
#[tactic(auto, using(crate::proofs::KnownFacts::known_learned))]
pub fn looking_back_is_learning<A: Allocator>()
    ensures { LookingBackIsLearning A }
{}
