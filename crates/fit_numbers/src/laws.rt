//! Laws of scaled values, of texts, and of instants. These functions do nothing: what they ensure is what they are for.
ghost use Rattle.fit_numbers.specs.Laws.{InstantHasOneText, TextHasOneNumber, ScaledValueIsOne, DegreesAreOne};

/// An instant has one text.
#[tactic(auto, using(crate::proofs::DayFacts::one_instant_text))]
pub fn instant_has_one_text()
    ensures { InstantHasOneText }
{}

/// A text with a fixed number of decimals is that of one number at most.
#[tactic(auto, using(crate::proofs::ScanFacts::one_number))]
pub fn text_has_one_number()
    ensures { TextHasOneNumber }
{}

/// A raw value stands for one number.
#[tactic(auto, using(crate::proofs::ScaleFacts::one_scaled))]
pub fn scaled_value_is_one()
    ensures { ScaledValueIsOne }
{}

/// A number of semicircles is one number of degrees.
#[tactic(auto, using(crate::proofs::DegreeFacts::one_degrees))]
pub fn degrees_are_one()
    ensures { DegreesAreOne }
{}
