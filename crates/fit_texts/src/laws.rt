//! What holds of the computed texts of instants.
ghost use Rattle.fit_texts.specs.Laws.{InstantTextIs};

/// The text of an instant that is computed by years and months is its text.
pub fn instant_text_is()
    ensures { InstantTextIs }
{}
