//! What holds of streams and their texts. These functions do nothing: what they ensure is what they are for.
ghost use Rattle.fit_stream.specs.Laws.{ReportsAreFound, StreamsFindOne, StreamsOfRows};

use fit_decode::laws::{events_are_one, progress_is_one, reasons_are_one};
use std::alloc::Global;

/// What a stream hands out of a table, or of all rows, is their CSV text.
pub fn streams_of_rows()
    ensures { StreamsOfRows }
{}

/// What a stream finds of some bytes, and the text of it, don't depend on how the bytes were split, unless memory is refused.
pub fn streams_find_one()
    ensures { StreamsFindOne }
{
    events_are_one::<Global>();
    reasons_are_one::<Global>();
    progress_is_one::<Global>();
}

/// What `report` puts and answers of some bytes is what a stream finds of them, unless memory is refused, or the source or the sink fails.
pub fn reports_are_found()
    ensures { ReportsAreFound }
{
    streams_find_one();
}
