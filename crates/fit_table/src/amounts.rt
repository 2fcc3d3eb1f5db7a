//! What record messages tell of a distance to accumulate, found out from their bytes.
ghost use Rattle.fit_record.specs.MessageBytes.{message_in};
ghost use Rattle.fit_profile.specs.Opened.{IsOpened};
ghost use Rattle.fit_profile.specs.Told.{told};
ghost use Rattle.fit_table.specs.inner.TableColumns.{AreAmounts};

use fit_profile::{Fixed, Stream};
use fit_record::MessageBytes;

/// The speed in compressed_speed_distance in m/s, and the distance accumulated from it in m.
#[derive(Clone, Copy)]
pub(crate) struct Amounts {
    pub speed: Option<Fixed>,
    pub distance: Option<Fixed>,
}

impl Amounts {
    /// Those of a data message that is opened after the records of a stream.
    pub(crate) fn of(stream: &Stream, message: &MessageBytes<'_>) -> Amounts
        requires { IsOpened stream.now message.now }
        ensures { AreAmounts result (told stream.now (message_in message.now)) }
    {
        let (speed, distance) = stream.message_amounts(message);
        Amounts { speed, distance }
    }
}
