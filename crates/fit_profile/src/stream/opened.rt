//! Data messages that are opened in their bytes, before a stream takes them in.
ghost use Rattle.std.specs.Prelude.{◌≡◌, ◌≤◌, IfSome};
ghost use Rattle.std.specs.declared.alloc.Global.{Global};
ghost use Rattle.fit_record.specs.MessageBytes.{message_in};
ghost use Rattle.fit_record.specs.Records.{IsRecord};
ghost use Rattle.fit_record.specs.declared.message.Values.{Values};
ghost use Rattle.fit_record.specs.declared.message.Record.TheVariants.{Values as Data};
ghost use Rattle.fit_names.specs.Values.{IsAmount};
ghost use Rattle.fit_profile.specs.Looks.{known};
ghost use Rattle.fit_profile.specs.Opened.{IsOpened, TellsNext};
ghost use Rattle.fit_profile.specs.Told as telling;

use super::Stream;
use crate::message_bytes::{Tells, plan_of, speed_and_distance, time_of_message};
use fit_names::in_scale;
use fit_numbers::Fixed;
use fit_record::MessageBytes;

impl Stream {
    /// Opens the next record where it is the data message that these bytes are: finds the definition by which it is read.
    #[inline(always)]
    pub fn open<'a>(&'a self, bytes: &'a [u8]) -> MessageBytes<'a>
        requires { (v : Values Global) × IsRecord (known self.now) (Data v) bytes.now }
        ensures opened { IsOpened self.now result }
        ensures read { (v : Values Global) → IsRecord (known self.now) (Data v) bytes.now
            → message_in result ≡ v }
    {
        self.env.open(bytes)
    }

    /// What an opened data message tells of those after it: its time, as of `time`, and whether it may tell more.
    #[inline(always)]
    pub fn tells(&self, message: &MessageBytes<'_>) -> Tells
        requires { IsOpened self.now message.now }
        ensures { TellsNext self.now (message_in message.now) result }
    {
        let plan = plan_of(&self.plans, message);
        Tells {
            time: time_of_message(&self.last, plan, message),
            more: plan.tells_more,
        }
    }

    /// The speed in compressed_speed_distance in m/s and the distance accumulated from it in m, of an opened data message, as
    /// `Message::speed` and `Message::distance` give them.
    pub fn message_amounts(&self, message: &MessageBytes<'_>) -> (Option<Fixed>, Option<Fixed>)
        requires { IsOpened self.now message.now }
        ensures speed { IsAmount 100 (telling.told self.now (message_in message.now)).speed
            result.0 }
        ensures distance { IsAmount 16 (telling.told self.now (message_in message.now)).distance
            result.1 }
        ensures few_speed { IfSome result.0 (λ v. v.decimals ≤ 8) }
        ensures few_distance { IfSome result.1 (λ v. v.decimals ≤ 8) }
    {
        let (speed, distance) = speed_and_distance(&self.plans, self.last, message);
        (in_scale(speed, 100), in_scale(distance, 16))
    }
}
