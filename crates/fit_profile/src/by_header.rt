//! What a stream knows of a data message by its header and the plan of its definition, without a look at its fields.
ghost use Rattle.std.specs.Prelude.{IsTrue};
ghost use Rattle.std.specs.Global.{Global};
ghost use Rattle.fit_record.specs.Environment.{Environment};
ghost use Rattle.fit_record.specs.Records.{IsRecord};
ghost use Rattle.fit_record.specs.declared.message.Record.TheVariants.{Values as Data};
ghost use Rattle.fit_record.specs.declared.message.Values.{Values};
ghost use Rattle.fit_profile.specs.inner.Plans.{ArePlanned, IsSilentMessage};

use crate::plan::Plans;

/// The greatest record header that is the local message type of a data message alone.
const LAST_PLAIN: u8 = 15;

/// Whether the data message that the bytes are tells nothing, and is no record message.
#[inline(always)]
pub(crate) fn is_silent(plans: &Plans, bytes: &[u8]) -> bool
    ensures { IsTrue result → (e : Environment Global) (v : Values Global)
        → ArePlanned plans.now.places.items e.places → IsRecord e (Data v) bytes.now
        → IsSilentMessage e v }
{
    let Some(byte) = bytes.first() else {
        return false;
    };
    if *byte > LAST_PLAIN {
        return false;
    }
    match plans.at(*byte) {
        Some(plan) => plan.is_silent,
        None => false,
    }
}
