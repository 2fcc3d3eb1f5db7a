//! Data messages that a stream takes in by their bytes, without a look at their fields, or without another one.
ghost use Rattle.std.specs.Prelude.{◌≡◌, ◌≢◌, ◌∷◌, false, IsOk, IsSomeAnd, IsTrue, OnErr, OnOk};
ghost use Rattle.std.specs.declared.alloc.Global.{Global};
ghost use Rattle.fit_record.specs.Environment.{DescribesNothing, defined_at};
ghost use Rattle.fit_record.specs.Records.{IsRecord};
ghost use Rattle.fit_record.specs.declared.message.Values.{Values};
ghost use Rattle.fit_record.specs.declared.message.Record.TheVariants.{Values as Data};
ghost use Rattle.fit_profile.specs.Looks.{known};
ghost use Rattle.fit_profile.specs.Opened.{TellsNext};

use super::Stream;
use crate::by_header::is_silent;
use crate::message_bytes::{Tells, add_bytes};
use crate::told::note_time;
use std::alloc::AllocError;

impl Stream {
    /// Takes the next record in, as `take_message` does, where it is a data message that tells nothing, and no record message. Says
    /// whether it is; else it is left.
    #[inline(always)]
    pub fn pass_message(&mut self, bytes: &[u8]) -> bool
        requires { (v : Values Global) × IsRecord (known self.old) (Data v) bytes.now }
        ensures passed { IsTrue result → (v : Values Global)
            → IsRecord (known self.old) (Data v) bytes.now → self.new ≡ Data v ∷ self.old }
        ensures other { IsTrue result → (v : Values Global)
            → IsRecord (known self.old) (Data v) bytes.now
            → IsSomeAnd (defined_at (known self.old) v.local) (λ p. p.definition.global ≢ 20) }
        ensures kept { result ≡ false → self.new ≡ self.old }
    {
        if !is_silent(&self.plans, bytes) {
            return false;
        }
        add_bytes(&self.env, &mut self.pushed, bytes);
        true
    }

    /// Takes the next record in, as `take_message` does, where it was opened before and tells this.
    #[inline(always)]
    pub fn take_opened(&mut self, bytes: &[u8], tells: Tells) -> Result<(), AllocError>
        requires { (v : Values Global) × IsRecord (known self.old) (Data v) bytes.now
            × TellsNext self.old v tells }
        ensures ok { OnOk result ((v : Values Global)
            → IsRecord (known self.old) (Data v) bytes.now → self.new ≡ Data v ∷ self.old) }
        ensures err { OnErr result (self.new ≡ self.old) }
        // No memory is taken for a message that describes no developer field.
        ensures free { (v : Values Global) → IsRecord (known self.old) (Data v) bytes.now
            → DescribesNothing (known self.old) (Data v) → IsOk result }
    {
        if tells.more {
            return self.take_message(bytes);
        }
        note_time(&mut self.last, tells.time);
        add_bytes(&self.env, &mut self.pushed, bytes);
        Ok(())
    }
}
