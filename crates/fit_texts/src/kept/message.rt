//! What is kept of a definition and its developer fields.
ghost use Rattle.std.specs.Prelude.{◌≡◌, ◌↔◌, IfOk, IsTrue, Some, length};
ghost use Rattle.fit_record.specs.Environment.{defined_at};
ghost use Rattle.fit_record.specs.Sound.{IsSound};
ghost use Rattle.fit_profile.specs.Looks.{known};
ghost use Rattle.fit_texts.specs.MessageKeys.{message_key};

use crate::kept::Kept;
use crate::kept::developer::{KeptDev, are_devs, kept_devs};
use crate::words::dev_slice;
use fit_profile::Stream;
use fit_record::Defined;
use std::alloc::{AllocError, Global};
use std::marker::Model;

/// A definition of a local message type and its developer fields, as far as the text around the values of its messages depends on
/// them.
#[derive(Drop)]
pub struct KeptMessage {
    pub own: Kept,
    pub devs: Vec<KeptDev>,
}

impl Model for KeptMessage {
    ghost use Rattle.fit_texts.specs.MessageKeys.{MessageKey};

    ghost Value = { MessageKey };

    ghost view = { λ m. record { own = m.own; devs = m.devs.items } };
}

impl KeptMessage {
    /// It keeps the definition of this local message type after the records of a stream.
    pub fn new(
        alloc: Global,
        stream: &Stream,
        local: u8,
        defined: &Defined,
    ) -> Result<KeptMessage, AllocError>
        requires place { defined_at (known stream.now) local ≡ Some defined.now }
        requires sound { IsSound defined.now }
        ensures { IfOk result (λ m. m ≡ message_key stream.now local defined.now) }
    {
        let definition = &defined.definition;
        let dev = dev_slice(&definition.dev);
        let codes = defined.dev_codes.as_slice();
        Ok(KeptMessage {
            own: Kept::new(alloc, local, definition)?,
            devs: kept_devs(alloc, stream, local, dev, codes)?,
        })
    }

    /// Whether it is the definition of this local message type after the records of a stream.
    pub fn is(&self, stream: &Stream, local: u8, defined: &Defined) -> bool
        requires place { defined_at (known stream.now) local ≡ Some defined.now }
        requires sound { IsSound defined.now }
        ensures { IsTrue result ↔ (self.now ≡ message_key stream.now local defined.now) }
    {
        let definition = &defined.definition;
        let dev = dev_slice(&definition.dev);
        let codes = defined.dev_codes.as_slice();
        self.own.is(local, definition) && are_devs(self.devs.as_slice(), stream, local, dev, codes)
    }

    /// About how many bytes of memory it takes.
    pub fn memory(&self) -> usize {
        let mut memory = self.own.fields.capacity().saturating_mul(3);
        for dev in self.devs.as_slice() {
            memory = memory.saturating_add(dev.memory());
        }
        memory
    }

    /// The local message type.
    pub fn local(&self) -> u8
        ensures { result ≡ self.now.own.local }
    {
        self.own.local
    }

    /// How many fields there are that no developer has.
    pub fn count(&self) -> usize
        ensures { result ≡ length self.now.own.fields }
    {
        self.own.fields.len()
    }
}
