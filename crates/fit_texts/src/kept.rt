//! What is kept of a definition, so that what is made of it serves its later messages too.
ghost use Rattle.std.specs.Prelude.{◌≡◌, ◌↔◌, IfOk, IsTrue};

pub(crate) mod developer;
mod fields;
pub(crate) mod message;

use crate::kept::fields::are_same_fields;
use fit_record::{FieldDef, MessageDef};
use std::alloc::{AllocError, Global};
use std::marker::Model;

/// A definition of a local message type, as far as the text around the values of its fields depends on it.
#[derive(Drop)]
pub struct Kept {
    pub local: u8,
    pub global: u16,
    pub fields: Vec<FieldDef>,
}

impl Model for Kept {
    ghost use Rattle.fit_texts.specs.MessageKeys.{TemplateKey};

    ghost Value = { TemplateKey };

    ghost view = { λ k. record { local = k.local; global = k.global; fields = k.fields.items } };
}

impl Kept {
    /// It keeps this definition.
    pub(crate) fn new(alloc: Global, local: u8, definition: &MessageDef) -> Result<Kept, AllocError>
        ensures { IfOk result (λ k. k ≡ record {
          local = local;
          global = definition.now.global;
          fields = definition.now.fields;
        }) }
    {
        let mut fields = Vec::new(alloc);
        fields.extend_from_slice(definition.fields.as_slice())?;
        Ok(Kept {
            local,
            global: definition.global,
            fields,
        })
    }

    /// Whether it is this definition.
    pub(crate) fn is(&self, local: u8, definition: &MessageDef) -> bool
        ensures { IsTrue result ↔ (self.now ≡ record {
          local = local;
          global = definition.now.global;
          fields = definition.now.fields;
        }) }
    {
        self.local == local
            && self.global == definition.global
            && are_same_fields(self.fields.as_slice(), definition.fields.as_slice())
    }
}
