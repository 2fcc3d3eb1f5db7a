//! Messages of fields alone, made field by field.
ghost use Rattle.std.specs.Prelude.{◌≡◌, ◌<◌, ◌≤◌, ◌++◌, ◌∷◌, [], IfErr, IfOk, OnOk, length};
ghost use Rattle.fit_base.specs.BaseTypes.{item_width};
ghost use Rattle.fit_writer.specs.Describing.{IsAdded, byte_field, plain_reading, text_fields};
ghost use Rattle.fit_writer.specs.inner.Describing.{Becomes};
ghost use Rattle.fit_writer.specs.inner.OpenFiles.{IsGoodOpenFile};
ghost use Rattle.fit_writer.specs.inner.Forms.{some_text};
ghost use Rattle.fit_writer.specs.inner.Plain.{IsUnadded};

use crate::Refusal;
use crate::file::OpenFile;
use crate::placing::put_placed;
use fit_base::{Entries, Order};
use fit_from_messages::{LoneDefinition, Slot};
use fit_record::{FieldDef, MessageDef};
use std::alloc::{AllocError, Global};
use std::marker::Model;

/// The base type codes of a number of one byte and of a text.
const UINT8: u8 = 0x02;

const STRING: u8 = 0x07;

/// A message that is made field by field. A contract sees its fields with their items.
#[derive(Drop)]
pub(crate) struct Plain {
    fields: Entries<FieldDef>,
    slots: Entries<Slot>,
    block: Vec<u8>,
}

impl Model for Plain {
    ghost use Rattle.std.specs.Prelude.{List};
    ghost use Rattle.std.specs.Global.{Global};
    ghost use Rattle.fit_base.specs.declared.items.Items.{Items};
    ghost use Rattle.fit_record.specs.declared.definition.FieldDef.{FieldDef};
    ghost use Rattle.fit_writer.specs.inner.Plain.{IsMade, fields_made};

    ghost Value = { List (FieldDef × Items Global) };

    ghost view = { λ m. fields_made m.fields m.slots m.block.items };

    ghost invariant = { λ m. IsMade m.fields m.slots m.block.items };
}

impl Plain {
    /// No field.
    pub(crate) fn new(alloc: Global) -> Plain
        ensures { result ≡ [] }
    {
        Plain {
            fields: Entries::new(alloc),
            slots: Entries::new(alloc),
            block: Vec::new(alloc),
        }
    }

    /// With one field more, whose items are these bytes.
    fn with(self, number: u8, code: u8, bytes: &[u8]) -> Result<Plain, AllocError>
        requires number { number < 253 }
        requires width { item_width code (length bytes.now) ≡ 1 }
        requires few { length self < 255 }
        requires short { length bytes.now ≤ 255 }
        ensures { IfOk result (λ m. m ≡ self ++ (
          record { number = number; size = length bytes.now; code = code },
          record { width = 1; bits = bytes.now },
        ) ∷ []) }
    {
        let Plain {
            mut fields,
            mut slots,
            mut block,
        } = self;
        slots.push(Slot {
            place: block.len() as u32,
            width: 1,
            count: bytes.len() as u8,
        })?;
        fields.push(FieldDef {
            number,
            size: bytes.len() as u8,
            code,
        })?;
        block.extend_from_slice(bytes)?;
        Ok(Plain {
            fields,
            slots,
            block,
        })
    }

    /// With one number more.
    pub(crate) fn with_byte(self, number: u8, value: u8) -> Result<Plain, AllocError>
        requires number { number < 253 }
        requires few { length self < 255 }
        ensures { IfOk result (λ m. m ≡ self ++ byte_field number value ∷ []) }
    {
        self.with(number, UINT8, &[value])
    }

    /// With one text more, unless it is empty.
    pub(crate) fn with_text(
        self,
        alloc: Global,
        number: u8,
        text: &[u8],
    ) -> Result<Plain, AllocError>
        requires number { number < 253 }
        requires few { length self < 255 }
        requires short { length text.now < 255 }
        ensures { IfOk result (λ m. m ≡ self ++ text_fields number (some_text text.now)) }
    {
        if text.is_empty() {
            return Ok(self);
        }
        let mut bytes = Vec::new(alloc);
        bytes.extend_from_slice(text)?;
        bytes.push(0)?;
        self.with(number, STRING, bytes.as_slice())
    }

    /// Puts it into a file as a message of this global number, for this local message type if that is free.
    pub(crate) fn put(
        self,
        alloc: Global,
        file: &mut OpenFile,
        local: u8,
        global: u16,
    ) -> Result<(), Refusal>
        requires good { IsGoodOpenFile file.old }
        requires local { local < 16 }
        requires few { length self < 256 }
        ensures ok { OnOk result (Becomes file.old file.new
            (λ before after. IsAdded before after local (plain_reading global self))) }
        ensures good { IsGoodOpenFile file.new }
        ensures err { IfErr result
            (IsUnadded file.old file.new local (plain_reading global self)) }
    {
        let Plain {
            fields,
            slots,
            block,
        } = self;
        let definition = MessageDef {
            local,
            reserved: 0,
            order: Order::Little,
            global,
            fields,
            dev: None,
        };
        let lone = LoneDefinition {
            definition,
            codes: Entries::new(alloc),
            slots,
            dev: &[],
        };
        put_placed(alloc, file, &lone, None, block.as_slice())
    }
}
