//! The template of a definition's messages, found out once for many of them.
ghost use Rattle.std.specs.Prelude.{◌≡◌, IsTrue, Some};
ghost use Rattle.fit_record.specs.Environment.{defined_at};
ghost use Rattle.fit_record.specs.Sound.{IsSound};
ghost use Rattle.fit_profile.specs.Looks.{known};
ghost use Rattle.fit_texts.specs.MessageKeys.{message_key};

use crate::template::Template;
use fit_profile::Stream;
use fit_record::Defined;
use fit_shown::Pen;
use fit_text_report::Finding;
use std::alloc::AllocError;

/// Whether what was found before is the template of the definition of this local message type after the records of a stream.
fn is_found(found: &Option<Template>, stream: &Stream, local: u8, defined: &Defined) -> bool
    requires place { defined_at (known stream.now) local ≡ Some defined.now }
    requires sound { IsSound defined.now }
    ensures { IsTrue result → found.now ≡ Some (message_key stream.now local defined.now) }
{
    match found {
        Some(template) => template.is_of(stream, local, defined),
        None => false,
    }
}

impl Finding for Template {
    ghost use Rattle.fit_texts.specs.MessageKeys.{key_of};

    type Tools = Pen;

    ghost found_of = { key_of };

    fn find(
        found: &mut Option<Self>,
        tools: &mut Pen,
        stream: &Stream,
        local: u8,
        defined: &Defined,
    ) -> Result<(), AllocError> {
        if is_found(found, stream, local, defined) {
            return Ok(());
        }
        let template = Template::new(tools, stream, local, defined)?;
        *found = Some(template);
        Ok(())
    }

    fn memory(&self) -> usize {
        self.memory()
    }
}
