//! A reporter that makes no text.
ghost use Rattle.fit_stream.specs.Answers.{no_line};

use fit_decode::{Decoder, Event};
use fit_report::Report;
use std::alloc::AllocError;

/// Makes no text, and lets the decoder pass over whole records.
#[derive(Drop)]
pub(crate) struct SilentReport {}

impl Report for SilentReport {
    ghost has_heard = { λ r heard. Unit {0} };

    ghost line = { no_line };

    fn tell(&mut self, event: &Event, text: &mut Vec<u8>) -> Result<(), AllocError> {
        match event {
            Event::More => Ok(()),
            Event::Header(..) => Ok(()),
            Event::Item(_) => Ok(()),
            Event::FileEnd => Ok(()),
        }
    }

    fn skip(
        &mut self,
        decoder: &mut Decoder,
        piece: &[u8],
        text: &mut Vec<u8>,
    ) -> Result<usize, AllocError> {
        let (used, _) = decoder.skip_records(piece);
        Ok(used)
    }
}
