//! How many bytes are to come until a file ends.
ghost use Rattle.std.specs.Prelude.{◌≡◌};
ghost use Rattle.fit_decode.specs.inner.Kept.{to_come};

use crate::section::{Section, Stage};
use fit_base::{Order, bits_at};
use fit_record::CHAIN_LIMIT;

/// How many bytes are to come at least; after a refusal 0. `header` is what there is of a header, and `room` how many bytes of data are to come.
pub(crate) fn bytes_to_come(stage: &Stage, header: &[u8], room: u32) -> u64
    ensures { result ≡ to_come stage.now header.now room }
{
    match stage.section {
        Section::Header => match header.first() {
            Some(size) => {
                let rest = u64::from(*size).saturating_sub(header.len() as u64) + 2;
                if header.len() < 8 {
                    return rest;
                }
                let (_, numbers) = header.split_at(4);
                let (data_size, _) = numbers.split_at(4);
                rest + bits_at(Order::Little, 4, data_size)
            }
            None => if stage.files < CHAIN_LIMIT { 14 } else { 1 },
        },
        Section::Data => u64::from(room) + 2,
        Section::ClosingSum => if stage.half { 1 } else { 2 },
        Section::Latched(_) => 0,
    }
}
