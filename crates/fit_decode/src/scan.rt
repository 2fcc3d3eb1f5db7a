//! Walks over the bytes of a piece that belong to a header, or to a closing checksum.
ghost use Rattle.std.specs.Prelude.{◌≡◌, None};
ghost use Rattle.fit_decode.specs.inner.Scans.{HeaderScanned, IsHeaderPart, SumScanned};

use fit_frame::{HeadReader, Header, Reason};

/// The bytes of a header: how many were used, and the header with its data size where it is whole.
pub(crate) fn scan_header(
    reader: &mut HeadReader,
    piece: &[u8],
) -> (usize, Result<Option<(Header, u32)>, Reason>)
    requires fresh { reader.old.refusal ≡ None }
    requires begun { IsHeaderPart reader.old.bytes }
    ensures { HeaderScanned reader.old.bytes piece.now reader.new result.0 result.1 }
{
    for (i, byte) in piece.iter().enumerate() {
        match reader.put(*byte) {
            Ok(None) => {}
            Ok(Some(whole)) => return (i + 1, Ok(Some(whole))),
            Err(reason) => return (i, Err(reason)),
        }
    }
    (piece.len(), Ok(None))
}

/// The bytes of a closing checksum, of which one may have come: how many were used, and whether the sum is whole.
pub(crate) fn scan_sum(sum: u16, half: &mut bool, piece: &[u8]) -> (usize, Result<bool, Reason>)
    ensures { SumScanned sum half.old piece.now half.new result.0 result.1 }
{
    let [first, second] = sum.to_le_bytes();
    let mut used = 0;
    if !*half {
        match piece.first() {
            None => return (0, Ok(false)),
            Some(byte) => {
                if *byte != first {
                    return (0, Err(Reason::FileSum));
                }
            }
        }
        *half = true;
        used = 1;
    }
    match piece.get(used) {
        None => (used, Ok(false)),
        Some(byte) => {
            if *byte != second {
                return (used, Err(Reason::FileSum));
            }
            *half = false;
            (used + 1, Ok(true))
        }
    }
}
