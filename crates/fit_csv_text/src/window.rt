//! Spells a text anew as `to_csv` spells, some rows at a time, so that records can be taken whole from what spreadsheets write.
ghost use Rattle.std.specs.Prelude.{◌≡◌, ◌++◌, ◌<◌, ◌≤◌, [], IfOk, IfSome, IsSome, IsTrue, List, length};
ghost use Rattle.csv.specs.Reading.{AreRecords, default_config};
ghost use Rattle.csv.specs.declared.parser.State.TheVariants as st;
ghost use Rattle.fit_cells.specs.Rows.{Row};
ghost use Rattle.fit_csv_text.specs.Spellings.{EndsInReturn, HasPlainLines, HasPlainRows};

use crate::loose::{Unspelled, spell_on};
use std::alloc::{AllocError, Global};

/// How many bytes are spelled anew at first.
const FEW: usize = 2_048;

/// How many bytes are spelled anew at most before rows are taken from them.
const MANY: usize = 60_000;

/// What was spelled anew of a text.
#[derive(Drop)]
pub struct Window {
    /// The bytes that were written.
    pub bytes: Vec<u8>,
    /// How many bytes are spelled anew next.
    size: usize,
    ghost sized: { (2048 ≤ size) × (size ≤ 60000) },
}

impl Window {
    /// Nothing was spelled anew.
    pub fn new(alloc: Global) -> Window
        ensures { result.bytes.items ≡ [] }
    {
        Window {
            bytes: Vec::new(alloc),
            size: FEW,
        }
    }

    /// Spells anew a beginning of a text that begins with the row of a record, and returns what is left of the text. At least 2,048 bytes
    /// are written, the next time more, or nothing is left. It returns `None` where the first row is spelled as `to_csv` spells it, or a
    /// row has another spelling than spreadsheets write. It fails out of memory.
    pub fn fill<'a>(&mut self, text: &'a [u8]) -> Result<Option<&'a [u8]>, AllocError>
        ensures few { IfOk result (λ found. IfSome found (λ left.
            length self.new.bytes.items ≤ 65536)) }
        ensures many { IfOk result (λ found. IfSome found (λ left.
            0 < length left.now → 2048 ≤ length self.new.bytes.items)) }
        ensures plain { IfOk result (λ found. HasPlainRows text.now → IsSome found) }
        ensures rows { IfOk result (λ found. IfSome found (λ left. (rows : List Row)
            → AreRecords default_config st.StartRecord (self.new.bytes.items ++ left.now) rows
            → AreRecords default_config st.StartRecord text.now rows)) }
    {
        if !is_loose(text) {
            return Ok(None);
        }
        let size = self.size;
        self.size = FEW;
        self.bytes.clear();
        match spell_on(&mut self.bytes, text, size) {
            Ok(left) => {
                self.size = size.saturating_mul(4).min(MANY);
                Ok(Some(left))
            }
            Err(Unspelled::Other) => Ok(None),
            Err(Unspelled::NoMemory) => Err(AllocError),
        }
    }
}

/// Whether a text that begins with a row of a record may be worth spelling anew: the row begins with a quote, or ends with a carriage
/// return and a line feed.
fn is_loose(text: &[u8]) -> bool
    ensures { HasPlainRows text.now → IsTrue result }
{
    if text.len() < 2 {
        return false;
    }
    if text[0] == b'd' {
        return ends_in_return(text);
    }
    text[0] == b'"' && text[1] == b'd'
}

/// Whether a line feed comes right after the first carriage return, and none before it. It looks at no byte after these, so that a text
/// whose rows end otherwise is not gone through for each of them.
fn ends_in_return(text: &[u8]) -> bool
    ensures { HasPlainLines text.now → EndsInReturn text.now → IsTrue result }
{
    for (place, b) in text.iter().enumerate() {
        if *b == b'\n' {
            return false;
        }
        if *b == b'\r' {
            return place + 1 < text.len() && text[place + 1] == b'\n';
        }
    }
    false
}
