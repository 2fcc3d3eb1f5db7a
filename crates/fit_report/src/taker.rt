//! Skips the data messages of a piece together, for what takes in each by its bytes.
ghost use Rattle.std.specs.Prelude.{◌≡◌, ◌++◌, ◌∷◌, ℕ, ◌≤◌, List, IfOk, OnOk, OnErr, length, reverse, take};
ghost use Rattle.std.specs.Global.{Global};
ghost use Rattle.fit_record.specs.Files.{chain_limit, IsViable};
ghost use Rattle.fit_record.specs.Records.{IsRecord};
ghost use Rattle.fit_record.specs.declared.message.Record.TheVariants.{Values as Data};
ghost use Rattle.fit_record.specs.declared.message.Values.{Values};
ghost use Rattle.fit_chain.specs.Events.{Event as Told, AreEvents, item, known_after};
ghost use Rattle.fit_chain.specs.Memory.{IsAny, MayLackMemoryIn};
ghost use Rattle.fit_report.specs.Heard.{Skips};
ghost use Rattle.fit_report.specs.inner.Taking.{TakesAhead};

use crate::telling::FULL_TEXT;
use fit_decode::Decoder;
use fit_record::header::is_definition;
use std::alloc::AllocError;

/// Takes in data messages by their bytes, and puts their texts: for a `Report` that skips them.
pub trait MessageTaker {
    // These may be the events heard so far, the latest first.
    ghost has_heard: { Self → List (Told Global) → Type 0 };

    // The text of an event after these events, the latest first.
    ghost line: { List (Told Global) → Told Global → List ℕ };

    /// Takes in the data message that the first bytes of a piece are, that many, and puts its text after the old text. Out of memory,
    /// the text is of no use, and no further message is taken in.
    fn take(&mut self, piece: &[u8], size: usize, text: &mut Vec<u8>) -> Result<(), AllocError>
        requires within { size ≤ length piece.now }
        requires message { (heard : List (Told Global)) × (v : Values Global)
            × has_heard self.old heard
            × IsRecord (known_after (reverse heard)) (Data v) (take size piece.now) }
        ensures heard { OnOk result ((heard : List (Told Global)) (v : Values Global)
            → has_heard self.old heard
            → IsRecord (known_after (reverse heard)) (Data v) (take size piece.now)
            → has_heard self.new (item (Data v) ∷ heard)) }
        ensures text { OnOk result ((heard : List (Told Global)) (v : Values Global)
            → has_heard self.old heard
            → IsRecord (known_after (reverse heard)) (Data v) (take size piece.now)
            → text.new.items ≡ text.old.items ++ line heard (item (Data v))) };
}

/// Takes in the data messages at the front of a piece, up to a full text. The decoder is fed none of them: returns how many bytes they have.
#[inline(always)]
fn take_ahead<T: MessageTaker>(
    taker: &mut T,
    decoder: &Decoder,
    piece: &[u8],
    text: &mut Vec<u8>,
) -> Result<usize, AllocError>
    requires { (heard : List (Told Global)) × T.has_heard taker.old heard
        × AreEvents decoder.now.bytes (reverse heard) }
    ensures takes { IfOk result (λ used. TakesAhead T.has_heard T.line decoder.now piece.now
        taker.old taker.new text.old.items text.new.items used) }
    ensures wants { OnErr result (MayLackMemoryIn Global IsAny decoder.now.bytes piece.now) }
{
    let mut ahead = decoder.look_ahead(piece);
    'messages: loop {
        let at = ahead.used();
        let (_, rest) = piece.split_at(at);
        let size = ahead.next();
        if size == 0 {
            return Ok(at);
        }
        taker.take(rest, size, text)?;
        if text.len() >= FULL_TEXT {
            return Ok(ahead.used());
        }
    }
}

/// Whether the first byte of a piece may head a data message.
#[inline(always)]
fn begins_message(piece: &[u8]) -> bool {
    match piece.first() {
        Some(byte) => !is_definition(*byte),
        None => false,
    }
}

/// Skips data messages at the front of a piece one by one, again and again until none is skipped or the text is full: also those that
/// describe something. Returns how many bytes they have.
#[inline(never)]
fn take_each<T: MessageTaker>(
    taker: &mut T,
    decoder: &mut Decoder,
    piece: &[u8],
    text: &mut Vec<u8>,
) -> Result<usize, AllocError>
    requires told { (heard : List (Told Global)) × T.has_heard taker.old heard
        × AreEvents decoder.old.bytes (reverse heard) }
    requires viable { IsViable Global chain_limit decoder.old.bytes }
    ensures skips { IfOk result (λ used. Skips T.has_heard T.line decoder.old decoder.new piece.now
        taker.old taker.new text.old.items text.new.items used) }
    ensures memory { OnErr result ((k : ℕ) × (k ≤ length piece.now)
        × (decoder.new ≡ record decoder.old
        { bytes = decoder.old.bytes ++ take k piece.now })) }
    ensures wants { OnErr result (MayLackMemoryIn Global IsAny decoder.old.bytes piece.now) }
    ensures viable { IsViable Global chain_limit decoder.new.bytes }
{
    let mut at = 0;
    'messages: loop {
        let (_, rest) = piece.split_at(at);
        let size = decoder.skip_message(rest);
        if size == 0 {
            return Ok(at);
        }
        taker.take(rest, size, text)?;
        at += size;
        if text.len() >= FULL_TEXT {
            return Ok(at);
        }
    }
}

/// Skips data messages at the front of a piece, again and again until none is skipped or the text is full, and puts their texts after the
/// old text, for `Report::skip`. They are fed together at the end. Returns how many bytes they have.
///
/// Out of memory, nothing is fed, or the message for which there is none; the text is of no use, and no further message is to be taken in.
pub fn take_messages<T: MessageTaker>(
    taker: &mut T,
    decoder: &mut Decoder,
    piece: &[u8],
    text: &mut Vec<u8>,
) -> Result<usize, AllocError>
    requires told { (heard : List (Told Global)) × T.has_heard taker.old heard
        × AreEvents decoder.old.bytes (reverse heard) }
    requires viable { IsViable Global chain_limit decoder.old.bytes }
    ensures skips { IfOk result (λ used. Skips T.has_heard T.line decoder.old decoder.new piece.now
        taker.old taker.new text.old.items text.new.items used) }
    ensures memory { OnErr result ((k : ℕ) × (k ≤ length piece.now)
        × (decoder.new ≡ record decoder.old
        { bytes = decoder.old.bytes ++ take k piece.now })) }
    ensures wants { OnErr result (MayLackMemoryIn Global IsAny decoder.old.bytes piece.now) }
    ensures viable { IsViable Global chain_limit decoder.new.bytes }
{
    if !begins_message(piece) || !decoder.begins_record() {
        return Ok(0);
    }
    let used = take_ahead(taker, decoder, piece, text)?;
    if used == 0 {
        return take_each(taker, decoder, piece, text);
    }
    decoder.skip_messages(piece, used);
    Ok(used)
}
