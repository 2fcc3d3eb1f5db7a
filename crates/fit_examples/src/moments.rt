//! Time and heart rate of each record message.
ghost use Rattle.std.specs.Prelude.{◌≡◌, ◌++◌, IfErr, IfOk, List, OnOk, flat_map};
ghost use Rattle.std.specs.declared.alloc.Global.{Global};
ghost use Rattle.fit_record.specs.declared.file.FitFile.{FitFile};
ghost use Rattle.fit_record.specs.declared.message.Record.{Record};
ghost use Rattle.fit_record.specs.Files.{IsChain, chain_limit};
ghost use Rattle.fit_chain.specs.Checks.{AreChain, IsFaultOf, LacksMemory};
ghost use Rattle.fit_chain.specs.Events.{Event as Told};
ghost use Rattle.fit_profile.specs.Meant.{MessageOf, shown};
ghost use Rattle.fit_report.specs.Heard.{AreHeard, hear, latest_records};
ghost use Rattle.fit_examples.specs.HeartRates.{file_moments, heart_rate, moments_in, record_moments};
ghost use Rattle.fit_examples.specs.inner.Noting.{event_moments, records_after_event};

use gazhdor::base_type::UINT8;
use gazhdor::field_number::HEART_RATE;
use gazhdor::laws::{events_are_one, heard_records_fit, looking_back_is_learning};
use gazhdor::message_number::RECORD;
use gazhdor::{Decoder, Event, Fault, Message, Stream};
use std::alloc::{AllocError, Global};

/// The invalid uint8.
const NO_VALUE: u64 = 0xFF;

/// Time and heart rate of a record message.
#[derive(Clone, Copy, PartialEq, Eq, Debug)]
pub struct Moment {
    /// In seconds since 1989-12-31T00:00:00 UTC.
    pub time: Option<u32>,
    /// In beats per minute.
    pub heart_rate: Option<u8>,
}

/// The heart rate that a message has.
fn rate_of(message: &Message) -> Option<u8>
    ensures { result ≡ heart_rate (shown message.now).definition (shown message.now).values }
{
    let field = message.first(HEART_RATE)?;
    match field.items.bits.as_slice() {
        [rate] if field.code == UINT8 && *rate < NO_VALUE => Some(*rate as u8),
        _ => None,
    }
}

/// Time and heart rate of a message. `None` where it isn't a record message.
fn moment_of(message: Option<Message>) -> Option<Moment>
    ensures { (before : List (Record Global)) (r : Record Global) →
        MessageOf before r message.entry → moments_in result ≡ record_moments before r }
{
    let message = message?;
    if message.global() != RECORD {
        return None;
    }
    Some(Moment {
        time: message.time(),
        heart_rate: rate_of(&message),
    })
}

/// Takes an event into the stream, and returns the moment of a record message. A header begins a file.
pub(crate) fn moment_told(stream: &mut Stream, event: &Event) -> Result<Option<Moment>, AllocError>
    requires { (heard : List (Told Global)) ×
        (stream.old ≡ latest_records heard) × AreHeard (hear event.now heard) }
    ensures stream { OnOk result (stream.new ≡ records_after_event stream.old event.now) }
    ensures moment { IfOk result
        (λ moment. moments_in moment ≡ event_moments stream.old event.now) }
{
    heard_records_fit::<Global>();
    looking_back_is_learning::<Global>();
    match event {
        Event::Header(..) => stream.begin_file(),
        Event::Item(record_) => return Ok(moment_of(stream.push(record_)?)),
        Event::More | Event::FileEnd => {}
    }
    Ok(None)
}

/// Takes an event into the stream, and the moment of a record message into the list.
fn note(stream: &mut Stream, moments: &mut Vec<Moment>, event: Event) -> Result<(), AllocError>
    requires { (heard : List (Told Global)) ×
        (stream.old ≡ latest_records heard) × AreHeard (hear event heard) }
    ensures stream { OnOk result (stream.new ≡ records_after_event stream.old event) }
    ensures moments { OnOk result
        (moments.new.items ≡ moments.old.items ++ event_moments stream.old event) }
{
    if let Some(moment) = moment_told(stream, &event)? {
        moments.push(moment)?;
    }
    Ok(())
}

/// Time and heart rate of each record message of a FIT file, or of a chain of such files.
///
/// `Refused` has the first byte that cannot belong to any valid chain of files, counted from 0, and the reason; `Truncated` has the
/// length of a ride that ends too soon. `NoMemory` has the number of bytes taken before memory was refused; they begin a chain.
pub fn heart_rates(alloc: Global, ride: &[u8]) -> Result<Vec<Moment>, Fault>
    ensures good { OnOk result (AreChain Global ride.now) }
    ensures moments { (fs : List (FitFile Global)) → IsChain chain_limit fs ride.now →
        IfOk result (λ moments. moments.items ≡ flat_map file_moments fs) }
    ensures fault { IfErr result (IsFaultOf ride.now) }
    // A chain of files fails only by running out of memory.
    ensures memory { AreChain Global ride.now → IfErr result LacksMemory }
{
    events_are_one::<Global>();
    let mut decoder = Decoder::new(alloc);
    let mut stream = Stream::new(alloc);
    let mut moments = Vec::new(alloc);
    let mut rest = ride;
    while !rest.is_empty() {
        let before = (ride.len() - rest.len()) as u64;
        match decoder.feed(rest) {
            Ok(fed) => {
                rest = rest.split_at(fed.used).1;
                let Ok(()) = note(&mut stream, &mut moments, fed.event) else {
                    return Err(Fault::NoMemory {
                        used: (ride.len() - rest.len()) as u64,
                    });
                };
            }
            Err(fault) => return Err(fault.after(before)),
        }
    }
    decoder.finish()?;
    Ok(moments)
}
