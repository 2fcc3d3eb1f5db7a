//! The records of a file, one after another, and what each message means by those before it.
ghost use Rattle.std.specs.Prelude.{◌≡◌, ◌∷◌, [], OnOk, OnErr, IfOk, IfSome, IsOk, IsSome, None, ⊤, MatchResult, Some, true, false, drop};
ghost use Rattle.std.specs.Borrow.{sem};
ghost use Rattle.std.specs.declared.alloc.Global.{Global};
ghost use mathlib.Core.Option.{none};
ghost use denote.Follow.{follows_so};
ghost use Rattle.fit_record.specs.Environment.{DescribesNothing, defined_at};
ghost use Rattle.fit_record.specs.declared.environment.Defined.{Defined};
ghost use Rattle.fit_record.specs.Records.{Fits, IsRecord};
ghost use Rattle.fit_record.specs.declared.message.Values.{Values};
ghost use Rattle.fit_record.specs.declared.message.Record.TheVariants.{Values as Data};
ghost use Rattle.fit_profile.specs.Looks.{known};
ghost use Rattle.fit_profile.specs.Meant.{MessageOf};
ghost use Rattle.fit_profile.specs.Taken.{IsTaken};
ghost use Rattle.fit_profile.specs.Told.{told_of};
ghost use Rattle.fit_profile.specs.Told as telling;
ghost use Rattle.fit_profile.specs.inner.Alone.{times_alone};
ghost use Rattle.fit_profile.specs.contracts.stream.Stream.{the_row};

mod next;
mod opened;
mod passing;

use crate::by_bytes::take_in_bytes;
use crate::by_plan::{is_plain, tell, tell_times};
use crate::learn::take_in;
use crate::message::Message;
use crate::message_bytes::{Taken, add_bytes, said_in, take_telling};
use crate::names::Names;
use crate::plan::Plans;
use crate::told::{Last, Told, last_after, note_time, uncounted};
use fit_history::History;
use fit_record::{Env, Record, Values};
use std::alloc::{AllocError, Global};
use std::marker::Model;

/// The records of a file, pushed one after another. It keeps what their successors need: the
/// definitions, the last time, the accumulated values, and the names and units of developer fields. A
/// contract sees it as the list of the records pushed since the file began, latest first.
///
/// Its memory is that of `Global`: at an allocator of any size nothing says that a stream fits in
/// memory.
pub struct Stream {
    env: Env,
    plans: Plans,
    last: Last,
    names: Names,
    /// No record has come since the file began, so there is nothing to let go where the next one begins.
    is_new: bool,
    pushed: History<Record>,
    alloc: Global,
}

// A call wherever a stream is dropped: derived, all that it frees would be written out and proved there.
impl Drop for Stream {
    fn drop(self) {
        let Stream {
            alloc: _,
            pushed: _pushed,
            is_new: _,
            names: _names,
            last: _,
            plans: _plans,
            env: _env,
        } = self;
    }
}

impl Model for Stream {
    ghost use Rattle.std.specs.Prelude.{◌≡◌, [], List, reverse, true};
    ghost use Rattle.std.specs.declared.alloc.Global.{Global};
    ghost use Rattle.fit_record.specs.declared.message.Record.{Record};
    ghost use Rattle.fit_profile.specs.inner.Keeps.{KeepsRecords};
    ghost use Rattle.fit_profile.specs.inner.Plans.{ArePlanned};

    ghost Value = { List (Record Global) };

    ghost view = { λ s. reverse s.pushed.items };

    ghost invariant = { λ s. KeepsRecords s.env s.last s.names (reverse s.pushed.items)
        × ArePlanned s.plans.places.items s.env.places × (s.is_new ≡ true → s.pushed.items ≡ []) };
}

const NOTHING: Last = Last {
    time: None,
    distance: 0,
    total_cycles: 0,
    accumulated_power: 0,
};

impl Stream {
    /// A stream with no record yet.
    pub fn new(alloc: Global) -> Self
        ensures { result ≡ [] }
    {
        Stream {
            env: Env::new(alloc),
            plans: Plans::new(alloc),
            last: NOTHING,
            names: Names::new(alloc),
            is_new: true,
            pushed: History::new(),
            alloc,
        }
    }

    /// Begins a file: the records before it count no more.
    pub fn begin_file(&mut self)
        ensures { self.new ≡ [] }
    {
        if self.is_new {
            return;
        }
        self.env = Env::new(self.alloc);
        self.plans.clear();
        self.last = NOTHING;
        self.names = Names::new(self.alloc);
        self.is_new = true;
        self.pushed = History::new();
    }

    /// What is known after the records of the file.
    pub fn env(&self) -> &Env
        ensures { result.now ≡ known self.now }
    {
        &self.env
    }

    /// Takes a record in, after which the times and accumulated values are these.
    fn advance(&mut self, record_: &Record, last: Last) -> Result<(), AllocError>
        requires fits { Fits (known self.old) record_.now }
        requires last { last ≡ telling.last_of (record_.now ∷ self.old) }
        ensures ok { OnOk result (self.new ≡ record_.now ∷ self.old) }
        ensures err { OnErr result (self.new ≡ self.old) }
        ensures free { DescribesNothing (known self.old) record_.now → IsOk result }
    {
        self.plans.make_room(record_)?;
        let changes = take_in(&mut self.env, &mut self.names, record_)?;
        self.plans.take(record_, changes);
        self.last = last;
        self.is_new = false;
        self.pushed.add(record_);
        Ok(())
    }

    /// Takes in a data message of which nothing but times is told, and tells them: its own, and that of its header. Any other record is
    /// left, and None is told.
    #[inline(always)]
    fn note_times(&mut self, record_: &Record) -> Option<(Option<u32>, Option<u32>)>
        requires { Fits (known self.old) record_.now }
        ensures taken { IsSome result → self.new ≡ record_.now ∷ self.old }
        ensures told { IfSome result (λ t.
            Some (times_alone t.0 t.1) ≡ told_of self.old record_.now) }
        ensures kept { result ≡ None → self.new ≡ self.old }
    {
        let (time, header_time) = tell_times(&self.env, &self.plans, self.last, record_)?;
        note_time(&mut self.last, time);
        self.pushed.add(record_);
        Some((time, header_time))
    }

    /// Takes a record in, and tells its times and accumulated values. Most records describe nothing.
    fn note(&mut self, record_: &Record) -> Result<Option<Told>, AllocError>
        requires { Fits (known self.old) record_.now }
        ensures ok { OnOk result (self.new ≡ record_.now ∷ self.old) }
        ensures err { OnErr result (self.new ≡ self.old) }
        ensures told { IfOk result (λ t. t ≡ told_of self.old record_.now) }
        ensures free { DescribesNothing (known self.old) record_.now → IsOk result }
    {
        let told = tell(&self.env, &self.plans, self.last, record_);
        let last = last_after(self.last, told);
        if is_plain(&self.plans, record_) {
            self.last = last;
            self.pushed.add(record_);
            return Ok(told);
        }
        self.advance(record_, last)?;
        Ok(told)
    }

    /// Takes the next record. A definition gives None, a data message what it means, given the records
    /// before it. If memory runs out, the stream stays as it was.
    pub fn push<'a>(&'a mut self, record_: &'a Record) -> Result<Option<Message<'a>>, AllocError>
        requires { Fits (known self.old) record_.now }
        ensures message { IfOk result (λ m. MessageOf self.old record_.now m) }
        // With Ok the record is the latest of the stream, else the stream is as it was.
        ensures* after { sem 𝓛 (follows_so the_row the_row self.entry.ghost_name none (λ _ _. ⊤)
            (λ n. MatchResult result (λ _. n ≡ record_.now ∷ self.old) (λ _. n ≡ self.old))) }
        // No memory is taken for a data message that describes no developer field.
        ensures free { DescribesNothing (known self.old) record_.now → IsOk result }
    {
        if let Some((time, header_time)) = self.note_times(record_) {
            let told = uncounted(time, header_time);
            return Ok(self.message(Some(told), record_));
        }
        self.push_any(record_)
    }

    /// Takes the next record, whatever is told of it. It stands apart, since of most messages only times are told.
    #[inline(never)]
    fn push_any<'a>(&'a mut self, record_: &'a Record) -> Result<Option<Message<'a>>, AllocError>
        requires { Fits (known self.old) record_.now }
        ensures message { IfOk result (λ m. MessageOf self.old record_.now m) }
        ensures* after { sem 𝓛 (follows_so the_row the_row self.entry.ghost_name none (λ _ _. ⊤)
            (λ n. MatchResult result (λ _. n ≡ record_.now ∷ self.old) (λ _. n ≡ self.old))) }
        ensures free { DescribesNothing (known self.old) record_.now → IsOk result }
    {
        let told = self.note(record_)?;
        Ok(self.message(told, record_))
    }

    /// Takes the next record in, as `push` does, and makes no message of it.
    pub fn take(&mut self, record_: &Record) -> Result<(), AllocError>
        requires { Fits (known self.old) record_.now }
        ensures ok { OnOk result (self.new ≡ record_.now ∷ self.old) }
        ensures err { OnErr result (self.new ≡ self.old) }
        ensures free { DescribesNothing (known self.old) record_.now → IsOk result }
    {
        self.note(record_)?;
        Ok(())
    }

    /// Takes a data message in by its bytes, whatever it describes. It stands apart, since most describe nothing.
    #[cold]
    #[inline(never)]
    fn take_any_message(&mut self, bytes: &[u8]) -> Result<(), AllocError>
        requires { (v : Values Global) × IsRecord (known self.old) (Data v) bytes.now }
        ensures ok { OnOk result ((v : Values Global)
            → IsRecord (known self.old) (Data v) bytes.now → self.new ≡ Data v ∷ self.old) }
        ensures err { OnErr result (self.new ≡ self.old) }
    {
        let said = said_in(&self.env, &self.plans, self.last, bytes);
        let last = last_after(self.last, Some(said.told));
        take_in_bytes(&mut self.env, &mut self.names, bytes)?;
        self.last = last;
        self.is_new = false;
        add_bytes(&self.env, &mut self.pushed, bytes);
        Ok(())
    }

    /// Takes the next record in, as `take` does, where it is the data message that these bytes are: no
    /// record is made. If memory runs out, the stream stays as it was.
    pub fn take_message(&mut self, bytes: &[u8]) -> Result<(), AllocError>
        requires { (v : Values Global) × IsRecord (known self.old) (Data v) bytes.now }
        ensures ok { OnOk result ((v : Values Global)
            → IsRecord (known self.old) (Data v) bytes.now → self.new ≡ Data v ∷ self.old) }
        ensures err { OnErr result (self.new ≡ self.old) }
        // No memory is taken for a message that describes no developer field.
        ensures free { (v : Values Global) → IsRecord (known self.old) (Data v) bytes.now
            → DescribesNothing (known self.old) (Data v) → IsOk result }
    {
        match self.take_telling(false, bytes) {
            Some(_) => Ok(()),
            None => self.take_any_message(bytes),
        }
    }

    /// Takes in the data message that these bytes are, and says what is told of it, where it describes no developer field. None where it
    /// does: then it is left. Whether each field is one number is said where the caller asks for it.
    #[inline(always)]
    fn take_telling(&mut self, asks: bool, bytes: &[u8]) -> Option<Taken>
        requires { (v : Values Global) × IsRecord (known self.old) (Data v) bytes.now }
        ensures said { asks ≡ true → IfSome result (λ t. (v : Values Global) (p : Defined Global)
            → IsRecord (known self.old) (Data v) bytes.now
            → defined_at (known self.old) v.local ≡ Some p
            → IsTaken (telling.told self.old v) v p.definition t) }
        ensures taken { IsSome result → (v : Values Global)
            → IsRecord (known self.old) (Data v) bytes.now → self.new ≡ Data v ∷ self.old }
        ensures kept { result ≡ None → self.new ≡ self.old }
        ensures describes { result ≡ None → (v : Values Global)
            → IsRecord (known self.old) (Data v) bytes.now
            → DescribesNothing (known self.old) (Data v) → ⊥ }
    {
        take_telling(
            &self.env,
            &mut self.plans,
            &mut self.last,
            &mut self.pushed,
            asks,
            bytes,
        )
    }

    /// Takes any data message in, and tells it. It stands apart, since most describe nothing.
    #[cold]
    #[inline(never)]
    fn tell_any_message(&mut self, bytes: &[u8]) -> Result<Taken, AllocError>
        requires { (v : Values Global) × IsRecord (known self.old) (Data v) bytes.now }
        ensures ok { OnOk result ((v : Values Global)
            → IsRecord (known self.old) (Data v) bytes.now → self.new ≡ Data v ∷ self.old) }
        ensures err { OnErr result (self.new ≡ self.old) }
        ensures said { IfOk result (λ t. (v : Values Global) (p : Defined Global)
            → IsRecord (known self.old) (Data v) bytes.now
            → defined_at (known self.old) v.local ≡ Some p
            → IsTaken (telling.told self.old v) v p.definition t) }
    {
        let taken = said_in(&self.env, &self.plans, self.last, bytes);
        self.take_any_message(bytes)?;
        Ok(taken)
    }

    /// Takes the next record in, as `take_message` does, and returns what it is by its record header and its definition, and its times and
    /// accumulated values by the records before it.
    #[inline(always)]
    pub fn take_and_tell(&mut self, bytes: &[u8]) -> Result<Taken, AllocError>
        requires { (v : Values Global) × IsRecord (known self.old) (Data v) bytes.now }
        ensures ok { OnOk result ((v : Values Global)
            → IsRecord (known self.old) (Data v) bytes.now → self.new ≡ Data v ∷ self.old) }
        ensures err { OnErr result (self.new ≡ self.old) }
        ensures said { IfOk result (λ t. (v : Values Global) (p : Defined Global)
            → IsRecord (known self.old) (Data v) bytes.now
            → defined_at (known self.old) v.local ≡ Some p
            → IsTaken (telling.told self.old v) v p.definition t) }
        ensures free { (v : Values Global) → IsRecord (known self.old) (Data v) bytes.now
            → DescribesNothing (known self.old) (Data v) → IsOk result }
    {
        match self.take_telling(true, bytes) {
            Some(taken) => Ok(taken),
            // What that call writes has a place of its own, which is cleared only there.
            None => {
                let taken = self.tell_any_message(bytes)?;
                Ok(taken)
            }
        }
    }

    /// The data message that was just taken in.
    fn data_message<'a>(&'a self, told: Told, values: &'a Values) -> Message<'a>
        requires pushed { self.now ≡ Data values.now ∷ drop 1 self.now }
        requires fits { Fits (known (drop 1 self.now)) (Data values.now) }
        requires told { told ≡ telling.told (drop 1 self.now) values.now }
        ensures { MessageOf (drop 1 self.now) (Data values.now) (Some result) }
    {
        Message::of(&self.env, &self.names, &self.plans, told, values)
    }

    /// The message of the record that was just taken in.
    fn message<'a>(&'a self, told: Option<Told>, record_: &'a Record) -> Option<Message<'a>>
        requires pushed { self.now ≡ record_.now ∷ drop 1 self.now }
        requires fits { Fits (known (drop 1 self.now)) record_.now }
        requires told { told ≡ told_of (drop 1 self.now) record_.now }
        ensures { MessageOf (drop 1 self.now) record_.now result }
    {
        match record_ {
            Record::Define(_) => None,
            Record::Values(values) => match told {
                Some(told) => Some(self.data_message(told, values)),
                None => unreachable!(),
            },
        }
    }
}
