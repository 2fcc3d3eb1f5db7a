//! The bytes of a piece that belong to one section of a file: its header, its data section, or its closing checksum.
ghost use Rattle.std.specs.Prelude.{◌≡◌, ◌<◌, ◌≤◌, ◌++◌, length, take, None, Ok, Option};
ghost use Rattle.fit_frame.specs.declared.header.Header.{Header as FileHeader};
ghost use Rattle.fit_record.specs.declared.message.Record.{Record};
ghost use Rattle.fit_record.specs.Files.{chain_limit};
ghost use Rattle.fit_step.specs.InProgress.{AwaitsByte};
ghost use Rattle.fit_decode.specs.inner.Scans.{IsHeaderPart};
ghost use Rattle.fit_decode.specs.inner.Sections.{as_event, left_by, section_of, HeaderFed, DataFed, SumFed};

use crate::Event;
use crate::scan::{scan_header, scan_sum};
use fit_frame::{HeadReader, Header, Reason};
use fit_record::{CHAIN_LIMIT, Env, Record};
use fit_step::{Position, Stop, read_in_place};
use fit_sum::Sum;
use std::alloc::Allocator;

/// The section of a file that the next byte belongs to, or why none is taken any more.
#[derive(Clone, Copy, Drop)]
pub(crate) enum Section {
    Header,
    Data,
    ClosingSum,
    /// A byte was refused.
    Latched(Reason),
}

/// What the last byte that was used completed.
#[derive(Drop)]
pub(crate) enum Part {
    /// Nothing: the whole piece was used.
    More,
    /// The header of a file, which is in its place, and the size of its data section.
    Header(u32),
    /// A record, which is in its place.
    Record,
    /// A file.
    FileEnd,
}

/// What is told of it. A record, or a header, is taken from its place.
#[inline(always)]
pub(crate) fn take_event<A: Allocator>(
    part: Part,
    in_progress: &mut Option<Record<A>>,
    head: &mut Option<Header>,
) -> Event<A>
    ensures event { Ok result ≡ as_event in_progress.old head.old (Ok part) }
    ensures left { in_progress.new ≡ left_by in_progress.old (Ok part) }
{
    match part {
        Part::More => Event::More,
        Part::Header(size) => match head.take() {
            Some(header) => Event::Header(header, size),
            None => Event::More,
        },
        Part::Record => match in_progress.take() {
            Some(record) => Event::Item(record),
            None => Event::More,
        },
        Part::FileEnd => Event::FileEnd,
    }
}

/// How far the bytes have come.
#[derive(Drop)]
pub(crate) struct Stage {
    /// How many files have ended.
    pub(crate) files: u32,
    /// The section that the next byte belongs to, or the refusal of one.
    pub(crate) section: Section,
    /// Whether one byte of a closing checksum has come.
    pub(crate) half: bool,
}

/// The section after which that many bytes of data are to come.
fn section_of(room: u32) -> Section
    ensures { result ≡ section_of room }
{
    if room == 0 {
        Section::ClosingSum
    } else {
        Section::Data
    }
}

/// Covers the first bytes of the piece by the closing checksum.
#[inline(always)]
pub(crate) fn cover(sum: &mut Sum, piece: &[u8], used: usize)
    requires { used ≤ length piece.now }
    ensures { sum.new ≡ sum.old ++ take used piece.now }
{
    let (covered, _) = piece.split_at(used);
    sum.add_all(covered);
}

impl Stage {
    /// Bytes of a header. A complete one is left in its place.
    #[cold]
    #[inline(never)]
    pub(crate) fn feed_header(
        &mut self,
        reader: &mut HeadReader,
        position: &mut Position,
        sum: &mut Sum,
        head: &mut Option<Header>,
        piece: &[u8],
    ) -> (usize, Result<Part, Stop>)
        requires fresh { reader.old.refusal ≡ None }
        requires begun { IsHeaderPart reader.old.bytes }
        ensures { HeaderFed self.old reader.old.bytes sum.old self.new reader.new position.new
            sum.new head.new piece.now result.0 result.1 }
    {
        if self.files >= CHAIN_LIMIT && !piece.is_empty() {
            return (0, Err(Stop::Refused(Reason::TooManyFiles)));
        }
        let (used, answer) = scan_header(reader, piece);
        cover(sum, piece, used);
        match answer {
            Ok(None) => (used, Ok(Part::More)),
            Ok(Some((header, size))) => {
                *reader = HeadReader::new();
                self.section = section_of(size);
                *position = Position::new(size);
                *head = Some(header);
                (used, Ok(Part::Header(size)))
            }
            Err(reason) => (used, Err(Stop::Refused(reason))),
        }
    }

    /// Bytes of records. A complete one is left in its place.
    #[inline(always)]
    pub(crate) fn feed_data<A: Allocator + Copy>(
        &mut self,
        alloc: A,
        env: &mut Env<A>,
        position: &mut Position,
        in_progress: &mut Option<Record<A>>,
        sum: &mut Sum,
        piece: &[u8],
    ) -> (usize, Result<Part, Stop>)
        requires { AwaitsByte env.old position.old in_progress.old }
        ensures { (head : Option FileHeader) → DataFed self.old env.old position.old in_progress.old
            sum.old self.new env.new position.new (left_by in_progress.new result.1) sum.new
            piece.now result.0 (as_event in_progress.new head result.1) }
    {
        let (used, answer) = read_in_place(alloc, env, position, in_progress, piece);
        cover(sum, piece, used);
        match answer {
            Ok(false) => (used, Ok(Part::More)),
            Ok(true) => {
                self.section = section_of(position.room);
                (used, Ok(Part::Record))
            }
            Err(stop) => (used, Err(stop)),
        }
    }

    /// Bytes of a closing checksum.
    #[cold]
    #[inline(never)]
    pub(crate) fn feed_sum<A: Allocator + Copy>(
        &mut self,
        alloc: A,
        env: &mut Env<A>,
        sum: &mut Sum,
        piece: &[u8],
    ) -> (usize, Result<Part, Stop>)
        requires few { self.old.files < chain_limit }
        ensures { (placed : Option (Record A)) (head : Option FileHeader) → SumFed self.old env.old
            sum.old self.new env.new sum.new piece.now result.0 (as_event placed head result.1) }
    {
        let (used, answer) = scan_sum(sum.value(), &mut self.half, piece);
        match answer {
            Ok(false) => (used, Ok(Part::More)),
            Ok(true) => {
                sum.clear();
                *env = Env::new(alloc);
                self.files += 1;
                self.section = Section::Header;
                (used, Ok(Part::FileEnd))
            }
            Err(reason) => (used, Err(Stop::Refused(reason))),
        }
    }
}
