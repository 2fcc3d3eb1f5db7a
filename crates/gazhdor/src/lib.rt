//! Gazhdor reads, checks and writes FIT files, the recordings of watches and bicycle computers, and makes text of them. This crate is
//! its front: it passes on what programs call, from the crates where that stands with its contract, and has nothing of its own.
//!
//! A first use: are the bytes of an upload a FIT file, or a chain of files?
//!
//!     use gazhdor::check_bytes;
//!
//!     let files = check_bytes(alloc, upload)?;
//!
//! `Ok` has how many files they are. Else a `Fault` says which byte is refused and why, where the bytes end too soon, or that memory was
//! refused. `docs/USE.md` has whole programs, `docs/api/gazhdor.md` all names by what they are for.
//!
//! What only proofs call has a module of its own, `laws`.
#![tactic(auto)]

pub mod laws;

// Reading: from a `Source`, or as bytes come. A `Fault` says where and why it ended.
pub use fit_chain::{Event, Fault, Fed};
pub use fit_decode::{
    Ahead, CutSource, Decoder, PIECE_SIZE, ReadSource, Reading, Source, SourceFailed, check_bytes,
    read_chain, read_one,
};
pub use fit_frame::Reason;

// Writing: into a `Sink`, whole files or record by record.
pub use fit_encode::{
    CutSink, EncodeFault, Encoder, Sink, SinkFailed, WriteSink, put_all, write_chain, write_one,
};

// Files: what they are made of. Base types have their names in `base_type`.
pub use fit_base::{Bits, Class, Code, Entries, Items, Order, base_type};
pub use fit_frame::{Header, HeaderSum, PROTOCOL_2_0};
pub use fit_record::{CHAIN_LIMIT, DevDef, FieldDef, FitFile, MessageDef, Record, Values};

// Meaning: what messages say by the records before them, with names, units, exact values and times.
pub use fit_names::{
    Info, field_info, field_label, field_number, fixed, message_label, message_name,
    message_number, value_of,
};
pub use fit_numbers::{Fixed, Label, degrees, utc_text};
pub use fit_profile::{FieldView, Message, Stream};

// Pieces: a chain whose bytes come in pieces of any length, and what each piece completes, as a finding, text or blocks.
pub use fit_stream::{ChainStream, Kind};

// Texts: a chain as CSV text and back, as a table, and a field as the cell that shows it.
pub use fit_cells::{cell_items, cell_text};
pub use fit_csv::{CsvFault, from_csv, from_csv_text, table, to_csv};

// Reports: the events of a source's bytes to a sink as text, by a `Report` that is there or one of your own.
pub use fit_report::{Document, Heard, Report, ReportFault, Telling, report, report_document};
pub use fit_rows::{CsvReport, ROWS_LINE};
pub use fit_show::ShowReport;
pub use fit_table::{TABLE_LINE, TableReport};

// Blocks: a chain as bytes that other languages read as they lie in memory, and back.
pub use fit_from_messages::{BlockReason, BlocksFault, from_messages};
pub use fit_messages::MessagesReport;

// Parts: headers, checksums, records and numbers by themselves.
pub use fit_base::{bits_at, put_bits, signed, width_of};
pub use fit_frame::{HeadFault, HeadReader, head_bytes};
pub use fit_record::{Env, ShapeFault};
pub use fit_sum::{Sum, checksum_of};
