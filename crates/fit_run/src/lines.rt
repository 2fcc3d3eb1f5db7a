//! The lines that the program writes.
ghost use Rattle.std.specs.Prelude.{◌≡◌, ◌++◌, ◌+◌, ◌≤◌, OnOk, codes, decimal, length};
ghost use Rattle.fit_run.specs.Lines.{cell_line, encode_line, read_fault_line, refused_line, row_line, truncated_line};

use arrayvec::ArrayString;
use fit_encode::EncodeFault;
use fit_frame::Reason;
use itoa::Buffer;
use std::alloc::AllocError;

/// A line with its line feed, or a part of one.
pub type Lines = ArrayString<64>;

/// The last line where the input is a chain of files.
pub const OK: &str = "ok\n";

/// The line on standard error where the output failed.
pub const WRITE_FAULT: &str = "write fault\n";

/// The line on standard error where memory ran out.
pub const OUT_OF_MEMORY: &str = "out of memory\n";

/// The line on standard error where the first row of a text isn't the first line.
pub const HEADER_ROW: &str = "header row refused\n";

/// The line on standard error where a text can't be read.
pub const TEXT_FAULT: &str = "read fault\n";

/// A text, a number and a text.
fn numbered(front: &str, number: u64, back: &str) -> Lines
    requires { length front.now + length back.now ≤ 44 }
    ensures text { result.bytes ≡ front.now ++ decimal number ++ back.now }
    ensures short { length result.bytes ≤ length front.now + length back.now + 20 }
{
    let mut lines = Lines::new();
    lines.push_str(front);
    lines.push_str(Buffer::new().format(number));
    lines.push_str(back);
    lines
}

/// Puts a text, a number in decimal digits and a text after another text. `AllocError` where memory was refused.
pub fn put_numbered(
    text: &mut Vec<u8>,
    front: &str,
    number: u64,
    back: &str,
) -> Result<(), AllocError>
    requires { length front.now + length back.now ≤ 44 }
    ensures { OnOk result
        (text.new.items ≡ text.old.items ++ (front.now ++ decimal number ++ back.now)) }
{
    text.extend_from_slice(numbered(front, number, back).as_bytes())
}

/// The byte at the place is refused.
pub fn refused(place: u64, reason: Reason) -> Lines
    ensures { result.bytes ≡ refused_line place reason }
{
    let mut lines = numbered("refused at byte ", place, ": ");
    lines.push_str(reason.name());
    lines.push_str("\n");
    lines
}

/// The input ends at the place.
pub fn truncated(place: u64) -> Lines
    ensures { result.bytes ≡ truncated_line place }
{
    numbered("truncated at byte ", place, "\n")
}

/// The source failed after that many bytes.
pub fn read_fault(place: u64) -> Lines
    ensures { result.bytes ≡ read_fault_line place }
{
    numbered("read fault at byte ", place, "\n")
}

/// A row is not allowed there.
pub fn bad_row(row: u64) -> Lines
    ensures { result.bytes ≡ row_line row }
{
    numbered("row ", row, " refused\n")
}

/// A cell is not allowed there.
pub fn bad_cell(row: u64, column: u64) -> Lines
    ensures { result.bytes ≡ cell_line row column }
{
    let mut lines = numbered("row ", row, " column ");
    lines.push_str(Buffer::new().format(column));
    lines.push_str(" refused\n");
    lines
}

/// The rows are those of files that have no bytes.
pub fn encode_fault(fault: EncodeFault) -> &'static str
    ensures { result.now ≡ encode_line fault }
{
    match fault {
        EncodeFault::ZeroIsSum { .. } => "encode fault: ZeroIsSum\n",
        EncodeFault::TooLong { .. } => "encode fault: TooLong\n",
        _ => "encode fault\n",
    }
}
