//! What holds of the rows of records and chains, and of texts. The laws of `fit_rows` are among them.
ghost use Rattle.fit_csv.specs.Follows.{RowsThatFollow};
ghost use Rattle.fit_csv.specs.Laws.{ChainsAreOfRows, ChainsHaveOwnRows, ChainsReadBack, RecordsHaveOwnRows, TextsComeBack, TextsHaveOneFinding};

use fit_encode::laws::{faults_are_one, good_chains_have_no_fault};
use fit_numbers::laws::text_has_one_number;
pub use fit_rows::laws::events_have_the_rows;
pub use fit_show::laws::chains_have_show_lines;
pub use fit_table::laws::{chains_have_tables, degrees_are_nearest, tables_read_back};
pub use fit_texts::laws::instant_text_is;
use std::alloc::{Allocator, Global};

/// After the same records, a record and its rows determine each other, and no record's rows begin
/// another's.
pub fn records_have_own_rows()
    ensures { RecordsHaveOwnRows }
{
    text_has_one_number();
}

/// A chain has rows of its own.
pub fn chains_have_own_rows()
    ensures { ChainsHaveOwnRows }
{
    text_has_one_number();
}

/// A chain with bytes is one that rows can give. So it has rows of its own.
pub fn chains_are_of_rows()
    ensures { ChainsAreOfRows }
{}

/// Which rows can follow others is a table of the kinds of rows with their ranges.
pub fn rows_that_follow()
    ensures { RowsThatFollow }
{
    text_has_one_number();
}

/// A text has one finding at most: the bytes of one chain, or one fault with one row and column.
pub fn texts_have_one_finding()
    ensures { TextsHaveOneFinding }
{
    chains_have_own_rows();
    good_chains_have_no_fault::<Global>();
    faults_are_one::<Global>();
}

/// The text of the rows of a chain, of any length, reads as these rows.
pub fn chains_read_back<A: Allocator>()
    ensures { ChainsReadBack A }
{}

/// What `to_csv` writes of a chain is a text of that chain, from which `from_csv` makes the same bytes,
/// if it has at most 2^62 bytes.
pub fn texts_come_back()
    ensures { TextsComeBack }
{}
