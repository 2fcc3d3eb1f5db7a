//! The table of a ride.
ghost use Rattle.std.specs.Prelude.{◌≡◌, IfErr, IfOk, List, OnOk, flat_map};
ghost use Rattle.std.specs.declared.alloc.Global.{Global};
ghost use Rattle.fit_record.specs.declared.file.FitFile.{FitFile};
ghost use Rattle.fit_record.specs.Files.{IsChain, chain_limit};
ghost use Rattle.fit_chain.specs.Checks.{AreChain};
ghost use Rattle.fit_chain.specs.Events.{file_events};
ghost use Rattle.fit_cells.specs.Rows.{csv_text};
ghost use Rattle.fit_table.specs.Table.{table_of};
ghost use Rattle.fit_examples.specs.Tables.{CsvLacksMemory, IsTableFault};

use gazhdor::{CsvFault, WriteSink, table};
use std::alloc::Global;

/// The table of a FIT file, or of a chain of such files, as CSV text: a row for each record message.
///
/// `Decode` where the bytes are no chain of files: it has the first byte that cannot belong to any, and the reason, or the length of
/// bytes that end too soon. Out of memory, the error is `Write` where there is none for the text, else `NoMemory`.
pub fn ride_table(alloc: Global, ride: &[u8]) -> Result<Vec<u8>, CsvFault>
    ensures good { OnOk result (AreChain Global ride.now) }
    ensures rows { (fs : List (FitFile Global)) → IsChain chain_limit fs ride.now →
        IfOk result (λ text. text.items ≡ csv_text (table_of (flat_map file_events fs))) }
    ensures fault { IfErr result (IsTableFault ride.now) }
    // A chain of files fails only by running out of memory.
    ensures memory { AreChain Global ride.now → IfErr result CsvLacksMemory }
{
    let mut source = ride;
    let mut sink = WriteSink::new(Vec::new(alloc));
    table(alloc, &mut source, &mut sink)?;
    Ok(sink.into_inner())
}
