//! The rows of the table, and what they are put with.
ghost use Rattle.std.specs.Prelude.{◌≡◌, ◌∷◌, [], OnOk, length, option_map};
ghost use Rattle.fit_record.specs.MessageBytes.{message_in};
ghost use Rattle.fit_record.specs.Records.{message_size};
ghost use Rattle.fit_record.specs.declared.message.Record.TheVariants.{Values as Data};
ghost use Rattle.fit_profile.specs.Opened.{IsOpened};
ghost use Rattle.fit_profile.specs.Times as times;
ghost use Rattle.fit_profile.specs.declared.told.Told.{Told};
ghost use Rattle.fit_cells.specs.Rows.{HasRows};
ghost use Rattle.fit_table.specs.Table as table;
ghost use Rattle.fit_table.specs.inner.TableColumns.{ArePlaces, TellsAmounts};

use crate::amounts::Amounts;
use crate::columns::{Columns, Places};
use crate::numbers::in_bytes::NumbersInBytes;
use crate::rows::{TableRowMaker, put_row};
use fit_profile::Stream;
use fit_record::MessageBytes;
use fit_text_report::Moment;
use std::alloc::{AllocError, Global};

/// What the rows of the table are put with, one after another.
#[derive(Drop)]
pub struct TableMaker {
    /// The memory of the columns that are found out.
    pub(crate) alloc: Global,
    pub(crate) rows: TableRowMaker,
}

/// Puts the row of a record message of a file from its bytes by these places of its numbers, and by what it tells of a distance to
/// accumulate, where it may have one.
#[inline(always)]
fn put_placed(
    text: &mut Vec<u8>,
    rows: &mut TableRowMaker,
    places: &Places,
    amounts: Option<&Amounts>,
    message: &MessageBytes<'_>,
    moment: Moment,
) -> Result<(), AllocError>
    requires places { ArePlaces message.now.defined.now.definition.fields places.now }
    requires global { message.now.defined.now.definition.global ≡ 20 }
    requires long { length message.now.body.now ≡ message_size message.now.defined.now }
    requires some { (t : Told) × TellsAmounts (option_map (λ a. a.now) amounts) t }
    ensures { OnOk result ((t : Told) → moment.time ≡ t.time
        → TellsAmounts (option_map (λ a. a.now) amounts.entry) t
        → HasRows (table.table_row moment.file message.now.defined.now.definition
        (message_in message.now) t ∷ []) text.old text.new) }
{
    let numbers = NumbersInBytes {
        places,
        order: message.defined.definition.order,
        bytes: message.body,
        amounts,
    };
    put_row(text, rows, moment.file, moment.time, &numbers)
}

/// Puts the row of a record message that may have a distance to accumulate, by what it tells after the records of a stream.
#[inline(never)]
fn put_counted(
    text: &mut Vec<u8>,
    rows: &mut TableRowMaker,
    places: &Places,
    stream: &Stream,
    message: &MessageBytes<'_>,
    moment: Moment,
) -> Result<(), AllocError>
    requires places { ArePlaces message.now.defined.now.definition.fields places.now }
    requires global { message.now.defined.now.definition.global ≡ 20 }
    requires opened { IsOpened stream.now message.now }
    requires time { moment.time ≡ times.time stream.now (Data (message_in message.now)) }
    ensures { OnOk result (HasRows (table.table_message_rows moment.file stream.now
        (message_in message.now)) text.old text.new) }
{
    let amounts = Amounts::of(stream, message);
    put_placed(text, rows, places, Some(&amounts), message, moment)
}

/// Puts the row of a record message of a file from its bytes after the records of a stream, by its columns.
pub(crate) fn put_by(
    text: &mut Vec<u8>,
    rows: &mut TableRowMaker,
    columns: &Columns,
    stream: &Stream,
    message: &MessageBytes<'_>,
    moment: Moment,
) -> Result<(), AllocError>
    requires fields { message.now.defined.now.definition.fields ≡ columns.now }
    requires global { message.now.defined.now.definition.global ≡ 20 }
    requires opened { IsOpened stream.now message.now }
    requires time { moment.time ≡ times.time stream.now (Data (message_in message.now)) }
    ensures { OnOk result (HasRows (table.table_message_rows moment.file stream.now
        (message_in message.now)) text.old text.new) }
{
    let places = columns.places();
    if places.counts {
        return put_counted(text, rows, places, stream, message, moment);
    }
    put_placed(text, rows, places, None, message, moment)
}
