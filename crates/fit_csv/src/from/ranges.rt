//! The numbers of a record, which are in their ranges by their types. Contracts see them as numbers of any size, and the range of one in a
//! list is known only where a body reads it: so each is read here. Nothing of this is left in the program.
ghost use Rattle.fit_csv.specs.Judged.{DevDefInRange, FieldDefInRange, RecordInRange};
ghost use Rattle.std.specs.Prelude.{All};

use fit_record::{DevDef, FieldDef, Record};
use fit_texts::words::dev_slice;

/// Each number of a field is one of a byte.
fn field_in_range(field: FieldDef)
    ensures { FieldDefInRange field }
{
    let FieldDef { number, size, code } = field;
    let _ = (number, size, code);
}

/// Each number of a developer field is one of a byte.
fn dev_in_range(field: DevDef)
    ensures { DevDefInRange field }
{
    let DevDef {
        number,
        size,
        index,
    } = field;
    let _ = (number, size, index);
}

/// Each number of these fields is one of a byte.
fn are_in_range(fields: &[FieldDef])
    ensures { All FieldDefInRange fields.now }
{
    for field in fields {
        field_in_range(*field);
    }
}

/// Each number of these developer fields is one of a byte.
fn are_dev_in_range(fields: &[DevDef])
    ensures { All DevDefInRange fields.now }
{
    for field in fields {
        dev_in_range(*field);
    }
}

/// Each number of a record has the width of its place.
pub(crate) fn is_in_range(record_: &Record)
    ensures { RecordInRange record_.now }
{
    if let Record::Define(definition) = record_ {
        let _reserved = definition.reserved;
        are_in_range(definition.fields.as_slice());
        are_dev_in_range(dev_slice(&definition.dev));
    }
}
