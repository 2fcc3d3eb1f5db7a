//! The kinds of numbers that most recordings have in the cells of the table. A cell whose numbers are of its usual kind is written by
//! code that was compiled for this kind, and so needn't look up for each row how they are shown.
ghost use Rattle.std.specs.Prelude.{◌≡◌, IsTrue};
ghost use Rattle.fit_table.specs.inner.TableKinds.{IsOfKind, kind_code, kind_form};

use fit_base::base_type::{SINT8, UINT8, UINT16, UINT32};
use fit_cells::NumberForm;

/// A base type, and how its numbers are shown in a cell.
#[derive(Clone, Copy, PartialEq, Eq)]
pub(crate) enum Kind {
    /// None of the others.
    Other,
    Byte,
    SignedByte,
    Short,
    ShortHeight,
    LongHeight,
    ShortThousandths,
    LongThousandths,
    LongHundredths,
}

/// The form with these members.
#[inline(always)]
fn form_of(
    signed: bool,
    width: u8,
    invalid: u64,
    factor: u32,
    shift: u64,
    decimals: u8,
) -> NumberForm
    ensures { result ≡ record {
      signed = signed;
      width = width;
      invalid = invalid;
      factor = factor;
      shift = shift;
      decimals = decimals;
    } }
{
    NumberForm {
        signed,
        width,
        invalid,
        factor,
        shift,
        decimals,
    }
}

/// Whether two forms are the same.
fn is_same(a: NumberForm, b: NumberForm) -> bool
    ensures { IsTrue result → a ≡ b }
{
    a.signed == b.signed
        && a.width == b.width
        && a.invalid == b.invalid
        && a.factor == b.factor
        && a.shift == b.shift
        && a.decimals == b.decimals
}

impl Kind {
    /// The base type.
    #[inline(always)]
    pub(crate) fn code(self) -> u8
        ensures { result ≡ kind_code self }
    {
        match self {
            Kind::Other => 0,
            Kind::Byte => UINT8,
            Kind::SignedByte => SINT8,
            Kind::Short | Kind::ShortHeight | Kind::ShortThousandths => UINT16,
            Kind::LongHeight | Kind::LongThousandths | Kind::LongHundredths => UINT32,
        }
    }

    /// How the numbers are shown.
    #[inline(always)]
    pub(crate) fn form(self) -> NumberForm
        ensures { result ≡ kind_form self }
    {
        match self {
            Kind::SignedByte => form_of(true, 1, 0x7F, 1, 0, 0),
            Kind::Other | Kind::Byte => form_of(false, 1, 0xFF, 1, 0, 0),
            Kind::Short => form_of(false, 2, 0xFFFF, 1, 0, 0),
            Kind::ShortHeight => form_of(false, 2, 0xFFFF, 2, 2500, 1),
            Kind::LongHeight => form_of(false, 4, 0xFFFF_FFFF, 2, 2500, 1),
            Kind::ShortThousandths => form_of(false, 2, 0xFFFF, 1, 0, 3),
            Kind::LongThousandths => form_of(false, 4, 0xFFFF_FFFF, 1, 0, 3),
            Kind::LongHundredths => form_of(false, 4, 0xFFFF_FFFF, 1, 0, 2),
        }
    }

    /// The kind of the numbers of a field, where it is this usual one.
    pub(crate) fn of(usual: Kind, code: u8, form: NumberForm) -> Kind
        ensures { IsOfKind result code form }
    {
        if code == usual.code() && is_same(form, usual.form()) {
            usual
        } else {
            Kind::Other
        }
    }
}
