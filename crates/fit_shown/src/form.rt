//! How the value of a field is shown in rows and in lines, found out once for many messages.
ghost use Rattle.std.specs.Prelude.{◌≡◌, ◌≤◌, ◌%◌, IfOk, IfSome, IsNone, IsTrue, length};
ghost use Rattle.fit_numbers.specs.Scaled.{IsScale};
ghost use Rattle.fit_cells.specs.Forms.{IsFormOf, IsSmallForm};
ghost use Rattle.fit_texts.specs.Sheets.{and_sheet};
ghost use Rattle.fit_shown.specs.inner.FieldForms.{IsFieldForm, IsFieldKind, IsShownAfter, field_meaning};

use fit_base::{Code, Order};
use fit_cells::{NumberForm, is_never_quoted};
use fit_profile::Info;
use fit_texts::{Sheet, add_bytes, add_float, add_numbers, field_form, is_lone_float, is_of_bytes};
use std::alloc::AllocError;

/// What the value of a field is.
#[derive(Clone, Copy)]
pub(crate) enum FieldKind {
    /// A number of at most four bytes, which are those of the field.
    Lone,
    /// Several numbers of at most four bytes, or none.
    Several,
    /// One floating point number.
    Float,
    /// Bytes.
    Bytes,
    /// A string.
    Text,
    /// None of the others.
    Other,
}

/// The kind of the value of a field of this base type code and size, by whether it is numbers that have a form, and a lone one.
#[inline(always)]
fn field_kind(code: Code, size: u8, is_formed: bool, is_lone: bool) -> FieldKind
    ensures lone { result ≡ FieldKind.Lone → IsTrue is_lone }
    ensures kind { IsFieldKind code.0 size result }
{
    if is_lone {
        return FieldKind::Lone;
    }
    if is_formed {
        return FieldKind::Several;
    }
    if !is_never_quoted(code) {
        return FieldKind::Text;
    }
    if is_of_bytes(code, size) {
        return FieldKind::Bytes;
    }
    if is_lone_float(code, size) {
        return FieldKind::Float;
    }
    FieldKind::Other
}

/// How the value of a field is shown.
#[derive(Clone, Copy)]
pub(crate) struct FieldForm {
    pub code: Code,
    pub size: u8,
    pub info: Option<Info>,
    pub kind: FieldKind,
    /// The form of the numbers, where the value is one or several of at most four bytes.
    number: Option<NumberForm>,
}

impl FieldForm {
    /// That of a field of this base type code, size and meaning.
    #[inline(always)]
    pub(crate) fn new(code: u8, size: u8, info: Option<Info>) -> FieldForm
        requires { IfSome info (λ i. IsScale i.scale) }
        ensures known { IsFieldForm result }
        ensures same { (result.code.0 ≡ code) × (result.size ≡ size) × (result.info ≡ info) }
    {
        let (number, is_lone) = field_form(code, size, info);
        FieldForm {
            code: Code(code),
            size,
            info,
            kind: field_kind(Code(code), size, number.is_some(), is_lone),
            number,
        }
    }

    /// The form of a lone number of at most four bytes.
    #[inline(always)]
    pub(crate) fn lone(&self) -> Option<NumberForm>
        requires { IsFieldForm self.now }
        ensures small { IfSome result IsSmallForm }
        ensures width { IfSome result (λ f. f.width ≡ self.now.size) }
        ensures form { IfSome result (IsFormOf self.now.code.0 (field_meaning self.now)) }
    {
        match self.kind {
            FieldKind::Lone => self.number,
            _ => None,
        }
    }

    /// Where the form of a lone number of at most four bytes is kept.
    #[inline(always)]
    pub(crate) fn lone_number(&self) -> Option<&NumberForm> {
        match self.kind {
            FieldKind::Lone => self.number.as_ref(),
            _ => None,
        }
    }

    /// The form of several numbers of at most four bytes.
    #[inline(always)]
    pub(crate) fn several(&self) -> Option<NumberForm>
        requires { IsFieldForm self.now }
        ensures small { IfSome result IsSmallForm }
        ensures whole { IfSome result (λ f. self.now.size % f.width ≡ 0) }
        ensures form { IfSome result (IsFormOf self.now.code.0 (field_meaning self.now)) }
    {
        match self.kind {
            FieldKind::Several => self.number,
            _ => None,
        }
    }

    /// Adds several numbers, a floating point number or bytes to what is written in a sheet, by the bytes of the field, where the value
    /// is such. Returns the place after them.
    #[inline(always)]
    pub(crate) fn add_from_bytes(
        &self,
        text: &mut Vec<u8>,
        sheet: &mut Sheet,
        at: usize,
        order: Order,
        bytes: &[u8],
    ) -> Option<Result<usize, AllocError>>
        requires known { IsFieldForm self.now }
        requires place { at ≤ 1024 }
        requires length { length bytes.now ≡ self.now.size }
        ensures none { IsNone result → (text.new ≡ text.old) × (sheet.new ≡ sheet.old) }
        ensures place { IfSome result (λ r. IfOk r (λ end. end ≤ 1024)) }
        ensures shown { IfSome result (λ r. IfOk r (λ end. IsShownAfter self.now order bytes.now
            (and_sheet text.old.items sheet.old at) (and_sheet text.new.items sheet.new end))) }
    {
        if let Some(form) = self.several() {
            return Some(add_numbers(text, sheet, at, form, order, bytes));
        }
        match self.kind {
            FieldKind::Float => Some(add_float(text, sheet, at, self.size, order, bytes)),
            FieldKind::Bytes => Some(add_bytes(text, sheet, at, self.size, bytes)),
            _ => None,
        }
    }
}
