//! What fields have in common, those of the profile and developer fields: a base type code and a size.
ghost use Rattle.std.specs.Prelude.{◌≡◌, ◌<◌, Some, length, map, slice_get, zip};
ghost use Rattle.fit_record.specs.Records.{layout, dev_layout};
ghost use Rattle.fit_record.specs.Environment.{dev_defs};
ghost use Rattle.fit_record.specs.Sound.{IsSound};

use crate::{Defined, DevDef, FieldDef};
use std::alloc::Allocator;
use std::marker::Model;

/// Where base type codes and sizes stand.
#[derive(Drop)]
enum Shapes<'a> {
    /// In fields.
    Fields(&'a [FieldDef]),
    /// In base type codes, and in the developer fields that have them.
    DevFields(&'a [u8], &'a [DevDef]),
}

/// The base type code and the size of each field, or of each developer field, of a definition in its
/// place. Clauses see the list of them.
#[derive(Drop)]
pub struct Layout<'a> {
    shapes: Shapes<'a>,
}

impl<'a> Model for Layout<'a> {
    ghost use Rattle.std.specs.Prelude.{ℕ, List};

    ghost Value = { List (ℕ × ℕ) };

    ghost use Rattle.fit_record.specs.inner.ShapeLists.{shapes_of, HaveCodes};

    ghost view = { λ l. shapes_of l.shapes };

    ghost invariant = { λ l. HaveCodes l.shapes };
}

impl<'a> Layout<'a> {
    /// How many fields there are.
    #[inline(always)]
    pub fn len(&self) -> usize
        ensures { result ≡ length self.now }
    {
        match self.shapes {
            Shapes::Fields(fields) => fields.len(),
            Shapes::DevFields(_, fields) => fields.len(),
        }
    }

    /// The base type code and the size of the field at a place. Places count from 0.
    #[inline(always)]
    pub fn shape(&self, place: usize) -> (u8, u8)
        requires { place < length self.now }
        ensures { slice_get self.now place ≡ Some result }
    {
        match self.shapes {
            Shapes::Fields(fields) => shape_of_field(fields, place),
            Shapes::DevFields(codes, fields) => shape_of_dev_field(codes, fields, place),
        }
    }
}

/// The base type code and the size of the field at a place.
#[inline(always)]
fn shape_of_field(fields: &[FieldDef], place: usize) -> (u8, u8)
    requires { place < length fields.now }
    ensures { slice_get (map (λ f. (f.code, f.size)) fields.now) place ≡ Some result }
{
    let field = fields[place];
    (field.code, field.size)
}

/// The base type code and the size of the developer field at a place, which has one of these base type codes.
#[inline(always)]
fn shape_of_dev_field(codes: &[u8], fields: &[DevDef], place: usize) -> (u8, u8)
    requires codes { length codes.now ≡ length fields.now }
    requires place { place < length fields.now }
    ensures { slice_get (zip codes.now (map (λ f. f.size) fields.now)) place ≡ Some result }
{
    (codes[place], fields[place].size)
}

impl<A: Allocator> Defined<A> {
    /// Base type code and size of each field.
    #[inline(always)]
    pub fn layout(&self) -> Layout<'_>
        ensures shapes { result ≡ layout self.now }
        ensures count { length result ≡ length self.now.definition.fields }
    {
        Layout {
            shapes: Shapes::Fields(self.definition.fields.as_slice()),
        }
    }

    /// Base type code and size of each developer field. Without developer fields there is none.
    #[inline(always)]
    pub fn dev_layout(&self) -> Layout<'_>
        requires { IsSound self.now }
        ensures shapes { result ≡ dev_layout self.now }
        ensures count { length result ≡ length (dev_defs self.now.definition.dev) }
    {
        match &self.definition.dev {
            None => Layout {
                shapes: Shapes::Fields(&[]),
            },
            Some(fields) => Layout {
                shapes: Shapes::DevFields(self.dev_codes.as_slice(), fields.as_slice()),
            },
        }
    }
}
