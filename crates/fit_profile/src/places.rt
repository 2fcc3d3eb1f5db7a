//! Where the fields of a definition stand by their numbers, so that a field of a message is found at once.
ghost use Rattle.std.specs.Prelude.{◌≡◌, ◌<◌, length, option_map};
ghost use Rattle.fit_profile.specs.Looks.{first_field};
ghost use Rattle.fit_profile.specs.inner.Places.{AreFieldPlaces, both_at};

use fit_base::Items;
use fit_record::FieldDef;
use std::alloc::Allocator;

/// One more than the place of the first field of each number, and 0 where there is none.
pub(crate) fn places_of(fields: &[FieldDef]) -> [u8; 256]
    requires { length fields.now < 256 }
    ensures { AreFieldPlaces result fields.now }
{
    let mut places = [0; 256];
    // From the last field to the first, so that the first of a number stays.
    for count in 0..fields.len() {
        let place = fields.len() - 1 - count;
        places[fields[place].number as usize] = place as u8 + 1;
    }
    places
}

/// The first field of this number, with its items.
#[inline(always)]
pub(crate) fn first_at<'a, A: Allocator>(
    fields: &'a [FieldDef],
    items: &'a [Items<A>],
    places: &[u8; 256],
    number: u8,
) -> Option<(&'a FieldDef, &'a Items<A>)>
    requires { AreFieldPlaces places.now fields.now }
    ensures { option_map (λ f. (f.0.now, f.1.now)) result
        ≡ first_field fields.now items.now number }
{
    let place = places[number as usize] as usize;
    if place == 0 {
        return None;
    }
    at_place(fields, items, place - 1)
}

/// The field at a place, with its items.
#[inline(always)]
fn at_place<'a, A: Allocator>(
    fields: &'a [FieldDef],
    items: &'a [Items<A>],
    place: usize,
) -> Option<(&'a FieldDef, &'a Items<A>)>
    ensures { option_map (λ f. (f.0.now, f.1.now)) result
        ≡ both_at fields.now items.now place }
{
    let field = fields.get(place)?;
    let items = items.get(place)?;
    Some((field, items))
}
