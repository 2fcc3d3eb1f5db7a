//! Where the items of fields are.
ghost use Rattle.std.specs.Prelude.{◌≡◌, [], IfOk, filter};
ghost use Rattle.fit_from_messages.specs.Slots.{slot_size};
ghost use Rattle.fit_from_messages.specs.inner.Slots.{has_items, reach_of};

use fit_base::Entries;
use std::alloc::{AllocError, Global};
use std::marker::Model;

/// Where the items of a field are in the block of a message, how many bytes each has, and how many there are.
#[derive(Clone, Copy)]
pub struct Slot {
    pub place: u32,
    pub width: u8,
    pub count: u8,
}

impl Slot {
    /// How many bytes they have.
    #[inline(always)]
    pub(crate) fn size(self) -> usize
        ensures { result ≡ slot_size self }
    {
        self.width as usize * self.count as usize
    }
}

/// Where the items of the fields of a definition are. A contract sees it as the list of all. Fields without items are passed over in
/// messages, so those with items are kept apart, and the farthest place of the others, which is to lie in the block as well.
pub(crate) struct Slots {
    all: Entries<Slot>,
    full: Entries<Slot>,
    reach: u32,
}

// A call wherever slots are dropped.
impl Drop for Slots {
    fn drop(self) {
        let Slots {
            reach: _,
            full: _full,
            all: _all,
        } = self;
    }
}

impl Model for Slots {
    ghost use Rattle.std.specs.Prelude.{◌≡◌, List, filter};
    ghost use Rattle.fit_from_messages.specs.declared.slot.Slot.{Slot};
    ghost use Rattle.fit_from_messages.specs.inner.Slots.{has_items, reach_of};

    ghost Value = { List Slot };

    ghost view = { λ s. s.all };

    ghost invariant = { λ s. (s.full ≡ filter has_items s.all) × (s.reach ≡ reach_of s.all) };
}

/// Those with items, in their order, and the farthest place of the others.
fn parted(alloc: Global, all: &[Slot]) -> Result<(Entries<Slot>, u32), AllocError>
    ensures full { IfOk result (λ p. p.0 ≡ filter has_items all.now) }
    ensures reach { IfOk result (λ p. p.1 ≡ reach_of all.now) }
{
    let mut full = Entries::new(alloc);
    let mut reach = 0;
    for slot in all {
        if slot.size() != 0 {
            full.push(*slot)?;
            continue;
        }
        reach = slot.place.max(reach);
    }
    Ok((full, reach))
}

impl Slots {
    /// There are none.
    pub(crate) fn none(alloc: Global) -> Slots
        ensures { result ≡ [] }
    {
        Slots {
            all: Entries::new(alloc),
            full: Entries::new(alloc),
            reach: 0,
        }
    }

    /// These.
    pub(crate) fn of(alloc: Global, all: Entries<Slot>) -> Result<Slots, AllocError>
        ensures { IfOk result (λ slots. slots ≡ all) }
    {
        let (full, reach) = parted(alloc, all.as_slice())?;
        Ok(Slots { all, full, reach })
    }

    /// Those with items.
    #[inline(always)]
    pub(crate) fn full(&self) -> &[Slot]
        ensures { result.now ≡ filter has_items self.now }
    {
        self.full.as_slice()
    }

    /// The farthest place of those without items.
    #[inline(always)]
    pub(crate) fn reach(&self) -> usize
        ensures { result ≡ reach_of self.now }
    {
        self.reach as usize
    }
}
