//! What C holds of a stream.
ghost use Rattle.std.specs.Prelude.{◌≡◌, MatchOption, None, Option, Some};
ghost use Rattle.fit_stream.specs.Streams.{StreamNow};

use crate::loose::Loose;
use fit_stream::ChainStream;
use std::alloc::Global;
use std::marker::Model;
use std::mem;
use std::ptr::null_mut;

/// A stream, or none where it is closed. C holds it by value and passes its address, begins with a null pointer, and makes no copy.
#[repr(C)]
pub struct FitStream {
    at: *mut u8,
    pub ghost value: { Option StreamNow },
}

impl Model for FitStream {
    ghost use Rattle.fit_c.specs.inner.Handles.{holds};

    ghost also_owns = { λ h. holds h.at h.value };
}

// It owns a box or nothing, and neither is bound to a thread.
unsafe impl Send for FitStream {}

impl FitStream {
    fn closed() -> FitStream
        ensures { result.value ≡ None }
    {
        FitStream { at: null_mut() }
    }

    fn of(loose: Loose<ChainStream, Global>) -> FitStream
        ensures { result.value ≡ Some loose.value }
    {
        let Loose { at, alloc: _ } = loose;
        FitStream { at: at as *mut u8 }
    }

    fn into_loose(self, alloc: Global) -> Option<Loose<ChainStream, Global>>
        ensures { MatchOption result (self.value ≡ None) (λ l. self.value ≡ Some l.value) }
    {
        let FitStream { at } = self;
        if at.is_null() {
            None
        } else {
            Some(Loose {
                at: at as *mut ChainStream,
                alloc,
            })
        }
    }

    /// Takes the stream, and leaves none.
    pub(crate) fn take(&mut self, alloc: Global) -> Option<Box<ChainStream>>
        ensures old { MatchOption result (self.old.value ≡ None)
            (λ b. self.old.value ≡ Some b.value) }
        ensures new { self.new.value ≡ None }
    {
        match mem::replace(self, FitStream::closed()).into_loose(alloc) {
            None => None,
            Some(loose) => Some(loose.into_box()),
        }
    }

    /// Puts a stream in the place of the one before, which it frees.
    pub(crate) fn put(&mut self, alloc: Global, stream: Box<ChainStream>)
        ensures { self.new.value ≡ Some stream.value }
    {
        let old = mem::replace(self, FitStream::of(Loose::of(stream)));
        if let Some(loose) = old.into_loose(alloc) {
            drop(loose.into_box());
        }
    }

    /// Frees the stream, where there is one.
    pub(crate) fn clear(&mut self, alloc: Global)
        ensures { self.new.value ≡ None }
    {
        if let Some(stream) = self.take(alloc) {
            drop(stream);
        }
    }
}
