//! What C holds of a writer.
ghost use Rattle.std.specs.Prelude.{◌≡◌, MatchOption, None, Option, Some};
ghost use Rattle.fit_writer.specs.Written.{Writing};

use crate::loose::Loose;
use fit_writer::MessageWriter;
use std::alloc::Global;
use std::marker::Model;
use std::mem;
use std::ptr::null_mut;

/// A writer, or none where it is closed. C holds it by value and passes its address, begins with a null pointer, and makes no copy.
#[repr(C)]
pub struct FitWriter {
    at: *mut u8,
    pub ghost value: { Option Writing },
}

impl Model for FitWriter {
    ghost use Rattle.fit_c.specs.inner.WriterHandles.{holds};

    ghost also_owns = { λ h. holds h.at h.value };
}

// It owns a box or nothing, and neither is bound to a thread.
unsafe impl Send for FitWriter {}

impl FitWriter {
    fn closed() -> FitWriter
        ensures { result.value ≡ None }
    {
        FitWriter { at: null_mut() }
    }

    fn of(loose: Loose<MessageWriter, Global>) -> FitWriter
        ensures { result.value ≡ Some loose.value }
    {
        let Loose { at, alloc: _ } = loose;
        FitWriter { at: at as *mut u8 }
    }

    fn into_loose(self, alloc: Global) -> Option<Loose<MessageWriter, Global>>
        ensures { MatchOption result (self.value ≡ None) (λ l. self.value ≡ Some l.value) }
    {
        let FitWriter { at } = self;
        if at.is_null() {
            None
        } else {
            Some(Loose {
                at: at as *mut MessageWriter,
                alloc,
            })
        }
    }

    /// Takes the writer, and leaves none.
    pub(crate) fn take(&mut self, alloc: Global) -> Option<Box<MessageWriter>>
        ensures old { MatchOption result (self.old.value ≡ None)
            (λ b. self.old.value ≡ Some b.value) }
        ensures new { self.new.value ≡ None }
    {
        match mem::replace(self, FitWriter::closed()).into_loose(alloc) {
            None => None,
            Some(loose) => Some(loose.into_box()),
        }
    }

    /// Puts a writer in the place of the one before, which it frees.
    pub(crate) fn put(&mut self, alloc: Global, writer: Box<MessageWriter>)
        ensures { self.new.value ≡ Some writer.value }
    {
        let old = mem::replace(self, FitWriter::of(Loose::of(writer)));
        if let Some(loose) = old.into_loose(alloc) {
            drop(loose.into_box());
        }
    }

    /// Frees the writer, where there is one.
    pub(crate) fn clear(&mut self, alloc: Global)
        ensures { self.new.value ≡ None }
    {
        if let Some(writer) = self.take(alloc) {
            drop(writer);
        }
    }
}
