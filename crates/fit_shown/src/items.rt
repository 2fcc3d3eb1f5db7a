//! The items of the fields of a message in their bytes, put in rows and in lines.
ghost use Rattle.std.specs.Prelude.{◌≡◌, ◌≤◌, ◌+◌, ◌++◌, ◌∷◌, [], IfOk};
ghost use Rattle.csv.specs.Writing.{default_writer, field_text};
ghost use Rattle.fit_cells.specs.Cells.{cell};
ghost use Rattle.fit_shown.specs.Shown.{shown_cell};
ghost use Rattle.fit_shown.specs.Frames.{HasFields, HasItems, TakesField};
ghost use Rattle.fit_texts.specs.Sheets.{and_sheet};

use crate::frames::Frame;
use crate::pen::Pen;
use crate::shown::ShownCell;
use fit_base::Order;
use fit_texts::Sheet;
use std::alloc::{AllocError, Global};

/// Items in their bytes.
#[derive(Drop)]
pub struct ItemBytes<'a> {
    /// Where the memory of items comes from.
    pub alloc: Global,
    pub order: Order,
    /// The bytes of the fields that come next.
    pub rest: &'a [u8],
}

impl<'a> ItemBytes<'a> {
    /// Takes those of the next field, and puts what stands before its value in a row, and the value.
    #[inline(always)]
    pub fn put_next(
        &mut self,
        text: &mut Vec<u8>,
        sheet: &mut Sheet,
        at: usize,
        pen: &mut Pen,
        frame: &Frame,
    ) -> Result<usize, AllocError>
        requires place { at ≤ 1024 }
        requires fields { HasFields HasItems self.old ((frame.now.code, frame.now.size) ∷ []) }
        ensures place { IfOk result (λ end. end ≤ 1024) }
        ensures fields { IfOk result (λ end. TakesField HasItems self.old self.new
            (frame.now.code, frame.now.size) (λ i. and_sheet text.new.items sheet.new end
            ≡ (and_sheet text.old.items sheet.old at ++ frame.now.between)
            ++ field_text default_writer (cell frame.now.code frame.now.info i))) }
    {
        let (bytes, rest) = self.rest.split_at(frame.size() as usize);
        self.rest = rest;
        frame.put_bytes(text, sheet, at, pen, self.order, bytes)
    }

    /// Takes those of the next field, and puts its cell as a line shows it.
    #[inline(always)]
    pub fn show_next(
        &mut self,
        text: &mut Vec<u8>,
        sheet: &mut Sheet,
        at: usize,
        shown: &ShownCell,
    ) -> Result<usize, AllocError>
        requires room { at + 32 ≤ 1024 }
        requires fields { HasFields HasItems self.old ((shown.now.code, shown.now.size) ∷ []) }
        ensures place { IfOk result (λ end. end ≤ 1024) }
        ensures fields { IfOk result (λ end. TakesField HasItems self.old self.new
            (shown.now.code, shown.now.size) (λ i. and_sheet text.new.items sheet.new end
            ≡ and_sheet text.old.items sheet.old at
            ++ shown_cell shown.now.code shown.now.info i)) }
    {
        let (bytes, rest) = self.rest.split_at(shown.size() as usize);
        self.rest = rest;
        shown.put_bytes(text, sheet, at, self.alloc, self.order, bytes)
    }
}
