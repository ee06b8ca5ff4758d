//! How the items of a run are written.
ghost use Rattle.std.specs.Prelude.{◌≡◌, ℕ, List, IfOk};
ghost use Rattle.usb_run.specs.ItemLines.{item_lines};
ghost use Rattle.usb_run.specs.declared.item.Item.{Item as AnItem};

use std::alloc::{AllocError, Global};
use usb_run::{Item, item_lines};
use usb_text::Lines;

/// How each item of a run is written.
pub trait ItemLines {
    /// The lines of an item; the number is that of a listing.
    ghost lines: { Self → ℕ → AnItem → List (List ℕ) };

    /// Makes the lines of an item; the number is that of a listing.
    ///
    /// # Errors
    ///
    /// Memory was refused.
    fn lines_of(&self, alloc: Global, number: u64, item: &Item) -> Result<Lines, AllocError>
        ensures { IfOk result (λ made. made ≡ lines self.now number item.now) };
}

/// Each item in the lines that mode Tree has for it.
pub(crate) struct PlainLines;

impl ItemLines for PlainLines {
    ghost lines = { λ _ number item. item_lines number item };

    fn lines_of(&self, alloc: Global, number: u64, item: &Item) -> Result<Lines, AllocError> {
        item_lines(alloc, number, item)
    }
}
