//! The lines of the items of a run.
ghost use Rattle.std.specs.Prelude.{◌≡◌, ◌<◌, ◌∷◌, [], IfOk};
ghost use Rattle.usb_run.specs.ItemLines.{item_lines, number_of};

use crate::Item;
use crate::answers::{answer_line, news_lines};
use std::alloc::{AllocError, Global};
use usb_text::{Lines, listing_lines};

/// The number of the last listing, once an item is made.
pub fn number_of(item: &Item, number: u64) -> u64
    ensures { number < 18446744073709551615 → result ≡ number_of item.now number }
{
    match item {
        Item::Listing(_, _, _) => number.saturating_add(1),
        Item::News(_) | Item::Answer(_, _, _) => number,
    }
}

/// The lines of an item; the number is that of a listing.
///
/// # Errors
///
/// Memory was refused.
pub fn item_lines(alloc: Global, number: u64, item: &Item) -> Result<Lines, AllocError>
    ensures { IfOk result (λ lines. lines ≡ item_lines number item.now) }
{
    match item {
        Item::Listing(tree, _, said) => listing_lines(alloc, number, tree.entries(), said),
        Item::News(news) => news_lines(alloc, news.as_slice()),
        Item::Answer(path, task, end) => one_line(alloc, answer_line(alloc, path, task, end)?),
    }
}

fn one_line(alloc: Global, line: Vec<u8>) -> Result<Lines, AllocError>
    ensures { IfOk result (λ lines. lines ≡ line.items ∷ []) }
{
    let mut lines = Lines::new(alloc);
    lines.push(line)?;
    Ok(lines)
}
