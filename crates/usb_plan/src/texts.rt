//! Arrays of hex texts.

ghost use Rattle.std.specs.Prelude.{◌≡◌, ◌<◌, ◌≤◌, [], Ok, map, length};
ghost use Rattle.std.specs.Result.{ForOk};
ghost use Rattle.toml.specs.View.{view};
ghost use Rattle.usb_plan.specs.EntryFault.{EqualUnless};
ghost use Rattle.usb_plan.specs.Texts.{with_item, items_from, texts_in};
ghost use Rattle.usb_plan.specs.Value.{hex_in};
ghost use Rattle.usb_plan.specs.declared.entry_fault.EntryFault.TheVariants.{Memory};

use crate::entry_fault::{EntryFault, fault_in_part, least_fault};
use crate::value::{hex_in, read_items};
use std::alloc::Global;
use toml::Value;
use usb_device::{Bytes, Texts};

/// The texts with one more at their end.
#[tactic(auto, unfolding(crate::specs::Texts::with_item))]
fn with_text<const COUNT: usize, const MAX: usize>(
    texts: Result<Texts<COUNT, MAX>, EntryFault>,
    text: Result<Bytes<MAX>, EntryFault>,
) -> Result<Texts<COUNT, MAX>, EntryFault>
    requires { ForOk texts (λ x. length x < COUNT) }
    ensures { EqualUnless Memory result (with_item texts.entry text.entry) }
{
    least_fault(&[fault_in_part(&texts), fault_in_part(&text)])?;
    let mut texts = texts?;
    texts.push(text?)?;
    Ok(texts)
}

/// The texts of at most this number of values, or their first fault.
fn texts_of<const COUNT: usize, const MAX: usize>(
    alloc: Global,
    values: &[Value],
) -> Result<Texts<COUNT, MAX>, EntryFault>
    requires { length values.now ≤ COUNT }
    ensures { EqualUnless Memory result
        (items_from (hex_in MAX) (Ok []) (map view values.now)) }
{
    let mut texts = Ok(Texts::new(alloc));
    for value in values {
        texts = with_text(texts, hex_in::<MAX>(alloc, value));
    }
    texts
}

/// The texts of an array of at most this number.
#[tactic(auto, unfolding(crate::specs::Texts::texts_in))]
pub(crate) fn texts_in<const COUNT: usize, const MAX: usize>(
    alloc: Global,
    value: &Value,
) -> Result<Texts<COUNT, MAX>, EntryFault>
    ensures { EqualUnless Memory result (texts_in COUNT MAX (view value.now)) }
{
    let values = read_items(value)?;
    if values.len() <= COUNT {
        texts_of(alloc, values)
    } else {
        Err(EntryFault::BadValue)
    }
}
