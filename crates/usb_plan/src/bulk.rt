//! The keys of a device's bulk endpoints.

ghost use Rattle.std.specs.Prelude.{◌≡◌, ◌≤◌, option_map};
ghost use Rattle.toml.specs.View.{view, table_view};
ghost use Rattle.usb_plan.specs.EntryFault.{EqualUnless};
ghost use Rattle.usb_plan.specs.Bulk.{source_at, halt_in, halt_at, bulk_with, read_bulk};
ghost use Rattle.usb_plan.specs.declared.entry_fault.EntryFault.TheVariants.{Memory};

use crate::entry_fault::{EntryFault, fault_in_part, least_fault};
use crate::keys::MOST_BEFORE_HALT;
use crate::value::{hex_in, number_in, value_at};
use std::alloc::Global;
use toml::{Table, Value};
use usb_device::Bytes;

/// The key `source`, which may be absent.
#[tactic(auto, unfolding(crate::specs::Bulk::source_at))]
fn source_at(alloc: Global, value: Option<&Value>) -> Result<Bytes<65535>, EntryFault>
    ensures { EqualUnless Memory result (source_at (option_map (λ v. view v.now) value.entry)) }
{
    match value {
        None => Ok(Bytes::new(Vec::new(alloc))),
        Some(value) => hex_in::<65535>(alloc, value),
    }
}

/// After how many packets an endpoint halts: 1 to 65,535.
#[tactic(auto, unfolding(crate::specs::Bulk::halt_in))]
fn halt_in(number: Option<i64>) -> Result<Option<u16>, EntryFault>
    ensures { result ≡ halt_in number }
{
    let packets = number_in(1, MOST_BEFORE_HALT, number)?;
    Ok(Some(packets as u16))
}

/// The key `halt_after`, which may be absent.
#[tactic(auto, unfolding(crate::specs::Bulk::halt_at))]
pub(crate) fn halt_at(value: Option<&Value>) -> Result<Option<u16>, EntryFault>
    ensures { result ≡ halt_at (option_map (λ v. view v.now) value.entry) }
{
    match value {
        None => Ok(None),
        Some(value) => halt_in(value.as_integer()),
    }
}

/// What a device's bulk endpoints do.
#[derive(Drop)]
pub(crate) struct Bulk {
    /// What bulk IN gives.
    pub(crate) source: Bytes<65535>,
    /// After how many packets bulk OUT halts.
    pub(crate) halt_after: Option<u16>,
}

/// What bulk endpoints do by these keys, or the least fault of the keys.
#[tactic(auto, unfolding(crate::specs::Bulk::bulk_with))]
fn bulk_with(
    source: Result<Bytes<65535>, EntryFault>,
    halt_after: Result<Option<u16>, EntryFault>,
) -> Result<Bulk, EntryFault>
    ensures { result ≡ bulk_with source halt_after }
{
    least_fault(&[fault_in_part(&source), fault_in_part(&halt_after)])?;
    Ok(Bulk {
        source: source?,
        halt_after: halt_after?,
    })
}

/// The keys of bulk endpoints.
#[tactic(auto, using(crate::proofs::MemoryRefusals::bulk_unless), unfolding(crate::specs::Bulk::read_bulk))]
pub(crate) fn read_bulk(alloc: Global, table: &Table) -> Result<Bulk, EntryFault>
    ensures { EqualUnless Memory result (read_bulk (table_view table.now)) }
{
    let source = source_at(alloc, value_at(table, "source"));
    let halt_after = halt_at(value_at(table, "halt_after"));
    bulk_with(source, halt_after)
}
