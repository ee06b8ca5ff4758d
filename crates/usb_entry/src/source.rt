//! Devices that make entries, and their tables.
ghost use Rattle.std.specs.Prelude.{IfErr, IfOk, OnOk};
ghost use Rattle.usb_entry.specs.Writing.{AddsTable, AreTables, HasSourceFault, IsTable, StopsAt};

use crate::fault::EntryFault;
use crate::notes::Notes;
use crate::reading::entry_of;
use crate::text::entry_text;
use std::alloc::Global;

/// A device that makes an entry.
#[derive(Clone, Copy, Debug)]
pub struct Source<'a> {
    /// The name that the plan gives it.
    pub name: &'a str,
    /// What Linux has of it beside its descriptors.
    pub notes: Notes<'a>,
    /// Its device descriptor, and each configuration whole.
    pub bytes: &'a [u8],
}

/// The table of a device.
fn table_of(alloc: Global, ports: u8, source: &Source<'_>) -> Result<Vec<u8>, EntryFault>
    ensures ok { IfOk result (λ text. IsTable ports source.now text.items) }
    ensures err { IfErr result (HasSourceFault source.now) }
{
    if source.name.is_empty() {
        return Err(EntryFault::NoName);
    }
    let entry = entry_of(alloc, source.bytes)?;
    match entry_text(alloc, source.name, ports, &source.notes, &entry) {
        Ok(text) => Ok(text),
        Err(_) => Err(EntryFault::Memory),
    }
}

/// Adds the table of a device.
#[tactic(auto, using(crate::proofs::Tables::memory_at))]
fn push_table(
    alloc: Global,
    ports: u8,
    tables: &mut Vec<u8>,
    source: &Source<'_>,
) -> Result<(), EntryFault>
    ensures ok { OnOk result (AddsTable ports source.now tables.old.items tables.new.items) }
    ensures err { IfErr result (HasSourceFault source.now) }
{
    let table = table_of(alloc, ports, source)?;
    match tables.extend_from_slice(table.as_slice()) {
        Ok(()) => Ok(()),
        Err(_) => Err(EntryFault::Memory),
    }
}

/// The tables of devices, one behind the other; a fault with the number of devices before it.
#[tactic(auto, using(crate::proofs::Tables::made_all, crate::proofs::Tables::stops_at))]
pub(crate) fn tables_of(
    alloc: Global,
    ports: u8,
    sources: &[Source<'_>],
) -> Result<Vec<u8>, (usize, EntryFault)>
    ensures ok { IfOk result (λ text. AreTables ports sources.now text.items) }
    ensures err { IfErr result (λ fault. StopsAt sources.now fault.0 fault.1) }
{
    let mut tables = Vec::new(alloc);
    'sources: for (made, source) in sources.iter().enumerate() {
        match push_table(alloc, ports, &mut tables, source) {
            Ok(()) => {}
            Err(fault) => return Err((made, fault)),
        }
    }
    Ok(tables)
}
