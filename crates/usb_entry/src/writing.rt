//! The bytes of devices in, the entries of a plan out.
ghost use Rattle.std.specs.Prelude.{◌≡◌, true, IfErr};
ghost use Rattle.usb_watch.specs.Watch.{inner_of, has_failed};
ghost use Rattle.usb_entry.specs.Writing.{MarksAtWrite, WritesEntries};

use crate::fault::EntryFault;
use crate::source::{Source, tables_of};
use std::alloc::Global;
use std::io::Write;
use usb_watch::{Watched, put_piece};

/// Writes the `[[device]]` tables of a plan for these devices, in order, each with this number of ports, 1 to 7, if it
/// is a hub.
///
/// # Errors
///
/// The first that holds of the first device that has one, with the number of devices before it. Nothing is written but
/// at `Write`:
///
/// - `NoName`: the name is empty.
/// - `Empty`, `Device`, `TooMany`, `Configuration`, `Missing`, `LeftOver`: as of [`entry_of`](crate::entry_of).
/// - `Memory`: memory was refused.
/// - `Write`, with the number of all devices: the writer failed. A prefix of the tables is written.
#[tactic(auto, using(crate::proofs::Tables::stopped))]
pub fn write_entries<W: Write>(
    alloc: Global,
    ports: u8,
    sources: &[Source<'_>],
    writer: &mut Watched<W>,
) -> Result<(), (usize, EntryFault)>
    ensures written { WritesEntries ports sources.now (W.contents (inner_of writer.old)) result
        (W.contents (inner_of writer.new)) }
    ensures marked { MarksAtWrite result (has_failed writer.old) (has_failed writer.new) }
{
    let tables = match tables_of(alloc, ports, sources) {
        Ok(tables) => tables,
        Err(fault) => return Err(fault),
    };
    match put_piece(writer, tables.as_slice()) {
        Ok(()) => Ok(()),
        Err(_) => Err((sources.len(), EntryFault::Write)),
    }
}
