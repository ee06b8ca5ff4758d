//! The keys of a table, and the bounds of what stands at keys.

ghost use Rattle.std.specs.Prelude.{◌≡◌, map, option_map, string_bytes};
ghost use Rattle.std.specs.List.{list_any, list_all};
ghost use Rattle.std.specs.Str.{bytes_eq};
ghost use Rattle.std.specs.BTreeMap.{keys};
ghost use Rattle.toml.specs.View.{view, table_view};
ghost use Rattle.usb_plan.specs.Keys.{only_named, keys_at, no_when};

use crate::entry_fault::EntryFault;
use toml::{Table, Value};

/// The most that `limit` may be: attempts of a run.
pub const MOST_ATTEMPTS: u64 = 100_000_000_000_000;

/// The most root ports.
pub const MOST_ROOTS: u64 = 7;

/// The most ports of a hub that is not wide (11.23.2.1).
pub const MOST_PORTS: u8 = 7;

/// The most ports of a wide hub.
pub const MOST_WIDE_PORTS: u8 = 15;

/// The most devices of a plan.
pub const MOST_DEVICES: usize = 127;

/// The most events of a plan.
pub const MOST_EVENTS: usize = 10_000;

/// The most damages of a plan.
pub const MOST_DAMAGES: usize = 10_000;

/// The most NAKs of a device in each control transfer.
pub const MOST_NAKS: u64 = 200;

/// The most packets after which an endpoint may halt.
pub const MOST_BEFORE_HALT: u64 = 65535;

/// The most tables of `endpoint`.
pub const MOST_ENDPOINTS: usize = 30;

/// The most NAKs of an endpoint before each packet.
pub const MOST_ENDPOINT_NAKS: u64 = 300;

/// The most tables of `request`.
pub const MOST_REQUESTS: usize = 64;

/// The most attempts between two events: `after`.
pub const LONGEST_WAIT: u64 = 1_000_000_000;

/// The most packets that a `receive` may take.
pub const MOST_PACKETS: u64 = 1000;

/// The last attempt that a number of the document can name.
pub const LAST_ATTEMPT: u64 = (1 << 63) - 1;

/// The last packet of an attempt, counted from 1.
pub const LAST_PACKET: u64 = 3;

/// The last bit of the longest packet, counted from 0.
pub const LAST_BIT: u64 = 535;

/// Whether a key is one of these.
fn is_one_of(key: &str, names: &[&str]) -> bool
    ensures { result ≡ list_any (λ n. bytes_eq key.now n.now) names.now }
{
    names.iter().any(|name| key == *name)
}

/// Whether the table has no key but these.
fn all_named(table: &Table, names: &[&str]) -> bool
    ensures { result ≡ list_all (λ k. list_any (λ n. bytes_eq (string_bytes k) n.now) names.now)
        (keys table.now) }
{
    table.keys().all(|key| is_one_of(key.as_str(), names))
}

/// Whether each key of the table is one of the names.
pub fn only_named(table: &Table, names: &[&str]) -> bool
    ensures { result ≡ only_named (map (λ n. n.now) names.now) (table_view table.now) }
{
    all_named(table, names)
}

/// Refuses a table with any other key.
#[tactic(auto, unfolding(crate::specs::Keys::keys_at))]
pub(crate) fn keys_at(table: &Table, names: &[&str]) -> Result<(), EntryFault>
    ensures { result ≡ keys_at (map (λ n. n.now) names.now) (table_view table.now) }
{
    if only_named(table, names) {
        Ok(())
    } else {
        Err(EntryFault::BadValue)
    }
}

/// The key `when`, which must be absent: its place is found in the run of another host alone.
#[tactic(auto, unfolding(crate::specs::Keys::no_when))]
pub(crate) fn no_when(value: Option<&Value>) -> Result<(), EntryFault>
    ensures { result ≡ no_when (option_map (λ v. view v.now) value.entry) }
{
    match value {
        None => Ok(()),
        Some(_) => Err(EntryFault::OnlyFar),
    }
}
