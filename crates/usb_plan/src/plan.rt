//! The reader of a whole plan.

ghost use Rattle.std.specs.Prelude.{◌≡◌, ◌≢◌, ◌≤◌, codes, Ok, Err, IfOk, IfErr, option_map, map, length};
ghost use Rattle.toml.specs.Data.{get_member};
ghost use Rattle.toml.specs.View.{view, table_view};
ghost use Rattle.usb_plan.specs.declared.fault.PlanFault.TheVariants.{Memory};
ghost use Rattle.usb_plan.specs.EntryFault.{EqualUnless};
ghost use Rattle.usb_plan.specs.Keys.{keys_at};
ghost use Rattle.usb_plan.specs.Plan.{limit_at, roots_at, entries_in, entries_at, entries_of, values_at, top_keys, top_with, top_of, plan_with, plan_of, plan_of_entries, spelled_plan, TopFits};

use crate::damage::damages_of;
use crate::device::devices_of;
use crate::entry_fault::{EntryFault, entry_at, fault_in_part, least_fault};
use crate::event::events_of;
use crate::fault::{Place, PlanFault};
use crate::keys::{MOST_ATTEMPTS, MOST_ROOTS, keys_at};
use crate::quirks::flag_at;
use crate::value::{are_tables, number_at, read_items, value_at};
use std::alloc::Global;
use toml::{Table, Value};
use usb_scene::Plan;

/// The key `limit`.
#[tactic(auto, unfolding(crate::specs::Plan::limit_at))]
fn limit_at(value: Option<&Value>) -> Result<u64, EntryFault>
    ensures { result ≡ limit_at (option_map (λ v. view v.now) value.entry) }
{
    number_at(0, MOST_ATTEMPTS, value)
}

/// The key `roots`: how many root ports there are.
#[tactic(auto, unfolding(crate::specs::Plan::roots_at))]
fn roots_at(value: Option<&Value>) -> Result<u8, EntryFault>
    ensures { result ≡ roots_at (option_map (λ v. view v.now) value.entry) }
{
    let roots = number_at(1, MOST_ROOTS, value)?;
    Ok(roots as u8)
}

/// Refuses a value that is no array of tables.
#[tactic(auto, using(crate::proofs::Steps::are_tables_view), unfolding(crate::specs::Plan::entries_in))]
fn entries_in(value: &Value) -> Result<(), EntryFault>
    ensures { result ≡ entries_in (view value.now) }
{
    if are_tables(read_items(value)?) {
        Ok(())
    } else {
        Err(EntryFault::BadValue)
    }
}

/// The key `device`, `event` or `damage`: an array of tables, which may be absent.
#[tactic(auto, unfolding(crate::specs::Plan::entries_at))]
fn entries_at(value: Option<&Value>) -> Result<(), EntryFault>
    ensures { result ≡ entries_at (option_map (λ v. view v.now) value.entry) }
{
    match value {
        None => Ok(()),
        Some(value) => entries_in(value),
    }
}

/// The values of an array, none if it is absent.
#[tactic(auto, using(crate::proofs::Steps::data_list_view), unfolding(crate::specs::Plan::values_at))]
fn values_at<'a>(value: Option<&'a Value>) -> &'a [Value]
    ensures { map view result.now ≡ values_at (option_map (λ v. view v.now) value.entry) }
{
    match value {
        None => &[],
        Some(value) => match value.as_array() {
            None => &[],
            Some(values) => values.as_slice(),
        },
    }
}

/// The numbers at the top, and whether hubs may be wide.
#[derive(Drop)]
struct Top {
    /// The most attempts that a run may make.
    limit: u64,
    /// How many root ports there are.
    roots: u8,
    /// Hubs may have 8 to 15 ports, and status endpoints of any number.
    wide: bool,
}

/// What the top says, or the least fault of its keys.
#[tactic(auto, unfolding(crate::specs::Plan::top_with))]
fn top_with(
    limit: Result<u64, EntryFault>,
    roots: Result<u8, EntryFault>,
    wide: Result<bool, EntryFault>,
    devices: Result<(), EntryFault>,
    events: Result<(), EntryFault>,
    damages: Result<(), EntryFault>,
    keys: Result<(), EntryFault>,
) -> Result<Top, EntryFault>
    ensures { result ≡ top_with limit roots wide devices events damages keys }
{
    least_fault(&[
        fault_in_part(&limit),
        fault_in_part(&roots),
        fault_in_part(&wide),
        fault_in_part(&devices),
        fault_in_part(&events),
        fault_in_part(&damages),
        fault_in_part(&keys),
    ])?;
    Ok(Top {
        limit: limit?,
        roots: roots?,
        wide: wide?,
    })
}

/// The table has no other keys than those at the top.
fn top_keys_at(table: &Table) -> Result<(), EntryFault>
    ensures { result ≡ keys_at top_keys (table_view table.now) }
{
    keys_at(
        table,
        &["limit", "roots", "wide_hubs", "device", "event", "damage"],
    )
}

/// The numbers at the top, and whether hubs may be wide. The arrays are read after them.
#[tactic(auto, unfolding(crate::specs::Plan::top_of))]
fn top_of(table: &Table) -> Result<Top, EntryFault>
    ensures { result ≡ top_of (table_view table.now) }
{
    let limit = limit_at(value_at(table, "limit"));
    let roots = roots_at(value_at(table, "roots"));
    let wide = flag_at(value_at(table, "wide_hubs"));
    let devices = entries_at(value_at(table, "device"));
    let events = entries_at(value_at(table, "event"));
    let damages = entries_at(value_at(table, "damage"));
    let keys = top_keys_at(table);
    top_with(limit, roots, wide, devices, events, damages, keys)
}

/// The plan with these numbers, of the devices, events and damages that the values describe.
#[tactic(auto, unfolding(crate::specs::Plan::plan_with))]
fn plan_with(
    alloc: Global,
    top: Top,
    devices: &[Value],
    events: &[Value],
    damages: &[Value],
) -> Result<Plan, PlanFault>
    requires { TopFits top }
    ensures { EqualUnless Memory result
        (plan_with top (map view devices.now) (map view events.now) (map view damages.now)) }
{
    let specs = devices_of(alloc, top.wide, devices)?;
    let events = events_of(
        alloc,
        top.roots,
        top.wide,
        specs.as_slice(),
        devices,
        events,
    )?;
    let damages = damages_of(alloc, damages)?;
    Ok(Plan::new(top.limit, top.roots, top.wide, specs, events, damages))
}

/// The values of the array at a key of a document's top, none without that array.
pub fn entries_of<'a>(table: &'a Table, key: &str) -> &'a [Value]
    ensures { map view result.now ≡ entries_of key.now (table_view table.now) }
{
    values_at(value_at(table, key))
}

/// Reads the plan of a document's top and devices, with these values as its events and damages.
///
/// # Errors
///
/// Those of `read_plan`, but for `Syntax`.
#[tactic(auto, unfolding(crate::specs::Plan::plan_of_entries))]
pub fn plan_of_entries(
    alloc: Global,
    table: &Table,
    events: &[Value],
    damages: &[Value],
) -> Result<Plan, PlanFault>
    ensures { EqualUnless Memory result
        (plan_of_entries (table_view table.now) (map view events.now) (map view damages.now)) }
{
    let top = entry_at(Place::Top, top_of(table))?;
    plan_with(alloc, top, entries_of(table, "device"), events, damages)
}

/// Reads the plan that a document describes.
///
/// # Errors
///
/// Those of `read_plan`, but for `Syntax`.
#[tactic(auto, unfolding(crate::specs::Plan::plan_of))]
pub fn plan_of_table(alloc: Global, table: &Table) -> Result<Plan, PlanFault>
    ensures { EqualUnless Memory result (plan_of (table_view table.now)) }
{
    let events = entries_of(table, "event");
    let damages = entries_of(table, "damage");
    plan_of_entries(alloc, table, events, damages)
}

/// Reads the plan that a TOML text spells.
///
/// # Errors
///
/// - `Syntax`: the text is no TOML document.
/// - The fault of the first entry with one, in the order top, devices, events, damages. In one entry
///   it is the first in the order of `PlanFault`. If the `do` of an event is absent or unknown, its
///   other keys are not read. Beside `when` nothing else of an entry is.
/// - `Memory`: memory was refused. It says nothing of the text.
#[tactic(auto, unfolding(crate::specs::Plan::read, crate::specs::Plan::spelled_plan))]
pub fn read_plan(alloc: Global, text: &str) -> Result<Plan, PlanFault>
    ensures plan { IfOk result (λ p. spelled_plan text.now ≡ Ok p) }
    ensures fault { IfErr result (λ e. e ≢ Memory → spelled_plan text.now ≡ Err e) }
{
    let table = match toml::table_from_str(alloc, text) {
        Ok(table) => table,
        Err(error) => {
            return Err(if error.span().is_none() {
                PlanFault::Memory
            } else {
                PlanFault::Syntax
            });
        }
    };
    plan_of_table(alloc, &table)
}
