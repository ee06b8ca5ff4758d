//! The keys of what a device does otherwise than others.

ghost use Rattle.std.specs.Prelude.{◌≡◌, ◌≤◌, map, option_map};
ghost use Rattle.std.specs.List.{list_any, list_all};
ghost use Rattle.toml.specs.View.{view, table_view};
ghost use Rattle.usb_plan.specs.Quirks.{is_word, flag_at, naks_at, names, is_stall, stalls_named, stalls_in, stalls_at, quirks_with, quirks_of};

use crate::entry_fault::{EntryFault, fault_in_part, least_fault};
use crate::keys::MOST_NAKS;
use crate::value::{number_or, read_items, value_at};
use toml::{Table, Value};
use usb_device::Stalls;

/// A key that is true or false; absent it is false.
#[tactic(auto, unfolding(crate::specs::Quirks::flag_at))]
pub(crate) fn flag_at(value: Option<&Value>) -> Result<bool, EntryFault>
    ensures { result ≡ flag_at (option_map (λ v. view v.now) value.entry) }
{
    match value {
        None => Ok(false),
        Some(value) => value.as_bool().ok_or(EntryFault::BadValue),
    }
}

/// The key `naks`.
#[tactic(auto, unfolding(crate::specs::Quirks::naks_at))]
fn naks_at(value: Option<&Value>) -> Result<u8, EntryFault>
    ensures { result ≡ naks_at (option_map (λ v. view v.now) value.entry) }
{
    let naks = number_or(0, 0, MOST_NAKS, value)?;
    Ok(naks as u8)
}

/// Whether there is a text, and it is this word.
#[tactic(auto, unfolding(crate::specs::Quirks::is_word))]
fn is_word(text: Option<&str>, word: &str) -> bool
    ensures { result ≡ is_word word.now (option_map (λ t. t.now) text.entry) }
{
    match text {
        None => false,
        Some(text) => text == word,
    }
}

/// Whether the value is a text, and that is this word.
#[tactic(auto, unfolding(crate::specs::Quirks::names))]
fn names(value: &Value, word: &str) -> bool
    ensures { result ≡ names word.now (view value.now) }
{
    is_word(value.as_str(), word)
}

/// Whether the value names a request that can be refused.
#[tactic(auto, unfolding(crate::specs::Quirks::is_stall))]
fn is_stall(value: &Value) -> bool
    ensures { result ≡ is_stall (view value.now) }
{
    names(value, "device")
        || names(value, "address")
        || names(value, "config")
        || names(value, "set_config")
        || names(value, "status")
        || names(value, "hub")
        || names(value, "string")
        || names(value, "interface")
}

/// Whether each value names a request that can be refused.
fn are_stalls(values: &[Value]) -> bool
    ensures { result ≡ list_all (λ v. is_stall (view v)) values.now }
{
    values.iter().all(|value| is_stall(value))
}

/// Whether one of the values is the word.
fn some_names(values: &[Value], word: &str) -> bool
    ensures { result ≡ list_any (λ v. names word.now (view v)) values.now }
{
    values.iter().any(|value| names(value, word))
}

/// The requests that the values name.
#[tactic(auto, using(crate::proofs::Steps::some_names_view), unfolding(crate::specs::Quirks::stalls_named))]
fn stalls_named(values: &[Value]) -> Stalls
    ensures { result ≡ stalls_named (map view values.now) }
{
    Stalls {
        device: some_names(values, "device"),
        address: some_names(values, "address"),
        config: some_names(values, "config"),
        set_config: some_names(values, "set_config"),
        status: some_names(values, "status"),
        hub: some_names(values, "hub"),
        string: some_names(values, "string"),
        interface: some_names(values, "interface"),
    }
}

/// The requests that an array names; `BadValue` if a value of it names none.
#[tactic(auto, using(crate::proofs::Steps::are_stalls_view), unfolding(crate::specs::Quirks::stalls_in))]
fn stalls_in(value: &Value) -> Result<Stalls, EntryFault>
    ensures { result ≡ stalls_in (view value.now) }
{
    let values = read_items(value)?;
    if are_stalls(values) {
        Ok(stalls_named(values))
    } else {
        Err(EntryFault::BadValue)
    }
}

/// The key `stalls`: the names of the requests that are refused.
#[tactic(auto, unfolding(crate::specs::Quirks::stalls_at))]
fn stalls_at(value: Option<&Value>) -> Result<Stalls, EntryFault>
    ensures { result ≡ stalls_at (option_map (λ v. view v.now) value.entry) }
{
    match value {
        None => Ok(Stalls::none()),
        Some(value) => stalls_in(value),
    }
}

/// What a device does otherwise than others.
#[derive(Drop)]
pub(crate) struct Quirks {
    /// It has its own power.
    pub(crate) self_powered: bool,
    /// It answers NAK without end.
    pub(crate) busy: bool,
    /// It answers nothing.
    pub(crate) silent: bool,
    /// How many NAKs it gives.
    pub(crate) naks: u8,
    /// The requests that it refuses.
    pub(crate) stalls: Stalls,
}

/// What a device does otherwise than others, or the least fault of the keys.
#[tactic(auto, unfolding(crate::specs::Quirks::quirks_with))]
fn quirks_with(
    self_powered: Result<bool, EntryFault>,
    busy: Result<bool, EntryFault>,
    silent: Result<bool, EntryFault>,
    naks: Result<u8, EntryFault>,
    stalls: Result<Stalls, EntryFault>,
) -> Result<Quirks, EntryFault>
    ensures { result ≡ quirks_with self_powered busy silent naks stalls }
{
    least_fault(&[
        fault_in_part(&self_powered),
        fault_in_part(&busy),
        fault_in_part(&silent),
        fault_in_part(&naks),
        fault_in_part(&stalls),
    ])?;
    Ok(Quirks {
        self_powered: self_powered?,
        busy: busy?,
        silent: silent?,
        naks: naks?,
        stalls: stalls?,
    })
}

/// The keys of what the device does otherwise than others.
#[tactic(auto, unfolding(crate::specs::Quirks::quirks_of))]
pub(crate) fn quirks_of(table: &Table) -> Result<Quirks, EntryFault>
    ensures { result ≡ quirks_of (table_view table.now) }
{
    let self_powered = flag_at(value_at(table, "self_powered"));
    let busy = flag_at(value_at(table, "busy"));
    let silent = flag_at(value_at(table, "silent"));
    let naks = naks_at(value_at(table, "naks"));
    let stalls = stalls_at(value_at(table, "stalls"));
    quirks_with(self_powered, busy, silent, naks, stalls)
}
