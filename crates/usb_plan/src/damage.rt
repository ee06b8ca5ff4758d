//! The `damage` entries of the document.

ghost use Rattle.std.specs.Prelude.{◌≡◌, ◌≤◌, ◌<◌, ◌^◌, IfOk, option_map, map, Ok, [], true, length};
ghost use Rattle.toml.specs.View.{view, table_view};
ghost use Rattle.usb_world.specs.Plans.{damages_fit};
ghost use Rattle.usb_plan.specs.EntryFault.{EqualUnless};
ghost use Rattle.usb_plan.specs.declared.fault.PlanFault.TheVariants.{Memory as NoMemory};
ghost use Rattle.usb_plan.specs.Damage.{attempt_at, packet_number, way_named, way_at, no_bit, flip_at, harm_of, harm_by, damage_room, damage_with, placed_damage, IsPlaced, read_damage, damage_entry, damages_from};

use crate::entry_fault::{EntryFault, entry_at, fault_in_part, least_fault};
use crate::fault::{Place, PlanFault};
use crate::keys::{LAST_ATTEMPT, LAST_BIT, LAST_PACKET, MOST_DAMAGES, keys_at, no_when};
use crate::value::{number_at, read_text, value_at};
use std::alloc::Global;
use toml::{Table, Value};
use usb_scene::Damages;
use usb_world::{Damage, Harm};

/// The key `attempt`: after the last one.
#[tactic(auto, unfolding(crate::specs::Damage::attempt_at))]
fn attempt_at(last: u64, value: Option<&Value>) -> Result<u64, EntryFault>
    requires { last < 2 ^ 63 }
    ensures { result ≡ attempt_at last (option_map (λ v. view v.now) value.entry) }
{
    number_at(last + 1, LAST_ATTEMPT, value)
}

/// The key `packet`.
#[tactic(auto, unfolding(crate::specs::Damage::packet_number))]
fn packet_number(value: Option<&Value>) -> Result<u8, EntryFault>
    ensures { result ≡ packet_number (option_map (λ v. view v.now) value.entry) }
{
    let packet = number_at(1, LAST_PACKET, value)?;
    Ok(packet as u8)
}

/// How a packet is damaged.
#[derive(Clone, Copy)]
enum Way {
    Lose,
    LosePre,
    Flip,
}

/// The way of the word `lose`, `pre` or `flip`; `BadValue` for any other word.
#[tactic(auto, unfolding(crate::specs::Damage::way_named))]
fn way_named(text: &str) -> Result<Way, EntryFault>
    ensures { result ≡ way_named text.now }
{
    match text {
        "lose" => Ok(Way::Lose),
        "pre" => Ok(Way::LosePre),
        "flip" => Ok(Way::Flip),
        _ => Err(EntryFault::BadValue),
    }
}

/// The key `how`.
#[tactic(auto, unfolding(crate::specs::Damage::way_at))]
fn way_at(value: Option<&Value>) -> Result<Way, EntryFault>
    ensures { result ≡ way_at (option_map (λ v. view v.now) value.entry) }
{
    way_named(read_text(value)?)
}

/// The key `bit` goes with a flipped bit alone.
#[tactic(auto, unfolding(crate::specs::Damage::no_bit))]
fn no_bit(harm: Harm, bit: Option<&Value>) -> Result<Harm, EntryFault>
    ensures { result ≡ no_bit harm (option_map (λ v. view v.now) bit.entry) }
{
    match bit {
        None => Ok(harm),
        Some(_) => Err(EntryFault::BadValue),
    }
}

/// The key `bit`.
#[tactic(auto, unfolding(crate::specs::Damage::flip_at))]
fn flip_at(bit: Option<&Value>) -> Result<Harm, EntryFault>
    ensures { result ≡ flip_at (option_map (λ v. view v.now) bit.entry) }
{
    let bit = number_at(0, LAST_BIT, bit)?;
    Ok(Harm::Flip(bit as u16))
}

/// The harm of this way. Only a flip has a bit, 0 to 535, and must have it.
#[tactic(auto, unfolding(crate::specs::Damage::harm_of))]
fn harm_of(way: Way, bit: Option<&Value>) -> Result<Harm, EntryFault>
    ensures { result ≡ harm_of way (option_map (λ v. view v.now) bit.entry) }
{
    match way {
        Way::Lose => no_bit(Harm::Lose, bit),
        Way::LosePre => no_bit(Harm::LosePre, bit),
        Way::Flip => flip_at(bit),
    }
}

/// The keys `how` and `bit`.
#[tactic(auto, unfolding(crate::specs::Damage::harm_by))]
fn harm_by(way: Result<Way, EntryFault>, bit: Option<&Value>) -> Result<Harm, EntryFault>
    ensures { result ≡ harm_by way (option_map (λ v. view v.now) bit.entry) }
{
    harm_of(way?, bit)
}

/// Refuses an entry after the most that a plan may have.
#[tactic(auto, unfolding(crate::specs::Damage::damage_room))]
fn damage_room(count: usize) -> Result<(), EntryFault>
    ensures { result ≡ damage_room count }
{
    if count < MOST_DAMAGES {
        Ok(())
    } else {
        Err(EntryFault::BadValue)
    }
}

/// The damage of these parts, or their least fault.
#[tactic(auto, unfolding(crate::specs::Damage::damage_with))]
fn damage_with(
    attempt: Result<u64, EntryFault>,
    packet: Result<u8, EntryFault>,
    harm: Result<Harm, EntryFault>,
    keys: Result<(), EntryFault>,
    room: Result<(), EntryFault>,
) -> Result<Damage, EntryFault>
    ensures { result ≡ damage_with attempt packet harm keys room }
{
    least_fault(&[
        fault_in_part(&attempt),
        fault_in_part(&packet),
        fault_in_part(&harm),
        fault_in_part(&keys),
        fault_in_part(&room),
    ])?;
    Ok(Damage {
        attempt: attempt?,
        packet: packet?,
        harm: harm?,
    })
}

/// The damage that a table describes, after this number of others.
#[tactic(auto, unfolding(crate::specs::Damage::read_damage))]
fn read_damage(last: u64, count: usize, table: &Table) -> Result<Damage, EntryFault>
    requires { last < 2 ^ 63 }
    ensures { result ≡ read_damage last count (table_view table.now) }
{
    let attempt = attempt_at(last, value_at(table, "attempt"));
    let packet = packet_number(value_at(table, "packet"));
    let harm = harm_by(way_at(value_at(table, "how")), value_at(table, "bit"));
    let keys = keys_at(table, &["attempt", "packet", "how", "bit"]);
    damage_with(attempt, packet, harm, keys, damage_room(count))
}

/// The damage of a number that a table with `when` describes, to this attempt.
#[tactic(auto, unfolding(crate::specs::Damage::placed_damage))]
fn placed_in(number: usize, attempt: u64, table: &Table) -> Result<Damage, PlanFault>
    ensures { result ≡ placed_damage number attempt (table_view table.now) }
{
    let packet = packet_number(value_at(table, "packet"));
    let harm = harm_by(way_at(value_at(table, "how")), value_at(table, "bit"));
    let keys = keys_at(table, &["when", "packet", "how", "bit"]);
    let room = damage_room(number.saturating_sub(1));
    entry_at(
        Place::Damage(number),
        damage_with(Ok(attempt), packet, harm, keys, room),
    )
}

/// Reads the `damage` entry of a number, counted from 1, that has `when` in place of `attempt`. It is a damage to this
/// attempt.
///
/// # Errors
///
/// - `MissingKey`: the table lacks `packet` or `how`, or `bit` with `how = "flip"`.
/// - `BadValue`: another key is there, a value is of a wrong kind or out of range, `bit` is there without
///   `how = "flip"`, or the number is over 10,000.
pub fn placed_damage(number: usize, attempt: u64, table: &Table) -> Result<Damage, PlanFault>
    ensures value { result ≡ placed_damage number attempt (table_view table.now) }
    ensures placed { IfOk result (IsPlaced number attempt) }
{
    placed_in(number, attempt, table)
}

/// If it has the key `when`, the rest of the damage is ignored.
#[tactic(auto, unfolding(crate::specs::Damage::damage_entry))]
fn damage_entry(last: u64, count: usize, table: Option<&Table>) -> Result<Damage, EntryFault>
    requires { last < 2 ^ 63 }
    ensures { result ≡ damage_entry last count (option_map (λ t. table_view t.now) table.entry) }
{
    let table = table.ok_or(EntryFault::BadValue)?;
    no_when(value_at(table, "when"))?;
    read_damage(last, count, table)
}

/// The damages that the values describe, or the first fault.
pub(crate) fn damages_of(alloc: Global, values: &[Value]) -> Result<Damages, PlanFault>
    ensures value { EqualUnless NoMemory result (damages_from 1 [] (map view values.now)) }
    ensures fit { IfOk result (λ damages. damages_fit 0 damages ≡ true) }
{
    let mut done = Damages::new(alloc);
    let mut last: u64 = 0;
    for (i, value) in values.iter().enumerate() {
        let read = damage_entry(last, done.as_slice().len(), value.as_table());
        let damage = entry_at(Place::Damage(i + 1), read)?;
        last = damage.attempt;
        done.push(damage)?;
    }
    Ok(done)
}
