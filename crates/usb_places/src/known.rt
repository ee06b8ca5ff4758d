//! The plan as far as the places of its events and damages are known.

ghost use Rattle.std.specs.Prelude.{◌≡◌, ◌≤◌, ◌<◌, ◌+◌, ◌^◌, ◌++◌, IfOk, OnOk, length, slice_get};
ghost use Rattle.usb_device.specs.{AreDevices};
ghost use Rattle.usb_world.specs.{damage_most, event_most};
ghost use Rattle.usb_places.specs.Known.{after_of, damage_found, damages_known, events_known, first_after, inserted, inserted_some, is_event, is_to, plan_known, spot};

use crate::sought::{AllSought, Sought, Whose};
use std::alloc::{AllocError, Global};
use usb_scene::{Damages, DeviceSpec, Devices, Events, Plan, event_copies};
use usb_world::{Damage, Event};

/// The most damages of a plan.
const MOST_DAMAGES: usize = 10_000;

/// Whether it is that of the event behind so many others.
fn is_event(whose: Whose, before: u64) -> bool
    ensures { result ≡ is_event whose before }
{
    match whose {
        Whose::Event(number) => number == before,
        Whose::Damage(_) => false,
    }
}

/// How many attempts the event behind so many others comes after the one before, if that is known; `own` without a
/// place.
#[cycle(after_of)]
#[tactic(auto, unfolding(crate::specs::Known::after_of))]
fn after_of(sought: &[Sought], before: u64, own: u64) -> Option<u64>
    ensures { result ≡ after_of sought.now before own }
{
    match sought.split_first() {
        None => Some(own),
        Some((first, _)) if is_event(first.whose, before) => first.found,
        Some((_, rest)) => after_of(rest, before, own),
    }
}

/// The damage, if its attempt is found.
fn damage_found(sought: &Sought) -> Option<Damage>
    ensures { result ≡ damage_found sought.now }
{
    match (sought.whose, sought.found) {
        (Whose::Damage(damage), Some(attempt)) => Some(Damage { attempt, ..damage }),
        _ => None,
    }
}

/// How many of the damages are to earlier attempts.
#[cycle(spot)]
#[tactic(auto, unfolding(crate::specs::Known::spot))]
fn spot(damages: &[Damage], attempt: u64) -> usize
    ensures value { result ≡ spot attempt damages.now }
    ensures within { result ≤ length damages.now }
{
    match damages.split_first() {
        Some((first, rest)) if first.attempt < attempt => 1 + spot(rest, attempt),
        _ => 0,
    }
}

/// Whether the damage at an index is to that attempt.
fn is_there(damages: &[Damage], index: usize, attempt: u64) -> bool
    ensures { result ≡ is_to attempt (slice_get damages.now index) }
{
    match damages.get(index) {
        None => false,
        Some(damage) => damage.attempt == attempt,
    }
}

/// Adds a damage by its attempt, if that has none.
#[tactic(auto, using(crate::proofs::Insertions::inserted_new, crate::proofs::Insertions::inserted_old))]
fn insert(damages: &mut Vec<Damage>, damage: Damage) -> Result<(), AllocError>
    ensures { OnOk result (damages.new.items ≡ inserted damage damages.old.items) }
{
    let before = spot(damages.as_slice(), damage.attempt);
    let there = is_there(damages.as_slice(), before, damage.attempt);
    if there {
        return Ok(());
    }
    damages.insert(before, damage)?;
    Ok(())
}

/// Adds the damage, if its attempt is found.
fn insert_found(damages: &mut Vec<Damage>, sought: &Sought) -> Result<(), AllocError>
    ensures { OnOk result
        (damages.new.items ≡ inserted_some (damage_found sought.now) damages.old.items) }
{
    match damage_found(sought) {
        None => Ok(()),
        Some(damage) => insert(damages, damage),
    }
}

/// These damages and those whose attempts are found.
#[cycle(damages_known)]
#[tactic(auto, unfolding(crate::specs::Known::damages_known))]
fn damages_known(damages: Vec<Damage>, sought: &[Sought]) -> Result<Vec<Damage>, AllocError>
    ensures { IfOk result (λ all. all.items ≡ damages_known damages.items sought.now) }
{
    let mut all = damages;
    match sought.split_first() {
        None => Ok(all),
        Some((first, rest)) => {
            insert_found(&mut all, first)?;
            damages_known(all, rest)
        }
    }
}

/// The damages in memory of their own.
fn damage_copies(alloc: Global, damages: &[Damage]) -> Result<Damages, AllocError>
    requires { length damages.now ≤ damage_most }
    ensures { IfOk result (λ d. d ≡ damages.now) }
{
    let mut done = Damages::new(alloc);
    'damages: for damage in damages {
        done.push(*damage)?;
    }
    Ok(done)
}

/// The first of the events, this many attempts after the one before.
fn first_after(alloc: Global, events: &[Event], after: u64) -> Result<Option<Event>, AllocError>
    ensures { IfOk result (λ first. first ≡ first_after events.now after) }
{
    let most = events.len().min(1);
    let mut copies = event_copies(alloc, &events[..most])?;
    match copies.pop() {
        None => Ok(None),
        Some(event) => Ok(Some(Event {
            after,
            action: event.action,
        })),
    }
}

/// These events, and behind them those up to the first one whose place is not known.
#[cycle(events_known)]
#[tactic(auto, unfolding(crate::specs::Known::events_known))]
fn events_known(
    alloc: Global,
    done: Events,
    sought: &[Sought],
    before: u64,
    events: &[Event],
) -> Result<Events, AllocError>
    requires room { length done + length events.now ≤ event_most }
    requires numbers { before + length events.now < 2 ^ 64 }
    ensures { IfOk result (λ e. e ≡ done ++ events_known sought.now before events.now) }
{
    let mut done = done;
    let Some((first, rest)) = events.split_first() else {
        return Ok(done);
    };
    let Some(after) = after_of(sought, before, first.after) else {
        return Ok(done);
    };
    if let Some(event) = first_after(alloc, events, after)? {
        done.push(event)?;
    }
    events_known(alloc, done, sought, before + 1, rest)
}

/// The devices in memory of their own.
fn device_copies(alloc: Global, devices: &[DeviceSpec]) -> Result<Devices, AllocError>
    requires { AreDevices devices.now }
    ensures { IfOk result (λ d. d ≡ devices.now) }
{
    let mut done = Devices::new(alloc);
    'devices: for device in devices {
        done.push(device.try_clone(alloc)?)?;
    }
    Ok(done)
}

/// The plan as far as it is known.
#[tactic(auto, unfolding(crate::specs::Known::plan_known))]
pub(crate) fn plan_known(alloc: Global, plan: &Plan, sought: &AllSought) -> Result<Plan, AllocError>
    ensures { IfOk result (λ p. p ≡ plan_known plan.now sought.now) }
{
    let devices = device_copies(alloc, plan.devices())?;
    let none = Events::new(alloc);
    let events = events_known(alloc, none, sought.as_slice(), 0, plan.events())?;
    let fixed = Vec::from_slice(alloc, plan.damages())?;
    let mut known = damages_known(fixed, sought.as_slice())?;
    known.truncate(MOST_DAMAGES);
    let damages = damage_copies(alloc, known.as_slice())?;
    Ok(Plan::new(
        plan.limit(),
        plan.roots(),
        plan.wide_hubs(),
        devices,
        events,
        damages,
    ))
}
