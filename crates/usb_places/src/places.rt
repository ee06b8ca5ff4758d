//! The places of a plan, read from its text and found in the run of another host.

ghost use Rattle.std.specs.Prelude.{◌≡◌, ◌≢◌, ◌≤◌, ◌<◌, ◌+◌, ◌^◌, ◌∷◌, ◌++◌, [], codes, Err, false, IfErr, IfOk, length, List, map, nat_lt, Ok, OnOk, option_map};
ghost use Rattle.std.specs.Result.{result_map_both};
ghost use Rattle.toml.specs.View.{view, table_view};
ghost use Rattle.usb_plan.specs.{EqualUnless, plan_of, spelled_plan};
ghost use Rattle.usb_world.specs.{attempt_most};
ghost use Rattle.usb_places.specs.declared.seen.Seen.{Seen as Done};
ghost use Rattle.usb_places.specs.Places.{IsGood, IsKnown, after_seen, found_in};
ghost use Rattle.usb_places.specs.Known.{plan_known};
ghost use Rattle.usb_places.specs.Reading.{damage_sought, damages_from, event_when, events_from, fixed_damages, has_when, in_plan, new_sought, no_memory, places_of, plain, plain_when, spelled_places, text_uses_when, uses_when, when_at, when_sought, with_event, without};

use crate::fault::{PlacesFault, WhenFault};
use crate::known::plan_known;
use crate::seen::Seen;
use crate::sought::{AllSought, Sought, Whose};
use crate::transfer::{Transfer, transfer_after};
use crate::when::{When, value_at, when_in};
use std::alloc::{AllocError, Global};
use std::marker::Model;
use toml::{Table, Value};
use usb_plan::{Place, Plan, PlanFault, entries_of, placed_damage, plan_of_entries};

/// A plan whose events and damages have places in a host's run, and how far these are known.
#[derive(Debug, Drop)]
pub struct Places {
    /// All events, and the damages without a place.
    plan: Plan,
    sought: AllSought,
    /// The control transfer in progress.
    transfer: Option<Transfer>,
}

impl Model for Places {
    ghost use Rattle.usb_places.specs.Places.{PlacesData, places_data};

    ghost Value = { PlacesData };

    ghost view = { λ p. places_data p.plan p.sought p.transfer };
}

/// The place of an event, if it has `when`.
#[tactic(auto, unfolding(crate::specs::Reading::plain_when))]
fn plain_when(value: Option<&Value>, beside: Option<&Value>) -> Result<Option<When>, WhenFault>
    ensures { result ≡ plain_when (option_map (λ v. view v.now) value.entry)
        (option_map (λ v. view v.now) beside.entry) }
{
    match (value, beside) {
        (None, _) => Ok(None),
        (Some(_), Some(_)) => Err(WhenFault::Beside),
        (Some(value), None) => Ok(Some(when_in(value)?)),
    }
}

/// The place of an event's table, if it has `when`.
#[tactic(auto, unfolding(crate::specs::Reading::event_when))]
fn event_when(value: &Value) -> Result<Option<When>, WhenFault>
    ensures { result ≡ event_when (view value.now) }
{
    match value.as_table() {
        None => Ok(None),
        Some(table) => plain_when(value_at(table, "when"), value_at(table, "after")),
    }
}

/// The place that is sought of this, before any deed of the host.
fn new_sought(whose: Whose, when: When) -> Sought
    ensures { result ≡ new_sought whose when }
{
    let left = when.nth;
    Sought {
        whose,
        when,
        left,
        found: None,
    }
}

/// A reason with its place.
fn when_at<A>(place: Place, read: Result<A, WhenFault>) -> Result<A, PlacesFault>
    ensures { result ≡ when_at place read }
{
    read.map_err(|why| PlacesFault::When(place, why))
}

/// Adds the place of the event behind so many others, if it has one.
fn push_event(sought: &mut AllSought, before: usize, when: Option<When>) -> Result<(), AllocError>
    ensures { OnOk result (sought.new ≡ with_event before sought.old when) }
{
    match when {
        None => Ok(()),
        Some(when) => sought.push(new_sought(Whose::Event(before as u64), when)),
    }
}

/// These places and those of the events of the values, which come behind so many others.
#[cycle(events_from)]
#[tactic(auto, unfolding(crate::specs::Reading::events_from))]
fn events_from(done: AllSought, before: usize, values: &[Value]) -> Result<AllSought, PlacesFault>
    requires { before + length values.now < 2 ^ 64 }
    ensures { EqualUnless no_memory result (events_from done before (map view values.now)) }
{
    let mut done = done;
    match values.split_first() {
        None => Ok(done),
        Some((first, rest)) => {
            let when = when_at(Place::Event(before + 1), event_when(first))?;
            push_event(&mut done, before, when)?;
            events_from(done, before + 1, rest)
        }
    }
}

/// The table without `when`.
fn plain_table(table: Table) -> Table
    ensures { table_view result ≡ without (codes "when") (table_view table) }
{
    let mut table = table;
    table.remove("when");
    table
}

/// The value of an event without its `when`.
fn plain(value: &Value) -> Result<Value, AllocError>
    ensures { IfOk result (λ v. view v ≡ plain (view value.now)) }
{
    match value.clone()? {
        Value::Table(table) => Ok(Value::Table(plain_table(table))),
        other => Ok(other),
    }
}

/// The values of events without their `when`s.
fn all_plain(alloc: Global, values: &[Value]) -> Result<Vec<Value>, AllocError>
    ensures { IfOk result (λ v. map view v.items ≡ map plain (map view values.now)) }
{
    let mut done = Vec::with_capacity(alloc, values.len())?;
    'values: for value in values {
        done.push(plain(value)?)?;
    }
    Ok(done)
}

/// Whether the value is a table with `when`.
fn has_when(value: &Value) -> bool
    ensures { result ≡ has_when (view value.now) }
{
    match value.as_table() {
        None => false,
        Some(table) => value_at(table, "when").is_some(),
    }
}

/// How many damages stand before the first one with `when`.
#[cycle(fixed_damages)]
#[tactic(auto, unfolding(crate::specs::Reading::fixed_damages))]
fn fixed_damages(values: &[Value]) -> usize
    ensures value { result ≡ fixed_damages (map view values.now) }
    ensures within { result ≤ length values.now }
{
    match values.split_first() {
        Some((first, rest)) if !has_when(first) => 1 + fixed_damages(rest),
        _ => 0,
    }
}

/// The place of the damage of a number, if its table has `when`.
fn when_sought(number: usize, table: &Table, value: Option<&Value>) -> Result<Sought, PlacesFault>
    ensures value { result ≡ when_sought number (table_view table.now)
        (option_map (λ v. view v.now) value.entry) }
    ensures good { IfOk result IsGood }
{
    match value {
        None => Err(PlacesFault::Order(Place::Damage(number))),
        Some(value) => {
            let when = when_at(Place::Damage(number), when_in(value))?;
            let damage = placed_damage(number, 1, table)?;
            Ok(new_sought(Whose::Damage(damage), when))
        }
    }
}

/// The place of the damage of a number.
#[tactic(auto, unfolding(crate::specs::Reading::damage_sought, crate::specs::Reading::table_sought))]
fn damage_sought(number: usize, value: &Value) -> Result<Sought, PlacesFault>
    ensures value { result ≡ damage_sought number (view value.now) }
    ensures good { IfOk result IsGood }
{
    match value.as_table() {
        None => Err(PlacesFault::Plan(PlanFault::BadValue(Place::Damage(number)))),
        Some(table) => when_sought(number, table, value_at(table, "when")),
    }
}

/// These places and those of the damages of the values, of which the first has this number.
#[cycle(damages_from)]
#[tactic(auto, unfolding(crate::specs::Reading::damages_from))]
fn damages_from(done: AllSought, number: usize, values: &[Value]) -> Result<AllSought, PlacesFault>
    requires { number + length values.now < 2 ^ 64 }
    ensures { EqualUnless no_memory result (damages_from done number (map view values.now)) }
{
    let mut done = done;
    match values.split_first() {
        None => Ok(done),
        Some((first, rest)) => {
            done.push(damage_sought(number, first)?)?;
            damages_from(done, number + 1, rest)
        }
    }
}

/// The places of the plan that a document describes.
#[tactic(auto, using(crate::proofs::Copies::view_take, crate::proofs::Copies::view_drop), unfolding(crate::specs::Reading::places_of))]
fn places_of(alloc: Global, table: &Table) -> Result<Places, PlacesFault>
    ensures { EqualUnless no_memory result (places_of (table_view table.now)) }
{
    let events = entries_of(table, "event");
    let damages = entries_of(table, "damage");
    let fixed = fixed_damages(damages);
    let first = events_from(AllSought::new(alloc), 0, events)?;
    let plain = all_plain(alloc, events)?;
    let plan = plan_of_entries(alloc, table, plain.as_slice(), &damages[..fixed])?;
    let sought = damages_from(first, fixed + 1, &damages[fixed..])?;
    Ok(Places {
        plan,
        sought,
        transfer: None,
    })
}

impl Places {
    /// Reads the plan that a document describes, where events and damages may have `when`. Nothing of the host is seen
    /// yet. Without any `when` it is the plan that `plan_of_table` of usb_plan reads.
    ///
    /// # Errors
    ///
    /// Those of `read`, but for `Plan` of `Syntax`.
    pub fn of_table(alloc: Global, table: &Table) -> Result<Places, PlacesFault>
        ensures places { EqualUnless no_memory result (places_of (table_view table.now)) }
        ensures known { IfOk result (λ p. IsKnown [] p) }
        ensures plain { uses_when (table_view table.now) ≡ false → EqualUnless no_memory
            (result_map_both (λ p. plan_known p.plan p.sought) (λ e. e) result)
            (in_plan (plan_of (table_view table.now))) }
    {
        places_of(alloc, table)
    }

    /// Reads the plan that a TOML text spells, where events and damages may have `when`. Nothing of the host is seen
    /// yet. Without any `when` it is the plan that `read_plan` of usb_plan reads.
    ///
    /// # Errors
    ///
    /// The first of these that applies:
    ///
    /// - `Plan` of `Syntax`: the text is no TOML document.
    /// - `When` of an event: its `when` is none, for this reason.
    /// - `Plan`: the fault of `read_plan` of the text without the `when`s of its events, and without the damages from
    ///   the first one with `when` on.
    /// - Of the first damage with a fault, from the first one with `when` on. `Order`: it has no `when`. `When`: its
    ///   `when` is none, for this reason. `Plan`: the fault of its other keys.
    /// - `Plan` of `Memory`: memory was refused. It says nothing of the text.
    #[tactic(auto, unfolding(crate::specs::Reading::spelled_places, usb_plan::specs::Plan::read, usb_plan::specs::Plan::spelled_plan))]
    pub fn read(alloc: Global, text: &str) -> Result<Places, PlacesFault>
        ensures places { IfOk result (λ p. spelled_places text.now ≡ Ok p) }
        ensures fault { IfErr result (λ e. e ≢ no_memory → spelled_places text.now ≡ Err e) }
        ensures known { IfOk result (λ p. IsKnown [] p) }
        ensures plain { text_uses_when text.now ≡ false → EqualUnless no_memory
            (result_map_both (λ p. plan_known p.plan p.sought) (λ e. e) result)
            (in_plan (spelled_plan text.now)) }
    {
        match toml::table_from_str(alloc, text) {
            Ok(table) => Places::of_table(alloc, &table),
            Err(error) => Err(PlacesFault::Plan(if error.span().is_none() {
                PlanFault::Memory
            } else {
                PlanFault::Syntax
            })),
        }
    }

    /// The plan as far as it is known: its events up to the first one whose place is sought, its damages without a
    /// place, and those whose places are found. Of the damages of one attempt it has the first one.
    ///
    /// # Errors
    ///
    /// Memory was refused.
    pub fn plan(&self, alloc: Global) -> Result<Plan, AllocError>
        ensures { IfOk result (λ p. p ≡ plan_known self.now.plan self.now.sought) }
    {
        plan_known(alloc, &self.plan, &self.sought)
    }

    /// Notes what the host is about to do.
    #[tactic(auto, unfolding(crate::specs::Places::after_seen))]
    fn note(&mut self, seen: &Seen)
        requires { seen.now.attempts ≤ attempt_most }
        ensures { self.new ≡ after_seen seen.now self.old }
    {
        self.sought.see(self.transfer.as_ref(), seen);
        self.transfer = transfer_after(self.transfer.take(), &seen.deed);
    }

    /// Sees what the host is about to do, and returns whether that is a place that was sought. Then the run of the new
    /// plan is the same up to here.
    pub fn see(&mut self, seen: &Seen) -> bool
        requires { seen.now.attempts ≤ attempt_most }
        ensures value { self.new ≡ after_seen seen.now self.old }
        ensures found { result ≡ nat_lt (found_in self.old.sought) (found_in self.new.sought) }
        ensures known { (history : List Done) → IsKnown history self.old
            → IsKnown (history ++ seen.now ∷ []) self.new }
    {
        let before = self.sought.found();
        self.note(seen);
        before < self.sought.found()
    }
}
