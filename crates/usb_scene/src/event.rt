//! The events of a plan.
ghost use Rattle.std.specs.Prelude.{◌≡◌, IfOk};
ghost use Rattle.usb_world.specs.PlanCourses.{PlugsAtPort};

use std::alloc::{AllocError, Global};
use std::marker::Model;
use usb_world::{Action, Ask, Change, Event};

/// At most 10,000 events in their order. Each plug is at the path of a port.
#[derive(Debug, Drop)]
pub struct Events {
    events: Vec<Event>,
}

impl Model for Events {
    ghost use Rattle.std.specs.Prelude.{List, ◌≤◌, length};
    ghost use Rattle.usb_world.specs.declared.event.Event.{Event};
    ghost use Rattle.usb_world.specs.PlanCourses.{AtPorts};
    ghost use Rattle.usb_world.specs.PlanLimits.{event_most};

    ghost Value = { List Event };

    ghost view = { λ e. e.events.items };

    ghost invariant = { λ e. (length e.events.items ≤ event_most) × AtPorts e.events.items };
}

impl Events {
    ghost use Rattle.std.specs.Prelude.{◌≡◌, ◌<◌, ◌≤◌, [], ◌∷◌, ◌++◌, length, IfOk, OnOk, OnErr};
    ghost use Rattle.usb_world.specs.PlanCourses.{AtPorts};
    ghost use Rattle.usb_world.specs.PlanLimits.{event_most};

    /// No events.
    pub fn new(alloc: Global) -> Self
        ensures { result ≡ [] }
    {
        Events {
            events: Vec::new(alloc),
        }
    }

    /// The events in their order.
    pub fn as_slice(&self) -> &[Event]
        ensures value { result.now ≡ self.now }
        ensures bound { length self.now ≤ event_most }
        ensures paths { AtPorts self.now }
    {
        self.events.as_slice()
    }

    /// Adds an event at the end.
    ///
    /// # Errors
    ///
    /// Memory was refused, and nothing changes.
    pub fn push(&mut self, event: Event) -> Result<(), AllocError>
        requires room { length self.old < event_most }
        ensures ok { OnOk result (self.new ≡ self.old ++ event ∷ []) }
        ensures err { OnErr result (self.new ≡ self.old) }
    {
        plugs_at_port(&event.action);
        Ok(self.events.push(event)?)
    }
}

/// Does nothing; what it ensures is for `push` to cite: a plug is at a port's path.
fn plugs_at_port(action: &Action)
    ensures { PlugsAtPort action.now }
{
    match action {
        Action::Change(Change::Plug(path, _)) => {
            path.numbers();
        }
        Action::Change(Change::Unplug(_)) | Action::Ask(_) => {}
    }
}

/// The same events in memory of their own.
///
/// # Errors
///
/// Memory was refused.
pub fn event_copies(alloc: Global, events: &[Event]) -> Result<Vec<Event>, AllocError>
    ensures { IfOk result (λ v. v.items ≡ events.now) }
{
    let mut all = Vec::with_capacity(alloc, events.len())?;
    'events: for event in events {
        all.push(copy_of(alloc, event)?)?;
    }
    Ok(all)
}

fn copy_of(alloc: Global, event: &Event) -> Result<Event, AllocError>
    ensures { IfOk result (λ e. e ≡ event.now) }
{
    Ok(Event {
        after: event.after,
        action: action_copy(alloc, &event.action)?,
    })
}

fn action_copy(alloc: Global, action: &Action) -> Result<Action, AllocError>
    ensures { IfOk result (λ a. a ≡ action.now) }
{
    Ok(match action {
        Action::Change(change) => Action::Change(change_copy(change)),
        Action::Ask(ask) => Action::Ask(ask_copy(alloc, ask)?),
    })
}

fn change_copy(change: &Change) -> Change
    ensures { result ≡ change.now }
{
    match change {
        Change::Plug(path, device) => Change::Plug(path.duplicate(), *device),
        Change::Unplug(path) => Change::Unplug(path.duplicate()),
    }
}

fn ask_copy(alloc: Global, ask: &Ask) -> Result<Ask, AllocError>
    ensures { IfOk result (λ a. a ≡ ask.now) }
{
    Ok(match ask {
        Ask::Show { said } => Ask::Show { said: *said },
        Ask::Send(path, bytes) => Ask::Send(path.duplicate(), bytes.try_clone(alloc)?),
        Ask::Receive(path, packets) => Ask::Receive(path.duplicate(), *packets),
        Ask::Clear(path) => Ask::Clear(path.duplicate()),
        Ask::SendTo(path, endpoint, bytes) => {
            Ask::SendTo(path.duplicate(), *endpoint, bytes.try_clone(alloc)?)
        }
        Ask::ReceiveFrom(path, endpoint, packets) => {
            Ask::ReceiveFrom(path.duplicate(), *endpoint, *packets)
        }
        Ask::Poll(path, endpoint) => Ask::Poll(path.duplicate(), *endpoint),
        Ask::ClearOf(path, endpoint) => Ask::ClearOf(path.duplicate(), *endpoint),
        Ask::SetInterface(path, interface, setting) => {
            Ask::SetInterface(path.duplicate(), *interface, *setting)
        }
        Ask::ControlIn(path, request) => Ask::ControlIn(path.duplicate(), *request),
        Ask::ControlOut(path, request) => {
            Ask::ControlOut(path.duplicate(), request.try_clone(alloc)?)
        }
        Ask::Look(path) => Ask::Look(path.duplicate()),
        Ask::News => Ask::News,
    })
}
