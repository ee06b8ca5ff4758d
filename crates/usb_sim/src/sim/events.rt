//! The events of a plan as they come.
ghost use Rattle.std.specs.Prelude.{◌≡◌, ◌+◌, ◌<◌, ◌≤◌, [], ◌∷◌, ◌++◌, length, true, Ok, Some, None, OnOk, OnErr, IsTrue, IsSome};
ghost use Rattle.usb_function.specs.HolderIndex.{IsIndexOf};
ghost use Rattle.usb_device.specs.Tree.{row_of, changed, replaced};
ghost use Rattle.usb_world.specs.Worlds.{changes, to_come};
ghost use Rattle.usb_world.specs.Steps.{after, event, after_change, has_due};
ghost use Rattle.usb_world.specs.Plans.{can_be_done};
ghost use Rattle.usb_bus.specs.Lines.{event_line};
ghost use Rattle.usb_world.specs.Trace.{plug_line, unplug_line};
ghost use Rattle.usb_bus.specs.Traces.{TakesEvent};
ghost use Rattle.usb_watch.specs.Watch.{PutsText};
ghost use Rattle.usb_world.specs.declared.types.BusFault.TheVariants.{Memory, Failed};

use super::SimBus;
use super::descriptions::Descriptions;
use crate::shown::ShownName;
use crate::{Action, Ask, Change, Trace};
use std::alloc::{AllocError, Global};
use std::rc::Rc;
use usb_function::{Device, Holders, Ports};
use usb_port::PortPath;
use usb_scene::DeviceSpec;
use usb_watch::WriteFailed;
use usb_world::BusFault;

impl<T: Trace> SimBus<T> {
    ghost use Rattle.usb_sim.specs.Sim.{world_of, tracer_of, trace_of};
    ghost use Rattle.usb_sim.specs.Parts.{OneEventCame, EventsCame};

    /// Lets the next event come at once, however many attempts it would wait for, and returns what it asks, if it
    /// asks; None if no event is left.
    ///
    /// # Errors
    ///
    /// - the fault that was reported before;
    /// - `Memory`: the device could not be made, and the event did not come.
    /// - `Failed`: the writer failed in this call, and the event came.
    pub fn apply_next_event(&mut self) -> Result<Option<Option<Ask>>, BusFault>
        ensures takes { TakesEvent (world_of self.old) (trace_of self.old) result
            (world_of self.new) (trace_of self.new) }
        ensures trace { result ≡ Err Failed → (world_of self.old).fault ≡ None
            → T.failed (tracer_of self.new) ≡ true }
        ensures kept { result ≡ Err Memory → tracer_of self.new ≡ tracer_of self.old }
        ensures again { IsSome (world_of self.old).fault → self.new ≡ self.old }
    {
        if let Some(fault) = self.fault {
            return Err(fault);
        }
        self.take_event()
    }

    /// Lets the events come that are due.
    pub(super) fn take_due_events(&mut self) -> Result<(), BusFault>
        requires sound { (world_of self.old).fault ≡ None }
        ensures came { EventsCame (world_of self.old) (trace_of self.old) result
            (world_of self.new) (trace_of self.new) }
        ensures trace { result ≡ Err Failed → T.failed (tracer_of self.new) ≡ true }
    {
        if self.is_due() {
            return self.take_all_due();
        }
        Ok(())
    }

    /// The same, where some may be due. It stays apart, so that an attempt at which none is makes no room for one.
    #[inline(never)]
    fn take_all_due(&mut self) -> Result<(), BusFault>
        requires sound { (world_of self.old).fault ≡ None }
        ensures came { EventsCame (world_of self.old) (trace_of self.old) result
            (world_of self.new) (trace_of self.new) }
        ensures trace { result ≡ Err Failed → T.failed (tracer_of self.new) ≡ true }
    {
        'due: while self.is_due() {
            let _ = self.take_event()?;
        }
        Ok(())
    }

    /// Whether the next event comes by itself: it does not wait for the host, and this number of attempts was made
    /// since the former event.
    #[tactic(auto, unfolding(usb_world::specs::Steps::has_due))]
    fn is_due(&self) -> bool
        ensures value { result ≡ has_due (world_of self.now) }
        ensures left { IsTrue result → 0 < to_come (world_of self.now) }
    {
        match self.left.front() {
            None => false,
            Some(event) => {
                !event.action.waits() && self.attempts - self.attempts_then >= event.after
            }
        }
    }

    /// The next event comes, if one is left.
    fn take_event(&mut self) -> Result<Option<Option<Ask>>, BusFault>
        requires sound { (world_of self.old).fault ≡ None }
        ensures came { OneEventCame (world_of self.old) (trace_of self.old) result
            (world_of self.new) (trace_of self.new) }
        ensures fewer { 0 < to_come (world_of self.old)
            → OnOk result (to_come (world_of self.new) < to_come (world_of self.old)) }
        ensures kept { result ≡ Err Memory → tracer_of self.new ≡ tracer_of self.old }
        ensures trace { result ≡ Err Failed → T.failed (tracer_of self.new) ≡ true }
    {
        let Some(event) = self.left.front() else {
            return Ok(None);
        };
        self.fault = Some(BusFault::Memory);
        carry_out(
            self.alloc,
            &mut self.roots,
            &mut self.holders,
            &self.devices,
            &event.action,
        )?;
        let event = self.left.pop_front().unwrap();
        self.taken += 1;
        self.attempts_then = self.attempts;
        // The event came: only its line can fail.
        self.fault = Some(BusFault::Failed);
        put_action(&mut self.tracer, &self.names, &event.action)?;
        self.fault = None;
        Ok(Some(event.action.into_ask()))
    }
}

/// What an action does to what is plugged; `holders` is the index of it.
///
/// # Errors
///
/// Memory is refused for a device, and nothing changes.
fn carry_out(
    alloc: Global,
    roots: &mut Ports,
    holders: &mut Holders,
    devices: &Descriptions,
    action: &Action,
) -> Result<(), AllocError>
    requires can { can_be_done (length devices.now) action.now ≡ true }
    requires index { IsIndexOf holders.old roots.old }
    ensures ok { OnOk result (roots.new ≡ after_change action.now devices.now roots.old) }
    ensures err { OnErr result (roots.new ≡ roots.old) }
    ensures index { IsIndexOf holders.new roots.new }
{
    match action {
        Action::Change(Change::Plug(path, device)) => {
            plug(alloc, roots, holders, path, devices.at(*device))?
        }
        Action::Change(Change::Unplug(path)) => unplug(roots, holders, path),
        Action::Ask(_) => {}
    }
    Ok(())
}

/// Makes the device, and plugs it at its port.
fn plug(
    alloc: Global,
    roots: &mut Ports,
    holders: &mut Holders,
    path: &PortPath,
    spec: &Rc<DeviceSpec>,
) -> Result<(), AllocError>
    requires { IsIndexOf holders.old roots.old }
    ensures ok { OnOk result
        (roots.new ≡ changed (replaced (Some spec.now.value)) roots.old path.now) }
    ensures err { OnErr result (roots.new ≡ roots.old) }
    ensures index { IsIndexOf holders.new roots.new }
{
    let device = Device::new(alloc, spec)?;
    let numbers = path.numbers();
    let forgotten = holders.forget(roots, numbers);
    roots.plug(numbers, device);
    if !forgotten {
        holders.renew(roots);
    }
    Ok(())
}

/// Unplugs what is at a port, if anything is.
fn unplug(roots: &mut Ports, holders: &mut Holders, path: &PortPath)
    requires { IsIndexOf holders.old roots.old }
    ensures unplugged { roots.new ≡ changed (replaced None) roots.old path.now }
    ensures index { IsIndexOf holders.new roots.new }
{
    let forgotten = holders.forget(roots, path.numbers());
    let _ = roots.unplug(path.numbers());
    if !forgotten {
        holders.renew(roots);
    }
}

/// The line of an event.
#[tactic(auto, unfolding(usb_bus::specs::Lines::event_line), using(usb_watch::proofs::Interface::puts_no_text))]
fn put_action<T: Trace>(
    tracer: &mut T,
    names: &[ShownName],
    action: &Action,
) -> Result<(), WriteFailed>
    requires { can_be_done (length names.now) action.now ≡ true }
    ensures { PutsText T.text T.failed tracer.old result tracer.new
        (event_line action.now names.now) }
{
    match action {
        Action::Change(Change::Plug(path, device)) => put_plug(tracer, path, &names[*device]),
        Action::Change(Change::Unplug(path)) => put_unplug(tracer, path),
        Action::Ask(_) => Ok(()),
    }
}

/// The line of a plug.
fn put_plug<T: Trace>(tracer: &mut T, path: &PortPath, shown: &ShownName) -> Result<(), WriteFailed>
    ensures { PutsText T.text T.failed tracer.old result tracer.new
        (plug_line path.now shown.now ++ 10 ∷ []) }
{
    tracer.put_pieces(&[
        b"plug ",
        path.text().as_str().as_bytes(),
        b" ",
        shown.as_bytes(),
        b"\n",
    ])
}

/// The line of an unplug.
fn put_unplug<T: Trace>(tracer: &mut T, path: &PortPath) -> Result<(), WriteFailed>
    ensures { PutsText T.text T.failed tracer.old result tracer.new
        (unplug_line path.now ++ 10 ∷ []) }
{
    tracer.put_pieces(&[b"unplug ", path.text().as_str().as_bytes(), b"\n"])
}
