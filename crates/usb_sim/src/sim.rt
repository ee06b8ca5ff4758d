//! A simulated bus: the devices that a plan's events plug at its root ports, and the trace of its attempts.
ghost use Rattle.std.specs.Prelude.{◌≡◌, ◌+◌, ◌-◌, ◌≤◌, length, IfOk, IfErr, None, Some, option_map, false, true, All};
ghost use Rattle.std.specs.List.{list_all};
ghost use Rattle.usb_world.specs.Plans.{can_come};
ghost use Rattle.usb_world.specs.PlanLimits.{attempt_most, damage_most, event_most};
ghost use Rattle.usb_device.specs.DeviceSpecs.{IsSpec};
ghost use Rattle.usb_device.specs.Rows.{out_end};
ghost use Rattle.usb_device.specs.Tree.{new_ports, row_of};
ghost use Rattle.usb_function.specs.HolderIndex.{IsIndexOf};
ghost use Rattle.usb_world.specs.Losses.{AreOfDamages};
ghost use Rattle.usb_world.specs.AttemptPackets.{IsSettled};
ghost use Rattle.usb_world.specs.SanePorts.{Consistent};
ghost use Rattle.usb_world.specs.SaneProofs.{Consistent-prop, IsSpec-prop, all_prop};
ghost use Rattle.usb_world.specs.Steps.{opening};
ghost use Rattle.usb_bus.specs.Lines.{shown_names};
ghost use Rattle.usb_watch.specs.Watch.{has_failed};
ghost use Rattle.usb_bus.specs.Written.{tells_failure};
ghost use Rattle.usb_world.specs.declared.types.BusFault.TheVariants.{Limit};

mod bus;
mod descriptions;
mod events;
mod follow;
mod lines;

use self::descriptions::Descriptions;
pub use self::follow::FollowFault;
use crate::shown::{ShownName, shown_names};
use crate::{Damage, Event, Plan, Trace, Tracer, Untraced};
use std::alloc::{AllocError, Global};
use std::collections::VecDeque;
use std::io::Write;
use usb_device::{AnswerPid, EndpointNumber, HeardPid};
use usb_exchange::ExchangeRoom;
use usb_function::{Holders, Ports};
use usb_port::PortPath;
use usb_scene::event_copies;
use usb_watch::Watched;
use usb_world::{BusFault, Losses};

/// A bus that a plan describes. Each attempt, plug and unplug is a line of the trace, which goes to a writer at once
/// where the bus is `Tracer`.
///
/// After a fault every later attempt, event and line of report reports the same fault again and changes nothing. Its
/// trace has failed exactly if `Failed` was reported; so an `Untraced` bus never reports it.
#[derive(Debug, Drop)]
pub struct SimBus<T: Trace> {
    alloc: Global,
    roots: Ports,
    devices: Descriptions,
    /// The names of the devices, as the trace shows them.
    names: Vec<ShownName>,
    /// The events to come.
    left: VecDeque<Event>,
    /// How many events came.
    taken: u64,
    attempts: u64,
    /// The attempts made when the last event came.
    attempts_then: u64,
    limit: u64,
    damages: Vec<Damage>,
    losses: Losses,
    /// At some attempt two reachable devices held one address.
    shared: bool,
    fault: Option<BusFault>,
    tracer: T,
    /// Which device holds which address.
    holders: Holders,
    /// The packets of the last attempt.
    exchange: ExchangeRoom,
    ghost some_root: { 1 ≤ length (row_of roots) },
    ghost few_roots: { length (row_of roots) ≤ 7 },
    ghost settled: { IsSettled roots },
    ghost sane: { fault ≡ None
        → Consistent roots } by { λ x y i none. Consistent-prop roots (x none) (y none) i },
    ghost ruled: { All IsSpec devices } by { all_prop IsSpec-prop devices },
    ghost planned: { list_all (can_come (length devices)) left.items ≡ true },
    ghost few_events: { taken + length left.items ≤ event_most },
    ghost counted: { attempts_then ≤ attempts },
    ghost within: { attempts ≤ limit },
    ghost few_attempts: { limit ≤ attempt_most },
    ghost few_damages: { length damages.items ≤ damage_most },
    ghost lost: { AreOfDamages attempts damages.items losses },
    ghost at_limit: { fault ≡ Some Limit → attempts ≡ limit },
    ghost marked: { T.failed tracer ≡ tells_failure fault },
    ghost named: { names.items ≡ shown_names devices },
    ghost indexed: { IsIndexOf holders roots },
}

/// What a simulated bus keeps of a plan.
#[derive(Drop)]
struct Stage {
    holders: Holders,
    roots: Ports,
    devices: Descriptions,
    names: Vec<ShownName>,
    left: VecDeque<Event>,
    damages: Vec<Damage>,
    ghost indexed: { IsIndexOf holders roots },
}

impl<W: Write> SimBus<Tracer<W>> {
    ghost use Rattle.usb_sim.specs.Sim.{world_of, writer_of};

    /// The bus of a plan, before anything came: all ports are off. The writer has not failed yet.
    ///
    /// # Errors
    ///
    /// Memory was refused; the writer is handed back.
    pub fn new(
        alloc: Global,
        plan: &Plan,
        writer: Watched<W>,
    ) -> Result<SimBus<Tracer<W>>, (AllocError, Watched<W>)>
        requires unfailed { has_failed writer ≡ false }
        ensures world { IfOk result (λ bus. world_of bus ≡ opening plan.now) }
        ensures writer { IfOk result (λ bus. writer_of bus ≡ writer) }
        ensures back { IfErr result (λ e. e.1 ≡ writer) }
    {
        match SimBus::traced(alloc, plan, Tracer::new(writer)) {
            Ok(bus) => Ok(bus),
            Err((error, tracer)) => Err((error, tracer.into_writer())),
        }
    }

    /// Hands the writer back. It has failed exactly if this is the fault that was reported.
    pub fn into_writer(self) -> Watched<W>
        ensures writer { result ≡ writer_of self }
        ensures failed { has_failed result ≡ tells_failure (world_of self).fault }
    {
        self.into_tracer().into_writer()
    }
}

impl SimBus<Untraced> {
    ghost use Rattle.usb_sim.specs.Sim.{world_of};

    /// The same bus, which makes no line of its trace.
    ///
    /// # Errors
    ///
    /// Memory was refused.
    pub fn untraced(alloc: Global, plan: &Plan) -> Result<SimBus<Untraced>, AllocError>
        ensures { IfOk result (λ bus. world_of bus ≡ opening plan.now) }
    {
        SimBus::traced(alloc, plan, Untraced).map_err(|(error, _)| error)
    }
}

impl<T: Trace> SimBus<T> {
    ghost use Rattle.usb_sim.specs.Parts.{answered_by};
    ghost use Rattle.usb_sim.specs.Sim.{world_of, tracer_of, device_at, registers_of};

    /// The bus of a plan, before anything came: all ports are off. The lines of its trace go to this, which has not
    /// failed yet.
    ///
    /// # Errors
    ///
    /// Memory was refused; the tracer is handed back.
    #[tactic(auto, using(usb_world::proofs::Interface::no_losses_yet))]
    pub fn traced(alloc: Global, plan: &Plan, tracer: T) -> Result<SimBus<T>, (AllocError, T)>
        requires unfailed { T.failed tracer ≡ false }
        ensures world { IfOk result (λ bus. world_of bus ≡ opening plan.now) }
        ensures tracer { IfOk result (λ bus. tracer_of bus ≡ tracer) }
        ensures back { IfErr result (λ e. e.1 ≡ tracer) }
    {
        match staged(alloc, plan) {
            Err(error) => Err((error, tracer)),
            Ok(stage) => Ok(SimBus {
                alloc,
                roots: stage.roots,
                devices: stage.devices,
                names: stage.names,
                left: stage.left,
                taken: 0,
                attempts: 0,
                attempts_then: 0,
                limit: plan.limit(),
                damages: stage.damages,
                losses: Losses::none(),
                shared: false,
                fault: None,
                tracer,
                holders: stage.holders,
                exchange: ExchangeRoom::blank(),
            }),
        }
    }

    /// Hands back what the lines of the trace went to. It has failed exactly if this is the fault that was reported.
    pub fn into_tracer(self) -> T
        ensures tracer { result ≡ tracer_of self }
        ensures failed { T.failed result ≡ tells_failure (world_of self).fault }
    {
        let SimBus { tracer, .. } = self;
        tracer
    }

    /// How many events came.
    pub fn events_taken(&self) -> u64
        ensures { result ≡ (world_of self.now).taken }
    {
        self.taken
    }

    /// How many events are to come.
    pub fn events_left(&self) -> u64
        ensures { result ≡ length (world_of self.now).left }
    {
        self.left.len() as u64
    }

    /// How many attempts were made.
    pub fn attempts(&self) -> u64
        ensures value { result ≡ (world_of self.now).attempts }
        ensures most { result ≤ attempt_most }
    {
        self.attempts
    }

    /// How many attempts were made since the last event came, or since the start.
    pub fn attempts_since(&self) -> u64
        ensures { let w = world_of self.now in result ≡ w.attempts - w.attempts_then }
    {
        self.attempts - self.attempts_then
    }

    /// The damages of the plan, in the order of their attempts.
    pub fn damages(&self) -> &[Damage]
        ensures { result.now ≡ (world_of self.now).damages }
    {
        self.damages.as_slice()
    }

    /// How many bytes of data a device answered to the last attempt; 0 if none did, or several at once. It may be more
    /// than the host asked for, which reads nothing then.
    pub fn answered(&self) -> usize
        ensures { result ≡ answered_by self.now }
    {
        let heard = self.exchange.heard();
        match heard.pid() {
            HeardPid::One(AnswerPid::Data(_)) => heard.bytes().len(),
            _ => 0,
        }
    }

    /// Whether at some attempt two reachable devices held one address.
    pub fn has_shared_address(&self) -> bool
        ensures { result ≡ (world_of self.now).shared }
    {
        self.shared
    }

    /// How often a device did not see the host's ACK of the status stage of SET_ADDRESS, at which it was to take its
    /// address (9.4.6).
    pub fn address_losses(&self) -> u64
        ensures { result ≡ (world_of self.now).losses.all }
    {
        u64::from(self.losses.all)
    }

    /// The greatest number of those losses between two steps that clear a change of connection, or before the first
    /// or after the last of these steps.
    pub fn worst_address_run(&self) -> u32
        ensures { result ≡ (world_of self.now).losses.worst }
    {
        self.losses.worst
    }

    /// The ports of the root, with all that is plugged below them.
    pub fn roots(&self) -> &Ports
        ensures { result.now ≡ (world_of self.now).roots }
    {
        &self.roots
    }

    /// The address and the configuration of the device at the path; None if none is there.
    pub fn registers(&self, path: &PortPath) -> Option<(u8, u8)>
        ensures { result ≡ option_map registers_of (device_at self.now path.now) }
    {
        let device = self.roots.device_at(path.numbers())?;
        Some((device.address(), device.configuration()))
    }

    /// All bytes that the OUT endpoint with a number has taken since the plug of its device, which is
    /// at the path; None if none is there.
    pub fn sink(&self, path: &PortPath, number: EndpointNumber) -> Option<&[u8]>
        ensures { option_map (λ s. s.now) result
            ≡ option_map (λ d. (out_end d.own number).sink) (device_at self.now path.now) }
    {
        Some(self.roots.device_at(path.numbers())?.sink(number))
    }
}

/// What a bus keeps of a plan, before any event came.
fn staged(alloc: Global, plan: &Plan) -> Result<Stage, AllocError>
    ensures roots { IfOk result (λ s. s.roots ≡ new_ports plan.now.roots) }
    ensures devices { IfOk result (λ s. (s.devices ≡ plan.now.devices)
        × (s.names.items ≡ shown_names plan.now.devices)) }
    ensures events { IfOk result (λ s. s.left.items ≡ plan.now.events) }
    ensures damages { IfOk result (λ s. s.damages.items ≡ plan.now.damages) }
    ensures few { IfOk result (λ s. (length s.left.items ≤ event_most)
        × (length s.damages.items ≤ damage_most)) }
{
    let roots = Ports::new(alloc, plan.roots())?;
    Ok(Stage {
        holders: Holders::of(alloc, &roots)?,
        roots,
        devices: Descriptions::copied(alloc, plan.devices())?,
        names: shown_names(alloc, plan.devices())?,
        left: VecDeque::from(event_copies(alloc, plan.events())?),
        damages: plan.damages().to_vec(alloc)?,
    })
}
