//! Runs of a plan.
ghost use Rattle.std.specs.Prelude.{◌≡◌, ◌≢◌, ◌+◌, ◌≤◌, ◌<◌, [], ◌∷◌, ◌++◌, map, false, true, None, Ok, Err, OnOk, OnErr, IfOk, IfErr, IsSome};
ghost use Rattle.std.proofs.Props.{props};
ghost use Rattle.std.specs.Coded.{codes};
ghost use Rattle.usb_device.specs.TreeCodes.{ports_code};
ghost use Rattle.usb_world.specs.Wire.{AtMostTwoRunning};
ghost use Rattle.usb_world.specs.Worlds.{root_row, to_come, changes};
ghost use Rattle.usb_sim.specs.Sim.{world_of, trace_of};
ghost use Rattle.std.specs.Io.KnownBytes.{Appends};
ghost use Rattle.usb_watch.specs.Watch.{inner_of, has_failed, AppendsFront};
ghost use Rattle.usb_bus.specs.Written.{tells_failure};
ghost use Rattle.usb_world.specs.Steps.{PutLine, opening};
ghost use Rattle.usb_enum.specs.Verdicts.{usual_options};
ghost use Rattle.usb_host.specs.HostCalls.{NewTells};
ghost use Rattle.usb_host.specs.Plugs.{plug_events};
ghost use Rattle.usb_host.specs.Transfers.{table_in};
ghost use Rattle.usb_host.specs.Progress.{OnlyBusSteps};
ghost use Rattle.usb_host.specs.Ownership.{HostMapHolds};
ghost use Rattle.usb_plan.specs.Attempts.{bound_of};
ghost use Rattle.usb_run.specs.declared.runs.RunFault.TheVariants.{Memory as NoMemory};
ghost use Rattle.usb_run.specs.Moments.{ListsPlugged};
ghost use Rattle.usb_run.specs.RunSegments.{Knowing, Knows, LeavesSettled, OneRound, Settling};
ghost use Rattle.usb_run.specs.Run.{IsBegun, IsCaused, RunsOn, Spent, entry_said, round_fault, run_fault, items_left, listing_of, said_if};
ghost use Rattle.usb_run.specs.Reports.{EndsWell, Finishes, Opens};
ghost use Rattle.usb_run.specs.Transcript.{Next, NextAsked, NextEvent, PutsLine};
ghost use Rattle.usb_run.specs.Transfers.{Does};

use crate::asked::asked_item;
use crate::item::Item;
use std::alloc::{AllocError, AllocFailed, Global};
use std::io::Write;
use thiserror::Error;
use usb_bus::BusFault;
use usb_enum::Finding;
use usb_host::{Host, HostFault, Round};
use usb_port::PortPath;
use usb_sim::{Ask, Plan, SimBus, Trace, Tracer, Untraced, untraced_fault};
use usb_text::Said;
use usb_watch::Watched;

/// Why a run ended early, in the order in which the reasons are reported.
#[derive(Clone, Copy, Debug, PartialEq, Eq, Error)]
pub enum RunFault {
    /// The attempts made equal the plan's limit.
    #[error("limit reached")]
    LimitReached,
    /// Memory was refused.
    #[error("out of memory")]
    Memory,
    /// The trace's writer failed.
    #[error("trace failed")]
    TraceFailed,
}

impl From<BusFault> for RunFault {
    ghost from_gives = { λ fault e. e ≡ run_fault fault };

    fn from(fault: BusFault) -> RunFault {
        match fault {
            BusFault::Limit => RunFault::LimitReached,
            BusFault::Memory => RunFault::Memory,
            BusFault::Failed => RunFault::TraceFailed,
        }
    }
}

impl From<AllocError> for RunFault {
    ghost from_gives = { λ _ e. e ≡ NoMemory };

    fn from(_e: AllocError) -> RunFault {
        RunFault::Memory
    }
}

impl<T: Drop> From<AllocFailed<T>> for RunFault {
    ghost from_gives = { λ _ e. e ≡ NoMemory };

    fn from(_e: AllocFailed<T>) -> RunFault {
        RunFault::Memory
    }
}

/// Rounds until a quiet one in which no event was taken.
///
/// # Errors
///
/// - `LimitReached`, `TraceFailed`: the fault of the bus.
/// - `Memory`: memory was refused.
pub fn settle<T: Trace>(host: &mut Host<SimBus<T>>) -> Result<(), RunFault>
    requires running { host.old.stopped ≡ false }
    // Rounds, of which the last alone is quiet with no event taken in it.
    ensures on { RunsOn Settling host.old result host.new }
    // No root port has its change of connection set.
    ensures settled { OnOk result (changes (root_row host.new.world) ≡ 0) }
    // Where what the host knew is so, nothing is left to do, and it lists what is plugged.
    ensures leaves { OnOk result (LeavesSettled host.old host.new) }
    ensures owning { HostMapHolds host.old → HostMapHolds host.new }
{
    'rounds: loop {
        let taken = host.bus().events_taken();
        let round = round_of(host)?;
        if round == Round::Quiet && host.bus().events_taken() == taken {
            return Ok(());
        }
    }
}

/// One round of a host that is not stopped.
fn round_of<T: Trace>(host: &mut Host<SimBus<T>>) -> Result<Round, RunFault>
    requires running { host.old.stopped ≡ false }
    ensures on { RunsOn OneRound host.old result host.new }
    ensures owning { HostMapHolds host.old → HostMapHolds host.new }
{
    match host.round() {
        Ok(round) => Ok(round),
        Err(fault) => Err(round_fault(fault)),
    }
}

/// What the fault of a round is to a run.
fn round_fault(fault: HostFault) -> RunFault
    ensures { result ≡ round_fault fault }
{
    match fault {
        HostFault::Bus(fault) => RunFault::from(fault),
        HostFault::Stopped | HostFault::Transfer(_) | HostFault::Memory => RunFault::Memory,
    }
}

/// What a whole run made: its items in order, and its counts.
#[derive(Debug, Drop)]
pub struct Report {
    /// What the run made, the first one first.
    pub items: Vec<Item>,
    /// How many attempts were made.
    pub attempts: u64,
    /// How often a device did not see the host's ACK of SET_ADDRESS.
    pub address_losses: u64,
    /// The greatest number of those losses between two steps that clear a change of connection, or before the first
    /// or after the last of these steps.
    pub worst_address_run: u32,
}

/// Runs a plan to its end, with its trace thrown away. A transfer that is not done is an item with its fault, and the
/// run goes on.
///
/// # Errors
///
/// - `LimitReached`: the attempts made equal the plan's limit.
/// - `Memory`: memory was refused.
pub fn run(alloc: Global, plan: &Plan) -> Result<Report, RunFault>
    ensures limit { IfOk result (λ report. report.attempts ≤ plan.now.limit) }
    // No two devices that could be reached held one address at any attempt, what is told of a
    // transfer is what devices did, and a fault has its cause.
    ensures ends { EndsWell plan.now result }
    // Where no three attempts running are damaged, and no address was lost three times running,
    // each listing is what is plugged when it is made.
    ensures listings { AtMostTwoRunning plan.now.damages → IfOk result (ListsPlugged plan.now) }
    // A plan of at most 127 plugs whose limit is its bound never comes to its limit.
    ensures enough { plug_events plan.now.events ≤ 127 → bound_of plan.now ≤ plan.now.limit
        → result ≢ Err RunFault.LimitReached }
{
    let mut runner = match Runner::untraced(alloc, plan) {
        Ok(runner) => runner,
        Err(_) => return Err(RunFault::Memory),
    };
    let report = runner.finish(alloc);
    untraced_fault(runner.host().bus());
    report
}

/// A plan's run, made item by item.
///
/// At no attempt did two devices that could be reached hold one address. As long as the host goes on, each of them
/// holds the address that the host has for it.
#[derive(Debug, Drop)]
pub struct Runner<T: Trace> {
    alloc: Global,
    host: Host<SimBus<T>>,
    /// Nothing more is made.
    over: bool,
    ghost running: { over ≡ false → host.stopped ≡ false },
    ghost owning: { HostMapHolds host } by { Prim.hlevel (props, ports_code (Prim.hlevel codes)) },
    ghost few_events: { host.world.taken + to_come host.world ≤ 10000 },
}

impl<W: Write> Runner<Tracer<W>> {
    /// The run before its first attempt, with a writer that has not failed yet.
    ///
    /// # Errors
    ///
    /// Memory was refused; the writer is handed back.
    pub fn new(
        alloc: Global,
        plan: &Plan,
        writer: Watched<W>,
    ) -> Result<Runner<Tracer<W>>, (AllocError, Watched<W>)>
        requires unfailed { has_failed writer ≡ false }
        ensures opened { IfOk result (λ runner.
            Opens plan.now (W.contents (inner_of writer)) runner.host) }
        ensures begun { IfOk result (λ runner. IsBegun plan.now runner.host.world) }
        ensures going { IfOk result (λ runner. runner.over ≡ false) }
        ensures back { IfErr result (λ e. e.1 ≡ writer) }
    {
        match Runner::traced(alloc, plan, Tracer::new(writer)) {
            Ok(runner) => Ok(runner),
            Err((error, tracer)) => Err((error, tracer.into_writer())),
        }
    }

    /// Gives the writer back.
    pub fn into_writer(self) -> Watched<W>
        ensures trace { W.contents (inner_of result) ≡ self.host.trace }
        ensures failed { has_failed result ≡ tells_failure self.host.world.fault }
    {
        let Runner {
            alloc: _,
            host,
            over: _,
        } = self;
        host.into_bus().into_writer()
    }
}

impl Runner<Untraced> {
    /// The same run, with no line of its trace made.
    ///
    /// # Errors
    ///
    /// Memory was refused.
    pub fn untraced(alloc: Global, plan: &Plan) -> Result<Runner<Untraced>, AllocError>
        ensures opened { IfOk result (λ runner. Opens plan.now None runner.host) }
        ensures begun { IfOk result (λ runner. IsBegun plan.now runner.host.world) }
        ensures going { IfOk result (λ runner. runner.over ≡ false) }
    {
        let bus = SimBus::untraced(alloc, plan)?;
        Ok(Runner::with_bus(alloc, plan, bus))
    }
}

impl<T: Trace> Runner<T> {
    /// The run before its first attempt, whose lines go to what has not failed yet.
    ///
    /// # Errors
    ///
    /// Memory was refused; the tracer is handed back.
    pub fn traced(alloc: Global, plan: &Plan, tracer: T) -> Result<Runner<T>, (AllocError, T)>
        requires unfailed { T.failed tracer ≡ false }
        ensures opened { IfOk result (λ runner. Opens plan.now (T.text tracer) runner.host) }
        ensures begun { IfOk result (λ runner. IsBegun plan.now runner.host.world) }
        ensures going { IfOk result (λ runner. runner.over ≡ false) }
        ensures back { IfErr result (λ e. e.1 ≡ tracer) }
    {
        let bus = SimBus::traced(alloc, plan, tracer)?;
        Ok(Runner::with_bus(alloc, plan, bus))
    }

    /// Gives back what the lines went to.
    pub fn into_tracer(self) -> T
        ensures trace { T.text result ≡ self.host.trace }
        ensures failed { T.failed result ≡ tells_failure self.host.world.fault }
    {
        let Runner {
            alloc: _,
            host,
            over: _,
        } = self;
        host.into_bus().into_tracer()
    }

    /// The run of a plan before its first attempt, over the plan's bus.
    fn with_bus(alloc: Global, plan: &Plan, bus: SimBus<T>) -> Runner<T>
        requires { world_of bus ≡ opening plan.now }
        ensures opened { Opens plan.now (trace_of bus) result.host }
        ensures begun { IsBegun plan.now result.host.world }
        ensures going { result.over ≡ false }
    {
        // for the checker: what holds of each plan
        let _events = plan.events();
        Runner {
            alloc,
            host: host_of(alloc, plan.wide_hubs(), bus),
            over: false,
        }
    }

    /// Runs on to the next item, or returns None if the run is over: after its last listing, or after a fault.
    ///
    /// # Errors
    ///
    /// The run is then over.
    ///
    /// - `LimitReached`, `TraceFailed`: the fault of the bus.
    /// - `Memory`: memory was refused.
    pub fn next_item(&mut self) -> Result<Option<Item>, RunFault>
        ensures next { (self.old.over ≡ false → Knows self.old.host)
            → Next self.old.over self.old.host result self.new.over self.new.host }
        ensures caused { IfErr result (λ fault. IsCaused fault self.new.host.world) }
        ensures fewer { IfOk result (λ item. IsSome item
            → items_left self.new.over self.new.host.world
            < items_left self.old.over self.old.host.world) }
        ensures over { OnErr result (self.new.over ≡ true) }
    {
        if self.over {
            return Ok(None);
        }
        self.over = true;
        if let Some(item) = item_of_events(self.alloc, &mut self.host)? {
            self.over = false;
            return Ok(Some(item));
        }
        Ok(Some(listing(self.alloc, &self.host, false)?))
    }

    /// Runs on to the end, and returns what was made.
    ///
    /// # Errors
    ///
    /// - `LimitReached`, `TraceFailed`: the fault of the bus.
    /// - `Memory`: memory was refused.
    pub fn finish(&mut self, alloc: Global) -> Result<Report, RunFault>
        ensures finishes { (self.old.over ≡ false → Knows self.old.host)
            → Finishes self.old.over self.old.host result self.new.host }
    {
        let mut items = Vec::new(alloc);
        'items: while let Some(item) = self.next_item()? {
            items.push(item)?;
        }
        Ok(Report {
            items,
            attempts: self.attempts(),
            address_losses: self.address_losses(),
            worst_address_run: self.worst_address_run(),
        })
    }

    /// Writes one line of report into the trace.
    ///
    /// # Errors
    ///
    /// - the fault that the bus reported before, and nothing is written;
    /// - `Failed`: the writer failed. A prefix of the line is written.
    pub fn put_line(&mut self, line: &[u8]) -> Result<(), BusFault>
        ensures puts { PutsLine line.now self.old.host result self.new.host }
        ensures caused { IfErr result (λ fault. IsCaused (run_fault fault) self.new.host.world) }
        ensures over { self.new.over ≡ self.old.over }
    {
        self.host.bus_mut().put_line(line)
    }

    /// The host of the run's bus.
    pub fn host(&self) -> &Host<SimBus<T>>
        ensures { result.now ≡ self.now.host }
    {
        &self.host
    }

    /// How many attempts were made.
    pub fn attempts(&self) -> u64
        ensures { result ≡ self.now.host.world.attempts }
    {
        self.host.bus().attempts()
    }

    /// How often a device did not see the host's ACK of SET_ADDRESS.
    pub fn address_losses(&self) -> u64
        ensures { result ≡ self.now.host.world.losses.all }
    {
        self.host.bus().address_losses()
    }

    /// The greatest number of those losses between two steps that clear a change of connection, or before the first
    /// or after the last of these steps.
    pub fn worst_address_run(&self) -> u32
        ensures { result ≡ self.now.host.world.losses.worst }
    {
        self.host.bus().worst_address_run()
    }
}

/// The host of a plan's bus, which takes wide hubs or does not.
fn host_of<T: Trace>(alloc: Global, wide: bool, bus: SimBus<T>) -> Host<SimBus<T>>
    ensures { NewTells (usual_options wide) (world_of bus) (trace_of bus) result }
{
    if wide {
        Host::with_wide_hubs(alloc, bus)
    } else {
        Host::new(alloc, bus)
    }
}

/// Lets events come up to one of which an item is made; None if none is left.
fn item_of_events<T: Trace>(
    alloc: Global,
    host: &mut Host<SimBus<T>>,
) -> Result<Option<Item>, RunFault>
    requires running { host.old.stopped ≡ false }
    ensures on { RunsOn (Knowing NextAsked) host.old result host.new }
    ensures spent { Spent host.old host.new }
    ensures fewer { IfOk result (λ item. IsSome item
        → to_come host.new.world < to_come host.old.world) }
    ensures owning { HostMapHolds host.old → HostMapHolds host.new }
{
    'events: loop {
        let Some(due) = next_due(host)? else {
            return Ok(None);
        };
        if let Some(item) = item_of(alloc, host, due)? {
            return Ok(Some(item));
        }
    }
}

/// Settles, and lets the next event come; None if none is left.
fn next_due<T: Trace>(host: &mut Host<SimBus<T>>) -> Result<Option<Option<Ask>>, RunFault>
    requires running { host.old.stopped ≡ false }
    ensures on { RunsOn (Knowing NextEvent) host.old result host.new }
    ensures spent { Spent host.old host.new }
    ensures fewer { IfOk result (λ due. IsSome due
        → to_come host.new.world < to_come host.old.world) }
    ensures owning { HostMapHolds host.old → HostMapHolds host.new }
{
    settle(host)?;
    Ok(host.bus_mut().apply_next_event()?)
}

/// What the run makes of an event: nothing of a change.
fn item_of<T: Trace>(
    alloc: Global,
    host: &mut Host<SimBus<T>>,
    due: Option<Ask>,
) -> Result<Option<Item>, RunFault>
    requires running { host.old.stopped ≡ false }
    ensures on { RunsOn (Does due) host.old result host.new }
    ensures owning { HostMapHolds host.old → HostMapHolds host.new }
{
    match due {
        None => Ok(None),
        Some(ask) => asked_item(alloc, host, ask),
    }
}

/// What the host has found, how many events had come, and if that is to be told, what refused devices said.
pub(crate) fn listing<T: Trace>(
    alloc: Global,
    host: &Host<SimBus<T>>,
    told: bool,
) -> Result<Item, RunFault>
    ensures item { IfOk result (λ item. item ≡ listing_of told host.now) }
    ensures fault { IfErr result (λ fault. fault ≡ RunFault.Memory) }
{
    let events = host.bus().events_taken();
    let Ok(tree) = host.tree() else {
        return Err(RunFault::Memory);
    };
    let said = said_if(alloc, host, told, tree.entries())?;
    Ok(Item::Listing(tree, events, said))
}

/// What the device of an entry said of itself: nothing is kept of an accepted one.
fn entry_said<'a, T: Trace>(host: &'a Host<SimBus<T>>, entry: &(PortPath, Finding)) -> &'a [u8]
    ensures { result.now ≡ entry_said (table_in host.now) entry.now }
{
    match host.said(&entry.0) {
        Some(said) => said,
        None => &[],
    }
}

/// What the devices of entries said of themselves, if that is to be told.
fn said_if<T: Trace>(
    alloc: Global,
    host: &Host<SimBus<T>>,
    told: bool,
    entries: &[(PortPath, Finding)],
) -> Result<Said, AllocError>
    ensures { IfOk result (λ said. said ≡ said_if told (table_in host.now) entries.now) }
{
    let mut said = Said::none(alloc);
    if !told {
        return Ok(said);
    }
    'entries: for entry in entries {
        said.push(alloc, entry_said(host, entry))?;
    }
    Ok(said)
}
