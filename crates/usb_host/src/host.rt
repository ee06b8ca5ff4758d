//! The host of a bus, and what its callers may ask of it.
ghost use Rattle.std.specs.Prelude.{◌≡◌, ◌*◌, [], length, true, false, IfOk, IfErr};
ghost use Rattle.std.specs.Borrow.{Lends, sem};
ghost use Rattle.usb_host.specs.Agreement.{Agrees};
ghost use Rattle.usb_host.specs.HostCalls.{ClearTells, MovesAnyBus, NewTells, ReceiveTells, RoundTells, RoundsAnyBus, SendTells, TransfersAnyBus};
ghost use Rattle.usb_transfer.specs.Transactions.{transaction_bound};
ghost use Rattle.usb_enum.specs.Verdicts.{usual_options};
ghost use Rattle.usb_table.specs.PipeRows.{receives_miss, receives_through, sends_miss, sends_through, unless_broken};
ghost use Rattle.usb_table.specs.declared.choice.EndpointChoice.TheVariants.{FirstBulk};
ghost use Rattle.usb_host.specs.Bounds.{clear_bound};
ghost use Rattle.usb_host.specs.HostStates.{counts_after, counts_of};
ghost use Rattle.usb_host.specs.KeptBytes.{KeepsFew};
ghost use Rattle.usb_host.specs.LeftPorts.{none_left};
ghost use Rattle.usb_host.specs.Numbers.{first_numbers};
ghost use Rattle.usb_host.specs.ToldFaults.{StopsAsRound, StopsAsTransfer, host_told, is_final};
ghost use Rattle.usb_host.specs.Transfers.{pipe_for};

use crate::left::LeftPorts;
use crate::numbers::Numbers;
use crate::reported::Reported;
use crate::{HostFault, Tree};
use std::alloc::Global;
use std::marker::Model;
use usb_bus::Bus;
use usb_enum::HostOptions;
use usb_port::{AddressPool, PortPath};
use usb_request::feature::PORT_POWER;
use usb_table::{DeviceTable, EndpointChoice, TableFault};

/// Whether a round did anything.
#[derive(Clone, Copy, Debug, PartialEq, Eq)]
pub enum Round {
    /// A port was handled, a hub reported a change, or one was dropped.
    Worked,
    /// No root port had changed, but those that are left alone (`Host::round`), and every hub answered
    /// that none of its ports had.
    Quiet,
}

/// The host of a bus.
#[derive(Debug, Drop)]
pub struct Host<B: Bus> {
    pub(crate) alloc: Global,
    pub(crate) bus: B,
    pub(crate) pool: AddressPool,
    pub(crate) table: DeviceTable,
    pub(crate) left: LeftPorts<B>,
    pub(crate) numbers: Numbers,
    pub(crate) reported: Reported,
    pub(crate) options: HostOptions,
    pub(crate) stopped: bool,
}

impl<B: Bus> Model for Host<B> {
    ghost use Rattle.std.specs.Coded.{codes, coded_ℕ};
    ghost use Rattle.std.specs.FinSet as set;
    ghost use Rattle.std.specs.Ordering.{nat_cmp};
    ghost use Rattle.usb_device.specs.TreeCodes.{ports_code};
    ghost use Rattle.usb_host.specs.Agreement.{Agrees};
    ghost use Rattle.usb_host.specs.HostStates.{HostState, counts_of};

    ghost coded = { Prim.hlevel (codes, ports_code (Prim.hlevel codes), set.code {R = nat_cmp} coded_ℕ) };

    ghost Value = { HostState };

    ghost view = { λ h. record {
      world = B.world h.bus;
      trace = B.trace h.bus;
      counts = counts_of B.modelled (B.spent h.bus) (B.failed h.bus) h.left;
      entries = h.table.entries;
      pipes = h.table.pipes;
      addresses = h.pool;
      numbers = h.numbers;
      reported = h.reported;
      options = h.options;
      stopped = h.stopped;
    } };

    ghost invariant = { λ h. Agrees h.options h.table.entries h.pool };
}

impl<B: Bus> Host<B> {
    ghost use Rattle.usb_host.specs.contracts.host.Host.{the_row};

    /// The host of a bus, which knows of no device. It takes the power of each root port and gives
    /// it again (11.24.2.2, 11.24.2.13): a device there is disabled, and reported as plugged (11.5.1). So
    /// the bus may be one that another host had, also one that has stopped (`into_bus`).
    ///
    /// It takes hubs of 1 to 7 ports whose status endpoint is number 1, and refuses others. It keeps as
    /// many bytes as a device says.
    pub fn new(alloc: Global, bus: B) -> Host<B>
        ensures any_bus { (result.entries ≡ []) × ((result.stopped ≡ false)
            × (result.counts.left ≡ none_left)) }
        ensures known { (result.numbers ≡ first_numbers) × (result.reported ≡ []) }
        ensures options { result.options ≡ usual_options false }
        ensures tells { B.modelled ≡ true
            → NewTells (usual_options false) (B.world bus) (B.trace bus) result }
    {
        Host::with_options(alloc, bus, HostOptions::usual(false))
    }

    /// The same, of a host that also takes hubs of 8 to 15 ports (11.23.2.1), and status endpoints
    /// of numbers 1 to 15 (11.12.1).
    pub fn with_wide_hubs(alloc: Global, bus: B) -> Host<B>
        ensures any_bus { (result.entries ≡ []) × ((result.stopped ≡ false)
            × (result.counts.left ≡ none_left)) }
        ensures known { (result.numbers ≡ first_numbers) × (result.reported ≡ []) }
        ensures options { result.options ≡ usual_options true }
        ensures tells { B.modelled ≡ true
            → NewTells (usual_options true) (B.world bus) (B.trace bus) result }
    {
        Host::with_options(alloc, bus, HostOptions::usual(true))
    }

    /// The same, of a host that takes what its options say: wide hubs or none, and a limited number of
    /// bytes of each device or as many as it says. So a device that says too much is refused
    /// (`Cause::TooLarge`), and can't use up the memory.
    pub fn with_options(alloc: Global, bus: B, options: HostOptions) -> Host<B>
        ensures any_bus { (result.entries ≡ []) × ((result.stopped ≡ false)
            × (result.counts.left ≡ none_left)) }
        ensures known { (result.numbers ≡ first_numbers) × (result.reported ≡ []) }
        ensures options { result.options ≡ options }
        ensures tells { B.modelled ≡ true → NewTells options (B.world bus) (B.trace bus) result }
    {
        let mut bus = bus;
        let roots = bus.root_ports();
        'ports: for port in 1..roots + 1 {
            bus.root_clear(port, PORT_POWER);
            bus.root_set(port, PORT_POWER);
        }
        Host {
            alloc,
            bus,
            pool: AddressPool::new(),
            table: DeviceTable::new(alloc),
            left: LeftPorts::new(),
            numbers: Numbers::new(),
            reported: Reported::new(),
            options,
            stopped: false,
        }
    }

    /// The bus.
    pub fn bus(&self) -> &B
        ensures world { B.world result.now ≡ self.now.world }
        ensures trace { B.trace result.now ≡ self.now.trace }
        ensures counts { self.now.counts
            ≡ counts_of B.modelled (B.spent result.now) (B.failed result.now)
            self.now.counts.left }
    {
        &self.bus
    }

    /// The bus, to be changed by whoever runs the simulation.
    pub fn bus_mut(&mut self) -> &mut B
        ensures world { B.world result.now ≡ self.old.world }
        ensures trace { B.trace result.now ≡ self.old.trace }
        ensures agree { Agrees self.old.options self.old.entries self.old.addresses }
        ensures* writes_back { sem 𝓛 (Lends (the_row B.row B.Bus) B.row self.entry result
            (λ b. record self.old {
              world = B.world b;
              trace = B.trace b;
              counts
                  = counts_after B.modelled self.old.counts (B.spent b) (B.failed b);
            })) }
    {
        &mut self.bus
    }

    /// The bus, for good. Its devices keep their addresses until another host is made of it
    /// (`new`), which finds them anew.
    pub fn into_bus(self) -> B
        ensures world { B.world result ≡ self.world }
        ensures trace { B.trace result ≡ self.trace }
        ensures counts { self.counts
            ≡ counts_of B.modelled (B.spent result) (B.failed result) self.counts.left }
    {
        let Host {
            alloc: _,
            bus,
            pool: _,
            table: _,
            left: _,
            numbers: _,
            reported: _,
            options: _,
            stopped: _,
        } = self;
        bus
    }

    /// What is known of the ports. Each accepted device has at most the bytes of configurations that the
    /// options allow (`KeepsFew`).
    ///
    /// # Errors
    ///
    /// `Memory`: memory was refused; the host goes on.
    pub fn tree(&self) -> Result<Tree, HostFault>
        ensures entries { IfOk result (λ tree. tree ≡ self.now.entries) }
        ensures memory { IfErr result (λ fault. fault ≡ HostFault.Memory) }
        ensures agree { Agrees self.now.options self.now.entries self.now.addresses }
        ensures few { KeepsFew self.now.options self.now.entries }
    {
        Ok(Tree::new(self.table.entries(self.alloc)?))
    }

    /// One round (11.12). First each root port whose connection has changed is handled, by rising
    /// number. Then each hub that is known is polled, by rising path, and each port that it reports
    /// is handled. At last each device that waits for an address is enumerated again, as long as one
    /// is free.
    ///
    /// A hub that does not answer is dropped: its port is disabled, and what was below it is
    /// forgotten. So is one whose port is enabled and still reports the change of connection that was
    /// just cleared.
    ///
    /// A root port that does so is handled once: what is there is found and stays listed. Then it is
    /// left alone as long as it shows the status (11.24.2.7) that it shows after that, each bit of
    /// it, and counts as one without a change.
    ///
    /// # Errors
    ///
    /// - `Stopped`: an earlier call failed. Nothing happens.
    /// - `Bus`: the bus has failed.
    /// - `Memory`: memory was refused, or no number is left for a device, as after 2^64 of them.
    ///
    /// After the last two the host stops. The parts of the round up to one port or hub were done.
    /// Nothing is entered there. At most what was known there, or at a hub on its way, and below it
    /// is forgotten.
    pub fn round(&mut self) -> Result<Round, HostFault>
        ensures any_bus { RoundsAnyBus B.modelled self.old result self.new }
        ensures stopped { StopsAsRound self.old result self.new }
        ensures tells { B.modelled ≡ true → RoundTells self.old result self.new }
    {
        if self.stopped {
            return Err(HostFault::Stopped);
        }
        let round = self.run_round();
        self.stopped = round.is_err();
        round
    }

    /// Sends bytes to the first bulk OUT endpoint of the device at a path (5.8). No bytes are sent
    /// with no attempt.
    ///
    /// # Errors
    ///
    /// - `Stopped`: an earlier call failed.
    /// - `Transfer` with `NoDevice`: no accepted device is at the path. Nothing is attempted.
    /// - `Transfer` with `NoEndpoint`: the device is a hub, or has no such endpoint. With `Broken`:
    ///   the pipe must be cleared first. Nothing is attempted.
    /// - `Transfer` with `Stalled`: the endpoint answered STALL.
    /// - `Transfer` with `Busy`: NAKs and repeats of one transaction reached 256. With `NoAnswer`:
    ///   three errors in a row.
    /// - `Bus`: the bus has failed; the host then stops.
    pub fn send(&mut self, path: &PortPath, bytes: &[u8]) -> Result<(), HostFault>
        ensures any_bus { MovesAnyBus B.modelled (transaction_bound * length bytes.now)
            (unless_broken (pipe_for (sends_through FirstBulk) (sends_miss FirstBulk)
            path.now self.old))
            self.old result self.new }
        ensures stopped { StopsAsTransfer self.old result self.new }
        ensures tells { B.modelled ≡ true → SendTells path.now FirstBulk bytes.now
            self.old result self.new }
    {
        self.send_through(path, EndpointChoice::FirstBulk, bytes)
    }

    /// Receives this number of packets from the first bulk IN endpoint of the device at a path, or
    /// fewer if one of them is shorter than the maximum (5.8). No packets are received with no
    /// attempt.
    ///
    /// # Errors
    ///
    /// - `Stopped`: an earlier call failed.
    /// - `Transfer` with `NoDevice`: no accepted device is at the path. Nothing is attempted.
    /// - `Transfer` with `NoEndpoint`: the device is a hub, or has no such endpoint. With `Broken`:
    ///   the pipe must be cleared first. Nothing is attempted.
    /// - `Transfer` with `Stalled`: the endpoint answered STALL.
    /// - `Transfer` with `Busy`: NAKs and repeats of one transaction reached 256. With `NoAnswer`:
    ///   three errors in a row.
    /// - `Bus`: the bus has failed. `Memory`: the bytes find no room. After both the host stops.
    pub fn receive(&mut self, path: &PortPath, packets: u16) -> Result<Vec<u8>, HostFault>
        ensures any_bus { MovesAnyBus B.modelled (transaction_bound * packets)
            (unless_broken (pipe_for (receives_through FirstBulk) (receives_miss FirstBulk)
            path.now self.old))
            self.old result self.new }
        ensures stopped { StopsAsTransfer self.old result self.new }
        ensures tells { B.modelled ≡ true → ReceiveTells path.now FirstBulk packets
            self.old result self.new }
    {
        self.receive_through(path, EndpointChoice::FirstBulk, packets)
    }

    /// Clears the halt of the first bulk OUT endpoint of the device at a path, and then that of its
    /// first bulk IN endpoint (9.4.5), as `EndpointPipe::clear_halt` does. The first fault ends it.
    ///
    /// # Errors
    ///
    /// - `Stopped`: an earlier call failed.
    /// - `Transfer` with `NoDevice`: no accepted device is at the path. Nothing is attempted.
    /// - `Transfer` with `NoEndpoint`: the device is a hub, or has neither endpoint. Nothing is
    ///   attempted.
    /// - `Transfer` with `Stalled`: the device refused the request.
    /// - `Transfer` with `Busy`: NAKs and repeats of one transaction reached 256. With `NoAnswer`:
    ///   three errors in a row.
    /// - `Bus`: the bus has failed; the host then stops.
    pub fn clear_halt(&mut self, path: &PortPath) -> Result<(), HostFault>
        ensures any_bus { TransfersAnyBus B.modelled clear_bound self.old result self.new }
        ensures stopped { StopsAsTransfer self.old result self.new }
        ensures tells { B.modelled ≡ true → ClearTells path.now self.old result self.new }
    {
        if self.stopped {
            return Err(HostFault::Stopped);
        }
        let cleared = as_host_fault(self.table.clear_halt(&mut self.bus, path));
        self.stopped = is_final(&cleared);
        cleared
    }
}

/// What a transfer gave, as the host reports it.
pub(crate) fn as_host_fault<T>(outcome: Result<T, TableFault>) -> Result<T, HostFault>
    ensures { result ≡ host_told outcome }
{
    match outcome {
        Ok(done) => Ok(done),
        Err(fault) => Err(HostFault::from(fault)),
    }
}

/// Whether a call ended with a fault after which the host makes no more attempts.
pub(crate) fn is_final<T>(outcome: &Result<T, HostFault>) -> bool
    ensures { result ≡ is_final outcome.now }
{
    match outcome {
        Err(HostFault::Bus(_) | HostFault::Memory) => true,
        _ => false,
    }
}
