//! The host's pipes to a device.
ghost use Rattle.std.specs.Prelude.{◌≡◌, ◌≤◌, ◌*◌, length, false, true, is_some, IfOk, IfSome};
ghost use Rattle.usb_bus.specs.Traces.{Spends, Traced, Steps};
ghost use Rattle.usb_descriptor.specs.Choice.{status_endpoint_of};
ghost use Rattle.usb_enum.specs.Device.{configuration_of};
ghost use Rattle.usb_transfer.specs.Control.{BusToldIt, write_bound};
ghost use Rattle.usb_table.specs.Findings.{IsSoundDevice};
ghost use Rattle.usb_table.specs.PipeRows.{ArePlaced, asked_through, clears_miss, pipe_to, pipes_made, polls_miss, polls_through, receives_miss, receives_through, sends_miss, sends_through, through, unless_broken};
ghost use Rattle.usb_table.specs.TablePipes.{ArePipesTo, IsStatusPipe};
ghost use Rattle.usb_table.specs.TablePipes.{new_pipes_to, new_status};
ghost use Rattle.usb_table.specs.Tables.{said_in};
ghost use Rattle.usb_table.specs.Transfers.{MovedOrRefused, PipesCleared, PipesClearedOf, PipesPolled};
ghost use Rattle.usb_table.specs.Transfers.{PipesReceived, PipesReported, PipesSent, TransferTold};
ghost use Rattle.usb_table.specs.declared.pipes.Pipes.TheVariants.{Hub};
ghost use Rattle.usb_transfer.specs.Transactions.{transaction_bound};

use crate::function_pipes::FunctionPipes;
use crate::target::target_to;
use crate::{EndpointChoice, TableFault, TransferFault};
use arrayvec::ArrayVec;
use std::alloc::Global;
use usb_bus::Bus;
use usb_enum::Accepted;
use usb_request::EndpointAddress;
use usb_transfer::{InterruptPipe, PipeFault};

/// The host's pipes to what is at a port.
#[derive(Debug, Drop)]
pub(crate) enum Pipes {
    /// To a hub's status endpoint (11.12.1).
    Hub(InterruptPipe),
    /// To the endpoints of a function (5.7, 5.8).
    Function(FunctionPipes),
    /// None, since the device was refused. It said this of itself: the bytes of its device
    /// descriptor that were read last, none where its hub is lost.
    Absent(ArrayVec<u8, 18>),
}

/// Nothing that pipes lead to is at the port.
const NO_DEVICE: TableFault = TableFault::Transfer(TransferFault::NoDevice);
/// What is at the port has no such endpoint.
const NO_ENDPOINT: TableFault = TableFault::Transfer(TransferFault::NoEndpoint);

/// The pipes to a device that was just configured.
pub(crate) fn pipes_to(device: &Accepted, below_hub: bool) -> Pipes
    requires { IsSoundDevice device.now }
    ensures value { result ≡ new_pipes_to device.now below_hub }
    ensures fits { ArePipesTo device.now below_hub result }
{
    if device.hub.is_some() {
        return Pipes::Hub(status_pipe(device, below_hub));
    }
    Pipes::Function(FunctionPipes::new(device, below_hub))
}

/// The pipe to a hub's status endpoint.
#[tactic(auto, using(crate::proofs::levels::NewPipes::sound_status))]
fn status_pipe(device: &Accepted, below_hub: bool) -> InterruptPipe
    requires sound { IsSoundDevice device.now }
    requires hub { is_some device.now.hub ≡ true }
    ensures value { Hub result ≡ new_status device.now below_hub
        (status_endpoint_of true (configuration_of device.now)) }
    ensures fits { IsStatusPipe device.now below_hub result }
{
    match device.configuration().status_endpoint(true) {
        Some((ep, max)) => InterruptPipe::new(target_to(device, below_hub), ep, max),
        // a hub that is accepted has one
        None => unreachable!(),
    }
}

/// A second vector of the same bytes.
fn copy_of(said: &ArrayVec<u8, 18>) -> ArrayVec<u8, 18>
    ensures { result ≡ said.now }
{
    match ArrayVec::try_from(said.as_slice()) {
        Ok(copy) => copy,
        // both have the same room
        Err(_) => unreachable!(),
    }
}

impl Pipes {
    /// Second pipes, as far as these: each with its toggle and condition, and the marks of those that
    /// are lost.
    pub fn duplicate(&self) -> Pipes
        ensures { result ≡ self.now }
    {
        match self {
            Pipes::Hub(pipe) => Pipes::Hub(pipe.duplicate()),
            Pipes::Function(pipes) => Pipes::Function(*pipes),
            Pipes::Absent(said) => Pipes::Absent(copy_of(said)),
        }
    }

    /// What is kept of what a refused device said; nothing of any other.
    pub fn said(&self) -> &[u8]
        ensures { result.now ≡ said_in self.now }
    {
        match self {
            Pipes::Absent(said) => said.as_slice(),
            Pipes::Hub(_) | Pipes::Function(_) => &[],
        }
    }

    /// Asks a hub's status endpoint once; `None` of anything else.
    ///
    /// # Errors
    ///
    /// - `Stalled`, `Busy`, `NoAnswer`: the transaction ended so.
    /// - `Bus`: the bus has failed.
    pub fn poll<B: Bus>(&mut self, bus: &mut B) -> Result<Option<ArrayVec<u8, 64>>, PipeFault>
        ensures any_bus { Spends B.spent B.ports transaction_bound bus.old bus.new
            × BusToldIt result (B.failed bus.new) }
        ensures made { pipes_made self.new ≡ pipes_made self.old }
        ensures steps { B.modelled ≡ true
            → Steps B.world B.trace transaction_bound bus.old bus.new }
        ensures polled { B.modelled ≡ true
            → PipesPolled self.old (B.world bus.old) result self.new (B.world bus.new) }
    {
        match self {
            Pipes::Hub(pipe) => pipe.poll(bus),
            Pipes::Function(_) | Pipes::Absent(_) => Ok(None),
        }
    }

    /// Sends bytes to an OUT endpoint of a function.
    ///
    /// # Errors
    ///
    /// - `NoDevice`: the device was refused.
    /// - `NoEndpoint`: there is no such pipe.
    /// - `Broken`: the pipe must be cleared first.
    /// - `Stalled`, `Busy`, `NoAnswer`: the transaction of a packet ended so.
    /// - `Bus`: the bus has failed.
    #[tactic(auto, using(crate::proofs::levels::PathCalls::idle_traced))]
    pub fn send<B: Bus>(
        &mut self,
        bus: &mut B,
        choice: EndpointChoice,
        bytes: &[u8],
    ) -> Result<(), TableFault>
        requires { ArePlaced self.old }
        ensures any_bus { Spends B.spent B.ports (transaction_bound * length bytes.now)
            bus.old bus.new
            × TransferTold result (B.failed bus.new)
            × MovedOrRefused (unless_broken
            (asked_through (sends_through choice) (sends_miss choice) self.old))
            self.old bus.old result self.new bus.new }
        ensures made { pipes_made self.new ≡ pipes_made self.old }
        ensures traced { B.modelled ≡ true
            → Traced (B.world bus.old) (B.trace bus.old) (B.world bus.new) (B.trace bus.new) }
        ensures sent { B.modelled ≡ true → PipesSent choice self.old bytes.now
            (B.world bus.old) result self.new (B.world bus.new) }
    {
        match self {
            Pipes::Function(pipes) => pipes.send(bus, choice, bytes),
            Pipes::Hub(_) => Err(NO_ENDPOINT),
            Pipes::Absent(_) => Err(NO_DEVICE),
        }
    }

    /// Receives packets from a bulk IN endpoint of a function.
    ///
    /// # Errors
    ///
    /// - `NoDevice`: the device was refused.
    /// - `NoEndpoint`: there is no such pipe.
    /// - `Broken`: the pipe must be cleared first.
    /// - `Stalled`, `Busy`, `NoAnswer`: the transaction of a packet ended so.
    /// - `Memory`: the bytes find no room.
    /// - `Bus`: the bus has failed.
    #[tactic(auto, using(crate::proofs::levels::PathCalls::idle_traced))]
    pub fn receive<B: Bus>(
        &mut self,
        alloc: Global,
        bus: &mut B,
        choice: EndpointChoice,
        packets: u16,
    ) -> Result<Vec<u8>, TableFault>
        requires { ArePlaced self.old }
        ensures any_bus { Spends B.spent B.ports (transaction_bound * packets) bus.old bus.new
            × TransferTold result (B.failed bus.new)
            × MovedOrRefused (unless_broken
            (asked_through (receives_through choice) (receives_miss choice) self.old))
            self.old bus.old result self.new bus.new }
        ensures made { pipes_made self.new ≡ pipes_made self.old }
        ensures traced { B.modelled ≡ true
            → Traced (B.world bus.old) (B.trace bus.old) (B.world bus.new) (B.trace bus.new) }
        ensures received { B.modelled ≡ true → PipesReceived choice self.old packets
            (B.world bus.old) result self.new (B.world bus.new) }
    {
        match self {
            Pipes::Function(pipes) => pipes.receive(alloc, bus, choice, packets),
            Pipes::Hub(_) => Err(NO_ENDPOINT),
            Pipes::Absent(_) => Err(NO_DEVICE),
        }
    }

    /// Asks an interrupt IN endpoint of a function once: its packet, or None where it has nothing.
    ///
    /// # Errors
    ///
    /// - `NoDevice`: the device was refused.
    /// - `NoEndpoint`: there is no such pipe.
    /// - `Broken`: the pipe must be cleared first.
    /// - `Stalled`, `Busy`, `NoAnswer`: the transaction ended so.
    /// - `Bus`: the bus has failed.
    #[tactic(auto, using(crate::proofs::levels::PathCalls::idle_traced))]
    pub fn poll_of<B: Bus>(
        &mut self,
        bus: &mut B,
        endpoint: EndpointAddress,
    ) -> Result<Option<ArrayVec<u8, 64>>, TableFault>
        requires { ArePlaced self.old }
        ensures any_bus { Spends B.spent B.ports transaction_bound bus.old bus.new
            × TransferTold result (B.failed bus.new)
            × MovedOrRefused (unless_broken
            (asked_through (polls_through endpoint) (polls_miss endpoint) self.old))
            self.old bus.old result self.new bus.new }
        ensures most { IfOk result (λ got. IfSome got (λ packet.
            IfSome (through (polls_through endpoint) self.old)
            (λ pipe. length packet.items ≤ pipe.max))) }
        ensures made { pipes_made self.new ≡ pipes_made self.old }
        ensures traced { B.modelled ≡ true
            → Traced (B.world bus.old) (B.trace bus.old) (B.world bus.new) (B.trace bus.new) }
        ensures told { B.modelled ≡ true → PipesReported endpoint self.old
            (B.world bus.old) result self.new (B.world bus.new) }
    {
        match self {
            Pipes::Function(pipes) => pipes.poll(bus, endpoint),
            Pipes::Hub(_) => Err(NO_ENDPOINT),
            Pipes::Absent(_) => Err(NO_DEVICE),
        }
    }

    /// Clears the halts of a function's first bulk endpoints where their pipes need it.
    ///
    /// # Errors
    ///
    /// - `NoDevice`: the device was refused.
    /// - `NoEndpoint`: there is no such pipe.
    /// - `Stalled`, `Busy`, `NoAnswer`: a transaction ended so.
    /// - `Bus`: the bus has failed.
    pub fn clear_halt<B: Bus>(&mut self, bus: &mut B) -> Result<(), TableFault>
        requires { ArePlaced self.old }
        ensures any_bus { Spends B.spent B.ports (2 * write_bound) bus.old bus.new
            × TransferTold result (B.failed bus.new) }
        ensures made { pipes_made self.new ≡ pipes_made self.old }
        ensures steps { B.modelled ≡ true
            → Steps B.world B.trace (2 * write_bound) bus.old bus.new }
        ensures cleared { B.modelled ≡ true
            → PipesCleared self.old (B.world bus.old) result self.new (B.world bus.new) }
    {
        match self {
            Pipes::Function(pipes) => pipes.clear_halt(bus),
            Pipes::Hub(_) => Err(NO_ENDPOINT),
            Pipes::Absent(_) => Err(NO_DEVICE),
        }
    }

    /// Clears the halt of an endpoint of a function, whatever its pipe saw.
    ///
    /// # Errors
    ///
    /// - `NoDevice`: the device was refused.
    /// - `NoEndpoint`: there is no such pipe.
    /// - `Stalled`, `Busy`, `NoAnswer`: a transaction ended so.
    /// - `Bus`: the bus has failed.
    #[tactic(auto, using(crate::proofs::levels::PathCalls::idle_traced))]
    pub fn clear_halt_of<B: Bus>(
        &mut self,
        bus: &mut B,
        endpoint: EndpointAddress,
    ) -> Result<(), TableFault>
        requires { ArePlaced self.old }
        ensures any_bus { Spends B.spent B.ports write_bound bus.old bus.new
            × TransferTold result (B.failed bus.new)
            × MovedOrRefused (asked_through (pipe_to endpoint) (clears_miss endpoint) self.old)
            self.old bus.old result self.new bus.new }
        ensures made { pipes_made self.new ≡ pipes_made self.old }
        ensures traced { B.modelled ≡ true
            → Traced (B.world bus.old) (B.trace bus.old) (B.world bus.new) (B.trace bus.new) }
        ensures cleared { B.modelled ≡ true → PipesClearedOf endpoint self.old
            (B.world bus.old) result self.new (B.world bus.new) }
    {
        match self {
            Pipes::Function(pipes) => pipes.clear(bus, endpoint),
            Pipes::Hub(_) => Err(NO_ENDPOINT),
            Pipes::Absent(_) => Err(NO_DEVICE),
        }
    }
}
