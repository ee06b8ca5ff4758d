//! The host's pipes to a function.
ghost use Rattle.std.specs.Prelude.{◌≡◌, ◌≤◌, ◌*◌, length, is_some, true, false, IfOk, IfSome};
ghost use Rattle.usb_bus.specs.Traces.{Spends, Traced, Steps};
ghost use Rattle.usb_transfer.specs.Control.{BusToldIt, write_bound};
ghost use Rattle.usb_table.specs.Findings.{IsSoundDevice, at_full_speed};
ghost use Rattle.usb_table.specs.PipeRows.{first_number as number_at};
ghost use Rattle.usb_table.specs.PipeRows.{AreInPlace, clear_miss, clears_miss, first_lost, first_pipe, first_unclear, function_made, has_first, is_bulk_kind, is_interrupt_kind, lost_at, lost_to, lost_way, mark_if, miss_of, pipe_asked, pipe_at, pipe_if, pipe_to, polls_miss, polls_through, receives_miss, receives_through, sends_miss, sends_through, unless_broken, with_pipe};
ghost use Rattle.usb_table.specs.TablePipes.{new_function, number_of};
ghost use Rattle.usb_table.specs.Transfers.{ClearedFirst, ClearedInTurn, MovedOrRefused, PipesClearedOf, PipesReceived, PipesReported, PipesSent, TransferTold};
ghost use Rattle.usb_table.specs.declared.pipes.Pipes.TheVariants.{Function};
ghost use Rattle.usb_transfer.specs.Transactions.{transaction_bound};

use crate::fault::table_answer;
use crate::row::{LostRow, PipeRow};
use crate::target::target_to;
use crate::{EndpointChoice, TableFault, TransferFault};
use arrayvec::ArrayVec;
use std::alloc::Global;
use usb_bus::Bus;
use usb_descriptor::{ConfigView, EndpointKind, Settings};
use usb_enum::Accepted;
use usb_request::EndpointAddress;
use usb_transfer::{EndpointPipe, PipeFault};

/// The host's pipes to a function: to each endpoint that a pipe can use, by its direction and
/// number.
#[derive(Clone, Copy, Debug)]
pub(crate) struct FunctionPipes {
    pub outs: PipeRow,
    pub ins: PipeRow,
    /// The numbers of its first bulk endpoints; a low-speed device has none (5.8.3).
    pub first_out: Option<u8>,
    pub first_in: Option<u8>,
    /// Marks of pipes that are lost, since the setting of their interface is not known.
    pub lost_outs: LostRow,
    pub lost_ins: LostRow,
}

/// A mark, if it is of a pipe in bulk.
fn bulk_mark(mark: Option<EndpointKind>) -> Option<EndpointKind>
    ensures { result ≡ mark_if is_bulk_kind mark }
{
    match mark? {
        EndpointKind::Bulk => mark,
        EndpointKind::Interrupt => None,
    }
}

/// A mark, if it is of an interrupt pipe.
fn interrupt_mark(mark: Option<EndpointKind>) -> Option<EndpointKind>
    ensures { result ≡ mark_if is_interrupt_kind mark }
{
    match mark? {
        EndpointKind::Bulk => None,
        EndpointKind::Interrupt => mark,
    }
}

/// Why there is no pipe: one that would fit is lost, or there is no such endpoint.
fn miss_of(mark: Option<EndpointKind>) -> TransferFault
    ensures { result ≡ miss_of mark }
{
    match mark {
        Some(_) => TransferFault::Broken,
        None => TransferFault::NoEndpoint,
    }
}

/// The number of a device's first bulk endpoint, if it has one at full speed.
fn first_number(device: &Accepted, endpoint: Option<(u8, u8)>) -> Option<u8>
    ensures { result ≡ number_of (at_full_speed device.now.low endpoint) }
{
    match endpoint {
        Some((number, _)) if !device.low => Some(number),
        _ => None,
    }
}

impl FunctionPipes {
    /// The pipes to a function that was just configured.
    pub fn new(device: &Accepted, below_hub: bool) -> Self
        requires sound { IsSoundDevice device.now }
        requires function { is_some device.now.hub ≡ false }
        ensures { result ≡ new_function device.now below_hub }
    {
        let target = target_to(device, below_hub);
        let text = device.configuration();
        let ends = ConfigView::known(text.as_slice()).usable_endpoints(
            device.low,
            &Settings::all_zero(),
        );
        FunctionPipes {
            outs: PipeRow::new(target, &ends, false),
            ins: PipeRow::new(target, &ends, true),
            first_out: first_number(device, text.bulk_out()),
            first_in: first_number(device, text.bulk_in()),
            lost_outs: LostRow::none(),
            lost_ins: LostRow::none(),
        }
    }

    /// The pipe to the endpoint of a direction with a number, if there is one.
    pub fn pipe_at(&self, is_in: bool, number: u8) -> Option<EndpointPipe>
        ensures { result ≡ pipe_at is_in number self.now }
    {
        if is_in {
            self.ins.get(number)
        } else {
            self.outs.get(number)
        }
    }

    /// The mark of the pipe that was lost at the endpoint of a direction with a number.
    fn lost_at(&self, is_in: bool, number: u8) -> Option<EndpointKind>
        ensures { result ≡ lost_at is_in number self.now }
    {
        if is_in {
            self.lost_ins.get(number)
        } else {
            self.lost_outs.get(number)
        }
    }

    /// The number of the first bulk endpoint of a direction.
    fn first_number(&self, is_in: bool) -> Option<u8>
        ensures { result ≡ number_at is_in self.now }
    {
        if is_in { self.first_in } else { self.first_out }
    }

    /// The pipe that stands at the first bulk endpoint of a direction, of either kind.
    fn at_first(&self, is_in: bool) -> Option<EndpointPipe>
        ensures { result ≡ pipe_if is_in (number_at is_in self.now) self.now }
    {
        self.pipe_at(is_in, self.first_number(is_in)?)
    }

    /// The pipe to the first bulk endpoint of a direction, while it is one in bulk.
    fn first_pipe(&self, is_in: bool) -> Option<EndpointPipe>
        ensures { result ≡ first_pipe is_in self.now }
    {
        let pipe = self.at_first(is_in)?;
        match pipe.kind() {
            EndpointKind::Bulk => Some(pipe),
            EndpointKind::Interrupt => None,
        }
    }

    /// The mark of the pipe that was lost there.
    fn first_lost(&self, is_in: bool) -> Option<EndpointKind>
        ensures { result ≡ first_lost is_in self.now }
    {
        self.lost_at(is_in, self.first_number(is_in)?)
    }

    /// Why the halt of the first bulk endpoint of a direction cannot be cleared; None also where
    /// there is nothing to clear.
    fn first_unclear(&self, is_in: bool) -> Option<TransferFault>
        ensures { result ≡ first_unclear is_in self.now }
    {
        match self.at_first(is_in) {
            Some(pipe) => match pipe.kind() {
                EndpointKind::Bulk => None,
                EndpointKind::Interrupt => Some(TransferFault::NoEndpoint),
            },
            None => {
                let mark = self.first_lost(is_in);
                if mark.is_some() {
                    Some(miss_of(bulk_mark(mark)))
                } else {
                    None
                }
            }
        }
    }

    /// The pipe to the endpoint with an address, if there is one.
    fn pipe_to(&self, endpoint: EndpointAddress) -> Option<EndpointPipe>
        ensures { result ≡ pipe_to endpoint self.now }
    {
        self.pipe_at(endpoint.is_in(), endpoint.number())
    }

    /// The mark of the pipe that was lost there.
    fn lost_to(&self, endpoint: EndpointAddress) -> Option<EndpointKind>
        ensures { result ≡ lost_to endpoint self.now }
    {
        self.lost_at(endpoint.is_in(), endpoint.number())
    }

    /// That mark, if the endpoint gives data.
    fn lost_in(&self, endpoint: EndpointAddress) -> Option<EndpointKind>
        ensures { result ≡ lost_way true endpoint self.now }
    {
        if endpoint.is_in() {
            self.lost_to(endpoint)
        } else {
            None
        }
    }

    /// That mark, if the endpoint takes data.
    fn lost_out(&self, endpoint: EndpointAddress) -> Option<EndpointKind>
        ensures { result ≡ lost_way false endpoint self.now }
    {
        if endpoint.is_in() {
            None
        } else {
            self.lost_to(endpoint)
        }
    }

    /// The pipe that bytes are sent through.
    fn sends_through(&self, choice: EndpointChoice) -> Option<EndpointPipe>
        ensures { result ≡ sends_through choice self.now }
    {
        match choice {
            EndpointChoice::FirstBulk => self.first_pipe(false),
            EndpointChoice::At(endpoint) => {
                let pipe = self.pipe_to(endpoint)?;
                if pipe.is_in() { None } else { Some(pipe) }
            }
        }
    }

    /// Why there is none.
    fn sends_miss(&self, choice: &EndpointChoice) -> TransferFault
        ensures { result ≡ sends_miss choice.now self.now }
    {
        match choice {
            EndpointChoice::FirstBulk => miss_of(bulk_mark(self.first_lost(false))),
            EndpointChoice::At(endpoint) => miss_of(self.lost_out(*endpoint)),
        }
    }

    /// The pipe that packets are received through.
    fn receives_through(&self, choice: EndpointChoice) -> Option<EndpointPipe>
        ensures { result ≡ receives_through choice self.now }
    {
        match choice {
            EndpointChoice::FirstBulk => self.first_pipe(true),
            EndpointChoice::At(endpoint) => {
                let pipe = self.pipe_to(endpoint)?;
                match pipe.kind() {
                    EndpointKind::Bulk if pipe.is_in() => Some(pipe),
                    _ => None,
                }
            }
        }
    }

    /// Why there is none.
    fn receives_miss(&self, choice: &EndpointChoice) -> TransferFault
        ensures { result ≡ receives_miss choice.now self.now }
    {
        let mark = match choice {
            EndpointChoice::FirstBulk => self.first_lost(true),
            EndpointChoice::At(endpoint) => self.lost_in(*endpoint),
        };
        miss_of(bulk_mark(mark))
    }

    /// The pipe that is polled.
    fn polls_through(&self, endpoint: EndpointAddress) -> Option<EndpointPipe>
        ensures { result ≡ polls_through endpoint self.now }
    {
        let pipe = self.pipe_to(endpoint)?;
        match pipe.kind() {
            EndpointKind::Interrupt if pipe.is_in() => Some(pipe),
            _ => None,
        }
    }

    /// Puts a pipe in its place.
    fn put(&mut self, pipe: EndpointPipe)
        ensures { self.new ≡ with_pipe pipe self.old }
    {
        if pipe.is_in() {
            self.ins.put(pipe);
        } else {
            self.outs.put(pipe);
        }
    }

    /// Sends bytes to an OUT endpoint.
    ///
    /// # Errors
    ///
    /// - `NoEndpoint`: there is no such pipe.
    /// - `Broken`: the pipe must be cleared first.
    /// - `Stalled`, `Busy`, `NoAnswer`: the transaction of a packet ended so.
    /// - `Bus`: the bus has failed.
    #[tactic(auto, using(crate::proofs::levels::PathCalls::idle_traced))]
    pub fn send<B: Bus>(
        &mut self,
        bus: &mut B,
        choice: EndpointChoice,
        bytes: &[u8],
    ) -> Result<(), TableFault>
        requires { AreInPlace self.old }
        ensures any_bus { Spends B.spent B.ports (transaction_bound * length bytes.now)
            bus.old bus.new
            × TransferTold result (B.failed bus.new)
            × MovedOrRefused (unless_broken (pipe_asked (sends_miss choice self.old)
            (sends_through choice self.old)))
            (Function self.old) bus.old result (Function self.new) bus.new }
        ensures made { function_made self.new ≡ function_made self.old }
        ensures traced { B.modelled ≡ true
            → Traced (B.world bus.old) (B.trace bus.old) (B.world bus.new) (B.trace bus.new) }
        ensures sent { B.modelled ≡ true → PipesSent choice (Function self.old) bytes.now
            (B.world bus.old) result (Function self.new) (B.world bus.new) }
    {
        let Some(mut pipe) = self.sends_through(choice) else {
            return Err(TableFault::Transfer(self.sends_miss(&choice)));
        };
        let sent = pipe.send(bus, bytes);
        self.put(pipe);
        table_answer(sent)
    }

    /// Receives packets from a bulk IN endpoint.
    ///
    /// # Errors
    ///
    /// - `NoEndpoint`: there is no such pipe.
    /// - `Broken`: the pipe must be cleared first.
    /// - `Stalled`, `Busy`, `NoAnswer`: the transaction of a packet ended so.
    /// - `Memory`: the bytes find no room.
    /// - `Bus`: the bus has failed.
    #[tactic(auto, using(crate::proofs::levels::PathCalls::idle_traced))]
    pub fn receive<B: Bus>(
        &mut self,
        alloc: Global,
        bus: &mut B,
        choice: EndpointChoice,
        packets: u16,
    ) -> Result<Vec<u8>, TableFault>
        requires { AreInPlace self.old }
        ensures any_bus { Spends B.spent B.ports (transaction_bound * packets) bus.old bus.new
            × TransferTold result (B.failed bus.new)
            × MovedOrRefused (unless_broken (pipe_asked (receives_miss choice self.old)
            (receives_through choice self.old)))
            (Function self.old) bus.old result (Function self.new) bus.new }
        ensures made { function_made self.new ≡ function_made self.old }
        ensures traced { B.modelled ≡ true
            → Traced (B.world bus.old) (B.trace bus.old) (B.world bus.new) (B.trace bus.new) }
        ensures received { B.modelled ≡ true → PipesReceived choice (Function self.old) packets
            (B.world bus.old) result (Function self.new) (B.world bus.new) }
    {
        let Some(mut pipe) = self.receives_through(choice) else {
            return Err(TableFault::Transfer(self.receives_miss(&choice)));
        };
        let received = pipe.receive(alloc, bus, packets);
        self.put(pipe);
        table_answer(received)
    }

    /// Asks an interrupt IN endpoint once: its packet, or None where it has nothing.
    ///
    /// # Errors
    ///
    /// - `NoEndpoint`: there is no such pipe.
    /// - `Broken`: the pipe must be cleared first.
    /// - `Stalled`, `Busy`, `NoAnswer`: the transaction ended so.
    /// - `Bus`: the bus has failed.
    #[tactic(auto, using(crate::proofs::levels::PathCalls::idle_traced))]
    pub fn poll<B: Bus>(
        &mut self,
        bus: &mut B,
        endpoint: EndpointAddress,
    ) -> Result<Option<ArrayVec<u8, 64>>, TableFault>
        requires { AreInPlace self.old }
        ensures any_bus { Spends B.spent B.ports transaction_bound bus.old bus.new
            × TransferTold result (B.failed bus.new)
            × MovedOrRefused (unless_broken (pipe_asked (polls_miss endpoint self.old)
            (polls_through endpoint self.old)))
            (Function self.old) bus.old result (Function self.new) bus.new }
        ensures most { IfOk result (λ got. IfSome got (λ packet.
            IfSome (polls_through endpoint self.old) (λ pipe. length packet.items ≤ pipe.max))) }
        ensures made { function_made self.new ≡ function_made self.old }
        ensures traced { B.modelled ≡ true
            → Traced (B.world bus.old) (B.trace bus.old) (B.world bus.new) (B.trace bus.new) }
        ensures told { B.modelled ≡ true → PipesReported endpoint (Function self.old)
            (B.world bus.old) result (Function self.new) (B.world bus.new) }
    {
        let Some(mut pipe) = self.polls_through(endpoint) else {
            let mark = interrupt_mark(self.lost_in(endpoint));
            return Err(TableFault::Transfer(miss_of(mark)));
        };
        let polled = pipe.poll(bus);
        self.put(pipe);
        table_answer(polled)
    }

    /// Clears the halt of an endpoint, whatever its pipe saw.
    ///
    /// # Errors
    ///
    /// - `NoEndpoint`: there is no such pipe.
    /// - `Broken`: the setting of its interface is not known.
    /// - `Stalled`, `Busy`, `NoAnswer`: a transaction ended so.
    /// - `Bus`: the bus has failed.
    #[tactic(auto, using(crate::proofs::levels::PathCalls::idle_traced))]
    pub fn clear<B: Bus>(
        &mut self,
        bus: &mut B,
        endpoint: EndpointAddress,
    ) -> Result<(), TableFault>
        requires { AreInPlace self.old }
        ensures any_bus { Spends B.spent B.ports write_bound bus.old bus.new
            × TransferTold result (B.failed bus.new)
            × MovedOrRefused (pipe_asked (clears_miss endpoint self.old)
            (pipe_to endpoint self.old)) (Function self.old)
            bus.old result (Function self.new) bus.new }
        ensures made { function_made self.new ≡ function_made self.old }
        ensures traced { B.modelled ≡ true
            → Traced (B.world bus.old) (B.trace bus.old) (B.world bus.new) (B.trace bus.new) }
        ensures cleared { B.modelled ≡ true → PipesClearedOf endpoint (Function self.old)
            (B.world bus.old) result (Function self.new) (B.world bus.new) }
    {
        let Some(mut pipe) = self.pipe_to(endpoint) else {
            return Err(TableFault::Transfer(miss_of(self.lost_to(endpoint))));
        };
        let cleared = pipe.clear(bus);
        self.put(pipe);
        table_answer(cleared)
    }

    /// Clears the halt of the first bulk endpoint of a direction where its pipe needs it, if there
    /// is one.
    fn clear_first<B: Bus>(&mut self, bus: &mut B, is_in: bool) -> Result<(), PipeFault>
        requires { AreInPlace self.old }
        ensures any_bus { Spends B.spent B.ports write_bound bus.old bus.new
            × BusToldIt result (B.failed bus.new) }
        ensures made { function_made self.new ≡ function_made self.old }
        ensures steps { B.modelled ≡ true → Steps B.world B.trace write_bound bus.old bus.new }
        ensures cleared { B.modelled ≡ true → ClearedFirst is_in self.old (B.world bus.old) result
            self.new (B.world bus.new) }
    {
        let Some(mut pipe) = self.first_pipe(is_in) else {
            return Ok(());
        };
        let cleared = pipe.clear_halt(bus);
        self.put(pipe);
        cleared
    }

    /// Whether something stands or stood at the first bulk endpoint of a direction.
    fn has_first(&self, is_in: bool) -> bool
        ensures { result ≡ has_first is_in self.now }
    {
        self.first_pipe(is_in).is_some() || self.first_unclear(is_in).is_some()
    }

    /// Why a clear of both first halts is not begun.
    fn clear_miss(&self) -> Option<TransferFault>
        ensures { result ≡ clear_miss self.now }
    {
        if self.has_first(false) || self.has_first(true) {
            self.first_unclear(false)
        } else {
            Some(TransferFault::NoEndpoint)
        }
    }

    /// Clears the halts of both first bulk endpoints where their pipes need it, OUT first.
    ///
    /// # Errors
    ///
    /// - `NoEndpoint`: there is neither, or another pipe stands in a place.
    /// - `Broken`: the setting of an interface is not known.
    /// - `Stalled`, `Busy`, `NoAnswer`: a transaction ended so.
    /// - `Bus`: the bus has failed.
    pub fn clear_halt<B: Bus>(&mut self, bus: &mut B) -> Result<(), TableFault>
        requires { AreInPlace self.old }
        ensures any_bus { Spends B.spent B.ports (2 * write_bound) bus.old bus.new
            × TransferTold result (B.failed bus.new) }
        ensures made { function_made self.new ≡ function_made self.old }
        ensures steps { B.modelled ≡ true
            → Steps B.world B.trace (2 * write_bound) bus.old bus.new }
        ensures cleared { B.modelled ≡ true
            → ClearedInTurn self.old (B.world bus.old) result self.new (B.world bus.new) }
    {
        if let Some(why) = self.clear_miss() {
            return Err(TableFault::Transfer(why));
        }
        self.clear_first(bus, false)?;
        if let Some(why) = self.first_unclear(true) {
            return Err(TableFault::Transfer(why));
        }
        table_answer(self.clear_first(bus, true))
    }
}
