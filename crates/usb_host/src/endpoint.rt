//! Transfers through the endpoints of a function (5.7, 5.8), by their addresses.
use crate::host::{as_host_fault, is_final};
use crate::{Host, HostFault};
use arrayvec::ArrayVec;
use usb_bus::Bus;
use usb_port::PortPath;
use usb_request::EndpointAddress;
use usb_table::EndpointChoice;

impl<B: Bus> Host<B> {
    ghost use Rattle.std.specs.Prelude.{◌≡◌, ◌*◌, length, true};
    ghost use Rattle.usb_transfer.specs.Transactions.{transaction_bound};
    ghost use Rattle.usb_transfer.specs.Control.{write_bound};
    ghost use Rattle.usb_table.specs.declared.choice.EndpointChoice.TheVariants.{At};
    ghost use Rattle.usb_table.specs.PipeRows.{clears_miss, pipe_to, polls_miss, polls_through, receives_miss, receives_through, sends_miss, sends_through, through, unless_broken};
    ghost use Rattle.usb_table.specs.Tables.{pipes_at};
    ghost use Rattle.usb_host.specs.HostCalls.{ClearOfTells, MovesAnyBus, ReceiveTells, ReportTells, SendTells};
    ghost use Rattle.usb_host.specs.ToldFaults.{StopsAsTransfer};
    ghost use Rattle.usb_host.specs.Transfers.{FitsPipe, pipe_for, table_in};

    /// Sends bytes to an OUT endpoint of the device at a path, bulk (5.8) or interrupt (5.7). No
    /// bytes are sent with no attempt.
    ///
    /// If it is done, the endpoint has the bytes once and in order. If it failed, it has the bytes
    /// before some packet.
    ///
    /// # Errors
    ///
    /// - `Stopped`: an earlier call failed.
    /// - `Transfer` with `NoDevice`: no accepted device is at the path. Nothing is attempted.
    /// - `Transfer` with `NoEndpoint`: the device is a hub, or has no such OUT endpoint. With
    ///   `Broken`: the pipe must be cleared first. Nothing is attempted.
    /// - `Transfer` with `Stalled`: the endpoint answered STALL.
    /// - `Transfer` with `Busy`: NAKs and repeats of one transaction reached 256. With `NoAnswer`:
    ///   three errors in a row.
    /// - `Bus`: the bus has failed; the host then stops.
    pub fn send_to(
        &mut self,
        path: &PortPath,
        endpoint: EndpointAddress,
        bytes: &[u8],
    ) -> Result<(), HostFault>
        ensures any_bus { MovesAnyBus B.modelled (transaction_bound * length bytes.now)
            (unless_broken (pipe_for (sends_through (At endpoint)) (sends_miss (At endpoint))
            path.now self.old))
            self.old result self.new }
        ensures stopped { StopsAsTransfer self.old result self.new }
        ensures tells { B.modelled ≡ true
            → SendTells path.now (At endpoint) bytes.now self.old result self.new }
    {
        self.send_through(path, EndpointChoice::At(endpoint), bytes)
    }

    /// Receives this number of packets from a bulk IN endpoint of the device at a path, or fewer if
    /// one of them is shorter than the maximum (5.8). No packets are received with no attempt.
    ///
    /// # Errors
    ///
    /// - `Stopped`: an earlier call failed.
    /// - `Transfer` with `NoDevice`: no accepted device is at the path. Nothing is attempted.
    /// - `Transfer` with `NoEndpoint`: the device is a hub, or has no such bulk IN endpoint. With
    ///   `Broken`: the pipe must be cleared first. Nothing is attempted.
    /// - `Transfer` with `Stalled`: the endpoint answered STALL.
    /// - `Transfer` with `Busy`: NAKs and repeats of one transaction reached 256. With `NoAnswer`:
    ///   three errors in a row.
    /// - `Bus`: the bus has failed. `Memory`: the bytes find no room. After both the host stops.
    pub fn receive_from(
        &mut self,
        path: &PortPath,
        endpoint: EndpointAddress,
        packets: u16,
    ) -> Result<Vec<u8>, HostFault>
        ensures any_bus { MovesAnyBus B.modelled (transaction_bound * packets)
            (unless_broken (pipe_for (receives_through (At endpoint)) (receives_miss (At endpoint))
            path.now self.old))
            self.old result self.new }
        ensures stopped { StopsAsTransfer self.old result self.new }
        ensures tells { B.modelled ≡ true
            → ReceiveTells path.now (At endpoint) packets self.old result self.new }
    {
        self.receive_through(path, EndpointChoice::At(endpoint), packets)
    }

    /// Asks an interrupt IN endpoint of the device at a path once (5.7): the packet that it has,
    /// which may be empty, or `None` if it answers NAK.
    ///
    /// Polls may go on after any fault of a transfer: no packet is lost or given twice, as long as
    /// no halt is cleared. Only a clear that failed breaks the pipe.
    ///
    /// # Errors
    ///
    /// - `Stopped`: an earlier call failed.
    /// - `Transfer` with `NoDevice`: no accepted device is at the path. Nothing is attempted.
    /// - `Transfer` with `NoEndpoint`: the device is a hub, or has no such interrupt IN endpoint.
    ///   With `Broken`: the pipe must be cleared first. Nothing is attempted.
    /// - `Transfer` with `Stalled`: the endpoint answered STALL.
    /// - `Transfer` with `Busy`: repeats of one packet reached 256. With `NoAnswer`: three errors in
    ///   a row.
    /// - `Bus`: the bus has failed; the host then stops.
    pub fn poll(
        &mut self,
        path: &PortPath,
        endpoint: EndpointAddress,
    ) -> Result<Option<ArrayVec<u8, 64>>, HostFault>
        ensures any_bus { MovesAnyBus B.modelled transaction_bound
            (unless_broken (pipe_for (polls_through endpoint) (polls_miss endpoint)
            path.now self.old))
            self.old result self.new }
        ensures most { FitsPipe
            (through (polls_through endpoint) (pipes_at path.now (table_in self.old))) result }
        ensures stopped { StopsAsTransfer self.old result self.new }
        ensures tells { B.modelled ≡ true
            → ReportTells path.now endpoint self.old result self.new }
    {
        if self.stopped {
            return Err(HostFault::Stopped);
        }
        let polled = as_host_fault(self.table.poll_of(&mut self.bus, path, endpoint));
        self.stopped = is_final(&polled);
        polled
    }

    /// Clears the halt of an endpoint of the device at a path (9.4.5), bulk or interrupt, whatever
    /// its pipe saw. Both ends then begin again at DATA0.
    ///
    /// An IN packet whose ACK was lost is given again behind it.
    ///
    /// # Errors
    ///
    /// - `Stopped`: an earlier call failed.
    /// - `Transfer` with `NoDevice`: no accepted device is at the path. Nothing is attempted.
    /// - `Transfer` with `NoEndpoint`: the device is a hub, or has no such endpoint. Nothing is
    ///   attempted.
    /// - `Transfer` with `Stalled`: the device refused the request. The pipe is as it was.
    /// - `Transfer` with `Busy`: NAKs and repeats of one transaction reached 256. With `NoAnswer`:
    ///   three errors in a row. The pipe is broken after both.
    /// - `Bus`: the bus has failed; the host then stops.
    pub fn clear_halt_of(
        &mut self,
        path: &PortPath,
        endpoint: EndpointAddress,
    ) -> Result<(), HostFault>
        ensures any_bus { MovesAnyBus B.modelled write_bound
            (pipe_for (pipe_to endpoint) (clears_miss endpoint) path.now self.old)
            self.old result self.new }
        ensures stopped { StopsAsTransfer self.old result self.new }
        ensures tells { B.modelled ≡ true
            → ClearOfTells path.now endpoint self.old result self.new }
    {
        if self.stopped {
            return Err(HostFault::Stopped);
        }
        let cleared = as_host_fault(self.table.clear_halt_of(&mut self.bus, path, endpoint));
        self.stopped = is_final(&cleared);
        cleared
    }

    /// Sends bytes to the endpoint that was chosen.
    pub(crate) fn send_through(
        &mut self,
        path: &PortPath,
        choice: EndpointChoice,
        bytes: &[u8],
    ) -> Result<(), HostFault>
        ensures any_bus { MovesAnyBus B.modelled (transaction_bound * length bytes.now)
            (unless_broken (pipe_for (sends_through choice) (sends_miss choice) path.now self.old))
            self.old result self.new }
        ensures stopped { StopsAsTransfer self.old result self.new }
        ensures tells { B.modelled ≡ true
            → SendTells path.now choice bytes.now self.old result self.new }
    {
        if self.stopped {
            return Err(HostFault::Stopped);
        }
        let sent = as_host_fault(self.table.send(&mut self.bus, path, choice, bytes));
        self.stopped = is_final(&sent);
        sent
    }

    /// Receives packets from the endpoint that was chosen.
    pub(crate) fn receive_through(
        &mut self,
        path: &PortPath,
        choice: EndpointChoice,
        packets: u16,
    ) -> Result<Vec<u8>, HostFault>
        ensures any_bus { MovesAnyBus B.modelled (transaction_bound * packets)
            (unless_broken (pipe_for (receives_through choice) (receives_miss choice)
            path.now self.old))
            self.old result self.new }
        ensures stopped { StopsAsTransfer self.old result self.new }
        ensures tells { B.modelled ≡ true
            → ReceiveTells path.now choice packets self.old result self.new }
    {
        if self.stopped {
            return Err(HostFault::Stopped);
        }
        let received = as_host_fault(
            self.table
                .receive(self.alloc, &mut self.bus, path, choice, packets),
        );
        self.stopped = is_final(&received);
        received
    }
}
