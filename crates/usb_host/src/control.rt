//! Control transfers of a driver's own (8.5.3).
use crate::host::{as_host_fault, is_final};
use crate::{Host, HostFault};
use usb_bus::Bus;
use usb_port::PortPath;
use usb_transfer::Setup;

impl<B: Bus> Host<B> {
    ghost use Rattle.std.specs.Prelude.{◌≡◌, ◌≤◌, length, true, IfOk};
    ghost use Rattle.usb_request.specs.Layout.{IsToDevice, IsToHost};
    ghost use Rattle.usb_table.specs.Controls.{control_target, write_target};
    ghost use Rattle.usb_host.specs.Controls.{ControlsAnyBus, ReadTells, WriteTells};
    ghost use Rattle.usb_host.specs.ToldFaults.{StopsAsTransfer};

    /// Reads from endpoint 0 of the device at a path, hubs too: what it answers a request with
    /// (9.3). The request's length is the most bytes that come. If it is 0, there is no data stage.
    ///
    /// # Errors
    ///
    /// - `Stopped`: an earlier call failed.
    /// - `Transfer` with `NoDevice`: no accepted device is at the path. Nothing is attempted.
    /// - `Transfer` with `Stalled`: the device refused the request.
    /// - `Transfer` with `Busy`: NAKs and repeats of one transaction reached 256. With `NoAnswer`:
    ///   three errors in a row.
    /// - `Bus`: the bus has failed. `Memory`: the bytes find no room. After both the host stops.
    pub fn control_in(&mut self, path: &PortPath, setup: Setup) -> Result<Vec<u8>, HostFault>
        requires reads { IsToHost setup }
        ensures any_bus { ControlsAnyBus B.modelled (control_target path.now self.old.entries) setup
            self.old result self.new }
        ensures most { IfOk result (λ bytes. length bytes.items ≤ setup.length) }
        ensures stopped { StopsAsTransfer self.old result self.new }
        ensures tells { B.modelled ≡ true → ReadTells path.now setup self.old result self.new }
    {
        if self.stopped {
            return Err(HostFault::Stopped);
        }
        let read = as_host_fault(
            self.table
                .control_in(self.alloc, &mut self.bus, path, setup),
        );
        self.stopped = is_final(&read);
        read
    }

    /// Writes to endpoint 0 of the device at a path: what the request asks for, with these bytes
    /// (9.3). The request's length is their number. If it is 0, there is no data stage.
    ///
    /// If it is done, the device has the bytes once. If it failed, it has all of them or none, and
    /// nobody knows which: only the device can say. A request without bytes may be done more than
    /// once, if its SETUP goes again.
    ///
    /// # Errors
    ///
    /// - `Stopped`: an earlier call failed.
    /// - `Transfer` with `NoDevice`: no accepted device is at the path. Nothing is attempted.
    /// - `Transfer` with `Reserved`: the host alone may send the request (`Setup::is_reserved`).
    ///   Nothing is attempted.
    /// - `Transfer` with `Stalled`: the device refused the request or its data.
    /// - `Transfer` with `Busy`: NAKs and repeats of one transaction reached 256. With `NoAnswer`:
    ///   three errors in a row.
    /// - `Bus`: the bus has failed; the host then stops.
    pub fn control_out(
        &mut self,
        path: &PortPath,
        setup: Setup,
        bytes: &[u8],
    ) -> Result<(), HostFault>
        requires writes { IsToDevice setup }
        requires all { setup.length ≡ length bytes.now }
        ensures any_bus { ControlsAnyBus B.modelled (write_target path.now setup self.old.entries)
            setup self.old result self.new }
        ensures stopped { StopsAsTransfer self.old result self.new }
        ensures tells { B.modelled ≡ true
            → WriteTells path.now setup bytes.now self.old result self.new }
    {
        if self.stopped {
            return Err(HostFault::Stopped);
        }
        let written = as_host_fault(self.table.control_out(&mut self.bus, path, setup, bytes));
        self.stopped = is_final(&written);
        written
    }
}
