//! Alternate settings of the interfaces of a function (9.1.1.5, 9.4.10).
use crate::host::{as_host_fault, is_final};
use crate::{Host, HostFault};
use usb_bus::Bus;
use usb_port::PortPath;

impl<B: Bus> Host<B> {
    ghost use Rattle.std.specs.Prelude.{◌≡◌, true};
    ghost use Rattle.usb_host.specs.InterfaceSettings.{InterfaceTells, SetsAnyBus};
    ghost use Rattle.usb_host.specs.ToldFaults.{StopsAsTransfer};

    /// Gives an interface of the function at a path this alternate setting (9.4.10), 0 to 255 both.
    ///
    /// If it is done, each endpoint of the interface, before or after, begins again at DATA0 at both
    /// ends, also if it had the setting before. All other endpoints go on as they were. An IN packet
    /// whose ACK was lost is given again after it.
    ///
    /// # Errors
    ///
    /// - `Stopped`: an earlier call failed.
    /// - `Transfer` with `NoDevice`: no accepted device is at the path. Nothing is attempted.
    /// - `Transfer` with `NoInterface`: the device is a hub, or its configuration has no such
    ///   interface with this setting. So it is if the interface shares an endpoint with another one,
    ///   which section 9.2.3 forbids. Nothing is attempted.
    /// - `Transfer` with `Stalled`: the device refused the request. All is as it was.
    /// - `Transfer` with `Busy`: NAKs and repeats of one transaction reached 256. With `NoAnswer`:
    ///   three errors in a row. After both nobody knows which setting the interface has: each call
    ///   to its endpoints, a clear too, is `Broken`, until a setting is given to it.
    /// - `Bus`: the bus has failed; the host then stops.
    pub fn set_interface(
        &mut self,
        path: &PortPath,
        interface: u8,
        setting: u8,
    ) -> Result<(), HostFault>
        ensures any_bus { SetsAnyBus B.modelled path.now interface setting self.old result
            self.new }
        ensures stopped { StopsAsTransfer self.old result self.new }
        ensures tells { B.modelled ≡ true
            → InterfaceTells path.now interface setting self.old result self.new }
    {
        if self.stopped {
            return Err(HostFault::Stopped);
        }
        let set = as_host_fault(
            self.table
                .set_interface(&mut self.bus, path, interface, setting),
        );
        self.stopped = is_final(&set);
        set
    }
}
