//! A copy of a host, over another bus.
ghost use Rattle.std.specs.Prelude.{◌≡◌, false, true, IfOk, IfErr};
ghost use Rattle.usb_host.specs.HostStates.{counts_of};
ghost use Rattle.usb_host.specs.LeftPorts.{none_left};

use crate::Host;
use std::alloc::Global;
use usb_bus::Bus;

impl<B: Bus> Host<B> {
    /// A host of another bus that knows what this one knows: the devices with their numbers and pipes,
    /// those that were reported, the addresses that are taken, and the root ports that are left alone.
    /// Its options are the same, and it has stopped if this one has. Nothing is attempted.
    ///
    /// It lets a caller undo a call. A driver that has not heard an answer yet makes the call on a copy,
    /// over a bus of what was heard. It drops the copy if the call needed an answer more, and else
    /// takes it in place of this host.
    ///
    /// What the copy knows is so of its bus only if that bus stands for the same world, with the same
    /// devices at the same state. Of two hosts over one world, only one may go on.
    ///
    /// A bus that does what its world does leaves no root port alone. So a host of another bus that
    /// has left some cannot be copied onto one.
    ///
    /// # Errors
    ///
    /// Memory was refused. This gives the bus back.
    pub fn copied_onto<C: Bus>(&self, alloc: Global, bus: C) -> Result<Host<C>, C>
        requires { C.modelled ≡ true → B.modelled ≡ false → self.now.counts.left ≡ none_left }
        ensures copy { IfOk result (λ host. host ≡ record self.now {
          world = C.world bus;
          trace = C.trace bus;
          counts = counts_of C.modelled (C.spent bus) (C.failed bus) self.now.counts.left;
        }) }
        ensures back { IfErr result (λ given. given ≡ bus) }
    {
        match self.table.try_clone(alloc) {
            Ok(table) => Ok(Host {
                alloc,
                bus,
                pool: self.pool.duplicate(),
                table,
                left: self.left.of_bus(),
                numbers: self.numbers.duplicate(),
                reported: self.reported.duplicate(),
                options: self.options,
                stopped: self.stopped,
            }),
            Err(_) => Err(bus),
        }
    }
}
