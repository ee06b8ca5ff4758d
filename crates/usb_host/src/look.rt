//! A look at a port.
ghost use Rattle.std.specs.Prelude.{◌≡◌, ◌≢◌, true, Err, IfErr};
ghost use Rattle.usb_table.specs.declared.fault.TransferFault.TheVariants.{NoPort};
ghost use Rattle.usb_host.specs.Bounds.{handling_bound};
ghost use Rattle.usb_host.specs.NearPorts.{ChangesNear};
ghost use Rattle.usb_host.specs.Looks.{LookMade, LookTells, LooksAnyBus, LooksOver};
ghost use Rattle.usb_host.specs.Looks.{Reports, ReportsPort};
ghost use Rattle.usb_host.specs.Ports.{IsPortAt};
ghost use Rattle.usb_host.specs.PartCalls.{PartCall};
ghost use Rattle.usb_host.specs.ToldFaults.{StopsAsLook};
ghost use Rattle.usb_host.specs.declared.fault.HostFault.TheVariants.{Stopped, Transfer};

use crate::host::is_final;
use crate::{Host, HostFault};
use usb_bus::Bus;
use usb_enum::{Cause, Finding};
use usb_port::PortPath;
use usb_table::{KnownPort, TransferFault};

/// What is listed at a port after a look.
#[derive(Clone, Copy, Debug, PartialEq, Eq)]
pub enum Look {
    /// Nothing: no device is connected.
    Empty,
    /// A device that is accepted.
    Found,
    /// A device that is refused, for this cause.
    Refused(Cause),
}

impl<B: Bus> Host<B> {
    /// Enumerates a port anew, as if its connection had changed: rescans a port, resets a device, and
    /// tries a refused or lost one again. It clears C_PORT_CONNECTION (11.24.2.7.2.1), reads the
    /// status, disables the port if it is enabled, and forgets what was at it and below it. Then it
    /// enumerates what is connected (9.1.2). Below a hub that is found again, rounds find all again.
    ///
    /// If a request to the port's hub fails, that hub is dropped, as in a round. A look at a root port
    /// that is left alone (`round`) begins afresh.
    ///
    /// # Errors
    ///
    /// - `Stopped`: an earlier call failed.
    /// - `Transfer` with `NoPort`: the path is no root port, and no port of a listed hub. It was
    ///   none before the look, and nothing is attempted; or its hub was dropped in it.
    /// - `Bus`: the bus has failed. `Memory`: memory was refused. After both the host stops.
    pub fn look(&mut self, path: &PortPath) -> Result<Look, HostFault>
        ensures any_bus { LooksAnyBus B.modelled path.now self.old result self.new }
        ensures stopped { StopsAsLook self.old result self.new }
        ensures tells { B.modelled ≡ true → LookTells path.now self.old result self.new }
    {
        if self.stopped {
            return Err(HostFault::Stopped);
        }
        let looked = self.look_at(path);
        self.stopped = is_final(&looked);
        looked
    }

    /// Enumerates the port at a path anew, if there is one, and reports what is listed there then.
    fn look_at(&mut self, path: &PortPath) -> Result<Look, HostFault>
        ensures any_bus { LooksAnyBus B.modelled path.now self.old result self.new }
        ensures told { result ≢ Err Stopped }
        ensures made { B.modelled ≡ true → LookMade path.now self.old result self.new }
    {
        let Some(port) = self.port_at(path) else {
            return Err(HostFault::Transfer(TransferFault::NoPort));
        };
        self.begin_afresh(path);
        self.look_over(path, port)?;
        self.listed(path)
    }

    /// Enumerates a port anew. If a request to its hub fails, that hub is dropped.
    pub(crate) fn look_over(&mut self, path: &PortPath, port: KnownPort) -> Result<(), HostFault>
        requires { IsPortAt B.modelled path.now port self.old }
        ensures call { PartCall B.modelled handling_bound self.old result self.new }
        ensures changes { ChangesNear path.now result self.old.entries self.new.entries }
        ensures looks { B.modelled ≡ true → LooksOver path.now self.old result self.new }
    {
        let looked = self.enumerate_again(path, port);
        self.drop_lost_parent(path, looked)
    }

    /// Begins afresh with the root port at a path, if it is one: what it showed before counts no more.
    fn begin_afresh(&mut self, path: &PortPath)
        ensures { self.new ≡ self.old }
    {
        if let [number] = path.numbers() {
            self.left.begin_afresh(*number);
        }
    }

    /// What is listed at a port.
    fn listed(&self, path: &PortPath) -> Result<Look, HostFault>
        ensures any_bus { Reports path.now self.now.entries result }
        ensures modelled { B.modelled ≡ true → ReportsPort path.now self.now result }
        ensures told { IfErr result (λ fault. fault ≡ Transfer NoPort) }
    {
        let Some(_known) = self.port_at(path) else {
            return Err(HostFault::Transfer(TransferFault::NoPort));
        };
        Ok(match self.table.get(path) {
            None => Look::Empty,
            Some(Finding::Device(_)) => Look::Found,
            Some(Finding::Refused(cause)) => Look::Refused(*cause),
        })
    }
}
