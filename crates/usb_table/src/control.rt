//! Control transfers of a driver's own to the device at a path (8.5.3).
ghost use Rattle.std.specs.Prelude.{◌≡◌, ◌≤◌, true, IfOk, length};
ghost use Rattle.usb_bus.specs.Traces.{Spends, Steps};
ghost use Rattle.usb_request.specs.Layout.{IsToDevice, IsToHost};
ghost use Rattle.usb_transfer.specs.Transactions.{IsTarget};
ghost use Rattle.usb_transfer.specs.Control.{BusToldIt};
ghost use Rattle.usb_table.specs.Controls.{MadeOrRefused, ReadMade, TableReads, TableWrites, WriteMade, control_most, control_target, write_target};
ghost use Rattle.usb_table.specs.Tables.{ArePipesAt};
ghost use Rattle.usb_table.specs.Transfers.{TransferTold};

use crate::known::is_below_hub;
use crate::target::target_to;
use crate::{DeviceTable, TableFault, TransferFault};
use std::alloc::Global;
use usb_bus::Bus;
use usb_enum::Finding;
use usb_port::PortPath;
use usb_transfer::{PipeFault, Setup, Target, control_in, control_none, control_out};

impl DeviceTable {
    /// Reads from endpoint 0 of the device at a path, hubs too: what it answers a request with. The
    /// request's length is the most bytes that come; one of 0 has no data stage.
    ///
    /// # Errors
    ///
    /// - `NoDevice`: no accepted device is at the path.
    /// - `Stalled`: the device refused the request.
    /// - `Busy`, `NoAnswer`: a transaction ended so.
    /// - `Memory`: the answer's bytes find no room.
    /// - `Bus`: the bus has failed.
    pub fn control_in<B: Bus>(
        &self,
        alloc: Global,
        bus: &mut B,
        path: &PortPath,
        setup: Setup,
    ) -> Result<Vec<u8>, TableFault>
        requires reads { IsToHost setup }
        ensures any_bus { Spends B.spent B.ports (control_most setup.length) bus.old bus.new
            × TransferTold result (B.failed bus.new)
            × MadeOrRefused (control_target path.now self.now.entries) bus.old result bus.new }
        ensures most { IfOk result (λ bytes. length bytes.items ≤ setup.length) }
        ensures reads { B.modelled ≡ true → TableReads path.now setup self.now (B.world bus.old)
            (B.trace bus.old) result (B.world bus.new) (B.trace bus.new) }
    {
        match self.control_target(path) {
            Ok(target) => Ok(read_from(alloc, bus, target, setup)?),
            Err(fault) => Err(TableFault::Transfer(fault)),
        }
    }

    /// Writes to endpoint 0 of the device at a path, what the request is and these bytes. One of no
    /// bytes has no data stage.
    ///
    /// # Errors
    ///
    /// - `NoDevice`: no accepted device is at the path.
    /// - `Reserved`: the host alone may send the request (`Setup::is_reserved`).
    /// - `Stalled`: the device refused the request or its data.
    /// - `Busy`, `NoAnswer`: a transaction ended so. The device has all of the data, or none.
    /// - `Bus`: the bus has failed.
    pub fn control_out<B: Bus>(
        &self,
        bus: &mut B,
        path: &PortPath,
        setup: Setup,
        bytes: &[u8],
    ) -> Result<(), TableFault>
        requires writes { IsToDevice setup }
        requires all { setup.length ≡ length bytes.now }
        ensures any_bus { Spends B.spent B.ports (control_most setup.length) bus.old bus.new
            × TransferTold result (B.failed bus.new)
            × MadeOrRefused (write_target path.now setup self.now.entries) bus.old result bus.new }
        ensures writes { B.modelled ≡ true
            → TableWrites path.now setup bytes.now self.now (B.world bus.old)
            (B.trace bus.old) result (B.world bus.new) (B.trace bus.new) }
    {
        match self.write_target(path, setup) {
            Ok(target) => Ok(write_to(bus, target, setup, bytes)?),
            Err(fault) => Err(TableFault::Transfer(fault)),
        }
    }

    /// Endpoint 0 of the device at a path, unless the host alone may send it this request.
    fn write_target(&self, path: &PortPath, setup: Setup) -> Result<Target, TransferFault>
        ensures value { result ≡ write_target path.now setup self.now.entries }
        ensures fits { IfOk result IsTarget }
        ensures wide { IfOk result (λ target. 8 ≤ target.max) }
        ensures pipes { ArePipesAt path.now self.now }
    {
        match self.get(path) {
            Some(Finding::Device(device)) if setup.is_reserved(device.hub.is_some()) => {
                Err(TransferFault::Reserved)
            }
            _ => self.control_target(path),
        }
    }

    /// Endpoint 0 of the device at a path.
    fn control_target(&self, path: &PortPath) -> Result<Target, TransferFault>
        ensures value { result ≡ control_target path.now self.now.entries }
        ensures fits { IfOk result IsTarget }
        ensures wide { IfOk result (λ target. 8 ≤ target.max) }
        ensures pipes { ArePipesAt path.now self.now }
    {
        match self.get(path) {
            Some(Finding::Device(device)) => Ok(target_to(device, is_below_hub(path))),
            _ => Err(TransferFault::NoDevice),
        }
    }
}

/// Reads from a target, without a data stage if no byte is wanted.
fn read_from<B: Bus>(
    alloc: Global,
    bus: &mut B,
    target: Target,
    setup: Setup,
) -> Result<Vec<u8>, PipeFault>
    requires target { IsTarget target }
    requires wide { 8 ≤ target.max }
    requires reads { IsToHost setup }
    ensures any_bus { Spends B.spent B.ports (control_most setup.length) bus.old bus.new
        × BusToldIt result (B.failed bus.new) }
    ensures most { IfOk result (λ bytes. length bytes.items ≤ setup.length) }
    ensures steps { B.modelled ≡ true
        → Steps B.world B.trace (control_most setup.length) bus.old bus.new }
    ensures read { B.modelled ≡ true
        → ReadMade setup target (B.world bus.old) result (B.world bus.new) }
{
    if setup.length == 0 {
        control_none(bus, target, setup)?;
        return Ok(Vec::new(alloc));
    }
    control_in(alloc, bus, target, setup)
}

/// Writes to a target, without a data stage if there are no bytes.
fn write_to<B: Bus>(
    bus: &mut B,
    target: Target,
    setup: Setup,
    bytes: &[u8],
) -> Result<(), PipeFault>
    requires target { IsTarget target }
    requires wide { 8 ≤ target.max }
    requires writes { IsToDevice setup }
    requires all { setup.length ≡ length bytes.now }
    ensures any_bus { Spends B.spent B.ports (control_most setup.length) bus.old bus.new
        × BusToldIt result (B.failed bus.new) }
    ensures steps { B.modelled ≡ true
        → Steps B.world B.trace (control_most setup.length) bus.old bus.new }
    ensures made { B.modelled ≡ true
        → WriteMade setup bytes.now target (B.world bus.old) result (B.world bus.new) }
{
    if setup.length == 0 {
        control_none(bus, target, setup)
    } else {
        control_out(bus, target, setup, bytes)
    }
}
