//! Alternate settings of the interfaces of a function (9.2.3, 9.4.10).
ghost use Rattle.std.specs.Prelude.{◌≡◌, true, Some};
ghost use Rattle.usb_bus.specs.Traces.{Spends, Steps};
ghost use Rattle.usb_transfer.specs.Control.{write_bound};
ghost use Rattle.usb_descriptor.specs.Interfaces.{settable_in};
ghost use Rattle.usb_enum.specs.Device.{configuration_of};
ghost use Rattle.usb_table.specs.PipeRows.{AreWhole};
ghost use Rattle.usb_table.specs.Findings.{IsSoundDevice, IsSoundFinding, accepted_device_of};
ghost use Rattle.usb_table.specs.InterfaceSettings.{InterfaceSentIf, SetOrRefused, function_set, interface_asked, is_refusal, lost_function, pipes_set, set_function, setting_asked};
ghost use Rattle.usb_table.specs.TablePipes.{AreFunctionPipes, ArePipesOf, ArePipesTo};
ghost use Rattle.usb_table.specs.Transfers.{TransferTold};

use crate::entry::Entry;
use crate::function_pipes::FunctionPipes;
use crate::pipes::Pipes;
use crate::row::{ENDPOINTS, PipeRow};
use crate::target::target_to;
use crate::{TableFault, TransferFault};
use usb_bus::Bus;
use usb_descriptor::{ConfigView, Settings};
use usb_enum::{Accepted, Finding};
use usb_hub::set_interface;
use usb_transfer::PipeFault;

/// No accepted device is there.
const NO_DEVICE: TableFault = TableFault::Transfer(TransferFault::NoDevice);
/// The device has no such setting that could be chosen.
const NO_INTERFACE: TableFault = TableFault::Transfer(TransferFault::NoInterface);

/// Whether the device refused the request.
fn is_refusal(fault: PipeFault) -> bool
    ensures { result ≡ is_refusal fault }
{
    matches!(fault, PipeFault::Stalled)
}

impl FunctionPipes {
    /// An interface has this setting: its pipes are new, and none of them is lost.
    fn take_setting(&mut self, device: &Accepted, below_hub: bool, interface: u8, setting: u8)
        requires { IsSoundDevice device.now }
        ensures value { self.new ≡ set_function device.now below_hub interface setting self.old }
        ensures whole { AreWhole self.new }
    {
        let target = target_to(device, below_hub);
        let text = ConfigView::known(device.configuration().as_slice());
        let mut settings = Settings::all_zero();
        settings.set(interface, setting);
        let ends = text.usable_endpoints(device.low, &settings);
        let outs = PipeRow::new(target, &ends, false);
        let ins = PipeRow::new(target, &ends, true);
        self.outs.replace(&outs, &text, interface, false);
        self.ins.replace(&ins, &text, interface, true);
        self.lost_outs.clear(&text, interface, false);
        self.lost_ins.clear(&text, interface, true);
    }

    /// The setting of an interface is not known: its pipes are lost.
    fn lose(&mut self, device: &Accepted, interface: u8)
        ensures value { self.new ≡ lost_function device.now interface self.old }
        ensures whole { AreWhole self.new }
    {
        let text = ConfigView::known(device.configuration().as_slice());
        self.lost_outs.mark(&self.outs, &text, interface, false);
        self.lost_ins.mark(&self.ins, &text, interface, true);
        self.outs.clear(&text, interface, false);
        self.ins.clear(&text, interface, true);
    }

    /// The pipes after SET_INTERFACE, by its answer.
    fn follow(
        &mut self,
        device: &Accepted,
        below_hub: bool,
        interface: u8,
        setting: u8,
        answer: Result<(), PipeFault>,
    )
        requires sound { IsSoundDevice device.now }
        requires are { AreFunctionPipes device.now below_hub self.old }
        requires has { settable_in interface setting (configuration_of device.now) ≡ true }
        ensures value { self.new
            ≡ function_set device.now below_hub interface setting answer self.old }
        ensures fits { AreFunctionPipes device.now below_hub self.new }
    {
        match answer {
            Ok(()) => self.take_setting(device, below_hub, interface, setting),
            Err(fault) => {
                if !is_refusal(fault) {
                    self.lose(device, interface);
                }
            }
        }
    }

    /// The endpoints of an interface to which there are pipes begin again, in one direction.
    fn restart<B: Bus>(&self, bus: &mut B, device: &Accepted, interface: u8, is_in: bool)
        ensures unspent { Spends B.spent B.ports 0 bus.old bus.new }
        ensures world { B.modelled ≡ true → B.world bus.new ≡ B.world bus.old }
        ensures silent { B.modelled ≡ true → B.trace bus.new ≡ B.trace bus.old }
    {
        let text = ConfigView::known(device.configuration().as_slice());
        let address = device.address.number();
        'ends: for number in 1..ENDPOINTS {
            if text.names(interface, number, is_in) && self.pipe_at(is_in, number).is_some() {
                bus.restart_endpoint(address, number, is_in);
            }
        }
    }

    /// Gives an interface an alternate setting.
    ///
    /// # Errors
    ///
    /// - `NoInterface`: there is no such setting, or the interface shares an endpoint with another.
    /// - `Stalled`: the device refused the request.
    /// - `Busy`, `NoAnswer`: a transaction ended so. The setting is not known.
    /// - `Bus`: the bus has failed.
    pub fn set_interface<B: Bus>(
        &mut self,
        bus: &mut B,
        device: &Accepted,
        below_hub: bool,
        interface: u8,
        setting: u8,
    ) -> Result<(), TableFault>
        requires sound { IsSoundDevice device.now }
        requires are { AreFunctionPipes device.now below_hub self.old }
        ensures any_bus { Spends B.spent B.ports write_bound bus.old bus.new
            × TransferTold result (B.failed bus.new)
            × SetOrRefused (setting_asked below_hub interface setting device.now)
            (function_set device.now below_hub interface setting)
            self.old bus.old result self.new bus.new }
        ensures fits { AreFunctionPipes device.now below_hub self.new }
        ensures steps { B.modelled ≡ true → Steps B.world B.trace write_bound bus.old bus.new }
        ensures sent { B.modelled ≡ true
            → InterfaceSentIf (setting_asked below_hub interface setting device.now)
            interface setting (function_set device.now below_hub interface setting)
            self.old (B.world bus.old) result self.new (B.world bus.new) }
    {
        let text = ConfigView::known(device.configuration().as_slice());
        if !text.is_settable(interface, setting) {
            return Err(NO_INTERFACE);
        }
        let answer = set_interface(bus, target_to(device, below_hub), interface, setting);
        self.follow(device, below_hub, interface, setting, answer);
        answer?;
        self.restart(bus, device, interface, false);
        self.restart(bus, device, interface, true);
        Ok(())
    }
}

impl Pipes {
    /// Gives an interface of the device an alternate setting.
    ///
    /// # Errors
    ///
    /// - `NoInterface`: the device is a hub, or has no such setting that could be chosen.
    /// - `NoDevice`: there are no pipes, so no device.
    /// - `Stalled`: the device refused the request.
    /// - `Busy`, `NoAnswer`: a transaction ended so. The setting is not known.
    /// - `Bus`: the bus has failed.
    pub fn set_interface<B: Bus>(
        &mut self,
        bus: &mut B,
        device: &Accepted,
        below_hub: bool,
        interface: u8,
        setting: u8,
    ) -> Result<(), TableFault>
        requires sound { IsSoundDevice device.now }
        requires are { ArePipesTo device.now below_hub self.old }
        ensures any_bus { Spends B.spent B.ports write_bound bus.old bus.new
            × TransferTold result (B.failed bus.new)
            × SetOrRefused (setting_asked below_hub interface setting device.now)
            (pipes_set (Some device.now) below_hub interface setting)
            self.old bus.old result self.new bus.new }
        ensures fits { ArePipesTo device.now below_hub self.new }
        ensures steps { B.modelled ≡ true → Steps B.world B.trace write_bound bus.old bus.new }
        ensures sent { B.modelled ≡ true
            → InterfaceSentIf (setting_asked below_hub interface setting device.now)
            interface setting (pipes_set (Some device.now) below_hub interface setting)
            self.old (B.world bus.old) result self.new (B.world bus.new) }
    {
        match self {
            Pipes::Function(pipes) => {
                pipes.set_interface(bus, device, below_hub, interface, setting)
            }
            Pipes::Hub(_) => Err(NO_INTERFACE),
            Pipes::Absent(_) => Err(NO_DEVICE),
        }
    }
}

impl Entry {
    /// Gives an interface of the device that was found an alternate setting.
    ///
    /// # Errors
    ///
    /// - `NoDevice`: the device was refused.
    /// - `NoInterface`: the device is a hub, or has no such setting that could be chosen.
    /// - `Stalled`: the device refused the request.
    /// - `Busy`, `NoAnswer`: a transaction ended so. The setting is not known.
    /// - `Bus`: the bus has failed.
    pub fn set_interface<B: Bus>(
        &mut self,
        bus: &mut B,
        below_hub: bool,
        interface: u8,
        setting: u8,
    ) -> Result<(), TableFault>
        requires sound { IsSoundFinding self.old.finding }
        requires are { ArePipesOf self.old.finding below_hub self.old.pipes }
        ensures any_bus { let found = accepted_device_of (Some self.old.finding) in
            Spends B.spent B.ports write_bound bus.old bus.new
            × TransferTold result (B.failed bus.new)
            × SetOrRefused (interface_asked below_hub interface setting found)
            (pipes_set found below_hub interface setting)
            self.old.pipes bus.old result self.new.pipes bus.new }
        ensures same { self.new ≡ record self.old { pipes = self.new.pipes } }
        ensures fits { ArePipesOf self.old.finding below_hub self.new.pipes }
        ensures steps { B.modelled ≡ true → Steps B.world B.trace write_bound bus.old bus.new }
        ensures sent { let found = accepted_device_of (Some self.old.finding) in
            B.modelled ≡ true
            → InterfaceSentIf (interface_asked below_hub interface setting found)
            interface setting (pipes_set found below_hub interface setting)
            self.old.pipes (B.world bus.old) result self.new.pipes (B.world bus.new) }
    {
        match &self.finding {
            Finding::Device(device) => {
                self.pipes
                    .set_interface(bus, device, below_hub, interface, setting)
            }
            Finding::Refused(_) => Err(NO_DEVICE),
        }
    }
}
