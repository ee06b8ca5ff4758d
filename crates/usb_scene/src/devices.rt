//! The devices of a plan.
ghost use Rattle.std.specs.Prelude.{◌≡◌};
ghost use Rattle.usb_device.specs.DeviceSpecs.{is_named};

use crate::spec::DeviceSpec;
use std::alloc::{AllocError, Global};
use std::marker::Model;

fn is_named(specs: &[DeviceSpec], name: &str) -> bool
    ensures { result ≡ is_named specs.now name.now }
{
    specs.iter().any(|spec| spec.name() == name)
}

/// At most 127 devices, no two of one name; each keeps the rules of a device.
#[derive(Debug, Drop)]
pub struct Devices {
    specs: Vec<DeviceSpec>,
}

impl Model for Devices {
    ghost use Rattle.std.specs.Prelude.{List};
    ghost use Rattle.usb_device.specs.DeviceSpecs.{Spec, AreDevices};

    ghost Value = { List Spec };

    ghost view = { λ d. d.specs.items };

    ghost invariant = { λ d. AreDevices d.specs.items };
}

impl Devices {
    ghost use Rattle.std.specs.Prelude.{◌<◌, [], ◌∷◌, ◌++◌, length, false, OnOk, OnErr};
    ghost use Rattle.usb_device.specs.DeviceSpecs.{AreDevices};

    /// No devices.
    pub fn new(alloc: Global) -> Self
        ensures { result ≡ [] }
    {
        Devices {
            specs: Vec::new(alloc),
        }
    }

    /// The devices in their order.
    pub fn as_slice(&self) -> &[DeviceSpec]
        ensures value { result.now ≡ self.now }
        ensures differ { AreDevices self.now }
    {
        self.specs.as_slice()
    }

    /// Whether a device has the name.
    pub fn is_named(&self, name: &str) -> bool
        ensures { result ≡ is_named self.now name.now }
    {
        is_named(self.specs.as_slice(), name)
    }

    /// One device more, at the end.
    ///
    /// # Errors
    ///
    /// Memory was refused, and nothing changes.
    pub fn push(&mut self, spec: DeviceSpec) -> Result<(), AllocError>
        requires room { length self.old < 127 }
        requires name { is_named self.old spec.name ≡ false }
        ensures ok { OnOk result (self.new ≡ self.old ++ spec ∷ []) }
        ensures err { OnErr result (self.new ≡ self.old) }
    {
        spec.keeps_rules();
        Ok(self.specs.push(spec)?)
    }
}
