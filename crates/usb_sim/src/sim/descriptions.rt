//! The descriptions of a plan's devices, which the devices that are plugged share.

use std::alloc::{AllocError, Global};
use std::marker::Model;
use std::rc::Rc;
use usb_scene::DeviceSpec;

/// The descriptions in the plan's order.
#[derive(Debug, Drop)]
pub struct Descriptions {
    specs: Vec<Rc<DeviceSpec>>,
}

impl Model for Descriptions {
    ghost use Rattle.std.specs.Prelude.{List, map};
    ghost use Rattle.usb_device.specs.DeviceSpecs.{Spec};

    ghost Value = { List Spec };

    ghost view = { λ d. map (λ spec. spec.value) d.specs.items };
}

impl Descriptions {
    ghost use Rattle.std.specs.Prelude.{◌≡◌, ◌<◌, length, slice_get, Some, IfOk};

    /// Copies of the descriptions.
    ///
    /// # Errors
    ///
    /// Memory was refused.
    pub fn copied(alloc: Global, specs: &[DeviceSpec]) -> Result<Self, AllocError>
        ensures { IfOk result (λ d. d ≡ specs.now) }
    {
        let mut all = Vec::new(alloc);
        'specs: for spec in specs {
            all.push(Rc::new(alloc, spec.try_clone(alloc)?)?)?;
        }
        Ok(Descriptions { specs: all })
    }

    /// How many there are.
    pub fn count(&self) -> usize
        ensures { result ≡ length self.now }
    {
        self.specs.len()
    }

    /// The description at an index.
    pub fn at(&self, index: usize) -> &Rc<DeviceSpec>
        requires { index < length self.now }
        ensures { slice_get self.now index ≡ Some result.now.value }
    {
        &self.specs[index]
    }
}
