//! The struct that C lays down.
ghost use Rattle.std.specs.Prelude.{◌≡◌, Some, None, IfSome, IfNone, is_some};

use crate::Devices;
use crate::slot::Slot;
use std::alloc::Global;
use std::mem::replace;

/// C's `struct usb_devices`: a slot, and whether it holds any. A handle of zeros is closed.
#[repr(C)]
pub struct Handle {
    pub slot: Slot,
    pub live: bool,
    pub ghost agree: { is_some slot.held ≡ live },
}

impl Handle {
    /// Takes the devices out, and closes the handle. `None` if it is closed already.
    pub fn take(&mut self, alloc: Global) -> Option<Box<Devices>>
        ensures some { IfSome result (λ devices. self.old.slot.held ≡ Some devices.value) }
        ensures none { IfNone result (self.old.slot.held ≡ None) }
        ensures closed { self.new.slot.held ≡ None }
    {
        if !self.live {
            return None;
        }
        let closed = Handle {
            slot: Slot::empty(alloc),
            live: false,
        };
        let Handle { slot, live: _ } = replace(self, closed);
        Some(slot.into_box())
    }

    /// Opens a closed handle with devices.
    pub fn put(&mut self, devices: Box<Devices>)
        requires { self.old.slot.held ≡ None }
        ensures { self.new.slot.held ≡ Some devices.value }
    {
        let open = Handle {
            slot: Slot::full(devices),
            live: true,
        };
        let Handle { slot, live: _ } = replace(self, open);
        slot.end();
    }
}
