//! The struct that C lays down.
ghost use Rattle.std.specs.Prelude.{◌≡◌, Some, None, IfSome, IfNone, is_some};

use crate::slot::Slot;
use std::alloc::Global;
use std::mem::replace;
use usb_dialogue::Driver;

/// C's `struct usb_handle`: a slot, and whether it holds a driver. A handle of zeros is closed.
#[repr(C)]
pub struct Handle {
    pub slot: Slot,
    pub live: bool,
    pub ghost agree: { is_some slot.held ≡ live },
}

impl Handle {
    /// Takes the driver out, and closes the handle. `None` if it is closed already.
    pub fn take(&mut self, alloc: Global) -> Option<Box<Driver>>
        ensures some { IfSome result (λ driver. self.old.slot.held ≡ Some driver.value) }
        ensures none { IfNone result (self.old.slot.held ≡ None) }
        ensures closed { self.new.slot.held ≡ None }
    {
        if !self.live {
            return None;
        }
        let closed = Handle {
            slot: Slot::empty(alloc),
            live: false,
        };
        let Handle { slot, live: _ } = replace(self, closed);
        Some(slot.into_box())
    }

    /// Opens a closed handle with a driver.
    pub fn put(&mut self, driver: Box<Driver>)
        requires { self.old.slot.held ≡ None }
        ensures { self.new.slot.held ≡ Some driver.value }
    {
        let open = Handle {
            slot: Slot::full(driver),
            live: true,
        };
        let Handle { slot, live: _ } = replace(self, open);
        slot.end();
    }
}
