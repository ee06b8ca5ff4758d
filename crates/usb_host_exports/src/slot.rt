//! The driver that C keeps between two calls.
ghost use Rattle.std.specs.Prelude.{◌≡◌, Some, None, IsSome, IsNone};
ghost use Rattle.std.specs.Coded.{coded_option};
ghost use Rattle.std.specs.declared.option.Option.{Option};
ghost use Rattle.usb_dialogue.specs.contracts.driver.Driver.{the_row};
ghost use Rattle.usb_dialogue.specs.declared.driver.Driver.{Driver};
ghost use Rattle.usb_host_exports.specs.Slots.{slot_owns};

use std::alloc::Global;
use std::marker::Model;
use std::ptr::null_mut;
use usb_box::RawBox;
use usb_dialogue::Driver;

/// A driver, or nothing.
#[repr(C)]
pub struct Slot {
    at: *mut u8,
    alloc: Global,
    pub ghost held: { Option Driver } by { coded_option the_row.coded },
}

impl Model for Slot {
    ghost also_owns = { λ s. slot_owns s.alloc s.at s.held };
}

impl Slot {
    /// Holds nothing.
    pub fn empty(alloc: Global) -> Slot
        ensures { result.held ≡ None }
    {
        Slot {
            at: null_mut(),
            alloc,
        }
    }

    /// Holds this driver.
    pub fn full(driver: Box<Driver>) -> Slot
        ensures { result.held ≡ Some driver.value }
    {
        Slot::from_raw(RawBox::from_box(driver))
    }

    /// The driver that it holds.
    pub fn into_box(self) -> Box<Driver>
        requires { IsSome self.held }
        ensures { self.held ≡ Some result.value }
    {
        self.into_raw().into_box()
    }

    /// Ends one that holds nothing.
    pub fn end(self)
        requires { IsNone self.held }
    {
        let Slot { at: _, alloc: _ } = self;
    }

    /// Holds the driver at this pointer, and owns it from now on.
    fn from_raw(driver: RawBox<Driver, Global>) -> Slot
        ensures { result.held ≡ Some driver.value }
    {
        let RawBox { at, alloc } = driver;
        Slot {
            at: at as *mut u8,
            alloc,
        }
    }

    /// Hands over the pointer to the driver that it holds, and no longer owns that driver.
    fn into_raw(self) -> RawBox<Driver, Global>
        requires { IsSome self.held }
        ensures { self.held ≡ Some result.value }
    {
        let Slot { at, alloc } = self;
        RawBox {
            at: at as *mut Driver,
            alloc,
        }
    }
}

unsafe impl Send for Slot {}
