//! The devices that C keeps between two calls.
ghost use Rattle.std.specs.Prelude.{◌≡◌, Some, None, IsSome, IsNone};
ghost use Rattle.std.specs.Coded.{coded_option};
ghost use Rattle.std.specs.declared.option.Option.{Option};
ghost use Rattle.usb_device_exports.specs.contracts.devices.Devices.{the_row};
ghost use Rattle.usb_device_exports.specs.declared.devices.Devices.{Devices};
ghost use Rattle.usb_device_exports.specs.Slots.{slot_owns};

use crate::Devices;
use std::alloc::Global;
use std::marker::Model;
use std::ptr::null_mut;
use usb_box::RawBox;

/// Devices, or nothing.
#[repr(C)]
pub struct Slot {
    at: *mut u8,
    alloc: Global,
    pub ghost held: { Option Devices } by { coded_option the_row.coded },
}

impl Model for Slot {
    ghost also_owns = { λ s. slot_owns s.alloc s.at s.held };
}

impl Slot {
    /// Holds nothing.
    pub fn empty(alloc: Global) -> Slot
        ensures { result.held ≡ None }
    {
        Slot {
            at: null_mut(),
            alloc,
        }
    }

    /// Holds these devices.
    pub fn full(devices: Box<Devices>) -> Slot
        ensures { result.held ≡ Some devices.value }
    {
        Slot::from_raw(RawBox::from_box(devices))
    }

    /// The devices that it holds.
    pub fn into_box(self) -> Box<Devices>
        requires { IsSome self.held }
        ensures { self.held ≡ Some result.value }
    {
        self.into_raw().into_box()
    }

    /// Ends one that holds nothing.
    pub fn end(self)
        requires { IsNone self.held }
    {
        let Slot { at: _, alloc: _ } = self;
    }

    /// Holds the devices at this pointer, and owns them from now on.
    fn from_raw(devices: RawBox<Devices, Global>) -> Slot
        ensures { result.held ≡ Some devices.value }
    {
        let RawBox { at, alloc } = devices;
        Slot {
            at: at as *mut u8,
            alloc,
        }
    }

    /// Hands over the pointer to the devices that it holds, and no longer owns them.
    fn into_raw(self) -> RawBox<Devices, Global>
        requires { IsSome self.held }
        ensures { self.held ≡ Some result.value }
    {
        let Slot { at, alloc } = self;
        RawBox {
            at: at as *mut Devices,
            alloc,
        }
    }
}
