//! What is wrong with a listing.
use usb_port::PortPath;

/// Why a listing is wrong at a port.
#[derive(Clone, Copy, Debug, PartialEq, Eq, PartialOrd, Ord)]
pub enum Cause {
    /// The port is listed more than once.
    Twice,
    /// A device is listed or refused where none is plugged.
    NotPlugged,
    /// The port is none of the root, and no hub is listed that has it.
    NoHub,
    /// Two devices are listed at one address (9.4.6).
    SameAddress,
    /// A device is listed whose port is disabled, or one on its way.
    Disabled,
    /// It is not the device descriptor of the device (9.6.1).
    OtherDescriptor,
    /// It is not the speed of the device.
    OtherSpeed,
    /// The device does not hold the address, or it is 0 (9.4.6).
    OtherAddress,
    /// It is not the configuration that the device has (9.4.7).
    OtherConfiguration,
    /// It is not the number of ports that the device has (11.23.2.1).
    OtherPorts,
    /// The configuration of the device needs more than its port gives (7.2.1).
    TooMuchPower,
    /// A device was refused, and is left enabled at address 0, where the next one is addressed (9.1.2).
    LeftEnabled,
    /// A device is plugged at a port of the root, or of a hub that is listed, and is not listed.
    Missing,
}

/// One thing that is wrong with a listing.
#[derive(Debug, Drop, PartialEq, Eq, PartialOrd, Ord)]
pub struct Judgement {
    /// The port.
    pub path: PortPath,
    /// Why the listing is wrong there.
    pub cause: Cause,
}
