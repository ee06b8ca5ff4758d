//! What a host reports.
use usb_port::PortPath;

/// What a host says of a device that it has accepted.
#[derive(Debug, Drop)]
pub struct ListedDevice {
    /// The address that it gave.
    pub address: u8,
    /// Whether it takes it for a low-speed device; else for a full-speed one.
    pub low: bool,
    /// Its device descriptor (9.6.1).
    pub descriptor: Vec<u8>,
    /// The text of the configuration that it chose (9.6.3), if it says so.
    pub configuration: Option<Vec<u8>>,
    /// How many ports it serves, if it says so.
    pub ports: Option<u8>,
}

/// What a host says of a port where it met a device.
#[derive(Debug, Drop)]
pub enum Claim {
    /// It has accepted the device.
    Device(ListedDevice),
    /// It has refused the device.
    Refused,
}

/// One port of a listing.
#[derive(Debug, Drop)]
pub struct ListedPort {
    /// The port.
    pub path: PortPath,
    /// What is said of it.
    pub claim: Claim,
}
