//! What a device makes of each request (9.4).
ghost use Rattle.std.specs.Prelude.{◌<◌};

use crate::bulk::ServedEndpoint;
use usb_descriptor::Settings;
use usb_port::PortCall;

/// What the host can set in a device.
#[derive(Clone, Copy, Debug)]
pub struct Registers {
    /// 0 until SET_ADDRESS has ended.
    pub address: u8,
    /// The value of a configuration, or 0 if none is set.
    pub configuration: u8,
    /// The alternate settings of its interfaces.
    pub settings: Settings,
}

/// Where the bytes of an answer are.
#[derive(Clone, Copy, Debug)]
pub enum Source {
    /// The device descriptor.
    Descriptor,
    /// The text of a configuration, by its index.
    Config(usize),
    /// A string, by its index.
    Text(usize),
    /// The hub descriptor.
    Hub,
    /// The two bytes of GET_STATUS.
    Status,
    /// The one byte of GET_CONFIGURATION or GET_INTERFACE.
    Byte(u8),
    /// The two bytes of GET_STATUS of an interface or an endpoint, by bit 0 of the first.
    Flag(bool),
    /// The status of a port as it was asked for.
    Port([u8; 4]),
    /// The bytes of a request of the device's own, by its place.
    Own(usize),
    /// What control writes have brought since the plug.
    Taken,
}

/// What a device does about a request.
#[derive(Clone, Copy, Debug)]
pub enum Reaction {
    /// It answers by STALL.
    Refuse,
    /// It gives bytes.
    Answer(Source),
    /// It takes an address when the status stage ends.
    TakeAddress(u8),
    /// It takes a configuration at once.
    TakeConfiguration(u8),
    /// An endpoint halts.
    Halt(ServedEndpoint),
    /// An endpoint halts no more.
    Unhalt(ServedEndpoint),
    /// It gives the status of a port, counted from 0.
    TellPort(usize),
    /// A port, counted from 0, is set or cleared.
    CallPort(PortCall, usize),
    /// It takes the host's data, and keeps them or refuses them at the status stage.
    Take(bool),
    /// An interface takes an alternate setting.
    TakeSetting(u8, u8),
    /// It gives whether an endpoint is halted; without one it is endpoint 0.
    TellHalt(Option<ServedEndpoint>),
}
