//! What a device asks of its own ports.
ghost use Rattle.std.specs.Prelude.{◌≡◌, ◌-◌, ◌==◌, ◌&&◌, not};
ghost use Rattle.usb_device.specs.Delivery.{asks_clearing};
ghost use Rattle.usb_device.specs.Holders.{keeps_enable, keeps_others};

use usb_port::PortCall;

/// What a device asks of its ports when a packet comes.
#[derive(Clone, Copy, Debug)]
pub enum Effect {
    /// Nothing.
    Leaves,
    /// A call at a port, counted from 0.
    Calls(PortCall, usize),
    /// All are off: a new configuration begins so.
    PortsOff,
}

impl Effect {
    /// Whether a change of connection is cleared (11.24.2.2).
    pub fn clears_change(self) -> bool
        ensures { result ≡ asks_clearing self }
    {
        match self {
            Effect::Calls(call, _) => call.clears_connection_change(),
            Effect::Leaves | Effect::PortsOff => false,
        }
    }

    /// Whether the same devices are reached then, at the same addresses, but for those on the port
    /// of a number, counted from 1, and below it. It enables or disables no other port, and resets
    /// no other device. With 0 as the number it is so of all.
    pub fn keeps_others(self, port: u8) -> bool
        ensures { result ≡ keeps_others port self }
    {
        match self {
            Effect::Leaves => true,
            Effect::Calls(call, i) => keeps_enable(call) || is_port(port, i),
            Effect::PortsOff => false,
        }
    }
}

/// Whether a port counted from 0 has the number, counted from 1.
fn is_port(number: u8, i: usize) -> bool
    ensures { result ≡ (not (number == 0) && number - 1 == i) }
{
    number != 0 && usize::from(number - 1) == i
}

/// Whether a call leaves each port enabled or not, and resets no device (11.24.2).
pub fn keeps_enable(call: PortCall) -> bool
    ensures { result ≡ keeps_enable call }
{
    match call {
        PortCall::SetPower
        | PortCall::ClearConnectionChange
        | PortCall::ClearEnableChange
        | PortCall::ClearResetChange => true,
        PortCall::SetReset | PortCall::ClearEnable | PortCall::ClearPower => false,
    }
}
