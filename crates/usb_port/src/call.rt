//! What the host can ask of a port of a hub (11.24).
ghost use Rattle.std.specs.Prelude.{◌≡◌};
ghost use Rattle.usb_port.specs.Calls.{set_call, clear_call, called_port, is_clearing};

use crate::Port;
use usb_request::feature::{
    C_PORT_CONNECTION, C_PORT_ENABLE, C_PORT_RESET, PORT_ENABLE, PORT_POWER, PORT_RESET,
};

/// A call of the port table.
#[derive(Clone, Copy, Debug)]
pub enum PortCall {
    /// SetPortFeature of PORT_POWER.
    SetPower,
    /// SetPortFeature of PORT_RESET.
    SetReset,
    /// ClearPortFeature of PORT_ENABLE.
    ClearEnable,
    /// ClearPortFeature of PORT_POWER.
    ClearPower,
    /// ClearPortFeature of C_PORT_CONNECTION.
    ClearConnectionChange,
    /// ClearPortFeature of C_PORT_ENABLE.
    ClearEnableChange,
    /// ClearPortFeature of C_PORT_RESET.
    ClearResetChange,
}

impl PortCall {
    /// SetPortFeature of a feature (11.24.2.13), which is PORT_POWER or PORT_RESET; None for any
    /// other.
    pub fn of_set(feature: u16) -> Option<PortCall>
        ensures { result ≡ set_call feature }
    {
        match feature {
            PORT_POWER => Some(PortCall::SetPower),
            PORT_RESET => Some(PortCall::SetReset),
            _ => None,
        }
    }

    /// ClearPortFeature of a feature (11.24.2.2), which is PORT_ENABLE, PORT_POWER or one of the
    /// three changes; None for any other.
    pub fn of_clear(feature: u16) -> Option<PortCall>
        ensures { result ≡ clear_call feature }
    {
        match feature {
            PORT_ENABLE => Some(PortCall::ClearEnable),
            PORT_POWER => Some(PortCall::ClearPower),
            C_PORT_CONNECTION => Some(PortCall::ClearConnectionChange),
            C_PORT_ENABLE => Some(PortCall::ClearEnableChange),
            C_PORT_RESET => Some(PortCall::ClearResetChange),
            _ => None,
        }
    }

    /// Whether it clears C_PORT_CONNECTION (11.24.2.2).
    pub fn clears_connection_change(self) -> bool
        ensures { result ≡ is_clearing self }
    {
        matches!(self, PortCall::ClearConnectionChange)
    }
}

impl Port {
    /// Makes a call at the port: what its row of the port table says (11.24.2.2, 11.24.2.13).
    pub fn call(&mut self, call: PortCall)
        ensures { self.new ≡ called_port call self.old }
    {
        match call {
            PortCall::SetPower => self.power_on(),
            PortCall::SetReset => self.reset(),
            PortCall::ClearEnable => self.disable(),
            PortCall::ClearPower => self.power_off(),
            PortCall::ClearConnectionChange => self.clear_connection_change(),
            PortCall::ClearEnableChange => self.clear_enable_change(),
            PortCall::ClearResetChange => self.clear_reset_change(),
        }
    }
}
