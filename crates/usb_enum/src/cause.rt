//! Why a device is refused.
use thiserror::Error;

/// A request that a refusal names.
#[derive(Clone, Copy, Debug, PartialEq, Eq, Error)]
pub enum Request {
    /// GET_DESCRIPTOR of the device descriptor (9.4.3).
    #[error("device")]
    Device,
    /// SET_ADDRESS (9.4.6).
    #[error("address")]
    Address,
    /// GET_DESCRIPTOR of a configuration (9.4.3).
    #[error("config")]
    Config,
    /// SET_CONFIGURATION (9.4.7).
    #[error("set config")]
    SetConfig,
}

/// Why a device is refused.
#[derive(Clone, Copy, Debug, PartialEq, Eq, Error)]
pub enum Cause {
    /// It gave no answer.
    #[error("silent")]
    Silent,
    /// It put the host off too often.
    #[error("busy")]
    Busy,
    /// It answered a request by STALL.
    #[error("stalled {0}")]
    Stalled(Request),
    /// Its device descriptor is malformed.
    #[error("bad device")]
    BadDevice,
    /// It is a hub in the seventh tier (4.1.1).
    #[error("too deep")]
    TooDeep,
    /// The configuration of this index is malformed, or has the value of an earlier one.
    #[error("bad configuration {0}")]
    BadConfiguration(u8),
    /// Its configurations say that they have more bytes than the host takes.
    #[error("too large")]
    TooLarge,
    /// No configuration needs as little power as the port gives.
    #[error("no power")]
    NoPower,
    /// It is a hub that cannot be served.
    #[error("bad hub")]
    BadHub,
    /// Its port was not enabled by the reset.
    #[error("lost")]
    Lost,
    /// No address was free.
    #[error("no address")]
    NoAddress,
}
