//! Whom a transaction is with.

/// A device, and how it is reached.
#[derive(Clone, Copy, Debug, PartialEq, Eq)]
pub struct Target {
    /// The device's address, 0 to 127.
    pub addr: u8,
    /// The maximum packet of the endpoint in bytes, 1 to 64.
    pub max: u8,
    /// It is at low speed.
    pub low: bool,
    /// PRE goes before each of the host's packets (8.6.5), only where `low` is set.
    pub pre: bool,
}
