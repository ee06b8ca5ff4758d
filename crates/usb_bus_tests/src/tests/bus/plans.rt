//! The tables of plans, and requests to what they plug.
use crate::tests::devices::{FUNCTION, HUB2, LOW, PLUG_FUNCTION, PLUG_HUB2};

/// So many attempts at most, and one root port.
pub(super) const ONE_PORT: &str = "limit = 10000\nroots = 1\n";

/// The same with two root ports.
pub(super) const TWO_PORTS: &str = "limit = 16\nroots = 2\n";

/// A function whose bulk OUT endpoint is endpoint 2.
pub(super) const BULK: &str = r#"
[[device]]
name = "bulk"
speed = "full"
descriptor = "120100020000004034127856000100000001"
configs = ["0902200001010080320904000002FF0000000705020208000007058202080000"]
"#;

/// A low-speed function is plugged at port 1 of the hub. Much later a second one is plugged at
/// its port 2, and then the hub is unplugged.
pub(super) const HUB_EVENTS: &str = r#"
[[event]]
do = "plug"
path = "1.1"
device = "low"

[[event]]
do = "plug"
path = "1.2"
device = "low"
after = 1000

[[event]]
do = "unplug"
path = "1"
after = 1000
"#;

/// The function is plugged at root port 1, the only one.
pub(super) const ONE_FUNCTION: &[&str] = &[ONE_PORT, FUNCTION, PLUG_FUNCTION];

/// The hub and the low-speed functions.
pub(super) const HUB: &[&str] = &[ONE_PORT, HUB2, LOW, PLUG_HUB2, HUB_EVENTS];

/// The first 8 bytes of the device descriptor.
pub(super) const GET_DEVICE: [u8; 8] = [0x80, 6, 0, 1, 0, 0, 8, 0];

/// SET_ADDRESS of address 1.
pub(super) const SET_ADDRESS_1: [u8; 8] = [0, 5, 1, 0, 0, 0, 0, 0];

/// SET_ADDRESS of address 5.
pub(super) const SET_ADDRESS_5: [u8; 8] = [0, 5, 5, 0, 0, 0, 0, 0];

/// SET_CONFIGURATION of the configuration with value 1.
pub(super) const SET_CONFIGURATION: [u8; 8] = [0, 9, 1, 0, 0, 0, 0, 0];
