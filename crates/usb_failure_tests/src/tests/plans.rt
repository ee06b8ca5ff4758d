//! Parts of plans: devices, and their plugs at root port 1.

/// A function with no endpoint but endpoint 0.
pub(super) const THERMOMETER: &str = r#"
[[device]]
name = "thermometer"
speed = "full"
descriptor = "120100020000004034127856000100000001"
configs = ["0902120001010080320904000000FF000000"]
"#;

pub(super) const PLUG_THERMOMETER: &str = r#"
[[event]]
do = "plug"
path = "1"
device = "thermometer"
"#;

/// The same at low speed.
pub(super) const LOW: &str = r#"
[[device]]
name = "low"
speed = "low"
descriptor = "120110010000000834120100000100000001"
configs = ["0902120001010080320904000000FF000000"]
"#;

/// A hub of two ports that powers itself.
pub(super) const HUB2: &str = r#"
[[device]]
name = "hub2"
speed = "full"
descriptor = "120100020900004001000200000100000001"
configs = ["09021900010100C000090400000109000000070581030100FF"]
ports = 2
self_powered = true
"#;

/// A device with bulk endpoints of packets of 8 bytes, which gives 20 bytes.
pub(super) const BULK: &str = r#"
[[device]]
name = "bulk"
speed = "full"
descriptor = "120100020000004034127856000100000001"
configs = ["0902200001010080320904000002FF0000000705020208000007058202080000"]
source = "000102030405060708090A0B0C0D0E0F10111213"
"#;

pub(super) const PLUG_BULK: &str = r#"
[[event]]
do = "plug"
path = "1"
device = "bulk"
"#;
