//! Tables of plans: devices, and their plugs at root port 1.

/// A full-speed function with one configuration, of one interface and no endpoints.
pub(super) const FUNCTION: &str = r#"
[[device]]
name = "fn"
speed = "full"
descriptor = "120100020000004034127856000100000001"
configs = ["0902120001010080320904000000FF000000"]
"#;

/// A function at low speed.
pub(super) const LOW: &str = r#"
[[device]]
name = "low"
speed = "low"
descriptor = "120110010000000834120100000100000001"
configs = ["0902120001010080320904000000FF000000"]
"#;

/// A self-powered hub with two ports.
pub(super) const HUB2: &str = r#"
[[device]]
name = "hub2"
speed = "full"
descriptor = "120100020900004001000200000100000001"
configs = ["09021900010100C000090400000109000000070581030100FF"]
ports = 2
self_powered = true
"#;

/// The function is plugged at root port 1.
pub(super) const PLUG_FUNCTION: &str = r#"
[[event]]
do = "plug"
path = "1"
device = "fn"
"#;

/// The low-speed function is plugged there.
pub(super) const PLUG_LOW: &str = r#"
[[event]]
do = "plug"
path = "1"
device = "low"
"#;

/// The hub is plugged there.
pub(super) const PLUG_HUB2: &str = r#"
[[event]]
do = "plug"
path = "1"
device = "hub2"
"#;

/// A function with bulk endpoints is plugged there.
pub(super) const PLUG_BULK: &str = r#"
[[event]]
do = "plug"
path = "1"
device = "bulk"
"#;
