//! Tables of plans: devices, and their plugs.

/// A hub of two ports that powers itself.
pub(super) const HUB: &str = "[[device]]
name = \"hub\"
speed = \"full\"
descriptor = \"120100020900004001000200000100000001\"
configs = [\"09021900010100C000090400000109000000070581030100FF\"]
ports = 2
self_powered = true
";

/// A low-speed function.
pub(super) const LOW: &str = "[[device]]
name = \"low\"
speed = \"low\"
descriptor = \"120110010000000834120100000100000001\"
configs = [\"0902120001010080320904000000FF000000\"]
";

/// A full-speed function.
pub(super) const FUNCTION: &str = "[[device]]
name = \"fn\"
speed = \"full\"
descriptor = \"120100020000004034127856000100000001\"
configs = [\"0902120001010080320904000000FF000000\"]
";

/// One whose packets at endpoint 0 have at most 8 bytes.
pub(super) const OLD_FUNCTION: &str = "[[device]]
name = \"fn\"
speed = \"full\"
descriptor = \"120110010000000834120100000100000001\"
configs = [\"0902120001010080320904000000FF000000\"]
";

/// The hub is plugged at root port 1.
pub(super) const PLUG_HUB: &str = "[[event]]
do = \"plug\"
path = \"1\"
device = \"hub\"
";

/// Then the low-speed function at its first port.
pub(super) const PLUG_LOW_BELOW: &str = "[[event]]
do = \"plug\"
path = \"1.1\"
device = \"low\"
after = 0
";

/// Then the full-speed function there.
pub(super) const PLUG_FUNCTION_BELOW: &str = "[[event]]
do = \"plug\"
path = \"1.1\"
device = \"fn\"
after = 0
";

/// The function is plugged at root port 1.
pub(super) const PLUG_FUNCTION: &str = "[[event]]
do = \"plug\"
path = \"1\"
device = \"fn\"
";
