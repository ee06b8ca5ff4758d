//! Plans, what is wrong with them, and their places.
mod places;
mod reads;
mod writing;

use std::alloc::AllocError;
use usb_plan::PlanFault;

/// One root port, and a full-speed function with one configuration of 18 bytes.
const FUNCTION: &str =
    "limit = 10000\nroots = 1\n[[device]]\nname = \"fn\"\nspeed = \"full\"\ndescriptor = \"120100020000004034127856000100000001\"\nconfigs = [\"0902120001010080320904000000FF000000\"]\n";

#[test]
fn want_of_memory_is_told(rt: HostRuntime) -> Result<(), AllocError> {
    let words = PlanFault::Memory.to_string(rt.alloc())?;
    assert_eq!(rt; words.as_str(), "out of memory");
    Ok(())
}
