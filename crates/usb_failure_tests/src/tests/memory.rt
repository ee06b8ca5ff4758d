//! A bus, a pipe and a device that are refused memory.
mod bus;
mod device;
mod pipe;

use std::alloc::{AllocError, Global};
use std::test::Fail;
use usb_bus::Bus;
use usb_plan::read_plan;
use usb_request::feature::{C_PORT_CONNECTION, C_PORT_RESET, PORT_POWER, PORT_RESET};
use usb_sim::{Plan, SimBus, Tracer};
use usb_transfer::{PipeFault, Setup, Target, control_none};
use usb_watch::Watched;

/// A function with packets of 8 bytes at bulk OUT 2 and bulk IN 2, which takes the requests of a
/// vendor, is plugged at root port 1. IN gives nine bytes, and OUT
/// halts after two packets.
pub(super) const PLAN: &str = r#"
limit = 10000
roots = 1

[[device]]
name = "fn"
speed = "full"
descriptor = "120100020000000834127856000100000001"
configs = ["0902200001010080320904000002FF0000000705020208000007058202080000"]
source = "010203040506070809"
halt_after = 2
request = [{ type = 0x40, request = 1 }]

[[event]]
do = "plug"
path = "1"
device = "fn"
"#;

/// The bus of the plan, which keeps its trace.
pub(super) type TestBus = SimBus<Tracer<Vec<u8>>>;

/// The function at address 1.
pub(super) const TARGET: Target = Target {
    addr: 1,
    max: 8,
    low: false,
    pre: false,
};

pub(super) fn plan(alloc: Global) -> Result<Plan, Fail> {
    Ok(read_plan(alloc, PLAN)?)
}

/// The bus, with the function at root port 1 reset and no change left there.
pub(super) fn plugged(alloc: Global) -> Result<TestBus, Fail> {
    let plan = plan(alloc)?;
    let Ok(mut bus) = SimBus::new(alloc, &plan, Watched::new(Vec::new(alloc))) else {
        return Err(Fail::from(AllocError));
    };
    bus.root_set(1, PORT_POWER);
    bus.apply_next_event()?;
    bus.root_clear(1, C_PORT_CONNECTION);
    bus.root_set(1, PORT_RESET);
    bus.root_clear(1, C_PORT_RESET);
    Ok(bus)
}

/// The function gets address 1 and its configuration.
pub(super) fn configure(bus: &mut TestBus) -> Result<(), PipeFault> {
    let unnamed = Target { addr: 0, ..TARGET };
    control_none(bus, unnamed, Setup::set_address(1))?;
    control_none(bus, TARGET, Setup::set_configuration(1))
}
