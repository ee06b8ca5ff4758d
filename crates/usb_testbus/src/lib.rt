//! Simulated buses for tests: from a plan's text, with the port and the device made ready.
#![tactic(auto)]

ghost use Rattle.std.specs.Prelude.{◌≡◌, ◌++◌, codes, decimal, false, flat_map, string_bytes, IfOk, IsOk, Ok, OnOk};
ghost use Rattle.usb_watch.specs.Watch.{inner_of, has_failed};
ghost use Rattle.usb_sim.specs.Sim.{writer_of};
ghost use Rattle.usb_plan.specs.Plan.{spelled_plan};

use std::alloc::{AllocError, Global};
use std::io::Write;
use thiserror::Error;
use usb_bus::{Bus, BusFault};
use usb_plan::{PlanFault, read_plan};
use usb_request::feature::{C_PORT_CONNECTION, C_PORT_RESET, PORT_POWER, PORT_RESET};
use usb_sim::{Plan, SimBus, Tracer, Untraced};
use usb_watch::Watched;

/// Why there is no such bus.
#[derive(Clone, Copy, Debug, PartialEq, Eq, Error)]
pub enum TestBusFault {
    /// The text is no plan.
    #[error("{0}")]
    Plan(PlanFault),
    /// The fault of the bus.
    #[error("{0}")]
    Bus(BusFault),
    /// Memory was refused.
    #[error("out of memory")]
    Memory,
}

/// The text of a plan with one root port: at most this number of attempts, and these tables one after the other.
///
/// # Errors
///
/// Memory was refused.
pub fn plan_text(alloc: Global, limit: u64, tables: &[&str]) -> Result<String, AllocError>
    ensures { IfOk result (λ s. string_bytes s
        ≡ codes "limit = " ++ decimal limit ++ codes "\nroots = 1\n"
        ++ flat_map (λ t. t.now) tables.now) }
{
    let mut text = format!(in alloc; "limit = {limit}\nroots = 1\n")?;
    'tables: for table in tables {
        text.push_str(table)?;
    }
    Ok(text)
}

/// The bus of a plan's text, before anything came, with a writer for its trace that has not failed yet.
///
/// # Errors
///
/// - `Plan`: the text is no plan.
/// - `Memory`: memory was refused.
pub fn bus_on<W: Write + Drop>(
    alloc: Global,
    text: &str,
    writer: Watched<W>,
) -> Result<SimBus<Tracer<W>>, TestBusFault>
    requires { has_failed writer ≡ false }
    ensures plan { OnOk result (IsOk (spelled_plan text.now)) }
    ensures writer { IfOk result (λ bus. writer_of bus ≡ writer) }
{
    let plan = plan_of(alloc, text)?;
    SimBus::new(alloc, &plan, writer).map_err(|_| TestBusFault::Memory)
}

/// The bus of a plan's text, before anything came, that makes no line of its trace.
///
/// # Errors
///
/// - `Plan`: the text is no plan.
/// - `Memory`: memory was refused.
pub fn untraced_of(alloc: Global, text: &str) -> Result<SimBus<Untraced>, TestBusFault>
    ensures { OnOk result (IsOk (spelled_plan text.now)) }
{
    let plan = plan_of(alloc, text)?;
    SimBus::untraced(alloc, &plan).map_err(|_| TestBusFault::Memory)
}

/// The plan that a text spells; a fault, refused memory too, is `Plan`.
fn plan_of(alloc: Global, text: &str) -> Result<Plan, TestBusFault>
    ensures { IfOk result (λ plan. spelled_plan text.now ≡ Ok plan) }
{
    match read_plan(alloc, text) {
        Ok(plan) => Ok(plan),
        Err(fault) => Err(TestBusFault::Plan(fault)),
    }
}

/// The bus of a plan's text, before anything came, that keeps its trace.
///
/// # Errors
///
/// - `Plan`: the text is no plan.
/// - `Memory`: memory was refused.
pub fn bus_of(alloc: Global, text: &str) -> Result<SimBus<Tracer<Vec<u8>>>, TestBusFault>
    ensures { OnOk result (IsOk (spelled_plan text.now)) }
{
    bus_on(alloc, text, Watched::new(Vec::new(alloc)))
}

/// The bus of a plan's text whose first event came: root port 1 has power, what is plugged there was reset, and no
/// change is left there.
///
/// # Errors
///
/// - `Plan`: the text is no plan.
/// - `Memory`: memory was refused.
/// - `Bus`: the event could not come.
pub fn plugged(alloc: Global, text: &str) -> Result<SimBus<Tracer<Vec<u8>>>, TestBusFault>
    ensures { OnOk result (IsOk (spelled_plan text.now)) }
{
    let mut bus = bus_of(alloc, text)?;
    bus.root_set(1, PORT_POWER);
    bus.apply_next_event().map_err(TestBusFault::Bus)?;
    bus.root_clear(1, C_PORT_CONNECTION);
    bus.root_set(1, PORT_RESET);
    bus.root_clear(1, C_PORT_RESET);
    Ok(bus)
}

/// The trace that a bus kept.
pub fn trace_of(bus: SimBus<Tracer<Vec<u8>>>) -> Vec<u8>
    ensures { result ≡ inner_of (writer_of bus) }
{
    bus.into_writer().into_inner()
}
