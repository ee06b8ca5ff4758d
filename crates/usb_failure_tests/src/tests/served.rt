//! Plans, and what is written of each where nothing fails. Such texts are in `tests/serve_plans.rows`.
use super::plans::{HUB2, LOW, PLUG_THERMOMETER, THERMOMETER};
use std::alloc::{AllocError, Global};
use std::test::Fail;
use usb_run::Mode;
use usb_serve::serve;
use usb_watch::Watched;

/// The parts of a plan.
pub(super) type Plan = &'static [&'static str];

/// The limit and the root port of each plan.
const HEAD: &str = "limit = 10000\nroots = 1\n";

pub(super) const ONE_FUNCTION: Plan = &[HEAD, THERMOMETER, PLUG_THERMOMETER];

const SHOW_THEN_UNPLUG: Plan = &[
    HEAD,
    THERMOMETER,
    PLUG_THERMOMETER,
    r#"
[[event]]
do = "show"

[[event]]
do = "unplug"
path = "1"
"#,
];

const LOW_SPEED_BELOW_HUB: Plan = &[
    HEAD,
    HUB2,
    LOW,
    r#"
[[event]]
do = "plug"
path = "1"
device = "hub2"

[[event]]
do = "plug"
path = "1.1"
device = "low"
after = 0
"#,
];

const BULK_SEND_130: Plan = &[
    HEAD,
    r#"
[[device]]
name = "bulk"
speed = "full"
descriptor = "120100020000004034127856000100000001"
configs = ["0902200001010080320904000002FF0000000705020240000007058202400000"]

[[event]]
do = "plug"
path = "1"
device = "bulk"

[[event]]
do = "send"
path = "1"
bytes = "0102030405060708090A0B0C0D0E0F101112131415161718191A1B1C1D1E1F202122232425262728292A2B2C2D2E2F303132333435363738393A3B3C3D3E3F404142434445464748494A4B4C4D4E4F505152535455565758595A5B5C5D5E5F606162636465666768696A6B6C6D6E6F707172737475767778797A7B7C7D7E7F808182"
"#,
];

pub(super) const PLANS: [Plan; 4] = [
    ONE_FUNCTION,
    SHOW_THEN_UNPLUG,
    LOW_SPEED_BELOW_HUB,
    BULK_SEND_130,
];

/// A plan's text and a mode, what is written of it in that mode, and in mode Tree.
#[derive(Drop)]
pub(super) struct Served {
    pub(super) plan: String,
    pub(super) mode: Mode,
    pub(super) text: String,
    pub(super) tree: String,
}

/// What is written of a plan in a mode.
pub(super) fn text_in(alloc: Global, plan: &str, mode: Mode) -> Result<String, Fail> {
    let mut reader = Watched::new(plan.as_bytes());
    let (_, writer) = serve(alloc, mode, &mut reader, Watched::new(Vec::new(alloc)));
    let written = writer.into_inner();
    Ok(String::from_str(alloc, str::from_utf8(written.as_slice())?)?)
}

/// Each plan in both modes.
pub(super) fn served_plans(alloc: Global, plans: &[Plan]) -> Result<Vec<Served>, Fail> {
    let mut all = Vec::new(alloc);
    for parts in plans {
        for mode in [Mode::Run, Mode::Tree] {
            let plan = parts.concat(alloc)?;
            let text = text_in(alloc, plan.as_str(), mode)?;
            let tree = text_in(alloc, plan.as_str(), Mode::Tree)?;
            all.push(Served {
                plan,
                mode,
                text,
                tree,
            })?;
        }
    }
    Ok(all)
}
