//! Hosts that take wide hubs, hosts that take none, and what refused devices said.
use super::devices::FUNCTION;
use std::alloc::Global;
use std::test::Fail;
use usb_enum::Finding;
use usb_host::{Host, Round};
use usb_port::PortPath;
use usb_sim::{SimBus, Tracer};
use usb_testbus::{bus_of, plan_text};

type TestBus = SimBus<Tracer<Vec<u8>>>;

/// A hub of ten ports, with a function at the last one and a device of no configuration at another.
const PLAN: &[&str] = &[
    "wide_hubs = true
event = [
  { do = \"plug\", path = \"1\", device = \"hub\" },
  { do = \"plug\", path = \"1.10\", device = \"fn\" },
  { do = \"plug\", path = \"1.8\", device = \"bad\" },
]

[[device]]
name = \"hub\"
speed = \"full\"
descriptor = \"120100020900004001000200000100000001\"
configs = [\"09021900010100C000090400000109000000070583030200FF\"]
ports = 10
self_powered = true

",
    FUNCTION,
    "
[[device]]
name = \"bad\"
speed = \"full\"
descriptor = \"120100020000004034127956000100000001\"
configs = []
",
];

struct Row {
    about: &'static str,
    /// Whether the host takes wide hubs.
    wide: bool,
    told: &'static str,
}

const ROWS: &[Row] = &[
    Row {
        about: "a host that takes no wide hubs refuses one",
        wide: false,
        told: "1 bad hub said 120100020900004001000200000100000001; ",
    },
    Row {
        about: "one that takes them finds what is below it",
        wide: true,
        told: "1 device 1; 1.8 stalled config said 120100020000004034127956000100000001; 1.10 device 2; ",
    },
];

/// The bus, after all three plugs.
fn plugged(alloc: Global) -> Result<TestBus, Fail> {
    let text = plan_text(alloc, 20000, PLAN)?;
    let mut bus = bus_of(alloc, text.as_str())?;
    for _ in 0..3 {
        bus.apply_next_event()?;
    }
    Ok(bus)
}

fn host_of(alloc: Global, wide: bool) -> Result<Host<TestBus>, Fail> {
    let bus = plugged(alloc)?;
    Ok(if wide {
        Host::with_wide_hubs(alloc, bus)
    } else {
        Host::new(alloc, bus)
    })
}

/// Adds what was found at a path, and what a refused device said.
fn put_entry(
    alloc: Global,
    text: &mut String,
    host: &Host<TestBus>,
    entry: &(PortPath, Finding),
) -> Result<(), Fail> {
    let (path, finding) = entry;
    match finding {
        Finding::Device(device) => write!(
            text,
            "{} device {}",
            path.text(),
            device.address.number()
        )?,
        Finding::Refused(cause) => write!(text, "{} {cause}", path.text())?,
    }
    if let Some(said) = host.said(path) {
        write!(text, " said {}", hex::encode_upper(alloc, said)?)?;
    }
    text.push_str("; ")?;
    Ok(())
}

/// What the host has found after rounds until a quiet one, ten at most.
fn told(alloc: Global, row: &Row) -> Result<String, Fail> {
    let mut host = host_of(alloc, row.wide)?;
    for _ in 0..10 {
        if host.round()? == Round::Quiet {
            break;
        }
    }
    let mut text = String::new(alloc);
    for entry in host.tree()?.entries() {
        put_entry(alloc, &mut text, &host, entry)?;
    }
    Ok(text)
}

#[test]
fn hosts_and_wide_hubs(rt: HostRuntime) -> Result<(), Fail> {
    for row in ROWS {
        let told = told(rt.alloc(), row)?;
        assert_eq!(rt; told.as_str(), row.told, "{}", row.about);
    }
    Ok(())
}
