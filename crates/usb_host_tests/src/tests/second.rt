//! A host hands its bus on to another one, which finds each device again, and gives none an address that one has.
mod halting;

use super::devices::{HUB, OLD_FUNCTION, PLUG_FUNCTION_BELOW, PLUG_HUB};
use halting::HaltingBus;
use std::alloc::{AllocError, Global};
use std::test::Fail;
use usb_bus::Bus;
use usb_enum::Finding;
use usb_host::{Host, HostFault, Round};
use usb_port::PortPath;
use usb_testbus::untraced_of;

/// A hub with a function at its first port, and a function that is plugged between the two hosts.
const PLAN: &[&str] = &[
    "limit = 100000
roots = 2
",
    HUB,
    OLD_FUNCTION,
    PLUG_HUB,
    PLUG_FUNCTION_BELOW,
    "[[event]]
do = \"plug\"
path = \"2\"
device = \"fn\"
after = 90000
",
];

struct Row {
    about: &'static str,
    /// The attempts after which the first host's bus fails.
    attempts: u64,
    first: &'static str,
}

const ROWS: &[Row] = &[
    Row {
        about: "the first host has found both",
        attempts: u64::MAX,
        first: "quiet, 1 device 1, 1.1 device 2",
    },
    Row {
        about: "the first host has stopped where the hub had taken address 1",
        attempts: 5,
        first: "stopped",
    },
    Row {
        about: "the first host has made no attempt",
        attempts: 0,
        first: "stopped",
    },
];

/// Ports of the root go first, and each device has the least address that is free.
const SECOND: &str = "; quiet, 1 device 1, 1.1 device 3, 2 device 2";

/// Each path, and what was found there.
fn put_entries(text: &mut String, entries: &[(PortPath, Finding)]) -> Result<(), AllocError> {
    for (path, finding) in entries {
        match finding {
            Finding::Device(device) => {
                write!(text, ", {} device {}", path.text(), device.address.number())?;
            }
            Finding::Refused(cause) => write!(text, ", {} {cause}", path.text())?,
        }
    }
    Ok(())
}

/// How a round ended.
fn round_ended(round: Result<Round, HostFault>) -> &'static str {
    match round {
        Ok(Round::Worked) => "busy",
        Ok(Round::Quiet) => "quiet",
        Err(_) => "stopped",
    }
}

/// Rounds until one is quiet or fails, ten at most, and the listing then.
fn put_settled<B: Bus>(text: &mut String, host: &mut Host<B>) -> Result<(), Fail> {
    let mut last = "busy";
    for _ in 0..10 {
        if last == "busy" {
            last = round_ended(host.round());
        }
    }
    text.push_str(last)?;
    put_entries(text, host.tree()?.entries())?;
    Ok(())
}

/// What the first host reports, and then the second one.
fn told(alloc: Global, row: &Row) -> Result<String, Fail> {
    let plan = PLAN.concat(alloc)?;
    let mut bus = untraced_of(alloc, plan.as_str())?;
    bus.apply_next_event()?;
    bus.apply_next_event()?;
    let mut first = Host::new(alloc, HaltingBus::new(bus, row.attempts));
    let mut text = String::new(alloc);
    put_settled(&mut text, &mut first)?;
    let mut bus = first.into_bus().into_inner();
    bus.apply_next_event()?;
    text.push_str("; ")?;
    put_settled(&mut text, &mut Host::new(alloc, bus))?;
    Ok(text)
}

#[test]
fn a_second_host(rt: HostRuntime) -> Result<(), Fail> {
    for row in ROWS {
        let told = told(rt.alloc(), row)?;
        let wanted = format!(in rt.alloc(); "{}{SECOND}", row.first)?;
        assert_eq!(rt; told, wanted, "{}", row.about);
    }
    Ok(())
}
