//! A caller of a host that lets it settle, over a bus that gives up at a poll of a hub.
use super::quirks::PLAN;
use std::alloc::{AllocError, Global};
use std::test::Fail;
use usb_enum::Finding;
use usb_host::{Bus, Host, HostFault, Round};
use usb_port::PortPath;
use usb_testbus::{bus_of, plan_text};

struct Row {
    about: &'static str,
    /// The attempts that the bus makes at most.
    limit: u64,
    /// What settling ends with, and where a device is listed then.
    told: &'static str,
}

/// Attempt 27 is the first poll of the hub, 64 the one after its device was found.
const ROWS: &[Row] = &[
    Row {
        about: "at the first poll: the device behind the hub is not found, and the caller knows it",
        limit: 26,
        told: "Err(Bus(Limit)), 1; Err(Stopped)",
    },
    Row {
        about: "at the last poll: nothing says that the hub has no further change",
        limit: 63,
        told: "Err(Bus(Limit)), 1, 1.1; Err(Stopped)",
    },
    Row {
        about: "after the last poll",
        limit: 64,
        told: "Ok(()), 1, 1.1; Err(Bus(Limit))",
    },
];

/// Rounds until a quiet one, ten at most.
fn settle<B: Bus>(host: &mut Host<B>) -> Result<(), HostFault> {
    for _ in 0..10 {
        if host.round()? == Round::Quiet {
            break;
        }
    }
    Ok(())
}

/// Where a device was found.
fn put_paths(text: &mut String, entries: &[(PortPath, Finding)]) -> Result<(), AllocError> {
    for (path, _finding) in entries {
        write!(text, ", {}", path.text())?;
    }
    Ok(())
}

/// What settling ends with, where a device is listed then, and what settling again ends with.
fn told(alloc: Global, row: &Row) -> Result<String, Fail> {
    let plan = plan_text(alloc, row.limit, PLAN)?;
    let mut bus = bus_of(alloc, plan.as_str())?;
    bus.apply_next_event()?;
    bus.apply_next_event()?;
    let mut host = Host::new(alloc, bus);
    let mut text = String::new(alloc);
    write!(text, "{:?}", settle(&mut host))?;
    put_paths(&mut text, host.tree()?.entries())?;
    write!(text, "; {:?}", settle(&mut host))?;
    Ok(text)
}

#[test]
fn a_poll_that_the_bus_gives_up(rt: HostRuntime) -> Result<(), Fail> {
    for row in ROWS {
        let told = told(rt.alloc(), row)?;
        assert_eq!(rt; told.as_str(), row.told, "{}", row.about);
    }
    Ok(())
}
