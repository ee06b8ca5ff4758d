//! A hub with one device, which is listed, reports a change; the host clears it, or drops a hub that does not or
//! refuses its status, and comes to rest. A device at another port stays listed. So it is too where a root port reports
//! a change for good.
mod held;
mod quirk;

use super::devices::{HUB, OLD_FUNCTION, PLUG_FUNCTION_BELOW, PLUG_HUB};
use quirk::{QuirkBus, Told};
use std::alloc::{AllocError, Global};
use std::test::Fail;
use usb_enum::Finding;
use usb_host::{Host, Round};
use usb_port::PortPath;
use usb_sim::{SimBus, Tracer};
use usb_testbus::bus_of;

/// A hub of two ports that powers itself, and a function at its first port.
pub(crate) const PLAN: &[&str] = &[HUB, OLD_FUNCTION, PLUG_HUB, PLUG_FUNCTION_BELOW];

/// A second such function at the other root port.
const BESIDE: &str = "[[event]]
do = \"plug\"
path = \"2\"
device = \"fn\"
after = 0
";

struct Row {
    about: &'static str,
    tells: Told,
    /// What is reported once the hub has reported that.
    told: &'static str,
}

/// All devices are listed; the change was cleared, and the port passes packets on.
const CLEARED: &str = "quiet, 1 device, 1.1 device, 2 device; cleared 1, disabled false";

/// The hub is dropped after one try.
const DROPPED: &str = "quiet, 1 lost, 2 device; cleared 1, disabled false";

/// The hub is dropped with no try.
const REFUSED: &str = "quiet, 1 lost, 2 device; cleared 0, disabled false";

const ROWS: &[Row] = &[
    Row {
        about: "C_PORT_ENABLE: the port is disabled on an error",
        tells: Told::Port(17),
        told: CLEARED,
    },
    Row {
        about: "C_PORT_SUSPEND",
        tells: Told::Port(18),
        told: CLEARED,
    },
    Row {
        about: "C_PORT_OVER_CURRENT",
        tells: Told::Port(19),
        told: CLEARED,
    },
    Row {
        about: "C_HUB_LOCAL_POWER",
        tells: Told::Hub(0),
        told: CLEARED,
    },
    Row {
        about: "C_HUB_OVER_CURRENT",
        tells: Told::Hub(1),
        told: CLEARED,
    },
    Row {
        about: "C_PORT_CONNECTION of an enabled port, which no clearing takes away",
        tells: Told::Stuck,
        told: DROPPED,
    },
    Row {
        about: "bit 0 of the status change, and GetHubStatus is answered by STALL",
        tells: Told::Refused,
        told: REFUSED,
    },
];

/// Before it all devices are listed.
const BEFORE: &str = "quiet, 1 device, 1.1 device, 2 device; ";

type TestHost = Host<QuirkBus<SimBus<Tracer<Vec<u8>>>>>;

/// Each path, and what was found there.
fn put_entries(text: &mut String, entries: &[(PortPath, Finding)]) -> Result<(), AllocError> {
    for (path, finding) in entries {
        match finding {
            Finding::Device(_) => write!(text, ", {} device", path.text())?,
            Finding::Refused(cause) => write!(text, ", {} {cause}", path.text())?,
        }
    }
    Ok(())
}

/// Rounds until one is quiet, ten at most, and the listing then.
fn put_settled(text: &mut String, host: &mut TestHost) -> Result<(), Fail> {
    let mut last = Round::Worked;
    for _ in 0..10 {
        if last == Round::Worked {
            last = host.round()?;
        }
    }
    text.push_str(match last {
        Round::Worked => "busy",
        Round::Quiet => "quiet",
    })?;
    put_entries(text, host.tree()?.entries())?;
    text.push_str("; ")?;
    Ok(())
}

/// What is reported before the change and after it, how often it was cleared, and whether the port is disabled at last.
fn told(alloc: Global, row: &Row) -> Result<String, Fail> {
    let tables = PLAN.concat(alloc)?;
    let plan = format!(in alloc; "limit = 100000\nroots = 2\n{tables}{BESIDE}")?;
    let mut bus = bus_of(alloc, plan.as_str())?;
    for _ in 0..3 {
        bus.apply_next_event()?;
    }
    let mut host = Host::new(alloc, QuirkBus::new(bus));
    let mut text = String::new(alloc);
    put_settled(&mut text, &mut host)?;
    host.bus_mut().tell(row.tells);
    put_settled(&mut text, &mut host)?;
    let bus = host.into_bus();
    write!(
        text,
        "cleared {}, disabled {}",
        bus.cleared(),
        bus.is_disabled()
    )?;
    Ok(text)
}

#[test]
fn a_hub_that_tells_more(rt: HostRuntime) -> Result<(), Fail> {
    for row in ROWS {
        let told = told(rt.alloc(), row)?;
        let wanted = format!(in rt.alloc(); "{BEFORE}{}", row.told)?;
        assert_eq!(rt; told, wanted, "{}", row.about);
    }
    Ok(())
}
