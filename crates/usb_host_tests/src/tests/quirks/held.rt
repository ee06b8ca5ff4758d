//! A root port reports a change of connection for good: the host finds what is there, leaves the port alone as long as
//! its status stays the same, and comes to rest; the other ports go on.
use super::quirk::{QuirkBus, Told};
use super::{PLAN, TestHost, put_settled};
use std::alloc::Global;
use std::test::Fail;
use usb_host::Host;
use usb_port::PortPath;
use usb_testbus::bus_of;

/// What comes at root port 2 after the two devices at port 1, if anything.
struct Row {
    about: &'static str,
    /// The events after the two plugs at port 1, each with a way to rest after it.
    events: &'static str,
    count: u8,
    /// The root port whose change stays, and whether it is disabled once the hub there is configured.
    stuck: u8,
    dark: bool,
    /// What the hub reports before the last event comes.
    tells: Option<Told>,
    /// The port that is looked at after that, if any.
    look: &'static str,
    told: &'static str,
}

const ROWS: &[Row] = &[
    Row {
        about: "nothing is plugged there",
        events: "",
        count: 0,
        stuck: 2,
        dark: false,
        tells: None,
        look: "",
        told: "quiet, 1 device, 1.1 device; quiet, 1 device, 1.1 device; tries 1",
    },
    Row {
        about: "a device is plugged there, and listed",
        events: "[[event]]\ndo = \"plug\"\nafter = 10000\npath = \"2\"\ndevice = \"fn\"\n",
        count: 1,
        stuck: 2,
        dark: false,
        tells: None,
        look: "",
        told: "quiet, 1 device, 1.1 device; \
               quiet, 1 device, 1.1 device, 2 device; \
               quiet, 1 device, 1.1 device, 2 device; tries 2",
    },
    Row {
        about: "it is plugged, unplugged and plugged",
        events: "[[event]]\ndo = \"plug\"\nafter = 10000\npath = \"2\"\ndevice = \"fn\"\n\
                 [[event]]\ndo = \"unplug\"\nafter = 10000\npath = \"2\"\n\
                 [[event]]\ndo = \"plug\"\nafter = 10000\npath = \"2\"\ndevice = \"fn\"\n",
        count: 3,
        stuck: 2,
        dark: false,
        tells: None,
        look: "",
        told: "quiet, 1 device, 1.1 device; \
               quiet, 1 device, 1.1 device, 2 device; \
               quiet, 1 device, 1.1 device; \
               quiet, 1 device, 1.1 device, 2 device; \
               quiet, 1 device, 1.1 device, 2 device; tries 4",
    },
    Row {
        about: "a device comes and goes elsewhere",
        events: "[[event]]\ndo = \"plug\"\nafter = 10000\npath = \"1.2\"\ndevice = \"fn\"\n\
                 [[event]]\ndo = \"unplug\"\nafter = 10000\npath = \"1.1\"\n",
        count: 2,
        stuck: 1,
        dark: false,
        tells: None,
        look: "",
        told: "quiet, 1 device, 1.1 device; \
               quiet, 1 device, 1.1 device, 1.2 device; \
               quiet, 1 device, 1.2 device; \
               quiet, 1 device, 1.2 device; tries 1",
    },
    Row {
        about: "the port is disabled behind each look: it is looked at once more",
        events: "",
        count: 0,
        stuck: 1,
        dark: true,
        tells: None,
        look: "",
        told: "quiet, 1 device, 1.1 device; quiet, 1 device, 1.1 device; tries 2",
    },
    Row {
        about: "a look at it begins afresh: it is looked at once more again",
        events: "",
        count: 0,
        stuck: 1,
        dark: true,
        tells: None,
        look: "1",
        told: "quiet, 1 device, 1.1 device; Ok(Found); quiet, 1 device, 1.1 device; tries 4",
    },
    Row {
        about: "the hub there is dropped, and stays so",
        events: "",
        count: 0,
        stuck: 1,
        dark: false,
        tells: Some(Told::Stuck),
        look: "",
        told: "quiet, 1 device, 1.1 device; quiet, 1 lost; tries 1",
    },
];

/// What is reported at rest, before the events and after each of them, and at the end; and how often the change was to
/// be cleared.
fn told(alloc: Global, row: &Row) -> Result<String, Fail> {
    let tables = PLAN.concat(alloc)?;
    let plan = format!(in alloc; "limit = 100000\nroots = 2\n{tables}{}", row.events)?;
    let mut bus = bus_of(alloc, plan.as_str())?;
    bus.apply_next_event()?;
    bus.apply_next_event()?;
    let mut quirk = QuirkBus::new(bus);
    quirk.hold(row.stuck, row.dark);
    let mut host: TestHost = Host::new(alloc, quirk);
    let mut text = String::new(alloc);
    put_settled(&mut text, &mut host)?;
    for _ in 0..row.count {
        host.bus_mut().below().apply_next_event()?;
        put_settled(&mut text, &mut host)?;
    }
    if let Some(told) = row.tells {
        host.bus_mut().tell(told);
    }
    if let Some(path) = PortPath::from_text(row.look) {
        write!(text, "{:?}; ", host.look(&path))?;
    }
    put_settled(&mut text, &mut host)?;
    write!(text, "tries {}", host.into_bus().tries())?;
    Ok(text)
}

#[test]
fn a_change_that_stays(rt: HostRuntime) -> Result<(), Fail> {
    for row in ROWS {
        let told = told(rt.alloc(), row)?;
        assert_eq!(rt; told.as_str(), row.told, "{}", row.about);
    }
    Ok(())
}
