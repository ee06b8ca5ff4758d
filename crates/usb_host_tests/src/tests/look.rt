//! Looks at ports: what each reports, the attempts that it takes, and what is listed after it.
use super::devices::{FUNCTION, HUB, PLUG_FUNCTION};
use std::alloc::{AllocError, Global};
use std::test::Fail;
use usb_enum::Finding;
use usb_host::{Host, Round};
use usb_port::PortPath;
use usb_sim::{SimBus, Tracer};
use usb_testbus::{bus_of, plan_text};

const DEVICES: &[&str] = &[
    HUB,
    FUNCTION,
    "[[device]]
name = \"bad\"
speed = \"full\"
descriptor = \"120100020000004034127856000100000001\"
configs = []
",
];

const PLUG_BAD: &str = "[[event]]
do = \"plug\"
path = \"1\"
device = \"bad\"
";

const PLUG_BOTH: &str = "[[event]]
do = \"plug\"
path = \"1\"
device = \"hub\"
[[event]]
do = \"plug\"
path = \"1.1\"
device = \"fn\"
";

/// Three packets that are lost, at these attempts.
const LOST_AT_1: &str = "[[damage]]
attempt = 1
packet = 1
how = \"lose\"
[[damage]]
attempt = 2
packet = 1
how = \"lose\"
[[damage]]
attempt = 3
packet = 1
how = \"lose\"
";

const LOST_AT_28: &str = "[[damage]]
attempt = 28
packet = 1
how = \"lose\"
[[damage]]
attempt = 29
packet = 1
how = \"lose\"
[[damage]]
attempt = 30
packet = 1
how = \"lose\"
";

const LOST_AT_60: &str = "[[damage]]
attempt = 60
packet = 1
how = \"lose\"
[[damage]]
attempt = 61
packet = 1
how = \"lose\"
[[damage]]
attempt = 62
packet = 1
how = \"lose\"
";

/// Devices are plugged, and then ports are looked at, with rounds until a quiet one after each.
struct Row {
    about: &'static str,
    tables: &'static [&'static str],
    looks: &'static [&'static str],
    /// What is listed before the looks, and then, for each, what it reports, the attempts that were made when it
    /// ended, and what is listed after the rounds.
    told: &'static str,
}

const ROWS: &[Row] = &[
    Row {
        about: "a refused device is found",
        tables: &[PLUG_FUNCTION, LOST_AT_1],
        looks: &["1"],
        told: "1 silent; Ok(Found) 19: 1 address 1",
    },
    Row {
        about: "one stays refused",
        tables: &[PLUG_BAD],
        looks: &["1"],
        told: "1 stalled config; Ok(Refused(Stalled(Config))) 20: 1 stalled config",
    },
    Row {
        about: "an accepted device is reset, and has its address again",
        tables: &[PLUG_FUNCTION],
        looks: &["1"],
        told: "1 address 1; Ok(Found) 32: 1 address 1",
    },
    Row {
        about: "a lost hub is found, and then what is below it",
        tables: &[PLUG_BOTH, LOST_AT_28],
        looks: &["1"],
        told: "1 lost; Ok(Found) 56: 1 address 1, 1.1 address 2",
    },
    Row {
        about: "nothing is connected, and other paths are of no port",
        tables: &[],
        looks: &["1", "1.1", "2"],
        told: "; Ok(Empty) 0: ; Err(Transfer(NoPort)) 0: ; Err(Transfer(NoPort)) 0: ",
    },
    Row {
        about: "a hub that does not answer is dropped, and found by a look at its own port",
        tables: &[PLUG_BOTH, LOST_AT_60],
        looks: &["1.1", "1"],
        told: "1 address 1, 1.1 address 2; Err(Transfer(NoPort)) 62: 1 lost; Ok(Found) 88: 1 address 1, 1.1 address 2",
    },
];

type TestHost = Host<SimBus<Tracer<Vec<u8>>>>;

/// Rounds until a quiet one, ten at most.
fn settle(host: &mut TestHost) -> Result<(), Fail> {
    let mut round = Round::Worked;
    for _ in 0..10 {
        if round == Round::Worked {
            round = host.round()?;
        }
    }
    Ok(())
}

/// What is listed, by rising path.
fn put_listing(text: &mut String, entries: &[(PortPath, Finding)]) -> Result<(), AllocError> {
    let mut separator = "";
    for (path, finding) in entries {
        match finding {
            Finding::Device(device) => {
                write!(
                    text,
                    "{separator}{} address {}",
                    path.text(),
                    device.address.number()
                )?;
            }
            Finding::Refused(cause) => write!(text, "{separator}{} {cause}", path.text())?,
        }
        separator = ", ";
    }
    Ok(())
}

/// What a row's looks come to.
fn told(alloc: Global, row: &Row) -> Result<String, Fail> {
    let mut plan = plan_text(alloc, 10_000, row.tables)?;
    plan.push_str(DEVICES.concat(alloc)?.as_str())?;
    let mut host = Host::new(alloc, bus_of(alloc, plan.as_str())?);
    host.bus_mut().apply_next_event()?;
    settle(&mut host)?;
    let mut text = String::new(alloc);
    put_listing(&mut text, host.tree()?.entries())?;
    for name in row.looks {
        if let Some(path) = PortPath::from_text(name) {
            write!(text, "; {:?}", host.look(&path))?;
            write!(text, " {}: ", host.bus().attempts())?;
            settle(&mut host)?;
            put_listing(&mut text, host.tree()?.entries())?;
        }
    }
    Ok(text)
}

#[test]
fn looks_at_ports(rt: HostRuntime) -> Result<(), Fail> {
    for row in ROWS {
        let told = told(rt.alloc(), row)?;
        assert_eq!(rt; told.as_str(), row.told, "{}", row.about);
    }
    Ok(())
}
