//! The rounds of a host.
use std::alloc::{AllocError, Global};
use std::test::Fail;
use usb_enum::Finding;
use usb_host::Host;
use usb_port::PortPath;
use usb_sim::{SimBus, Tracer};
use usb_testbus::{bus_of, plan_text};

/// A device that never answers, but for its speed.
const SILENT: &str = "[[device]]
name = \"fn\"
descriptor = \"120100020000000834127856000100000001\"
configs = []
silent = true
";

/// It is plugged, and later unplugged.
const EVENTS: &str = "[[event]]
do = \"plug\"
path = \"1\"
device = \"fn\"
[[event]]
do = \"unplug\"
path = \"1\"
after = 100
";

#[derive(Clone, Copy, Debug)]
enum Step {
    Round,
    /// The next event of the plan comes.
    Event,
    /// The attempts made so far are reported.
    Attempts,
    /// The paths and the findings are reported.
    Tree,
}

struct Row {
    about: &'static str,
    limit: u64,
    /// The device's speed.
    speed: &'static str,
    steps: &'static [Step],
    /// What the steps report, and how many attempts the bus has made at last.
    told: &'static str,
}

const ROWS: &[Row] = &[
    Row {
        about: "a silent device is refused, and forgotten when it is gone",
        limit: 100,
        speed: "speed = \"full\"\n",
        steps: &[
            Step::Round,
            Step::Event,
            Step::Round,
            Step::Round,
            Step::Attempts,
            Step::Tree,
            Step::Event,
            Step::Round,
            Step::Tree,
        ],
        told: "Ok(Quiet); Ok(Worked); Ok(Quiet); 3 attempts; tree 1 silent; Ok(Worked); tree; 3 attempts",
    },
    Row {
        about: "a host stops at a fault",
        limit: 2,
        speed: "speed = \"low\"\n",
        steps: &[Step::Event, Step::Round, Step::Round, Step::Tree],
        told: "Err(Bus(Limit)); Err(Stopped); tree; 2 attempts",
    },
];

type TestHost = Host<SimBus<Tracer<Vec<u8>>>>;

fn host_for(alloc: Global, row: &Row) -> Result<TestHost, Fail> {
    let text = plan_text(alloc, row.limit, &[SILENT, row.speed, EVENTS])?;
    Ok(Host::new(alloc, bus_of(alloc, text.as_str())?))
}

/// A finding in words.
fn put_finding(text: &mut String, finding: &Finding) -> Result<(), AllocError> {
    match finding {
        Finding::Device(device) => write!(text, "device {}", device.address.number()),
        Finding::Refused(cause) => write!(text, "{cause}"),
    }
}

/// Each path and what was found there.
fn put_entries(text: &mut String, entries: &[(PortPath, Finding)]) -> Result<(), AllocError> {
    for (path, finding) in entries {
        write!(text, " {} ", path.text())?;
        put_finding(text, finding)?;
    }
    Ok(())
}

/// Adds what a step reports.
fn put_step(text: &mut String, host: &mut TestHost, step: Step) -> Result<(), Fail> {
    match step {
        Step::Round => write!(text, "{:?}; ", host.round())?,
        Step::Event => {
            host.bus_mut().apply_next_event()?;
        }
        Step::Attempts => write!(text, "{} attempts; ", host.bus().attempts())?,
        Step::Tree => {
            text.push_str("tree")?;
            put_entries(text, host.tree()?.entries())?;
            text.push_str("; ")?;
        }
    }
    Ok(())
}

/// What the steps report.
fn steps_told(alloc: Global, host: &mut TestHost, steps: &[Step]) -> Result<String, Fail> {
    let mut text = String::new(alloc);
    for step in steps {
        put_step(&mut text, host, *step)?;
    }
    Ok(text)
}

/// What the steps of a row report, and how many attempts were made at last.
fn told(alloc: Global, row: &Row) -> Result<String, Fail> {
    let mut host = host_for(alloc, row)?;
    let text = steps_told(alloc, &mut host, row.steps);
    let attempts = host.into_bus().attempts();
    Ok(format!(in alloc; "{}{attempts} attempts", text?)?)
}

#[test]
fn rounds_of_a_host(rt: HostRuntime) -> Result<(), Fail> {
    for row in ROWS {
        let told = told(rt.alloc(), row)?;
        assert_eq!(rt; told.as_str(), row.told, "{}", row.about);
    }
    Ok(())
}
