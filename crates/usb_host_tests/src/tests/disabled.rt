//! Root port 1 is disabled behind the host's back: what the call after it reports, and what is known then.
use super::devices::{HUB, LOW, PLUG_HUB, PLUG_LOW_BELOW};
use std::alloc::{AllocError, Global};
use std::str;
use std::test::Fail;
use usb_bus::Bus;
use usb_enum::Finding;
use usb_host::{Host, HostFault};
use usb_port::PortPath;
use usb_request::feature::PORT_ENABLE;
use usb_sim::{SimBus, Tracer};
use usb_testbus::{bus_of, plan_text, trace_of};

/// A hub of two ports that powers itself, and a low-speed function at its first port.
const HUB_AND_LOW: &[&str] = &[HUB, LOW, PLUG_HUB, PLUG_LOW_BELOW];

/// A function with bulk endpoints OUT 2 and IN 2.
const BULK: &[&str] = &[
    "[[device]]
name = \"bulk\"
speed = \"full\"
descriptor = \"120100020000004034127856000100000001\"
configs = [\"0902200001010080320904000002FF0000000705020240000007058202400000\"]
[[event]]
do = \"plug\"
path = \"1\"
device = \"bulk\"
",
];

/// A call of the host.
#[derive(Clone, Copy, Debug)]
enum Call {
    Round,
    /// One byte, 01, is sent to the device at root port 1.
    Send,
    /// One packet is received from it.
    Receive,
    /// Its halts are cleared.
    Clear,
}

struct Row {
    about: &'static str,
    devices: &'static [&'static str],
    /// The rounds that the host made since the first event came.
    rounds: u8,
    /// The lines of trace that they made.
    lines: usize,
    /// The calls once the port is disabled.
    calls: &'static [Call],
    /// What they report, each attempt of theirs, and what is known at last.
    told: &'static str,
}

const ROWS: &[Row] = &[
    Row {
        about: "a hub, behind the round that found it",
        devices: HUB_AND_LOW,
        rounds: 1,
        lines: 65,
        calls: &[Call::Round],
        told: "Ok(Worked)
64 IN 1.1 / none
65 IN 1.1 / none
66 IN 1.1 / none
1 refused lost
",
    },
    Row {
        about: "a hub, behind a quiet round",
        devices: HUB_AND_LOW,
        rounds: 2,
        lines: 66,
        calls: &[Call::Round, Call::Round],
        told: "Ok(Worked)
Ok(Quiet)
65 IN 1.1 / none
66 IN 1.1 / none
67 IN 1.1 / none
1 refused lost
",
    },
    Row {
        about: "a hub, behind two quiet rounds",
        devices: HUB_AND_LOW,
        rounds: 3,
        lines: 67,
        calls: &[Call::Round, Call::Send],
        told: "Ok(Worked)
Err(Transfer(NoDevice))
66 IN 1.1 / none
67 IN 1.1 / none
68 IN 1.1 / none
1 refused lost
",
    },
    Row {
        about: "a function that is sent to",
        devices: BULK,
        rounds: 1,
        lines: 17,
        calls: &[Call::Send, Call::Round],
        told: "Err(Transfer(NoAnswer))
Ok(Quiet)
17 OUT 1.2 / DATA0 01 / none
18 OUT 1.2 / DATA0 01 / none
19 OUT 1.2 / DATA0 01 / none
1 address 1
",
    },
    Row {
        about: "a function that is received from",
        devices: BULK,
        rounds: 1,
        lines: 17,
        calls: &[Call::Receive, Call::Receive],
        told: "Err(Transfer(NoAnswer))
Err(Transfer(Broken))
17 IN 1.2 / none
18 IN 1.2 / none
19 IN 1.2 / none
1 address 1
",
    },
    Row {
        about: "a function whose halts are cleared, once a receive broke its pipe",
        devices: BULK,
        rounds: 1,
        lines: 17,
        calls: &[Call::Receive, Call::Clear],
        told: "Err(Transfer(NoAnswer))
Err(Transfer(NoAnswer))
17 IN 1.2 / none
18 IN 1.2 / none
19 IN 1.2 / none
20 SETUP 1.0 / DATA0 0201000082000000 / none
21 SETUP 1.0 / DATA0 0201000082000000 / none
22 SETUP 1.0 / DATA0 0201000082000000 / none
1 address 1
",
    },
];

type TestHost = Host<SimBus<Tracer<Vec<u8>>>>;

/// A host that has made n rounds since the first event came.
fn host_for(alloc: Global, row: &Row) -> Result<TestHost, Fail> {
    let text = plan_text(alloc, 10000, row.devices)?;
    let mut host = Host::new(alloc, bus_of(alloc, text.as_str())?);
    host.round()?;
    host.bus_mut().apply_next_event()?;
    for _ in 0..row.rounds {
        host.round()?;
    }
    Ok(host)
}

/// Clears PORT_ENABLE of root port 1.
fn disable(bus: &mut SimBus<Tracer<Vec<u8>>>) {
    let roots = bus.root_ports();
    prove!(roots >= 1);
    bus.root_clear(1, PORT_ENABLE);
}

/// What a call reports; of a receive that is done nothing.
fn call_told(alloc: Global, host: &mut TestHost, call: Call) -> Result<String, AllocError> {
    let Some(path) = PortPath::root(1) else {
        return Ok(String::new(alloc));
    };
    match call {
        Call::Round => format!(in alloc; "{:?}\n", host.round()),
        Call::Send => format!(in alloc; "{:?}\n", host.send(&path, &[1])),
        Call::Receive => match host.receive(&path, 1) {
            Ok(_) => Ok(String::new(alloc)),
            Err(fault) => format!(in alloc; "Err({fault:?})\n"),
        },
        Call::Clear => format!(in alloc; "{:?}\n", host.clear_halt(&path)),
    }
}

fn calls_told(alloc: Global, host: &mut TestHost, calls: &[Call]) -> Result<String, AllocError> {
    let mut text = String::new(alloc);
    for call in calls {
        text.push_str(call_told(alloc, host, *call)?.as_str())?;
    }
    Ok(text)
}

/// A line for each path and what is known there.
fn known(alloc: Global, host: &TestHost) -> Result<String, HostFault> {
    let mut text = String::new(alloc);
    for (path, finding) in host.tree()?.entries() {
        match finding {
            Finding::Device(device) => {
                write!(
                    text,
                    "{} address {}\n",
                    path.text(),
                    device.address.number()
                )?;
            }
            Finding::Refused(cause) => write!(text, "{} refused {cause}\n", path.text())?,
        }
    }
    Ok(text)
}

/// The lines of a trace after n.
fn lines_behind(alloc: Global, trace: &[u8], count: usize) -> Result<String, AllocError> {
    let mut text = String::new(alloc);
    for line in str::from_utf8(trace).unwrap_or("").lines().skip(count) {
        text.push_str(line)?;
        text.push('\n')?;
    }
    Ok(text)
}

/// What is reported and known once the port is disabled, and the attempts between.
fn told(alloc: Global, row: &Row) -> Result<String, Fail> {
    let mut host = host_for(alloc, row)?;
    disable(host.bus_mut());
    let answers = calls_told(alloc, &mut host, row.calls);
    let known = known(alloc, &host);
    let trace = trace_of(host.into_bus());
    let attempts = lines_behind(alloc, trace.as_slice(), row.lines)?;
    Ok(format!(in alloc; "{}{attempts}{}", answers?, known?)?)
}

#[test]
fn calls_behind_a_port_that_was_disabled(rt: HostRuntime) -> Result<(), Fail> {
    for row in ROWS {
        let told = told(rt.alloc(), row)?;
        assert_eq!(rt; told.as_str(), row.told, "{}", row.about);
    }
    Ok(())
}
