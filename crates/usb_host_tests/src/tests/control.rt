//! Reads of a driver's own from the device at a path, hubs too, and its writes to it.
use super::devices::{HUB, LOW, PLUG_HUB, PLUG_LOW_BELOW};
use std::alloc::Global;
use std::test::Fail;
use usb_host::{Host, HostFault, Setup};
use usb_port::PortPath;
use usb_sim::{SimBus, Tracer};
use usb_testbus::{bus_of, plan_text};

/// A hub with a function at its first port, their plugs, and damage after the attempts that find them: an acknowledged
/// SETUP that the host does not see, and an IN that never comes.
const PLAN: &[&str] = &[
    HUB,
    LOW,
    PLUG_HUB,
    PLUG_LOW_BELOW,
    "[[damage]]
attempt = 84
packet = 3
how = \"lose\"
[[damage]]
attempt = 89
packet = 1
how = \"lose\"
[[damage]]
attempt = 90
packet = 1
how = \"lose\"
[[damage]]
attempt = 91
packet = 1
how = \"lose\"
",
];

/// A read, what it reports, and the attempts made so far.
struct Row {
    about: &'static str,
    path: &'static str,
    setup: [u8; 8],
    told: &'static str,
    attempts: u64,
}

const ROWS: &[Row] = &[
    Row {
        about: "a hub that refuses",
        path: "1",
        setup: [0xA0, 0, 0, 0, 0, 0, 4, 0],
        told: "stalled",
        attempts: 66,
    },
    Row {
        about: "a port's status",
        path: "1",
        setup: [0xA3, 0, 0, 0, 1, 0, 4, 0],
        told: "03030000",
        attempts: 69,
    },
    Row {
        about: "a device descriptor in three packets",
        path: "1.1",
        setup: [0x80, 6, 0, 1, 0, 0, 18, 0],
        told: "120110010000000834120100000100000001",
        attempts: 74,
    },
    Row {
        about: "its first bytes alone",
        path: "1.1",
        setup: [0x80, 6, 0, 1, 0, 0, 5, 0],
        told: "1201100100",
        attempts: 77,
    },
    Row {
        about: "no byte wanted: no data stage",
        path: "1.1",
        setup: [0x80, 6, 0, 1, 0, 0, 0, 0],
        told: "",
        attempts: 79,
    },
    Row {
        about: "a request that the device does not know",
        path: "1.1",
        setup: [0xC0, 1, 0, 0, 0, 0, 1, 0],
        told: "stalled",
        attempts: 81,
    },
    Row {
        about: "the same without data",
        path: "1.1",
        setup: [0xC0, 1, 0, 0, 0, 0, 0, 0],
        told: "stalled",
        attempts: 83,
    },
    Row {
        about: "a port without a device",
        path: "1.2",
        setup: [0x80, 6, 0, 1, 0, 0, 18, 0],
        told: "no device",
        attempts: 83,
    },
    Row {
        about: "a port below no hub",
        path: "1.1.1",
        setup: [0x80, 6, 0, 1, 0, 0, 18, 0],
        told: "no device",
        attempts: 83,
    },
    Row {
        about: "the SETUP again",
        path: "1",
        setup: [0x80, 8, 0, 0, 0, 0, 1, 0],
        told: "01",
        attempts: 87,
    },
    Row {
        about: "no answer",
        path: "1",
        setup: [0x80, 8, 0, 0, 0, 0, 1, 0],
        told: "no answer",
        attempts: 91,
    },
    Row {
        about: "the next read is whole",
        path: "1",
        setup: [0x80, 8, 0, 0, 0, 0, 1, 0],
        told: "01",
        attempts: 94,
    },
];

type TestHost = Host<SimBus<Tracer<Vec<u8>>>>;

/// A host that has found both devices, in 64 attempts.
fn settled(alloc: Global) -> Result<TestHost, Fail> {
    let plan = plan_text(alloc, 10_000, PLAN)?;
    let mut bus = bus_of(alloc, plan.as_str())?;
    bus.apply_next_event()?;
    bus.apply_next_event()?;
    let mut host = Host::new(alloc, bus);
    for _ in 0..10 {
        if host.bus().attempts() < 64 {
            host.round()?;
        }
    }
    Ok(host)
}

/// What a read reports: its bytes in hexadecimal digits, or its fault.
fn told(alloc: Global, host: &mut TestHost, row: &Row) -> Result<String, Fail> {
    let setup = Setup::from_bytes(row.setup);
    let Some(path) = PortPath::from_text(row.path) else {
        return Ok(String::new(alloc));
    };
    if setup.request_type < 128 {
        return Ok(String::new(alloc));
    }
    match host.control_in(&path, setup) {
        Ok(bytes) => Ok(hex::encode_upper(alloc, bytes.as_slice())?),
        Err(HostFault::Transfer(fault)) => Ok(format!(in alloc; "{fault}")?),
        Err(fault) => Ok(format!(in alloc; "{fault:?}")?),
    }
}

#[test]
fn reads_by_path(rt: HostRuntime) -> Result<(), Fail> {
    let mut host = settled(rt.alloc())?;
    for row in ROWS {
        let told = told(rt.alloc(), &mut host, row)?;
        assert_eq!(rt; told.as_str(), row.told, "{}", row.about);
        assert_eq!(rt; host.bus().attempts(), row.attempts, "{}", row.about);
    }
    Ok(())
}

/// A write, what it reports, and the attempts made so far.
struct Write {
    about: &'static str,
    path: &'static str,
    setup: [u8; 8],
    bytes: &'static [u8],
    told: &'static str,
    attempts: u64,
}

const WRITES: &[Write] = &[
    Write {
        about: "a request of a vendor that the device does not know",
        path: "1.1",
        setup: [0x40, 1, 0, 0, 0, 0, 3, 0],
        bytes: &[1, 2, 3],
        told: "stalled",
        attempts: 66,
    },
    Write {
        about: "the same without data",
        path: "1.1",
        setup: [0x40, 1, 0, 0, 0, 0, 0, 0],
        bytes: &[],
        told: "stalled",
        attempts: 68,
    },
    Write {
        about: "an address",
        path: "1.1",
        setup: [0, 5, 9, 0, 0, 0, 0, 0],
        bytes: &[],
        told: "reserved",
        attempts: 68,
    },
    Write {
        about: "a configuration",
        path: "1.1",
        setup: [0, 9, 1, 0, 0, 0, 0, 0],
        bytes: &[],
        told: "reserved",
        attempts: 68,
    },
    Write {
        about: "a setting of an interface",
        path: "1.1",
        setup: [1, 11, 0, 0, 0, 0, 0, 0],
        bytes: &[],
        told: "reserved",
        attempts: 68,
    },
    Write {
        about: "any request to a hub",
        path: "1",
        setup: [0x40, 1, 0, 0, 0, 0, 2, 0],
        bytes: &[1, 2],
        told: "reserved",
        attempts: 68,
    },
    Write {
        about: "a port without a device",
        path: "1.2",
        setup: [0, 5, 9, 0, 0, 0, 0, 0],
        bytes: &[],
        told: "no device",
        attempts: 68,
    },
];

/// What a write reports.
fn written(alloc: Global, host: &mut TestHost, row: &Write) -> Result<String, Fail> {
    let setup = Setup::from_bytes(row.setup);
    let Some(path) = PortPath::from_text(row.path) else {
        return Ok(String::new(alloc));
    };
    if setup.request_type >= 128 || usize::from(setup.length) != row.bytes.len() {
        return Ok(String::new(alloc));
    }
    match host.control_out(&path, setup, row.bytes) {
        Ok(()) => Ok(format!(in alloc; "done")?),
        Err(HostFault::Transfer(fault)) => Ok(format!(in alloc; "{fault}")?),
        Err(fault) => Ok(format!(in alloc; "{fault:?}")?),
    }
}

#[test]
fn writes_by_path(rt: HostRuntime) -> Result<(), Fail> {
    let mut host = settled(rt.alloc())?;
    for row in WRITES {
        let told = written(rt.alloc(), &mut host, row)?;
        assert_eq!(rt; told.as_str(), row.told, "{}", row.about);
        assert_eq!(rt; host.bus().attempts(), row.attempts, "{}", row.about);
    }
    Ok(())
}
