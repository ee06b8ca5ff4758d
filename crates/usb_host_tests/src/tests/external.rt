//! Requests to a hub at root port 1, and calls on its ports.
use super::devices::{HUB, LOW, PLUG_HUB, PLUG_LOW_BELOW};
use super::hub::{bits, done, read, target};
use std::alloc::{AllocError, Global};
use std::test::Fail;
use usb_hub::{
    DeviceStatus, PipeFault, clear_hub_port, get_status, hub_descriptor, hub_port_status,
    set_address, set_configuration, set_hub_port,
};
use usb_request::feature::{C_PORT_CONNECTION, C_PORT_RESET, PORT_POWER, PORT_RESET};
use usb_sim::{SimBus, Tracer};
use usb_testbus::{plan_text, plugged, trace_of};

/// A hub of two ports that powers itself, its plug, and that of a low-speed function at its first
/// port.
const OWN_POWER: &[&str] = &[HUB, LOW, PLUG_HUB, PLUG_LOW_BELOW];

/// A hub of two ports that is powered by the bus, and its plug.
const BUS_POWER: &[&str] = &[
    "[[device]]
name = \"bus2\"
speed = \"full\"
descriptor = \"120100020900004001000200000100000001\"
configs = [\"090219000101008032090400000109000000070581030100FF\"]
ports = 2
[[event]]
do = \"plug\"
path = \"1\"
device = \"bus2\"
",
];

/// A request, to a hub that has address 1 where it does not give that.
#[derive(Clone, Copy, Debug)]
enum Call {
    /// Address 1 is given at address 0.
    Address,
    /// The configuration of value 1 is set.
    Configure,
    /// The hub's descriptor is read.
    Descriptor,
    /// The hub's status is read.
    Status,
    /// A feature of a port is set.
    Set(u16, u8),
    /// A feature of a port is cleared.
    Clear(u16, u8),
    /// A port's status is read.
    Port(u8),
}

/// Calls on a hub, and what each reports: the bits of a status, the bytes that were read, or a
/// fault.
struct Row {
    hub: &'static [&'static str],
    calls: &'static [(Call, &'static str)],
    /// What goes over the bus for them.
    trace: &'static str,
}

const ROWS: &[Row] = &[
    Row {
        hub: OWN_POWER,
        calls: &[
            (Call::Address, "done"),
            (Call::Configure, "done"),
            (Call::Descriptor, "0929020100000000FF"),
            (Call::Status, "self_powered "),
            (Call::Set(PORT_POWER, 1), "done"),
            (Call::Set(PORT_POWER, 2), "done"),
            (
                Call::Port(1),
                "connected powered low_speed connection_changed ",
            ),
            (Call::Clear(C_PORT_CONNECTION, 1), "done"),
            (Call::Port(1), "connected powered low_speed "),
            (Call::Set(PORT_RESET, 1), "done"),
            (
                Call::Port(1),
                "connected enabled powered low_speed reset_changed ",
            ),
            (Call::Clear(C_PORT_RESET, 1), "done"),
            (Call::Port(2), "powered "),
            (Call::Port(3), "Stalled"),
        ],
        trace: "plug 1 hub
plug 1.1 low
1 SETUP 0.0 / DATA0 0005010000000000 / ACK
2 IN 0.0 / DATA1 - / ACK
3 SETUP 1.0 / DATA0 0009010000000000 / ACK
4 IN 1.0 / DATA1 - / ACK
5 SETUP 1.0 / DATA0 A006002900000900 / ACK
6 IN 1.0 / DATA1 0929020100000000FF / ACK
7 OUT 1.0 / DATA1 - / ACK
8 SETUP 1.0 / DATA0 8000000000000200 / ACK
9 IN 1.0 / DATA1 0100 / ACK
10 OUT 1.0 / DATA1 - / ACK
11 SETUP 1.0 / DATA0 2303080001000000 / ACK
12 IN 1.0 / DATA1 - / ACK
13 SETUP 1.0 / DATA0 2303080002000000 / ACK
14 IN 1.0 / DATA1 - / ACK
15 SETUP 1.0 / DATA0 A300000001000400 / ACK
16 IN 1.0 / DATA1 01030100 / ACK
17 OUT 1.0 / DATA1 - / ACK
18 SETUP 1.0 / DATA0 2301100001000000 / ACK
19 IN 1.0 / DATA1 - / ACK
20 SETUP 1.0 / DATA0 A300000001000400 / ACK
21 IN 1.0 / DATA1 01030000 / ACK
22 OUT 1.0 / DATA1 - / ACK
23 SETUP 1.0 / DATA0 2303040001000000 / ACK
24 IN 1.0 / DATA1 - / ACK
25 SETUP 1.0 / DATA0 A300000001000400 / ACK
26 IN 1.0 / DATA1 03031000 / ACK
27 OUT 1.0 / DATA1 - / ACK
28 SETUP 1.0 / DATA0 2301140001000000 / ACK
29 IN 1.0 / DATA1 - / ACK
30 SETUP 1.0 / DATA0 A300000002000400 / ACK
31 IN 1.0 / DATA1 00010000 / ACK
32 OUT 1.0 / DATA1 - / ACK
33 SETUP 1.0 / DATA0 A300000003000400 / ACK
34 IN 1.0 / STALL
",
    },
    Row {
        hub: BUS_POWER,
        calls: &[(Call::Address, "done"), (Call::Status, "")],
        trace: "plug 1 bus2
1 SETUP 0.0 / DATA0 0005010000000000 / ACK
2 IN 0.0 / DATA1 - / ACK
3 SETUP 1.0 / DATA0 8000000000000200 / ACK
4 IN 1.0 / DATA1 0000 / ACK
5 OUT 1.0 / DATA1 - / ACK
",
    },
];

/// The names of the bits that are set.
fn status_told(
    alloc: Global,
    outcome: Result<DeviceStatus, PipeFault>,
) -> Result<String, AllocError> {
    match outcome {
        Ok(status) => {
            let own = if status.self_powered {
                "self_powered "
            } else {
                ""
            };
            let wakeup = if status.remote_wakeup {
                "remote_wakeup "
            } else {
                ""
            };
            format!(in alloc; "{own}{wakeup}")
        }
        Err(fault) => format!(in alloc; "{fault:?}"),
    }
}

fn told(
    alloc: Global,
    bus: &mut SimBus<Tracer<Vec<u8>>>,
    call: Call,
) -> Result<String, AllocError> {
    let hub = target(1, 64);
    match call {
        Call::Address => done(alloc, set_address(bus, target(0, 8), 1)),
        Call::Configure => done(alloc, set_configuration(bus, hub, 1)),
        Call::Descriptor => read(alloc, hub_descriptor(alloc, bus, hub)),
        Call::Status => status_told(alloc, get_status(alloc, bus, hub)),
        Call::Set(feature, port) => done(alloc, set_hub_port(bus, hub, port, feature)),
        Call::Clear(feature, port) => done(alloc, clear_hub_port(bus, hub, port, feature)),
        Call::Port(port) => match hub_port_status(alloc, bus, hub, port) {
            Ok(status) => bits(alloc, status),
            Err(fault) => format!(in alloc; "{fault:?}"),
        },
    }
}

/// The first call of a row that reports something else, and what it reports.
fn first_other(
    alloc: Global,
    bus: &mut SimBus<Tracer<Vec<u8>>>,
    row: &Row,
) -> Result<Option<String>, AllocError> {
    for (call, wanted) in row.calls {
        let told = told(alloc, bus, *call)?;
        if told.as_str() != *wanted {
            return Ok(Some(format!(in alloc; "{call:?}: {told}")?));
        }
    }
    Ok(None)
}

#[test]
fn hubs_tell_what_they_are_asked(rt: HostRuntime) -> Result<(), Fail> {
    let alloc = rt.alloc();
    for row in ROWS {
        let text = plan_text(alloc, 100, row.hub)?;
        let mut bus = plugged(alloc, text.as_str())?;
        let other = first_other(alloc, &mut bus, row);
        let trace = trace_of(bus);
        assert_eq!(rt; other?, None);
        assert_eq!(rt; str::from_utf8(trace.as_slice()).ok(), Some(row.trace));
    }
    Ok(())
}
