//! Calls on root port 1, and requests to the function that is plugged there.
ghost use Rattle.std.specs.Prelude.{◌≤◌, ◌<◌};
ghost use Rattle.usb_transfer.specs.Transactions.{IsTarget};

use super::devices::{FUNCTION, PLUG_FUNCTION};
use std::alloc::{AllocError, Global};
use std::test::Fail;
use usb_bus::Bus;
use usb_hub::{
    HubPort, PipeFault, PortStatus, Target, clear_port, get_config, get_device, get_string,
    port_status, set_address, set_configuration, set_port,
};
use usb_request::feature::{C_PORT_CONNECTION, C_PORT_RESET, PORT_POWER, PORT_RESET};
use usb_sim::{SimBus, Tracer};
use usb_testbus::{bus_of, plan_text, trace_of};

#[derive(Clone, Copy, Debug)]
enum Call {
    /// The next event of the plan comes.
    Event,
    /// PORT_POWER is set.
    Power,
    /// PORT_RESET is set.
    Reset,
    /// C_PORT_CONNECTION is cleared.
    ClearConnection,
    /// C_PORT_RESET is cleared.
    ClearReset,
    /// The port's status is read.
    Status,
    /// The first eight bytes of the device descriptor are read at address 0.
    Head,
    /// Address 1 is given at address 0.
    Address,
    /// The device descriptor is read at address 1, as is all that follows.
    Device,
    /// The configuration of index 0 is read.
    Config,
    /// The configuration of value 1 is set.
    Configure,
    /// String 1 is read.
    Text,
}

/// A call, and what it reports: the bits of the status, the bytes that were read, or a fault.
struct Row {
    call: Call,
    told: &'static str,
}

const ROWS: &[Row] = &[
    Row {
        call: Call::Power,
        told: "done",
    },
    Row {
        call: Call::Event,
        told: "came",
    },
    Row {
        call: Call::Status,
        told: "connected powered connection_changed ",
    },
    Row {
        call: Call::ClearConnection,
        told: "done",
    },
    Row {
        call: Call::Reset,
        told: "done",
    },
    Row {
        call: Call::Status,
        told: "connected enabled powered reset_changed ",
    },
    Row {
        call: Call::ClearReset,
        told: "done",
    },
    Row {
        call: Call::Head,
        told: "1201000200000040",
    },
    Row {
        call: Call::Address,
        told: "done",
    },
    Row {
        call: Call::Device,
        told: "120100020000004034127856000100000001",
    },
    Row {
        call: Call::Config,
        told: "0902120001010080320904000000FF000000",
    },
    Row {
        call: Call::Configure,
        told: "done",
    },
    Row {
        call: Call::Text,
        told: "Stalled",
    },
];

/// What goes over the bus for these calls.
const TRACE: &str = "plug 1 fn
1 SETUP 0.0 / DATA0 8006000100000800 / ACK
2 IN 0.0 / DATA1 1201000200000040 / ACK
3 OUT 0.0 / DATA1 - / ACK
4 SETUP 0.0 / DATA0 0005010000000000 / ACK
5 IN 0.0 / DATA1 - / ACK
6 SETUP 1.0 / DATA0 8006000100001200 / ACK
7 IN 1.0 / DATA1 120100020000004034127856000100000001 / ACK
8 OUT 1.0 / DATA1 - / ACK
9 SETUP 1.0 / DATA0 8006000200001200 / ACK
10 IN 1.0 / DATA1 0902120001010080320904000000FF000000 / ACK
11 OUT 1.0 / DATA1 - / ACK
12 SETUP 1.0 / DATA0 0009010000000000 / ACK
13 IN 1.0 / DATA1 - / ACK
14 SETUP 1.0 / DATA0 800601030904FF00 / ACK
15 IN 1.0 / STALL
";

const PORT: HubPort = HubPort::Root(1);

/// A target at full speed.
pub(super) fn target(addr: u8, max: u8) -> Target
    requires addr { addr < 128 }
    requires least { 1 ≤ max }
    requires most { max ≤ 64 }
    ensures { IsTarget result }
{
    Target {
        addr,
        max,
        low: false,
        pre: false,
    }
}

pub(super) fn done(alloc: Global, outcome: Result<(), PipeFault>) -> Result<String, AllocError> {
    match outcome {
        Ok(()) => String::from_str(alloc, "done"),
        Err(fault) => format!(in alloc; "{fault:?}"),
    }
}

pub(super) fn read(
    alloc: Global,
    outcome: Result<Vec<u8>, PipeFault>,
) -> Result<String, AllocError> {
    match outcome {
        Ok(bytes) => hex::encode_upper(alloc, bytes.as_slice()),
        Err(fault) => format!(in alloc; "{fault:?}"),
    }
}

/// The names of the bits that are set.
pub(super) fn bits(alloc: Global, status: PortStatus) -> Result<String, AllocError> {
    let mut text = String::new(alloc);
    for (is_set, name) in [
        (status.connected, "connected "),
        (status.enabled, "enabled "),
        (status.powered, "powered "),
        (status.low_speed, "low_speed "),
        (status.connection_changed, "connection_changed "),
        (status.enable_changed, "enable_changed "),
        (status.reset_changed, "reset_changed "),
    ] {
        if is_set {
            text.push_str(name)?;
        }
    }
    Ok(text)
}

fn port_told(
    alloc: Global,
    bus: &mut SimBus<Tracer<Vec<u8>>>,
    call: Call,
) -> Result<String, AllocError> {
    let roots = bus.root_ports();
    prove!(roots >= 1);
    match call {
        Call::Power => done(alloc, set_port(bus, PORT, PORT_POWER)),
        Call::Reset => done(alloc, set_port(bus, PORT, PORT_RESET)),
        Call::ClearConnection => done(alloc, clear_port(bus, PORT, C_PORT_CONNECTION)),
        Call::ClearReset => done(alloc, clear_port(bus, PORT, C_PORT_RESET)),
        _ => match port_status(alloc, bus, PORT) {
            Ok(status) => bits(alloc, status),
            Err(fault) => format!(in alloc; "{fault:?}"),
        },
    }
}

fn told(
    alloc: Global,
    bus: &mut SimBus<Tracer<Vec<u8>>>,
    call: Call,
) -> Result<String, AllocError> {
    let new = target(0, 8);
    let addressed = target(1, 64);
    match call {
        Call::Event => {
            let came = bus.apply_next_event().is_ok();
            String::from_str(alloc, if came { "came" } else { "none" })
        }
        Call::Head => read(alloc, get_device(alloc, bus, new, 8)),
        Call::Address => done(alloc, set_address(bus, new, 1)),
        Call::Device => read(alloc, get_device(alloc, bus, addressed, 18)),
        Call::Config => read(alloc, get_config(alloc, bus, addressed, 0, 18)),
        Call::Configure => done(alloc, set_configuration(bus, addressed, 1)),
        Call::Text => read(alloc, get_string(alloc, bus, addressed, 1, 0x0409)),
        _ => port_told(alloc, bus, call),
    }
}

/// The first call that reports something else than its row, and what it reports.
fn first_other(
    alloc: Global,
    bus: &mut SimBus<Tracer<Vec<u8>>>,
) -> Result<Option<String>, AllocError> {
    for row in ROWS {
        let told = told(alloc, bus, row.call)?;
        if told.as_str() != row.told {
            return Ok(Some(format!(in alloc; "{:?}: {told}", row.call)?));
        }
    }
    Ok(None)
}

#[test]
fn calls_tell_what_came(rt: HostRuntime) -> Result<(), Fail> {
    let alloc = rt.alloc();
    let text = plan_text(alloc, 100, &[FUNCTION, PLUG_FUNCTION])?;
    let mut bus = bus_of(alloc, text.as_str())?;
    let other = first_other(alloc, &mut bus);
    let trace = trace_of(bus);
    assert_eq!(rt; other?, None);
    assert_eq!(rt; str::from_utf8(trace.as_slice()).ok(), Some(TRACE));
    Ok(())
}
