//! What is found at root port 1.
use arrayvec::ArrayVec;
use std::alloc::{AllocError, Global};
use std::test::Fail;
use usb_bus::Bus;
use usb_enum::{Accepted, Cause, Finding, HostOptions, Place, Request, enumerate};
use usb_hub::{HubPort, port_status, set_port};
use usb_port::AddressPool;
use usb_request::feature::PORT_POWER;
use usb_sim::{SimBus, Tracer};
use usb_testbus::{bus_of, plan_text};

const PORT: HubPort = HubPort::Root(1);

/// The keys of a full-speed device with its name, and the plug of it.
const NAMED: &str = "[[device]]
name = \"fn\"
speed = \"full\"
";

const PLUG: &str = "[[event]]
do = \"plug\"
path = \"1\"
device = \"fn\"
";

struct Row {
    about: &'static str,
    /// The other keys of the device.
    device: &'static str,
    /// Whether the port has power, so that the device is plugged.
    powered: bool,
    /// What the port gives, in mA.
    supply: u16,
    /// Whether the host takes wide hubs.
    wide: bool,
    /// How many bytes of configurations it takes of a device.
    device_bytes: Option<usize>,
    told: &'static str,
}

/// A port that has power and gives all it may, and a host that takes no wide hubs.
const USUAL: Row = Row {
    about: "",
    device: "",
    powered: true,
    supply: 500,
    wide: false,
    device_bytes: None,
    told: "",
};

const ROWS: &[Row] = &[
    Row {
        about: "the first configuration that fits is chosen",
        device: "descriptor = \"120100020000004034127856000100010002\"
configs = [\"0902120001010080FA0904000000FF000000\", \"0902120001020080320904000000FF000000\"]
",
        supply: 100,
        told: "1 full 120100020000004034127856000100010002, 0902120001010080FA0904000000FF000000, chosen 0902120001020080320904000000FF000000, no product; said 120100020000004034127856000100010002; 24 attempts, enabled: true, next address 2",
        ..USUAL
    },
    Row {
        about: "two configurations of one value",
        device: "descriptor = \"120100020000004034127856000100010002\"
configs = [\"0902120001010080320904000000FF000000\", \"0902120001010080190904000000FF000000\"]
",
        told: "refused bad configuration 1; said 120100020000004034127856000100010002; 20 attempts, enabled: false, next address 1",
        ..USUAL
    },
    Row {
        about: "a need of 102 mA",
        device: "descriptor = \"120100020000004034127856000100000001\"
configs = [\"0902120001010080330904000000FF000000\"]
",
        supply: 100,
        told: "refused no power; said 120100020000004034127856000100000001; 14 attempts, enabled: false, next address 1",
        ..USUAL
    },
    Row {
        about: "one configuration of two",
        device: "descriptor = \"120100020000004034127856000100010002\"
configs = [\"0902120001010080320904000000FF000000\"]
",
        told: "refused stalled config; said 120100020000004034127856000100010002; 16 attempts, enabled: false, next address 1",
        ..USUAL
    },
    Row {
        about: "a device of no configuration",
        device: "descriptor = \"120100020000004034127856000100000000\"
configs = [\"0902120001010080320904000000FF000000\"]
",
        told: "refused bad device; said 120100020000004034127856000100000000; 8 attempts, enabled: false, next address 1",
        ..USUAL
    },
    Row {
        about: "an empty port",
        device: "descriptor = \"120100020000004034127856000100000001\"
configs = []
",
        powered: false,
        told: "refused lost; said nothing; 0 attempts, enabled: false, next address 1",
        ..USUAL
    },
    Row {
        about: "a device descriptor that is malformed in its first eight bytes",
        device: "descriptor = \"1201000200000041\"
configs = []
",
        told: "refused bad device; said 1201000200000041; 3 attempts, enabled: false, next address 1",
        ..USUAL
    },
    Row {
        about: "a hub of ten ports, by a host that takes no wide hubs",
        device: "descriptor = \"120100020900004001000200000100000001\"
configs = [\"09021900010100C000090400000109000000070581030200FF\"]
ports = 10
",
        told: "refused bad hub; said 120100020900004001000200000100000001; 19 attempts, enabled: false, next address 1",
        ..USUAL
    },
    Row {
        about: "the same, by a host that takes wide hubs",
        device: "descriptor = \"120100020900004001000200000100000001\"
configs = [\"09021900010100C000090400000109000000070581030200FF\"]
ports = 10
",
        wide: true,
        told: "1 full 120100020900004001000200000100000001, chosen 09021900010100C000090400000109000000070581030200FF, no product; said 120100020900004001000200000100000001; 42 attempts, enabled: true, next address 2",
        ..USUAL
    },
    Row {
        about: "one whose status endpoint has room for one byte of two",
        device: "descriptor = \"120100020900004001000200000100000001\"
configs = [\"09021900010100C000090400000109000000070581030100FF\"]
ports = 10
",
        wide: true,
        told: "refused bad hub; said 120100020900004001000200000100000001; 19 attempts, enabled: false, next address 1",
        ..USUAL
    },
    Row {
        about: "a hub of two ports whose status endpoint has the number 2, by a host that takes no wide hubs",
        device: "descriptor = \"120100020900004001000200000100000001\"
configs = [\"09021900010100C000090400000109000000070582030100FF\"]
ports = 2
",
        told: "refused bad hub; said 120100020900004001000200000100000001; 16 attempts, enabled: false, next address 1",
        ..USUAL
    },
    Row {
        about: "the same, by a host that takes wide hubs",
        device: "descriptor = \"120100020900004001000200000100000001\"
configs = [\"09021900010100C000090400000109000000070582030100FF\"]
ports = 2
",
        wide: true,
        told: "1 full 120100020900004001000200000100000001, chosen 09021900010100C000090400000109000000070582030100FF, no product; said 120100020900004001000200000100000001; 26 attempts, enabled: true, next address 2",
        ..USUAL
    },
    Row {
        about: "two configurations of 18 bytes, by a host that takes 36",
        device: "descriptor = \"120100020000004034127856000100010002\"
configs = [\"0902120001010080FA0904000000FF000000\", \"0902120001020080320904000000FF000000\"]
",
        supply: 100,
        device_bytes: Some(36),
        told: "1 full 120100020000004034127856000100010002, 0902120001010080FA0904000000FF000000, chosen 0902120001020080320904000000FF000000, no product; said 120100020000004034127856000100010002; 24 attempts, enabled: true, next address 2",
        ..USUAL
    },
    Row {
        about: "the same, by a host that takes 35",
        device: "descriptor = \"120100020000004034127856000100010002\"
configs = [\"0902120001010080FA0904000000FF000000\", \"0902120001020080320904000000FF000000\"]
",
        supply: 100,
        device_bytes: Some(35),
        told: "refused too large; said 120100020000004034127856000100010002; 17 attempts, enabled: false, next address 1",
        ..USUAL
    },
    Row {
        about: "the same, by a host that takes 17",
        device: "descriptor = \"120100020000004034127856000100010002\"
configs = [\"0902120001010080FA0904000000FF000000\", \"0902120001020080320904000000FF000000\"]
",
        supply: 100,
        device_bytes: Some(17),
        told: "refused too large; said 120100020000004034127856000100010002; 11 attempts, enabled: false, next address 1",
        ..USUAL
    },
];

/// Gives power to root port 1, and lets the next event come.
fn power(bus: &mut SimBus<Tracer<Vec<u8>>>) -> Result<(), Fail> {
    let roots = bus.root_ports();
    prove!(roots >= 1);
    set_port(bus, PORT, PORT_POWER)?;
    bus.apply_next_event()?;
    Ok(())
}

/// The address, the speed and the descriptors of a device, and its product string.
fn put_device(alloc: Global, text: &mut String, device: &Accepted) -> Result<(), Fail> {
    let speed = if device.low { "low" } else { "full" };
    let bytes = hex::encode_upper(alloc, device.bytes.as_slice())?;
    write!(text, "{} {speed} {bytes}", device.address.number())?;
    for (index, config) in device.configs.as_slice().iter().enumerate() {
        let chosen = if index == device.chosen {
            "chosen "
        } else {
            ""
        };
        let bytes = hex::encode_upper(alloc, config.as_slice())?;
        write!(text, ", {chosen}{bytes}")?;
    }
    text.push_str(match device.strings.product {
        Some(_) => ", a product",
        None => ", no product",
    })?;
    Ok(())
}

/// What a copy of a finding reports.
fn finding_told(alloc: Global, finding: &Finding) -> Result<String, Fail> {
    let mut text = String::new(alloc);
    match finding.try_clone(alloc)? {
        Finding::Device(device) => put_device(alloc, &mut text, &device)?,
        Finding::Refused(cause) => write!(text, "refused {cause}")?,
    }
    Ok(text)
}

/// Whether root port 1 is enabled.
fn is_enabled(alloc: Global, bus: &mut SimBus<Tracer<Vec<u8>>>) -> bool {
    let roots = bus.root_ports();
    prove!(roots >= 1);
    match port_status(alloc, bus, PORT) {
        Ok(status) => status.enabled,
        Err(_) => false,
    }
}

/// The bytes that a device said of itself.
fn said_told(alloc: Global, said: &[u8]) -> Result<String, Fail> {
    if said.is_empty() {
        return Ok(String::from_str(alloc, "nothing")?);
    }
    Ok(hex::encode_upper(alloc, said)?)
}

/// What is found, what the device said, and what the port and the free addresses are then.
fn found(
    alloc: Global,
    bus: &mut SimBus<Tracer<Vec<u8>>>,
    supply: u16,
    options: HostOptions,
) -> Result<String, Fail> {
    let mut pool = AddressPool::new();
    let roots = bus.root_ports();
    prove!(roots >= 1);
    let place = Place {
        tier: 2,
        supply,
        options,
    };
    let mut said = ArrayVec::new();
    let finding = enumerate(alloc, bus, &mut pool, PORT, place, &mut said)?;
    let text = finding_told(alloc, &finding)?;
    let said = said_told(alloc, said.as_slice())?;
    let attempts = bus.attempts();
    let enabled = is_enabled(alloc, bus);
    let next = pool.take().map_or(0, |address| address.number());
    Ok(format!(in alloc;
        "{text}; said {said}; {attempts} attempts, enabled: {enabled}, next address {next}"
    )?)
}

/// The same; the device is plugged if the port has power.
fn found_for(alloc: Global, bus: &mut SimBus<Tracer<Vec<u8>>>, row: &Row) -> Result<String, Fail> {
    if row.powered {
        power(bus)?;
    }
    let options = HostOptions {
        wide_hubs: row.wide,
        device_bytes: row.device_bytes,
    };
    found(alloc, bus, row.supply, options)
}

fn told(alloc: Global, row: &Row) -> Result<String, Fail> {
    let text = plan_text(alloc, 100, &["wide_hubs = true\n", NAMED, row.device, PLUG])?;
    let mut bus = bus_of(alloc, text.as_str())?;
    found_for(alloc, &mut bus, row)
}

#[test]
fn findings_at_a_root_port(rt: HostRuntime) -> Result<(), Fail> {
    for row in ROWS {
        let told = told(rt.alloc(), row)?;
        assert_eq!(rt; told.as_str(), row.told, "{}", row.about);
    }
    Ok(())
}

/// A cause, and its words.
const WORDS: [(Cause, &str); 3] = [
    (Cause::Stalled(Request::SetConfig), "stalled set config"),
    (Cause::BadConfiguration(3), "bad configuration 3"),
    (Cause::TooLarge, "too large"),
];

#[test]
fn causes_print_as_words(rt: HostRuntime) -> Result<(), Fail> {
    for (cause, words) in WORDS {
        let told = cause.to_string(rt.alloc())?;
        assert_eq!(rt; told.as_str(), words, "{cause:?}");
    }
    Ok(())
}
