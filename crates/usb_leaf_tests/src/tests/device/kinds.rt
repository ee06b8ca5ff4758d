//! The devices of the tests.
use std::alloc::{AllocError, Global};
use std::rc::Rc;
use usb_device::{Bytes, OwnAnswer, OwnRequest, OwnRequests, Stalls, Texts};
use usb_function::Device;
use usb_scene::{DeviceSpec, HubSpec, Name, has_hub_class};

/// A request that a device refuses.
#[derive(Clone, Copy, Debug, PartialEq)]
pub(super) enum Refused {
    Device,
    Address,
    Config,
    SetConfig,
    Status,
    Hub,
    String,
}

/// The ports of a hub and its hub descriptor.
#[derive(Clone, Copy)]
pub(super) struct HubText {
    pub ports: u8,
    /// The descriptor is made from the number of ports.
    pub usual: bool,
    pub descriptor: &'static [u8],
}

/// What a device does about a request of its own.
#[derive(Clone, Copy)]
pub(super) enum Own {
    RefuseData,
    RefuseStatus,
    Give(&'static [u8]),
    GiveTaken,
    Take,
}

/// A request of a device's own: its type and its number, and what else it must have.
#[derive(Clone, Copy)]
pub(super) struct OwnText {
    pub request_type: u8,
    pub request: u8,
    pub value: Option<u16>,
    pub index: Option<u16>,
    pub length: Option<u16>,
    pub answer: Own,
}

/// What is said of a device.
#[derive(Clone, Copy)]
pub(super) struct Plan {
    pub name: &'static str,
    pub low: bool,
    pub descriptor: &'static [u8],
    pub configs: &'static [&'static [u8]],
    pub strings: &'static [&'static [u8]],
    pub self_powered: bool,
    pub busy: bool,
    pub silent: bool,
    pub naks: u8,
    pub refused: Option<Refused>,
    pub hub: Option<HubText>,
    pub source: &'static [u8],
    pub halt_after: Option<u16>,
    pub requests: &'static [OwnText],
}

/// A function whose packets on endpoint 0 have at most 8 bytes.
pub(super) const FUNCTION: Plan = Plan {
    name: "fn",
    low: false,
    descriptor: &[18, 1, 0, 2, 0, 0, 0, 8, 52, 18, 120, 86, 0, 1, 0, 0, 0, 1],
    configs: &[&[9, 2, 18, 0, 1, 3, 0, 128, 50, 9, 4, 0, 0, 0, 255, 0, 0, 0]],
    strings: &[],
    self_powered: false,
    busy: false,
    silent: false,
    naks: 0,
    refused: None,
    hub: None,
    source: &[],
    halt_after: None,
    requests: &[],
};

/// A vendor's request, whatever its value, its index and its length.
const VENDOR: OwnText = OwnText {
    request_type: 0x40,
    request: 1,
    value: None,
    index: None,
    length: None,
    answer: Own::Take,
};

/// A function with requests of its own.
pub(super) const OWN: Plan = Plan {
    name: "own",
    requests: &[
        VENDOR,
        OwnText {
            request: 2,
            answer: Own::RefuseData,
            ..VENDOR
        },
        OwnText {
            request: 3,
            answer: Own::RefuseStatus,
            ..VENDOR
        },
        OwnText {
            request: 4,
            length: Some(2),
            ..VENDOR
        },
        OwnText {
            request_type: 0xc0,
            value: Some(7),
            index: Some(8),
            answer: Own::Give(&[1, 2, 3, 4, 5, 6, 7, 8, 9]),
            ..VENDOR
        },
        OwnText {
            request_type: 0xc0,
            answer: Own::GiveTaken,
            ..VENDOR
        },
        OwnText {
            request_type: 0xc0,
            request: 2,
            answer: Own::RefuseData,
            ..VENDOR
        },
        // A row that gives is for no request that writes, and one that takes for none that reads.
        OwnText {
            request: 5,
            answer: Own::Give(&[1]),
            ..VENDOR
        },
        OwnText {
            request_type: 0xc0,
            request: 5,
            answer: Own::Take,
            ..VENDOR
        },
        // What a hub is asked is refused, and what each device is asked is answered as ever.
        OwnText {
            request_type: 0xa0,
            request: 6,
            answer: Own::Give(&[9]),
            ..VENDOR
        },
        OwnText {
            request_type: 0xa3,
            request: 0,
            answer: Own::Give(&[0, 0, 0, 0]),
            ..VENDOR
        },
        OwnText {
            request_type: 0x23,
            request: 3,
            answer: Own::Take,
            ..VENDOR
        },
        OwnText {
            request_type: 0x23,
            request: 1,
            answer: Own::Take,
            ..VENDOR
        },
        OwnText {
            request_type: 0x80,
            request: 0,
            answer: Own::Give(&[9, 9]),
            ..VENDOR
        },
    ],
    ..FUNCTION
};

/// The same, which begins each transfer with two NAKs.
pub(super) const OWN_NAKS: Plan = Plan {
    name: "own naks",
    naks: 2,
    ..OWN
};

/// The same, which refuses to give its device descriptor.
pub(super) const STALLING: Plan = Plan {
    name: "stalling",
    refused: Some(Refused::Device),
    ..FUNCTION
};

/// A function that begins each transfer with two NAKs.
pub(super) const NAKS: Plan = Plan {
    name: "naks",
    naks: 2,
    ..FUNCTION
};

/// A function that is always busy.
pub(super) const BUSY: Plan = Plan {
    name: "busy",
    busy: true,
    ..FUNCTION
};

/// A function that never answers.
pub(super) const SILENT: Plan = Plan {
    name: "silent",
    silent: true,
    ..FUNCTION
};

/// A function with two configurations, the values 1 and 2, and two strings; its packets have at most 64 bytes.
pub(super) const TEXTS: Plan = Plan {
    name: "text",
    descriptor: &[18, 1, 0, 2, 0, 0, 0, 64, 52, 18, 120, 86, 0, 1, 0, 1, 0, 2],
    configs: &[
        &[9, 2, 18, 0, 1, 1, 0, 128, 250, 9, 4, 0, 0, 0, 255, 0, 0, 0],
        &[9, 2, 18, 0, 1, 2, 0, 128, 50, 9, 4, 0, 0, 0, 255, 0, 0, 0],
    ],
    strings: &[&[4, 3, 9, 4], &[8, 3, 65, 0, 34, 0, 10, 0]],
    ..FUNCTION
};

/// The same, which refuses SET_ADDRESS.
pub(super) const NO_ADDRESS: Plan = Plan {
    name: "no address",
    refused: Some(Refused::Address),
    ..TEXTS
};

/// The same, which refuses to give a configuration.
pub(super) const NO_CONFIG: Plan = Plan {
    name: "no config",
    refused: Some(Refused::Config),
    ..TEXTS
};

/// The same, which refuses SET_CONFIGURATION.
pub(super) const NO_SET_CONFIG: Plan = Plan {
    name: "no set config",
    refused: Some(Refused::SetConfig),
    ..TEXTS
};

/// The same, which refuses GET_STATUS.
pub(super) const NO_STATUS: Plan = Plan {
    name: "no status",
    refused: Some(Refused::Status),
    ..TEXTS
};

/// The same, which refuses to give a string.
pub(super) const NO_STRING: Plan = Plan {
    name: "no string",
    refused: Some(Refused::String),
    ..TEXTS
};

/// A function whose maximum on endpoint 0 is none that the standard has; its configuration is two full packets of 8.
pub(super) const ODD_MAXIMUM: Plan = Plan {
    name: "odd maximum",
    descriptor: &[18, 1, 0, 2, 0, 0, 0, 9, 52, 18, 120, 86, 0, 1, 0, 0, 0, 1],
    configs: &[&[9, 2, 16, 0, 1, 1, 0, 128, 50, 7, 36, 1, 2, 3, 4, 5]],
    ..FUNCTION
};

/// A function whose device descriptor is two full packets.
pub(super) const SHORT: Plan = Plan {
    name: "short",
    descriptor: &[16, 1, 0, 2, 0, 0, 0, 8, 52, 18, 120, 86, 0, 1, 0, 0],
    configs: &[],
    ..FUNCTION
};

/// A function whose descriptors have no bytes.
pub(super) const EMPTY: Plan = Plan {
    name: "empty",
    descriptor: &[],
    configs: &[&[]],
    ..FUNCTION
};

/// A function whose configuration is one full packet of 64 bytes.
pub(super) const LONG: Plan = Plan {
    name: "long",
    descriptor: &[18, 1, 0, 2, 0, 0, 0, 64, 52, 18, 120, 86, 0, 1, 0, 0, 0, 1],
    configs: &[&[
        9, 2, 64, 0, 1, 1, 0, 128, 50, 9, 4, 0, 0, 0, 255, 0, 0, 0, 46, 36, 0, 0, 0, 0, 0, 0, 0, 0,
        0, 0, 0, 0, 0, 0, 0, 0, 0, 0, 0, 0, 0, 0, 0, 0, 0, 0, 0, 0, 0, 0, 0, 0, 0, 0, 0, 0, 0, 0,
        0, 0, 0, 0, 0, 0,
    ]],
    ..FUNCTION
};

/// A function with two bulk endpoints of at most 8 bytes a packet, OUT 2 and IN 2: it gives nine bytes, and halts after
/// two packets.
pub(super) const BULK: Plan = Plan {
    name: "bulk",
    descriptor: &[18, 1, 0, 2, 0, 0, 0, 64, 52, 18, 120, 86, 0, 1, 0, 0, 0, 1],
    configs: &[&[
        9, 2, 32, 0, 1, 1, 0, 128, 50, 9, 4, 0, 0, 2, 255, 0, 0, 0, 7, 5, 2, 2, 8, 0, 0, 7, 5, 130,
        2, 8, 0, 0,
    ]],
    source: &[1, 2, 3, 4, 5, 6, 7, 8, 9],
    halt_after: Some(2),
    ..FUNCTION
};

/// A function that halts as late as one can.
pub(super) const LATE_HALT: Plan = Plan {
    name: "late halt",
    source: &[0xaa, 0xbb, 0xcc],
    halt_after: Some(65535),
    ..FUNCTION
};

/// A hub with two ports and its own power.
pub(super) const HUB: Plan = Plan {
    name: "hub2",
    descriptor: &[18, 1, 0, 2, 9, 0, 0, 64, 1, 0, 2, 0, 0, 1, 0, 0, 0, 1],
    configs: &[&[
        9, 2, 25, 0, 1, 1, 0, 192, 0, 9, 4, 0, 0, 1, 9, 0, 0, 0, 7, 5, 129, 3, 1, 0, 255,
    ]],
    self_powered: true,
    hub: Some(HubText {
        ports: 2,
        usual: true,
        descriptor: &[9, 0x29, 2, 1, 0, 0, 0, 0, 0xff],
    }),
    ..FUNCTION
};

/// A hub with seven ports, with power from the bus, which refuses to give its hub descriptor.
pub(super) const BUS_HUB: Plan = Plan {
    name: "bus7",
    configs: &[&[
        9, 2, 25, 0, 1, 1, 0, 128, 50, 9, 4, 0, 0, 1, 9, 0, 0, 0, 7, 5, 129, 3, 1, 0, 255,
    ]],
    self_powered: false,
    refused: Some(Refused::Hub),
    hub: Some(HubText {
        ports: 7,
        usual: true,
        descriptor: &[9, 0x29, 7, 1, 0, 0, 0, 0, 0xff],
    }),
    ..HUB
};

/// A hub with seven ports whose hub descriptor is one byte.
pub(super) const ODD_HUB: Plan = Plan {
    name: "odd hub",
    hub: Some(HubText {
        ports: 7,
        usual: false,
        descriptor: &[0],
    }),
    ..HUB
};

/// A hub with ten ports, which reports its changes in two bytes.
pub(super) const WIDE_HUB: Plan = Plan {
    name: "hub10",
    configs: &[&[
        9, 2, 25, 0, 1, 1, 0, 192, 0, 9, 4, 0, 0, 1, 9, 0, 0, 0, 7, 5, 129, 3, 2, 0, 255,
    ]],
    hub: Some(HubText {
        ports: 10,
        usual: true,
        descriptor: &[11, 0x29, 10, 1, 0, 0, 0, 0, 0, 0xff, 0xff],
    }),
    ..HUB
};

/// A hub with two ports, which reports its changes at endpoint 2.
pub(super) const HUB_AT_2: Plan = Plan {
    name: "hub at 2",
    configs: &[&[
        9, 2, 25, 0, 1, 1, 0, 192, 0, 9, 4, 0, 0, 1, 9, 0, 0, 0, 7, 5, 130, 3, 1, 0, 255,
    ]],
    ..HUB
};

/// A low-speed function.
pub(super) const LOW: Plan = Plan {
    name: "low",
    low: true,
    descriptor: &[18, 1, 16, 1, 0, 0, 0, 8, 52, 18, 1, 0, 0, 1, 0, 0, 0, 1],
    configs: &[],
    ..FUNCTION
};

/// A function that differs from a plain one in all but its bulk data.
pub(super) const ODD: Plan = Plan {
    name: "odd",
    low: true,
    strings: &[&[4, 3, 9, 4]],
    self_powered: true,
    busy: true,
    silent: true,
    naks: 200,
    refused: Some(Refused::Address),
    ..FUNCTION
};

/// The bytes themselves; none if there are too many.
fn bytes<const MAX: usize>(alloc: Global, bytes: &[u8]) -> Result<Bytes<MAX>, AllocError> {
    let all = bytes.to_vec(alloc)?;
    if all.len() <= MAX {
        Ok(Bytes::new(all))
    } else {
        Ok(Bytes::new(Vec::new(alloc)))
    }
}

fn texts<const COUNT: usize, const MAX: usize>(
    alloc: Global,
    texts: &[&[u8]],
) -> Result<Texts<COUNT, MAX>, AllocError> {
    let mut all = Texts::new(alloc);
    for text in texts {
        if all.as_slice().len() < COUNT {
            all.push(bytes(alloc, *text)?)?;
        }
    }
    Ok(all)
}

fn stalls(refused: Option<Refused>) -> Stalls {
    let mut stalls = Stalls::none();
    match refused {
        None => {}
        Some(Refused::Device) => stalls.device = true,
        Some(Refused::Address) => stalls.address = true,
        Some(Refused::Config) => stalls.config = true,
        Some(Refused::SetConfig) => stalls.set_config = true,
        Some(Refused::Status) => stalls.status = true,
        Some(Refused::Hub) => stalls.hub = true,
        Some(Refused::String) => stalls.string = true,
    }
    stalls
}

fn own_answer(alloc: Global, answer: Own) -> Result<OwnAnswer, AllocError> {
    Ok(match answer {
        Own::RefuseData => OwnAnswer::RefuseData,
        Own::RefuseStatus => OwnAnswer::RefuseStatus,
        Own::Give(given) => OwnAnswer::Give(bytes(alloc, given)?),
        Own::GiveTaken => OwnAnswer::GiveTaken,
        Own::Take => OwnAnswer::Take,
    })
}

fn requests(alloc: Global, rows: &[OwnText]) -> Result<OwnRequests, AllocError> {
    let mut all = OwnRequests::new(alloc);
    for row in rows {
        if all.as_slice().len() < 64 {
            all.push(OwnRequest {
                request_type: row.request_type,
                request: row.request,
                value: row.value,
                index: row.index,
                length: row.length,
                answer: own_answer(alloc, row.answer)?,
            })?;
        }
    }
    Ok(all)
}

/// A function with its speed, which has no strings yet.
fn function(alloc: Global, plan: &Plan) -> Result<DeviceSpec, AllocError> {
    let name = if plan.name.is_empty() {
        "unnamed"
    } else {
        plan.name
    };
    let name = Name::new(String::from_str(alloc, name)?);
    let descriptor = bytes(alloc, plan.descriptor)?;
    let configs = texts(alloc, plan.configs)?;
    Ok(DeviceSpec::function(name, descriptor, configs).with_low_speed(plan.low))
}

/// The usual hub takes the place of one whose descriptor has other ports.
fn hub_spec(alloc: Global, hub: HubText) -> Result<HubSpec, AllocError> {
    let ports = hub.ports.max(1).min(15);
    let descriptor = bytes(alloc, hub.descriptor)?;
    if !hub.usual && HubSpec::agrees(ports, descriptor.as_slice()) {
        Ok(HubSpec::new(ports, descriptor))
    } else {
        HubSpec::usual(alloc, ports)
    }
}

fn ports(alloc: Global, hub: Option<HubText>) -> Result<Option<HubSpec>, AllocError> {
    match hub {
        Some(hub) => Ok(Some(hub_spec(alloc, hub)?)),
        None => Ok(None),
    }
}

/// The same device with its ports, if it can have them.
fn with_ports(spec: DeviceSpec, hub: Option<HubSpec>) -> DeviceSpec {
    match hub {
        Some(hub) => {
            if !spec.is_low() && has_hub_class(spec.descriptor()) {
                spec.with_hub(hub)
            } else {
                spec
            }
        }
        None => spec,
    }
}

fn with_quirks(spec: DeviceSpec, plan: &Plan) -> DeviceSpec {
    let spec = spec
        .with_self_powered(plan.self_powered)
        .with_busy(plan.busy)
        .with_silent(plan.silent)
        .with_naks(plan.naks.min(200))
        .with_stalls(stalls(plan.refused));
    match plan.halt_after {
        Some(packets) if packets >= 1 => spec.with_halt_after(packets),
        _ => spec,
    }
}

pub(super) fn spec_of(alloc: Global, plan: &Plan) -> Result<DeviceSpec, AllocError> {
    let strings = texts(alloc, plan.strings)?;
    let source = bytes(alloc, plan.source)?;
    let hub = ports(alloc, plan.hub)?;
    let spec = function(alloc, plan)?;
    let requests = requests(alloc, plan.requests)?;
    let spec = spec
        .with_strings(strings)
        .with_source(source)
        .with_requests(requests);
    Ok(with_quirks(with_ports(spec, hub), plan))
}

/// A device that was just plugged.
pub(super) fn new_device(alloc: Global, plan: &Plan) -> Result<Device, AllocError> {
    Device::new(alloc, &Rc::new(alloc, spec_of(alloc, plan)?)?)
}
