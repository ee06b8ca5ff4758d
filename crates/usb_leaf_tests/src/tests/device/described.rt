//! Devices as they are described.
use super::kinds::{
    BULK, BUS_HUB, EMPTY, FUNCTION, HUB, HUB_AT_2, LATE_HALT, LOW, NO_CONFIG, NO_SET_CONFIG,
    NO_STATUS, NO_STRING, ODD, ODD_HUB, OWN, Own, OwnText, Plan, Refused, SHORT, STALLING, TEXTS,
    WIDE_HUB, new_device, spec_of,
};
use std::alloc::{AllocError, Global};
use std::test::Fail;
use usb_device::{Bytes, OwnAnswer, OwnRequest, Stalls};
use usb_scene::{DeviceSpec, Devices, HubSpec, has_hub_class};

/// Devices of which, one or the other, everything is said that can be said.
const PLANS: &[Plan] = &[
    FUNCTION,
    STALLING,
    TEXTS,
    NO_CONFIG,
    NO_SET_CONFIG,
    NO_STATUS,
    NO_STRING,
    SHORT,
    EMPTY,
    BULK,
    LATE_HALT,
    HUB,
    BUS_HUB,
    ODD_HUB,
    WIDE_HUB,
    HUB_AT_2,
    LOW,
    ODD,
    OWN,
];

fn are_same<const MAX: usize>(texts: &[Bytes<MAX>], plan: &[&[u8]]) -> bool {
    for (text, bytes) in texts.iter().zip(plan) {
        if text.as_slice() != *bytes {
            return false;
        }
    }
    texts.len() == plan.len()
}

fn is_answer(answer: &OwnAnswer, text: Own) -> bool {
    match (answer, text) {
        (OwnAnswer::Give(bytes), Own::Give(given)) => bytes.as_slice() == given,
        (OwnAnswer::RefuseData, Own::RefuseData)
        | (OwnAnswer::RefuseStatus, Own::RefuseStatus)
        | (OwnAnswer::GiveTaken, Own::GiveTaken)
        | (OwnAnswer::Take, Own::Take) => true,
        _ => false,
    }
}

fn is_row(row: &OwnRequest, text: &OwnText) -> bool {
    row.request_type == text.request_type
        && row.request == text.request
        && row.value == text.value
        && row.index == text.index
        && row.length == text.length
        && is_answer(&row.answer, text.answer)
}

/// Whether these are the requests of its own.
fn are_own(spec: &DeviceSpec, plan: &Plan) -> bool {
    let rows = spec.requests().as_slice();
    for (row, text) in rows.iter().zip(plan.requests) {
        if !is_row(row, text) {
            return false;
        }
    }
    rows.len() == plan.requests.len()
}

/// Whether these are the name, the descriptor, the configurations, the strings and the source.
fn texts(spec: &DeviceSpec, plan: &Plan) -> [bool; 5] {
    [
        spec.name() == plan.name,
        spec.descriptor() == plan.descriptor,
        are_same(spec.configs(), plan.configs),
        are_same(spec.strings(), plan.strings),
        spec.source() == plan.source,
    ]
}

/// Whether a request is refused, and no other.
fn is_refused_alone(stalls: Stalls, refused: Option<Refused>) -> bool {
    stalls.device == (refused == Some(Refused::Device))
        && stalls.address == (refused == Some(Refused::Address))
        && stalls.config == (refused == Some(Refused::Config))
        && stalls.set_config == (refused == Some(Refused::SetConfig))
        && stalls.status == (refused == Some(Refused::Status))
        && stalls.hub == (refused == Some(Refused::Hub))
        && stalls.string == (refused == Some(Refused::String))
}

/// Whether these are the ports and the hub descriptor, and the class of hubs where there are some.
fn is_hub_same(spec: &DeviceSpec, plan: &Plan) -> bool {
    match (spec.hub(), plan.hub) {
        (None, None) => !has_hub_class(spec.descriptor()),
        (Some(hub), Some(text)) => {
            has_hub_class(spec.descriptor())
                && hub.ports() == text.ports
                && hub.descriptor() == text.descriptor
        }
        _ => false,
    }
}

/// Whether these are the speed, the power, the quirks of the answers, the halt, the refused requests,
/// the hub and the requests of its own.
fn quirks(spec: &DeviceSpec, plan: &Plan) -> [bool; 9] {
    [
        spec.is_low() == plan.low,
        spec.is_self_powered() == plan.self_powered,
        spec.is_busy() == plan.busy,
        spec.is_silent() == plan.silent,
        spec.naks() == plan.naks,
        spec.halt_after() == plan.halt_after,
        is_refused_alone(spec.stalls(), plan.refused),
        is_hub_same(spec, plan),
        are_own(spec, plan),
    ]
}

type Told = ([bool; 5], [bool; 9], bool);

fn copy_of(alloc: Global, plan: &Plan) -> Result<DeviceSpec, AllocError> {
    spec_of(alloc, plan)?.try_clone(alloc)
}

/// The speed of a device that was just plugged.
fn is_low(alloc: Global, plan: &Plan) -> Result<bool, AllocError> {
    Ok(new_device(alloc, plan)?.is_low())
}

/// What a copy of a description reports, and whether a device that was plugged has the speed.
fn told(alloc: Global, plan: &Plan) -> Result<Told, AllocError> {
    let is_speed = is_low(alloc, plan)? == plan.low;
    let copy = copy_of(alloc, plan)?;
    Ok((texts(&copy, plan), quirks(&copy, plan), is_speed))
}

#[test]
fn devices_are_described(rt: HostRuntime) -> Result<(), Fail> {
    for plan in PLANS {
        let is = told(rt.alloc(), plan)? == ([true; 5], [true; 9], true);
        assert!(rt; is, "{}", plan.name);
    }
    Ok(())
}

/// Which hub descriptors a hub with n ports can have.
#[derive(Clone, Copy)]
struct HubRow {
    about: &'static str,
    ports: u8,
    descriptor: &'static [u8],
    agrees: bool,
}

const USUAL: &[u8] = &[9, 0x29, 2, 1, 0, 0, 0, 0, 0xff];

const HUBS: &[HubRow] = &[
    HubRow {
        about: "as many ports",
        ports: 2,
        descriptor: USUAL,
        agrees: true,
    },
    HubRow {
        about: "other ports",
        ports: 3,
        descriptor: USUAL,
        agrees: false,
    },
    HubRow {
        about: "three bytes",
        ports: 3,
        descriptor: &[9, 0x29, 2],
        agrees: true,
    },
    HubRow {
        about: "one byte",
        ports: 7,
        descriptor: &[0],
        agrees: true,
    },
];

#[test]
fn hub_descriptors_agree(rt: HostRuntime) {
    for row in HUBS {
        let agrees = HubSpec::agrees(row.ports, row.descriptor);
        assert_eq!(rt;
            agrees,
            row.agrees,
            "{} ports: {:?}",
            row.ports, row.descriptor
        );
    }
}

/// Names, and whether a device has them where a function alone is.
const NAMES: &[(&str, bool)] = &[("fn", true), ("other", false)];

/// Whether a function alone has a name, and how many devices that are.
fn is_named(alloc: Global, name: &str) -> Result<(bool, usize), AllocError> {
    let mut devices = Devices::new(alloc);
    devices.push(spec_of(alloc, &FUNCTION)?)?;
    Ok((devices.is_named(name), devices.as_slice().len()))
}

#[test]
fn devices_have_names(rt: HostRuntime) -> Result<(), Fail> {
    for (name, is) in NAMES {
        let (told, count) = is_named(rt.alloc(), *name)?;
        assert!(rt; told == *is && count == 1, "{name}");
    }
    Ok(())
}
