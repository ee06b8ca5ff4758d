//! The rule that the bytes of a refused device break.
ghost use Rattle.std.specs.Prelude.{◌≡◌, [], ◌++◌, OnOk, option_copied};
ghost use Rattle.usb_world.specs.PluggedDevices.{device_indexed, index_at, plugged_by};
ghost use Rattle.usb_serve.specs.{tree_after};
ghost use Rattle.usb_drawing.specs.Rules.{index_after, is_bad_configuration, is_cause_of, rule_if, rule_of, rule_text};

use std::alloc::{AllocError, Global};
use usb_enum::{Cause, Finding, Request};
use usb_port::PortPath;
use usb_remarks::{Remark, push_remark, remark_of};
use usb_scene::{DeviceSpec, Plan};
use usb_world::{Action, Change, Event};

/// Adds the rule that the bytes of the device at a path break, if it is refused for them. The listing was made
/// after this number of the plan's events.
pub(crate) fn push_rule(
    alloc: Global,
    out: &mut Vec<u8>,
    plan: &Plan,
    taken: u64,
    entry: &(PortPath, Finding),
) -> Result<(), AllocError>
    ensures { OnOk result (out.new.items
        ≡ out.old.items ++ rule_text plan.now.wide (tree_after plan.now taken entry.now.0)
        entry.now.1) }
{
    match &entry.1 {
        Finding::Device(_) => Ok(()),
        Finding::Refused(cause) => {
            let device = device_at(plan, taken, &entry.0);
            push_rule_of(alloc, out, plan.wide_hubs(), device, *cause)
        }
    }
}

/// Adds the rule that the bytes of what is plugged break.
fn push_rule_of(
    alloc: Global,
    out: &mut Vec<u8>,
    wide: bool,
    device: Option<&DeviceSpec>,
    cause: Cause,
) -> Result<(), AllocError>
    ensures { OnOk result (out.new.items
        ≡ out.old.items ++ rule_of wide (option_copied device.entry) cause) }
{
    match device {
        None => Ok(()),
        Some(spec) => push_rule_if(alloc, out, wide, spec, cause),
    }
}

/// Adds the rule that a device breaks, if it is refused for that.
fn push_rule_if(
    alloc: Global,
    out: &mut Vec<u8>,
    wide: bool,
    spec: &DeviceSpec,
    cause: Cause,
) -> Result<(), AllocError>
    ensures { OnOk result (out.new.items ≡ out.old.items ++ rule_of wide (Some spec.now) cause) }
{
    let Some(remark) = remark_of(spec, wide) else {
        return Ok(());
    };
    if !is_cause_of(remark, cause) {
        return Ok(());
    }
    let mut words = String::from_str(alloc, "; ")?;
    push_remark(alloc, &mut words, spec, wide, remark)?;
    out.extend_from_slice(words.as_bytes())
}

/// Whether a host that comes to the bytes of a remark refuses the device for a cause.
fn is_cause_of(remark: Remark, cause: Cause) -> bool
    ensures { result ≡ is_cause_of remark cause }
{
    match remark {
        Remark::Device(_) => matches!(cause, Cause::BadDevice),
        Remark::Text(index, _) | Remark::Repeated(index) => is_bad_configuration(index, cause),
        Remark::Missing(_) => matches!(cause, Cause::Stalled(Request::Config)),
        Remark::NoPorts | Remark::Hub(_) | Remark::Status => matches!(cause, Cause::BadHub),
    }
}

/// Whether the cause is a bad configuration with this index.
fn is_bad_configuration(index: usize, cause: Cause) -> bool
    ensures { result ≡ is_bad_configuration index cause }
{
    match cause {
        Cause::BadConfiguration(number) => usize::from(number) == index,
        _ => false,
    }
}

/// The device that the first events of a plan, so many of them, leave plugged at a path.
fn device_at<'a>(plan: &'a Plan, taken: u64, path: &PortPath) -> Option<&'a DeviceSpec>
    ensures { option_copied result ≡ tree_after plan.now taken path.now }
{
    let events = plan.events();
    let came = events.len().min(taken as usize);
    device_indexed(plan.devices(), index_at(&events[..came], path))
}

/// The device at this index; None without an index, or without a device there.
fn device_indexed(devices: &[DeviceSpec], index: Option<usize>) -> Option<&DeviceSpec>
    ensures { option_copied result ≡ device_indexed devices.now index }
{
    devices.get(index?)
}

/// The index of the device that the events leave plugged at a path.
fn index_at(events: &[Event], path: &PortPath) -> Option<usize>
    ensures { result ≡ index_at (plugged_by [] events.now) path.now }
{
    let mut index = None;
    'events: for event in events {
        index = index_after(path, index, &event.action);
    }
    index
}

/// The index of the device at a path after an action, from the one before.
fn index_after(path: &PortPath, before: Option<usize>, action: &Action) -> Option<usize>
    ensures { result ≡ index_after path.now before action.now }
{
    match action {
        Action::Change(Change::Plug(place, device)) if *place == *path => Some(*device),
        Action::Change(Change::Unplug(place)) if path.numbers().starts_with(place.numbers()) =>
            None,
        _ => before,
    }
}
