//! The lines that tell what a plan holds, and those that tell why a text is none.

ghost use Rattle.std.specs.Prelude.{◌≡◌, ◌++◌, IfOk, OnOk, string_bytes};
ghost use Rattle.usb_remarks.specs.Remarks.{remark_of};
ghost use Rattle.usb_plan.specs.Place.{place_text};
ghost use Rattle.usb_diagnosis.specs.Report.{count_line, fault_name, fault_text, first_line, line_if, place_of, plan_lines, plan_report, remark_head, remark_line, remark_lines};

use crate::place::{Spot, push_spot};
use crate::shown::{push_number, push_shown};
use std::alloc::{AllocError, Global};
use usb_plan::{Place, Plan, PlanFault, bound};
use usb_remarks::{Remark, push_remark, remark_of};
use usb_scene::DeviceSpec;

/// Adds a word, a number and the end of the line.
fn push_count(alloc: Global, out: &mut String, word: &str, number: u64) -> Result<(), AllocError>
    ensures { OnOk result
        (string_bytes out.new ≡ string_bytes out.old ++ count_line word.now number) }
{
    out.push_str(word)?;
    out.push_str(" ")?;
    push_number(alloc, out, number)?;
    out.push_str("\n")
}

/// What a plan holds: how many devices, events and damages, and its bound.
#[tactic(auto, unfolding(crate::specs::Report::plan_lines))]
fn plan_lines(alloc: Global, plan: &Plan) -> Result<String, AllocError>
    ensures { IfOk result (λ lines. string_bytes lines ≡ plan_lines plan.now) }
{
    let mut lines = String::new(alloc);
    push_count(alloc, &mut lines, "devices", plan.devices().len() as u64)?;
    push_count(alloc, &mut lines, "events", plan.events().len() as u64)?;
    push_count(alloc, &mut lines, "damages", plan.damages().len() as u64)?;
    push_count(alloc, &mut lines, "bound", bound(plan))?;
    Ok(lines)
}

/// Adds what a remark begins with.
#[tactic(auto, unfolding(crate::specs::Report::remark_head))]
fn push_head(alloc: Global, out: &mut String, name: &str) -> Result<(), AllocError>
    ensures { OnOk result (string_bytes out.new ≡ string_bytes out.old ++ remark_head name.now) }
{
    out.push_str("remark: device \"")?;
    push_shown(alloc, out, name)?;
    out.push_str("\", ")
}

/// Adds the line of a remark.
#[tactic(auto, unfolding(crate::specs::Report::remark_line))]
fn push_line(
    alloc: Global,
    out: &mut String,
    wide: bool,
    spec: &DeviceSpec,
    remark: Remark,
) -> Result<(), AllocError>
    ensures { OnOk result
        (string_bytes out.new ≡ string_bytes out.old ++ remark_line wide spec.now remark) }
{
    push_head(alloc, out, spec.name())?;
    push_remark(alloc, out, spec, wide, remark)?;
    out.push_str("\n")
}

/// Adds the line on a device, if a host refuses it for its bytes, one that takes wide hubs or not.
fn push_line_if(
    alloc: Global,
    out: &mut String,
    wide: bool,
    spec: &DeviceSpec,
) -> Result<(), AllocError>
    ensures { OnOk result (string_bytes out.new
        ≡ string_bytes out.old ++ line_if wide spec.now (remark_of wide spec.now)) }
{
    match remark_of(spec, wide) {
        None => Ok(()),
        Some(remark) => push_line(alloc, out, wide, spec, remark),
    }
}

/// Adds the lines on all such devices.
#[tactic(auto, unfolding(crate::specs::Report::remark_lines))]
fn push_remarks(
    alloc: Global,
    out: &mut String,
    wide: bool,
    devices: &[DeviceSpec],
) -> Result<(), AllocError>
    ensures { OnOk result
        (string_bytes out.new ≡ string_bytes out.old ++ remark_lines wide devices.now) }
{
    'devices: for device in devices {
        push_line_if(alloc, out, wide, device)?;
    }
    Ok(())
}

/// What a plan holds, and remarks on the devices that a host refuses for their bytes.
pub(crate) fn plan_report(alloc: Global, plan: &Plan) -> Result<String, AllocError>
    ensures { IfOk result (λ lines. string_bytes lines ≡ plan_report plan.now) }
{
    let mut lines = plan_lines(alloc, plan)?;
    push_remarks(alloc, &mut lines, plan.wide_hubs(), plan.devices())?;
    Ok(lines)
}

/// Adds the words for an entry.
fn push_place(alloc: Global, out: &mut String, place: Place) -> Result<(), AllocError>
    ensures { OnOk result (string_bytes out.new ≡ string_bytes out.old ++ place_text place) }
{
    let words = place.to_string(alloc)?;
    out.push_str(words.as_str())
}

/// What is wrong with an entry, in the words of the fault.
fn fault_name(fault: PlanFault) -> &'static str
    ensures { result.now ≡ fault_name fault }
{
    match fault {
        PlanFault::Syntax => "syntax",
        PlanFault::OnlyFar(_) => "when is for far alone",
        PlanFault::MissingKey(_) => "missing key",
        PlanFault::BadValue(_) => "bad value",
        PlanFault::BadHex(_) => "bad hex",
        PlanFault::UnknownDevice(_) => "unknown device",
        PlanFault::BadPath(_) => "bad path",
        PlanFault::PortTaken(_) => "port taken",
        PlanFault::PortEmpty(_) => "port empty",
        PlanFault::Memory => "out of memory",
    }
}

/// The entry that a fault is told of.
pub(crate) fn place_of(fault: PlanFault) -> Option<Place>
    ensures { result ≡ place_of fault }
{
    match fault {
        PlanFault::OnlyFar(place)
        | PlanFault::MissingKey(place)
        | PlanFault::BadValue(place)
        | PlanFault::BadHex(place)
        | PlanFault::UnknownDevice(place)
        | PlanFault::BadPath(place)
        | PlanFault::PortTaken(place)
        | PlanFault::PortEmpty(place) => Some(place),
        PlanFault::Syntax | PlanFault::Memory => None,
    }
}

/// Adds the words of a fault, as `plan: device 2: bad value`.
#[tactic(auto, unfolding(crate::specs::Report::fault_text))]
fn push_fault(alloc: Global, out: &mut String, fault: PlanFault) -> Result<(), AllocError>
    ensures { OnOk result (string_bytes out.new ≡ string_bytes out.old ++ fault_text fault) }
{
    out.push_str("plan: ")?;
    if let Some(place) = place_of(fault) {
        push_place(alloc, out, place)?;
        out.push_str(": ")?;
    }
    out.push_str(fault_name(fault))
}

/// The first line of what is told of a text that is no plan: `FILE:LINE: FAULT`.
#[tactic(auto, unfolding(crate::specs::Report::first_line))]
pub(crate) fn first_line(
    alloc: Global,
    file: &str,
    spot: Spot,
    fault: PlanFault,
) -> Result<String, AllocError>
    ensures { IfOk result (λ line. string_bytes line ≡ first_line file.now spot fault) }
{
    let mut line = String::from_str(alloc, file)?;
    push_spot(alloc, &mut line, spot)?;
    line.push_str(": ")?;
    push_fault(alloc, &mut line, fault)?;
    line.push_str("\n")?;
    Ok(line)
}
