//! The text of a plan.
ghost use Rattle.std.specs.Prelude.{IfErr, IfOk};
ghost use Rattle.usb_device_exports.specs.Linked.{IsPlanOf, IsUnopened};

use crate::fault::OpenFault;
use std::alloc::Global;
use usb_plan::{Plan, PlanFault, read_plan};

/// The plan that these bytes spell.
pub(crate) fn plan_of(alloc: Global, text: &[u8]) -> Result<Plan, OpenFault>
    ensures plan { IfOk result (IsPlanOf text.now) }
    ensures fault { IfErr result (IsUnopened text.now) }
{
    let Ok(text) = str::from_utf8(text) else {
        return Err(OpenFault::NoText);
    };
    match read_plan(alloc, text) {
        Ok(plan) => Ok(plan),
        Err(PlanFault::Memory) => Err(OpenFault::Memory),
        Err(fault) => Err(OpenFault::Plan(fault)),
    }
}
