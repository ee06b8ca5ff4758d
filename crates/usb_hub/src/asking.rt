//! The two shapes of a request: one that is answered with data, and one without.
ghost use Rattle.std.specs.Prelude.{◌≡◌, ◌≤◌, length, true, IfOk};
ghost use Rattle.usb_transfer.specs.Transactions.{IsTarget};
ghost use Rattle.usb_request.specs.Layout.{IsToHost, IsToDevice};
ghost use Rattle.usb_transfer.specs.Control.{BusToldIt, control_bound, write_bound};
ghost use Rattle.usb_transfer.specs.Uses.{UsesBus};
ghost use Rattle.usb_bus.specs.Traces.{Steps};
ghost use Rattle.usb_hub.specs.Ownership.{KeepsAddresses};
ghost use Rattle.usb_hub.specs.Addresses.{KeepsAnswered};
ghost use Rattle.usb_hub.specs.Requests.{Queried, ReadAs, Commanded};

use std::alloc::Global;
use usb_transfer::{Bus, PipeFault, Setup, Target, control_in, control_none};

/// Asks for data: at most the bytes that the request's length says.
///
/// # Errors
///
/// Those of `control_in`.
#[tactic(auto, using(crate::proofs::AddressesKept::reads_keeps_addresses))]
pub(crate) fn ask<B: Bus>(
    alloc: Global,
    bus: &mut B,
    target: Target,
    setup: Setup,
) -> Result<Vec<u8>, PipeFault>
    requires target { IsTarget target }
    requires reads { IsToHost setup }
    requires some { 1 ≤ setup.length }
    ensures uses { UsesBus B.modelled (Steps B.world B.trace) B.spent B.ports B.failed
        (control_bound target.max setup.length) (BusToldIt result) bus.old bus.new }
    ensures most { IfOk result (λ bytes. length bytes.items ≤ setup.length) }
    ensures asked { B.modelled ≡ true
        → Queried target setup (B.world bus.old) result (B.world bus.new) }
    ensures addresses { B.modelled ≡ true
        → KeepsAnswered target.addr (B.world bus.old) result (B.world bus.new) }
{
    control_in(alloc, bus, target, setup)
}

/// Asks for data of exactly the bytes that the request's length says.
///
/// # Errors
///
/// A fault of `control_in`, or `Stalled` if the answer has another length.
pub(crate) fn ask_all<B: Bus, const N: usize>(
    alloc: Global,
    bus: &mut B,
    target: Target,
    setup: Setup,
) -> Result<[u8; N], PipeFault>
    requires target { IsTarget target }
    requires reads { IsToHost setup }
    requires some { 1 ≤ setup.length }
    requires size { setup.length ≡ N }
    ensures uses { UsesBus B.modelled (Steps B.world B.trace) B.spent B.ports B.failed
        (control_bound target.max setup.length) (BusToldIt result) bus.old bus.new }
    ensures told { B.modelled ≡ true
        → ReadAs (λ bytes. bytes) target setup (B.world bus.old) result (B.world bus.new) }
    ensures keeps { B.modelled ≡ true → KeepsAddresses (B.world bus.old) (B.world bus.new) }
{
    let answer = ask(alloc, bus, target, setup)?;
    match answer.as_slice().try_into() {
        Ok(bytes) => Ok(bytes),
        Err(_) => Err(PipeFault::Stalled),
    }
}

/// Orders what has no data.
///
/// # Errors
///
/// Those of `control_none`.
pub(crate) fn order<B: Bus>(bus: &mut B, target: Target, setup: Setup) -> Result<(), PipeFault>
    requires target { IsTarget target }
    requires writes { IsToDevice setup }
    requires none { setup.length ≡ 0 }
    ensures uses { UsesBus B.modelled (Steps B.world B.trace) B.spent B.ports B.failed
        write_bound (BusToldIt result) bus.old bus.new }
    ensures ordered { B.modelled ≡ true
        → Commanded target setup (B.world bus.old) result (B.world bus.new) }
{
    control_none(bus, target, setup)
}
