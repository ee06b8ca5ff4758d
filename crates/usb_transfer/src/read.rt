//! IN.
ghost use Rattle.std.specs.Prelude.{◌≡◌, ◌<◌, ◌≤◌, MatchResult, true, length, IfOk};
ghost use Rattle.usb_bus.specs.Traces.{Spends, StepRun, Steps};
ghost use Rattle.usb_bus.specs.OutcomeKinds.{outcome_with};
ghost use Rattle.usb_packet.specs.Toggles.{other};
ghost use Rattle.usb_transfer.specs.Calls.{AsksIn};
ghost use Rattle.usb_transfer.specs.HeardTries.{AfterFirst, further_bound};
ghost use Rattle.usb_transfer.specs.Transactions.{BusTold, IsTarget, in_attempt, transaction_bound};
ghost use Rattle.usb_world.specs.Worlds.{FitsMaximum};

use crate::attempt::attempt_of_in;
use crate::heard_outcome::heard_as;
use crate::tries::{Tries, Turn};
use crate::{Done, Target, TransFault};
use arrayvec::ArrayVec;
use usb_bus::{Bus, Outcome, OutcomeKind};
use usb_packet::Toggle;

/// Asks an endpoint, 0 to 15, for one data packet (8.5), until one of the awaited toggle comes.
///
/// A packet of the other toggle is a repeat: it is discarded. The toggle changes exactly if the
/// call is done. If no address was ever held twice, the packet is the next one that the device
/// at the target's address has for the endpoint: each comes once.
///
/// # Errors
///
/// - `Stalled`: the endpoint answered STALL.
/// - `Busy`: NAKs and repeats reached 256.
/// - `NoAnswer`: there were three errors in a row.
/// - `Bus`: the bus has failed.
#[inline(always)]
pub fn data_in<B: Bus>(
    bus: &mut B,
    target: Target,
    ep: u8,
    toggle: &mut Toggle,
) -> Result<Done, TransFault>
    requires target { IsTarget target }
    requires endpoint { ep < 16 }
    ensures any_bus { Spends B.spent B.ports transaction_bound bus.old bus.new
        × BusTold result (B.failed bus.new) }
    ensures steps { B.modelled ≡ true → Steps B.world B.trace transaction_bound bus.old bus.new }
    ensures asks { B.modelled ≡ true
        → AsksIn target ep toggle.old (B.world bus.old) result (B.world bus.new) }
    ensures toggle { MatchResult result (λ _. toggle.new ≡ other toggle.old)
        (λ _. toggle.new ≡ toggle.old) }
    ensures fits { IfOk result (λ bytes. length bytes ≤ target.max) }
{
    let mut room = ArrayVec::new();
    match bus.attempt_into(&attempt_of_in(target, ep), &mut room) {
        Ok(first) => read_on(bus, target, ep, toggle, first, room),
        Err(fault) => Err(TransFault::Bus(fault)),
    }
}

/// Goes on with an IN whose first attempt had this outcome, as `data_in` does.
pub(crate) fn data_in_from<B: Bus>(
    bus: &mut B,
    target: Target,
    ep: u8,
    toggle: &mut Toggle,
    first: Outcome,
) -> Result<Done, TransFault>
    requires endpoint { IsTarget target × (ep < 16) }
    requires fits { FitsMaximum target.max first }
    ensures any_bus { Spends B.spent B.ports further_bound bus.old bus.new
        × BusTold result (B.failed bus.new) }
    ensures asks { B.modelled ≡ true → AfterFirst (in_attempt target ep) first
        (B.world bus.old) (B.trace bus.old)
        (λ old text. StepRun transaction_bound old text (B.world bus.new) (B.trace bus.new)
        × AsksIn target ep toggle.old old result (B.world bus.new)) }
    ensures toggle { MatchResult result (λ _. toggle.new ≡ other toggle.old)
        (λ _. toggle.new ≡ toggle.old) }
    ensures fits { IfOk result (λ bytes. length bytes ≤ target.max) }
{
    let mut room = ArrayVec::new();
    let kind = OutcomeKind::put(first, &mut room);
    read_on(bus, target, ep, toggle, kind, room)
}

/// The same, where the data of the first outcome are in the room.
#[inline(always)]
fn read_on<B: Bus>(
    bus: &mut B,
    target: Target,
    ep: u8,
    toggle: &mut Toggle,
    first: OutcomeKind,
    room: ArrayVec<u8, 64>,
) -> Result<Done, TransFault>
    requires endpoint { IsTarget target × (ep < 16) }
    requires fits { FitsMaximum target.max (outcome_with first room) }
    ensures any_bus { Spends B.spent B.ports further_bound bus.old bus.new
        × BusTold result (B.failed bus.new) }
    ensures asks { B.modelled ≡ true → AfterFirst (in_attempt target ep)
        (outcome_with first room) (B.world bus.old) (B.trace bus.old)
        (λ old text. StepRun transaction_bound old text (B.world bus.new) (B.trace bus.new)
        × AsksIn target ep toggle.old old result (B.world bus.new)) }
    ensures toggle { MatchResult result (λ _. toggle.new ≡ other toggle.old)
        (λ _. toggle.new ≡ toggle.old) }
    ensures fits { IfOk result (λ bytes. length bytes ≤ target.max) }
{
    let attempt = attempt_of_in(target, ep);
    let mut tries = Tries::new();
    let mut kind = first;
    let mut room = room;
    'tries: loop {
        if let Turn::Moved = tries.hear(heard_as(*toggle, kind, &room), &room)? {
            *toggle = toggle.other();
            return Ok(Done::data(room));
        }
        match bus.attempt_into(&attempt, &mut room) {
            Ok(next) => kind = next,
            Err(fault) => return Err(TransFault::Bus(fault)),
        }
    }
}
