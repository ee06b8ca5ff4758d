//! OUT.
ghost use Rattle.std.specs.Prelude.{◌≡◌, ◌≤◌, ◌<◌, length, MatchResult, true};
ghost use Rattle.usb_bus.specs.Traces.{Spends, StepRun, Steps};
ghost use Rattle.usb_bus.specs.OutcomeKinds.{outcome_with};
ghost use Rattle.usb_packet.specs.Toggles.{other};
ghost use Rattle.usb_transfer.specs.AttemptLogs.{Transacted};
ghost use Rattle.usb_transfer.specs.Calls.{SendsOut};
ghost use Rattle.usb_transfer.specs.HeardOutcomes.{heard_when_sent};
ghost use Rattle.usb_transfer.specs.HeardTries.{AfterFirst, further_bound};
ghost use Rattle.usb_transfer.specs.Transactions.{BusTold, IsTarget, out_attempt};
ghost use Rattle.usb_transfer.specs.Transactions.{transaction_bound};
ghost use Rattle.usb_world.specs.PlainAttempts.{attempt_data};
ghost use Rattle.usb_world.specs.Worlds.{IsAttempt};

use crate::attempt::attempt_of_out;
use crate::heard_outcome::heard_when_sent;
use crate::tries::{Tries, Turn};
use crate::{Done, Target, TransFault};
use arrayvec::ArrayVec;
use usb_bus::{Attempt, Bus, Outcome, OutcomeKind};
use usb_packet::Toggle;

/// Sends one data packet of at most the target's maximum to an endpoint, 0 to 15 (8.5), again
/// with the same toggle until it is acknowledged.
///
/// The toggle changes exactly if the call is done. If no address was ever held twice, the
/// device at the target's address has taken the data then, once.
///
/// # Errors
///
/// - `Stalled`: the endpoint answered STALL.
/// - `Busy`: there were 256 NAKs.
/// - `NoAnswer`: there were three errors in a row.
/// - `Bus`: the bus has failed.
///
/// The data may have been taken all the same, if an ACK was lost.
pub fn data_out<B: Bus>(
    bus: &mut B,
    target: Target,
    ep: u8,
    toggle: &mut Toggle,
    bytes: &[u8],
) -> Result<Done, TransFault>
    requires target { IsTarget target }
    requires endpoint { ep < 16 }
    requires short { length bytes.now ≤ target.max }
    ensures any_bus { Spends B.spent B.ports transaction_bound bus.old bus.new
        × BusTold result (B.failed bus.new) }
    ensures steps { B.modelled ≡ true → Steps B.world B.trace transaction_bound bus.old bus.new }
    ensures sends { B.modelled ≡ true → SendsOut target ep toggle.old bytes.now
        (B.world bus.old) result (B.world bus.new) }
    ensures toggle { MatchResult result (λ _. toggle.new ≡ other toggle.old)
        (λ _. toggle.new ≡ toggle.old) }
{
    let attempt = attempt_of_out(target, ep, *toggle, bytes);
    let mut room = ArrayVec::new();
    match bus.attempt_into(&attempt, &mut room) {
        Ok(first) => send_on(bus, &attempt, toggle, first, room),
        Err(fault) => Err(TransFault::Bus(fault)),
    }
}

/// Goes on with an OUT whose first attempt had this outcome, as `data_out` does.
pub(crate) fn data_out_from<B: Bus>(
    bus: &mut B,
    target: Target,
    ep: u8,
    toggle: &mut Toggle,
    bytes: &[u8],
    first: Outcome,
) -> Result<Done, TransFault>
    requires endpoint { IsTarget target × (ep < 16) }
    requires short { length bytes.now ≤ target.max }
    ensures any_bus { Spends B.spent B.ports further_bound bus.old bus.new
        × BusTold result (B.failed bus.new) }
    ensures sends { B.modelled ≡ true → AfterFirst (out_attempt target ep toggle.old bytes.now)
        first (B.world bus.old) (B.trace bus.old)
        (λ old text. StepRun transaction_bound old text (B.world bus.new) (B.trace bus.new)
        × SendsOut target ep toggle.old bytes.now old result (B.world bus.new)) }
    ensures toggle { MatchResult result (λ _. toggle.new ≡ other toggle.old)
        (λ _. toggle.new ≡ toggle.old) }
{
    let mut room = ArrayVec::new();
    let kind = OutcomeKind::put(first, &mut room);
    send_on(
        bus,
        &attempt_of_out(target, ep, *toggle, bytes),
        toggle,
        kind,
        room,
    )
}

/// Makes the attempt of an OUT until its packet is acknowledged. Its first outcome was of this kind, with what is in
/// the room.
fn send_on<B: Bus>(
    bus: &mut B,
    attempt: &Attempt,
    toggle: &mut Toggle,
    first: OutcomeKind,
    room: ArrayVec<u8, 64>,
) -> Result<Done, TransFault>
    requires { IsAttempt (attempt_data attempt.now) }
    ensures any_bus { Spends B.spent B.ports further_bound bus.old bus.new
        × BusTold result (B.failed bus.new) }
    ensures sends { B.modelled ≡ true → AfterFirst (attempt_data attempt.now)
        (outcome_with first room) (B.world bus.old) (B.trace bus.old)
        (λ old text. StepRun transaction_bound old text (B.world bus.new) (B.trace bus.new)
        × Transacted heard_when_sent (attempt_data attempt.now) old result (B.world bus.new)) }
    ensures toggle { MatchResult result (λ _. toggle.new ≡ other toggle.old)
        (λ _. toggle.new ≡ toggle.old) }
{
    let mut tries = Tries::new();
    let mut kind = first;
    let mut room = room;
    'tries: loop {
        let heard = heard_when_sent(kind, &room);
        if let Turn::Moved = tries.hear(heard, &ArrayVec::new())? {
            *toggle = toggle.other();
            return Ok(Done::nothing());
        }
        match bus.attempt_into(attempt, &mut room) {
            Ok(next) => kind = next,
            Err(fault) => return Err(TransFault::Bus(fault)),
        }
    }
}
