//! Laws of transactions that no call says of itself, for those above.
//!
//! Each call does nothing; what it ensures is for proofs to cite.
ghost use Rattle.std.specs.Prelude.{◌≡◌, ◌≢◌, ℕ, List, Option, Result, Err, false, true, length};
ghost use Rattle.usb_packet.specs.declared.Toggle.{Toggle};
ghost use Rattle.usb_packet.specs.declared.Toggle.TheVariants.{One};
ghost use Rattle.usb_request.specs.Layout.{setup_of};
ghost use Rattle.usb_world.specs.PlainAttempts.{Attempt as AnAttempt};
ghost use Rattle.usb_world.specs.declared.types.Outcome.{Outcome as AnOutcome};
ghost use Rattle.usb_world.specs.Courses.{is_harmless};
ghost use Rattle.usb_world.specs.Devices.{EachWas};
ghost use Rattle.usb_world.specs.AttemptPackets.{IsSettled};
ghost use Rattle.usb_world.specs.Steps.{Course};
ghost use Rattle.usb_world.specs.Worlds.{World};
ghost use Rattle.usb_transfer.specs.declared.heard_outcome.HeardOutcome.{HeardOutcome as AHeardOutcome};
ghost use Rattle.usb_transfer.specs.declared.trans_fault.TransFault.{TransFault as AFault};
ghost use Rattle.usb_transfer.specs.declared.target.Target.{Target as ATarget};
ghost use Rattle.usb_transfer.specs.Answerers.{HadOne, IsAnswer};
ghost use Rattle.usb_transfer.specs.MadeAttempts.{IsOnly, TransactionAttempts};
ghost use Rattle.usb_transfer.specs.HeardOutcomes.{heard_as, heard_when_sent, polled_as, set_up_as};
ghost use Rattle.usb_transfer.specs.Losses.{begins_no_stretch, LossesIn, LosesNone};
ghost use Rattle.usb_transfer.specs.TransactionLeaves.{SourceBetween, SinkBetween};
ghost use Rattle.usb_transfer.specs.AttemptLogs.{AttemptLog, KeepsTrying, TransactionDone};
ghost use Rattle.usb_transfer.specs.AttemptLogs.{Transacted, Polled};
ghost use Rattle.usb_transfer.specs.Transactions.{setup_attempt, in_attempt, out_attempt};

/// A transaction makes one attempt, again and again, and no other step. If the bus gave up, it
/// was this attempt that it refused.
pub fn what_a_transaction_attempts()
    ensures trail { (a : AnAttempt) (outcomes : List AnOutcome) (old new : World)
        → AttemptLog a old outcomes new → Course (IsOnly a) old new }
    ensures whole { (hear : AnOutcome → AHeardOutcome) (a : AnAttempt)
        (result : Result (List ℕ) AFault) (old new : World) → Transacted hear a old result new
        → TransactionAttempts (IsOnly a) old result new }
    ensures polled { (toggle : Toggle) (a : AnAttempt) (result : Result (Option (List ℕ)) AFault)
        (old new : World) → Polled toggle a old result new
        → TransactionAttempts (IsOnly a) old result new }
{}

/// A transaction that ended in a STALL, or in too many NAKs and repeats, was answered by a device,
/// and one had the target's address before (8.5). (PORT_RESET sent to address 0 apart.) It holds
/// where no address was ever held twice.
pub fn who_had_the_address()
    ensures set_up { (t : ATarget) (bytes : List ℕ) (fault : AFault) (old new : World)
        → length bytes ≡ 8 → (is_harmless (setup_of bytes) ≡ false → t.addr ≢ 0)
        → IsSettled old.roots → IsAnswer fault
        → Transacted set_up_as (setup_attempt t bytes) old (Err fault) new
        → new.shared ≡ false → HadOne t old }
    ensures into { (t : ATarget) (ep : ℕ) (awaited : Toggle) (fault : AFault) (old new : World)
        → IsSettled old.roots → IsAnswer fault
        → Transacted (heard_as awaited) (in_attempt t ep) old (Err fault) new
        → new.shared ≡ false → HadOne t old }
    ensures out { (t : ATarget) (ep : ℕ) (toggle : Toggle) (bytes : List ℕ) (fault : AFault)
        (old new : World) → IsSettled old.roots → IsAnswer fault
        → Transacted heard_when_sent (out_attempt t ep toggle bytes) old (Err fault) new
        → new.shared ≡ false → HadOne t old }
    ensures polled { (t : ATarget) (ep : ℕ) (toggle : Toggle) (fault : AFault) (old new : World)
        → IsSettled old.roots → IsAnswer fault
        → Polled toggle (in_attempt t ep) old (Err fault) new
        → new.shared ≡ false → HadOne t old }
{}

/// Between any two attempts of a bulk transaction the two ends are level or one is a packet ahead
/// (5.8, 8.6), if no address was ever held twice. So it is of a poll of an endpoint that gives
/// packets (5.7).
pub fn what_is_so_between_bulk_attempts()
    ensures into { (t : ATarget) (ep : ℕ) (awaited : Toggle) (outcomes : List AnOutcome)
        (old now : World) → IsSettled old.roots
        → AttemptLog (in_attempt t ep) old outcomes now → KeepsTrying (heard_as awaited) outcomes
        → now.shared ≡ false → EachWas (SourceBetween t ep awaited) old now }
    ensures polled { (t : ATarget) (ep : ℕ) (awaited : Toggle) (outcomes : List AnOutcome)
        (old now : World) → IsSettled old.roots
        → AttemptLog (in_attempt t ep) old outcomes now → KeepsTrying (polled_as awaited) outcomes
        → now.shared ≡ false → EachWas (SourceBetween t ep awaited) old now }
    ensures out { (t : ATarget) (ep : ℕ) (toggle : Toggle) (bytes : List ℕ)
        (outcomes : List AnOutcome) (old now : World) → IsSettled old.roots
        → AttemptLog (out_attempt t ep toggle bytes) old outcomes now
        → KeepsTrying heard_when_sent outcomes
        → now.shared ≡ false → EachWas (SinkBetween t ep toggle bytes) old now }
{}

/// The status stage of a request without data counts a loss in exactly one case (9.4.6). The host
/// got it, and the device did not see the host's ACK, at which it was to take an address. OUT
/// counts none, nor does IN of another endpoint, nor SETUP, unless it clears a change of
/// connection: there the losses of another stretch begin.
pub fn address_losses_of_a_transaction()
    ensures into { (t : ATarget) (result : Result (List ℕ) AFault) (old new : World)
        → IsSettled old.roots → TransactionDone (heard_as One) (in_attempt t 0) old result new
        → new.shared ≡ false → EachWas (LossesIn t result old new) old new }
    ensures reads { (t : ATarget) (awaited : Toggle) (result : Result (List ℕ) AFault)
        (old new : World) → IsSettled old.roots
        → TransactionDone (heard_as awaited) (in_attempt t 0) old result new
        → new.shared ≡ false → EachWas (LosesNone t old new) old new }
    ensures others { (t : ATarget) (ep : ℕ) (old new : World) (outcomes : List AnOutcome)
        → ep ≢ 0 → IsSettled old.roots → AttemptLog (in_attempt t ep) old outcomes new
        → new.losses ≡ old.losses }
    ensures set_up { (t : ATarget) (bytes : List ℕ) (old new : World)
        (outcomes : List AnOutcome) → begins_no_stretch (setup_of bytes) ≡ true
        → IsSettled old.roots → AttemptLog (setup_attempt t bytes) old outcomes new
        → new.losses ≡ old.losses }
    ensures out { (t : ATarget) (ep : ℕ) (toggle : Toggle) (bytes : List ℕ) (old new : World)
        (outcomes : List AnOutcome) → IsSettled old.roots
        → AttemptLog (out_attempt t ep toggle bytes) old outcomes new → new.losses ≡ old.losses }
{}
