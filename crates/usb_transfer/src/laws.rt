//! Laws of whole transfers that no call's own clause says.
//!
//! Those of which attempts were made hold always; the others hold where no address was ever held
//! twice, which the last world tells. Each call does nothing; what it ensures is for proofs to
//! cite.
ghost use Rattle.std.specs.Prelude.{◌≡◌, ◌≢◌, ℕ, List, Bool, Option, Result, Err, false, take};
ghost use Rattle.arrayvec.specs.ArrayVec.{ArrayVec};
ghost use Rattle.std.specs.Global.{Vec as AVec};
ghost use Rattle.usb_request.specs.declared.setup.Setup.{Setup as ARequest};
ghost use Rattle.usb_request.specs.Layout.{IsToHost, bytes_of, setup_of};
ghost use Rattle.usb_request.specs.Requests.{clear_endpoint_halt};
ghost use Rattle.usb_world.specs.AttemptPackets.{IsSettled};
ghost use Rattle.usb_world.specs.Worlds.{World};
ghost use Rattle.usb_world.specs.Courses.{is_harmless};
ghost use Rattle.usb_world.specs.Devices.{EachWas};
ghost use Rattle.usb_transfer.specs.declared.target.Target.{Target as ATarget};
ghost use Rattle.usb_transfer.specs.Answerers.{HadOne};
ghost use Rattle.usb_transfer.specs.MadeAttempts.{IsOnly};
ghost use Rattle.usb_transfer.specs.Transactions.{in_attempt};
ghost use Rattle.usb_transfer.specs.declared.fault.PipeFault.{PipeFault as AFault};
ghost use Rattle.usb_transfer.specs.Stages.{Reads, Writes};
ghost use Rattle.usb_transfer.specs.End.{packet_target};
ghost use Rattle.usb_transfer.specs.Moves.{WhileSending, SendsAt};
ghost use Rattle.usb_packet.specs.Toggles.{flips};
ghost use Rattle.usb_transfer.specs.Attempts.{IsOfTransfer, TransferAttempts};
ghost use Rattle.usb_transfer.specs.EndpointPipes.{PipeState as APipeState, Sends, Receives};
ghost use Rattle.usb_transfer.specs.EndpointPipes.{Clears, PipePolls, halt_address};
ghost use Rattle.usb_transfer.specs.InterruptPipes.{Interrupt as APipe, Polls};
ghost use Rattle.usb_transfer.specs.Leaves.{IsTransferAnswer, SendingLeaves};
ghost use Rattle.usb_transfer.specs.Reports.{PollsInTurn, ReportsLeave};

/// At each moment of a send the bytes before the packet that is on its way have joined what the
/// device took, and that packet has or has not: the two ends are level, or the device is one packet
/// ahead (5.8, 8.6). Each attempt of a send is made at such a moment (`what_a_pipe_attempts`).
pub fn what_is_so_while_sending()
    ensures { (bytes : List ℕ) (pipe : APipeState) (old now : World) → IsSettled old.roots
        → (moment : WhileSending (packet_target pipe.target pipe.max)
        pipe.ep pipe.toggle bytes old now) → now.shared ≡ false
        → EachWas (SendingLeaves moment.sent (take pipe.max moment.rest)
        (flips moment.packets pipe.toggle) pipe) old now }
{}

/// A transfer that ended in a STALL, in too many NAKs and repeats, or with data for which there was
/// no memory, was answered by a device, and one had the target's address before. (PORT_RESET sent
/// to address 0 apart.)
pub fn who_had_the_address_of_a_transfer()
    ensures reads { (t : ATarget) (request : ARequest) (fault : AFault) (old new : World)
        → IsToHost request → setup_of (bytes_of request) ≡ request
        → IsSettled old.roots → IsTransferAnswer fault → Reads t request old (Err fault) new
        → new.shared ≡ false → HadOne t old }
    ensures writes { (t : ATarget) (request : ARequest) (fault : AFault) (old new : World)
        → setup_of (bytes_of request) ≡ request
        → (is_harmless request ≡ false → t.addr ≢ 0)
        → IsSettled old.roots → IsTransferAnswer fault → Writes t request old (Err fault) new
        → new.shared ≡ false → HadOne t old }
    ensures sends { (bytes : List ℕ) (pipe : APipeState) (fault : AFault) (left : APipeState)
        (old new : World) → IsTransferAnswer fault → Sends bytes pipe old (Err fault) left new
        → new.shared ≡ false → HadOne pipe.target old }
    ensures receives { (wanted : ℕ) (pipe : APipeState) (fault : AFault) (left : APipeState)
        (old new : World) → IsTransferAnswer fault → Receives wanted pipe old (Err fault) left new
        → new.shared ≡ false → HadOne pipe.target old }
    ensures polls { (pipe : APipe) (fault : AFault) (left : APipe) (old new : World)
        → IsSettled old.roots → IsTransferAnswer fault → Polls pipe old (Err fault) left new
        → new.shared ≡ false → HadOne pipe.target old }
{}

/// The same of a poll through a pipe to an endpoint: one that was answered by STALL, or by too many
/// repeats.
pub fn who_had_the_address_of_a_poll()
    ensures { (pipe : APipeState) (fault : AFault) (left : APipeState) (old new : World)
        → IsTransferAnswer fault → PipePolls pipe old (Err fault) left new
        → new.shared ≡ false → HadOne pipe.target old }
{}

/// A control transfer attempts nothing but SETUPs of just its request, and behind them INs of
/// endpoint 0 and OUTs of no bytes to it (8.5.3). Where the bus gave up, it was one of these that
/// it refused.
pub fn what_a_control_transfer_attempts()
    ensures reads { (t : ATarget) (request : ARequest) (result : Result (AVec ℕ) AFault)
        (old new : World) → Reads t request old result new
        → TransferAttempts (IsOfTransfer t request) old result new }
    ensures writes { (t : ATarget) (request : ARequest) (result : Result (Unit {0}) AFault)
        (old new : World) → Writes t request old result new
        → TransferAttempts (IsOfTransfer t request) old result new }
    ensures clears { (is_sent : Bool) (pipe : APipeState) (result : Result (Unit {0}) AFault)
        (left : APipeState) (old new : World) → Clears is_sent pipe old result left new
        → TransferAttempts (IsOfTransfer pipe.target
        (clear_endpoint_halt (halt_address pipe.ep pipe.is_in))) old result new }
{}

/// A pipe attempts nothing but OUTs of its next packets, or INs of its endpoint (5.7, 5.8). Where
/// the bus gave up, it was one of these that it refused.
pub fn what_a_pipe_attempts()
    ensures sends { (bytes : List ℕ) (pipe : APipeState) (result : Result (Unit {0}) AFault)
        (left : APipeState) (old new : World) → Sends bytes pipe old result left new
        → TransferAttempts
        (SendsAt (packet_target pipe.target pipe.max) pipe.ep pipe.toggle bytes old)
        old result new }
    ensures receives { (wanted : ℕ) (pipe : APipeState) (result : Result (AVec ℕ) AFault)
        (left : APipeState) (old new : World) → Receives wanted pipe old result left new
        → TransferAttempts (IsOnly (in_attempt (packet_target pipe.target pipe.max) pipe.ep))
        old result new }
    ensures polls { (pipe : APipe) (result : Result (Option (ArrayVec ℕ)) AFault) (left : APipe)
        (old new : World) → Polls pipe old result left new
        → TransferAttempts (IsOnly (in_attempt pipe.target pipe.ep)) old result new }
    ensures packets { (pipe : APipeState) (result : Result (Option (ArrayVec ℕ)) AFault)
        (left : APipeState) (old new : World) → PipePolls pipe old result left new
        → TransferAttempts (IsOnly (in_attempt (packet_target pipe.target pipe.max) pipe.ep))
        old result new }
{}

/// Polls through one pipe, one after another, tell the next packets of the endpoint in their order,
/// none twice and none left out (5.7.5, 8.6). It is so whatever failed between, if no halt was
/// cleared.
pub fn reports_join()
    ensures { (pipe : APipeState) (old : World) (packets : List (List ℕ)) (left : APipeState)
        (new : World) → PollsInTurn pipe old packets left new
        → new.shared ≡ false → EachWas (ReportsLeave pipe packets left new) old new }
{}
