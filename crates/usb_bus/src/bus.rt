ghost use Rattle.std.specs.Prelude.{◌≡◌, ◌+◌, ◌*◌, ◌<◌, ◌≤◌, ℕ, List, length, Option, None, Some, Bool, true, IfOk, IfErr};
ghost use Rattle.std.specs.Int.{div_ceil};
ghost use Rattle.usb_port.specs.PortStates.{status_of};
ghost use Rattle.usb_port.specs.Calls.{IsSetFeature, IsClearFeature};
ghost use Rattle.usb_world.specs.declared.types.BusFault.{BusFault as AFault};
ghost use Rattle.usb_world.specs.PlainAttempts.{attempt_data};
ghost use Rattle.usb_world.specs.Worlds.{World, IsAttempt, FitsMaximum, root_port_at, roots_of};
ghost use Rattle.usb_world.specs.Steps.{WorldInvariant, SetsRoot, ClearsRoot};
ghost use Rattle.usb_world.specs.{IsSettled};
ghost use Rattle.usb_bus.specs.Traces.{Attempts, Spends};
ghost use Rattle.usb_bus.specs.OutcomeKinds.{result_with};
ghost use Rattle.usb_bus.specs.Rows.{InsMade, OutsMade, IsDestination, CountsRow, RowTold, row_attempts};

use crate::rows::{add_full, is_ack, out_attempt};
use crate::{Attempt, BusFault, Destination, Outcome, OutcomeKind, ROW_ROOM, RowDone, RowEnd};
use arrayvec::ArrayVec;
use usb_packet::Toggle;

/// A bus with the host's root ports.
///
/// Whoever implements this has the whole host half. If a bus does what its world does (`modelled`), each call is a step
/// of that world. Of any other, such as a real controller, only what does not mention the world is said
/// (`docs/PORTING.md`).
pub trait Bus {
    /// Whether the bus does what its world does.
    ghost modelled: { Bool };

    /// The world that the bus stands for.
    ghost world: { Self → World };

    /// The text that its trace has, if that is known. Each attempt that is made, and each plug and unplug that
    /// comes, is a line; nothing else is written by these calls.
    ghost trace: { Self → Option (List ℕ) };

    /// How many attempts were made, of a bus that counts them; 0 of one that does not.
    ghost spent: { Self → ℕ };

    /// The fault that was reported last, if one was.
    ghost failed: { Self → Option AFault };

    /// How many root ports there are. The number never changes.
    ghost ports: { Self → ℕ };

    /// Applies the events that are due, and then makes one attempt.
    ///
    /// The host has no clock: the bus itself pauses before it returns, where an IN of endpoint 0 with data ends
    /// SET_ADDRESS (9.2.6.3) or SET_FEATURE of a hub's PORT_RESET (11.5.1.5). It sees both in SETUP's bytes
    /// (`docs/PORTING.md`).
    ///
    /// # Errors
    ///
    /// - `Limit`: the attempts equal the limit. Nothing else is done.
    /// - `Memory`: memory was refused.
    /// - `Failed`: the bus itself failed.
    ///
    /// Every later attempt reports the same fault again.
    fn attempt(&mut self, attempt: &Attempt) -> Result<Outcome, BusFault>
        requires { IsAttempt (attempt_data attempt.now) }
        ensures attempts { modelled ≡ true → Attempts (attempt_data attempt.now)
            (world self.old) (trace self.old) result (world self.new) (trace self.new) }
        ensures spends { Spends spent ports 1 self.old self.new }
        ensures fits { IfOk result (FitsMaximum (attempt_data attempt.now).max) }
        ensures told { IfErr result (λ fault. failed self.new ≡ Some fault) };

    /// The same attempt, whose data are put into a room of the caller's; what else is in it then is not said.
    ///
    /// This body makes it by `attempt`. A bus that has the bytes elsewhere puts them there at once.
    ///
    /// # Errors
    ///
    /// As of `attempt`.
    fn attempt_into(
        &mut self,
        attempt: &Attempt,
        room: &mut ArrayVec<u8, 64>,
    ) -> Result<OutcomeKind, BusFault>
        requires { IsAttempt (attempt_data attempt.now) }
        ensures attempts { modelled ≡ true → Attempts (attempt_data attempt.now)
            (world self.old) (trace self.old) (result_with result room.new)
            (world self.new) (trace self.new) }
        ensures spends { Spends spent ports 1 self.old self.new }
        ensures fits { IfOk (result_with result room.new)
            (FitsMaximum (attempt_data attempt.now).max) }
        ensures told { IfErr result (λ fault. failed self.new ≡ Some fault) }
    {
        match self.attempt(attempt) {
            Ok(outcome) => Ok(OutcomeKind::put(outcome, room)),
            Err(fault) => Err(fault),
        }
    }

    /// Makes INs of one endpoint, one after the other, until one is not answered by a full packet of the due toggle.
    ///
    /// It asks for at most `most` packets, 0 to 64, whose toggles alternate from `toggle`. `got` is emptied, and then
    /// has the bytes of the full packets. Data of the answer that ended the row are not among them.
    ///
    /// This body makes them one by one. A controller that has a queue makes one queue of them.
    ///
    /// # Errors
    ///
    /// `RowEnd::Faulted`: an attempt of the row failed, as `attempt` says. The packets before it were moved.
    fn attempt_ins(
        &mut self,
        to: Destination,
        toggle: Toggle,
        most: u8,
        got: &mut ArrayVec<u8, ROW_ROOM>,
    ) -> RowDone
        requires row { IsDestination to × (most ≤ 64) }
        ensures attempts { modelled ≡ true → InsMade to toggle most (world self.old)
            (trace self.old) result got.new.items (world self.new) (trace self.new) }
        ensures spends { Spends spent ports (row_attempts result.moved result.end)
            self.old self.new }
        ensures fits { CountsRow to.max most result
            × (length got.new.items ≡ result.moved * to.max) }
        ensures told { RowTold result.end (failed self.new) }
    {
        got.clear();
        let attempt = Attempt::In { to };
        let mut due = toggle;
        'packets: for moved in 0..most {
            match self.attempt(&attempt) {
                Ok(outcome) => {
                    if !add_full(got, to.max, due, &outcome) {
                        return RowDone {
                            moved,
                            end: RowEnd::Answered(outcome),
                        };
                    }
                    due = due.other();
                }
                Err(fault) => {
                    return RowDone {
                        moved,
                        end: RowEnd::Faulted(fault),
                    };
                }
            }
        }
        RowDone {
            moved: most,
            end: RowEnd::Whole,
        }
    }

    /// Makes OUTs to one endpoint, one after the other, until one is not answered by ACK.
    ///
    /// The bytes are cut into packets of the maximum, at most 64, whose toggles alternate from `toggle`. No bytes are
    /// sent with no attempt.
    ///
    /// This body makes them one by one. A controller that has a queue makes one queue of them.
    ///
    /// # Errors
    ///
    /// `RowEnd::Faulted`: an attempt of the row failed, as `attempt` says. The packets before it were moved.
    fn attempt_outs(&mut self, to: Destination, toggle: Toggle, bytes: &[u8]) -> RowDone
        requires row { IsDestination to × (length bytes.now ≤ 64 * to.max) }
        ensures attempts { modelled ≡ true → OutsMade to toggle bytes.now (world self.old)
            (trace self.old) result (world self.new) (trace self.new) }
        ensures spends { Spends spent ports (row_attempts result.moved result.end)
            self.old self.new }
        ensures fits { CountsRow to.max (div_ceil (length bytes.now) to.max) result }
        ensures told { RowTold result.end (failed self.new) }
    {
        let mut rest = bytes;
        let mut due = toggle;
        let mut moved = 0;
        'packets: while !rest.is_empty() {
            let (packet, after) = rest.split_at(rest.len().min(usize::from(to.max)));
            let attempt = out_attempt(to, due, packet);
            match self.attempt(&attempt) {
                Ok(outcome) => {
                    if !is_ack(&outcome) {
                        return RowDone {
                            moved,
                            end: RowEnd::Answered(outcome),
                        };
                    }
                    rest = after;
                    due = due.other();
                    moved += 1;
                }
                Err(fault) => {
                    return RowDone {
                        moved,
                        end: RowEnd::Faulted(fault),
                    };
                }
            }
        }
        RowDone {
            moved,
            end: RowEnd::Whole,
        }
    }

    /// The number of root ports, 1 to 7.
    fn root_ports(&self) -> u8
        ensures count { modelled ≡ true → result ≡ roots_of (world self.now) }
        ensures ports { result ≡ ports self.now }
        ensures least { 1 ≤ result }
        ensures most { result ≤ 7 };

    /// The status of a root port: wPortStatus and wPortChange (11.24.2.7).
    fn root_status(&self, port: u8) -> [u8; 4]
        requires least { 1 ≤ port }
        requires most { port ≤ ports self.now }
        ensures { modelled ≡ true → result ≡ status_of (root_port_at (world self.now) port) };

    /// Sets a feature of a root port (11.24.2.13). PORT_RESET is over when the call returns: it is held for 50 ms, and
    /// 10 ms pass after it (7.1.7.5).
    fn root_set(&mut self, port: u8, feature: u16)
        requires least { 1 ≤ port }
        requires most { port ≤ ports self.old }
        requires named { IsSetFeature feature }
        ensures call { modelled ≡ true → SetsRoot port feature (world self.old) (world self.new) }
        ensures silent { modelled ≡ true → trace self.new ≡ trace self.old }
        ensures unspent { Spends spent ports 0 self.old self.new };

    /// Clears a feature of a root port (11.24.2.2).
    fn root_clear(&mut self, port: u8, feature: u16)
        requires least { 1 ≤ port }
        requires most { port ≤ ports self.old }
        requires named { IsClearFeature feature }
        ensures call { modelled ≡ true → ClearsRoot port feature (world self.old) (world self.new) }
        ensures silent { modelled ≡ true → trace self.new ≡ trace self.old }
        ensures unspent { Spends spent ports 0 self.old self.new };

    /// Makes an endpoint of the device at an address begin again at DATA0, as SET_INTERFACE does (9.4.10, 9.1.1.5).
    ///
    /// A controller that keeps toggles itself sets its toggle of that endpoint to DATA0. One that takes the toggle
    /// from each attempt does nothing.
    fn restart_endpoint(&mut self, address: u8, number: u8, is_in: bool)
        requires address { address ≤ 127 }
        requires least { 1 ≤ number }
        requires most { number ≤ 15 }
        ensures world { modelled ≡ true → world self.new ≡ world self.old }
        ensures silent { modelled ≡ true → trace self.new ≡ trace self.old }
        ensures unspent { Spends spent ports 0 self.old self.new };

    /// A law: the root ports are those of the world.
    ghost counted: { modelled ≡ true → (s : Self) → ports s ≡ roots_of (world s) };

    /// A law: between two calls no device of the world remembers a packet.
    ghost settled: { modelled ≡ true → (s : Self) → IsSettled (world s).roots };

    /// A law: as long as no fault was reported, each device is as the rules say, and each port is consistent. What is
    /// attached is what is plugged there. An enabled port is powered and has something attached, and only a powered
    /// port reports a change (11.5).
    ghost between: { modelled ≡ true → (s : Self) → (world s).fault ≡ None
        → WorldInvariant (world s) };
}
