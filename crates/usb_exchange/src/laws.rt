//! The laws of the world, over any course of its steps.
//!
//! Each call does nothing; what it ensures is for a reader, and for proofs to cite.
ghost use Rattle.std.specs.Prelude.{◌≡◌, ◌<◌, ◌≤◌, ℕ, suc, false, true, List, [], ◌∷◌, ◌++◌, length, take, Option, Some, is_some, option_map};
ghost use Rattle.usb_packet.specs.declared.Toggle.{Toggle};
ghost use Rattle.usb_port.specs.PortStates.{PortState};
ghost use Rattle.usb_device.specs.Delivery.{held_addresses, repeats};
ghost use Rattle.usb_device.specs.Rows.{State};
ghost use Rattle.usb_device.specs.DeviceSpecs.{Spec};
ghost use Rattle.usb_device.specs.Tree.{Ports, full, path_to, place_on, reach, reach_on, row_of, state_on, Location};
ghost use Rattle.usb_device.specs.View.{port_there, state_there};
ghost use Rattle.usb_world.specs.declared.damage.Damage.{Damage};
ghost use Rattle.usb_world.specs.declared.exchange.ExchangeAnswer.TheVariants.{Collision};
ghost use Rattle.usb_world.specs.PlainAttempts.{Attempt};
ghost use Rattle.usb_world.specs.Addresses.{GivesNoAddress};
ghost use Rattle.usb_world.specs.Courses.{Injective, UndisturbedOrPends, NoReset, HoldsMapped, Reached, KeepsPendingAt, Undisturbed, resets};
ghost use Rattle.usb_world.specs.Devices.{DidIn, DidOut, DidSetup, EachWas, Was};
ghost use Rattle.usb_world.specs.Exchanges.{heard_in, payload_out, token_out};
ghost use Rattle.usb_world.specs.Paths.{is_way, has_power, pending};
ghost use Rattle.usb_world.specs.OneHolder.{IsIn, IsMade, IsOut, IsSetup};
ghost use Rattle.usb_world.specs.AttemptPackets.{IsSettled, after_sent, answers_to};
ghost use Rattle.usb_world.specs.Plans.{IsPlan, PlanData};
ghost use Rattle.usb_world.specs.PluggedDevices.{index_at, device_indexed, hub_ports, plugged_by};
ghost use Rattle.usb_world.specs.PlanCourses.{AtPorts, FollowsPlan, spec_of};
ghost use Rattle.usb_world.specs.RestingPorts.{LeavesPortAlone, UnchangedOrPending, SameDeviceOrPending};
ghost use Rattle.usb_world.specs.Steps.{AnyStep, Course, WorldInvariant, Step, after, attempt, made_in, opening, at_attempt};
ghost use Rattle.usb_world.specs.Worlds.{IsAttempt, World};

/// A device becomes reachable in one way only: by PORT_RESET at its own port, which leaves it at address 0, without
/// a configuration, its ports off.
pub fn reset_makes_reachable()
    ensures { (s : Step) (w : World) (p : List ℕ) → reach (after s w).roots p ≡ true
        → Reached w (after s w) p (resets s w p) }
{}

/// Reachable now and not reset since: the same device, reachable all the while.
pub fn reachable_is_the_same()
    ensures { (p : List ℕ) (w v : World) → Course (NoReset p) w v → reach v.roots p ≡ true
        → (reach w.roots p ≡ true) × Undisturbed w v p }
{}

/// A pending change stays, until a call clears it.
pub fn pending_stays()
    ensures { (p : List ℕ) (w v : World) → Course (KeepsPendingAt p) w v → pending w.roots p ≡ true
        → pending v.roots p ≡ true }
{}

/// No event comes on a way with power but that it is pending.
pub fn events_are_pending()
    ensures { (p : List ℕ) (w v : World) → Course (KeepsPendingAt p) w v
        → has_power w.roots p ≡ true
        → UndisturbedOrPends w v p }
{}

/// A port that is powered on its whole way, and of which nothing is asked, is as it was, with the same device or none,
/// reached as it was. Or a change of connection is pending on its way.
pub fn a_port_rests_or_is_pending()
    ensures rests { (p : List ℕ) (w v : World) → Course (LeavesPortAlone p) w v
        → has_power w.roots p ≡ true → UnchangedOrPending w v p }
    // Where something may be asked of the port itself, but nothing that is pending is cleared: the same device
    // stands there, or none.
    ensures itself { (p : List ℕ) (w v : World) → Course (KeepsPendingAt p) w v
        → has_power w.roots p ≡ true
        → SameDeviceOrPending w v p }
{}

/// This is of an attempt, if no address is held twice (8.5). Each device that is reachable after it was reachable
/// before. It did what its law says if the attempt was for it, and else nothing. Setup data may besides reset a device:
/// of these nothing is said here.
pub fn what_an_attempt_does_to_a_device()
    ensures into { (a : Attempt) (w : World) → IsMade a w → IsIn a
        → (after (attempt a) w).shared ≡ false → EachWas (DidIn a w) w (after (attempt a) w) }
    ensures out { (a : Attempt) (w : World) (t : Toggle) (bytes : List ℕ) → IsMade a w
        → IsOut a t bytes → (after (attempt a) w).shared ≡ false
        → EachWas (DidOut a t bytes w) w (after (attempt a) w) }
    ensures setup { (a : Attempt) (w : World) (bytes : List ℕ) → IsMade a w → IsSetup a bytes
        → (after (attempt a) w).shared ≡ false
        → (x : Location) (s : State) → resets (attempt a) w (path_to x) ≡ false
        → reach_on (after (attempt a) w).roots x ≡ true
        → state_on (after (attempt a) w).roots x ≡ Some s → Was (DidSetup a bytes w) w x s }
{}

/// The addresses stay, and nothing is shared, over a course of control transfers, whatever is lost and whatever is
/// plugged. Its steps neither reset a device nor give one an address.
pub fn control_courses_keep_addresses()
    ensures { (f : List ℕ → Option ℕ) → Injective f → (w v : World) → Course GivesNoAddress w v
        → IsSettled w.roots → HoldsMapped f w → w.shared ≡ false
        → HoldsMapped f v × (v.shared ≡ false) × IsSettled v.roots }
{}

/// If no address is held twice, at most one device answers an attempt, whatever is damaged; so no line of the
/// trace reports a collision.
pub fn one_device_at_most_answers()
    ensures answers { (a : Attempt) (d : Option Damage) (k : Ports) → IsAttempt a → IsSettled k
        → repeats (held_addresses k) ≡ false
        → length (answers_to (token_out a d) k
        ++ answers_to (payload_out a d) (after_sent (token_out a d) k)) ≤ 1 }
    ensures heard { (a : Attempt) (d : Option Damage) (k : Ports) → IsAttempt a → IsSettled k
        → repeats (held_addresses k) ≡ false → heard_in a d k ≡ Collision → ⊥ }
    ensures line { (a : Attempt) (w : World) → IsAttempt a → IsMade a w
        → (after (attempt a) w).shared ≡ false → (made_in a (at_attempt w)).answer ≡ Collision → ⊥ }
{}

/// What is plugged where, and each device's description, is what the events that came have left (7.1.7.3), whatever
/// else was done.
pub fn plugged_is_what_the_events_left()
    ensures events { (plan : PlanData) (w : World) → Course AnyStep (opening plan) w
        → FollowsPlan plan w }
    // Each plug is at a port's path, as `Plan::events` ensures: neither the empty one, nor one with a port of
    // number 0.
    ensures devices { (plan : PlanData) → IsPlan plan → AtPorts plan.events → (w : World)
        → Course AnyStep (opening plan) w → (path : List ℕ)
        → option_map spec_of (state_there w.roots path)
        ≡ device_indexed plan.devices (index_at (plugged_by [] (take w.taken plan.events)) path) }
{}

/// If no event between two worlds named a path or a port on its way, what is plugged there, and on the way, is
/// the same.
pub fn undisturbed_keeps_what_is_plugged()
    ensures there { (p : List ℕ) (w v : World) → Course AnyStep w v → Undisturbed w v p
        → option_map spec_of (state_there v.roots p) ≡ option_map spec_of (state_there w.roots p) }
    ensures way { (x p : List ℕ) (w v : World) → is_way x p ≡ true → Course AnyStep w v
        → Undisturbed w v p
        → option_map spec_of (state_there v.roots x) ≡ option_map spec_of (state_there w.roots x) }
    ensures above { (x p : List ℕ) (w v : World) → is_way x p ≡ true → Undisturbed w v p
        → Undisturbed w v x }
{}

/// Ports are consistent in a plan's world before anything came, and every step keeps them so. In consistent ports each
/// device that is plugged has the number of ports that its description says.
pub fn devices_have_their_ports()
    ensures opening { (plan : PlanData) → IsPlan plan → WorldInvariant (opening plan) }
    ensures kept { (w v : World) → Course AnyStep w v → WorldInvariant w → WorldInvariant v }
    ensures count { (w : World) → WorldInvariant w
        → (x : Location) (b : PortState) (s : State) (below : Ports)
        → place_on w.roots x ≡ Some (full b s below)
        → length (row_of below) ≡ hub_ports s.spec.hub }
    ensures stands { (w : World) → WorldInvariant w → (x : Location) (t : Spec) (m : ℕ)
        → option_map spec_of (state_on w.roots x) ≡ Some t → m < hub_ports t.hub
        → is_some (port_there w.roots (path_to x ++ (suc m ∷ []))) ≡ true }
{}
