//! What a host knows stays so as events come; and where it has nothing left to do, its listing is what is plugged.
//!
//! Each call does nothing; what it ensures is for proofs to cite.
ghost use Rattle.std.specs.Prelude.{◌≡◌, ℕ, List, Option, Result, Ok, false};
ghost use Rattle.usb_port.specs.Pool.{Addresses};
ghost use Rattle.usb_world.specs.declared.event.Ask.{Ask};
ghost use Rattle.usb_world.specs.declared.types.BusFault.{BusFault};
ghost use Rattle.usb_world.specs.RestingPorts.{LeavesPortAlone};
ghost use Rattle.usb_world.specs.Steps.{Course};
ghost use Rattle.usb_world.specs.Worlds.{World, roots_of};
ghost use Rattle.usb_bus.specs.Traces.{TakesEvent};
ghost use Rattle.usb_enum.specs.declared.finding.Finding.{Finding};
ghost use Rattle.usb_enum.specs.declared.options.HostOptions.{HostOptions};
ghost use Rattle.usb_table.specs.TableEntries.{Entries};
ghost use Rattle.usb_table.specs.Listing.{Matches};
ghost use Rattle.usb_enum.specs.Places.{IsKnownAs};
ghost use Rattle.usb_host.specs.Agreement.{Agrees};
ghost use Rattle.usb_host.specs.HostStates.{HostState};
ghost use Rattle.usb_host.specs.KeptBytes.{KeepsFew};
ghost use Rattle.usb_host.specs.Ownership.{HostMapHolds};
ghost use Rattle.usb_host.specs.Progress.{OnlyBusSteps};
ghost use Rattle.usb_host.specs.Soundness.{PortsListed, DevicesAccurate, RefusalsJustified, Accounted, IsAtRest, KeepsInvariant};

/// What is known of a port stays known over a course that asks nothing of it, whatever is plugged and unplugged.
pub fn known_stays()
    ensures { (path : List ℕ) (listed : Option Finding) (w v : World)
        → Course (LeavesPortAlone path) w v → IsKnownAs w path listed → IsKnownAs v path listed }
{}

/// An event that comes through `Host::bus_mut` by `SimBus::apply_next_event` leaves a host as it was but for its bus:
/// what it knows stays so, and each reachable device holds the address that the host has for it, also if the bus
/// reported a fault.
pub fn known_stays_at_events()
    ensures sound { (old new : HostState) (due : Option (Option Ask))
        → Agrees old.options old.entries old.addresses
        → TakesEvent old.world old.trace (Ok due) new.world new.trace → OnlyBusSteps old new
        → KeepsInvariant old new }
    ensures owning { (old new : HostState) (result : Result (Option (Option Ask)) BusFault)
        → old.stopped ≡ false → TakesEvent old.world old.trace result new.world new.trace
        → OnlyBusSteps old new → HostMapHolds old → HostMapHolds new }
{}

/// A host that takes a number of bytes of each device keeps no more bytes of the configurations of any device that is
/// listed, and of all of them no more than 127 times that number. So no device, and no number of them, uses up the
/// memory.
pub fn keeps_few()
    ensures { (options : HostOptions) (entries : Entries) (addresses : Addresses)
        → Agrees options entries addresses → KeepsFew options entries }
{}

/// If nothing is left to do, a host that knows its ports, and of which each accepted device and each cause is so,
/// lists what is plugged.
pub fn settled_matches()
    ensures { (options : HostOptions) (w : World) (entries : Entries) (addresses : Addresses)
        → Accounted options (roots_of w) entries addresses → PortsListed w entries
        → DevicesAccurate options w entries → RefusalsJustified options w entries
        → IsAtRest w entries → Matches options w entries }
{}
