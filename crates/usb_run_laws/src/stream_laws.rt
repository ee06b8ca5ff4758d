//! What the sends and receives of a run come to.
//!
//! Each call does nothing; what it ensures is for proofs to cite.
ghost use Rattle.std.specs.Prelude.{◌≡◌, ℕ, List, Bool, false, None, Some};
ghost use Rattle.usb_enum.specs.declared.finding.Accepted.{Accepted};
ghost use Rattle.usb_table.specs.Findings.{accepted_device_at};
ghost use Rattle.usb_host.specs.HostStates.{HostState};
ghost use Rattle.usb_run.specs.declared.item.Item.{Item};
ghost use Rattle.usb_run.specs.declared.mode.Mode.{Mode};
ghost use Rattle.usb_run.specs.RunSegments.{Knows};
ghost use Rattle.usb_run.specs.Transcript.{Transcript};
ghost use Rattle.usb_hub.specs.ControlSteps.{ControlCourse};
ghost use Rattle.usb_world.specs.AttemptPackets.{IsSettled};
ghost use Rattle.usb_world.specs.Worlds.{World};
ghost use Rattle.usb_run_laws.specs.Heads.{MovesNothing};
ghost use Rattle.usb_run_laws.specs.Streams.{StoodOrFound};
ghost use Rattle.usb_run_laws.specs.Stretches.{IsStretch, Stretch, ToldItem};

/// This is over any stretch of a run up to a host whose bus works. A device that is listed in the end was at its path
/// from the beginning. Or it was there since a round or a look that found it anew and moved none of its bytes. From
/// then on each of its OUT endpoints took the bytes of the sends to it that are reported done, end to end. At most a
/// prefix of a failed send comes after them. An endpoint took nothing where nothing was sent to it. What each IN
/// endpoint gave to receives and polls that are reported done are its next packets, end to end, none twice and none
/// left out.
/// A poll that is reported done with a packet returned that packet. A transfer without an address is one of the first
/// bulk endpoint of its direction. All this is so for an endpoint as long as no halt of it is cleared, and no interface
/// of its device is set. A clear without an address leaves an endpoint alone whose pipe works.
pub fn transfers_join()
    ensures { (old new : HostState) (told : List ToldItem) → Stretch old told new → Knows old
        → new.world.fault ≡ None
        → (path : List ℕ) (device : Accepted) → accepted_device_at path new.entries ≡ Some device
        → StoodOrFound path device told old new }
{}

/// Over a course of attempts at endpoint 0, calls of root ports and events nothing moves at any other endpoint. Each
/// device that is plugged, reached or not, has taken and given what the one at its place had. Or it was plugged since,
/// and has neither taken nor given.
pub fn control_moves_nothing()
    ensures { (old new : World) → ControlCourse old new → IsSettled old.roots
        → MovesNothing old new }
{}

/// A run is a stretch, in which the items that events asked for are reported; if it is over, its last listing comes
/// after them.
pub fn runs_are_stretches()
    ensures { (mode : Mode) (old new : HostState) (items : List Item) (over : Bool)
        → Transcript mode false old items over new → IsStretch items over old new }
{}
