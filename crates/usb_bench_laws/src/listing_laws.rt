//! What the verdict says of the host's own listings.
//!
//! Each call does nothing; what it ensures is for proofs to cite.
ghost use Rattle.std.specs.Prelude.{◌≡◌, List, []};
ghost use Rattle.usb_world.specs.SanePorts.{Consistent};
ghost use Rattle.usb_world.specs.Worlds.{World};
ghost use Rattle.usb_enum.specs.declared.options.HostOptions.{HostOptions};
ghost use Rattle.usb_table.specs.TableEntries.{Entries};
ghost use Rattle.usb_table.specs.Listing.{Matches};
ghost use Rattle.usb_judge.specs.declared.judgement.Judgement.{Judgement};
ghost use Rattle.usb_judge.specs.declared.listed.ListedPort.{ListedPort};
ghost use Rattle.usb_judge.specs.declared.plugged.PluggedDevice.{PluggedDevice};
ghost use Rattle.usb_judge.specs.Scenes.{scene_in};
ghost use Rattle.usb_judge.specs.Judgements.{Judges};
ghost use Rattle.usb_judge.specs.Worlds.{ArePlugged, IsRightIn};
ghost use Rattle.usb_bench_laws.specs.OwnListings.{HavePaths, ListsEntries};

/// If a host's entries match a world whose ports are consistent, a listing that says what they say is right in it.
///
/// The table of each host has paths of ports (*Agrees*, usb_host). One that has settled after fair damage knows the
/// rest: `Settled` of `usb_run` has `matches`, and `order` among what the host knows.
pub fn own_listings_are_right()
    ensures { (options : HostOptions) (w : World) (entries : Entries) → Consistent w.roots
        → HavePaths entries → Matches options w entries
        → (listing : List ListedPort) → ListsEntries entries listing → IsRightIn w listing }
{}

/// So there is no judgement of it, where what is plugged in that world is given.
pub fn own_listings_stand()
    ensures { (options : HostOptions) (w : World) (entries : Entries) → Consistent w.roots
        → HavePaths entries → Matches options w entries
        → (listing : List ListedPort) → ListsEntries entries listing
        → (plugged : List PluggedDevice) → ArePlugged plugged w → (judgements : List Judgement)
        → Judges (scene_in plugged) listing judgements → judgements ≡ [] }
{}
