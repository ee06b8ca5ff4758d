//! What is plugged has one right listing.
//!
//! Each call does nothing; what it ensures is for proofs to cite.
ghost use Rattle.std.specs.Prelude.{ℕ};
ghost use Rattle.usb_world.specs.Plans.{PlanData, IsPlan};
ghost use Rattle.usb_world.specs.PlanCourses.{AtPorts};
ghost use Rattle.usb_world.specs.Steps.{AnyStep, Course, opening};
ghost use Rattle.usb_world.specs.Worlds.{World};
ghost use Rattle.usb_enum.specs.declared.options.HostOptions.{HostOptions};
ghost use Rattle.usb_table.specs.TableEntries.{Entries};
ghost use Rattle.usb_table.specs.Listing.{SpecTree, tree_after, Lists, ListsLike, Matches, NoneWaits};

/// Two right listings of what is plugged list the same findings at the same paths, but for the
/// addresses, if no device waits for one.
pub fn one_listing()
    ensures { (options : HostOptions) (roots : ℕ) (tree : SpecTree) (a b : Entries)
        → Lists options roots tree a → Lists options roots tree b
        → NoneWaits a → NoneWaits b → ListsLike a b }
{}

/// A listing of what is plugged in a world of a plan's course is one of what the events that came
/// have left plugged.
pub fn listed_is_what_the_events_left()
    ensures { (plan : PlanData) → IsPlan plan → AtPorts plan.events
        → (w : World) → Course AnyStep (opening plan) w
        → (options : HostOptions) (entries : Entries) → Matches options w entries
        → Lists options plan.roots (tree_after plan w.taken) entries }
{}
