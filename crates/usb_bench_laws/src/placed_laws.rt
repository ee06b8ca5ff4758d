//! What is so of a run whose plan's places are found on its way.
//!
//! Each call does nothing; what it ensures is for a reader, and for proofs to cite.
ghost use Rattle.std.specs.Prelude.{◌≡◌, List, false, true};
ghost use Rattle.usb_world.specs.Plans.{damages_fit};
ghost use Rattle.usb_world.specs.Steps.{Step};
ghost use Rattle.usb_world.specs.Worlds.{World};
ghost use Rattle.usb_bench_laws.specs.Runs.{run};
ghost use Rattle.usb_places.specs.declared.seen.Deed.{Deed};
ghost use Rattle.usb_places.specs.Places.{PlacesData, is_attempt, is_wait};
ghost use Rattle.usb_places.specs.Runs.{finds, plan_in, seen_at};
ghost use Rattle.usb_bench_laws.specs.PlacedRuns.{PlacedRun};

/// The world of a placed run is the one after all its steps from the start of the plan that is
/// known in the end.
///
/// The damages without a place are those of a plan: their attempts rise. An event that a step asks
/// for comes, unless the bus has a fault; or a wait is seen right before that step (*PlacedRun*).
pub fn places_play()
    ensures { (first p : PlacesData) (steps : List Step) (w : World)
        → damages_fit 0 first.plan.damages ≡ true → PlacedRun first p steps w
        → w ≡ run (plan_in p) steps }
{}

/// No place is found at a call at a root port, nor where a status is read.
pub fn others_find_nothing()
    ensures { (p : PlacesData) (w : World) (d : Deed) → is_attempt d ≡ false → is_wait d ≡ false
        → finds (seen_at w d) p ≡ false }
{}
