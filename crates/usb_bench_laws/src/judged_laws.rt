//! What is so of a host that is judged, by a plan with places or by one without.
//!
//! Each call does nothing; what it ensures is for a reader, and for proofs to cite.
ghost use Rattle.std.specs.Prelude.{◌≡◌, ℕ, Option, None, Some, Result, Ok};
ghost use Rattle.usb_world.specs.Steps.{opening};
ghost use Rattle.usb_far.specs.Serving.{Scene};
ghost use Rattle.usb_places.specs.Places.{PlacesData};
ghost use Rattle.usb_places.specs.Runs.{plan_in};
ghost use Rattle.usb_bench.specs.declared.judge.Judge.{Judge};
ghost use Rattle.usb_bench.specs.Serving.{JudgesHost, Serves};
ghost use Rattle.usb_bench_laws.specs.JudgedRuns.{IsPlacedRun};
ghost use Rattle.usb_bench_laws.specs.Alike.{RepliesAsFar};

use crate::{others_find_nothing, places_play};

/// After any of its lines, a host that is judged has come to the world of a placed run.
///
/// Its plan has places, and it begins where the plan does that is known at first. If the damages
/// without a place are those of a plan, its world is the one of all these steps from the start of
/// the plan that is known by then (*IsPlacedRun*).
pub fn judged_runs_are_placed()
    ensures { (rounds : Option ℕ) (first : Judge) (places : PlacesData) (old : Scene)
        (count last : ℕ) (judge : Judge) (new : Scene) → first.places ≡ Some places
        → old.played.far.world ≡ opening (plan_in places)
        → Serves rounds first old count last judge new
        → IsPlacedRun places judge new.played.far.world }
{
    places_play();
    others_find_nothing();
}

/// So it is once all lines of a host are judged (*JudgesHost*).
pub fn judged_hosts_are_placed()
    ensures { (rounds : Option ℕ) (first : Judge) (places : PlacesData) (old : Scene)
        (judge : Judge) (new : Scene) → first.places ≡ Some places
        → old.played.far.world ≡ opening (plan_in places)
        → JudgesHost rounds first old (Ok tt) judge new
        → IsPlacedRun places judge new.played.far.world }
{
    judged_runs_are_placed();
}

/// After any of its lines, a host that is judged has the replies that usb_far's `serve` makes.
///
/// Its plan has no places. Then just the replies to the lines that were read have gone out, and the
/// far end is as it is behind them (*RepliesAsFar*). Of the trace nothing is said.
pub fn judged_host_replies_as_far()
    ensures { (rounds : Option ℕ) (first : Judge) (old : Scene) (count last : ℕ)
        (judge : Judge) (new : Scene) → first.places ≡ None
        → Serves rounds first old count last judge new → RepliesAsFar old count new }
{}
