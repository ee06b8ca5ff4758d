//! What is so of a run that follows another plan.
//!
//! Each call does nothing; what it ensures is for a reader, and for proofs to cite.
ghost use Rattle.std.specs.Prelude.{◌≡◌, ◌≢◌, List, [], drop};
ghost use Rattle.usb_world.specs.Plans.{PlanData};
ghost use Rattle.usb_world.specs.Steps.{Step, opening};
ghost use Rattle.usb_world.specs.Worlds.{World};
ghost use Rattle.usb_sim.specs.Follow.{followed};
ghost use Rattle.usb_bench_laws.specs.Runs.{AgreeIn, AllCome, Plays, run};

/// A world after steps that follows another plan is the world after these steps from that plan's
/// start, if the plans agree so far.
///
/// If the other plan has more events, each event that was asked for came, unless the bus had a
/// fault. Where one was asked for in vain, one of the other plan would have come.
pub fn follows_from_start()
    ensures { (p q : PlanData) (steps : List Step) → AgreeIn p q (run p steps)
        → (drop (run p steps).taken q.events ≢ [] → AllCome steps (opening p))
        → run q steps ≡ followed q (run p steps) }
{}

/// However often another plan is followed, the world is the one after all these steps from the last
/// plan's start.
pub fn follows_again()
    ensures { (p : PlanData) (steps : List Step) (w : World) → Plays p steps w → w ≡ run p steps }
{}
