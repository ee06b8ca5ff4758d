//! A listing beside what is plugged.
ghost use Rattle.std.specs.Prelude.{IfOk};
ghost use Rattle.usb_judge.specs.Judgements.{Judges, RisesByPath};
ghost use Rattle.usb_judge.specs.Worlds.{scene_of};
ghost use Rattle.usb_sim.specs.Sim.{world_of};

use crate::plugged;
use std::alloc::{AllocError, Global};
use usb_judge::{Judgement, ListedPort, judge, judged_world};
use usb_sim::{SimBus, Trace};

/// What is wrong with a listing, as the world is now: nothing exactly if it is right. The judgements
/// are in the order of paths.
///
/// # Errors
///
/// Memory was refused.
pub fn verdict<T: Trace>(
    alloc: Global,
    bus: &SimBus<T>,
    listing: &[ListedPort],
) -> Result<Vec<Judgement>, AllocError>
    ensures verdict { IfOk result (λ judgements.
        Judges (scene_of (world_of bus.now)) listing.now judgements.items) }
    ensures order { IfOk result (λ judgements. RisesByPath judgements.items) }
{
    judged_world();
    let plugged = plugged(alloc, bus)?;
    let judgements = judge(alloc, plugged.as_slice(), listing)?;
    Ok(judgements)
}
