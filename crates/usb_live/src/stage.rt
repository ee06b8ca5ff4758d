//! How far a course is.
ghost use Rattle.std.specs.Prelude.{◌≡◌};
ghost use Rattle.usb_live.specs.Course.{stage_behind, stage_behind_answer};

use usb_run::Item;
use usb_stream::LiveFault;
use usb_wire::Answer;

/// How far a course is.
#[derive(Clone, Copy)]
pub(crate) enum Stage {
    /// The host asks and reports.
    Asks,
    /// It asked last what is requested, and that was the end.
    EndWanted,
    /// After that it reported a listing.
    Over,
}

/// How far it is after an answer to what is requested.
pub(crate) fn stage_of(answer: &Result<Answer, LiveFault>) -> Stage
    ensures { result ≡ stage_behind_answer answer.now }
{
    match answer {
        Ok(Answer::End) => Stage::EndWanted,
        _ => Stage::Asks,
    }
}

/// How far it is after an item that was reported.
pub(crate) fn stage_behind(stage: Stage, item: &Item) -> Stage
    ensures { result ≡ stage_behind stage item.now }
{
    match (stage, item) {
        (Stage::EndWanted, Item::Listing(_, _, _)) => Stage::Over,
        _ => Stage::Asks,
    }
}
