//! Why a course ended before its end was requested.
ghost use Rattle.std.specs.Prelude.{◌≡◌};
ghost use Rattle.usb_live.specs.declared.end.LiveEnd.TheVariants.{Memory as NoMemory};
ghost use Rattle.usb_live.specs.Course.{EndsBy};

use crate::stage::Stage;
use std::alloc::AllocError;
use thiserror::Error;
use usb_stream::LiveFault;

/// Why a course ended before its end was requested.
#[derive(Clone, Copy, Debug, PartialEq, Eq, Error)]
pub enum LiveEnd {
    /// The bus has a fault, and the number of the line that was read last, or awaited, is this.
    #[error("line {0}: {1}")]
    Line(u64, LiveFault),
    /// The questions that may be asked were asked, in the same number of rounds; the number of the line that was read
    /// last is this.
    #[error("line {0}: limit reached")]
    Rounds(u64),
    /// Memory was refused.
    #[error("out of memory")]
    Memory,
}

impl From<AllocError> for LiveEnd {
    ghost from_gives = { λ _ e. e ≡ NoMemory };

    fn from(_e: AllocError) -> LiveEnd {
        LiveEnd::Memory
    }
}

/// Why a course ended whose bus has this fault, of which this number of lines were read, and that may ask this number
/// of questions more.
pub(crate) fn end_of(
    fault: Option<LiveFault>,
    lines: u64,
    left: u64,
    stage: Stage,
    ran: Result<(), LiveEnd>,
) -> Result<(), LiveEnd>
    ensures { EndsBy fault lines left stage result }
{
    match (fault, stage, ran) {
        (Some(fault), _, _) => Err(LiveEnd::Line(lines, fault)),
        (None, Stage::Over, _) => Ok(()),
        (None, _, Err(LiveEnd::Rounds(_))) if left == 0 => Err(LiveEnd::Rounds(lines)),
        (None, _, _) => Err(LiveEnd::Memory),
    }
}
