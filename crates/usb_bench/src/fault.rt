//! Why a host is judged no further.
use std::alloc::AllocError;
use thiserror::Error;
use usb_far::FarFault;

/// Why a host is judged no further.
#[derive(Clone, Copy, Debug, PartialEq, Eq, Error)]
pub enum BenchFault {
    /// A line was not answered.
    #[error("{0}")]
    Far(FarFault),
    /// The host has made as many attempts as it may without a `wait`.
    #[error("host never rests")]
    NoRest,
    /// The places are of a plan with another number of devices or of damages than the one that is played.
    #[error("places of another plan")]
    OtherPlan,
    /// Memory was refused.
    #[error("out of memory")]
    Memory,
}

impl From<AllocError> for BenchFault {
    ghost use Rattle.std.specs.Prelude.{◌≡◌};
    ghost use Rattle.usb_bench.specs.declared.fault.BenchFault.TheVariants.{Memory};

    ghost from_gives = { λ _ fault. fault ≡ Memory };

    fn from(_error: AllocError) -> BenchFault {
        BenchFault::Memory
    }
}
