//! Why a text is no plan with places.

ghost use Rattle.std.specs.Prelude.{◌≡◌};
ghost use Rattle.usb_places.specs.declared.fault.PlacesFault.TheVariants.{Plan as in_plan};
ghost use Rattle.usb_plan.specs.declared.fault.PlanFault.TheVariants.{Memory as no_memory};

use std::alloc::AllocError;
use thiserror::Error;
use usb_plan::{Place, PlanFault};

/// What is wrong with a `when`. The first of these is reported that applies.
#[derive(Clone, Copy, Debug, PartialEq, Eq, Error)]
pub enum WhenFault {
    /// It stands beside `after`.
    #[error("beside after")]
    Beside,
    /// It is no table.
    #[error("no table")]
    NoTable,
    /// It has none of these keys.
    #[error("no request, setup, reset, port or wait")]
    NoSign,
    /// It has a key that does not go with the first of those that it has.
    #[error("a key too many")]
    Keys,
    /// `request` is no name of a request.
    #[error("no such request")]
    Request,
    /// `setup` is not two hexadecimal digits for each of 8 bytes.
    #[error("setup is not 8 bytes")]
    Setup,
    /// `path` is absent, or is no path of ports. So is a root port's, if the request is to a port of a hub.
    #[error("no such path")]
    Path,
    /// `at` is none of its words.
    #[error("no such moment")]
    Moment,
    /// `reset` or `port` is not 1 to 7.
    #[error("no root port")]
    Port,
    /// `wait` is not `true`.
    #[error("wait is not true")]
    Wait,
    /// `nth` is not 1 to 1,000,000,000.
    #[error("nth is not 1 to 1000000000")]
    Nth,
}

/// Why a text is no plan with places.
#[derive(Clone, Copy, Debug, PartialEq, Eq, Error)]
pub enum PlacesFault {
    /// The `when` of an entry is none.
    #[error("plan: {0}: bad when: {1}")]
    When(Place, WhenFault),
    /// A damage has an attempt, and one before it has `when`.
    #[error("plan: {0}: attempt behind when")]
    Order(Place),
    /// The text without its `when`s is no plan.
    #[error("{0}")]
    Plan(PlanFault),
}

impl From<PlanFault> for PlacesFault {
    ghost from_gives = { λ why fault. fault ≡ in_plan why };

    fn from(fault: PlanFault) -> PlacesFault {
        PlacesFault::Plan(fault)
    }
}

impl From<AllocError> for PlacesFault {
    ghost from_gives = { λ _ fault. fault ≡ in_plan no_memory };

    fn from(_error: AllocError) -> PlacesFault {
        PlacesFault::Plan(PlanFault::Memory)
    }
}
