//! Why the devices of a text are not there.
use thiserror::Error;
use usb_plan::PlanFault;

/// Why the devices of a text are not there.
#[derive(Clone, Copy, Debug, PartialEq, Eq, Error)]
pub enum OpenFault {
    /// Memory was refused. It says nothing of the text.
    #[error("out of memory")]
    Memory,
    /// The text is no UTF-8.
    #[error("no UTF-8")]
    NoText,
    /// The text is no plan.
    #[error("{0}")]
    Plan(PlanFault),
}
