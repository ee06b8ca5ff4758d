//! An attempt that is about to be made.
ghost use Rattle.std.specs.Prelude.{◌<◌};
ghost use Rattle.usb_world.specs.PlainAttempts.{destination_of};

use usb_judge::Remark;
use usb_port::PortPath;
use usb_world::Attempt;

/// An attempt that is about to be made.
#[derive(Drop)]
pub(crate) struct Coming {
    pub(crate) attempt: Attempt,
    /// The port of the device that holds its address; None if none does.
    pub(crate) holder: Option<PortPath>,
    /// How many bytes the device's OUT endpoint of its number has taken.
    pub(crate) taken: usize,
    /// What is wrong with it.
    pub(crate) remark: Option<Remark>,
    ghost small: { (destination_of attempt).number < 16 },
}
