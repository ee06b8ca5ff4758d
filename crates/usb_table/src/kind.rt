//! The kinds of entries that the host walks over.
ghost use Rattle.std.specs.Prelude.{◌≡◌, option_copied};
ghost use Rattle.usb_table.specs.Kinds.{fits, start_after};

use crate::found::{is_accepted, is_hub, is_waiting};
use std::ops::Bound;
use usb_enum::Finding;
use usb_port::PortPath;

/// A kind of entry.
#[derive(Clone, Copy, Debug, PartialEq, Eq)]
pub(crate) enum Kind {
    /// An accepted device, hubs too.
    Accepted,
    /// An accepted hub.
    Hub,
    /// A device that was refused because no address was free.
    Waiting,
}

/// Whether a finding is of the kind.
pub(crate) fn fits(kind: Kind, finding: &Finding) -> bool
    ensures { result ≡ fits kind finding.now }
{
    match kind {
        Kind::Accepted => is_accepted(finding),
        Kind::Hub => is_hub(finding),
        Kind::Waiting => is_waiting(finding),
    }
}

/// The place at which the paths after the last one begin, or all paths if there is none.
pub(crate) fn start_after(last: Option<&PortPath>) -> Bound<PortPath>
    ensures { result ≡ start_after (option_copied last.entry) }
{
    match last {
        Some(last) => Bound::Excluded(last.duplicate()),
        None => Bound::Unbounded,
    }
}
