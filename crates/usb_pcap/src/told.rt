//! Lines of a run that are of no attempt.
ghost use Rattle.std.specs.Prelude.{◌≤◌, length, Decides};
ghost use Rattle.usb_pcap.specs.Capture.{IsTold, longest};
ghost use Rattle.usb_pcap.specs.Report.{IsPlug, IsReport};
ghost use Rattle.usb_pcap.specs.Shown.{IsShownText};

use crate::capturing::LONGEST;
use crate::report::{is_plug, is_report};
use crate::shown::{Begun, take_shown};

/// Whether a line is one of a run and of no attempt: that of an event, or one of a listing, a
/// transfer, a look, news or a bound.
pub fn is_told(line: &[u8]) -> bool
    ensures { Decides result (IsTold line.now) }
{
    is_told_plug(line) || is_short_report(line)
}

/// Whether a line is that of a plug, with a name as a run shows it.
fn is_told_plug(line: &[u8]) -> bool
    ensures { Decides result (IsPlug line.now × IsShownText line.now) }
{
    is_plug(line) && is_shown(line)
}

/// Whether a line is no plug's, and no longer than such a line is.
fn is_short_report(line: &[u8]) -> bool
    ensures { Decides result ((length line.now ≤ longest) × IsReport line.now) }
{
    line.len() <= LONGEST && is_report(line)
}

/// Whether a line is characters as a run shows them.
fn is_shown(line: &[u8]) -> bool
    ensures { Decides result (IsShownText line.now) }
{
    let mut begun = Begun::new();
    'bytes: for byte in line {
        take_shown(&mut begun, *byte);
    }
    begun.is_empty()
}
