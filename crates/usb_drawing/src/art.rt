//! The art before an entry, which shows what it is below.
ghost use Rattle.std.specs.Prelude.{◌≡◌, ◌<◌, ◌++◌, length, OnOk};
ghost use Rattle.usb_drawing.specs.Art.{art, branch, goes_on, is_beside, trunk, trunks};

use std::alloc::AllocError;
use usb_enum::Finding;
use usb_port::PortPath;

/// What a drawing is made of.
#[derive(Clone, Copy, Debug, PartialEq, Eq)]
pub enum Style {
    /// Line art, and strings as text.
    Lines,
    /// Printable ASCII alone.
    Ascii,
}

impl Style {
    ghost use Rattle.std.specs.Prelude.{◌≡◌};
    ghost use Rattle.usb_drawing.specs.Art.{style_of};

    /// The style that is asked for, with the flag `--ascii` or without it.
    pub fn of(ascii: bool) -> Style
        ensures { result ≡ style_of ascii }
    {
        if ascii { Style::Ascii } else { Style::Lines }
    }
}

/// Adds the art of the entry at a path, with these entries after it.
#[tactic(auto, unfolding(crate::specs::Art::art))]
pub(crate) fn push_art(
    out: &mut Vec<u8>,
    style: Style,
    path: &PortPath,
    behind: &[(PortPath, Finding)],
) -> Result<(), AllocError>
    ensures { OnOk result (out.new.items ≡ out.old.items ++ art style path.now behind.now) }
{
    let level = path.numbers().len() - 1;
    push_trunks(out, style, path, level, behind)?;
    out.extend_from_slice(branch(style, goes_on(path, level, behind)).as_bytes())
}

/// Adds the trunks of this number of levels, from the first.
fn push_trunks(
    out: &mut Vec<u8>,
    style: Style,
    path: &PortPath,
    levels: usize,
    behind: &[(PortPath, Finding)],
) -> Result<(), AllocError>
    requires { levels < length path.now }
    ensures { OnOk result (out.new.items
        ≡ out.old.items ++ trunks style path.now behind.now levels) }
{
    'levels: for level in 0..levels {
        out.extend_from_slice(trunk(style, goes_on(path, level, behind)).as_bytes())?;
    }
    Ok(())
}

/// The art of a level above the entry: a line if a later entry is beside the path there, else
/// blanks.
fn trunk(style: Style, goes_on: bool) -> &'static str
    ensures { result.now ≡ trunk style goes_on }
{
    match (style, goes_on) {
        (Style::Lines, true) => "│  ",
        (Style::Ascii, true) => "|  ",
        (_, false) => "   ",
    }
}

/// The art right before the entry: a fork if a later entry is beside it, else a corner.
fn branch(style: Style, goes_on: bool) -> &'static str
    ensures { result.now ≡ branch style goes_on }
{
    match (style, goes_on) {
        (Style::Lines, true) => "├─ ",
        (Style::Lines, false) => "└─ ",
        (Style::Ascii, true) => "|- ",
        (Style::Ascii, false) => "`- ",
    }
}

/// Whether a later entry is beside the path at a level. A listing has at most 1,912 entries, a port each of the
/// root and of 127 hubs.
fn goes_on(path: &PortPath, level: usize, behind: &[(PortPath, Finding)]) -> bool
    requires { level < length path.now }
    ensures { result ≡ goes_on path.now level behind.now }
{
    match behind.split_first() {
        None => false,
        Some((entry, behind)) => {
            is_beside(path, level, &entry.0) || goes_on(path, level, behind)
        }
    }
}

/// Whether another path parts from this one at a level, to a later port of the same hub.
fn is_beside(path: &PortPath, level: usize, other: &PortPath) -> bool
    requires { level < length path.now }
    ensures { result ≡ is_beside path.now level other.now }
{
    let path = path.numbers();
    let other = other.numbers();
    level < other.len() && path[level] < other[level] && other.starts_with(&path[..level])
}
