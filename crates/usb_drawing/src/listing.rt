//! The lines of a drawn listing.
ghost use Rattle.std.specs.Prelude.{◌≡◌, ◌+◌, ◌++◌, ◌∷◌, All, ℕ, Bool, List, length, slice_get, true, Some, OnOk, IfOk};
ghost use Rattle.usb_enum.specs.declared.finding.Finding.{Finding as AFinding};
ghost use Rattle.usb_serve.specs.{Entries, SpecTree, tree_after};
ghost use Rattle.usb_drawing.specs.declared.art.Style.{Style as AStyle};
ghost use Rattle.usb_drawing.specs.Drawings.{columns, drawing_lines, entry_line, drawn_entries, finding_supply, gap, granted_at, heading, heading_end, hub_supply, is_unbroken, listed_supply, ruled_line, widest};

use crate::art::{Style, push_art};
use crate::device::push_finding;
use crate::rule::push_rule;
use std::alloc::{AllocError, Global};
use usb_enum::{Finding, HubFacts};
use usb_port::{PortPath, supply};
use usb_scene::Plan;
use usb_text::{Lines, push_decimal, push_path};

/// The lines of a drawn listing: its number, then a line for each entry, which says by its art what the entry is
/// below. The listing was made in a run of the plan, after this number of its events.
///
/// # Errors
///
/// Memory was refused.
#[tactic(auto, unfolding(crate::specs::Drawings::drawing_lines))]
pub fn drawing_lines(
    alloc: Global,
    style: Style,
    number: u64,
    plan: &Plan,
    taken: u64,
    entries: &[(PortPath, Finding)],
) -> Result<Lines, AllocError>
    ensures { IfOk result (λ lines. lines
        ≡ drawing_lines style number plan.now.wide (tree_after plan.now taken) entries.now) }
{
    let mut lines = Lines::new(alloc);
    lines.push(heading(alloc, number, entries)?)?;
    push_entries(alloc, &mut lines, style, plan, taken, entries)?;
    Ok(lines)
}

/// `listing N`, and that there is no device where there is none.
#[tactic(auto, unfolding(crate::specs::Drawings::heading))]
fn heading(
    alloc: Global,
    number: u64,
    entries: &[(PortPath, Finding)],
) -> Result<Vec<u8>, AllocError>
    ensures { IfOk result (λ line. line.items ≡ heading number entries.now) }
{
    let mut line = Vec::new(alloc);
    line.extend_from_slice(b"listing ")?;
    push_decimal(&mut line, number)?;
    line.extend_from_slice(heading_end(entries).as_bytes())?;
    Ok(line)
}

/// What the heading says of a listing without entries; nothing for any other.
fn heading_end(entries: &[(PortPath, Finding)]) -> &'static str
    ensures { result.now ≡ heading_end entries.now }
{
    match entries.split_first() {
        None => ": no devices",
        Some(_) => "",
    }
}

/// Adds a line for each entry of a listing.
fn push_entries(
    alloc: Global,
    lines: &mut Lines,
    style: Style,
    plan: &Plan,
    taken: u64,
    entries: &[(PortPath, Finding)],
) -> Result<(), AllocError>
    ensures { OnOk result (lines.new ≡ lines.old
        ++ drawn_entries style plan.now.wide (tree_after plan.now taken) entries.now entries.now) }
{
    let most = widest(entries);
    let mut rest = entries;
    'entries: while let Some((entry, behind)) = rest.split_first() {
        let granted = granted_at(&entry.0, entries);
        let mut line = entry_line(alloc, style, most, granted, entry, behind)?;
        push_rule(alloc, &mut line, plan, taken, entry)?;
        lines.push(line)?;
        rest = behind;
    }
    Ok(())
}

/// Art, path, and what was found there.
#[tactic(auto, unfolding(crate::specs::Drawings::entry_line))]
fn entry_line(
    alloc: Global,
    style: Style,
    most: usize,
    granted: Option<u16>,
    entry: &(PortPath, Finding),
    behind: &[(PortPath, Finding)],
) -> Result<Vec<u8>, AllocError>
    ensures { IfOk result (λ line. line.items
        ≡ entry_line style most granted entry.now behind.now) }
{
    let path = &entry.0;
    let mut line = Vec::new(alloc);
    push_art(&mut line, style, path, behind)?;
    push_path(&mut line, path)?;
    push_gap(&mut line, most.saturating_sub(columns(path)))?;
    line.extend_from_slice(b"  ")?;
    push_finding(alloc, &mut line, style, granted, &entry.1)?;
    Ok(line)
}

/// Adds blanks.
fn push_gap(out: &mut Vec<u8>, blanks: usize) -> Result<(), AllocError>
    ensures { OnOk result (out.new.items ≡ out.old.items ++ gap blanks) }
{
    'blanks: for blank in 0..blanks {
        out.extend_from_slice(b" ")?;
    }
    Ok(())
}

/// The columns that art and path take.
fn columns(path: &PortPath) -> usize
    ensures { result ≡ columns path.now }
{
    3 * path.numbers().len() + path.text().len()
}

/// The columns of the widest path.
fn widest(entries: &[(PortPath, Finding)]) -> usize
    ensures { result ≡ widest entries.now }
{
    let Some((entry, behind)) = entries.split_first() else {
        return 0;
    };
    let own = columns(&entry.0);
    let further = widest(behind);
    if own < further { further } else { own }
}

/// What the port at a path gives, in mA, if the listing says it.
fn granted_at(path: &PortPath, entries: &[(PortPath, Finding)]) -> Option<u16>
    ensures { result ≡ granted_at path.now entries.now }
{
    match path.parent() {
        None => Some(supply(true, false)),
        Some(hub) => supply_below(&hub, entries),
    }
}

/// What each port of the hub at a path gives.
fn supply_below(hub: &PortPath, entries: &[(PortPath, Finding)]) -> Option<u16>
    ensures { result ≡ listed_supply hub.now entries.now }
{
    let Some((entry, behind)) = entries.split_first() else {
        return None;
    };
    if entry.0 == *hub {
        finding_supply(&entry.1)
    } else {
        supply_below(hub, behind)
    }
}

/// What each port of a hub gives, in mA; None if the entry is no hub, or is refused.
fn finding_supply(finding: &Finding) -> Option<u16>
    ensures { result ≡ finding_supply finding.now }
{
    match finding {
        Finding::Device(device) => hub_supply(&device.hub),
        Finding::Refused(_) => None,
    }
}

/// What each port of a hub gives, in mA; None if the device is no hub.
fn hub_supply(hub: &Option<HubFacts>) -> Option<u16>
    ensures { result ≡ hub_supply hub.now }
{
    match hub {
        None => None,
        Some(facts) => Some(facts.supply),
    }
}

/// A drawn listing leaves no entry out, and gives each one line.
pub fn drawing_laws()
    // One line is the heading, and each other one an entry's.
    ensures count { (style : AStyle) (number : ℕ) (wide : Bool) (tree : SpecTree)
        (entries : Entries)
        → length (drawing_lines style number wide tree entries) ≡ length entries + 1 }
    // The lines are in the order of the entries, accepted or refused.
    ensures order { (style : AStyle) (number : ℕ) (wide : Bool) (tree : SpecTree)
        (before behind : Entries) (e : List ℕ × AFinding)
        → slice_get (drawing_lines style number wide tree (before ++ e ∷ behind))
        (length before + 1)
        ≡ Some (ruled_line style wide tree (before ++ e ∷ behind) e behind) }
    // No line has a newline.
    ensures whole { (style : AStyle) (number : ℕ) (wide : Bool) (tree : SpecTree)
        (entries : Entries)
        → All (λ line. is_unbroken line ≡ true) (drawing_lines style number wide tree entries) }
{}
