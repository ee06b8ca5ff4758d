//! The lines of a listing.
ghost use Rattle.std.specs.Prelude.{◌≡◌, ◌++◌, ◌∷◌, [], OnOk, IfOk, flat_map, map, option_map};
ghost use Rattle.usb_text.specs.ListingLines.{address_line, config_line, config_lines, hub_line, hub_lines, string_line, string_lines, refused_line, listing_line, bound_line, cause_text, device_lines, finding_lines, entry_lines, said_line, said_lines, told_lines, listing_lines, star, request_word, cause_word, cause_index};

use crate::lines::Lines;
use crate::said::Said;
use crate::text::{push_decimal, push_hex, push_path, push_units, speed_word};
use std::alloc::{AllocError, Global};
use usb_enum::{Accepted, Cause, ConfigText, Finding, HubFacts, Request, StringUnits};
use usb_port::PortPath;

/// Room for a line without a long configuration or text, in bytes.
const ROOM: usize = 128;

/// `listing N`.
#[tactic(auto, unfolding(crate::specs::ListingLines::listing_line))]
fn listing_line(alloc: Global, number: u64) -> Result<Vec<u8>, AllocError>
    ensures { IfOk result (λ line. line.items ≡ listing_line number) }
{
    let mut line = Vec::with_capacity(alloc, ROOM)?;
    line.extend_from_slice(b"listing ")?;
    push_decimal(&mut line, number)?;
    Ok(line)
}

/// `bound N`.
///
/// # Errors
///
/// Memory was refused.
#[tactic(auto, unfolding(crate::specs::ListingLines::bound_line))]
pub fn bound_line(alloc: Global, bound: u64) -> Result<Vec<u8>, AllocError>
    ensures { IfOk result (λ line. line.items ≡ bound_line bound) }
{
    let mut line = Vec::with_capacity(alloc, ROOM)?;
    line.extend_from_slice(b"bound ")?;
    push_decimal(&mut line, bound)?;
    Ok(line)
}

/// `PATH address A full|low HEX`.
#[tactic(auto, unfolding(crate::specs::ListingLines::address_line))]
fn address_line(alloc: Global, path: &PortPath, device: &Accepted) -> Result<Vec<u8>, AllocError>
    ensures { IfOk result (λ line. line.items
        ≡ address_line path.now device.now.address device.now.low device.now.bytes) }
{
    let mut line = Vec::with_capacity(alloc, ROOM)?;
    push_path(&mut line, path)?;
    line.extend_from_slice(b" address ")?;
    push_decimal(&mut line, u64::from(device.address.number()))?;
    line.extend_from_slice(b" ")?;
    line.extend_from_slice(speed_word(device.low).as_bytes())?;
    line.extend_from_slice(b" ")?;
    push_hex(&mut line, &device.bytes)?;
    Ok(line)
}

/// What follows the chosen configuration.
fn star(chosen: bool) -> &'static str
    ensures { result.now ≡ star chosen }
{
    if chosen { " *" } else { "" }
}

/// `PATH config I HEX`, and a star after the chosen one.
#[tactic(auto, unfolding(crate::specs::ListingLines::config_line))]
fn config_line(
    alloc: Global,
    path: &PortPath,
    index: usize,
    text: &[u8],
    chosen: bool,
) -> Result<Vec<u8>, AllocError>
    ensures { IfOk result (λ line. line.items ≡ config_line path.now index text.now chosen) }
{
    let mut line = Vec::with_capacity(alloc, ROOM)?;
    push_path(&mut line, path)?;
    line.extend_from_slice(b" config ")?;
    push_decimal(&mut line, index as u64)?;
    line.extend_from_slice(b" ")?;
    push_hex(&mut line, text)?;
    line.extend_from_slice(star(chosen).as_bytes())?;
    Ok(line)
}

/// Adds the line of each configuration.
fn push_configs(
    alloc: Global,
    lines: &mut Lines,
    path: &PortPath,
    texts: &[ConfigText],
    chosen: usize,
) -> Result<(), AllocError>
    ensures { OnOk result (lines.new ≡ lines.old ++ config_lines path.now 0 chosen texts.now) }
{
    'texts: for (index, text) in texts.iter().enumerate() {
        lines.push(config_line(alloc, path, index, text.as_slice(), index == chosen)?)?;
    }
    Ok(())
}

/// `PATH hub N ports S mA`.
#[tactic(auto, unfolding(crate::specs::ListingLines::hub_line))]
fn hub_line(alloc: Global, path: &PortPath, hub: &HubFacts) -> Result<Vec<u8>, AllocError>
    ensures { IfOk result (λ line. line.items ≡ hub_line path.now hub.now.ports hub.now.supply) }
{
    let mut line = Vec::with_capacity(alloc, ROOM)?;
    push_path(&mut line, path)?;
    line.extend_from_slice(b" hub ")?;
    push_decimal(&mut line, u64::from(hub.ports))?;
    line.extend_from_slice(b" ports ")?;
    push_decimal(&mut line, u64::from(hub.supply))?;
    line.extend_from_slice(b" mA")?;
    Ok(line)
}

/// Adds the line of a hub; nothing of a function.
fn push_hub(
    alloc: Global,
    lines: &mut Lines,
    path: &PortPath,
    hub: &Option<HubFacts>,
) -> Result<(), AllocError>
    ensures { OnOk result (lines.new ≡ lines.old ++ hub_lines path.now hub.now) }
{
    match hub {
        Some(hub) => lines.push(hub_line(alloc, path, hub)?),
        None => Ok(()),
    }
}

/// `PATH LABEL "TEXT"`.
#[tactic(auto, unfolding(crate::specs::ListingLines::string_line))]
fn string_line(
    alloc: Global,
    path: &PortPath,
    label: &str,
    units: &[u16],
) -> Result<Vec<u8>, AllocError>
    ensures { IfOk result (λ line. line.items ≡ string_line path.now label.now units.now) }
{
    let mut line = Vec::with_capacity(alloc, ROOM)?;
    push_path(&mut line, path)?;
    line.extend_from_slice(b" ")?;
    line.extend_from_slice(label.as_bytes())?;
    line.extend_from_slice(b" \"")?;
    push_units(&mut line, units)?;
    line.extend_from_slice(b"\"")?;
    Ok(line)
}

/// Adds the line of a string, if the device has it.
fn push_string(
    alloc: Global,
    lines: &mut Lines,
    path: &PortPath,
    label: &str,
    units: &Option<StringUnits>,
) -> Result<(), AllocError>
    ensures { OnOk result (lines.new ≡ lines.old ++ string_lines path.now label.now units.now) }
{
    match units {
        Some(units) => lines.push(string_line(alloc, path, label, units.as_slice())?),
        None => Ok(()),
    }
}

/// Adds the lines of an accepted device.
#[tactic(auto, unfolding(crate::specs::ListingLines::device_lines))]
fn push_device(
    alloc: Global,
    lines: &mut Lines,
    path: &PortPath,
    device: &Accepted,
) -> Result<(), AllocError>
    ensures { OnOk result (lines.new ≡ lines.old ++ device_lines path.now device.now) }
{
    lines.push(address_line(alloc, path, device)?)?;
    push_configs(alloc, lines, path, device.configs.as_slice(), device.chosen)?;
    push_hub(alloc, lines, path, &device.hub)?;
    push_string(
        alloc,
        lines,
        path,
        "manufacturer",
        &device.strings.manufacturer,
    )?;
    push_string(alloc, lines, path, "product", &device.strings.product)?;
    push_string(alloc, lines, path, "serial", &device.strings.serial_number)
}

/// The request that a stalled device stalled.
fn request_word(request: Request) -> &'static str
    ensures { result.now ≡ request_word request }
{
    match request {
        Request::Device => "stalled device",
        Request::Address => "stalled address",
        Request::Config => "stalled config",
        Request::SetConfig => "stalled set config",
    }
}

/// The words of a cause, without the number that some end in.
fn cause_word(cause: Cause) -> &'static str
    ensures { result.now ≡ cause_word cause }
{
    match cause {
        Cause::Silent => "silent",
        Cause::Busy => "busy",
        Cause::Stalled(request) => request_word(request),
        Cause::BadDevice => "bad device",
        Cause::TooDeep => "too deep",
        Cause::BadConfiguration(_) => "bad configuration ",
        Cause::TooLarge => "too large",
        Cause::NoPower => "no power",
        Cause::BadHub => "bad hub",
        Cause::Lost => "lost",
        Cause::NoAddress => "no address",
    }
}

/// Adds the number that some causes end in.
fn push_index(line: &mut Vec<u8>, cause: Cause) -> Result<(), AllocError>
    ensures { OnOk result (line.new.items ≡ line.old.items ++ cause_index cause) }
{
    match cause {
        Cause::BadConfiguration(index) => push_decimal(line, u64::from(index)),
        _ => Ok(()),
    }
}

/// Adds the words of a cause, and the number that one of them ends in.
///
/// # Errors
///
/// Memory was refused. Part of the text may have been added.
pub fn push_cause(line: &mut Vec<u8>, cause: Cause) -> Result<(), AllocError>
    ensures { OnOk result (line.new.items ≡ line.old.items ++ cause_text cause) }
{
    line.extend_from_slice(cause_word(cause).as_bytes())?;
    push_index(line, cause)
}

/// `PATH refused CAUSE`.
#[tactic(auto, unfolding(crate::specs::ListingLines::refused_line))]
fn refused_line(alloc: Global, path: &PortPath, cause: Cause) -> Result<Vec<u8>, AllocError>
    ensures { IfOk result (λ line. line.items ≡ refused_line path.now cause) }
{
    let mut line = Vec::with_capacity(alloc, ROOM)?;
    push_path(&mut line, path)?;
    line.extend_from_slice(b" refused ")?;
    push_cause(&mut line, cause)?;
    Ok(line)
}

/// Adds the lines of what was found at a port.
fn push_finding(
    alloc: Global,
    lines: &mut Lines,
    path: &PortPath,
    finding: &Finding,
) -> Result<(), AllocError>
    ensures { OnOk result (lines.new ≡ lines.old ++ finding_lines path.now finding.now) }
{
    match finding {
        Finding::Device(device) => push_device(alloc, lines, path, device),
        Finding::Refused(cause) => lines.push(refused_line(alloc, path, *cause)?),
    }
}

/// `PATH said HEX`.
#[tactic(auto, unfolding(crate::specs::ListingLines::said_line))]
fn said_line(alloc: Global, path: &PortPath, said: &[u8]) -> Result<Vec<u8>, AllocError>
    ensures { IfOk result (λ line. line.items ≡ said_line path.now said.now) }
{
    let mut line = Vec::with_capacity(alloc, ROOM)?;
    push_path(&mut line, path)?;
    line.extend_from_slice(b" said ")?;
    push_hex(&mut line, said)?;
    Ok(line)
}

/// Adds nothing if nothing was said.
fn push_said(
    alloc: Global,
    lines: &mut Lines,
    path: &PortPath,
    said: &[u8],
) -> Result<(), AllocError>
    ensures { OnOk result (lines.new ≡ lines.old ++ said_lines path.now said.now) }
{
    if said.is_empty() {
        return Ok(());
    }
    lines.push(said_line(alloc, path, said)?)
}

/// Adds the lines of each entry, and after them what its device said.
fn push_entries(
    alloc: Global,
    lines: &mut Lines,
    entries: &[(PortPath, Finding)],
    said: &Said,
) -> Result<(), AllocError>
    ensures { OnOk result (lines.new ≡ lines.old ++ told_lines entries.now said.now) }
{
    'entries: for (index, entry) in entries.iter().enumerate() {
        push_finding(alloc, lines, &entry.0, &entry.1)?;
        push_said(alloc, lines, &entry.0, said.of(index))?;
    }
    Ok(())
}

/// The lines of a listing, the first one number 1: of each entry, a path and what was found there, and then what
/// its device said.
///
/// # Errors
///
/// Memory was refused.
#[tactic(auto, unfolding(crate::specs::ListingLines::listing_lines))]
pub fn listing_lines(
    alloc: Global,
    number: u64,
    entries: &[(PortPath, Finding)],
    said: &Said,
) -> Result<Lines, AllocError>
    ensures { IfOk result (λ lines. lines ≡ listing_lines number entries.now said.now) }
{
    let mut lines = Lines::new(alloc);
    lines.push(listing_line(alloc, number)?)?;
    push_entries(alloc, &mut lines, entries, said)?;
    let mut end = Vec::new(alloc);
    end.extend_from_slice(b"end")?;
    lines.push(end)?;
    Ok(lines)
}
