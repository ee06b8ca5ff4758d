//! What is written of a listing, a line each.
ghost use Rattle.std.specs.Prelude.{◌≡◌, ◌++◌, decimal, IfOk, OnOk};
ghost use Rattle.usb_verdict.specs.Texts.{cause_text, fault_line_text, fault_text, judgement_text, line_head, refusal_text};

use crate::ListingFault;
use std::alloc::{AllocError, Global};
use usb_judge::{Cause, Judgement};
use usb_port::PortPath;

/// Room for a line, in bytes.
const ROOM: usize = 64;

/// `wrong N PATH CAUSE`: what is wrong with the listing after attempt N.
///
/// # Errors
///
/// Memory was refused.
#[tactic(auto, unfolding(crate::specs::Texts::judgement_text))]
pub fn judgement_line(
    alloc: Global,
    attempts: u64,
    judgement: &Judgement,
) -> Result<Vec<u8>, AllocError>
    ensures { IfOk result (λ line. line.items
        ≡ judgement_text attempts judgement.now.path judgement.now.cause) }
{
    let mut line = line_head(alloc, "wrong", attempts)?;
    line.extend_from_slice(judgement.path.text().as_bytes())?;
    line.extend_from_slice(b" ")?;
    line.extend_from_slice(cause_text(judgement.cause).as_bytes())?;
    Ok(line)
}

/// `wrong N listing: TEXT`: the listing after attempt N has a line that says nothing.
///
/// # Errors
///
/// Memory was refused.
#[tactic(auto, unfolding(crate::specs::Texts::fault_line_text))]
pub fn fault_line(alloc: Global, attempts: u64, fault: ListingFault) -> Result<Vec<u8>, AllocError>
    ensures { IfOk result (λ line. line.items ≡ fault_line_text attempts fault) }
{
    let mut line = line_head(alloc, "wrong", attempts)?;
    line.extend_from_slice(b"listing: ")?;
    line.extend_from_slice(fault_text(fault).as_bytes())?;
    Ok(line)
}

/// `note N PATH refused`: the host has refused the device at a port, which it may.
///
/// # Errors
///
/// Memory was refused.
#[tactic(auto, unfolding(crate::specs::Texts::refusal_text))]
pub fn refusal_line(alloc: Global, attempts: u64, path: &PortPath) -> Result<Vec<u8>, AllocError>
    ensures { IfOk result (λ line. line.items ≡ refusal_text attempts path.now) }
{
    let mut line = line_head(alloc, "note", attempts)?;
    line.extend_from_slice(path.text().as_bytes())?;
    line.extend_from_slice(b" refused")?;
    Ok(line)
}

/// `WORD N `: how a line begins.
#[tactic(auto, unfolding(crate::specs::Texts::line_head))]
fn line_head(alloc: Global, word: &str, attempts: u64) -> Result<Vec<u8>, AllocError>
    ensures { IfOk result (λ line. line.items ≡ line_head word.now attempts) }
{
    let mut line = Vec::with_capacity(alloc, ROOM)?;
    line.extend_from_slice(word.as_bytes())?;
    line.extend_from_slice(b" ")?;
    push_decimal(alloc, &mut line, attempts)?;
    line.extend_from_slice(b" ")?;
    Ok(line)
}

/// Adds a number in decimal digits.
pub(crate) fn push_decimal(alloc: Global, line: &mut Vec<u8>, number: u64) -> Result<(), AllocError>
    ensures { OnOk result (line.new.items ≡ line.old.items ++ decimal number) }
{
    let digits = number.to_string(alloc)?;
    line.extend_from_slice(digits.as_bytes())
}

/// The words of a cause.
#[tactic(auto, unfolding(crate::specs::Texts::cause_text))]
fn cause_text(cause: Cause) -> &'static str
    ensures { result.now ≡ cause_text cause }
{
    match cause {
        Cause::Twice => "listed twice",
        Cause::NotPlugged => "nothing plugged",
        Cause::NoHub => "hub not listed",
        Cause::SameAddress => "same address",
        Cause::Disabled => "port disabled",
        Cause::OtherDescriptor => "other descriptor",
        Cause::OtherSpeed => "other speed",
        Cause::OtherAddress => "other address",
        Cause::OtherConfiguration => "other configuration",
        Cause::OtherPorts => "other ports",
        Cause::TooMuchPower => "too much power",
        Cause::LeftEnabled => "left enabled",
        Cause::Missing => "not listed",
    }
}

/// The words of a fault, which are those that it displays.
#[tactic(auto, unfolding(crate::specs::Texts::fault_text))]
fn fault_text(fault: ListingFault) -> &'static str
    ensures { result.now ≡ fault_text fault }
{
    match fault {
        ListingFault::NoLine => "no line of a listing",
        ListingFault::BadPath => "bad path",
        ListingFault::BadNumber => "bad number",
        ListingFault::BadSpeed => "bad speed",
        ListingFault::BadHex => "bad hex",
        ListingFault::NoDevice => "no device before it",
        ListingFault::Memory => "out of memory",
    }
}
