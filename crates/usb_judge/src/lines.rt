//! Remarks as lines.
ghost use Rattle.std.specs.Prelude.{◌≡◌, ◌++◌, decimal, IfOk, OnOk};
ghost use Rattle.usb_judge.specs.Texts.{data_text, empty_text, head_text, remark_text};

use crate::remark::Remark;
use std::alloc::{AllocError, Global};
use usb_port::PortPath;

/// Room for a line, in bytes.
const ROOM: usize = 64;

/// `wrong N address A WORDS`, or `note N address A WORDS`: a remark on attempt N, which is for
/// address A.
///
/// # Errors
///
/// Memory was refused.
#[tactic(auto, unfolding(crate::specs::Texts::remark_text))]
pub fn remark_line(
    alloc: Global,
    number: u64,
    address: u8,
    remark: Remark,
) -> Result<Vec<u8>, AllocError>
    ensures { IfOk result (λ line. line.items ≡ remark_text number address remark) }
{
    let mut line = begun(alloc, remark.is_fault(), number)?;
    line.extend_from_slice(b" address ")?;
    push_decimal(alloc, &mut line, u64::from(address))?;
    line.extend_from_slice(b" ")?;
    line.extend_from_slice(remark.words().as_bytes())?;
    Ok(line)
}

/// `wrong N PATH other data`: the data that the host reported after attempt N are not those that
/// the device gave.
///
/// # Errors
///
/// Memory was refused.
#[tactic(auto, unfolding(crate::specs::Texts::data_text))]
pub fn data_line(alloc: Global, number: u64, path: &PortPath) -> Result<Vec<u8>, AllocError>
    ensures { IfOk result (λ line. line.items ≡ data_text number path.now) }
{
    let mut line = begun(alloc, true, number)?;
    line.extend_from_slice(b" ")?;
    line.extend_from_slice(path.text().as_bytes())?;
    line.extend_from_slice(b" other data")?;
    Ok(line)
}

/// `note N port P empty`: the host reset root port P after attempt N, and nothing is plugged there.
///
/// # Errors
///
/// Memory was refused.
#[tactic(auto, unfolding(crate::specs::Texts::empty_text))]
pub fn empty_line(alloc: Global, number: u64, port: u8) -> Result<Vec<u8>, AllocError>
    ensures { IfOk result (λ line. line.items ≡ empty_text number port) }
{
    let mut line = begun(alloc, false, number)?;
    line.extend_from_slice(b" port ")?;
    push_decimal(alloc, &mut line, u64::from(port))?;
    line.extend_from_slice(b" empty")?;
    Ok(line)
}

/// `wrong N` of a fault, else `note N`.
#[tactic(auto, unfolding(crate::specs::Texts::head_text))]
fn begun(alloc: Global, fault: bool, number: u64) -> Result<Vec<u8>, AllocError>
    ensures { IfOk result (λ line. line.items ≡ head_text fault number) }
{
    let mut line = Vec::with_capacity(alloc, ROOM)?;
    if fault {
        line.extend_from_slice(b"wrong ")?;
    } else {
        line.extend_from_slice(b"note ")?;
    }
    push_decimal(alloc, &mut line, number)?;
    Ok(line)
}

/// Adds a number in decimal digits.
fn push_decimal(alloc: Global, line: &mut Vec<u8>, number: u64) -> Result<(), AllocError>
    ensures { OnOk result (line.new.items ≡ line.old.items ++ decimal number) }
{
    let digits = number.to_string(alloc)?;
    line.extend_from_slice(digits.as_bytes())
}
