//! Why a device is refused, in words.
ghost use Rattle.std.specs.Prelude.{◌≡◌, ◌++◌, OnOk};
ghost use Rattle.usb_drawing.specs.Devices.{cause_number, cause_words, refused_text, stall_words, supply_text};

use std::alloc::AllocError;
use usb_enum::{Cause, Request};
use usb_text::push_decimal;

/// Adds that a device is refused, and why; its port gives so much.
pub(crate) fn push_refused(
    out: &mut Vec<u8>,
    granted: Option<u16>,
    cause: Cause,
) -> Result<(), AllocError>
    ensures { OnOk result (out.new.items ≡ out.old.items ++ refused_text granted cause) }
{
    out.extend_from_slice(b"refused: ")?;
    out.extend_from_slice(cause_words(cause).as_bytes())?;
    push_number(out, granted, cause)
}

/// The words of a cause, up to the number that some have.
fn cause_words(cause: Cause) -> &'static str
    ensures { result.now ≡ cause_words cause }
{
    match cause {
        Cause::Silent => "gives no answer",
        Cause::Busy => "is busy for too long",
        Cause::Stalled(request) => stall_words(request),
        Cause::BadDevice => "its device descriptor is malformed",
        Cause::TooDeep => "a hub in the seventh tier",
        Cause::BadConfiguration(_) => "malformed or repeated: configuration ",
        Cause::TooLarge => "its configurations have more bytes than the host takes",
        Cause::NoPower => "each configuration needs more than its port gives",
        Cause::BadHub => "a hub that cannot be served",
        Cause::Lost => "its port was not enabled by the reset",
        Cause::NoAddress => "no address is free",
    }
}

/// Which request the device stalls, in words.
fn stall_words(request: Request) -> &'static str
    ensures { result.now ≡ stall_words request }
{
    match request {
        Request::Device => "stalls the request for its device descriptor",
        Request::Address => "stalls the request to take an address",
        Request::Config => "stalls the request for a configuration",
        Request::SetConfig => "stalls the request to be configured",
    }
}

/// Adds the number after the words of a cause: which configuration, or what the port gives.
fn push_number(out: &mut Vec<u8>, granted: Option<u16>, cause: Cause) -> Result<(), AllocError>
    ensures { OnOk result (out.new.items ≡ out.old.items ++ cause_number granted cause) }
{
    match cause {
        Cause::BadConfiguration(index) => push_decimal(out, u64::from(index)),
        Cause::NoPower => push_supply(out, granted),
        _ => Ok(()),
    }
}

/// Adds what the port gives, in mA, if that is known.
fn push_supply(out: &mut Vec<u8>, granted: Option<u16>) -> Result<(), AllocError>
    ensures { OnOk result (out.new.items ≡ out.old.items ++ supply_text granted) }
{
    match granted {
        None => Ok(()),
        Some(granted) => {
            out.extend_from_slice(b", ")?;
            push_decimal(out, u64::from(granted))?;
            out.extend_from_slice(b" mA")
        }
    }
}
