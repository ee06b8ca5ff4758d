//! The requests that make a device ready, and what a row reports: its answers and its trace.
ghost use Rattle.usb_transfer.specs.Transactions.{IsTarget};

use std::alloc::Global;
use std::test::Fail;
use usb_sim::{SimBus, Tracer};
use usb_testbus::trace_of;
use usb_transfer::{Bus, PipeFault, Setup, Target, control_in, control_none};

/// A full-speed device at address 1.
pub(super) const TARGET: Target = Target {
    addr: 1,
    max: 64,
    low: false,
    pre: false,
};

/// A low-speed device at address 1.
pub(super) const LOW_TARGET: Target = Target {
    addr: 1,
    max: 8,
    low: true,
    pre: false,
};

pub(super) fn target_of(low: bool) -> Target
    ensures { IsTarget result }
{
    if low { LOW_TARGET } else { TARGET }
}

/// Reads the descriptors of a device without an address, gives it address 1, and configures it. The device descriptor
/// is the answer.
pub(super) fn make_ready<B: Bus>(
    alloc: Global,
    bus: &mut B,
    target: Target,
) -> Result<Vec<u8>, PipeFault>
    requires { IsTarget target }
{
    name(alloc, bus, target)?;
    let device = control_in(alloc, bus, target, Setup::get_device_descriptor(18))?;
    configure(alloc, bus, target)?;
    Ok(device)
}

/// Reads the head of the device descriptor and gives address 1.
fn name<B: Bus>(alloc: Global, bus: &mut B, target: Target) -> Result<(), PipeFault>
    requires { IsTarget target }
{
    let unknown = Target {
        addr: 0,
        max: 8,
        ..target
    };
    control_in(alloc, bus, unknown, Setup::get_device_descriptor(8))?;
    let unnamed = Target { addr: 0, ..target };
    control_none(bus, unnamed, Setup::set_address(1))
}

/// Reads the configuration, first its head, and sets it.
fn configure<B: Bus>(alloc: Global, bus: &mut B, target: Target) -> Result<(), PipeFault>
    requires { IsTarget target }
{
    let request = Setup::get_configuration_descriptor(0, 9);
    let head = control_in(alloc, bus, target, request)?;
    let total = match head.get(2) {
        Some(total) => u16::from(*total).max(1),
        None => 1,
    };
    let whole = Setup::get_configuration_descriptor(0, total);
    control_in(alloc, bus, target, whole)?;
    control_none(bus, target, Setup::set_configuration(1))
}

/// What making a device ready answers, as `tell` reports it.
pub(super) fn made_ready<B: Bus>(alloc: Global, bus: &mut B, target: Target) -> Result<String, Fail>
    requires { IsTarget target }
{
    let mut answer = String::new(alloc);
    let ready = make_ready(alloc, bus, target);
    tell(alloc, &mut answer, ready)?;
    Ok(answer)
}

/// Reports an answer after the earlier ones: its bytes in hexadecimal digits, `ok` where there are none, or its fault.
pub(super) fn tell(
    alloc: Global,
    answers: &mut String,
    answer: Result<Vec<u8>, PipeFault>,
) -> Result<(), Fail> {
    if !answers.is_empty() {
        answers.push_str(", ")?;
    }
    match answer {
        Ok(bytes) if bytes.is_empty() => answers.push_str("ok")?,
        Ok(bytes) => answers.push_str(hex::encode_upper(alloc, bytes)?.as_str())?,
        Err(fault) => write!(answers, "{fault}")?,
    }
    Ok(())
}

/// As `tell` where no bytes are answered.
pub(super) fn tell_done(
    alloc: Global,
    answers: &mut String,
    answer: Result<(), PipeFault>,
) -> Result<(), Fail> {
    tell(alloc, answers, answer.map(|_| Vec::new(alloc)))
}

/// The answers of a row, how many attempts were made, and lines of the trace.
pub(super) type Told = (String, u64, String);

/// What a row reports, with the trace from line n + 1 on.
pub(super) fn told(
    alloc: Global,
    answers: String,
    bus: SimBus<Tracer<Vec<u8>>>,
    from: usize,
) -> Result<Told, Fail> {
    let attempts = bus.attempts();
    Ok((
        answers,
        attempts,
        lines(alloc, trace_of(bus).as_slice(), from)?,
    ))
}

/// The lines of a trace from line n + 1 on, without those of an IN that was answered by NAK.
fn lines(alloc: Global, trace: &[u8], from: usize) -> Result<String, Fail> {
    let mut lines = String::new(alloc);
    for line in str::from_utf8(trace)?.lines().skip(from) {
        if !line.ends_with("/ NAK") {
            writeln!(lines, "{line}")?;
        }
    }
    Ok(lines)
}
