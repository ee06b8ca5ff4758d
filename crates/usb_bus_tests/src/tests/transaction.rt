//! Transactions over a simulated bus with one function, of which packets are damaged.

ghost use Rattle.std.specs.Prelude.{◌≡◌, ◌<◌};
ghost use Rattle.usb_transfer.specs.Transactions.{IsTarget};

mod rows;

use super::devices::PLUG_FUNCTION;
use rows::ROWS;
use std::alloc::{AllocError, Global};
use std::str;
use std::test::Fail;
use usb_bus::BusFault;
use usb_packet::Toggle;
use usb_port::PortPath;
use usb_sim::{EndpointNumber, SimBus, Tracer};
use usb_testbus::{plan_text, plugged, trace_of};
use usb_transfer::{Done, Target, TransFault, data_in, data_out, poll_in, setup};

/// An endpoint of the function, by its address: 0 when it is new, and 3 once it is addressed.
#[derive(Clone, Copy)]
enum Endpoint {
    NewControl,
    NewSource,
    Control,
    Source,
    Sink,
}

#[derive(Clone, Copy)]
enum Call {
    Setup([u8; 8]),
    In,
    Out(&'static [u8]),
    Poll,
}

/// A call, the endpoint that it is for, and the toggle that it begins with.
type Step = (Call, Endpoint, Toggle);

/// What a function is asked, and what that brings.
#[derive(Clone, Copy)]
struct Row {
    about: &'static str,
    /// The most attempts that the bus makes.
    limit: u64,
    /// Further keys of the function.
    keys: &'static str,
    damages: &'static str,
    steps: &'static [Step],
    /// Whether the trace is reported too.
    traced: bool,
    /// A line for each step: the bytes or the fault, the toggle after it, and the attempts made by then; what the
    /// bulk OUT endpoint took; and the trace.
    told: &'static str,
}

/// A function with packets of at most 8 bytes and the endpoints bulk IN 1 and bulk OUT 2.
const FUNCTION: &str = r#"
[[device]]
name = "fn"
speed = "full"
descriptor = "120100020000000834127856000100000001"
configs = ["0902200001010080320904000002FF0000000705810208000007050202080000"]
"#;

fn target_of(endpoint: Endpoint) -> Target
    ensures target { IsTarget result }
    ensures max { result.max ≡ 8 }
{
    let addr = match endpoint {
        Endpoint::NewControl | Endpoint::NewSource => 0,
        Endpoint::Control | Endpoint::Source | Endpoint::Sink => 3,
    };
    Target {
        addr,
        max: 8,
        low: false,
        pre: false,
    }
}

fn number_of(endpoint: Endpoint) -> u8
    ensures { result < 16 }
{
    match endpoint {
        Endpoint::NewControl | Endpoint::Control => 0,
        Endpoint::NewSource | Endpoint::Source => 1,
        Endpoint::Sink => 2,
    }
}

/// An answer that is no poll's, as that of a poll.
fn polled(answer: Result<Done, TransFault>) -> Result<Option<Done>, TransFault> {
    match answer {
        Ok(done) => Ok(Some(done)),
        Err(fault) => Err(fault),
    }
}

/// What a call answers, of whose bytes the first 8 are sent; None of a poll that brings no packet.
fn answer_to(
    bus: &mut SimBus<Tracer<Vec<u8>>>,
    call: Call,
    endpoint: Endpoint,
    toggle: &mut Toggle,
) -> Result<Option<Done>, TransFault> {
    let target = target_of(endpoint);
    let number = number_of(endpoint);
    match call {
        Call::Setup(bytes) => polled(setup(bus, target, bytes)),
        Call::In => polled(data_in(bus, target, number, toggle)),
        Call::Out(bytes) => {
            let sent = &bytes[..bytes.len().min(8)];
            polled(data_out(bus, target, number, toggle, sent))
        }
        Call::Poll => poll_in(bus, target, number, toggle),
    }
}

fn hex_of(alloc: Global, bytes: &[u8]) -> Result<String, AllocError> {
    if bytes.is_empty() {
        return String::from_str(alloc, "-");
    }
    hex::encode_upper(alloc, bytes)
}

fn text_of(alloc: Global, answer: Result<Option<Done>, TransFault>) -> Result<String, AllocError> {
    match answer {
        Ok(Some(done)) => hex_of(alloc, done.bytes()),
        Ok(None) => String::from_str(alloc, "none"),
        Err(fault) => format!(in alloc; "{fault:?}"),
    }
}

/// The line that a step reports.
fn line_of(
    alloc: Global,
    bus: &mut SimBus<Tracer<Vec<u8>>>,
    step: Step,
) -> Result<String, AllocError> {
    let (call, endpoint, mut toggle) = step;
    let answer = text_of(alloc, answer_to(bus, call, endpoint, &mut toggle))?;
    format!(in alloc; "{answer} {toggle:?} {}\n", bus.attempts())
}

/// The line that reports what the bulk OUT endpoint took.
fn sink_line(alloc: Global, bus: &SimBus<Tracer<Vec<u8>>>) -> Result<String, AllocError> {
    let path = PortPath::root(1).unwrap();
    let number = EndpointNumber::new(number_of(Endpoint::Sink));
    let taken = hex_of(alloc, bus.sink(&path, number).unwrap_or(&[]))?;
    format!(in alloc; "taken {taken}\n")
}

fn lines_of(
    alloc: Global,
    bus: &mut SimBus<Tracer<Vec<u8>>>,
    steps: &[Step],
) -> Result<String, AllocError> {
    let mut lines = String::new(alloc);
    'steps: for step in steps {
        lines.push_str(line_of(alloc, bus, *step)?.as_str())?;
    }
    lines.push_str(sink_line(alloc, bus)?.as_str())?;
    Ok(lines)
}

/// What a row's function reports.
fn told_by(alloc: Global, row: &Row) -> Result<String, Fail> {
    let text = plan_text(
        alloc,
        row.limit,
        &[PLUG_FUNCTION, FUNCTION, row.keys, row.damages],
    )?;
    let mut bus = plugged(alloc, text.as_str())?;
    let lines = lines_of(alloc, &mut bus, row.steps);
    let trace = trace_of(bus);
    let mut told = lines?;
    if row.traced {
        told.push_str(str::from_utf8(trace.as_slice())?)?;
    }
    Ok(told)
}

#[test]
fn transactions_are_as_told(rt: HostRuntime) -> Result<(), Fail> {
    for row in &ROWS {
        let told = told_by(rt.alloc(), row)?;
        assert_eq!(rt; told.as_str(), row.told, "{}", row.about);
    }
    Ok(())
}

#[test]
fn faults_as_printed(rt: HostRuntime) -> Result<(), Fail> {
    let rows = [
        (TransFault::Stalled, "stalled"),
        (TransFault::Busy, "busy"),
        (TransFault::NoAnswer, "no answer"),
        (TransFault::Bus(BusFault::Limit), "limit reached"),
    ];
    for (fault, text) in rows {
        assert_eq!(rt; format!(in rt.alloc(); "{fault}")?.as_str(), text);
    }
    Ok(())
}
