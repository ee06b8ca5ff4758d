ghost use Rattle.std.specs.Prelude.{◌≡◌};
ghost use Rattle.usb_request.specs.Layout.{IsToDevice};

use super::plans::Hit::{AcksLost, Flipped, Lost};
use super::plans::{HUBS, Hit, bus_of};
use super::ready::{TARGET, Told, make_ready, tell, told};
use std::alloc::Global;
use std::test::Fail;
use usb_request::feature::{C_PORT_CONNECTION, PORT_POWER};
use usb_transfer::{Bus, InterruptPipe, PipeFault, Setup, control_in, control_none};

/// A call of the pipe, or a request to its hub.
#[derive(Clone, Copy)]
enum Call {
    /// The pipe asks for a packet: `ok` reports that nothing changed, and `02` that port 1 did.
    Poll,
    /// CLEAR_FEATURE(C_PORT_CONNECTION) of port 1.
    ClearChange,
    /// SET_FEATURE(ENDPOINT_HALT) of endpoint 1.
    Halt,
    /// CLEAR_FEATURE(ENDPOINT_HALT) of endpoint 1.
    ClearHalt,
}

use Call::{ClearChange, ClearHalt, Halt, Poll};

/// The endpoint, the limit and the damaged packets; the calls with their answers, how many attempts are made in all,
/// and the trace from line n + 1 on: 28 were written when the hub was ready.
#[derive(Clone, Copy)]
struct Row {
    name: &'static str,
    endpoint: u8,
    limit: u64,
    hits: &'static [Hit],
    calls: &'static [Call],
    answers: &'static str,
    attempts: u64,
    from: usize,
    trace: &'static str,
}

const ROWS: [Row; 9] = [
    Row {
        name: "no packet is damaged",
        endpoint: 1,
        limit: 10_000,
        hits: &[],
        calls: &[Poll, Poll, Poll],
        answers: "02, 02, 02",
        attempts: 29,
        from: 28,
        trace: "27 IN 1.1 / DATA0 02 / ACK
28 IN 1.1 / DATA1 02 / ACK
29 IN 1.1 / DATA0 02 / ACK
",
    },
    Row {
        name: "an ACK is lost",
        endpoint: 1,
        limit: 10_000,
        hits: &[Lost(27, 3)],
        calls: &[Poll, Poll, Poll],
        answers: "02, 02, 02",
        attempts: 30,
        from: 28,
        trace: "27 IN 1.1 / DATA0 02 / ACK [lost]
28 IN 1.1 / DATA0 02 / ACK
29 IN 1.1 / DATA1 02 / ACK
30 IN 1.1 / DATA0 02 / ACK
",
    },
    Row {
        name: "two errors",
        endpoint: 1,
        limit: 10_000,
        hits: &[Lost(27, 1), Flipped(28, 2, 7)],
        calls: &[Poll, Poll, Poll],
        answers: "02, 02, 02",
        attempts: 31,
        from: 28,
        trace: "27 IN 1.1 [lost] / none
28 IN 1.1 / DATA0 02 [bit 7]
29 IN 1.1 / DATA0 02 / ACK
30 IN 1.1 / DATA1 02 / ACK
31 IN 1.1 / DATA0 02 / ACK
",
    },
    Row {
        name: "three errors",
        endpoint: 1,
        limit: 10_000,
        hits: &[Lost(27, 1), Lost(28, 1), Lost(29, 2)],
        calls: &[Poll, Poll, Poll],
        answers: "no answer, 02, 02",
        attempts: 31,
        from: 28,
        trace: "27 IN 1.1 [lost] / none
28 IN 1.1 [lost] / none
29 IN 1.1 / DATA0 02 [lost]
30 IN 1.1 / DATA0 02 / ACK
31 IN 1.1 / DATA1 02 / ACK
",
    },
    Row {
        name: "a repeat ends a run of errors",
        endpoint: 1,
        limit: 10_000,
        hits: &[
            Lost(27, 3),
            Lost(28, 1),
            Lost(29, 2),
            Flipped(31, 2, 7),
            Flipped(32, 1, 7),
        ],
        calls: &[Poll, Poll, Poll],
        answers: "02, 02, 02",
        attempts: 34,
        from: 28,
        trace: "27 IN 1.1 / DATA0 02 / ACK [lost]
28 IN 1.1 [lost] / none
29 IN 1.1 / DATA0 02 [lost]
30 IN 1.1 / DATA0 02 / ACK
31 IN 1.1 / DATA1 02 [bit 7]
32 IN 1.1 [bit 7] / none
33 IN 1.1 / DATA1 02 / ACK
34 IN 1.1 / DATA0 02 / ACK
",
    },
    Row {
        name: "nothing changed, and a halted endpoint",
        endpoint: 1,
        limit: 37,
        hits: &[],
        calls: &[
            Poll,
            ClearChange,
            Poll,
            Poll,
            Halt,
            Poll,
            ClearHalt,
            Poll,
            Poll,
        ],
        answers: "02, ok, ok, ok, ok, stalled, ok, ok, limit reached",
        attempts: 37,
        from: 28,
        trace: "27 IN 1.1 / DATA0 02 / ACK
28 SETUP 1.0 / DATA0 2301100001000000 / ACK
29 IN 1.0 / DATA1 - / ACK
32 SETUP 1.0 / DATA0 0203000081000000 / ACK
33 IN 1.0 / DATA1 - / ACK
34 IN 1.1 / STALL
35 SETUP 1.0 / DATA0 0201000081000000 / ACK
36 IN 1.0 / DATA1 - / ACK
",
    },
    Row {
        name: "256 repeats come to one poll",
        endpoint: 1,
        limit: 10_000,
        hits: &[AcksLost(27, 283)],
        calls: &[Poll, Poll],
        answers: "02, busy",
        attempts: 283,
        from: 284,
        trace: "283 IN 1.1 / DATA0 02 / ACK [lost]
",
    },
    Row {
        name: "a poll behind 256 repeats",
        endpoint: 1,
        limit: 10_000,
        hits: &[AcksLost(27, 283)],
        calls: &[Poll, Poll, Poll],
        answers: "02, busy, 02",
        attempts: 285,
        from: 285,
        trace: "284 IN 1.1 / DATA0 02 / ACK
285 IN 1.1 / DATA1 02 / ACK
",
    },
    Row {
        name: "an endpoint that is not there",
        endpoint: 2,
        limit: 10_000,
        hits: &[],
        calls: &[Poll],
        answers: "no answer",
        attempts: 29,
        from: 28,
        trace: "27 IN 1.2 / none
28 IN 1.2 / none
29 IN 1.2 / none
",
    },
];

/// Asks the hub at address 1 what it is, and to give power to its two ports.
fn make_hub_ready<B: Bus>(alloc: Global, bus: &mut B) -> Result<(), PipeFault> {
    control_in(alloc, bus, TARGET, Setup::get_hub_descriptor())?;
    control_in(alloc, bus, TARGET, Setup::get_status())?;
    control_none(bus, TARGET, Setup::set_port_feature(PORT_POWER, 1))?;
    control_none(bus, TARGET, Setup::set_port_feature(PORT_POWER, 2))
}

/// SET_FEATURE(ENDPOINT_HALT) (9.4.9).
fn halt(endpoint: u16) -> Setup
    ensures direction { IsToDevice result }
    ensures data_length { result.length ≡ 0 }
{
    Setup {
        request_type: 2,
        request: 3,
        value: 0,
        index: endpoint,
        length: 0,
    }
}

fn called<B: Bus>(
    alloc: Global,
    bus: &mut B,
    pipe: &mut InterruptPipe,
    call: Call,
) -> Result<Vec<u8>, PipeFault> {
    match call {
        Call::Poll => return polled(alloc, bus, pipe),
        Call::ClearChange => {
            let clear = Setup::clear_port_feature(C_PORT_CONNECTION, 1);
            control_none(bus, TARGET, clear)?;
        }
        Call::Halt => control_none(bus, TARGET, halt(0x81))?,
        Call::ClearHalt => control_none(bus, TARGET, Setup::clear_endpoint_halt(0x81))?,
    }
    Ok(Vec::new(alloc))
}

/// The bytes of the packet, none if nothing changed.
fn polled<B: Bus>(
    alloc: Global,
    bus: &mut B,
    pipe: &mut InterruptPipe,
) -> Result<Vec<u8>, PipeFault> {
    let mut bytes = Vec::new(alloc);
    if let Some(packet) = pipe.poll(bus)? {
        bytes.extend_from_slice(packet.as_slice())?;
    }
    Ok(bytes)
}

/// The answers of a hub that was made ready.
fn answers<B: Bus>(alloc: Global, bus: &mut B, row: &Row) -> Result<String, Fail> {
    make_ready(alloc, bus, TARGET)?;
    make_hub_ready(alloc, bus)?;
    let mut pipe = InterruptPipe::new(TARGET, row.endpoint.min(15), 1);
    let mut answers = String::new(alloc);
    'calls: for call in row.calls {
        let answer = called(alloc, bus, &mut pipe, *call);
        tell(alloc, &mut answers, answer)?;
    }
    Ok(answers)
}

fn asked(alloc: Global, row: &Row) -> Result<Told, Fail> {
    let mut bus = bus_of(alloc, row.limit, HUBS, "", row.hits)?;
    bus.apply_next_event()?;
    let answers = answers(alloc, &mut bus, row)?;
    told(alloc, answers, bus, row.from)
}

#[test]
fn a_poll_asks_again_until_there_is_an_answer(rt: HostRuntime) -> Result<(), Fail> {
    for row in &ROWS {
        let (answers, attempts, trace) = asked(rt.alloc(), row)?;
        assert_eq!(rt;
            (answers.as_str(), attempts, trace.as_str()),
            (row.answers, row.attempts, row.trace),
            "{}",
            row.name
        );
    }
    Ok(())
}
