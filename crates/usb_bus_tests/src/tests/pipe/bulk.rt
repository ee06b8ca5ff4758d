ghost use Rattle.std.specs.Prelude.{◌≡◌, false, true};

use super::plans::Hit::{Flipped, Lost};
use super::plans::{BULK, Hit, SMALL_BULK, bus_of};
use super::ready::{TARGET, Told, make_ready, tell, told};
use std::alloc::{AllocError, Global};
use std::test::Fail;
use usb_sim::{SimBus, Tracer};
use usb_transfer::{Bus, EndpointKind, EndpointPipe, PipeFault, UsableEndpoint};

/// A call of one of the two pipes to an endpoint.
#[derive(Clone, Copy)]
enum Call {
    /// Sends the bytes 1 to n.
    Send(u8),
    /// Clears the halt of the pipe that sends.
    ClearOut,
    /// Receives at most n packets.
    Receive(u16),
    /// Clears the halt of the pipe that receives.
    ClearIn,
    /// The same, whatever the pipe saw.
    ClearInAnyway,
    /// Asks once for a packet.
    Poll,
}

use Call::{ClearIn, ClearInAnyway, ClearOut, Poll, Receive, Send};

/// A device, the number of an endpoint, and the most bytes of its packets.
#[derive(Clone, Copy)]
struct Place {
    device: &'static [&'static str],
    endpoint: u8,
    most: u8,
}

/// The bulk endpoints with packets of 64 bytes.
const WIDE: Place = Place {
    device: BULK,
    endpoint: 2,
    most: 64,
};

/// Those with packets of 8 bytes.
const NARROW: Place = Place {
    device: SMALL_BULK,
    endpoint: 2,
    most: 8,
};

/// An endpoint that is not there.
const ABSENT: Place = Place {
    device: BULK,
    endpoint: 3,
    most: 64,
};

/// A place, what else the plan says of its device, the limit and the damaged packets; the calls
/// with their answers, how many attempts are made in all, and the trace without its NAKs after the 16 attempts that
/// made the device ready.
#[derive(Clone, Copy)]
struct Row {
    name: &'static str,
    at: Place,
    quirk: &'static str,
    limit: u64,
    hits: &'static [Hit],
    calls: &'static [Call],
    answers: &'static str,
    attempts: u64,
    trace: &'static str,
}

const ROWS: [Row; 18] = [
    Row {
        name: "130 bytes",
        at: WIDE,
        quirk: "",
        limit: 10_000,
        hits: &[],
        calls: &[Send(130)],
        answers: "ok",
        attempts: 19,
        trace: "17 OUT 1.2 / DATA0 0102030405060708090A0B0C0D0E0F101112131415161718191A1B1C1D1E1F202122232425262728292A2B2C2D2E2F303132333435363738393A3B3C3D3E3F40 / ACK
18 OUT 1.2 / DATA1 4142434445464748494A4B4C4D4E4F505152535455565758595A5B5C5D5E5F606162636465666768696A6B6C6D6E6F707172737475767778797A7B7C7D7E7F80 / ACK
19 OUT 1.2 / DATA0 8182 / ACK
",
    },
    Row {
        name: "two ACKs are lost",
        at: WIDE,
        quirk: "",
        limit: 10_000,
        hits: &[Lost(17, 3), Lost(18, 3)],
        calls: &[Send(130)],
        answers: "ok",
        attempts: 21,
        trace: "17 OUT 1.2 / DATA0 0102030405060708090A0B0C0D0E0F101112131415161718191A1B1C1D1E1F202122232425262728292A2B2C2D2E2F303132333435363738393A3B3C3D3E3F40 / ACK [lost]
18 OUT 1.2 / DATA0 0102030405060708090A0B0C0D0E0F101112131415161718191A1B1C1D1E1F202122232425262728292A2B2C2D2E2F303132333435363738393A3B3C3D3E3F40 / ACK [lost]
19 OUT 1.2 / DATA0 0102030405060708090A0B0C0D0E0F101112131415161718191A1B1C1D1E1F202122232425262728292A2B2C2D2E2F303132333435363738393A3B3C3D3E3F40 / ACK
20 OUT 1.2 / DATA1 4142434445464748494A4B4C4D4E4F505152535455565758595A5B5C5D5E5F606162636465666768696A6B6C6D6E6F707172737475767778797A7B7C7D7E7F80 / ACK
21 OUT 1.2 / DATA0 8182 / ACK
",
    },
    Row {
        name: "three ACKs are lost",
        at: WIDE,
        quirk: "",
        limit: 10_000,
        hits: &[Lost(17, 3), Lost(18, 3), Lost(19, 3)],
        calls: &[Send(130), Send(130), ClearOut],
        answers: "no answer, broken, ok",
        attempts: 21,
        trace: "17 OUT 1.2 / DATA0 0102030405060708090A0B0C0D0E0F101112131415161718191A1B1C1D1E1F202122232425262728292A2B2C2D2E2F303132333435363738393A3B3C3D3E3F40 / ACK [lost]
18 OUT 1.2 / DATA0 0102030405060708090A0B0C0D0E0F101112131415161718191A1B1C1D1E1F202122232425262728292A2B2C2D2E2F303132333435363738393A3B3C3D3E3F40 / ACK [lost]
19 OUT 1.2 / DATA0 0102030405060708090A0B0C0D0E0F101112131415161718191A1B1C1D1E1F202122232425262728292A2B2C2D2E2F303132333435363738393A3B3C3D3E3F40 / ACK [lost]
20 SETUP 1.0 / DATA0 0201000002000000 / ACK
21 IN 1.0 / DATA1 - / ACK
",
    },
    Row {
        name: "an endpoint that halts after two packets",
        at: WIDE,
        quirk: "halt_after = 2\n",
        limit: 10_000,
        hits: &[],
        calls: &[Send(130), ClearOut, Send(2)],
        answers: "stalled, ok, ok",
        attempts: 22,
        trace: "17 OUT 1.2 / DATA0 0102030405060708090A0B0C0D0E0F101112131415161718191A1B1C1D1E1F202122232425262728292A2B2C2D2E2F303132333435363738393A3B3C3D3E3F40 / ACK
18 OUT 1.2 / DATA1 4142434445464748494A4B4C4D4E4F505152535455565758595A5B5C5D5E5F606162636465666768696A6B6C6D6E6F707172737475767778797A7B7C7D7E7F80 / ACK
19 OUT 1.2 / DATA0 8182 / STALL
20 SETUP 1.0 / DATA0 0201000002000000 / ACK
21 IN 1.0 / DATA1 - / ACK
22 OUT 1.2 / DATA0 0102 / ACK
",
    },
    Row {
        name: "the answers to clearing a halt are lost",
        at: WIDE,
        quirk: "halt_after = 1\n",
        limit: 10_000,
        hits: &[Lost(20, 1), Lost(21, 1), Lost(22, 1)],
        calls: &[Send(65), ClearOut, Send(1), ClearOut, Send(1)],
        answers: "stalled, no answer, broken, ok, ok",
        attempts: 25,
        trace: "17 OUT 1.2 / DATA0 0102030405060708090A0B0C0D0E0F101112131415161718191A1B1C1D1E1F202122232425262728292A2B2C2D2E2F303132333435363738393A3B3C3D3E3F40 / ACK
18 OUT 1.2 / DATA1 41 / STALL
19 SETUP 1.0 / DATA0 0201000002000000 / ACK
20 IN 1.0 [lost] / none
21 IN 1.0 [lost] / none
22 IN 1.0 [lost] / none
23 SETUP 1.0 / DATA0 0201000002000000 / ACK
24 IN 1.0 / DATA1 - / ACK
25 OUT 1.2 / DATA0 01 / ACK
",
    },
    Row {
        name: "no bytes",
        at: WIDE,
        quirk: "",
        limit: 10_000,
        hits: &[],
        calls: &[Send(0)],
        answers: "ok",
        attempts: 16,
        trace: "",
    },
    Row {
        name: "no bytes, and two whole packets",
        at: NARROW,
        quirk: "",
        limit: 10_000,
        hits: &[],
        calls: &[Send(0), Send(16)],
        answers: "ok, ok",
        attempts: 18,
        trace: "17 OUT 1.2 / DATA0 0102030405060708 / ACK
18 OUT 1.2 / DATA1 090A0B0C0D0E0F10 / ACK
",
    },
    Row {
        name: "a stalled pipe is used again",
        at: WIDE,
        quirk: "halt_after = 1\n",
        limit: 10_000,
        hits: &[],
        calls: &[Send(65), Send(1), Send(0), ClearOut, Send(1), ClearOut],
        answers: "stalled, stalled, ok, ok, ok, ok",
        attempts: 22,
        trace: "17 OUT 1.2 / DATA0 0102030405060708090A0B0C0D0E0F101112131415161718191A1B1C1D1E1F202122232425262728292A2B2C2D2E2F303132333435363738393A3B3C3D3E3F40 / ACK
18 OUT 1.2 / DATA1 41 / STALL
19 OUT 1.2 / DATA1 01 / STALL
20 SETUP 1.0 / DATA0 0201000002000000 / ACK
21 IN 1.0 / DATA1 - / ACK
22 OUT 1.2 / DATA0 01 / ACK
",
    },
    Row {
        name: "an endpoint that takes nothing",
        at: ABSENT,
        quirk: "",
        limit: 10_000,
        hits: &[],
        calls: &[Send(1), ClearOut, Send(0)],
        answers: "no answer, stalled, broken",
        attempts: 21,
        trace: "17 OUT 1.3 / DATA0 01 / none
18 OUT 1.3 / DATA0 01 / none
19 OUT 1.3 / DATA0 01 / none
20 SETUP 1.0 / DATA0 0201000003000000 / ACK
21 IN 1.0 / STALL
",
    },
    Row {
        name: "a pipe that was broken twice",
        at: NARROW,
        quirk: "",
        limit: 10_000,
        hits: &[
            Lost(18, 1),
            Lost(19, 2),
            Flipped(20, 2, 7),
            Lost(22, 1),
            Flipped(23, 1, 7),
            Lost(24, 1),
        ],
        calls: &[
            ClearOut,
            Send(1),
            Send(2),
            Send(3),
            Send(0),
            ClearOut,
            Send(3),
            ClearOut,
            Send(4),
        ],
        answers: "ok, ok, no answer, broken, broken, no answer, broken, ok, ok",
        attempts: 27,
        trace: "17 OUT 1.2 / DATA0 01 / ACK
18 OUT 1.2 [lost] / DATA1 0102 / none
19 OUT 1.2 / DATA1 0102 [lost] / none
20 OUT 1.2 / DATA1 0102 [bit 7] / none
21 SETUP 1.0 / DATA0 0201000002000000 / ACK
22 IN 1.0 [lost] / none
23 IN 1.0 [bit 7] / none
24 IN 1.0 [lost] / none
25 SETUP 1.0 / DATA0 0201000002000000 / ACK
26 IN 1.0 / DATA1 - / ACK
27 OUT 1.2 / DATA0 01020304 / ACK
",
    },
    Row {
        name: "a source with one packet",
        at: WIDE,
        quirk: "",
        limit: 10_000,
        hits: &[],
        calls: &[Receive(4), Receive(1), Receive(1)],
        answers: "AABBCC, busy, broken",
        attempts: 273,
        trace: "17 IN 1.2 / DATA0 AABBCC / ACK
",
    },
    Row {
        name: "no packets",
        at: WIDE,
        quirk: "",
        limit: 10_000,
        hits: &[],
        calls: &[Receive(0)],
        answers: "ok",
        attempts: 16,
        trace: "",
    },
    Row {
        name: "packets that are damaged and a short one",
        at: NARROW,
        quirk: "",
        limit: 10_000,
        hits: &[Lost(17, 3), Flipped(19, 2, 7)],
        calls: &[Receive(0), Receive(1), Receive(4), Receive(1)],
        answers: "ok, 0102030405060708, 090A0B0C0D0E0F1011121314, busy",
        attempts: 277,
        trace: "17 IN 1.2 / DATA0 0102030405060708 / ACK [lost]
18 IN 1.2 / DATA0 0102030405060708 / ACK
19 IN 1.2 / DATA1 090A0B0C0D0E0F10 [bit 7]
20 IN 1.2 / DATA1 090A0B0C0D0E0F10 / ACK
21 IN 1.2 / DATA0 11121314 / ACK
",
    },
    Row {
        name: "an endpoint that gives nothing",
        at: ABSENT,
        quirk: "",
        limit: 10_000,
        hits: &[],
        calls: &[Receive(1), ClearIn, Receive(0)],
        answers: "no answer, stalled, broken",
        attempts: 21,
        trace: "17 IN 1.3 / none
18 IN 1.3 / none
19 IN 1.3 / none
20 SETUP 1.0 / DATA0 0201000083000000 / ACK
21 IN 1.0 / STALL
",
    },
    Row {
        name: "a pipe that is cleared twice",
        at: WIDE,
        quirk: "",
        limit: 10_000,
        hits: &[],
        calls: &[Receive(1), Receive(1), ClearIn, Receive(0), ClearIn],
        answers: "AABBCC, busy, ok, ok, ok",
        attempts: 275,
        trace: "17 IN 1.2 / DATA0 AABBCC / ACK
274 SETUP 1.0 / DATA0 0201000082000000 / ACK
275 IN 1.0 / DATA1 - / ACK
",
    },
    Row {
        name: "polls, whatever is lost, and a clear of a pipe that works",
        at: NARROW,
        quirk: "",
        limit: 10_000,
        hits: &[Lost(17, 3), Lost(20, 1), Lost(21, 1), Lost(22, 1)],
        calls: &[Poll, Poll, Poll, Poll, Poll, ClearInAnyway, Poll],
        answers: "0102030405060708, 090A0B0C0D0E0F10, no answer, 11121314, ok, ok, ok",
        attempts: 27,
        trace: "17 IN 1.2 / DATA0 0102030405060708 / ACK [lost]
18 IN 1.2 / DATA0 0102030405060708 / ACK
19 IN 1.2 / DATA1 090A0B0C0D0E0F10 / ACK
20 IN 1.2 [lost] / none
21 IN 1.2 [lost] / none
22 IN 1.2 [lost] / none
23 IN 1.2 / DATA0 11121314 / ACK
25 SETUP 1.0 / DATA0 0201000082000000 / ACK
26 IN 1.0 / DATA1 - / ACK
",
    },
    Row {
        name: "the limit ends a transfer that sends",
        at: NARROW,
        quirk: "",
        limit: 18,
        hits: &[],
        calls: &[Send(17), Send(1)],
        answers: "limit reached, limit reached",
        attempts: 18,
        trace: "17 OUT 1.2 / DATA0 0102030405060708 / ACK
18 OUT 1.2 / DATA1 090A0B0C0D0E0F10 / ACK
",
    },
    Row {
        name: "the limit ends a transfer that receives",
        at: NARROW,
        quirk: "",
        limit: 18,
        hits: &[],
        calls: &[Receive(3)],
        answers: "limit reached",
        attempts: 18,
        trace: "17 IN 1.2 / DATA0 0102030405060708 / ACK
18 IN 1.2 / DATA1 090A0B0C0D0E0F10 / ACK
",
    },
];

fn pipe_to(endpoint: u8, most: u8, is_in: bool) -> EndpointPipe
    ensures { result.is_in ≡ is_in }
{
    let usable = UsableEndpoint {
        kind: EndpointKind::Bulk,
        max: most.clamp(1, 64),
        interface: 0,
    };
    EndpointPipe::new(TARGET, endpoint.min(15), usable, is_in)
}

/// The bytes 1 to 130.
fn counted(alloc: Global) -> Result<Vec<u8>, AllocError> {
    let mut bytes = Vec::new(alloc);
    for i in 0..130u8 {
        bytes.push(i + 1)?;
    }
    Ok(bytes)
}

/// The bytes of a packet that a poll gave, or none.
fn polled<B: Bus>(
    alloc: Global,
    bus: &mut B,
    source: &mut EndpointPipe,
) -> Result<Vec<u8>, PipeFault>
    requires source { source.old.is_in ≡ true }
    ensures source { source.new.is_in ≡ true }
{
    let mut bytes = Vec::new(alloc);
    if let Some(packet) = source.poll(bus)? {
        bytes.extend_from_slice(&packet)?;
    }
    Ok(bytes)
}

fn called<B: Bus>(
    alloc: Global,
    bus: &mut B,
    sink: &mut EndpointPipe,
    source: &mut EndpointPipe,
    call: Call,
) -> Result<Vec<u8>, PipeFault>
    requires sink { sink.old.is_in ≡ false }
    requires source { source.old.is_in ≡ true }
    ensures sink { sink.new.is_in ≡ false }
    ensures source { source.new.is_in ≡ true }
{
    match call {
        Call::Send(count) => {
            let bytes = counted(alloc)?;
            sink.send(bus, &bytes[..bytes.len().min(usize::from(count))])?;
        }
        Call::ClearOut => sink.clear_halt(bus)?,
        Call::Receive(packets) => return source.receive(alloc, bus, packets),
        Call::ClearIn => source.clear_halt(bus)?,
        Call::ClearInAnyway => source.clear(bus)?,
        Call::Poll => return polled(alloc, bus, source),
    }
    Ok(Vec::new(alloc))
}

/// The answers of a device that was made ready.
fn answers<B: Bus>(alloc: Global, bus: &mut B, row: &Row) -> Result<String, Fail> {
    make_ready(alloc, bus, TARGET)?;
    let mut sink = pipe_to(row.at.endpoint, row.at.most, false);
    let mut source = pipe_to(row.at.endpoint, row.at.most, true);
    let mut answers = String::new(alloc);
    'calls: for call in row.calls {
        let answer = called(alloc, bus, &mut sink, &mut source, *call);
        tell(alloc, &mut answers, answer)?;
    }
    Ok(answers)
}

fn moved(alloc: Global, row: &Row) -> Result<Told, Fail> {
    let mut bus = bus_of(alloc, row.limit, row.at.device, row.quirk, row.hits)?;
    let answers = answers(alloc, &mut bus, row)?;
    told(alloc, answers, bus, 17)
}

#[test]
fn a_pipe_moves_bytes(rt: HostRuntime) -> Result<(), Fail> {
    for row in &ROWS {
        let (answers, attempts, trace) = moved(rt.alloc(), row)?;
        assert_eq!(rt;
            (answers.as_str(), attempts, trace.as_str()),
            (row.answers, row.attempts, row.trace),
            "{}",
            row.name
        );
    }
    Ok(())
}

/// What comes after a first packet for which memory was refused: what a second `receive` answers, how many attempts it
/// makes, and how many bytes come once the pipe was cleared.
fn behind_a_refusal(
    alloc: Global,
    bus: &mut SimBus<Tracer<Vec<u8>>>,
    pipe: &mut EndpointPipe,
) -> Result<(Option<PipeFault>, u64, usize), PipeFault>
    requires { pipe.old.is_in ≡ true }
{
    let before = bus.attempts();
    let second = pipe.receive(alloc, bus, 1).err();
    let made = bus.attempts() - before;
    pipe.clear_halt(bus)?;
    Ok((second, made, pipe.receive(alloc, bus, 1)?.len()))
}

/// Whether the first packet comes, or what comes after a refusal is right.
fn came(alloc: Global, bus: &mut SimBus<Tracer<Vec<u8>>>) -> Result<bool, PipeFault> {
    make_ready(alloc, bus, TARGET)?;
    let mut pipe = pipe_to(2, 8, true);
    match pipe.receive(alloc, bus, 1) {
        Ok(bytes) => Ok(bytes.as_slice() == [1, 2, 3, 4, 5, 6, 7, 8].as_slice()),
        Err(PipeFault::Memory) => {
            Ok(behind_a_refusal(alloc, bus, &mut pipe)? == (Some(PipeFault::Broken), 0, 8))
        }
        Err(fault) => Err(fault),
    }
}

/// Where no allocation is refused the bytes come at once.
#[test]
fn refused_memory_breaks_the_pipe(rt: HostRuntime) -> Result<(), Fail> {
    let mut bus = bus_of(rt.alloc(), 10_000, SMALL_BULK, "", &[])?;
    assert!(rt; came(rt.alloc(), &mut bus)?);
    Ok(())
}
