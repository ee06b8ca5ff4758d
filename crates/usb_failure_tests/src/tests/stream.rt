//! What a controller side says, and what the bus over it asks and gives, where a reader or a writer fails.
ghost use Rattle.std.specs.Prelude.{◌≡◌};
ghost use Rattle.usb_world.specs.PlainAttempts.{attempt_data};
ghost use Rattle.usb_world.specs.Worlds.{IsAttempt};

use super::ends::{Played, answer_of, ended, newlines, opened};
use super::frail::Cut;
use arrayvec::ArrayVec;
use std::alloc::{AllocError, Global};
use std::io::{Read, Write};
use std::test::Fail;
use usb_bus::{Attempt, Bus, Destination, Outcome};
use usb_packet::{Speed, Toggle};
use usb_request::feature::{C_PORT_CONNECTION, PORT_RESET};
use usb_stream::{LiveFault, StreamBus};
use usb_wire::{Answer, Said, said_line};

/// All that the bus of these tests says.
const HOST: &str = "usbplan live 1\n\
                    SETUP 0.0 / DATA0 8006000100000800\n\
                    PRE IN 5.1 8\n\
                    low IN 0.0 1\n\
                    OUT 1.2 / DATA1 0102\n\
                    port 1 set PORT_RESET\n\
                    port 2 clear C_PORT_CONNECTION\n\
                    restart 1.2 out\n\
                    wait\n\
                    listing 1\nend\n";

/// What a controller side may say to it, and what is given of that.
const FAR: &str = "roots 2\n\
                   port 1 01010100\nport 2 00010000\nport 1 01010000\nACK\n\
                   DATA1 1122\n\
                   DATA0 1122\n\
                   NAK\n\
                   port 1 03011000\nok\n\
                   ok\n\
                   ok\n\
                   send 1.2 FF\n";

const GIVEN: &str =
    "roots 2; ACK; DATA1 1122; none; NAK; port 1 03011000; port 2 00010000; send 1.2 FF; told; ";

/// An endpoint of the device at an address.
pub(super) fn to(address: u8, number: u8, speed: Speed, max: u8) -> Destination
    ensures { result ≡ record { address = address; number = number; speed = speed; max = max } }
{
    Destination {
        address,
        number,
        speed,
        max,
    }
}

/// SETUP of a full-speed device at address 0, with its setup data.
fn setup(bytes: [u8; 8]) -> Attempt
    ensures { IsAttempt (attempt_data result) }
{
    Attempt::Setup {
        to: to(0, 0, Speed::Full, 8),
        bytes,
    }
}

/// IN at low speed: of endpoint 1 below a hub, else of endpoint 0 at a root port.
fn take(is_below: bool) -> Attempt
    ensures { IsAttempt (attempt_data result) }
{
    if is_below {
        Attempt::In {
            to: to(5, 1, Speed::LowBelowHub, 8),
        }
    } else {
        Attempt::In {
            to: to(0, 0, Speed::Low, 1),
        }
    }
}

/// OUT with two bytes.
fn out() -> Attempt
    ensures { IsAttempt (attempt_data result) }
{
    let mut bytes = ArrayVec::new();
    let _ = bytes.try_extend_from_slice(&[1, 2]);
    Attempt::Out {
        to: to(1, 2, Speed::Full, 64),
        toggle: Toggle::One,
        bytes,
    }
}

/// Makes an attempt; what the host got is put after what it got before.
fn make<R: Read + Drop, W: Write + Drop>(
    bus: &mut StreamBus<R, W>,
    given: &mut String,
    attempt: &Attempt,
) -> Result<(), AllocError>
    requires { IsAttempt (attempt_data attempt.now) }
{
    match bus.attempt(attempt) {
        Ok(outcome) => push_outcome(given, outcome),
        Err(_) => Ok(()),
    }
}

/// What the host got, as a controller side says it.
fn push_outcome(given: &mut String, outcome: Outcome) -> Result<(), AllocError> {
    push_said(given, &Said::Answered(answer_of(outcome)))
}

fn push_said(given: &mut String, said: &Said) -> Result<(), AllocError> {
    given.push_str(said_line(said).as_str())?;
    given.push_str("; ")
}

/// All that a bus is asked over a reader, whose writer fails after n writes.
fn play<R: Read + Drop>(alloc: Global, reader: R, writes: u64) -> Result<Played, AllocError> {
    let mut given = String::new(alloc);
    let mut bus = opened(alloc, reader, writes, 9);
    push_said(&mut given, &Said::Answered(Answer::Roots(bus.root_ports())))?;
    make(&mut bus, &mut given, &setup([0x80, 6, 0, 1, 0, 0, 8, 0]))?;
    make(&mut bus, &mut given, &take(true))?;
    make(&mut bus, &mut given, &take(false))?;
    make(&mut bus, &mut given, &out())?;
    bus.root_set(1, PORT_RESET);
    bus.root_set(3, PORT_RESET);
    bus.root_clear(2, C_PORT_CONNECTION);
    bus.restart_endpoint(1, 2, false);
    let roots = bus.root_ports();
    for number in 1..roots + 1 {
        let status = bus.root_status(number);
        push_said(&mut given, &Said::Changed { number, status })?;
    }
    if let Ok(answer) = bus.wait() {
        push_said(&mut given, &Said::Answered(answer))?;
    }
    if bus.tell(b"listing 1\nend\n").is_ok() {
        given.push_str("told; ")?;
    }
    Ok(ended(bus, given))
}

/// How many of the first lines of `HOST` ask for attempts: its second to its fifth do.
fn attempts_of(lines: usize) -> u128 {
    lines.clamp(1, 5) as u128 - 1
}

#[test]
fn course(rt: HostRuntime) -> Result<(), Fail> {
    let whole = play(rt.alloc(), FAR.as_bytes(), u64::MAX)?;
    assert_eq!(rt; str::from_utf8(whole.host.as_slice()).ok(), Some(HOST));
    assert_eq!(rt; whole.given.as_str(), GIVEN);
    assert_eq!(rt; (whole.fault, whole.attempts), (None, 4));
    Ok(())
}

/// The input ends, or fails, after each number of bytes: nothing more is asked.
#[test]
fn cut(rt: HostRuntime) -> Result<(), Fail> {
    for count in 0..FAR.len() {
        let front = &FAR.as_bytes()[..count];
        let ended = play(rt.alloc(), front, u64::MAX)?;
        let failed = play(rt.alloc(), Cut(front), u64::MAX)?;
        // in place of what is wanted the end of the input is the end
        let is_end = front.ends_with(b"ok\nok\nok\n");
        let gone = if is_end { None } else { Some(LiveFault::Gone) };
        assert_eq!(rt; ended.fault, gone, "{count} bytes");
        let lines = newlines(ended.host.as_slice());
        assert_eq!(rt; ended.attempts, attempts_of(lines), "{count} bytes");
        assert_eq!(rt; failed.fault, Some(LiveFault::Read), "{count} bytes");
        assert!(rt;
            HOST.as_bytes().starts_with(failed.host.as_slice()),
            "{count} bytes"
        );
        assert!(rt;
            is_end || ended.host.len() == failed.host.len(),
            "{count} bytes"
        );
    }
    Ok(())
}

/// Each write fails in turn: no more than the questions before it has gone out. The one that it cuts counts.
#[test]
fn writes(rt: HostRuntime) -> Result<(), Fail> {
    for writes in 0..10usize {
        let played = play(rt.alloc(), FAR.as_bytes(), writes as u64)?;
        assert_eq!(rt; played.fault, Some(LiveFault::Write), "{writes} writes");
        assert_eq!(rt; newlines(played.host.as_slice()), writes, "{writes} writes");
        assert_eq!(rt; played.attempts, attempts_of(writes + 1), "{writes} writes");
        assert!(rt;
            HOST.as_bytes().starts_with(played.host.as_slice()),
            "{writes} writes"
        );
    }
    Ok(())
}
