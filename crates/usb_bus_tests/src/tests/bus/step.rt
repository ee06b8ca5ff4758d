//! What a host does at a bus, step by step, and what each step reports.
ghost use Rattle.std.specs.Prelude.{◌<◌, ◌≤◌};

use arrayvec::ArrayVec;
use std::alloc::{AllocError, Global};
use usb_bus::{Attempt, Bus, BusFault, Destination, Outcome};
use usb_packet::{Speed, Toggle};
use usb_port::PortPath;
use usb_sim::{Ask, EndpointNumber, SimBus, Trace};

/// One step. An attempt goes to endpoint 0 of an address where no other is named.
#[derive(Clone, Copy)]
pub(super) enum Step {
    /// The next event comes.
    Event,
    /// A feature of a root port is set.
    Set(u8, u16),
    /// A root port gets power, what is plugged there is reset, and the changes are cleared.
    Reset(u8),
    Setup(Speed, u8, [u8; 8]),
    In(Speed, u8),
    /// IN at address 0 for at most 7 bytes.
    ShortIn(Speed),
    /// IN at endpoint 1, where a hub reports which of its ports changed.
    Poll(u8),
    /// OUT without data.
    Out(Speed, u8),
    /// OUT of two bytes at endpoint 2 of address 1.
    BulkOut,
    /// A request whose answer comes in n packets; the last attempt is reported.
    Reads(Speed, u8, [u8; 8], u8),
    /// A request without data; the last attempt is reported.
    Asks(Speed, u8, [u8; 8]),
    /// A line of report.
    Line(&'static str),
    /// All that the bus counts.
    Counts,
    /// The status of a root port.
    Status(u8),
    /// The address and the configuration of the device at a path.
    Registers(&'static str),
    /// What bulk OUT 2 of the device at a path took.
    Sink(&'static str),
}

/// Does a step, and reports what came of it.
pub(super) fn told<T: Trace>(
    alloc: Global,
    bus: &mut SimBus<T>,
    step: Step,
) -> Result<String, AllocError> {
    match step {
        Step::Event => event_told(alloc, bus.apply_next_event()),
        Step::Set(port, feature) => {
            set(bus, port, feature);
            Ok(String::new(alloc))
        }
        Step::Reset(port) => {
            reset(bus, port);
            Ok(String::new(alloc))
        }
        Step::Line(line) => line_told(alloc, bus.put_line(line.as_bytes())),
        Step::Counts => counts_told(alloc, bus),
        Step::Status(port) => format!(in alloc; "{:?}", status(bus, port)),
        Step::Registers(path) => registers_told(alloc, bus, path),
        Step::Sink(path) => sink_told(alloc, bus, path),
        _ => attempt_told(alloc, attempted(bus, step)),
    }
}

/// Makes the attempts of a step; the last one's outcome.
fn attempted<T: Trace>(bus: &mut SimBus<T>, step: Step) -> Result<Outcome, BusFault> {
    match step {
        Step::Setup(speed, addr, bytes) => setup(bus, speed, addr, bytes),
        Step::In(speed, addr) => take(bus, speed, addr, 0, whole(speed)),
        Step::ShortIn(speed) => take(bus, speed, 0, 0, 7),
        Step::Poll(addr) => take(bus, Speed::Full, addr, 1, 64),
        Step::Out(speed, addr) => out(bus, speed, addr),
        Step::BulkOut => bulk_out(bus),
        Step::Reads(speed, addr, request, packets) => reads(bus, speed, addr, request, packets),
        Step::Asks(speed, addr, request) => asks(bus, speed, addr, request),
        _ => Ok(Outcome::Nothing),
    }
}

fn reads<T: Trace>(
    bus: &mut SimBus<T>,
    speed: Speed,
    addr: u8,
    request: [u8; 8],
    packets: u8,
) -> Result<Outcome, BusFault> {
    setup(bus, speed, addr, request)?;
    for _ in 0..packets {
        take(bus, speed, addr, 0, whole(speed))?;
    }
    out(bus, speed, addr)
}

fn asks<T: Trace>(
    bus: &mut SimBus<T>,
    speed: Speed,
    addr: u8,
    request: [u8; 8],
) -> Result<Outcome, BusFault> {
    setup(bus, speed, addr, request)?;
    take(bus, speed, addr, 0, whole(speed))
}

/// The maximum packet of endpoint 0 of the devices here.
fn whole(speed: Speed) -> u8 {
    match speed {
        Speed::Full => 64,
        Speed::Low | Speed::LowBelowHub => 8,
    }
}

/// An endpoint of the device at an address.
fn to(speed: Speed, addr: u8, ep: u8, max: u8) -> Destination
    ensures address { result.address < 128 }
    ensures number { result.number < 16 }
    ensures least { 1 ≤ result.max }
    ensures most { result.max ≤ 64 }
{
    Destination {
        address: addr % 128,
        number: ep % 16,
        speed,
        max: max.clamp(1, 64),
    }
}

fn setup<T: Trace>(
    bus: &mut SimBus<T>,
    speed: Speed,
    addr: u8,
    bytes: [u8; 8],
) -> Result<Outcome, BusFault> {
    bus.attempt(&Attempt::Setup {
        to: to(speed, addr, 0, whole(speed)),
        bytes,
    })
}

fn take<T: Trace>(
    bus: &mut SimBus<T>,
    speed: Speed,
    addr: u8,
    ep: u8,
    max: u8,
) -> Result<Outcome, BusFault> {
    bus.attempt(&Attempt::In {
        to: to(speed, addr, ep, max),
    })
}

fn out<T: Trace>(bus: &mut SimBus<T>, speed: Speed, addr: u8) -> Result<Outcome, BusFault> {
    bus.attempt(&Attempt::Out {
        to: to(speed, addr, 0, whole(speed)),
        toggle: Toggle::One,
        bytes: ArrayVec::new(),
    })
}

/// OUT of two bytes at endpoint 2 of address 1.
pub(super) fn bulk_out<T: Trace>(bus: &mut SimBus<T>) -> Result<Outcome, BusFault> {
    let mut bytes = ArrayVec::new();
    bytes.try_extend_from_slice(&[7, 8]).unwrap();
    bus.attempt(&Attempt::Out {
        to: Destination {
            address: 1,
            number: 2,
            speed: Speed::Full,
            max: 8,
        },
        toggle: Toggle::Zero,
        bytes,
    })
}

/// Gives power to a root port and resets its device, and clears the changes.
fn reset<T: Trace>(bus: &mut SimBus<T>, port: u8) {
    set(bus, port, 8);
    clear(bus, port, 16);
    set(bus, port, 4);
    clear(bus, port, 20);
}

fn set<T: Trace>(bus: &mut SimBus<T>, port: u8, feature: u16) {
    if port >= 1 && port <= bus.root_ports() && (feature == 4 || feature == 8) {
        bus.root_set(port, feature);
    }
}

fn clear<T: Trace>(bus: &mut SimBus<T>, port: u8, feature: u16) {
    if port >= 1 && port <= bus.root_ports() && (feature == 16 || feature == 20) {
        bus.root_clear(port, feature);
    }
}

fn status<T: Trace>(bus: &SimBus<T>, port: u8) -> [u8; 4] {
    if port >= 1 && port <= bus.root_ports() {
        return bus.root_status(port);
    }
    [0; 4]
}

/// The outcome of an attempt in a word.
fn attempt_told(alloc: Global, ended: Result<Outcome, BusFault>) -> Result<String, AllocError> {
    match ended {
        Ok(Outcome::Payload(_, _)) => String::from_str(alloc, "data"),
        Ok(Outcome::Ack) => String::from_str(alloc, "ack"),
        Ok(Outcome::Nak) => String::from_str(alloc, "nak"),
        Ok(Outcome::Stall) => String::from_str(alloc, "stall"),
        Ok(Outcome::Nothing) => String::from_str(alloc, "none"),
        Err(fault) => fault.to_string(alloc),
    }
}

fn line_told(alloc: Global, ended: Result<(), BusFault>) -> Result<String, AllocError> {
    match ended {
        Ok(()) => Ok(String::new(alloc)),
        Err(fault) => fault.to_string(alloc),
    }
}

/// What an event asks of the host.
fn event_told(
    alloc: Global,
    ended: Result<Option<Option<Ask>>, BusFault>,
) -> Result<String, AllocError> {
    match ended {
        Ok(None) => String::from_str(alloc, "no event"),
        Ok(Some(None)) => String::from_str(alloc, "changed"),
        Ok(Some(Some(ask))) => ask_told(alloc, &ask),
        Err(fault) => fault.to_string(alloc),
    }
}

fn ask_told(alloc: Global, ask: &Ask) -> Result<String, AllocError> {
    match ask {
        Ask::Show { .. } => String::from_str(alloc, "show"),
        Ask::Send(path, bytes) => {
            format!(in alloc; "send {:?} to {:?}", bytes.as_slice(), path.numbers())
        }
        Ask::Receive(path, packets) => {
            format!(in alloc; "receive {packets} from {:?}", path.numbers())
        }
        Ask::Clear(path) => format!(in alloc; "clear {:?}", path.numbers()),
        Ask::SendTo(path, endpoint, bytes) => {
            let (sent, endpoint) = (bytes.as_slice(), endpoint.get());
            format!(in alloc; "send {sent:?} to {:?} {endpoint}", path.numbers())
        }
        Ask::ReceiveFrom(path, endpoint, packets) => {
            format!(in alloc;
                "receive {packets} from {:?} {}",
                path.numbers(),
                endpoint.get()
            )
        }
        Ask::Poll(path, endpoint) => {
            format!(in alloc; "interrupt {:?} {}", path.numbers(), endpoint.get())
        }
        Ask::ClearOf(path, endpoint) => {
            format!(in alloc; "clear {:?} {}", path.numbers(), endpoint.get())
        }
        Ask::SetInterface(path, interface, setting) => {
            format!(in alloc; "interface {:?} {interface} {setting}", path.numbers())
        }
        Ask::ControlIn(path, _) => format!(in alloc; "control {:?} in", path.numbers()),
        Ask::ControlOut(path, _) => format!(in alloc; "control {:?} out", path.numbers()),
        Ask::Look(path) => format!(in alloc; "look {:?}", path.numbers()),
        Ask::News => String::from_str(alloc, "news"),
    }
}

fn counts_told<T: Trace>(alloc: Global, bus: &SimBus<T>) -> Result<String, AllocError> {
    format!(in alloc;
        "attempts {}, events {} of {}, losses {}, worst {}",
        bus.attempts(),
        bus.events_taken(),
        bus.events_taken().saturating_add(bus.events_left()),
        bus.address_losses(),
        bus.worst_address_run()
    )
}

fn registers_told<T: Trace>(
    alloc: Global,
    bus: &SimBus<T>,
    path: &str,
) -> Result<String, AllocError> {
    match PortPath::from_text(path) {
        None => String::from_str(alloc, "no path"),
        Some(path) => format!(in alloc; "{:?}", bus.registers(&path)),
    }
}

fn sink_told<T: Trace>(alloc: Global, bus: &SimBus<T>, path: &str) -> Result<String, AllocError> {
    match PortPath::from_text(path) {
        None => String::from_str(alloc, "no path"),
        Some(path) => format!(in alloc; "{:?}", bus.sink(&path, EndpointNumber::new(2))),
    }
}
