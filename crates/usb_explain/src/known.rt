//! What a run's text tells of the ports that its devices are at.
ghost use Rattle.std.specs.Prelude.{◌≡◌, slice_index_or};
ghost use Rattle.usb_explain.specs.Places.{after_answer, after_attempt, after_request, after_told, address_in, below_path, fresh_place, is_done, is_empty_data, is_in_control, is_move, is_port_reset, is_port_status, is_reset_clearing, is_reset_of, is_set_address, nothing_known, path_of, place_of, place_path, plugged_root, reset_answered, reset_asked, still_begun, with_place, with_root};
ghost use Rattle.usb_explain.specs.declared.known.Place.TheVariants.{Unknown};

use crate::only::{is_whole, request_of};
use usb_packet::{Packet, Toggle, TokenKind};
use usb_port::PortPath;
use usb_request::Setup;
use usb_request::feature::{C_PORT_RESET, PORT_RESET};
use usb_request::request_code::{CLEAR_FEATURE, GET_STATUS, SET_ADDRESS, SET_FEATURE};
use usb_request::request_type::{DEVICE_OUT, PORT_IN, PORT_OUT};
use usb_world::{Exchange, ExchangeAnswer};

/// How many hubs are above a device at most, and one more.
const DEPTH: u8 = 7;

/// The root ports that the plugs so far name.
#[derive(Clone, Copy)]
pub(crate) enum Roots {
    /// None.
    Unplugged,
    /// This one alone.
    One(u8),
    /// More than one.
    Several,
}

/// How far the last requests to a hub have reset a port of it (11.24.2.13).
#[derive(Clone, Copy)]
pub(crate) enum Reset {
    /// They were others.
    Idle,
    /// PORT_RESET was set, at the hub of this address, of this port.
    Begun(u8, u16),
    /// Then C_PORT_RESET was to be cleared.
    Cleared(u8, u16),
    /// It was.
    Done(u8, u16),
}

/// The port that a device is at.
#[derive(Clone, Copy)]
pub(crate) enum Place {
    /// The text does not tell.
    Unknown,
    /// A root port.
    Root(u8),
    /// A port of the hub at this address.
    Below(u8, u16),
}

/// What the text has told so far.
#[derive(Drop)]
pub(crate) struct Known {
    /// The root ports that have had a device.
    roots: Roots,
    /// The port that a hub has reset for the device at address 0.
    reset: Reset,
    /// The port of the device that was given each address.
    places: [Place; 128],
}

impl Known {
    /// Before the first line.
    pub(crate) fn nothing() -> Self
        ensures { result ≡ nothing_known }
    {
        Known {
            roots: Roots::Unplugged,
            reset: Reset::Idle,
            places: [Place::Unknown; 128],
        }
    }

    /// The path of the device that has an address.
    pub(crate) fn path(&self, address: u8) -> Option<PortPath>
        ensures { result ≡ path_of address self.now }
    {
        place_path(self.place(address), DEPTH, &self.places)
    }

    /// Takes a line of no attempt: a plug names a root port. A reset is over before any other line but an unplug.
    pub(crate) fn tell(&mut self, line: &[u8])
        ensures { self.new ≡ after_told line.now self.old }
    {
        match plugged_root(line) {
            Some(number) => self.roots = with_root(number, self.roots),
            None => {
                if !is_move(line) {
                    self.reset = Reset::Idle;
                }
            }
        }
    }

    /// Takes an attempt.
    pub(crate) fn take(&mut self, exchange: &Exchange)
        ensures { self.new ≡ after_attempt exchange.now self.old }
    {
        let address = address_in(&exchange.token.packet);
        match request_of(exchange) {
            Some(setup) => self.take_request(address, &setup),
            None => self.take_answer(address, exchange),
        }
    }

    /// Takes a request: SET_ADDRESS moves a device to another address (9.4.6).
    fn take_request(&mut self, address: u8, setup: &Setup)
        ensures { self.new ≡ after_request address setup.now self.old }
    {
        let place = self.place(address);
        if is_set_address(setup) {
            self.put(setup.value, place);
        }
        if address != 0 {
            self.reset = reset_asked(address, setup, self.reset);
        }
    }

    /// Puts the device at an address.
    fn put(&mut self, address: u16, place: Place)
        ensures { self.new ≡ with_place address place self.old }
    {
        if address < 128 {
            self.places[usize::from(address)] = place;
        }
    }

    /// Takes an attempt of no request: it may end one.
    fn take_answer(&mut self, address: u8, exchange: &Exchange)
        ensures { self.new ≡ after_answer address exchange.now self.old }
    {
        if is_done(exchange) {
            self.reset = reset_answered(address, self.reset);
        }
    }

    /// The port of the device that has an address.
    fn place(&self, address: u8) -> Place
        ensures { result ≡ place_of address self.now }
    {
        if address == 0 {
            fresh_place(self.reset, self.roots)
        } else {
            place_at(&self.places, address)
        }
    }
}

/// The path of a port, over at most so many hubs.
#[tactic(auto, unfolding(crate::specs::Places::place_path))]
fn place_path(place: Place, depth: u8, places: &[Place; 128]) -> Option<PortPath>
    ensures { result ≡ place_path place depth places.now }
{
    match place {
        Place::Unknown => None,
        Place::Root(number) => PortPath::root(number),
        Place::Below(hub, port) => {
            if depth == 0 {
                return None;
            }
            let above = place_path(place_at(places, hub), depth - 1, places)?;
            below_path(above, port)
        }
    }
}

/// The path of a port of the hub at a path.
fn below_path(hub: PortPath, port: u16) -> Option<PortPath>
    ensures { result ≡ below_path hub port }
{
    let mut path = hub;
    if port < 16 && path.push(port as u8) {
        Some(path)
    } else {
        None
    }
}

/// The port of the device that was given an address.
fn place_at(places: &[Place; 128], address: u8) -> Place
    ensures { result ≡ slice_index_or places.now address Unknown }
{
    match places.get(usize::from(address)) {
        Some(place) => *place,
        None => Place::Unknown,
    }
}

/// The port of the device at address 0: that whose reset by a hub is over, or else a root port.
fn fresh_place(reset: Reset, roots: Roots) -> Place
    ensures { result ≡ fresh_place reset roots }
{
    match (reset, roots) {
        (Reset::Done(hub, port), _) => Place::Below(hub, port),
        (Reset::Idle, Roots::One(number)) => Place::Root(number),
        _ => Place::Unknown,
    }
}

/// The root port that a plug names.
fn plugged_root(line: &[u8]) -> Option<u8>
    ensures { result ≡ plugged_root line.now }
{
    match line {
        [b'p', b'l', b'u', b'g', b' ', digit, b' ', ..] if (b'1'..=b'7').contains(digit) => {
            Some(*digit - b'0')
        }
        _ => None,
    }
}

/// Whether a line of no attempt is that of a plug or an unplug.
fn is_move(line: &[u8]) -> bool
    ensures { result ≡ is_move line.now }
{
    matches!(line, [b'p' | b'u', ..])
}

/// The root ports, once a plug names one.
fn with_root(number: u8, roots: Roots) -> Roots
    ensures { result ≡ with_root number roots }
{
    match roots {
        Roots::Unplugged => Roots::One(number),
        Roots::One(first) if first == number => roots,
        Roots::One(_) | Roots::Several => Roots::Several,
    }
}

/// The address of a token; 128 of any other packet.
pub(crate) fn address_in(packet: &Packet) -> u8
    ensures { result ≡ address_in packet.now }
{
    match packet {
        Packet::Token { addr, .. } => *addr,
        _ => 128,
    }
}

/// How far a port is reset, once a device at an address other than 0 was asked for more.
fn reset_asked(address: u8, setup: &Setup, reset: Reset) -> Reset
    ensures { result ≡ reset_asked address setup.now reset }
{
    if is_port_reset(setup) {
        Reset::Begun(address, setup.index)
    } else if is_reset_clearing(setup) && is_reset_of(address, setup.index, reset) {
        Reset::Cleared(address, setup.index)
    } else if is_port_status(setup) {
        still_begun(reset)
    } else {
        Reset::Idle
    }
}

/// A status of a port may be asked for between its reset and the clearing.
fn still_begun(reset: Reset) -> Reset
    ensures { result ≡ still_begun reset }
{
    match reset {
        Reset::Begun(_, _) => reset,
        _ => Reset::Idle,
    }
}

/// Whether this port of this hub is being reset.
fn is_reset_of(address: u8, index: u16, reset: Reset) -> bool
    ensures { result ≡ is_reset_of address index reset }
{
    match reset {
        Reset::Begun(hub, port) | Reset::Cleared(hub, port) => hub == address && port == index,
        Reset::Idle | Reset::Done(_, _) => false,
    }
}

/// How far a port is reset, once a device has ended a request.
fn reset_answered(address: u8, reset: Reset) -> Reset
    ensures { result ≡ reset_answered address reset }
{
    match reset {
        Reset::Cleared(hub, port) if hub == address => Reset::Done(hub, port),
        _ => reset,
    }
}

/// Whether a device ends a request of no data in an attempt: an empty DATA1 reaches the host from endpoint 0
/// (8.5.3).
fn is_done(exchange: &Exchange) -> bool
    ensures { result ≡ is_done exchange.now }
{
    is_in_control(&exchange.token.packet)
        && is_whole(exchange.answer_mark)
        && is_empty_data(&exchange.answer)
}

/// Whether a packet is an IN token for endpoint 0.
fn is_in_control(packet: &Packet) -> bool
    ensures { result ≡ is_in_control packet.now }
{
    match packet {
        Packet::Token {
            kind: TokenKind::InTok,
            ep,
            ..
        } => *ep == 0,
        _ => false,
    }
}

/// Whether an answer is an empty DATA1.
fn is_empty_data(answer: &ExchangeAnswer) -> bool
    ensures { result ≡ is_empty_data answer.now }
{
    match answer {
        ExchangeAnswer::One(
            Packet::Payload {
                toggle: Toggle::One,
                bytes,
            },
        ) => bytes.is_empty(),
        _ => false,
    }
}

/// Whether a request is SET_FEATURE of PORT_RESET (11.24.2.13).
fn is_port_reset(setup: &Setup) -> bool
    ensures { result ≡ is_port_reset setup.now }
{
    setup.request_type == PORT_OUT && setup.request == SET_FEATURE && setup.value == PORT_RESET
}

/// Whether a request is CLEAR_FEATURE of C_PORT_RESET (11.24.2.2).
fn is_reset_clearing(setup: &Setup) -> bool
    ensures { result ≡ is_reset_clearing setup.now }
{
    setup.request_type == PORT_OUT && setup.request == CLEAR_FEATURE && setup.value == C_PORT_RESET
}

/// Whether a request is GET_STATUS of a port (11.24.2.7).
fn is_port_status(setup: &Setup) -> bool
    ensures { result ≡ is_port_status setup.now }
{
    setup.request_type == PORT_IN && setup.request == GET_STATUS
}

/// Whether a request is SET_ADDRESS (9.4.6).
fn is_set_address(setup: &Setup) -> bool
    ensures { result ≡ is_set_address setup.now }
{
    setup.request_type == DEVICE_OUT && setup.request == SET_ADDRESS
}
