//! Which lines are kept, and what of them.
ghost use Rattle.std.specs.Prelude.{◌≡◌};
ghost use Rattle.usb_explain.specs.Explained.{explained_by, is_all, is_damaged, is_for, is_path, keeps_attempt, kept_attempt, kept_told, path_said, sent_whole};
ghost use Rattle.usb_explain.specs.Requests.{data_setup, is_setup, is_whole, request_of, setup_in};

use crate::known::{Known, address_in};
use usb_packet::{Packet, Toggle, TokenKind};
use usb_port::PortPath;
use usb_request::Setup;
use usb_world::{Exchange, Mark, Outgoing};

/// Which lines of a run's text are kept.
#[derive(Clone, Copy, Debug)]
pub enum Only<'a> {
    /// All of them.
    All,
    /// The attempts whose token is for this device address, 0 to 127.
    Address(u8),
    /// The attempts to the device at this path, as far as the lines before tell where it is.
    Path(&'a PortPath),
    /// The attempts that begin with a SETUP.
    Setup,
    /// The attempts of which damage hit a packet.
    Damage,
}

/// What is kept of a line.
#[derive(Drop)]
pub(crate) enum Kept {
    /// Nothing: the line is left out.
    Nothing,
    /// The line.
    Line,
    /// The line, the words of its request, and the path of its device where it is said.
    Explained(Setup, Option<PortPath>),
}

/// What is kept of the line of no attempt.
pub(crate) fn kept_told(only: Only<'_>) -> Kept
    ensures { result ≡ kept_told only.entry }
{
    if is_all(only) {
        Kept::Line
    } else {
        Kept::Nothing
    }
}

/// What is kept of the line of an attempt, by what the lines before tell.
pub(crate) fn kept_attempt(only: Only<'_>, known: &Known, exchange: &Exchange) -> Kept
    ensures { result ≡ kept_attempt only.entry known.now exchange.now }
{
    if !keeps_attempt(only, known, exchange) {
        return Kept::Nothing;
    }
    let path = path_said(address_in(&exchange.token.packet), known);
    explained_by(request_of(exchange), path)
}

/// What is kept of a line that is kept.
fn explained_by(request: Option<Setup>, path: Option<PortPath>) -> Kept
    ensures { result ≡ explained_by request path }
{
    match request {
        Some(setup) => Kept::Explained(setup, path),
        None => Kept::Line,
    }
}

/// The path that is said of the device at an address: that of a device at address 0, where it is known.
fn path_said(address: u8, known: &Known) -> Option<PortPath>
    ensures { result ≡ path_said address known.now }
{
    if address == 0 {
        known.path(address)
    } else {
        None
    }
}

/// Whether lines of no attempt are kept.
fn is_all(only: Only<'_>) -> bool
    ensures { result ≡ is_all only.entry }
{
    matches!(only, Only::All)
}

/// Whether the line of an attempt is kept.
fn keeps_attempt(only: Only<'_>, known: &Known, exchange: &Exchange) -> bool
    ensures { result ≡ keeps_attempt only.entry known.now exchange.now }
{
    match only {
        Only::All => true,
        Only::Address(address) => is_for(address, &exchange.token.packet),
        Only::Path(path) => is_path(path, known.path(address_in(&exchange.token.packet))),
        Only::Setup => is_setup(&exchange.token.packet),
        Only::Damage => is_damaged(exchange),
    }
}

/// Whether a path that is known is this one.
fn is_path(path: &PortPath, found: Option<PortPath>) -> bool
    ensures { result ≡ is_path path.now found }
{
    match found {
        Some(found) => found == *path,
        None => false,
    }
}

/// Whether a packet is a token for a device address.
fn is_for(address: u8, packet: &Packet) -> bool
    ensures { result ≡ is_for address packet.now }
{
    match packet {
        Packet::Token { addr, .. } => *addr == address,
        _ => false,
    }
}

/// Whether a packet is a SETUP token.
fn is_setup(packet: &Packet) -> bool
    ensures { result ≡ is_setup packet.now }
{
    match packet {
        Packet::Token { kind, .. } => matches!(kind, TokenKind::SetupTok),
        _ => false,
    }
}

/// Whether damage hit one of the packets.
fn is_damaged(exchange: &Exchange) -> bool
    ensures { result ≡ is_damaged exchange.now }
{
    !(is_whole(exchange.token.mark)
        && sent_whole(&exchange.payload)
        && is_whole(exchange.answer_mark)
        && sent_whole(&exchange.reply))
}

/// Whether no damage hit a packet of the host that may be there.
fn sent_whole(sent: &Option<Outgoing>) -> bool
    ensures { result ≡ sent_whole sent.now }
{
    match sent {
        Some(sent) => is_whole(sent.mark),
        None => true,
    }
}

/// Whether no damage hit a packet.
pub(crate) fn is_whole(mark: Mark) -> bool
    ensures { result ≡ is_whole mark }
{
    matches!(mark, Mark::Whole)
}

/// The request that the host sends in an attempt: a SETUP and eight bytes in a DATA0 (8.5.3, 9.3).
pub(crate) fn request_of(exchange: &Exchange) -> Option<Setup>
    ensures { result ≡ request_of exchange.now }
{
    if !is_setup(&exchange.token.packet) {
        return None;
    }
    match &exchange.payload {
        Some(sent) => data_setup(&sent.packet),
        None => None,
    }
}

/// The setup data that a packet carries.
fn data_setup(packet: &Packet) -> Option<Setup>
    ensures { result ≡ data_setup packet.now }
{
    match packet {
        Packet::Payload {
            toggle: Toggle::Zero,
            bytes,
        } => setup_in(bytes.as_slice()),
        _ => None,
    }
}

/// The setup data that eight bytes are.
fn setup_in(bytes: &[u8]) -> Option<Setup>
    ensures { result ≡ setup_in bytes.now }
{
    match bytes {
        [a, b, c, d, e, f, g, h] => { Some(Setup::from_bytes([*a, *b, *c, *d, *e, *f, *g, *h])) }
        _ => None,
    }
}
