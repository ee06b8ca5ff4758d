//! The line of an attempt.
ghost use Rattle.std.specs.Prelude.{◌≡◌, IfSome, Some, option_map};
ghost use Rattle.usb_pcap.specs.Attempt.{IsAttemptLine, answer_in, attempt_in, data_follow, host_ack_in, host_data_in, host_in, is_ack_packet, is_answer, is_data_packet, may_be_marked, next_in, read_attempt};
ghost use Rattle.usb_world.specs.Wire.{bit_count};

use crate::packet::{packet_in, packet_mark_in};
use crate::text::Text;
use usb_packet::{Packet, TokenKind};
use usb_world::{Exchange, ExchangeAnswer, Mark, Outgoing};

/// An attempt, as its line in a trace has it.
#[derive(Debug, Drop)]
pub struct TracedAttempt {
    /// Its number.
    pub number: u64,
    /// Whether PRE is before each packet of the host (8.6.5).
    pub pre: bool,
    /// Its packets. What no line says is false.
    pub exchange: Exchange,
}

/// The first number that has no time in a pcap file: as many microseconds as 2 ^ 32 seconds have.
const NO_TIME: u64 = 4_294_967_296_000_000;

/// The attempt of a line: its number, the token, the host's data after SETUP and OUT, the answer,
/// and maybe the host's ACK. `None` for any other line.
pub fn read_attempt(line: &[u8]) -> Option<TracedAttempt>
    ensures exact { result ≡ read_attempt line.now }
    ensures found { IfSome result (λ a. IsAttemptLine line.now a) }
    ensures each { (a : TracedAttempt) → IsAttemptLine line.now a → result ≡ Some a }
{
    attempt_of(line)
}

/// The attempt that a line spells; None if anything follows it.
#[tactic(auto, unfolding(crate::specs::Attempt::read_attempt))]
fn attempt_of(line: &[u8]) -> Option<TracedAttempt>
    ensures { result ≡ read_attempt line.now }
{
    let mut text = Text::new(line);
    let attempt = attempt_in(&mut text)?;
    if text.is_empty() { Some(attempt) } else { None }
}

/// Reads an attempt at the front of a text. None if there is none, or its number has no time in a
/// pcap file.
#[tactic(auto, unfolding(crate::specs::Attempt::attempt_in))]
fn attempt_in(text: &mut Text<'_>) -> Option<TracedAttempt>
    ensures { attempt_in text.old ≡ option_map (λ a. (a, text.new)) result }
{
    let number = text.number()?;
    if number >= NO_TIME || !text.skip(b" ") {
        return None;
    }
    let pre = text.begins_with(b"PRE ");
    let token = host_in(pre, text)?;
    let payload = if data_follow(&token.packet)? {
        Some(host_data_in(pre, text)?)
    } else {
        None
    };
    let (answer, answer_mark) = answer_in(text)?;
    let reply = if text.is_empty() {
        None
    } else {
        Some(host_ack_in(pre, text)?)
    };
    Some(TracedAttempt {
        number,
        pre,
        exchange: Exchange {
            token,
            payload,
            answer,
            answer_mark,
            reply,
            address_lost: false,
            change_cleared: false,
        },
    })
}

/// Whether the host's data follow a token; None for any other packet.
fn data_follow(packet: &Packet) -> Option<bool>
    ensures { result ≡ data_follow packet.now }
{
    match packet {
        Packet::Token { kind, .. } => Some(!matches!(kind, TokenKind::InTok)),
        _ => None,
    }
}

/// Reads a packet of the host and its mark.
#[tactic(auto, unfolding(crate::specs::Attempt::host_in))]
fn host_in(pre: bool, text: &mut Text<'_>) -> Option<Outgoing>
    ensures { host_in pre text.old ≡ option_map (λ s. (s, text.new)) result }
{
    if pre && !text.skip(b"PRE ") {
        return None;
    }
    let packet = packet_in(text)?;
    let mark = packet_mark_in(text)?;
    if !may_be_marked(pre, mark, &packet) {
        return None;
    }
    Some(Outgoing { packet, mark })
}

/// Whether PRE, if it is lost, was sent, and whether a flipped bit is one of the packet's.
fn may_be_marked(pre: bool, mark: Mark, packet: &Packet) -> bool
    ensures { result ≡ may_be_marked pre mark packet.now }
{
    match mark {
        Mark::Whole | Mark::Lost => true,
        Mark::PreLost => pre,
        Mark::Flipped(bit) => usize::from(bit) < bit_count(packet),
    }
}

/// How many bits the packet has: eight for each byte (8.4).
fn bit_count(packet: &Packet) -> usize
    ensures { result ≡ bit_count packet.now }
{
    match packet {
        Packet::Token { .. } | Packet::Sof(_) => 24,
        Packet::Payload { bytes, .. } => 24 + 8 * bytes.len(),
        Packet::Ack | Packet::Nak | Packet::Stall | Packet::Pre => 8,
    }
}

/// Reads a further packet of the host.
#[tactic(auto, unfolding(crate::specs::Attempt::next_in))]
fn next_in(pre: bool, text: &mut Text<'_>) -> Option<Outgoing>
    ensures { next_in pre text.old ≡ option_map (λ s. (s, text.new)) result }
{
    if !text.skip(b" / ") {
        return None;
    }
    host_in(pre, text)
}

/// Reads the host's data.
#[tactic(auto, unfolding(crate::specs::Attempt::host_data_in))]
fn host_data_in(pre: bool, text: &mut Text<'_>) -> Option<Outgoing>
    ensures { host_data_in pre text.old ≡ option_map (λ s. (s, text.new)) result }
{
    let sent = next_in(pre, text)?;
    if is_data_packet(&sent.packet) {
        Some(sent)
    } else {
        None
    }
}

/// Reads the host's ACK.
#[tactic(auto, unfolding(crate::specs::Attempt::host_ack_in))]
fn host_ack_in(pre: bool, text: &mut Text<'_>) -> Option<Outgoing>
    ensures { host_ack_in pre text.old ≡ option_map (λ s. (s, text.new)) result }
{
    let sent = next_in(pre, text)?;
    if is_ack_packet(&sent.packet) {
        Some(sent)
    } else {
        None
    }
}

/// Reads the devices' answer and its mark.
#[tactic(auto, unfolding(crate::specs::Attempt::answer_in))]
fn answer_in(text: &mut Text<'_>) -> Option<(ExchangeAnswer, Mark)>
    ensures { answer_in text.old ≡ option_map (λ a. (a, text.new)) result }
{
    if text.skip(b" / none") {
        return Some((ExchangeAnswer::Nothing, Mark::Whole));
    }
    if text.skip(b" / collision") {
        return Some((ExchangeAnswer::Collision, Mark::Whole));
    }
    let sent = next_in(false, text)?;
    if is_answer(&sent.packet) {
        Some((ExchangeAnswer::One(sent.packet), sent.mark))
    } else {
        None
    }
}

/// Whether a packet has data.
fn is_data_packet(packet: &Packet) -> bool
    ensures { result ≡ is_data_packet packet.now }
{
    matches!(packet, Packet::Payload { .. })
}

/// Whether a packet is ACK.
fn is_ack_packet(packet: &Packet) -> bool
    ensures { result ≡ is_ack_packet packet.now }
{
    matches!(packet, Packet::Ack)
}

/// Whether devices answer with such a packet.
fn is_answer(packet: &Packet) -> bool
    ensures { result ≡ is_answer packet.now }
{
    matches!(
        packet,
        Packet::Payload { .. } | Packet::Ack | Packet::Nak | Packet::Stall
    )
}
