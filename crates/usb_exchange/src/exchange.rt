//! One attempt: the host's packets go to the devices, and their answers come together.
ghost use Rattle.std.specs.Prelude.{◌≡◌, ◌≤◌, ℕ, Bool, length, true, false, None, Some, IfOk, IfSome, IsSome, OnOk, OnErr};
ghost use Rattle.usb_packet.specs.Speeds.{speed_has_pre, speed_is_low};
ghost use Rattle.usb_packet.specs.Spelling.{HasFields};
ghost use Rattle.usb_packet.specs.declared.Packet.TheVariants as packet;
ghost use Rattle.usb_device.specs.LentPackets.{broken};
ghost use Rattle.usb_device.specs.Tree.{device_there};
ghost use Rattle.usb_device.specs.Delivery.{all_forgotten, has_loss};
ghost use Rattle.usb_device.specs.Route.{address_by};
ghost use Rattle.usb_world.specs.PlainAttempts.{attempt_data};
ghost use Rattle.usb_world.specs.Worlds.{IsAttempt};
ghost use Rattle.usb_world.specs.Wire.{has_its_bit, marked, marked_some};
ghost use Rattle.usb_world.specs.declared.wire.Mark.TheVariants.{Flipped};
ghost use Rattle.usb_world.specs.Exchanges.{ack_if, blank, token_of, payload_of, answer_place, answer_mark, reply_of, goes_out, token_out, payload_out, sent_as, is_lost, clears_at};
ghost use Rattle.usb_world.specs.AttemptPackets.{IsSettled, after_sent};
ghost use Rattle.usb_world.specs.ExchangeEffects.{StaysPlugged, PacketsWent, SentAlong, MadeAlong, Exchanged};
ghost use Rattle.usb_world.specs.CutPackets.{IsStopped};
ghost use Rattle.usb_world.specs.Steps.{IsCut};
ghost use Rattle.usb_world.specs.HeardAnswers.{heard_above};
ghost use Rattle.usb_world.specs.Silence.{silent_exchange};
ghost use Rattle.usb_world.specs.LonePackets.{AloneAt, IsQuiet, KeptAt, is_whole_tree, is_deep};
ghost use Rattle.usb_world.specs.HostSides.{host_side, keeps_address};

use crate::wire::{OutgoingRoom, flipped, harm_to, mark_of, marked};
use arrayvec::ArrayVec;
use std::alloc::AllocError;
use std::marker::Model;
use usb_device::{AnswerPid, Content, DeviceSide, HeardPid, HostSide};
use usb_function::{Hearing, LentPacket, Ports};
use usb_packet::{Packet, Speed, Toggle, encode, one_flipped_bit};
use usb_world::{Attempt, Damage, Destination, ExchangeAnswer, Harm, Mark, Outgoing};

/// Room for the packets of an attempt, which is used again and again: of what was there before, nothing is cleared.
#[derive(Debug, Drop)]
pub struct ExchangeRoom {
    token: Outgoing,
    payload: OutgoingRoom,
    heard: Hearing,
    answer_mark: Mark,
    reply: OutgoingRoom,
    address_lost: bool,
    change_cleared: bool,
}

impl Model for ExchangeRoom {
    ghost use Rattle.usb_world.specs.HeardAnswers.{heard_above};
    ghost use Rattle.usb_world.specs.declared.exchange.Exchange.{Exchange};

    ghost Value = { Exchange };

    ghost view = { λ x. record {
      token = x.token;
      payload = x.payload;
      answer = heard_above x.heard;
      answer_mark = x.answer_mark;
      reply = x.reply;
      address_lost = x.address_lost;
      change_cleared = x.change_cleared;
    } };
}

impl ExchangeRoom {
    /// Of no attempt yet.
    pub fn blank() -> Self
        ensures { result ≡ blank }
    {
        ExchangeRoom {
            token: Outgoing {
                packet: Packet::Pre,
                mark: Mark::Lost,
            },
            payload: OutgoingRoom::empty(),
            heard: Hearing::nothing(),
            answer_mark: Mark::Whole,
            reply: OutgoingRoom::empty(),
            address_lost: false,
            change_cleared: false,
        }
    }

    /// The host's token.
    pub fn token(&self) -> &Outgoing
        ensures { result.now ≡ self.now.token }
    {
        &self.token
    }

    /// The host's data, for SETUP and OUT.
    pub fn payload(&self) -> &OutgoingRoom
        ensures { result.now ≡ self.now.payload }
    {
        &self.payload
    }

    /// What was heard of the devices.
    pub fn heard(&self) -> &Hearing
        ensures { heard_above result.now ≡ self.now.answer }
    {
        &self.heard
    }

    /// What damage did to the answer of one device.
    pub fn answer_mark(&self) -> Mark
        ensures { result ≡ self.now.answer_mark }
    {
        self.answer_mark
    }

    /// The host's ACK, if it took data.
    pub fn reply(&self) -> &OutgoingRoom
        ensures { result.now ≡ self.now.reply }
    {
        &self.reply
    }

    /// Whether a device did not see the ACK at which it was to take its address (9.4.6).
    pub fn is_address_lost(&self) -> bool
        ensures { result ≡ self.now.address_lost }
    {
        self.address_lost
    }

    /// Whether a hub cleared a change of connection of one of its ports (11.24.2.2).
    pub fn is_change_cleared(&self) -> bool
        ensures { result ≡ self.now.change_cleared }
    {
        self.change_cleared
    }

    /// What the devices answered, as a packet of its own.
    fn answer(&self) -> ExchangeAnswer
        ensures { result ≡ self.now.answer }
    {
        match self.heard.pid() {
            HeardPid::Nothing => ExchangeAnswer::Nothing,
            HeardPid::Collision => ExchangeAnswer::Collision,
            HeardPid::One(AnswerPid::Ack) => ExchangeAnswer::One(Packet::Ack),
            HeardPid::One(AnswerPid::Nak) => ExchangeAnswer::One(Packet::Nak),
            HeardPid::One(AnswerPid::Stall) => ExchangeAnswer::One(Packet::Stall),
            HeardPid::One(AnswerPid::Data(toggle)) => {
                let bytes = copied(self.heard.bytes().as_slice());
                ExchangeAnswer::One(Packet::Payload { toggle, bytes })
            }
        }
    }
}

/// Makes an attempt: the token, then the data, one of them; then what the host says to the answer. After it no device
/// remembers a packet, also if memory was refused. Returns whether the devices that are reached, and all their
/// addresses, are known to be as they were. Those on a port of the device, by its number, and below it are excepted.
///
/// It goes straight to the device at a path, if no other reachable device holds the address. The others have nothing of
/// it, so it costs the same in a large tree as in a small one. The empty path stands for the whole tree.
///
/// # Errors
///
/// Memory is refused for the host's data: no sink grows at a token or at an ACK.
#[inline(always)]
pub(crate) fn exchange_along(
    roots: &mut Ports,
    path: &[u8],
    port: u8,
    attempt: &Attempt,
    damage: &Option<Damage>,
    exchange: &mut ExchangeRoom,
) -> Result<bool, AllocError>
    requires attempt { IsAttempt (attempt_data attempt.now) }
    requires alone { AloneAt (token_out (attempt_data attempt.now) damage.now) roots.old path.now }
    ensures plugged { StaysPlugged roots.old roots.new }
    ensures settled { IsSettled roots.new }
    ensures made { OnOk result (Exchanged (attempt_data attempt.now) damage.now roots.old roots.new
        exchange.new) }
    ensures cut { OnErr result (IsCut (attempt_data attempt.now) damage.now roots.old roots.new) }
    ensures kept { IfOk result (λ kept. kept ≡ true
        → KeptAt (attempt_data attempt.now).addr port roots.old roots.new path.now) }
{
    match damage {
        None if !is_whole(path) => exchange_whole(roots, path, port, attempt, exchange),
        _ => exchange_by_packets(roots, path, port, attempt, *damage, exchange),
    }
}

/// The same of an attempt of which nothing is damaged, at the device at a path: all its packets on
/// one way down the tree.
#[inline(never)]
fn exchange_whole(
    roots: &mut Ports,
    path: &[u8],
    port: u8,
    attempt: &Attempt,
    exchange: &mut ExchangeRoom,
) -> Result<bool, AllocError>
    requires attempt { IsAttempt (attempt_data attempt.now) }
    requires way { is_whole_tree path.now ≡ false }
    requires alone { AloneAt (token_out (attempt_data attempt.now) None) roots.old path.now }
    ensures { MadeAlong (attempt_data attempt.now) None path.now port roots.old roots.new
        exchange.new result }
{
    put_whole_token(attempt, &mut exchange.token);
    put_whole_payload(attempt, &mut exchange.payload);
    let host = host_side(attempt);
    let data = some_goes_out(attempt, &exchange.payload);
    let mut side = DeviceSide::nobody();
    let heard = &mut exchange.heard;
    roots.attempt_at(path, &host, &data, is_deep(path), heard, &mut side)?;
    exchange.answer_mark = Mark::Whole;
    put_whole_reply(side.acknowledged, &mut exchange.reply);
    exchange.address_lost = side.address_lost;
    exchange.change_cleared = side.effect.clears_change();
    Ok(keeps_address(port, &side, attempt))
}

/// Whether a device that was at an attempt's address still is, and asked nothing of its ports that changes who is
/// reached. Those on its port of a number are excepted.
fn keeps_address(port: u8, side: &DeviceSide, attempt: &Attempt) -> bool
    ensures { result ≡ keeps_address port side.now (attempt_data attempt.now).addr }
{
    side.effect.keeps_others(port) && side.address == Some(attempt.destination().address)
}

/// What the host has to say beside its data.
fn host_side(attempt: &Attempt) -> HostSide
    ensures { result ≡ host_side (attempt_data attempt.now) }
{
    let to = attempt.destination();
    HostSide {
        low: to.speed.is_low(),
        pre: to.speed.has_pre(),
        kind: attempt.kind(),
        addr: to.address,
        ep: to.number,
        max: to.max,
    }
}

/// The same of any attempt, one packet after the other.
#[inline(never)]
fn exchange_by_packets(
    roots: &mut Ports,
    path: &[u8],
    port: u8,
    attempt: &Attempt,
    damage: Option<Damage>,
    exchange: &mut ExchangeRoom,
) -> Result<bool, AllocError>
    requires attempt { IsAttempt (attempt_data attempt.now) }
    requires alone { AloneAt (token_out (attempt_data attempt.now) damage) roots.old path.now }
    ensures { MadeAlong (attempt_data attempt.now) damage path.now port roots.old roots.new
        exchange.new result }
{
    let mut quiet = false;
    let made = send_packets(roots, path, port, attempt, damage, &mut quiet, exchange);
    let left = end_attempt(roots, path);
    made?;
    Ok(quiet && left == Some(attempt.destination().address))
}

/// Every device forgets what it remembers: all of them, or the one at a path where no other
/// remembers anything; then its address is reported.
fn end_attempt(roots: &mut Ports, path: &[u8]) -> Option<u8>
    requires { AloneAt None roots.old path.now }
    ensures over { roots.new ≡ all_forgotten roots.old }
    ensures address { IsSome result → result ≡ address_by (device_there roots.old path.now) }
{
    if is_whole(path) {
        roots.attempt_over();
        None
    } else {
        roots.forget_at(path)
    }
}

/// Whether a path stands for the whole tree.
pub(crate) fn is_whole(path: &[u8]) -> bool
    ensures { result ≡ is_whole_tree path.now }
{
    path.is_empty()
}

/// Whether a path leads below a device.
fn is_deep(path: &[u8]) -> bool
    ensures { result ≡ is_deep path.now }
{
    path.len() > 1
}

/// Sends the packets of an attempt, and notes what is answered. `quiet` says whether what the
/// device at the path asks of its ports is known to leave the same devices reached, but for those on
/// its port of a number.
fn send_packets(
    roots: &mut Ports,
    path: &[u8],
    port: u8,
    attempt: &Attempt,
    damage: Option<Damage>,
    quiet: &mut bool,
    exchange: &mut ExchangeRoom,
) -> Result<(), AllocError>
    requires attempt { IsAttempt (attempt_data attempt.now) }
    requires alone { AloneAt (token_out (attempt_data attempt.now) damage) roots.old path.now }
    ensures plugged { StaysPlugged roots.old roots.new }
    ensures quiet { OnOk result (quiet.new ≡ true
        → IsQuiet port (payload_out (attempt_data attempt.now) damage)
        (after_sent (token_out (attempt_data attempt.now) damage) roots.old) path.now) }
    ensures made { OnOk result (PacketsWent (attempt_data attempt.now) damage roots.old roots.new
        exchange.new) }
    ensures alone { AloneAt None roots.new path.now }
    ensures stopped { OnErr result (IsStopped (payload_out (attempt_data attempt.now) damage)
        (after_sent (token_out (attempt_data attempt.now) damage) roots.old) roots.new) }
{
    put_token(attempt, damage, &mut exchange.token);
    exchange.heard.clear();
    send(
        roots,
        path,
        &goes_out(attempt, &exchange.token),
        &mut exchange.heard,
    )?;
    put_payload(attempt, damage, &mut exchange.payload);
    let data = some_goes_out(attempt, &exchange.payload);
    exchange.change_cleared = clears_change(roots, path, port, &data, quiet);
    send(roots, path, &data, &mut exchange.heard)?;
    let answer = exchange.answer();
    let place = answer_place(&exchange.payload);
    exchange.answer_mark = answer_mark(harm_to(damage, place), &answer);
    let acknowledged = is_acknowledged(&answer, exchange.answer_mark, attempt);
    put_reply(
        attempt,
        damage,
        place + 1,
        acknowledged,
        &mut exchange.reply,
    );
    let address_lost = send_reply(roots, path, attempt, &exchange.reply)?;
    exchange.address_lost = address_lost;
    Ok(())
}

/// Makes an attempt that no device hears: the host's token and its data go out, and nothing comes.
pub(crate) fn make_silence(attempt: &Attempt, damage: &Option<Damage>, exchange: &mut ExchangeRoom)
    requires { IsAttempt (attempt_data attempt.now) }
    ensures { exchange.new ≡ silent_exchange (attempt_data attempt.now) damage.now }
{
    put_token(attempt, *damage, &mut exchange.token);
    put_payload(attempt, *damage, &mut exchange.payload);
    exchange.heard.clear();
    exchange.answer_mark = Mark::Whole;
    exchange.reply.clear();
    exchange.address_lost = false;
    exchange.change_cleared = false;
}

/// The place of the devices' answer among the packets of an attempt, counted from 1.
#[tactic(auto, unfolding(usb_world::specs::Exchanges::answer_place))]
fn answer_place(payload: &OutgoingRoom) -> u8
    ensures value { result ≡ answer_place payload.now }
    ensures most { result ≤ 3 }
{
    match payload.get() {
        None => 2,
        Some(_) => 3,
    }
}

/// The mark that a harm leaves on the answer of one device.
#[tactic(auto, unfolding(usb_world::specs::Exchanges::answer_mark))]
fn answer_mark(harm: Option<Harm>, answer: &ExchangeAnswer) -> Mark
    ensures { result ≡ answer_mark harm answer.now }
{
    match answer {
        ExchangeAnswer::Nothing => Mark::Whole,
        ExchangeAnswer::Collision => Mark::Whole,
        ExchangeAnswer::One(packet) => mark_of(harm, false, packet),
    }
}

/// A packet as damage leaves it, on its way to the devices; None if it is lost.
fn goes_out<'a>(attempt: &Attempt, packet: &'a Outgoing) -> Option<LentPacket<'a>>
    requires fields { HasFields packet.now.packet }
    requires bit { has_its_bit packet.now.mark packet.now.packet ≡ true }
    ensures { result ≡ sent_as (attempt_data attempt.now).low (attempt_data attempt.now).pre
        packet.now.mark packet.now.packet }
{
    let speed = attempt.destination().speed;
    match packet.mark {
        Mark::Whole => Some(LentPacket::whole(speed.is_low(), speed.has_pre(), &packet.packet)),
        Mark::Lost => None,
        Mark::PreLost => Some(LentPacket::whole(speed.is_low(), false, &packet.packet)),
        Mark::Flipped(bit) => Some(broken(speed, &packet.packet, bit)),
    }
}

/// A packet with one bit flipped: it spells no packet (8.3.1 and 8.3.5).
#[inline(never)]
fn broken<'a>(speed: Speed, packet: &Packet, bit: u16) -> LentPacket<'a>
    requires fields { HasFields packet.now }
    requires bit { has_its_bit (Flipped bit) packet.now ≡ true }
    ensures { result ≡ broken (speed_is_low speed) (speed_has_pre speed) }
{
    one_flipped_bit();
    let bytes = encode(packet);
    match Content::of(flipped(bytes, bit).as_slice()) {
        Content::Broken => LentPacket::broken(speed.is_low(), speed.has_pre()),
        Content::Whole(_) => unreachable!(),
    }
}

/// The same, if there is a packet.
fn some_goes_out<'a>(attempt: &Attempt, packet: &'a OutgoingRoom) -> Option<LentPacket<'a>>
    requires fields { IfSome packet.now (λ s. HasFields s.packet) }
    requires bit { IfSome packet.now (λ s. has_its_bit s.mark s.packet ≡ true) }
    ensures { result ≡ goes_out (attempt_data attempt.now) packet.now }
{
    goes_out(attempt, packet.get()?)
}

/// Sends what goes out, down the tree or straight to the device at a path where it is for no other;
/// what is answered joins what was heard before.
fn send(
    roots: &mut Ports,
    path: &[u8],
    sent: &Option<LentPacket<'_>>,
    heard: &mut Hearing,
) -> Result<(), AllocError>
    requires { AloneAt sent.now roots.old path.now }
    ensures { SentAlong sent.now path.now roots.old roots.new heard.old heard.new result }
{
    match sent {
        None => Ok(()),
        Some(sent) if is_whole(path) => roots.deliver_after(sent, heard),
        Some(sent) => roots.deliver_at(path, sent, is_deep(path), heard),
    }
}

/// Whether a hub will clear a change of connection of one of its ports at what goes out. `quiet`
/// says whether what the device at the path asks of its ports is known to leave the same devices
/// reached, but for those on its port of a number.
#[tactic(auto, using(usb_world::proofs::ways::Routes::route_clears))]
fn clears_change(
    roots: &Ports,
    path: &[u8],
    port: u8,
    sent: &Option<LentPacket<'_>>,
    quiet: &mut bool,
) -> bool
    requires { AloneAt sent.now roots.now path.now }
    ensures clears { result ≡ clears_at sent.now roots.now }
    ensures quiet { quiet.new ≡ true → IsQuiet port sent.now roots.now path.now }
{
    *quiet = false;
    match sent {
        None => {
            *quiet = true;
            false
        }
        Some(sent) if is_whole(path) => roots.clears_change(sent),
        Some(sent) => {
            let effect = roots.effect_at(path, sent, is_deep(path));
            *quiet = effect.keeps_others(port);
            effect.clears_change()
        }
    }
}

/// Whether a device awaits the ACK that would end its SET_ADDRESS.
#[tactic(auto, using(usb_world::proofs::ways::Routes::route_loss))]
fn has_loss(roots: &Ports, path: &[u8]) -> bool
    requires { AloneAt None roots.now path.now }
    ensures { result ≡ has_loss roots.now }
{
    if is_whole(path) {
        return roots.has_address_loss();
    }
    match roots.device_at(path) {
        None => false,
        Some(device) => device.awaits_address(),
    }
}

/// Sends the host's ACK, if there is one, and returns whether a device did not read it that awaits
/// it to take its address.
#[tactic(auto, using(usb_world::proofs::ways::Routes::alone_less))]
fn send_reply(
    roots: &mut Ports,
    path: &[u8],
    attempt: &Attempt,
    reply: &OutgoingRoom,
) -> Result<bool, AllocError>
    requires fields { IfSome reply.now (λ s. HasFields s.packet) }
    requires bit { IfSome reply.now (λ s. has_its_bit s.mark s.packet ≡ true) }
    requires alone { AloneAt (goes_out (attempt_data attempt.now) reply.now) roots.old path.now }
    ensures plugged { StaysPlugged roots.old roots.new }
    ensures lost { IfOk result (λ lost. lost
        ≡ is_lost reply.now (goes_out (attempt_data attempt.now) reply.now) roots.old) }
    ensures ports { OnOk result
        (roots.new ≡ after_sent (goes_out (attempt_data attempt.now) reply.now) roots.old) }
    ensures alone { AloneAt None roots.new path.now }
    ensures stopped { OnErr result
        (IsStopped (goes_out (attempt_data attempt.now) reply.now) roots.old roots.new) }
{
    match reply.get() {
        None => Ok(false),
        Some(packet) => acknowledge(roots, path, attempt, packet),
    }
}

/// The same, if there is one.
fn acknowledge(
    roots: &mut Ports,
    path: &[u8],
    attempt: &Attempt,
    packet: &Outgoing,
) -> Result<bool, AllocError>
    requires fields { HasFields packet.now.packet }
    requires bit { has_its_bit packet.now.mark packet.now.packet ≡ true }
    requires alone { AloneAt (goes_out (attempt_data attempt.now) (Some packet.now)) roots.old
        path.now }
    ensures plugged { StaysPlugged roots.old roots.new }
    ensures lost { IfOk result (λ lost. lost
        ≡ is_lost (Some packet.now) (goes_out (attempt_data attempt.now) (Some packet.now))
        roots.old) }
    ensures ports { OnOk result (roots.new
        ≡ after_sent (goes_out (attempt_data attempt.now) (Some packet.now)) roots.old) }
    ensures alone { AloneAt None roots.new path.now }
    ensures stopped { OnErr result
        (IsStopped (goes_out (attempt_data attempt.now) (Some packet.now)) roots.old roots.new) }
{
    let sent = goes_out(attempt, packet);
    let mut unanswered = Hearing::nothing();
    if let Mark::Flipped(_) = packet.mark {
        let awaited = has_loss(roots, path);
        send(roots, path, &sent, &mut unanswered)?;
        Ok(awaited)
    } else {
        send(roots, path, &sent, &mut unanswered)?;
        Ok(has_loss(roots, path))
    }
}

/// The token as damage leaves it.
#[tactic(auto, unfolding(usb_world::specs::Exchanges::token_of, usb_world::specs::Wire::marked))]
fn put_token(attempt: &Attempt, damage: Option<Damage>, token: &mut Outgoing)
    requires { IsAttempt (attempt_data attempt.now) }
    ensures value { token.new ≡ marked damage 1 (attempt_data attempt.now).pre
        (token_of (attempt_data attempt.now)) }
    ensures fields { HasFields token.new.packet }
    ensures bit { has_its_bit token.new.mark token.new.packet ≡ true }
{
    let to = attempt.destination();
    token.packet = Packet::Token {
        kind: attempt.kind(),
        addr: to.address,
        ep: to.number,
    };
    token.mark = mark_of(harm_to(damage, 1), to.speed.has_pre(), &token.packet);
}

/// The token, if it is not damaged.
#[tactic(auto, unfolding(usb_world::specs::Exchanges::token_of, usb_world::specs::Wire::marked, usb_world::specs::Wire::harm_to, usb_world::specs::Wire::mark_of))]
fn put_whole_token(attempt: &Attempt, token: &mut Outgoing)
    requires { IsAttempt (attempt_data attempt.now) }
    ensures value { token.new ≡ marked None 1 (attempt_data attempt.now).pre
        (token_of (attempt_data attempt.now)) }
{
    let to = attempt.destination();
    match &mut token.packet {
        Packet::Token { kind, addr, ep } => {
            *kind = attempt.kind();
            *addr = to.address;
            *ep = to.number;
        }
        packet => {
            *packet = Packet::Token {
                kind: attempt.kind(),
                addr: to.address,
                ep: to.number,
            };
        }
    }
    token.mark = Mark::Whole;
}

/// The host's data, if it sends some and they are not damaged.
#[tactic(auto, unfolding(usb_world::specs::Exchanges::payload_of, usb_world::specs::Wire::marked_some, usb_world::specs::Wire::marked, usb_world::specs::Wire::harm_to, usb_world::specs::Wire::mark_of, usb_world::specs::Wire::has_its_bit))]
fn put_whole_payload(attempt: &Attempt, payload: &mut OutgoingRoom)
    ensures value { payload.new ≡ marked_some None 2 (attempt_data attempt.now).pre
        (payload_of (attempt_data attempt.now)) }
    ensures fields { IfSome payload.new (λ s. HasFields s.packet) }
    ensures bit { IfSome payload.new (λ s. has_its_bit s.mark s.packet ≡ true) }
{
    match attempt {
        Attempt::Setup { to: _, bytes } => payload.put_data(Toggle::Zero, bytes),
        Attempt::Out {
            to: _,
            toggle,
            bytes,
        } => payload.put_data(*toggle, bytes.as_slice()),
        Attempt::In { .. } => payload.clear(),
    }
}

/// The host's data as damage leaves them, if it sends some.
#[tactic(auto, unfolding(usb_world::specs::Exchanges::payload_of, usb_world::specs::Wire::marked_some))]
fn put_payload(attempt: &Attempt, damage: Option<Damage>, payload: &mut OutgoingRoom)
    ensures value { payload.new ≡ marked_some damage 2 (attempt_data attempt.now).pre
        (payload_of (attempt_data attempt.now)) }
    ensures fields { IfSome payload.new (λ s. HasFields s.packet) }
    ensures bit { IfSome payload.new (λ s. has_its_bit s.mark s.packet ≡ true) }
{
    match attempt {
        Attempt::Setup { to, bytes } => {
            payload.put(data_out(*to, damage, Toggle::Zero, bytes));
        }
        Attempt::Out { to, toggle, bytes } => {
            payload.put(data_out(*to, damage, *toggle, bytes.as_slice()));
        }
        Attempt::In { .. } => payload.clear(),
    }
}

/// A data packet of the host as damage leaves it.
fn data_out(to: Destination, damage: Option<Damage>, toggle: Toggle, bytes: &[u8]) -> Outgoing
    requires { length bytes.now ≤ 64 }
    ensures value { result ≡ marked damage 2 (speed_has_pre to.speed)
        (packet.Payload toggle (record { items = bytes.now })) }
    ensures fields { HasFields result.packet }
    ensures bit { has_its_bit result.mark result.packet ≡ true }
{
    let packet = Packet::Payload {
        toggle,
        bytes: copied(bytes),
    };
    marked(damage, 2, to.speed.has_pre(), packet)
}

/// The same bytes.
fn copied(bytes: &[u8]) -> ArrayVec<u8, 64>
    requires { length bytes.now ≤ 64 }
    ensures { result.items ≡ bytes.now }
{
    let mut copy = ArrayVec::new();
    copy.try_extend_from_slice(bytes).unwrap();
    copy
}

/// Whether the host reads data of at most the maximum, and so answers by ACK.
#[tactic(auto, unfolding(usb_world::specs::Exchanges::reply_of))]
fn is_acknowledged(answer: &ExchangeAnswer, mark: Mark, attempt: &Attempt) -> bool
    ensures { ack_if result ≡ reply_of answer.now mark (attempt_data attempt.now).max }
{
    match answer {
        ExchangeAnswer::One(Packet::Payload { toggle: _, bytes }) => {
            mark.is_read() && bytes.len() <= usize::from(attempt.destination().max)
        }
        _ => false,
    }
}

/// The host's ACK as damage leaves it, if it answers by one.
#[tactic(auto, unfolding(usb_world::specs::Wire::marked_some))]
fn put_reply(
    attempt: &Attempt,
    damage: Option<Damage>,
    place: u8,
    acknowledged: bool,
    reply: &mut OutgoingRoom,
)
    ensures value { reply.new ≡ marked_some damage place (attempt_data attempt.now).pre
        (ack_if acknowledged) }
    ensures fields { IfSome reply.new (λ s. HasFields s.packet) }
    ensures bit { IfSome reply.new (λ s. has_its_bit s.mark s.packet ≡ true) }
{
    if acknowledged {
        let speed = attempt.destination().speed;
        reply.put(marked(damage, place, speed.has_pre(), Packet::Ack));
    } else {
        reply.clear();
    }
}

/// The host's ACK, if it answers by one and that is not damaged.
#[tactic(auto, unfolding(usb_world::specs::Wire::marked_some, usb_world::specs::Wire::marked, usb_world::specs::Wire::harm_to, usb_world::specs::Wire::mark_of))]
fn put_whole_reply(acknowledged: bool, reply: &mut OutgoingRoom)
    ensures { (pre : Bool) (place : ℕ) → reply.new ≡ marked_some None place pre
        (ack_if acknowledged) }
{
    if acknowledged {
        reply.put_ack();
    } else {
        reply.clear();
    }
}
