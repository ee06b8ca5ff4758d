//! Packets on their way, and what damage does to them.
ghost use Rattle.std.specs.Prelude.{◌≡◌, ◌*◌, ◌<◌, ◌≤◌, length, true};
ghost use Rattle.usb_packet.specs.Spelling.{HasFields, flipped};
ghost use Rattle.usb_packet.specs.declared.Packet.TheVariants.{Payload};
ghost use Rattle.usb_world.specs.Wire.{damage_of, harm_to, bit_count, mark_of, has_its_bit, marked};

use arrayvec::ArrayVec;
use std::marker::Model;
use usb_packet::{Packet, Toggle};
use usb_world::{Damage, Harm, Mark, Outgoing};

/// Room for a packet of the host that an attempt may have or not. What is put there stands in the place of what was
/// there before, and nothing else is written.
#[derive(Debug, Drop)]
pub struct OutgoingRoom {
    is_sent: bool,
    outgoing: Outgoing,
}

impl Model for OutgoingRoom {
    ghost use Rattle.std.specs.Prelude.{Option, Some, None, if◌then◌else◌};
    ghost use Rattle.usb_world.specs.declared.wire.Outgoing.{Outgoing};

    ghost Value = { Option Outgoing };

    ghost view = { λ r. if r.is_sent then Some r.outgoing else None };
}

impl OutgoingRoom {
    ghost use Rattle.std.specs.Prelude.{Some, None, option_copied};
    ghost use Rattle.usb_packet.specs.declared.Packet.TheVariants.{Ack};
    ghost use Rattle.usb_world.specs.declared.wire.Mark.TheVariants.{Whole};

    /// No packet.
    pub(crate) fn empty() -> Self
        ensures { result ≡ None }
    {
        OutgoingRoom {
            is_sent: false,
            outgoing: Outgoing {
                packet: Packet::Ack,
                mark: Mark::Whole,
            },
        }
    }

    /// The packet, if there is one.
    pub fn get(&self) -> Option<&Outgoing>
        ensures { option_copied result ≡ self.now }
    {
        if self.is_sent {
            Some(&self.outgoing)
        } else {
            None
        }
    }

    /// No packet goes out.
    pub(crate) fn clear(&mut self)
        ensures { self.new ≡ None }
    {
        self.is_sent = false;
    }

    /// This packet goes out.
    pub(crate) fn put(&mut self, outgoing: Outgoing)
        ensures { self.new ≡ Some outgoing }
    {
        self.outgoing = outgoing;
        self.is_sent = true;
    }

    /// A data packet goes out, and nothing damages it.
    pub(crate) fn put_data(&mut self, toggle: Toggle, bytes: &[u8])
        requires { length bytes.now ≤ 64 }
        ensures { self.new ≡ Some (record {
          packet = Payload toggle (record { items = bytes.now });
          mark = Whole;
        }) }
    {
        put_data(toggle, bytes, &mut self.outgoing.packet);
        self.outgoing.mark = Mark::Whole;
        self.is_sent = true;
    }

    /// The host's ACK goes out, and nothing damages it.
    pub(crate) fn put_ack(&mut self)
        ensures { self.new ≡ Some (record { packet = Ack; mark = Whole }) }
    {
        match &mut self.outgoing.packet {
            Packet::Ack => {}
            packet => *packet = Packet::Ack,
        }
        self.outgoing.mark = Mark::Whole;
        self.is_sent = true;
    }
}

/// A data packet in the place of another one, whose room for bytes it takes where there is one.
fn put_data(toggle: Toggle, bytes: &[u8], packet: &mut Packet)
    requires { length bytes.now ≤ 64 }
    ensures { packet.new ≡ Payload toggle (record { items = bytes.now }) }
{
    match packet {
        Packet::Payload {
            toggle: old,
            bytes: room,
        } => {
            *old = toggle;
            room.clear();
            room.try_extend_from_slice(bytes).unwrap();
        }
        packet => {
            let mut room = ArrayVec::new();
            room.try_extend_from_slice(bytes).unwrap();
            *packet = Packet::Payload {
                toggle,
                bytes: room,
            };
        }
    }
}

/// The damage to the attempt of a number.
pub fn damage_of(damages: &[Damage], attempt: u64) -> Option<Damage>
    ensures { result ≡ damage_of damages.now attempt }
{
    'damages: for damage in damages {
        if damage.attempt == attempt {
            return Some(*damage);
        }
    }
    None
}

/// The harm to the packet at a place of its attempt, counted from 1.
#[tactic(auto, unfolding(usb_world::specs::Wire::harm_to))]
pub(crate) fn harm_to(damage: Option<Damage>, place: u8) -> Option<Harm>
    ensures { result ≡ harm_to damage place }
{
    let damage = damage?;
    if damage.packet == place {
        Some(damage.harm)
    } else {
        None
    }
}

/// How many bits the packet has.
#[tactic(auto, unfolding(usb_world::specs::Wire::bit_count))]
fn bit_count(packet: &Packet) -> usize
    ensures { result ≡ bit_count packet.now }
{
    match packet {
        Packet::Token {
            kind: _,
            addr: _,
            ep: _,
        } => 24,
        Packet::Sof(_) => 24,
        Packet::Payload { toggle: _, bytes } => 24 + 8 * bytes.len(),
        Packet::Ack | Packet::Nak | Packet::Stall | Packet::Pre => 8,
    }
}

/// The mark that a harm leaves: none if the packet has no PRE, or has not the bit.
#[tactic(auto, unfolding(usb_world::specs::Wire::mark_of, usb_world::specs::Wire::has_its_bit))]
pub(crate) fn mark_of(harm: Option<Harm>, pre: bool, packet: &Packet) -> Mark
    ensures value { result ≡ mark_of harm pre packet.now }
    ensures bit { has_its_bit result packet.now ≡ true }
{
    match harm {
        None => Mark::Whole,
        Some(Harm::Lose) => Mark::Lost,
        Some(Harm::LosePre) => { if pre { Mark::PreLost } else { Mark::Whole } }
        Some(Harm::Flip(bit)) => {
            if usize::from(bit) < bit_count(packet) {
                Mark::Flipped(bit)
            } else {
                Mark::Whole
            }
        }
    }
}

/// The packet as it goes out at a place of its attempt.
#[tactic(auto, unfolding(usb_world::specs::Wire::marked))]
pub(crate) fn marked(damage: Option<Damage>, place: u8, pre: bool, packet: Packet) -> Outgoing
    requires { HasFields packet }
    ensures value { result ≡ marked damage place pre packet }
    ensures fields { HasFields result.packet }
    ensures bit { has_its_bit result.mark result.packet ≡ true }
{
    let mark = mark_of(harm_to(damage, place), pre, &packet);
    Outgoing { packet, mark }
}

/// The bytes with one bit flipped, counted from 0.
pub(crate) fn flipped(bytes: ArrayVec<u8, 67>, bit: u16) -> ArrayVec<u8, 67>
    requires { bit < 8 * length bytes.items }
    ensures { result.items ≡ flipped bytes.items bit }
{
    let mut bytes = bytes;
    let place = usize::from(bit / 8);
    bytes.as_mut_slice()[place] ^= 1 << (bit % 8);
    bytes
}
