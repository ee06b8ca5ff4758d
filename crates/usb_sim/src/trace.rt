//! The lines of the trace.
ghost use Rattle.std.specs.Prelude.{◌≡◌, ◌+◌, ◌≤◌, [], ◌∷◌, ◌++◌, length};
ghost use Rattle.usb_world.specs.HeardAnswers.{heard_above};
ghost use Rattle.usb_world.specs.Trace.{attempt_line, pre_text, mark_text, host_text, next_text, answer_text};

use arrayvec::ArrayString;
use usb_device::{AnswerPid, HeardPid};
use usb_exchange::{ExchangeRoom, OutgoingRoom};
use usb_function::Hearing;
use usb_packet::{push_decimal, push_packet, push_payload};
use usb_world::{Mark, Outgoing};

/// Room for the longest line of an attempt.
pub type Line = ArrayString<700>;

/// Writes an attempt's number, its packets and the end of the line into an empty line. `pre` says that PRE is
/// before each of the host's packets.
pub fn push_attempt(line: &mut Line, number: u64, pre: bool, exchange: &ExchangeRoom)
    requires { line.old.bytes ≡ [] }
    ensures { line.new.bytes ≡ attempt_line number pre exchange.now ++ 10 ∷ [] }
{
    push_decimal(line, number);
    line.push_str(" ");
    push_host(line, pre, exchange.token());
    push_next(line, pre, exchange.payload());
    line.push_str(" / ");
    push_answer(line, exchange.heard());
    push_mark(line, exchange.answer_mark());
    push_next(line, pre, exchange.reply());
    line.push_str("\n");
}

/// PRE, if it is before a packet of the host.
fn push_pre(line: &mut Line, pre: bool)
    requires { length line.old.bytes ≤ 696 }
    ensures text { line.new.bytes ≡ line.old.bytes ++ pre_text pre }
    ensures few { length line.new.bytes ≤ length line.old.bytes + 4 }
{
    if pre {
        line.push_str("PRE ");
    }
}

/// A packet of the host.
fn push_host(line: &mut Line, pre: bool, packet: &Outgoing)
    requires { length line.old.bytes ≤ 530 }
    ensures text { line.new.bytes ≡ line.old.bytes ++ host_text pre packet.now }
    ensures few { length line.new.bytes ≤ length line.old.bytes + 167 }
{
    push_pre(line, pre);
    push_packet(line, &packet.packet);
    push_mark(line, packet.mark);
}

/// A further packet of the host, if there is one.
fn push_next(line: &mut Line, pre: bool, packet: &OutgoingRoom)
    requires { length line.old.bytes ≤ 527 }
    ensures text { line.new.bytes ≡ line.old.bytes ++ next_text pre packet.now }
    ensures few { length line.new.bytes ≤ length line.old.bytes + 170 }
{
    if let Some(packet) = packet.get() {
        line.push_str(" / ");
        push_host(line, pre, packet);
    }
}

/// The devices' answer.
fn push_answer(line: &mut Line, heard: &Hearing)
    requires { length line.old.bytes ≤ 564 }
    ensures text { line.new.bytes ≡ line.old.bytes ++ answer_text (heard_above heard.now) }
    ensures few { length line.new.bytes ≤ length line.old.bytes + 136 }
{
    match heard.pid() {
        HeardPid::Nothing => line.push_str("none"),
        HeardPid::Collision => line.push_str("collision"),
        HeardPid::One(AnswerPid::Ack) => line.push_str("ACK"),
        HeardPid::One(AnswerPid::Nak) => line.push_str("NAK"),
        HeardPid::One(AnswerPid::Stall) => line.push_str("STALL"),
        HeardPid::One(AnswerPid::Data(toggle)) => {
            push_payload(line, toggle, heard.bytes().as_slice())
        }
    }
}

/// What damage did to a packet.
fn push_mark(line: &mut Line, mark: Mark)
    requires { length line.old.bytes ≤ 673 }
    ensures text { line.new.bytes ≡ line.old.bytes ++ mark_text mark }
    ensures few { length line.new.bytes ≤ length line.old.bytes + 27 }
{
    match mark {
        Mark::Whole => {}
        Mark::Lost => line.push_str(" [lost]"),
        Mark::PreLost => line.push_str(" [pre lost]"),
        Mark::Flipped(bit) => {
            line.push_str(" [bit ");
            push_decimal(line, u64::from(bit));
            line.push_str("]");
        }
    }
}
