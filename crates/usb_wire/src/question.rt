//! What the host asks the controller side, and its lines.
ghost use Rattle.std.specs.Prelude.{◌≡◌, ◌++◌, ◌+◌, ◌≤◌, [], codes, decimal, length, false};
ghost use Rattle.usb_packet.specs.declared.TokenKind.TheVariants.{OutTok};
ghost use Rattle.usb_packet.specs.declared.Toggle.TheVariants.{Zero};
ghost use Rattle.usb_packet.specs.Text.{data_name, hex_text};
ghost use Rattle.usb_request.specs.Layout.{bytes_of};
ghost use Rattle.usb_wire.specs.Questions.{kind_asked, call_text, data_with, between_text, direction_text, is_outs, outs_text, question_line, speed_text, token_text};

use crate::answer::{push_bytes, push_number};
use crate::field::few_bytes;
use arrayvec::{ArrayString, ArrayVec};
use usb_packet::{Packet, Speed, Toggle, TokenKind, push_decimal, push_packet};
use usb_port::PortCall;
use usb_request::Setup;

/// An endpoint of the device at an address (8.3.2).
#[derive(Clone, Copy, Debug, PartialEq, Eq)]
pub struct Endpoint {
    /// The device's address, 0 to 127.
    pub address: u8,
    /// The endpoint's number, 0 to 15.
    pub number: u8,
}

/// The most bytes of a row of OUTs: as many as a line has room for.
pub const ROW_LIMIT: usize = 448;

/// A data packet (8.4.4).
#[derive(Debug, Drop)]
pub struct DataPacket {
    /// Which of the two data PIDs it has (8.6).
    pub toggle: Toggle,
    /// Its data: 0 to 64 bytes.
    pub bytes: ArrayVec<u8, 64>,
}

/// What the host asks: one attempt, a row of them, one call at a root port, the restart of an
/// endpoint, or what is requested.
#[derive(Debug, Drop)]
pub enum Question {
    /// The first question, with the protocol's version.
    Hello,
    /// An attempt to send setup data, in DATA0 (8.5.3).
    Setup {
        /// The device's speed.
        speed: Speed,
        /// The device's address, and the endpoint.
        endpoint: Endpoint,
        /// The setup data.
        setup: Setup,
    },
    /// An attempt to send data (8.5.1).
    Out {
        /// The device's speed.
        speed: Speed,
        /// The device's address, and the endpoint.
        endpoint: Endpoint,
        /// The data.
        sent: DataPacket,
    },
    /// An attempt to have data sent (8.5.1).
    In {
        /// The device's speed.
        speed: Speed,
        /// The device's address, and the endpoint.
        endpoint: Endpoint,
        /// The most bytes of the endpoint's packets, 1 to 64.
        most: u8,
    },
    /// A row of attempts to have data sent, until one does not bring a full packet of the toggle that
    /// is due. Each has its answer.
    Ins {
        /// The device's speed.
        speed: Speed,
        /// The device's address, and the endpoint.
        endpoint: Endpoint,
        /// The most bytes of the endpoint's packets, 1 to 64.
        most: u8,
        /// The toggle that the first packet has.
        toggle: Toggle,
        /// How many packets at most, 1 to 64.
        packets: u8,
    },
    /// A row of attempts to send data in packets of the maximum, until one is not acknowledged. Each
    /// has its answer.
    Outs {
        /// The device's speed.
        speed: Speed,
        /// The device's address, and the endpoint.
        endpoint: Endpoint,
        /// The most bytes of the endpoint's packets, 1 to 64.
        most: u8,
        /// The toggle of the first packet.
        toggle: Toggle,
        /// The data of all packets, 1 to 448 bytes.
        bytes: ArrayVec<u8, ROW_LIMIT>,
    },
    /// A call at a root port (11.24).
    Port {
        /// The root port's number, 1 to 7.
        number: u8,
        /// The call.
        call: PortCall,
    },
    /// An endpoint begins again at DATA0, by SET_INTERFACE (9.4.10, 9.1.1.5).
    Restart {
        /// The device's address, and the endpoint, 1 to 15.
        endpoint: Endpoint,
        /// Whether it is the IN endpoint of that number.
        is_in: bool,
    },
    /// The host has nothing left to do, and asks what is requested.
    Wait,
}

/// Which answers a question has.
#[derive(Clone, Copy, Debug, PartialEq, Eq)]
pub enum Asked {
    /// That of the hello.
    Hello,
    /// Those of an attempt; of a row, those of each of its attempts.
    Attempt,
    /// That of a call at a root port, and of the restart of an endpoint.
    Port,
    /// What may be requested.
    Wait,
}

impl Question {
    /// Which answers the question has.
    pub fn asked(&self) -> Asked
        ensures { result ≡ kind_asked self.now }
    {
        match self {
            Question::Hello => Asked::Hello,
            Question::Setup { .. } | Question::Out { .. } | Question::In { .. } => Asked::Attempt,
            Question::Ins { .. } | Question::Outs { .. } => Asked::Attempt,
            Question::Port { .. } => Asked::Port,
            Question::Restart { .. } => Asked::Port,
            Question::Wait => Asked::Wait,
        }
    }
}

/// The question's line, without the newline. It has at most 1,024 bytes.
pub fn question_line(question: &Question) -> ArrayString<1026>
    ensures { result.bytes ≡ question_line question.now }
{
    match question {
        Question::Outs {
            speed,
            endpoint,
            most,
            toggle,
            bytes,
        } => outs_line(*speed, *endpoint, *most, *toggle, bytes.as_slice()),
        _ => {
            let mut line = ArrayString::new();
            push_short(&mut line, question);
            roomy(line.as_str())
        }
    }
}

/// A line, with room for more.
fn roomy(text: &str) -> ArrayString<1026>
    requires { length text.now ≤ 700 }
    ensures { result.bytes ≡ text.now }
{
    let mut line = ArrayString::new();
    line.push_str(text);
    line
}

/// The line of a row of OUTs.
fn outs_line(
    speed: Speed,
    endpoint: Endpoint,
    most: u8,
    toggle: Toggle,
    bytes: &[u8],
) -> ArrayString<1026>
    requires { length bytes.now ≤ 448 }
    ensures { result.bytes ≡ outs_text speed endpoint most toggle (hex_text bytes.now) }
{
    let mut front = ArrayString::new();
    push_out(&mut front, speed, endpoint, toggle);
    let mut line = roomy(front.as_str());
    push_row(&mut line, bytes);
    line.push(' ');
    push_number(&mut line, u64::from(most));
    line
}

/// The bytes of a row.
fn push_row(line: &mut ArrayString<1026>, bytes: &[u8])
    requires front { length line.old.bytes ≤ 70 }
    requires few { length bytes.now ≤ 448 }
    ensures text { line.new.bytes ≡ line.old.bytes ++ hex_text bytes.now }
    ensures few { length line.new.bytes ≤ 967 }
{
    push_bytes(line, bytes);
}

/// What comes before the data of OUTs.
fn push_out(line: &mut ArrayString<700>, speed: Speed, endpoint: Endpoint, toggle: Toggle)
    requires { line.old.bytes ≡ [] }
    ensures text { line.new.bytes ≡ speed_text speed ++ token_text OutTok endpoint ++
        between_text speed ++ data_name toggle }
    ensures few { length line.new.bytes ≤ 70 }
{
    line.push_str(speed_text(speed));
    line.push_str("OUT ");
    push_device(line, endpoint);
    push_between(line, speed);
    line.push_str(data_name(toggle));
}

/// An address and an endpoint, with a dot between them.
fn push_device(line: &mut ArrayString<700>, endpoint: Endpoint)
    requires { length line.old.bytes ≤ 560 }
    ensures text { line.new.bytes ≡ line.old.bytes ++
        (decimal endpoint.address ++ codes "." ++ decimal endpoint.number) }
    ensures few { length line.new.bytes ≤ length line.old.bytes + 41 }
{
    push_decimal(line, u64::from(endpoint.address));
    line.push('.');
    push_decimal(line, u64::from(endpoint.number));
}

/// The name of a data packet, and a space.
fn data_name(toggle: Toggle) -> &'static str
    ensures value { result.now ≡ data_name toggle }
    ensures short { length result.now ≤ 6 }
{
    match toggle {
        Toggle::Zero => "DATA0 ",
        Toggle::One => "DATA1 ",
    }
}

/// A question that is not a row of OUTs.
fn push_short(line: &mut ArrayString<700>, question: &Question)
    requires empty { line.old.bytes ≡ [] }
    requires short { is_outs question.now ≡ false }
    ensures { line.new.bytes ≡ question_line question.now }
{
    match question {
        Question::Hello => line.push_str("usbplan live 1"),
        Question::Setup {
            speed,
            endpoint,
            setup,
        } => push_setup_to(line, *speed, *endpoint, *setup),
        Question::Out {
            speed,
            endpoint,
            sent,
        } => push_packet_to(line, *speed, *endpoint, sent),
        Question::In {
            speed,
            endpoint,
            most,
        } => push_in(line, *speed, *endpoint, *most),
        Question::Ins {
            speed,
            endpoint,
            most,
            toggle,
            packets,
        } => push_ins(line, *speed, *endpoint, *most, *toggle, *packets),
        Question::Outs { .. } => {}
        Question::Port { number, call } => push_call(line, *number, *call),
        Question::Restart { endpoint, is_in } => push_restart(line, *endpoint, *is_in),
        Question::Wait => line.push_str("wait"),
    }
}

/// A SETUP, with its data.
fn push_setup_to(line: &mut ArrayString<700>, speed: Speed, endpoint: Endpoint, setup: Setup)
    requires { line.old.bytes ≡ [] }
    ensures { line.new.bytes ≡ question_line (Question.Setup speed endpoint setup) }
{
    push_token(line, speed, TokenKind::SetupTok, endpoint);
    push_between(line, speed);
    push_setup(line, setup);
}

/// An OUT, with its data packet.
fn push_packet_to(line: &mut ArrayString<700>, speed: Speed, endpoint: Endpoint, sent: &DataPacket)
    requires { line.old.bytes ≡ [] }
    ensures { line.new.bytes ≡ question_line (Question.Out speed endpoint sent.now) }
{
    push_token(line, speed, TokenKind::OutTok, endpoint);
    push_between(line, speed);
    push_data(line, sent.toggle, sent.bytes.as_slice());
}

/// A row of INs, with the toggle that is due and the most packets.
fn push_ins(
    line: &mut ArrayString<700>,
    speed: Speed,
    endpoint: Endpoint,
    most: u8,
    toggle: Toggle,
    packets: u8,
)
    requires { line.old.bytes ≡ [] }
    ensures { line.new.bytes ≡ question_line (Question.Ins speed endpoint most toggle packets) }
{
    push_in(line, speed, endpoint, most);
    line.push(' ');
    line.push_str(data_name(toggle));
    push_decimal(line, u64::from(packets));
}

/// An IN, and the most bytes of the endpoint's packets.
fn push_in(line: &mut ArrayString<700>, speed: Speed, endpoint: Endpoint, most: u8)
    requires { line.old.bytes ≡ [] }
    ensures text { line.new.bytes ≡ question_line (Question.In speed endpoint most) }
    ensures few { length line.new.bytes ≤ 200 }
{
    push_token(line, speed, TokenKind::InTok, endpoint);
    line.push(' ');
    push_decimal(line, u64::from(most));
}

/// A token, as its device hears it.
fn push_token(line: &mut ArrayString<700>, speed: Speed, kind: TokenKind, endpoint: Endpoint)
    requires { length line.old.bytes ≤ 400 }
    ensures text { line.new.bytes
        ≡ line.old.bytes ++ (speed_text speed ++ token_text kind endpoint) }
    ensures few { length line.new.bytes ≤ length line.old.bytes + 140 }
{
    line.push_str(speed_text(speed));
    let token = Packet::Token {
        kind,
        addr: endpoint.address,
        ep: endpoint.number,
    };
    push_packet(line, &token);
}

/// What comes between a token and the host's data.
fn push_between(line: &mut ArrayString<700>, speed: Speed)
    requires { length line.old.bytes ≤ 560 }
    ensures text { line.new.bytes ≡ line.old.bytes ++ between_text speed }
    ensures few { length line.new.bytes ≤ length line.old.bytes + 7 }
{
    line.push_str(match speed {
        Speed::Full | Speed::Low => " / ",
        Speed::LowBelowHub => " / PRE ",
    });
}

/// The words of a device's speed before a token.
fn speed_text(speed: Speed) -> &'static str
    ensures value { result.now ≡ speed_text speed }
    ensures short { length result.now ≤ 4 }
{
    match speed {
        Speed::Full => "",
        Speed::Low => "low ",
        Speed::LowBelowHub => "PRE ",
    }
}

/// Setup data, in DATA0.
fn push_setup(line: &mut ArrayString<700>, setup: Setup)
    requires { length line.old.bytes ≤ 560 }
    ensures { line.new.bytes ≡ line.old.bytes ++ data_with Zero (hex_text (bytes_of setup)) }
{
    push_data(line, Toggle::Zero, &setup.to_bytes());
}

/// A data packet.
pub(crate) fn push_data(line: &mut ArrayString<700>, toggle: Toggle, bytes: &[u8])
    requires room { length line.old.bytes ≤ 560 }
    requires few { length bytes.now ≤ 64 }
    ensures { line.new.bytes ≡ line.old.bytes ++ data_with toggle (hex_text bytes.now) }
{
    push_packet(
        line,
        &Packet::Payload {
            toggle,
            bytes: few_bytes(bytes),
        },
    );
}

/// A root port and a call of it.
fn push_call(line: &mut ArrayString<700>, number: u8, call: PortCall)
    requires { line.old.bytes ≡ [] }
    ensures { line.new.bytes ≡ question_line (Question.Port number call) }
{
    line.push_str("port ");
    push_decimal(line, u64::from(number));
    line.push(' ');
    line.push_str(call_text(call));
}

/// An endpoint that begins again.
fn push_restart(line: &mut ArrayString<700>, endpoint: Endpoint, is_in: bool)
    requires { line.old.bytes ≡ [] }
    ensures { line.new.bytes ≡ question_line (Question.Restart endpoint is_in) }
{
    line.push_str("restart ");
    push_decimal(line, u64::from(endpoint.address));
    line.push('.');
    push_decimal(line, u64::from(endpoint.number));
    line.push(' ');
    line.push_str(direction_text(is_in));
}

/// The way that an endpoint's data go.
fn direction_text(is_in: bool) -> &'static str
    ensures value { result.now ≡ direction_text is_in }
    ensures short { length result.now ≤ 3 }
{
    if is_in { "in" } else { "out" }
}

/// A call of a root port, by the name of its feature (table 11-17).
fn call_text(call: PortCall) -> &'static str
    ensures value { result.now ≡ call_text call }
    ensures short { length result.now ≤ 40 }
{
    match call {
        PortCall::SetPower => "set PORT_POWER",
        PortCall::SetReset => "set PORT_RESET",
        PortCall::ClearEnable => "clear PORT_ENABLE",
        PortCall::ClearPower => "clear PORT_POWER",
        PortCall::ClearConnectionChange => "clear C_PORT_CONNECTION",
        PortCall::ClearEnableChange => "clear C_PORT_ENABLE",
        PortCall::ClearResetChange => "clear C_PORT_RESET",
    }
}
