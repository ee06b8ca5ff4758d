//! What the controller side says, and its lines.
ghost use Rattle.std.specs.Prelude.{◌≡◌, ◌∷◌, ◌++◌, ◌+◌, ◌*◌, ◌<◌, ◌≤◌, [], codes, decimal, length, true};
ghost use Rattle.hex.specs.Hex.{encode_upper};
ghost use Rattle.usb_packet.specs.Text.{hex_text};
ghost use Rattle.usb_port.specs.Path.{path_text};
ghost use Rattle.usb_request.specs.Layout.{bytes_of};
ghost use Rattle.usb_wire.specs.Answers.{asks_call, said_line, write_text};
ghost use Rattle.usb_wire.specs.Fields.{address_text};

use crate::question::{DataPacket, push_data};
use crate::write::ControlWrite;
use arrayvec::{ArrayString, ArrayVec};
use usb_packet::{hex_digits, push_decimal};
use usb_port::PortPath;
use usb_request::{EndpointAddress, ReadRequest, Setup};

/// The most bytes to send to the first bulk endpoint. A line that requests it has room for them
/// behind a path of up to 18 bytes, and for 499 behind a longer one.
pub const SEND_LIMIT: usize = 500;

/// The room that such a line has for the path and for two digits of each byte, beside a word and two
/// spaces in 1,024 bytes.
pub const SEND_ROOM: usize = 1018;

/// The most bytes to send to an endpoint that is named: each line that requests it has room for
/// them.
pub const SEND_TO_LIMIT: usize = 490;

/// The answer to a question.
#[derive(Debug, Drop)]
pub enum Answer {
    /// To the hello: how many root ports there are, 1 to 7.
    Roots(u8),
    /// To the hello: the same, of version 2, which answers rows of attempts.
    RootsAndRows(u8),
    /// To an attempt: the data came through (8.4.5).
    Ack,
    /// To an attempt: nothing to give, or no room now (8.4.5).
    Nak,
    /// To an attempt: halted, or a request refused (8.4.5).
    Stall,
    /// To an attempt: no good answer came.
    Nothing,
    /// To an attempt: the data that came.
    Data(DataPacket),
    /// To a call at a root port: it was made. If the host asks what is requested: nothing.
    Done,
    /// What is requested: a listing.
    Show,
    /// What is requested: the end.
    End,
    /// What is requested: to send bytes to the bulk endpoint of the device at a port (5.8).
    Send {
        /// The port.
        path: PortPath,
        /// 0 to 500 bytes, as many as the line has room for.
        bytes: ArrayVec<u8, SEND_LIMIT>,
    },
    /// What is requested: to receive from the bulk endpoint of the device at a port (5.8).
    Receive {
        /// The port.
        path: PortPath,
        /// The most packets, 0 to 1,000.
        packets: u16,
    },
    /// What is requested: to clear the halts of the bulk endpoints of the device at a port (9.4.1).
    Clear(PortPath),
    /// What is requested: to send bytes to an OUT endpoint of the device at a port (5.7, 5.8).
    SendTo {
        /// The port.
        path: PortPath,
        /// The endpoint.
        endpoint: EndpointAddress,
        /// 0 to 490 bytes.
        bytes: ArrayVec<u8, SEND_TO_LIMIT>,
    },
    /// What is requested: to receive from a bulk IN endpoint of the device at a port (5.8).
    ReceiveFrom {
        /// The port.
        path: PortPath,
        /// The endpoint.
        endpoint: EndpointAddress,
        /// The most packets, 0 to 1,000.
        packets: u16,
    },
    /// What is requested: to ask an interrupt IN endpoint of the device at a port once for a packet
    /// (5.7).
    Poll {
        /// The port.
        path: PortPath,
        /// The endpoint.
        endpoint: EndpointAddress,
    },
    /// What is requested: to clear the halt of an endpoint of the device at a port (9.4.1).
    ClearOf {
        /// The port.
        path: PortPath,
        /// The endpoint.
        endpoint: EndpointAddress,
    },
    /// What is requested: to choose an alternate setting of an interface of the device at a port
    /// (9.4.10).
    Interface {
        /// The port.
        path: PortPath,
        /// The interface's number.
        interface: u8,
        /// The alternate setting.
        setting: u8,
    },
    /// What is requested: to read from endpoint 0 of the device at a port (9.3).
    ControlIn {
        /// The port.
        path: PortPath,
        /// The request.
        request: ReadRequest,
    },
    /// What is requested: to write to endpoint 0 of the device at a port (9.3).
    ControlOut {
        /// The port.
        path: PortPath,
        /// The request, with 0 to 480 bytes.
        request: ControlWrite,
    },
    /// What is requested: to enumerate again whatever is at a port.
    Look(PortPath),
    /// What is requested: which devices left and which arrived since this was last requested.
    News,
}

/// What one line of the controller side says.
#[derive(Debug, Drop)]
pub enum Said {
    /// The status of a root port is another than it was when it was last reported.
    Changed {
        /// The root port's number, from 1 on.
        number: u8,
        /// wPortStatus and wPortChange, each low byte first (11.24.2.7).
        status: [u8; 4],
    },
    /// The answer to the question.
    Answered(Answer),
}

/// The line of what is said, without the newline. It has at most 1,024 bytes; only where more are to
/// be sent than a line has room for, it has up to 1,026.
pub fn said_line(said: &Said) -> ArrayString<1026>
    ensures { result.bytes ≡ said_line said.now }
{
    let mut line = ArrayString::new();
    match said {
        Said::Changed { number, status } => {
            line.push_str("port ");
            push_number(&mut line, u64::from(*number));
            line.push(' ');
            push_bytes(&mut line, status);
        }
        Said::Answered(answer) => push_answer(&mut line, answer),
    }
    line
}

/// Adds the words of an answer to an empty line.
fn push_answer(line: &mut ArrayString<1026>, answer: &Answer)
    requires { line.old.bytes ≡ [] }
    ensures { line.new.bytes ≡ said_line (Said.Answered answer.now) }
{
    match answer {
        Answer::Roots(roots) => {
            line.push_str("roots ");
            push_number(line, u64::from(*roots));
        }
        Answer::RootsAndRows(roots) => push_second(line, *roots),
        Answer::Data(sent) => {
            let mut data = ArrayString::new();
            push_data(&mut data, sent.toggle, sent.bytes.as_slice());
            line.push_str(data.as_str());
        }
        Answer::News => line.push_str("news"),
        Answer::Ack => line.push_str("ACK"),
        Answer::Nak => line.push_str("NAK"),
        Answer::Stall => line.push_str("STALL"),
        Answer::Nothing => line.push_str("none"),
        Answer::Done => line.push_str("ok"),
        Answer::Show => line.push_str("show"),
        Answer::End => line.push_str("end"),
        _ => push_call(line, answer),
    }
}

/// A call that the host is to make at a path.
fn push_call(line: &mut ArrayString<1026>, answer: &Answer)
    requires empty { line.old.bytes ≡ [] }
    requires call { asks_call answer.now ≡ true }
    ensures { line.new.bytes ≡ said_line (Said.Answered answer.now) }
{
    match answer {
        Answer::Send { path, bytes } => push_send(line, path, bytes.as_slice()),
        Answer::Receive { path, packets } => push_receive(line, path, *packets),
        Answer::Clear(path) => push_path(line, "clear ", path),
        Answer::SendTo {
            path,
            endpoint,
            bytes,
        } => push_send_to(line, path, *endpoint, bytes.as_slice()),
        Answer::ReceiveFrom {
            path,
            endpoint,
            packets,
        } => push_receive_from(line, path, *endpoint, *packets),
        Answer::Poll { path, endpoint } => push_endpoint(line, "interrupt ", path, *endpoint),
        Answer::ClearOf { path, endpoint } => push_endpoint(line, "clear ", path, *endpoint),
        Answer::Interface {
            path,
            interface,
            setting,
        } => push_interface(line, path, *interface, *setting),
        Answer::ControlIn { path, request } => push_read(line, path, request.setup()),
        Answer::ControlOut { path, request } => push_control(line, path, request),
        Answer::Look(path) => push_path(line, "look ", path),
        _ => {}
    }
}

/// How many root ports there are, and version 2.
fn push_second(line: &mut ArrayString<1026>, roots: u8)
    requires { line.old.bytes ≡ [] }
    ensures { line.new.bytes ≡ codes "roots " ++ decimal roots ++ codes " 2" }
{
    line.push_str("roots ");
    push_number(line, u64::from(roots));
    line.push_str(" 2");
}

/// What is to be sent to the first bulk endpoint.
fn push_send(line: &mut ArrayString<1026>, path: &PortPath, bytes: &[u8])
    requires empty { line.old.bytes ≡ [] }
    requires few { length bytes.now ≤ 500 }
    ensures { line.new.bytes
        ≡ codes "send " ++ path_text path.now ++ codes " " ++ hex_text bytes.now }
{
    push_path(line, "send ", path);
    line.push(' ');
    push_bytes(line, bytes);
}

/// The most packets to receive from the first bulk endpoint.
fn push_receive(line: &mut ArrayString<1026>, path: &PortPath, packets: u16)
    requires { line.old.bytes ≡ [] }
    ensures { line.new.bytes
        ≡ codes "receive " ++ path_text path.now ++ codes " " ++ decimal packets }
{
    push_path(line, "receive ", path);
    line.push(' ');
    push_number(line, u64::from(packets));
}

/// What is to be sent to an endpoint that is named.
fn push_send_to(
    line: &mut ArrayString<1026>,
    path: &PortPath,
    endpoint: EndpointAddress,
    bytes: &[u8],
)
    requires empty { line.old.bytes ≡ [] }
    requires few { length bytes.now ≤ 490 }
    ensures { line.new.bytes ≡ codes "send " ++ path_text path.now ++ codes " " ++
        address_text endpoint ++ codes " " ++ hex_text bytes.now }
{
    push_endpoint(line, "send ", path, endpoint);
    line.push(' ');
    push_bytes(line, bytes);
}

/// The most packets to receive from an endpoint that is named.
fn push_receive_from(
    line: &mut ArrayString<1026>,
    path: &PortPath,
    endpoint: EndpointAddress,
    packets: u16,
)
    requires { line.old.bytes ≡ [] }
    ensures { line.new.bytes ≡ codes "receive " ++ path_text path.now ++ codes " " ++
        address_text endpoint ++ codes " " ++ decimal packets }
{
    push_endpoint(line, "receive ", path, endpoint);
    line.push(' ');
    push_number(line, u64::from(packets));
}

/// An alternate setting of an interface.
fn push_interface(line: &mut ArrayString<1026>, path: &PortPath, interface: u8, setting: u8)
    requires { line.old.bytes ≡ [] }
    ensures { line.new.bytes ≡ codes "interface " ++ path_text path.now ++ codes " " ++
        decimal interface ++ codes " " ++ decimal setting }
{
    push_path(line, "interface ", path);
    line.push(' ');
    push_number(line, u64::from(interface));
    line.push(' ');
    push_number(line, u64::from(setting));
}

/// A request that reads from endpoint 0.
fn push_read(line: &mut ArrayString<1026>, path: &PortPath, setup: Setup)
    requires { line.old.bytes ≡ [] }
    ensures { line.new.bytes
        ≡ codes "control " ++ path_text path.now ++ codes " " ++ hex_text (bytes_of setup) }
{
    push_path(line, "control ", path);
    line.push(' ');
    push_setup(line, setup);
}

/// A request that writes to endpoint 0.
fn push_control(line: &mut ArrayString<1026>, path: &PortPath, request: &ControlWrite)
    requires { line.old.bytes ≡ [] }
    ensures { line.new.bytes ≡ codes "control " ++ path_text path.now ++ codes " " ++ write_text
        (hex_text (bytes_of request.now.setup)) (hex_text request.now.bytes) request.now.bytes }
{
    push_path(line, "control ", path);
    line.push(' ');
    push_write(line, request.setup(), request.bytes());
}

/// Setup data, and the bytes that go with it, if there are any.
fn push_write(line: &mut ArrayString<1026>, setup: Setup, bytes: &[u8])
    requires { length line.old.bytes + 2 * length bytes.now < 1000 }
    ensures { line.new.bytes ≡ line.old.bytes
        ++ write_text (hex_text (bytes_of setup)) (hex_text bytes.now) bytes.now }
{
    push_setup(line, setup);
    if !bytes.is_empty() {
        line.push(' ');
        push_bytes(line, bytes);
    }
}

/// The bytes of setup data.
fn push_setup(line: &mut ArrayString<1026>, setup: Setup)
    requires { length line.old.bytes < 1000 }
    ensures text { line.new.bytes ≡ line.old.bytes ++ hex_text (bytes_of setup) }
    ensures few { length line.new.bytes ≡ length line.old.bytes + 16 }
{
    push_bytes(line, &setup.to_bytes());
}

/// A number in decimal digits.
pub(crate) fn push_number(line: &mut ArrayString<1026>, number: u64)
    requires { length line.old.bytes ≤ 1000 }
    ensures text { line.new.bytes ≡ line.old.bytes ++ decimal number }
    ensures few { length line.new.bytes ≤ length line.old.bytes + 20 }
{
    let mut digits = ArrayString::new();
    push_decimal(&mut digits, number);
    line.push_str(digits.as_str());
}

/// A word and a path.
fn push_path(line: &mut ArrayString<1026>, word: &str, path: &PortPath)
    requires empty { line.old.bytes ≡ [] }
    requires short { length word.now ≤ 10 }
    ensures text { line.new.bytes ≡ word.now ++ path_text path.now }
    ensures few { length line.new.bytes ≤ length word.now + 20 }
{
    line.push_str(word);
    line.push_str(path.text().as_str());
}

/// A word, a path and the address of an endpoint.
fn push_endpoint(
    line: &mut ArrayString<1026>,
    word: &str,
    path: &PortPath,
    endpoint: EndpointAddress,
)
    requires empty { line.old.bytes ≡ [] }
    requires short { length word.now ≤ 10 }
    ensures text { line.new.bytes
        ≡ word.now ++ path_text path.now ++ codes " " ++ address_text endpoint }
    ensures few { length line.new.bytes ≤ length word.now + 23 }
{
    push_path(line, word, path);
    line.push(' ');
    push_byte(line, endpoint.get());
}

/// Bytes in upper-case hexadecimal digits, a dash if there are none.
pub(crate) fn push_bytes(line: &mut ArrayString<1026>, bytes: &[u8])
    requires room { length line.old.bytes + 2 * length bytes.now ≤ 1026 }
    requires dash { length line.old.bytes < 1026 }
    ensures { line.new.bytes ≡ line.old.bytes ++ hex_text bytes.now }
{
    if bytes.is_empty() {
        line.push('-');
    } else {
        push_digits(line, bytes);
    }
}

/// Bytes in upper-case hexadecimal digits.
fn push_digits(line: &mut ArrayString<1026>, bytes: &[u8])
    requires { length line.old.bytes + 2 * length bytes.now ≤ 1026 }
    ensures { line.new.bytes ≡ line.old.bytes ++ encode_upper bytes.now }
{
    'bytes: for byte in bytes {
        push_byte(line, *byte);
    }
}

/// The two hexadecimal digits of a byte.
fn push_byte(line: &mut ArrayString<1026>, byte: u8)
    requires { length line.old.bytes ≤ 1024 }
    ensures { line.new.bytes ≡ line.old.bytes ++ encode_upper (byte ∷ []) }
{
    let [high, low] = hex_digits(byte);
    push_ascii(line, high);
    push_ascii(line, low);
}

/// Adds one ASCII character to a line with room for it.
fn push_ascii(line: &mut ArrayString<1026>, byte: u8)
    requires room { length line.old.bytes < 1026 }
    requires ascii { byte < 128 }
    ensures { line.new.bytes ≡ line.old.bytes ++ byte ∷ [] }
{
    line.push(char::from(byte));
}
