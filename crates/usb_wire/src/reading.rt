//! What a line of the controller side says.
ghost use Rattle.std.specs.Prelude.{◌≡◌, IfOk, false};
ghost use Rattle.std.specs.List.{list_all};
ghost use Rattle.usb_wire.specs.Answers.{IsSaidLine, MaySay};
ghost use Rattle.usb_wire.specs.Fields.{is_other_request};
ghost use Rattle.usb_wire.specs.Ports.{MaySayTo, answer_path, is_narrow, line_fault, names_ports, said_path, said_to};
ghost use Rattle.usb_wire.specs.Reading.{alone, bare_control, clear_answer, clear_of_answer, control_answer, data_answer, fault_in, interface_answer, line_says, look_answer, may_push, poll_answer, status_change, receive_answer, receive_from_answer, result_map, roots_answer, second_answer, send_answer, send_to_answer, shape_says, text_of_line, three_say, with_one, with_three, with_two, write_answer};
ghost use Rattle.usb_wire.specs.Words.{all_printable, is_printable};
ghost use Rattle.usb_wire.specs.declared.answer.Said.{Said as ASaid};

use crate::answer::{Answer, Said};
use crate::fault::WireFault;
use crate::field::{
    bytes_of_word, endpoint_named, number_of_word, path_in, request_of_word, status_of_word,
    write_of_words,
};
use crate::question::{Asked, DataPacket};
use crate::words::{Words, words_of};
use crate::write::ControlWrite;
use usb_packet::Toggle;
use usb_port::PortPath;
use usb_request::{ReadRequest, Setup};

/// The most bytes of a line, without its newline.
const LINE_LIMIT: usize = 1024;

/// The ports that a host knows.
#[derive(Clone, Copy, Debug, PartialEq, Eq)]
pub struct Hubs {
    /// How many root ports there are, 1 to 7. The answer to the hello says it, so that before it any
    /// number will do.
    pub roots: u8,
    /// Whether hubs may have 8 to 15 ports. Without it they have at most 7.
    pub wide: bool,
}

/// What a line of the controller side says after a question, without its newline: the answer, or
/// the status of a root port before it.
///
/// # Errors
///
/// The first of these that applies, in the order of [`WireFault`]:
///
/// - `LineTooLong`: it has more than 1,024 bytes.
/// - `BadCharacter`: a byte is no printable ASCII.
/// - `NoAnswer`: no answer to the question, and no status of a root port, has that first word and
///   that number of words. Or the BYTES of a `control` do not fit its request. Bit 7 of its first
///   byte is clear, and wLength is not 0 (9.3.1).
/// - `BadHex`: in the place of bytes is neither pairs of hexadecimal digits nor a dash.
/// - `BadLength`: there are over 64 bytes of data, 500 to send, 490 to an endpoint that is named, or
///   480 to write; not 4 of a status, 8 of setup data, or wLength to write.
/// - `BadNumber`: in the place of a number is none, or one out of its range. Or in the place of an
///   endpoint's address are no two upper-case digits of one (9.6.6).
/// - `BadPath`: in the place of a path is none, or one with a port that no hub may have. The root has
///   at most 7 ports, also where hubs may be wide.
pub fn read_said(asked: Asked, hubs: Hubs, line: &[u8]) -> Result<Said, WireFault>
    // What is read may be said, and stands there.
    ensures said { IfOk result (λ said. MaySayTo asked hubs said × IsSaidLine line.now said) }
    // What may be said and stands there is read.
    ensures only { (said : ASaid) → MaySayTo asked hubs said → IsSaidLine line.now said
        → result ≡ Ok said }
    // A line that says nothing has its fault.
    ensures fault { fault_in result ≡ line_fault asked hubs line.now }
{
    said_to(hubs.wide, said_in_form(asked, hubs.roots, line))
}

/// What a line says, whatever ports it names.
fn said_in_form(asked: Asked, roots: u8, line: &[u8]) -> Result<Said, WireFault>
    ensures is { result ≡ line_says asked roots line.now }
    ensures said { IfOk result (λ said. MaySay asked roots said × IsSaidLine line.now said) }
    ensures only { (said : ASaid) → MaySay asked roots said → IsSaidLine line.now said
        → result ≡ Ok said }
{
    line_says(asked, roots, line)
}

/// What is said, if it names ports that a host may have.
fn said_to(wide: bool, said: Result<Said, WireFault>) -> Result<Said, WireFault>
    ensures { result ≡ said_to wide said }
{
    let said = said?;
    if names_ports(wide, said_path(&said)) {
        Ok(said)
    } else {
        Err(WireFault::BadPath)
    }
}

/// The numbers of the path in what is said, none if it has none.
fn said_path(said: &Said) -> &[u8]
    ensures { result.now ≡ said_path said.now }
{
    match said {
        Said::Changed { .. } => &[],
        Said::Answered(answer) => answer_path(answer),
    }
}

/// The port numbers of the path that an answer names, none if it names no path.
fn answer_path(answer: &Answer) -> &[u8]
    ensures { result.now ≡ answer_path answer.now }
{
    match answer {
        Answer::Send { path, .. }
        | Answer::Receive { path, .. }
        | Answer::Clear(path)
        | Answer::SendTo { path, .. }
        | Answer::ReceiveFrom { path, .. }
        | Answer::Poll { path, .. }
        | Answer::ClearOf { path, .. }
        | Answer::Interface { path, .. }
        | Answer::ControlIn { path, .. }
        | Answer::ControlOut { path, .. }
        | Answer::Look(path) => path.numbers(),
        _ => &[],
    }
}

/// Whether a host may have all the ports of a path.
fn names_ports(wide: bool, path: &[u8]) -> bool
    ensures { result ≡ names_ports wide path.now }
{
    let Some((root, more)) = path.split_first() else {
        return true;
    };
    is_narrow(*root) && (wide || are_narrow(more))
}

/// Whether all of these are port numbers of hubs with at most 7 ports.
fn are_narrow(numbers: &[u8]) -> bool
    ensures { result ≡ list_all is_narrow numbers.now }
{
    numbers.iter().all(|number| is_narrow(*number))
}

/// Whether a hub of 1 to 7 ports has a port of this number.
fn is_narrow(number: u8) -> bool
    ensures { result ≡ is_narrow number }
{
    number <= 7
}

/// What a line says by its words, once its length and its characters are found good.
#[tactic(auto, unfolding(crate::specs::Reading::line_says))]
fn line_says(asked: Asked, roots: u8, line: &[u8]) -> Result<Said, WireFault>
    ensures { result ≡ line_says asked roots line.now }
{
    let text = text_of_line(line)?;
    words_say(asked, roots, words_of(text))
}

/// A line's text.
#[tactic(auto, unfolding(crate::specs::Reading::text_of_line))]
pub(crate) fn text_of_line(line: &[u8]) -> Result<&str, WireFault>
    ensures { text_of_line line.now ≡ result_map (λ text. text.now) result }
{
    if line.len() > LINE_LIMIT {
        return Err(WireFault::LineTooLong);
    }
    if !all_printable(line) {
        return Err(WireFault::BadCharacter);
    }
    match str::from_utf8(line) {
        Ok(text) => Ok(text),
        Err(_) => Err(WireFault::BadCharacter),
    }
}

/// Whether each byte is printable ASCII, from space to tilde.
fn all_printable(line: &[u8]) -> bool
    ensures { result ≡ all_printable line.now }
{
    line.iter().all(|byte| is_printable(*byte))
}

fn is_printable(byte: u8) -> bool
    ensures { result ≡ is_printable byte }
{
    (b' '..=b'~').contains(&byte)
}

/// What these words say; `NoAnswer` if there are five or more of them.
#[tactic(auto, unfolding(crate::specs::Reading::shape_says))]
fn words_say(asked: Asked, roots: u8, words: Words<'_>) -> Result<Said, WireFault>
    ensures { result ≡ shape_says asked roots words.entry }
{
    match words {
        Words::One(word) => Ok(Said::Answered(alone(asked, word)?)),
        Words::Two(word, argument) => Ok(Said::Answered(with_one(asked, word, argument)?)),
        Words::Three(word, first, second) => three_say(asked, roots, word, first, second),
        Words::Four(word, first, second, third) => Ok(Said::Answered(with_three(
            asked, word, first, second, third,
        )?)),
        Words::More => Err(WireFault::NoAnswer),
    }
}

/// The answers of one word.
#[tactic(auto, unfolding(crate::specs::Reading::alone))]
fn alone(asked: Asked, word: &str) -> Result<Answer, WireFault>
    ensures { result ≡ alone asked word.now }
{
    match asked {
        Asked::Hello => Err(WireFault::NoAnswer),
        Asked::Attempt => match word {
            "ACK" => Ok(Answer::Ack),
            "NAK" => Ok(Answer::Nak),
            "STALL" => Ok(Answer::Stall),
            "none" => Ok(Answer::Nothing),
            _ => Err(WireFault::NoAnswer),
        },
        Asked::Port => match word {
            "ok" => Ok(Answer::Done),
            _ => Err(WireFault::NoAnswer),
        },
        Asked::Wait => match word {
            "ok" => Ok(Answer::Done),
            "show" => Ok(Answer::Show),
            "end" => Ok(Answer::End),
            "news" => Ok(Answer::News),
            _ => Err(WireFault::NoAnswer),
        },
    }
}

/// The answers of two words.
#[tactic(auto, unfolding(crate::specs::Reading::with_one))]
fn with_one(asked: Asked, word: &str, argument: &str) -> Result<Answer, WireFault>
    ensures { result ≡ with_one asked word.now argument.now }
{
    match asked {
        Asked::Hello => match word {
            "roots" => roots_answer(argument),
            _ => Err(WireFault::NoAnswer),
        },
        Asked::Attempt => match word {
            "DATA0" => data_answer(Toggle::Zero, argument),
            "DATA1" => data_answer(Toggle::One, argument),
            _ => Err(WireFault::NoAnswer),
        },
        Asked::Port => Err(WireFault::NoAnswer),
        Asked::Wait => match word {
            "clear" => clear_answer(argument),
            "look" => look_answer(argument),
            _ => Err(WireFault::NoAnswer),
        },
    }
}

/// The number of root ports, 1 to 7, in answer to the hello.
#[tactic(auto, unfolding(crate::specs::Reading::roots_answer))]
fn roots_answer(word: &str) -> Result<Answer, WireFault>
    ensures { result ≡ roots_answer word.now }
{
    let roots = number_of_word(1, 7, word)?;
    Ok(Answer::Roots(roots as u8))
}

/// The data that came with this toggle, in answer to an attempt.
#[tactic(auto, unfolding(crate::specs::Reading::data_answer))]
fn data_answer(toggle: Toggle, word: &str) -> Result<Answer, WireFault>
    ensures { result ≡ data_answer toggle word.now }
{
    let bytes = bytes_of_word(word)?;
    Ok(Answer::Data(DataPacket { toggle, bytes }))
}

/// The request to clear the halts of the bulk endpoints of the device at a path.
#[tactic(auto, unfolding(crate::specs::Reading::clear_answer))]
fn clear_answer(word: &str) -> Result<Answer, WireFault>
    ensures { result ≡ clear_answer word.now }
{
    let path = path_in(word)?;
    Ok(Answer::Clear(path))
}

/// The request to enumerate again what is at a path.
#[tactic(auto, unfolding(crate::specs::Reading::look_answer))]
fn look_answer(word: &str) -> Result<Answer, WireFault>
    ensures { result ≡ look_answer word.now }
{
    let path = path_in(word)?;
    Ok(Answer::Look(path))
}

/// What three words say.
#[tactic(auto, unfolding(crate::specs::Reading::three_say))]
fn three_say(
    asked: Asked,
    roots: u8,
    word: &str,
    first: &str,
    second: &str,
) -> Result<Said, WireFault>
    ensures { result ≡ three_say asked roots word.now first.now second.now }
{
    if may_push(asked) && word == "port" {
        return status_change(roots, first, second);
    }
    let answer = with_two(asked, word, first, second)?;
    Ok(Said::Answered(answer))
}

/// Whether the status of a root port may come before the answer: not before that to the hello.
fn may_push(asked: Asked) -> bool
    ensures { result ≡ may_push asked }
{
    !matches!(asked, Asked::Hello)
}

/// The status of a root port.
#[tactic(auto, unfolding(crate::specs::Reading::status_change))]
fn status_change(roots: u8, first: &str, second: &str) -> Result<Said, WireFault>
    ensures { result ≡ status_change roots first.now second.now }
{
    let status = status_of_word(second)?;
    let number = number_of_word(1, u64::from(roots), first)?;
    Ok(Said::Changed {
        number: number as u8,
        status,
    })
}

/// The answers of three words.
#[tactic(auto, unfolding(crate::specs::Reading::with_two))]
fn with_two(asked: Asked, word: &str, first: &str, second: &str) -> Result<Answer, WireFault>
    ensures { result ≡ with_two asked word.now first.now second.now }
{
    match asked {
        Asked::Hello => match word {
            "roots" => second_answer(first, second),
            _ => Err(WireFault::NoAnswer),
        },
        Asked::Attempt | Asked::Port => Err(WireFault::NoAnswer),
        Asked::Wait => match word {
            "send" => send_answer(first, second),
            "receive" => receive_answer(first, second),
            "control" => control_answer(first, second),
            "interrupt" => poll_answer(first, second),
            "clear" => clear_of_answer(first, second),
            _ => Err(WireFault::NoAnswer),
        },
    }
}

/// How many root ports there are, of version 2.
#[tactic(auto, unfolding(crate::specs::Reading::second_answer))]
fn second_answer(first: &str, second: &str) -> Result<Answer, WireFault>
    ensures { result ≡ second_answer first.now second.now }
{
    let roots = number_of_word(1, 7, first)?;
    number_of_word(2, 2, second)?;
    Ok(Answer::RootsAndRows(roots as u8))
}

/// The request to send bytes to the first bulk endpoint. If path and bytes are bad, the fault is
/// that of the bytes.
#[tactic(auto, unfolding(crate::specs::Reading::send_answer))]
fn send_answer(first: &str, second: &str) -> Result<Answer, WireFault>
    ensures { result ≡ send_answer first.now second.now }
{
    let bytes = bytes_of_word(second)?;
    let path = path_in(first)?;
    Ok(Answer::Send { path, bytes })
}

/// The request to receive 0 to 1,000 packets from the first bulk endpoint.
#[tactic(auto, unfolding(crate::specs::Reading::receive_answer))]
fn receive_answer(first: &str, second: &str) -> Result<Answer, WireFault>
    ensures { result ≡ receive_answer first.now second.now }
{
    let packets = number_of_word(0, 1000, second)?;
    let path = path_in(first)?;
    Ok(Answer::Receive {
        path,
        packets: packets as u16,
    })
}

/// The request to ask the named endpoint once for a packet (5.7).
#[tactic(auto, unfolding(crate::specs::Reading::poll_answer))]
fn poll_answer(first: &str, second: &str) -> Result<Answer, WireFault>
    ensures { result ≡ poll_answer first.now second.now }
{
    let endpoint = endpoint_named(second)?;
    let path = path_in(first)?;
    Ok(Answer::Poll { path, endpoint })
}

/// The request to clear the halt of the named endpoint (9.4.1).
#[tactic(auto, unfolding(crate::specs::Reading::clear_of_answer))]
fn clear_of_answer(first: &str, second: &str) -> Result<Answer, WireFault>
    ensures { result ≡ clear_of_answer first.now second.now }
{
    let endpoint = endpoint_named(second)?;
    let path = path_in(first)?;
    Ok(Answer::ClearOf { path, endpoint })
}

/// The request that reads from endpoint 0, or has no data stage (9.3).
#[tactic(auto, unfolding(crate::specs::Reading::control_answer))]
fn control_answer(first: &str, second: &str) -> Result<Answer, WireFault>
    ensures { result ≡ control_answer first.now second.now }
{
    let setup = request_of_word(false, second)?;
    let path = path_in(first)?;
    Ok(bare_control(path, setup))
}

/// A request without bytes for the device: one that reads, or one of no data.
fn bare_control(path: PortPath, setup: Setup) -> Answer
    requires { is_other_request false setup ≡ false }
    ensures { result ≡ bare_control path setup }
{
    match ReadRequest::new(setup) {
        Some(request) => Answer::ControlIn { path, request },
        None => Answer::ControlOut {
            path,
            request: ControlWrite::without_data(setup),
        },
    }
}

/// The answers of four words.
#[tactic(auto, unfolding(crate::specs::Reading::with_three))]
fn with_three(
    asked: Asked,
    word: &str,
    first: &str,
    second: &str,
    third: &str,
) -> Result<Answer, WireFault>
    ensures { result ≡ with_three asked word.now first.now second.now third.now }
{
    if !matches!(asked, Asked::Wait) {
        return Err(WireFault::NoAnswer);
    }
    match word {
        "control" => write_answer(first, second, third),
        "send" => send_to_answer(first, second, third),
        "receive" => receive_from_answer(first, second, third),
        "interface" => interface_answer(first, second, third),
        _ => Err(WireFault::NoAnswer),
    }
}

/// The request to send bytes to the named endpoint. The words are checked from the last to the
/// first.
#[tactic(auto, unfolding(crate::specs::Reading::send_to_answer))]
fn send_to_answer(first: &str, second: &str, third: &str) -> Result<Answer, WireFault>
    ensures { result ≡ send_to_answer first.now second.now third.now }
{
    let bytes = bytes_of_word(third)?;
    let endpoint = endpoint_named(second)?;
    let path = path_in(first)?;
    Ok(Answer::SendTo {
        path,
        endpoint,
        bytes,
    })
}

/// The request to receive 0 to 1,000 packets from the named endpoint.
#[tactic(auto, unfolding(crate::specs::Reading::receive_from_answer))]
fn receive_from_answer(first: &str, second: &str, third: &str) -> Result<Answer, WireFault>
    ensures { result ≡ receive_from_answer first.now second.now third.now }
{
    let packets = number_of_word(0, 1000, third)?;
    let endpoint = endpoint_named(second)?;
    let path = path_in(first)?;
    Ok(Answer::ReceiveFrom {
        path,
        endpoint,
        packets: packets as u16,
    })
}

/// The request to choose an alternate setting of an interface, each a number of 0 to 255 (9.4.10).
#[tactic(auto, unfolding(crate::specs::Reading::interface_answer))]
fn interface_answer(first: &str, second: &str, third: &str) -> Result<Answer, WireFault>
    ensures { result ≡ interface_answer first.now second.now third.now }
{
    let setting = number_of_word(0, 255, third)?;
    let interface = number_of_word(0, 255, second)?;
    let path = path_in(first)?;
    Ok(Answer::Interface {
        path,
        interface: interface as u8,
        setting: setting as u8,
    })
}

/// The request that writes to endpoint 0: setup data, and the wLength bytes that go with them.
#[tactic(auto, unfolding(crate::specs::Reading::write_answer))]
fn write_answer(first: &str, second: &str, third: &str) -> Result<Answer, WireFault>
    ensures { result ≡ write_answer first.now second.now third.now }
{
    let request = write_of_words(second, third)?;
    let path = path_in(first)?;
    Ok(Answer::ControlOut { path, request })
}
