//! What a line of the host asks.
ghost use Rattle.std.specs.Prelude.{◌≡◌, IfSome, option_map};
ghost use Rattle.usb_wire.specs.QuestionReading.{after_pre, asked_in, behind_pre_word, call_in, cut_at, data_behind, direction_in, endpoint_in, in_question, ins_question, out_question, outs_question, port_question, question_of, restart_question, row_or, setup_in, setup_question, some_bytes, toggle_named, token_behind, token_of_words};
ghost use Rattle.usb_wire.specs.Questions.{IsQuestion, IsQuestionLine};
ghost use Rattle.usb_wire.specs.declared.question.Question.{Question as AQuestion};

use crate::field::{bytes_of_word, number_of_word, setup_in_bytes};
use crate::question::{DataPacket, Endpoint, Question, ROW_LIMIT};
use crate::reading::text_of_line;
use arrayvec::ArrayVec;
use usb_packet::{Speed, Toggle};
use usb_port::PortCall;
use usb_request::Setup;

/// The question that a line asks, without its newline; None for any other line.
pub fn read_question(line: &[u8]) -> Option<Question>
    // What is read is a question, and stands there.
    ensures asked { IfSome result (λ q. IsQuestion q × IsQuestionLine line.now q) }
    // A question that stands there is read.
    ensures only { (q : AQuestion) → IsQuestion q → IsQuestionLine line.now q
        → result ≡ Some q }
{
    question_of(line)
}

/// The question of a line of at most 1,024 bytes of printable ASCII; None for any other line.
#[tactic(auto, unfolding(crate::specs::QuestionReading::question_of))]
fn question_of(line: &[u8]) -> Option<Question>
    ensures { result ≡ question_of line.now }
{
    let text = match text_of_line(line) {
        Ok(text) => text,
        Err(_) => return None,
    };
    match text {
        "wait" => Some(Question::Wait),
        "usbplan live 1" => Some(Question::Hello),
        _ => asked_in(text),
    }
}

/// The question of more than one word, but for the hello.
#[tactic(auto, unfolding(crate::specs::QuestionReading::asked_in))]
fn asked_in(text: &str) -> Option<Question>
    ensures { result ≡ asked_in text.now }
{
    let (word, behind) = cut_space(text)?;
    match word {
        "port" => port_question(behind),
        "restart" => restart_question(behind),
        "low" => token_behind(Speed::Low, behind),
        "PRE" => token_behind(Speed::LowBelowHub, behind),
        _ => token_of_words(Speed::Full, word, behind),
    }
}

/// What comes before the first space, and after it.
fn cut_space(text: &str) -> Option<(&str, &str)>
    ensures { cut_at 32 text.now ≡ option_map (λ cut. (cut.0.now, cut.1.now)) result }
{
    text.split_once(' ')
}

/// What comes before the first dot, and after it.
fn cut_dot(text: &str) -> Option<(&str, &str)>
    ensures { cut_at 46 text.now ≡ option_map (λ cut. (cut.0.now, cut.1.now)) result }
{
    text.split_once('.')
}

/// An attempt at this speed, by its token and the words after that.
#[tactic(auto, unfolding(crate::specs::QuestionReading::token_behind))]
fn token_behind(speed: Speed, text: &str) -> Option<Question>
    ensures { result ≡ token_behind speed text.now }
{
    let (word, behind) = cut_space(text)?;
    token_of_words(speed, word, behind)
}

/// An attempt, by the word of its token.
#[tactic(auto, unfolding(crate::specs::QuestionReading::token_of_words))]
fn token_of_words(speed: Speed, word: &str, text: &str) -> Option<Question>
    ensures { result ≡ token_of_words speed word.now text.now }
{
    match word {
        "SETUP" => setup_question(speed, text),
        "OUT" => row_or(outs_question(speed, text), out_question(speed, text)),
        "IN" => row_or(ins_question(speed, text), in_question(speed, text)),
        _ => None,
    }
}

/// The words after SETUP: an address and endpoint, then DATA0 with eight bytes (8.5.3).
#[tactic(auto, unfolding(crate::specs::QuestionReading::setup_question))]
fn setup_question(speed: Speed, text: &str) -> Option<Question>
    ensures { result ≡ setup_question speed text.now }
{
    let (device, behind) = cut_space(text)?;
    let endpoint = endpoint_in(device)?;
    let (toggle, digits) = data_behind(speed, behind)?;
    let setup = setup_in(toggle, digits)?;
    Some(Question::Setup {
        speed,
        endpoint,
        setup,
    })
}

/// The words after OUT: an address and endpoint, then the toggle and the bytes of one packet.
#[tactic(auto, unfolding(crate::specs::QuestionReading::out_question))]
fn out_question(speed: Speed, text: &str) -> Option<Question>
    ensures { result ≡ out_question speed text.now }
{
    let (device, behind) = cut_space(text)?;
    let endpoint = endpoint_in(device)?;
    let (toggle, digits) = data_behind(speed, behind)?;
    let bytes = bytes_of_word(digits).ok()?;
    Some(Question::Out {
        speed,
        endpoint,
        sent: DataPacket { toggle, bytes },
    })
}

/// The words after IN: an address and endpoint, then the endpoint's maximum packet, 1 to 64.
#[tactic(auto, unfolding(crate::specs::QuestionReading::in_question))]
fn in_question(speed: Speed, text: &str) -> Option<Question>
    ensures { result ≡ in_question speed text.now }
{
    let (device, behind) = cut_space(text)?;
    let endpoint = endpoint_in(device)?;
    let most = number_of_word(1, 64, behind).ok()?;
    Some(Question::In {
        speed,
        endpoint,
        most: most as u8,
    })
}

/// The row, if the words are of one; else the single attempt, if they are of that.
fn row_or(row: Option<Question>, single: Option<Question>) -> Option<Question>
    ensures { result ≡ row_or row single }
{
    match row {
        Some(question) => Some(question),
        None => single,
    }
}

/// A row of INs.
#[tactic(auto, unfolding(crate::specs::QuestionReading::ins_question))]
fn ins_question(speed: Speed, text: &str) -> Option<Question>
    ensures { result ≡ ins_question speed text.now }
{
    let (device, behind) = cut_space(text)?;
    let endpoint = endpoint_in(device)?;
    let (most, row) = cut_space(behind)?;
    let most = number_of_word(1, 64, most).ok()?;
    let (name, packets) = cut_space(row)?;
    let toggle = toggle_named(name)?;
    let packets = number_of_word(1, 64, packets).ok()?;
    Some(Question::Ins {
        speed,
        endpoint,
        most: most as u8,
        toggle,
        packets: packets as u8,
    })
}

/// A row of OUTs.
#[tactic(auto, unfolding(crate::specs::QuestionReading::outs_question))]
fn outs_question(speed: Speed, text: &str) -> Option<Question>
    ensures { result ≡ outs_question speed text.now }
{
    let (device, behind) = cut_space(text)?;
    let endpoint = endpoint_in(device)?;
    let (toggle, row) = data_behind(speed, behind)?;
    let (digits, most) = cut_space(row)?;
    let bytes = some_bytes(digits)?;
    let most = number_of_word(1, 64, most).ok()?;
    Some(Question::Outs {
        speed,
        endpoint,
        most: most as u8,
        toggle,
        bytes,
    })
}

/// The bytes of a row, of which there are some.
#[tactic(auto, unfolding(crate::specs::QuestionReading::some_bytes))]
fn some_bytes(digits: &str) -> Option<ArrayVec<u8, ROW_LIMIT>>
    ensures { some_bytes digits.now ≡ option_map (λ bytes. bytes.items) result }
{
    let bytes = bytes_of_word::<ROW_LIMIT>(digits).ok()?;
    if bytes.is_empty() {
        return None;
    }
    Some(bytes)
}

/// An address and an endpoint, with a dot between them.
#[tactic(auto, unfolding(crate::specs::QuestionReading::endpoint_in))]
fn endpoint_in(word: &str) -> Option<Endpoint>
    ensures { result ≡ endpoint_in word.now }
{
    let (address, number) = cut_dot(word)?;
    let address = number_of_word(0, 127, address).ok()?;
    let number = number_of_word(0, 15, number).ok()?;
    Some(Endpoint {
        address: address as u8,
        number: number as u8,
    })
}

/// The toggle and the digits of the host's data, after a token and a space.
#[tactic(auto, unfolding(crate::specs::QuestionReading::data_behind))]
fn data_behind(speed: Speed, text: &str) -> Option<(Toggle, &str)>
    ensures { data_behind speed text.now ≡ option_map (λ sent. (sent.0, sent.1.now)) result }
{
    let (slash, behind) = cut_space(text)?;
    if slash != "/" {
        return None;
    }
    let rest = after_pre(speed, behind)?;
    let (name, digits) = cut_space(rest)?;
    let toggle = toggle_named(name)?;
    Some((toggle, digits))
}

/// What follows PRE, if it has to be there.
#[tactic(auto, unfolding(crate::specs::QuestionReading::after_pre))]
fn after_pre(speed: Speed, text: &str) -> Option<&str>
    ensures { after_pre speed text.now ≡ option_map (λ rest. rest.now) result }
{
    match speed {
        Speed::Full | Speed::Low => Some(text),
        Speed::LowBelowHub => behind_pre_word(text),
    }
}

/// What follows the word PRE and its space; None if the text begins with another word.
#[tactic(auto, unfolding(crate::specs::QuestionReading::behind_pre_word))]
fn behind_pre_word(text: &str) -> Option<&str>
    ensures { behind_pre_word text.now ≡ option_map (λ rest. rest.now) result }
{
    let (word, behind) = cut_space(text)?;
    if word == "PRE" { Some(behind) } else { None }
}

/// The toggle of the word DATA0 or DATA1; None for any other word.
#[tactic(auto, unfolding(crate::specs::QuestionReading::toggle_named))]
fn toggle_named(word: &str) -> Option<Toggle>
    ensures { result ≡ toggle_named word.now }
{
    match word {
        "DATA0" => Some(Toggle::Zero),
        "DATA1" => Some(Toggle::One),
        _ => None,
    }
}

/// Setup data: eight bytes, in DATA0.
#[tactic(auto, unfolding(crate::specs::QuestionReading::setup_in))]
fn setup_in(toggle: Toggle, digits: &str) -> Option<Setup>
    ensures { result ≡ setup_in toggle digits.now }
{
    let bytes = bytes_of_word::<64>(digits).ok()?;
    match toggle {
        Toggle::Zero => setup_in_bytes(bytes.as_slice()),
        Toggle::One => None,
    }
}

/// The words after `port`: the number of a root port, 1 to 7, and the call that is made at it.
#[tactic(auto, unfolding(crate::specs::QuestionReading::port_question))]
fn port_question(text: &str) -> Option<Question>
    ensures { result ≡ port_question text.now }
{
    let (number, behind) = cut_space(text)?;
    let number = number_of_word(1, 7, number).ok()?;
    let call = call_in(behind)?;
    Some(Question::Port {
        number: number as u8,
        call,
    })
}

/// An endpoint that begins again. It is not endpoint 0, which each SETUP begins again.
#[tactic(auto, unfolding(crate::specs::QuestionReading::restart_question))]
fn restart_question(text: &str) -> Option<Question>
    ensures { result ≡ restart_question text.now }
{
    let (device, behind) = cut_space(text)?;
    let endpoint = endpoint_in(device)?;
    let is_in = direction_in(behind)?;
    if endpoint.number == 0 {
        return None;
    }
    Some(Question::Restart { endpoint, is_in })
}

/// Whether the way that an endpoint's data go is to the host.
#[tactic(auto, unfolding(crate::specs::QuestionReading::direction_in))]
fn direction_in(word: &str) -> Option<bool>
    ensures { result ≡ direction_in word.now }
{
    match word {
        "in" => Some(true),
        "out" => Some(false),
        _ => None,
    }
}

/// A call of a root port, by the name of its feature (table 11-17).
#[tactic(auto, unfolding(crate::specs::QuestionReading::call_in))]
fn call_in(text: &str) -> Option<PortCall>
    ensures { result ≡ call_in text.now }
{
    match text {
        "set PORT_POWER" => Some(PortCall::SetPower),
        "set PORT_RESET" => Some(PortCall::SetReset),
        "clear PORT_ENABLE" => Some(PortCall::ClearEnable),
        "clear PORT_POWER" => Some(PortCall::ClearPower),
        "clear C_PORT_CONNECTION" => Some(PortCall::ClearConnectionChange),
        "clear C_PORT_ENABLE" => Some(PortCall::ClearEnableChange),
        "clear C_PORT_RESET" => Some(PortCall::ClearResetChange),
        _ => None,
    }
}
