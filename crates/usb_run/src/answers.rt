//! The line of a task, and the lines of news.
ghost use Rattle.std.specs.Prelude.{◌≡◌, ◌++◌, map, OnOk, IfOk};
ghost use Rattle.usb_run.specs.TransferLines.{answer_line, choice_text, done_end, end_text, endpoint_text, failed_end, fault_word};
ghost use Rattle.usb_run.specs.TransferLines.{look_end, news_lines, one_news_line, place_text, polled_end, received_end, sent_end, setting_text, task_word};

use crate::{EndpointAddress, EndpointChoice, Look, News, Task, TaskEnd, TransferFault};
use arrayvec::ArrayVec;
use std::alloc::{AllocError, Global};
use usb_port::PortPath;
use usb_text::{Lines, push_cause, push_decimal, push_hex, push_path};

/// The word of the task, its path, the place there, and how it ended: `send PATH done N`, or
/// `clear PATH EP failed WORDS`.
///
/// # Errors
///
/// Memory was refused.
#[tactic(auto, unfolding(crate::specs::TransferLines::answer_line))]
pub fn answer_line(
    alloc: Global,
    path: &PortPath,
    task: &Task,
    end: &TaskEnd,
) -> Result<Vec<u8>, AllocError>
    ensures { IfOk result (λ line. line.items ≡ answer_line path.now task.now end.now) }
{
    let mut line = Vec::new(alloc);
    line.extend_from_slice(task_word(task).as_bytes())?;
    push_path(&mut line, path)?;
    push_place(&mut line, task)?;
    push_end(&mut line, end)?;
    Ok(line)
}

/// The word of a task, and a blank.
fn task_word(task: &Task) -> &'static str
    ensures { result.now ≡ task_word task.now }
{
    match task {
        Task::Send(_) => "send ",
        Task::Receive(_) => "receive ",
        Task::Clear | Task::ClearOf(_) => "clear ",
        Task::Poll(_) => "interrupt ",
        Task::SetInterface(_, _) => "interface ",
        Task::ControlIn | Task::ControlOut => "control ",
        Task::Look => "look ",
    }
}

/// Adds what is named behind the path: an endpoint, an interface with its setting, or the direction
/// of a control transfer.
fn push_place(line: &mut Vec<u8>, task: &Task) -> Result<(), AllocError>
    ensures { OnOk result (line.new.items ≡ line.old.items ++ place_text task.now) }
{
    match task {
        Task::Send(choice) | Task::Receive(choice) => push_choice(line, *choice),
        Task::ClearOf(endpoint) | Task::Poll(endpoint) => push_endpoint(line, *endpoint),
        Task::SetInterface(interface, setting) => push_setting(line, *interface, *setting),
        Task::ControlIn => line.extend_from_slice(b" in"),
        Task::ControlOut => line.extend_from_slice(b" out"),
        Task::Clear | Task::Look => Ok(()),
    }
}

/// Adds an endpoint that is named by its address.
fn push_choice(line: &mut Vec<u8>, choice: EndpointChoice) -> Result<(), AllocError>
    ensures { OnOk result (line.new.items ≡ line.old.items ++ choice_text choice) }
{
    match choice {
        EndpointChoice::FirstBulk => Ok(()),
        EndpointChoice::At(endpoint) => push_endpoint(line, endpoint),
    }
}

/// Adds how a task ended.
fn push_end(line: &mut Vec<u8>, end: &TaskEnd) -> Result<(), AllocError>
    ensures { OnOk result (line.new.items ≡ line.old.items ++ end_text end.now) }
{
    match end {
        TaskEnd::Sent(sent) => push_sent(line, sent),
        TaskEnd::Received(received) => push_received(line, received),
        TaskEnd::Done(done) => push_done(line, done),
        TaskEnd::Polled(polled) => push_polled(line, polled),
        TaskEnd::Looked(looked) => push_looked(line, looked),
    }
}

/// `news`, a line for each device that left or arrived, and `end`.
///
/// # Errors
///
/// Memory was refused.
#[tactic(auto, unfolding(crate::specs::TransferLines::news_lines))]
pub fn news_lines(alloc: Global, news: &[News]) -> Result<Lines, AllocError>
    ensures { IfOk result (λ lines. lines ≡ news_lines news.now) }
{
    let mut lines = Lines::new(alloc);
    lines.push(b"news".to_vec(alloc)?)?;
    push_news(alloc, &mut lines, news)?;
    lines.push(b"end".to_vec(alloc)?)?;
    Ok(lines)
}

fn push_news(alloc: Global, lines: &mut Lines, news: &[News]) -> Result<(), AllocError>
    ensures { OnOk result (lines.new ≡ lines.old ++ map one_news_line news.now) }
{
    'news: for one in news {
        lines.push(one_news_line(alloc, one)?)?;
    }
    Ok(())
}

/// `left PATH`, or `arrived PATH`.
fn one_news_line(alloc: Global, news: &News) -> Result<Vec<u8>, AllocError>
    ensures { IfOk result (λ line. line.items ≡ one_news_line news.now) }
{
    let mut line = Vec::new(alloc);
    match news {
        News::Left(path) => {
            line.extend_from_slice(b"left ")?;
            push_path(&mut line, path)?;
        }
        News::Arrived(path) => {
            line.extend_from_slice(b"arrived ")?;
            push_path(&mut line, path)?;
        }
    }
    Ok(line)
}

fn push_looked(line: &mut Vec<u8>, looked: &Result<Look, TransferFault>) -> Result<(), AllocError>
    ensures { OnOk result (line.new.items ≡ line.old.items ++ look_end looked.now) }
{
    match looked {
        Ok(Look::Empty) => line.extend_from_slice(b" empty"),
        Ok(Look::Found) => line.extend_from_slice(b" found"),
        Ok(Look::Refused(cause)) => {
            line.extend_from_slice(b" refused ")?;
            push_cause(line, *cause)
        }
        Err(fault) => push_failed(line, *fault),
    }
}

fn push_sent(line: &mut Vec<u8>, sent: &Result<u64, TransferFault>) -> Result<(), AllocError>
    ensures { OnOk result (line.new.items ≡ line.old.items ++ sent_end sent.now) }
{
    match sent {
        Ok(count) => {
            line.extend_from_slice(b" done ")?;
            push_decimal(line, *count)
        }
        Err(fault) => push_failed(line, *fault),
    }
}

fn push_received(
    line: &mut Vec<u8>,
    received: &Result<Vec<u8>, TransferFault>,
) -> Result<(), AllocError>
    ensures { OnOk result (line.new.items ≡ line.old.items ++ received_end received.now) }
{
    match received {
        Ok(bytes) => {
            line.extend_from_slice(b" done ")?;
            push_hex(line, bytes.as_slice())
        }
        Err(fault) => push_failed(line, *fault),
    }
}

fn push_done(line: &mut Vec<u8>, told: &Result<(), TransferFault>) -> Result<(), AllocError>
    ensures { OnOk result (line.new.items ≡ line.old.items ++ done_end told.now) }
{
    match told {
        Ok(()) => line.extend_from_slice(b" done"),
        Err(fault) => push_failed(line, *fault),
    }
}

fn push_polled(
    line: &mut Vec<u8>,
    polled: &Result<Option<ArrayVec<u8, 64>>, TransferFault>,
) -> Result<(), AllocError>
    ensures { OnOk result (line.new.items ≡ line.old.items ++ polled_end polled.now) }
{
    match polled {
        Ok(Some(packet)) => {
            line.extend_from_slice(b" done ")?;
            push_hex(line, packet.as_slice())
        }
        Ok(None) => line.extend_from_slice(b" nothing"),
        Err(fault) => push_failed(line, *fault),
    }
}

/// Adds an endpoint's address behind a path.
fn push_endpoint(line: &mut Vec<u8>, endpoint: EndpointAddress) -> Result<(), AllocError>
    ensures { OnOk result (line.new.items ≡ line.old.items ++ endpoint_text endpoint) }
{
    line.extend_from_slice(b" ")?;
    push_hex(line, &[endpoint.get()])
}

/// Adds an interface's number and that of its alternate setting behind a path.
fn push_setting(line: &mut Vec<u8>, interface: u8, setting: u8) -> Result<(), AllocError>
    ensures { OnOk result (line.new.items ≡ line.old.items ++ setting_text interface setting) }
{
    line.extend_from_slice(b" ")?;
    push_decimal(line, u64::from(interface))?;
    line.extend_from_slice(b" ")?;
    push_decimal(line, u64::from(setting))
}

fn push_failed(line: &mut Vec<u8>, fault: TransferFault) -> Result<(), AllocError>
    ensures { OnOk result (line.new.items ≡ line.old.items ++ failed_end fault) }
{
    line.extend_from_slice(b" failed ")?;
    line.extend_from_slice(fault_word(fault).as_bytes())
}

/// The words for why a transfer was not done.
fn fault_word(fault: TransferFault) -> &'static str
    ensures { result.now ≡ fault_word fault }
{
    match fault {
        TransferFault::NoDevice => "no device",
        TransferFault::NoPort => "no port",
        TransferFault::Reserved => "reserved",
        TransferFault::NoInterface => "no interface",
        TransferFault::NoEndpoint => "no endpoint",
        TransferFault::Stalled => "stalled",
        TransferFault::Busy => "busy",
        TransferFault::NoAnswer => "no answer",
        TransferFault::Broken => "broken",
    }
}
