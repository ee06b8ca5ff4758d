//! What is requested, and was not reported yet.
ghost use Rattle.std.specs.Prelude.{◌≡◌, Ok, length};
ghost use Rattle.usb_run.specs.declared.item.Task.{Task};
ghost use Rattle.usb_live.specs.declared.owed.EndOwed.{EndOwed};
ghost use Rattle.usb_live.specs.declared.owed.Owed.{Owed};
ghost use Rattle.usb_live.specs.Course.{fits, is_count, is_nothing, is_within, owed_by, same_choice, same_task, settles};

use usb_port::PortPath;
use usb_request::ReadRequest;
use usb_run::{EndpointChoice, Item, Task, TaskEnd, TransferFault};
use usb_stream::LiveFault;
use usb_wire::{Answer, ControlWrite};

/// What is requested, and was not reported yet.
#[derive(Drop)]
pub(crate) enum Owed {
    /// Nothing.
    Nothing,
    /// A listing.
    Listing,
    /// Which devices left and which arrived.
    News,
    /// How a task at a path ended.
    Answer(PortPath, Task, EndOwed),
}

/// How a task is to end, if it does not fail.
#[derive(Clone, Copy)]
pub(crate) enum EndOwed {
    /// This number of bytes is sent.
    Sent(u64),
    /// Bytes are received.
    Received,
    /// At most this number of bytes is received.
    ReceivedWithin(u16),
    /// It is done.
    Done,
    /// A packet comes, or none is there.
    Polled,
    /// It is known what is listed.
    Looked,
}

/// What is owed after an answer to `wait`.
pub(crate) fn owed_by(answer: &Result<Answer, LiveFault>) -> Owed
    ensures { result ≡ owed_by answer.now }
{
    match answer {
        Ok(answer) => owed_for(answer),
        Err(_) => Owed::Nothing,
    }
}

/// What is owed after this answer.
fn owed_for(answer: &Answer) -> Owed
    ensures { result ≡ owed_by (Ok answer.now) }
{
    match answer {
        Answer::Show | Answer::End => Owed::Listing,
        Answer::News => Owed::News,
        Answer::Send { path, bytes } => sends(path, EndpointChoice::FirstBulk, bytes.len()),
        Answer::SendTo {
            path,
            endpoint,
            bytes,
        } => sends(path, EndpointChoice::At(*endpoint), bytes.len()),
        Answer::Receive { path, .. } => receives(path, EndpointChoice::FirstBulk),
        Answer::ReceiveFrom { path, endpoint, .. } => {
            receives(path, EndpointChoice::At(*endpoint))
        }
        Answer::Clear(path) => done(path, Task::Clear),
        Answer::ClearOf { path, endpoint } => done(path, Task::ClearOf(*endpoint)),
        Answer::Poll { path, endpoint } => answer_to(path, Task::Poll(*endpoint), EndOwed::Polled),
        Answer::Interface {
            path,
            interface,
            setting,
        } => done(path, Task::SetInterface(*interface, *setting)),
        Answer::ControlIn { path, request } => reads(path, request),
        Answer::ControlOut { path, request } => writes(path, request),
        Answer::Look(path) => answer_to(path, Task::Look, EndOwed::Looked),
        _ => Owed::Nothing,
    }
}

/// What is owed after a request to send this number of bytes.
fn sends(path: &PortPath, choice: EndpointChoice, count: usize) -> Owed
    ensures { result ≡ Owed.Answer path.now (Task.Send choice) (EndOwed.Sent count) }
{
    answer_to(path, Task::Send(choice), EndOwed::Sent(count as u64))
}

/// What is owed after a request to receive.
fn receives(path: &PortPath, choice: EndpointChoice) -> Owed
    ensures { result ≡ Owed.Answer path.now (Task.Receive choice) EndOwed.Received }
{
    answer_to(path, Task::Receive(choice), EndOwed::Received)
}

/// What is owed after a request to read from endpoint 0.
fn reads(path: &PortPath, request: &ReadRequest) -> Owed
    ensures { result ≡ Owed.Answer path.now Task.ControlIn
        (EndOwed.ReceivedWithin request.now.length) }
{
    answer_to(
        path,
        Task::ControlIn,
        EndOwed::ReceivedWithin(request.setup().length),
    )
}

/// What is owed after a request to write to endpoint 0.
fn writes(path: &PortPath, request: &ControlWrite) -> Owed
    ensures { result ≡ Owed.Answer path.now Task.ControlOut
        (EndOwed.Sent (length request.now.bytes)) }
{
    answer_to(
        path,
        Task::ControlOut,
        EndOwed::Sent(request.bytes().len() as u64),
    )
}

/// What is owed after a request that brings no data.
fn done(path: &PortPath, task: Task) -> Owed
    ensures { result ≡ Owed.Answer path.now task EndOwed.Done }
{
    answer_to(path, task, EndOwed::Done)
}

/// How a task at a path ended is owed.
fn answer_to(path: &PortPath, task: Task, end: EndOwed) -> Owed
    ensures { result ≡ Owed.Answer path.now task end }
{
    Owed::Answer(path.duplicate(), task, end)
}

/// Whether nothing is owed.
pub(crate) fn is_nothing(owed: &Owed) -> bool
    ensures { result ≡ is_nothing owed.now }
{
    matches!(owed, Owed::Nothing)
}

/// Whether the item is the one that is owed.
pub(crate) fn settles(owed: &Owed, item: &Item) -> bool
    ensures { result ≡ settles owed.now item.now }
{
    match (owed, item) {
        (Owed::Listing, Item::Listing(_, _, _)) => true,
        (Owed::News, Item::News(_)) => true,
        (Owed::Answer(path, task, owed), Item::Answer(at, done, end)) => {
            path.numbers() == at.numbers() && same_task(task, done) && fits(owed, end)
        }
        _ => false,
    }
}

/// Whether these are the same task.
fn same_task(task: &Task, done: &Task) -> bool
    ensures { result ≡ same_task task.now done.now }
{
    match (task, done) {
        (Task::Send(choice), Task::Send(used)) => same_choice(choice, used),
        (Task::Receive(choice), Task::Receive(used)) => same_choice(choice, used),
        (Task::ClearOf(endpoint), Task::ClearOf(named)) => endpoint.get() == named.get(),
        (Task::Poll(endpoint), Task::Poll(named)) => endpoint.get() == named.get(),
        (Task::SetInterface(interface, setting), Task::SetInterface(number, chosen)) => {
            interface == number && setting == chosen
        }
        (Task::Clear, Task::Clear) | (Task::Look, Task::Look) => true,
        (Task::ControlIn, Task::ControlIn) | (Task::ControlOut, Task::ControlOut) => true,
        _ => false,
    }
}

/// Whether these are the same choice of an endpoint.
fn same_choice(choice: &EndpointChoice, used: &EndpointChoice) -> bool
    ensures { result ≡ same_choice choice.now used.now }
{
    match (choice, used) {
        (EndpointChoice::FirstBulk, EndpointChoice::FirstBulk) => true,
        (EndpointChoice::At(endpoint), EndpointChoice::At(named)) => {
            endpoint.get() == named.get()
        }
        _ => false,
    }
}

/// Whether a task ended as it is to end.
fn fits(owed: &EndOwed, end: &TaskEnd) -> bool
    ensures { result ≡ fits owed.now end.now }
{
    match (owed, end) {
        (EndOwed::Sent(count), TaskEnd::Sent(sent)) => is_count(*count, sent),
        (EndOwed::Received, TaskEnd::Received(_)) => true,
        (EndOwed::ReceivedWithin(most), TaskEnd::Received(read)) => is_within(*most, read),
        (EndOwed::Done, TaskEnd::Done(_)) => true,
        (EndOwed::Polled, TaskEnd::Polled(_)) => true,
        (EndOwed::Looked, TaskEnd::Looked(_)) => true,
        _ => false,
    }
}

/// Whether this number of bytes were sent, if the task did not fail.
fn is_count(count: u64, sent: &Result<u64, TransferFault>) -> bool
    ensures { result ≡ is_count count sent.now }
{
    match sent {
        Ok(all) => *all == count,
        Err(_) => true,
    }
}

/// Whether at most this number of bytes were read, if the task did not fail.
fn is_within(most: u16, read: &Result<Vec<u8>, TransferFault>) -> bool
    ensures { result ≡ is_within most read.now }
{
    match read {
        Ok(bytes) => bytes.len() <= usize::from(most),
        Err(_) => true,
    }
}
