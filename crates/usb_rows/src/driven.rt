//! What a driver tells of a plan whose controller side is a simulated bus: its calls, questions,
//! answers and reports are records of bytes.
use crate::listed::{path_in, push_listing};
use crate::record::{cause_of, cut, fault_of, record_of};
use arrayvec::ArrayVec;
use std::alloc::Global;
use usb_dialogue::{DriverFault, Want};
use usb_host::{Look, News, TransferFault};
use usb_run::{EndpointChoice, Item, Task, TaskEnd, counted};
use usb_serve::item_lines;
use usb_sim::{Ask, Plan};
use usb_testdriver::Course;

/// The lines of listings, transfers, looks and news. Rows of INs have at most `row` attempts.
pub(crate) fn told_of(alloc: Global, plan: &Plan, row: u8) -> Result<Vec<u8>, DriverFault> {
    let mut course = Course::open(alloc, plan, None, row)?;
    let mut told = Vec::new(alloc);
    let mut listings = 0u64;
    'events: for _ in 0..u64::MAX {
        let Some(due) = course.next_event()? else {
            break 'events;
        };
        match due {
            Some(Ask::Show { said }) => {
                listings = listings.saturating_add(1);
                show(alloc, &mut course, &mut told, listings, said)?;
            }
            Some(ask) => push_item(alloc, &mut told, &item_of(alloc, &mut course, ask)?)?,
            None => {}
        }
    }
    show(
        alloc,
        &mut course,
        &mut told,
        listings.saturating_add(1),
        false,
    )?;
    Ok(told)
}

/// Adds the lines of a listing, with what refused devices said or without.
fn show(
    alloc: Global,
    course: &mut Course,
    told: &mut Vec<u8>,
    number: u64,
    said: bool,
) -> Result<(), DriverFault> {
    course.call(Want::Tree)?;
    push_listing(alloc, told, course.driver.told(), number, said)
}

fn push_item(alloc: Global, told: &mut Vec<u8>, item: &Item) -> Result<(), DriverFault> {
    let lines = item_lines(alloc, 0, item)?;
    'lines: for line in lines.as_slice() {
        told.extend_from_slice(line.as_slice())?;
        told.extend_from_slice(b"\n")?;
    }
    Ok(())
}

/// What comes of what is asked.
fn item_of(alloc: Global, course: &mut Course, ask: Ask) -> Result<Item, DriverFault> {
    if let Ask::News = ask {
        return Ok(Item::News(news_of(alloc, course)?));
    }
    let record = record_of(alloc, &ask)?;
    let (want, _statuses) = Want::read(alloc, record.as_slice())?;
    course.call(want)?;
    match end_of(course.driver.told()) {
        Some(end) => made(alloc, ask, &end),
        None => Err(DriverFault::Kind),
    }
}

/// How a call ended: the body of its record before the last, if there is one, and its status.
#[derive(Drop)]
struct End<'a> {
    body: &'a [u8],
    status: u8,
}

impl End<'_> {
    fn done(&self) -> Result<(), TransferFault> {
        match fault_of(self.status) {
            Some(fault) => Err(fault),
            None => Ok(()),
        }
    }

    /// With the number of these bytes.
    fn sent(&self, bytes: &[u8]) -> TaskEnd {
        TaskEnd::Sent(counted(bytes.len(), self.done()))
    }

    fn received(&self, alloc: Global) -> Result<TaskEnd, DriverFault> {
        Ok(TaskEnd::Received(match fault_of(self.status) {
            Some(fault) => Err(fault),
            None => Ok(self.body.to_vec(alloc)?),
        }))
    }

    /// A packet; none at the status of a quiet call.
    fn packet(&self) -> Result<Option<ArrayVec<u8, 64>>, TransferFault> {
        self.done()?;
        if self.status == 1 {
            return Ok(None);
        }
        let mut packet = ArrayVec::new();
        let _ = packet.try_extend_from_slice(self.body);
        Ok(Some(packet))
    }

    fn look(&self) -> Option<Result<Look, TransferFault>> {
        if let Some(fault) = fault_of(self.status) {
            return Some(Err(fault));
        }
        match self.body {
            [0] => Some(Ok(Look::Empty)),
            [1] => Some(Ok(Look::Found)),
            [2, cause, of] => Some(Ok(Look::Refused(cause_of(*cause, *of)?))),
            _ => None,
        }
    }
}

/// The end of a call of at most one record besides the last.
fn end_of(told: &[u8]) -> Option<End<'_>> {
    let (kind, body, rest) = cut(told)?;
    if kind == 32 {
        return Some(End {
            body: &[],
            status: *body.first()?,
        });
    }
    let (_, last, _) = cut(rest)?;
    Some(End {
        body,
        status: *last.first()?,
    })
}

/// What a call made that ended so.
fn made(alloc: Global, ask: Ask, end: &End<'_>) -> Result<Item, DriverFault> {
    let (path, task, end) = match ask {
        Ask::Send(path, bytes) => {
            let task = Task::Send(EndpointChoice::FirstBulk);
            (path, task, end.sent(bytes.as_slice()))
        }
        Ask::Receive(path, _) => {
            let task = Task::Receive(EndpointChoice::FirstBulk);
            (path, task, end.received(alloc)?)
        }
        Ask::Clear(path) => (path, Task::Clear, TaskEnd::Done(end.done())),
        Ask::SendTo(path, endpoint, bytes) => {
            let task = Task::Send(EndpointChoice::At(endpoint));
            (path, task, end.sent(bytes.as_slice()))
        }
        Ask::ReceiveFrom(path, endpoint, _) => {
            let task = Task::Receive(EndpointChoice::At(endpoint));
            (path, task, end.received(alloc)?)
        }
        Ask::Poll(path, endpoint) => { (path, Task::Poll(endpoint), TaskEnd::Polled(end.packet())) }
        Ask::ClearOf(path, endpoint) => {
            (path, Task::ClearOf(endpoint), TaskEnd::Done(end.done()))
        }
        Ask::SetInterface(path, interface, setting) => {
            (
                path,
                Task::SetInterface(interface, setting),
                TaskEnd::Done(end.done()),
            )
        }
        Ask::ControlIn(path, _) => (path, Task::ControlIn, end.received(alloc)?),
        Ask::ControlOut(path, request) => {
            let sent = end.sent(request.bytes());
            (path, Task::ControlOut, sent)
        }
        Ask::Look(path) => match end.look() {
            Some(look) => (path, Task::Look, TaskEnd::Looked(look)),
            None => return Err(DriverFault::Kind),
        },
        Ask::Show { .. } | Ask::News => return Err(DriverFault::Kind),
    };
    Ok(Item::Answer(path, task, end))
}

/// All news of a driver.
fn news_of(alloc: Global, course: &mut Course) -> Result<Vec<News>, DriverFault> {
    let mut all = Vec::new(alloc);
    'news: for _ in 0..u64::MAX {
        course.call(Want::News)?;
        let Some(end) = end_of(course.driver.told()) else {
            return Err(DriverFault::Kind);
        };
        if end.body.is_empty() {
            break 'news;
        }
        let Some(news) = news_in(end.body) else {
            return Err(DriverFault::Number);
        };
        if all.push(news).is_err() {
            return Err(DriverFault::Memory);
        }
    }
    Ok(all)
}

fn news_in(body: &[u8]) -> Option<News> {
    let (what, place) = body.split_first()?;
    let path = path_in(place)?;
    match *what {
        0 => Some(News::Left(path)),
        1 => Some(News::Arrived(path)),
        _ => None,
    }
}
