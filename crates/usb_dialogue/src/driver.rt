//! A host that a program in another language drives.
ghost use Rattle.std.specs.Prelude.{◌≡◌, ◌≤◌, IfOk, IfSome};
ghost use Rattle.usb_dialogue.specs.Drivers.{Call, IsTold, MakesCall};
ghost use Rattle.usb_dialogue.specs.DriverSteps.{CallIs, StepOf, the_call};
ghost use Rattle.usb_dialogue.specs.RowAnswers.{row_max};

use crate::call::{Done, made};
use crate::heard::{Begun, Heard};
use crate::idle::Idle;
use crate::progress::Progress;
use crate::row::first_answers;
use crate::told::{call_told, status_of};
use crate::{Answer, DriverFault, Question, Statuses, Want};
use std::alloc::{AllocError, Global};
use std::marker::Brand;
use std::mem::replace;
use usb_bus::Bus;
use usb_host::{Host, HostOptions};

/// The most root ports.
const ROOTS: u8 = 7;

/// A host, the call that is under way, and what was heard in it so far.
///
/// Want of memory never stops it: a step that was refused changes nothing, and may be made again.
#[derive(Drop)]
pub struct Driver {
    alloc: Global,
    roots: u8,
    options: HostOptions,
    /// As it was before the call that is under way; none before it was opened.
    host: Option<Box<Host<Idle>>>,
    want: Option<Want>,
    /// What the root ports showed when the call began.
    statuses: Statuses,
    heard: Vec<Answer>,
    asked: Option<Question>,
    told: Vec<u8>,
    ghost some_root: { 1 ≤ roots },
    ghost few_roots: { roots ≤ 7 },
    ghost row_fits: { row_max asked ≤ 64 },
}

/// How far a call came.
enum Step {
    /// It needs an answer.
    Asks(Question),
    /// It is done: the host after it, and its records.
    Done(Box<Host<Idle>>, Vec<u8>),
}

impl Driver {
    ghost use Rattle.std.specs.Prelude.{IfErr};
    ghost use Rattle.usb_dialogue.specs.Drivers.{AnswersQuestion, AnswersRow, Begins, HasNoRoots};
    ghost use Rattle.usb_dialogue.specs.Drivers.{IsUnderWay, Steps, call_under_way, is_under_way};
    ghost use Rattle.usb_dialogue.specs.Drivers.{opening};
    ghost use Rattle.usb_dialogue.specs.DriverStates.{driver_state};
    ghost use Rattle.usb_dialogue.specs.declared.fault.DriverFault.{DriverFault as AFault};

    /// A driver of a controller with this number of root ports, which show these statuses. Its
    /// first call is under way then, the one that opens its host: each root port loses its power
    /// and gets it again. The options say which hubs the host takes, and how many bytes of a
    /// device (`usb_host::Host::with_options`).
    ///
    /// # Errors
    ///
    /// - `Roots`: the number of root ports is not 1 to 7.
    pub fn open(
        alloc: Global,
        roots: u8,
        options: HostOptions,
        statuses: Statuses,
    ) -> Result<Driver, DriverFault>
        ensures open { IfOk result (λ driver.
            driver_state driver ≡ opening roots options statuses) }
        ensures roots { IfErr result (λ fault. (fault ≡ AFault.Roots) × HasNoRoots roots) }
    {
        if roots < 1 || roots > ROOTS {
            return Err(DriverFault::Roots);
        }
        Ok(Driver {
            alloc,
            roots,
            options,
            host: None,
            want: None,
            statuses,
            heard: Vec::new(alloc),
            asked: None,
            told: Vec::new(alloc),
        })
    }

    /// Begins a call; the root ports show these statuses now. The records of the last call stay
    /// until this one is done.
    ///
    /// # Errors
    ///
    /// `OutOfTurn`: a call is under way. Nothing changes.
    pub fn begin(&mut self, want: Want, statuses: Statuses) -> Result<(), DriverFault>
        ensures { Begins want statuses (driver_state self.old) result (driver_state self.new) }
    {
        if self.is_under_way() {
            return Err(DriverFault::OutOfTurn);
        }
        self.want = Some(want);
        self.statuses = statuses;
        self.heard = Vec::new(self.alloc);
        self.asked = None;
        Ok(())
    }

    /// What the controller side is to do next. `None` if the call is done, or none was begun. A
    /// second request returns the same question, until `answer` or `answer_row` takes its answer.
    ///
    /// # Errors
    ///
    /// `Memory`: memory was refused. Nothing changed; ask again.
    pub fn question(&mut self) -> Result<Option<Question>, DriverFault>
        ensures { ∥ Steps (driver_state self.old) result (driver_state self.new) ∥₁ }
    {
        if let Some(asked) = &self.asked {
            return Ok(Some(asked.duplicate()));
        }
        if !self.is_under_way() {
            return Ok(None);
        }
        let heard = replace(&mut self.heard, Vec::new(self.alloc));
        let (step, heard) = self.step(heard);
        self.heard = heard;
        match step? {
            Step::Asks(question) => {
                let asked = question.duplicate();
                self.asked = Some(question);
                Ok(Some(asked))
            }
            Step::Done(host, told) => {
                self.host = Some(host);
                self.want = None;
                self.heard = Vec::new(self.alloc);
                self.told = told;
                Ok(None)
            }
        }
    }

    /// Answers the question.
    ///
    /// # Errors
    ///
    /// Nothing changes:
    ///
    /// - `OutOfTurn`: there is no question.
    /// - `TooMuch`: there are more data than the maximum packet of the attempt.
    /// - `Memory`: memory was refused. The answer was not taken; answer again.
    pub fn answer(&mut self, answer: Answer) -> Result<(), DriverFault>
        ensures { AnswersQuestion answer (driver_state self.old) result
            (driver_state self.new) }
    {
        let Some(asked) = &self.asked else {
            return Err(DriverFault::OutOfTurn);
        };
        if !asked.takes(&answer) {
            return Err(DriverFault::TooMuch);
        }
        if self.heard.push(answer).is_err() {
            return Err(DriverFault::Memory);
        }
        self.asked = None;
        Ok(())
    }

    /// Answers a row of INs (`Question::Ins`), or any other question with `before` empty.
    ///
    /// `before` are the bytes of the full packets that came first, in order. Their toggles were
    /// those that were due. `last` is what came of the attempt after them, and may again be a full
    /// packet. This does what one `answer` for each packet would do, with the statuses of `last`,
    /// and then one for `last`.
    ///
    /// # Errors
    ///
    /// Nothing changes:
    ///
    /// - `OutOfTurn`: there is no question, or `before` is not empty and the question is no row.
    /// - `Length`: the length of `before` is no multiple of the endpoint's maximum packet.
    /// - `TooMuch`: `before` has all packets of the row or more, or `last` has more data than the
    ///   maximum packet.
    /// - `Memory`: memory was refused. Nothing was taken; answer again.
    pub fn answer_row(&mut self, before: &[u8], last: Answer) -> Result<(), DriverFault>
        ensures { AnswersRow before.now last (driver_state self.old) result
            (driver_state self.new) }
    {
        let Some(asked) = &self.asked else {
            return Err(DriverFault::OutOfTurn);
        };
        let mut row = first_answers(self.alloc, asked, before, last.statuses)?;
        if !asked.takes(&last) {
            return Err(DriverFault::TooMuch);
        }
        if row.push(last).is_err() || self.heard.append(&mut row).is_err() {
            return Err(DriverFault::Memory);
        }
        self.asked = None;
        Ok(())
    }

    /// The records of the call that was done last, one after the other; none before the first.
    ///
    /// Each is its kind, the number of bytes that follow (four bytes, low one first), and those. A
    /// *place* is the number of ports of a path and those ports, in eight bytes, with zeros at the
    /// end.
    ///
    /// | kind | what | bytes |
    /// |---|---|---|
    /// | 32 | the call is done; the last record of each | the status |
    /// | 33 | a device | place, 4 bytes, the device's number (8 bytes), its descriptor (18 bytes) |
    /// | 34 | a configuration of that device, by rising index | its bytes (9.6.3) |
    /// | 35 | a string of that device | which, and its UTF-16, low bytes first (9.6.7) |
    /// | 36 | a refused device | place, cause (2 bytes), what it said of itself (0 to 18 bytes) |
    /// | 37 | bytes that were received, polled (none at NAK) or read | the bytes |
    /// | 38 | what a look found | 0 nothing is there, 1 accepted, 2 refused; then cause (2 bytes) |
    /// | 39 | news | 0 left, 1 arrived; place; the device's number (8 bytes), 0 if it left |
    ///
    /// The four bytes of a device are its address, its speed (1 low), the index of its chosen
    /// configuration, and how many ports it has, 0 of a function. A string is 0 the manufacturer's
    /// name, 1 the product's, or 2 the serial number.
    ///
    /// Statuses: 0 done, 1 quiet (a round with nothing to do, a poll that was answered by NAK), and
    /// the faults of a transfer (`usb_host::TransferFault`): 2 `NoDevice`, 3 `NoEndpoint`, 4
    /// `Stalled`, 5 `Busy`, 6 `NoAnswer`, 7 `Broken`, 8 `Reserved`, 9 `NoPort`, 10 `NoInterface`.
    ///
    /// Causes (`usb_host::Cause`): 1 silent, 2 busy, 3 stalled, 4 bad device, 5 too deep, 6 bad
    /// configuration, 7 no power, 8 bad hub, 9 lost, 10 no address, 11 too large. The second byte
    /// is of 3 the request (0 device, 1 address, 2 configuration, 3 set configuration), of 6 the
    /// index, else 0.
    pub fn told(&self) -> &[u8]
        ensures { result.now ≡ (driver_state self.now).told }
    {
        self.told.as_slice()
    }

    /// Whether a call is under way.
    fn is_under_way(&self) -> bool
        ensures { result ≡ is_under_way (driver_state self.now) }
    {
        match (&self.host, &self.want) {
            (Some(_), None) => false,
            _ => true,
        }
    }

    /// Makes the call that is under way anew, over what was heard in it, and gives that back.
    fn step(&self, heard: Vec<Answer>) -> (Result<Step, AllocError>, Vec<Answer>)
        requires { IsUnderWay (driver_state self.now) }
        ensures step { IfOk result.0 (λ step. ∥ CallIs (the_call (call_under_way
            (driver_state self.now)) self.now.roots self.now.statuses heard.items) step ∥₁) }
        ensures back { result.1.items ≡ heard.items }
    {
        match (&self.host, &self.want) {
            (Some(host), Some(want)) => {
                called::<Brand>(self.alloc, self.roots, self.statuses, heard, host, want)
            }
            (Some(_), None) => unreachable!(),
            (None, _) => {
                opened::<Brand>(self.alloc, self.roots, self.statuses, heard, self.options)
            }
        }
    }
}

/// Opens a host, over what was heard in the call, and gives that back.
fn opened<B: Begun>(
    alloc: Global,
    roots: u8,
    statuses: Statuses,
    heard: Vec<Answer>,
    options: HostOptions,
) -> (Result<Step, AllocError>, Vec<Answer>)
    requires ports { (1 ≤ roots) × (roots ≤ 7) }
    requires roots { roots ≡ B.roots }
    requires statuses { statuses ≡ B.statuses }
    requires heard { heard.items ≡ B.answers }
    ensures step { IfOk result.0 (λ step.
        ∥ CallIs (the_call (Call.opens options) roots statuses heard.items) step ∥₁) }
    ensures back { result.1.items ≡ heard.items }
{
    let bus = Heard::<B>::begin(roots, statuses, heard);
    let host = Host::with_options(alloc, bus, options);
    finished(alloc, roots, host, &Done::Moved(Ok(())))
}

/// Does what is wanted on a copy of a host, over what was heard in the call, and gives that back.
fn called<B: Begun>(
    alloc: Global,
    roots: u8,
    statuses: Statuses,
    heard: Vec<Answer>,
    host: &Host<Idle>,
    want: &Want,
) -> (Result<Step, AllocError>, Vec<Answer>)
    requires ports { (1 ≤ roots) × (roots ≤ 7) }
    requires roots { roots ≡ B.roots }
    requires statuses { statuses ≡ B.statuses }
    requires heard { heard.items ≡ B.answers }
    ensures step { IfOk result.0 (λ step.
        ∥ CallIs (the_call (Call.wants host.now want.now) roots statuses heard.items) step ∥₁) }
    ensures back { result.1.items ≡ heard.items }
{
    let bus = Heard::<B>::begin(roots, statuses, heard);
    match host.copied_onto(alloc, bus) {
        Ok(copy) => {
            let mut copy = copy;
            let done = made(&mut copy, want);
            finished(alloc, roots, copy, &done)
        }
        Err(bus) => {
            let (_so_far, heard) = bus.into_parts();
            (Err(AllocError), heard)
        }
    }
}

/// How far a call came, by the host after it, and what was heard in it.
fn finished<B: Begun>(
    alloc: Global,
    roots: u8,
    host: Host<Heard<B>>,
    done: &Done,
) -> (Result<Step, AllocError>, Vec<Answer>)
    requires ports { (1 ≤ roots) × (roots ≤ 7) }
    ensures step { IfOk result.0 (λ step. (call : Call) → MakesCall call done.now host
        → ∥ CallIs (the_call call B.roots B.statuses B.answers) step ∥₁) }
    ensures back { result.1.items ≡ B.answers }
{
    let told = told_of(alloc, roots, &host, done);
    let (so_far, heard) = host.into_bus().into_parts();
    let step = step_of(told, so_far, heard.len());
    (step, heard)
}

/// How far a call came, by the answers that it used of those that were heard in it.
fn step_of(
    told: Result<Option<(Box<Host<Idle>>, Vec<u8>)>, AllocError>,
    so_far: Progress,
    heard: usize,
) -> Result<Step, AllocError>
    ensures { IfOk result (StepOf told so_far heard) }
{
    if let Some(question) = so_far.asked {
        return Ok(Step::Asks(question));
    }
    // a call that memory did not cut short uses all that was heard
    if so_far.used < heard {
        return Err(AllocError);
    }
    match told? {
        Some((kept, told)) => Ok(Step::Done(kept, told)),
        None => Err(AllocError),
    }
}

/// The host after a call, over no bus, and the call's records; `None` if it was not done.
fn told_of<B: Bus>(
    alloc: Global,
    roots: u8,
    host: &Host<B>,
    done: &Done,
) -> Result<Option<(Box<Host<Idle>>, Vec<u8>)>, AllocError>
    requires ports { (1 ≤ roots) × (roots ≤ 7) }
    ensures { IfOk result (λ told. IfSome told
        (λ it. IsTold host.now done.now it.0.value it.1.items)) }
{
    let Some(status) = status_of(done) else {
        return Ok(None);
    };
    let told = call_told(alloc, host, done, status)?;
    match host.copied_onto(alloc, Idle::new(roots)) {
        Ok(kept) => Ok(Some((Box::new(alloc, kept)?, told))),
        Err(_) => Err(AllocError),
    }
}
