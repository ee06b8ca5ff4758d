//! A driver, and the simulated bus that its questions go to.
use crate::controller::{answer_record, put, put_row, statuses};
use std::alloc::Global;
use usb_bus::{Bus, BusFault};
use usb_dialogue::{Answer, Driver, DriverFault, HostOptions, Outcome, Question, Want};
use usb_sim::{Ask, Plan, SimBus, Untraced};

/// The most questions of a call, and the most rounds until one is quiet.
const LIMIT: u32 = 1_000_000;

/// The records of a round with nothing to do.
const QUIET: [u8; 6] = [32, 1, 0, 0, 0, 1];

/// A driver, and the bus that its questions go to.
#[derive(Drop)]
pub struct Course {
    alloc: Global,
    /// The driver.
    pub driver: Driver,
    /// The bus.
    pub bus: SimBus<Untraced>,
    /// The most attempts that the controller makes of a row.
    pub row: u8,
    /// The number of questions of the last call.
    pub questions: u32,
}

impl Course {
    /// A driver that has opened its host, before the first event of a plan. It takes at most this
    /// number of bytes of a device.
    ///
    /// # Errors
    ///
    /// - `Memory`: memory was refused.
    /// - `OutOfTurn`: the call has too many questions.
    pub fn open(
        alloc: Global,
        plan: &Plan,
        device_bytes: Option<usize>,
        row: u8,
    ) -> Result<Course, DriverFault> {
        let bus = SimBus::untraced(alloc, plan)?;
        let options = HostOptions {
            wide_hubs: plan.wide_hubs(),
            device_bytes,
        };
        let driver = Driver::open(alloc, bus.root_ports(), options, statuses(&bus))?;
        let mut course = Course {
            alloc,
            driver,
            bus,
            row,
            questions: 0,
        };
        course.finish()?;
        Ok(course)
    }

    /// Makes a call.
    ///
    /// # Errors
    ///
    /// - `Memory`: memory was refused.
    /// - `OutOfTurn`: a call is under way, or this one has too many questions.
    pub fn call(&mut self, want: Want) -> Result<(), DriverFault> {
        self.driver.begin(want, statuses(&self.bus))?;
        self.finish()
    }

    /// Makes rounds until a quiet one in which no event came.
    ///
    /// # Errors
    ///
    /// - `Memory`: memory was refused.
    /// - `OutOfTurn`: a call is under way, or there are too many questions or rounds.
    pub fn settle(&mut self) -> Result<(), DriverFault> {
        'rounds: for _ in 0..LIMIT {
            let taken = self.bus.events_taken();
            self.call(Want::Round)?;
            if self.driver.told() == QUIET.as_slice() && self.bus.events_taken() == taken {
                return Ok(());
            }
        }
        Err(DriverFault::OutOfTurn)
    }

    /// Settles, and lets the next event come; `None` if none is left.
    ///
    /// # Errors
    ///
    /// - `Memory`: memory was refused, or the bus has failed.
    /// - `OutOfTurn`: a call is under way, or there are too many questions or rounds.
    pub fn next_event(&mut self) -> Result<Option<Option<Ask>>, DriverFault> {
        self.settle()?;
        bus_answer(self.bus.apply_next_event())
    }

    /// Answers questions until the call is done.
    fn finish(&mut self) -> Result<(), DriverFault> {
        'questions: for asked in 0..LIMIT {
            let Some(question) = self.question()? else {
                self.questions = asked;
                return Ok(());
            };
            self.put(&question.bytes())?;
        }
        Err(DriverFault::OutOfTurn)
    }

    /// The question that waits. If memory was refused, it is asked for once more.
    fn question(&mut self) -> Result<Option<Question>, DriverFault> {
        match self.driver.question() {
            Err(DriverFault::Memory) => self.driver.question(),
            asked => asked,
        }
    }

    /// Does what a question's bytes say, and answers it.
    fn put(&mut self, record: &[u8; 72]) -> Result<(), DriverFault> {
        if record[0] != 7 || self.row == 1 {
            let last = bus_answer(put(&mut self.bus, record))?;
            return self.answer(None, &last);
        }
        let (before, last) = bus_answer(put_row(self.alloc, &mut self.bus, record, self.row))?;
        self.answer(Some(before.as_slice()), &last)
    }

    /// Answers with the bytes of a row's first packets, if it is one, and the record of what came
    /// last. If memory was refused, it answers once more.
    fn answer(&mut self, before: Option<&[u8]>, last: &Outcome) -> Result<(), DriverFault> {
        let record = answer_record(self.alloc, last, &statuses(&self.bus))?;
        match self.give(before, record.as_slice()) {
            Err(DriverFault::Memory) => self.give(before, record.as_slice()),
            given => given,
        }
    }

    /// Gives the driver an answer.
    fn give(&mut self, before: Option<&[u8]>, record: &[u8]) -> Result<(), DriverFault> {
        let last = Answer::read(record)?;
        match before {
            Some(before) => self.driver.answer_row(before, last),
            None => self.driver.answer(last),
        }
    }
}

/// What the bus gave; each of its faults is want of memory.
fn bus_answer<T>(came: Result<T, BusFault>) -> Result<T, DriverFault> {
    match came {
        Ok(it) => Ok(it),
        Err(_) => Err(DriverFault::Memory),
    }
}
