//! The bus over a stream of lines.
ghost use Rattle.std.specs.Prelude.{◌≡◌, ◌≢◌, ◌+◌, ◌-◌, ◌*◌, ◌^◌, ◌<◌, ◌≤◌, ◌∷◌, ◌++◌, [], length, slice_set, IfErr, IfOk, None, Some, Ok, Err, option_map};
ghost use Rattle.std.specs.Int.{div_ceil};
ghost use Rattle.usb_bus.specs.Rows.{CountsRow, IsDestination, RowTold, row_attempts};
ghost use Rattle.usb_bus.specs.Traces.{Spends};
ghost use Rattle.usb_watch.specs.Pipes.{out_pipe_of, pipe_of};
ghost use Rattle.usb_port.specs.Calls.{IsClearFeature, IsSetFeature, clear_call, set_call};
ghost use Rattle.usb_world.specs.PlainAttempts.{attempt_data};
ghost use Rattle.usb_world.specs.Worlds.{FitsMaximum, IsAttempt};
ghost use Rattle.usb_wire.specs.Questions.{IsQuestion, kind_asked, question_line};
ghost use Rattle.usb_wire.specs.declared.question.Question.TheVariants as question;

use crate::asked::{
    add_full, attempts_in, ins_for, is_ack, more_answers, outcome_for, outs_for, question_for,
    was_asked,
};
use crate::fault::{LiveFault, bus_fault};
use arrayvec::ArrayVec;
use std::io::{Read, Write};
use usb_bus::{Attempt, Bus, BusFault, Destination, Outcome, ROW_ROOM, RowDone, RowEnd, Toggle};
use usb_port::PortCall;
use usb_watch::{Line, LineFault, Watched, put_lines, read_line};
use usb_wire::{
    Answer, Asked, Endpoint, Hubs, Question, Said, WireFault, question_line, read_said,
};

/// The most root ports.
const ROOTS: u8 = 7;

/// A bus whose controller side is at the other end of a reader and a writer of lines.
///
/// A fault is kept: after it nothing is read or written, and each later call returns the same fault.
#[derive(Drop)]
pub struct StreamBus<R, W> {
    reader: Watched<R>,
    writer: Watched<W>,
    /// How many root ports there are.
    roots: u8,
    /// Whether hubs may have 8 to 15 ports.
    wide: bool,
    /// Whether the controller side answers rows of attempts.
    rows: bool,
    /// How many answers of the row that was asked last are still to come, at most.
    ahead: u16,
    /// wPortStatus and wPortChange of each root port as last reported, port 1 first (11.24.2.7).
    statuses: [[u8; 4]; 7],
    /// How many more questions may be asked.
    left: u64,
    /// For how many attempts a question went out, or a prefix of one. Of a row those count whose
    /// answer was read or awaited.
    attempts: u128,
    /// How many lines were read, up to the greatest `u64`.
    lines: u64,
    fault: Option<LiveFault>,
    ghost some_root: { 1 ≤ roots },
    ghost few_roots: { roots ≤ 7 },
    ghost few_attempts: { attempts + 448 * left + ahead < 2 ^ 73 },
}

impl<R, W> StreamBus<R, W> {
    /// Gives the reader and the writer back.
    pub fn into_ends(self) -> (Watched<R>, Watched<W>)
        ensures reader { result.0 ≡ self.reader }
        ensures writer { result.1 ≡ self.writer }
    {
        let StreamBus { reader, writer, .. } = self;
        (reader, writer)
    }
}

/// Nothing is said of a world: what the controller side does is its own. Root calls and restarts return
/// no fault: it is kept, and the next question returns it.
impl<R: Read, W: Write> Bus for StreamBus<R, W> {
    ghost use Rattle.std.specs.Prelude.{false};
    ghost use Rattle.usb_stream.specs.Stream.{AttemptsByLine, Calls, InsByLine, OutsByLine, RefusesRow, Restarts, bus_fault, kept_of, no_world, kept_status, streams, unread_of, written_of};
    ghost use Rattle.usb_stream.specs.declared.fault.LiveFault.{LiveFault as AFault};

    ghost modelled = { false };

    ghost world = { λ bus. no_world };

    ghost trace = { λ bus. None };

    ghost spent = { λ bus. (kept_of bus).attempts };

    ghost failed = { λ bus. option_map bus_fault (kept_of bus).fault };

    ghost ports = { λ bus. (kept_of bus).roots };

    /// Makes one attempt.
    ///
    /// # Errors
    ///
    /// Limit where no more questions are left, Failed at any other fault.
    fn attempt(&mut self, attempt: &Attempt) -> Result<Outcome, BusFault>
        requires { IsAttempt (attempt_data attempt.now) }
        ensures again { (f : AFault) → (kept_of self.old).fault ≡ Some f
            → (result ≡ Err (bus_fault f)) × (self.new ≡ self.old) }
        ensures asks { (kept_of self.old).fault ≡ None → AttemptsByLine attempt.now
            (streams (unread_of R.remaining self.old) (unread_of R.remaining self.new)
            (written_of W.contents self.old) (written_of W.contents self.new))
            (kept_of self.old) result (kept_of self.new) }
        ensures fits { IfOk result (FitsMaximum (attempt_data attempt.now).max) }
        ensures spends { Spends (λ bus. (kept_of bus).attempts) (λ bus. (kept_of bus).roots) 1
            self.old self.new }
        ensures told { IfErr result (λ fault.
            option_map bus_fault (kept_of self.new).fault ≡ Some fault) }
    {
        match self.ask(&question_for(attempt)) {
            Ok(answer) => Ok(outcome_for(attempt.destination().max, answer)),
            Err(fault) => Err(bus_fault(fault)),
        }
    }

    /// Makes INs one after the other: in one line, where the controller side answers rows.
    ///
    /// # Errors
    ///
    /// `RowEnd::Faulted`: those of `attempt`.
    fn attempt_ins(
        &mut self,
        to: Destination,
        toggle: Toggle,
        most: u8,
        got: &mut ArrayVec<u8, ROW_ROOM>,
    ) -> RowDone
        requires row { IsDestination to × (most ≤ 64) }
        ensures again { (f : AFault) → (kept_of self.old).fault ≡ Some f
            → RefusesRow most f self.old result self.new }
        ensures asks { (kept_of self.old).fault ≡ None → InsByLine to toggle most
            (streams (unread_of R.remaining self.old) (unread_of R.remaining self.new)
            (written_of W.contents self.old) (written_of W.contents self.new))
            (kept_of self.old) result got.new.items (kept_of self.new) }
        ensures spends { Spends (λ bus. (kept_of bus).attempts) (λ bus. (kept_of bus).roots)
            (row_attempts result.moved result.end) self.old self.new }
        ensures fits { CountsRow to.max most result
            × (length got.new.items ≡ result.moved * to.max) }
        ensures told { RowTold result.end (option_map bus_fault (kept_of self.new).fault) }
    {
        got.clear();
        let mut due = toggle;
        'packets: for moved in 0..most {
            match self.next_in(moved, to, due, most - moved) {
                Ok(answer) => {
                    let outcome = outcome_for(to.max, answer);
                    if !add_full(got, to.max, due, &outcome) {
                        return RowDone {
                            moved,
                            end: RowEnd::Answered(outcome),
                        };
                    }
                    due = due.other();
                }
                Err(fault) => {
                    return RowDone {
                        moved,
                        end: RowEnd::Faulted(bus_fault(fault)),
                    };
                }
            }
        }
        RowDone {
            moved: most,
            end: RowEnd::Whole,
        }
    }

    /// Makes OUTs one after the other: as many in one line as it has room for, where the controller
    /// side answers rows.
    ///
    /// # Errors
    ///
    /// `RowEnd::Faulted`: those of `attempt`.
    fn attempt_outs(&mut self, to: Destination, toggle: Toggle, bytes: &[u8]) -> RowDone
        requires row { IsDestination to × (length bytes.now ≤ 64 * to.max) }
        ensures again { (f : AFault) → (kept_of self.old).fault ≡ Some f
            → RefusesRow (length bytes.now) f self.old result self.new }
        ensures asks { (kept_of self.old).fault ≡ None → OutsByLine to toggle bytes.now
            (streams (unread_of R.remaining self.old) (unread_of R.remaining self.new)
            (written_of W.contents self.old) (written_of W.contents self.new))
            (kept_of self.old) result (kept_of self.new) }
        ensures spends { Spends (λ bus. (kept_of bus).attempts) (λ bus. (kept_of bus).roots)
            (row_attempts result.moved result.end) self.old self.new }
        ensures fits { CountsRow to.max (div_ceil (length bytes.now) to.max) result }
        ensures told { RowTold result.end (option_map bus_fault (kept_of self.new).fault) }
    {
        let mut rest = bytes;
        let mut due = toggle;
        let mut moved = 0;
        'packets: while !rest.is_empty() {
            match self.next_out(moved, to, due, rest) {
                Ok(answer) => {
                    let outcome = outcome_for(to.max, answer);
                    if !is_ack(&outcome) {
                        return RowDone {
                            moved,
                            end: RowEnd::Answered(outcome),
                        };
                    }
                    let (_, after) = rest.split_at(rest.len().min(usize::from(to.max)));
                    rest = after;
                    due = due.other();
                    moved += 1;
                }
                Err(fault) => {
                    return RowDone {
                        moved,
                        end: RowEnd::Faulted(bus_fault(fault)),
                    };
                }
            }
        }
        RowDone {
            moved,
            end: RowEnd::Whole,
        }
    }

    fn root_ports(&self) -> u8
        ensures ports { result ≡ (kept_of self.now).roots }
        ensures least { 1 ≤ result }
        ensures most { result ≤ 7 }
    {
        self.roots
    }

    /// The status of a root port as it was reported last (11.24.2.7).
    fn root_status(&self, port: u8) -> [u8; 4]
        requires least { 1 ≤ port }
        requires most { port ≤ (kept_of self.now).roots }
        ensures { result ≡ kept_status (kept_of self.now) port }
    {
        self.statuses[usize::from(port) - 1]
    }

    fn root_set(&mut self, port: u8, feature: u16)
        requires { IsSetFeature feature }
        ensures again { (kept_of self.old).fault ≢ None → self.new ≡ self.old }
        ensures asks { (kept_of self.old).fault ≡ None → Calls port (set_call feature)
            (streams (unread_of R.remaining self.old) (unread_of R.remaining self.new)
            (written_of W.contents self.old) (written_of W.contents self.new))
            (kept_of self.old) (kept_of self.new) }
        ensures unspent { Spends (λ bus. (kept_of bus).attempts) (λ bus. (kept_of bus).roots) 0
            self.old self.new }
    {
        if let Some(call) = PortCall::of_set(feature) {
            self.call(port, call);
        }
    }

    fn root_clear(&mut self, port: u8, feature: u16)
        requires { IsClearFeature feature }
        ensures again { (kept_of self.old).fault ≢ None → self.new ≡ self.old }
        ensures asks { (kept_of self.old).fault ≡ None → Calls port (clear_call feature)
            (streams (unread_of R.remaining self.old) (unread_of R.remaining self.new)
            (written_of W.contents self.old) (written_of W.contents self.new))
            (kept_of self.old) (kept_of self.new) }
        ensures unspent { Spends (λ bus. (kept_of bus).attempts) (λ bus. (kept_of bus).roots) 0
            self.old self.new }
    {
        if let Some(call) = PortCall::of_clear(feature) {
            self.call(port, call);
        }
    }

    fn restart_endpoint(&mut self, address: u8, number: u8, is_in: bool)
        requires address { address ≤ 127 }
        requires least { 1 ≤ number }
        requires most { number ≤ 15 }
        ensures again { (kept_of self.old).fault ≢ None → self.new ≡ self.old }
        ensures asks { (kept_of self.old).fault ≡ None → Restarts address number is_in
            (streams (unread_of R.remaining self.old) (unread_of R.remaining self.new)
            (written_of W.contents self.old) (written_of W.contents self.new))
            (kept_of self.old) (kept_of self.new) }
        ensures unspent { Spends (λ bus. (kept_of bus).attempts) (λ bus. (kept_of bus).roots) 0
            self.old self.new }
    {
        let endpoint = Endpoint { address, number };
        let _kept = self.ask(&Question::Restart { endpoint, is_in });
    }

    ghost counted = { λ known bus. Prim.cc known };

    ghost settled = { λ known bus. Prim.cc known };

    ghost between = { λ known bus working. Prim.cc known };
}

impl<R: Read, W: Write> StreamBus<R, W> {
    ghost use Rattle.usb_stream.specs.Stream.{AsksOnce, Calls, CauseOfHearing, CauseOfLine, FailsOnce, AnswerLinesRead, HearsMore, RowStep, SaysHello, Says, WritesLines, attempts_in, bus_fault, counted_on, greeted, hubs_of, ins_for, kept_of, outs_for, roots_if, streams, unread_of, written_of};
    ghost use Rattle.usb_stream.specs.declared.fault.LiveFault.{LiveFault as AFault};
    ghost use Rattle.std.specs.Prelude.{false, true};

    /// Says the hello to the controller side, which answers with the number of root ports. At most
    /// `limit` questions are asked in all. At the hello all statuses are 0.
    ///
    /// The bus is made whatever is answered: it may have a fault from the first.
    pub fn open(reader: Watched<R>, writer: Watched<W>, limit: u64) -> Self
        ensures { SaysHello false limit (streams (pipe_of R.remaining reader)
            (unread_of R.remaining result) (out_pipe_of W.contents writer)
            (written_of W.contents result)) (kept_of result) }
    {
        StreamBus::begin(reader, writer, limit, false)
    }

    /// The same for a host that takes wide hubs: paths may have ports 8 to 15 behind the first.
    pub fn with_wide_hubs(reader: Watched<R>, writer: Watched<W>, limit: u64) -> Self
        ensures { SaysHello true limit (streams (pipe_of R.remaining reader)
            (unread_of R.remaining result) (out_pipe_of W.contents writer)
            (written_of W.contents result)) (kept_of result) }
    {
        StreamBus::begin(reader, writer, limit, true)
    }

    /// Says the hello. The bus is made whatever is answered, with one root port until the answer
    /// says more.
    fn begin(reader: Watched<R>, writer: Watched<W>, limit: u64, wide: bool) -> Self
        ensures { SaysHello wide limit (streams (pipe_of R.remaining reader)
            (unread_of R.remaining result) (out_pipe_of W.contents writer)
            (written_of W.contents result)) (kept_of result) }
    {
        let mut bus = StreamBus {
            reader,
            writer,
            roots: 1,
            wide,
            rows: false,
            ahead: 0,
            statuses: [[0; 4]; 7],
            left: limit,
            attempts: 0,
            lines: 0,
            fault: None,
        };
        let answer = bus.ask(&Question::Hello);
        bus.greet(answer);
        bus
    }

    /// Keeps how many root ports there are, and whether rows are answered, by the answer to the
    /// hello.
    fn greet(&mut self, answer: Result<Answer, LiveFault>)
        ensures kept { kept_of self.new ≡ greeted answer (kept_of self.old) }
        ensures reader { self.new.reader ≡ self.old.reader }
        ensures writer { self.new.writer ≡ self.old.writer }
    {
        match answer {
            Ok(Answer::Roots(roots)) => self.keep_roots(roots),
            Ok(Answer::RootsAndRows(roots)) => {
                self.keep_roots(roots);
                self.rows = true;
            }
            Ok(_) => {}
            Err(_) => {}
        }
    }

    /// Keeps how many root ports there are, if there are 1 to 7.
    fn keep_roots(&mut self, roots: u8)
        ensures kept { kept_of self.new ≡ roots_if roots (kept_of self.old) }
        ensures reader { self.new.reader ≡ self.old.reader }
        ensures writer { self.new.writer ≡ self.old.writer }
    {
        if roots < 1 || roots > ROOTS {
            return;
        }
        self.roots = roots;
    }

    /// Why the bus asks no more, if it does not.
    pub fn fault(&self) -> Option<LiveFault>
        ensures { result ≡ (kept_of self.now).fault }
    {
        self.fault
    }

    /// The number of the line that was read last, or awaited when the bus failed.
    pub fn lines(&self) -> u64
        ensures { result ≡ (kept_of self.now).lines }
    {
        self.lines
    }

    /// How many more questions may be asked.
    pub fn left(&self) -> u64
        ensures { result ≡ (kept_of self.now).left }
    {
        self.left
    }

    /// The number of attempts of which the question went out, or a prefix of it, answered or not. Of
    /// a row those count whose answer was read or awaited.
    pub fn attempts(&self) -> u128
        ensures { result ≡ (kept_of self.now).attempts }
    {
        self.attempts
    }

    /// Asks what is requested.
    ///
    /// # Errors
    ///
    /// The fault that is kept, or else:
    ///
    /// - `LimitReached`: no question is left. Nothing is written or read.
    /// - `Write`: the writer failed. `Read`: the reader failed.
    /// - `Line`: a line has that fault.
    /// - `TooManyPushes`: more than 64 statuses came before the answer.
    /// - `Gone`: the input ended in mid-line.
    pub fn wait(&mut self) -> Result<Answer, LiveFault>
        ensures again { (f : AFault) → (kept_of self.old).fault ≡ Some f
            → (result ≡ Err f) × (self.new ≡ self.old) }
        ensures asks { (kept_of self.old).fault ≡ None → AsksOnce question.Wait
            (streams (unread_of R.remaining self.old) (unread_of R.remaining self.new)
            (written_of W.contents self.old) (written_of W.contents self.new))
            (kept_of self.old) result (kept_of self.new) }
    {
        self.ask(&Question::Wait)
    }

    /// Writes lines that are no questions, each with its newline.
    ///
    /// # Errors
    ///
    /// The fault that is kept, or `Write` if the writer failed.
    pub fn tell(&mut self, lines: &[u8]) -> Result<(), LiveFault>
        ensures again { (f : AFault) → (kept_of self.old).fault ≡ Some f
            → (result ≡ Err f) × (self.new ≡ self.old) }
        ensures told { (kept_of self.old).fault ≡ None → WritesLines lines.now
            (written_of W.contents self.old) (written_of W.contents self.new)
            (kept_of self.old) result (kept_of self.new) }
        ensures reader { self.new.reader ≡ self.old.reader }
    {
        if let Some(fault) = self.fault {
            return Err(fault);
        }
        match put_lines(&mut self.writer, lines) {
            Ok(()) => Ok(()),
            Err(_) => {
                self.fault = Some(LiveFault::Write);
                Err(LiveFault::Write)
            }
        }
    }

    /// Makes a call at a root port, if there is one of that number.
    fn call(&mut self, port: u8, call: PortCall)
        ensures again { (kept_of self.old).fault ≢ None → self.new ≡ self.old }
        ensures asks { (kept_of self.old).fault ≡ None → Calls port (Some call)
            (streams (unread_of R.remaining self.old) (unread_of R.remaining self.new)
            (written_of W.contents self.old) (written_of W.contents self.new))
            (kept_of self.old) (kept_of self.new) }
        ensures roots { self.new.roots ≡ self.old.roots }
        ensures attempts { self.new.attempts ≤ self.old.attempts }
    {
        if port < 1 || port > self.roots {
            return;
        }
        let _kept = self.ask(&Question::Port { number: port, call });
    }

    /// Asks a question, and hears its answer. A fault is kept.
    fn ask(&mut self, question: &Question) -> Result<Answer, LiveFault>
        requires { IsQuestion question.now }
        ensures again { (f : AFault) → (kept_of self.old).fault ≡ Some f
            → (result ≡ Err f) × (self.new ≡ self.old) }
        ensures asks { (kept_of self.old).fault ≡ None → AsksOnce question.now
            (streams (unread_of R.remaining self.old) (unread_of R.remaining self.new)
            (written_of W.contents self.old) (written_of W.contents self.new))
            (kept_of self.old) result (kept_of self.new) }
        ensures roots { self.new.roots ≡ self.old.roots }
        ensures attempts { self.new.attempts
            ≤ self.old.attempts + attempts_in (kind_asked question.now) 1 }
    {
        if let Some(fault) = self.fault {
            return Err(fault);
        }
        match self.exchange(question) {
            Ok(answer) => Ok(answer),
            Err(fault) => {
                self.fault = Some(fault);
                Err(fault)
            }
        }
    }

    /// The next answer of a row of INs: one more of the line that was asked last, or that of a new
    /// question for those that are left.
    fn next_in(
        &mut self,
        moved: u8,
        to: Destination,
        due: Toggle,
        left: u8,
    ) -> Result<Answer, LiveFault>
        requires row { IsDestination to × (1 ≤ left) × (left ≤ 64) }
        ensures again { (f : AFault) → (kept_of self.old).fault ≡ Some f
            → (result ≡ Err f) × (self.new ≡ self.old) }
        ensures asks { (kept_of self.old).fault ≡ None → RowStep moved
            (ins_for (kept_of self.old).rows to due left)
            (streams (unread_of R.remaining self.old) (unread_of R.remaining self.new)
            (written_of W.contents self.old) (written_of W.contents self.new))
            (kept_of self.old) result (kept_of self.new) }
        ensures spends { Spends (λ bus. (kept_of bus).attempts) (λ bus. (kept_of bus).roots) 1
            self.old self.new }
    {
        if was_asked(moved, self.ahead) {
            self.hear_more()
        } else {
            self.ask(&ins_for(self.rows, to, due, left))
        }
    }

    /// The same of a row of OUTs.
    fn next_out(
        &mut self,
        moved: u8,
        to: Destination,
        due: Toggle,
        rest: &[u8],
    ) -> Result<Answer, LiveFault>
        requires row { IsDestination to × (1 ≤ length rest.now) }
        ensures again { (f : AFault) → (kept_of self.old).fault ≡ Some f
            → (result ≡ Err f) × (self.new ≡ self.old) }
        ensures asks { (kept_of self.old).fault ≡ None → RowStep moved
            (outs_for (kept_of self.old).rows to due rest.now)
            (streams (unread_of R.remaining self.old) (unread_of R.remaining self.new)
            (written_of W.contents self.old) (written_of W.contents self.new))
            (kept_of self.old) result (kept_of self.new) }
        ensures spends { Spends (λ bus. (kept_of bus).attempts) (λ bus. (kept_of bus).roots) 1
            self.old self.new }
    {
        if was_asked(moved, self.ahead) {
            self.hear_more()
        } else {
            self.ask(&outs_for(self.rows, to, due, rest))
        }
    }

    /// Reads one more answer of the row that was asked last. A fault is kept.
    fn hear_more(&mut self) -> Result<Answer, LiveFault>
        requires { 1 ≤ self.old.ahead }
        ensures again { (f : AFault) → (kept_of self.old).fault ≡ Some f
            → (result ≡ Err f) × (self.new ≡ self.old) }
        ensures hears { (kept_of self.old).fault ≡ None → HearsMore
            (streams (unread_of R.remaining self.old) (unread_of R.remaining self.new)
            (written_of W.contents self.old) (written_of W.contents self.new))
            (kept_of self.old) result (kept_of self.new) }
        ensures spends { Spends (λ bus. (kept_of bus).attempts) (λ bus. (kept_of bus).roots) 1
            self.old self.new }
    {
        if let Some(fault) = self.fault {
            return Err(fault);
        }
        self.ahead -= 1;
        self.attempts += 1;
        match self.hear(Asked::Attempt) {
            Ok(answer) => Ok(answer),
            Err(found) => {
                self.fault = Some(found);
                Err(found)
            }
        }
    }

    /// Writes a question, and reads up to its answer, of a row up to the first one.
    fn exchange(&mut self, question: &Question) -> Result<Answer, LiveFault>
        requires asks { IsQuestion question.now }
        requires sound { (kept_of self.old).fault ≡ None }
        ensures asked { FailsOnce question.now
            (streams (unread_of R.remaining self.old) (unread_of R.remaining self.new)
            (written_of W.contents self.old) (written_of W.contents self.new))
            (kept_of self.old) result (kept_of self.new) }
        ensures attempts { self.new.attempts
            ≤ self.old.attempts + attempts_in (kind_asked question.now) 1 }
    {
        if self.left == 0 {
            return Err(LiveFault::LimitReached);
        }
        let asked = question.asked();
        self.left -= 1;
        self.ahead = more_answers(question);
        self.attempts += attempts_in(asked);
        let line = line_for(question);
        match put_lines(&mut self.writer, line.as_slice()) {
            Ok(()) => self.hear(asked),
            Err(_) => Err(LiveFault::Write),
        }
    }

    /// Reads up to an answer; each status before it is kept.
    fn hear(&mut self, asked: Asked) -> Result<Answer, LiveFault>
        ensures ok { IfOk result (λ got. AnswerLinesRead asked (unread_of R.remaining self.old)
            (unread_of R.remaining self.new) (kept_of self.old) got (kept_of self.new)) }
        ensures err { IfErr result (CauseOfHearing asked (unread_of R.remaining self.old)
            (unread_of R.remaining self.new) (kept_of self.old) (kept_of self.new)) }
        ensures same { kept_of self.new ≡ record (kept_of self.old)
            { statuses = self.new.statuses; lines = self.new.lines } }
        ensures writer { self.new.writer ≡ self.old.writer }
    {
        'lines: for _ in 0..65u8 {
            match self.next_said(asked) {
                Ok(Said::Changed { number, status }) => {
                    keep(&mut self.statuses, number, status);
                }
                Ok(Said::Answered(answer)) => return Ok(answer),
                Err(fault) => return Err(fault),
            }
        }
        Err(LiveFault::TooManyPushes)
    }

    /// What the next line says. The end of the input is the end, in place of what is requested.
    fn next_said(&mut self, asked: Asked) -> Result<Said, LiveFault>
        ensures ok { IfOk result (Says asked (hubs_of (kept_of self.old))
            (unread_of R.remaining self.old) (unread_of R.remaining self.new)) }
        ensures err { IfErr result (CauseOfLine asked (hubs_of (kept_of self.old))
            (unread_of R.remaining self.old) (unread_of R.remaining self.new)) }
        ensures same { kept_of self.new
            ≡ record (kept_of self.old) { lines = counted_on self.old.lines 1 } }
        ensures writer { self.new.writer ≡ self.old.writer }
    {
        self.lines = self.lines.saturating_add(1);
        let hubs = Hubs {
            roots: self.roots,
            wide: self.wide,
        };
        match read_line(&mut self.reader) {
            Ok(Line::Whole(line)) => match read_said(asked, hubs, line.as_slice()) {
                Ok(said) => Ok(said),
                Err(fault) => Err(LiveFault::Line(fault)),
            },
            Ok(Line::Long(_)) => Err(LiveFault::Line(WireFault::LineTooLong)),
            Ok(Line::Ended) => at_end(asked),
            Err(LineFault::Read) => Err(LiveFault::Read),
            Err(LineFault::Cut) => Err(LiveFault::Gone),
        }
    }
}

/// Keeps the status of a root port.
fn keep(statuses: &mut [[u8; 4]; 7], number: u8, status: [u8; 4])
    requires least { 1 ≤ number }
    requires most { number ≤ 7 }
    ensures { statuses.new ≡ slice_set statuses.old (number - 1) status }
{
    statuses[usize::from(number) - 1] = status;
}

/// What the end of the input says.
fn at_end(asked: Asked) -> Result<Said, LiveFault>
    ensures ok { IfOk result (λ said. (asked ≡ Asked.Wait) × (said ≡ Said.Answered Answer.End)) }
    ensures err { IfErr result (λ f. (f ≡ LiveFault.Gone) × (asked ≢ Asked.Wait)) }
{
    match asked {
        Asked::Wait => Ok(Said::Answered(Answer::End)),
        Asked::Hello | Asked::Attempt | Asked::Port => Err(LiveFault::Gone),
    }
}

/// The line of a question, with its newline.
fn line_for(question: &Question) -> ArrayVec<u8, 1027>
    ensures { result.items ≡ question_line question.now ++ 10 ∷ [] }
{
    let text = question_line(question);
    let mut line = ArrayVec::new();
    line.try_extend_from_slice(text.as_str().as_bytes())
        .unwrap();
    line.push(b'\n');
    line
}
