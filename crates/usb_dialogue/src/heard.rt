//! The bus of a call that is made anew, over what was heard in it.
ghost use Rattle.std.specs.Prelude.{◌≡◌, ℕ, ◌≤◌, List, []};
ghost use Rattle.usb_dialogue.specs.Hearing.{Hears, endpoint_of};
ghost use Rattle.usb_dialogue.specs.declared.answer.Answer.{Answer as AnAnswer};

use crate::progress::{Progress, within};
use crate::question::attempt_again;
use crate::row::add_full;
use crate::{Answer, Question, Statuses};
use arrayvec::ArrayVec;
use std::marker::{Brand, PhantomData};
use usb_bus::{Attempt, Bus, BusFault, Destination, Outcome, ROW_ROOM, RowDone, RowEnd, Toggle};
use usb_request::endpoint_address::DIRECTION_IN;

/// Where a call begins.
pub(crate) trait Begun {
    /// How many root ports there are.
    ghost roots: { ℕ };

    /// What they showed.
    ghost statuses: { List (List ℕ) };

    /// What was heard in the call.
    ghost answers: { List AnAnswer };
}

impl Begun for Brand {
    ghost roots = { 0 };

    ghost statuses = { [] };

    ghost answers = { [] };
}

/// A bus of what was heard in a call. After the first question that finds no answer it asks
/// nothing more.
#[derive(Drop)]
pub(crate) struct Heard<B: Begun> {
    answers: Vec<Answer>,
    roots: u8,
    so_far: Progress,
    begun: PhantomData<B>,
    ghost some_root: { 1 ≤ roots },
    ghost few_roots: { roots ≤ 7 },
    ghost few_attempts: { so_far.attempts ≤ so_far.used },
    ghost ports: { roots ≡ B.roots },
    ghost heard: { answers.items ≡ B.answers },
    ghost course: { ∥ Hears B.roots B.statuses B.answers so_far ∥₁ },
}

/// Nothing is said of a world: what the controller side does is its own.
impl<B: Begun> Bus for Heard<B> {
    ghost use Rattle.std.specs.Prelude.{◌*◌, None, Some, false, length, IfErr, IfOk};
    ghost use Rattle.usb_bus.specs.Rows.{CountsRow, IsDestination, RowTold, row_attempts};
    ghost use Rattle.usb_bus.specs.Traces.{Spends};
    ghost use Rattle.usb_port.specs.Calls.{IsClearFeature, IsSetFeature};
    ghost use Rattle.usb_world.specs.PlainAttempts.{attempt_data};
    ghost use Rattle.usb_world.specs.Worlds.{FitsMaximum, IsAttempt};
    ghost use Rattle.usb_dialogue.specs.Hearing.{asked_on, attempt_gives, failed_by, no_world};
    ghost use Rattle.usb_dialogue.specs.Hearing.{restart_of, spent_in, status_shown};
    ghost use Rattle.usb_dialogue.specs.HeardRows.{HearsIns};
    ghost use Rattle.usb_dialogue.specs.declared.question.Question.TheVariants as question;

    ghost modelled = { false };

    ghost world = { λ bus. no_world };

    ghost trace = { λ bus. None };

    ghost spent = { λ bus. spent_in bus.so_far };

    ghost failed = { λ bus. failed_by bus.so_far.asked };

    ghost ports = { λ bus. bus.roots };

    /// Makes one attempt.
    ///
    /// # Errors
    ///
    /// Failed if no answer was heard, and after that.
    fn attempt(&mut self, attempt: &Attempt) -> Result<Outcome, BusFault>
        requires { IsAttempt (attempt_data attempt.now) }
        ensures gives { result ≡ attempt_gives self.old.answers.items self.old.so_far attempt.now }
        ensures asks { self.new.so_far
            ≡ asked_on self.old.answers.items self.old.so_far (question.Attempt attempt.now) }
        ensures spends { Spends (λ bus. spent_in bus.so_far) (λ bus. bus.roots) 1
            self.old self.new }
        ensures fits { IfOk result (FitsMaximum (attempt_data attempt.now).max) }
        ensures told { IfErr result (λ fault. failed_by self.new.so_far.asked ≡ Some fault) }
    {
        let most = attempt.destination().max;
        match self.hear(Question::Attempt(attempt_again(attempt))) {
            Some(outcome) => Ok(within(most, outcome)),
            None => Err(BusFault::Failed),
        }
    }

    /// Makes a row of INs. Each attempt asks for all that is left of the row.
    ///
    /// # Errors
    ///
    /// Failed if no answer was heard, and after that.
    fn attempt_ins(
        &mut self,
        to: Destination,
        toggle: Toggle,
        most: u8,
        got: &mut ArrayVec<u8, ROW_ROOM>,
    ) -> RowDone
        requires row { IsDestination to × (most ≤ 64) }
        ensures hears { HearsIns B.answers to toggle most self.old.so_far result got.new.items
            self.new.so_far }
        ensures spends { Spends (λ bus. spent_in bus.so_far) (λ bus. bus.roots)
            (row_attempts result.moved result.end) self.old self.new }
        ensures fits { CountsRow to.max most result
            × (length got.new.items ≡ result.moved * to.max) }
        ensures told { RowTold result.end (failed_by self.new.so_far.asked) }
    {
        got.clear();
        let mut due = toggle;
        'packets: for moved in 0..most {
            match self.hear_in(to, due, most - moved) {
                Ok(outcome) => {
                    if !add_full(got, to.max, due, &outcome) {
                        return RowDone {
                            moved,
                            end: RowEnd::Answered(outcome),
                        };
                    }
                    due = due.other();
                }
                Err(fault) => {
                    return RowDone {
                        moved,
                        end: RowEnd::Faulted(fault),
                    };
                }
            }
        }
        RowDone {
            moved: most,
            end: RowEnd::Whole,
        }
    }

    fn root_ports(&self) -> u8
        ensures ports { result ≡ self.now.roots }
        ensures least { 1 ≤ result }
        ensures most { result ≤ 7 }
    {
        self.roots
    }

    /// The status of a root port as it came with the last answer (11.24.2.7).
    fn root_status(&self, port: u8) -> [u8; 4]
        requires least { 1 ≤ port }
        requires most { port ≤ self.now.roots }
        ensures { result ≡ status_shown self.now.so_far.statuses port }
    {
        self.so_far.statuses[usize::from(port) - 1]
    }

    fn root_set(&mut self, port: u8, feature: u16)
        requires least { 1 ≤ port }
        requires most { port ≤ self.old.roots }
        requires named { IsSetFeature feature }
        ensures asks { self.new.so_far
            ≡ asked_on self.old.answers.items self.old.so_far (question.Set port feature) }
        ensures unspent { Spends (λ bus. spent_in bus.so_far) (λ bus. bus.roots) 0
            self.old self.new }
    {
        let feature = feature as u8;
        let _came = self.hear(Question::Set { port, feature });
    }

    fn root_clear(&mut self, port: u8, feature: u16)
        requires least { 1 ≤ port }
        requires most { port ≤ self.old.roots }
        requires named { IsClearFeature feature }
        ensures asks { self.new.so_far
            ≡ asked_on self.old.answers.items self.old.so_far (question.Clear port feature) }
        ensures unspent { Spends (λ bus. spent_in bus.so_far) (λ bus. bus.roots) 0
            self.old self.new }
    {
        let feature = feature as u8;
        let _came = self.hear(Question::Clear { port, feature });
    }

    fn restart_endpoint(&mut self, address: u8, number: u8, is_in: bool)
        requires address { address ≤ 127 }
        requires least { 1 ≤ number }
        requires most { number ≤ 15 }
        ensures asks { self.new.so_far
            ≡ asked_on self.old.answers.items self.old.so_far (restart_of address number is_in) }
        ensures unspent { Spends (λ bus. spent_in bus.so_far) (λ bus. bus.roots) 0
            self.old self.new }
    {
        let endpoint = endpoint_of(number, is_in);
        let _came = self.hear(Question::Restart { address, endpoint });
    }

    ghost counted = { λ known bus. Prim.cc known };

    ghost settled = { λ known bus. Prim.cc known };

    ghost between = { λ known bus working. Prim.cc known };
}

impl<B: Begun> Heard<B> {
    ghost use Rattle.std.specs.Prelude.{Some, option_map, IfErr, IfOk};
    ghost use Rattle.usb_bus.specs.Rows.{IsDestination};
    ghost use Rattle.usb_bus.specs.Traces.{Spends};
    ghost use Rattle.usb_world.specs.Worlds.{FitsMaximum};
    ghost use Rattle.usb_world.specs.declared.types.Attempt.TheVariants as token;
    ghost use Rattle.usb_dialogue.specs.Hearing.{IsQuestion, answer_for, asked_on, attempt_gives};
    ghost use Rattle.usb_dialogue.specs.Hearing.{begun_at, failed_by, spent_in};
    ghost use Rattle.usb_dialogue.specs.declared.question.Question.TheVariants as question;

    /// The bus of a call that is made anew. The root ports showed these statuses when it began.
    pub(crate) fn begin(roots: u8, statuses: Statuses, answers: Vec<Answer>) -> Self
        requires least { 1 ≤ roots }
        requires most { roots ≤ 7 }
        requires roots { roots ≡ B.roots }
        requires statuses { statuses ≡ B.statuses }
        requires answers { answers.items ≡ B.answers }
        ensures { result.so_far ≡ begun_at statuses }
    {
        Heard {
            answers,
            roots,
            so_far: Progress::begin(statuses),
            begun: PhantomData,
        }
    }

    /// How far the call came, and what was heard in it.
    pub(crate) fn into_parts(self) -> (Progress, Vec<Answer>)
        ensures so_far { result.0 ≡ self.so_far }
        ensures heard { result.1.items ≡ B.answers }
        ensures course { ∥ Hears B.roots B.statuses B.answers result.0 ∥₁ }
    {
        let Heard {
            answers,
            so_far,
            ..
        } = self;
        (so_far, answers)
    }

    /// Makes the next attempt of a row of INs; `left` packets of it are left.
    fn hear_in(&mut self, to: Destination, due: Toggle, left: u8) -> Result<Outcome, BusFault>
        requires { IsDestination to × (1 ≤ left) × (left ≤ 64) }
        ensures gives { result
            ≡ attempt_gives self.old.answers.items self.old.so_far (token.In to) }
        ensures asks { self.new.so_far
            ≡ asked_on self.old.answers.items self.old.so_far (question.Ins to due left) }
        ensures spends { Spends (λ bus. spent_in bus.so_far) (λ bus. bus.roots) 1
            self.old self.new }
        ensures fits { IfOk result (FitsMaximum to.max) }
        ensures told { IfErr result (λ fault. failed_by self.new.so_far.asked ≡ Some fault) }
    {
        let question = Question::Ins {
            to,
            toggle: due,
            most: left,
        };
        match self.hear(question) {
            Some(outcome) => Ok(within(to.max, outcome)),
            None => Err(BusFault::Failed),
        }
    }

    /// Asks a question, and returns what came of an attempt; `None` if nothing was heard.
    fn hear(&mut self, question: Question) -> Option<Outcome>
        requires { IsQuestion self.old.roots question }
        ensures value { result
            ≡ option_map (λ a. a.outcome) (answer_for self.old.answers.items self.old.so_far) }
        ensures asks { self.new.so_far
            ≡ asked_on self.old.answers.items self.old.so_far question }
        ensures ports { self.new.roots ≡ self.old.roots }
    {
        self.so_far.hear(self.answers.as_slice(), question)
    }
}

/// bEndpointAddress (9.6.6) of an endpoint's number and direction.
fn endpoint_of(number: u8, is_in: bool) -> u8
    requires { number ≤ 15 }
    ensures { result ≡ endpoint_of number is_in }
{
    if is_in { number + DIRECTION_IN } else { number }
}
