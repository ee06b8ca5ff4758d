//! How far a call came over what was heard in it.
ghost use Rattle.std.specs.Prelude.{◌≡◌, ◌≤◌, length, is_some, option_map};
ghost use Rattle.usb_world.specs.Worlds.{FitsMaximum};
ghost use Rattle.usb_dialogue.specs.Hearing.{answer_for, asked_on, attempts_in, begun_at, within};

use crate::answer::copied;
use crate::{Answer, Question, Statuses};
use usb_bus::Outcome;

/// How far a call came over what was heard in it.
#[derive(Debug, Drop)]
pub(crate) struct Progress {
    /// How many answers were used.
    pub used: usize,
    /// wPortStatus and wPortChange of each root port, as they came last.
    pub statuses: Statuses,
    /// How many attempts were answered.
    pub attempts: usize,
    /// The question that found no answer. After it nothing is asked.
    pub asked: Option<Question>,
}

impl Progress {
    /// Nothing was asked yet, and the root ports show this.
    pub fn begin(statuses: Statuses) -> Progress
        ensures { result ≡ begun_at statuses }
    {
        Progress {
            used: 0,
            statuses,
            attempts: 0,
            asked: None,
        }
    }

    /// Asks a question, and returns what came of an attempt; `None` if nothing was heard.
    pub fn hear(&mut self, answers: &[Answer], question: Question) -> Option<Outcome>
        requires { self.old.attempts ≤ self.old.used }
        ensures value { result ≡ option_map (λ a. a.outcome) (answer_for answers.now self.old) }
        ensures asks { self.new ≡ asked_on answers.now self.old question }
    {
        if self.asked.is_some() {
            return None;
        }
        match answers.get(self.used) {
            Some(answer) => {
                self.used += 1;
                self.statuses = answer.statuses;
                self.attempts += attempts_in(&question);
                Some(outcome_again(&answer.outcome))
            }
            None => {
                self.asked = Some(question);
                None
            }
        }
    }
}

/// How many attempts an answer to a question is.
fn attempts_in(question: &Question) -> usize
    ensures { result ≡ attempts_in question.now }
{
    match question {
        Question::Attempt(_) | Question::Ins { .. } => 1,
        Question::Set { .. } | Question::Clear { .. } | Question::Restart { .. } => 0,
    }
}

/// The same outcome again.
fn outcome_again(outcome: &Outcome) -> Outcome
    ensures { result ≡ outcome.now }
{
    match outcome {
        Outcome::Payload(toggle, bytes) => Outcome::Payload(*toggle, copied(bytes.as_slice())),
        Outcome::Ack => Outcome::Ack,
        Outcome::Nak => Outcome::Nak,
        Outcome::Stall => Outcome::Stall,
        Outcome::Nothing => Outcome::Nothing,
    }
}

/// What an attempt gives: more data than the endpoint's maximum packet are none (8.7.4).
pub(crate) fn within(most: u8, outcome: Outcome) -> Outcome
    ensures value { result ≡ within most outcome }
    ensures fits { FitsMaximum most result }
{
    match outcome {
        Outcome::Payload(toggle, bytes) => {
            if bytes.len() > usize::from(most) {
                return Outcome::Nothing;
            }
            Outcome::Payload(toggle, bytes)
        }
        Outcome::Ack => Outcome::Ack,
        Outcome::Nak => Outcome::Nak,
        Outcome::Stall => Outcome::Stall,
        Outcome::Nothing => Outcome::Nothing,
    }
}
