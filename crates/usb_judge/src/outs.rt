//! The toggles of what a host sends.
ghost use Rattle.std.specs.Prelude.{◌≡◌, [], IfOk, OnOk};
ghost use Rattle.usb_judge.specs.Answers.{after_attempt, told_after, told_before};

use crate::remark::Remark;
use crate::steps::{is_dropped, note, skips_retry};
use std::alloc::{AllocError, Global};
use std::marker::Model;
use usb_packet::Toggle;
use usb_world::{Attempt, Outcome};

/// An endpoint that has not acknowledged a packet of the host since it left one without an answer.
#[derive(Clone, Copy, Debug)]
pub struct Unanswered {
    /// The device's address.
    pub address: u8,
    /// The endpoint's number: of an OUT endpoint, or 0.
    pub number: u8,
    /// The toggle of the OUT that had no answer. None once SETUP went to the address, or if it was
    /// no OUT.
    pub toggle: Option<Toggle>,
}

/// Which packets of a host have no answer. An answer may be lost on its way, so the device may have
/// taken such a packet, or not (8.6.4).
#[derive(Debug, Drop)]
pub struct Outs {
    left: Vec<Unanswered>,
}

impl Model for Outs {
    ghost use Rattle.std.specs.Prelude.{List};
    ghost use Rattle.usb_judge.specs.declared.outs.Unanswered.{Unanswered};

    ghost Value = { List Unanswered };

    ghost view = { λ outs. outs.left.items };
}

impl Outs {
    /// Before the first attempt.
    pub fn new(alloc: Global) -> Outs
        ensures { result ≡ [] }
    {
        Outs {
            left: Vec::new(alloc),
        }
    }

    /// What is wrong with the toggle of an attempt that is about to be made; None if nothing is.
    ///
    /// - `SkippedRetry`: an OUT right after one to the same endpoint that had no answer has the
    ///   other toggle, and no SETUP went to the address between. A packet without an answer is sent
    ///   again with its toggle (8.6.4).
    pub fn before(&self, attempt: &Attempt) -> Option<Remark>
        ensures { result ≡ told_before self.now attempt.now }
    {
        if skips_retry(self.left.as_slice(), attempt) {
            Some(Remark::SkippedRetry)
        } else {
            None
        }
    }

    /// What was wrong with the toggle of an attempt; None if nothing was.
    ///
    /// - `OtherToggle`: an OUT to an endpoint other than 0 had data and an ACK, and the device did
    ///   not take them. Its toggle is not the one that is due (8.6).
    ///
    /// This is not judged if that endpoint, or endpoint 0, left a packet without an answer and has
    /// acknowledged none since. The device may have taken such a packet, which then comes twice, and
    /// such a request may have begun the toggles anew.
    ///
    /// `taken_before` and `taken_after` count the bytes that the endpoint has taken since the plug,
    /// before the attempt and after it. No event may come between. If no device or several hold the
    /// address, both are the same number.
    ///
    /// # Errors
    ///
    /// Memory was refused.
    pub fn after(
        &mut self,
        attempt: &Attempt,
        outcome: &Outcome,
        taken_before: usize,
        taken_after: usize,
    ) -> Result<Option<Remark>, AllocError>
        ensures told { IfOk result (λ told.
            told ≡ told_after self.old attempt.now outcome.now taken_before taken_after) }
        ensures noted { OnOk result
            (self.new ≡ after_attempt self.old attempt.now outcome.now) }
    {
        let took = taken_after != taken_before;
        let dropped = is_dropped(self.left.as_slice(), attempt, outcome, took);
        note(&mut self.left, attempt, outcome)?;
        if dropped {
            Ok(Some(Remark::OtherToggle))
        } else {
            Ok(None)
        }
    }
}
