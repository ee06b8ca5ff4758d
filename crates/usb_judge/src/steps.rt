//! What an attempt says of the packets without an answer, and what it leaves of them.
ghost use Rattle.std.specs.Prelude.{◌≡◌, map, OnOk};
ghost use Rattle.std.specs.List.{list_any};
ghost use Rattle.usb_judge.specs.Answers.{after_answer, after_attempt, after_token, is_ack};
ghost use Rattle.usb_judge.specs.Answers.{is_dropped, is_of, is_other, is_skipped, is_sure};
ghost use Rattle.usb_judge.specs.Answers.{is_unanswered, left_by, skips_retry, toggle_forgotten};
ghost use Rattle.usb_judge.specs.Answers.{unanswered, without};

use crate::outs::Unanswered;
use std::alloc::AllocError;
use usb_packet::Toggle;
use usb_world::{Attempt, Destination, Outcome};

/// Whether it is of the endpoint with this number, of the device at this address.
fn is_of(unanswered: &Unanswered, address: u8, number: u8) -> bool
    ensures { result ≡ is_of address number unanswered.now }
{
    unanswered.address == address && unanswered.number == number
}

/// Whether an endpoint has acknowledged nothing since it left a packet without an answer.
fn is_unanswered(left: &[Unanswered], address: u8, number: u8) -> bool
    ensures { result ≡ is_unanswered left.now address number }
{
    left.iter()
        .any(|unanswered| is_of(unanswered, address, number))
}

/// Whether the toggle is not the one that was sent; false if that one is not known.
fn is_other(toggle: Toggle, sent: Option<Toggle>) -> bool
    ensures { result ≡ is_other toggle sent }
{
    match sent {
        None => false,
        Some(sent) => !sent.is_same(toggle),
    }
}

/// Whether a packet to the destination is no retry of this one: same endpoint, other toggle
/// (8.6.4).
fn is_skipped(to: Destination, toggle: Toggle, unanswered: &Unanswered) -> bool
    ensures { result ≡ is_skipped to toggle unanswered.now }
{
    is_of(unanswered, to.address, to.number) && is_other(toggle, unanswered.toggle)
}

/// Whether the packet that an endpoint left without an answer had the other toggle.
fn has_skipped(left: &[Unanswered], to: Destination, toggle: Toggle) -> bool
    ensures { result ≡ list_any (is_skipped to toggle) left.now }
{
    left.iter()
        .any(|unanswered| is_skipped(to, toggle, unanswered))
}

/// Whether an OUT has another toggle than the packet before it that had no answer (8.6.4).
pub(crate) fn skips_retry(left: &[Unanswered], attempt: &Attempt) -> bool
    ensures { result ≡ skips_retry left.now attempt.now }
{
    match attempt {
        Attempt::Out { to, toggle, .. } => has_skipped(left, *to, *toggle),
        Attempt::Setup { .. } | Attempt::In { .. } => false,
    }
}

fn is_ack(outcome: &Outcome) -> bool
    ensures { result ≡ is_ack outcome.now }
{
    match outcome {
        Outcome::Ack => true,
        _ => false,
    }
}

/// Whether the endpoint is not endpoint 0, and neither of them left a packet without an answer.
fn is_sure(left: &[Unanswered], to: Destination) -> bool
    ensures { result ≡ is_sure left.now to }
{
    to.number != 0
        && !is_unanswered(left, to.address, to.number)
        && !is_unanswered(left, to.address, 0)
}

/// Whether the host got ACK for data that the device did not take, and not because they came again
/// (8.6).
pub(crate) fn is_dropped(
    left: &[Unanswered],
    attempt: &Attempt,
    outcome: &Outcome,
    took: bool,
) -> bool
    ensures { result ≡ is_dropped left.now attempt.now outcome.now took }
{
    match attempt {
        Attempt::Out { to, bytes, .. } => {
            is_ack(outcome) && !took && !bytes.is_empty() && is_sure(left, *to)
        }
        Attempt::Setup { .. } | Attempt::In { .. } => false,
    }
}

/// Notes an attempt and its outcome.
pub(crate) fn note(
    left: &mut Vec<Unanswered>,
    attempt: &Attempt,
    outcome: &Outcome,
) -> Result<(), AllocError>
    ensures { OnOk result
        (left.new.items ≡ after_attempt left.old.items attempt.now outcome.now) }
{
    note_token(left, attempt);
    note_answer(left, left_by(attempt), outcome)
}

/// Notes a SETUP, which may begin the toggles of a device anew.
fn note_token(left: &mut Vec<Unanswered>, attempt: &Attempt)
    ensures { left.new.items ≡ after_token left.old.items attempt.now }
{
    if let Attempt::Setup { to, .. } = attempt {
        forget_toggles(left.as_mut_slice(), to.address);
    }
}

/// Forgets the toggles of all packets without an answer that went to the address.
fn forget_toggles(left: &mut [Unanswered], address: u8)
    ensures { left.new ≡ map (toggle_forgotten address) left.old }
{
    if let Some((first, rest)) = left.split_first_mut() {
        forget_toggle(first, address);
        forget_toggles(rest, address);
    }
}

/// Forgets the toggle of one of them, if it went to the address.
fn forget_toggle(unanswered: &mut Unanswered, address: u8)
    ensures { unanswered.new ≡ toggle_forgotten address unanswered.old }
{
    if unanswered.address == address {
        unanswered.toggle = None;
    }
}

/// Notes the outcome of an attempt that leaves an endpoint so if it has no answer.
fn note_answer(
    left: &mut Vec<Unanswered>,
    unanswered: Option<Unanswered>,
    outcome: &Outcome,
) -> Result<(), AllocError>
    ensures { OnOk result
        (left.new.items ≡ after_answer left.old.items unanswered outcome.now) }
{
    let Some(unanswered) = unanswered else {
        return Ok(());
    };
    match outcome {
        Outcome::Nothing => {
            remove(left, unanswered.address, unanswered.number);
            left.push(unanswered)?;
        }
        Outcome::Ack => remove(left, unanswered.address, unanswered.number),
        Outcome::Payload(..) | Outcome::Nak | Outcome::Stall => {}
    }
    Ok(())
}

/// The endpoint that an attempt leaves without an answer, if it is one that is kept.
fn left_by(attempt: &Attempt) -> Option<Unanswered>
    ensures { result ≡ left_by attempt.now }
{
    match attempt {
        Attempt::Setup { to, .. } => Some(unanswered(*to, None)),
        Attempt::Out { to, toggle, .. } => Some(unanswered(*to, Some(*toggle))),
        Attempt::In { to } => {
            if to.number == 0 {
                Some(unanswered(*to, None))
            } else {
                None
            }
        }
    }
}

/// What is kept of a packet to the destination that had no answer; the toggle is that of an OUT.
fn unanswered(to: Destination, toggle: Option<Toggle>) -> Unanswered
    ensures { result ≡ unanswered to toggle }
{
    Unanswered {
        address: to.address,
        number: to.number,
        toggle,
    }
}

/// Removes what is kept of an endpoint.
fn remove(left: &mut Vec<Unanswered>, address: u8, number: u8)
    ensures { left.new.items ≡ without address number left.old.items }
{
    left.retain(|unanswered| !is_of(unanswered, address, number));
}
