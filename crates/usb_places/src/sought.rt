//! A place that is sought in a host's run.

ghost use Rattle.std.specs.Prelude.{◌≡◌, ◌≤◌, is_some, map, option_map};
ghost use Rattle.usb_world.specs.{attempt_most};
ghost use Rattle.usb_places.specs.Places.{asks_status, found_in, goes_on, is_at, is_attempt, is_met, is_moment, is_wait, left_after, number_at, request_met, resets, same_moment, seen_by, stands, starts, suits};

use crate::request::{Asked, is_asked};
use crate::seen::{Deed, Seen};
use crate::transfer::{Transfer, begins};
use crate::when::{Moment, Sign, When};
use std::alloc::{AllocError, Global};
use std::marker::Model;
use usb_port::{PortCall, PortPath};
use usb_request::Setup;
use usb_world::Damage;

/// The most attempts between two events.
const LONGEST_WAIT: u64 = 1_000_000_000;

/// What comes at a place.
#[derive(Clone, Copy, Debug)]
pub(crate) enum Whose {
    /// The event behind this number of others.
    Event(u64),
    /// A damage, with an attempt that says nothing.
    Damage(Damage),
}

/// A place that is sought.
#[derive(Debug, Drop)]
pub(crate) struct Sought {
    /// What comes there.
    pub(crate) whose: Whose,
    pub(crate) when: When,
    /// How many more times the host has to do what it does there.
    pub(crate) left: u64,
    /// Once it is found: of an event how many attempts it comes after the one before, of a damage its attempt.
    pub(crate) found: Option<u64>,
}

/// Whether a device's path is this one.
fn is_at(device: &PortPath, path: Option<&PortPath>) -> bool
    ensures { result ≡ is_at device.now (option_map (λ p. p.now) path.entry) }
{
    match path {
        None => false,
        Some(path) => device.numbers() == path.numbers(),
    }
}

/// Whether it is a counted request of the device.
fn suits(asked: Asked, device: &PortPath, setup: Setup, path: Option<&PortPath>) -> bool
    ensures { result ≡ suits asked device.now setup (option_map (λ p. p.now) path.entry) }
{
    is_asked(asked, setup) && is_at(device, path)
}

/// Whether a counted request of the device begins.
#[tactic(auto, unfolding(crate::specs::Places::starts))]
fn starts(asked: Asked, device: &PortPath, transfer: Option<&Transfer>, deed: &Deed) -> bool
    ensures { result ≡ starts asked device.now (option_map (λ t. t.now) transfer.entry) deed.now }
{
    match deed {
        Deed::Attempt(tried, path) => match begins(transfer, *tried) {
            None => false,
            Some(setup) => suits(asked, device, setup, path.as_ref()),
        },
        Deed::Call(_, _) | Deed::Status(_) | Deed::Wait => false,
    }
}

/// Whether two moments of an attempt are the same.
fn same_moment(one: Moment, other: Moment) -> bool
    ensures { result ≡ same_moment one other }
{
    match (one, other) {
        (Moment::Token, Moment::Token)
        | (Moment::Data, Moment::Data)
        | (Moment::Answer, Moment::Answer)
        | (Moment::After, Moment::After) => true,
        _ => false,
    }
}

/// Whether a part of a transfer begins, and it is this one.
fn is_moment(moment: Moment, begun: Option<Moment>) -> bool
    ensures { result ≡ is_moment moment begun }
{
    match begun {
        None => false,
        Some(begun) => same_moment(moment, begun),
    }
}

/// Whether this part of a counted request of the device begins.
#[tactic(auto, unfolding(crate::specs::Places::goes_on))]
fn goes_on(
    moment: Moment,
    asked: Asked,
    device: &PortPath,
    transfer: Option<&Transfer>,
    deed: &Deed,
) -> bool
    ensures { result ≡ goes_on moment asked device.now (option_map (λ t. t.now) transfer.entry)
        deed.now }
{
    match transfer {
        None => false,
        Some(transfer) => {
            is_moment(moment, transfer.moment_in(deed))
                && suits(asked, device, transfer.setup, transfer.path.as_ref())
        }
    }
}

/// Whether this part of a counted request of the device begins; the token begins the request
/// itself.
#[tactic(auto, unfolding(crate::specs::Places::request_met))]
fn request_met(
    moment: Moment,
    asked: Asked,
    device: &PortPath,
    transfer: Option<&Transfer>,
    deed: &Deed,
) -> bool
    ensures { result ≡ request_met moment asked device.now
        (option_map (λ t. t.now) transfer.entry) deed.now }
{
    match moment {
        Moment::Token => starts(asked, device, transfer, deed),
        Moment::Data | Moment::Answer | Moment::After => {
            goes_on(moment, asked, device, transfer, deed)
        }
    }
}

/// Whether it is a reset of the root port.
fn resets(port: u8, deed: &Deed) -> bool
    ensures { result ≡ resets port deed.now }
{
    match deed {
        Deed::Call(called, PortCall::SetReset) => *called == port,
        _ => false,
    }
}

/// Whether it reads the status of the root port.
fn asks_status(port: u8, deed: &Deed) -> bool
    ensures { result ≡ asks_status port deed.now }
{
    match deed {
        Deed::Status(read) => *read == port,
        _ => false,
    }
}

/// Whether the host waits.
fn is_wait(deed: &Deed) -> bool
    ensures { result ≡ is_wait deed.now }
{
    matches!(deed, Deed::Wait)
}

/// Whether the host makes an attempt.
fn is_attempt(deed: &Deed) -> bool
    ensures { result ≡ is_attempt deed.now }
{
    matches!(deed, Deed::Attempt(_, _))
}

/// Whether the host does what the sign says.
#[tactic(auto, unfolding(crate::specs::Places::is_met))]
fn is_met(sign: &Sign, transfer: Option<&Transfer>, deed: &Deed) -> bool
    ensures { result ≡ is_met sign.now (option_map (λ t. t.now) transfer.entry) deed.now }
{
    match sign {
        Sign::Request {
            asked,
            device,
            moment,
        } => request_met(*moment, *asked, device, transfer, deed),
        Sign::Reset(port) => resets(*port, deed),
        Sign::Status(port) => asks_status(*port, deed),
        Sign::Wait => is_wait(deed),
    }
}

/// Whether the place of this is right before that, once its sign was met often enough.
#[tactic(auto, unfolding(crate::specs::Places::stands))]
fn stands(whose: Whose, reached: bool, seen: &Seen) -> bool
    ensures { result ≡ stands whose reached seen.now }
{
    let here = reached && is_attempt(&seen.deed);
    match whose {
        Whose::Event(before) => {
            seen.taken == before && seen.since <= LONGEST_WAIT && (is_wait(&seen.deed) || here)
        }
        Whose::Damage(_) => here,
    }
}

/// The number of the place there.
#[tactic(auto, unfolding(crate::specs::Places::number_at))]
fn number_at(whose: Whose, seen: &Seen) -> u64
    requires { seen.now.attempts ≤ attempt_most }
    ensures { result ≡ number_at whose seen.now }
{
    match whose {
        Whose::Event(_) => seen.since,
        Whose::Damage(_) => seen.attempts + 1,
    }
}

/// How many more times after that.
#[tactic(auto, unfolding(crate::specs::Places::left_after))]
fn left_after(sign: &Sign, left: u64, transfer: Option<&Transfer>, deed: &Deed) -> u64
    ensures { result ≡ left_after sign.now left (option_map (λ t. t.now) transfer.entry) deed.now }
{
    if is_met(sign, transfer, deed) {
        left.saturating_sub(1)
    } else {
        left
    }
}

impl Sought {
    /// Sees what the host does, beside the transfer in progress.
    #[tactic(auto, unfolding(crate::specs::Places::seen_by))]
    fn see(&mut self, transfer: Option<&Transfer>, seen: &Seen)
        requires { seen.now.attempts ≤ attempt_most }
        ensures { self.new ≡ seen_by (option_map (λ t. t.now) transfer.entry) seen.now self.old }
    {
        self.left = left_after(&self.when.sign, self.left, transfer, &seen.deed);
        if self.found.is_none() && stands(self.whose, self.left == 0, seen) {
            self.found = Some(number_at(self.whose, seen));
        }
    }
}

/// Each of them sees it.
#[cycle(see_all)]
fn see_all(sought: &mut [Sought], transfer: Option<&Transfer>, seen: &Seen)
    requires { seen.now.attempts ≤ attempt_most }
    ensures { sought.new
        ≡ map (seen_by (option_map (λ t. t.now) transfer.entry) seen.now) sought.old }
{
    if let Some((first, rest)) = sought.split_first_mut() {
        first.see(transfer, seen);
        see_all(rest, transfer, seen);
    }
}

/// Whether the place was found.
fn is_found(sought: &Sought) -> bool
    ensures { result ≡ is_some sought.now.found }
{
    sought.found.is_some()
}

/// How many of the places were found.
fn found_in(sought: &[Sought]) -> usize
    ensures { result ≡ found_in sought.now }
{
    sought.iter().filter(|it| is_found(it)).count()
}

/// The places that are sought, first those of events, then those of damages.
#[derive(Debug, Drop)]
pub(crate) struct AllSought {
    sought: Vec<Sought>,
}

impl Model for AllSought {
    ghost use Rattle.std.specs.Prelude.{All, List};
    ghost use Rattle.usb_places.specs.declared.sought.Sought.{Sought};
    ghost use Rattle.usb_places.specs.Places.{IsGood};

    ghost Value = { List Sought };

    ghost view = { λ a. a.sought.items };

    ghost invariant = { λ a. All IsGood a.sought.items };
}

impl AllSought {
    ghost use Rattle.std.specs.Prelude.{◌∷◌, ◌++◌, [], All, OnErr, OnOk};
    ghost use Rattle.usb_places.specs.Places.{IsGood};

    /// None.
    pub(crate) fn new(alloc: Global) -> Self
        ensures { result ≡ [] }
    {
        AllSought {
            sought: Vec::new(alloc),
        }
    }

    /// The places in the order in which they were added.
    pub(crate) fn as_slice(&self) -> &[Sought]
        ensures value { result.now ≡ self.now }
        ensures good { All IsGood self.now }
    {
        self.sought.as_slice()
    }

    /// One more, at the end.
    ///
    /// # Errors
    ///
    /// Memory was refused, and nothing changes.
    pub(crate) fn push(&mut self, sought: Sought) -> Result<(), AllocError>
        requires { IsGood sought }
        ensures ok { OnOk result (self.new ≡ self.old ++ sought ∷ []) }
        ensures err { OnErr result (self.new ≡ self.old) }
    {
        Ok(self.sought.push(sought)?)
    }

    /// Each of them sees what the host does, beside the transfer in progress.
    pub(crate) fn see(&mut self, transfer: Option<&Transfer>, seen: &Seen)
        requires { seen.now.attempts ≤ attempt_most }
        ensures { self.new
            ≡ map (seen_by (option_map (λ t. t.now) transfer.entry) seen.now) self.old }
    {
        see_all(self.sought.as_mut_slice(), transfer, seen);
    }

    /// How many of them are found.
    pub(crate) fn found(&self) -> usize
        ensures { result ≡ found_in self.now }
    {
        found_in(self.sought.as_slice())
    }
}
