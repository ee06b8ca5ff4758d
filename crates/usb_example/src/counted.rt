//! A bus that counts what goes over another one.
ghost use Rattle.std.specs.Prelude.{◌≡◌, true, Some, IfOk, IfErr};
ghost use Rattle.usb_bus.specs.Traces.{Attempts, Spends};
ghost use Rattle.usb_world.specs.PlainAttempts.{attempt_data};
ghost use Rattle.usb_world.specs.Worlds.{FitsMaximum, IsAttempt};
ghost use Rattle.usb_example.specs.Counted.{counts_behind, counts_with, no_counts};

use std::fmt;
use usb_bus::{Attempt, Bus, BusFault, Outcome};

/// How many attempts were made, and how many of them each answer had. No count goes beyond the greatest `u64`.
#[derive(Clone, Copy, Debug, PartialEq, Eq)]
pub struct Counts {
    /// All of them.
    pub attempts: u64,
    /// The device was not ready.
    pub naks: u64,
    /// No good answer came.
    pub unanswered: u64,
}

impl Counts {
    /// With one attempt more.
    fn with(self, outcome: &Outcome) -> Counts
        ensures { result ≡ counts_with self outcome.now }
    {
        let attempts = self.attempts.saturating_add(1);
        match outcome {
            Outcome::Nak => Counts {
                attempts,
                naks: self.naks.saturating_add(1),
                ..self
            },
            Outcome::Nothing => Counts {
                attempts,
                unanswered: self.unanswered.saturating_add(1),
                ..self
            },
            Outcome::Payload(_, _) | Outcome::Ack | Outcome::Stall => Counts { attempts, ..self },
        }
    }
}

impl fmt::Display for Counts {
    fn fmt<W: fmt::Write>(&self, f: &mut fmt::Formatter<W>) -> fmt::Result {
        let Counts {
            attempts,
            naks,
            unanswered,
        } = *self;
        write!(
            f,
            "{attempts} attempts, {naks} NAKs, {unanswered} with no answer"
        )
    }
}

/// A bus, and the counts of what went over it.
#[derive(Drop)]
pub struct CountedBus<B: Bus> {
    bus: B,
    counts: Counts,
}

impl<B: Bus> CountedBus<B> {
    /// Over this bus, from now on.
    pub fn new(bus: B) -> Self
        ensures bus { result.bus ≡ bus }
        ensures none { result.counts ≡ no_counts }
    {
        CountedBus {
            bus,
            counts: Counts {
                attempts: 0,
                naks: 0,
                unanswered: 0,
            },
        }
    }

    /// What went over it so far.
    pub fn counts(&self) -> Counts
        ensures { result ≡ self.now.counts }
    {
        self.counts
    }
}

/// Its world and its trace are those of the bus below, so the contract of each call is the one that the call below
/// keeps. All that is proved of a host over any bus is so over this one.
impl<B: Bus> Bus for CountedBus<B> {
    ghost modelled = { B.modelled };

    ghost world = { λ counted. B.world counted.bus };

    ghost trace = { λ counted. B.trace counted.bus };

    ghost spent = { λ counted. B.spent counted.bus };

    ghost failed = { λ counted. B.failed counted.bus };

    ghost ports = { λ counted. B.ports counted.bus };

    fn attempt(&mut self, attempt: &Attempt) -> Result<Outcome, BusFault>
        requires { IsAttempt (attempt_data attempt.now) }
        ensures attempts { B.modelled ≡ true → Attempts (attempt_data attempt.now)
            (B.world self.old.bus) (B.trace self.old.bus) result (B.world self.new.bus)
            (B.trace self.new.bus) }
        ensures spends { Spends B.spent B.ports 1 self.old.bus self.new.bus }
        ensures fits { IfOk result (FitsMaximum (attempt_data attempt.now).max) }
        ensures told { IfErr result (λ fault. B.failed self.new.bus ≡ Some fault) }
        ensures counted { self.new.counts ≡ counts_behind self.old.counts result }
    {
        let result = self.bus.attempt(attempt);
        if let Ok(outcome) = &result {
            self.counts = self.counts.with(outcome);
        }
        result
    }

    fn root_ports(&self) -> u8 {
        self.bus.root_ports()
    }

    fn root_status(&self, port: u8) -> [u8; 4] {
        self.bus.root_status(port)
    }

    fn root_set(&mut self, port: u8, feature: u16) {
        self.bus.root_set(port, feature);
    }

    fn root_clear(&mut self, port: u8, feature: u16) {
        self.bus.root_clear(port, feature);
    }

    fn restart_endpoint(&mut self, address: u8, number: u8, is_in: bool) {
        self.bus.restart_endpoint(address, number, is_in);
    }

    ghost counted = { λ known counted. B.counted known counted.bus };

    ghost settled = { λ known counted. B.settled known counted.bus };

    ghost between = { λ known counted. B.between known counted.bus };
}
