//! How long a transaction goes on.
ghost use Rattle.std.specs.Prelude.{◌≡◌, ◌+◌, ◌<◌, MatchResult};
ghost use Rattle.usb_transfer.specs.declared.trans_fault.TransFault.TheVariants.{Busy, NoAnswer};
ghost use Rattle.usb_transfer.specs.Transactions.{error_limit, wait_limit};
ghost use Rattle.usb_transfer.specs.HeardOutcomes.{heard_with};
ghost use Rattle.usb_transfer.specs.HeardTries.{HearsAs, moved_in};

use crate::TransFault;
use crate::heard_outcome::HeardKind;
use arrayvec::ArrayVec;

/// This number of errors in a row ends a transaction.
pub(crate) const ERROR_LIMIT: u8 = 3;

/// So many NAKs and discarded repeats together end it.
const WAIT_LIMIT: u16 = 256;

/// What a transaction does after an attempt.
#[derive(Clone, Copy, Debug)]
pub(crate) enum Turn {
    /// It is done: the packet was moved.
    Moved,
    /// It makes another attempt.
    Again,
}

/// The errors in a row, and the NAKs and discarded repeats together, of one transaction.
#[derive(Drop)]
pub(crate) struct Tries {
    errors: u8,
    waits: u16,
}

impl Tries {
    pub(crate) fn new() -> Self
        ensures { result ≡ record { errors = 0; waits = 0 } }
    {
        Tries {
            errors: 0,
            waits: 0,
        }
    }

    /// Hears what came of an attempt, whose bytes are in the room: the packet was moved, or another attempt is to be
    /// made.
    pub(crate) fn hear(
        &mut self,
        heard: HeardKind,
        _room: &ArrayVec<u8, 64>,
    ) -> Result<Turn, TransFault>
        requires errors { self.old.errors < error_limit }
        requires waits { self.old.waits < wait_limit }
        ensures { HearsAs self.old (heard_with heard _room.now) (moved_in result _room.now)
            self.new }
    {
        match heard {
            HeardKind::Moved => Ok(Turn::Moved),
            HeardKind::NotReady | HeardKind::Repeat => {
                self.wait()?;
                Ok(Turn::Again)
            }
            HeardKind::Refused => Err(TransFault::Stalled),
            HeardKind::Lost => {
                self.error()?;
                Ok(Turn::Again)
            }
        }
    }

    /// Counts an error, which may end the transaction.
    pub(crate) fn error(&mut self) -> Result<(), TransFault>
        requires { self.old.errors < error_limit }
        ensures count { self.new ≡ record self.old { errors = self.old.errors + 1 } }
        ensures end { MatchResult result (λ _. self.new.errors < error_limit)
            (λ fault. (fault ≡ NoAnswer) × (self.new.errors ≡ error_limit)) }
    {
        self.errors += 1;
        if self.errors == ERROR_LIMIT {
            return Err(TransFault::NoAnswer);
        }
        Ok(())
    }

    /// Counts a NAK or a discarded repeat, after which there are no errors in a row. It may end the
    /// transaction.
    pub(crate) fn wait(&mut self) -> Result<(), TransFault>
        requires { self.old.waits < wait_limit }
        ensures count { self.new ≡ record self.old { errors = 0; waits = self.old.waits + 1 } }
        ensures end { MatchResult result (λ _. self.new.waits < wait_limit)
            (λ fault. (fault ≡ Busy) × (self.new.waits ≡ wait_limit)) }
    {
        self.errors = 0;
        self.waits += 1;
        if self.waits == WAIT_LIMIT {
            return Err(TransFault::Busy);
        }
        Ok(())
    }
}
