//! Address losses: how often a device did not see the host's ACK at which it was to take its address (9.4.6).
ghost use Rattle.std.specs.Prelude.{◌≡◌, ◌+◌, ◌<◌, ◌^◌};
ghost use Rattle.usb_world.specs.Losses.{no_losses, one_more, counted, after_clearing};

/// Address losses. A stretch of them begins when a change of connection is cleared.
#[derive(Clone, Copy, Debug)]
pub struct Losses {
    /// How many in all.
    pub all: u32,
    /// How many in this stretch.
    pub run: u32,
    /// How many in the worst stretch.
    pub worst: u32,
}

impl Losses {
    /// None.
    pub fn none() -> Self
        ensures { result ≡ no_losses }
    {
        Losses {
            all: 0,
            run: 0,
            worst: 0,
        }
    }

    #[tactic(auto, unfolding(crate::specs::Losses::one_more))]
    fn one_more(self) -> Self
        requires all { self.all + 1 < 2 ^ 32 }
        requires run { self.run + 1 < 2 ^ 32 }
        ensures { result ≡ one_more self }
    {
        let run = self.run + 1;
        Losses {
            all: self.all + 1,
            run,
            worst: self.worst.max(run),
        }
    }

    /// A new stretch when a change of connection is cleared.
    pub fn after_clearing(self, cleared: bool) -> Self
        ensures { result ≡ after_clearing cleared self }
    {
        if cleared {
            Losses { run: 0, ..self }
        } else {
            self
        }
    }

    /// Counts what an attempt did: a new stretch if it cleared a change of connection, then one more if an address
    /// was lost.
    pub fn count(&mut self, cleared: bool, lost: bool)
        requires all { self.old.all + 1 < 2 ^ 32 }
        requires run { self.old.run + 1 < 2 ^ 32 }
        ensures { self.new ≡ counted lost (after_clearing cleared self.old) }
    {
        if cleared {
            self.run = 0;
        }
        if lost {
            *self = self.one_more();
        }
    }
}
