//! How many listings were right.
ghost use Rattle.std.specs.Prelude.{◌≡◌, IfOk, length};
ghost use Rattle.usb_verdict.specs.Texts.{counted, no_listings, tally_text, with_wrong};

use crate::text::push_decimal;
use std::alloc::{AllocError, Global};
use usb_judge::Judgement;

/// How many listings were right, and how many were wrong. Each number stays at 2^64 - 1.
#[derive(Clone, Copy, Debug, PartialEq, Eq)]
pub struct Tally {
    /// Those without a judgement.
    pub right: u64,
    /// The others.
    pub wrong: u64,
}

/// Room for a line, in bytes.
const ROOM: usize = 64;

impl Tally {
    /// No listings.
    pub fn new() -> Self
        ensures { result ≡ no_listings }
    {
        Tally { right: 0, wrong: 0 }
    }

    /// With one listing more, which has these judgements: right if it has none.
    pub fn with(self, judgements: &[Judgement]) -> Self
        ensures { result ≡ counted (length judgements.now) self }
    {
        if judgements.is_empty() {
            Tally {
                right: self.right.saturating_add(1),
                ..self
            }
        } else {
            self.with_fault()
        }
    }

    /// With one listing more that has a fault: a wrong one.
    pub fn with_fault(self) -> Self
        ensures { result ≡ with_wrong self }
    {
        Tally {
            wrong: self.wrong.saturating_add(1),
            ..self
        }
    }

    /// `N listings right, M wrong`.
    ///
    /// # Errors
    ///
    /// Memory was refused.
    #[tactic(auto, unfolding(crate::specs::Texts::tally_text))]
    pub fn line(&self, alloc: Global) -> Result<Vec<u8>, AllocError>
        ensures { IfOk result (λ line. line.items ≡ tally_text self.now.right self.now.wrong) }
    {
        let mut line = Vec::with_capacity(alloc, ROOM)?;
        push_decimal(alloc, &mut line, self.right)?;
        line.extend_from_slice(b" listings right, ")?;
        push_decimal(alloc, &mut line, self.wrong)?;
        line.extend_from_slice(b" wrong")?;
        Ok(line)
    }
}
