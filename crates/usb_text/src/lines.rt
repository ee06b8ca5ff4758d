//! Lines of text.
use std::alloc::{AllocError, Global};
use std::marker::Model;

/// Lines in their order, without their newlines.
#[derive(Debug, Drop)]
pub struct Lines {
    lines: Vec<Vec<u8>>,
}

impl Model for Lines {
    ghost use Rattle.std.specs.Prelude.{List, ℕ, map};

    ghost Value = { List (List ℕ) };

    ghost view = { λ l. map (λ line. line.items) l.lines.items };
}

impl Lines {
    ghost use Rattle.std.specs.Prelude.{◌≡◌, [], ◌∷◌, ◌++◌, map, OnOk};

    /// No lines.
    pub fn new(alloc: Global) -> Self
        ensures { result ≡ [] }
    {
        Lines {
            lines: Vec::new(alloc),
        }
    }

    /// The lines in their order.
    pub fn as_slice(&self) -> &[Vec<u8>]
        ensures { map (λ line. line.items) result.now ≡ self.now }
    {
        self.lines.as_slice()
    }

    /// Adds a line at the end.
    ///
    /// # Errors
    ///
    /// Memory was refused.
    pub fn push(&mut self, line: Vec<u8>) -> Result<(), AllocError>
        ensures { OnOk result (self.new ≡ self.old ++ line.items ∷ []) }
    {
        Ok(self.lines.push(line)?)
    }
}
