//! The numbers of a path, in place: 8 bytes, which are copied at once.
ghost use Rattle.std.specs.Prelude.{◌≡◌, ◌-◌, ◌<◌, ◌++◌, [], ◌∷◌, length, take};

use std::marker::Model;

/// Up to 7 numbers. What is at a place from `len` on counts for nothing.
#[derive(Debug, Drop)]
pub(crate) struct Numbers {
    row: [u8; 7],
    len: u8,
}

impl Model for Numbers {
    ghost use Rattle.std.specs.Prelude.{◌≡◌, ◌≤◌, List, ℕ, length, take};

    ghost Value = { List ℕ };

    ghost view = { λ n. take n.len n.row };

    ghost invariant = { λ n. (length n.row ≡ 7) × (n.len ≤ 7) };
}

impl Numbers {
    /// No numbers.
    pub fn none() -> Self
        ensures { result ≡ [] }
    {
        Numbers {
            row: [0; 7],
            len: 0,
        }
    }

    /// How many there are.
    pub fn len(&self) -> usize
        ensures { result ≡ length self.now }
    {
        usize::from(self.len)
    }

    /// The numbers.
    pub fn as_slice(&self) -> &[u8]
        ensures { result.now ≡ self.now }
    {
        &self.row[..usize::from(self.len)]
    }

    /// Adds one.
    pub fn push(&mut self, number: u8)
        requires { length self.old < 7 }
        ensures { self.new ≡ self.old ++ number ∷ [] }
    {
        self.row[usize::from(self.len)] = number;
        self.len += 1;
    }

    /// The same numbers.
    pub fn duplicate(&self) -> Self
        ensures { result ≡ self.now }
    {
        Numbers {
            row: self.row,
            len: self.len,
        }
    }

    /// The same without the last one.
    pub fn without_last(&self) -> Self
        requires { 0 < length self.now }
        ensures { result ≡ take (length self.now - 1) self.now }
    {
        Numbers {
            row: self.row,
            len: self.len - 1,
        }
    }
}
