//! What devices said of themselves.
use std::alloc::{AllocError, Global};
use std::marker::Model;

/// What the devices of a listing's entries said of themselves, in the order of the entries: the bytes of its device
/// descriptor that each one gave. It may be of none of them.
#[derive(Debug, Drop)]
pub struct Said {
    texts: Vec<Vec<u8>>,
}

impl Model for Said {
    ghost use Rattle.std.specs.Prelude.{List, ℕ, map};

    ghost Value = { List (List ℕ) };

    ghost view = { λ s. map (λ text. text.items) s.texts.items };
}

impl Said {
    ghost use Rattle.std.specs.Prelude.{◌≡◌, [], ◌∷◌, ◌++◌, get_or, OnOk};

    /// Of no device.
    pub fn none(alloc: Global) -> Self
        ensures { result ≡ [] }
    {
        Said {
            texts: Vec::new(alloc),
        }
    }

    /// What the device of the entry of this index said: nothing where it is not kept.
    pub fn of(&self, index: usize) -> &[u8]
        ensures { result.now ≡ get_or self.now index [] }
    {
        match self.texts.as_slice().get(index) {
            Some(text) => text.as_slice(),
            None => &[],
        }
    }

    /// Adds what the device of one more entry said.
    ///
    /// # Errors
    ///
    /// Memory was refused.
    pub fn push(&mut self, alloc: Global, bytes: &[u8]) -> Result<(), AllocError>
        ensures { OnOk result (self.new ≡ self.old ++ bytes.now ∷ []) }
    {
        let text = bytes.to_vec(alloc)?;
        Ok(self.texts.push(text)?)
    }
}
