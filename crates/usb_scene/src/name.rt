//! The name of a device, which is not empty.
ghost use Rattle.std.specs.Prelude.{◌≡◌, IfOk};

use std::alloc::{AllocError, Global};
use std::marker::Model;

/// A text that is not empty.
#[derive(Debug, Drop)]
pub struct Name {
    text: String,
}

impl Model for Name {
    ghost use Rattle.std.specs.Prelude.{List, ℕ, ◌<◌, length, string_bytes};

    ghost Value = { List ℕ };

    ghost view = { λ n. string_bytes n.text };

    ghost invariant = { λ n. 0 < length (string_bytes n.text) };
}

impl Name {
    ghost use Rattle.std.specs.Prelude.{◌<◌, length, string_bytes};

    /// The text itself.
    pub fn new(text: String) -> Self
        requires { 0 < length (string_bytes text) }
        ensures { result ≡ string_bytes text }
    {
        Name { text }
    }

    /// The text.
    pub fn as_str(&self) -> &str
        ensures value { result.now ≡ self.now }
        ensures not_empty { 0 < length self.now }
    {
        self.text.as_str()
    }

    /// The same text in memory of its own.
    ///
    /// # Errors
    ///
    /// Memory was refused.
    pub fn try_clone(&self, alloc: Global) -> Result<Self, AllocError>
        ensures { IfOk result (λ n. n ≡ self.now) }
    {
        Ok(Name {
            text: String::from_str(alloc, self.text.as_str())?,
        })
    }
}
