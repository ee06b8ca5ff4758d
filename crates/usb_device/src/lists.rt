//! Bytes and texts of a device, with their bounds in their types.
ghost use Rattle.std.specs.Prelude.{◌≡◌, IfOk};

use crate::endpoint_spec::EndpointSpecs;
use crate::own_request::OwnRequests;
use std::alloc::{AllocError, Global};
use std::marker::Model;

/// At most `MAX` bytes.
#[derive(Debug, Drop)]
pub struct Bytes<const MAX: usize> {
    bytes: Vec<u8>,
}

impl<const MAX: usize> Model for Bytes<MAX> {
    ghost use Rattle.std.specs.Prelude.{List, ℕ, ◌≤◌, length};

    ghost Value = { List ℕ };

    ghost view = { λ b. b.bytes.items };

    ghost invariant = { λ b. length b.bytes.items ≤ MAX };
}

impl<const MAX: usize> Bytes<MAX> {
    ghost use Rattle.std.specs.Prelude.{◌≤◌, length};

    /// The bytes themselves.
    pub fn new(bytes: Vec<u8>) -> Self
        requires { length bytes.items ≤ MAX }
        ensures { result ≡ bytes.items }
    {
        Bytes { bytes }
    }

    /// The bytes in their order.
    pub fn as_slice(&self) -> &[u8]
        ensures value { result.now ≡ self.now }
        ensures bound { length self.now ≤ MAX }
    {
        self.bytes.as_slice()
    }

    /// The same bytes in memory of their own.
    ///
    /// # Errors
    ///
    /// Memory was refused.
    pub fn try_clone(&self, alloc: Global) -> Result<Self, AllocError>
        ensures { IfOk result (λ b. b ≡ self.now) }
    {
        Ok(Bytes {
            bytes: self.bytes.as_slice().to_vec(alloc)?,
        })
    }
}

fn copied<const MAX: usize>(
    alloc: Global,
    texts: &[Bytes<MAX>],
) -> Result<Vec<Bytes<MAX>>, AllocError>
    ensures { IfOk result (λ v. v.items ≡ texts.now) }
{
    let mut all = Vec::new(alloc);
    'texts: for text in texts {
        all.push(text.try_clone(alloc)?)?;
    }
    Ok(all)
}

/// At most `COUNT` texts of at most `MAX` bytes each.
#[derive(Debug, Drop)]
pub struct Texts<const COUNT: usize, const MAX: usize> {
    texts: Vec<Bytes<MAX>>,
}

impl<const COUNT: usize, const MAX: usize> Model for Texts<COUNT, MAX> {
    ghost use Rattle.std.specs.Prelude.{List, ℕ, ◌≤◌, length, All};

    ghost Value = { List (List ℕ) };

    ghost view = { λ t. t.texts.items };

    ghost invariant = { λ t. (length t.texts.items ≤ COUNT)
        × All (λ text. length text ≤ MAX) t.texts.items };
}

impl<const COUNT: usize, const MAX: usize> Texts<COUNT, MAX> {
    ghost use Rattle.std.specs.Prelude.{◌<◌, ◌≤◌, [], ◌∷◌, ◌++◌, length, All, OnOk, OnErr};

    /// No texts.
    pub fn new(alloc: Global) -> Self
        ensures { result ≡ [] }
    {
        Texts {
            texts: Vec::new(alloc),
        }
    }

    /// One text more, at the end.
    ///
    /// # Errors
    ///
    /// Memory was refused, and nothing changes.
    pub fn push(&mut self, text: Bytes<MAX>) -> Result<(), AllocError>
        requires { length self.old < COUNT }
        ensures ok { OnOk result (self.new ≡ self.old ++ text.entry ∷ []) }
        ensures err { OnErr result (self.new ≡ self.old) }
    {
        text.as_slice();
        Ok(self.texts.push(text)?)
    }

    /// The texts in their order.
    pub fn as_slice(&self) -> &[Bytes<MAX>]
        ensures value { result.now ≡ self.now }
        ensures bound { length self.now ≤ COUNT }
        ensures each { All (λ text. length text ≤ MAX) self.now }
    {
        self.texts.as_slice()
    }

    /// No texts, by the allocator of other ones.
    pub fn none_beside<const OTHERS: usize, const LONGEST: usize>(
        other: &Texts<OTHERS, LONGEST>,
    ) -> Self
        ensures { result ≡ [] }
    {
        Texts::new(*other.texts.allocator())
    }

    /// No bytes, by the allocator of the texts.
    pub fn no_bytes_beside<const LONGEST: usize>(&self) -> Bytes<LONGEST>
        ensures { result ≡ [] }
    {
        Bytes::new(Vec::new(*self.texts.allocator()))
    }

    /// No requests of a device's own, by the allocator of the texts.
    pub fn no_requests_beside(&self) -> OwnRequests
        ensures { result ≡ [] }
    {
        OwnRequests::new(*self.texts.allocator())
    }

    /// No endpoints that a plan describes, by the allocator of the texts.
    pub fn no_endpoints_beside(&self) -> EndpointSpecs
        ensures { result ≡ [] }
    {
        EndpointSpecs::new(*self.texts.allocator())
    }

    /// The same texts in memory of their own.
    ///
    /// # Errors
    ///
    /// Memory was refused.
    pub fn try_clone(&self, alloc: Global) -> Result<Self, AllocError>
        ensures { IfOk result (λ t. t ≡ self.now) }
    {
        Ok(Texts {
            texts: copied(alloc, self.texts.as_slice())?,
        })
    }
}

/// The texts of the configurations of a device (9.6.3), by their index: at most 8 of at most 65,535
/// bytes.
pub type ConfigTexts = Texts<8, 65535>;

/// The string descriptors of a device (9.6.7), by their index: at most 256 of at most 255 bytes.
pub type StringTexts = Texts<256, 255>;

/// The packets of an endpoint, in their order: at most 1,000 of at most 64 bytes.
pub type Packets = Texts<1000, 64>;
