//! What a transaction brought.
use arrayvec::ArrayVec;
use std::marker::Model;

/// The data of an IN, at most 64 bytes; after a SETUP or an OUT, none.
#[derive(Debug, Drop)]
pub struct Done {
    bytes: ArrayVec<u8, 64>,
}

impl Model for Done {
    ghost use Rattle.std.specs.Prelude.{List, ℕ, ◌≤◌, length};

    ghost Value = { List ℕ };

    ghost view = { λ d. d.bytes.items };

    ghost invariant = { λ d. length d.bytes.items ≤ 64 };
}

impl Done {
    ghost use Rattle.std.specs.Prelude.{◌≡◌, ◌≤◌, [], length};

    /// No data.
    pub(crate) fn nothing() -> Self
        ensures { result ≡ [] }
    {
        Done {
            bytes: ArrayVec::new(),
        }
    }

    pub(crate) fn data(bytes: ArrayVec<u8, 64>) -> Self
        requires { length bytes.items ≤ 64 }
        ensures { result ≡ bytes.items }
    {
        Done { bytes }
    }

    /// The data.
    pub fn bytes(&self) -> &[u8]
        ensures value { result.now ≡ self.now }
        ensures most { length self.now ≤ 64 }
    {
        self.bytes.as_slice()
    }

    /// The data as a packet.
    pub fn into_packet(self) -> ArrayVec<u8, 64>
        ensures { result.items ≡ self }
    {
        let Done { bytes } = self;
        bytes
    }
}
