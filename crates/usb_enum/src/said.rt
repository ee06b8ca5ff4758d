//! What a device said of itself.
ghost use Rattle.std.specs.Prelude.{◌≡◌, take};

use arrayvec::ArrayVec;

/// Keeps the bytes of an answer, 18 at most, in place of those of an earlier one.
pub(crate) fn keep(said: &mut ArrayVec<u8, 18>, bytes: &[u8])
    ensures { said.new.items ≡ take 18 bytes.now }
{
    let most = bytes.len().min(18);
    said.clear();
    said.try_extend_from_slice(&bytes[..most]).unwrap();
}
