//! The whole text of a reader, up to the limit.
ghost use Rattle.std.specs.Prelude.{◌≡◌, ◌≢◌, ◌+◌, ◌≤◌, ◌<◌, Err, length, IfOk, IfSome, IsErrOf, true, false};
ghost use Rattle.std.specs.Io.KnownBytes.{Consumes};
ghost use Rattle.usb_watch.specs.Watch.{inner_of, has_failed, calls_of};
ghost use Rattle.usb_serve.specs.declared.input.InputFault.TheVariants.{Memory};

use std::alloc::{AllocError, Global};
use std::io::Read;
use thiserror::Error;
use usb_watch::Watched;

/// The longest text, in bytes.
pub const LIMIT: usize = 1_048_576;

/// Why a text was not read.
#[derive(Clone, Copy, Debug, PartialEq, Eq, Error)]
pub enum InputFault {
    /// The reader failed.
    #[error("read failed")]
    Read,
    /// The text is longer than the limit.
    #[error("plan too long")]
    TooLong,
    /// Memory was refused.
    #[error("out of memory")]
    Memory,
}

impl From<AllocError> for InputFault {
    ghost from_gives = { λ _ e. e ≡ Memory };

    fn from(_e: AllocError) -> InputFault {
        InputFault::Memory
    }
}

/// Reads all there is, in at most one read more than the limit's bytes.
///
/// # Errors
///
/// - `Read`: the reader failed, here or before.
/// - `TooLong`: there are more than the limit's bytes.
/// - `Memory`: memory was refused.
pub fn read_text<R: Read>(alloc: Global, reader: &mut Watched<R>) -> Result<Vec<u8>, InputFault>
    ensures ok { IfOk result (λ text. (length text.items ≤ 1048576)
        × IfSome (R.remaining (inner_of reader.old)) (λ xs. text.items ≡ xs)) }
    ensures too_long { IsErrOf result InputFault.TooLong
        → IfSome (R.remaining (inner_of reader.old)) (λ xs. 1048576 < length xs) }
    // Read is reported exactly if the reader has failed.
    ensures read { IsErrOf result InputFault.Read → has_failed reader.new ≡ true }
    ensures unmarked { (result ≢ Err InputFault.Read) → has_failed reader.new ≡ false }
    ensures calls { calls_of reader.new ≤ calls_of reader.old + 1048577 }
{
    if reader.failed() {
        return Err(InputFault::Read);
    }
    let mut text = Vec::new(alloc);
    let mut piece = [0u8; 16_384];
    'pieces: loop {
        match reader.read(&mut piece) {
            Err(_) => return Err(InputFault::Read),
            Ok(0) => return Ok(text),
            Ok(count) => {
                if count > LIMIT - text.len() {
                    return Err(InputFault::TooLong);
                }
                text.extend_from_slice(&piece[..count])?;
            }
        }
    }
}
