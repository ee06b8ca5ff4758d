//! What is wrong with a line of a listing.
use thiserror::Error;

/// Why a line says nothing of a port.
#[derive(Clone, Copy, Debug, PartialEq, Eq, Error)]
pub enum ListingFault {
    /// No line of a listing has these words.
    #[error("no line of a listing")]
    NoLine,
    /// The first word is no path.
    #[error("bad path")]
    BadPath,
    /// In the place of a number is none, or one over 255.
    #[error("bad number")]
    BadNumber,
    /// In the place of a speed is neither `full` nor `low`.
    #[error("bad speed")]
    BadSpeed,
    /// In the place of bytes are neither pairs of digits nor a dash.
    #[error("bad hex")]
    BadHex,
    /// It speaks of another port than the device before it.
    #[error("no device before it")]
    NoDevice,
    /// Memory was refused.
    #[error("out of memory")]
    Memory,
}
