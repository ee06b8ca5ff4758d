//! What is wrong with a line.
use thiserror::Error;

/// Why a line of the controller side says nothing, in the order in which the reasons are reported.
#[derive(Clone, Copy, Debug, PartialEq, Eq, Error)]
pub enum WireFault {
    /// It has more than 1,024 bytes.
    #[error("line too long")]
    LineTooLong,
    /// A byte is no printable ASCII.
    #[error("bad character")]
    BadCharacter,
    /// It is no answer to the question and no status of a root port, or has too many or too few
    /// words. Nor is a `control` with bytes whose request has none for the device, or one without
    /// whose request has some (9.3.1).
    #[error("no answer")]
    NoAnswer,
    /// In the place of bytes is neither pairs of hexadecimal digits nor a dash.
    #[error("bad hex")]
    BadHex,
    /// There are over 64 bytes of data, 500 to send, 490 to an endpoint that is named, or 480 to
    /// write; not 4 of a status, 8 of setup data, or wLength to write.
    #[error("bad length")]
    BadLength,
    /// In the place of a number is none, or one that is out of its range. Or in the place of an
    /// endpoint's address are no two upper-case digits of one (9.6.6).
    #[error("bad number")]
    BadNumber,
    /// In the place of a path is none: 1 to 7 numbers of ports, each 1 to 15, with dots between
    /// them.
    #[error("bad path")]
    BadPath,
}
