//! Why the program did not do what its words ask for.
ghost use Rattle.std.specs.Prelude.{◌≡◌};
ghost use Rattle.usb_status.specs.declared.fault.Fault.TheVariants as fault;
ghost use Rattle.usb_serve.specs.declared.serving.ServeFault.TheVariants as serve;
ghost use Rattle.usb_serve.specs.ServeResults.{input_fault};
ghost use Rattle.usb_status.specs.Checks.{checked};

use std::alloc::{AllocError, AllocFailed};
use thiserror::Error;
use usb_bench::BenchFault;
use usb_diagnosis::{CheckFault, Verdict};
use usb_entry::EntryFault;
use usb_explain::ExplainFault;
use usb_far::FarFault;
use usb_live::LiveEnd;
use usb_pcap::PcapFault;
use usb_places::PlacesFault;
use usb_serve::{InputFault, ServeFault};
use usb_text::LineFault;

/// Why the program did not do what its words ask for.
#[derive(Clone, Copy, Debug, PartialEq, Eq, Error)]
pub enum Fault {
    /// The words name no command, or ask for the help or the version; what is to be said of them is written.
    #[error("no such command")]
    Words,
    /// A word is no text.
    #[error("error: invalid UTF-8 was detected in one or more arguments")]
    NoText,
    /// Digits give no line.
    #[error("{0}")]
    Line(LineFault),
    /// A text was not read, a plan was not served, or a line was not written.
    #[error("{0}")]
    Serve(ServeFault),
    /// A run was not written with its requests in words to its end.
    #[error("{0}")]
    Explain(ExplainFault),
    /// The packets of a run were not written to its end.
    #[error("{0}")]
    Pcap(PcapFault),
    /// The entry of a device was not written to its end.
    #[error("{0}")]
    Device(EntryFault),
    /// A device's file is longer than a plan may be.
    #[error("device: file too long")]
    LongDevice,
    /// A plan with places was not read.
    #[error("{0}")]
    Places(PlacesFault),
    /// A host was not answered to the end of its input, but up to the line of this number.
    #[error("line {0}: {1}")]
    Far(u64, FarFault),
    /// A host was not judged to the end of its input, but up to the line of this number.
    #[error("line {0}: {1}")]
    Bench(u64, BenchFault),
    /// A host was judged, and something was wrong; what it was is written.
    #[error("host judged wrong")]
    Judged,
    /// A far end was not asked to the end that it wants.
    #[error("{0}")]
    Live(LiveEnd),
    /// A plan is refused, and what is wrong with it is written.
    #[error("plan refused")]
    Refused,
    /// Nobody reads standard output any more; nothing is to be said of it.
    #[error("write failed")]
    Closed,
}

impl From<AllocError> for Fault {
    ghost from_gives = { λ _ e. e ≡ fault.Serve serve.Memory };

    fn from(_e: AllocError) -> Fault {
        Fault::Serve(ServeFault::Memory)
    }
}

impl<T: Drop> From<AllocFailed<T>> for Fault {
    ghost from_gives = { λ _ e. e ≡ fault.Serve serve.Memory };

    fn from(_e: AllocFailed<T>) -> Fault {
        Fault::Serve(ServeFault::Memory)
    }
}

impl From<LineFault> for Fault {
    ghost from_gives = { λ why e. e ≡ fault.Line why };

    fn from(why: LineFault) -> Fault {
        Fault::Line(why)
    }
}

impl From<InputFault> for Fault {
    ghost from_gives = { λ why e. e ≡ fault.Serve (input_fault why) };

    fn from(why: InputFault) -> Fault {
        Fault::Serve(ServeFault::from(why))
    }
}

impl From<ServeFault> for Fault {
    ghost from_gives = { λ why e. e ≡ fault.Serve why };

    fn from(why: ServeFault) -> Fault {
        Fault::Serve(why)
    }
}

impl From<ExplainFault> for Fault {
    ghost from_gives = { λ why e. e ≡ fault.Explain why };

    fn from(why: ExplainFault) -> Fault {
        Fault::Explain(why)
    }
}

impl From<PcapFault> for Fault {
    ghost from_gives = { λ why e. e ≡ fault.Pcap why };

    fn from(why: PcapFault) -> Fault {
        Fault::Pcap(why)
    }
}

impl From<EntryFault> for Fault {
    ghost from_gives = { λ why e. e ≡ fault.Device why };

    fn from(why: EntryFault) -> Fault {
        Fault::Device(why)
    }
}

impl From<PlacesFault> for Fault {
    ghost from_gives = { λ why e. e ≡ fault.Places why };

    fn from(why: PlacesFault) -> Fault {
        Fault::Places(why)
    }
}

impl From<(u64, FarFault)> for Fault {
    ghost from_gives = { λ why e. e ≡ fault.Far why.0 why.1 };

    fn from(why: (u64, FarFault)) -> Fault {
        Fault::Far(why.0, why.1)
    }
}

impl From<(u64, BenchFault)> for Fault {
    ghost from_gives = { λ why e. e ≡ fault.Bench why.0 why.1 };

    fn from(why: (u64, BenchFault)) -> Fault {
        Fault::Bench(why.0, why.1)
    }
}

impl From<LiveEnd> for Fault {
    ghost from_gives = { λ end e. e ≡ fault.Live end };

    fn from(end: LiveEnd) -> Fault {
        Fault::Live(end)
    }
}

/// What a look at a plan comes to: a plan that is refused is a fault, whose words are written.
///
/// # Errors
///
/// - `Refused`: the plan is refused.
/// - `Serve` with `Write` or `Memory`: the fault of `check`.
pub fn checked(look: Result<Verdict, CheckFault>) -> Result<(), Fault>
    ensures { result ≡ checked look }
{
    match look {
        Ok(Verdict::Plan) => Ok(()),
        Ok(Verdict::Refused(_)) => Err(Fault::Refused),
        Err(CheckFault::Write) => Err(Fault::Serve(ServeFault::Write)),
        Err(CheckFault::Memory) => Err(Fault::Serve(ServeFault::Memory)),
    }
}
