//! The program's exit status.
ghost use Rattle.std.specs.Prelude.{◌≡◌};
ghost use Rattle.usb_status.specs.Statuses.{bench_status, device_status, exit_status, explain_status, far_status, fault_status, line_status, live_status, pcap_status, places_status, serve_status};

use crate::fault::Fault;
use usb_bench::BenchFault;
use usb_entry::EntryFault;
use usb_explain::ExplainFault;
use usb_far::FarFault;
use usb_live::{LiveEnd, LiveFault};
use usb_pcap::PcapFault;
use usb_places::PlacesFault;
use usb_plan::PlanFault;
use usb_serve::{RunFault, ServeFault};
use usb_text::LineFault;
use usb_world::BusFault;

/// All was done.
const DONE: u8 = 0;

/// A plan, a packet, a run's text, a device's descriptors, a line of a host or of a far end are refused, or a host is
/// judged wrong.
const REFUSED: u8 = 1;

/// The words name no command.
const WORDS: u8 = 2;

/// The limit is reached.
const LIMIT: u8 = 3;

/// Memory, or input or output, failed.
const FAILED: u8 = 4;

/// The exit status of a program that ended so.
pub fn exit_status(outcome: Result<(), Fault>) -> u8
    ensures { result ≡ exit_status outcome }
{
    match outcome {
        Ok(()) => DONE,
        Err(fault) => fault_status(fault),
    }
}

/// The exit status of a fault, 1 to 4.
fn fault_status(fault: Fault) -> u8
    ensures { result ≡ fault_status fault }
{
    match fault {
        Fault::Words | Fault::NoText => WORDS,
        Fault::LongDevice | Fault::Refused | Fault::Judged => REFUSED,
        Fault::Closed => FAILED,
        Fault::Line(why) => line_status(why),
        Fault::Serve(why) => serve_status(why),
        Fault::Explain(why) => explain_status(why),
        Fault::Pcap(why) => pcap_status(why),
        Fault::Device(why) => device_status(why),
        Fault::Places(why) => places_status(why),
        Fault::Far(_, why) => far_status(why),
        Fault::Bench(_, why) => bench_status(why),
        Fault::Live(end) => live_status(end),
    }
}

/// 1 if the packet is refused, 4 if memory failed.
fn line_status(fault: LineFault) -> u8
    ensures { result ≡ line_status fault }
{
    match fault {
        LineFault::BadHex | LineFault::Packet(_) => REFUSED,
        LineFault::Memory => FAILED,
    }
}

/// 1 if the plan is refused, 3 at its limit, 4 if memory, input or output failed.
fn serve_status(fault: ServeFault) -> u8
    ensures { result ≡ serve_status fault }
{
    match fault {
        ServeFault::Plan(PlanFault::Memory) => FAILED,
        ServeFault::TooLong | ServeFault::Plan(_) => REFUSED,
        ServeFault::Run(RunFault::LimitReached) => LIMIT,
        ServeFault::Read | ServeFault::Run(_) | ServeFault::Write | ServeFault::Memory => FAILED,
    }
}

/// 1 if the run's text is refused, 4 if input or output failed.
fn explain_status(fault: ExplainFault) -> u8
    ensures { result ≡ explain_status fault }
{
    match fault {
        ExplainFault::Line(_) | ExplainFault::TooLong => REFUSED,
        ExplainFault::Read | ExplainFault::Write => FAILED,
    }
}

/// 1 if the run's text is refused, or has no attempt; 4 if input or output failed.
fn pcap_status(fault: PcapFault) -> u8
    ensures { result ≡ pcap_status fault }
{
    match fault {
        PcapFault::Line(_) | PcapFault::TooLong | PcapFault::NoAttempt => REFUSED,
        PcapFault::Read | PcapFault::Write => FAILED,
    }
}

/// 1 if the descriptors are refused, 4 if memory or output failed.
fn device_status(fault: EntryFault) -> u8
    ensures { result ≡ device_status fault }
{
    match fault {
        EntryFault::Write | EntryFault::Memory => FAILED,
        EntryFault::NoName
        | EntryFault::Empty
        | EntryFault::Device(_)
        | EntryFault::TooMany
        | EntryFault::Configuration(_, _)
        | EntryFault::Missing(_)
        | EntryFault::LeftOver(_) => REFUSED,
    }
}

/// 1 if a place is refused, else the status of the plan's fault.
fn places_status(fault: PlacesFault) -> u8
    ensures { result ≡ places_status fault }
{
    match fault {
        PlacesFault::When(_, _) | PlacesFault::Order(_) => REFUSED,
        PlacesFault::Plan(why) => serve_status(ServeFault::Plan(why)),
    }
}

/// 1 if a line of the host is refused, 3 at the limit, 4 if the host is gone or anything failed.
fn far_status(fault: FarFault) -> u8
    ensures { result ≡ far_status fault }
{
    match fault {
        FarFault::LineTooLong
        | FarFault::BadCharacter
        | FarFault::NoQuestion
        | FarFault::BadNumber
        | FarFault::LongSend => REFUSED,
        FarFault::Bus(BusFault::Limit) => LIMIT,
        FarFault::Read | FarFault::HostGone | FarFault::Bus(_) | FarFault::Write => FAILED,
    }
}

/// 1 if the places are of another plan, 3 if the host never rests, 4 if memory failed; else the
/// status of a line's fault.
fn bench_status(fault: BenchFault) -> u8
    ensures { result ≡ bench_status fault }
{
    match fault {
        BenchFault::Far(why) => far_status(why),
        BenchFault::NoRest => LIMIT,
        BenchFault::OtherPlan => REFUSED,
        BenchFault::Memory => FAILED,
    }
}

/// 1 if a line of the controller side is refused, 3 at a limit, 4 if memory, input or output
/// failed.
fn live_status(end: LiveEnd) -> u8
    ensures { result ≡ live_status end }
{
    match end {
        LiveEnd::Line(_, LiveFault::Line(_) | LiveFault::TooManyPushes) => REFUSED,
        LiveEnd::Line(_, LiveFault::LimitReached) | LiveEnd::Rounds(_) => LIMIT,
        LiveEnd::Line(_, LiveFault::Read | LiveFault::Gone | LiveFault::Write) | LiveEnd::Memory =>
            FAILED,
    }
}
