//! The line and the exit status of each fault that no text brings about; `tests/status.rows` has the others.
use std::alloc::AllocError;
use std::test::Fail;
use usb_bus::BusFault;
use usb_diagnosis::CheckFault;
use usb_entry::EntryFault;
use usb_explain::ExplainFault;
use usb_far::FarFault;
use usb_live::LiveEnd;
use usb_pcap::PcapFault;
use usb_plan::PlanFault;
use usb_serve::{RunFault, ServeFault};
use usb_status::{Fault, checked, exit_status};
use usb_text::LineFault;

/// A fault, its line and its exit status.
type Row = (Fault, &'static str, u8);

const ROWS: [Row; 16] = [
    (
        Fault::NoText,
        "error: invalid UTF-8 was detected in one or more arguments",
        2,
    ),
    (Fault::Line(LineFault::Memory), "out of memory", 4),
    (
        Fault::Serve(ServeFault::Plan(PlanFault::Memory)),
        "out of memory",
        4,
    ),
    (
        Fault::Serve(ServeFault::Run(RunFault::Memory)),
        "out of memory",
        4,
    ),
    (
        Fault::Serve(ServeFault::Run(RunFault::TraceFailed)),
        "trace failed",
        4,
    ),
    (Fault::Serve(ServeFault::Write), "write failed", 4),
    (Fault::Serve(ServeFault::Memory), "out of memory", 4),
    (
        Fault::Explain(ExplainFault::TooLong),
        "explain: text too long",
        1,
    ),
    (Fault::Explain(ExplainFault::Write), "write failed", 4),
    (Fault::Pcap(PcapFault::TooLong), "pcap: text too long", 1),
    (Fault::Pcap(PcapFault::Write), "write failed", 4),
    (Fault::Closed, "write failed", 4),
    (Fault::Device(EntryFault::Write), "write failed", 4),
    (
        Fault::Far(2, FarFault::Bus(BusFault::Failed)),
        "line 2: trace failed",
        4,
    ),
    (Fault::Live(LiveEnd::Rounds(5)), "line 5: limit reached", 3),
    (Fault::Live(LiveEnd::Memory), "out of memory", 4),
];

#[test]
fn each_fault_has_its_line_and_its_status(rt: HostRuntime) -> Result<(), Fail> {
    for (fault, line, status) in ROWS {
        let told = format!(in rt.alloc(); "{fault}")?;
        assert_eq!(rt; (told.as_str(), exit_status(Err(fault))), (line, status));
    }
    assert_eq!(rt; exit_status(checked(Err(CheckFault::Write))), 4);
    assert_eq!(rt; exit_status(Err(Fault::from(AllocError))), 4);
    Ok(())
}
