//! Lines with numbers and paths that no run reaches, and readings of texts that no line has.
use super::frail::{Frail, Trouble};
use arrayvec::ArrayVec;
use std::test::Fail;
use usb_bus::{Attempt, Destination, Outcome};
use usb_judge::{Cause, Judgement, Outs, Remark, data_line, empty_line, remark_line};
use usb_packet::{Speed, Toggle};
use usb_pcap::{PcapFault, capture};
use usb_port::PortPath;
use usb_verdict::{ListingFault, ReportedListing, Tally, fault_line, judgement_line, read_bytes};
use usb_watch::Watched;

const REMARKS: &[(Remark, &str)] = &[
    (Remark::TwoDevices, "wrong 12 address 3 two devices"),
    (Remark::OtherSpeed, "wrong 12 address 3 other speed"),
    (Remark::TooLong, "wrong 12 address 3 packet too long"),
    (Remark::OtherToggle, "wrong 12 address 3 toggle"),
    (Remark::SkippedRetry, "wrong 12 address 3 no retry"),
    (Remark::Nobody, "note 12 address 3 nobody"),
];

#[test]
fn remarks_are_lines(rt: HostRuntime) -> Result<(), Fail> {
    let alloc = rt.alloc();
    for (remark, line) in REMARKS {
        assert!(rt; remark_line(alloc, 12, 3, *remark)?.as_slice() == line.as_bytes());
    }
    if let Some(path) = PortPath::from_text("1.2") {
        let line = data_line(alloc, 12, &path)?;
        assert!(rt; line.as_slice() == b"wrong 12 1.2 other data".as_slice());
    }
    let line = empty_line(alloc, 12, 3)?;
    assert!(rt; line.as_slice() == b"note 12 port 3 empty".as_slice());
    Ok(())
}

const CAUSES: &[(u64, &str, Cause, &str)] = &[
    (0, "1", Cause::TooMuchPower, "wrong 0 1 too much power"),
    (
        u64::MAX,
        "15.15.15.15.15.15.15",
        Cause::LeftEnabled,
        "wrong 18446744073709551615 15.15.15.15.15.15.15 left enabled",
    ),
];

#[test]
fn judgements_are_lines(rt: HostRuntime) -> Result<(), Fail> {
    for (attempts, path, cause, wanted) in CAUSES {
        let Some(path) = PortPath::from_text(path) else {
            continue;
        };
        let judgement = Judgement {
            path,
            cause: *cause,
        };
        let line = judgement_line(rt.alloc(), *attempts, &judgement)?;
        assert!(rt; line.as_slice() == wanted.as_bytes(), "{wanted}");
    }
    let line = fault_line(rt.alloc(), 12, ListingFault::Memory)?;
    assert!(rt; line.as_slice() == b"wrong 12 listing: out of memory".as_slice());
    let most = Tally {
        right: u64::MAX,
        wrong: u64::MAX,
    };
    let line = most.with(&[]).with_fault().line(rt.alloc())?;
    let wanted = "18446744073709551615 listings right, 18446744073709551615 wrong";
    assert!(rt; line.as_slice() == wanted.as_bytes());
    Ok(())
}

/// The line that ends a listing is none of its lines, and a word of no digits spells no bytes.
#[test]
fn what_no_line_of_a_listing_has(rt: HostRuntime) -> Result<(), Fail> {
    let mut listing = ReportedListing::new(rt.alloc());
    let taken = listing.take(rt.alloc(), "end");
    assert!(rt; matches!(taken, Err(ListingFault::NoLine)) && listing.ports().is_empty());
    assert!(rt; matches!(read_bytes(rt.alloc(), ""), Err(ListingFault::BadHex)));
    Ok(())
}

/// A packet whose ACK was lost is sent again. A NAK does not tell that it was not taken, so what comes after is not
/// judged.
#[test]
fn a_nak_leaves_a_packet_without_an_answer(rt: HostRuntime) -> Result<(), Fail> {
    let mut bytes = ArrayVec::new();
    let _ = bytes.try_extend_from_slice(&[7; 4]);
    let attempt = Attempt::Out {
        to: Destination {
            address: 3,
            number: 2,
            speed: Speed::Full,
            max: 64,
        },
        toggle: Toggle::Zero,
        bytes,
    };
    let mut outs = Outs::new(rt.alloc());
    for (outcome, taken) in [
        (Outcome::Nothing, 12),
        (Outcome::Nothing, 12),
        (Outcome::Nak, 8),
        (Outcome::Ack, 8),
    ] {
        assert_eq!(rt; outs.before(&attempt), None);
        assert_eq!(rt; outs.after(&attempt, &outcome, 8, taken)?, None);
    }
    Ok(())
}

#[test]
fn a_pcap_file_without_room(rt: HostRuntime) {
    let mut reader = Watched::new("1 IN 0.0 / NAK\n".as_bytes());
    let mut writer = Watched::new(Frail {
        taken: Vec::new(rt.alloc()),
        at_once: 1,
        writes_left: 30,
        trouble: Trouble::Fails,
    });
    let fault = capture(&mut reader, &mut writer).err();
    assert_eq!(rt; fault, Some(PcapFault::Write));
}
