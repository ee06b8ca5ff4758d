//! A drawing, where its writer fails after n bytes: what went out of it, and the fault that is reported.
use super::frail::Narrow;
use super::plans::{PLUG_THERMOMETER, THERMOMETER};
use std::alloc::Global;
use std::test::Fail;
use usb_drawing::{Style, draw};
use usb_serve::ServeFault;
use usb_watch::Watched;

/// A function at a root port, and what is drawn of it.
const PLAN: &[&str] = &["limit = 10000\nroots = 1\n", THERMOMETER, PLUG_THERMOMETER];

const LINES: &str = "listing 1
└─ 1  address 1    full  1234:5678 vendor-specific  100 of 500 mA
";

/// Whether a writer of this room has exactly a prefix of the drawing, and is reported to have failed if that is not
/// all.
fn is_front(alloc: Global, plan: &str, room: usize) -> bool {
    let mut reader = Watched::new(plan.as_bytes());
    let mut writer = Watched::new(Narrow {
        taken: Vec::new(alloc),
        room,
    });
    let ended = draw(alloc, Style::Lines, &mut reader, &mut writer);
    let failed = writer.failed();
    let wanted = if room < LINES.len() {
        Err(ServeFault::Write)
    } else {
        Ok(())
    };
    let front = LINES.as_bytes().get(..room.min(LINES.len()));
    ended == wanted
        && failed == wanted.is_err()
        && front == Some(writer.into_inner().taken.as_slice())
}

#[test]
fn a_full_writer_has_a_front_of_the_text(rt: HostRuntime) -> Result<(), Fail> {
    let plan = PLAN.concat(rt.alloc())?;
    for room in 0..=LINES.len() {
        let holds = is_front(rt.alloc(), plan.as_str(), room);
        assert!(rt; holds, "{room} bytes");
    }
    Ok(())
}
