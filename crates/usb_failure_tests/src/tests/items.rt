//! What a run makes as values: its items, whose lines mode Tree writes, and its counts.
use super::plans::{BULK, HUB2, LOW};
use super::served::{ONE_FUNCTION, Plan, text_in};
use std::alloc::Global;
use std::test::Fail;
use usb_plan::read_plan;
use usb_run::{Mode, item_lines, number_of, run};

/// Each task, done and not done.
const TASKS: Plan = &[
    r#"limit = 10000
roots = 2
event = [
  { do = "plug", path = "1", device = "hub2" },
  { do = "plug", path = "1.1", device = "low" },
  { do = "plug", path = "1.2", device = "bulk" },
  { do = "send", path = "1.2", bytes = "010203" },
  { do = "send", path = "1.2", bytes = "04", endpoint = 2 },
  { do = "send", path = "1", bytes = "05" },
  { do = "receive", path = "1.2", packets = 1 },
  { do = "receive", path = "1.2", packets = 0, endpoint = 0x82 },
  { do = "receive", path = "2", packets = 1 },
  { do = "clear", path = "1.2" },
  { do = "clear", path = "1.2", endpoint = 2 },
  { do = "clear", path = "1.1" },
  { do = "interrupt", path = "1.1", endpoint = 0x81 },
  { do = "interface", path = "1.1", interface = 0, setting = 0 },
  { do = "interface", path = "1.1", interface = 0, setting = 1 },
  { do = "control", path = "1.1", setup = "8000000000000200" },
  { do = "control", path = "1.1", setup = "0009010000000000" },
  { do = "look", path = "1.1" },
  { do = "look", path = "2" },
  { do = "news" },
  { do = "show", said = true },
]
"#,
    HUB2,
    LOW,
    BULK,
];

/// The lines of the items of a plan's run.
fn lines_of_items(alloc: Global, text: &str) -> Result<Vec<u8>, Fail> {
    let plan = read_plan(alloc, text)?;
    let report = run(alloc, &plan)?;
    let mut written = Vec::new(alloc);
    let mut number = 0;
    for item in &report.items {
        number = number_of(item, number);
        for line in item_lines(alloc, number, item)?.as_slice() {
            written.extend_from_slice(line.as_slice())?;
            written.push(b'\n')?;
        }
    }
    Ok(written)
}

#[test]
fn the_items_of_a_run_are_its_lines(rt: HostRuntime) -> Result<(), Fail> {
    for parts in [ONE_FUNCTION, TASKS] {
        let plan = parts.concat(rt.alloc())?;
        let tree = text_in(rt.alloc(), plan.as_str(), Mode::Tree)?;
        let items = lines_of_items(rt.alloc(), plan.as_str())?;
        let rest = tree
            .as_bytes()
            .strip_prefix(items.as_slice())
            .unwrap_or(b"other lines");
        assert!(rt; rest.starts_with(b"bound "), "{tree}");
    }
    Ok(())
}

/// How many damages of the last handshake of SET_ADDRESS there are in a row, and how many attempts the run makes.
const LOSSES: [(usize, u64); 3] = [(1, 24), (2, 32), (3, 24)];

/// Damages at the last handshakes of the attempts that SET_ADDRESS ends in.
const LOSE: [&str; 3] = [
    "\n[[damage]]\nattempt = 5\npacket = 3\nhow = \"lose\"\n",
    "\n[[damage]]\nattempt = 13\npacket = 3\nhow = \"lose\"\n",
    "\n[[damage]]\nattempt = 21\npacket = 3\nhow = \"lose\"\n",
];

/// One listing, and each loss of an address in one enumeration.
#[test]
fn a_report_counts_the_losses(rt: HostRuntime) -> Result<(), Fail> {
    for (losses, attempts) in LOSSES {
        let mut text = ONE_FUNCTION.concat(rt.alloc())?;
        for damage in LOSE.iter().take(losses) {
            text.push_str(damage)?;
        }
        let plan = read_plan(rt.alloc(), text.as_str())?;
        let report = run(rt.alloc(), &plan)?;
        assert_eq!(rt;
            (report.items.len(), report.attempts),
            (1, attempts),
            "{losses} losses"
        );
        assert_eq!(rt;
            (report.address_losses, report.worst_address_run),
            (losses as u64, losses as u32),
            "{losses} losses"
        );
    }
    Ok(())
}
