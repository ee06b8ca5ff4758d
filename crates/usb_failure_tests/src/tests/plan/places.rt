//! Which places are found in what a host does.
ghost use Rattle.std.specs.Prelude.{◌≤◌};
ghost use Rattle.usb_world.specs.{attempt_most};

use super::FUNCTION;
use std::alloc::{AllocError, Global};
use usb_places::{Deed, Places, PlacesFault, Seen, Token, Try};
use usb_port::{PortCall, PortPath};
use usb_request::Setup;

/// Lines of a plan behind a plug of the function, lines of what a host does, and what is known of
/// the plan before them and behind each of them that is a place.
struct Row {
    plan: &'static str,
    host: &'static str,
    known: &'static str,
}

/// A plug of the function.
const PLUG: &str = "[[event]]\ndo = \"plug\"\npath = \"1\"\ndevice = \"fn\"\n";

/// A host takes the function and waits. Its attempts are 1 to 13, and one behind that.
const TAKEN: &str =
    "E\nP 1\nR 1\nS 0 0 1 8006000100000800\nI 0 0\nI 0 0\nO 0 0\nR 1\nS 0 0 1 0005010000000000\nS 0 0 1 0005010000000000\nI 0 0\nS 1 0 1 8006000100001200\nI 1 0\nO 1 0\nS 1 0 1 0009010000000000\nI 1 0\nI 1 0\nW\nE\nI 1 1\n";

const ROWS: [Row; 21] = [
    Row {
        plan: "",
        host: TAKEN,
        known: "events 0 damages\n",
    },
    Row {
        plan: "[[event]]\ndo = \"unplug\"\npath = \"1\"\nwhen = { request = \"set_address\", path = \"1\" }\n",
        host: TAKEN,
        known: "events 0 damages\nevents 0 4 damages\n",
    },
    Row {
        plan: "[[event]]\ndo = \"unplug\"\npath = \"1\"\nwhen = { request = \"set_address\", path = \"1\", at = \"answer\" }\n",
        host: TAKEN,
        known: "events 0 damages\nevents 0 6 damages\n",
    },
    Row {
        plan: "[[event]]\ndo = \"unplug\"\npath = \"1\"\nwhen = { request = \"set_address\", path = \"1\", at = \"after\" }\n",
        host: TAKEN,
        known: "events 0 damages\nevents 0 7 damages\n",
    },
    Row {
        plan: "[[event]]\ndo = \"unplug\"\npath = \"1\"\nwhen = { request = \"get_descriptor\", path = \"1\", nth = 2, at = \"data\" }\n",
        host: TAKEN,
        known: "events 0 damages\nevents 0 8 damages\n",
    },
    // A request that is not made again: the device is pulled out when the host waits.
    Row {
        plan: "[[event]]\ndo = \"unplug\"\npath = \"1\"\nwhen = { request = \"get_descriptor\", path = \"1\", nth = 3 }\n",
        host: TAKEN,
        known: "events 0 damages\nevents 0 13 damages\n",
    },
    Row {
        plan: "[[event]]\ndo = \"unplug\"\npath = \"1\"\nwhen = { reset = 1, nth = 2 }\n",
        host: TAKEN,
        known: "events 0 damages\nevents 0 4 damages\n",
    },
    Row {
        plan: "[[event]]\ndo = \"unplug\"\npath = \"1\"\nwhen = { port = 1 }\n",
        host: TAKEN,
        known: "events 0 damages\nevents 0 0 damages\n",
    },
    Row {
        plan: "[[event]]\ndo = \"unplug\"\npath = \"1\"\nwhen = { wait = true }\n",
        host: TAKEN,
        known: "events 0 damages\nevents 0 13 damages\n",
    },
    // The data stage of the first request has two attempts. The root port is reset behind it.
    Row {
        plan: "[[damage]]\nwhen = { request = \"get_descriptor\", path = \"1\" }\npacket = 1\nhow = \"lose\"\n[[damage]]\nwhen = { request = \"get_descriptor\", path = \"1\", at = \"data\" }\npacket = 1\nhow = \"lose\"\n[[damage]]\nwhen = { request = \"get_descriptor\", path = \"1\", at = \"answer\" }\npacket = 1\nhow = \"lose\"\n[[damage]]\nwhen = { request = \"get_descriptor\", path = \"1\", at = \"after\" }\npacket = 1\nhow = \"lose\"\n",
        host: TAKEN,
        known: "events 0 damages\nevents 0 damages 1\nevents 0 damages 1 2\nevents 0 damages 1 2 4\nevents 0 damages 1 2 4 5\n",
    },
    Row {
        plan: "[[damage]]\nwhen = { request = \"set_configuration\", path = \"1\", at = \"answer\" }\npacket = 2\nhow = \"lose\"\n[[damage]]\nwhen = { wait = true }\npacket = 1\nhow = \"lose\"\n",
        host: TAKEN,
        known: "events 0 damages\nevents 0 damages 12\nevents 0 damages 12 14\n",
    },
    // A damage with an attempt stays, also where another one's place is.
    Row {
        plan: "[[damage]]\nattempt = 2\npacket = 1\nhow = \"lose\"\n[[damage]]\nattempt = 9\npacket = 1\nhow = \"lose\"\n[[damage]]\nwhen = { setup = \"0005010000000000\", path = \"1\" }\npacket = 3\nhow = \"lose\"\n[[damage]]\nwhen = { request = \"get_descriptor\", path = \"1\", at = \"data\" }\npacket = 2\nhow = \"lose\"\n",
        host: TAKEN,
        known: "events 0 damages 2 9\nevents 0 damages 2 9\nevents 0 damages 2 5 9\n",
    },
    // Another path, another request, another port.
    Row {
        plan: "[[damage]]\nwhen = { request = \"set_address\", path = \"1.1\" }\npacket = 1\nhow = \"lose\"\n[[damage]]\nwhen = { request = \"set_interface\", path = \"1\" }\npacket = 1\nhow = \"lose\"\n[[damage]]\nwhen = { request = \"get_port_status\", path = \"1.1\" }\npacket = 1\nhow = \"lose\"\n[[damage]]\nwhen = { setup = \"0005020000000000\", path = \"1\" }\npacket = 1\nhow = \"lose\"\n[[damage]]\nwhen = { reset = 2 }\npacket = 1\nhow = \"lose\"\n[[damage]]\nwhen = { port = 2 }\npacket = 1\nhow = \"lose\"\n",
        host: TAKEN,
        known: "events 0 damages\n",
    },
    // Requests to ports of a hub.
    Row {
        plan: "[[damage]]\nwhen = { request = \"port_reset\", path = \"1.2\" }\npacket = 1\nhow = \"lose\"\n[[damage]]\nwhen = { request = \"get_port_status\", path = \"1.1\", at = \"data\" }\npacket = 1\nhow = \"lose\"\n[[damage]]\nwhen = { request = \"set_port_feature\", path = \"1.1\" }\npacket = 1\nhow = \"lose\"\n[[damage]]\nwhen = { request = \"clear_connection\", path = \"1.2\", at = \"answer\" }\npacket = 1\nhow = \"lose\"\n",
        host: "S 1 0 1 2303080001000000\nI 1 0\nS 1 0 1 2303040001000000\nI 1 0\nS 1 0 1 2303040002000000\nI 1 0\nS 1 0 1 A300000002000400\nI 1 0\nO 1 0\nS 1 0 1 A300000001000400\nI 1 0\nO 1 0\nS 1 0 1 2301100001000000\nI 1 0\nS 1 0 1 2301100002000000\nI 1 0\n",
        known: "events 0 damages\nevents 0 damages 1\nevents 0 damages 1 5\nevents 0 damages 1 5 11\nevents 0 damages 1 5 11 16\n",
    },
    // A control write with data, between polls of other endpoints.
    Row {
        plan: "[[damage]]\nwhen = { setup = \"2109000200000200\", path = \"1\", at = \"data\" }\npacket = 1\nhow = \"lose\"\n[[damage]]\nwhen = { setup = \"2109000200000200\", path = \"1\", at = \"answer\" }\npacket = 1\nhow = \"lose\"\n[[damage]]\nwhen = { setup = \"2109000200000200\", path = \"1\", at = \"after\" }\npacket = 1\nhow = \"lose\"\n",
        host: "S 1 0 1 2109000200000200\nI 1 1\nO 1 0\nI 1 1\nO 1 0\nI 2 0\nI 1 0\nI 1 0\nI 1 1\n",
        known: "events 0 damages\nevents 0 damages 3\nevents 0 damages 3 7\nevents 0 damages 3 7 9\n",
    },
    // A request that a reset ends: its status stage does not come.
    Row {
        plan: "[[damage]]\nwhen = { request = \"get_status\", path = \"1\", at = \"answer\" }\npacket = 1\nhow = \"lose\"\n[[damage]]\nwhen = { request = \"set_address\", path = \"1\", at = \"after\" }\npacket = 1\nhow = \"lose\"\n",
        host: "S 1 0 1 8000000000000200\nI 1 0\nR 1\nO 1 0\nS 0 0 1 0005010000000000\nI 0 0\nR 1\nS 0 0 1 0005010000000000\n",
        known: "events 0 damages\nevents 0 damages 6\n",
    },
    // The same setup data again are the same request, until that goes on or a root port is called.
    Row {
        plan: "[[damage]]\nwhen = { request = \"set_address\", path = \"1\", nth = 3 }\npacket = 1\nhow = \"lose\"\n",
        host: "S 0 0 1 0005010000000000\nS 0 0 1 0005010000000000\nP 1\nI 1 1\nS 0 0 1 0005010000000000\nR 1\nS 0 0 1 0005010000000000\nI 0 0\nS 0 0 1 0005010000000000\n",
        known: "events 0 damages\nevents 0 damages 7\n",
    },
    // The place of the second event is before that of the first one.
    Row {
        plan: "[[event]]\ndo = \"unplug\"\npath = \"1\"\nwhen = { request = \"set_address\", path = \"1\", at = \"after\" }\n[[event]]\ndo = \"plug\"\npath = \"1\"\ndevice = \"fn\"\nwhen = { reset = 1 }\n[[event]]\ndo = \"show\"\n",
        host: "E\nR 1\nS 0 0 1 0005010000000000\nI 0 0\nI 0 0\nS 1 0 1 8006000100001200\nF\nI 1 0\n",
        known: "events 0 damages\nevents 0 3 damages\nevents 0 3 1 0 damages\n",
    },
    // No event comes before the one before it.
    Row {
        plan: "[[event]]\ndo = \"show\"\n[[event]]\ndo = \"unplug\"\npath = \"1\"\nwhen = { request = \"set_address\", path = \"1\" }\n",
        host: "E\nS 0 0 1 0005010000000000\nI 0 0\nW\nE\nS 1 0 1 8006000100001200\n",
        known: "events 0 0 damages\nevents 0 0 0 damages\n",
    },
    Row {
        plan: "[[event]]\ndo = \"show\"\nwhen = { port = 1, nth = 5 }\n[[event]]\ndo = \"news\"\n",
        host: "E\nW\n",
        known: "events 0 damages\nevents 0 0 0 damages\n",
    },
    // The fault of a `when` comes before that of a device.
    Row {
        plan: "when = 1\n[[device]]\n",
        host: "",
        known: "plan: event 1: bad when: no table",
    },
];

/// The setup data of a text.
fn setup_of(text: &str) -> Setup {
    let mut bytes = [0u8; 8];
    for (i, byte) in bytes.iter_mut().enumerate() {
        let digits = text.get(2 * i..2 * i + 2).unwrap_or("00");
        *byte = u8::from_str_radix(digits, 16).unwrap_or(0);
    }
    Setup::from_bytes(bytes)
}

/// The word of a line at an index, counted from 0.
fn word(line: &str, index: usize) -> &str {
    line.split(' ').nth(index).unwrap_or("")
}

/// The same as a number.
fn number(line: &str, index: usize) -> u8 {
    word(line, index).parse::<u8>().unwrap_or(0)
}

/// The attempt of a line.
fn attempt_of(line: &str, token: Token) -> Deed {
    let tried = Try {
        address: number(line, 1),
        endpoint: number(line, 2),
        token,
    };
    Deed::Attempt(tried, PortPath::from_text(word(line, 3)))
}

/// The deed of a line: `S ADDRESS ENDPOINT PATH SETUP`, `O ADDRESS ENDPOINT`, `I ADDRESS ENDPOINT`,
/// `R PORT`, `C PORT`, `P PORT` or `W`.
fn deed_of(line: &str) -> Deed {
    let port = number(line, 1);
    match word(line, 0) {
        "S" => attempt_of(line, Token::Setup(setup_of(word(line, 4)))),
        "O" => attempt_of(line, Token::Out),
        "I" => attempt_of(line, Token::In),
        "R" => Deed::Call(port, PortCall::SetReset),
        "C" => Deed::Call(port, PortCall::ClearConnectionChange),
        "P" => Deed::Status(port),
        _ => Deed::Wait,
    }
}

/// Adds a line of the numbers of what is known.
fn push_known(alloc: Global, text: &mut String, places: &Places) -> Result<(), AllocError> {
    let plan = places.plan(alloc)?;
    text.push_str("events")?;
    for event in plan.events() {
        write!(text, " {}", event.after)?;
    }
    text.push_str(" damages")?;
    for damage in plan.damages() {
        write!(text, " {}", damage.attempt)?;
    }
    text.push_str("\n")
}

/// How far a run is: the attempts that were made, those made when the last event came, and the
/// events that came.
#[derive(Clone, Copy)]
struct Progress {
    attempts: u32,
    last: u32,
    taken: u32,
}

impl Progress {
    /// Behind an event that came this many attempts ago.
    fn behind_event(self, ago: u32) -> Progress {
        Progress {
            attempts: self.attempts,
            last: self.attempts.saturating_sub(ago),
            taken: self.taken.saturating_add(1),
        }
    }

    /// Behind the deed of a line.
    fn behind(self, deed: &Deed) -> Progress {
        let made = u32::from(matches!(deed, Deed::Attempt(_, _)));
        Progress {
            attempts: self.attempts.saturating_add(made),
            last: self.last,
            taken: self.taken,
        }
    }

    fn before(self, deed: Deed) -> Seen
        ensures { result.attempts ≤ attempt_most }
    {
        Seen {
            attempts: u64::from(self.attempts),
            since: u64::from(self.attempts.saturating_sub(self.last)),
            taken: u64::from(self.taken),
            deed,
        }
    }
}

/// Sees the deed of a line, adds what is known then if it is a place, and returns how far the run
/// is behind it.
fn see_line(
    alloc: Global,
    text: &mut String,
    places: &mut Places,
    progress: Progress,
    line: &str,
) -> Result<Progress, AllocError> {
    let seen = progress.before(deed_of(line));
    if places.see(&seen) {
        push_known(alloc, text, places)?;
    }
    Ok(progress.behind(&seen.deed))
}

/// What is known of a plan before the lines, and behind each that is a place. `E` is an event that
/// came, `F` one that came in the attempt before.
fn known_of(alloc: Global, text: &str, lines: &str) -> Result<String, PlacesFault> {
    let mut places = Places::read(alloc, text)?;
    let mut known = String::new(alloc);
    push_known(alloc, &mut known, &places)?;
    let mut progress = Progress {
        attempts: 0,
        last: 0,
        taken: 0,
    };
    for line in lines.lines() {
        progress = match line {
            "E" => progress.behind_event(0),
            "F" => progress.behind_event(1),
            _ => see_line(alloc, &mut known, &mut places, progress, line)?,
        };
    }
    Ok(known)
}

#[test]
fn places_in_runs(rt: HostRuntime) -> Result<(), AllocError> {
    for row in &ROWS {
        let text = [FUNCTION, PLUG, row.plan].concat(rt.alloc())?;
        let known = match known_of(rt.alloc(), text.as_str(), row.host) {
            Ok(known) => known,
            Err(fault) => fault.to_string(rt.alloc())?,
        };
        assert_eq!(rt; known.as_str(), row.known, "of {}", row.plan);
    }
    Ok(())
}
