//! A port step by step, its calls by their features, what its status says, and paths of ports.
use arrayvec::ArrayString;
use usb_port::{Port, PortCall, PortPath, PortStatus};

/// What is done to a port, or asked of it.
#[derive(Clone, Copy, Debug)]
enum Step {
    /// A new port comes in its place.
    New,
    PlugLow,
    PlugFull,
    Unplug,
    PowerOn,
    Reset,
    Disable,
    PowerOff,
    ClearConnection,
    ClearEnable,
    ClearReset,
    IsAttached,
    IsLowSpeed,
    IsPowered,
    IsEnabled,
    HasChange,
}

/// The answer to what is asked; true of what is done.
fn take_step(port: &mut Port, step: Step) -> bool {
    match step {
        Step::New => *port = Port::new(),
        Step::PlugLow => port.plug(true),
        Step::PlugFull => port.plug(false),
        Step::Unplug => port.unplug(),
        Step::PowerOn => port.power_on(),
        Step::Reset => port.reset(),
        Step::Disable => port.disable(),
        Step::PowerOff => port.power_off(),
        Step::ClearConnection => port.clear_connection_change(),
        Step::ClearEnable => port.clear_enable_change(),
        Step::ClearReset => port.clear_reset_change(),
        Step::IsAttached => return port.is_attached(),
        Step::IsLowSpeed => return port.is_low_speed(),
        Step::IsPowered => return port.is_powered(),
        Step::IsEnabled => return port.is_enabled(),
        Step::HasChange => return port.has_change(),
    }
    true
}

/// A step with its answer, and the port's status after it.
const STEPS: &[(Step, bool, [u8; 4])] = &[
    // from power to unplug
    (Step::New, true, [0, 0, 0, 0]),
    (Step::PlugLow, true, [0, 0, 0, 0]),
    (Step::IsAttached, true, [0, 0, 0, 0]),
    (Step::IsLowSpeed, true, [0, 0, 0, 0]),
    (Step::IsPowered, false, [0, 0, 0, 0]),
    (Step::PowerOn, true, [1, 3, 1, 0]),
    (Step::ClearConnection, true, [1, 3, 0, 0]),
    (Step::Reset, true, [3, 3, 0x10, 0]),
    (Step::IsEnabled, true, [3, 3, 0x10, 0]),
    (Step::HasChange, true, [3, 3, 0x10, 0]),
    (Step::ClearReset, true, [3, 3, 0, 0]),
    (Step::HasChange, false, [3, 3, 0, 0]),
    (Step::Unplug, true, [0, 1, 1, 0]),
    // reset with nothing attached, then disabled and switched off
    (Step::New, true, [0, 0, 0, 0]),
    (Step::PowerOn, true, [0, 1, 0, 0]),
    (Step::Reset, true, [0, 1, 0, 0]),
    (Step::PlugFull, true, [1, 1, 1, 0]),
    (Step::Reset, true, [3, 1, 0x11, 0]),
    (Step::Disable, true, [1, 1, 0x11, 0]),
    (Step::ClearEnable, true, [1, 1, 0x11, 0]),
    (Step::PowerOff, true, [0, 0, 0, 0]),
];

#[test]
fn a_port_by_its_table(rt: HostRuntime) {
    let mut port = Port::new();
    for (step, answer, status) in STEPS {
        let told = (take_step(&mut port, *step), port.status());
        assert_eq!(rt; told, (*answer, *status), "{step:?}");
    }
}

struct StatusRow {
    bytes: [u8; 4],
    status: PortStatus,
}

const STATUSES: &[StatusRow] = &[
    StatusRow {
        bytes: [3, 3, 0x18, 0],
        status: PortStatus {
            connected: true,
            enabled: true,
            powered: true,
            low_speed: true,
            connection_changed: false,
            enable_changed: false,
            suspend_changed: false,
            over_current_changed: true,
            reset_changed: true,
        },
    },
    StatusRow {
        bytes: [0, 1, 7, 0],
        status: PortStatus {
            connected: false,
            enabled: false,
            powered: true,
            low_speed: false,
            connection_changed: true,
            enable_changed: true,
            suspend_changed: true,
            over_current_changed: false,
            reset_changed: false,
        },
    },
];

#[test]
fn a_status_read(rt: HostRuntime) {
    for row in STATUSES {
        assert_eq!(rt;
            PortStatus::from_bytes(row.bytes),
            row.status,
            "{:?}",
            row.bytes
        );
    }
}

/// A feature, whether a call sets it, and whether the call that clears it clears a change of
/// connection; None if no call clears it.
const FEATURES: &[(u16, bool, Option<bool>)] = &[
    (0, false, None),
    (1, false, Some(false)),
    (4, true, None),
    (8, true, Some(false)),
    (16, false, Some(true)),
    (17, false, Some(false)),
    (18, false, None),
    (20, false, Some(false)),
];

#[test]
fn calls_by_their_features(rt: HostRuntime) {
    for (feature, sets, clears) in FEATURES {
        let is_set = PortCall::of_set(*feature).is_some();
        let cleared = PortCall::of_clear(*feature).map(PortCall::clears_connection_change);
        assert_eq!(rt; (is_set, cleared), (*sets, *clears), "{feature}");
    }
}

/// The text of the path, empty if there is none.
fn text_of(path: Option<PortPath>) -> ArrayString<20> {
    match path {
        Some(path) => path.text(),
        None => ArrayString::new(),
    }
}

/// A text, and that of the path that it spells, empty if it spells none.
const TEXTS: &[(&str, &str)] = &[
    ("1", "1"),
    ("7", "7"),
    ("1.1", "1.1"),
    ("3.7.1", "3.7.1"),
    ("1.2.3.4.5.6.7", "1.2.3.4.5.6.7"),
    ("1.8", "1.8"),
    ("1.9", "1.9"),
    ("1.10", "1.10"),
    ("3.11.12", "3.11.12"),
    ("1.13.2.14.1.15", "1.13.2.14.1.15"),
    ("7.15.15.15.15.15.15", "7.15.15.15.15.15.15"),
    ("15.15.15.15.15.15.15", "15.15.15.15.15.15.15"),
    ("", ""),
    ("0", ""),
    ("a", ""),
    (".", ""),
    (".1", ""),
    ("1.", ""),
    ("1..2", ""),
    ("1,2", ""),
    (" 1", ""),
    ("1.2.", ""),
    ("1.10.", ""),
    ("1.1.1.1.1.1.1.1", ""),
    ("1.1.1.1.1.1.1.10", ""),
    // a hub has at most fifteen ports, and no number begins with a 0
    ("1.0", ""),
    ("1.16", ""),
    ("1.19", ""),
    ("1.20", ""),
    ("1.99", ""),
    ("1.00", ""),
    ("1.01", ""),
    ("1.08", ""),
    ("1.010", ""),
    ("1.100", ""),
    ("1.150", ""),
    ("1.1a", ""),
    ("1.1 0", ""),
    ("1.266", ""),
];

#[test]
fn texts_of_paths(rt: HostRuntime) {
    for (text, again) in TEXTS {
        assert_eq!(rt;
            text_of(PortPath::from_text(text)).as_str(),
            *again,
            "of {text}"
        );
    }
}

/// A number that is pushed on a path, whether it goes, and the path then; a root port's parent is
/// empty.
struct PushRow {
    number: u8,
    pushed: bool,
    numbers: &'static [u8],
    port: u8,
    parent: &'static str,
}

/// From the root port 3 on.
const PUSHES: &[PushRow] = &[
    PushRow {
        number: 0,
        pushed: false,
        numbers: &[3],
        port: 3,
        parent: "",
    },
    PushRow {
        number: 16,
        pushed: false,
        numbers: &[3],
        port: 3,
        parent: "",
    },
    PushRow {
        number: 15,
        pushed: true,
        numbers: &[3, 15],
        port: 15,
        parent: "3",
    },
    PushRow {
        number: 1,
        pushed: true,
        numbers: &[3, 15, 1],
        port: 1,
        parent: "3.15",
    },
    PushRow {
        number: 2,
        pushed: true,
        numbers: &[3, 15, 1, 2],
        port: 2,
        parent: "3.15.1",
    },
    PushRow {
        number: 3,
        pushed: true,
        numbers: &[3, 15, 1, 2, 3],
        port: 3,
        parent: "3.15.1.2",
    },
    PushRow {
        number: 4,
        pushed: true,
        numbers: &[3, 15, 1, 2, 3, 4],
        port: 4,
        parent: "3.15.1.2.3",
    },
    PushRow {
        number: 5,
        pushed: true,
        numbers: &[3, 15, 1, 2, 3, 4, 5],
        port: 5,
        parent: "3.15.1.2.3.4",
    },
    PushRow {
        number: 1,
        pushed: false,
        numbers: &[3, 15, 1, 2, 3, 4, 5],
        port: 5,
        parent: "3.15.1.2.3.4",
    },
];

#[test]
fn a_path_grows(rt: HostRuntime) {
    let (None, None, Some(mut path)) = (PortPath::root(0), PortPath::root(16), PortPath::root(3))
    else {
        assert!(rt; false);
        return;
    };
    for row in PUSHES {
        let pushed = path.push(row.number);
        let parent = text_of(path.parent());
        let told = (pushed, path.numbers(), path.port(), parent.as_str());
        let want = (row.pushed, row.numbers, row.port, row.parent);
        assert_eq!(rt; told, want, "{}", row.number);
    }
}

/// What one path may be to another.
#[derive(Clone, Copy)]
enum Relation {
    Less,
    Equal,
    Below,
}

/// Whether the one path is that to the other; None if a text spells no path.
fn holds(path: &str, relation: Relation, other: &str) -> Option<bool> {
    let path = PortPath::from_text(path)?;
    let other = PortPath::from_text(other)?.duplicate();
    Some(match relation {
        Relation::Less => path < other,
        Relation::Equal => path == other,
        Relation::Below => path.is_below(&other),
    })
}

/// Two paths, what the one may be to the other, and whether it is.
const RELATIONS: &[(&str, Relation, &str, bool)] = &[
    ("3", Relation::Less, "3.5", true),
    ("3", Relation::Equal, "3.5", false),
    ("3", Relation::Equal, "3", true),
    ("3.5", Relation::Below, "3", true),
    ("3", Relation::Below, "3.5", false),
    ("3", Relation::Below, "3", false),
    ("1", Relation::Less, "1.1", true),
    ("1.1", Relation::Less, "1.1.7", true),
    ("1.1.7", Relation::Less, "1.2", true),
    ("1.2", Relation::Less, "2", true),
    ("2", Relation::Less, "2.1.1.1.1.1.1", true),
    ("2.1.1.1.1.1.1", Relation::Less, "2.3", true),
    ("2.3", Relation::Less, "7", true),
    // numbers are compared, not their digits
    ("1.2", Relation::Less, "1.10", true),
    ("1.10", Relation::Less, "1.2", false),
    ("1.9", Relation::Less, "1.10", true),
    ("1.10", Relation::Less, "1.10.1", true),
    ("1.10.15", Relation::Less, "1.11", true),
    ("1.15", Relation::Less, "2", true),
    ("1.1", Relation::Equal, "1.10", false),
    ("1.10", Relation::Equal, "1.10", true),
    ("1.10", Relation::Below, "1.1", false),
    ("1.10.1", Relation::Below, "1.10", true),
];

#[test]
fn relations_of_paths(rt: HostRuntime) {
    for (path, relation, other, want) in RELATIONS {
        assert_eq!(rt;
            holds(path, *relation, other),
            Some(*want),
            "{path} to {other}"
        );
    }
}
