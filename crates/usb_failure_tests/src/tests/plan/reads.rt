//! What is read of a text.
use super::FUNCTION;
use std::alloc::{AllocError, Global};
use usb_device::{EndpointData, EndpointSpec, OwnAnswer, OwnRequest};
use usb_plan::{bound, read_plan};
use usb_scene::DeviceSpec;
use usb_sim::{Action, Ask, Change, Plan};

/// Adds the bytes, in decimal digits.
fn put_bytes(text: &mut String, bytes: &[u8]) -> Result<(), AllocError> {
    for byte in bytes {
        write!(text, " {byte}")?;
    }
    Ok(())
}

/// Adds a number, or a dash for any.
fn put_field(text: &mut String, field: Option<u16>) -> Result<(), AllocError> {
    match field {
        Some(number) => write!(text, " {number}"),
        None => text.push_str(" -"),
    }
}

/// Adds a request of a device's own.
fn put_request(text: &mut String, row: &OwnRequest) -> Result<(), AllocError> {
    write!(text, ", {} {}", row.request_type, row.request)?;
    put_field(text, row.value)?;
    put_field(text, row.index)?;
    put_field(text, row.length)?;
    match &row.answer {
        OwnAnswer::RefuseData => text.push_str(" refused"),
        OwnAnswer::RefuseStatus => text.push_str(" refused at status"),
        OwnAnswer::Give(bytes) => put_bytes(text, bytes.as_slice()),
        OwnAnswer::GiveTaken => text.push_str(" kept"),
        OwnAnswer::Take => text.push_str(" taken"),
    }
}

/// Adds what an endpoint gives, packets with a bar between them.
fn put_data(text: &mut String, content: &EndpointData) -> Result<(), AllocError> {
    match content {
        EndpointData::Source(bytes) => {
            text.push_str(" of")?;
            put_bytes(text, bytes.as_slice())?;
        }
        EndpointData::Packets(packets) => {
            for packet in packets.as_slice() {
                text.push_str(" |")?;
                put_bytes(text, packet.as_slice())?;
            }
        }
    }
    Ok(())
}

/// Adds an endpoint that a plan describes.
fn put_endpoint(text: &mut String, row: &EndpointSpec) -> Result<(), AllocError> {
    write!(text, ", endpoint {} naks {}", row.address.get(), row.naks)?;
    put_field(text, row.halt_after)?;
    put_data(text, &row.data)
}

/// Adds the device and what it holds.
fn put_device(text: &mut String, device: &DeviceSpec) -> Result<(), AllocError> {
    write!(text, "; {}", device.name())?;
    put_bytes(text, device.descriptor())?;
    for config in device.configs() {
        text.push_str(",")?;
        put_bytes(text, config.as_slice())?;
    }
    for row in device.endpoints().as_slice() {
        put_endpoint(text, row)?;
    }
    for request in device.requests().as_slice() {
        put_request(text, request)?;
    }
    Ok(())
}

/// Adds what is done, of the kinds that the texts below have.
fn put_action(text: &mut String, action: &Action) -> Result<(), AllocError> {
    match action {
        Action::Change(Change::Plug(path, device)) => write!(text, "plug {} {device}", path.text()),
        Action::Ask(Ask::Receive(path, packets)) => write!(
            text,
            "receive {} {packets}",
            path.text()
        ),
        Action::Ask(Ask::Send(path, bytes)) => {
            write!(text, "send {}", path.text())?;
            put_bytes(text, bytes.as_slice())
        }
        Action::Ask(Ask::ControlIn(path, request)) => {
            write!(text, "control {}", path.text())?;
            put_bytes(text, &request.setup().to_bytes())
        }
        Action::Ask(Ask::ControlOut(path, request)) => {
            write!(text, "control {}", path.text())?;
            put_bytes(text, &request.setup().to_bytes())?;
            text.push_str(",")?;
            put_bytes(text, request.bytes())
        }
        Action::Ask(Ask::SendTo(path, endpoint, bytes)) => {
            write!(text, "send {} {}", path.text(), endpoint.get())?;
            put_bytes(text, bytes.as_slice())
        }
        Action::Ask(Ask::ReceiveFrom(path, endpoint, packets)) => {
            write!(text, "receive {} {} {packets}", path.text(), endpoint.get())
        }
        Action::Ask(Ask::Poll(path, endpoint)) => {
            write!(text, "interrupt {} {}", path.text(), endpoint.get())
        }
        Action::Ask(Ask::Clear(path)) => write!(text, "clear {}", path.text()),
        Action::Ask(Ask::ClearOf(path, endpoint)) => {
            write!(text, "clear {} {}", path.text(), endpoint.get())
        }
        Action::Ask(Ask::SetInterface(path, interface, setting)) => {
            write!(text, "interface {} {interface} {setting}", path.text())
        }
        Action::Ask(Ask::Look(path)) => write!(text, "look {}", path.text()),
        Action::Ask(Ask::News) => text.push_str("news"),
        Action::Ask(Ask::Show { said: false }) => text.push_str("show"),
        Action::Ask(Ask::Show { said: true }) => text.push_str("show said"),
        _ => text.push_str("other"),
    }
}

/// Adds all entries of a plan.
fn put_entries(text: &mut String, plan: &Plan) -> Result<(), AllocError> {
    for device in plan.devices() {
        put_device(text, device)?;
    }
    for event in plan.events() {
        write!(text, "; {} ", event.after)?;
        put_action(text, &event.action)?;
    }
    for damage in plan.damages() {
        write!(text, "; {damage:?}")?;
    }
    Ok(())
}

/// All that a plan holds.
fn printed(alloc: Global, plan: &Plan) -> Result<String, AllocError> {
    let (limit, roots, attempts) = (plan.limit(), plan.roots(), bound(plan));
    let wide = if plan.wide_hubs() { ", wide hubs" } else { "" };
    let mut text = format!(in alloc; "limit {limit}, roots {roots}{wide}, bound {attempts}")?;
    put_entries(&mut text, plan)?;
    Ok(text)
}

/// A text, and what is read of it.
struct Example {
    text: &'static [&'static str],
    read: &'static str,
}

const EXAMPLES: [Example; 14] = [
    Example {
        text: &["limit = 0\nroots = 1\n"],
        read: "limit 0, roots 1, bound 2",
    },
    Example {
        text: &[
            FUNCTION,
            "[[event]]\ndo = \"plug\"\npath = \"1\"\ndevice = \"fn\"\nafter = 7\n",
        ],
        read: "limit 10000, roots 1, bound 6086002; fn 18 1 0 2 0 0 0 64 52 18 120 86 0 1 0 0 0 1, 9 2 18 0 1 1 0 128 50 9 4 0 0 0 255 0 0 0; 7 plug 1 0",
    },
    Example {
        text: &[
            "limit = 1\nroots = 1\n[[event]]\ndo = \"send\"\npath = \"1.2\"\nbytes = \"0aFF\"\n[[event]]\ndo = \"receive\"\npath = \"1\"\npackets = 7\n",
            "[[damage]]\nattempt = 3\npacket = 2\nhow = \"flip\"\nbit = 9\n",
        ],
        read: "limit 1, roots 1, bound 12209002; 0 send 1.2 10 255; 0 receive 1 7; Damage { attempt: 3, packet: 2, harm: Flip(9) }",
    },
    Example {
        text: &[
            "limit = 1\nroots = 1\n[[event]]\ndo = \"control\"\npath = \"1.2\"\nsetup = \"80060001000012ff\"\n",
        ],
        read: "limit 1, roots 1, bound 71348002; 0 control 1.2 128 6 0 1 0 0 18 255",
    },
    Example {
        text: &["limit = 1\nroots = 1\n[[event]]\ndo = \"news\"\n"],
        read: "limit 1, roots 1, bound 6050002; 0 news",
    },
    Example {
        text: &[
            "limit = 1\nroots = 1\n[[event]]\ndo = \"control\"\npath = \"1\"\nsetup = \"2109000200000200\"\nbytes = \"00fF\"\n",
        ],
        read: "limit 1, roots 1, bound 6052002; 0 control 1 33 9 0 2 0 0 2 0, 0 255",
    },
    Example {
        text: &[
            "limit = 1\nroots = 1\n[[device]]\nname = \"a\"\nspeed = \"full\"\ndescriptor = \"\"\nconfigs = []\n",
            "request = [{ type = 0x21, request = 9, length = 2 }, { type = 0xC0, request = 1, value = 2, index = 3, answer = \"00fF\" }]\n",
        ],
        read: "limit 1, roots 1, bound 2; a, 33 9 - - 2 taken, 192 1 2 3 - 0 255",
    },
    Example {
        text: &[
            "limit = 1\nroots = 1\n[[device]]\nname = \"a\"\nspeed = \"full\"\ndescriptor = \"\"\nconfigs = []\n",
            "request = [{ type = 0x81, request = 6, kept = true }, { type = 0xA1, request = 1, refuse = \"data\" }, { type = 0x40, request = 255, refuse = \"status\" }]\n",
        ],
        read: "limit 1, roots 1, bound 2; a, 129 6 - - - kept, 161 1 - - - refused, 64 255 - - - refused at status",
    },
    Example {
        text: &[
            "limit = 1\nroots = 1\n[[device]]\nname = \"a\"\nspeed = \"full\"\ndescriptor = \"\"\nconfigs = []\n",
            "request = [{ type = 0x21, request = 9 }]\n",
            "[[device.endpoint]]\naddress = 0x81\nsource = \"00fF\"\nhalt_after = 3\n[[device.endpoint]]\naddress = 2\nnaks = 300\n",
            "[[device.endpoint]]\naddress = 130\npackets = [\"01\", \"\", \"0203\"]\nhalt_after = 65535\nnaks = 2\n[[device.endpoint]]\naddress = 131\npackets = []\n",
        ],
        read: "limit 1, roots 1, bound 2; a, endpoint 129 naks 0 3 of 0 255, endpoint 2 naks 300 - of, endpoint 130 naks 2 65535 | 1 | | 2 3, endpoint 131 naks 0 -, 33 9 - - - taken",
    },
    // a look more makes each event dearer
    Example {
        text: &[
            "limit = 1\nroots = 1\n[[event]]\ndo = \"look\"\npath = \"1\"\n[[event]]\ndo = \"news\"\n",
            "[[event]]\ndo = \"look\"\npath = \"1.7\"\nafter = 3\n",
        ],
        read: "limit 1, roots 1, bound 55350002; 0 look 1; 0 news; 3 look 1.7",
    },
    // what goes through an endpoint counts as without its address
    Example {
        text: &[
            "limit = 1\nroots = 1\n[[event]]\ndo = \"send\"\npath = \"1.2\"\nbytes = \"0aFF\"\nendpoint = 15\n",
            "[[event]]\ndo = \"receive\"\npath = \"1\"\npackets = 7\nendpoint = 0x81\n",
        ],
        read: "limit 1, roots 1, bound 12209002; 0 send 1.2 15 10 255; 0 receive 1 129 7",
    },
    Example {
        text: &[
            "limit = 1\nroots = 1\n[[event]]\ndo = \"interrupt\"\npath = \"1\"\nendpoint = 0x8f\nafter = 2\n",
            "[[event]]\ndo = \"clear\"\npath = \"1.7\"\nendpoint = 1\n[[event]]\ndo = \"clear\"\npath = \"1\"\n",
        ],
        read: "limit 1, roots 1, bound 18450002; 2 interrupt 1 143; 0 clear 1.7 1; 0 clear 1",
    },
    // the interface comes before its setting, whatever stands first
    Example {
        text: &[
            "limit = 1\nroots = 1\n[[event]]\ndo = \"interface\"\npath = \"1.7\"\nsetting = 255\ninterface = 2\nafter = 3\n",
        ],
        read: "limit 1, roots 1, bound 6050002; 3 interface 1.7 2 255",
    },
    Example {
        text: &[
            "limit = 1\nroots = 1\nwide_hubs = true\n[[event]]\ndo = \"show\"\n[[event]]\ndo = \"show\"\nsaid = true\n",
            "[[event]]\ndo = \"clear\"\npath = \"1.15.10\"\n[[event]]\ndo = \"show\"\nsaid = false\nafter = 2\n",
        ],
        read: "limit 1, roots 1, wide hubs, bound 24800002; 0 show; 0 show said; 0 clear 1.15.10; 2 show",
    },
];

#[test]
fn plans_are_read(rt: HostRuntime) -> Result<(), AllocError> {
    for example in &EXAMPLES {
        let text = example.text.concat(rt.alloc())?;
        let words = match read_plan(rt.alloc(), text.as_str()) {
            Ok(plan) => printed(rt.alloc(), &plan)?,
            Err(fault) => fault.to_string(rt.alloc())?,
        };
        assert_eq!(rt; words.as_str(), example.read, "for {}", example.read);
    }
    Ok(())
}
