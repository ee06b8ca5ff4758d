//! Damaged packets.

use super::plans::{GET_DEVICE, ONE_FUNCTION, SET_ADDRESS_5};
use super::row::{joined, plan_text, went_otherwise};
use super::step::{Step, told};
use std::alloc::{AllocError, Global};
use std::str;
use std::test::Fail;
use usb_packet::Speed::Full;
use usb_sim::{Damage, Harm, SimBus, Tracer};
use usb_testbus::{plugged, trace_of};

/// An attempt, its packet, and what happens to that.
type Hit = (u64, u8, Harm);

fn damage_of((attempt, packet, harm): Hit) -> Damage {
    Damage {
        attempt,
        packet,
        harm,
    }
}

/// The damage to a packet of one of the attempts SETUP, IN and OUT, and what that attempt reports and its line.
#[derive(Clone, Copy)]
struct Damaged {
    damage: Hit,
    told: &'static str,
    line: &'static str,
}

const DAMAGES: &[Damaged] = &[
    Damaged {
        damage: (1, 1, Harm::LosePre),
        told: "ack",
        line: "1 SETUP 0.0 / DATA0 8006000100000800 / ACK",
    },
    Damaged {
        damage: (1, 1, Harm::Lose),
        told: "none",
        line: "1 SETUP 0.0 [lost] / DATA0 8006000100000800 / none",
    },
    Damaged {
        damage: (1, 1, Harm::Flip(7)),
        told: "none",
        line: "1 SETUP 0.0 [bit 7] / DATA0 8006000100000800 / none",
    },
    Damaged {
        damage: (1, 1, Harm::Flip(24)),
        told: "ack",
        line: "1 SETUP 0.0 / DATA0 8006000100000800 / ACK",
    },
    Damaged {
        damage: (1, 2, Harm::Lose),
        told: "none",
        line: "1 SETUP 0.0 / DATA0 8006000100000800 [lost] / none",
    },
    Damaged {
        damage: (1, 2, Harm::Flip(7)),
        told: "none",
        line: "1 SETUP 0.0 / DATA0 8006000100000800 [bit 7] / none",
    },
    Damaged {
        damage: (1, 2, Harm::Flip(88)),
        told: "ack",
        line: "1 SETUP 0.0 / DATA0 8006000100000800 / ACK",
    },
    Damaged {
        damage: (1, 3, Harm::Lose),
        told: "none",
        line: "1 SETUP 0.0 / DATA0 8006000100000800 / ACK [lost]",
    },
    Damaged {
        damage: (1, 3, Harm::Flip(7)),
        told: "none",
        line: "1 SETUP 0.0 / DATA0 8006000100000800 / ACK [bit 7]",
    },
    Damaged {
        damage: (1, 3, Harm::Flip(8)),
        told: "ack",
        line: "1 SETUP 0.0 / DATA0 8006000100000800 / ACK",
    },
    Damaged {
        damage: (2, 1, Harm::Lose),
        told: "none",
        line: "2 IN 0.0 [lost] / none",
    },
    Damaged {
        damage: (2, 1, Harm::Flip(7)),
        told: "none",
        line: "2 IN 0.0 [bit 7] / none",
    },
    Damaged {
        damage: (2, 1, Harm::Flip(24)),
        told: "data",
        line: "2 IN 0.0 / DATA1 1201000200000040 / ACK",
    },
    Damaged {
        damage: (2, 2, Harm::Lose),
        told: "none",
        line: "2 IN 0.0 / DATA1 1201000200000040 [lost]",
    },
    Damaged {
        damage: (2, 2, Harm::Flip(7)),
        told: "none",
        line: "2 IN 0.0 / DATA1 1201000200000040 [bit 7]",
    },
    Damaged {
        damage: (2, 2, Harm::Flip(88)),
        told: "data",
        line: "2 IN 0.0 / DATA1 1201000200000040 / ACK",
    },
    Damaged {
        damage: (2, 3, Harm::Lose),
        told: "data",
        line: "2 IN 0.0 / DATA1 1201000200000040 / ACK [lost]",
    },
    Damaged {
        damage: (2, 3, Harm::Flip(7)),
        told: "data",
        line: "2 IN 0.0 / DATA1 1201000200000040 / ACK [bit 7]",
    },
    Damaged {
        damage: (2, 3, Harm::Flip(8)),
        told: "data",
        line: "2 IN 0.0 / DATA1 1201000200000040 / ACK",
    },
    Damaged {
        damage: (3, 1, Harm::Lose),
        told: "none",
        line: "3 OUT 0.0 [lost] / DATA1 - / none",
    },
    Damaged {
        damage: (3, 1, Harm::Flip(7)),
        told: "none",
        line: "3 OUT 0.0 [bit 7] / DATA1 - / none",
    },
    Damaged {
        damage: (3, 1, Harm::Flip(24)),
        told: "ack",
        line: "3 OUT 0.0 / DATA1 - / ACK",
    },
    Damaged {
        damage: (3, 2, Harm::Lose),
        told: "none",
        line: "3 OUT 0.0 / DATA1 - [lost] / none",
    },
    Damaged {
        damage: (3, 2, Harm::Flip(7)),
        told: "none",
        line: "3 OUT 0.0 / DATA1 - [bit 7] / none",
    },
    Damaged {
        damage: (3, 2, Harm::Flip(24)),
        told: "ack",
        line: "3 OUT 0.0 / DATA1 - / ACK",
    },
    Damaged {
        damage: (3, 3, Harm::Lose),
        told: "none",
        line: "3 OUT 0.0 / DATA1 - / ACK [lost]",
    },
    Damaged {
        damage: (3, 3, Harm::Flip(7)),
        told: "none",
        line: "3 OUT 0.0 / DATA1 - / ACK [bit 7]",
    },
    Damaged {
        damage: (3, 3, Harm::Flip(8)),
        told: "ack",
        line: "3 OUT 0.0 / DATA1 - / ACK",
    },
];

/// Makes three attempts; what the one of a number reported.
fn attempt_told(
    alloc: Global,
    bus: &mut SimBus<Tracer<Vec<u8>>>,
    number: u64,
) -> Result<String, AllocError> {
    let mut words = String::new(alloc);
    for step in [
        Step::Setup(Full, 0, GET_DEVICE),
        Step::In(Full, 0),
        Step::Out(Full, 0),
    ] {
        let told = told(alloc, bus, step)?;
        if bus.attempts() == number {
            words = told;
        }
    }
    Ok(words)
}

/// What the damaged attempt reported, and its line.
fn damaged_told(alloc: Global, damage: Damage) -> Result<String, Fail> {
    let text = plan_text(alloc, ONE_FUNCTION, &[damage])?;
    let mut bus = plugged(alloc, text.as_str())?;
    let words = attempt_told(alloc, &mut bus, damage.attempt);
    let trace = trace_of(bus);
    let mut all = words?;
    let mut lines = str::from_utf8(trace.as_slice())?.lines();
    write!(
        all,
        ": {}",
        lines.nth(damage.attempt as usize).unwrap_or("")
    )?;
    Ok(all)
}

#[test]
fn each_packet_is_damaged(rt: HostRuntime) -> Result<(), Fail> {
    let alloc = rt.alloc();
    for row in DAMAGES {
        let wanted = joined(alloc, &[row.told, ": ", row.line])?;
        assert_eq!(rt;
            damaged_told(alloc, damage_of(row.damage))?.as_str(),
            wanted.as_str(),
            "{}",
            row.line
        );
    }
    Ok(())
}

/// The damage to a packet of SET_ADDRESS, what its two attempts report, and what is counted and registered then.
#[derive(Clone, Copy)]
struct Lost {
    damage: Hit,
    answers: (&'static str, &'static str),
    counts: &'static str,
    registers: &'static str,
}

const NEVER: &str = "attempts 2, events 1 of 1, losses 0, worst 0";

const ONCE: &str = "attempts 2, events 1 of 1, losses 1, worst 1";

/// An address is lost only if the device gave the status stage and did not see the ACK.
const LOSSES: &[Lost] = &[
    Lost {
        damage: (2, 3, Harm::Lose),
        answers: ("ack", "data"),
        counts: ONCE,
        registers: "Some((0, 0))",
    },
    Lost {
        damage: (2, 3, Harm::Flip(0)),
        answers: ("ack", "data"),
        counts: ONCE,
        registers: "Some((0, 0))",
    },
    Lost {
        damage: (2, 3, Harm::Flip(8)),
        answers: ("ack", "data"),
        counts: NEVER,
        registers: "Some((5, 0))",
    },
    Lost {
        damage: (2, 2, Harm::Lose),
        answers: ("ack", "none"),
        counts: NEVER,
        registers: "Some((0, 0))",
    },
    Lost {
        damage: (2, 1, Harm::Lose),
        answers: ("ack", "none"),
        counts: NEVER,
        registers: "Some((0, 0))",
    },
    Lost {
        damage: (1, 3, Harm::Lose),
        answers: ("none", "data"),
        counts: NEVER,
        registers: "Some((5, 0))",
    },
];

/// What the attempts of a row reported otherwise than expected.
fn lost_otherwise(alloc: Global, row: &Lost) -> Result<String, Fail> {
    let text = plan_text(alloc, ONE_FUNCTION, &[damage_of(row.damage)])?;
    let (setup, status) = row.answers;
    let opening = [(Step::Event, "changed"), (Step::Reset(1), "")];
    let steps = [
        (Step::Setup(Full, 0, SET_ADDRESS_5), setup),
        (Step::In(Full, 0), status),
        (Step::Counts, row.counts),
        (Step::Registers("1"), row.registers),
    ];
    went_otherwise(alloc, text.as_str(), &opening, &steps)
}

#[test]
fn lost_addresses_are_counted(rt: HostRuntime) -> Result<(), Fail> {
    for row in LOSSES {
        let words = lost_otherwise(rt.alloc(), row)?;
        assert_eq!(rt; words.as_str(), "", "{:?}", row.damage);
    }
    Ok(())
}
