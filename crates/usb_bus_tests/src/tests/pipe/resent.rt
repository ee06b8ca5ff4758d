use super::plans::Hit::{Flipped, Lost};
use super::plans::{FUNCTION, Hit, bus_of};
use super::ready::{TARGET, Told, made_ready, told};
use std::alloc::Global;
use std::test::Fail;

/// A damaged packet of GET_DESCRIPTOR or SET_CONFIGURATION, how many attempts are made in all, and the trace's lines
/// from line n + 1 on, of which the row names the first.
#[derive(Clone, Copy)]
struct Row {
    hit: Hit,
    from: usize,
    attempts: u64,
    lines: &'static str,
}

/// The device descriptor of the function.
const DEVICE: &str = "120100020000004034127856000100000001";

const ROWS: [Row; 30] = [
    Row {
        hit: Lost(6, 1),
        from: 6,
        attempts: 17,
        lines: "6 SETUP 1.0 [lost] / DATA0 8006000100001200 / none
7 SETUP 1.0 / DATA0 8006000100001200 / ACK
",
    },
    Row {
        hit: Flipped(6, 1, 7),
        from: 6,
        attempts: 17,
        lines: "6 SETUP 1.0 [bit 7] / DATA0 8006000100001200 / none
7 SETUP 1.0 / DATA0 8006000100001200 / ACK
",
    },
    Row {
        hit: Lost(6, 2),
        from: 6,
        attempts: 17,
        lines: "6 SETUP 1.0 / DATA0 8006000100001200 [lost] / none
7 SETUP 1.0 / DATA0 8006000100001200 / ACK
",
    },
    Row {
        hit: Flipped(6, 2, 7),
        from: 6,
        attempts: 17,
        lines: "6 SETUP 1.0 / DATA0 8006000100001200 [bit 7] / none
7 SETUP 1.0 / DATA0 8006000100001200 / ACK
",
    },
    Row {
        hit: Lost(6, 3),
        from: 6,
        attempts: 17,
        lines: "6 SETUP 1.0 / DATA0 8006000100001200 / ACK [lost]
7 SETUP 1.0 / DATA0 8006000100001200 / ACK
",
    },
    Row {
        hit: Flipped(6, 3, 7),
        from: 6,
        attempts: 17,
        lines: "6 SETUP 1.0 / DATA0 8006000100001200 / ACK [bit 7]
7 SETUP 1.0 / DATA0 8006000100001200 / ACK
",
    },
    Row {
        hit: Lost(7, 1),
        from: 7,
        attempts: 17,
        lines: "7 IN 1.0 [lost] / none
8 IN 1.0 / DATA1 120100020000004034127856000100000001 / ACK
",
    },
    Row {
        hit: Flipped(7, 1, 7),
        from: 7,
        attempts: 17,
        lines: "7 IN 1.0 [bit 7] / none
8 IN 1.0 / DATA1 120100020000004034127856000100000001 / ACK
",
    },
    Row {
        hit: Lost(7, 2),
        from: 7,
        attempts: 17,
        lines: "7 IN 1.0 / DATA1 120100020000004034127856000100000001 [lost]
8 IN 1.0 / DATA1 120100020000004034127856000100000001 / ACK
",
    },
    Row {
        hit: Flipped(7, 2, 7),
        from: 7,
        attempts: 17,
        lines: "7 IN 1.0 / DATA1 120100020000004034127856000100000001 [bit 7]
8 IN 1.0 / DATA1 120100020000004034127856000100000001 / ACK
",
    },
    Row {
        hit: Lost(7, 3),
        from: 7,
        attempts: 16,
        lines: "7 IN 1.0 / DATA1 120100020000004034127856000100000001 / ACK [lost]
8 OUT 1.0 / DATA1 - / ACK
",
    },
    Row {
        hit: Flipped(7, 3, 7),
        from: 7,
        attempts: 16,
        lines: "7 IN 1.0 / DATA1 120100020000004034127856000100000001 / ACK [bit 7]
8 OUT 1.0 / DATA1 - / ACK
",
    },
    Row {
        hit: Lost(8, 1),
        from: 8,
        attempts: 17,
        lines: "8 OUT 1.0 [lost] / DATA1 - / none
9 OUT 1.0 / DATA1 - / ACK
",
    },
    Row {
        hit: Flipped(8, 1, 7),
        from: 8,
        attempts: 17,
        lines: "8 OUT 1.0 [bit 7] / DATA1 - / none
9 OUT 1.0 / DATA1 - / ACK
",
    },
    Row {
        hit: Lost(8, 2),
        from: 8,
        attempts: 17,
        lines: "8 OUT 1.0 / DATA1 - [lost] / none
9 OUT 1.0 / DATA1 - / ACK
",
    },
    Row {
        hit: Flipped(8, 2, 7),
        from: 8,
        attempts: 17,
        lines: "8 OUT 1.0 / DATA1 - [bit 7] / none
9 OUT 1.0 / DATA1 - / ACK
",
    },
    Row {
        hit: Lost(8, 3),
        from: 8,
        attempts: 17,
        lines: "8 OUT 1.0 / DATA1 - / ACK [lost]
9 OUT 1.0 / DATA1 - / ACK
",
    },
    Row {
        hit: Flipped(8, 3, 7),
        from: 8,
        attempts: 17,
        lines: "8 OUT 1.0 / DATA1 - / ACK [bit 7]
9 OUT 1.0 / DATA1 - / ACK
",
    },
    Row {
        hit: Lost(15, 1),
        from: 15,
        attempts: 17,
        lines: "15 SETUP 1.0 [lost] / DATA0 0009010000000000 / none
16 SETUP 1.0 / DATA0 0009010000000000 / ACK
",
    },
    Row {
        hit: Flipped(15, 1, 7),
        from: 15,
        attempts: 17,
        lines: "15 SETUP 1.0 [bit 7] / DATA0 0009010000000000 / none
16 SETUP 1.0 / DATA0 0009010000000000 / ACK
",
    },
    Row {
        hit: Lost(15, 2),
        from: 15,
        attempts: 17,
        lines: "15 SETUP 1.0 / DATA0 0009010000000000 [lost] / none
16 SETUP 1.0 / DATA0 0009010000000000 / ACK
",
    },
    Row {
        hit: Flipped(15, 2, 7),
        from: 15,
        attempts: 17,
        lines: "15 SETUP 1.0 / DATA0 0009010000000000 [bit 7] / none
16 SETUP 1.0 / DATA0 0009010000000000 / ACK
",
    },
    Row {
        hit: Lost(15, 3),
        from: 15,
        attempts: 17,
        lines: "15 SETUP 1.0 / DATA0 0009010000000000 / ACK [lost]
16 SETUP 1.0 / DATA0 0009010000000000 / ACK
",
    },
    Row {
        hit: Flipped(15, 3, 7),
        from: 15,
        attempts: 17,
        lines: "15 SETUP 1.0 / DATA0 0009010000000000 / ACK [bit 7]
16 SETUP 1.0 / DATA0 0009010000000000 / ACK
",
    },
    Row {
        hit: Lost(16, 1),
        from: 16,
        attempts: 17,
        lines: "16 IN 1.0 [lost] / none
17 IN 1.0 / DATA1 - / ACK
",
    },
    Row {
        hit: Flipped(16, 1, 7),
        from: 16,
        attempts: 17,
        lines: "16 IN 1.0 [bit 7] / none
17 IN 1.0 / DATA1 - / ACK
",
    },
    Row {
        hit: Lost(16, 2),
        from: 16,
        attempts: 17,
        lines: "16 IN 1.0 / DATA1 - [lost]
17 IN 1.0 / DATA1 - / ACK
",
    },
    Row {
        hit: Flipped(16, 2, 7),
        from: 16,
        attempts: 17,
        lines: "16 IN 1.0 / DATA1 - [bit 7]
17 IN 1.0 / DATA1 - / ACK
",
    },
    Row {
        hit: Lost(16, 3),
        from: 16,
        attempts: 16,
        lines: "16 IN 1.0 / DATA1 - / ACK [lost]
",
    },
    Row {
        hit: Flipped(16, 3, 7),
        from: 16,
        attempts: 16,
        lines: "16 IN 1.0 / DATA1 - / ACK [bit 7]
",
    },
];

fn damaged(alloc: Global, row: &Row) -> Result<Told, Fail> {
    let mut bus = bus_of(alloc, 10_000, FUNCTION, "", &[row.hit])?;
    let answer = made_ready(alloc, &mut bus, TARGET)?;
    told(alloc, answer, bus, row.from)
}

#[test]
fn damaged_packets_are_sent_again(rt: HostRuntime) -> Result<(), Fail> {
    for row in &ROWS {
        let (answer, attempts, trace) = damaged(rt.alloc(), row)?;
        assert_eq!(rt;
            (
                answer.as_str(),
                attempts,
                trace.as_str().starts_with(row.lines)
            ),
            (DEVICE, row.attempts, true),
            "{}",
            row.lines
        );
    }
    Ok(())
}
