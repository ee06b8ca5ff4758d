//! Plans with one device at the only root port, and the packets that are damaged.

use crate::tests::devices;
use crate::tests::devices::{HUB2, PLUG_BULK, PLUG_FUNCTION, PLUG_HUB2, PLUG_LOW};
use std::alloc::{AllocError, Global};
use std::test::Fail;
use usb_sim::{SimBus, Tracer};
use usb_testbus::{plan_text, plugged};

/// A function with one interface and no endpoints.
pub(super) const FUNCTION: &[&str] = &[PLUG_FUNCTION, devices::FUNCTION];

/// A function at low speed.
pub(super) const LOW: &[&str] = &[PLUG_LOW, devices::LOW];

/// Bulk OUT 2 and bulk IN 2 with packets of 64 bytes; IN gives AA, BB, CC.
pub(super) const BULK: &[&str] = &[
    PLUG_BULK,
    r#"
[[device]]
name = "bulk"
speed = "full"
descriptor = "120100020000004034127856000100000001"
configs = ["0902200001010080320904000002FF0000000705020240000007058202400000"]
source = "AABBCC"
"#,
];

/// Bulk OUT 2 and bulk IN 2 with packets of 8 bytes; IN gives the bytes 1 to 20.
pub(super) const SMALL_BULK: &[&str] = &[
    PLUG_BULK,
    r#"
[[device]]
name = "bulk"
speed = "full"
descriptor = "120100020000004034127856000100000001"
configs = ["0902200001010080320904000002FF0000000705020208000007058202080000"]
source = "0102030405060708090A0B0C0D0E0F1011121314"
"#,
];

/// A hub with two ports and its own power, and such a hub at the hub's port 1.
pub(super) const HUBS: &[&str] = &[
    PLUG_HUB2,
    r#"
[[event]]
do = "plug"
path = "1.1"
device = "hub2"
"#,
    HUB2,
];

/// A damage: attempts are counted from 1, and the packets of one are 1 to 3.
#[derive(Clone, Copy)]
pub(super) enum Hit {
    /// This packet of the attempt is lost.
    Lost(u64, u8),
    /// In this packet of the attempt this bit is turned.
    Flipped(u64, u8, u16),
    /// Packet 3 is lost in each attempt from the first to the second.
    AcksLost(u64, u64),
}

/// The bus of a device and what else its plan says of it; the port is ready.
pub(super) fn bus_of(
    alloc: Global,
    limit: u64,
    device: &[&str],
    quirk: &str,
    hits: &[Hit],
) -> Result<SimBus<Tracer<Vec<u8>>>, Fail> {
    let damages = damages(alloc, hits)?;
    let tables = device.concat(alloc)?;
    let text = plan_text(alloc, limit, &[tables.as_str(), quirk, damages.as_str()])?;
    Ok(plugged(alloc, text.as_str())?)
}

fn damages(alloc: Global, hits: &[Hit]) -> Result<String, AllocError> {
    let mut text = String::new(alloc);
    'hits: for hit in hits {
        match *hit {
            Hit::Lost(attempt, packet) => lose(&mut text, attempt, attempt, packet)?,
            Hit::AcksLost(first, last) => lose(&mut text, first, last, 3)?,
            Hit::Flipped(attempt, packet, bit) => flip(&mut text, attempt, packet, bit)?,
        }
    }
    Ok(text)
}

fn lose(text: &mut String, first: u64, last: u64, packet: u8) -> Result<(), AllocError> {
    for attempt in first..=last {
        write!(
            text,
            "[[damage]]\nattempt = {attempt}\npacket = {packet}\nhow = \"lose\"\n"
        )?;
    }
    Ok(())
}

fn flip(text: &mut String, attempt: u64, packet: u8, bit: u16) -> Result<(), AllocError> {
    write!(
        text,
        "[[damage]]\nattempt = {attempt}\npacket = {packet}\nhow = \"flip\"\nbit = {bit}\n"
    )
}
