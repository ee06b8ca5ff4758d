//! The packets of an answer (8.5.3).
ghost use Rattle.std.specs.Prelude.{◌≡◌, ◌≤◌, ◌<◌, ℕ, List, length, is_some};
ghost use Rattle.usb_device.specs.Transfer.{packet_count, packet_at, put_if, toggle_at};

use arrayvec::ArrayVec;
use usb_packet::Toggle;

/// How many packets carry `len` bytes of an answer to a request for `wanted`.
fn packet_count(max: usize, wanted: usize, len: usize) -> usize
    requires low { 8 ≤ max }
    requires high { len < 65536 }
    ensures { result ≡ packet_count max wanted len }
{
    if len % max == 0 && len >= wanted {
        len / max
    } else {
        len / max + 1
    }
}

/// The bytes are in the room, in place of those that were there.
pub fn fill(room: &mut ArrayVec<u8, 64>, bytes: &[u8])
    requires { length bytes.now ≤ 64 }
    ensures { room.new.items ≡ bytes.now }
{
    room.clear();
    let _ = room.try_extend_from_slice(bytes);
}

/// Puts the bytes of packet `k` of an answer, counted from 0, into the room, and returns whether
/// there is one.
pub fn put_packet(
    max: usize,
    wanted: u16,
    answer: &[u8],
    k: u32,
    room: &mut ArrayVec<u8, 64>,
) -> bool
    requires low { 8 ≤ max }
    requires high { max ≤ 64 }
    ensures { put_if result room.new ≡ packet_at max wanted answer.now k }
{
    let wanted = usize::from(wanted);
    let end = answer.len().min(wanted);
    let k = k as usize;
    if k < packet_count(max, wanted, end) {
        let start = k * max;
        let stop = end.min(start + max);
        let bytes = &answer[..end];
        fill(room, &bytes[start..stop]);
        true
    } else {
        false
    }
}

/// Whether an answer of `len` bytes has a packet `k`, counted from 0.
#[tactic(auto, using(usb_device::proofs::packets::Packets::has))]
pub fn has_packet(max: usize, wanted: u16, len: usize, k: u32) -> bool
    requires { 8 ≤ max }
    ensures { (answer : List ℕ)
        → length answer ≡ len → result ≡ is_some (packet_at max wanted answer k) }
{
    let wanted = usize::from(wanted);
    (k as usize) < packet_count(max, wanted, wanted.min(len))
}

/// The toggle of packet `k` of an answer.
pub fn toggle_at(k: u32) -> Toggle
    ensures { result ≡ toggle_at k }
{
    if k % 2 == 0 {
        Toggle::One
    } else {
        Toggle::Zero
    }
}
