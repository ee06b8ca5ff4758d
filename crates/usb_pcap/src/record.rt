//! Records of a pcap file: a packet's time and length, and its bytes.
ghost use Rattle.std.specs.Prelude.{◌≡◌, ◌+◌, ◌*◌, ◌^◌, ◌<◌, ◌≤◌, ◌++◌, ◌∷◌, [], length, true, IfSome};
ghost use Rattle.std.specs.Int.{to_le_bytes, w32};
ghost use Rattle.usb_packet.specs.Spelling.{HasFields, flipped};
ghost use Rattle.usb_pcap.specs.Attempt.{IsMarkedAnswer, IsSent, IsTraced, may_be_marked};
ghost use Rattle.usb_pcap.specs.Record.{AppendsRecords, AreRecords, HasBit, answer_packets, attempt_packets, damaged, host_packets, next_packets, own_mark, pre_mark, pre_packets, record_head};

use crate::attempt::TracedAttempt;
use arrayvec::ArrayVec;
use usb_packet::{Packet, encode};
use usb_world::{ExchangeAnswer, Mark, Outgoing};

/// Room for the records of an attempt: at most seven packets of at most 67 bytes, each after 16
/// bytes of its own.
pub(crate) type Records = ArrayVec<u8, 581>;

/// The header of a pcap file: little endian, version 2.4, packets of at most 65,535 bytes, of a
/// full-speed USB (294).
pub(crate) const HEADER: [u8; 24] = [
    0xd4, 0xc3, 0xb2, 0xa1, 2, 0, 4, 0, 0, 0, 0, 0, 0, 0, 0, 0, 0xff, 0xff, 0, 0, 0x26, 1, 0, 0,
];

/// The records of an attempt's packets in their order.
pub(crate) fn records_of(attempt: &TracedAttempt) -> Records
    requires { IsTraced attempt.now }
    ensures { AreRecords attempt.now.number
        (attempt_packets attempt.now.pre attempt.now.exchange) result.items }
{
    let TracedAttempt {
        number,
        pre,
        exchange,
    } = attempt;
    let mut records = Records::new();
    push_host(&mut records, *number, *pre, &exchange.token);
    push_next(&mut records, *number, *pre, &exchange.payload);
    push_answer(
        &mut records,
        *number,
        &exchange.answer,
        exchange.answer_mark,
    );
    push_next(&mut records, *number, *pre, &exchange.reply);
    records
}

/// A packet of the host, and PRE before it.
fn push_host(records: &mut Records, number: u64, pre: bool, sent: &Outgoing)
    requires room { length records.old.items ≤ 415 }
    requires timed { number < 2 ^ 32 * 1000000 }
    requires sent { IsSent pre sent.now }
    ensures written { AppendsRecords number (host_packets pre sent.now)
        records.old.items records.new.items }
    ensures few { length records.new.items ≤ length records.old.items + 166 }
{
    push_pre(records, number, pre, sent.mark);
    push_record(records, number, &sent.packet, own_mark(sent.mark));
}

/// The PRE before a packet with this mark.
fn push_pre(records: &mut Records, number: u64, pre: bool, mark: Mark)
    requires room { length records.old.items ≤ 498 }
    requires timed { number < 2 ^ 32 * 1000000 }
    ensures written { AppendsRecords number (pre_packets pre mark)
        records.old.items records.new.items }
    ensures few { length records.new.items ≤ length records.old.items + 83 }
{
    if pre {
        push_record(records, number, &Packet::Pre, pre_mark(mark));
    }
}

/// What damage did to the PRE before a packet.
fn pre_mark(mark: Mark) -> Mark
    ensures { result ≡ pre_mark mark }
{
    match mark {
        Mark::PreLost => Mark::Lost,
        Mark::Whole | Mark::Lost | Mark::Flipped(_) => Mark::Whole,
    }
}

/// What damage did to the packet itself.
fn own_mark(mark: Mark) -> Mark
    ensures { result ≡ own_mark mark }
{
    match mark {
        Mark::PreLost => Mark::Whole,
        Mark::Whole | Mark::Lost | Mark::Flipped(_) => mark,
    }
}

/// A further packet of the host, if there is one.
fn push_next(records: &mut Records, number: u64, pre: bool, sent: &Option<Outgoing>)
    requires room { length records.old.items ≤ 415 }
    requires timed { number < 2 ^ 32 * 1000000 }
    requires sent { IfSome sent.now (λ s. IsSent pre s) }
    ensures written { AppendsRecords number (next_packets pre sent.now)
        records.old.items records.new.items }
    ensures few { length records.new.items ≤ length records.old.items + 166 }
{
    if let Some(sent) = sent {
        push_host(records, number, pre, sent);
    }
}

/// The answer of one device. Of two at once no byte is known.
fn push_answer(records: &mut Records, number: u64, answer: &ExchangeAnswer, mark: Mark)
    requires room { length records.old.items ≤ 498 }
    requires timed { number < 2 ^ 32 * 1000000 }
    requires answer { IsMarkedAnswer answer.now mark }
    ensures written { AppendsRecords number (answer_packets answer.now mark)
        records.old.items records.new.items }
    ensures few { length records.new.items ≤ length records.old.items + 83 }
{
    if let ExchangeAnswer::One(packet) = answer {
        push_record(records, number, packet, mark);
    }
}

/// The record of one packet, at its attempt's time.
fn push_record(records: &mut Records, number: u64, packet: &Packet, mark: Mark)
    requires room { length records.old.items ≤ 498 }
    requires timed { number < 2 ^ 32 * 1000000 }
    requires fields { HasFields packet.now }
    requires marked { may_be_marked true mark packet.now ≡ true }
    ensures written { AppendsRecords number ((packet.now, mark) ∷ [])
        records.old.items records.new.items }
    ensures few { length records.new.items ≤ length records.old.items + 83 }
{
    let bytes = damaged(encode(packet), mark);
    push_head(records, number, bytes.len() as u32);
    push_bytes(records, bytes.as_slice());
}

/// A packet's time and its length, twice.
fn push_head(records: &mut Records, number: u64, size: u32)
    requires room { length records.old.items ≤ 565 }
    requires timed { number < 2 ^ 32 * 1000000 }
    ensures { records.new.items ≡ records.old.items ++ record_head number size }
{
    push_word(records, (number / 1_000_000) as u32);
    push_word(records, (number % 1_000_000) as u32);
    push_word(records, size);
    push_word(records, size);
}

/// Four bytes, the low one first.
fn push_word(records: &mut Records, word: u32)
    requires { length records.old.items ≤ 577 }
    ensures { records.new.items ≡ records.old.items ++ to_le_bytes w32 word }
{
    push_bytes(records, &word.to_le_bytes());
}

/// Adds bytes, for which there is room.
fn push_bytes(records: &mut Records, bytes: &[u8])
    requires { length records.old.items + length bytes.now ≤ 581 }
    ensures { records.new.items ≡ records.old.items ++ bytes.now }
{
    records.try_extend_from_slice(bytes).unwrap();
}

/// A packet's bytes as damage leaves them. The last bit is one of the check.
fn damaged(bytes: ArrayVec<u8, 67>, mark: Mark) -> ArrayVec<u8, 67>
    requires some { 0 < length bytes.items }
    requires bit { HasBit mark bytes.items }
    ensures value { result.items ≡ damaged mark bytes.items }
    ensures same { length result.items ≡ length bytes.items }
{
    let last = 8 * bytes.len() - 1;
    match mark {
        Mark::Whole | Mark::PreLost => bytes,
        Mark::Lost => flipped(bytes, last),
        Mark::Flipped(bit) => flipped(bytes, usize::from(bit)),
    }
}

/// The bytes with one bit flipped, counted from 0.
fn flipped(bytes: ArrayVec<u8, 67>, bit: usize) -> ArrayVec<u8, 67>
    requires { bit < 8 * length bytes.items }
    ensures value { result.items ≡ flipped bytes.items bit }
    ensures same { length result.items ≡ length bytes.items }
{
    let mut bytes = bytes;
    bytes.as_mut_slice()[bit / 8] ^= 1 << (bit % 8);
    bytes
}
