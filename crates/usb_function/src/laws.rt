//! Laws of a device, for those who send it packets.
//!
//! Each call does nothing; what it ensures is for proofs to cite. They speak of one attempt with a
//! device, whose packets come whole, broken or not at all.
ghost use Rattle.std.specs.Prelude.{◌≡◌, ◌<◌, ◌≤◌, ◌+◌, ◌==◌, ◌&&◌, ℕ, nat_lt, Bool, List, [], length, take, drop, true, false, None, Some, is_some};
ghost use Rattle.std.specs.List.{concat};
ghost use Rattle.usb_device.specs.EndpointSpecs.{GivesOn};
ghost use Rattle.usb_device.specs.declared.endpoint_spec.EndpointData.TheVariants as EndpointData;
ghost use Rattle.usb_packet.specs.declared.Packet.{Packet};
ghost use Rattle.usb_packet.specs.declared.Packet.TheVariants.{Token};
ghost use Rattle.usb_packet.specs.declared.TokenKind.{TokenKind};
ghost use Rattle.usb_packet.specs.declared.Toggle.{Toggle};
ghost use Rattle.usb_port.specs.PortStates.{PortState};
ghost use Rattle.usb_device.specs.declared.answer.Answer.TheVariants.{Ack, Stall};
ghost use Rattle.usb_device.specs.declared.delivery.Sent.{Sent};
ghost use Rattle.usb_device.specs.declared.delivery.Content.TheVariants.{Whole, Broken};
ghost use Rattle.usb_device.specs.Transfer.{packet_at, packets_joined, toggle_at, Write};
ghost use Rattle.usb_device.specs.Rows.{State, forgotten, in_end, out_end};
ghost use Rattle.usb_device.specs.Tree.{Ports as TreePorts};
ghost use Rattle.usb_device.specs.Delivery.{after_packet, all_forgotten, answers, held_addresses, has};
ghost use Rattle.usb_device.specs.StrayPackets.{is_token, concerns_some};
ghost use Rattle.usb_device.specs.Attempt.{Way, setup_exchange, setup_law, out_exchange, out_law, in_exchange, in_law};
ghost use Rattle.usb_device.specs.Progress.{taken_of, ReadingAt, ReadOn, IsPacketOf, OnlyWrite, WritingAt, WriteAt, WriteOn, WriteStatusOn, IsSource, OnlySource, SourceAt, SourceOn, IsSink, OnlySink, SinkAt, SinkOn};

/// A whole attempt with a device that remembers nothing, each packet of it coming or not.
#[tactic(auto, using(usb_device::proofs::Attempts::attempts))]
pub fn attempt_laws()
    ensures setup { (d : State) (row : List PortState) (bytes : List ℕ)
        → d.spec.silent ≡ false → length bytes ≡ 8 → (t1 t2 t3 : Way)
        → setup_exchange (forgotten d) row d.registers.address bytes t1 t2 t3
        ≡ setup_law (forgotten d) row bytes t1 t2 t3 }
    ensures out { (d : State) (row : List PortState) (e : ℕ) (t : Toggle) (bytes : List ℕ)
        → d.spec.silent ≡ false → (t1 t2 t3 : Way)
        → out_exchange (forgotten d) row d.registers.address e t bytes t1 t2 t3
        ≡ out_law (forgotten d) e t bytes t1 t2 t3 }
    ensures into { (d : State) (row : List PortState) (e max : ℕ)
        → d.spec.silent ≡ false → (t1 t2 t3 : Way)
        → in_exchange (forgotten d) row d.registers.address e max t1 t2 t3
        ≡ in_law (forgotten d) row e max t1 t2 t3 }
{}

/// A packet that is for none of the devices that it reaches: nothing is answered, and at most
/// what they remember changes.
#[tactic(auto, using(usb_device::proofs::packets::Strays::strays))]
pub fn stray_laws()
    ensures unanswered { (q : Sent) (deep : Bool) (k : TreePorts)
        → concerns_some q.content k ≡ false → answers q deep k ≡ [] }
    ensures kept { (q : Sent) (deep : Bool) (k : TreePorts)
        → concerns_some q.content k ≡ false
        → all_forgotten (after_packet q deep k) ≡ all_forgotten k }
    // A token is for the devices with its address.
    ensures token { (kind : TokenKind) (a e : ℕ) (k : TreePorts)
        → concerns_some (Whole (Token kind a e)) k ≡ has a (held_addresses k) }
    // Bytes that spell no packet are for none.
    ensures broken { (k : TreePorts) → concerns_some Broken k ≡ false }
    // Where nothing is remembered, only a token is for a device.
    ensures rested { (p : Packet) (k : TreePorts)
        → is_token p ≡ false → concerns_some (Whole p) (all_forgotten k) ≡ false }
{}

/// The packets of an answer, of at most `max` bytes each (8.5.3).
#[tactic(auto, using(usb_device::proofs::packets::Packets::packets))]
pub fn answer_laws()
    // All of them, end to end, are the bytes of the answer, as many as the host wants.
    ensures whole { (max wanted : ℕ) (answer : List ℕ) (k : ℕ)
        → 0 < max → packet_at max wanted answer k ≡ None
        → packets_joined max wanted answer k ≡ take wanted answer }
    ensures fits { (max wanted : ℕ) (answer bytes : List ℕ) (k : ℕ)
        → packet_at max wanted answer k ≡ Some bytes → length bytes ≤ max }
    // After a packet comes another exactly where it is full and the host wants more.
    ensures further { (max wanted : ℕ) (answer bytes : List ℕ) (k : ℕ)
        → 0 < max → packet_at max wanted answer k ≡ Some bytes
        → is_some (packet_at max wanted answer (k + 1))
        ≡ (length bytes == max
        && nat_lt (length (packets_joined max wanted answer (k + 1))) wanted) }
{}

/// IN of endpoint 0 in a control read (8.5.3): each packet comes once, in order, whatever is lost.
pub fn control_read_goes_on()
    ensures reading { (answer : List ℕ) (wanted n : ℕ) (s : State)
        → ReadingAt answer wanted n s → (row : List PortState) (max : ℕ) (t1 t2 t3 : Way)
        → ReadOn answer wanted n s (taken_of (toggle_at n) max (in_law s row 0 max t1 t2 t3).0)
        (in_law s row 0 max t1 t2 t3).1 }
    // It is not refused.
    ensures not_refused { (answer : List ℕ) (wanted n : ℕ) (s : State)
        → ReadingAt answer wanted n s → (row : List PortState) (max : ℕ) (t1 t2 t3 : Way)
        → (in_law s row 0 max t1 t2 t3).0 ≡ Some Stall → ⊥ }
{}

/// OUT of endpoint 0 in a control write, and its status stage (8.5.3). Each packet comes once, in
/// order, whatever is lost. The bytes are kept once, when the last has come.
#[tactic(auto, using(usb_device::proofs::progress::WriteProgress::control_writes))]
pub fn control_write_goes_on()
    ensures write { (old bytes : List ℕ) (w : Write) (s : State)
        → WriteAt old w bytes s → IsPacketOf w bytes → (t1 t2 t3 : Way)
        → WriteOn old w bytes (out_law s 0 w.toggle bytes t1 t2 t3).0
        (out_law s 0 w.toggle bytes t1 t2 t3).1 }
    // Nothing else changes at OUT of endpoint 0.
    ensures frame { (t : Toggle) (bytes : List ℕ) (s : State) (t1 t2 t3 : Way)
        → OnlyWrite s (out_law s 0 t bytes t1 t2 t3).1 }
    ensures status { (old : List ℕ) (w : Write) (s : State) → WritingAt old w s
        → (row : List PortState) (max : ℕ) (t1 t2 t3 : Way)
        → WriteStatusOn old w (taken_of Toggle.One max (in_law s row 0 max t1 t2 t3).0)
        (in_law s row 0 max t1 t2 t3).1
        × ((in_law s row 0 max t1 t2 t3).1.registers ≡ s.registers) }
{}

/// IN of an endpoint besides endpoint 0 (5.7, 5.8): each packet comes once, in order, whatever is
/// lost.
#[tactic(auto, using(usb_device::proofs::progress::BulkProgress::sources))]
pub fn source_goes_on()
    ensures source { (e most got : ℕ) (t : Toggle) (s : State)
        → IsSource e most s → 1 ≤ most → SourceAt e most got t s
        → (row : List PortState) (max : ℕ) (t1 t2 t3 : Way)
        → SourceOn e most got t s (taken_of t max (in_law s row e max t1 t2 t3).0)
        (in_law s row e max t1 t2 t3).1 }
    // STALL is answered only where the endpoint is halted, and a halted one changes nothing.
    ensures stalled { (e most : ℕ) (s : State)
        → IsSource e most s → (row : List PortState) (max : ℕ) (t1 t2 t3 : Way)
        → (in_law s row e max t1 t2 t3).0 ≡ Some Stall → (in_end s e).state.halted ≡ true }
    ensures halted { (e most : ℕ) (s : State)
        → IsSource e most s → (in_end s e).state.halted ≡ true
        → (row : List PortState) (max : ℕ) (t1 t2 t3 : Way)
        → (in_law s row e max t1 t2 t3).1 ≡ s }
    // No other endpoint changes.
    ensures frame { (e most : ℕ) (s : State)
        → IsSource e most s → (row : List PortState) (max : ℕ) (t1 t2 t3 : Way)
        → OnlySource e s (in_law s row e max t1 t2 t3).1 }
{}

/// The packets of a source, end to end, are its next bytes: none twice and none left out.
#[tactic(auto, using(usb_device::proofs::EndpointPackets::packets_of_a_source))]
pub fn source_is_cut()
    ensures bytes { (source : List ℕ) (most got behind : ℕ) (packets : List (List ℕ)) → 1 ≤ most
        → GivesOn (EndpointData.Source source) most got packets behind
        → concat packets ≡ take (length (concat packets)) (drop got source) }
    ensures place { (source : List ℕ) (most got behind : ℕ) (packets : List (List ℕ)) → 1 ≤ most
        → GivesOn (EndpointData.Source source) most got packets behind
        → behind ≡ got + length (concat packets) }
{}

/// OUT of an endpoint besides endpoint 0 (5.8): what is acknowledged joined its sink once, whatever
/// is lost.
pub fn sink_goes_on()
    ensures sink { (e most : ℕ) (before bytes : List ℕ) (t : Toggle) (s : State)
        → IsSink e most s → length bytes ≤ most → SinkAt e before bytes t s → (t1 t2 t3 : Way)
        → SinkOn e before bytes t (out_law s e t bytes t1 t2 t3).0
        (out_law s e t bytes t1 t2 t3).1 }
    ensures halted { (e most : ℕ) (bytes : List ℕ) (t : Toggle) (s : State)
        → IsSink e most s → (out_end s e).state.halted ≡ true → forgotten s ≡ s
        → (t1 t2 t3 : Way)
        → ((out_law s e t bytes t1 t2 t3).0 ≡ Some Ack → ⊥)
        × ((out_law s e t bytes t1 t2 t3).1 ≡ s) }
    // No other endpoint changes.
    ensures frame { (e most : ℕ) (bytes : List ℕ) (t : Toggle) (s : State)
        → IsSink e most s → (t1 t2 t3 : Way)
        → OnlySink e s (out_law s e t bytes t1 t2 t3).1 }
{}
