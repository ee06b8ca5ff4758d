//! What the spelling of packets promises to whoever relies on it.
ghost use Rattle.std.specs.Prelude.{◌≡◌, ◌*◌, ◌<◌, ℕ, List, length};
ghost use Rattle.usb_packet.specs.declared.Packet.{Packet};
ghost use Rattle.usb_packet.specs.Spelling.{Spells, flipped};

use usb_check::check_laws;

/// A packet has one spelling, and bytes spell one packet.
///
/// The call does nothing; what it ensures is for proofs to cite.
pub fn spelling_laws()
    ensures one_spelling { (a b : List ℕ) (p : Packet) → Spells a p → Spells b p → a ≡ b }
    ensures one_packet { (bytes : List ℕ) (p q : Packet)
        → Spells bytes p → Spells bytes q → p ≡ q }
{}

/// A packet's bytes with any one bit flipped spell no packet, at every length (8.3.1 and 8.3.5).
///
/// The call does nothing; what it ensures is for proofs to cite.
pub fn one_flipped_bit()
    ensures { (bytes : List ℕ) (p q : Packet) (n : ℕ)
        → Spells bytes p → n < 8 * length bytes → Spells (flipped bytes n) q → ⊥ }
{
    check_laws();
}
