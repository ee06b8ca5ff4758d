//! Damage to a packet on its way.

/// What happens to a damaged packet.
#[derive(Clone, Copy, Debug, PartialEq, Eq)]
pub enum Harm {
    /// The packet is lost.
    Lose,
    /// The PRE before the packet is lost (8.6.5), and the packet with it.
    LosePre,
    /// One bit of the packet is flipped, counted from 0, at most 535.
    Flip(u16),
}

/// Damage to one packet of one attempt.
#[derive(Clone, Copy, Debug, PartialEq, Eq)]
pub struct Damage {
    /// The attempt, counted from 1.
    pub attempt: u64,
    /// The packet of the attempt, 1 to 3.
    pub packet: u8,
    /// What becomes of the packet.
    pub harm: Harm,
}
