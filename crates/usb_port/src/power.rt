//! The power of a port.
ghost use Rattle.std.specs.Prelude.{◌≡◌};
ghost use Rattle.usb_port.specs.Power.{supply_of};

/// What a port gives to a device, in mA (7.2.1): 500 at the root and at a hub that powers itself,
/// 100 at any other hub.
#[tactic(auto, unfolding(crate::specs::Power::supply_of))]
pub fn supply(is_root: bool, self_powered: bool) -> u16
    ensures { result ≡ supply_of is_root self_powered }
{
    if is_root || self_powered { 500 } else { 100 }
}
