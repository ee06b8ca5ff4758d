//! What both check fields promise to whoever relies on them.
ghost use Rattle.std.specs.Prelude.{◌≡◌, List, Bool};
ghost use Rattle.usb_check.specs.Polynomial.{IsCheck, DetectsOneBit, generator5, generator16};

/// Bits have one check field, and both generators detect each single wrong bit, at every length
/// (8.3.5).
///
/// The call does nothing; what it ensures is for proofs to cite.
pub fn check_laws()
    ensures one_field { (generator bits check other : List Bool)
        → IsCheck generator bits check → IsCheck generator bits other → check ≡ other }
    ensures five_bits { DetectsOneBit generator5 }
    ensures sixteen_bits { DetectsOneBit generator16 }
{}
