//! The damages of a plan.

use std::alloc::{AllocError, Global};
use std::marker::Model;
use usb_world::Damage;

/// At most 10,000 damages in their order.
#[derive(Debug, Drop)]
pub struct Damages {
    damages: Vec<Damage>,
}

impl Model for Damages {
    ghost use Rattle.std.specs.Prelude.{List, ◌≤◌, length};
    ghost use Rattle.usb_world.specs.declared.damage.Damage.{Damage};
    ghost use Rattle.usb_world.specs.PlanLimits.{damage_most};

    ghost Value = { List Damage };

    ghost view = { λ d. d.damages.items };

    ghost invariant = { λ d. length d.damages.items ≤ damage_most };
}

impl Damages {
    ghost use Rattle.std.specs.Prelude.{◌≡◌, ◌<◌, ◌≤◌, [], ◌∷◌, ◌++◌, length, OnOk, OnErr};
    ghost use Rattle.usb_world.specs.PlanLimits.{damage_most};

    /// No damage.
    pub fn new(alloc: Global) -> Self
        ensures { result ≡ [] }
    {
        Damages {
            damages: Vec::new(alloc),
        }
    }

    /// The damages in their order.
    pub fn as_slice(&self) -> &[Damage]
        ensures value { result.now ≡ self.now }
        ensures bound { length self.now ≤ damage_most }
    {
        self.damages.as_slice()
    }

    /// Adds a damage at the end.
    ///
    /// # Errors
    ///
    /// Memory was refused, and nothing changes.
    pub fn push(&mut self, damage: Damage) -> Result<(), AllocError>
        requires room { length self.old < damage_most }
        ensures ok { OnOk result (self.new ≡ self.old ++ damage ∷ []) }
        ensures err { OnErr result (self.new ≡ self.old) }
    {
        Ok(self.damages.push(damage)?)
    }
}
