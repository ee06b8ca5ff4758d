//! The bus of a host between two calls.
ghost use Rattle.std.specs.Prelude.{◌≡◌, ◌≤◌};

use usb_bus::{Attempt, Bus, BusFault, Outcome};

/// The bus of a host between two calls: it is asked nothing.
#[derive(Drop)]
pub(crate) struct Idle {
    roots: u8,
    ghost some_root: { 1 ≤ roots },
    ghost few_roots: { roots ≤ 7 },
}

impl Idle {
    /// The bus of a controller with this number of root ports.
    pub(crate) fn new(roots: u8) -> Idle
        requires least { 1 ≤ roots }
        requires most { roots ≤ 7 }
    {
        Idle { roots }
    }
}

impl Bus for Idle {
    ghost use Rattle.std.specs.Prelude.{None, false};
    ghost use Rattle.usb_dialogue.specs.Hearing.{no_world};

    ghost modelled = { false };

    ghost world = { λ bus. no_world };

    ghost trace = { λ bus. None };

    ghost spent = { λ bus. 0 };

    ghost failed = { λ bus. None };

    ghost ports = { λ bus. bus.roots };

    fn attempt(&mut self, _attempt: &Attempt) -> Result<Outcome, BusFault> {
        Ok(Outcome::Nothing)
    }

    fn root_ports(&self) -> u8 {
        self.roots
    }

    fn root_status(&self, _port: u8) -> [u8; 4] {
        [0; 4]
    }

    fn root_set(&mut self, _port: u8, _feature: u16) {}

    fn root_clear(&mut self, _port: u8, _feature: u16) {}

    fn restart_endpoint(&mut self, _address: u8, _number: u8, _is_in: bool) {}

    ghost counted = { λ known bus. Prim.cc known };

    ghost settled = { λ known bus. Prim.cc known };

    ghost between = { λ known bus working. Prim.cc known };
}
