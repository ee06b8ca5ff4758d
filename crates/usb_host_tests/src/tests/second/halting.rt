//! A bus around another one, that fails after n attempts.
ghost use Rattle.std.specs.Prelude.{false, Some, if◌then◌else◌};
ghost use Rattle.usb_world.specs.declared.types.BusFault.TheVariants.{Failed};

use usb_bus::{Attempt, Bus, BusFault, Outcome};

/// The bus below, as long as attempts are left.
#[derive(Drop)]
pub(super) struct HaltingBus<B: Bus> {
    bus: B,
    attempts_left: u64,
    /// Whether it has failed.
    halted: bool,
}

impl<B: Bus> HaltingBus<B> {
    pub(super) fn new(bus: B, attempts_left: u64) -> Self {
        HaltingBus {
            bus,
            attempts_left,
            halted: false,
        }
    }

    /// The bus below.
    pub(super) fn into_inner(self) -> B {
        let HaltingBus {
            bus,
            attempts_left: _,
            halted: _,
        } = self;
        bus
    }
}

/// Nothing is said of its world.
impl<B: Bus> Bus for HaltingBus<B> {
    ghost modelled = { false };

    ghost world = { λ halting. B.world halting.bus };

    ghost trace = { λ halting. B.trace halting.bus };

    ghost spent = { λ halting. B.spent halting.bus };

    ghost failed = { λ halting. if halting.halted then Some Failed else B.failed halting.bus };

    ghost ports = { λ halting. B.ports halting.bus };

    fn attempt(&mut self, attempt: &Attempt) -> Result<Outcome, BusFault> {
        let Some(left) = self.attempts_left.checked_sub(1) else {
            self.halted = true;
            return Err(BusFault::Failed);
        };
        self.halted = false;
        self.attempts_left = left;
        self.bus.attempt(attempt)
    }

    fn root_ports(&self) -> u8 {
        self.bus.root_ports()
    }

    fn root_status(&self, port: u8) -> [u8; 4] {
        if port == 0 || port > self.bus.root_ports() {
            return [0; 4];
        }
        self.bus.root_status(port)
    }

    fn root_set(&mut self, port: u8, feature: u16) {
        if port > 0 && port <= self.bus.root_ports() {
            self.bus.root_set(port, feature);
        }
    }

    fn root_clear(&mut self, port: u8, feature: u16) {
        if port > 0 && port <= self.bus.root_ports() {
            self.bus.root_clear(port, feature);
        }
    }

    fn restart_endpoint(&mut self, address: u8, number: u8, is_in: bool) {
        self.bus.restart_endpoint(address, number, is_in);
    }

    ghost counted = { λ known halting. Prim.cc known };

    ghost settled = { λ known halting. Prim.cc known };

    ghost between = { λ known halting working. Prim.cc known };
}
