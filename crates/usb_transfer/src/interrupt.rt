//! Interrupt pipes (5.7).

use crate::{Bus, PipeFault, Target, poll_in};
use arrayvec::ArrayVec;
use std::marker::Model;
use usb_packet::Toggle;

/// A pipe to one interrupt endpoint of a device, which it asks for data.
///
/// It is made after the device was configured, before the endpoint gave a packet, and is the only
/// pipe to it.
#[derive(Debug, Drop)]
pub struct InterruptPipe {
    target: Target,
    ep: u8,
    toggle: Toggle,
}

impl Model for InterruptPipe {
    ghost use Rattle.usb_transfer.specs.InterruptPipes.{Interrupt};
    ghost use Rattle.usb_transfer.specs.End.{IsEnd};

    ghost Value = { Interrupt };

    ghost view = { λ p. record { target = p.target; ep = p.ep; toggle = p.toggle } };

    ghost invariant = { λ p. IsEnd p.target p.ep p.target.max };
}

impl InterruptPipe {
    ghost use Rattle.std.specs.Prelude.{◌≡◌, ◌<◌, ◌≤◌, true, length, IfOk, IfSome};
    ghost use Rattle.usb_packet.specs.declared.Toggle.TheVariants.{Zero};
    ghost use Rattle.usb_bus.specs.Traces.{Spends, Steps};
    ghost use Rattle.usb_transfer.specs.Transactions.{IsTarget, transaction_bound};
    ghost use Rattle.usb_transfer.specs.Control.{BusToldIt};
    ghost use Rattle.usb_transfer.specs.End.{packet_target};
    ghost use Rattle.usb_transfer.specs.InterruptPipes.{Interrupt, interrupt_made};
    ghost use Rattle.usb_transfer.specs.Transfers.{InterruptPoll};

    /// A pipe to an endpoint, 1 to 15, with its maximum packet, 1 to 64 bytes.
    pub fn new(target: Target, ep: u8, max: u8) -> Self
        requires target { IsTarget target }
        requires endpoint { ep < 16 }
        requires least { 1 ≤ max }
        requires most { max ≤ 64 }
        ensures { result ≡ record { target = packet_target target max; ep = ep; toggle = Zero } }
    {
        InterruptPipe {
            target: Target { max, ..target },
            ep,
            toggle: Toggle::Zero,
        }
    }

    /// A second pipe to the endpoint, as far as this one, for a copy of the host. Only one of the two may
    /// ask the endpoint from here on.
    pub fn duplicate(&self) -> InterruptPipe
        ensures { result ≡ self.now }
    {
        InterruptPipe {
            target: self.target,
            ep: self.ep,
            toggle: self.toggle,
        }
    }

    /// Asks once whether there are data: the packet, or None where the endpoint has nothing.
    ///
    /// It asks again after an error, and after a repeat, which is discarded.
    ///
    /// # Errors
    ///
    /// - `Stalled`: the endpoint answered STALL.
    /// - `Busy`: it gave 256 repeats.
    /// - `NoAnswer`: there were three errors in a row.
    /// - `Bus`: the bus has failed.
    ///
    /// It never returns `Broken` or `Memory`.
    pub fn poll<B: Bus>(&mut self, bus: &mut B) -> Result<Option<ArrayVec<u8, 64>>, PipeFault>
        ensures same { interrupt_made self.new ≡ interrupt_made self.old }
        ensures any_bus { Spends B.spent B.ports transaction_bound bus.old bus.new
            × BusToldIt result (B.failed bus.new)
            × IfOk result (λ got. IfSome got (λ packet.
            length packet.items ≤ self.old.target.max)) }
        ensures steps { B.modelled ≡ true
            → Steps B.world B.trace transaction_bound bus.old bus.new }
        ensures transfer { B.modelled ≡ true → InterruptPoll self.old
            (B.world bus.old) result self.new (B.world bus.new) }
    {
        let mut toggle = self.toggle;
        let polled = poll_in(bus, self.target, self.ep, &mut toggle);
        self.toggle = toggle;
        Ok(polled?.map(|done| done.into_packet()))
    }
}
