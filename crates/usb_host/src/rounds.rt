//! The parts of a round.
ghost use Rattle.std.specs.Prelude.{◌≡◌, true, ◌⊎◌, IfSome, IfNone, IsSome};
ghost use Rattle.usb_port.specs.Path.{IsPath};
ghost use Rattle.usb_device.specs.Bulk.{told_bits};
ghost use Rattle.usb_table.specs.Listing.{hub_facts_at};
ghost use Rattle.usb_table.specs.Findings.{is_hub, is_waiting};
ghost use Rattle.usb_table.specs.NextEntries.{ComesAfter, IsNext, IsLast};
ghost use Rattle.usb_port.specs.Pool.{IsFull};
ghost use Rattle.usb_host.specs.Agreement.{Agrees};
ghost use Rattle.usb_host.specs.Ports.{Waits};
ghost use Rattle.usb_host.specs.Bounds.{hub_poll_bound, hubs_bound, looks_bound, roots_bound, round_bound, told_bound};
ghost use Rattle.usb_host.specs.PartCalls.{PartCall, RoundCall};
ghost use Rattle.usb_host.specs.Progress.{either};
ghost use Rattle.usb_host.specs.Service.{LooksAgain, ServesEach, ServesHub, ServesHubs, ServesPorts, ServesTold, WentByParts};

use crate::HostFault;
use crate::host::{Host, Round};
use usb_bus::Bus;
use usb_hub::PipeFault;
use usb_port::PortPath;

impl Round {
    /// Whether one of two parts of a round did anything.
    fn and(self, other: Round) -> Round
        ensures { result ≡ either self other }
    {
        match self {
            Round::Worked => Round::Worked,
            Round::Quiet => other,
        }
    }
}

impl<B: Bus> Host<B> {
    /// The root ports, the hubs, and the devices that wait.
    pub(crate) fn run_round(&mut self) -> Result<Round, HostFault>
        ensures call { RoundCall B.modelled round_bound self.old result self.new }
        ensures parts { B.modelled ≡ true → WentByParts self.old result self.new }
    {
        let roots = self.serve_roots()?;
        let hubs = self.serve_hubs()?;
        let looks = self.retry_waiting()?;
        Ok(roots.and(hubs).and(looks))
    }

    /// Handles each root port whose connection has changed, by rising number.
    fn serve_roots(&mut self) -> Result<Round, HostFault>
        ensures call { RoundCall B.modelled roots_bound self.old result self.new }
        ensures roots { B.modelled ≡ true → ServesEach self.old result self.new }
    {
        let mut round = Round::Quiet;
        let roots = self.bus.root_ports();
        'ports: for number in 1..roots + 1 {
            if self.has_changed(number) {
                self.handle_root(number)?;
                round = Round::Worked;
            }
        }
        Ok(round)
    }

    /// Polls each hub that is known, by rising path, and handles the ports that it reports.
    fn serve_hubs(&mut self) -> Result<Round, HostFault>
        ensures call { RoundCall B.modelled hubs_bound self.old result self.new }
        ensures hubs { B.modelled ≡ true → ServesHubs self.old result self.new }
    {
        let mut round = Round::Quiet;
        let mut last: Option<PortPath> = None;
        'hubs: while let Some(hub) = self.next_hub(&last) {
            // for the checker: a path has one to seven numbers
            let _numbers = hub.numbers();
            round = round.and(self.serve_hub(&hub)?);
            last = Some(hub);
        }
        Ok(round)
    }

    /// Polls a hub, and handles the ports that it reports; if it does not answer, it is dropped.
    fn serve_hub(&mut self, hub: &PortPath) -> Result<Round, HostFault>
        requires { IsSome (hub_facts_at hub.now self.old.entries) }
        ensures call { RoundCall B.modelled hub_poll_bound self.old result self.new }
        ensures polls { B.modelled ≡ true → ServesHub hub.now self.old result self.new }
    {
        // for the checker: a path has one to seven numbers
        let _numbers = hub.numbers();
        match self.table.poll(&mut self.bus, hub) {
            Ok(None) => Ok(Round::Quiet),
            Ok(Some(bits)) => {
                self.service_reported(hub, told_bits(bits.as_slice()))?;
                Ok(Round::Worked)
            }
            Err(PipeFault::Bus(fault)) => Err(HostFault::Bus(fault)),
            Err(_) => {
                self.drop_hub(hub.duplicate())?;
                Ok(Round::Worked)
            }
        }
    }

    /// Handles a hub's status-change bitmap: its ports, and the hub itself if none of them has a change.
    fn service_reported(&mut self, hub: &PortPath, bits: u16) -> Result<(), HostFault>
        requires { IsPath hub.now }
        ensures call { PartCall B.modelled told_bound self.old result self.new }
        ensures serves { B.modelled ≡ true → ServesTold hub.now bits self.old result self.new }
    {
        if bits == 1 {
            self.serve_own(hub)
        } else {
            self.serve_ports(hub, bits)
        }
    }

    /// Handles each port of a hub whose bit is set, by rising number, as long as the hub is known.
    fn serve_ports(&mut self, hub: &PortPath, bits: u16) -> Result<(), HostFault>
        requires { IsPath hub.now }
        ensures call { PartCall B.modelled told_bound self.old result self.new }
        ensures serves { B.modelled ≡ true → ServesPorts hub.now bits self.old result self.new }
    {
        'ports: for number in 1..16u8 {
            if bits >> number & 1 == 1 {
                self.handle_below(hub, number)?;
            }
        }
        Ok(())
    }

    /// Enumerates each device again that waits for an address, by rising path, while one is free.
    fn retry_waiting(&mut self) -> Result<Round, HostFault>
        ensures call { RoundCall B.modelled looks_bound self.old result self.new }
        ensures looks { B.modelled ≡ true → LooksAgain self.old result self.new }
    {
        let mut round = Round::Quiet;
        let mut last: Option<PortPath> = None;
        'waiting: while let Some(path) = self.next_waiting(&last) {
            // for the checker: a path has one to seven numbers
            let _numbers = path.numbers();
            round = round.and(self.retry_one(&path)?);
            last = Some(path);
        }
        Ok(round)
    }

    /// The next hub that is known.
    fn next_hub(&self, last: &Option<PortPath>) -> Option<PortPath>
        ensures some { IfSome result (IsNext is_hub last.now self.now.entries) }
        ensures none { IfNone result (IsLast is_hub last.now self.now.entries) }
        ensures agree { Agrees self.now.options self.now.entries self.now.addresses }
    {
        self.table.next_hub(last.as_ref())
    }

    /// The next device that waits for an address; none if no address is free.
    fn next_waiting(&self, last: &Option<PortPath>) -> Option<PortPath>
        ensures some { IfSome result (λ path. Waits path self.now × ComesAfter last.now path) }
        ensures none { IfNone result
            (IsFull self.now.addresses ⊎ IsLast is_waiting last.now self.now.entries) }
        ensures agree { Agrees self.now.options self.now.entries self.now.addresses }
    {
        if self.pool.is_full() {
            return None;
        }
        self.table.next_waiting(last.as_ref())
    }
}

/// The bits of a status change: bit 0 of the hub itself, bit n of port n, in one byte or two (11.12.4).
fn told_bits(bits: &[u8]) -> u16
    ensures { result ≡ told_bits bits.now }
{
    match bits {
        [] => 0,
        [low] => u16::from(*low),
        [low, high, ..] => u16::from(*low) + 256 * u16::from(*high),
    }
}
