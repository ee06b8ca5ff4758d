//! What the host does at a port.
ghost use Rattle.std.specs.Prelude.{◌≡◌, ◌*◌, [], ◌∷◌, true, false, IsTrue, Ok, IfErr, IfOk, IfSome, IfNone, IsSome, is_some};
ghost use Rattle.usb_port.specs.Calls.{IsClearFeature};
ghost use Rattle.usb_port.specs.Order.{parent_of};
ghost use Rattle.usb_port.specs.Path.{IsPath, IsPortNumber};
ghost use Rattle.usb_world.specs.Worlds.{IsRootPort, root_port_at};
ghost use Rattle.usb_hub.specs.Port.{IsAsked};
ghost use Rattle.usb_enum.specs.Stops.{at_port};
ghost use Rattle.usb_table.specs.TableEntries.{has_at};
ghost use Rattle.usb_table.specs.Findings.{accepted_device_at};
ghost use Rattle.usb_table.specs.KnownPorts.{IsAskable, known_port};
ghost use Rattle.usb_table.specs.Listing.{tier_of};
ghost use Rattle.usb_transfer.specs.Control.{write_bound};
ghost use Rattle.usb_host.specs.Changes.{HasOnlyWorldChanges, IsCleared, is_stuck, was_disabled};
ghost use Rattle.usb_host.specs.LeftPorts.{LeavesNoMore};
ghost use Rattle.usb_host.specs.NearPorts.{DropsNear, IsOnWay, PortEnds};
ghost use Rattle.usb_host.specs.PortHandling.{DisablesOnWay, Climbs};
ghost use Rattle.usb_host.specs.PartCalls.{PartCall, PortPart, RoundCall};
ghost use Rattle.usb_host.specs.Ports.{IsPortAt, StandsNowhere, IsDue, Waits, Broke, Entered, Forgets};
ghost use Rattle.usb_enum.specs.Bounds.{read_bound, widest_enumeration};
ghost use Rattle.usb_host.specs.Bounds.{clearing_bound, drop_bound, handling_bound, look_bound, serving_bound};
ghost use Rattle.usb_host.specs.Progress.{HostSpends, OnlyBusSteps, OnlyLeaves};
ghost use Rattle.usb_host.specs.Requests.{ClearsBoth, ClearsError, ClearsFeature, ClearsOthers, ClearsOwn, ClearsPort, ClearsReported, ClearsWhere, SettlesPort, ShowsPort, TidiesPort};
ghost use Rattle.usb_host.specs.Service.{Discovers, DropsOne, FinishesAt, HandlesNumber, HandlesPort, LooksAfterError, LooksAt, LooksOnceMore, OwnHandled, OwnServed, RenewsPort, ServesOwn, ServesPort};
ghost use Rattle.usb_host.specs.ToldFaults.{HostReported};

use crate::HostFault;
use crate::host::{Host, Round};
use crate::pool::{enter, release};
use arrayvec::ArrayVec;
use usb_bus::Bus;
use usb_enum::{Cause, EnumFault, Finding, Place, enumerate};
use usb_hub::{
    HubPort, PipeFault, PortStatus, clear_hub_changes, clear_port, clear_port_change, has_root,
    port_status,
};
use usb_port::{PortPath, supply};
use usb_request::feature::{C_PORT_CONNECTION, C_PORT_ENABLE, C_PORT_RESET, PORT_ENABLE};
use usb_request::hub_feature::{C_PORT_OVER_CURRENT, C_PORT_SUSPEND};
use usb_table::{KnownPort, address_of};

impl<B: Bus> Host<B> {
    /// Whether the connection of a root port has changed; no if the bus has no such port, nor while the port is left
    /// alone. It is so no longer where it shows another status.
    pub(crate) fn has_changed(&mut self, number: u8) -> bool
        requires { B.modelled ≡ true → IsRootPort self.old.world number }
        ensures rests { OnlyLeaves B.modelled self.old self.new }
        ensures fewer { LeavesNoMore self.old.counts.left self.new.counts.left }
        ensures changed { B.modelled ≡ true
            → result ≡ (root_port_at self.old.world number).connection_changed }
    {
        if !has_root(&self.bus, number) {
            return false;
        }
        let status = self.bus.root_status(number);
        let changed = PortStatus::from_bytes(status).connection_changed;
        if !self.left.is_used() {
            return changed;
        }
        if self.left.has_at(number, status) {
            return false;
        }
        self.left.shows(number, status);
        changed
    }

    /// Leaves a root port alone if a clearing has not taken its change of connection away, as this status says
    /// that was read after it. A hub does not keep a change so.
    fn leave(&mut self, path: &PortPath, port: HubPort, cleared: PortStatus)
        requires { B.modelled ≡ true → IsCleared port cleared }
        ensures { OnlyLeaves B.modelled self.old self.new }
    {
        if let HubPort::Root(number) = port {
            if cleared.connection_changed {
                let has_device = self.has_device(path);
                self.leave_root(number, cleared.connected, has_device);
            } else {
                self.left.forget(number);
            }
        }
    }

    /// Leaves a root port alone at the status that it shows, if that has the change and fits what was found:
    /// something is connected or nothing, as it was, and the port of an accepted device is enabled. Else the next
    /// round handles it once more; a status that does not fit then either is the port's for good.
    fn leave_root(&mut self, number: u8, connected: bool, has_device: bool)
        requires { B.modelled ≡ false }
        ensures { OnlyLeaves B.modelled self.old self.new }
    {
        if !has_root(&self.bus, number) {
            return;
        }
        let status = self.bus.root_status(number);
        let shown = PortStatus::from_bytes(status);
        let fits = shown.connected == connected && (shown.enabled || !has_device);
        if !shown.connection_changed {
            self.left.forget(number);
        } else if fits || self.left.was_tried(number, status) {
            self.left.leave(number, status);
        } else {
            self.left.forget(number);
            self.left.note(number, status);
        }
    }

    /// Leaves a root port that the host has disabled alone at the status that it shows now, if it was left alone.
    fn stay_left(&mut self, path: &PortPath)
        ensures { OnlyLeaves B.modelled self.old self.new }
    {
        if let [number] = path.numbers() {
            let number = *number;
            if self.left.has(number) {
                self.leave_root(number, true, false);
            }
        }
    }

    /// Handles a root port.
    pub(crate) fn handle_root(&mut self, number: u8) -> Result<(), HostFault>
        requires port { B.modelled ≡ true → IsRootPort self.old.world number }
        requires number { IsPortNumber number }
        ensures call { PartCall B.modelled handling_bound self.old result self.new }
        ensures handles { B.modelled ≡ true → HandlesPort (number ∷ [])
            ((root_port_at self.old.world number).connection_changed ≡ true)
            self.old result self.new }
    {
        // for the checker: the entries and the addresses agree
        let _table = &self.table;
        let port = KnownPort {
            port: HubPort::Root(number),
            supply: supply(true, false),
        };
        self.service_port(&root_path(number), port)
    }

    /// Handles a port of a hub, if that is known and has the port.
    pub(crate) fn handle_below(&mut self, hub: &PortPath, number: u8) -> Result<Round, HostFault>
        requires { IsPath hub.now }
        ensures call { PartCall B.modelled handling_bound self.old result self.new }
        ensures handles { B.modelled ≡ true
            → HandlesNumber hub.now number self.old result self.new }
    {
        let mut path = hub.duplicate();
        if !path.push(number) {
            return Ok(Round::Quiet);
        }
        let Some(port) = self.port_at(&path) else {
            return Ok(Round::Quiet);
        };
        self.service_port(&path, port)?;
        Ok(Round::Worked)
    }

    /// Clears the changes of a hub itself, by way of its first port.
    pub(crate) fn serve_own(&mut self, hub: &PortPath) -> Result<(), HostFault>
        requires { IsPath hub.now }
        ensures call { PartCall B.modelled handling_bound self.old result self.new }
        ensures serves { B.modelled ≡ true
            → ServesOwn (OwnServed hub.now) self.old result self.new }
    {
        let mut path = hub.duplicate();
        if !path.push(1) {
            return Ok(());
        }
        let Some(port) = self.port_at(&path) else {
            return Ok(());
        };
        self.handle_own(&path, port)
    }

    /// Clears the changes of the hub that has a port. If it does not answer, it is dropped.
    fn handle_own(&mut self, path: &PortPath, port: KnownPort) -> Result<(), HostFault>
        requires { IsPortAt B.modelled path.now port self.old }
        ensures call { PartCall B.modelled handling_bound self.old result self.new }
        ensures serves { B.modelled ≡ true
            → ServesOwn (OwnHandled path.now) self.old result self.new }
    {
        let cleared = self.clear_own(port.port);
        self.drop_lost_parent(path, cleared)
    }

    /// Clears the changes of the hub that has a port; the root has none.
    fn clear_own(&mut self, port: HubPort) -> Result<(), EnumFault>
        requires port { IsAsked B.modelled self.old.world port }
        requires askable { IsAskable port }
        ensures spends { HostSpends clearing_bound self.old self.new }
        ensures told { HostReported B.modelled result self.new }
        ensures rests { OnlyBusSteps self.old self.new }
        ensures clears { B.modelled ≡ true → ClearsOwn port self.old result self.new }
    {
        match port {
            HubPort::Root(_) => Ok(()),
            HubPort::External { hub, .. } => {
                at_port(clear_hub_changes(self.alloc, &mut self.bus, hub))
            }
        }
    }

    /// Looks again at a device that waits for an address.
    pub(crate) fn retry_one(&mut self, path: &PortPath) -> Result<Round, HostFault>
        requires { Waits path.now self.old }
        ensures call { RoundCall B.modelled handling_bound self.old result self.new }
        ensures looks { B.modelled ≡ true → LooksOnceMore path.now self.old result self.new }
    {
        // for the checker: a path has one to seven numbers
        let _numbers = path.numbers();
        let Some(port) = self.port_at(path) else {
            return Ok(Round::Quiet);
        };
        self.look_over(path, port)?;
        Ok(Round::Worked)
    }

    /// The port at a path, if it is one of the root or of a hub that is known.
    pub(crate) fn port_at(&self, path: &PortPath) -> Option<KnownPort>
        ensures some { IfSome result (λ port. IsPortAt B.modelled path.now port self.now) }
        ensures none { B.modelled ≡ true → IfNone result (StandsNowhere path.now self.now) }
        ensures unknown { IfNone result
            (IsSome (parent_of path.now) → known_port path.now self.now.entries ≡ None) }
    {
        // for the checker: a path has one to seven numbers
        let _numbers = path.numbers();
        let known = self.table.port_at(path)?;
        match known.port {
            HubPort::Root(number) if number > self.bus.root_ports() => None,
            _ => Some(known),
        }
    }

    /// Handles a port. If a request to its hub fails, that hub is dropped.
    fn service_port(&mut self, path: &PortPath, port: KnownPort) -> Result<(), HostFault>
        requires { IsPortAt B.modelled path.now port self.old }
        ensures call { PartCall B.modelled handling_bound self.old result self.new }
        ensures handles { B.modelled ≡ true
            → HandlesPort path.now (IsDue self.old.world port.port) self.old result self.new }
    {
        let served = self.serve(path, port);
        self.drop_lost_parent(path, served)
    }

    /// Drops the hub of a port, if a request to it failed.
    pub(crate) fn drop_lost_parent(
        &mut self,
        path: &PortPath,
        served: Result<(), EnumFault>,
    ) -> Result<(), HostFault>
        requires broke { B.modelled ≡ true
            → IfErr served (λ fault. Broke path.now fault self.old.world) }
        requires told { HostReported B.modelled served self.old }
        ensures call { PartCall B.modelled drop_bound self.old result self.new }
        ensures ends { PortEnds path.now served result self.old.entries self.new.entries }
        ensures finishes { B.modelled ≡ true → FinishesAt path.now served self.old result self.new }
    {
        match served {
            Ok(()) => Ok(()),
            Err(EnumFault::Bus(fault)) => Err(HostFault::Bus(fault)),
            Err(EnumFault::Memory) => Err(HostFault::Memory),
            Err(EnumFault::ParentLost) => match path.parent() {
                Some(hub) => self.drop_hub(hub),
                // a root port is a register, and never fails
                None => Ok(()),
            },
        }
    }

    /// If the connection of a port has changed, or its hub has disabled it on an error, what is
    /// there is forgotten and found anew; else its changes are cleared.
    fn serve(&mut self, path: &PortPath, port: KnownPort) -> Result<(), EnumFault>
        requires { IsPortAt B.modelled path.now port self.old }
        ensures call { PortPart B.modelled path.now serving_bound self.old result self.new }
        ensures serves { B.modelled ≡ true → ServesPort path.now port self.old result self.new }
    {
        let status = self.status(port.port)?;
        if status.connection_changed {
            self.enumerate_again(path, port)
        } else if self.has_failed(path, port.port, status) {
            self.look_after_error(path, port)
        } else {
            self.settle(port.port, status)
        }
    }

    /// Whether a hub has disabled a port on an error (11.8.1), so that its device is dead.
    fn has_failed(&self, path: &PortPath, port: HubPort, status: PortStatus) -> bool
        ensures { result ≡ was_disabled port status (accepted_device_at path.now self.now.entries) }
    {
        match port {
            HubPort::Root(_) => false,
            HubPort::External { .. } => {
                status.enable_changed
                    && (status.connected && (!status.enabled && self.has_device(path)))
            }
        }
    }

    /// Whether a device was accepted at a path.
    fn has_device(&self, path: &PortPath) -> bool
        ensures { result ≡ is_some (accepted_device_at path.now self.now.entries) }
    {
        matches!(self.table.get(path), Some(Finding::Device(_)))
    }

    /// The status of a port.
    fn status(&mut self, port: HubPort) -> Result<PortStatus, EnumFault>
        requires port { IsAsked B.modelled self.old.world port }
        requires askable { IsAskable port }
        ensures spends { HostSpends (read_bound 4) self.old self.new }
        ensures told { HostReported B.modelled result self.new }
        ensures rests { OnlyBusSteps self.old self.new }
        ensures shows { B.modelled ≡ true → ShowsPort port self.old result self.new }
    {
        at_port(port_status(self.alloc, &mut self.bus, port))
    }

    /// Clears a feature of a port (11.24.2.2).
    fn clear(&mut self, port: HubPort, feature: u16) -> Result<(), EnumFault>
        requires port { IsAsked B.modelled self.old.world port }
        requires named { IsClearFeature feature }
        ensures spends { HostSpends write_bound self.old self.new }
        ensures told { HostReported B.modelled result self.new }
        ensures rests { OnlyBusSteps self.old self.new }
        ensures clears { B.modelled ≡ true
            → ClearsFeature port feature self.old result self.new }
    {
        at_port(clear_port(&mut self.bus, port, feature))
    }

    /// Clears a feature of a port, if this is set.
    fn clear_where(&mut self, asked: bool, port: HubPort, feature: u16) -> Result<(), EnumFault>
        requires port { IsAsked B.modelled self.old.world port }
        requires named { IsClearFeature feature }
        ensures spends { HostSpends write_bound self.old self.new }
        ensures told { HostReported B.modelled result self.new }
        ensures rests { OnlyBusSteps self.old self.new }
        ensures clears { B.modelled ≡ true
            → ClearsWhere asked port feature self.old result self.new }
    {
        if asked {
            self.clear(port, feature)
        } else {
            Ok(())
        }
    }

    /// Clears a suspend or over-current change of a port, if this is set.
    fn clear_other(&mut self, asked: bool, port: HubPort, feature: u16) -> Result<(), EnumFault>
        requires { IsAsked B.modelled self.old.world port }
        ensures spends { HostSpends write_bound self.old self.new }
        ensures told { HostReported B.modelled result self.new }
        ensures rests { OnlyBusSteps self.old self.new }
        ensures none { asked ≡ false → (result ≡ Ok tt) × (self.new ≡ self.old) }
        ensures clears { B.modelled ≡ true
            → ClearsOthers port write_bound (ClearsReported asked port feature)
            self.old result self.new }
    {
        if asked {
            at_port(clear_port_change(&mut self.bus, port, feature))
        } else {
            Ok(())
        }
    }

    /// Clears each change of a port whose connection has not changed.
    fn settle(&mut self, port: HubPort, status: PortStatus) -> Result<(), EnumFault>
        requires { IsAsked B.modelled self.old.world port }
        ensures spends { HostSpends (4 * write_bound) self.old self.new }
        ensures told { HostReported B.modelled result self.new }
        ensures rests { OnlyBusSteps self.old self.new }
        ensures settles { B.modelled ≡ true → SettlesPort port status self.old result self.new }
    {
        self.clear_other_changes(port, status)?;
        self.clear_others(port, status)
    }

    /// Clears the changes of a port that ask for nothing else: of its suspend and its over-current.
    fn clear_others(&mut self, port: HubPort, status: PortStatus) -> Result<(), EnumFault>
        requires { IsAsked B.modelled self.old.world port }
        ensures spends { HostSpends (2 * write_bound) self.old self.new }
        ensures told { HostReported B.modelled result self.new }
        ensures rests { OnlyBusSteps self.old self.new }
        ensures none { HasOnlyWorldChanges status → (result ≡ Ok tt) × (self.new ≡ self.old) }
        ensures clears { B.modelled ≡ true
            → ClearsOthers port (2 * write_bound) (ClearsBoth port status)
            self.old result self.new }
    {
        self.clear_other(status.suspend_changed, port, C_PORT_SUSPEND)?;
        self.clear_other(status.over_current_changed, port, C_PORT_OVER_CURRENT)
    }

    /// Clears what an earlier reset or error left of a port whose connection has not changed.
    fn clear_other_changes(&mut self, port: HubPort, status: PortStatus) -> Result<(), EnumFault>
        requires { IsAsked B.modelled self.old.world port }
        ensures spends { HostSpends (2 * write_bound) self.old self.new }
        ensures told { HostReported B.modelled result self.new }
        ensures rests { OnlyBusSteps self.old self.new }
        ensures tidies { B.modelled ≡ true → TidiesPort port status self.old result self.new }
    {
        self.clear_where(status.enable_changed, port, C_PORT_ENABLE)?;
        self.clear_where(status.reset_changed, port, C_PORT_RESET)
    }

    /// Forgets what was found at a port, and finds what is there now. The change is cleared before
    /// the status is read, so that no later change is lost.
    pub(crate) fn enumerate_again(
        &mut self,
        path: &PortPath,
        port: KnownPort,
    ) -> Result<(), EnumFault>
        requires { IsPortAt B.modelled path.now port self.old }
        ensures call { PortPart B.modelled path.now look_bound self.old result self.new }
        ensures looks { B.modelled ≡ true → LooksAt path.now port self.old result self.new }
    {
        let status = self.clear_change(port.port)?;
        self.renew(path, port, status)?;
        self.leave(path, port.port, status);
        Ok(())
    }

    /// Forgets a device that is dead since its hub has disabled its port on an error, and finds it
    /// anew.
    fn look_after_error(&mut self, path: &PortPath, port: KnownPort) -> Result<(), EnumFault>
        requires { IsPortAt B.modelled path.now port self.old }
        ensures call { PortPart B.modelled path.now look_bound self.old result self.new }
        ensures looks { B.modelled ≡ true
            → LooksAfterError path.now port self.old result self.new }
    {
        let status = self.clear_error(port.port)?;
        self.renew(path, port, status)
    }

    /// Clears a port's change of connection, reads its status, and disables it where it is enabled.
    /// If a hub has not cleared the change, it is lost.
    fn clear_change(&mut self, port: HubPort) -> Result<PortStatus, EnumFault>
        requires port { IsAsked B.modelled self.old.world port }
        requires askable { IsAskable port }
        ensures spends { HostSpends clearing_bound self.old self.new }
        ensures told { HostReported B.modelled result self.new }
        ensures rests { OnlyBusSteps self.old self.new }
        ensures steady { IfOk result (λ status. is_stuck port status ≡ false) }
        ensures clears { B.modelled ≡ true → ClearsPort port self.old result self.new }
    {
        self.clear(port, C_PORT_CONNECTION)?;
        let status = self.status(port)?;
        if is_stuck(port, status) {
            return Err(EnumFault::ParentLost);
        }
        self.clear_where(status.enabled, port, PORT_ENABLE)?;
        Ok(status)
    }

    /// Clears a port's change of enable, disables it, and reads its status.
    fn clear_error(&mut self, port: HubPort) -> Result<PortStatus, EnumFault>
        requires port { IsAsked B.modelled self.old.world port }
        requires askable { IsAskable port }
        ensures spends { HostSpends clearing_bound self.old self.new }
        ensures told { HostReported B.modelled result self.new }
        ensures rests { OnlyBusSteps self.old self.new }
        ensures clears { B.modelled ≡ true → ClearsError port self.old result self.new }
    {
        self.clear(port, C_PORT_ENABLE)?;
        self.clear(port, PORT_ENABLE)?;
        self.status(port)
    }

    /// Forgets what was found at a port, and where its status shows a device, finds what is there.
    fn renew(
        &mut self,
        path: &PortPath,
        port: KnownPort,
        status: PortStatus,
    ) -> Result<(), EnumFault>
        requires { IsPortAt B.modelled path.now port self.old }
        ensures call { PortPart B.modelled path.now widest_enumeration self.old result self.new }
        ensures renews { B.modelled ≡ true
            → RenewsPort path.now port status.connected self.old result self.new }
    {
        self.forget(path);
        if status.connected {
            self.discover(path, port)
        } else {
            Ok(())
        }
    }

    /// Enters what is found at a port, of which nothing is known.
    fn discover(&mut self, path: &PortPath, port: KnownPort) -> Result<(), EnumFault>
        requires port { IsPortAt B.modelled path.now port self.old }
        requires away { has_at path.now self.old.entries ≡ false }
        ensures call { PortPart B.modelled path.now widest_enumeration self.old result self.new }
        ensures entered { Entered path.now self.old result self.new }
        ensures finds { B.modelled ≡ true → Discovers path.now port self.old result self.new }
    {
        let place = Place {
            tier: tier(path),
            supply: port.supply,
            options: self.options,
        };
        let mut said = ArrayVec::new();
        let finding = enumerate(
            self.alloc,
            &mut self.bus,
            &mut self.pool,
            port.port,
            place,
            &mut said,
        )?;
        Ok(enter(
            &mut self.table,
            &mut self.pool,
            &mut self.numbers,
            path.duplicate(),
            finding,
            said,
        )?)
    }

    /// Drops a hub that failed: its port is disabled, what was there and below is forgotten, and
    /// it is listed as lost. Where its port cannot be disabled, its own hub is dropped in its place.
    pub(crate) fn drop_hub(&mut self, hub: PortPath) -> Result<(), HostFault>
        ensures call { PartCall B.modelled drop_bound self.old result self.new }
        ensures near { DropsNear hub result self.old.entries self.new.entries }
        ensures drops { B.modelled ≡ true → DropsOne hub self.old result self.new }
    {
        let lost = self.disable_upward(hub)?;
        // for the checker: a path has one to seven numbers
        let _numbers = lost.numbers();
        self.forget(&lost);
        let lost_hub = Finding::Refused(Cause::Lost);
        Ok(self.table.insert(lost, lost_hub, ArrayVec::new())?)
    }

    /// Disables the port at a path, or the nearest one above it that can be disabled. A root port that was left alone
    /// stays so at its new status.
    fn disable_upward(&mut self, first: PortPath) -> Result<PortPath, HostFault>
        ensures call { PartCall B.modelled drop_bound self.old result self.new }
        ensures on { IfOk result (λ path. IsOnWay first path self.old.entries) }
        ensures rests { OnlyBusSteps self.old self.new }
        ensures climbs { B.modelled ≡ true → Climbs first self.old result self.new }
    {
        let lost = self.climb(first)?;
        self.stay_left(&lost);
        Ok(lost)
    }

    /// Disables the port at a path, or the nearest one above it that can be disabled.
    fn climb(&mut self, first: PortPath) -> Result<PortPath, HostFault>
        ensures call { PartCall B.modelled drop_bound self.old result self.new }
        ensures on { IfOk result (λ path. IsOnWay first path self.old.entries) }
        ensures rests { OnlyBusSteps self.old self.new }
        ensures climbs { B.modelled ≡ true → Climbs first self.old result self.new }
    {
        // for the checker: a path has one to seven numbers
        let _numbers = first.numbers();
        let mut path = first;
        'up: loop {
            if self.disable(&path)? {
                return Ok(path);
            }
            match path.parent() {
                Some(above) => path = above,
                None => return Ok(path),
            }
        }
    }

    /// Disables the port at a path, and says whether it could.
    fn disable(&mut self, path: &PortPath) -> Result<bool, HostFault>
        ensures call { PartCall B.modelled write_bound self.old result self.new }
        ensures known { IfOk result
            (λ done. IsTrue done → IsSome (known_port path.now self.old.entries)) }
        ensures rests { OnlyBusSteps self.old self.new }
        ensures disables { B.modelled ≡ true → DisablesOnWay path.now self.old result self.new }
    {
        let Some(port) = self.port_at(path) else {
            return Ok(false);
        };
        match clear_port(&mut self.bus, port.port, PORT_ENABLE) {
            Ok(()) => Ok(true),
            Err(PipeFault::Bus(fault)) => Err(HostFault::Bus(fault)),
            Err(_) => Ok(false),
        }
    }

    /// Takes out the entries at a path and below it, and releases their addresses.
    #[tactic(auto, using(usb_table::proofs::Interface::takes_one, crate::proofs::entries::Agreements::accounts_freed, crate::proofs::entries::Agreements::range_freed, usb_table::proofs::Interface::taken_apart, crate::proofs::entries::Agreements::full_before, crate::proofs::devices::Pipes::pipes_apart))]
    fn forget(&mut self, path: &PortPath)
        ensures { Forgets path.now self.old self.new }
    {
        'entries: while let Some(finding) = self.table.take_at(path) {
            release(&mut self.pool, address_of(&finding));
        }
    }
}

/// Whether a hub has not cleared a change of connection that it reports right after its clearing: a
/// plug or unplug that came between would have disabled the port (11.5.1).
fn is_stuck(port: HubPort, status: PortStatus) -> bool
    ensures { result ≡ is_stuck port status }
{
    match port {
        HubPort::Root(_) => false,
        HubPort::External { .. } => status.enabled && status.connection_changed,
    }
}

/// What a request at a port gave: if a hub does not serve it, that is lost.
fn at_port<T>(outcome: Result<T, PipeFault>) -> Result<T, EnumFault>
    ensures { result ≡ at_port outcome }
{
    match outcome {
        Ok(answer) => Ok(answer),
        Err(fault) => Err(EnumFault::from(fault)),
    }
}

/// The tier of a device at a path: the root hub is tier 1 (4.1.1).
fn tier(path: &PortPath) -> u8
    ensures { result ≡ tier_of path.now }
{
    path.numbers().len() as u8 + 1
}

/// The path of a root port.
fn root_path(number: u8) -> PortPath
    requires { IsPortNumber number }
    ensures { result ≡ number ∷ [] }
{
    match PortPath::root(number) {
        Some(path) => path,
        None => unreachable!(),
    }
}
