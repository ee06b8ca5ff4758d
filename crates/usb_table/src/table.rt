//! What is at each port.
ghost use Rattle.std.specs.Prelude.{◌≡◌, ℕ, ◌≤◌, ◌*◌, List, None, length, false, true, option_copied};
ghost use Rattle.std.specs.Prelude.{IfSome, IfNone, IfOk, IfErr, OnOk, OnErr};
ghost use Rattle.std.specs.BTreeMap.{is_at};
ghost use Rattle.std.specs.Map.{lookup};
ghost use Rattle.usb_port.specs.Order.{path_cmp};
ghost use Rattle.usb_table.specs.TableEntries.{Rises, has_at};
ghost use Rattle.usb_table.specs.Findings.{IsSoundFinding, is_accepted, is_hub, is_waiting};
ghost use Rattle.usb_table.specs.Findings.{HasNewAddress, HasDevice, HasNoDevice};
ghost use Rattle.usb_table.specs.Kinds.{fits};
ghost use Rattle.usb_table.specs.KnownPorts.{IsAskable, known_port};
ghost use Rattle.usb_table.specs.NextEntries.{IsNext, IsLast};
ghost use Rattle.usb_table.specs.InterfaceSettings.{SetOrRefused, TableSetsInterface};
ghost use Rattle.usb_table.specs.InterfaceSettings.{interface_target, pipes_set};
ghost use Rattle.usb_table.specs.Findings.{accepted_device_at};
ghost use Rattle.usb_table.specs.KnownPorts.{is_below_hub};
ghost use Rattle.usb_table.specs.Tables.{ArePipesAt, GoesThrough, TakesOut};
ghost use Rattle.usb_table.specs.Tables.{empty, entered, pipes_at, said_at, with_entry};
ghost use Rattle.usb_table.specs.Keys.{IsPiped};
ghost use Rattle.usb_table.specs.PipeRows.{asked_through, clears_miss, pipe_to, polls_miss};
ghost use Rattle.usb_table.specs.PipeRows.{polls_through, receives_miss, receives_through};
ghost use Rattle.usb_table.specs.PipeRows.{sends_miss, sends_through, through, unless_broken};
ghost use Rattle.usb_bus.specs.Traces.{Spends};
ghost use Rattle.usb_transfer.specs.Control.{BusToldIt, write_bound};
ghost use Rattle.usb_transfer.specs.Transactions.{transaction_bound};
ghost use Rattle.usb_table.specs.Transfers.{MovedOrRefused, TransferTold};
ghost use Rattle.usb_table.specs.Levels.{TableClears, TableClearsOf, TablePolls, TableReceives};
ghost use Rattle.usb_table.specs.Levels.{TableReports, TableSends};

use crate::entry::Entry;
use crate::found::address_number;
use crate::indexes::Indexes;
use crate::kind::{Kind, fits, start_after};
use crate::known::{is_below_hub, port_of_finding, root_port};
use crate::{EndpointChoice, KnownPort, TableFault, TransferFault};
use arrayvec::ArrayVec;
use slab::Slab;
use std::alloc::{AllocError, Global};
use std::collections::BTreeMap;
use std::marker::Model;
use std::ops::Bound;
use usb_bus::Bus;
use usb_enum::Finding;
use usb_port::{Address, PortPath};
use usb_request::EndpointAddress;
use usb_transfer::PipeFault;

/// What is at each port, by the port's path, with the host's pipes to it.
#[derive(Debug, Drop)]
pub struct DeviceTable {
    entries: Slab<Entry>,
    indexes: Indexes,
}

impl Model for DeviceTable {
    ghost use Rattle.slab.specs.Slab.{get};
    ghost use Rattle.usb_table.specs.Tables.{Table};

    ghost Value = { Table };

    ghost use Rattle.usb_table.specs.Keys.{AreIndexes, ArePiped, findings, table_of};

    ghost view = { λ t. table_of (get t.entries) t.indexes.by_path.entries };

    ghost invariant = { λ t. AreIndexes (findings (get t.entries))
        t.indexes.by_path.entries t.indexes.by_address.entries
        × ArePiped (get t.entries) t.indexes.by_path.entries };
}

impl DeviceTable {
    /// A table with no entry.
    pub fn new(alloc: Global) -> Self
        ensures { result ≡ empty }
    {
        DeviceTable {
            entries: Slab::new(alloc),
            indexes: Indexes {
                by_path: BTreeMap::new(alloc),
                by_address: BTreeMap::new(alloc),
            },
        }
    }

    /// Enters what was just found at a path, if nothing is at it or below it. If the device was
    /// refused, it is kept what it said of itself: the bytes of its device descriptor that were
    /// read last, 0 to 18.
    ///
    /// # Errors
    ///
    /// Memory was refused, and nothing changes.
    pub fn insert(
        &mut self,
        path: PortPath,
        finding: Finding,
        said: ArrayVec<u8, 18>,
    ) -> Result<(), AllocError>
        requires away { has_at path self.old.entries ≡ false }
        requires sound { IsSoundFinding finding }
        requires address { HasNewAddress finding self.old.entries }
        ensures ok { OnOk result (self.new ≡ entered path finding said self.old) }
        ensures err { OnErr result (self.new ≡ self.old) }
    {
        let entry = Entry::new(finding, is_below_hub(&path), said);
        self.put(path, entry)
    }

    /// Puts an entry at a path that has none.
    ///
    /// # Errors
    ///
    /// Memory was refused, and nothing changes.
    fn put(&mut self, path: PortPath, entry: Entry) -> Result<(), AllocError>
        requires away { lookup (is_at (path_cmp path)) self.old.entries ≡ None }
        requires fits { IsPiped path entry }
        requires address { HasNewAddress entry.finding self.old.entries }
        ensures ok { OnOk result (self.new ≡ with_entry path entry.finding entry.pipes self.old) }
        ensures err { OnErr result (self.new ≡ self.old) }
    {
        let address = address_number(entry.finding());
        self.entries.reserve(1)?;
        let key = self.entries.vacant_key();
        self.indexes.insert(path, address, key)?;
        self.entries.insert_reserved(entry);
        Ok(())
    }

    /// What was found at a path.
    pub fn get(&self, path: &PortPath) -> Option<&Finding>
        ensures value { option_copied result ≡ lookup (is_at (path_cmp path.now)) self.now.entries }
        ensures sound { IfSome result (λ finding. IsSoundFinding finding.now) }
        ensures pipes { ArePipesAt path.now self.now }
    {
        match self.indexes.by_path.get(path) {
            Some(key) => Some(self.entries[*key].finding()),
            None => None,
        }
    }

    /// What the device at a path said of itself before it was refused (9.6.1): the bytes of its
    /// device descriptor that were read last, 0 to 18. `None` where no refused device is.
    pub fn said(&self, path: &PortPath) -> Option<&[u8]>
        ensures { option_copied result ≡ said_at path.now self.now }
    {
        match self.indexes.by_path.get(path) {
            Some(key) => self.entries[*key].said(),
            None => None,
        }
    }

    /// The device that has an address, if one was found.
    pub fn at_address(&self, address: Address) -> Option<&Finding>
        ensures some { IfSome result (λ finding. HasDevice address finding.now self.now.entries) }
        ensures none { IfNone result (HasNoDevice address self.now.entries) }
    {
        match self.indexes.by_address.get(&address.number()) {
            Some(key) => Some(self.entries[*key].finding()),
            None => None,
        }
    }

    /// Takes out one entry at or below a path; `None` where there is none.
    pub fn take_at(&mut self, path: &PortPath) -> Option<Finding>
        ensures some { IfSome result (λ finding. TakesOut path.now finding self.old self.new) }
        ensures none { IfNone result (has_at path.now self.old.entries ≡ false) }
        ensures same { IfNone result (self.new ≡ self.old) }
    {
        let first = self.indexes.first_at(path)?;
        let key = self.indexes.by_path.remove(&first)?;
        let entry = self.entries.remove(key);
        self.indexes.remove_address(address_number(entry.finding()));
        Some(entry.into_finding())
    }

    /// A second table's worth of entries, by rising path.
    ///
    /// # Errors
    ///
    /// Memory was refused.
    pub fn entries(&self, alloc: Global) -> Result<Vec<(PortPath, Finding)>, AllocError>
        ensures value { IfOk result (λ entries. entries.items ≡ self.now.entries) }
        ensures rising { Rises self.now.entries }
        ensures pipes { (path : List ℕ) → ArePipesAt path self.now }
    {
        let mut entries = Vec::with_capacity(alloc, self.indexes.by_path.len())?;
        'entries: for (path, key) in self.indexes.by_path.iter() {
            let finding = self.entries[*key].finding();
            entries.push((path.duplicate(), finding.try_clone(alloc)?))?;
        }
        Ok(entries)
    }

    /// A second table of the same value: what was found at each path, and the pipes to it, each as far
    /// as it is here. It is for a second host (`Host::copied_onto`). Of two tables over one bus only one
    /// may be used from here on.
    ///
    /// # Errors
    ///
    /// Memory was refused.
    pub fn try_clone(&self, alloc: Global) -> Result<DeviceTable, AllocError>
        ensures { IfOk result (λ table. table ≡ self.now) }
    {
        let mut table = DeviceTable::new(alloc);
        'entries: for (path, key) in self.indexes.by_path.iter() {
            let entry = self.entries[*key].try_clone(alloc)?;
            table.put(path.duplicate(), entry)?;
        }
        Ok(table)
    }

    /// The port at a path, and what it gives; `None` where no accepted hub has it.
    pub fn port_at(&self, path: &PortPath) -> Option<KnownPort>
        ensures value { result ≡ known_port path.now self.now.entries }
        ensures served { IfSome result (λ known. IsAskable known.port) }
    {
        let Some(hub) = path.parent() else {
            return Some(root_port(path.port()));
        };
        let finding = self.get(&hub)?;
        port_of_finding(finding, is_below_hub(&hub), path.port())
    }

    /// The least path of an accepted device after the last one, or of all.
    pub fn next_accepted(&self, last: Option<&PortPath>) -> Option<PortPath>
        ensures some { IfSome result
            (IsNext is_accepted (option_copied last.entry) self.now.entries) }
        ensures none { IfNone result
            (IsLast is_accepted (option_copied last.entry) self.now.entries) }
    {
        self.next_of(Kind::Accepted, last)
    }

    /// The least path of an accepted hub after the last one, or of all.
    pub fn next_hub(&self, last: Option<&PortPath>) -> Option<PortPath>
        ensures some { IfSome result (IsNext is_hub (option_copied last.entry) self.now.entries) }
        ensures none { IfNone result (IsLast is_hub (option_copied last.entry) self.now.entries) }
    {
        self.next_of(Kind::Hub, last)
    }

    /// The least path, after the last one or of all, of a device that was refused because no
    /// address was free.
    pub fn next_waiting(&self, last: Option<&PortPath>) -> Option<PortPath>
        ensures some { IfSome result
            (IsNext is_waiting (option_copied last.entry) self.now.entries) }
        ensures none { IfNone result
            (IsLast is_waiting (option_copied last.entry) self.now.entries) }
    {
        self.next_of(Kind::Waiting, last)
    }

    /// The least path, after the last one or of all, whose entry is of this kind; None if there is
    /// none.
    fn next_of(&self, kind: Kind, last: Option<&PortPath>) -> Option<PortPath>
        ensures some { IfSome result
            (IsNext (fits kind) (option_copied last.entry) self.now.entries) }
        ensures none { IfNone result
            (IsLast (fits kind) (option_copied last.entry) self.now.entries) }
    {
        if self.indexes.by_path.is_empty() {
            return None;
        }
        let behind = (start_after(last), Bound::Unbounded);
        'entries: for (path, key) in self.indexes.by_path.range(behind) {
            if fits(kind, self.entries[*key].finding()) {
                return Some(path.duplicate());
            }
        }
        None
    }

    /// Asks the status endpoint of the hub at a path once; `None` also if no hub is there.
    ///
    /// # Errors
    ///
    /// - `Stalled`: the endpoint answered STALL.
    /// - `Busy`, `NoAnswer`: the transaction ended so.
    /// - `Bus`: the bus has failed.
    pub fn poll<B: Bus>(
        &mut self,
        bus: &mut B,
        hub: &PortPath,
    ) -> Result<Option<ArrayVec<u8, 64>>, PipeFault>
        ensures any_bus { Spends B.spent B.ports transaction_bound bus.old bus.new
            × BusToldIt result (B.failed bus.new) }
        ensures through { GoesThrough hub.now self.old self.new }
        ensures polls { B.modelled ≡ true → TablePolls hub.now
            self.old (B.world bus.old) (B.trace bus.old) result
            self.new (B.world bus.new) (B.trace bus.new) }
    {
        match self.indexes.by_path.get(hub) {
            Some(key) => self.entries[*key].pipes.poll(bus),
            None => Ok(None),
        }
    }

    /// Sends bytes to an OUT endpoint of the function at a path.
    ///
    /// # Errors
    ///
    /// - `NoDevice`: no accepted device is at the path.
    /// - `NoEndpoint`: the device is a hub, or has no such OUT endpoint that a pipe can use; the
    ///   first bulk one is at full speed.
    /// - `Broken`: the pipe must be cleared first.
    /// - `Stalled`, `Busy`, `NoAnswer`: the transaction of a packet ended so.
    /// - `Bus`: the bus has failed.
    pub fn send<B: Bus>(
        &mut self,
        bus: &mut B,
        path: &PortPath,
        choice: EndpointChoice,
        bytes: &[u8],
    ) -> Result<(), TableFault>
        ensures any_bus { Spends B.spent B.ports (transaction_bound * length bytes.now)
            bus.old bus.new
            × TransferTold result (B.failed bus.new)
            × MovedOrRefused
            (unless_broken (asked_through (sends_through choice) (sends_miss choice)
            (pipes_at path.now self.old)))
            (pipes_at path.now self.old) bus.old result (pipes_at path.now self.new) bus.new }
        ensures through { GoesThrough path.now self.old self.new }
        ensures sends { B.modelled ≡ true → TableSends path.now choice bytes.now
            self.old (B.world bus.old) (B.trace bus.old) result
            self.new (B.world bus.new) (B.trace bus.new) }
    {
        match self.indexes.by_path.get(path) {
            Some(key) => self.entries[*key].pipes.send(bus, choice, bytes),
            None => Err(TableFault::Transfer(TransferFault::NoDevice)),
        }
    }

    /// Receives this number of packets from a bulk IN endpoint of the function at a path, or fewer
    /// if one of them is short.
    ///
    /// # Errors
    ///
    /// - `NoDevice`: no accepted device is at the path.
    /// - `NoEndpoint`: the device is a hub, is at low speed or has no such bulk IN endpoint.
    /// - `Broken`: the pipe must be cleared first.
    /// - `Stalled`, `Busy`, `NoAnswer`: the transaction of a packet ended so.
    /// - `Memory`: the bytes find no room.
    /// - `Bus`: the bus has failed.
    pub fn receive<B: Bus>(
        &mut self,
        alloc: Global,
        bus: &mut B,
        path: &PortPath,
        choice: EndpointChoice,
        packets: u16,
    ) -> Result<Vec<u8>, TableFault>
        ensures any_bus { Spends B.spent B.ports (transaction_bound * packets) bus.old bus.new
            × TransferTold result (B.failed bus.new)
            × MovedOrRefused
            (unless_broken (asked_through (receives_through choice) (receives_miss choice)
            (pipes_at path.now self.old)))
            (pipes_at path.now self.old) bus.old result (pipes_at path.now self.new) bus.new }
        ensures through { GoesThrough path.now self.old self.new }
        ensures receives { B.modelled ≡ true → TableReceives path.now choice packets
            self.old (B.world bus.old) (B.trace bus.old) result
            self.new (B.world bus.new) (B.trace bus.new) }
    {
        match self.indexes.by_path.get(path) {
            Some(key) => self.entries[*key]
                .pipes
                .receive(alloc, bus, choice, packets),
            None => Err(TableFault::Transfer(TransferFault::NoDevice)),
        }
    }

    /// Asks an interrupt IN endpoint of the function at a path once (5.7): its packet, of 0 to 64
    /// bytes, or None where it has nothing.
    ///
    /// # Errors
    ///
    /// - `NoDevice`: no accepted device is at the path.
    /// - `NoEndpoint`: the device is a hub or has no such interrupt IN endpoint.
    /// - `Broken`: the pipe must be cleared first.
    /// - `Stalled`, `Busy`, `NoAnswer`: the transaction ended so.
    /// - `Bus`: the bus has failed.
    pub fn poll_of<B: Bus>(
        &mut self,
        bus: &mut B,
        path: &PortPath,
        endpoint: EndpointAddress,
    ) -> Result<Option<ArrayVec<u8, 64>>, TableFault>
        ensures any_bus { Spends B.spent B.ports transaction_bound bus.old bus.new
            × TransferTold result (B.failed bus.new)
            × MovedOrRefused
            (unless_broken (asked_through (polls_through endpoint) (polls_miss endpoint)
            (pipes_at path.now self.old)))
            (pipes_at path.now self.old) bus.old result (pipes_at path.now self.new) bus.new }
        ensures most { IfOk result (λ got. IfSome got (λ packet.
            IfSome (through (polls_through endpoint) (pipes_at path.now self.old))
            (λ pipe. length packet.items ≤ pipe.max))) }
        ensures through { GoesThrough path.now self.old self.new }
        ensures reports { B.modelled ≡ true → TableReports path.now endpoint
            self.old (B.world bus.old) (B.trace bus.old) result
            self.new (B.world bus.new) (B.trace bus.new) }
    {
        match self.indexes.by_path.get(path) {
            Some(key) => self.entries[*key].pipes.poll_of(bus, endpoint),
            None => Err(TableFault::Transfer(TransferFault::NoDevice)),
        }
    }

    /// Clears the halts of the first bulk endpoints of the function at a path, where their pipes
    /// need it: of the OUT endpoint, then of the IN endpoint. The first fault ends it.
    ///
    /// # Errors
    ///
    /// - `NoDevice`: no accepted device is at the path.
    /// - `NoEndpoint`: the device is a hub, is at low speed or has no bulk endpoint.
    /// - `Stalled`: the device refused the request.
    /// - `Busy`, `NoAnswer`: a transaction ended so.
    /// - `Bus`: the bus has failed.
    pub fn clear_halt<B: Bus>(&mut self, bus: &mut B, path: &PortPath) -> Result<(), TableFault>
        ensures any_bus { Spends B.spent B.ports (2 * write_bound) bus.old bus.new
            × TransferTold result (B.failed bus.new) }
        ensures through { GoesThrough path.now self.old self.new }
        ensures clears { B.modelled ≡ true → TableClears path.now
            self.old (B.world bus.old) (B.trace bus.old) result
            self.new (B.world bus.new) (B.trace bus.new) }
    {
        match self.indexes.by_path.get(path) {
            Some(key) => self.entries[*key].pipes.clear_halt(bus),
            None => Err(TableFault::Transfer(TransferFault::NoDevice)),
        }
    }

    /// Clears the halt of an endpoint of the function at a path, of either kind and direction,
    /// whatever its pipe saw (9.4.5).
    ///
    /// # Errors
    ///
    /// - `NoDevice`: no accepted device is at the path.
    /// - `NoEndpoint`: the device is a hub or has no such endpoint that a pipe can use.
    /// - `Broken`: the setting of the endpoint's interface is not known.
    /// - `Stalled`: the device refused the request.
    /// - `Busy`, `NoAnswer`: a transaction ended so.
    /// - `Bus`: the bus has failed.
    pub fn clear_halt_of<B: Bus>(
        &mut self,
        bus: &mut B,
        path: &PortPath,
        endpoint: EndpointAddress,
    ) -> Result<(), TableFault>
        ensures any_bus { Spends B.spent B.ports write_bound bus.old bus.new
            × TransferTold result (B.failed bus.new)
            × MovedOrRefused (asked_through (pipe_to endpoint) (clears_miss endpoint)
            (pipes_at path.now self.old)) (pipes_at path.now self.old) bus.old result
            (pipes_at path.now self.new) bus.new }
        ensures through { GoesThrough path.now self.old self.new }
        ensures clears { B.modelled ≡ true → TableClearsOf path.now endpoint
            self.old (B.world bus.old) (B.trace bus.old) result
            self.new (B.world bus.new) (B.trace bus.new) }
    {
        match self.indexes.by_path.get(path) {
            Some(key) => self.entries[*key].pipes.clear_halt_of(bus, endpoint),
            None => Err(TableFault::Transfer(TransferFault::NoDevice)),
        }
    }

    /// Gives an interface of the function at a path an alternate setting (9.4.10). Each address
    /// that the interface has in some setting has a new pipe then, or none; all other pipes stay.
    ///
    /// # Errors
    ///
    /// - `NoDevice`: no accepted device is at the path.
    /// - `NoInterface`: the device is a hub or has no such setting, or the interface shares an
    ///   endpoint with another one.
    /// - `Stalled`: the device refused the request, and nothing changes.
    /// - `Busy`, `NoAnswer`: a transaction ended so. The pipes of the interface are lost until
    ///   another call sets it.
    /// - `Bus`: the bus has failed.
    pub fn set_interface<B: Bus>(
        &mut self,
        bus: &mut B,
        path: &PortPath,
        interface: u8,
        setting: u8,
    ) -> Result<(), TableFault>
        ensures any_bus { Spends B.spent B.ports write_bound bus.old bus.new
            × TransferTold result (B.failed bus.new)
            × SetOrRefused (interface_target path.now interface setting self.old.entries)
            (pipes_set (accepted_device_at path.now self.old.entries) (is_below_hub path.now)
            interface setting)
            (pipes_at path.now self.old) bus.old result (pipes_at path.now self.new) bus.new }
        ensures through { GoesThrough path.now self.old self.new }
        ensures sets { B.modelled ≡ true → TableSetsInterface path.now interface setting
            self.old (B.world bus.old) (B.trace bus.old) result
            self.new (B.world bus.new) (B.trace bus.new) }
    {
        let below_hub = is_below_hub(path);
        match self.indexes.by_path.get(path) {
            Some(key) => self.entries[*key].set_interface(bus, below_hub, interface, setting),
            None => Err(TableFault::Transfer(TransferFault::NoDevice)),
        }
    }
}
