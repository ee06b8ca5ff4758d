//! A listing as a host reports it, line by line.
ghost use Rattle.std.specs.Prelude.{◌≡◌, ◌≢◌, ◌++◌, ◌∷◌, ◌⊎◌, [], map, IfErr, Ok, Err, OnErr, OnOk};
ghost use Rattle.usb_verdict.specs.declared.fault.ListingFault.{ListingFault as Fault};
ghost use Rattle.usb_verdict.specs.declared.fault.ListingFault.TheVariants.{Memory};
ghost use Rattle.usb_verdict.specs.Lines.{chosen, said};
ghost use Rattle.usb_verdict.specs.Reports.{DetailSaid, accepted, amended, amended_port, detail_said, device_said, joined, line_joined, port_said, with_detail};

use crate::bytes::spells_bytes;
use crate::{ListingFault, ListingLine, read_bytes, read_listing_line};
use std::alloc::Global;
use std::marker::Model;
use usb_judge::{Claim, ListedDevice, ListedPort};
use usb_port::PortPath;

/// The ports that the lines of a listing name, so far.
#[derive(Debug, Drop)]
pub struct ReportedListing {
    ports: Vec<ListedPort>,
}

/// What a line says of the device before it.
#[derive(Drop)]
enum Detail {
    /// The configuration that was chosen.
    Configuration(Vec<u8>),
    /// How many ports it has.
    Ports(u8),
}

impl Model for ReportedListing {
    ghost use Rattle.std.specs.Prelude.{List};
    ghost use Rattle.usb_judge.specs.declared.listed.ListedPort.{ListedPort as OnePort};

    ghost Value = { List OnePort };

    ghost view = { λ r. r.ports.items };
}

impl ReportedListing {
    /// A listing without lines.
    pub fn new(alloc: Global) -> Self
        ensures { result ≡ [] }
    {
        ReportedListing {
            ports: Vec::new(alloc),
        }
    }

    /// The ports that are named, in the order of their lines.
    pub fn ports(&self) -> &[ListedPort]
        ensures { result.now ≡ self.now }
    {
        self.ports.as_slice()
    }

    /// Takes the next line, one between `listing` and `end`. If a configuration or a number of ports
    /// is said again of a port, the last one counts.
    ///
    /// # Errors
    ///
    /// The first of these that applies. The ports are as before.
    ///
    /// - That of [`read_listing_line`], if the line says nothing.
    /// - `BadHex`: in the place of bytes are none.
    /// - `NoDevice`: a configuration or a number of ports is not that of the last port, or a device
    ///   was refused there.
    /// - `Memory`: memory was refused.
    pub fn take(&mut self, alloc: Global, line: &str) -> Result<(), ListingFault>
        ensures taken { OnOk result
            (line_joined line.now (map port_said self.old) ≡ Ok (map port_said self.new)) }
        ensures fault { IfErr result (λ fault.
            (fault ≡ Memory) ⊎ (line_joined line.now (map port_said self.old) ≡ Err fault)) }
        // A line with a fault has it, whatever memory there is.
        ensures refused { (fault : Fault) → line_joined line.now (map port_said self.old)
            ≡ Err fault → result ≡ Err fault }
        ensures kept { OnErr result (self.new ≡ self.old) }
    {
        match read_listing_line(line) {
            Ok(said) => self.join(alloc, said),
            Err(fault) => Err(fault),
        }
    }

    /// Adds what a line says.
    fn join(&mut self, alloc: Global, line: ListingLine<'_>) -> Result<(), ListingFault>
        ensures taken { OnOk result
            (joined (said line.entry) (map port_said self.old) ≡ Ok (map port_said self.new)) }
        ensures fault { IfErr result (λ fault.
            (fault ≡ Memory) ⊎ (joined (said line.entry) (map port_said self.old) ≡ Err fault)) }
        ensures refused { (fault : Fault) → joined (said line.entry) (map port_said self.old)
            ≡ Err fault → result ≡ Err fault }
        ensures kept { OnErr result (self.new ≡ self.old) }
    {
        match line {
            ListingLine::Device {
                path,
                address,
                low,
                descriptor,
            } => match read_bytes(alloc, descriptor) {
                Ok(bytes) => self.push(accepted(path, address, low, bytes)),
                Err(fault) => Err(fault),
            },
            ListingLine::Refused(path) => self.push(ListedPort {
                path,
                claim: Claim::Refused,
            }),
            ListingLine::Chosen(path, configuration) => self.choose(alloc, &path, configuration),
            ListingLine::Hub(path, ports) => self.amend(&path, Detail::Ports(ports)),
            ListingLine::Other(_) => Ok(()),
        }
    }

    /// Adds the configuration that was chosen for the device at a path. Memory is needed last.
    fn choose(&mut self, alloc: Global, path: &PortPath, digits: &str) -> Result<(), ListingFault>
        ensures taken { OnOk result (joined (chosen path.now digits.now) (map port_said self.old)
            ≡ Ok (map port_said self.new)) }
        ensures fault { IfErr result (λ fault. (fault ≡ Memory)
            ⊎ (joined (chosen path.now digits.now) (map port_said self.old) ≡ Err fault)) }
        ensures refused { (fault : Fault) → joined (chosen path.now digits.now)
            (map port_said self.old) ≡ Err fault → result ≡ Err fault }
        ensures kept { OnErr result (self.new ≡ self.old) }
    {
        if !spells_bytes(digits) {
            return Err(ListingFault::BadHex);
        }
        see_last(self.ports.as_slice(), path)?;
        let bytes = read_bytes(alloc, digits)?;
        self.amend(path, Detail::Configuration(bytes))
    }

    /// Adds a port.
    fn push(&mut self, port: ListedPort) -> Result<(), ListingFault>
        ensures pushed { OnOk result (self.new ≡ self.old ++ port ∷ []) }
        ensures fault { IfErr result (λ fault. fault ≡ Memory) }
        ensures kept { OnErr result (self.new ≡ self.old) }
    {
        match self.ports.push(port) {
            Ok(()) => Ok(()),
            Err(_) => Err(ListingFault::Memory),
        }
    }

    /// Adds a detail to the last port, which is to be that of a device at this path.
    #[tactic(auto, using(crate::proofs::Amends::amended_last))]
    fn amend(&mut self, path: &PortPath, detail: Detail) -> Result<(), ListingFault>
        ensures amended { OnOk result
            (amended path.now (detail_said detail) (map port_said self.old)
            ≡ Ok (map port_said self.new)) }
        ensures fault { IfErr result (λ fault.
            amended path.now (detail_said detail) (map port_said self.old) ≡ Err fault) }
        ensures kept { OnErr result (self.new ≡ self.old) }
    {
        match self.ports.last_mut() {
            Some(port) => amend_port(port, path, detail),
            None => Err(ListingFault::NoDevice),
        }
    }
}

/// Whether the last port is that of a device at this path, so that a detail can be added to it.
#[tactic(auto, using(crate::proofs::Amends::refused_get, crate::proofs::Amends::kept_get, crate::proofs::Amends::none_get))]
fn see_last(ports: &[ListedPort], path: &PortPath) -> Result<(), ListingFault>
    ensures there { OnOk result ((detail : DetailSaid) (fault : Fault)
        → amended path.now detail (map port_said ports.now) ≢ Err fault) }
    ensures fault { IfErr result (λ fault. (detail : DetailSaid)
        → amended path.now detail (map port_said ports.now) ≡ Err fault) }
{
    match ports.last() {
        Some(port) => see_port(port, path),
        None => Err(ListingFault::NoDevice),
    }
}

/// Whether a port is that of a device at this path.
fn see_port(port: &ListedPort, path: &PortPath) -> Result<(), ListingFault>
    ensures there { OnOk result ((detail : DetailSaid) (fault : Fault)
        → amended_port path.now detail (port_said port.now) ≢ Err fault) }
    ensures fault { IfErr result (λ fault. (detail : DetailSaid)
        → amended_port path.now detail (port_said port.now) ≡ Err fault) }
{
    match &port.claim {
        Claim::Device(_) if port.path == *path => Ok(()),
        _ => Err(ListingFault::NoDevice),
    }
}

/// Adds a detail to a port, which is to be that of a device at this path.
fn amend_port(port: &mut ListedPort, path: &PortPath, detail: Detail) -> Result<(), ListingFault>
    ensures amended { OnOk result (amended_port path.now (detail_said detail) (port_said port.old)
        ≡ Ok (port_said port.new)) }
    ensures fault { IfErr result (λ fault.
        amended_port path.now (detail_said detail) (port_said port.old) ≡ Err fault) }
    ensures kept { OnErr result (port.new ≡ port.old) }
{
    if port.path != *path {
        return Err(ListingFault::NoDevice);
    }
    match &mut port.claim {
        Claim::Device(device) => {
            add_detail(device, detail);
            Ok(())
        }
        Claim::Refused => Err(ListingFault::NoDevice),
    }
}

/// Adds a detail to what is said of a device.
fn add_detail(device: &mut ListedDevice, detail: Detail)
    ensures { device_said device.new ≡ with_detail (detail_said detail) (device_said device.old) }
{
    match detail {
        Detail::Configuration(bytes) => device.configuration = Some(bytes),
        Detail::Ports(ports) => device.ports = Some(ports),
    }
}

/// A port with a device that was accepted.
fn accepted(path: PortPath, address: u8, low: bool, descriptor: Vec<u8>) -> ListedPort
    ensures { port_said result ≡ accepted path address low descriptor.items }
{
    ListedPort {
        path,
        claim: Claim::Device(ListedDevice {
            address,
            low,
            descriptor,
            configuration: None,
            ports: None,
        }),
    }
}
