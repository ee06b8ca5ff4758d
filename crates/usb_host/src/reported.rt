//! The devices that were reported to the caller.
ghost use Rattle.std.specs.Prelude.{◌≡◌, ◌+◌, ◌<◌, [], None, is_some, length};
ghost use Rattle.std.specs.BTreeMap.{insert_entry};
ghost use Rattle.usb_port.specs.Order.{path_cmp};
ghost use Rattle.usb_host.specs.Reported.{IsPlaceOf, TakesReported, ReportedRise, reported_at};

use arrayvec::ArrayVec;
use std::marker::Model;
use usb_port::PortPath;

/// A device that was reported to the caller.
#[derive(Debug, Drop)]
pub(crate) struct ReportedDevice {
    pub path: PortPath,
    pub number: u64,
}

impl Model for ReportedDevice {
    ghost use Rattle.std.specs.Prelude.{List, ℕ};

    ghost Value = { List ℕ × ℕ };

    ghost view = { λ d. (d.path, d.number) };
}

impl ReportedDevice {
    /// The same device again.
    fn duplicate(&self) -> ReportedDevice
        ensures { result ≡ self.now }
    {
        ReportedDevice {
            path: self.path.duplicate(),
            number: self.number,
        }
    }
}

impl Default for ReportedDevice {
    fn default() -> ReportedDevice {
        match PortPath::root(1) {
            Some(path) => ReportedDevice { path, number: 0 },
            None => unreachable!(),
        }
    }
}

/// The devices that were reported to the caller, by rising path.
#[derive(Debug, Drop)]
pub(crate) struct Reported {
    // there are fewer addresses
    devices: ArrayVec<ReportedDevice, 128>,
}

impl Model for Reported {
    ghost use Rattle.usb_host.specs.Reported.{ReportedDevices, ReportedRise};

    ghost Value = { ReportedDevices };

    ghost view = { λ t. t.devices.items };

    ghost invariant = { λ t. ReportedRise t.devices.items };
}

impl Reported {
    /// None was reported.
    pub fn new() -> Self
        ensures { result ≡ [] }
    {
        Reported {
            devices: ArrayVec::new(),
        }
    }

    /// The same devices again.
    pub fn duplicate(&self) -> Reported
        ensures { result ≡ self.now }
    {
        let mut devices = ArrayVec::new();
        'devices: for device in self.devices.as_slice() {
            devices.push(device.duplicate());
        }
        Reported { devices }
    }

    /// The devices, by rising path.
    pub fn devices(&self) -> &[ReportedDevice]
        ensures value { result.now ≡ self.now }
        ensures rises { ReportedRise self.now }
    {
        self.devices.as_slice()
    }

    /// How many of the devices have a path before this one.
    fn place_of(&self, path: &PortPath) -> usize
        ensures place { IsPlaceOf path.now result self.now }
        ensures rises { ReportedRise self.now }
    {
        'devices: for (place, device) in self.devices.as_slice().iter().enumerate() {
            if device.path >= *path {
                return place;
            }
        }
        self.devices.len()
    }

    /// Whether a device was reported at a path.
    pub fn has(&self, path: &PortPath) -> bool
        ensures { result ≡ is_some (reported_at path.now self.now) }
    {
        match self.devices.as_slice().get(self.place_of(path)) {
            Some(device) => device.path == *path,
            None => false,
        }
    }

    /// Adds a device.
    pub fn enter(&mut self, path: PortPath, number: u64)
        requires unreported { reported_at path self.old ≡ None }
        requires room { length self.old < 128 }
        ensures value { self.new ≡ insert_entry path_cmp self.old path number }
        ensures len { length self.new ≡ length self.old + 1 }
    {
        let place = self.place_of(&path);
        self.devices.insert(place, ReportedDevice { path, number });
    }

    /// Takes out the device at a place, and returns its path.
    pub fn take(&mut self, place: usize) -> PortPath
        requires { place < length self.old }
        ensures takes { TakesReported place result self.old self.new }
        ensures len { length self.new + 1 ≡ length self.old }
    {
        let ReportedDevice { path, number: _ } = self.devices.remove(place);
        path
    }
}
